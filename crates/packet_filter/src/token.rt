//! The words of an expression, each as what it says.

use crate::address::Address;
use crate::expression::{Network, Operator, Relation, Size, Transport, Version};

/// A word of an expression.
#[derive(Clone, Copy)]
pub(crate) enum Token {
    /// `not` or `!`.
    Not,
    /// `and` or `&&`; `or` or `||`.
    Operator(Operator),
    /// `(`.
    Open,
    /// `)`.
    Close,
    /// `[`.
    OpenBracket,
    /// `]`.
    CloseBracket,
    /// `&`.
    BitAnd,
    /// `|`.
    BitOr,
    /// `=`, `==`, `!=`, `<`, `<=`, `>` or `>=`.
    Relation(Relation),
    /// `ip`, `ip6`, `arp` or `rarp`.
    Network(Network),
    /// `tcp`, `udp` or `sctp`.
    Transport(Transport),
    /// The name of another protocol that IP carries, by its version and number.
    Protocol(Option<Version>, u8),
    /// The name of another protocol, by its EtherType.
    EtherType(u16),
    /// `ether`.
    Ether,
    /// `src`.
    Source,
    /// `dst`.
    Destination,
    /// `host`.
    Host,
    /// `net`.
    Net,
    /// `mask`.
    Mask,
    /// `port`.
    Port,
    /// `portrange`.
    PortRange,
    /// `proto`.
    Proto,
    /// `broadcast`.
    Broadcast,
    /// `multicast`.
    Multicast,
    /// `len`.
    Length,
    /// `vlan`.
    Vlan,
    /// `less`.
    Less,
    /// `greater`.
    Greater,
    /// `fragment`.
    Fragment,
    /// `first`.
    First,
    /// `checksum`.
    Checksum,
    /// `wrong`.
    Wrong,
    /// A number, or the name of a place, a flag or a type, such as `tcpflags`.
    Number(u32),
    /// A place and a size with a colon between them.
    Place(u32, Size),
    /// Two numbers with a hyphen between them.
    Range(u32, u32),
    /// The name of a port.
    Service(u16),
    /// The name of a number of IP's payload after `proto`, such as `\tcp` or `gre`.
    IpNumber(u8),
    /// The name of an EtherType after `ether proto`, such as `\arp`.
    TypeName(u16),
    /// An address.
    Address(Address),
    /// An address, and how many of its bits count.
    Prefix(Address, u32),
    /// The first two or three octets of an IPv4 address, as the address with zeros after them, and
    /// how many bits they are.
    Front(u32, u8),
    /// An Ethernet address.
    Hardware([u8; 6]),
    /// A word of pcap-filter(7) that this language does not have.
    Foreign,
    /// Any other word, which stands in no expression.
    Unknown,
}
