//! What the words of an expression name.

use crate::address::Address;

/// The version of an IP packet.
#[derive(Clone, Copy, Debug, PartialEq, Eq)]
pub enum Version {
    /// IPv4: `ip`.
    Ipv4,
    /// IPv6: `ip6`.
    Ipv6,
}

/// A protocol with addresses that a qualifier names.
#[derive(Clone, Copy, Debug)]
pub(crate) enum Network {
    /// `ip` or `ip6`.
    Ip(Version),
    /// `arp`.
    Arp,
    /// `rarp`.
    Rarp,
}

/// A transport protocol with ports.
#[derive(Clone, Copy, Debug)]
pub(crate) enum Transport {
    /// `tcp`.
    Tcp,
    /// `udp`.
    Udp,
    /// `sctp`.
    Sctp,
}

/// What joins two expressions.
#[derive(Clone, Copy, Debug, PartialEq, Eq)]
pub enum Operator {
    /// `and`: both hold.
    And,
    /// `or`: one holds.
    Or,
}

/// Which ends of a packet's way are asked about.
#[derive(Clone, Copy, Debug)]
pub(crate) enum Direction {
    /// `src`.
    Source,
    /// `dst`.
    Destination,
    /// `src or dst`: one of them at least.
    Either,
    /// `src and dst`: both.
    Both,
}

/// What a number is compared for.
#[derive(Clone, Copy, Debug)]
pub(crate) enum Relation {
    /// `=` or `==`.
    Equal,
    /// `!=`.
    NotEqual,
    /// `<`.
    Less,
    /// `<=`.
    LessOrEqual,
    /// `>`.
    Greater,
    /// `>=`.
    GreaterOrEqual,
}

/// Which bytes of a frame are loaded from.
#[derive(Clone, Copy, Debug)]
pub(crate) enum Layer {
    /// `ether`: the frame, from its Ethernet header on.
    Ether,
    /// `ip` or `ip6`: the IP packet, from its header on.
    Ip(Version),
    /// `arp` or `rarp`: what follows an EtherType of this number.
    Type(u16),
    /// The name of a protocol: the payload of an IP packet of that version or either, if it has
    /// this number.
    Payload(Option<Version>, u8),
}

/// How many bytes are loaded.
#[derive(Clone, Copy, Debug)]
pub(crate) enum Size {
    /// `1`.
    One,
    /// `2`.
    Two,
    /// `4`.
    Four,
}

/// A number that a packet tells.
#[derive(Clone, Copy, Debug)]
pub(crate) enum Quantity {
    /// `len`: how many bytes the frame had on the wire.
    Length,
    /// Bytes from a place on, as a number in network byte order.
    Load(Layer, u32, Size),
}

/// What one primitive of an expression says of a packet (pcap-filter(7)).
#[derive(Clone, Copy, Debug)]
pub(crate) enum Primitive {
    /// It is an IP packet of this version.
    Version(Version),
    /// Its EtherType, after all tags, is this.
    EtherType(u16),
    /// The payload of the IP packet, of this version or either, has this number.
    Proto(Option<Version>, u8),
    /// Of the addresses that a packet of this protocol or any has, these ends begin with so many
    /// bits of this address.
    Net(Option<Network>, Option<Direction>, Address, u8),
    /// The same of the bits that a mask has, over IPv4: these ends have those of this address.
    Masked(Option<Network>, Option<Direction>, u32, u32),
    /// It carries this transport protocol or any, and at these ends the port is from the first
    /// number to the second.
    Ports(Option<Transport>, Option<Direction>, u16, u16),
    /// Its Ethernet addresses at these ends are this.
    Hardware(Option<Direction>, [u8; 6]),
    /// It has a VLAN tag, of this identifier or any.
    Vlan(Option<u16>),
    /// The number, of which only the bits of a mask count, is in this relation to another.
    Compare(Quantity, Option<u32>, Relation, u32),
    /// It is a fragment.
    Fragment,
    /// It is a fragment with the offset 0.
    FirstFragment,
    /// The checksum of its IPv4 header is wrong, or that of UDP, TCP, ICMP or ICMPv6.
    WrongChecksum,
}
