//! What can stand at a place of an expression.

ghost use Rattle.std.specs.Prelude.{◌≡◌, Some};
ghost use Rattle.packet_filter.specs.Expected.{expected_text};
ghost use Rattle.packet_filter.specs.Private.Machine.{expected_after, expected_value};
ghost use Rattle.packet_filter.specs.Private.Machine.{expected_within, qualifiers_of, version_of};

use crate::expression::{Network, Operator, Version};
use crate::head::Head;
use crate::partial::{Partial, Scope};
use crate::token::Token;
use std::fmt;

/// What can stand at a place of a text. Its text names words that can, in general or as examples.
/// It leaves out `not` and `(` before a value, `(` before numbers with `|` between them, and `[`
/// after a protocol that has no ports, such as `icmp`; after a direction `or dst` and `and dst`,
/// and `host` and `net` if a protocol stands before it; after a length or a load `&` and `)`; and
/// `)` after a primitive that can go on, such as `ip`. At the end of a text it also leaves out what
/// the last primitive can go on with, if that is complete: it is none of `AfterIp`, `AfterNetwork`,
/// `AfterTransport`, `AfterVlan` and `AfterAddress` there.
#[derive(Clone, Copy, Debug, PartialEq, Eq)]
pub enum Expected {
    /// `not`, `(` or a primitive.
    Operand,
    /// `and` or `or`, or `)`.
    Operator {
        /// The operator that stands before it on its level: no other can stand there.
        before: Option<Operator>,
        /// Whether a parenthesis is open, so that `)` can stand there.
        open: bool,
    },
    /// After `ip` or `ip6`: a word such as `host`, or an operator.
    AfterIp,
    /// After `arp` or `rarp`: a word such as `host`, or an operator.
    AfterNetwork,
    /// After `tcp`, `udp` or `sctp`: a word such as `port`, or an operator.
    AfterTransport,
    /// After `vlan`: an identifier, up to 4095, or an operator.
    AfterVlan,
    /// After a direction, such as `src`: what it is of, or an address.
    AfterDirection,
    /// After a transport protocol and a direction, such as `tcp src`: `port` or `portrange`.
    AfterTransportDirection,
    /// After `ether`: a word such as `host`.
    AfterEther,
    /// After `src or` and `src and`: `dst`.
    Destination,
    /// An address, of this version or either.
    Address(Option<Version>),
    /// An address and how many of its bits count, of this version or either.
    Network(Option<Version>),
    /// After an IPv4 address, or its first octets, as a network: `mask`, or an operator.
    AfterAddress,
    /// After `mask`: two to four octets with all bits that the address has.
    Mask,
    /// A port, by number or name.
    Port,
    /// Two ports with a hyphen between them, the lower first.
    PortRange,
    /// A protocol that IP carries, by number or name.
    Protocol,
    /// Six octets in hexadecimal, with colons between them.
    EthernetAddress,
    /// An EtherType, by number, which is above 1500, or name.
    EtherType,
    /// After `first`: `fragment`.
    Fragment,
    /// After `checksum`: `wrong`.
    Wrong,
    /// After `[`: which bytes are loaded.
    Place,
    /// After the place of a load: `]`.
    CloseBracket,
    /// After a length or a load: what it is compared by.
    Relation,
    /// A number.
    Number,
    /// After a number of several in parentheses: `|` or `)`.
    Bits,
}

impl Expected {
    /// Its text: words that can stand at the place.
    pub fn as_str(&self) -> &'static str
        ensures text { result.now ≡ expected_text self.now }
    {
        match self {
            Expected::Operand => "`not`, `(` or a primitive, such as `tcp` or `host`",
            Expected::Operator {
                before: None,
                open: false,
            } => "`and` or `or`",
            Expected::Operator {
                before: None,
                open: true,
            } => "`and`, `or` or `)`",
            Expected::Operator {
                before: Some(Operator::And),
                open: false,
            } => "`and`",
            Expected::Operator {
                before: Some(Operator::And),
                open: true,
            } => "`and` or `)`",
            Expected::Operator {
                before: Some(Operator::Or),
                open: false,
            } => "`or`",
            Expected::Operator {
                before: Some(Operator::Or),
                open: true,
            } => "`or` or `)`",
            Expected::AfterIp =>
                "`src`, `dst`, `host`, `net`, `proto`, `multicast`, `[` or an operator",
            Expected::AfterNetwork => "`src`, `dst`, `host`, `net`, `[` or an operator",
            Expected::AfterTransport => "`src`, `dst`, `port`, `portrange`, `[` or an operator",
            Expected::AfterVlan => "the identifier of a VLAN, such as `5`, or an operator",
            Expected::AfterDirection =>
                "`host`, `net`, `port`, `portrange` or an address, such as `10.0.0.1`",
            Expected::AfterTransportDirection => "`port` or `portrange`",
            Expected::AfterEther =>
                "`src`, `dst`, `host`, `proto`, `broadcast`, `multicast` or `[`",
            Expected::Destination => "`dst`",
            Expected::Address(None) => "an address, such as `10.0.0.1` or `fe80::1`",
            Expected::Address(Some(Version::Ipv4)) => "an IPv4 address, such as `10.0.0.1`",
            Expected::Address(Some(Version::Ipv6)) => "an IPv6 address, such as `fe80::1`",
            Expected::Network(None) => "a network, such as `10.0.0.0/8` or `fe80::/10`",
            Expected::Network(Some(Version::Ipv4)) => "an IPv4 network, such as `10.0.0.0/8`",
            Expected::Network(Some(Version::Ipv6)) => "an IPv6 network, such as `fe80::/10`",
            Expected::AfterAddress => "`mask` or an operator",
            Expected::Mask => "a mask with all bits of the address, such as `255.255.255.255`",
            Expected::Port => "a port, such as `80` or `http`",
            Expected::PortRange => "a range of ports, such as `6000-6063`",
            Expected::Protocol => "a protocol that IP carries, such as `6` or `\\tcp`",
            Expected::EthernetAddress => "an Ethernet address, such as `02:00:00:00:00:01`",
            Expected::EtherType => "an EtherType, such as `0x0806` or `\\arp`",
            Expected::Fragment => "`fragment`",
            Expected::Wrong => "`wrong`",
            Expected::Place =>
                "a place, such as `13` or `tcpflags`, or one with a size, such as `2:4`",
            Expected::CloseBracket => "`]`",
            Expected::Relation => "a relation, such as `=`, `!=` or `<`",
            Expected::Number => "a number, such as `64`",
            Expected::Bits => "`|` or `)`",
        }
    }
}

impl fmt::Display for Expected {
    ghost output = { λ expected. Some (expected_text expected) };

    fn fmt<W: fmt::Write>(&self, f: &mut fmt::Formatter<W>) -> fmt::Result {
        f.write_str(self.as_str())
    }
}

/// A value of a head.
pub(crate) fn expected_value(head: Head) -> Expected
    ensures value { result ≡ expected_value head }
{
    match head {
        Head::Host(network, _) => Expected::Address(version_of(network)),
        Head::Net(network, _) => Expected::Network(version_of(network)),
        Head::Port(_, _) => Expected::Port,
        Head::PortRange(_, _) => Expected::PortRange,
        Head::Proto(_) => Expected::Protocol,
        Head::Ether(_) => Expected::EthernetAddress,
        Head::EtherProto => Expected::EtherType,
    }
}

// The version of the addresses that a protocol is asked for.
fn version_of(network: Option<Network>) -> Option<Version>
    ensures value { result ≡ version_of network }
{
    match network {
        None => None,
        Some(Network::Ip(version)) => Some(version),
        Some(Network::Arp) | Some(Network::Rarp) => Some(Version::Ipv4),
    }
}

/// The rest of a primitive that is not complete.
pub(crate) fn expected_within(partial: Partial) -> Expected
    ensures value { result ≡ expected_within partial }
{
    match partial {
        // A primitive that is such a word is complete.
        Partial::Word(_) => Expected::Operand,
        Partial::Ether => Expected::AfterEther,
        Partial::Directed(scope, _) => expected_after(scope),
        Partial::Joined(_, _) => Expected::Destination,
        Partial::Value(head) => expected_value(head),
        Partial::First => Expected::Fragment,
        Partial::Checksum => Expected::Wrong,
        Partial::Bracket(_) => Expected::Place,
        Partial::Placed(_, _, _) => Expected::CloseBracket,
        Partial::Term(_, _) => Expected::Relation,
        Partial::Less
        | Partial::Greater
        | Partial::Constant(_)
        | Partial::Opened(_)
        | Partial::Bar(_, _) => Expected::Number,
        Partial::Listed(_, _) => Expected::Bits,
    }
}

// What a direction is of.
fn expected_after(scope: Scope) -> Expected
    ensures value { result ≡ expected_after scope }
{
    match scope {
        Scope::Any => Expected::AfterDirection,
        Scope::Network(network) => Expected::Address(version_of(Some(network))),
        Scope::Transport(_) => Expected::AfterTransportDirection,
        Scope::Ether => Expected::EthernetAddress,
    }
}

/// What can follow a word that is a primitive by itself, if more than an operator can.
pub(crate) fn qualifiers_of(partial: Partial) -> Option<Expected>
    ensures value { result ≡ qualifiers_of partial }
{
    match partial {
        Partial::Word(Token::Network(Network::Ip(_))) => Some(Expected::AfterIp),
        Partial::Word(Token::Network(_)) => Some(Expected::AfterNetwork),
        Partial::Word(Token::Transport(_)) => Some(Expected::AfterTransport),
        Partial::Word(Token::Vlan) => Some(Expected::AfterVlan),
        _ => None,
    }
}
