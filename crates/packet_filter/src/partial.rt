//! Primitives that have begun, and what a further word makes of them.

ghost use Rattle.std.specs.Prelude.{◌≡◌};
ghost use Rattle.packet_filter.specs.Grammar.{alone, bits_of, ethernet_broadcast};
ghost use Rattle.packet_filter.specs.Grammar.{ethernet_multicast, fits, ip_multicast, ipv4_of};
ghost use Rattle.packet_filter.specs.Grammar.{network_layer, network_primitive, value_of};
ghost use Rattle.packet_filter.specs.Meaning.{transport_number};
ghost use Rattle.packet_filter.specs.Private.Machine.{after_any, after_direction, after_ether};
ghost use Rattle.packet_filter.specs.Private.Machine.{after_listed, after_network, after_of_ether};
ghost use Rattle.packet_filter.specs.Private.Machine.{after_of_network, after_of_transport};
ghost use Rattle.packet_filter.specs.Private.Machine.{after_scope, after_term, after_transport};
ghost use Rattle.packet_filter.specs.Private.Machine.{after_use, after_word, begin, given, joined};
ghost use Rattle.packet_filter.specs.Private.Machine.{head_of, head_of_net, made, net_address_of};
ghost use Rattle.packet_filter.specs.Private.Machine.{next, primitive_of_net, scope_head, valued};
ghost use Rattle.packet_filter.specs.Private.Machine.{whole, with_mask};

use crate::address::Address;
use crate::expression::{
    Direction, Layer, Network, Operator, Primitive, Quantity, Relation, Size, Transport, Version,
};
use crate::head::Head;
use crate::token::Token;

/// What a direction is about.
#[derive(Clone, Copy)]
pub(crate) enum Scope {
    /// Addresses or ports of any protocol.
    Any,
    /// Addresses of this protocol.
    Network(Network),
    /// Ports of this protocol.
    Transport(Transport),
    /// Ethernet addresses.
    Ether,
}

/// What a constant is for.
#[derive(Clone, Copy)]
pub(crate) enum Use {
    /// The mask of a number.
    Masking(Quantity),
    /// What a number, with its mask, is compared with.
    Limit(Quantity, Option<u32>, Relation),
}

/// An IPv4 address after `net`, or its first octets with zeros after them: a mask can follow.
#[derive(Clone, Copy)]
pub(crate) struct NetAddress {
    pub network: Option<Network>,
    pub direction: Option<Direction>,
    pub address: u32,
    /// How many of its bits count without a mask.
    pub bits: u8,
}

/// A primitive that has begun, by what was read of it last.
#[derive(Clone, Copy)]
pub(crate) enum Partial {
    /// A word that can stand alone.
    Word(Token),
    /// `ether`.
    Ether,
    /// A direction.
    Directed(Scope, Direction),
    /// `src or` or `src and`.
    Joined(Scope, Operator),
    /// A head: its value is to follow.
    Value(Head),
    /// `less`.
    Less,
    /// `greater`.
    Greater,
    /// `first`.
    First,
    /// `checksum`.
    Checksum,
    /// `[`.
    Bracket(Layer),
    /// A place after `[`.
    Placed(Layer, u32, Size),
    /// A number that the packet tells, and its mask.
    Term(Quantity, Option<u32>),
    /// `&` or a relation: a constant is to follow.
    Constant(Use),
    /// `(`, before the first number of a constant.
    Opened(Use),
    /// A number of a constant in parentheses; the bits of all so far.
    Listed(Use, u32),
    /// `|`, after the bits so far.
    Bar(Use, u32),
}

/// What a word makes of a primitive.
#[derive(Clone, Copy)]
pub(crate) enum Progress {
    /// It goes on.
    More(Partial),
    /// It is complete, and a value alone after it would have this head.
    Done(Primitive, Head),
    /// The word does not belong to it.
    Foreign,
}

/// The head of a value alone that has no value before it: `host`.
pub(crate) const FIRST_HEAD: Head = Head::Host(None, None);

// What is read of a primitive that has no value.
fn made(primitive: Primitive) -> Progress
    ensures value { result ≡ made primitive }
{
    Progress::Done(primitive, FIRST_HEAD)
}

/// What the first word begins.
pub(crate) fn begin(token: Token) -> Progress
    ensures value { result ≡ begin token }
{
    match token {
        Token::Network(_)
        | Token::Transport(_)
        | Token::Protocol(_, _)
        | Token::EtherType(_)
        | Token::Broadcast
        | Token::Multicast
        | Token::Vlan
        | Token::Fragment => Progress::More(Partial::Word(token)),
        Token::Ether => Progress::More(Partial::Ether),
        Token::Source => Progress::More(Partial::Directed(Scope::Any, Direction::Source)),
        Token::Destination => {
            Progress::More(Partial::Directed(Scope::Any, Direction::Destination))
        }
        Token::Host => Progress::More(Partial::Value(Head::Host(None, None))),
        Token::Net => Progress::More(Partial::Value(Head::Net(None, None))),
        Token::Port => Progress::More(Partial::Value(Head::Port(None, None))),
        Token::PortRange => Progress::More(Partial::Value(Head::PortRange(None, None))),
        Token::Proto => Progress::More(Partial::Value(Head::Proto(None))),
        Token::Length => Progress::More(Partial::Term(Quantity::Length, None)),
        Token::Less => Progress::More(Partial::Less),
        Token::Greater => Progress::More(Partial::Greater),
        Token::First => Progress::More(Partial::First),
        Token::Checksum => Progress::More(Partial::Checksum),
        _ => Progress::Foreign,
    }
}

/// What a further word makes of a primitive.
pub(crate) fn next(partial: Partial, token: Token) -> Progress
    ensures value { result ≡ next partial token }
{
    match partial {
        Partial::Word(first) => after_word(first, token),
        Partial::Ether => after_ether(token),
        Partial::Directed(scope, direction) => after_direction(scope, direction, token),
        Partial::Joined(scope, operator) => match token {
            Token::Destination => Progress::More(Partial::Directed(scope, joined(operator))),
            _ => Progress::Foreign,
        },
        Partial::Value(head) => valued(head, token),
        Partial::Less => match token {
            Token::Number(len) => made(len_is(Relation::LessOrEqual, len)),
            _ => Progress::Foreign,
        },
        Partial::Greater => match token {
            Token::Number(len) => made(len_is(Relation::GreaterOrEqual, len)),
            _ => Progress::Foreign,
        },
        Partial::First => match token {
            Token::Fragment => made(Primitive::FirstFragment),
            _ => Progress::Foreign,
        },
        Partial::Checksum => match token {
            Token::Wrong => made(Primitive::WrongChecksum),
            _ => Progress::Foreign,
        },
        Partial::Bracket(layer) => match token {
            Token::Number(place) => Progress::More(Partial::Placed(layer, place, Size::One)),
            Token::Place(place, size) => Progress::More(Partial::Placed(layer, place, size)),
            _ => Progress::Foreign,
        },
        Partial::Placed(layer, place, size) => match token {
            Token::CloseBracket => {
                Progress::More(Partial::Term(Quantity::Load(layer, place, size), None))
            }
            _ => Progress::Foreign,
        },
        Partial::Term(quantity, mask) => after_term(quantity, mask, token),
        Partial::Constant(usage) => after_use(usage, token),
        Partial::Opened(usage) => match token {
            Token::Number(bits) => Progress::More(Partial::Listed(usage, bits)),
            _ => Progress::Foreign,
        },
        Partial::Listed(usage, bits) => after_listed(usage, bits, token),
        Partial::Bar(usage, bits) => match token {
            Token::Number(more) => Progress::More(Partial::Listed(usage, bits | more)),
            _ => Progress::Foreign,
        },
    }
}

/// What a primitive is that is complete though it could go on.
pub(crate) fn whole(partial: Partial) -> Option<Primitive>
    ensures value { result ≡ whole partial }
{
    match partial {
        Partial::Word(word) => alone(word),
        _ => None,
    }
}

/// The head whose value is to follow.
pub(crate) fn head_of(partial: Partial) -> Option<Head>
    ensures value { result ≡ head_of partial }
{
    match partial {
        Partial::Value(head) => Some(head),
        Partial::Directed(scope, direction) => scope_head(scope, direction),
        _ => None,
    }
}

// The head that a direction alone is.
fn scope_head(scope: Scope, direction: Direction) -> Option<Head>
    ensures value { result ≡ scope_head scope direction }
{
    let direction = Some(direction);
    match scope {
        Scope::Any => Some(Head::Host(None, direction)),
        Scope::Network(network) => Some(Head::Host(Some(network), direction)),
        Scope::Transport(_) => None,
        Scope::Ether => Some(Head::Ether(direction)),
    }
}

// What a word says that is a primitive by itself.
fn alone(word: Token) -> Option<Primitive>
    ensures value { result ≡ alone word }
{
    match word {
        Token::Network(network) => Some(network_primitive(network)),
        Token::Transport(transport) => { Some(Primitive::Proto(None, transport_number(transport))) }
        Token::Protocol(version, number) => Some(Primitive::Proto(version, number)),
        Token::EtherType(number) => Some(Primitive::EtherType(number)),
        Token::Broadcast => Some(ethernet_broadcast()),
        Token::Multicast => Some(ethernet_multicast()),
        Token::Vlan => Some(Primitive::Vlan(None)),
        Token::Fragment => Some(Primitive::Fragment),
        _ => None,
    }
}

// The comparison of the frame's length.
fn len_is(relation: Relation, len: u32) -> Primitive
    ensures value { result ≡ Primitive.Compare Quantity.Length None relation len }
{
    Primitive::Compare(Quantity::Length, None, relation, len)
}

// What a protocol's name says alone.
fn network_primitive(network: Network) -> Primitive
    ensures value { result ≡ network_primitive network }
{
    match network {
        Network::Ip(version) => Primitive::Version(version),
        Network::Arp => Primitive::EtherType(0x0806),
        Network::Rarp => Primitive::EtherType(0x8035),
    }
}

// What is loaded from after a protocol's name.
fn network_layer(network: Network) -> Layer
    ensures value { result ≡ network_layer network }
{
    match network {
        Network::Ip(version) => Layer::Ip(version),
        Network::Arp => Layer::Type(0x0806),
        Network::Rarp => Layer::Type(0x8035),
    }
}

// The number of a transport protocol.
fn transport_number(transport: Transport) -> u8
    ensures value { result ≡ transport_number transport }
{
    match transport {
        Transport::Tcp => 6,
        Transport::Udp => 17,
        Transport::Sctp => 132,
    }
}

// The destination is all stations.
fn ethernet_broadcast() -> Primitive
    ensures value { result ≡ ethernet_broadcast }
{
    Primitive::Hardware(Some(Direction::Destination), [255, 255, 255, 255, 255, 255])
}

// The destination is a group of stations.
fn ethernet_multicast() -> Primitive
    ensures value { result ≡ ethernet_multicast }
{
    let first = Quantity::Load(Layer::Ether, 0, Size::One);
    Primitive::Compare(first, Some(1), Relation::NotEqual, 0)
}

// The destination is a group of hosts.
fn ip_multicast(version: Version) -> Primitive
    ensures value { result ≡ ip_multicast version }
{
    let (address, bits) = match version {
        Version::Ipv4 => (Address::V4(224 << 24), 4),
        Version::Ipv6 => (Address::V6(255 << 120), 8),
    };
    let network = Some(Network::Ip(version));
    Primitive::Net(network, Some(Direction::Destination), address, bits)
}

// What a value says after a head.
fn value_of(token: Token, head: Head) -> Option<Primitive>
    ensures value { result ≡ value_of token head }
{
    match (token, head) {
        (Token::Address(address), Head::Host(network, direction))
        | (Token::Address(address), Head::Net(network, direction))
            if fits(network, address) => {
            Some(Primitive::Net(network, direction, address, bits_of(address)))
        }
        (Token::Prefix(address, bits), Head::Net(network, direction))
            if fits(network, address) && bits <= u32::from(bits_of(address)) => {
            Some(Primitive::Net(network, direction, address, bits as u8))
        }
        (Token::Front(address, bits), Head::Net(network, direction))
            if fits(network, Address::V4(address)) => {
            Some(Primitive::Net(network, direction, Address::V4(address), bits))
        }
        (Token::Number(first), Head::Net(network, direction))
            if fits(network, Address::V4(0)) && first <= 255 => {
            Some(Primitive::Net(network, direction, Address::V4(first << 24), 8))
        }
        (Token::Number(port), Head::Port(transport, direction)) if port <= 65535 => {
            Some(Primitive::Ports(transport, direction, port as u16, port as u16))
        }
        (Token::Number(number), Head::Proto(version)) if number <= 255 => {
            Some(Primitive::Proto(version, number as u8))
        }
        (Token::Number(number), Head::EtherProto) if 1500 < number && number <= 65535 => {
            Some(Primitive::EtherType(number as u16))
        }
        (Token::Service(port), Head::Port(transport, direction)) => {
            Some(Primitive::Ports(transport, direction, port, port))
        }
        (Token::Range(low, high), Head::PortRange(transport, direction))
            if low <= high && high <= 65535 => {
            Some(Primitive::Ports(transport, direction, low as u16, high as u16))
        }
        (Token::IpNumber(number), Head::Proto(version)) => Some(Primitive::Proto(version, number)),
        (Token::Hardware(address), Head::Ether(direction)) => {
            Some(Primitive::Hardware(direction, address))
        }
        (Token::TypeName(number), Head::EtherProto) => Some(Primitive::EtherType(number)),
        _ => None,
    }
}

// Whether an address is of a version that the protocol has.
fn fits(network: Option<Network>, address: Address) -> bool
    ensures value { result ≡ fits network address }
{
    match (network, address) {
        (None, _) => true,
        (Some(Network::Ip(Version::Ipv6)), Address::V4(_)) => false,
        (Some(Network::Ip(Version::Ipv6)), Address::V6(_)) => true,
        (Some(_), Address::V4(_)) => true,
        (Some(_), Address::V6(_)) => false,
    }
}

// How many bits an address has.
fn bits_of(address: Address) -> u8
    ensures value { result ≡ bits_of address }
{
    match address {
        Address::V4(_) => 32,
        Address::V6(_) => 128,
    }
}

/// What a word makes of its head, if it is a value.
pub(crate) fn valued(head: Head, token: Token) -> Progress
    ensures value { result ≡ valued head token }
{
    match value_of(token, head) {
        Some(primitive) => Progress::Done(primitive, head),
        None => Progress::Foreign,
    }
}

/// The address of a network, which a mask can follow.
pub(crate) fn net_address_of(token: Token, head: Option<Head>) -> Option<NetAddress>
    ensures value { result ≡ net_address_of token head }
{
    let (address, bits) = match token {
        Token::Address(Address::V4(address)) => (address, 32),
        Token::Front(address, bits) => (address, bits),
        _ => return None,
    };
    match head {
        Some(Head::Net(network, direction)) if fits(network, Address::V4(address)) => {
            Some(NetAddress {
                network,
                direction,
                address,
                bits,
            })
        }
        _ => None,
    }
}

impl NetAddress {
    /// Its head.
    pub(crate) fn head(self) -> Head
        ensures value { result ≡ head_of_net self }
    {
        Head::Net(self.network, self.direction)
    }

    /// What it says without a mask.
    pub(crate) fn primitive(self) -> Primitive
        ensures value { result ≡ primitive_of_net self }
    {
        let address = Address::V4(self.address);
        Primitive::Net(self.network, self.direction, address, self.bits)
    }

    /// What it says with this mask, if the word is one that has all its bits.
    pub(crate) fn with_mask(self, token: Token) -> Progress
        ensures value { result ≡ with_mask self token }
    {
        match ipv4_of(token) {
            Some(mask)
                if fits(self.network, Address::V4(self.address)) && self.address & !mask == 0 => {
                let primitive = Primitive::Masked(self.network, self.direction, self.address, mask);
                Progress::Done(primitive, self.head())
            }
            _ => Progress::Foreign,
        }
    }
}

// The IPv4 address that two to four octets are.
fn ipv4_of(token: Token) -> Option<u32>
    ensures value { result ≡ ipv4_of token }
{
    match token {
        Token::Address(Address::V4(address)) | Token::Front(address, _) => Some(address),
        _ => None,
    }
}

// What a word makes of one that can stand alone.
fn after_word(first: Token, token: Token) -> Progress
    ensures value { result ≡ after_word first token }
{
    match first {
        Token::Network(network) => after_network(network, token),
        Token::Transport(transport) => after_transport(transport, token),
        Token::Protocol(version, number) => match token {
            Token::OpenBracket => Progress::More(Partial::Bracket(Layer::Payload(version, number))),
            _ => Progress::Foreign,
        },
        Token::Vlan => match token {
            Token::Number(identifier) if identifier <= 4095 => {
                made(Primitive::Vlan(Some(identifier as u16)))
            }
            _ => Progress::Foreign,
        },
        _ => Progress::Foreign,
    }
}

// The words after `ip`, `ip6`, `arp` and `rarp`.
fn after_network(network: Network, token: Token) -> Progress
    ensures value { result ≡ after_network network token }
{
    let scope = Scope::Network(network);
    match (network, token) {
        (_, Token::Source) => Progress::More(Partial::Directed(scope, Direction::Source)),
        (_, Token::Destination) => {
            Progress::More(Partial::Directed(scope, Direction::Destination))
        }
        (_, Token::Host) => Progress::More(Partial::Value(Head::Host(Some(network), None))),
        (_, Token::Net) => Progress::More(Partial::Value(Head::Net(Some(network), None))),
        (Network::Ip(version), Token::Proto) => {
            Progress::More(Partial::Value(Head::Proto(Some(version))))
        }
        (Network::Ip(version), Token::Multicast) => made(ip_multicast(version)),
        (_, Token::OpenBracket) => Progress::More(Partial::Bracket(network_layer(network))),
        _ => Progress::Foreign,
    }
}

// The words after `tcp`, `udp` and `sctp`.
fn after_transport(transport: Transport, token: Token) -> Progress
    ensures value { result ≡ after_transport transport token }
{
    let scope = Scope::Transport(transport);
    match token {
        Token::Source => Progress::More(Partial::Directed(scope, Direction::Source)),
        Token::Destination => Progress::More(Partial::Directed(scope, Direction::Destination)),
        Token::Port => Progress::More(Partial::Value(Head::Port(Some(transport), None))),
        Token::PortRange => {
            Progress::More(Partial::Value(Head::PortRange(Some(transport), None)))
        }
        Token::OpenBracket => {
            Progress::More(Partial::Bracket(Layer::Payload(None, transport_number(transport))))
        }
        _ => Progress::Foreign,
    }
}

// The words after `ether`.
fn after_ether(token: Token) -> Progress
    ensures value { result ≡ after_ether token }
{
    match token {
        Token::Source => Progress::More(Partial::Directed(Scope::Ether, Direction::Source)),
        Token::Destination => {
            Progress::More(Partial::Directed(Scope::Ether, Direction::Destination))
        }
        Token::Host => Progress::More(Partial::Value(Head::Ether(None))),
        Token::Proto => Progress::More(Partial::Value(Head::EtherProto)),
        Token::Broadcast => made(ethernet_broadcast()),
        Token::Multicast => made(ethernet_multicast()),
        Token::OpenBracket => Progress::More(Partial::Bracket(Layer::Ether)),
        _ => Progress::Foreign,
    }
}

// The words after a direction, of which `src` can go on with `or dst` and `and dst`.
fn after_direction(scope: Scope, direction: Direction, token: Token) -> Progress
    ensures value { result ≡ after_direction scope direction token }
{
    match token {
        Token::Operator(operator) => match direction {
            Direction::Source => Progress::More(Partial::Joined(scope, operator)),
            _ => Progress::Foreign,
        },
        _ => after_scope(scope, direction, token),
    }
}

// Both directions, by what joins them.
fn joined(operator: Operator) -> Direction
    ensures value { result ≡ joined operator }
{
    match operator {
        Operator::Or => Direction::Either,
        Operator::And => Direction::Both,
    }
}

// The words after a whole direction.
fn after_scope(scope: Scope, direction: Direction, token: Token) -> Progress
    ensures value { result ≡ after_scope scope direction token }
{
    match scope {
        Scope::Any => after_any(direction, token),
        Scope::Network(network) => after_of_network(network, direction, token),
        Scope::Transport(transport) => after_of_transport(transport, direction, token),
        Scope::Ether => after_of_ether(direction, token),
    }
}

// Those after a direction alone.
fn after_any(direction: Direction, token: Token) -> Progress
    ensures value { result ≡ after_any direction token }
{
    let direction = Some(direction);
    match token {
        Token::Host => Progress::More(Partial::Value(Head::Host(None, direction))),
        Token::Net => Progress::More(Partial::Value(Head::Net(None, direction))),
        Token::Port => Progress::More(Partial::Value(Head::Port(None, direction))),
        Token::PortRange => Progress::More(Partial::Value(Head::PortRange(None, direction))),
        _ => valued(Head::Host(None, direction), token),
    }
}

// Those after one of addresses of a protocol.
fn after_of_network(network: Network, direction: Direction, token: Token) -> Progress
    ensures value { result ≡ after_of_network network direction token }
{
    let (network, direction) = (Some(network), Some(direction));
    match token {
        Token::Host => Progress::More(Partial::Value(Head::Host(network, direction))),
        Token::Net => Progress::More(Partial::Value(Head::Net(network, direction))),
        _ => valued(Head::Host(network, direction), token),
    }
}

// Those after one of ports of a protocol.
fn after_of_transport(transport: Transport, direction: Direction, token: Token) -> Progress
    ensures value { result ≡ after_of_transport transport direction token }
{
    let (transport, direction) = (Some(transport), Some(direction));
    match token {
        Token::Port => Progress::More(Partial::Value(Head::Port(transport, direction))),
        Token::PortRange => Progress::More(Partial::Value(Head::PortRange(transport, direction))),
        _ => Progress::Foreign,
    }
}

// Those after one of Ethernet addresses.
fn after_of_ether(direction: Direction, token: Token) -> Progress
    ensures value { result ≡ after_of_ether direction token }
{
    let head = Head::Ether(Some(direction));
    match token {
        Token::Host => Progress::More(Partial::Value(head)),
        _ => valued(head, token),
    }
}

// The words after a number that the packet tells.
fn after_term(quantity: Quantity, mask: Option<u32>, token: Token) -> Progress
    ensures value { result ≡ after_term quantity mask token }
{
    match token {
        Token::BitAnd => match mask {
            None => Progress::More(Partial::Constant(Use::Masking(quantity))),
            Some(_) => Progress::Foreign,
        },
        Token::Relation(relation) => {
            Progress::More(Partial::Constant(Use::Limit(quantity, mask, relation)))
        }
        _ => Progress::Foreign,
    }
}

// A number where one ends a mask or a comparison.
fn given(usage: Use, number: u32) -> Progress
    ensures value { result ≡ given usage number }
{
    match usage {
        Use::Masking(quantity) => Progress::More(Partial::Term(quantity, Some(number))),
        Use::Limit(quantity, mask, relation) => {
            made(Primitive::Compare(quantity, mask, relation, number))
        }
    }
}

// The words where a constant is to follow.
fn after_use(usage: Use, token: Token) -> Progress
    ensures value { result ≡ after_use usage token }
{
    match token {
        Token::Number(number) => given(usage, number),
        Token::Open => Progress::More(Partial::Opened(usage)),
        _ => Progress::Foreign,
    }
}

// The words after a number of a constant in parentheses.
fn after_listed(usage: Use, bits: u32, token: Token) -> Progress
    ensures value { result ≡ after_listed usage bits token }
{
    match token {
        Token::BitOr => Progress::More(Partial::Bar(usage, bits)),
        Token::Close => given(usage, bits),
        _ => Progress::Foreign,
    }
}
