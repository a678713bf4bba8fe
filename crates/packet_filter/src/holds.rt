//! What a primitive asks of a packet.

ghost use Rattle.std.specs.Prelude.{◌≡◌, ◌≤◌, ◌↔◌, IsSomeAnd, IsTrue};
ghost use Rattle.packet.specs.SlicedPacket.{IsVerdictOn};
ghost use Rattle.packet.specs.Vlan.{tags_of};
ghost use Rattle.packet_filter.specs.Meaning.{Carries, HasHardware, HasPorts, HasProto, HasVersion};
ghost use Rattle.packet_filter.specs.Meaning.{HasWrongChecksum, HasWrongHeader, Holds, IsIp, IsOf};
ghost use Rattle.packet_filter.specs.Meaning.{IsTagOf, OfEnds, SomeTag, ether_type_of};
ghost use Rattle.packet_filter.specs.Meaning.{ethernet_header, transport_number};

use crate::address::{has_address, has_masked_address};
use crate::expression::{Direction, Network, Primitive, Transport, Version};
use crate::number::is_number;
use etherparse::IpNumber;
use etherparse::checksum::u64_16bit_word;
use etherparse_link::{EtherType, SingleVlanHeaderSlice};
use packet::lax_sliced_packet::LaxSlicedPacket;
use packet::link::LinkSlice;
use packet::sliced_packet::SlicedPacket;
use packet::vlan::VlanSlice;
use packet_parts::checksum::Verdict;
use packet_parts::fragment::Fragment;
use packet_parts::ip_slice::{IpHeaderSlice, IpSlice};

impl Primitive {
    /// Whether it holds of a packet, of which the frame had so many bytes on the wire.
    #[inline(always)]
    pub(crate) fn holds(&self, lax: &LaxSlicedPacket, len: usize) -> bool
        ensures value { IsTrue result ↔ Holds self.now lax.now len }
    {
        let packet = &lax.packet;
        match self {
            Primitive::Version(version) => is_ip(*version, packet),
            Primitive::EtherType(number) => packet.ether_type == Some(EtherType(*number)),
            Primitive::Proto(version, number) => has_proto(*version, IpNumber(*number), packet),
            Primitive::Net(network, direction, address, bits) => {
                is_of(*network, packet) && has_address(*direction, address, *bits, packet)
            }
            Primitive::Masked(network, direction, address, mask) => {
                is_of(*network, packet) && has_masked_address(*direction, *address, *mask, packet)
            }
            Primitive::Ports(transport, direction, low, high) => match &packet.net {
                Some(ip) => has_ports(*transport, *direction, *low, *high, ip),
                None => false,
            },
            Primitive::Hardware(direction, address) => {
                has_hardware(*direction, *address, &packet.link)
            }
            Primitive::Vlan(identifier) => has_tag(*identifier, &packet.vlan),
            Primitive::Compare(quantity, mask, relation, limit) => {
                is_number(*quantity, *mask, *relation, *limit, packet, len)
            }
            Primitive::Fragment => match &packet.net {
                Some(ip) => ip.fragment.is_some(),
                None => false,
            },
            Primitive::FirstFragment => match &packet.net {
                Some(ip) => matches!(ip.fragment, Some(Fragment { offset: 0, .. })),
                None => false,
            },
            Primitive::WrongChecksum => has_wrong_checksum(lax),
        }
    }
}

// Of what holds of the source and of the destination, what the direction asks.
#[inline(always)]
pub(crate) fn of_ends(direction: Option<Direction>, source: bool, destination: bool) -> bool
    ensures value { IsTrue result ↔ OfEnds direction source destination (λ b. IsTrue b) }
{
    match direction {
        Some(Direction::Source) => source,
        Some(Direction::Destination) => destination,
        Some(Direction::Both) => source & destination,
        Some(Direction::Either) | None => source | destination,
    }
}

// Whether a header is of this version.
#[inline(always)]
pub(crate) fn has_version(version: Version, header: &IpHeaderSlice) -> bool
    ensures value { IsTrue result ↔ HasVersion version header.now }
{
    match (version, header) {
        (Version::Ipv4, IpHeaderSlice::Ipv4(_)) => true,
        (Version::Ipv4, IpHeaderSlice::Ipv6(_)) => false,
        (Version::Ipv6, IpHeaderSlice::Ipv4(_)) => false,
        (Version::Ipv6, IpHeaderSlice::Ipv6(_)) => true,
    }
}

// The EtherType of IP of this version.
fn ether_type_of(version: Version) -> EtherType
    ensures value { result ≡ ether_type_of version }
{
    match version {
        Version::Ipv4 => EtherType::IPV4,
        Version::Ipv6 => EtherType::IPV6,
    }
}

// Whether the frame carries an IP packet of this version.
#[inline(always)]
pub(crate) fn is_ip(version: Version, packet: &SlicedPacket) -> bool
    ensures value { IsTrue result ↔ IsIp version packet.now }
{
    match &packet.net {
        Some(ip) => has_version(version, &ip.header),
        None => packet.ether_type == Some(ether_type_of(version)),
    }
}

// Whether a packet is of a protocol that a qualifier names.
#[inline(always)]
fn is_of(network: Option<Network>, packet: &SlicedPacket) -> bool
    ensures value { IsTrue result ↔ IsOf network packet.now }
{
    match network {
        None => true,
        Some(Network::Ip(version)) => is_ip(version, packet),
        Some(Network::Arp) => packet.ether_type == Some(EtherType::ARP),
        Some(Network::Rarp) => packet.ether_type == Some(EtherType(0x8035)),
    }
}

// Whether the payload of the IP packet has this number.
#[inline(always)]
pub(crate) fn has_proto(version: Option<Version>, number: IpNumber, packet: &SlicedPacket) -> bool
    ensures value { IsTrue result ↔ HasProto version number packet.now }
{
    match (&packet.net, version) {
        (Some(ip), None) => ip.upper == number,
        (Some(ip), Some(version)) => has_version(version, &ip.header) && ip.upper == number,
        (None, _) => false,
    }
}

// The number of a transport protocol.
fn transport_number(transport: Transport) -> IpNumber
    ensures value { result ≡ transport_number transport }
{
    match transport {
        Transport::Tcp => IpNumber::TCP,
        Transport::Udp => IpNumber::UDP,
        Transport::Sctp => IpNumber::SCTP,
    }
}

// Whether an IP packet carries this transport protocol, or any with ports.
#[inline(always)]
fn carries(transport: Option<Transport>, ip: &IpSlice) -> bool
    ensures value { IsTrue result ↔ Carries transport ip.now }
{
    match transport {
        Some(transport) => ip.upper == transport_number(transport),
        None => {
            (ip.upper == IpNumber::TCP) | (ip.upper == IpNumber::UDP) | (ip.upper == IpNumber::SCTP)
        }
    }
}

// Whether the ports of an IP packet at these ends are within a range.
#[inline(always)]
pub(crate) fn has_ports(
    transport: Option<Transport>,
    direction: Option<Direction>,
    low: u16,
    high: u16,
    ip: &IpSlice,
) -> bool
    ensures value { IsTrue result ↔ HasPorts transport direction
        (λ port. (low ≤ port) × (port ≤ high)) ip.now }
{
    let payload = ip.payload;
    if payload.len() < 4 {
        return false;
    }
    let source = u16::from_be_bytes([payload[0], payload[1]]);
    let destination = u16::from_be_bytes([payload[2], payload[3]]);
    let are_within = of_ends(
        direction,
        (low <= source) & (source <= high),
        (low <= destination) & (destination <= high),
    );
    // What packets differ in is computed whole: a processor predicts few of these branches.
    carries(transport, ip) & !ip.is_later_fragment & are_within
}

// Whether the Ethernet addresses of a frame at these ends are this.
#[inline(never)]
fn has_hardware(direction: Option<Direction>, address: [u8; 6], link: &Option<LinkSlice>) -> bool
    ensures value { IsTrue result ↔ IsSomeAnd (ethernet_header link.now)
        (HasHardware direction address) }
{
    match link {
        Some(LinkSlice::Ethernet2(header)) => {
            let source = header.source() == address;
            of_ends(direction, source, header.destination() == address)
        }
        _ => false,
    }
}

// Whether one of the tags is of this VLAN.
fn has_tag(identifier: Option<u16>, vlan: &Option<VlanSlice>) -> bool
    ensures value { IsTrue result ↔ SomeTag (IsTagOf identifier) (tags_of vlan.now) }
{
    match vlan {
        None => false,
        Some(VlanSlice::SingleVlan(tag)) => is_tag_of(identifier, tag),
        Some(VlanSlice::DoubleVlan { outer, inner }) => {
            is_tag_of(identifier, outer) || is_tag_of(identifier, inner)
        }
    }
}

// Whether a tag is of this VLAN.
fn is_tag_of(identifier: Option<u16>, tag: &SingleVlanHeaderSlice) -> bool
    ensures value { IsTrue result ↔ IsTagOf identifier tag.now.slice.now }
{
    match identifier {
        Some(identifier) => tag.vlan_identifier() == identifier,
        None => true,
    }
}

// Whether a checksum of a packet is wrong: that of its IPv4 header, or that of its payload.
#[inline(never)]
fn has_wrong_checksum(lax: &LaxSlicedPacket) -> bool
    ensures value { IsTrue result ↔ HasWrongChecksum lax.now }
{
    has_wrong_header(&lax.packet.net) || has_wrong_payload(lax)
}

// Whether the checksum of an IPv4 header is wrong.
fn has_wrong_header(net: &Option<IpSlice>) -> bool
    ensures value { IsTrue result ↔ IsSomeAnd net.now (λ ip. HasWrongHeader ip.header) }
{
    match net {
        Some(ip) => match &ip.header {
            IpHeaderSlice::Ipv4(view) => u64_16bit_word::checksum(0, view.slice()) != 0,
            IpHeaderSlice::Ipv6(_) => false,
        },
        None => false,
    }
}

// Whether the checksum of the payload, which is there whole, is wrong.
fn has_wrong_payload(lax: &LaxSlicedPacket) -> bool
    ensures value { IsTrue result ↔
        IsVerdictOn lax.now.packet.net lax.now.stop (Some Verdict.Wrong) }
{
    match lax.verdict() {
        Some(verdict) => matches!(verdict, Verdict::Wrong),
        None => false,
    }
}
