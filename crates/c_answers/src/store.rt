//! A frame, each of whose layers is stored as soon as it is read: no value of a packet goes from one
//! to the next.

ghost use Rattle.std.specs.Prelude.{ℕ, ◌≡◌, ◌+◌, ◌^◌, ◌<◌, ◌≤◌, IfSome, IsTrue, None, Some, false};
ghost use Rattle.std.specs.Prelude.{drop, length, slice_index};
ghost use Rattle.etherparse.specs.Ipv4Header.{IsFragment, OfIpv4Header};
ghost use Rattle.c_answers.specs.Layers.{GetsAnswer, IsLaxInC, icmp_at, with_ports};
ghost use Rattle.c_answers.specs.Private.Stored.{HasNetworkInC, HasOtherInC, HasPortsInC};
ghost use Rattle.c_answers.specs.Private.Stored.{icmp_over, reads_tcp, reads_udp};
ghost use Rattle.etherparse_link.specs.Bytes.{number_at};
ghost use Rattle.packet.specs.SlicedPacket.{IsLaxReadingOf};
ghost use Rattle.packet_parts.specs.IpSlice.{HasLaxIpParts};

use crate::error::Error;
use crate::packet_layers::{
    Packet, PacketIp, PacketLink, PacketTransport, icmp_at, ip_parts_of, link_of, tcp_at, udp_at,
};
use etherparse::{Ipv4HeaderSlice, Ipv6Header, Ipv6HeaderSlice};
use etherparse_transport::{TcpHeaderSlice, UdpHeader};
use packet::link::LinkType;
use packet::link_layers::LinkLayers;
use packet_parts::ip_slice::{IpHeaderSlice, IpSlice, LaxIpSlice};

// Stores the layers of an Ethernet frame, with no verdicts on checksums; `false`, with some stored,
// if their reading stops, or in a first fragment without a good header of TCP or UDP.
#[inline(always)]
pub(crate) fn put_whole(frame: &[u8], answer: &mut Packet) -> bool
    ensures taken { IsTrue result → GetsAnswer (IsLaxReadingOf LinkType.Ethernet2 frame.now)
        (IsLaxInC (length frame.now) false answer.new) }
{
    let layers = match LinkLayers::from_link_type(LinkType::Ethernet2, frame) {
        Ok(layers) => layers,
        Err(_) => return false,
    };
    if layers.stop.is_some() {
        return false;
    }
    let payload = layers.payload;
    let place = frame.len() - payload.len();
    let link = link_of(
        place,
        &layers.link,
        &layers.vlan,
        &layers.ether_type,
        payload,
    );
    put_link(link, &mut answer.link);
    answer.stop = Error::default();
    answer.header_checksum = 0;
    answer.payload_checksum = 0;
    if layers.carries_ip() {
        return put_network(place, payload, &mut answer.ip, &mut answer.transport);
    }
    answer.ip = PacketIp::default();
    answer.transport = PacketTransport::default();
    true
}

// Stores the link header and the tags, field by field: as a whole they would be copied with the
// bytes between the fields.
#[inline(always)]
fn put_link(link: PacketLink, in_c: &mut PacketLink)
    ensures value { in_c.new ≡ link }
{
    let PacketLink {
        header,
        payload,
        family,
        ether_type,
        outer_vlan,
        inner_vlan,
        kind,
        vlan_count,
        has_ether_type,
    } = link;
    in_c.header = header;
    in_c.payload = payload;
    in_c.family = family;
    in_c.ether_type = ether_type;
    in_c.outer_vlan = outer_vlan;
    in_c.inner_vlan = inner_vlan;
    in_c.kind = kind;
    in_c.vlan_count = vlan_count;
    in_c.has_ether_type = has_ether_type;
}

// Stores the IP packet at a place and its transport header, if nothing stops their reading. A packet
// that is whole, no fragment and without extension headers is read first.
#[inline(always)]
fn put_network(
    place: usize,
    packet: &[u8],
    in_c: &mut PacketIp,
    transport: &mut PacketTransport,
) -> bool
    requires fits { place + length packet.now < 2 ^ 63 }
    ensures taken { IsTrue result → HasNetworkInC place packet.now in_c.new transport.new }
{
    if let Some(ip) = plain_ipv4(packet) {
        return put_ip(place, packet, &ip, in_c, transport);
    }
    if let Some(ip) = plain_ipv6(packet) {
        return put_ip(place, packet, &ip, in_c, transport);
    }
    put_packet(place, packet, in_c, transport)
}

// The same of any packet.
#[inline(never)]
fn put_packet(
    place: usize,
    packet: &[u8],
    in_c: &mut PacketIp,
    transport: &mut PacketTransport,
) -> bool
    requires fits { place + length packet.now < 2 ^ 63 }
    ensures taken { IsTrue result → HasNetworkInC place packet.now in_c.new transport.new }
{
    match LaxIpSlice::from_slice(packet) {
        Ok(LaxIpSlice { slice, stop: None }) => put_ip(place, packet, &slice, in_c, transport),
        _ => false,
    }
}

// The parts of an IPv4 packet that is whole and no fragment.
#[inline(always)]
fn plain_ipv4(packet: &[u8]) -> Option<IpSlice>
    ensures parts { IfSome result (λ ip.
        HasLaxIpParts packet.now (record { slice = ip; stop = None })) }
{
    let header = match Ipv4HeaderSlice::from_slice(packet) {
        Ok(header) => header,
        Err(_) => return None,
    };
    let rest = &packet[header.slice().len()..];
    match header.payload_len() {
        Ok(len) if is_whole(&header, packet.len()) => Some(IpSlice {
            header: IpHeaderSlice::Ipv4(header),
            extensions: &[],
            fragment: None,
            is_later_fragment: false,
            upper: header.protocol(),
            payload: &rest[..usize::from(len)],
        }),
        _ => None,
    }
}

// Whether so many bytes are as many as an IPv4 header tells, and of no fragment.
#[inline(always)]
fn is_whole(header: &Ipv4HeaderSlice, len: usize) -> bool
    ensures enough { IsTrue result → OfIpv4Header header.now.slice.now (λ read.
        read.total_len ≤ len) }
    ensures no_fragment { IsTrue result → OfIpv4Header header.now.slice.now (λ read.
        ¬ IsFragment read) }
{
    usize::from(header.total_len()) <= len && !header.is_fragmenting_payload()
}

// The parts of an IPv6 packet that is whole and has no extension headers.
#[inline(always)]
fn plain_ipv6(packet: &[u8]) -> Option<IpSlice>
    ensures parts { IfSome result (λ ip.
        HasLaxIpParts packet.now (record { slice = ip; stop = None })) }
{
    let header = match Ipv6HeaderSlice::from_slice(packet) {
        Ok(header) => header,
        Err(_) => return None,
    };
    let rest = &packet[Ipv6Header::LEN..];
    let len = usize::from(header.payload_length());
    let upper = header.next_header();
    if rest.len() < len || Ipv6Header::is_skippable_header_extension(upper) {
        return None;
    }
    Some(IpSlice {
        header: IpHeaderSlice::Ipv6(header),
        extensions: &[],
        fragment: None,
        is_later_fragment: false,
        upper,
        payload: &rest[..len],
    })
}

// Stores a packet of these parts at a place, and its transport header if it has one that is read
// and all of it is there.
#[inline(always)]
fn put_ip(
    place: usize,
    packet: &[u8],
    ip: &IpSlice,
    in_c: &mut PacketIp,
    transport: &mut PacketTransport,
) -> bool
    requires fits { place + length packet.now < 2 ^ 63 }
    requires parts { HasLaxIpParts packet.now (record { slice = ip.now; stop = None }) }
    ensures taken { IsTrue result → HasNetworkInC place packet.now in_c.new transport.new }
{
    *in_c = ip_parts_of(place, packet.len(), ip);
    let start = place + ip.header_len();
    if ip.is_later_fragment {
        *transport = PacketTransport::default();
        return true;
    }
    match upper_of(ip) {
        6 => put_tcp(start, ip.payload, transport),
        17 => put_udp(start, ip.payload, transport),
        upper => {
            ip.fragment.is_none() && put_other(start, upper, icmp_of(ip), ip.payload, transport)
        }
    }
}

// The number of ICMP over the version of a packet.
#[inline(always)]
fn icmp_of(ip: &IpSlice) -> u8
    ensures value { result ≡ icmp_over ip.now.header }
{
    match &ip.header {
        IpHeaderSlice::Ipv4(_) => 1,
        IpHeaderSlice::Ipv6(_) => 58,
    }
}

// The number of the payload of a packet.
#[inline(always)]
fn upper_of(ip: &IpSlice) -> u8
    ensures value { result ≡ ip.now.upper }
{
    ip.upper.0
}

// Stores the TCP header at the front of a payload at a place, if all of it is there.
#[inline(always)]
fn put_tcp(place: usize, payload: &[u8], transport: &mut PacketTransport) -> bool
    requires fits { place < 2 ^ 63 }
    ensures taken { IsTrue result → HasPortsInC (reads_tcp place payload.now) place payload.now
        transport.new }
{
    match TcpHeaderSlice::from_slice(payload) {
        Ok(header) => {
            let rest = &payload[header.slice.len()..];
            *transport = with_ports(payload, tcp_at(place, &header, rest));
            true
        }
        Err(_) => false,
    }
}

// The same of a UDP header.
#[inline(always)]
fn put_udp(place: usize, payload: &[u8], transport: &mut PacketTransport) -> bool
    requires fits { place < 2 ^ 63 }
    ensures taken { IsTrue result → HasPortsInC (reads_udp place payload.now) place payload.now
        transport.new }
{
    match UdpHeader::from_slice(payload) {
        Ok((_header, rest)) => {
            *transport = with_ports(payload, udp_at(place, rest));
            true
        }
        Err(_) => false,
    }
}

// The same of a payload of another protocol, where this is the number of ICMP: the header of a
// message, or else none.
#[inline(never)] // TCP and UDP are then told apart before all others.
fn put_other(
    place: usize,
    upper: u8,
    icmp: u8,
    payload: &[u8],
    transport: &mut PacketTransport,
) -> bool
    requires fits { place < 2 ^ 63 }
    ensures taken { IsTrue result → HasOtherInC place upper icmp payload.now transport.new }
{
    if upper == icmp {
        return put_icmp(place, upper, payload, transport);
    }
    *transport = PacketTransport::default();
    true
}

// Stores the 4 bytes that a message of ICMP or ICMPv6 begins with at a place, if all of them are
// there.
#[inline(always)]
fn put_icmp(place: usize, kind: u8, payload: &[u8], transport: &mut PacketTransport) -> bool
    requires fits { place < 2 ^ 63 }
    ensures enough { IsTrue result → 4 ≤ length payload.now }
    ensures stored { IsTrue result → transport.new ≡ icmp_at place kind
        (slice_index payload.now 0) (slice_index payload.now 1) (drop 4 payload.now) }
{
    if payload.len() < 4 {
        return false;
    }
    *transport = icmp_at(place, kind, payload[0], payload[1], &payload[4..]);
    true
}

// A transport header with the ports at the front of its payload.
#[inline(always)]
fn with_ports(payload: &[u8], transport: PacketTransport) -> PacketTransport
    requires enough { 4 ≤ length payload.now }
    ensures value { result ≡ with_ports (Some (number_at 0 payload.now, number_at 2 payload.now))
        transport }
{
    PacketTransport {
        source_port: u16::from_be_bytes([payload[0], payload[1]]),
        destination_port: u16::from_be_bytes([payload[2], payload[3]]),
        has_ports: true,
        ..transport
    }
}
