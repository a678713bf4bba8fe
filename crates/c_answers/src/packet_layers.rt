//! The layers of a frame as C has them: offsets, lengths and numbers.

ghost use Rattle.std.specs.Prelude.{◌≡◌, ◌+◌, ◌^◌, ◌<◌, ◌≤◌, IfSome, length, slice_index, true};
ghost use Rattle.packet.specs.SlicedPacket.{IsVerdictOn};
ghost use Rattle.packet.specs.declared.sliced_packet.SlicedPacket.{SlicedPacket as Sliced};
ghost use Rattle.packet_parts.specs.Checksum.{IsVerdict};
ghost use Rattle.packet_parts.specs.IpSlice.{header_len_of};
ghost use Rattle.c_answers.specs.Layers.{HasTransportInC, IsHeaderVerdict, IsPacketInC};
ghost use Rattle.c_answers.specs.Layers.{IsPayloadVerdict, header_and_payload, header_at};
ghost use Rattle.c_answers.specs.Layers.{icmp_at, ip_in_c, ip_parts_in_c};
ghost use Rattle.c_answers.specs.Layers.{link_family, link_header_len, link_in_c, link_kind};
ghost use Rattle.c_answers.specs.Layers.{tag_in_c, tags_in_c};
ghost use Rattle.c_answers.specs.Private.Within.{ArePartsWithin};

use crate::error::Error;
use etherparse::checksum::u64_16bit_word;
use etherparse_link::{EtherType, SingleVlanHeaderSlice};
use etherparse_transport::TcpHeaderSlice;
use packet::error::SliceError;
use packet::link::LinkSlice;
use packet::sliced_packet::SlicedPacket;
use packet::transport::TransportSlice;
use packet::vlan::VlanSlice;
use packet_parts::checksum::{Absence, Verdict};
use packet_parts::ip_slice::{IpHeaderSlice, IpSlice};

/// A part of a frame; of one that is not there, `len` is 0.
#[repr(C)]
#[derive(Default, Drop)]
pub struct Part {
    /// Where it begins, in bytes from the start of the frame.
    pub offset: usize,
    /// How many bytes it has.
    pub len: usize,
}

/// A VLAN tag (IEEE 802.1Q section 9.6).
#[repr(C)]
#[derive(Default, Drop)]
pub struct VlanTag {
    /// The identifier of the VLAN, at most 4095.
    pub identifier: u16,
    /// The priority, at most 7.
    pub priority: u8,
    /// Whether the frame may be dropped before others.
    pub drop_eligible: bool,
}

/// The link header of a frame and its VLAN tags.
#[repr(C)]
#[derive(Default, Drop)]
pub struct PacketLink {
    /// The link header.
    pub header: Part,
    /// All bytes after the link header and the tags.
    pub payload: Part,
    /// Of a loopback interface: what the frame carries, by the numbers of its system.
    pub family: u32,
    /// What follows the link header and the tags, if `has_ether_type`.
    pub ether_type: u16,
    /// The outer tag, if there is one.
    pub outer_vlan: VlanTag,
    /// The inner tag, if there are two.
    pub inner_vlan: VlanTag,
    /// Which link header it is: 0 none, 1 Ethernet, 2 a Linux cooked capture, 3 one of version 2, 4
    /// a loopback interface, 5 another framing.
    pub kind: u8,
    /// How many tags there are, at most 2.
    pub vlan_count: u8,
    /// Whether an EtherType is there.
    pub has_ether_type: bool,
}

/// The IP packet of a frame.
#[repr(C)]
#[derive(Default, Drop)]
pub struct PacketIp {
    /// The header, without extension headers.
    pub header: Part,
    /// The extension headers of IPv6.
    pub extensions: Part,
    /// What follows them, as far as it is there and the packet goes.
    pub payload: Part,
    /// How long the packet is by its length field, in bytes and with the header; 0 if that says
    /// nothing.
    pub packet_len: usize,
    /// Of a fragment: equal in all fragments of one packet.
    pub identification: u32,
    /// Of a fragment: its offset in the whole payload, in bytes.
    pub fragment_offset: u32,
    /// 4 or 6; 0 if there is no packet.
    pub version: u8,
    /// The number of the payload.
    pub upper: u8,
    /// Whether the payload is a fragment.
    pub is_fragment: bool,
    /// Of a fragment: whether more fragments follow it.
    pub more_fragments: bool,
    /// Whether the payload is a later fragment, which begins with no header of an upper layer.
    pub is_later_fragment: bool,
    /// Whether the frame has fewer bytes of the packet than its length field says; `false` if that
    /// says nothing.
    pub is_truncated: bool,
}

/// The transport header of a packet.
#[repr(C)]
#[derive(Default, Drop)]
pub struct PacketTransport {
    /// The header; of ICMP and ICMPv6 its type, code and checksum.
    pub header: Part,
    /// All bytes of the packet after the header.
    pub payload: Part,
    /// The ports of UDP or TCP, if `has_ports`.
    pub source_port: u16,
    /// The port of the receiver.
    pub destination_port: u16,
    /// Which header it is, by its number: 17 UDP, 6 TCP, 1 ICMP, 58 ICMPv6; 0 none.
    pub kind: u8,
    /// Whether there are ports: also without the whole header.
    pub has_ports: bool,
    /// Of TCP: the flags, from FIN at bit 0 to CWR at bit 7.
    pub tcp_flags: u8,
    /// Of ICMP and ICMPv6: the type.
    pub icmp_type: u8,
    /// Of ICMP and ICMPv6: the code.
    pub icmp_code: u8,
}

/// A frame in its layers, as far as they can be read.
#[repr(C)]
#[derive(Default, Drop)]
pub struct Packet {
    /// The link header and the VLAN tags.
    pub link: PacketLink,
    /// The IP packet; its version is 0 if there is none.
    pub ip: PacketIp,
    /// The transport header; its kind is 0 if there is none.
    pub transport: PacketTransport,
    /// Why a strict call refuses the frame; its kind is 0 if it does not.
    pub stop: Error,
    /// The checksum of an IPv4 header: 0 none, or not asked for; 1 right; 2 wrong.
    pub header_checksum: u8,
    /// The checksum of the payload of the IP packet: 0 no packet, or not asked for; 1 right; 2
    /// wrong; or none to judge, since 3 it is a fragment, 4 it is of another protocol, 5 not all
    /// that the checksum covers is there, 6 the sender computed none, 7 the final destination is
    /// unknown.
    pub payload_checksum: u8,
}

// A frame of this length in its layers, and why they end; its checksums are judged if that is asked
// for. No call takes the packet by reference, so that it is in registers alone.
#[inline(always)]
pub(crate) fn packet_of(
    frame_len: usize,
    packet: &SlicedPacket,
    stop: &Option<SliceError>,
    checksums: bool,
) -> Packet
    requires fits { frame_len < 2 ^ 63 }
    requires within { ArePartsWithin frame_len packet.now }
    ensures shows { IsPacketInC frame_len checksums packet.now stop.now result }
{
    let place = frame_len - packet.payload.len();
    Packet {
        link: link_of(
            place,
            &packet.link,
            &packet.vlan,
            &packet.ether_type,
            packet.payload,
        ),
        ip: ip_of(place, packet),
        transport: transport_of(place, packet),
        stop: Error::of_stop(stop),
        header_checksum: if checksums { header_verdict(packet) } else { 0 },
        payload_checksum: if checksums {
            payload_verdict(packet, stop)
        } else {
            0
        },
    }
}

// The link header and the tags before a payload at a place.
#[inline(always)]
pub(crate) fn link_of(
    place: usize,
    link: &Option<LinkSlice>,
    vlan: &Option<VlanSlice>,
    ether_type: &Option<EtherType>,
    payload: &[u8],
) -> PacketLink
    ensures value { (packet : Sliced) → packet.link ≡ link.now → packet.vlan ≡ vlan.now →
        packet.ether_type ≡ ether_type.now → packet.payload.now ≡ payload.now →
        result ≡ link_in_c place packet }
{
    let (outer_vlan, inner_vlan, vlan_count) = tags_of(vlan);
    let (kind, header_len, family) = header_of(link);
    let (has_ether_type, ether_type) = match ether_type {
        Some(ether_type) => (true, ether_type.0),
        None => (false, 0),
    };
    PacketLink {
        header: Part {
            offset: 0,
            len: header_len,
        },
        payload: Part {
            offset: place,
            len: payload.len(),
        },
        family,
        ether_type,
        outer_vlan,
        inner_vlan,
        kind,
        vlan_count,
        has_ether_type,
    }
}

// Which link header it is, how long it is in bytes, and its family.
#[inline(always)]
fn header_of(link: &Option<LinkSlice>) -> (u8, usize, u32)
    ensures kind { result.0 ≡ link_kind link.now }
    ensures len { result.1 ≡ link_header_len link.now }
    ensures family { result.2 ≡ link_family link.now }
{
    match link {
        None => (0, 0, 0),
        Some(LinkSlice::Ethernet2(header)) => (1, header.slice.len(), 0),
        Some(LinkSlice::LinuxSll(header)) => (2, header.slice.len(), 0),
        Some(LinkSlice::LinuxSll2(header)) => (3, header.slice.len(), 0),
        Some(LinkSlice::Loopback { family }) => (4, 4, *family),
        Some(LinkSlice::Framed { slice, .. }) => (5, slice.len(), 0),
    }
}

// The outer tag, the inner tag, and how many there are.
#[inline(always)]
fn tags_of(vlan: &Option<VlanSlice>) -> (VlanTag, VlanTag, u8)
    ensures value { result ≡ tags_in_c vlan.now }
{
    match vlan {
        None => (VlanTag::default(), VlanTag::default(), 0),
        Some(VlanSlice::SingleVlan(tag)) => (tag_of(tag), VlanTag::default(), 1),
        Some(VlanSlice::DoubleVlan { outer, inner }) => (tag_of(outer), tag_of(inner), 2),
    }
}

// A tag.
#[inline(always)]
#[tactic(auto, using(std::proofs::lemmas::Bool::Decides::nat_tests))]
fn tag_of(tag: &SingleVlanHeaderSlice) -> VlanTag
    ensures value { result ≡ tag_in_c tag.now.slice.now }
{
    VlanTag {
        identifier: tag.vlan_identifier(),
        priority: tag.priority_code_point(),
        drop_eligible: tag.drop_eligible_indicator(),
    }
}

// The IP packet at a place.
#[inline(always)]
fn ip_of(place: usize, packet: &SlicedPacket) -> PacketIp
    requires fits { place + length packet.now.payload.now < 2 ^ 63 }
    requires within { IfSome packet.now.net (λ ip.
        header_len_of ip ≤ length packet.now.payload.now) }
    ensures value { result ≡ ip_in_c place packet.now }
{
    match &packet.net {
        Some(ip) => ip_parts_of(place, packet.payload.len(), ip),
        None => PacketIp::default(),
    }
}

// The parts of an IP packet at a place, of which so many bytes are there.
#[inline(always)]
pub(crate) fn ip_parts_of(place: usize, there: usize, ip: &IpSlice) -> PacketIp
    requires fits { place + there < 2 ^ 63 }
    requires within { header_len_of ip.now ≤ there }
    ensures value { result ≡ ip_parts_in_c place there ip.now }
{
    let (is_fragment, identification, fragment_offset, more_fragments) = match ip.fragment {
        Some(it) => (true, it.identification, it.offset, it.more_fragments),
        None => (false, 0, 0, false),
    };
    let header_len = ip.header.slice().len();
    let packet_len = ip.header.packet_len();
    PacketIp {
        header: Part {
            offset: place,
            len: header_len,
        },
        extensions: Part {
            offset: place + header_len,
            len: ip.extensions.len(),
        },
        payload: Part {
            offset: place + ip.header_len(),
            len: ip.payload.len(),
        },
        packet_len,
        identification,
        fragment_offset,
        version: match ip.header {
            IpHeaderSlice::Ipv4(_) => 4,
            IpHeaderSlice::Ipv6(_) => 6,
        },
        upper: ip.upper.0,
        is_fragment,
        more_fragments,
        is_later_fragment: ip.is_later_fragment,
        is_truncated: there < packet_len,
    }
}

// The transport header of the IP packet at a place.
#[inline(always)]
fn transport_of(place: usize, packet: &SlicedPacket) -> PacketTransport
    requires fits { place + length packet.now.payload.now < 2 ^ 63 }
    requires within { IfSome packet.now.net (λ ip.
        header_len_of ip ≤ length packet.now.payload.now) }
    ensures shows { HasTransportInC place packet.now result }
{
    let start = match &packet.net {
        Some(ip) => place + ip.header_len(),
        None => place,
    };
    let found = header_at(start, &packet.transport);
    match packet.ports() {
        Some((source_port, destination_port)) => PacketTransport {
            source_port,
            destination_port,
            has_ports: true,
            ..found
        },
        None => found,
    }
}

// A transport header at a place, without its ports.
#[inline(always)]
fn header_at(start: usize, transport: &Option<TransportSlice>) -> PacketTransport
    requires fits { start < 2 ^ 63 }
    ensures value { result ≡ header_at start transport.now }
{
    match transport {
        None => PacketTransport::default(),
        Some(TransportSlice::Udp { payload, .. }) => udp_at(start, payload),
        Some(TransportSlice::Tcp { header, payload }) => tcp_at(start, header, payload),
        Some(TransportSlice::Icmpv4 { header, payload }) => {
            icmp_at(start, 1, header.type_u8, header.code_u8, payload)
        }
        Some(TransportSlice::Icmpv6 { header, payload }) => {
            icmp_at(start, 58, header.type_u8, header.code_u8, payload)
        }
    }
}

// A UDP header at a place.
#[inline(always)]
pub(crate) fn udp_at(start: usize, payload: &[u8]) -> PacketTransport
    requires fits { start < 2 ^ 63 }
    ensures value { result ≡ record (header_and_payload start 8 payload.now) { kind = 17 } }
{
    PacketTransport {
        header: Part {
            offset: start,
            len: 8,
        },
        payload: Part {
            offset: start + 8,
            len: payload.len(),
        },
        kind: 17,
        ..PacketTransport::default()
    }
}

// A TCP header at a place.
#[inline(always)]
pub(crate) fn tcp_at(start: usize, header: &TcpHeaderSlice, payload: &[u8]) -> PacketTransport
    requires fits { start < 2 ^ 63 }
    ensures value { result
        ≡ record (header_and_payload start (length header.now.slice.now) payload.now) {
          kind = 6;
          tcp_flags = slice_index header.now.slice.now 13;
        } }
{
    PacketTransport {
        header: Part {
            offset: start,
            len: header.slice.len(),
        },
        payload: Part {
            offset: start + header.slice.len(),
            len: payload.len(),
        },
        kind: 6,
        tcp_flags: header.flags(),
        ..PacketTransport::default()
    }
}

// A header of ICMP or ICMPv6 at a place.
#[inline(always)]
pub(crate) fn icmp_at(
    start: usize,
    kind: u8,
    icmp_type: u8,
    icmp_code: u8,
    payload: &[u8],
) -> PacketTransport
    requires fits { start < 2 ^ 63 }
    ensures value { result ≡ icmp_at start kind icmp_type icmp_code payload.now }
{
    PacketTransport {
        header: Part {
            offset: start,
            len: 4,
        },
        payload: Part {
            offset: start + 4,
            len: payload.len(),
        },
        kind,
        icmp_type,
        icmp_code,
        ..PacketTransport::default()
    }
}

// Whether the checksum of an IPv4 header is right.
#[inline(always)]
fn header_verdict(packet: &SlicedPacket) -> u8
    ensures judges { IsHeaderVerdict true packet.now.net result }
{
    let Some(ip) = &packet.net else {
        return 0;
    };
    match &ip.header {
        IpHeaderSlice::Ipv4(view) if u64_16bit_word::checksum(0, view.slice()) == 0 => 1,
        IpHeaderSlice::Ipv4(_) => 2,
        IpHeaderSlice::Ipv6(_) => 0,
    }
}

// What a receiver finds of the checksum of a payload.
#[inline(always)]
fn payload_verdict(packet: &SlicedPacket, stop: &Option<SliceError>) -> u8
    ensures judges { IsPayloadVerdict true packet.now.net stop.now result }
{
    match verdict_on(packet, stop) {
        None => 0,
        Some(Verdict::Right) => 1,
        Some(Verdict::Wrong) => 2,
        Some(Verdict::Absent(Absence::Fragment)) => 3,
        Some(Verdict::Absent(Absence::OtherProtocol)) => 4,
        Some(Verdict::Absent(Absence::Incomplete)) => 5,
        Some(Verdict::Absent(Absence::NotComputed)) => 6,
        Some(Verdict::Absent(Absence::UnknownDestination)) => 7,
    }
}

// The verdict, as `LaxSlicedPacket::verdict` has it.
#[inline(always)]
fn verdict_on(packet: &SlicedPacket, stop: &Option<SliceError>) -> Option<Verdict>
    ensures judges { IsVerdictOn packet.now.net stop.now result }
{
    match &packet.net {
        None => None,
        Some(ip) => match stop {
            Some(SliceError::Ip(_)) => Some(Verdict::Absent(Absence::Incomplete)),
            _ => Some(verdict_of(ip)),
        },
    }
}

// The verdict on the payload of a packet that is whole. The call takes a copy by reference.
#[inline(always)]
fn verdict_of(ip: &IpSlice) -> Verdict
    ensures judges { IsVerdict ip.now result }
{
    let copy = IpSlice {
        header: ip.header,
        extensions: ip.extensions,
        fragment: ip.fragment,
        is_later_fragment: ip.is_later_fragment,
        upper: ip.upper,
        payload: ip.payload,
    };
    copy.verdict()
}
