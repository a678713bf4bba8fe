//! Worked frames of each link type in their layers, which header a frame has, and where reading
//! stops.

use crate::shared::assert_equal;
use etherparse::LenSource;
use etherparse::err::ipv4::HeaderSliceError;
use etherparse::err::{Layer, LenError};
use etherparse_link::{
    EtherType, Ethernet2HeaderSlice, LinuxSll2HeaderSlice, LinuxSllHeaderSlice,
    SingleVlanHeaderSlice,
};
use etherparse_transport::TcpError;
use packet::error::SliceError;
use packet::lax_sliced_packet::LaxSlicedPacket;
use packet::link::{LinkSlice, LinkType};
use packet::link_layers::LinkLayers;
use packet::sliced_packet::SlicedPacket;
use packet::transport::TransportSlice;
use packet::vlan::VlanSlice;
use packet_parts::ip_slice::IpSliceError;
use std::alloc::Global;
use std::process::Abort;
use std::test::Fail;

// A datagram over IPv4, of 30 bytes: from port 1024 to port 53.
const DATAGRAM: [u8; 30] = [
    0x45, 0, 0, 30, 0, 0, 0, 0, 64, 17, 0, 0, 10, 0, 0, 1, 10, 0, 0, 2, 4, 0, 0, 53, 0, 10, 0, 0,
    b'h', b'i',
];

// The error of a layer at a place.
fn too_short(layer: Layer, required_len: usize, len: usize, place: usize) -> LenError {
    LenError {
        required_len,
        len,
        len_source: LenSource::Slice,
        layer,
        layer_start_offset: place,
    }
}

// The priority, the mark that a frame may be dropped, and the identifier of a tag.
fn fields_of(tag: SingleVlanHeaderSlice) -> (u8, bool, u16) {
    (
        tag.priority_code_point(),
        tag.drop_eligible_indicator(),
        tag.vlan_identifier(),
    )
}

// The fields of both tags, if there are two.
fn two_tags(vlan: Option<VlanSlice>) -> Option<[(u8, bool, u16); 2]> {
    match vlan {
        Some(VlanSlice::DoubleVlan { outer, inner }) => Some([fields_of(outer), fields_of(inner)]),
        _ => None,
    }
}

#[test]
fn two_tags_are_read_and_a_third_is_another_protocol(rt: HostRuntime) {
    let bytes = &[0xb0, 7, 0x81, 0, 0x60, 5, 0x91, 0, 0, 1, 8, 0];
    let packet = SlicedPacket::from_ether_type(EtherType::PROVIDER_BRIDGING, bytes).expect(
        &rt, "a packet",
    );
    let third = Some(EtherType::VLAN_DOUBLE_TAGGED_FRAME);
    assert_equal(&rt, packet.ether_type, third);
    assert_equal(&rt, packet.payload, [0, 1, 8, 0].as_slice());
    assert_equal(&rt, packet.net.is_none(), true);
    let tags = [(5, true, 7), (3, false, 5)];
    assert_equal(&rt, two_tags(packet.vlan), Some(tags));
}

#[test]
fn an_error_of_a_tag_has_its_place_in_the_frame(rt: HostRuntime) {
    let frame = &[
        2, 0, 0, 0, 0, 2, 2, 0, 0, 0, 0, 1, 0x88, 0xa8, 0, 5, 0x81, 0, 1, 2, 3,
    ];
    let too_short = too_short(Layer::VlanHeader, 4, 3, 18);
    let refused = SlicedPacket::from_ethernet(frame).err();
    assert_equal(&rt, refused, Some(SliceError::Vlan(too_short)));
}

#[test]
fn an_error_of_ip_has_its_place_in_the_frame(rt: HostRuntime) {
    let mut frame = [0; 34];
    frame[16..].copy_from_slice(&DATAGRAM[..18]);
    [frame[14], frame[15]] = [8, 0];
    let too_short = too_short(Layer::Ipv4Header, 20, 18, 16);
    let refused = SlicedPacket::from_linux_sll(&frame).err();
    let error = IpSliceError::Ipv4Header(HeaderSliceError::Len(too_short));
    assert_equal(&rt, refused, Some(SliceError::Ip(error)));
}

#[test]
fn fragments_have_a_transport_header_if_the_first_has_all_of_it(rt: HostRuntime) {
    let mut later = DATAGRAM;
    later[7] = 1;
    let mut tiny = [0; 24];
    tiny.copy_from_slice(&DATAGRAM[..24]);
    [tiny[3], tiny[6]] = [24, 0x20];
    assert_has_ports_alone(&rt, &later, None);
    assert_has_ports_alone(&rt, &tiny, Some((1024, 53)));
}

// Asserts the ports of a fragment, which has no transport header, and is read to its end.
fn assert_has_ports_alone(rt: &impl Abort, packet: &[u8], ports: Option<(u16, u16)>) {
    let lax = LaxSlicedPacket::from_ip(packet);
    assert_equal(rt, lax.packet.ports(), ports);
    let are_none = [lax.stop.is_none(), lax.packet.transport.is_none()];
    assert_equal(rt, are_none, [true; 2]);
}

// Which header a packet is found to have after that of IP, and what follows a header of UDP.
fn upper_of(packet: &[u8]) -> Result<(&'static str, &[u8]), SliceError> {
    Ok(match SlicedPacket::from_ip(packet)?.transport {
        Some(TransportSlice::Udp { payload, .. }) => ("UDP", payload),
        Some(TransportSlice::Tcp { .. }) => ("TCP", &[]),
        Some(TransportSlice::Icmpv4 { .. }) => ("ICMP", &[]),
        Some(TransportSlice::Icmpv6 { .. }) => ("ICMPv6", &[]),
        None => ("none", &[]),
    })
}

#[test]
fn transport_headers_by_their_protocol(rt: HostRuntime) {
    let hi = b"hi".as_slice();
    let nothing = [].as_slice();
    assert_equal(&rt, upper_of(&DATAGRAM), Ok(("UDP", hi)));
    let mut message = DATAGRAM;
    message[9] = 1;
    assert_equal(&rt, upper_of(&message), Ok(("ICMP", nothing)));
    message[9] = 58;
    assert_equal(&rt, upper_of(&message), Ok(("none", nothing)));
    let mut segment = [0; 40];
    segment[..20].copy_from_slice(&DATAGRAM[..20]);
    [segment[3], segment[9], segment[32]] = [40, 6, 0x40];
    let refused = SliceError::Tcp(TcpError::DataOffset(4));
    assert_equal(&rt, upper_of(&segment), Err(refused));
    segment[32] = 0x50;
    assert_equal(&rt, upper_of(&segment), Ok(("TCP", nothing)));
}

// Why a packet is refused.
fn why_refused(packet: &[u8]) -> Option<SliceError> {
    SlicedPacket::from_ip(packet).err()
}

// The error of a payload that ends by this length field.
fn ended_by(len_source: LenSource, layer: Layer, required_len: usize, place: usize) -> LenError {
    LenError {
        len_source,
        ..too_short(layer, required_len, 3, place)
    }
}

#[test]
fn an_error_in_a_payload_names_the_length_field_that_ends_it(rt: HostRuntime) {
    // More bytes follow than the total length and the payload length say.
    let mut packet = DATAGRAM;
    packet[3] = 23;
    let error = ended_by(LenSource::Ipv4HeaderTotalLen, Layer::UdpHeader, 8, 20);
    assert_equal(&rt, why_refused(&packet), Some(SliceError::Udp(error)));
    let mut packet = [0; 60];
    [packet[0], packet[5], packet[6]] = [0x60, 3, 58];
    let error = ended_by(LenSource::Ipv6HeaderPayloadLen, Layer::Icmpv6, 4, 40);
    assert_equal(&rt, why_refused(&packet), Some(SliceError::Icmp(error)));
    packet[6] = 0;
    let error = ended_by(LenSource::Ipv6HeaderPayloadLen, Layer::Ipv6ExtHeader, 8, 40);
    let refused = SliceError::Ip(IpSliceError::Extensions(error));
    assert_equal(&rt, why_refused(&packet), Some(refused));
    // Nothing follows the EtherType.
    let mut frame = [0; 14];
    frame[12] = 8;
    let refused = SliceError::Ip(IpSliceError::Empty(too_short(Layer::IpHeader, 1, 0, 14)));
    assert_equal(
        &rt,
        SlicedPacket::from_ethernet(&frame).err(),
        Some(refused),
    );
}

// Whether a frame is found to carry a packet of IP: where the family is in the byte order of the
// host that captured it, and where it is in network byte order.
fn carries_ip(frame: &[u8]) -> Result<[bool; 2], SliceError> {
    let of_either = SlicedPacket::from_loopback(frame)?;
    let of_network = SlicedPacket::from_link_type(LinkType::Loop, frame)?;
    Ok([of_either.net.is_some(), of_network.net.is_some()])
}

#[test]
fn families_of_ip_and_byte_orders(rt: HostRuntime) {
    let mut frame = [0; 34];
    frame[4..].copy_from_slice(&DATAGRAM);
    for family in [2, 24, 28, 30] {
        [frame[0], frame[3]] = [family, 0];
        assert_equal(&rt, carries_ip(&frame), Ok([true, false]));
        [frame[0], frame[3]] = [0, family];
        assert_equal(&rt, carries_ip(&frame), Ok([true, true]));
    }
    assert_equal(&rt, LinkType::from_number(113), Some(LinkType::LinuxSll));
    assert_equal(&rt, LinkType::from_number(51), None);
}

// Asserts what the error of a frame or packet that is refused prints.
fn assert_refused(rt: &impl Abort, alloc: Global, refused: Option<SliceError>, text: &str) {
    let error = refused.expect(rt, "an error");
    let printed = format!(in alloc; "{error}").expect(rt, "a text");
    assert_equal(rt, printed.as_str(), text);
}

#[test]
fn protocol_types_of_cooked_captures(rt: HostRuntime) -> Result<(), SliceError> {
    // The protocol type is 0800 before an IPv4 packet.
    let mut frame = [0; 46];
    [frame[2], frame[14]] = [3, 8];
    frame[16..].copy_from_slice(&DATAGRAM);
    let mut frame_2 = [0; 50];
    [frame_2[0], frame_2[8]] = [8, 3];
    frame_2[20..].copy_from_slice(&DATAGRAM);
    // ARPHRD_IPGRE is 778, of which the low byte is 10; ARPHRD_NETLINK 824, ARPHRD_FRAD 770 and
    // ARPHRD_IEEE80211_RADIOTAP 803.
    for (low, ether_type) in [
        (10, Some(EtherType::IPV4)),
        (56, None),
        (2, None),
        (35, None),
    ] {
        frame[3] = low;
        assert_carries_datagram(&rt, &SlicedPacket::from_linux_sll(&frame)?, ether_type);
        frame_2[9] = low;
        assert_carries_datagram(&rt, &SlicedPacket::from_linux_sll2(&frame_2)?, ether_type);
    }
    Ok(())
}

// Asserts the EtherType of a frame, and that its datagram is read as IP if there is one.
fn assert_carries_datagram(rt: &impl Abort, frame: &SlicedPacket, ether_type: Option<EtherType>) {
    assert_equal(rt, frame.ether_type, ether_type);
    assert_equal(rt, frame.net.is_some(), ether_type.is_some());
    assert_equal(rt, frame.payload, DATAGRAM.as_slice());
}

#[test]
fn errors_have_texts(rt: HostRuntime) {
    let text = "Link Header Error: The header has at least 14 bytes, the frame 13.";
    assert_refused(
        &rt,
        rt.alloc(),
        SlicedPacket::from_ethernet(&[0; 13]).err(),
        text,
    );
    let mut segment = [0; 40];
    segment[..20].copy_from_slice(&DATAGRAM[..20]);
    [segment[3], segment[9], segment[32]] = [40, 6, 0x40];
    let text = "TCP Header Error: Data offset 4 is less than 5.";
    assert_refused(&rt, rt.alloc(), SlicedPacket::from_ip(&segment).err(), text);
}

#[test]
fn a_view_of_an_ethernet_header(rt: HostRuntime) -> Result<(), Fail> {
    // A frame from 2:0:0:0:0:1 to 2:0:0:0:0:2 with the first bytes of an ARP packet.
    let frame = &[2, 0, 0, 0, 0, 2, 2, 0, 0, 0, 0, 1, 8, 6, 0, 1];
    let layers = LinkLayers::from_link_type(LinkType::Ethernet2, frame)?;
    let header = Ethernet2HeaderSlice::from_slice(frame)?;
    assert_equal(&rt, layers.link, Some(LinkSlice::Ethernet2(header)));
    Ok(())
}

#[test]
fn a_view_of_a_cooked_header(rt: HostRuntime) -> Result<(), Fail> {
    // A broadcast from 2:0:0:0:0:1 on an Ethernet device, and the first bytes of an ARP packet.
    let frame = &[0, 1, 0, 1, 0, 6, 2, 0, 0, 0, 0, 1, 0, 0, 8, 6, 0, 1];
    let layers = LinkLayers::from_link_type(LinkType::LinuxSll, frame)?;
    let header = LinuxSllHeaderSlice::from_slice(frame)?;
    assert_equal(&rt, layers.link, Some(LinkSlice::LinuxSll(header)));
    Ok(())
}

#[test]
fn a_view_of_a_cooked_header_of_version_2(rt: HostRuntime) -> Result<(), Fail> {
    // A broadcast from 2:0:0:0:0:1 on interface 3, an Ethernet device, and the first bytes of an ARP
    // packet.
    let frame = &[
        8, 6, 0, 0, 0, 0, 0, 3, 0, 1, 1, 6, 2, 0, 0, 0, 0, 1, 0, 0, 0, 1,
    ];
    let layers = LinkLayers::from_link_type(LinkType::LinuxSll2, frame)?;
    let header = LinuxSll2HeaderSlice::from_slice(frame)?;
    assert_equal(&rt, layers.link, Some(LinkSlice::LinuxSll2(header)));
    Ok(())
}

#[test]
fn a_view_of_a_tag(rt: HostRuntime) -> Result<(), Fail> {
    // A tag of VLAN 5 with priority 3, and the first bytes of an ARP packet.
    let bytes = &[0x60, 5, 8, 6, 0, 1];
    let packet = SlicedPacket::from_ether_type(EtherType::VLAN_TAGGED_FRAME, bytes)?;
    let tag = SingleVlanHeaderSlice::from_slice(bytes)?;
    assert_equal(&rt, packet.vlan, Some(VlanSlice::SingleVlan(tag)));
    Ok(())
}
