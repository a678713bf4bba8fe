//! Packets that are built, beside the bytes that scapy 2.5 gives for them; and taken apart again.

use crate::shared::{assert_equal, assert_written, vlan_id};
use etherparse_link::{
    ArpHardwareId, ArpOperation, ArpPacket, EtherType, LinuxSllHeader, LinuxSllPacketType,
};
use etherparse_transport::{TcpOptionElement, TcpOptionWriteError};
use packet::sliced_packet::SlicedPacket;
use packet_builder::{BuildSliceWriteError, PacketBuilder};
use packet_parts::checksum::Verdict;
use std::process::Abort;

const SOURCE: [u8; 6] = [2, 0, 0, 0, 0, 1];

const DESTINATION: [u8; 6] = [2, 0, 0, 0, 0, 2];

#[test]
fn a_datagram_over_ethernet(rt: HostRuntime) {
    let builder = PacketBuilder::ethernet2([1, 2, 3, 4, 5, 6], [7, 8, 9, 10, 11, 12])
        .ipv4([192, 168, 1, 1], [192, 168, 1, 2], 20)
        .udp(21, 1234);
    assert_equal(&rt, builder.size(8), 50);
    let mut memory = [0xaa; 51];
    let written = builder.write_to_slice(&mut memory, &[1, 2, 3, 4, 5, 6, 7, 8]);
    assert_equal(&rt, memory[50], 0xaa);
    let expected = &[
        7, 8, 9, 10, 11, 12, 1, 2, 3, 4, 5, 6, 8, 0, 69, 0, 0, 36, 0, 0, 64, 0, 20, 17, 227, 117,
        192, 168, 1, 1, 192, 168, 1, 2, 0, 21, 4, 210, 0, 16, 103, 127, 1, 2, 3, 4, 5, 6, 7, 8,
    ];
    assert_written(&rt, written, &memory, expected);
    assert_carries_datagram(&rt, expected);
}

// Asserts that a datagram from port 21 to port 1234 is in a frame, and that its checksum is right.
fn assert_carries_datagram(rt: &impl Abort, frame: &[u8]) {
    let packet = SlicedPacket::from_ethernet(frame).expect(rt, "a frame");
    assert_equal(rt, packet.ports(), Some((21, 1234)));
    let Some(ip) = packet.net else {
        panic!(rt; "no packet");
    };
    assert_equal(rt, ip.verdict(), Verdict::Right);
}

#[test]
fn a_segment_over_ipv6_in_two_vlans(rt: HostRuntime) {
    let (a, b) = (
        [0x20, 1, 0x0d, 0xb8, 0, 0, 0, 0, 0, 0, 0, 0, 0, 0, 0, 1],
        [0x20, 1, 0x0d, 0xb8, 0, 0, 0, 0, 0, 0, 0, 0, 0, 0, 0, 2],
    );
    let builder = PacketBuilder::ethernet2(SOURCE, DESTINATION)
        .double_vlan(vlan_id(&rt, 5), vlan_id(&rt, 7))
        .ipv6(a, b, 64)
        .tcp(1024, 80, 1, 8192)
        .syn()
        .ack(2)
        .options_raw(&[2, 4, 5, 180])
        .expect(&rt, "options");
    assert_equal(&rt, builder.size(3), 89);
    let mut memory = [0; 89];
    let written = builder.write_to_slice(&mut memory, b"odd");
    let expected = &[
        2, 0, 0, 0, 0, 2, 2, 0, 0, 0, 0, 1, 136, 168, 0, 5, 129, 0, 0, 7, 134, 221, 96, 0, 0, 0, 0,
        27, 6, 64, 32, 1, 13, 184, 0, 0, 0, 0, 0, 0, 0, 0, 0, 0, 0, 1, 32, 1, 13, 184, 0, 0, 0, 0,
        0, 0, 0, 0, 0, 0, 0, 2, 4, 0, 0, 80, 0, 0, 0, 1, 0, 0, 0, 2, 96, 18, 32, 0, 68, 231, 0, 0,
        2, 4, 5, 180, 111, 100, 100,
    ];
    assert_written(&rt, written, &memory, expected);
}

#[test]
fn a_datagram_in_a_cooked_capture(rt: HostRuntime) {
    let header = LinuxSllHeader {
        packet_type: LinuxSllPacketType::OUTGOING,
        arp_hrd_type: ArpHardwareId::ETHERNET,
        sender_address_valid_length: 6,
        sender_address: [2, 0, 0, 0, 0, 1, 0, 0],
        protocol_type: EtherType(0),
    };
    let builder = PacketBuilder::linux_sll(header)
        .ipv4([10, 0, 0, 1], [10, 0, 0, 2], 64)
        .udp(1024, 53);
    let mut memory = [0; 48];
    let written = builder.write_to_slice(&mut memory, b"test");
    let expected = &[
        0, 4, 0, 1, 0, 6, 2, 0, 0, 0, 0, 1, 0, 0, 8, 0, 69, 0, 0, 32, 0, 0, 64, 0, 64, 17, 38, 203,
        10, 0, 0, 1, 10, 0, 0, 2, 4, 0, 0, 53, 0, 12, 255, 196, 116, 101, 115, 116,
    ];
    assert_written(&rt, written, &memory, expected);
}

#[test]
fn a_slice_that_is_too_short(rt: HostRuntime) {
    let builder = PacketBuilder::ipv4([10, 0, 0, 1], [10, 0, 0, 2], 64)
        .tcp(1024, 80, 1, 8192)
        .syn();
    let mut memory = [7; 39];
    let refused = builder
        .clone()
        .expect(&rt, "a clone")
        .write_to_slice(&mut memory, &[]);
    assert_equal(&rt, refused, Err(BuildSliceWriteError::Space(40)));
    assert_equal(&rt, memory.as_slice(), [7; 39].as_slice());
    let mut memory = [7; 40];
    let written = builder.write_to_slice(&mut memory, &[]);
    let expected = &[
        69, 0, 0, 40, 0, 0, 64, 0, 64, 6, 38, 206, 10, 0, 0, 1, 10, 0, 0, 2, 4, 0, 0, 80, 0, 0, 0,
        1, 0, 0, 0, 0, 80, 2, 32, 0, 119, 143, 0, 0,
    ];
    assert_written(&rt, written, &memory, expected);
}

// Three options, two bytes of padding, and a payload; and options that do not fit.
#[test]
fn a_segment_with_options(rt: HostRuntime) {
    let step = PacketBuilder::ipv4([10, 0, 0, 1], [10, 0, 0, 2], 64)
        .tcp(1024, 80, 1, 8192)
        .syn();
    let options = [
        TcpOptionElement::MaximumSegmentSize(1460),
        TcpOptionElement::WindowScale(7),
        TcpOptionElement::SelectiveAcknowledgementPermitted,
    ];
    let mut memory = [0; 53];
    let written = step
        .clone()
        .expect(&rt, "a clone")
        .options(&options)
        .expect(&rt, "options")
        .write_to_slice(&mut memory, b"x");
    let expected = &[
        69, 0, 0, 53, 0, 0, 64, 0, 64, 6, 38, 193, 10, 0, 0, 1, 10, 0, 0, 2, 4, 0, 0, 80, 0, 0, 0,
        1, 0, 0, 0, 0, 128, 2, 32, 0, 187, 194, 0, 0, 2, 4, 5, 180, 3, 3, 7, 4, 2, 0, 0, 0, 120,
    ];
    assert_written(&rt, written, &memory, expected);
    let refused = step.options(&[TcpOptionElement::MaximumSegmentSize(1460); 11]);
    assert_equal(
        &rt,
        refused.err(),
        Some(TcpOptionWriteError::NotEnoughSpace(44)),
    );
}

// The Rust crate's example of a segment: all its flags are in the byte before the window size, but
// NS, which is the last bit before that byte.
#[test]
fn a_segment_over_ethernet(rt: HostRuntime) {
    let builder = PacketBuilder::ethernet2([1, 2, 3, 4, 5, 6], [7, 8, 9, 10, 11, 12])
        .ipv4([192, 168, 1, 1], [192, 168, 1, 2], 20)
        .tcp(21, 1234, 1, 26180)
        .ns()
        .ack(123)
        .urg(23)
        .options(&[
            TcpOptionElement::Noop,
            TcpOptionElement::MaximumSegmentSize(1234),
        ])
        .expect(&rt, "options");
    assert_equal(&rt, builder.size(8), 70);
    let mut memory = [0; 70];
    let written = builder.write_to_slice(&mut memory, &[1, 2, 3, 4, 5, 6, 7, 8]);
    let expected = &[
        7, 8, 9, 10, 11, 12, 1, 2, 3, 4, 5, 6, 8, 0, 69, 0, 0, 56, 0, 0, 64, 0, 20, 6, 227, 108,
        192, 168, 1, 1, 192, 168, 1, 2, 0, 21, 4, 210, 0, 0, 0, 1, 0, 0, 0, 123, 113, 48, 102, 68,
        184, 119, 0, 23, 1, 2, 4, 4, 210, 0, 0, 0, 1, 2, 3, 4, 5, 6, 7, 8,
    ];
    assert_written(&rt, written, &memory, expected);
}

// From 192.168.0.1 about 192.168.0.2.
fn arp(rt: &impl Abort, operation: ArpOperation, target: &[u8; 6]) -> ArpPacket {
    ArpPacket::new(
        ArpHardwareId::ETHERNET,
        EtherType::IPV4,
        operation,
        &SOURCE,
        &[192, 168, 0, 1],
        target,
        &[192, 168, 0, 2],
    )
    .expect(rt, "an ARP packet")
}

#[test]
fn an_arp_request_to_all(rt: HostRuntime) {
    let request = arp(&rt, ArpOperation::REQUEST, &[0; 6]);
    let builder = PacketBuilder::ethernet2(SOURCE, [255; 6]).arp(request);
    assert_equal(&rt, builder.size(), 42);
    let mut memory = [0xaa; 43];
    let written = builder.write_to_slice(&mut memory);
    assert_equal(&rt, memory[42], 0xaa);
    let expected = &[
        255, 255, 255, 255, 255, 255, 2, 0, 0, 0, 0, 1, 8, 6, 0, 1, 8, 0, 6, 4, 0, 1, 2, 0, 0, 0,
        0, 1, 192, 168, 0, 1, 0, 0, 0, 0, 0, 0, 192, 168, 0, 2,
    ];
    assert_written(&rt, written, &memory, expected);
}

#[test]
fn an_arp_reply_in_a_vlan(rt: HostRuntime) {
    let reply = arp(&rt, ArpOperation::REPLY, &DESTINATION);
    let builder = PacketBuilder::ethernet2(SOURCE, [255; 6])
        .single_vlan(vlan_id(&rt, 7))
        .arp(reply);
    assert_equal(&rt, builder.size(), 46);
    let mut memory = [7; 45];
    let refused = builder
        .clone()
        .expect(&rt, "a clone")
        .write_to_slice(&mut memory);
    assert_equal(&rt, refused, Err(BuildSliceWriteError::Space(46)));
    assert_equal(&rt, memory.as_slice(), [7; 45].as_slice());
    let mut memory = [0; 46];
    let written = builder.write_to_slice(&mut memory);
    let expected = &[
        255, 255, 255, 255, 255, 255, 2, 0, 0, 0, 0, 1, 129, 0, 0, 7, 8, 6, 0, 1, 8, 0, 6, 4, 0, 2,
        2, 0, 0, 0, 0, 1, 192, 168, 0, 1, 2, 0, 0, 0, 0, 2, 192, 168, 0, 2,
    ];
    assert_written(&rt, written, &memory, expected);
}
