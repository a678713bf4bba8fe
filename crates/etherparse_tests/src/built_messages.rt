//! Messages of ICMP and ICMPv6 that are built, beside the bytes that scapy 2.5 gives for them.

use crate::shared::{assert_equal, assert_written, vlan_id};
use etherparse_icmp::icmpv4::DestUnreachableHeader;
use etherparse_icmp::{Icmpv4Type, Icmpv6Type};
use packet_builder::{BuildSliceWriteError, IpStep, PacketBuilder};
use std::process::Abort;

const SOURCE: [u8; 6] = [2, 0, 0, 0, 0, 1];

const DESTINATION: [u8; 6] = [2, 0, 0, 0, 0, 2];

// From 10.0.0.1 to 10.0.0.2.
fn over_ipv4() -> IpStep {
    PacketBuilder::ipv4([10, 0, 0, 1], [10, 0, 0, 2], 64)
}

// 2001:db8::1 and 2001:db8::2, the source and the destination over IPv6.
const FIRST: [u8; 16] = [0x20, 1, 0x0d, 0xb8, 0, 0, 0, 0, 0, 0, 0, 0, 0, 0, 0, 1];

const SECOND: [u8; 16] = [0x20, 1, 0x0d, 0xb8, 0, 0, 0, 0, 0, 0, 0, 0, 0, 0, 0, 2];

fn over_ipv6() -> IpStep {
    PacketBuilder::ipv6(FIRST, SECOND, 47)
}

#[test]
fn messages_of_icmp(rt: HostRuntime) {
    let mut memory = [0xaa; 47];
    let builder = PacketBuilder::ethernet2(SOURCE, DESTINATION)
        .ipv4([192, 168, 1, 1], [192, 168, 1, 2], 20)
        .icmpv4_echo_request(1, 2);
    assert_equal(&rt, builder.size(4), 46);
    let written = builder.write_to_slice(&mut memory, b"abcd");
    assert_equal(&rt, memory[46], 0xaa);
    let expected = &[
        2, 0, 0, 0, 0, 2, 2, 0, 0, 0, 0, 1, 8, 0, 69, 0, 0, 32, 0, 0, 64, 0, 20, 1, 227, 137, 192,
        168, 1, 1, 192, 168, 1, 2, 8, 0, 51, 54, 0, 1, 0, 2, 97, 98, 99, 100,
    ];
    assert_written(&rt, written, &memory, expected);

    let written = over_ipv4()
        .icmpv4_echo_reply(0x1234, 0xffff)
        .write_to_slice(&mut memory, b"odd");
    let expected = &[
        69, 0, 0, 31, 0, 0, 64, 0, 64, 1, 38, 220, 10, 0, 0, 1, 10, 0, 0, 2, 0, 0, 26, 103, 18, 52,
        255, 255, 111, 100, 100,
    ];
    assert_written(&rt, written, &memory, expected);
}

#[test]
fn other_messages_of_icmp(rt: HostRuntime) {
    let mut memory = [0xaa; 47];
    let needed = DestUnreachableHeader::FragmentationNeeded { next_hop_mtu: 1400 };
    let written = over_ipv4()
        .icmpv4(Icmpv4Type::DestinationUnreachable(needed))
        .write_to_slice(&mut memory, b"abc");
    let expected = &[
        69, 0, 0, 31, 0, 0, 64, 0, 64, 1, 38, 220, 10, 0, 0, 1, 10, 0, 0, 2, 3, 4, 51, 33, 0, 0, 5,
        120, 97, 98, 99,
    ];
    assert_written(&rt, written, &memory, expected);

    let written = over_ipv4()
        .icmpv4_raw(42, 1, [0; 4])
        .write_to_slice(&mut memory, &[]);
    let expected = &[
        69, 0, 0, 28, 0, 0, 64, 0, 64, 1, 38, 223, 10, 0, 0, 1, 10, 0, 0, 2, 42, 1, 213, 254, 0, 0,
        0, 0,
    ];
    assert_written(&rt, written, &memory, expected);
}

#[test]
fn messages_of_icmpv6(rt: HostRuntime) {
    let mut memory = [0; 66];
    let builder = PacketBuilder::ethernet2(SOURCE, DESTINATION)
        .single_vlan(vlan_id(&rt, 5))
        .ipv6(FIRST, SECOND, 255)
        .icmpv6_echo_reply(1, 2);
    assert_equal(&rt, builder.size(0), 66);
    let written = builder.write_to_slice(&mut memory, &[]);
    let expected = &[
        2, 0, 0, 0, 0, 2, 2, 0, 0, 0, 0, 1, 129, 0, 0, 5, 134, 221, 96, 0, 0, 0, 0, 8, 58, 255, 32,
        1, 13, 184, 0, 0, 0, 0, 0, 0, 0, 0, 0, 0, 0, 1, 32, 1, 13, 184, 0, 0, 0, 0, 0, 0, 0, 0, 0,
        0, 0, 2, 129, 0, 35, 69, 0, 1, 0, 2,
    ];
    assert_written(&rt, written, &memory, expected);

    let written = PacketBuilder::ethernet2(SOURCE, DESTINATION)
        .ipv6(FIRST, SECOND, 64)
        .icmpv6_echo_request(1, 2)
        .write_to_slice(&mut memory, b"odd");
    let expected = &[
        2, 0, 0, 0, 0, 2, 2, 0, 0, 0, 0, 1, 134, 221, 96, 0, 0, 0, 0, 11, 58, 64, 32, 1, 13, 184,
        0, 0, 0, 0, 0, 0, 0, 0, 0, 0, 0, 1, 32, 1, 13, 184, 0, 0, 0, 0, 0, 0, 0, 0, 0, 0, 0, 2,
        128, 0, 80, 221, 0, 1, 0, 2, 111, 100, 100,
    ];
    assert_written(&rt, written, &memory, expected);
}

// Asserts that a packet of this length was written, and what stands before its hop limit and after
// its IPv6 header.
fn assert_message(
    rt: &impl Abort,
    written: Result<usize, BuildSliceWriteError>,
    memory: &[u8],
    len: usize,
    (front, message): (&[u8], &[u8]),
) {
    let parts = (written, memory.get(4..8), memory.get(40..len));
    assert_equal(rt, parts, (Ok(len), Some(front), Some(message)));
}

#[test]
fn other_messages_of_icmpv6(rt: HostRuntime) {
    let mut memory = [0; 66];
    let written = over_ipv6()
        .icmpv6(Icmpv6Type::PacketTooBig { mtu: 1280 })
        .write_to_slice(&mut memory, b"abcd");
    let message = &[2, 0, 216, 125, 0, 0, 5, 0, 97, 98, 99, 100];
    assert_message(&rt, written, &memory, 52, (&[0, 12, 58, 47], message));

    let written = over_ipv6()
        .icmpv6_raw(200, 3, [1, 2, 3, 4])
        .write_to_slice(&mut memory, b"xyz");
    let message = &[200, 3, 229, 193, 1, 2, 3, 4, 120, 121, 122];
    assert_message(&rt, written, &memory, 51, (&[0, 11, 58, 47], message));
}

// ICMP may follow either header, ICMPv6 that of IPv6 alone.
#[test]
fn messages_over_the_other_version(rt: HostRuntime) {
    let mut memory = [7; 52];
    let written = over_ipv6()
        .icmpv4_echo_request(1, 2)
        .write_to_slice(&mut memory, b"abcd");
    let message = [8, 0, 51, 54, 0, 1, 0, 2, 97, 98, 99, 100];
    assert_message(&rt, written, &memory, 52, (&[0, 12, 1, 47], &message));

    let mut memory = [7; 52];
    let refused = over_ipv4()
        .icmpv6_echo_request(1, 2)
        .write_to_slice(&mut memory, b"abcd");
    assert_equal(&rt, refused, Err(BuildSliceWriteError::Icmpv6InIpv4));
    assert_equal(&rt, memory.as_slice(), [7; 52].as_slice());
    let text = format!(in rt.alloc(); "{}", BuildSliceWriteError::Icmpv6InIpv4);
    let text = text.expect(&rt, "a text");
    assert_equal(
        &rt,
        text.as_str(),
        "A message of ICMPv6 cannot follow an IPv4 header.",
    );
}
