//! Whole packets from a pool, beside those that scapy 2.5.0 cut into fragments.

use crate::shared::{assert_equal, assert_that};
use packet_reassembly::fragment_ecn::FragmentEcn;
use packet_reassembly::ip_defrag_buf::IpDefragBuf;
use packet_reassembly::ip_defrag_headers::IpDefragHeaders;
use packet_reassembly::ip_defrag_packet::IpDefragPacketError;
use packet_reassembly::ip_defrag_pool::{IpDefragPool, IpDefragSlot};
use std::process::Abort;

// A packet of UDP over IPv4 with a router alert option, and its two fragments.
const IPV4_PACKET: [u8; 65] = [
    0x46, 0x28, 0, 0x41, 0x1c, 0x46, 0, 0, 0x3d, 0x11, 0xdf, 0xfd, 0xc0, 0, 2, 1, 0xc6, 0x33, 0x64,
    7, 0x94, 4, 0, 0, 0x12, 0x34, 0, 0x35, 0, 0x29, 0xbc, 0xf2, 0x30, 0x31, 0x32, 0x33, 0x34, 0x35,
    0x36, 0x37, 0x38, 0x39, 0x3a, 0x3b, 0x3c, 0x3d, 0x3e, 0x3f, 0x40, 0x41, 0x42, 0x43, 0x44, 0x45,
    0x46, 0x47, 0x48, 0x49, 0x4a, 0x4b, 0x4c, 0x4d, 0x4e, 0x4f, 0x50,
];

const IPV4_FIRST: [u8; 48] = [
    0x46, 0x28, 0, 0x30, 0x1c, 0x46, 0x20, 0, 0x3d, 0x11, 0xc0, 0x0e, 0xc0, 0, 2, 1, 0xc6, 0x33,
    0x64, 7, 0x94, 4, 0, 0, 0x12, 0x34, 0, 0x35, 0, 0x29, 0xbc, 0xf2, 0x30, 0x31, 0x32, 0x33, 0x34,
    0x35, 0x36, 0x37, 0x38, 0x39, 0x3a, 0x3b, 0x3c, 0x3d, 0x3e, 0x3f,
];

const IPV4_LAST: [u8; 41] = [
    0x46, 0x28, 0, 0x29, 0x1c, 0x46, 0, 3, 0x3d, 0x11, 0xe0, 0x12, 0xc0, 0, 2, 1, 0xc6, 0x33, 0x64,
    7, 0x94, 4, 0, 0, 0x40, 0x41, 0x42, 0x43, 0x44, 0x45, 0x46, 0x47, 0x48, 0x49, 0x4a, 0x4b, 0x4c,
    0x4d, 0x4e, 0x4f, 0x50,
];

// A packet of UDP over IPv6 with hop-by-hop options of 8 bytes and destination options of 16, and its
// two fragments.
const IPV6_PACKET: [u8; 105] = [
    0x62, 1, 0x23, 0x45, 0, 0x41, 0, 0x3f, 0x20, 1, 0x0d, 0xb8, 0, 0, 0, 0, 0, 0, 0, 0, 0, 0, 0, 1,
    0x20, 1, 0x0d, 0xb8, 0, 0, 0, 0, 0, 0, 0, 0, 0, 0, 0, 2, 0x3c, 0, 1, 4, 0, 0, 0, 0, 0x11, 1, 1,
    0x0c, 0, 0, 0, 0, 0, 0, 0, 0, 0, 0, 0, 0, 0x12, 0x34, 0, 0x35, 0, 0x29, 0x4d, 0xba, 0x30, 0x31,
    0x32, 0x33, 0x34, 0x35, 0x36, 0x37, 0x38, 0x39, 0x3a, 0x3b, 0x3c, 0x3d, 0x3e, 0x3f, 0x40, 0x41,
    0x42, 0x43, 0x44, 0x45, 0x46, 0x47, 0x48, 0x49, 0x4a, 0x4b, 0x4c, 0x4d, 0x4e, 0x4f, 0x50,
];

const IPV6_FIRST: [u8; 96] = [
    0x62, 1, 0x23, 0x45, 0, 0x38, 0, 0x3f, 0x20, 1, 0x0d, 0xb8, 0, 0, 0, 0, 0, 0, 0, 0, 0, 0, 0, 1,
    0x20, 1, 0x0d, 0xb8, 0, 0, 0, 0, 0, 0, 0, 0, 0, 0, 0, 2, 0x3c, 0, 1, 4, 0, 0, 0, 0, 0x2c, 1, 1,
    0x0c, 0, 0, 0, 0, 0, 0, 0, 0, 0, 0, 0, 0, 0x11, 0, 0, 1, 0xde, 0xad, 0xbe, 0xef, 0x12, 0x34, 0,
    0x35, 0, 0x29, 0x4d, 0xba, 0x30, 0x31, 0x32, 0x33, 0x34, 0x35, 0x36, 0x37, 0x38, 0x39, 0x3a,
    0x3b, 0x3c, 0x3d, 0x3e, 0x3f,
];

const IPV6_LAST: [u8; 89] = [
    0x62, 1, 0x23, 0x45, 0, 0x31, 0, 0x3f, 0x20, 1, 0x0d, 0xb8, 0, 0, 0, 0, 0, 0, 0, 0, 0, 0, 0, 1,
    0x20, 1, 0x0d, 0xb8, 0, 0, 0, 0, 0, 0, 0, 0, 0, 0, 0, 2, 0x3c, 0, 1, 4, 0, 0, 0, 0, 0x2c, 1, 1,
    0x0c, 0, 0, 0, 0, 0, 0, 0, 0, 0, 0, 0, 0, 0x11, 0, 0, 0x18, 0xde, 0xad, 0xbe, 0xef, 0x40, 0x41,
    0x42, 0x43, 0x44, 0x45, 0x46, 0x47, 0x48, 0x49, 0x4a, 0x4b, 0x4c, 0x4d, 0x4e, 0x4f, 0x50,
];

// How long the packet is that these make, one after another, as `out` has it then; 0 if it is none.
fn put_together(
    first: &[u8],
    second: &[u8],
    third: &[u8],
    out: &mut [u8; 65575],
) -> Result<usize, IpDefragPacketError> {
    let mut bytes = [0; IpDefragBuf::MAX_LEN];
    let mut units = [0; IpDefragBuf::UNITS];
    let mut headers = [0; IpDefragHeaders::MAX_LEN];
    let mut slots = [IpDefragSlot {
        id: None,
        ecn: FragmentEcn::NONE,
        since: 0,
        headers: IpDefragHeaders::new(&mut headers),
        buf: IpDefragBuf::new(&mut bytes, &mut units),
    }];
    let mut pool = IpDefragPool {
        slots: &mut slots,
        timeout: IpDefragPool::TIMEOUT_SECONDS,
    };
    pool.add_packet(first, None, None, 0)?;
    pool.add_packet(second, None, None, 0)?;
    pool.add_packet(third, None, None, 0)?;
    Ok(pool.write_packet(0, out).unwrap_or(None).unwrap_or(0))
}

// The packet that they make.
fn assert_packet(rt: &impl Abort, first: &[u8], second: &[u8], third: &[u8], packet: &[u8]) {
    let mut out = [0; 65575];
    let len = put_together(first, second, third, &mut out).expect(rt, "fragments");
    assert_equal(rt, out.get(..len), Some(packet));
}

// The packet that two fragments make, in both orders.
fn assert_both_orders(rt: &impl Abort, one: &[u8], other: &[u8], packet: &[u8]) {
    assert_packet(rt, one, other, other, packet);
    assert_packet(rt, other, one, one, packet);
}

#[test]
fn the_headers_of_the_copy_that_comes_first_count(rt: HostRuntime) {
    // A copy with another time to live, and with that a checksum that is wrong.
    let mut copy = IPV4_FIRST;
    copy[8] = 7;
    assert_packet(&rt, &IPV4_LAST, &IPV4_FIRST, &copy, &IPV4_PACKET);
    assert_packet(&rt, &IPV4_FIRST, &copy, &IPV4_LAST, &IPV4_PACKET);
    assert_packet(&rt, &IPV4_FIRST, &copy, &copy, &[]);
}

#[test]
fn the_next_header_of_the_first_fragment_counts(rt: HostRuntime) {
    // The last fragment names no next header (59).
    let mut last = IPV6_LAST;
    last[64] = 59;
    assert_packet(&rt, &last, &last, &IPV6_FIRST, &IPV6_PACKET);
    assert_packet(&rt, &IPV6_FIRST, &last, &last, &IPV6_PACKET);
}

// Fragments of IPv4 with these ECN codepoints make a packet with this one, in both orders; the byte
// is the lower one of its header checksum.
fn assert_ipv4_ecn(rt: &impl Abort, first: u8, last: u8, ecn: u8, checksum: u8) {
    let (mut one, mut other, mut packet) = (IPV4_FIRST, IPV4_LAST, IPV4_PACKET);
    (one[1], other[1]) = (0x28 | first, 0x28 | last);
    (packet[1], packet[11]) = (0x28 | ecn, checksum);
    assert_both_orders(rt, &one, &other, &packet);
}

// The same of IPv6: the lower 2 bits of the traffic class are bits 4 and 5 of byte 1.
fn assert_ipv6_ecn(rt: &impl Abort, first: u8, last: u8, byte: u8) {
    let (mut one, mut other, mut packet) = (IPV6_FIRST, IPV6_LAST, IPV6_PACKET);
    (one[1], other[1], packet[1]) = (first, last, byte);
    assert_both_orders(rt, &one, &other, &packet);
}

#[test]
fn a_mark_of_congestion_is_not_lost(rt: HostRuntime) {
    // CE of the last fragment, of the first, and of both, beside ECT(0) and ECT(1) (RFC 3168 section
    // 5.3). The checksum of the packet is that without the codepoint, less it (RFC 1624).
    assert_ipv4_ecn(&rt, 2, 3, 3, 0xfa);
    assert_ipv4_ecn(&rt, 3, 1, 3, 0xfa);
    assert_ipv4_ecn(&rt, 3, 3, 3, 0xfa);
    assert_ipv6_ecn(&rt, 0x11, 0x31, 0x31);
    assert_ipv6_ecn(&rt, 0x31, 0x21, 0x31);
    assert_ipv6_ecn(&rt, 0x31, 0x31, 0x31);
    // No CE: the codepoint of the first.
    assert_ipv4_ecn(&rt, 2, 1, 2, 0xfb);
    assert_ipv4_ecn(&rt, 1, 1, 1, 0xfc);
    assert_ipv6_ecn(&rt, 0x11, 0x21, 0x11);
    assert_ipv6_ecn(&rt, 0x21, 0x21, 0x21);
}

#[test]
fn a_duplicate_that_was_marked_on_its_way_counts(rt: HostRuntime) {
    let (mut first, mut last, mut packet) = (IPV4_FIRST, IPV4_LAST, IPV4_PACKET);
    (first[1], last[1]) = (0x2a, 0x2a);
    let mut copy = last;
    copy[1] = 0x2b;
    (packet[1], packet[11]) = (0x2b, 0xfa);
    assert_packet(&rt, &first, &last, &copy, &packet);
    assert_packet(&rt, &copy, &last, &first, &packet);
}

#[test]
fn ce_beside_not_ect_is_dropped(rt: HostRuntime) {
    let (mut first, mut last) = (IPV4_FIRST, IPV4_LAST);
    first[1] = 0x2b;
    assert_both_orders(&rt, &first, &IPV4_LAST, &[]);
    last[1] = 0x2b;
    assert_both_orders(&rt, &IPV4_FIRST, &last, &[]);
    let (mut first, mut last) = (IPV6_FIRST, IPV6_LAST);
    first[1] = 0x31;
    assert_both_orders(&rt, &first, &IPV6_LAST, &[]);
    last[1] = 0x31;
    assert_both_orders(&rt, &IPV6_FIRST, &last, &[]);
}

#[test]
fn headers_of_1280_bytes_are_kept_and_longer_ones_refused(rt: HostRuntime) {
    // A fragment at offset 0 with destination options of 1232 bytes and a payload of 8.
    let mut out = [0; 65575];
    let mut packet = [0; 1296];
    (packet[0], packet[4], packet[5], packet[6]) = (0x60, 0x04, 0xe0, 60);
    (packet[40], packet[41]) = (44, 153);
    (packet[1272], packet[1275]) = (17, 1);
    let kept = put_together(&packet, &packet, &packet, &mut out);
    assert_that(&rt, matches!(kept, Ok(0)));
    // 8 bytes of options more.
    (packet[5], packet[41]) = (0xe8, 154);
    (packet[1272], packet[1275]) = (0, 0);
    (packet[1280], packet[1283]) = (17, 1);
    let refused = put_together(&packet, &packet, &packet, &mut out);
    assert_that(
        &rt,
        matches!(
            refused,
            Err(IpDefragPacketError::HeadersTooLong { len: 1288 })
        ),
    );
}

#[test]
fn a_first_fragment_has_the_whole_header_chain(rt: HostRuntime) {
    // The first fragment of an IPv6 packet, of 8 bytes: a whole UDP header, and a part of one of TCP
    // (RFC 7112).
    let mut out = [0; 65575];
    let mut packet = [0; 56];
    (packet[0], packet[5], packet[6]) = (0x60, 16, 44);
    (packet[40], packet[43]) = (17, 1);
    let kept = put_together(&packet, &packet, &packet, &mut out);
    assert_that(&rt, matches!(kept, Ok(0)));
    packet[40] = 6;
    let refused = put_together(&packet, &packet, &packet, &mut out);
    assert_that(
        &rt,
        matches!(refused, Err(IpDefragPacketError::HeaderChain)),
    );
}
