//! That both headers have each field where the standards lay it out: by what `{:?}` prints for a
//! header that was read, and by the bytes that are written for it.

use crate::shared::{IPV6_ASCENDING, WITH_OPTIONS, assert_clones, assert_equal, assert_hashes};
use arrayvec::ArrayVec;
use etherparse::{Ipv4Header, Ipv6Header};

// A header whose fields all differ, with no options and the reserved bit 1; it is written with 0.
const WITH_RESERVED_BIT: [u8; 20] = [
    0x45, 0x36, 0x80, 0x01, 0xfe, 0xdc, 0xbf, 0xff, 200, 6, 0x02, 0x03, 1, 2, 3, 4, 5, 6, 7, 8,
];

const WITHOUT_RESERVED_BIT: [u8; 20] = [
    0x45, 0x36, 0x80, 0x01, 0xfe, 0xdc, 0x3f, 0xff, 200, 6, 0x02, 0x03, 1, 2, 3, 4, 5, 6, 7, 8,
];

const IPV6_DESCENDING: [u8; 40] = [
    0x65, 0xe1, 0xab, 0xcd, 0x80, 0x01, 6, 127, 15, 14, 13, 12, 11, 10, 9, 8, 7, 6, 5, 4, 3, 2, 1,
    0, 255, 254, 253, 252, 251, 250, 249, 248, 247, 246, 245, 244, 243, 242, 241, 240,
];

// The bytes of a header, those that are written for it, and what `{:?}` prints.
static IPV4: [(&[u8], &[u8], &str); 2] = [
    (
        &WITH_OPTIONS,
        &WITH_OPTIONS,
        "Ipv4Header { dscp: IpDscp(42), ecn: Ect1, total_len: 4660, identification: 22136, \
        dont_fragment: true, more_fragments: false, fragment_offset: IpFragOffset(2748), \
        time_to_live: 17, protocol: IpNumber(47), header_checksum: 40431, \
        source: [192, 168, 7, 1], destination: [10, 20, 30, 40], options: [148, 4, 0, 5] }",
    ),
    (
        &WITH_RESERVED_BIT,
        &WITHOUT_RESERVED_BIT,
        "Ipv4Header { dscp: IpDscp(13), ecn: Ect0, total_len: 32769, identification: 65244, \
        dont_fragment: false, more_fragments: true, fragment_offset: IpFragOffset(8191), \
        time_to_live: 200, protocol: IpNumber(6), header_checksum: 515, \
        source: [1, 2, 3, 4], destination: [5, 6, 7, 8], options: [] }",
    ),
];

#[test]
fn each_ipv4_field_is_read_and_written(rt: HostRuntime) {
    for (bytes, written, text) in &IPV4 {
        let (header, rest) = Ipv4Header::from_slice(bytes).expect(&rt, "a header");
        let answer: ArrayVec<u8, 60> = header.to_bytes();
        assert_equal(&rt, (answer.as_slice(), rest.len()), (*written, 0));
        assert_hashes(&rt, &header);
        assert_clones(&rt, rt.alloc(), &header, text);
    }
}

// The bytes of a header, which are written for it too, and what `{:?}` prints.
static IPV6: [([u8; 40], &str); 2] = [
    (
        IPV6_ASCENDING,
        "Ipv6Header { traffic_class: 171, flow_label: Ipv6FlowLabel(843504), \
        payload_length: 4660, next_header: IpNumber(17), hop_limit: 59, \
        source: [32, 33, 34, 35, 36, 37, 38, 39, 40, 41, 42, 43, 44, 45, 46, 47], \
        destination: [48, 49, 50, 51, 52, 53, 54, 55, 56, 57, 58, 59, 60, 61, 62, 63] }",
    ),
    (
        IPV6_DESCENDING,
        "Ipv6Header { traffic_class: 94, flow_label: Ipv6FlowLabel(109517), \
        payload_length: 32769, next_header: IpNumber(6), hop_limit: 127, \
        source: [15, 14, 13, 12, 11, 10, 9, 8, 7, 6, 5, 4, 3, 2, 1, 0], \
        destination: [255, 254, 253, 252, 251, 250, 249, 248, 247, 246, 245, 244, 243, 242, \
        241, 240] }",
    ),
];

#[test]
fn each_ipv6_field_is_read_and_written(rt: HostRuntime) {
    for (bytes, text) in &IPV6 {
        let (header, rest) = Ipv6Header::from_slice(bytes).expect(&rt, "a header");
        let answer: [u8; 40] = header.to_bytes();
        assert_equal(&rt, (answer, rest.len()), (*bytes, 0));
        assert_clones(&rt, rt.alloc(), &header, text);
    }
}
