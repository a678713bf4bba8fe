//! Updated checksums of IPv4 headers beside checksums that are summed anew, word by word.

use crate::shared::{assert_equal, fill_without_pattern, sum_word_by_word};
use etherparse::{IpNumber, Ipv4Header};

// A header with this time to live and this checksum.
fn header(time_to_live: u8, checksum: u16) -> Ipv4Header {
    let mut header = Ipv4Header::default();
    header.total_len = 115;
    header.time_to_live = time_to_live;
    header.protocol = IpNumber::UDP;
    header.header_checksum = checksum;
    header.source = [192, 168, 0, 1];
    header.destination = [192, 168, 0, 199];
    header
}

#[test]
fn a_router_lowers_the_time_to_live_or_discards(rt: HostRuntime) {
    for (time_to_live, checksum, goes_on, lowered, updated) in [
        (64, 0xb861, true, 63, 0xb961),
        (2, 0xf661, true, 1, 0xf761),
        (1, 0xf761, false, 1, 0xf761),
        (0, 0, false, 0, 0),
    ] {
        let mut lowers = header(time_to_live, checksum);
        let does_go_on = lowers.lower_time_to_live();
        let expected = (goes_on, header(lowered, updated));
        assert_equal(&rt, (does_go_on, lowers), expected);
    }
}

// Headers without a pattern, whose checksum was computed, and each update against computing anew.
#[test]
fn updates_of_random_headers_are_what_is_computed_anew(rt: HostRuntime) {
    let mut header = Ipv4Header::default();
    for seed in 0..2000 {
        let new = drawn_header(seed).expect(&rt, "a header");
        assert_equal(&rt, updates_are_computed(header, &new), [true; 6]);
        header = new;
    }
}

// A header without a pattern, and without options.
fn drawn_header(seed: u64) -> Option<Ipv4Header> {
    let mut bytes = [0; 20];
    fill_without_pattern(&mut bytes, seed);
    bytes[0] = 0x45;
    let (header, _) = Ipv4Header::from_slice(&bytes).ok()?;
    Some(header)
}

// Whether a header has the computed checksum after each update, to the fields of another.
fn updates_are_computed(mut header: Ipv4Header, new: &Ipv4Header) -> [bool; 6] {
    header.set_checksum();
    header.set_dscp(new.dscp);
    let after_dscp = is_computed(&header);
    header.set_ecn(new.ecn);
    let after_ecn = is_computed(&header);
    header.set_time_to_live(new.time_to_live);
    let after_time = is_computed(&header);
    header.set_source(new.source);
    let after_source = is_computed(&header);
    header.set_destination(new.destination);
    let after_destination = is_computed(&header);
    header.lower_time_to_live();
    [
        after_dscp,
        after_ecn,
        after_time,
        after_source,
        after_destination,
        is_computed(&header),
    ]
}

// Whether the stored checksum is the complement of the sum of the header's other words: its own
// complement, as the start, makes a multiple of 65535 of it.
fn is_computed(header: &Ipv4Header) -> bool {
    let complement = !header.header_checksum.swap_bytes();
    sum_word_by_word(u64::from(complement), header.to_bytes().as_slice()) == complement
}
