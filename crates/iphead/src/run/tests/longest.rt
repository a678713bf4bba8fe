//! Outputs with numbers as long as can be: there is room for each.

use super::*;
use etherparse::LenSource;
use etherparse::err::ipv6::ChainError;
use etherparse::err::{Layer, LenError};

#[test]
fn there_is_room_for_the_greatest_number_of_bytes_after_an_ipv4_header(rt: HostRuntime) {
    let mut bytes = [0xff; 60];
    bytes[0] = 0x4f;
    bytes[6] = 0x1f;
    bytes[10] = 0x90;
    bytes[11] = 0x01;
    let mut text = Text::new();
    let view = Ipv4HeaderSlice::from_slice(&bytes).expect(&rt, "a header");
    write_ipv4(&mut text, &view, usize::MAX).expect(&rt, "room");
    let last = text.as_slice().strip_prefix(LONGEST_IPV4_FIELDS.as_bytes());
    assert_equal(&rt, last, Some(b"rest 18446744073709551615\n".as_slice()));
}

// An error with the greatest numbers.
fn incomplete(layer: Layer, len_source: LenSource) -> ChainError {
    ChainError::Len(LenError {
        required_len: usize::MAX,
        len: usize::MAX - 1,
        len_source,
        layer,
        layer_start_offset: usize::MAX,
    })
}

// Errors with the greatest numbers. The second has the longest text of all layers and sources.
fn longest_errors() -> [(ChainError, &'static str); 3] {
    [
        (
            incomplete(Layer::Ipv6ExtHeader, LenSource::Slice),
            "error: IPv6 Extension Header Error: \
            Not enough data to decode 'IPv6 extension header'. \
            18446744073709551615 byte(s) would be required, \
            but only 18446744073709551614 byte(s) are available based on the slice length \
            ('IPv6 extension header' starts at overall parsed byte 18446744073709551615).\n",
        ),
        (
            incomplete(Layer::Arp, LenSource::ArpAddrLengths),
            "error: Address Resolution Protocol Packet Error: \
            Not enough data to decode 'Address Resolution Protocol packet'. \
            18446744073709551615 byte(s) would be required, \
            but only 18446744073709551614 byte(s) are available based on the \
            length calculated from the ARP 'hw_addr_size' & 'proto_addr_size' fields \
            ('Address Resolution Protocol packet' starts at overall parsed byte \
            18446744073709551615).\n",
        ),
        (
            ChainError::TooMany {
                limit: usize::MAX,
                next_header: 255,
                layer_start_offset: usize::MAX,
            },
            "error: IPv6 Extension Header Error: More than 18446744073709551615 extension header(s) \
            ('255' starts at overall parsed byte 18446744073709551615).\n",
        ),
    ]
}

#[test]
fn there_is_room_for_the_fields_of_an_ipv6_header_and_any_error(rt: HostRuntime) {
    for (error, line) in longest_errors() {
        let mut text = Text::new();
        text.write_all(LONGEST_IPV6_FIELDS.as_bytes())
            .expect(&rt, "room");
        write_error(&mut text, error).expect(&rt, "room");
        let last = text.as_slice().get(LONGEST_IPV6_FIELDS.len()..);
        assert_equal(&rt, last, Some(line.as_bytes()));
    }
}
