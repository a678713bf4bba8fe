mod failing;
mod fronts;
mod longest;

use super::*;
use std::alloc::{AllocError, Global};
use std::fmt::Debug;
use std::process::Abort;

// The input, in texts that each stand there as often as the number beside them says; and all that
// is printed, in texts one after another.
type Row<'a> = (&'a [(&'a str, usize)], &'a [&'a str]);

const IPV6: &str =
    "60000000 00003b40 00000000 00000000 00000000 00000001 00000000 00000000 00000000 00000002";

const IPV6_DIGITS: &str =
    "6000000000003b400000000000000000000000000000000100000000000000000000000000000002";

const IPV6_LINES: &str = "version 6
traffic_class 0
flow_label 0
payload_length 0
next_header 59
hop_limit 64
source 00000000000000000000000000000001
destination 00000000000000000000000000000002
upper 59
place 40
rest 0
";

// The same header with a payload length, a next header of 0, a whole extension header and an
// incomplete one.
const INCOMPLETE: &str =
    "60000000 000b0040 00000000 00000000 00000000 00000001 00000000 00000000 00000000 00000002 \
    2b000000 00000000 060100";

const INCOMPLETE_LINES: &str = "version 6
traffic_class 0
flow_label 0
payload_length 11
next_header 0
hop_limit 64
source 00000000000000000000000000000001
destination 00000000000000000000000000000002
error: IPv6 Extension Header Error: Not enough data to decode 'IPv6 extension header'. \
16 byte(s) would be required, but only 3 byte(s) are available based on the slice length \
('IPv6 extension header' starts at overall parsed byte 48).
";

// The same header, followed by 33 extension headers: one more than the walk goes past.
const ABOVE_THE_LIMIT: &str =
    "60000000 01080040 00000000 00000000 00000000 00000001 00000000 00000000 00000000 00000002";

const ABOVE_THE_LIMIT_LINES: &str = "version 6
traffic_class 0
flow_label 0
payload_length 264
next_header 0
hop_limit 64
source 00000000000000000000000000000001
destination 00000000000000000000000000000002
error: IPv6 Extension Header Error: More than 32 extension header(s) \
('0' starts at overall parsed byte 296).
";

// The same header, followed by 32 extension headers.
const AT_THE_LIMIT: &str =
    "60000000 01000040 00000000 00000000 00000000 00000001 00000000 00000000 00000000 00000002";

const AT_THE_LIMIT_LINES: &str = "version 6
traffic_class 0
flow_label 0
payload_length 256
next_header 0
hop_limit 64
source 00000000000000000000000000000001
destination 00000000000000000000000000000002
upper 59
place 296
rest 0
";

const GREATEST_LINES: &str = "version 6
traffic_class 0
flow_label 0
payload_length 0
next_header 59
hop_limit 64
source 00000000000000000000000000000001
destination 00000000000000000000000000000002
upper 59
place 40
rest 2008
";

const IPV4: &str = "45000073 00004000 4011b861 c0a80001 c0a800c7";

const IPV4_LINES: &str = "version 4
ihl 5
dscp 0
ecn 0
total_len 115
identification 0
dont_fragment true
more_fragments false
fragment_offset 0
time_to_live 64
protocol 17
header_checksum b861
source 192.168.0.1
destination 192.168.0.199
options -
computed b861
sum good
rest 0
";

const OPTIONS: &str = "46c00018 0001a000 40060000 0a000001 0a000002 01020304 ff";

const OPTIONS_FRONT: &str = "version 4
ihl 6
dscp 48
ecn 0
total_len 24
identification 1
dont_fragment false
more_fragments true
fragment_offset 0
time_to_live 64
protocol 6
";

const OPTIONS_BACK: &str = "source 10.0.0.1
destination 10.0.0.2
options 01020304
computed 4117
";

const OPTIONS_LINES: [&str; 4] = [
    OPTIONS_FRONT,
    "header_checksum 0000\n",
    OPTIONS_BACK,
    "sum bad\nrest 1\n",
];

const LARGEST_LINES: &str = "version 4
ihl 15
dscp 63
ecn 3
total_len 65535
identification 65535
dont_fragment true
more_fragments true
fragment_offset 8191
time_to_live 255
protocol 255
header_checksum ffff
source 255.255.255.255
destination 255.255.255.255
options ffffffffffffffffffffffffffffffffffffffffffffffffffffffffffffffffffffffffffffffff
computed 3001
sum bad
rest 0
";

// The fields of an IPv6 header, with as many digits as each can have when an extension header
// follows.
const LONGEST_IPV6_FIELDS: &str = "version 6
traffic_class 255
flow_label 1048575
payload_length 65535
next_header 135
hop_limit 255
source ffffffffffffffffffffffffffffffff
destination ffffffffffffffffffffffffffffffff
";

// What is printed for an IPv4 header with as many digits as each field can have, except the last
// line.
const LONGEST_IPV4_FIELDS: &str = "version 4
ihl 15
dscp 63
ecn 3
total_len 65535
identification 65535
dont_fragment false
more_fragments false
fragment_offset 8191
time_to_live 255
protocol 255
header_checksum 9001
source 255.255.255.255
destination 255.255.255.255
options ffffffffffffffffffffffffffffffffffffffffffffffffffffffffffffffffffffffffffffffff
computed 9001
sum good
";

const NO_BYTES: &str = "error: IPv4 Header Error: Not enough data to decode 'IPv4 header'. \
    20 byte(s) would be required, but only 0 byte(s) are available based on the slice length.\n";

const ONE_BYTE_OF_IPV6: &str = "error: IPv6 Header Error: Not enough data to decode 'IPv6 header'. \
    40 byte(s) would be required, but only 1 byte(s) are available based on the slice length.\n";

const NOT_HEX: &str = "error: input is not hex\n";

const TOO_LONG: &str = "error: input is too long\n";

// Texts that each stand in the input as often as the number beside them says.
fn joined(parts: &[(&str, usize)], alloc: Global) -> Result<Vec<u8>, AllocError> {
    let mut input = Vec::new(alloc);
    for (text, times) in parts {
        let repeated = text.repeat(alloc, *times)?;
        input.extend_from_slice(repeated.as_bytes())?;
    }
    Ok(input)
}

// Headers, of which all fields are printed.
static DONE: [Row; 12] = [
    (&[(IPV6, 1)], &[IPV6_LINES]),
    (&[(IPV4, 1)], &[IPV4_LINES]),
    (&[(OPTIONS, 1)], &OPTIONS_LINES),
    (&[(IPV6_DIGITS, 1)], &[IPV6_LINES]),
    // The flags, the stored checksum and how the bytes sum, for one header with options. The
    // reserved bit counts in the sum, but not in what is computed.
    (
        &[(
            "46c00018 00012000 40064117 0a000001 0a000002 01020304 ff",
            1,
        )],
        &[
            OPTIONS_FRONT,
            "header_checksum 4117\n",
            OPTIONS_BACK,
            "sum good\nrest 1\n",
        ],
    ),
    (
        &[(
            "46c00018 0001a000 40064117 0a000001 0a000002 01020304 ff",
            1,
        )],
        &[
            OPTIONS_FRONT,
            "header_checksum 4117\n",
            OPTIONS_BACK,
            "sum bad\nrest 1\n",
        ],
    ),
    (
        &[(
            "46c00018 0001a000 4006c116 0a000001 0a000002 01020304 ff",
            1,
        )],
        &[
            OPTIONS_FRONT,
            "header_checksum c116\n",
            OPTIONS_BACK,
            "sum good\nrest 1\n",
        ],
    ),
    (&[("4fffffffffff7f", 1), ("f", 106)], &[LARGEST_LINES]),
    // As many extension headers as the walk goes past.
    (
        &[
            (AT_THE_LIMIT, 1),
            ("0000000000000000", 31),
            ("3b00000000000000", 1),
        ],
        &[AT_THE_LIMIT_LINES],
    ),
    // Blanks stand anywhere.
    (
        &[(
            " \t\r\n4 5\t0\r0\n0073\r\n00004000\t4011B861  C0a80001 c0A800C7 \n",
            1,
        )],
        &[IPV4_LINES],
    ),
    // 4096 digits.
    (
        &[(IPV6_DIGITS, 51), ("6000000000003b40", 1)],
        &[GREATEST_LINES],
    ),
    // The longest output of IPv4.
    (
        &[("4fffffffffff1fffffff9001", 1), ("ff", 48), ("00", 1988)],
        &[LONGEST_IPV4_FIELDS, "rest 1988\n"],
    ),
];

// Bytes that are refused, and the reason that is printed.
static REFUSED: [Row; 10] = [
    (&[], &[NO_BYTES]),
    (&[("60", 1)], &[ONE_BYTE_OF_IPV6]),
    (&[(INCOMPLETE, 1)], &[INCOMPLETE_LINES]),
    // One extension header more than the walk goes past.
    (
        &[(ABOVE_THE_LIMIT, 1), ("0000000000000000", 33)],
        &[ABOVE_THE_LIMIT_LINES],
    ),
    (&[(" \t\r\n", 1)], &[NO_BYTES]),
    (
        &[(
            "40000000 00003b40 00000000 00000000 00000000 00000001 \
            00000000 00000000 00000000 00000002",
            1,
        )],
        &[
            "error: IPv4 Header Error: The 'internet header length' value '0' present \
            in the IPv4 header is smaller than the minimum size of an IPv4 header. \
            The minimum allowed value is '5'.\n",
        ],
    ),
    (
        &[("5400000000000000000000000000000000000000", 1)],
        &[
            "error: IPv4 Header Error: Encountered '5' as IP version number in the IPv4 header \
            (must be '4' in an IPv4 header).\n",
        ],
    ),
    (
        &[("46000000000000000000000000000000000000000000ff", 1)],
        &[
            "error: IPv4 Header Error: Not enough data to decode 'IPv4 header'. \
            24 byte(s) would be required, \
            but only 23 byte(s) are available based on the slice length.\n",
        ],
    ),
    (&[(" ", 65536)], &[NO_BYTES]),
    // The longest output: a header, an extension header of 960 bytes, and the first 1048 of one
    // of 2048.
    (
        &[
            ("6fffffffffff87ff", 1),
            ("ff", 32),
            ("8777", 1),
            ("00", 958),
            ("3bff", 1),
            ("00", 1046),
        ],
        &[
            LONGEST_IPV6_FIELDS,
            "error: IPv6 Extension Header Error: \
            Not enough data to decode 'IPv6 extension header'. \
            2048 byte(s) would be required, but only 1048 byte(s) are available \
            based on the slice length \
            ('IPv6 extension header' starts at overall parsed byte 1000).\n",
        ],
    ),
];

// Inputs that are no bytes.
static BAD_INPUT: [Row; 9] = [
    (&[("6g", 1)], &[NOT_HEX]),
    (&[("g", 4096)], &[NOT_HEX]),
    (&[("g", 4097)], &[TOO_LONG]),
    (&[("g", 4608)], &[TOO_LONG]),
    (&[(" ", 65537)], &[TOO_LONG]),
    (&[("6", 1)], &[NOT_HEX]),
    (&[("600", 1)], &[NOT_HEX]),
    (&[("60\x0b", 1)], &[NOT_HEX]),
    (&[(IPV6_DIGITS, 51), ("6000000000003b400", 1)], &[TOO_LONG]),
];

// Asserts that a value is as expected. Each `assert_eq!` has a proof of its own, which takes eight
// times as long as that of a call of this function.
fn assert_equal<T: Debug + Drop + PartialEq>(rt: &impl Abort, value: T, expected: T) {
    assert_eq!(rt; value, expected);
}

// Runs on the input of a row, compares how that ends and what it prints, and returns the length of
// what is printed.
fn expect_output(rt: &(impl Abort + AllocGlobal), status: Status, (parts, text): &Row) -> usize {
    let text = text.concat(rt.alloc()).expect(rt, "memory");
    let input = joined(parts, rt.alloc()).expect(rt, "memory");
    let mut reader = input.as_slice();
    let mut written = Text::new();
    let ended = run(&mut reader, &mut written);
    assert_equal(rt, (ended, written.as_slice()), (status, text.as_bytes()));
    written.len()
}

// The length of the longest output of these rows, each of which is compared.
fn longest_output(rt: &(impl Abort + AllocGlobal), status: Status, rows: &[Row]) -> usize {
    let mut longest = 0;
    for row in rows {
        longest = longest.max(expect_output(rt, status, row));
    }
    longest
}

#[test]
fn headers_are_printed(rt: HostRuntime) {
    assert_equal(&rt, longest_output(&rt, Status::Done, &DONE), 354);
}

// The longest output of all is among these: `OUTPUT_ROOM` must not be less.
#[test]
fn bytes_that_are_refused_are_printed_with_the_reason(rt: HostRuntime) {
    assert_equal(&rt, longest_output(&rt, Status::Refused, &REFUSED), 426);
}

#[test]
fn input_that_is_bad_is_told(rt: HostRuntime) {
    assert_equal(&rt, longest_output(&rt, Status::BadInput, &BAD_INPUT), 25);
}
