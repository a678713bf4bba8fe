//! That the sums are those of a word-by-word sum, at every short length and place and across the
//! lengths where another way to sum begins; worked values; what a sum prints. More worked values
//! are in the sample that `conformance` replays.

use crate::shared::{assert_clones, assert_equal, fill_without_pattern, sum_word_by_word};
use etherparse::checksum::{
    Sum16BitWords, u32_16bit_word, u64_16bit_word, update_4bytes_with_no_zero,
    update_16bytes_with_no_zero,
};
use std::process::Abort;
use std::test::Fail;

// A start, the bytes that are added to it, and the complement of the sum.
static CASES: [(u16, &[u8], u16); 7] = [
    (0x1234, &[], 0xedcb),
    (0, &[0x12, 0x34], 0xcbed),
    (0, &[0xf0, 0x0f], 0xf00f),
    (0, &[0x12, 0x34, 0x56, 0x78], 0x5397),
    (0, &[0x12, 0x34, 0x56, 0x78, 0x23, 0x22, 0x34, 0x11], 0x2040),
    (
        1,
        &[
            0x11, 0x12, 0x13, 0x14, 0x15, 0x16, 0x17, 0x18, 0x19, 0x1a, 0x1b, 0x1c, 0x1d, 0x1e,
            0x1f, 0x10,
        ],
        0x473e,
    ),
    (
        1,
        &[
            0xf1, 0x11, 0x10, 0xf0, 0xf2, 0x12, 0x11, 0xf1, 0xf3, 0x13, 0x12, 0xf2, 0xf4, 0x14,
            0x13, 0xf3,
        ],
        0xebea,
    ),
];

static ASCENDING: [u8; 15] = [
    0x11, 0x12, 0x13, 0x14, 0x15, 0x16, 0x17, 0x18, 0x19, 0x1a, 0x1b, 0x1c, 0x1d, 0x1e, 0x1f,
];

// How many of these bytes are added to a start of 1, and the complement of the sum.
static OF_ASCENDING: [(usize, u16); 7] = [
    (15, 0x573e),
    (14, 0x575d),
    (13, 0x755d),
    (12, 0x757a),
    (11, 0x917a),
    (10, 0x9195),
    (9, 0xab95),
];

#[test]
fn a_slice_has_one_complement_in_all_sums(rt: HostRuntime) {
    for (start, slice, complement) in &CASES {
        let complements = complements_of(u64::from(*start), u32::from(*start), slice);
        assert_equal(&rt, complements, [*complement; 5]);
    }
}

#[test]
fn one_add_to_a_new_sum_has_the_complement_of_its_words(rt: HostRuntime) {
    let eight = [0x12, 0x34, 0x56, 0x78, 0x23, 0x22, 0x34, 0x11];
    let sixteen = [
        0x11, 0x12, 0x13, 0x14, 0x15, 0x16, 0x17, 0x18, 0x19, 0x1a, 0x1b, 0x1c, 0x1d, 0x1e, 0x1f,
        0x10,
    ];
    let none = Sum16BitWords::new();
    let of_slice = Sum16BitWords::new().add_slice(&[0x12, 0x34]);
    let of_2bytes = Sum16BitWords::new().add_2bytes([0xf0, 0x0f]);
    let of_4bytes = Sum16BitWords::new().add_4bytes([0x12, 0x34, 0x56, 0x78]);
    let of_8bytes = Sum16BitWords::new().add_8bytes(eight);
    let of_16bytes = Sum16BitWords::new().add_16bytes(sixteen);
    assert_equal(&rt, none.ones_complement(), 0xffff);
    assert_equal(&rt, of_slice.ones_complement(), 0xcbed);
    assert_equal(&rt, of_2bytes.ones_complement(), 0xf00f);
    assert_equal(&rt, of_4bytes.ones_complement(), 0x5397);
    assert_equal(&rt, of_8bytes.ones_complement(), 0x2040);
    assert_equal(&rt, of_16bytes.ones_complement(), 0x473f);
}

#[test]
fn the_front_of_a_slice_has_one_complement_in_all_sums(rt: HostRuntime) {
    for (len, complement) in &OF_ASCENDING {
        let slice = ASCENDING.get(..*len).expect(&rt, "bytes");
        assert_equal(&rt, complements_of(1, 1, slice), [*complement; 5]);
    }
}

// The complement of a start and a slice, by each way to sum them in 64 bits and in 32.
fn complements_of(start: u64, start_of_32: u32, slice: &[u8]) -> [u16; 5] {
    let of_64 = u64_16bit_word::add_slice(start, slice);
    let of_32 = u32_16bit_word::add_slice(start_of_32, slice);
    let sum = Sum16BitWords::new()
        .add_8bytes(start.to_le_bytes())
        .add_slice(slice);
    [
        u64_16bit_word::ones_complement(of_64),
        u32_16bit_word::ones_complement(of_32),
        sum.ones_complement(),
        u64_16bit_word::checksum(start, slice),
        u32_16bit_word::checksum(start_of_32, slice),
    ]
}

// Asserts that a slice has the complement of its words' sum, from the least and the greatest starts.
// The greatest of both widths are multiples of 65535.
fn assert_sums_as_words(rt: &impl Abort, slice: &[u8]) {
    for (start, start_of_32) in [
        (0, 0),
        (1, 1),
        (u64::MAX - 1, u32::MAX - 1),
        (u64::MAX, u32::MAX),
    ] {
        let complements = complements_of(start, start_of_32, slice);
        assert_equal(rt, complements, [!sum_word_by_word(start, slice); 5]);
    }
}

#[test]
fn a_short_slice_sums_as_its_words_do(rt: HostRuntime) {
    let mut bytes = [0; 146];
    fill_without_pattern(&mut bytes, 1);
    for offset in 0..16 {
        for len in 0..=130 {
            assert_sums_as_words(&rt, &bytes[offset..offset + len]);
        }
    }
}

#[test]
fn a_slice_sums_as_its_words_do(rt: HostRuntime) {
    let mut bytes = [0; 1480];
    fill_without_pattern(&mut bytes, 1);
    for len in 1270..1480 {
        assert_sums_as_words(&rt, &bytes[..len]);
    }
}

#[test]
fn a_slice_of_any_length_and_place_sums_as_its_words_do(rt: HostRuntime) {
    let mut bytes = [0; 4112];
    fill_without_pattern(&mut bytes, 1);
    assert_sums_as_words(&rt, bytes.get(..4096).expect(&rt, "bytes"));
    for offset in 0..16 {
        for step in 0..68 {
            // As 61 is odd, these lengths have all remainders by 16.
            let slice = bytes.get(offset..offset + 61 * step).expect(&rt, "bytes");
            assert_sums_as_words(&rt, slice);
        }
    }
}

#[test]
fn a_long_slice_of_large_bytes_sums_as_its_words_do(rt: HostRuntime) {
    assert_sums_as_words(&rt, &[0xff; 200_000]);
    assert_sums_as_words(&rt, &[0xfe; 200_000]);
}

#[test]
fn a_sum_is_kept_in_64_bits(rt: HostRuntime) -> Result<(), Fail> {
    let mut sum = Sum16BitWords::new();
    for _ in 0..4 {
        sum = sum.add_4bytes([255; 4]);
    }
    let at_once = Sum16BitWords::default().add_8bytes([252, 255, 255, 255, 3, 0, 0, 0]);
    assert_equal(&rt, sum.clone()?, at_once);
    assert_clones(&rt, rt.alloc(), &sum, "Sum16BitWords { sum: 17179869180 }");
    Ok(())
}

#[test]
fn no_checksum_stays_none_and_any_other_is_not_zero(rt: HostRuntime) {
    // The numbers of RFC 1624 section 4, where the updated checksum is 0.
    let (old, new) = ([0x55, 0x55, 1, 2], [0x32, 0x85, 1, 2]);
    let of_4bytes = [
        update_4bytes_with_no_zero(0xdd2f, old, new),
        update_4bytes_with_no_zero(0, old, new),
        update_4bytes_with_no_zero(0xdd2f, old, old),
    ];
    let (mut old, mut new) = ([1; 16], [1; 16]);
    [old[14], old[15], new[14], new[15]] = [0x55, 0x55, 0x32, 0x85];
    let of_16bytes = [
        update_16bytes_with_no_zero(0xdd2f, old, new),
        update_16bytes_with_no_zero(0, old, new),
        update_16bytes_with_no_zero(0xdd2f, old, old),
    ];
    assert_equal(&rt, [of_4bytes, of_16bytes], [[0xffff, 0, 0xdd2f]; 2]);
}
