//! What several tests share.

ghost use Rattle.std.specs.Prelude.{IsTrue};

use etherparse::LenSource;
use etherparse::err::{Layer, LenError};
use etherparse_link::VlanId;
use packet_builder::BuildSliceWriteError;
use std::alloc::Global;
use std::fmt::Debug;
use std::hash::{DefaultHasher, Hash, Hasher};
use std::process::Abort;

/// The bytes of an IPv4 header whose fields all differ, with one word of options and the reserved
/// bit 0.
pub(crate) const WITH_OPTIONS: [u8; 24] = [
    0x46, 0xa9, 0x12, 0x34, 0x56, 0x78, 0x4a, 0xbc, 0x11, 0x2f, 0x9d, 0xef, 192, 168, 7, 1, 10, 20,
    30, 40, 148, 4, 0, 5,
];

/// The bytes of an IPv6 header whose fields all differ.
pub(crate) const IPV6_ASCENDING: [u8; 40] = [
    0x6a, 0xbc, 0xde, 0xf0, 0x12, 0x34, 17, 59, 32, 33, 34, 35, 36, 37, 38, 39, 40, 41, 42, 43, 44,
    45, 46, 47, 48, 49, 50, 51, 52, 53, 54, 55, 56, 57, 58, 59, 60, 61, 62, 63,
];

/// Asserts that a value is as expected. Each `assert_eq!` has a proof of its own, which takes eight
/// times as long as that of a call of this function.
pub(crate) fn assert_equal<T: Debug + Drop + PartialEq>(rt: &impl Abort, value: T, expected: T) {
    assert_eq!(rt; value, expected);
}

/// Asserts that a condition holds. An `assert!` has a longer proof than a call of this function.
pub(crate) fn assert_that(rt: &impl Abort, holds: bool)
    ensures holds { IsTrue holds }
{
    assert!(rt; holds);
}

/// Asserts that these bytes are what was written to the front of a slice.
pub(crate) fn assert_written(
    rt: &impl Abort,
    written: Result<usize, BuildSliceWriteError>,
    slice: &[u8],
    expected: &[u8],
) {
    let len = written.expect(rt, "room for the packet");
    assert_equal(rt, slice.get(..len), Some(expected));
}

/// The identifier of a VLAN with this number.
pub(crate) fn vlan_id(rt: &impl Abort, number: u16) -> VlanId {
    VlanId::try_new(number).expect(rt, "an identifier")
}

/// The error of a slice that is too short for what begins in it.
pub(crate) fn too_short(layer: Layer, required_len: usize, len: usize) -> LenError {
    LenError {
        required_len,
        len,
        len_source: LenSource::Slice,
        layer,
        layer_start_offset: 0,
    }
}

/// Fills a slice with bytes without a pattern, the same in each run for the same seed.
pub(crate) fn fill_without_pattern(bytes: &mut [u8], seed: u64) {
    let mut state = seed;
    for byte in bytes {
        state = state
            .wrapping_mul(6364136223846793005)
            .wrapping_add(1442695040888963407);
        *byte = (state >> 56) as u8;
    }
}

/// The ones-complement sum of a start and the words of a slice, one word after the other (RFC 1071
/// section 1).
pub(crate) fn sum_word_by_word(start: u64, slice: &[u8]) -> u16 {
    let mut sum = if start == 0 {
        0
    } else {
        ((start - 1) % 65535 + 1) as u16
    };
    for word in slice.chunks(2) {
        let word = match word {
            [low, high] => u16::from_le_bytes([*low, *high]),
            [low] => u16::from(*low),
            _ => 0,
        };
        sum = add_word(sum, word);
    }
    sum
}

// A sum with one more word, and the carry out of it added at the low end.
fn add_word(sum: u16, word: u16) -> u16 {
    let (sum, carry) = sum.overflowing_add(word);
    sum.wrapping_add(u16::from(carry))
}

/// The hash of a value by the default hasher.
pub(crate) fn hash_of<T: Hash>(value: &T) -> u64 {
    let mut state = DefaultHasher::new();
    value.hash(&mut state);
    state.finish()
}

/// Asserts that a clone is equal to its source, and that `{:?}` prints the text.
pub(crate) fn assert_clones<T: Clone + Debug + Drop + Eq>(
    rt: &impl Abort,
    alloc: Global,
    value: &T,
    text: &str,
) {
    let clone = value.clone().expect(rt, "a clone");
    let printed = format!(in alloc; "{value:?}").expect(rt, "a text");
    assert_equal(rt, (&clone, printed.as_str()), (value, text));
}

/// Asserts what `{:?}` prints for values, and that their clones are equal and hash alike.
pub(crate) fn assert_derives<T: Clone + Debug + Drop + Eq + Hash>(
    rt: &impl Abort,
    alloc: Global,
    values: &[(T, &str)],
) {
    for (value, text) in values {
        assert_clones(rt, alloc, value, text);
        assert_hashes(rt, value);
    }
}

/// Asserts that a clone hashes as its source does.
pub(crate) fn assert_hashes<T: Clone + Drop + Hash>(rt: &impl Abort, value: &T) {
    let clone = value.clone().expect(rt, "a clone");
    assert_equal(rt, hash_of(&clone), hash_of(value));
}
