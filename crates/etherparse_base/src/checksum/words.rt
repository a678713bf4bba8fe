//! Words at the front of a slice, each with the low byte first, and four lanes of them.

ghost use Rattle.std.specs.Prelude.{ℕ, ◌≡◌, ◌<◌, ◌≤◌, ◌+◌, ◌-◌, ◌*◌, ◌%◌, ◌^◌};
ghost use Rattle.std.specs.Prelude.{List, [], drop, length};
ghost use Rattle.std.specs.Simd.Lanes.{sum_l};
ghost use Rattle.etherparse_base.specs.Private.WideSums.{SameFold, StandsFor, halves_in, halves_sum};
ghost use Rattle.etherparse_base.specs.WordSums.{little_endian_word_sum};

use std::simd::prelude::*;

/// The word of eight bytes at the front, and what follows it.
#[inline(always)]
pub(super) fn split_word(bytes: &[u8]) -> (u64, &[u8])
    requires { 8 ≤ length bytes.now }
    ensures stands_for { StandsFor result.0 bytes.now result.1.now }
    ensures rest { result.1.now ≡ drop 8 bytes.now }
    ensures shorter { length result.1.now + 8 ≡ length bytes.now }
{
    let (word, rest) = bytes.split_first_chunk::<8>().unwrap();
    (u64::from_le_bytes(*word), rest)
}

/// The whole words of eight bytes, and the bytes after them as one number. These bytes are read as
/// the end of the last eight bytes, so no branch depends on how many they are.
#[inline(always)]
#[tactic(auto, using(crate::proofs::WordSumLaws::cuts))]
pub(super) fn split_odd_bytes(bytes: &[u8]) -> (&[u8], u64)
    requires { 8 ≤ length bytes.now }
    ensures stands_for { StandsFor result.1 bytes.now result.0.now }
    ensures eighths { length result.0.now % 8 ≡ 0 }
{
    let count = bytes.len() % 8;
    let last = number_of_last(&bytes[bytes.len() - 8..], count);
    (&bytes[..bytes.len() - count], last)
}

// The last `count` of eight bytes as a number, for a count below 8.
#[inline(always)]
fn number_of_last(bytes: &[u8], count: usize) -> u64
    requires eight { length bytes.now ≡ 8 }
    requires few { count < 8 }
    ensures folded { SameFold result (little_endian_word_sum (drop (8 - count) bytes.now)) }
{
    let word = u64::from_le_bytes(*bytes.first_chunk::<8>().unwrap());
    (word >> 8) >> (56 - 8 * count)
}

/// The words of fewer than thirty-two bytes, with 0 for words that are not there.
#[inline(always)]
pub(super) fn last_three_words(bytes: &[u8]) -> (u64, u64, u64)
    requires few { length bytes.now < 32 }
    requires eighths { length bytes.now % 8 ≡ 0 }
    ensures stands_for { StandsFor (result.0 + result.1 + result.2) bytes.now [] }
{
    (
        word_or_zero(bytes, 0),
        word_or_zero(bytes, 8),
        word_or_zero(bytes, 16),
    )
}

// The word at a place, or 0 if there is none.
#[inline(always)]
#[tactic(auto, using(crate::proofs::WordSumLaws::word_sum_past))]
fn word_or_zero(bytes: &[u8], place: usize) -> u64
    requires few { place ≤ 16 }
    requires eighths { length bytes.now % 8 ≡ place % 8 }
    ensures stands_for { StandsFor result (drop place bytes.now) (drop (place + 8) bytes.now) }
{
    split_word(eight_or_zeros(bytes, place)).0
}

// The eight bytes at a place, or zeros. Only an address depends on which: there is no branch.
#[inline(always)]
#[tactic(auto, using(crate::proofs::WordSumLaws::cuts))]
fn eight_or_zeros(bytes: &[u8], place: usize) -> &[u8]
    requires few { place ≤ 16 }
    requires eighths { length bytes.now % 8 ≡ place % 8 }
    ensures eight { length result.now ≡ 8 }
    ensures sum { little_endian_word_sum result.now
        + little_endian_word_sum (drop (place + 8) bytes.now)
        ≡ little_endian_word_sum (drop place bytes.now) }
{
    if bytes.len() < place + 8 {
        &ZEROS
    } else {
        &bytes[place..place + 8]
    }
}

/// The sum of fewer than eight bytes.
#[inline(always)]
pub(super) fn last_seven_bytes(bytes: &[u8]) -> u64
    requires { length bytes.now < 8 }
    ensures stands_for { StandsFor result bytes.now [] }
{
    let (half, rest) = front_or_zeros(bytes, 4);
    let (quarter, rest) = front_or_zeros(rest, 2);
    half_word(half) + quarter_word(quarter) + last_byte(rest)
}

// Zeros for bytes that are not there.
static ZEROS: [u8; 8] = [0; 8];

// The first `count` bytes and what follows them; if there are fewer, zeros and all the bytes.
#[inline(always)]
#[tactic(auto, using(crate::proofs::WordSumLaws::cuts))]
fn front_or_zeros<'a>(bytes: &'a [u8], count: usize) -> (&'a [u8], &'a [u8])
    requires even { count % 2 ≡ 0 }
    requires within { count ≤ 8 }
    ensures front { length result.0.now ≡ count }
    ensures sum { little_endian_word_sum result.0.now + little_endian_word_sum result.1.now
        ≡ little_endian_word_sum bytes.now }
    ensures shorter { length bytes.now < 2 * count → length result.1.now < count }
{
    if bytes.len() < count {
        (&ZEROS[..count], bytes)
    } else {
        bytes.split_at(count)
    }
}

// Four bytes as a number.
#[inline(always)]
fn half_word(bytes: &[u8]) -> u64
    requires { 4 ≡ length bytes.now }
    ensures stands_for { StandsFor result bytes.now [] }
    ensures fits { result < 2 ^ 32 }
{
    let (word, _) = bytes.split_first_chunk::<4>().unwrap();
    u64::from(u32::from_le_bytes(*word))
}

// Two bytes as a number.
#[inline(always)]
fn quarter_word(bytes: &[u8]) -> u64
    requires { 2 ≡ length bytes.now }
    ensures stands_for { StandsFor result bytes.now [] }
    ensures fits { result < 2 ^ 16 }
{
    let (word, _) = bytes.split_first_chunk::<2>().unwrap();
    u64::from(u16::from_le_bytes(*word))
}

// An odd last byte, or 0.
#[inline(always)]
fn last_byte(bytes: &[u8]) -> u64
    requires { length bytes.now < 2 }
    ensures value { result ≡ little_endian_word_sum bytes.now }
    ensures fits { result < 2 ^ 8 }
{
    if bytes.len() < 1 {
        0
    } else {
        u64::from(bytes[0])
    }
}

/// The four words of eight bytes at the front, and what follows them.
#[inline(always)]
pub(super) fn split_four_words(bytes: &[u8]) -> ([u64; 4], &[u8])
    requires { 32 ≤ length bytes.now }
    ensures four { length result.0 ≡ 4 }
    ensures stands_for { StandsFor (sum_l result.0) bytes.now result.1.now }
    ensures halves_stand_for { StandsFor (halves_sum result.0) bytes.now result.1.now }
    ensures halves_fit { halves_sum result.0 < 2 ^ 35 }
    ensures rest { result.1.now ≡ drop 32 bytes.now }
    ensures shorter { length result.1.now + 32 ≡ length bytes.now }
{
    let (a, rest) = split_word(bytes);
    let (b, rest) = split_word(rest);
    let (c, rest) = split_word(rest);
    let (d, rest) = split_word(rest);
    ([a, b, c, d], rest)
}

/// The sum of all halves of the words in the lanes, from the totals of the words and the sums of
/// their high halves.
#[inline(always)]
pub(super) fn halves_sum_of(total: u64x4, high: u64x4) -> u64
    requires { length high ≡ 4 }
    ensures halves { halves_in total high < 2 ^ 64 → result ≡ halves_in total high }
{
    let low = total - (high << u64x4::splat(32));
    (low + high).reduce_sum()
}
