//! The sum of a slice by words of eight bytes: eight per turn, or twelve if there are many.
//!
//! Of each twelve, four go into four lanes. Each lane has the total of its words and, separately,
//! the sum of their high halves, from which the sum of the low halves is recovered at the end. The
//! other eight go into eight sums: the carry out of each goes into the next, and the carry out of
//! the last is counted. The 32-bit sum of a slice is the sum of the two halves of this one.

ghost use Rattle.std.specs.Prelude.{List, ℕ, drop, ◌≡◌, ◌<◌, ◌≤◌, ◌+◌, ◌-◌, ◌*◌, ◌%◌, ◌^◌, length};
ghost use Rattle.std.specs.Int.{from_bool};
ghost use Rattle.std.specs.Simd.Lanes.{sum_l};
ghost use Rattle.etherparse_base.specs.Private.WideSums.{AddsTurns, SameFold, StandsFor};
ghost use Rattle.etherparse_base.specs.Private.WideSums.{lanes_added};
ghost use Rattle.etherparse_base.specs.WordSums.{checksum_of, folded_sum, little_endian_word_sum};

use super::end_around::{add_u64, complement_u64};
use super::words::{
    halves_sum_of, last_seven_bytes, last_three_words, split_four_words, split_odd_bytes,
};
use std::simd::prelude::*;

// The number of bytes that a turn sums.
const TURN_LEN: usize = 96;

const _: () = prove!(TURN_LEN == 96);

// From this many bytes on, turns are faster.
const TURNS_FROM: usize = 1280;

// Up to this many bytes, no sum of halves in the lanes overflows.
const TURNS_UP_TO: usize = 0x2_0000_0000;

/// The sum of a start and the words of a slice.
#[inline(always)]
pub(super) fn add_slice(start_sum: u64, slice: &[u8]) -> u64
    ensures sum { folded_sum result ≡ folded_sum (start_sum + little_endian_word_sum slice.now) }
{
    if slice.len() < TURNS_FROM {
        add_few(start_sum, slice)
    } else {
        add_many(start_sum, slice)
    }
}

/// The complement of that sum in sixteen bits. A short slice is summed without a call, so no
/// register is saved for one.
#[inline(always)]
pub(super) fn checksum(start_sum: u64, slice: &[u8]) -> u16
    ensures value { result ≡ checksum_of (start_sum + little_endian_word_sum slice.now) }
{
    if slice.len() < TURNS_FROM {
        complement_u64(add_few(start_sum, slice))
    } else {
        checksum_of_many(start_sum, slice)
    }
}

// The same for many bytes.
#[inline(never)]
fn checksum_of_many(start_sum: u64, slice: &[u8]) -> u16
    requires { 8 ≤ length slice.now }
    ensures value { result ≡ checksum_of (start_sum + little_endian_word_sum slice.now) }
{
    complement_u64(add_many(start_sum, slice))
}

/// What is summed so far, and what is left.
#[derive(Clone, Copy)]
pub(super) struct Summed<'a> {
    pub(super) sum: u64,
    pub(super) rest: &'a [u8],
}

// Adds the words of few bytes.
#[inline(always)]
#[tactic(auto, using(crate::proofs::FoldedSums::folded_sum_value))]
fn add_few(start_sum: u64, slice: &[u8]) -> u64
    ensures sum { folded_sum result ≡ folded_sum (start_sum + little_endian_word_sum slice.now) }
{
    if slice.len() < 8 {
        return add_u64(last_seven_bytes(slice), start_sum);
    }
    let (words, odd) = split_odd_bytes(slice);
    add_rest(nothing_summed(start_sum, words), odd)
}

// Only the start is summed, and all is left.
#[inline(always)]
fn nothing_summed<'a>(start_sum: u64, slice: &'a [u8]) -> Summed<'a>
    ensures adds { SameFold (result.sum + little_endian_word_sum result.rest.now)
        (start_sum + little_endian_word_sum slice.now) }
    ensures eighths { length result.rest.now % 8 ≡ length slice.now % 8 }
{
    Summed {
        sum: start_sum,
        rest: slice,
    }
}

// Adds the words of many bytes: most of them in turns, unless there are so many that a lane could
// overflow.
#[inline(never)]
#[tactic(auto, using(crate::proofs::FoldedSums::folded_sum_value))]
fn add_many(start_sum: u64, slice: &[u8]) -> u64
    requires { 8 ≤ length slice.now }
    ensures sum { folded_sum result ≡ folded_sum (start_sum + little_endian_word_sum slice.now) }
{
    let (words, odd) = split_odd_bytes(slice);
    let at = if words.len() > TURNS_UP_TO {
        nothing_summed(0, words)
    } else {
        add_turns(words)
    };
    add_u64(add_rest(at, odd), start_sum)
}

// What turns have summed: eight sums with the carries out of them, and four lanes.
#[derive(Clone, Copy)]
pub(super) struct Turns {
    pub(super) first: [u64; 4],
    pub(super) second: [u64; 4],
    pub(super) carries: u64,
    pub(super) total: u64x4,
    pub(super) high: u64x4,
}

// Adds turns, three at a time while there are that many, until there are not enough bytes for one.
// Each of the three has a total of its own: with one total for all three, the compiler adds their
// words first, and copies each of them.
#[inline(always)]
fn add_turns<'a>(slice: &'a [u8]) -> Summed<'a>
    requires { length slice.now ≤ 2 ^ 33 }
    ensures stands_for { StandsFor result.sum slice.now result.rest.now }
    ensures eighths { length result.rest.now % 8 ≡ length slice.now % 8 }
{
    let mut at = Turns {
        first: [0; 4],
        second: [0; 4],
        carries: 0,
        total: u64x4::splat(0),
        high: u64x4::splat(0),
    };
    let (mut second_total, mut third_total) = (u64x4::splat(0), u64x4::splat(0));
    let mut rest = slice;
    'threes: while rest.len() >= 3 * TURN_LEN {
        let after_first = after_turn(rest);
        let after_second = after_turn(after_first);
        let first = add_turn(at, rest);
        let second = add_turn(with_total(first, second_total), after_first);
        let third = add_turn(with_total(second, third_total), after_second);
        (second_total, third_total) = (second.total, third.total);
        at = with_total(third, first.total);
        rest = after_turn(after_second);
    }
    'ones: while rest.len() >= TURN_LEN {
        at = add_turn(at, rest);
        rest = after_turn(rest);
    }
    let sum = add_four(add_four(at.carries, at.first), at.second);
    let total = at.total + (second_total + third_total);
    Summed {
        sum: add_u64(sum, halves_sum_of(total, at.high)),
        rest,
    }
}

// Turns with another total, in whose place theirs is kept apart.
#[inline(always)]
#[tactic(auto, using(crate::proofs::LaneSums::lanes_turned))]
fn with_total(at: Turns, total: u64x4) -> Turns
    ensures adds { (slice other rest : List ℕ) → AddsTurns slice (lanes_added total other) at rest
        → AddsTurns slice (lanes_added other at.total) result rest }
{
    Turns { total, ..at }
}

// What follows the bytes of a turn.
#[inline(always)]
fn after_turn(bytes: &[u8]) -> &[u8]
    requires { TURN_LEN ≤ length bytes.now }
    ensures after { result.now ≡ drop TURN_LEN bytes.now }
    ensures shorter { length result.now + TURN_LEN ≡ length bytes.now }
{
    &bytes[TURN_LEN..]
}

// Adds twelve words of eight bytes: four in the lanes, eight to the sums.
#[inline(always)]
fn add_turn(at: Turns, bytes: &[u8]) -> Turns
    requires { TURN_LEN ≤ length bytes.now }
    ensures adds { (slice beside rest : List ℕ) → length slice ≤ 2 ^ 33
        → rest ≡ drop TURN_LEN bytes.now → AddsTurns slice beside at bytes.now
        → AddsTurns slice beside result rest }
{
    let (words, rest) = split_four_words(bytes);
    let words = u64x4::from_array(words);
    let total = at.total + words;
    let high = at.high + (words >> u64x4::splat(32));
    let (a, rest) = split_four_words(rest);
    let (b, rest) = split_four_words(rest);
    let (first, carry) = add_to_each(at.first, a, false);
    let (second, carry) = add_to_each(at.second, b, carry);
    Turns {
        first,
        second,
        carries: at.carries.wrapping_add(u64::from(carry)),
        total,
        high,
    }
}

// Adds the words that are left, eight at a time, then four, then at most three, and the bytes after
// them.
#[inline(always)]
fn add_rest<'a>(at: Summed<'a>, odd: u64) -> u64
    requires { length at.rest.now % 8 ≡ 0 }
    ensures sum { SameFold result
        (at.entry.sum + odd + little_endian_word_sum at.entry.rest.now) }
{
    let at = add_four_words(add_eight_words(at));
    let (a, b, c) = last_three_words(at.rest);
    add_four(odd, [a, b, c, at.sum])
}

// Adds eight words at a time, until fewer are left. Those of a turn are summed by themselves, so
// that no turn waits for the one before.
#[inline(always)]
fn add_eight_words<'a>(start: Summed<'a>) -> Summed<'a>
    ensures adds { SameFold (result.sum + little_endian_word_sum result.rest.now)
        (start.entry.sum + little_endian_word_sum start.entry.rest.now) }
    ensures shorter { length result.rest.now < 64 }
    ensures eighths { length result.rest.now % 8 ≡ length start.entry.rest.now % 8 }
{
    let mut sum = start.sum;
    let mut rest = start.rest;
    while rest.len() >= 64 {
        let (first, after) = split_four_words(rest);
        let (second, after) = split_four_words(after);
        let (turn, carry) = add_words(0, first, false);
        let (turn, carry) = add_words(turn, second, carry);
        sum = add_last(turn, sum, carry);
        rest = after;
    }
    Summed { sum, rest }
}

// Adds four words, if there are that many.
#[inline(always)]
fn add_four_words<'a>(at: Summed<'a>) -> Summed<'a>
    requires { length at.rest.now < 64 }
    ensures adds { SameFold (result.sum + little_endian_word_sum result.rest.now)
        (at.entry.sum + little_endian_word_sum at.entry.rest.now) }
    ensures shorter { length result.rest.now < 32 }
    ensures eighths { length result.rest.now % 8 ≡ length at.entry.rest.now % 8 }
{
    if at.rest.len() < 32 {
        return at;
    }
    let (words, rest) = split_four_words(at.rest);
    let (turn, carry) = add_words(0, words, false);
    Summed {
        sum: add_last(turn, at.sum, carry),
        rest,
    }
}

// A sum with four more words: the carry out of each is added with the next, the last one at the low
// end.
#[inline(always)]
fn add_four(sum: u64, words: [u64; 4]) -> u64
    ensures folded { SameFold result (sum + sum_l words) }
{
    let (sum, carry) = add_words(sum, words, false);
    sum + u64::from(carry)
}

// The same with a carry into the first and out of the last.
#[inline(always)]
#[tactic(auto, using(crate::proofs::LaneSums::four_sum))]
fn add_words(sum: u64, words: [u64; 4], carry: bool) -> (u64, bool)
    requires { sum + from_bool carry < 2 ^ 64 }
    ensures folded { SameFold (result.0 + from_bool result.1)
        (sum + sum_l words + from_bool carry) }
    ensures fits { result.0 + from_bool result.1 < 2 ^ 64 }
{
    let (sum, carry) = add_with_carry(sum, words[0], carry);
    let (sum, carry) = add_with_carry(sum, words[1], carry);
    let (sum, carry) = add_with_carry(sum, words[2], carry);
    add_with_carry(sum, words[3], carry)
}

// A sum with one more word and a carry; the carry out is added at the low end.
#[inline(always)]
fn add_last(sum: u64, word: u64, carry: bool) -> u64
    requires { sum + from_bool carry < 2 ^ 64 }
    ensures folded { SameFold result (sum + word + from_bool carry) }
{
    let (sum, carry) = add_with_carry(sum, word, carry);
    sum + u64::from(carry)
}

// Each sum with its word: a carry goes into the first, the carry out of each goes into the next,
// and the carry out of the last is returned.
#[inline(always)]
#[tactic(auto, using(crate::proofs::LaneSums::four_sum))]
fn add_to_each(sums: [u64; 4], words: [u64; 4], carry: bool) -> ([u64; 4], bool)
    ensures folded { SameFold (sum_l result.0 + from_bool result.1)
        (sum_l sums + sum_l words + from_bool carry) }
{
    let (a, carry) = add_with_carry(sums[0], words[0], carry);
    let (b, carry) = add_with_carry(sums[1], words[1], carry);
    let (c, carry) = add_with_carry(sums[2], words[2], carry);
    let (d, carry) = add_with_carry(sums[3], words[3], carry);
    ([a, b, c, d], carry)
}

// The sum of two words and a carry, and the carry out of it. The compiler turns this form into one
// instruction.
#[inline(always)]
fn add_with_carry(a: u64, b: u64, carry: bool) -> (u64, bool)
    ensures sum { result.0 + 2 ^ 64 * from_bool result.1 ≡ a + b + from_bool carry }
{
    let sum = a.wrapping_add(b);
    let total = sum.wrapping_add(u64::from(carry));
    (total, (sum < b) | (total < sum))
}
