//! The sum of words of sixteen bits in 32 bits, and its complement, the checksum (RFC 1071).
//!
//! The same as [`u64_16bit_word`](super::u64_16bit_word) in the other width, with the same
//! complements.

ghost use Rattle.std.specs.Prelude.{◌≡◌, ◌+◌, map};
ghost use Rattle.std.specs.Int.{from_le_bytes, w16, w32};
ghost use Rattle.etherparse_base.specs.WordSums.{AddsSlice, AddsSlices, Complements};
ghost use Rattle.etherparse_base.specs.WordSums.{ComplementsWithNoZero, StandsForWords};
ghost use Rattle.etherparse_base.specs.WordSums.{end_around_sum, folded_sum};
ghost use Rattle.etherparse_base.specs.WordSums.{little_endian_word_sum};

use super::end_around::{add_u32, halve_u32, halve_u64, without_zero};
use super::wide_u64;

/// Adds two bytes as one number, the low byte first. A carry out of the 32 bits is added at the low
/// end (RFC 1071 section 1).
#[inline]
pub fn add_2bytes(start: u32, value: [u8; 2]) -> u32
    ensures sum { result ≡ end_around_sum u32.MAX start (from_le_bytes w16 value) }
    ensures folded { folded_sum result ≡ folded_sum (start + little_endian_word_sum value) }
    ensures in_a_sum { StandsForWords start value result }
{
    add_u32(start, u32::from(u16::from_le_bytes(value)))
}

/// Adds four bytes as one number, the low byte first. A carry out of the 32 bits is added at the
/// low end (RFC 1071 section 1).
#[inline]
#[tactic(auto, using(crate::proofs::FoldedSums::stands_for_words, crate::proofs::WordNumbers::adds_four))]
pub fn add_4bytes(start: u32, value: [u8; 4]) -> u32
    ensures sum { result ≡ end_around_sum u32.MAX start (from_le_bytes w32 value) }
    ensures folded { folded_sum result ≡ folded_sum (start + little_endian_word_sum value) }
    ensures in_a_sum { StandsForWords start value result }
{
    add_u32(start, u32::from_le_bytes(value))
}

/// Adds the words of a slice. An odd last byte is paired with a zero byte after it (RFC 1071
/// section 1).
///
/// The result has the right complement; nothing else about it is promised.
#[inline(always)]
#[tactic(auto, using(crate::proofs::WordSumLaws::adds_slice))]
pub fn add_slice(start_sum: u32, slice: &[u8]) -> u32
    ensures adds { AddsSlice start_sum slice.now result }
{
    halve_u64(wide_u64::add_slice(u64::from(start_sum), slice))
}

/// The sum of all pieces, from 0, each added by [`add_slice`]: an odd piece is padded by itself.
///
/// The Rust crate has no such call.
#[tactic(auto, using(std::proofs::lemmas::List::take_all, crate::proofs::WordSumLaws::adds_slices))]
pub fn add_slices(pieces: &[&[u8]]) -> u32
    ensures adds { AddsSlices (map (λ piece. piece.now) pieces.now) result }
{
    let mut sum = 0;
    for piece in pieces {
        sum = add_slice(sum, piece);
    }
    sum
}

/// The checksum of what was summed: the ones-complement of the sum in sixteen bits. It is 0 if the
/// words sum to all ones.
///
/// Its low byte comes first in a packet: `to_le_bytes` gives its two bytes in the order in which a
/// header has them, and `swap_bytes` the number for a field such as `header_checksum`.
#[inline]
#[tactic(auto, using(crate::proofs::WordSumLaws::complements))]
pub fn ones_complement(sum: u32) -> u16
    ensures complements { Complements sum result }
{
    !halve_u32(sum)
}

/// The same with 0xffff in place of 0, as in UDP, where a checksum of 0 says that there is none
/// (RFC 768).
#[inline]
#[tactic(auto, using(crate::proofs::WordSumLaws::complements_with_no_zero))]
pub fn ones_complement_with_no_zero(sum: u32) -> u16
    ensures complements { ComplementsWithNoZero sum result }
{
    without_zero(ones_complement(sum))
}

/// [`ones_complement`] of [`add_slice`], in one call: the checksum of a slice after an earlier sum.
///
/// The Rust crate has no such call.
#[inline(always)]
#[tactic(auto, using(crate::proofs::WordSumLaws::complements))]
pub fn checksum(start_sum: u32, slice: &[u8]) -> u16
    ensures complements { Complements (start_sum + little_endian_word_sum slice.now) result }
{
    wide_u64::checksum(u64::from(start_sum), slice)
}
