//! The sum of words of sixteen bits in 64 bits, and its complement, the checksum (RFC 1071).
//!
//! A sum begins at 0 and is passed from add to add, in any order. Words are read with the low byte
//! first, so the low byte of the complement is the one that comes first in a header. Sums that
//! differ by a multiple of 65535 have the same complement, unless one of them is 0.

ghost use Rattle.std.specs.Prelude.{◌≡◌, ◌+◌, map};
ghost use Rattle.std.specs.Int.{from_le_bytes, w16, w32, w64};
ghost use Rattle.etherparse_base.specs.WordSums.{AddsSlice, AddsSlices, Complements};
ghost use Rattle.etherparse_base.specs.WordSums.{ComplementsWithNoZero, StandsForWords};
ghost use Rattle.etherparse_base.specs.WordSums.{end_around_sum, folded_sum};
ghost use Rattle.etherparse_base.specs.WordSums.{little_endian_word_sum};

use super::end_around::{add_u64, complement_u64, without_zero};
use super::wide_u64;

/// Adds two bytes as one number, the low byte first. A carry out of the 64 bits is added at the low
/// end (RFC 1071 section 1).
#[inline]
pub fn add_2bytes(start: u64, value: [u8; 2]) -> u64
    ensures sum { result ≡ end_around_sum u64.MAX start (from_le_bytes w16 value) }
    ensures folded { folded_sum result ≡ folded_sum (start + little_endian_word_sum value) }
    ensures in_a_sum { StandsForWords start value result }
{
    add_u64(start, u64::from(u16::from_le_bytes(value)))
}

/// Adds four bytes as one number, the low byte first. A carry out of the 64 bits is added at the
/// low end (RFC 1071 section 1).
#[inline]
#[tactic(auto, using(crate::proofs::FoldedSums::stands_for_words, crate::proofs::WordNumbers::adds_four))]
pub fn add_4bytes(start: u64, value: [u8; 4]) -> u64
    ensures sum { result ≡ end_around_sum u64.MAX start (from_le_bytes w32 value) }
    ensures folded { folded_sum result ≡ folded_sum (start + little_endian_word_sum value) }
    ensures in_a_sum { StandsForWords start value result }
{
    add_u64(start, u64::from(u32::from_le_bytes(value)))
}

/// Adds eight bytes as one number, the low byte first. A carry out of the 64 bits is added at the
/// low end (RFC 1071 section 1).
#[inline]
#[tactic(auto, using(crate::proofs::FoldedSums::stands_for_words, crate::proofs::WordNumbers::adds_eight))]
pub fn add_8bytes(start: u64, value: [u8; 8]) -> u64
    ensures sum { result ≡ end_around_sum u64.MAX start (from_le_bytes w64 value) }
    ensures folded { folded_sum result ≡ folded_sum (start + little_endian_word_sum value) }
    ensures in_a_sum { StandsForWords start value result }
{
    add_u64(start, u64::from_le_bytes(value))
}

/// Adds the words of a slice. An odd last byte is paired with a zero byte after it (RFC 1071
/// section 1).
///
/// The result has the right complement; nothing else about it is promised.
#[inline(always)]
#[tactic(auto, using(crate::proofs::WordSumLaws::adds_slice))]
pub fn add_slice(start_sum: u64, slice: &[u8]) -> u64
    ensures adds { AddsSlice start_sum slice.now result }
{
    wide_u64::add_slice(start_sum, slice)
}

/// The sum of all pieces, from 0, each added by [`add_slice`]: an odd piece is padded by itself.
///
/// The Rust crate has no such call.
///
/// # Example
///
/// ```
/// // UDP over IPv4 (RFC 768): the pseudo-header, the header with 0 for its checksum, the payload.
/// let pseudo_header = [192, 168, 0, 1, 192, 168, 0, 199, 0, 17, 0, 12];
/// let header = [4, 0, 0, 53, 0, 12, 0, 0];
/// let payload = [b't', b'e', b's', b't'];
/// let sum = u64_16bit_word::add_slices(&[&pseudo_header, &header, &payload]);
/// let checksum = u64_16bit_word::ones_complement_with_no_zero(sum);
/// assert!(rt; checksum.to_le_bytes() == [0x91, 0xae]);
/// ```
#[tactic(auto, using(std::proofs::lemmas::List::take_all, crate::proofs::WordSumLaws::adds_slices))]
pub fn add_slices(pieces: &[&[u8]]) -> u64
    ensures adds { AddsSlices (map (λ piece. piece.now) pieces.now) result }
{
    let mut sum = 0;
    for piece in pieces {
        sum = add_slice(sum, piece);
    }
    sum
}

/// The checksum of what was summed: the ones-complement of the sum in sixteen bits. It is 0 if the
/// words sum to all ones.
///
/// Its low byte comes first in a packet: `to_le_bytes` gives its two bytes in the order in which a
/// header has them, and `swap_bytes` the number for a field such as `header_checksum`.
///
/// # Example
///
/// ```
/// // An IPv4 header with 0 for its checksum.
/// let header = [
///     0x45, 0, 0, 115, 0, 0, 0x40, 0, 64, 17, 0, 0, 192, 168, 0, 1, 192, 168, 0, 199,
/// ];
/// let sum = u64_16bit_word::add_slice(0, &header);
/// let checksum = u64_16bit_word::ones_complement(sum);
/// // Its bytes as they go into the packet, and the number for the field `header_checksum`.
/// assert!(rt; checksum.to_le_bytes() == [0xb8, 0x61]);
/// assert!(rt; checksum.swap_bytes() == 0xb861);
/// ```
#[inline]
#[tactic(auto, using(crate::proofs::WordSumLaws::complements))]
pub fn ones_complement(sum: u64) -> u16
    ensures complements { Complements sum result }
{
    complement_u64(sum)
}

/// The same with 0xffff in place of 0, as in UDP, where a checksum of 0 says that there is none
/// (RFC 768).
#[inline]
#[tactic(auto, using(crate::proofs::WordSumLaws::complements_with_no_zero))]
pub fn ones_complement_with_no_zero(sum: u64) -> u16
    ensures complements { ComplementsWithNoZero sum result }
{
    without_zero(ones_complement(sum))
}

/// [`ones_complement`] of [`add_slice`], in one call: the checksum of a slice after an earlier sum.
///
/// The Rust crate has no such call.
///
/// # Example
///
/// ```
/// // An IPv4 header with its checksum in it: its words sum to all ones.
/// let header = [
///     0x45, 0, 0, 115, 0, 0, 0x40, 0, 64, 17, 0xb8, 0x61, 192, 168, 0, 1, 192, 168, 0, 199,
/// ];
/// assert!(rt; u64_16bit_word::checksum(0, &header) == 0);
/// ```
#[inline(always)]
#[tactic(auto, using(crate::proofs::WordSumLaws::complements))]
pub fn checksum(start_sum: u64, slice: &[u8]) -> u16
    ensures complements { Complements (start_sum + little_endian_word_sum slice.now) result }
{
    wide_u64::checksum(start_sum, slice)
}
