ghost use Rattle.std.specs.Prelude.{ℕ, ◌≡◌, ◌+◌, drop, take};
ghost use Rattle.std.specs.Int.{from_le_bytes, w16, w32, w64};
ghost use Rattle.etherparse_base.specs.WordSums.{AddsSlice, Complements, ComplementsWithNoZero};
ghost use Rattle.etherparse_base.specs.WordSums.{StandsForWords, end_around_sum, folded_sum};
ghost use Rattle.etherparse_base.specs.WordSums.{little_endian_word_sum};

use super::u64_16bit_word;
use std::marker::Model;

/// The sum of words of sixteen bits, for the checksum of a header (RFC 1071). Each call returns a
/// new sum.
///
/// Sums are equal if their 64-bit numbers are: equal complements do not make sums equal.
///
/// # Example
///
/// ```
/// let mut sum = Sum16BitWords::new();
/// for _ in 0..4 {
///     sum = sum.add_4bytes([255; 4]);
/// }
/// let at_once = Sum16BitWords::default().add_8bytes([252, 255, 255, 255, 3, 0, 0, 0]);
/// assert!(rt; sum.clone()? == at_once);
/// ```
#[derive(Clone, Debug, PartialEq, Eq, Drop)]
pub struct Sum16BitWords {
    sum: u64,
}

/// A contract sees the 64-bit number of the sum.
impl Model for Sum16BitWords {
    ghost Value = { ℕ };

    ghost view = { λ words. words.sum };

    ghost inverse = { λ number. record { sum = number } };
}

impl Sum16BitWords {
    /// The sum of no words: 0.
    pub fn new() -> Sum16BitWords
        ensures zero { result ≡ 0 }
    {
        Sum16BitWords { sum: 0 }
    }

    /// Adds the words of a slice. An odd last byte is paired with a zero byte after it (RFC 1071
    /// section 1).
    ///
    /// The result has the right complement; nothing else about it is promised.
    #[inline]
    pub fn add_slice(self, slice: &[u8]) -> Sum16BitWords
        ensures adds { AddsSlice self slice.now result }
    {
        Sum16BitWords {
            sum: u64_16bit_word::add_slice(self.sum, slice),
        }
    }

    /// Adds two bytes as one number, the low byte first. A carry out of the 64 bits is added at the
    /// low end (RFC 1071 section 1).
    #[inline]
    pub fn add_2bytes(self, value: [u8; 2]) -> Sum16BitWords
        ensures sum { result ≡ end_around_sum u64.MAX self (from_le_bytes w16 value) }
        ensures folded { folded_sum result ≡ folded_sum (self + little_endian_word_sum value) }
        ensures in_a_sum { StandsForWords self value result }
    {
        Sum16BitWords {
            sum: u64_16bit_word::add_2bytes(self.sum, value),
        }
    }

    /// Adds four bytes as one number, the low byte first. A carry out of the 64 bits is added at
    /// the low end (RFC 1071 section 1).
    ///
    /// Leaves `self` unchanged and returns the new sum.
    #[inline]
    pub fn add_4bytes(&mut self, value: [u8; 4]) -> Sum16BitWords
        ensures sum { result ≡ end_around_sum u64.MAX self.old (from_le_bytes w32 value) }
        ensures folded { folded_sum result ≡ folded_sum (self.old + little_endian_word_sum value) }
        ensures in_a_sum { StandsForWords self.old value result }
        ensures unchanged { self.new ≡ self.old }
    {
        Sum16BitWords {
            sum: u64_16bit_word::add_4bytes(self.sum, value),
        }
    }

    /// Adds eight bytes as one number, the low byte first. A carry out of the 64 bits is added at
    /// the low end (RFC 1071 section 1).
    ///
    /// Leaves `self` unchanged and returns the new sum.
    #[inline]
    pub fn add_8bytes(&mut self, value: [u8; 8]) -> Sum16BitWords
        ensures sum { result ≡ end_around_sum u64.MAX self.old (from_le_bytes w64 value) }
        ensures folded { folded_sum result ≡ folded_sum (self.old + little_endian_word_sum value) }
        ensures in_a_sum { StandsForWords self.old value result }
        ensures unchanged { self.new ≡ self.old }
    {
        Sum16BitWords {
            sum: u64_16bit_word::add_8bytes(self.sum, value),
        }
    }

    /// Adds sixteen bytes: the first eight, and then the last eight, as
    /// [`Sum16BitWords::add_8bytes`] does.
    ///
    /// Leaves `self` unchanged and returns the new sum.
    #[inline]
    pub fn add_16bytes(&mut self, bytes: [u8; 16]) -> Sum16BitWords
        ensures sum { let half = end_around_sum u64.MAX self.old (from_le_bytes w64 (take 8 bytes))
            in result ≡ end_around_sum u64.MAX half (from_le_bytes w64 (drop 8 bytes)) }
        ensures folded { folded_sum result ≡ folded_sum (self.old + little_endian_word_sum bytes) }
        ensures in_a_sum { StandsForWords self.old bytes result }
        ensures unchanged { self.new ≡ self.old }
    {
        let first = [
            bytes[0], bytes[1], bytes[2], bytes[3], bytes[4], bytes[5], bytes[6], bytes[7],
        ];
        let last = [
            bytes[8], bytes[9], bytes[10], bytes[11], bytes[12], bytes[13], bytes[14], bytes[15],
        ];
        self.add_8bytes(first).add_8bytes(last)
    }

    /// The checksum of what was summed: the ones-complement of the sum in sixteen bits. It is 0 if
    /// the words sum to all ones.
    ///
    /// Its low byte comes first in a packet: `to_le_bytes` gives its two bytes in the order in
    /// which a header has them, and `swap_bytes` the number for a field such as `header_checksum`.
    #[inline]
    pub fn ones_complement(&self) -> u16
        ensures complements { Complements self.now result }
    {
        u64_16bit_word::ones_complement(self.sum)
    }

    /// The same with 0xffff in place of 0, as in UDP, where a checksum of 0 says that there is none
    /// (RFC 768).
    #[inline]
    pub fn to_ones_complement_with_no_zero(&self) -> u16
        ensures complements { ComplementsWithNoZero self.now result }
    {
        u64_16bit_word::ones_complement_with_no_zero(self.sum)
    }
}

/// The sum of no words.
impl Default for Sum16BitWords {
    ghost is_default = { λ words. words ≡ 0 };

    #[inline]
    fn default() -> Sum16BitWords {
        Sum16BitWords::new()
    }
}
