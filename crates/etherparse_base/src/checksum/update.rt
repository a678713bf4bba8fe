//! A checksum after a change in what it covers, from the change alone (RFC 1624).

ghost use Rattle.std.specs.Prelude.{if◌then◌else◌, ◌==◌, ◌≡◌, ◌≤◌, ◌+◌, ◌-◌, ◌*◌};
ghost use Rattle.std.specs.Int.{from_be_bytes, w16};
ghost use Rattle.etherparse_base.specs.Bytes.{IsBytes, words_of};
ghost use Rattle.etherparse_base.specs.WordSums.{UpdatesChecksum, UpdatesChecksumWithNoZero};
ghost use Rattle.etherparse_base.specs.WordSums.{checksum_of, network_order_word_sum};
ghost use Rattle.etherparse_base.specs.WordSums.{updated_checksum, updated_checksum_of_words};
ghost use Rattle.etherparse_base.specs.WordSums.{updated_in_turn, with_no_zero};

use super::end_around::without_zero;
use super::u32_16bit_word::ones_complement;

/// The checksum after one of the words that it covers changed from `old` to `new` (RFC 1624 section
/// 3, equation 3). The words are given as their bytes in the packet; the checksum is a number that
/// was read from its bytes with the high byte first.
///
/// A checksum that was computed of the old words becomes that of the new words, unless all words
/// are 0 now: it is then 0, and 0xffff if computed anew. A wrong one is not repaired.
///
/// The Rust crate has no such call.
///
/// # Example
///
/// ```
/// // The words are all 0 after the change.
/// assert_eq!(rt; update_2bytes(0xffff, [0, 0], [0, 0]), 0);
/// assert_eq!(rt; update_2bytes(0xffff - 0x0102, [1, 2], [0, 0]), 0);
/// ```
#[inline]
pub fn update_2bytes(checksum: u16, old: [u8; 2], new: [u8; 2]) -> u16
    ensures value { result ≡ updated_checksum checksum (from_be_bytes w16 old)
        (from_be_bytes w16 new) }
    ensures updates { UpdatesChecksum checksum (from_be_bytes w16 old) (from_be_bytes w16 new)
        result }
{
    updated(checksum, 1, one_word(old), one_word(new))
}

/// [`update_2bytes`] for two words at once, such as an IPv4 address: the same as one update after
/// the other.
///
/// The Rust crate has no such call.
///
/// # Example
///
/// ```
/// let (first, second) = ([192, 168, 0, 199], [192, 168, 0, 200]);
/// assert_eq!(rt; update_4bytes(0xb861, first, second), 0xb860);
/// ```
#[inline]
pub fn update_4bytes(checksum: u16, old: [u8; 4], new: [u8; 4]) -> u16
    ensures value { result ≡ updated_checksum_of_words 2 checksum old new }
    ensures in_turn { result ≡ updated_in_turn checksum (words_of old) (words_of new) }
    ensures updates { UpdatesChecksum checksum (network_order_word_sum old)
        (network_order_word_sum new) result }
{
    are_bytes(&old);
    updated(checksum, 2, two_words(old), two_words(new))
}

/// [`update_2bytes`] for eight words at once, such as an IPv6 address: the same as one update after
/// the other.
///
/// The Rust crate has no such call.
///
/// # Example
///
/// ```
/// let mut first = [0; 16];
/// first[..4].copy_from_slice(&[0x20, 0x01, 0x0d, 0xb8]);
/// let mut second = first;
/// first[15] = 1;
/// second[15] = 2;
/// assert_eq!(rt; update_16bytes(0x1234, first, second), 0x1233);
/// ```
#[inline]
pub fn update_16bytes(checksum: u16, old: [u8; 16], new: [u8; 16]) -> u16
    ensures value { result ≡ updated_checksum_of_words 8 checksum old new }
    ensures in_turn { result ≡ updated_in_turn checksum (words_of old) (words_of new) }
    ensures updates { UpdatesChecksum checksum (network_order_word_sum old)
        (network_order_word_sum new) result }
{
    are_bytes(&old);
    updated(checksum, 8, eight_words(old), eight_words(new))
}

/// [`update_2bytes`] of a checksum in which 0 says that there is none, as in UDP over IPv4 (RFC
/// 768): 0 stays 0, and any other that would become 0 becomes 0xffff.
///
/// The Rust crate has no such call.
///
/// # Example
///
/// ```
/// // The numbers of RFC 1624 section 4, where the updated checksum is 0.
/// let (old, new) = ([0x55, 0x55], [0x32, 0x85]);
/// assert_eq!(rt; update_2bytes_with_no_zero(0xdd2f, old, new), 0xffff);
/// assert_eq!(rt; update_2bytes_with_no_zero(0, old, new), 0);
/// ```
#[inline]
pub fn update_2bytes_with_no_zero(checksum: u16, old: [u8; 2], new: [u8; 2]) -> u16
    ensures value { result ≡ if checksum == 0 then 0 else with_no_zero
        (updated_checksum checksum (from_be_bytes w16 old) (from_be_bytes w16 new)) }
    ensures updates { UpdatesChecksumWithNoZero checksum (from_be_bytes w16 old)
        (from_be_bytes w16 new) result }
{
    updated_or_none(checksum, 1, one_word(old), one_word(new))
}

/// [`update_4bytes`] of a checksum in which 0 says that there is none, as in UDP over IPv4 (RFC
/// 768): 0 stays 0, and any other that would become 0 becomes 0xffff.
///
/// The Rust crate has no such call.
#[inline]
pub fn update_4bytes_with_no_zero(checksum: u16, old: [u8; 4], new: [u8; 4]) -> u16
    ensures value { result ≡ if checksum == 0 then 0 else with_no_zero
        (updated_checksum_of_words 2 checksum old new) }
    ensures updates { UpdatesChecksumWithNoZero checksum (network_order_word_sum old)
        (network_order_word_sum new) result }
{
    updated_or_none(checksum, 2, two_words(old), two_words(new))
}

/// [`update_16bytes`] of a checksum in which 0 says that there is none: 0 stays 0, and any other
/// that would become 0 becomes 0xffff.
///
/// The Rust crate has no such call.
#[inline]
pub fn update_16bytes_with_no_zero(checksum: u16, old: [u8; 16], new: [u8; 16]) -> u16
    ensures value { result ≡ if checksum == 0 then 0 else with_no_zero
        (updated_checksum_of_words 8 checksum old new) }
    ensures updates { UpdatesChecksumWithNoZero checksum (network_order_word_sum old)
        (network_order_word_sum new) result }
{
    updated_or_none(checksum, 8, eight_words(old), eight_words(new))
}

// The checksum after a change of so many words, from their sums.
#[inline(always)]
fn updated(checksum: u16, words: u32, old: u32, new: u32) -> u16
    requires few { words ≤ 8 }
    requires old { old ≤ words * 65535 }
    requires new { new ≤ words * 65535 }
    ensures value { result ≡ checksum_of ((65535 - checksum) + (words * 65535 - old) + new) }
    ensures updates { UpdatesChecksum checksum old new result }
{
    ones_complement(u32::from(!checksum) + (words * 65535 - old) + new)
}

// The same of a checksum in which 0 says that there is none.
#[inline(always)]
fn updated_or_none(checksum: u16, words: u32, old: u32, new: u32) -> u16
    requires few { words ≤ 8 }
    requires old { old ≤ words * 65535 }
    requires new { new ≤ words * 65535 }
    ensures value { result ≡ if checksum == 0 then 0 else with_no_zero
        (checksum_of ((65535 - checksum) + (words * 65535 - old) + new)) }
    ensures updates { UpdatesChecksumWithNoZero checksum old new result }
{
    let change = updated(checksum, words, old, new);
    if checksum == 0 {
        return 0;
    }
    without_zero(change)
}

// A word with the high byte first.
#[inline(always)]
fn one_word(bytes: [u8; 2]) -> u32
    ensures sum { result ≡ from_be_bytes w16 bytes }
    ensures within { result ≤ 65535 }
{
    u32::from(u16::from_be_bytes(bytes))
}

// The sum of two words, each with the high byte first.
#[inline(always)]
fn two_words(bytes: [u8; 4]) -> u32
    ensures sum { result ≡ network_order_word_sum bytes }
    ensures within { result ≤ 2 * 65535 }
{
    let [a, b, c, d] = bytes;
    u32::from(u16::from_be_bytes([a, b])) + u32::from(u16::from_be_bytes([c, d]))
}

// The sum of eight words, each with the high byte first.
#[inline(always)]
#[tactic(auto, using(crate::proofs::WordNumbers::sixteen))]
fn eight_words(bytes: [u8; 16]) -> u32
    ensures sum { result ≡ network_order_word_sum bytes }
    ensures within { result ≤ 8 * 65535 }
{
    let [a, b, c, d, e, f, g, h, i, j, k, l, m, n, o, p] = bytes;
    two_words([a, b, c, d])
        + two_words([e, f, g, h])
        + two_words([i, j, k, l])
        + two_words([m, n, o, p])
}

// To a proof, the items of a slice are bytes; the items of an array that is passed here are bytes
// from here on.
#[inline(always)]
fn are_bytes(bytes: &[u8])
    ensures { IsBytes bytes.now }
{}
