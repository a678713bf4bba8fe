//! The fixed fields of an IPv4 header and its options: one after the other, and summed.

ghost use Rattle.std.specs.Prelude.{◌≡◌, ◌≤◌, ◌+◌, ◌%◌, ◌++◌, drop, length};
ghost use Rattle.etherparse_base.specs.Bytes.{IsBytes};
ghost use Rattle.etherparse_base.specs.WordSums.{StandsForWords, little_endian_word_sum};
ghost use Rattle.etherparse_fields.specs.Ipv4Options.{IsOptionsLen};

use crate::checksum::Sum16BitWords;
use arrayvec::ArrayVec;

// The fixed fields, and the options after them, with a case for each length: a number of bytes that
// the compiler knows is copied without a call.
#[inline(always)]
pub(super) fn front_and_options(front: &[u8], options: &[u8]) -> ArrayVec<u8, 60>
    requires front_len { length front.now ≡ 20 }
    requires options_len { IsOptionsLen (length options.now) }
    ensures parts { result.items ≡ front.now ++ options.now }
    ensures are_bytes { IsBytes (front.now ++ options.now) }
{
    match options.len() {
        0 => front_and_options_of::<0>(front, options),
        4 => front_and_options_of::<4>(front, options),
        8 => front_and_options_of::<8>(front, options),
        12 => front_and_options_of::<12>(front, options),
        16 => front_and_options_of::<16>(front, options),
        20 => front_and_options_of::<20>(front, options),
        24 => front_and_options_of::<24>(front, options),
        28 => front_and_options_of::<28>(front, options),
        32 => front_and_options_of::<32>(front, options),
        36 => front_and_options_of::<36>(front, options),
        _ => front_and_options_of::<40>(front, options),
    }
}

// The same for N bytes of options.
#[inline(always)]
fn front_and_options_of<const N: usize>(front: &[u8], options: &[u8]) -> ArrayVec<u8, 60>
    requires front_len { length front.now ≡ 20 }
    requires options_len { length options.now ≡ N }
    requires fits { N ≤ 40 }
    ensures parts { result.items ≡ front.now ++ options.now }
    ensures are_bytes { IsBytes (front.now ++ options.now) }
{
    let mut bytes = ArrayVec::new();
    bytes.try_extend_from_slice(front).unwrap();
    bytes.try_extend_from_slice(&options[..N]).unwrap();
    bytes
}

// The sum of the fixed fields by words of four bytes: from fields of two bytes each, words of eight
// take longer to put together.
#[inline(always)]
pub(super) fn sum_of_fixed(front: [u8; 20]) -> Sum16BitWords
    requires { length front ≡ 20 }
    ensures in_a_sum { StandsForWords 0 front result }
{
    let [a, b, c, d, e, f, g, h, i, j, k, l, m, n, o, p, q, r, s, t] = front;
    Sum16BitWords::new()
        .add_4bytes([a, b, c, d])
        .add_4bytes([e, f, g, h])
        .add_4bytes([i, j, k, l])
        .add_4bytes([m, n, o, p])
        .add_4bytes([q, r, s, t])
}

// The sum with the words of the options; most headers have none. Each word has a place that the
// compiler knows, with zeros after the last one, so that no header is put into memory.
#[inline(always)]
pub(super) fn add_options(fixed: Sum16BitWords, options: &[u8]) -> Sum16BitWords
    requires options_len { IsOptionsLen (length options.now) }
    ensures in_a_sum { StandsForWords fixed options.now result }
{
    if options.is_empty() {
        return fixed;
    }
    let mut sum = fixed;
    for word in 0..10 {
        sum = sum.add_4bytes(word_or_zeros(options, 4 * word));
    }
    sum
}

// The word at a place, or zeros after the last one.
#[inline(always)]
fn word_or_zeros(options: &[u8], place: usize) -> [u8; 4]
    requires options_len { IsOptionsLen (length options.now) }
    requires in_words { place % 4 ≡ 0 }
    requires fits { place ≤ 36 }
    ensures sum { little_endian_word_sum result
        + little_endian_word_sum (drop (place + 4) options.now)
        ≡ little_endian_word_sum (drop place options.now) }
{
    if place < options.len() {
        *options[place..place + 4].first_chunk::<4>().unwrap()
    } else {
        [0; 4]
    }
}

// To a proof, the items of a slice are bytes; the items of an array that is passed here are bytes
// from here on.
#[inline(always)]
pub(super) fn are_bytes(bytes: &[u8])
    ensures { IsBytes bytes.now }
{}
