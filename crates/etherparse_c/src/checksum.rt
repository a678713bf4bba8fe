//! Checksums of the internet protocols (RFC 1071), summed in 64 bits and in 32 bits.

ghost use Rattle.std.specs.Prelude.{◌≡◌, ◌+◌, map};
ghost use Rattle.std.specs.Int.{swap_bytes, w16};
ghost use Rattle.etherparse.specs.WordSums.{AddsSlice, AddsSlices, Complements};
ghost use Rattle.etherparse.specs.WordSums.{ComplementsWithNoZero, little_endian_word_sum};
ghost use Rattle.etherparse.specs.WordSums.{updated_checksum, updated_checksum_of_words};

use etherparse::checksum::{
    u32_16bit_word, u64_16bit_word, update_2bytes, update_4bytes, update_16bytes,
};

/// Adds the words of a slice to a sum of 64 bits, which begins at 0. An odd last byte is padded
/// with a byte 0.
#[unsafe(no_mangle)]
pub extern "C" fn etherparse_u64_16bit_word_add_slice(start_sum: u64, slice: &[u8]) -> u64
    ensures adds { AddsSlice start_sum slice.now result }
{
    u64_16bit_word::add_slice(start_sum, slice)
}

/// The sum in 64 bits of all pieces, from 0. An odd piece is padded by itself.
#[unsafe(no_mangle)]
pub extern "C" fn etherparse_u64_16bit_word_add_slices(pieces: &[&[u8]]) -> u64
    ensures adds { AddsSlices (map (λ piece. piece.now) pieces.now) result }
{
    u64_16bit_word::add_slices(pieces)
}

/// The checksum of what was summed in 64 bits. Its low byte comes first in a packet.
#[unsafe(no_mangle)]
pub extern "C" fn etherparse_u64_16bit_word_ones_complement(sum: u64) -> u16
    ensures complements { Complements sum result }
{
    u64_16bit_word::ones_complement(sum)
}

/// The same with 0xffff in place of 0, for UDP: there 0 says that there is no checksum (RFC 768).
#[unsafe(no_mangle)]
pub extern "C" fn etherparse_u64_16bit_word_ones_complement_with_no_zero(sum: u64) -> u16
    ensures complements { ComplementsWithNoZero sum result }
{
    u64_16bit_word::ones_complement_with_no_zero(sum)
}

/// The checksum of a slice after an earlier sum of 64 bits, in one call. The Rust crate has no such
/// call.
#[unsafe(no_mangle)]
pub extern "C" fn etherparse_u64_16bit_word_checksum(start_sum: u64, slice: &[u8]) -> u16
    ensures complements { Complements (start_sum + little_endian_word_sum slice.now) result }
{
    u64_16bit_word::checksum(start_sum, slice)
}

/// Adds the words of a slice to a sum of 32 bits, which begins at 0. An odd last byte is padded
/// with a byte 0.
#[unsafe(no_mangle)]
pub extern "C" fn etherparse_u32_16bit_word_add_slice(start_sum: u32, slice: &[u8]) -> u32
    ensures adds { AddsSlice start_sum slice.now result }
{
    u32_16bit_word::add_slice(start_sum, slice)
}

/// The sum in 32 bits of all pieces, from 0. An odd piece is padded by itself.
#[unsafe(no_mangle)]
pub extern "C" fn etherparse_u32_16bit_word_add_slices(pieces: &[&[u8]]) -> u32
    ensures adds { AddsSlices (map (λ piece. piece.now) pieces.now) result }
{
    u32_16bit_word::add_slices(pieces)
}

/// The checksum of what was summed in 32 bits. Its low byte comes first in a packet.
#[unsafe(no_mangle)]
pub extern "C" fn etherparse_u32_16bit_word_ones_complement(sum: u32) -> u16
    ensures complements { Complements sum result }
{
    u32_16bit_word::ones_complement(sum)
}

/// The same with 0xffff in place of 0, for UDP: there 0 says that there is no checksum (RFC 768).
#[unsafe(no_mangle)]
pub extern "C" fn etherparse_u32_16bit_word_ones_complement_with_no_zero(sum: u32) -> u16
    ensures complements { ComplementsWithNoZero sum result }
{
    u32_16bit_word::ones_complement_with_no_zero(sum)
}

/// The checksum of a slice after an earlier sum of 32 bits, in one call. The Rust crate has no such
/// call.
#[unsafe(no_mangle)]
pub extern "C" fn etherparse_u32_16bit_word_checksum(start_sum: u32, slice: &[u8]) -> u16
    ensures complements { Complements (start_sum + little_endian_word_sum slice.now) result }
{
    u32_16bit_word::checksum(start_sum, slice)
}

/// A checksum in the other byte order: converts what the calls above return into the number of a
/// header's field, and back.
#[unsafe(no_mangle)]
pub extern "C" fn etherparse_swap_bytes(checksum: u16) -> u16
    ensures value { result ≡ swap_bytes w16 checksum }
{
    checksum.swap_bytes()
}

/// The checksum after one of the words that it covers was changed from `old` to `new`, all three as
/// numbers whose high byte comes first in a packet (RFC 1624 section 3, equation 3).
#[unsafe(no_mangle)]
pub extern "C" fn etherparse_update_2bytes(checksum: u16, old: u16, new: u16) -> u16
    ensures value { result ≡ updated_checksum checksum old new }
{
    update_2bytes(checksum, old.to_be_bytes(), new.to_be_bytes())
}

/// The same after four bytes, such as an IPv4 address, were changed at an even offset.
#[unsafe(no_mangle)]
pub extern "C" fn etherparse_update_4bytes(checksum: u16, old: &[u8; 4], new: &[u8; 4]) -> u16
    ensures value { result ≡ updated_checksum_of_words 2 checksum old.now new.now }
{
    update_4bytes(checksum, *old, *new)
}

/// The same after sixteen bytes, such as an IPv6 address, were changed at an even offset.
#[unsafe(no_mangle)]
pub extern "C" fn etherparse_update_16bytes(checksum: u16, old: &[u8; 16], new: &[u8; 16]) -> u16
    ensures value { result ≡ updated_checksum_of_words 8 checksum old.now new.now }
{
    update_16bytes(checksum, *old, *new)
}
