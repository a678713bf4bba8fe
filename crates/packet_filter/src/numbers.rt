//! Words that are numbers.

ghost use Rattle.std.specs.Prelude.{◌≡◌, ◌+◌, ◌*◌, ◌^◌, ◌<◌, ◌≤◌, ◌&&◌, IfNone, IfSome};
ghost use Rattle.std.specs.Prelude.{IsFalse, length, nat_lt};
ghost use Rattle.std.specs.Char.{digit_value};
ghost use Rattle.packet_filter.specs.Numbers.{before, beyond, decimal_of, digits_of, field_of, has};
ghost use Rattle.packet_filter.specs.Numbers.{has_leading_zero, index_of, is_hexadecimal};
ghost use Rattle.packet_filter.specs.Numbers.{number_of, place_of, range_of, size_of};
ghost use Rattle.packet_filter.specs.Numbers.{sized_place_of};

use crate::expression::Size;
use crate::names::is_word;
use crate::token::Token;

/// The number below 2^32 that a word is, decimal, or hexadecimal after `0x`.
pub(crate) fn number_of(word: &[u8]) -> Option<u32>
    ensures value { result ≡ number_of word.now }
{
    if is_hexadecimal(word) {
        digits_of(16, &word[2..])
    } else {
        decimal_of(word)
    }
}

/// The decimal number below 2^32 that a word is, without leading zeros.
pub(crate) fn decimal_of(word: &[u8]) -> Option<u32>
    ensures value { result ≡ decimal_of word.now }
{
    if has_leading_zero(word) {
        None
    } else {
        digits_of(10, word)
    }
}

// Whether a word begins with `0x` or `0X`.
fn is_hexadecimal(word: &[u8]) -> bool
    ensures value { result ≡ is_hexadecimal word.now }
{
    matches!(word, [b'0', b'x' | b'X', ..])
}

// Whether a word begins with a zero, and goes on.
fn has_leading_zero(word: &[u8]) -> bool
    ensures value { result ≡ has_leading_zero word.now }
{
    matches!(word, [b'0', _, ..])
}

// The number that digits of this base are, one or more.
fn digits_of(base: u32, word: &[u8]) -> Option<u32>
    requires base { (2 ≤ base) × (base ≤ 36) }
    ensures value { result ≡ digits_of base word.now }
{
    if word.is_empty() {
        return None;
    }
    let mut number = 0u32;
    for digit in word {
        number = match with_digit(base, number, *digit) {
            Some(number) => number,
            None => return None,
        };
    }
    Some(number)
}

// A number with one more digit.
fn with_digit(base: u32, number: u32, digit: u8) -> Option<u32>
    requires base { (2 ≤ base) × (base ≤ 36) }
    ensures some { IfSome result (λ n. (digit_value digit < base)
        × (n ≡ base * number + digit_value digit) × (n < 2 ^ 32)) }
    ensures none { IfNone result (IsFalse (nat_lt (digit_value digit) base
        && nat_lt (base * number + digit_value digit) (2 ^ 32))) }
{
    let digit = char::from(digit).to_digit(base)?;
    base.checked_mul(number)?.checked_add(digit)
}

// Where a byte first stands in a word; its length if it does not.
fn index_of(byte: u8, word: &[u8]) -> usize
    ensures value { result ≡ index_of byte word.now }
    ensures within { result ≤ length word.now }
{
    for (i, other) in word.iter().enumerate() {
        if *other == byte {
            return i;
        }
    }
    word.len()
}

/// Whether a byte stands in a word.
pub(crate) fn has(byte: u8, word: &[u8]) -> bool
    ensures value { result ≡ has byte word.now }
{
    index_of(byte, word) < word.len()
}

/// What stands in a word before a byte.
pub(crate) fn before(byte: u8, word: &[u8]) -> &[u8]
    ensures value { result.now ≡ before byte word.now }
{
    &word[..index_of(byte, word)]
}

/// What stands in a word after a byte.
pub(crate) fn beyond(byte: u8, word: &[u8]) -> &[u8]
    ensures value { result.now ≡ beyond byte word.now }
{
    let index = index_of(byte, word);
    if index < word.len() {
        &word[index + 1..]
    } else {
        &word[index..]
    }
}

/// Two numbers with a hyphen between them.
pub(crate) fn range_of(word: &[u8]) -> Option<Token>
    ensures value { result ≡ range_of word.now }
{
    match (number_of(before(b'-', word)), number_of(beyond(b'-', word))) {
        (Some(low), Some(high)) => Some(Token::Range(low, high)),
        _ => None,
    }
}

/// A number, or the name of a place.
pub(crate) fn place_of(word: &[u8]) -> Option<u32>
    ensures value { result ≡ place_of word.now }
{
    match number_of(word) {
        Some(number) => Some(number),
        None => field_of(word),
    }
}

// The place of a field.
fn field_of(word: &[u8]) -> Option<u32>
    ensures value { result ≡ field_of word.now }
{
    if is_word(word, b"tcpflags") {
        Some(13)
    } else if is_word(word, b"icmptype") {
        Some(0)
    } else if is_word(word, b"icmpcode") {
        Some(1)
    } else if is_word(word, b"icmp6type") {
        Some(0)
    } else if is_word(word, b"icmp6code") {
        Some(1)
    } else {
        None
    }
}

// A number of bytes that are loaded.
fn size_of(word: &[u8]) -> Option<Size>
    ensures value { result ≡ size_of word.now }
{
    match word {
        b"1" => Some(Size::One),
        b"2" => Some(Size::Two),
        b"4" => Some(Size::Four),
        _ => None,
    }
}

/// A place and a size with a colon between them.
pub(crate) fn sized_place_of(word: &[u8]) -> Option<Token>
    ensures value { result ≡ sized_place_of word.now }
{
    match (place_of(before(b':', word)), size_of(beyond(b':', word))) {
        (Some(place), Some(size)) => Some(Token::Place(place, size)),
        _ => None,
    }
}
