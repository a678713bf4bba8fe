//! The words of a text, and what each says.

ghost use Rattle.std.specs.Prelude.{◌≡◌, ◌+◌, ◌<◌, ◌≤◌, [], IfNone, IfSome, length};
ghost use Rattle.std.specs.List.{prefix_len};
ghost use Rattle.packet_filter.specs.Text.{BeginsWithWord, Spells, begins_pair, is_bracket};
ghost use Rattle.packet_filter.specs.Text.{is_operator, is_pair, is_plain, is_space, keyword_of};
ghost use Rattle.packet_filter.specs.Text.{len_after, words_of};

use crate::addresses::{address_token, hardware_of, short_net_of};
use crate::names::name_of;
use crate::numbers::{place_of, range_of, sized_place_of};
use crate::token::Token;
use crate::values::named_value_of;

/// The first word of a text, and what comes after it.
pub(crate) fn first_word(text: &[u8]) -> Option<(&[u8], &[u8])>
    ensures some { IfSome result (λ x. BeginsWithWord text.now x.0.now x.1.now) }
    ensures less { IfSome result (λ x. length x.1.now < length text.now) }
    ensures none { IfNone result (words_of text.now ≡ []) }
{
    for (at, byte) in text.iter().enumerate() {
        if !is_space(*byte) {
            let rest = &text[at..];
            let len = 1 + len_after(*byte, &text[at + 1..]);
            return Some((&rest[..len], &rest[len..]));
        }
    }
    None
}

// How many bytes of a text belong to the word that begins with the byte before it.
fn len_after(byte: u8, text: &[u8]) -> usize
    ensures value { result ≡ len_after byte text.now }
    ensures within { result ≤ length text.now }
{
    if is_plain(byte) {
        plain_len(text)
    } else if is_operator(byte) && begins_pair(byte, text) {
        1
    } else {
        0
    }
}

// How many bytes at the front of a text run on as one word.
fn plain_len(text: &[u8]) -> usize
    ensures value { result ≡ prefix_len is_plain text.now }
    ensures within { result ≤ length text.now }
{
    for (i, byte) in text.iter().enumerate() {
        if !is_plain(*byte) {
            return i;
        }
    }
    text.len()
}

// Whether a byte only parts words.
fn is_space(byte: u8) -> bool
    ensures value { result ≡ is_space byte }
{
    matches!(byte, b' ' | b'\t' | b'\n' | b'\r')
}

// Whether a byte is a word wherever it stands.
fn is_bracket(byte: u8) -> bool
    ensures value { result ≡ is_bracket byte }
{
    matches!(byte, b'(' | b')' | b'[' | b']')
}

// Whether operators are made of this byte.
fn is_operator(byte: u8) -> bool
    ensures value { result ≡ is_operator byte }
{
    matches!(byte, b'&' | b'|' | b'=' | b'<' | b'>' | b'!')
}

// Whether a byte stands in a word of other bytes.
fn is_plain(byte: u8) -> bool
    ensures value { result ≡ is_plain byte }
{
    !is_space(byte) && !is_bracket(byte) && !is_operator(byte)
}

// Whether a byte and the text after it begin with an operator of two bytes.
fn begins_pair(byte: u8, text: &[u8]) -> bool
    ensures value { result ≡ begins_pair byte text.now }
{
    match text {
        [] => false,
        [next, ..] => is_pair(byte, *next),
    }
}

// Whether two bytes are one operator.
fn is_pair(byte: u8, next: u8) -> bool
    ensures value { result ≡ is_pair byte next }
{
    match next {
        b'&' | b'|' => byte == next,
        b'=' => matches!(byte, b'=' | b'!' | b'<' | b'>'),
        _ => false,
    }
}

/// What a word says.
pub(crate) fn token_of(word: &[u8]) -> Token
    ensures says { Spells word.now result }
{
    match keyword_of(word) {
        Some(token) => token,
        None => address_token(word),
    }
}

// What a word says that is no address.
fn keyword_of(word: &[u8]) -> Option<Token>
    ensures value { result ≡ keyword_of word.now }
{
    if let Some(token) = name_of(word) {
        return Some(token);
    }
    if let Some(token) = named_value_of(word) {
        return Some(token);
    }
    if let Some(number) = place_of(word) {
        return Some(Token::Number(number));
    }
    if let Some(token) = sized_place_of(word) {
        return Some(token);
    }
    if let Some(token) = range_of(word) {
        return Some(token);
    }
    if let Some(token) = short_net_of(word) {
        return Some(token);
    }
    hardware_of(word)
}
