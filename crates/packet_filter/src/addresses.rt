//! Words that are addresses, or networks.

ghost use Rattle.std.specs.Prelude.{◌≡◌, ◌+◌, ◌≤◌, length};
ghost use Rattle.packet_filter.specs.Addresses.{IsAddress, SpellsAddress, addressed, fronted};
ghost use Rattle.packet_filter.specs.Addresses.{hardware_of, has_colons, networked, octet_at};
ghost use Rattle.packet_filter.specs.Addresses.{octet_of};
ghost use Rattle.packet_filter.specs.Addresses.{prefixed, short_address, short_len, short_net_of};
ghost use Rattle.packet_filter.specs.Addresses.{with_octets};

use crate::address::Address;
use crate::numbers::{before, beyond, decimal_of, has, number_of};
use crate::token::Token;
use std::net::IpAddr;

/// Up to three octets, alone or with a slash and a number after them.
pub(crate) fn short_net_of(word: &[u8]) -> Option<Token>
    ensures value { result ≡ short_net_of word.now }
{
    if has(b'/', word) {
        networked(
            short_address(before(b'/', word)),
            number_of(beyond(b'/', word)),
        )
    } else {
        fronted(short_address(word), short_len(word))
    }
}

// A network of IPv4.
fn networked(address: Option<u32>, bits: Option<u32>) -> Option<Token>
    ensures value { result ≡ networked address bits }
{
    match (address, bits) {
        (Some(address), Some(bits)) => Some(Token::Prefix(Address::V4(address), bits)),
        _ => None,
    }
}

// The front of an IPv4 address.
fn fronted(address: Option<u32>, bits: u8) -> Option<Token>
    ensures value { result ≡ fronted address bits }
{
    match address {
        Some(address) => Some(Token::Front(address, bits)),
        None => None,
    }
}

// The IPv4 address that begins with the octets of a word.
fn short_address(word: &[u8]) -> Option<u32>
    ensures value { result ≡ short_address word.now }
{
    let rest = beyond(b'.', word);
    if has(b'.', rest) {
        with_octets(
            octet_of(before(b'.', word)),
            octet_of(before(b'.', rest)),
            octet_of(beyond(b'.', rest)),
        )
    } else if has(b'.', word) {
        with_octets(octet_of(before(b'.', word)), octet_of(rest), Some(0))
    } else {
        with_octets(octet_of(word), Some(0), Some(0))
    }
}

// How many bits the octets of a word are.
fn short_len(word: &[u8]) -> u8
    ensures value { result ≡ short_len word.now }
{
    if has(b'.', beyond(b'.', word)) {
        24
    } else if has(b'.', word) {
        16
    } else {
        8
    }
}

// The IPv4 address whose first three octets are these, and whose last is 0.
fn with_octets(a: Option<u8>, b: Option<u8>, c: Option<u8>) -> Option<u32>
    ensures value { result ≡ with_octets a b c }
{
    match (a, b, c) {
        (Some(a), Some(b), Some(c)) => {
            Some(u32::from(a) * 0x100_0000 + u32::from(b) * 0x1_0000 + u32::from(c) * 0x100)
        }
        _ => None,
    }
}

// The octet that a word is, in decimal.
fn octet_of(word: &[u8]) -> Option<u8>
    ensures value { result ≡ octet_of word.now }
{
    match decimal_of(word) {
        Some(number) if number <= 255 => Some(number as u8),
        _ => None,
    }
}

/// The Ethernet address that a word is.
pub(crate) fn hardware_of(word: &[u8]) -> Option<Token>
    ensures value { result ≡ hardware_of word.now }
{
    if !has_colons(word) {
        return None;
    }
    Some(Token::Hardware([
        octet_at(word, 0)?,
        octet_at(word, 3)?,
        octet_at(word, 6)?,
        octet_at(word, 9)?,
        octet_at(word, 12)?,
        octet_at(word, 15)?,
    ]))
}

// Whether a word has the length of six octets with colons between them, and the colons.
fn has_colons(word: &[u8]) -> bool
    ensures value { result ≡ has_colons word.now }
{
    word.len() == 17
        && word[2] == b':'
        && word[5] == b':'
        && word[8] == b':'
        && word[11] == b':'
        && word[14] == b':'
}

// The octet that two hexadecimal digits at a place of a word are.
fn octet_at(word: &[u8], place: usize) -> Option<u8>
    requires within { place + 2 ≤ length word.now }
    ensures value { result ≡ octet_at word.now place }
{
    let high = char::from(word[place]).to_digit(16)?;
    let low = char::from(word[place + 1]).to_digit(16)?;
    Some((16 * high + low) as u8)
}

/// What a word says that is no name, no number and no network in short.
pub(crate) fn address_token(word: &[u8]) -> Token
    ensures says { SpellsAddress word.now result }
{
    let address = address_in(before(b'/', word));
    if has(b'/', word) {
        prefixed(address, number_of(beyond(b'/', word)))
    } else {
        addressed(address)
    }
}

// An address and how many of its bits count.
fn prefixed(address: Option<Address>, bits: Option<u32>) -> Token
    ensures value { result ≡ prefixed address bits }
{
    match (address, bits) {
        (Some(address), Some(bits)) => Token::Prefix(address, bits),
        _ => Token::Unknown,
    }
}

// An address alone.
fn addressed(address: Option<Address>) -> Token
    ensures value { result ≡ addressed address }
{
    match address {
        Some(address) => Token::Address(address),
        None => Token::Unknown,
    }
}

// The address that a word is.
fn address_in(word: &[u8]) -> Option<Address>
    ensures found { IsAddress word.now result }
{
    match IpAddr::parse_ascii(word) {
        Ok(IpAddr::V4(ip)) => Some(Address::V4(ip.to_bits())),
        Ok(IpAddr::V6(ip)) => Some(Address::V6(ip.to_bits())),
        Err(_) => None,
    }
}
