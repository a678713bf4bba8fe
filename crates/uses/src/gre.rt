//! The GRE header (RFC 2784, RFC 2890), whose length its flags tell.

ghost use Rattle.std.specs.Prelude.{ℕ, ◌≡◌, ◌≢◌, ◌<◌, ◌≤◌, ◌+◌, ◌^◌, [], ◌∷◌, ◌++◌};
ghost use Rattle.std.specs.Prelude.{IfErr, IfOk, IfSome, length, slice_index, slice_range};
ghost use Rattle.std.specs.Int.{from_be_bytes, to_be_bytes, w16};
ghost use Rattle.etherparse.specs.Bytes.{IsBytes};
ghost use Rattle.etherparse.specs.WordSums.{SumsToAllOnes};
ghost use Rattle.uses.specs.Gre.{IsGreLayout, IsUnsupported, RefusesAs, flag_at, gre_len_of};
ghost use Rattle.uses.specs.Gre.{checksum_bytes, field_bytes, gre_checksum_of, if_set, word_at};

use arrayvec::ArrayVec;
use etherparse::checksum::Sum16BitWords;

/// A GRE header. Each optional field is there if its flag is set: C, K or S.
#[derive(Clone, Copy)]
pub struct GreHeader {
    /// The EtherType of the payload: 0x0800 for IPv4.
    pub protocol_type: u16,
    pub checksum: Option<u16>,
    pub key: Option<u32>,
    pub sequence_number: Option<u32>,
}

/// Why there is no GRE header, and where it would start: bytes from the start of the parsed data.
#[derive(Clone, Copy)]
pub struct GreError {
    pub cause: GreCause,
    pub offset: usize,
}

/// Why bytes do not begin with a GRE header.
#[derive(Clone, Copy)]
pub enum GreCause {
    /// There are `len` of the `required_len` bytes.
    TooShort { required_len: usize, len: usize },
    /// The first two bytes: bit 1, 4 or 5 is set, or the version is not 0 (RFC 2784 section 2.3).
    Unsupported(u16),
}

impl GreError {
    ghost use Rattle.std.specs.Prelude.{◌≡◌, ◌+◌, ◌<◌, ◌^◌};
    ghost use Rattle.uses.specs.Gre.{gre_error_moved};

    /// The error of the same header in data that starts `offset` bytes earlier.
    pub fn add_offset(self, offset: usize) -> GreError
        requires fits { self.offset + offset < 2 ^ 64 }
        ensures moved { result ≡ gre_error_moved offset self }
    {
        GreError {
            offset: self.offset + offset,
            ..self
        }
    }
}

impl GreHeader {
    ghost use Rattle.std.specs.Prelude.{ℕ, ◌≡◌, ◌++◌, List, Ok};
    ghost use Rattle.etherparse.specs.Reading.{found_and_rest};
    ghost use Rattle.uses.specs.Gre.{GreReading, IsGreLayout, ReadsGre, gre_bytes};

    /// The header at the front of a slice, and all the bytes after it.
    ///
    /// # Errors
    ///
    /// In this order: `TooShort` if the slice has fewer than 4 bytes; `Unsupported`; `TooShort` if
    /// it has fewer bytes than the flags say.
    pub fn from_slice(slice: &[u8]) -> Result<(GreHeader, &[u8]), GreError>
        ensures reads { ReadsGre slice.now (found_and_rest result) }
        ensures only { (other : GreReading) → ReadsGre slice.now other →
            other ≡ found_and_rest result }
    {
        match len_of(slice) {
            Ok(len) => Ok((header_of(&slice[..len]), &slice[len..])),
            Err(cause) => Err(GreError { cause, offset: 0 }),
        }
    }

    /// The bytes of the header, 4 to 16. What a receiver ignores is 0.
    pub fn to_bytes(&self) -> ArrayVec<u8, 16>
        ensures value { result.items ≡ gre_bytes self.now }
        ensures layout { IsGreLayout self.now result.items }
        ensures read_again { (rest : List ℕ) →
            ReadsGre (result.items ++ rest) (Ok (self.now, rest)) }
    {
        let (checksum, key, number) = (self.checksum, self.key, self.sequence_number);
        let flags = 128 * u8::from(checksum.is_some())
            + 32 * u8::from(key.is_some())
            + 16 * u8::from(number.is_some());
        let mut bytes = ArrayVec::new();
        push(&mut bytes, first_bytes(flags, self.protocol_type));
        push_checksum(&mut bytes, checksum);
        push_field(&mut bytes, key);
        push_field(&mut bytes, number);
        bytes
    }
}

/// Stores the checksum of a GRE header and its payload, in bytes 4 and 5 (RFC 2784 section 2.5). One
/// that is 0 is stored as 0, unlike in UDP.
pub fn store_checksum(packet: &mut [u8])
    requires there { 6 ≤ length packet.old }
    ensures stored { from_be_bytes w16 (slice_index packet.new 4 ∷ slice_index packet.new 5 ∷ [])
        ≡ gre_checksum_of packet.old }
    ensures all_ones { SumsToAllOnes packet.new }
    ensures len { length packet.new ≡ length packet.old }
    ensures others { (i : ℕ) → i ≢ 4 → i ≢ 5 →
        slice_index packet.new i ≡ slice_index packet.old i }
{
    packet[4] = 0;
    packet[5] = 0;
    let checksum = Sum16BitWords::new().add_slice(packet).ones_complement();
    let [low, high] = checksum.to_le_bytes();
    packet[4] = low;
    packet[5] = high;
}

// The length of the header at the front of a slice.
fn len_of(slice: &[u8]) -> Result<usize, GreCause>
    ensures len { IfOk result (λ len. len ≡ gre_len_of slice.now) }
    ensures enough { IfOk result (λ len. len ≤ length slice.now) }
    ensures supported { IfOk result (λ len. ¬ IsUnsupported slice.now) }
    ensures refused { IfErr result (RefusesAs slice.now) }
{
    if slice.len() < 4 {
        return Err(GreCause::TooShort {
            required_len: 4,
            len: slice.len(),
        });
    }
    if flag(slice, 6) == 1 || slice[0] / 4 % 4 != 0 || slice[1] % 8 != 0 {
        return Err(GreCause::Unsupported(u16::from_be_bytes([slice[0], slice[1]])));
    }
    let required_len = 4 + 4 * flag(slice, 7) + 4 * flag(slice, 5) + 4 * flag(slice, 4);
    if slice.len() < required_len {
        return Err(GreCause::TooShort {
            required_len,
            len: slice.len(),
        });
    }
    Ok(required_len)
}

// The header of these bytes.
fn header_of(bytes: &[u8]) -> GreHeader
    requires len { length bytes.now ≡ gre_len_of bytes.now }
    requires supported { ¬ IsUnsupported bytes.now }
    ensures layout { IsGreLayout result bytes.now }
{
    let key_at = 4 + 4 * flag(bytes, 7);
    let sequence_at = key_at + 4 * flag(bytes, 5);
    GreHeader {
        protocol_type: u16::from_be_bytes([bytes[2], bytes[3]]),
        checksum: checksum_of(bytes),
        key: word_if(flag(bytes, 5), bytes, key_at),
        sequence_number: word_if(flag(bytes, 4), bytes, sequence_at),
    }
}

// A bit of the first byte.
fn flag(bytes: &[u8], place: u32) -> usize
    requires some { 0 < length bytes.now }
    requires within { place < 8 }
    ensures value { result ≡ flag_at place bytes.now }
    ensures within { result ≤ 1 }
{
    usize::from((bytes[0] >> place) % 2)
}

// The four bytes from a place on, if their flag is set.
fn word_if(flag: usize, bytes: &[u8], at: usize) -> Option<u32>
    requires there { flag ≡ 1 → at + 4 ≤ length bytes.now }
    ensures value { result ≡ if_set flag (word_at bytes.now at) }
{
    if flag == 1 {
        Some(u32::from_be_bytes([bytes[at], bytes[at + 1], bytes[at + 2], bytes[at + 3]]))
    } else {
        None
    }
}

// The checksum, if its flag is set.
fn checksum_of(bytes: &[u8]) -> Option<u16>
    requires len { length bytes.now ≡ gre_len_of bytes.now }
    ensures value { result ≡ if_set (flag_at 7 bytes.now)
        (from_be_bytes w16 (slice_range bytes.now 4 6)) }
{
    if flag(bytes, 7) == 1 {
        Some(u16::from_be_bytes([bytes[4], bytes[5]]))
    } else {
        None
    }
}

// The four bytes that each header has.
fn first_bytes(flags: u8, protocol_type: u16) -> [u8; 4]
    ensures value { result ≡ flags ∷ 0 ∷ to_be_bytes w16 protocol_type }
    ensures fits { protocol_type < 2 ^ 16 }
{
    let [high, low] = protocol_type.to_be_bytes();
    [flags, 0, high, low]
}

// Four bytes more.
fn push(bytes: &mut ArrayVec<u8, 16>, more: [u8; 4])
    requires room { length bytes.old.items ≤ 12 }
    ensures items { bytes.new.items ≡ bytes.old.items ++ more }
    ensures are_bytes { IsBytes bytes.old.items → IsBytes bytes.new.items }
{
    let [a, b, c, d] = more;
    bytes.push(a);
    bytes.push(b);
    bytes.push(c);
    bytes.push(d);
}

// The checksum and two bytes 0, if it is there.
fn push_checksum(bytes: &mut ArrayVec<u8, 16>, checksum: Option<u16>)
    requires room { length bytes.old.items ≤ 12 }
    ensures items { bytes.new.items ≡ bytes.old.items ++ checksum_bytes checksum }
    ensures are_bytes { IsBytes bytes.old.items → IsBytes bytes.new.items }
    ensures fits { IfSome checksum (λ n. n < 2 ^ 16) }
{
    if let Some(checksum) = checksum {
        let [high, low] = checksum.to_be_bytes();
        push(bytes, [high, low, 0, 0]);
    }
}

// A field of four bytes, if it is there.
fn push_field(bytes: &mut ArrayVec<u8, 16>, field: Option<u32>)
    requires room { length bytes.old.items ≤ 12 }
    ensures items { bytes.new.items ≡ bytes.old.items ++ field_bytes field }
    ensures are_bytes { IsBytes bytes.old.items → IsBytes bytes.new.items }
    ensures fits { IfSome field (λ n. n < 2 ^ 32) }
{
    if let Some(number) = field {
        push(bytes, number.to_be_bytes());
    }
}
