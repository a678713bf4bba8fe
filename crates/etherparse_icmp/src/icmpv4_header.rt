//! The header of a message of ICMP (RFC 792).

ghost use Rattle.std.specs.Prelude.{◌≡◌, ◌≤◌, ◌⊎◌, IsTrue, ◌↔◌, length, slice_index};
ghost use Rattle.etherparse.specs.Reading.{too_short_error};
ghost use Rattle.etherparse_icmp.specs.Icmpv4.{IsIcmpv4Layout};
ghost use Rattle.etherparse_icmp.specs.Icmpv4View.{icmpv4_len_in};

use crate::icmpv4::TimestampMessage;
use crate::{Icmpv4Slice, Icmpv4Type};
use arrayvec::ArrayVec;
use etherparse::LenSource;
use etherparse::err::{Layer, LenError};

/// The header of a message of ICMP (RFC 792).
///
/// ```text
///  0               1               2               3
/// +---------------+---------------+---------------+---------------+
/// |     type      |     code      |           checksum            |
/// +---------------+---------------+---------------+---------------+
/// |                        by type and code                       |
/// +---------------+---------------+---------------+---------------+
/// ```
///
/// That of a timestamp message, or of its reply, goes on with three times of 4 bytes each.
///
/// # Example
///
/// ```
/// // An echo request with the payload `abcd`.
/// let bytes = [8, 0, 0x21, 4, 0x12, 0x34, 0, 1, b'a', b'b', b'c', b'd'];
/// let (header, payload) = Icmpv4Header::from_slice(&bytes)?;
/// let echo = IcmpEchoHeader { id: 0x1234, seq: 1 };
/// assert!(rt; header.icmp_type == Icmpv4Type::EchoRequest(echo));
/// assert!(rt; header.checksum == 0x2104 && payload == b"abcd".as_slice());
/// assert!(rt; header.to_bytes().as_slice() == &bytes[..8]);
/// ```
#[derive(Clone, Copy, Debug, PartialEq, Eq)]
pub struct Icmpv4Header {
    /// What the message is: its type, its code and the bytes after the checksum.
    pub icmp_type: Icmpv4Type,
    /// Bytes 2 and 3.
    pub checksum: u16,
}

impl Icmpv4Header {
    ghost use Rattle.std.specs.Prelude.{ℕ, ◌≡◌, List, ◌++◌, Ok, drop, take};
    ghost use Rattle.etherparse.specs.Reading.{found_and_rest};
    ghost use Rattle.etherparse_icmp.specs.Icmpv4.{Icmpv4Reading, IsIcmpv4AsRead, IsIcmpv4Written};
    ghost use Rattle.etherparse_icmp.specs.Icmpv4.{ReadsIcmpv4, icmpv4_len};
    ghost use Rattle.etherparse_icmp.specs.Icmpv4.{HasIcmpv4Bytes, icmpv4_cleared};
    ghost use Rattle.etherparse_icmp.specs.Icmpv4Checksum.{IsIcmpv4Checksum};

    /// The length of the shortest header, in bytes: 8.
    pub const MIN_LEN: usize = 8;

    /// The length of the longest header, that of a timestamp message, in bytes: 20.
    pub const MAX_LEN: usize = 20;

    /// A header of this type, with 0 for its checksum.
    pub fn new(icmp_type: Icmpv4Type) -> Icmpv4Header
        ensures icmp_type { result.icmp_type ≡ icmp_type }
        ensures checksum { result.checksum ≡ 0 }
    {
        Icmpv4Header {
            icmp_type,
            checksum: 0,
        }
    }

    /// A header of this type with the checksum of a message that has this payload.
    ///
    /// # Example
    ///
    /// ```
    /// let reply = Icmpv4Type::EchoReply(IcmpEchoHeader { id: 0x1234, seq: 1 });
    /// let header = Icmpv4Header::with_checksum(reply, b"abcd");
    /// assert!(rt; header.to_bytes().as_slice() == [0, 0, 0x29, 4, 0x12, 0x34, 0, 1].as_slice());
    /// ```
    pub fn with_checksum(icmp_type: Icmpv4Type, payload: &[u8]) -> Icmpv4Header
        ensures icmp_type { result.icmp_type ≡ icmp_type }
        ensures computed { IsIcmpv4Checksum icmp_type payload.now result.checksum }
    {
        let checksum = icmp_type.calc_checksum(payload);
        Icmpv4Header {
            icmp_type,
            checksum,
        }
    }

    /// Sets the checksum to that of a message that has this payload.
    pub fn update_checksum(&mut self, payload: &[u8])
        ensures others { self.new ≡ record self.old { checksum = self.new.checksum } }
        ensures computed { IsIcmpv4Checksum self.old.icmp_type payload.now self.new.checksum }
    {
        self.checksum = self.icmp_type.calc_checksum(payload);
    }

    /// The header at the front of a slice, and all the bytes after it. Any type and any code is
    /// read.
    ///
    /// # Errors
    ///
    /// A `LenError` if the slice has fewer than 8 bytes, of `Layer::Icmpv4`; or if its type is 13
    /// and its code 0, or 14 and 0, and it has fewer than the 20 bytes of a timestamp message, of
    /// `Layer::Icmpv4Timestamp` or `Layer::Icmpv4TimestampReply`.
    pub fn from_slice(slice: &[u8]) -> Result<(Icmpv4Header, &[u8]), LenError>
        ensures reads { ReadsIcmpv4 slice.now (found_and_rest result) }
        ensures only { (other : Icmpv4Reading) → ReadsIcmpv4 slice.now other →
            other ≡ found_and_rest result }
    {
        match Icmpv4Slice::from_slice(slice) {
            Ok(view) => Ok((view.header(), view.payload())),
            Err(e) => Err(e),
        }
    }

    /// The length of the header, in bytes: 20 of a timestamp message or its reply, 8 of any other.
    pub fn header_len(&self) -> usize
        ensures value { result ≡ icmpv4_len self.now.icmp_type }
    {
        self.icmp_type.header_len()
    }

    /// The bytes of the header, 8 or 20. Those that the type does not use are 0.
    pub fn to_bytes(&self) -> ArrayVec<u8, 20>
        ensures layout { IsIcmpv4Written self.now.icmp_type self.now.checksum result.items }
        ensures only { (bytes : List ℕ) →
            IsIcmpv4Written self.now.icmp_type self.now.checksum bytes → bytes ≡ result.items }
        ensures cleared { (bytes : List ℕ) →
            HasIcmpv4Bytes self.now.icmp_type self.now.checksum bytes →
            result.items ≡ take 4 bytes ++ icmpv4_cleared self.now.icmp_type (drop 4 bytes) }
        ensures read_again { IsIcmpv4AsRead self.now.icmp_type → (rest : List ℕ) →
            ReadsIcmpv4 (result.items ++ rest) (Ok (self.now, rest)) }
    {
        self.icmp_type.bytes_with(self.checksum)
    }
}

const _: () = prove!(Icmpv4Header::MIN_LEN == 8);

const _: () = prove!(Icmpv4Header::MAX_LEN == 20);

// The header of these bytes, which are as many as their first two say.
pub(crate) fn header_in(bytes: &[u8]) -> Icmpv4Header
    requires len { length bytes.now ≡ icmpv4_len_in bytes.now }
    ensures layout { IsIcmpv4Layout result bytes.now }
{
    if bytes.len() == Icmpv4Header::MAX_LEN {
        timestamp_header_of(bytes)
    } else {
        header_of(bytes)
    }
}

// The header of 8 bytes that are not of a timestamp message.
fn header_of(bytes: &[u8]) -> Icmpv4Header
    requires len { length bytes.now ≡ 8 }
    requires request { slice_index bytes.now 0 ≡ 13 → slice_index bytes.now 1 ≡ 0 → ⊥ }
    requires reply { slice_index bytes.now 0 ≡ 14 → slice_index bytes.now 1 ≡ 0 → ⊥ }
    ensures layout { IsIcmpv4Layout result bytes.now }
{
    let rest = [bytes[4], bytes[5], bytes[6], bytes[7]];
    Icmpv4Header {
        icmp_type: Icmpv4Type::of(bytes[0], bytes[1], rest),
        checksum: u16::from_be_bytes([bytes[2], bytes[3]]),
    }
}

// The header of a timestamp message, or of its reply.
fn timestamp_header_of(bytes: &[u8]) -> Icmpv4Header
    requires len { length bytes.now ≡ 20 }
    requires types { (slice_index bytes.now 0 ≡ 13) ⊎ (slice_index bytes.now 0 ≡ 14) }
    requires code { slice_index bytes.now 1 ≡ 0 }
    ensures layout { IsIcmpv4Layout result bytes.now }
{
    let message = TimestampMessage::from_bytes(&bytes[4..]);
    let icmp_type = if bytes[0] == 13 {
        Icmpv4Type::TimestampRequest(message)
    } else {
        Icmpv4Type::TimestampReply(message)
    };
    Icmpv4Header {
        icmp_type,
        checksum: u16::from_be_bytes([bytes[2], bytes[3]]),
    }
}

// The error of a slice of so many bytes, which are fewer than the layer needs.
pub(crate) fn too_short(layer: Layer, required_len: usize, len: usize) -> LenError
    ensures value { result ≡ too_short_error layer required_len len }
{
    LenError {
        required_len,
        len,
        len_source: LenSource::Slice,
        layer,
        layer_start_offset: 0,
    }
}
