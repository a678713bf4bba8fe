//! The header of a message of ICMPv6 (RFC 4443 section 2.1).

ghost use Rattle.std.specs.Prelude.{◌≡◌, length};
ghost use Rattle.etherparse.specs.Reading.{too_short_error};
ghost use Rattle.etherparse.specs.declared.err.Layer.TheVariants as layer;
ghost use Rattle.etherparse_icmp.specs.Icmpv6.{IsIcmpv6Layout};

use crate::{Icmpv6Slice, Icmpv6Type};
use etherparse::LenSource;
use etherparse::err::{Layer, LenError, ValueTooBigError, ValueType};

/// The header of a message of ICMPv6 (RFC 4443 section 2.1).
///
/// ```text
///  0               1               2               3
/// +---------------+---------------+---------------+---------------+
/// |     type      |     code      |           checksum            |
/// +---------------+---------------+---------------+---------------+
/// |                        by type and code                       |
/// +---------------+---------------+---------------+---------------+
/// ```
///
/// # Example
///
/// ```
/// // An echo request with the payload `abcd`, from 2001:db8::1 to 2001:db8::2.
/// let bytes = [128, 0, 0x4d, 0x48, 0x12, 0x34, 0, 1, b'a', b'b', b'c', b'd'];
/// let (header, payload) = Icmpv6Header::from_slice(&bytes)?;
/// let echo = IcmpEchoHeader { id: 0x1234, seq: 1 };
/// assert!(rt; header.icmp_type == Icmpv6Type::EchoRequest(echo));
/// assert!(rt; header.checksum == 0x4d48 && payload == b"abcd".as_slice());
/// assert!(rt; header.to_bytes().as_slice() == &bytes[..8]);
/// ```
#[derive(Clone, Copy, Debug, PartialEq, Eq)]
pub struct Icmpv6Header {
    /// What the message is: its type, its code and bytes 4 to 7.
    pub icmp_type: Icmpv6Type,
    /// Bytes 2 and 3.
    pub checksum: u16,
}

impl Icmpv6Header {
    ghost use Rattle.std.specs.Prelude.{ℕ, ◌≡◌, ◌≤◌, ◌↔◌, List, ◌++◌, IfErr, IfOk, IsErr, IsOk, Ok};
    ghost use Rattle.std.specs.Prelude.{drop, length, take};
    ghost use Rattle.etherparse.specs.Reading.{found_and_rest};
    ghost use Rattle.etherparse_icmp.specs.Icmpv6.{Icmpv6Reading, IsIcmpv6AsRead, IsIcmpv6Written};
    ghost use Rattle.etherparse_icmp.specs.Icmpv6.{ReadsIcmpv6};
    ghost use Rattle.etherparse_icmp.specs.Icmpv6.{HasIcmpv6Bytes, icmpv6_cleared};
    ghost use Rattle.etherparse_icmp.specs.Icmpv6Checksum.{IsIcmpv6Checksum};

    /// The length of the shortest header, in bytes: 8.
    pub const MIN_LEN: usize = 8;

    /// The length of the longest header, in bytes: 8, too.
    pub const MAX_LEN: usize = 8;

    /// A header of this type, with 0 for its checksum.
    pub fn new(icmp_type: Icmpv6Type) -> Icmpv6Header
        ensures icmp_type { result.icmp_type ≡ icmp_type }
        ensures checksum { result.checksum ≡ 0 }
    {
        Icmpv6Header {
            icmp_type,
            checksum: 0,
        }
    }

    /// A header of this type with the checksum of a message that has this payload, between these
    /// addresses. In a packet with a routing header, the destination has to be the last one (RFC
    /// 8200 section 8.1); with a Home Address option, the source has to be the home address (RFC
    /// 6275 section 11.3.1).
    ///
    /// # Errors
    ///
    /// A `ValueTooBigError` if the payload is longer than 4294967287 bytes: with the 8 of the
    /// header, that is more than the length of a pseudo-header can count.
    ///
    /// # Example
    ///
    /// ```
    /// let source = [0x20, 0x01, 0x0d, 0xb8, 0, 0, 0, 0, 0, 0, 0, 0, 0, 0, 0, 1];
    /// let destination = [0x20, 0x01, 0x0d, 0xb8, 0, 0, 0, 0, 0, 0, 0, 0, 0, 0, 0, 2];
    /// let request = Icmpv6Type::EchoRequest(IcmpEchoHeader { id: 0x1234, seq: 1 });
    /// let header = Icmpv6Header::with_checksum(request, source, destination, b"abcd")?;
    /// assert!(rt; header.to_bytes() == [128, 0, 0x4d, 0x48, 0x12, 0x34, 0, 1]);
    /// ```
    pub fn with_checksum(
        icmp_type: Icmpv6Type,
        source: [u8; 16],
        destination: [u8; 16],
        payload: &[u8],
    ) -> Result<Icmpv6Header, ValueTooBigError<usize>>
        ensures accepted { IsOk result ↔ (length payload.now ≤ 4294967287) }
        ensures refused { IfErr result (λ e. e ≡ record {
          actual = length payload.now;
          max_allowed = 4294967287;
          value_type = ValueType.Icmpv6PayloadLength;
        }) }
        ensures icmp_type { IfOk result (λ header. header.icmp_type ≡ icmp_type) }
        ensures computed { IfOk result (λ header.
            IsIcmpv6Checksum source destination icmp_type payload.now header.checksum) }
    {
        let checksum = icmp_type.calc_checksum(source, destination, payload)?;
        Ok(Icmpv6Header {
            icmp_type,
            checksum,
        })
    }

    /// Sets the checksum to that of a message that has this payload, between these addresses, as
    /// [`Icmpv6Header::with_checksum`] has it.
    ///
    /// # Errors
    ///
    /// A `ValueTooBigError` if the payload is longer than 4294967287 bytes: then the header stays
    /// as it is.
    pub fn update_checksum(
        &mut self,
        source: [u8; 16],
        destination: [u8; 16],
        payload: &[u8],
    ) -> Result<(), ValueTooBigError<usize>>
        ensures accepted { IsOk result ↔ (length payload.now ≤ 4294967287) }
        ensures refused { IfErr result (λ e. e ≡ record {
          actual = length payload.now;
          max_allowed = 4294967287;
          value_type = ValueType.Icmpv6PayloadLength;
        }) }
        ensures unchanged { IsErr result → self.new ≡ self.old }
        ensures others { self.new ≡ record self.old { checksum = self.new.checksum } }
        ensures computed { IsOk result → IsIcmpv6Checksum source destination
            self.old.icmp_type payload.now self.new.checksum }
    {
        self.checksum = self.icmp_type.calc_checksum(source, destination, payload)?;
        Ok(())
    }

    /// The header at the front of a slice, and all the bytes after it. Any type and any code is
    /// read.
    ///
    /// # Errors
    ///
    /// A `LenError` if the slice has fewer than 8 bytes.
    pub fn from_slice(slice: &[u8]) -> Result<(Icmpv6Header, &[u8]), LenError>
        ensures reads { ReadsIcmpv6 slice.now (found_and_rest result) }
        ensures only { (other : Icmpv6Reading) → ReadsIcmpv6 slice.now other →
            other ≡ found_and_rest result }
    {
        match Icmpv6Slice::from_slice(slice) {
            Ok(view) => Ok((view.header(), view.payload())),
            Err(e) => Err(e),
        }
    }

    /// The length of the header, in bytes: 8.
    pub fn header_len(&self) -> usize
        ensures value { result ≡ 8 }
    {
        Icmpv6Header::MIN_LEN
    }

    /// The 8 bytes of the header. Those that the type does not use are 0.
    pub fn to_bytes(&self) -> [u8; 8]
        ensures layout { IsIcmpv6Written self.now.icmp_type self.now.checksum result }
        ensures only { (bytes : List ℕ) →
            IsIcmpv6Written self.now.icmp_type self.now.checksum bytes → bytes ≡ result }
        ensures cleared { (bytes : List ℕ) →
            HasIcmpv6Bytes self.now.icmp_type self.now.checksum bytes →
            result ≡ take 4 bytes ++ icmpv6_cleared self.now.icmp_type (drop 4 bytes) }
        ensures read_again { IsIcmpv6AsRead self.now.icmp_type → (rest : List ℕ) →
            ReadsIcmpv6 (result ++ rest) (Ok (self.now, rest)) }
    {
        self.icmp_type.bytes_with(self.checksum)
    }
}

const _: () = prove!(Icmpv6Header::MIN_LEN == 8);

const _: () = prove!(Icmpv6Header::MAX_LEN == 8);

// The header of 8 bytes.
pub(crate) fn header_of(bytes: &[u8]) -> Icmpv6Header
    requires { length bytes.now ≡ 8 }
    ensures layout { IsIcmpv6Layout result bytes.now }
{
    let rest = [bytes[4], bytes[5], bytes[6], bytes[7]];
    Icmpv6Header {
        icmp_type: Icmpv6Type::of(bytes[0], bytes[1], rest),
        checksum: u16::from_be_bytes([bytes[2], bytes[3]]),
    }
}

// The error of a slice of so many bytes, which are fewer than 8.
pub(crate) fn too_short(len: usize) -> LenError
    ensures value { result ≡ too_short_error layer.Icmpv6 8 len }
{
    LenError {
        required_len: Icmpv6Header::MIN_LEN,
        len,
        len_source: LenSource::Slice,
        layer: Layer::Icmpv6,
        layer_start_offset: 0,
    }
}
