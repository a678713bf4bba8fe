//! A view of a message of ICMPv6 (RFC 4443).

ghost use Rattle.std.specs.Prelude.{◌≤◌, length};

use crate::icmpv6_header::{header_of, too_short};
use crate::{Icmpv6Header, Icmpv6Type};
use etherparse::IpNumber;
use etherparse::err::LenError;
use packet_parts::checksum::{Verdict, ipv6_verdict};

/// A view of a message of ICMPv6 (RFC 4443 section 2.1), of its header and its payload.
///
/// # Example
///
/// ```
/// // An echo request with the payload `abcd`, from 2001:db8::1 to 2001:db8::2.
/// let message = [128, 0, 0x4d, 0x48, 0x12, 0x34, 0, 1, b'a', b'b', b'c', b'd'];
/// let source = [0x20, 0x01, 0x0d, 0xb8, 0, 0, 0, 0, 0, 0, 0, 0, 0, 0, 0, 1];
/// let destination = [0x20, 0x01, 0x0d, 0xb8, 0, 0, 0, 0, 0, 0, 0, 0, 0, 0, 0, 2];
/// let view = Icmpv6Slice::from_slice(&message)?;
/// assert!(rt; view.is_checksum_valid(source, destination));
/// let echo = IcmpEchoHeader { id: 0x1234, seq: 1 };
/// assert!(rt; view.icmp_type() == Icmpv6Type::EchoRequest(echo));
/// let numbers = (view.header_len(), view.type_u8(), view.code_u8(), view.checksum());
/// assert!(rt; numbers == (8, 128, 0, 0x4d48));
/// assert!(rt; view.bytes5to8() == [0x12, 0x34, 0, 1]);
/// assert!(rt; Icmpv6Header::from_slice(view.slice()) == Ok((view.header(), view.payload())));
/// ```
#[derive(Clone, Copy, Debug, PartialEq, Eq)]
pub struct Icmpv6Slice<'a> {
    /// The bytes of the message.
    pub slice: &'a [u8],
    // What every view keeps.
    pub ghost enough: { 8 ≤ length slice.now },
}

impl<'a> Icmpv6Slice<'a> {
    ghost use Rattle.std.specs.Prelude.{ℕ, ◌≡◌, ◌↔◌, IsTrue, List, Ok, Result, drop, slice_index};
    ghost use Rattle.std.specs.Prelude.{slice_range};
    ghost use Rattle.std.specs.Int.{from_be_bytes, w16};
    ghost use Rattle.std.specs.Result.{result_map_both};
    ghost use Rattle.etherparse.specs.Reading.{BeginsWith};
    ghost use Rattle.etherparse.specs.declared.err.LenError.{LenError as Refused};
    ghost use Rattle.etherparse_icmp.specs.Icmpv6.{Icmpv6Reading, IsIcmpv6Layout, ReadsIcmpv6};
    ghost use Rattle.etherparse_icmp.specs.Icmpv6View.{ViewsIcmpv6};
    ghost use Rattle.etherparse_icmp.specs.declared.icmpv6_header.Icmpv6Header.{
      Icmpv6Header as Header,
    };
    ghost use Rattle.packet_parts.specs.Checksum.{IsRightIpv6};

    /// A view of all bytes of a slice. The checksum is not tested.
    ///
    /// # Errors
    ///
    /// A `LenError` if the slice has fewer than 8 bytes.
    pub fn from_slice(slice: &'a [u8]) -> Result<Icmpv6Slice<'a>, LenError>
        ensures views { ViewsIcmpv6 slice.now
            (result_map_both (λ view. view.slice.now) (λ e. e) result) }
        ensures only { (other : Result (List ℕ) Refused) → ViewsIcmpv6 slice.now other →
            other ≡ result_map_both (λ view. view.slice.now) (λ e. e) result }
    {
        if slice.len() < Icmpv6Header::MIN_LEN {
            return Err(too_short(slice.len()));
        }
        Ok(Icmpv6Slice { slice })
    }

    /// The bytes of the message, which live as long as the slice that was read.
    pub fn slice(&self) -> &'a [u8]
        ensures value { result.now ≡ self.now.slice.now }
    {
        self.slice
    }

    /// The header at the front of the message.
    pub fn header(&self) -> Icmpv6Header
        ensures reads { ReadsIcmpv6 self.now.slice.now
            (Ok (result, drop 8 self.now.slice.now)) }
        ensures only { (other : Icmpv6Reading) → ReadsIcmpv6 self.now.slice.now other →
            other ≡ Ok (result, drop 8 self.now.slice.now) }
    {
        header_of(&self.slice[..Icmpv6Header::MIN_LEN])
    }

    /// The length of the header, in bytes: 8.
    pub fn header_len(&self) -> usize
        ensures value { result ≡ 8 }
    {
        Icmpv6Header::MIN_LEN
    }

    /// What the message is, by its header.
    pub fn icmp_type(&self) -> Icmpv6Type
        ensures value { (header : Header) (rest : List ℕ) →
            BeginsWith IsIcmpv6Layout self.now.slice.now header rest →
            result ≡ header.icmp_type }
    {
        self.header().icmp_type
    }

    /// The number of the type: byte 0.
    pub fn type_u8(&self) -> u8
        ensures byte_0 { result ≡ slice_index self.now.slice.now 0 }
    {
        self.slice[0]
    }

    /// The number of the code: byte 1.
    pub fn code_u8(&self) -> u8
        ensures byte_1 { result ≡ slice_index self.now.slice.now 1 }
    {
        self.slice[1]
    }

    /// The checksum as it was received: bytes 2 and 3.
    pub fn checksum(&self) -> u16
        ensures bytes_2_3 { result ≡ from_be_bytes w16 (slice_range self.now.slice.now 2 4) }
    {
        u16::from_be_bytes([self.slice[2], self.slice[3]])
    }

    /// Whether the checksum is right for a message between these addresses (RFC 4443 section 2.3).
    /// In a packet with a routing header, the destination has to be the last one (RFC 8200 section
    /// 8.1); with a Home Address option, the source has to be the home address (RFC 6275 section
    /// 11.3.1). A message longer than 4294967295 bytes has no right one: a pseudo-header cannot
    /// count them.
    pub fn is_checksum_valid(&self, source: [u8; 16], destination: [u8; 16]) -> bool
        ensures right { IsTrue result ↔ IsRightIpv6 source destination 58 self.now.slice.now }
    {
        ipv6_verdict(source, destination, IpNumber::IPV6_ICMP, self.slice) == Verdict::Right
    }

    /// The 4 bytes after the checksum: bytes 4 to 7, the fifth to the eighth.
    pub fn bytes5to8(&self) -> [u8; 4]
        ensures bytes_4_to_7 { result ≡ slice_range self.now.slice.now 4 8 }
    {
        [self.slice[4], self.slice[5], self.slice[6], self.slice[7]]
    }

    /// The bytes after the header.
    pub fn payload(&self) -> &'a [u8]
        ensures value { result.now ≡ drop 8 self.now.slice.now }
    {
        &self.slice[Icmpv6Header::MIN_LEN..]
    }
}
