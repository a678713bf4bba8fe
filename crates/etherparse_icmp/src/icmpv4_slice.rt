//! A view of a message of ICMP (RFC 792).

ghost use Rattle.std.specs.Prelude.{◌≡◌, ◌≤◌, length};
ghost use Rattle.etherparse_icmp.specs.Icmpv4View.{icmpv4_len_in};

use crate::icmpv4_header::{header_in, too_short};
use crate::{Icmpv4Header, Icmpv4Type};
use etherparse::err::{Layer, LenError};

/// A view of a message of ICMP (RFC 792), of its header and its payload.
///
/// # Example
///
/// ```
/// // An echo request with the payload `abcd`.
/// let message = [8, 0, 0x21, 4, 0x12, 0x34, 0, 1, b'a', b'b', b'c', b'd'];
/// let view = Icmpv4Slice::from_slice(&message)?;
/// let echo = IcmpEchoHeader { id: 0x1234, seq: 1 };
/// assert!(rt; view.icmp_type() == Icmpv4Type::EchoRequest(echo));
/// let numbers = (view.header_len(), view.type_u8(), view.code_u8(), view.checksum());
/// assert!(rt; numbers == (8, 8, 0, 0x2104));
/// assert!(rt; view.bytes5to8() == [0x12, 0x34, 0, 1]);
/// assert!(rt; Icmpv4Header::from_slice(view.slice()) == Ok((view.header(), view.payload())));
/// ```
#[derive(Clone, Copy, Debug, PartialEq, Eq)]
pub struct Icmpv4Slice<'a> {
    /// The bytes of the message.
    pub slice: &'a [u8],
    // What every view keeps.
    pub ghost enough: { 8 ≤ length slice.now },
    pub ghost within: { icmpv4_len_in slice.now ≤ length slice.now },
}

impl<'a> Icmpv4Slice<'a> {
    ghost use Rattle.std.specs.Prelude.{ℕ, ◌≡◌, List, Ok, Result, slice_index, slice_range};
    ghost use Rattle.std.specs.Int.{from_be_bytes, w16};
    ghost use Rattle.std.specs.Result.{result_map_both};
    ghost use Rattle.etherparse.specs.Reading.{BeginsWith};
    ghost use Rattle.etherparse.specs.declared.err.LenError.{LenError as Refused};
    ghost use Rattle.etherparse_icmp.specs.Icmpv4.{Icmpv4Reading, IsIcmpv4Layout, ReadsIcmpv4};
    ghost use Rattle.etherparse_icmp.specs.Icmpv4View.{ViewsIcmpv4, icmpv4_len_in};
    ghost use Rattle.etherparse_icmp.specs.Icmpv4View.{icmpv4_payload_in};
    ghost use Rattle.etherparse_icmp.specs.declared.icmpv4_header.Icmpv4Header.{
      Icmpv4Header as Header,
    };

    /// A view of all bytes of a slice. The checksum is not tested.
    ///
    /// # Errors
    ///
    /// That of [`Icmpv4Header::from_slice`], if the slice has fewer bytes than the header.
    pub fn from_slice(slice: &'a [u8]) -> Result<Icmpv4Slice<'a>, LenError>
        ensures views { ViewsIcmpv4 slice.now
            (result_map_both (λ view. view.slice.now) (λ e. e) result) }
        ensures only { (other : Result (List ℕ) Refused) → ViewsIcmpv4 slice.now other →
            other ≡ result_map_both (λ view. view.slice.now) (λ e. e) result }
    {
        if slice.len() < Icmpv4Header::MIN_LEN {
            return Err(too_short(Layer::Icmpv4, Icmpv4Header::MIN_LEN, slice.len()));
        }
        let len = header_len_in(slice);
        if slice.len() < len {
            let layer = if slice[0] == 13 {
                Layer::Icmpv4Timestamp
            } else {
                Layer::Icmpv4TimestampReply
            };
            return Err(too_short(layer, len, slice.len()));
        }
        Ok(Icmpv4Slice { slice })
    }

    /// The bytes of the message, which live as long as the slice that was read.
    pub fn slice(&self) -> &'a [u8]
        ensures value { result.now ≡ self.now.slice.now }
    {
        self.slice
    }

    /// The header at the front of the message.
    pub fn header(&self) -> Icmpv4Header
        ensures reads { ReadsIcmpv4 self.now.slice.now
            (Ok (result, icmpv4_payload_in self.now.slice.now)) }
        ensures only { (other : Icmpv4Reading) → ReadsIcmpv4 self.now.slice.now other →
            other ≡ Ok (result, icmpv4_payload_in self.now.slice.now) }
    {
        header_in(&self.slice[..self.header_len()])
    }

    /// The length of the header, in bytes: 20 of a timestamp message or its reply, 8 of any other.
    pub fn header_len(&self) -> usize
        ensures value { result ≡ icmpv4_len_in self.now.slice.now }
    {
        header_len_in(self.slice)
    }

    /// What the message is, by its header.
    pub fn icmp_type(&self) -> Icmpv4Type
        ensures value { (header : Header) (rest : List ℕ) →
            BeginsWith IsIcmpv4Layout self.now.slice.now header rest →
            result ≡ header.icmp_type }
    {
        self.header().icmp_type
    }

    /// The number of the type: byte 0.
    pub fn type_u8(&self) -> u8
        ensures byte_0 { result ≡ slice_index self.now.slice.now 0 }
    {
        self.slice[0]
    }

    /// The number of the code: byte 1.
    pub fn code_u8(&self) -> u8
        ensures byte_1 { result ≡ slice_index self.now.slice.now 1 }
    {
        self.slice[1]
    }

    /// The checksum as it was received: bytes 2 and 3.
    pub fn checksum(&self) -> u16
        ensures bytes_2_3 { result ≡ from_be_bytes w16 (slice_range self.now.slice.now 2 4) }
    {
        u16::from_be_bytes([self.slice[2], self.slice[3]])
    }

    /// The 4 bytes after the checksum: bytes 4 to 7, the fifth to the eighth.
    pub fn bytes5to8(&self) -> [u8; 4]
        ensures bytes_4_to_7 { result ≡ slice_range self.now.slice.now 4 8 }
    {
        [self.slice[4], self.slice[5], self.slice[6], self.slice[7]]
    }

    /// The bytes after the header.
    pub fn payload(&self) -> &'a [u8]
        ensures value { result.now ≡ icmpv4_payload_in self.now.slice.now }
    {
        &self.slice[self.header_len()..]
    }
}

// The length of the header of a message that begins with these bytes.
fn header_len_in(bytes: &[u8]) -> usize
    requires { 2 ≤ length bytes.now }
    ensures value { result ≡ icmpv4_len_in bytes.now }
{
    if bytes[1] == 0 && (bytes[0] == 13 || bytes[0] == 14) {
        Icmpv4Header::MAX_LEN
    } else {
        Icmpv4Header::MIN_LEN
    }
}
