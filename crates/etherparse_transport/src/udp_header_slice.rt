//! A view of a UDP header (RFC 768).

ghost use Rattle.std.specs.Prelude.{◌≡◌, length};
ghost use Rattle.etherparse.specs.Bytes.{IsBytes};

use crate::UdpHeader;
use crate::udp::{header_of, too_short};
use etherparse::err::LenError;

/// A view of the 8 bytes of a UDP header (RFC 768). Its length field is not compared with anything.
///
/// # Example
///
/// ```
/// let datagram = [4, 0, 0, 53, 0, 12, 0x91, 0xae, b't', b'e', b's', b't'];
/// let view = UdpHeaderSlice::from_slice(&datagram)?;
/// assert!(rt; (view.source_port(), view.destination_port()) == (1024, 53));
/// assert!(rt; (view.length(), view.checksum()) == (12, 0x91ae));
/// assert!(rt; view.to_header() == UdpHeader::from_slice(view.slice())?.0);
/// ```
#[derive(Clone, Copy, Debug, PartialEq, Eq)]
pub struct UdpHeaderSlice<'a> {
    /// The 8 bytes of the header.
    pub slice: &'a [u8],
    // What every view keeps.
    pub ghost len: { length slice.now ≡ 8 },
    pub ghost are_bytes: { IsBytes slice.now },
}

impl<'a> UdpHeaderSlice<'a> {
    ghost use Rattle.std.specs.Prelude.{ℕ, ◌≡◌, List, Result, slice_range};
    ghost use Rattle.std.specs.Int.{from_be_bytes, w16};
    ghost use Rattle.std.specs.Result.{result_map_both};
    ghost use Rattle.etherparse.specs.declared.err.LenError.{LenError as Refused};
    ghost use Rattle.etherparse_transport.specs.Udp.{IsUdpLayout};
    ghost use Rattle.etherparse_transport.specs.UdpView.{ViewsUdp};
    ghost use Rattle.etherparse_transport.specs.declared.udp.UdpHeader.{UdpHeader as Header};

    /// A view of the header at the front of a slice.
    ///
    /// # Errors
    ///
    /// A `LenError` if the slice has fewer than 8 bytes.
    pub fn from_slice(slice: &'a [u8]) -> Result<UdpHeaderSlice<'a>, LenError>
        ensures views { ViewsUdp slice.now
            (result_map_both (λ view. view.slice.now) (λ e. e) result) }
        ensures only { (other : Result (List ℕ) Refused) → ViewsUdp slice.now other →
            other ≡ result_map_both (λ view. view.slice.now) (λ e. e) result }
    {
        if slice.len() < UdpHeader::LEN {
            return Err(too_short(slice.len()));
        }
        Ok(UdpHeaderSlice {
            slice: &slice[..UdpHeader::LEN],
        })
    }

    /// The bytes of the header, which live as long as the slice that was read.
    pub fn slice(&self) -> &'a [u8]
        ensures value { result.now ≡ self.now.slice.now }
    {
        self.slice
    }

    /// The source port: bytes 0 and 1.
    pub fn source_port(&self) -> u16
        ensures bytes_0_1 { result ≡ from_be_bytes w16 (slice_range self.now.slice.now 0 2) }
    {
        u16::from_be_bytes([self.slice[0], self.slice[1]])
    }

    /// The destination port: bytes 2 and 3.
    pub fn destination_port(&self) -> u16
        ensures bytes_2_3 { result ≡ from_be_bytes w16 (slice_range self.now.slice.now 2 4) }
    {
        u16::from_be_bytes([self.slice[2], self.slice[3]])
    }

    /// The length of the header and the payload in bytes, as it was received: bytes 4 and 5.
    pub fn length(&self) -> u16
        ensures bytes_4_5 { result ≡ from_be_bytes w16 (slice_range self.now.slice.now 4 6) }
    {
        u16::from_be_bytes([self.slice[4], self.slice[5]])
    }

    /// The checksum as it was received, or 0 if there is none: bytes 6 and 7.
    pub fn checksum(&self) -> u16
        ensures bytes_6_7 { result ≡ from_be_bytes w16 (slice_range self.now.slice.now 6 8) }
    {
        u16::from_be_bytes([self.slice[6], self.slice[7]])
    }

    /// The header whose layout the bytes have.
    pub fn to_header(&self) -> UdpHeader
        ensures layout { IsUdpLayout result self.now.slice.now }
        ensures only { (header : Header) → IsUdpLayout header self.now.slice.now →
            header ≡ result }
    {
        header_of(self.slice)
    }
}
