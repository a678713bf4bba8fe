//! A view of an authentication header.

ghost use Rattle.std.specs.Prelude.{◌≡◌, ◌≢◌, length, slice_index};
ghost use Rattle.etherparse.specs.Bytes.{IsBytes};
ghost use Rattle.etherparse_net.specs.IpAuthHeader.{auth_len_of};

use crate::err::ip_auth::{HeaderError, HeaderSliceError};
use crate::errors::too_short;
use crate::{IpAuthHeader, IpAuthIcv};
use etherparse::IpNumber;
use etherparse::err::Layer;

/// A view of the bytes of an authentication header (RFC 4302 section 2). It keeps the two reserved
/// bytes, which are no field of an [`IpAuthHeader`].
///
/// In IPv6 the header has to be a multiple of 8 bytes long (RFC 4302 section 2.6). A view of
/// another length is made too: compare `slice().len() % 8` with 0 if the header stands in an IPv6
/// packet.
///
/// # Example
///
/// ```
/// let slice = [6, 2, 0, 0, 0, 0, 1, 0, 0, 0, 0, 1, 9, 8, 7, 6, 0x12];
/// let view = IpAuthHeaderSlice::from_slice(&slice)?;
/// assert!(rt; view.next_header() == IpNumber::TCP);
/// assert!(rt; (view.spi(), view.sequence_number()) == (256, 1));
/// assert!(rt; view.raw_icv() == [9, 8, 7, 6].as_slice());
/// ```
#[derive(Clone, Copy, Debug, PartialEq, Eq)]
pub struct IpAuthHeaderSlice<'a> {
    /// The bytes of the header: 12 to 1028, in words of 4.
    pub slice: &'a [u8],
    // What every view keeps, and what every struct literal of a view has to prove.
    pub ghost len: { length slice.now ≡ auth_len_of slice.now },
    pub ghost payload_len: { slice_index slice.now 1 ≢ 0 },
    pub ghost are_bytes: { IsBytes slice.now },
}

impl<'a> IpAuthHeaderSlice<'a> {
    ghost use Rattle.std.specs.Prelude.{ℕ, ◌≡◌, List, Result, drop, length};
    ghost use Rattle.std.specs.Prelude.{slice_index, slice_range};
    ghost use Rattle.std.specs.Int.{from_be_bytes, w32};
    ghost use Rattle.std.specs.Result.{result_map_both};
    ghost use Rattle.etherparse_net.specs.IpAuthHeader.{IsAuthLayout, IsClearedAuthLayout};
    ghost use Rattle.etherparse_net.specs.IpAuthHeader.{ViewsAuth, auth_len_of};
    ghost use Rattle.etherparse_net.specs.IpAuthIcv.{IsIcvLen};
    ghost use Rattle.etherparse_net.specs.IpAuthHeader.{with_auth_reserved_cleared};
    ghost use Rattle.etherparse_net.specs.declared.ip_auth_header.IpAuthHeader.{
      IpAuthHeader as Header,
    };

    /// A view of the header at the front of a slice. What follows it begins at `slice[len..]`,
    /// where `len` is `view.slice().len()`. The integrity check value is not tested.
    ///
    /// # Errors
    ///
    /// In this order: `Len` if the slice has fewer than 12 bytes; `Content` if the payload length
    /// is 0; `Len` if the slice has fewer bytes than the payload length says.
    pub fn from_slice(slice: &'a [u8]) -> Result<IpAuthHeaderSlice<'a>, HeaderSliceError>
        ensures views { ViewsAuth slice.now
            (result_map_both (λ view. view.slice.now) (λ e. e) result) }
        ensures only { (other : Result (List ℕ) HeaderSliceError) → ViewsAuth slice.now other →
            other ≡ result_map_both (λ view. view.slice.now) (λ e. e) result }
    {
        if slice.len() < IpAuthHeader::MIN_LEN {
            return Err(HeaderSliceError::Len(too_short(
                Layer::IpAuthHeader,
                IpAuthHeader::MIN_LEN,
                slice.len(),
            )));
        }
        if slice[1] == 0 {
            return Err(HeaderSliceError::Content(HeaderError::ZeroPayloadLen));
        }
        let len = 4 * (usize::from(slice[1]) + 2);
        if slice.len() < len {
            return Err(HeaderSliceError::Len(too_short(Layer::IpAuthHeader, len, slice.len())));
        }
        Ok(IpAuthHeaderSlice {
            slice: &slice[..len],
        })
    }

    /// The bytes of the header, which live as long as the slice that was read.
    pub fn slice(&self) -> &'a [u8]
        ensures value { result.now ≡ self.now.slice.now }
        ensures len { length result.now ≡ auth_len_of result.now }
    {
        self.slice
    }

    /// The number of what follows the header: byte 0.
    pub fn next_header(&self) -> IpNumber
        ensures byte_0 { result ≡ slice_index self.now.slice.now 0 }
    {
        IpNumber(self.slice[0])
    }

    /// The security parameters index: bytes 4 to 7.
    pub fn spi(&self) -> u32
        ensures bytes_4_to_7 { result ≡ from_be_bytes w32 (slice_range self.now.slice.now 4 8) }
    {
        let bytes = self.slice;
        u32::from_be_bytes([bytes[4], bytes[5], bytes[6], bytes[7]])
    }

    /// The sequence number, which a sender increments by one for each packet: bytes 8 to 11.
    pub fn sequence_number(&self) -> u32
        ensures bytes_8_to_11 { result ≡ from_be_bytes w32 (slice_range self.now.slice.now 8 12) }
    {
        let bytes = self.slice;
        u32::from_be_bytes([bytes[8], bytes[9], bytes[10], bytes[11]])
    }

    /// The integrity check value: all from byte 12 on, 0 to 1016 bytes.
    pub fn raw_icv(&self) -> &'a [u8]
        ensures from_byte_12 { result.now ≡ drop 12 self.now.slice.now }
        ensures icv_len { IsIcvLen (length result.now) }
    {
        &self.slice[IpAuthHeader::MIN_LEN..]
    }

    /// The header whose layout the bytes have, whatever the reserved bytes are.
    pub fn to_header(&self) -> IpAuthHeader
        ensures layout { IsAuthLayout result self.now.slice.now }
        ensures only { (header : Header) → IsAuthLayout header self.now.slice.now →
            header ≡ result }

        // It is written as these bytes, with the reserved ones 0.
        ensures cleared { IsClearedAuthLayout result
            (with_auth_reserved_cleared self.now.slice.now) }
    {
        IpAuthHeader {
            next_header: self.next_header(),
            spi: self.spi(),
            sequence_number: self.sequence_number(),
            icv: IpAuthIcv::copy_of(self.raw_icv()),
        }
    }
}
