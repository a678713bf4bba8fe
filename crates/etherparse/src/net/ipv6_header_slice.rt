ghost use Rattle.std.specs.Prelude.{◌≡◌, length};
ghost use Rattle.etherparse_base.specs.Bytes.{IsBytes};
ghost use Rattle.etherparse.specs.FirstByte.{version_of};

use crate::err::ipv6::{HeaderError, HeaderSliceError};
use crate::err::{Layer, LenError};
use crate::{IpDscp, IpEcn, IpNumber, Ipv6FlowLabel, Ipv6Header, LenSource};

/// A view of the bytes of an IPv6 header without its extension headers (RFC 8200 section 3), whose
/// layout is drawn at [`Ipv6Header`].
///
/// # Example
///
/// ```
/// // A payload of 4 bytes, the number of UDP, a hop limit of 64, and addresses of zeros.
/// let mut packet = [0; 44];
/// [packet[0], packet[5], packet[6], packet[7]] = [0x60, 4, 17, 64];
/// let view = Ipv6HeaderSlice::from_slice(&packet)?;
/// assert!(rt; view.next_header() == IpNumber::UDP);
/// assert!(rt; view.hop_limit() == 64);
/// ```
#[derive(Clone, Copy, Debug, PartialEq, Eq)]
pub struct Ipv6HeaderSlice<'a> {
    /// The 40 bytes of the header.
    pub slice: &'a [u8],
    // What every view keeps, and what every struct literal of a view has to prove.
    pub ghost len: { length slice.now ≡ 40 },
    pub ghost version: { version_of slice.now ≡ 6 },
    pub ghost are_bytes: { IsBytes slice.now },
}

impl<'a> Ipv6HeaderSlice<'a> {
    ghost use Rattle.std.specs.Prelude.{ℕ, ◌≡◌, ◌+◌, ◌*◌, ◌/◌, ◌%◌, ◌^◌, List, Result, IsOkAnd};
    ghost use Rattle.std.specs.Prelude.{slice_index, slice_range};
    ghost use Rattle.std.specs.Int.{from_be_bytes, w16};
    ghost use Rattle.std.specs.Result.{result_map_both};
    ghost use Rattle.etherparse.specs.Ipv6Header.{IsIpv6Layout, OfIpv6Header, ViewsIpv6};
    ghost use Rattle.etherparse.specs.Reading.{BeginsWith};
    ghost use Rattle.etherparse.specs.declared.net.ipv6_header.Ipv6Header.{Ipv6Header as Header};
    ghost use Rattle.etherparse_fields.specs.IpEcn.{ecn_value};

    /// A view of the header at the front of a slice. What follows it begins at `slice[40..]`, and
    /// may be more or fewer bytes than [`Ipv6HeaderSlice::payload_length`] says.
    ///
    /// # Errors
    ///
    /// `Len` if the slice has fewer than 40 bytes; otherwise `Content` if the version is not 6.
    pub fn from_slice(slice: &'a [u8]) -> Result<Ipv6HeaderSlice<'a>, HeaderSliceError>
        ensures views { ViewsIpv6 slice.now
            (result_map_both (λ view. view.slice.now) (λ e. e) result) }
        ensures only { (other : Result (List ℕ) HeaderSliceError) → ViewsIpv6 slice.now other →
            other ≡ result_map_both (λ view. view.slice.now) (λ e. e) result }
        ensures shows { (header : Header) → (rest : List ℕ) →
            BeginsWith IsIpv6Layout slice.now header rest →
            IsOkAnd result (λ view. IsIpv6Layout header view.slice.now) }
    {
        if slice.len() < Ipv6Header::LEN {
            return Err(HeaderSliceError::Len(LenError {
                required_len: Ipv6Header::LEN,
                len: slice.len(),
                len_source: LenSource::Slice,
                layer: Layer::Ipv6Header,
                layer_start_offset: 0,
            }));
        }
        let version_number = slice[0] >> 4;
        if version_number != 6 {
            return Err(HeaderSliceError::Content(HeaderError::UnexpectedVersion {
                version_number,
            }));
        }
        Ok(Ipv6HeaderSlice {
            slice: &slice[..Ipv6Header::LEN],
        })
    }

    /// The bytes of the header, which live as long as the slice that was read.
    #[inline]
    pub fn slice(&self) -> &'a [u8]
        ensures value { result.now ≡ self.now.slice.now }
    {
        self.slice
    }

    /// The version, which is 6: the upper half of byte 0.
    #[inline]
    pub fn version(&self) -> u8
        ensures value { result ≡ 6 }
    {
        self.slice[0] >> 4
    }

    /// The traffic class: the lower half of byte 0 and the upper half of byte 1.
    #[inline]
    pub fn traffic_class(&self) -> u8
        ensures value { OfIpv6Header self.now.slice.now (λ header. result ≡ header.traffic_class) }
        ensures bytes_0_1 { result ≡ (slice_index self.now.slice.now 0 * 2 ^ 8
            + slice_index self.now.slice.now 1) / 2 ^ 4 % 2 ^ 8 }
    {
        (self.slice[0] & 0xf) * 16 + (self.slice[1] >> 4)
    }

    /// The explicit congestion notification: the lower 2 bits of the traffic class (RFC 3168
    /// section 5).
    #[inline]
    pub fn ecn(&self) -> IpEcn
        ensures value { OfIpv6Header self.now.slice.now (λ header.
            ecn_value result ≡ header.traffic_class % 2 ^ 2) }
    {
        IpEcn::try_new(self.traffic_class() & 0b11).unwrap()
    }

    /// The differentiated services code point: the upper 6 bits of the traffic class (RFC 2474
    /// section 3).
    #[inline]
    pub fn dscp(&self) -> IpDscp
        ensures value { OfIpv6Header self.now.slice.now (λ header.
            result ≡ header.traffic_class / 2 ^ 2) }
    {
        IpDscp::try_new(self.traffic_class() >> 2).unwrap()
    }

    /// The flow label: the lower half of byte 1, and bytes 2 and 3.
    #[inline]
    pub fn flow_label(&self) -> Ipv6FlowLabel
        ensures value { OfIpv6Header self.now.slice.now (λ header. result ≡ header.flow_label) }
        ensures bytes_1_to_3 { result ≡ slice_index self.now.slice.now 1 % 2 ^ 4 * 2 ^ 16
            + slice_index self.now.slice.now 2 * 2 ^ 8 + slice_index self.now.slice.now 3 }
    {
        let bytes = [0, self.slice[1] & 0xf, self.slice[2], self.slice[3]];
        Ipv6FlowLabel::try_new(u32::from_be_bytes(bytes)).unwrap()
    }

    /// The payload length in bytes: bytes 4 and 5.
    #[inline]
    pub fn payload_length(&self) -> u16
        ensures value { OfIpv6Header self.now.slice.now (λ header. result ≡ header.payload_length) }
        ensures bytes_4_5 { result ≡ from_be_bytes w16 (slice_range self.now.slice.now 4 6) }
    {
        u16::from_be_bytes([self.slice[4], self.slice[5]])
    }

    /// What follows the header: byte 6.
    #[inline]
    pub fn next_header(&self) -> IpNumber
        ensures value { OfIpv6Header self.now.slice.now (λ header. result ≡ header.next_header) }
        ensures byte_6 { result ≡ slice_index self.now.slice.now 6 }
    {
        IpNumber(self.slice[6])
    }

    /// The hop limit: byte 7.
    #[inline]
    pub fn hop_limit(&self) -> u8
        ensures value { OfIpv6Header self.now.slice.now (λ header. result ≡ header.hop_limit) }
        ensures byte_7 { result ≡ slice_index self.now.slice.now 7 }
    {
        self.slice[7]
    }

    /// The source address: bytes 8 to 23.
    #[inline]
    pub fn source(&self) -> [u8; 16]
        ensures value { OfIpv6Header self.now.slice.now (λ header. result ≡ header.source) }
        ensures bytes_8_to_23 { result ≡ slice_range self.now.slice.now 8 24 }
    {
        *self.slice[8..24].first_chunk::<16>().unwrap()
    }

    /// The destination address: bytes 24 to 39.
    #[inline]
    pub fn destination(&self) -> [u8; 16]
        ensures value { OfIpv6Header self.now.slice.now (λ header. result ≡ header.destination) }
        ensures bytes_24_to_39 { result ≡ slice_range self.now.slice.now 24 40 }
    {
        *self.slice[24..].first_chunk::<16>().unwrap()
    }

    /// The header whose layout the bytes have.
    pub fn to_header(&self) -> Ipv6Header
        ensures layout { IsIpv6Layout result self.now.slice.now }
        ensures only { OfIpv6Header self.now.slice.now (λ header. header ≡ result) }
    {
        Ipv6Header {
            traffic_class: self.traffic_class(),
            flow_label: self.flow_label(),
            payload_length: self.payload_length(),
            next_header: self.next_header(),
            hop_limit: self.hop_limit(),
            source: self.source(),
            destination: self.destination(),
        }
    }

    /// The length of the header, which is 40 bytes for every header.
    #[inline]
    pub fn header_len(&self) -> usize
        ensures value { result ≡ 40 }
    {
        Ipv6Header::LEN
    }
}
