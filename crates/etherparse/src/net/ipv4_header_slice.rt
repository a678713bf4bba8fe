ghost use Rattle.std.specs.Prelude.{◌≡◌, ◌*◌, ◌<◌, ◌≤◌, length, IfOk, IfErr};
ghost use Rattle.etherparse_base.specs.Bytes.{IsBytes};
ghost use Rattle.etherparse_base.specs.declared.err.layer.Layer.TheVariants as layer;
ghost use Rattle.etherparse_fields.specs.Ipv4Options.{IsOptionsLen};
ghost use Rattle.etherparse.specs.FirstByte.{ihl_of, version_of};
ghost use Rattle.etherparse.specs.Ipv4Header.{RefusesIpv4};
ghost use Rattle.etherparse.specs.Reading.{too_short_error};

use super::ipv4_payload_len::payload_len_between;
use crate::err::ipv4::{HeaderError, HeaderSliceError};
use crate::err::{Layer, LenError};
use crate::{IpDscp, IpEcn, IpFragOffset, IpNumber, Ipv4Header, Ipv4Options, LenSource};

/// A view of the bytes of an IPv4 header with its options (RFC 791 section 3.1), whose layout is
/// drawn at [`Ipv4Header`].
///
/// It keeps the reserved bit, for which an [`Ipv4Header`] has no field.
///
/// # Example
///
/// ```
/// let packet = [
///     0x45, 0, 0, 24, 0, 0, 0x40, 0, 64, 17, 0, 0, 10, 0, 0, 1, 10, 0, 0, 2, 1, 2, 3, 4,
/// ];
/// let view = Ipv4HeaderSlice::from_slice(&packet)?;
/// assert!(rt; view.source() == [10, 0, 0, 1]);
/// assert!(rt; view.payload_len() == Ok(4));
/// ```
#[derive(Clone, Copy, Debug, PartialEq, Eq)]
pub struct Ipv4HeaderSlice<'a> {
    /// The bytes of the header: 20, and those of the options.
    pub slice: &'a [u8],
    // What every view keeps, and what every struct literal of a view has to prove.
    pub ghost version: { version_of slice.now ≡ 4 },
    pub ghost ihl: { 5 ≤ ihl_of slice.now },
    pub ghost len: { length slice.now ≡ 4 * ihl_of slice.now },
    pub ghost are_bytes: { IsBytes slice.now },
}

impl<'a> Ipv4HeaderSlice<'a> {
    ghost use Rattle.std.specs.Prelude.{ℕ, ◌≡◌, ◌%◌, ◌≤◌, ◌↔◌, List, Result, IsOkAnd, IsTrue};
    ghost use Rattle.std.specs.Prelude.{drop, length, slice_index, slice_range};
    ghost use Rattle.std.specs.Int.{from_be_bytes, w16};
    ghost use Rattle.std.specs.Result.{result_map_both};
    ghost use Rattle.etherparse.specs.Ipv4Header.{IsIpv4Layout, IsFragment, IsIpv4LayoutWith};
    ghost use Rattle.etherparse.specs.Ipv4Header.{OfIpv4Header, ViewsIpv4, ipv4_ihl};
    ghost use Rattle.etherparse.specs.Ipv4Header.{ipv4_payload_len, with_reserved_bit_cleared};
    ghost use Rattle.etherparse.specs.Reading.{BeginsWith};
    ghost use Rattle.etherparse.specs.declared.net.ipv4_header.Ipv4Header.{Ipv4Header as Header};

    /// A view of the header at the front of a slice. What follows it begins at `slice[len..]`,
    /// where `len` is `view.slice().len()`; [`Ipv4HeaderSlice::payload_len`] says how many of these
    /// bytes are the payload. The checksum is not tested.
    ///
    /// # Errors
    ///
    /// In this order: `Len` if the slice has fewer than 20 bytes; `Content` if the version is not
    /// 4, or the IHL is below 5; `Len` if the slice has fewer bytes than the IHL says.
    #[inline(always)]
    pub fn from_slice(slice: &'a [u8]) -> Result<Ipv4HeaderSlice<'a>, HeaderSliceError>
        ensures views { ViewsIpv4 slice.now
            (result_map_both (λ view. view.slice.now) (λ e. e) result) }
        ensures only { (other : Result (List ℕ) HeaderSliceError) → ViewsIpv4 slice.now other →
            other ≡ result_map_both (λ view. view.slice.now) (λ e. e) result }
        ensures shows { (header : Header) → (rest : List ℕ) →
            BeginsWith IsIpv4Layout slice.now header rest →
            IsOkAnd result (λ view. IsIpv4Layout header view.slice.now) }
    {
        let header_len = match header_len(slice) {
            Ok(header_len) => header_len,
            Err(e) => return Err(HeaderSliceError::Content(e)),
        };
        if slice.len() < header_len {
            return Err(length_error(header_len, slice.len()));
        }
        Ok(Ipv4HeaderSlice {
            slice: &slice[..header_len],
        })
    }

    /// The bytes of the header, which live as long as the slice that was read.
    #[inline]
    pub fn slice(&self) -> &'a [u8]
        ensures value { result.now ≡ self.now.slice.now }
    {
        self.slice
    }

    /// The version, which is 4: the upper half of byte 0.
    #[inline]
    pub fn version(&self) -> u8
        ensures value { result ≡ 4 }
    {
        self.slice[0] >> 4
    }

    /// The length of the header in words of 4 bytes, 5 to 15: the lower half of byte 0.
    #[inline]
    pub fn ihl(&self) -> u8
        ensures value { OfIpv4Header self.now.slice.now (λ header. result ≡ ipv4_ihl header) }
        ensures lower_half_of_byte_0 { result ≡ ihl_of self.now.slice.now }
    {
        self.slice[0] & 0xf
    }

    /// The differentiated services code point: the upper 6 bits of byte 1.
    #[inline]
    pub fn dcp(&self) -> IpDscp
        ensures value { OfIpv4Header self.now.slice.now (λ header. result ≡ header.dscp) }
    {
        IpDscp::try_new(self.slice[1] >> 2).unwrap()
    }

    /// The explicit congestion notification: the lower 2 bits of byte 1.
    #[inline]
    pub fn ecn(&self) -> IpEcn
        ensures value { OfIpv4Header self.now.slice.now (λ header. result ≡ header.ecn) }
    {
        IpEcn::try_new(self.slice[1] & 0b11).unwrap()
    }

    /// The length of the header and what follows it, in bytes: bytes 2 and 3.
    #[inline]
    pub fn total_len(&self) -> u16
        ensures value { OfIpv4Header self.now.slice.now (λ header. result ≡ header.total_len) }
        ensures bytes_2_3 { result ≡ from_be_bytes w16 (slice_range self.now.slice.now 2 4) }
    {
        u16::from_be_bytes([self.slice[2], self.slice[3]])
    }

    /// The length of the payload in bytes: the total length less the header length.
    ///
    /// # Errors
    ///
    /// A `LenError` if the total length is below the length of the header: `len` is then the total
    /// length, `required_len` the header length.
    #[inline]
    pub fn payload_len(&self) -> Result<u16, LenError>
        ensures value { OfIpv4Header self.now.slice.now (λ header.
            result ≡ ipv4_payload_len header) }
    {
        payload_len_between(self.slice.len() as u16, self.total_len())
    }

    /// Equal in all fragments of one packet: bytes 4 and 5.
    #[inline]
    pub fn identification(&self) -> u16
        ensures value { OfIpv4Header self.now.slice.now (λ header. result ≡ header.identification) }
        ensures bytes_4_5 { result ≡ from_be_bytes w16 (slice_range self.now.slice.now 4 6) }
    {
        u16::from_be_bytes([self.slice[4], self.slice[5]])
    }

    /// Whether the packet must not be cut into fragments: the second highest bit of byte 6.
    #[inline]
    pub fn dont_fragment(&self) -> bool
        ensures value { OfIpv4Header self.now.slice.now (λ header. result ≡ header.dont_fragment) }
    {
        self.slice[6] & 0x40 != 0
    }

    /// Whether more fragments follow this one: the third highest bit of byte 6.
    #[inline]
    pub fn more_fragments(&self) -> bool
        ensures value { OfIpv4Header self.now.slice.now (λ header. result ≡ header.more_fragments) }
    {
        self.slice[6] & 0x20 != 0
    }

    /// Where the fragment stands in the packet, in units of 8 bytes: the lower 5 bits of byte 6,
    /// and byte 7.
    #[inline]
    pub fn fragments_offset(&self) -> IpFragOffset
        ensures value { OfIpv4Header self.now.slice.now (λ header.
            result ≡ header.fragment_offset) }
    {
        let bytes = [self.slice[6] & 0x1f, self.slice[7]];
        IpFragOffset::try_new(u16::from_be_bytes(bytes)).unwrap()
    }

    /// Whether the payload is a fragment: more fragments follow it, or its offset is not 0.
    #[inline]
    pub fn is_fragmenting_payload(&self) -> bool
        ensures value { OfIpv4Header self.now.slice.now (λ header.
            IsTrue result ↔ IsFragment header) }
    {
        // The flag for more fragments and the offset, which are side by side.
        u16::from_be_bytes([self.slice[6], self.slice[7]]) & 0x3fff != 0
    }

    /// The time to live: byte 8.
    #[inline]
    pub fn ttl(&self) -> u8
        ensures value { OfIpv4Header self.now.slice.now (λ header. result ≡ header.time_to_live) }
        ensures byte_8 { result ≡ slice_index self.now.slice.now 8 }
    {
        self.slice[8]
    }

    /// The protocol of what follows the header: byte 9.
    #[inline]
    pub fn protocol(&self) -> IpNumber
        ensures value { OfIpv4Header self.now.slice.now (λ header. result ≡ header.protocol) }
        ensures byte_9 { result ≡ slice_index self.now.slice.now 9 }
    {
        IpNumber(self.slice[9])
    }

    /// The stored checksum, right or wrong: bytes 10 and 11.
    #[inline]
    pub fn header_checksum(&self) -> u16
        ensures value { OfIpv4Header self.now.slice.now (λ header.
            result ≡ header.header_checksum) }
        ensures bytes_10_11 { result ≡ from_be_bytes w16 (slice_range self.now.slice.now 10 12) }
    {
        u16::from_be_bytes([self.slice[10], self.slice[11]])
    }

    /// The source address: bytes 12 to 15.
    #[inline]
    pub fn source(&self) -> [u8; 4]
        ensures value { OfIpv4Header self.now.slice.now (λ header. result ≡ header.source) }
        ensures bytes_12_to_15 { result ≡ slice_range self.now.slice.now 12 16 }
    {
        *self.slice[12..16].first_chunk::<4>().unwrap()
    }

    /// The destination address: bytes 16 to 19.
    #[inline]
    pub fn destination(&self) -> [u8; 4]
        ensures value { OfIpv4Header self.now.slice.now (λ header. result ≡ header.destination) }
        ensures bytes_16_to_19 { result ≡ slice_range self.now.slice.now 16 20 }
    {
        *self.slice[16..20].first_chunk::<4>().unwrap()
    }

    /// The bytes of the options, from byte 20 on, which live as long as the slice that was read.
    #[inline]
    pub fn options(&self) -> &'a [u8]
        ensures value { OfIpv4Header self.now.slice.now (λ header. result.now ≡ header.options) }
        ensures options_len { IsOptionsLen (length result.now) }
        ensures from_byte_20 { result.now ≡ drop 20 self.now.slice.now }
    {
        &self.slice[Ipv4Header::MIN_LEN..]
    }

    /// The header whose layout the bytes have, with either reserved bit.
    #[inline]
    pub fn to_header(&self) -> Ipv4Header
        ensures layout { IsIpv4Layout result self.now.slice.now }
        ensures only { OfIpv4Header self.now.slice.now (λ header. header ≡ result) }

        // It is written as these bytes, with the reserved bit 0.
        ensures cleared { IsIpv4LayoutWith result 0 (with_reserved_bit_cleared self.now.slice.now) }
    {
        self.header_with(options_of(self.options()))
    }

    // The header whose layout the bytes have, with these options.
    #[inline(always)]
    pub(super) fn header_with(&self, options: Ipv4Options) -> Ipv4Header
        requires { options ≡ drop 20 self.now.slice.now }
        ensures layout { IsIpv4Layout result self.now.slice.now }
        ensures only { OfIpv4Header self.now.slice.now (λ header. header ≡ result) }
    {
        Ipv4Header {
            dscp: self.dcp(),
            ecn: self.ecn(),
            total_len: self.total_len(),
            identification: self.identification(),
            dont_fragment: self.dont_fragment(),
            more_fragments: self.more_fragments(),
            fragment_offset: self.fragments_offset(),
            time_to_live: self.ttl(),
            protocol: self.protocol(),
            header_checksum: self.header_checksum(),
            source: self.source(),
            destination: self.destination(),
            options,
        }
    }
}

// The length of the header at the front of a slice, or 20 if the slice has fewer than 20 bytes.
#[inline(always)]
fn header_len(slice: &[u8]) -> Result<usize, HeaderError>
    ensures whole { IfOk result (λ len. len ≤ length slice.now → (version_of slice.now ≡ 4)
        × (5 ≤ ihl_of slice.now) × (len ≡ 4 * ihl_of slice.now)) }
    ensures too_short { IfOk result (λ len. length slice.now < len → RefusesIpv4 slice.now
        (HeaderSliceError.Len (too_short_error layer.Ipv4Header len (length slice.now)))) }
    ensures content { IfErr result (λ e. RefusesIpv4 slice.now (HeaderSliceError.Content e)) }
{
    if slice.len() < Ipv4Header::MIN_LEN {
        return Ok(Ipv4Header::MIN_LEN);
    }
    let first = slice[0];
    // Version 4 and an IHL of at least 5 are one range, which the compiler tests by one comparison.
    if first < 0x45 || first > 0x4f {
        let version_number = first >> 4;
        if version_number != 4 {
            return Err(HeaderError::UnexpectedVersion { version_number });
        }
        return Err(HeaderError::HeaderLengthSmallerThanHeader { ihl: first & 0xf });
    }
    Ok(4 * usize::from(first & 0xf))
}

// The error of a slice that is too short for its header.
#[inline(always)]
fn length_error(required_len: usize, len: usize) -> HeaderSliceError
    ensures { result ≡ HeaderSliceError.Len (too_short_error layer.Ipv4Header required_len len) }
{
    HeaderSliceError::Len(LenError {
        required_len,
        len,
        len_source: LenSource::Slice,
        layer: Layer::Ipv4Header,
        layer_start_offset: 0,
    })
}

// The options of these bytes, by words of 4. After the last word, that word is read again, so that
// no branch depends on how many there are.
#[inline(always)]
pub(super) fn options_of(bytes: &[u8]) -> Ipv4Options
    requires { IsOptionsLen (length bytes.now) }
    ensures { result ≡ bytes.now }
{
    if bytes.is_empty() {
        return Ipv4Options::new();
    }
    let last = bytes.len() - 4;
    let mut room = [0; 40];
    for word in 0..10 {
        let place = (4 * word).min(last);
        room[4 * word..4 * word + 4].copy_from_slice(&bytes[place..place + 4]);
    }
    Ipv4Options::from_front(&room, bytes.len())
}
