//! A view of a fragment header of IPv6.

ghost use Rattle.std.specs.Prelude.{◌≡◌, length};
ghost use Rattle.etherparse.specs.Bytes.{IsBytes};
ghost use Rattle.etherparse_net.specs.declared.ipv6_fragment_header.Ipv6FragmentHeader.{
  Ipv6FragmentHeader as Header,
};

use crate::Ipv6FragmentHeader;
use crate::errors::too_short;
use crate::ipv6_fragment_header::header_of;
use etherparse::err::{Layer, LenError};
use etherparse::{IpFragOffset, IpNumber};

/// A view of the 8 bytes of a fragment header of IPv6 (RFC 8200 section 4.5). It keeps the reserved
/// bits, which are no fields of an [`Ipv6FragmentHeader`].
///
/// # Example
///
/// ```
/// // A fragment that is not the first, and not the last.
/// let slice = [17, 0, 0, 9, 1, 2, 3, 4, 5, 6, 7, 8];
/// let view = Ipv6FragmentHeaderSlice::from_slice(&slice)?;
/// assert!(rt; view.next_header() == IpNumber::UDP && view.more_fragments());
/// assert!(rt; view.fragment_offset().byte_offset() == 8);
/// assert!(rt; view.identification() == 0x01020304);
/// ```
#[derive(Clone, Copy, Debug, PartialEq, Eq)]
pub struct Ipv6FragmentHeaderSlice<'a> {
    /// The 8 bytes of the header.
    pub slice: &'a [u8],
    // What every view keeps, and what every struct literal of a view has to prove.
    pub ghost len: { length slice.now ≡ 8 },
    pub ghost are_bytes: { IsBytes slice.now },
}

impl<'a> Ipv6FragmentHeaderSlice<'a> {
    ghost use Rattle.std.specs.Prelude.{ℕ, ◌≡◌, ◌==◌, ◌%◌, List, Result, slice_index, slice_range};
    ghost use Rattle.std.specs.Int.{from_be_bytes, w16, w32};
    ghost use Rattle.std.specs.Result.{result_map_both};
    ghost use Rattle.etherparse_net.specs.Ipv6FragmentHeader.{IsClearedFragmentLayout};
    ghost use Rattle.etherparse_net.specs.Ipv6FragmentHeader.{IsFragmentLayout, ViewsFragment};
    ghost use Rattle.etherparse_net.specs.Ipv6FragmentHeader.{fragment_offset_of, is_part};
    ghost use Rattle.etherparse_net.specs.Ipv6FragmentHeader.{with_fragment_reserved_cleared};

    /// A view of the header at the front of a slice. What follows it begins at `slice[8..]`.
    ///
    /// # Errors
    ///
    /// A `LenError` if the slice has fewer than 8 bytes.
    pub fn from_slice(slice: &'a [u8]) -> Result<Ipv6FragmentHeaderSlice<'a>, LenError>
        ensures views { ViewsFragment slice.now
            (result_map_both (λ view. view.slice.now) (λ e. e) result) }
        ensures only { (other : Result (List ℕ) LenError) → ViewsFragment slice.now other →
            other ≡ result_map_both (λ view. view.slice.now) (λ e. e) result }
    {
        if slice.len() < Ipv6FragmentHeader::LEN {
            return Err(too_short(Layer::Ipv6FragHeader, Ipv6FragmentHeader::LEN, slice.len()));
        }
        Ok(Ipv6FragmentHeaderSlice {
            slice: &slice[..Ipv6FragmentHeader::LEN],
        })
    }

    /// The 8 bytes, which live as long as the slice that was read.
    pub fn slice(&self) -> &'a [u8]
        ensures value { result.now ≡ self.now.slice.now }
    {
        self.slice
    }

    /// What the fragmented part of the packet begins with: byte 0.
    pub fn next_header(&self) -> IpNumber
        ensures byte_0 { result ≡ slice_index self.now.slice.now 0 }
    {
        IpNumber(self.slice[0])
    }

    /// Where the fragment stands in that part, in units of 8 bytes: the upper 13 bits of bytes 2
    /// and 3.
    pub fn fragment_offset(&self) -> IpFragOffset
        ensures upper_13_bits { result ≡ fragment_offset_of self.now.slice.now }
    {
        let word = u16::from_be_bytes([self.slice[2], self.slice[3]]);
        IpFragOffset::try_new(word >> 3).unwrap()
    }

    /// Whether more fragments follow this one: the lowest bit of byte 3.
    pub fn more_fragments(&self) -> bool
        ensures lowest_bit_of_byte_3 { result ≡ (slice_index self.now.slice.now 3 % 2 == 1) }
    {
        self.slice[3] % 2 == 1
    }

    /// Equal in all fragments of one packet: bytes 4 to 7.
    pub fn identification(&self) -> u32
        ensures bytes_4_to_7 { result ≡ from_be_bytes w32 (slice_range self.now.slice.now 4 8) }
    {
        let bytes = self.slice;
        u32::from_be_bytes([bytes[4], bytes[5], bytes[6], bytes[7]])
    }

    /// Whether the payload is a fragment: more fragments follow it, or its offset is not 0.
    pub fn is_fragmenting_payload(&self) -> bool
        ensures value { (header : Header) → IsFragmentLayout header self.now.slice.now →
            result ≡ is_part header }
    {
        self.more_fragments() || self.fragment_offset().value() != 0
    }

    /// The header whose layout the bytes have, whatever the reserved bits are.
    pub fn to_header(&self) -> Ipv6FragmentHeader
        ensures layout { IsFragmentLayout result self.now.slice.now }
        ensures only { (header : Header) → IsFragmentLayout header self.now.slice.now →
            header ≡ result }

        // It is written as these bytes, with all that is reserved 0.
        ensures cleared { IsClearedFragmentLayout result
            (with_fragment_reserved_cleared self.now.slice.now) }
    {
        header_of(self.slice)
    }
}
