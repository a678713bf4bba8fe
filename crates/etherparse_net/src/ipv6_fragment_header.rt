//! The fragment header of IPv6 (RFC 8200 section 4.5).

ghost use Rattle.std.specs.Prelude.{◌≡◌, length};
ghost use Rattle.etherparse_net.specs.Ipv6FragmentHeader.{IsFragmentLayout};
ghost use Rattle.etherparse_net.specs.declared.ipv6_fragment_header.Ipv6FragmentHeader.{
  Ipv6FragmentHeader as Header,
};

use crate::errors::too_short;
use etherparse::err::{Layer, LenError};
use etherparse::{IpFragOffset, IpNumber};

/// A fragment header of IPv6 (RFC 8200 section 4.5). Its reserved bits are not fields.
#[derive(Clone, Copy, Debug, PartialEq, Eq)]
pub struct Ipv6FragmentHeader {
    /// What the fragmented part of the packet begins with: byte 0.
    pub next_header: IpNumber,
    /// Where the fragment stands in that part, in units of 8 bytes: the upper 13 bits of bytes 2
    /// and 3.
    pub fragment_offset: IpFragOffset,
    /// Whether more fragments follow this one: the lowest bit of byte 3.
    pub more_fragments: bool,
    /// Equal in all fragments of one packet: bytes 4 to 7.
    pub identification: u32,
}

impl Ipv6FragmentHeader {
    ghost use Rattle.std.specs.Prelude.{ℕ, ◌≡◌, ◌+◌, ◌*◌, ◌^◌, ◌<◌, ◌∷◌, ◌++◌, List, Ok, Result};
    ghost use Rattle.std.specs.Int.{from_bool, to_be_bytes, w16, w32};
    ghost use Rattle.etherparse.specs.Bytes.{IsBytes};
    ghost use Rattle.etherparse.specs.Reading.{Reads, found_and_rest};
    ghost use Rattle.etherparse_net.specs.Ipv6FragmentHeader.{IsClearedFragmentLayout};
    ghost use Rattle.etherparse_net.specs.Ipv6FragmentHeader.{IsFragmentLayout, RefusesFragment};
    ghost use Rattle.etherparse_net.specs.Ipv6FragmentHeader.{is_part};
    ghost use Rattle.etherparse_net.specs.Ipv6FragmentHeader.{with_fragment_reserved_cleared};

    /// The length of the header, in bytes: 8.
    pub const LEN: usize = 8;

    /// The header at the front of a slice, and all the bytes after it.
    ///
    /// # Errors
    ///
    /// A `LenError` if the slice has fewer than 8 bytes.
    ///
    /// # Example
    ///
    /// ```
    /// // A fragment that is not the first, and not the last.
    /// let slice = [17, 0, 0, 9, 1, 2, 3, 4, 5, 6, 7, 8];
    /// let (header, rest) = Ipv6FragmentHeader::from_slice(&slice)?;
    /// assert!(rt; header.is_fragmenting_payload() && header.more_fragments);
    /// assert!(rt; header.fragment_offset.byte_offset() == 8);
    /// assert!(rt; rest == [5, 6, 7, 8].as_slice());
    /// ```
    pub fn from_slice(slice: &[u8]) -> Result<(Ipv6FragmentHeader, &[u8]), LenError>
        ensures reads { Reads IsFragmentLayout RefusesFragment slice.now (found_and_rest result) }
        ensures only { (other : Result (Header × List ℕ) LenError) →
            Reads IsFragmentLayout RefusesFragment slice.now other →
            other ≡ found_and_rest result }
    {
        if slice.len() < Ipv6FragmentHeader::LEN {
            return Err(too_short(Layer::Ipv6FragHeader, Ipv6FragmentHeader::LEN, slice.len()));
        }
        let (front, rest) = (
            &slice[..Ipv6FragmentHeader::LEN],
            &slice[Ipv6FragmentHeader::LEN..],
        );
        Ok((header_of(front), rest))
    }

    /// Whether the payload is a fragment: more fragments follow it, or its offset is not 0.
    pub fn is_fragmenting_payload(&self) -> bool
        ensures value { result ≡ is_part self.now }
    {
        self.more_fragments || self.fragment_offset.value() != 0
    }

    /// The 8 bytes of the header. All that is reserved is written as 0: byte 1, and the second and
    /// third lowest bits of byte 3.
    ///
    /// # Example
    ///
    /// ```
    /// // What is reserved in bytes 1 and 3 is not kept.
    /// let slice = [17, 255, 0, 0x0f, 1, 2, 3, 4];
    /// let (header, _) = Ipv6FragmentHeader::from_slice(&slice)?;
    /// assert!(rt; header.to_bytes() == [17, 0, 0, 9, 1, 2, 3, 4]);
    /// ```
    pub fn to_bytes(&self) -> [u8; 8]
        ensures layout { IsClearedFragmentLayout self.now result }
        ensures only { (bytes : List ℕ) → IsClearedFragmentLayout self.now bytes → bytes ≡ result }
        ensures read_again { (rest : List ℕ) →
            Reads IsFragmentLayout RefusesFragment (result ++ rest) (Ok (self.now, rest)) }

        // Bytes that are read as this header are written back, with all that is reserved 0.
        ensures cleared { (bytes : List ℕ) → IsFragmentLayout self.now bytes →
            result ≡ with_fragment_reserved_cleared bytes }
    {
        self.fields()
    }

    // The fields in their order, with zeros for what is reserved.
    fn fields(&self) -> [u8; 8]
        ensures value { result ≡ self.now.next_header ∷ 0
            ∷ (to_be_bytes w16 (self.now.fragment_offset * 2 ^ 3
            + from_bool self.now.more_fragments)
            ++ to_be_bytes w32 self.now.identification) }
        ensures are_bytes { IsBytes result }
        ensures fragment_offset { self.now.fragment_offset < 2 ^ 13 }
        ensures identification { self.now.identification < 2 ^ 32 }
    {
        let (next_header, identification) = (self.next_header.0, self.identification);
        let offset = self.fragment_offset.value() << 3;
        let [c, d] = (offset + u16::from(self.more_fragments)).to_be_bytes();
        let [e, f, g, h] = identification.to_be_bytes();
        [next_header, 0, c, d, e, f, g, h]
    }
}

const _: () = prove!(Ipv6FragmentHeader::LEN == 8);

// The header of 8 bytes.
pub(crate) fn header_of(bytes: &[u8]) -> Ipv6FragmentHeader
    requires { length bytes.now ≡ 8 }
    ensures layout { IsFragmentLayout result bytes.now }
{
    let word = u16::from_be_bytes([bytes[2], bytes[3]]);
    Ipv6FragmentHeader {
        next_header: IpNumber(bytes[0]),
        fragment_offset: IpFragOffset::try_new(word >> 3).unwrap(),
        more_fragments: word % 2 == 1,
        identification: u32::from_be_bytes([bytes[4], bytes[5], bytes[6], bytes[7]]),
    }
}
