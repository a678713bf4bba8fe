//! A view of the header of an Ethernet frame.

ghost use Rattle.std.specs.Prelude.{◌≡◌, length};

use crate::ether_type::{EtherType, u16_at};
use crate::ethernet2_header::{Ethernet2Header, header_of};
use etherparse::LenSource;
use etherparse::err::{Layer, LenError};

/// A view of the header of an Ethernet frame (IEEE 802.3 section 3.1.1).
///
/// # Example
///
/// ```
/// // A frame from 2:0:0:0:0:1 to 2:0:0:0:0:2 with the first bytes of an ARP packet.
/// let frame = [2, 0, 0, 0, 0, 2, 2, 0, 0, 0, 0, 1, 8, 6, 0, 1];
/// let header = Ethernet2HeaderSlice::from_slice(&frame)?;
/// assert!(rt; header.destination() == [2, 0, 0, 0, 0, 2]);
/// assert!(rt; header.source() == [2, 0, 0, 0, 0, 1]);
/// assert!(rt; header.ether_type() == EtherType::ARP);
/// ```
#[derive(Clone, Copy, Debug, PartialEq, Eq)]
pub struct Ethernet2HeaderSlice<'a> {
    /// The 14 bytes of the header.
    pub slice: &'a [u8],
    // What every view keeps.
    pub ghost len: { length slice.now ≡ 14 },
}

impl<'a> Ethernet2HeaderSlice<'a> {
    ghost use Rattle.std.specs.Prelude.{ℕ, ◌≡◌, List, Result, slice_range};
    ghost use Rattle.std.specs.Result.{result_map_both};
    ghost use Rattle.etherparse.specs.Reading.{Views};
    ghost use Rattle.etherparse_link.specs.Bytes.{IsOnlyHeader, number_at};
    ghost use Rattle.etherparse_link.specs.Ethernet2Header.{IsEthernet2Layout, RefusesEthernet2};

    /// A view of the header at the front of a slice.
    ///
    /// # Errors
    ///
    /// A `LenError` if the slice has fewer than 14 bytes.
    pub fn from_slice(slice: &'a [u8]) -> Result<Ethernet2HeaderSlice<'a>, LenError>
        ensures views { Views IsEthernet2Layout RefusesEthernet2 slice.now
            (result_map_both (λ view. view.slice.now) (λ e. e) result) }
        ensures only { (other : Result (List ℕ) LenError) →
            Views IsEthernet2Layout RefusesEthernet2 slice.now other →
            other ≡ result_map_both (λ view. view.slice.now) (λ e. e) result }
    {
        if slice.len() < Ethernet2Header::LEN {
            return Err(LenError {
                required_len: Ethernet2Header::LEN,
                len: slice.len(),
                len_source: LenSource::Slice,
                layer: Layer::Ethernet2Header,
                layer_start_offset: 0,
            });
        }
        Ok(Ethernet2HeaderSlice {
            slice: &slice[..Ethernet2Header::LEN],
        })
    }

    /// The bytes of the header, which live as long as the slice that was read.
    pub fn slice(&self) -> &'a [u8]
        ensures value { result.now ≡ self.now.slice.now }
    {
        self.slice
    }

    /// The header of these bytes.
    pub fn to_header(&self) -> Ethernet2Header
        ensures layout { IsEthernet2Layout result self.now.slice.now }
        ensures only { IsOnlyHeader IsEthernet2Layout result self.now.slice.now }
    {
        header_of(self.slice)
    }

    /// Who receives the frame: bytes 0 to 5.
    pub fn destination(&self) -> [u8; 6]
        ensures bytes_0_to_5 { result ≡ slice_range self.now.slice.now 0 6 }
    {
        let s = self.slice;
        [s[0], s[1], s[2], s[3], s[4], s[5]]
    }

    /// Who sent the frame: bytes 6 to 11.
    pub fn source(&self) -> [u8; 6]
        ensures bytes_6_to_11 { result ≡ slice_range self.now.slice.now 6 12 }
    {
        let s = self.slice;
        [s[6], s[7], s[8], s[9], s[10], s[11]]
    }

    /// What follows the header: bytes 12 and 13.
    pub fn ether_type(&self) -> EtherType
        ensures bytes_12_13 { result ≡ number_at 12 self.now.slice.now }
    {
        EtherType(u16_at(self.slice, 12))
    }
}
