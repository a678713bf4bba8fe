//! A view of a VLAN tag.

ghost use Rattle.std.specs.Prelude.{◌≡◌, length};

use crate::ether_type::{EtherType, u16_at};
use crate::single_vlan_header::{SingleVlanHeader, header_of};
use etherparse::LenSource;
use etherparse::err::{Layer, LenError};

/// A view of what follows the EtherType of a VLAN tag: the tag control information, and the
/// EtherType of what is tagged (IEEE 802.1Q sections 9.3 and 9.6).
///
/// # Example
///
/// ```
/// // A tag of VLAN 5 with priority 3, and the first bytes of an ARP packet.
/// let bytes = [0x60, 5, 8, 6, 0, 1];
/// let tag = SingleVlanHeaderSlice::from_slice(&bytes)?;
/// assert!(rt; tag.priority_code_point() == 3 && !tag.drop_eligible_indicator());
/// assert!(rt; tag.vlan_identifier() == 5 && tag.ether_type() == EtherType::ARP);
/// ```
#[derive(Clone, Copy, Debug, PartialEq, Eq)]
pub struct SingleVlanHeaderSlice<'a> {
    /// The 4 bytes.
    pub slice: &'a [u8],
    // What every view keeps.
    pub ghost len: { length slice.now ≡ 4 },
}

impl<'a> SingleVlanHeaderSlice<'a> {
    ghost use Rattle.std.specs.Prelude.{ℕ, ◌≡◌, ◌↔◌, ◌/◌, ◌%◌, ◌^◌, IsTrue, List, Result};
    ghost use Rattle.std.specs.Prelude.{slice_index};
    ghost use Rattle.std.specs.Result.{result_map_both};
    ghost use Rattle.etherparse.specs.Reading.{Views};
    ghost use Rattle.etherparse_link.specs.Bytes.{IsOnlyHeader, number_at};
    ghost use Rattle.etherparse_link.specs.SingleVlanHeader.{IsSingleVlanLayout};
    ghost use Rattle.etherparse_link.specs.SingleVlanHeader.{RefusesSingleVlan};

    /// A view of the header at the front of a slice, which begins after the EtherType of the tag.
    ///
    /// # Errors
    ///
    /// A `LenError` if the slice has fewer than 4 bytes.
    pub fn from_slice(slice: &'a [u8]) -> Result<SingleVlanHeaderSlice<'a>, LenError>
        ensures views { Views IsSingleVlanLayout RefusesSingleVlan slice.now
            (result_map_both (λ view. view.slice.now) (λ e. e) result) }
        ensures only { (other : Result (List ℕ) LenError) →
            Views IsSingleVlanLayout RefusesSingleVlan slice.now other →
            other ≡ result_map_both (λ view. view.slice.now) (λ e. e) result }
    {
        if slice.len() < SingleVlanHeader::LEN {
            return Err(LenError {
                required_len: SingleVlanHeader::LEN,
                len: slice.len(),
                len_source: LenSource::Slice,
                layer: Layer::VlanHeader,
                layer_start_offset: 0,
            });
        }
        Ok(SingleVlanHeaderSlice {
            slice: &slice[..SingleVlanHeader::LEN],
        })
    }

    /// The 4 bytes, which live as long as the slice that was read.
    pub fn slice(&self) -> &'a [u8]
        ensures value { result.now ≡ self.now.slice.now }
    {
        self.slice
    }

    /// The header of these bytes.
    pub fn to_header(&self) -> SingleVlanHeader
        ensures layout { IsSingleVlanLayout result self.now.slice.now }
        ensures only { IsOnlyHeader IsSingleVlanLayout result self.now.slice.now }
    {
        header_of(self.slice)
    }

    /// The priority, 0 to 7: the upper 3 bits of byte 0.
    pub fn priority_code_point(&self) -> u8
        ensures upper_3_bits { result ≡ slice_index self.now.slice.now 0 / 2 ^ 5 }
    {
        self.slice[0] >> 5
    }

    /// Whether the frame may be dropped before others: the fourth highest bit of byte 0.
    pub fn drop_eligible_indicator(&self) -> bool
        ensures bit_4 { IsTrue result ↔ (slice_index self.now.slice.now 0 / 2 ^ 4 % 2 ≡ 1) }
    {
        (self.slice[0] >> 4) & 1 == 1
    }

    /// The identifier of the VLAN, 0 to 4095: the lower 12 bits of bytes 0 and 1.
    pub fn vlan_identifier(&self) -> u16
        ensures lower_12_bits { result ≡ number_at 0 self.now.slice.now % 2 ^ 12 }
    {
        u16_at(self.slice, 0) & 0xfff
    }

    /// What is tagged: bytes 2 and 3.
    pub fn ether_type(&self) -> EtherType
        ensures bytes_2_3 { result ≡ number_at 2 self.now.slice.now }
    {
        EtherType(u16_at(self.slice, 2))
    }
}
