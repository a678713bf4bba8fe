//! A VLAN tag (IEEE 802.1Q).

ghost use Rattle.std.specs.Prelude.{◌≡◌, ◌==◌, ◌<◌, ◌≤◌, ◌^◌, ◌++◌, length};
ghost use Rattle.std.specs.Int.{to_be_bytes, w16};
ghost use Rattle.etherparse.specs.Bytes.{IsBytes};
ghost use Rattle.etherparse_link.specs.SingleVlanHeader.{IsSingleVlanLayout};

use crate::ether_type::{EtherType, u16_at};
use crate::single_vlan_header_slice::SingleVlanHeaderSlice;
use crate::{VlanId, VlanPcp};
use etherparse::err::LenError;

/// What follows the EtherType of a VLAN tag: the tag control information, and the EtherType of what
/// is tagged (IEEE 802.1Q sections 9.3 and 9.6).
///
/// ```text
///  0                   1                   2                   3
///  0 1 2 3 4 5 6 7 8 9 0 1 2 3 4 5 6 7 8 9 0 1 2 3 4 5 6 7 8 9 0 1
/// +-+-+-+-+-+-+-+-+-+-+-+-+-+-+-+-+-+-+-+-+-+-+-+-+-+-+-+-+-+-+-+-+
/// | pcp |D|        vlan_id        |           ether_type          |
/// +-+-+-+-+-+-+-+-+-+-+-+-+-+-+-+-+-+-+-+-+-+-+-+-+-+-+-+-+-+-+-+-+
/// ```
///
/// D is `drop_eligible_indicator`. The EtherType of the tag itself, such as
/// [`EtherType::VLAN_TAGGED_FRAME`], stands before these bytes, and is no part of them.
///
/// # Example
///
/// ```
/// let tag = SingleVlanHeader {
///     pcp: VlanPcp::try_new(3)?,
///     drop_eligible_indicator: false,
///     vlan_id: VlanId::try_new(5)?,
///     ether_type: EtherType::IPV4,
/// };
/// assert!(rt; tag.to_bytes() == [0x60, 5, 8, 0]);
/// ```
#[derive(Clone, Copy, Debug, PartialEq, Eq)]
pub struct SingleVlanHeader {
    /// The priority: the upper 3 bits of byte 0.
    pub pcp: VlanPcp,
    /// Whether the frame may be dropped before others: the fourth highest bit of byte 0.
    pub drop_eligible_indicator: bool,
    /// The identifier of the VLAN: the lower 12 bits of bytes 0 and 1.
    pub vlan_id: VlanId,
    /// What is tagged: bytes 2 and 3.
    pub ether_type: EtherType,
}

impl SingleVlanHeader {
    ghost use Rattle.std.specs.Prelude.{ℕ, ◌≡◌, List, ◌++◌, Ok};
    ghost use Rattle.etherparse.specs.Reading.{Reads, found_and_rest};
    ghost use Rattle.etherparse_link.specs.SingleVlanHeader.{IsSingleVlanLayout};
    ghost use Rattle.etherparse_link.specs.SingleVlanHeader.{RefusesSingleVlan};
    ghost use Rattle.etherparse_link.specs.SingleVlanHeader.{drop_eligible_indicator_of};
    ghost use Rattle.etherparse_link.specs.SingleVlanHeader.{priority_code_point_of};
    ghost use Rattle.etherparse_link.specs.SingleVlanHeader.{vlan_identifier_of};
    ghost use Rattle.etherparse_link.specs.SingleVlanHeader.{SingleVlanReading};

    /// The length, in bytes: 4.
    pub const LEN: usize = 4;

    /// The header at the front of a slice, and all the bytes after it. The slice begins after the
    /// EtherType of the tag.
    ///
    /// # Errors
    ///
    /// A `LenError` if the slice has fewer than 4 bytes.
    ///
    /// # Example
    ///
    /// ```
    /// // A tag of VLAN 0x123 with priority 5, to be dropped before others, and the first bytes of
    /// // an ARP packet.
    /// let bytes = [0xb1, 0x23, 8, 6, 0, 1];
    /// let (tag, rest) = SingleVlanHeader::from_slice(&bytes)?;
    /// assert!(rt; tag.pcp.value() == 5 && tag.drop_eligible_indicator);
    /// assert!(rt; tag.vlan_id.value() == 0x123 && tag.ether_type == EtherType::ARP);
    /// assert!(rt; rest == [0, 1].as_slice());
    /// ```
    pub fn from_slice(slice: &[u8]) -> Result<(SingleVlanHeader, &[u8]), LenError>
        ensures reads { Reads IsSingleVlanLayout RefusesSingleVlan slice.now
            (found_and_rest result) }
        ensures only { (other : SingleVlanReading) →
            Reads IsSingleVlanLayout RefusesSingleVlan slice.now other →
            other ≡ found_and_rest result }
    {
        let header = SingleVlanHeaderSlice::from_slice(slice)?.to_header();
        Ok((header, &slice[SingleVlanHeader::LEN..]))
    }

    /// The 4 bytes.
    pub fn to_bytes(&self) -> [u8; 4]
        ensures layout { IsSingleVlanLayout self.now result }
        ensures only { (bytes : List ℕ) → IsSingleVlanLayout self.now bytes → bytes ≡ result }
        ensures read_again { (rest : List ℕ) →
            Reads IsSingleVlanLayout RefusesSingleVlan (result ++ rest) (Ok (self.now, rest)) }
    {
        words(self.tag_control_information(), self.ether_type)
    }

    // The three fields before the EtherType, as one number.
    fn tag_control_information(&self) -> u16
        ensures pcp { priority_code_point_of result ≡ self.now.pcp }
        ensures drop_eligible_indicator { drop_eligible_indicator_of result
            ≡ self.now.drop_eligible_indicator }
        ensures vlan_id { vlan_identifier_of result ≡ self.now.vlan_id }
    {
        let pcp = u16::from(self.pcp.value());
        let vlan_id = self.vlan_id.value();
        (pcp << 13) + (bit(self.drop_eligible_indicator) << 12) + vlan_id
    }
}

const _: () = prove!(SingleVlanHeader::LEN == 4);

// The header of 4 bytes.
pub(crate) fn header_of(bytes: &[u8]) -> SingleVlanHeader
    requires { length bytes.now ≡ 4 }
    ensures layout { IsSingleVlanLayout result bytes.now }
{
    let tci = u16_at(bytes, 0);
    SingleVlanHeader {
        pcp: VlanPcp::try_new((tci >> 13) as u8).unwrap(),
        drop_eligible_indicator: (tci >> 12) % 2 == 1,
        vlan_id: VlanId::try_new(tci % 4096).unwrap(),
        ether_type: EtherType(u16_at(bytes, 2)),
    }
}

// A flag as a bit.
fn bit(flag: bool) -> u16
    ensures value { (result == 1) ≡ flag }
    ensures within { result ≤ 1 }
{
    u16::from(flag)
}

// Two numbers, each with the high byte first.
fn words(tci: u16, ether_type: EtherType) -> [u8; 4]
    ensures value { result ≡ to_be_bytes w16 tci ++ to_be_bytes w16 ether_type }
    ensures are_bytes { IsBytes result }
    ensures tci_fits { tci < 2 ^ 16 }
    ensures ether_type_fits { ether_type < 2 ^ 16 }
{
    let number = ether_type.0;
    let [a, b] = tci.to_be_bytes();
    let [c, d] = number.to_be_bytes();
    [a, b, c, d]
}
