//! Two VLAN tags (IEEE 802.1Q).

ghost use Rattle.std.specs.Prelude.{◌≡◌, ◌↔◌, ◌++◌, IsTrue};
ghost use Rattle.etherparse_link.specs.DoubleVlanHeader.{IsTagType};

use crate::err::double_vlan::{HeaderError, HeaderSliceError};
use crate::single_vlan_header::header_of;
use crate::{EtherType, SingleVlanHeader};
use etherparse::LenSource;
use etherparse::err::{Layer, LenError};

/// Two VLAN tags, one after the other, as in a network of a service provider: what follows the
/// EtherType of the outer tag (IEEE 802.1Q section 9.3).
///
/// Which kind of tag the outer one is, the EtherType before these bytes says, which is no part of
/// them and is not tested here: for tags of a service provider it is
/// [`EtherType::PROVIDER_BRIDGING`]. That of the inner tag is `outer.ether_type`.
///
/// These are the 8 bytes as they stand in a frame, with the EtherTypes that they have. The
/// `VlanHeader::Double` of `packet_builder` is another thing: two tags of a packet that is built,
/// whose EtherTypes are set when it is written.
///
/// # Example
///
/// ```
/// // VLAN 7 of a customer in VLAN 100 of a service provider.
/// let tags = DoubleVlanHeader {
///     outer: SingleVlanHeader {
///         pcp: VlanPcp::ZERO,
///         drop_eligible_indicator: false,
///         vlan_id: VlanId::try_new(100)?,
///         ether_type: EtherType::VLAN_TAGGED_FRAME,
///     },
///     inner: SingleVlanHeader {
///         pcp: VlanPcp::try_new(1)?,
///         drop_eligible_indicator: true,
///         vlan_id: VlanId::try_new(7)?,
///         ether_type: EtherType::IPV6,
///     },
/// };
/// assert!(rt; tags.to_bytes() == [0, 100, 0x81, 0, 0x30, 7, 0x86, 0xdd]);
/// ```
#[derive(Clone, Copy, Debug, PartialEq, Eq)]
pub struct DoubleVlanHeader {
    /// The first tag: bytes 0 to 3. Its EtherType is to be that of a tag, or else a reader refuses
    /// what is written.
    pub outer: SingleVlanHeader,
    /// The tag after it: bytes 4 to 7.
    pub inner: SingleVlanHeader,
}

impl DoubleVlanHeader {
    ghost use Rattle.std.specs.Prelude.{ℕ, ◌≡◌, List, ◌++◌, Err, Ok};
    ghost use Rattle.etherparse.specs.Reading.{Reads, found_and_rest};
    ghost use Rattle.etherparse_link.specs.DoubleVlanHeader.{AreTwoTags, IsDoubleVlanLayout};
    ghost use Rattle.etherparse_link.specs.DoubleVlanHeader.{DoubleVlanReading, IsTagType};
    ghost use Rattle.etherparse_link.specs.DoubleVlanHeader.{RefusesDoubleVlan};
    ghost use Rattle.etherparse_link.specs.DoubleVlanHeader.{non_vlan_ether_type};

    /// The length, in bytes: 8.
    pub const LEN: usize = 8;

    /// The two tags at the front of a slice, and all the bytes after them. The slice begins after
    /// the EtherType of the outer tag.
    ///
    /// # Errors
    ///
    /// `Len` if the slice has fewer than 8 bytes; otherwise `Content` if the EtherType of the outer
    /// tag is none of [`EtherType::VLAN_TAGGED_FRAME`], [`EtherType::PROVIDER_BRIDGING`] and
    /// [`EtherType::VLAN_DOUBLE_TAGGED_FRAME`].
    ///
    /// # Example
    ///
    /// ```
    /// let bytes = [0, 100, 0x81, 0, 0x30, 7, 0x86, 0xdd, 0x60];
    /// let (tags, rest) = DoubleVlanHeader::from_slice(&bytes)?;
    /// let (outer, inner) = (tags.outer, tags.inner);
    /// assert!(rt; outer.vlan_id.value() == 100);
    /// assert!(rt; inner.vlan_id.value() == 7);
    /// assert!(rt; inner.ether_type == EtherType::IPV6);
    /// assert!(rt; rest == [0x60].as_slice());
    /// // A single tag before an IPv4 packet.
    /// let single = [0, 100, 8, 0, 0x45, 0, 0, 20];
    /// let refused = HeaderSliceError::Content(HeaderError::NonVlanEtherType {
    ///     unexpected_ether_type: EtherType::IPV4,
    /// });
    /// assert!(rt; DoubleVlanHeader::from_slice(&single) == Err(refused));
    /// ```
    pub fn from_slice(slice: &[u8]) -> Result<(DoubleVlanHeader, &[u8]), HeaderSliceError>
        ensures reads { Reads IsDoubleVlanLayout RefusesDoubleVlan slice.now
            (found_and_rest result) }
        ensures only { (other : DoubleVlanReading) →
            Reads IsDoubleVlanLayout RefusesDoubleVlan slice.now other →
            other ≡ found_and_rest result }
    {
        if slice.len() < DoubleVlanHeader::LEN {
            return Err(HeaderSliceError::Len(LenError {
                required_len: DoubleVlanHeader::LEN,
                len: slice.len(),
                len_source: LenSource::Slice,
                layer: Layer::VlanHeader,
                layer_start_offset: 0,
            }));
        }
        let outer = header_of(&slice[..4]);
        if !is_tag_type(outer.ether_type) {
            return Err(HeaderSliceError::Content(HeaderError::NonVlanEtherType {
                unexpected_ether_type: outer.ether_type,
            }));
        }
        let inner = header_of(&slice[4..8]);
        Ok((DoubleVlanHeader { outer, inner }, &slice[8..]))
    }

    /// The 8 bytes. If the EtherType of the outer tag is that of no tag, a reader refuses them.
    pub fn to_bytes(&self) -> [u8; 8]
        ensures tags { AreTwoTags self.now result }
        ensures only { (bytes : List ℕ) → AreTwoTags self.now bytes → bytes ≡ result }
        ensures read_again { IsTagType self.now.outer.ether_type → (rest : List ℕ) →
            Reads IsDoubleVlanLayout RefusesDoubleVlan (result ++ rest) (Ok (self.now, rest)) }
        ensures refused_again { ¬ IsTagType self.now.outer.ether_type → (rest : List ℕ) →
            Reads IsDoubleVlanLayout RefusesDoubleVlan (result ++ rest)
            (Err (non_vlan_ether_type self.now.outer.ether_type)) }
    {
        joined(self.outer.to_bytes(), self.inner.to_bytes())
    }
}

const _: () = prove!(DoubleVlanHeader::LEN == 8);

// Whether this is the EtherType of a tag.
fn is_tag_type(ether_type: EtherType) -> bool
    ensures value { IsTrue result ↔ IsTagType ether_type }
{
    matches!(ether_type.0, 0x8100 | 0x88a8 | 0x9100)
}

// The bytes of the outer tag and those of the inner one.
fn joined(outer: [u8; 4], inner: [u8; 4]) -> [u8; 8]
    ensures parts { result ≡ outer ++ inner }
{
    let [a, b, c, d] = outer;
    let [e, f, g, h] = inner;
    [a, b, c, d, e, f, g, h]
}
