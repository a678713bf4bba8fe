//! VLAN tags (IEEE 802.1Q).

ghost use Rattle.std.specs.Prelude.{◌≡◌, ◌+◌, ◌-◌, ◌≤◌, ◌<◌, ◌^◌, ◌++◌, IfNone, IfSome, length};
ghost use Rattle.packet.specs.Vlan.{EndsTags, HasTags, is_tag, tag_error};

use etherparse::LenSource;
use etherparse::err::{Layer, LenError};
use etherparse_link::{EtherType, SingleVlanHeaderSlice};

/// The VLAN tags of a frame.
#[derive(Clone, Copy, Debug, PartialEq, Eq)]
pub enum VlanSlice<'a> {
    /// One tag.
    SingleVlan(SingleVlanHeaderSlice<'a>),
    /// Two tags, as in a network of a service provider.
    DoubleVlan {
        /// The first tag.
        outer: SingleVlanHeaderSlice<'a>,
        /// The tag after it.
        inner: SingleVlanHeaderSlice<'a>,
    },
}

// What follows up to two tags.
#[derive(Drop)]
pub(crate) struct Tagged<'a> {
    pub vlan: Option<VlanSlice<'a>>,
    pub ether_type: Option<EtherType>,
    pub bytes: &'a [u8],
    // That a tag is incomplete.
    pub stop: Option<LenError>,
}

// What follows up to two tags at the front of the last bytes of a frame of this length.
#[inline(always)]
pub(crate) fn after_tags(frame_len: usize, first: Option<EtherType>, bytes: &[u8]) -> Tagged
    requires within { length bytes.now ≤ frame_len }
    ensures tags { HasTags first bytes.now result.vlan result.ether_type result.bytes.now }
    ensures ends { EndsTags frame_len result.vlan result.ether_type result.bytes.now result.stop }
{
    if !is_tag(&first) {
        return Tagged {
            vlan: None,
            ether_type: first,
            bytes,
            stop: None,
        };
    }
    let (outer, rest) = match tag(bytes) {
        Some(found) => found,
        None => return Tagged {
            vlan: None,
            ether_type: first,
            bytes,
            stop: Some(tag_error(frame_len - bytes.len(), bytes.len())),
        },
    };
    let ether_type = Some(outer.ether_type());
    if !is_tag(&ether_type) {
        return Tagged {
            vlan: Some(VlanSlice::SingleVlan(outer)),
            ether_type,
            bytes: rest,
            stop: None,
        };
    }
    match tag(rest) {
        Some((inner, last)) => {
            let ether_type = Some(inner.ether_type());
            Tagged {
                vlan: Some(VlanSlice::DoubleVlan { outer, inner }),
                ether_type,
                bytes: last,
                stop: None,
            }
        }
        None => Tagged {
            vlan: Some(VlanSlice::SingleVlan(outer)),
            ether_type,
            bytes: rest,
            stop: Some(tag_error(frame_len - rest.len(), rest.len())),
        },
    }
}

// Whether this is the EtherType of a tag.
#[inline(always)]
fn is_tag(ether_type: &Option<EtherType>) -> bool
    ensures value { result ≡ is_tag ether_type.now }
{
    match ether_type {
        Some(EtherType(number)) => *number == 0x8100 || *number == 0x88a8 || *number == 0x9100,
        None => false,
    }
}

// The tag at the front of a slice, and what follows it.
#[inline(always)]
fn tag(bytes: &[u8]) -> Option<(SingleVlanHeaderSlice, &[u8])>
    ensures found { IfSome result (λ x. bytes.now ≡ x.0.slice.now ++ x.1.now) }
    ensures none { IfNone result (length bytes.now < 4) }
{
    if bytes.len() < 4 {
        return None;
    }
    let (slice, rest) = bytes.split_at(4);
    Some((SingleVlanHeaderSlice { slice }, rest))
}

// The error of a tag at a place, of which there are fewer than 4 bytes.
fn tag_error(place: usize, len: usize) -> LenError
    ensures value { result ≡ tag_error place len }
{
    LenError {
        required_len: 4,
        len,
        len_source: LenSource::Slice,
        layer: Layer::VlanHeader,
        layer_start_offset: place,
    }
}
