//! A frame up to the packet that it carries.

ghost use Rattle.std.specs.Prelude.{◌≡◌};

use crate::lax_sliced_packet::carries_ip;
use crate::link::{LinkError, LinkSlice, LinkType, link_header};
use crate::vlan::{Tagged, VlanSlice, after_tags};
use etherparse::err::LenError;
use etherparse_link::EtherType;

/// A frame up to the packet that it carries: the link header and the VLAN tags.
#[derive(Clone, Debug, PartialEq, Eq, Drop)]
pub struct LinkLayers<'a> {
    /// The link header; `None` if frames of the link type have none.
    pub link: Option<LinkSlice<'a>>,
    /// The VLAN tags, of which at most two are read: a third is another protocol.
    pub vlan: Option<VlanSlice<'a>>,
    /// The EtherType of what follows; `None` if the link header has none.
    pub ether_type: Option<EtherType>,
    /// All bytes after these.
    pub payload: &'a [u8],
    /// Why the next tag is not read, if the frame ends within it: `payload` is its bytes.
    pub stop: Option<LenError>,
}

impl<'a> LinkLayers<'a> {
    ghost use Rattle.std.specs.Prelude.{◌≡◌, IfErr, IfOk, option_map};
    ghost use Rattle.packet.specs.Link.{LacksLink, link_parts};
    ghost use Rattle.packet.specs.SlicedPacket.{HasLinkLayers, carries_ip};

    /// The layers of a frame of a link type.
    ///
    /// # Errors
    ///
    /// A `LinkError` if the frame ends within its link header.
    ///
    /// # Example
    ///
    /// ```
    /// // Ethernet, a tag of VLAN 5, and the first bytes of an ARP packet.
    /// let frame = [
    ///     2, 0, 0, 0, 0, 2, 2, 0, 0, 0, 0, 1, 0x81, 0, 0, 5, 8, 6, 0, 1,
    /// ];
    /// let layers = LinkLayers::from_link_type(LinkType::Ethernet2, &frame)?;
    /// assert!(rt; layers.ether_type == Some(EtherType::ARP) && !layers.carries_ip());
    /// assert!(rt; layers.payload == [0, 1].as_slice() && layers.stop.is_none());
    /// ```
    #[inline(always)] // The caller has its parts in registers.
    pub fn from_link_type(link_type: LinkType, frame: &'a [u8]) -> Result<LinkLayers<'a>, LinkError>
        ensures found { IfOk result (HasLinkLayers link_type frame.now) }
        ensures refused { IfErr result (LacksLink link_type frame.now) }
    {
        let (link, first, bytes) = match link_header(link_type, frame) {
            Ok(found) => found,
            Err(e) => return Err(e),
        };
        let Tagged {
            vlan,
            ether_type,
            bytes: payload,
            stop,
        } = after_tags(frame.len(), first, bytes);
        Ok(LinkLayers {
            link,
            vlan,
            ether_type,
            payload,
            stop,
        })
    }

    /// Whether an IP packet follows: by the EtherType, the family or the framing; or since it is all
    /// that there is.
    pub fn carries_ip(&self) -> bool
        ensures value { result ≡ carries_ip (option_map link_parts self.now.link) self.now.ether_type }
    {
        carries_ip(&self.link, &self.ether_type)
    }
}
