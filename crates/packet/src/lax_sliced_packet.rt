//! A packet as far as it can be read.

ghost use Rattle.std.specs.Prelude.{◌≡◌, ◌≤◌, ◌<◌, ◌^◌, length, option_map};
ghost use Rattle.packet.specs.Link.{link_parts};
ghost use Rattle.packet.specs.SlicedPacket.{HasLayers, IsLaxReadingAfter, IsLaxReadingOf};
ghost use Rattle.packet.specs.SlicedPacket.{carries_ip};

use crate::error::SliceError;
use crate::link::{LinkError, LinkSlice, LinkType, link_header};
use crate::network::network_at;
use crate::sliced_packet::SlicedPacket;
use crate::vlan::{Tagged, VlanSlice, after_tags};
use etherparse_link::EtherType;
use packet_parts::checksum::{Absence, Verdict};

/// The layers of a frame, as far as they can be read: of one that a capture cut, of one that is
/// damaged, of a packet whose sender left its length to the network card, or of a jumbogram.
#[derive(Clone, Debug, PartialEq, Eq, Drop)]
pub struct LaxSlicedPacket<'a> {
    /// The layers. If the frame ends within a VLAN tag, `ether_type` is that of the tag, and
    /// `payload` what there is of it. If it ends within the IP packet, `net` has the parts as
    /// [`packet_parts::ip_slice::LaxIpSlice`] has them, and the transport header is there if it is
    /// whole.
    pub packet: SlicedPacket<'a>,
    /// Why [`SlicedPacket`] refuses the frame; `None` if it does not.
    pub stop: Option<SliceError>,
}

impl<'a> LaxSlicedPacket<'a> {
    ghost use Rattle.std.specs.Prelude.{None, Some};
    ghost use Rattle.packet.specs.Link.{link_parts};
    ghost use Rattle.packet.specs.SlicedPacket.{IsLaxReadingAfter, IsLaxReadingOf, IsVerdictOn};

    /// The layers of an Ethernet frame (IEEE 802.3 section 3.1.1).
    ///
    /// # Errors
    ///
    /// A `LinkError` if the frame has fewer than 14 bytes.
    ///
    /// # Example
    ///
    /// ```
    /// // A frame that ends within its second tag.
    /// let frame = [
    ///     2, 0, 0, 0, 0, 2, 2, 0, 0, 0, 0, 1, 0x88, 0xa8, 0, 5, 0x81, 0, 1, 2, 3,
    /// ];
    /// let lax = LaxSlicedPacket::from_ethernet(&frame)?;
    /// assert!(rt; matches!(lax.stop, Some(SliceError::Vlan(_))));
    /// assert!(rt; matches!(lax.packet.vlan, Some(VlanSlice::SingleVlan(_))));
    /// assert!(rt; lax.packet.ether_type == Some(EtherType::VLAN_TAGGED_FRAME));
    /// assert!(rt; lax.packet.payload == [1, 2, 3].as_slice());
    /// ```
    pub fn from_ethernet(frame: &'a [u8]) -> Result<LaxSlicedPacket<'a>, LinkError>
        ensures reads { IsLaxReadingOf LinkType.Ethernet2 frame.now result }
    {
        frame_layers(LinkType::Ethernet2, frame)
    }

    /// The layers of a Linux cooked capture (LINKTYPE_LINUX_SLL).
    ///
    /// # Errors
    ///
    /// A `LinkError` if the frame has fewer than 16 bytes.
    ///
    /// # Example
    ///
    /// ```
    /// // A packet of which two bytes were captured.
    /// let frame = [0, 0, 0, 1, 0, 6, 2, 0, 0, 0, 0, 1, 0, 0, 8, 0, 0x45, 0];
    /// let lax = LaxSlicedPacket::from_linux_sll(&frame)?;
    /// assert!(rt; matches!(lax.stop, Some(SliceError::Ip(_))));
    /// assert!(rt; lax.packet.net.is_none() && lax.packet.payload == [0x45, 0].as_slice());
    /// ```
    pub fn from_linux_sll(frame: &'a [u8]) -> Result<LaxSlicedPacket<'a>, LinkError>
        ensures reads { IsLaxReadingOf LinkType.LinuxSll frame.now result }
    {
        frame_layers(LinkType::LinuxSll, frame)
    }

    /// The layers of a Linux cooked capture of version 2 (LINKTYPE_LINUX_SLL2).
    ///
    /// # Errors
    ///
    /// A `LinkError` if the frame has fewer than 20 bytes.
    ///
    /// # Example
    ///
    /// ```
    /// // The same with the header of version 2, on interface 3.
    /// let frame = [
    ///     8, 0, 0, 0, 0, 0, 0, 3, 0, 1, 0, 6, 2, 0, 0, 0, 0, 1, 0, 0, 0x45, 0,
    /// ];
    /// let lax = LaxSlicedPacket::from_linux_sll2(&frame)?;
    /// assert!(rt; matches!(lax.stop, Some(SliceError::Ip(_))));
    /// assert!(rt; lax.packet.net.is_none() && lax.packet.payload == [0x45, 0].as_slice());
    /// ```
    pub fn from_linux_sll2(frame: &'a [u8]) -> Result<LaxSlicedPacket<'a>, LinkError>
        ensures reads { IsLaxReadingOf LinkType.LinuxSll2 frame.now result }
    {
        frame_layers(LinkType::LinuxSll2, frame)
    }

    /// The layers of a frame of a loopback interface whose family is in the byte order of the
    /// machine that captured it (LINKTYPE_NULL). For LINKTYPE_LOOP there is
    /// [`LaxSlicedPacket::from_link_type`].
    ///
    /// # Errors
    ///
    /// A `LinkError` if the frame has fewer than 4 bytes.
    ///
    /// # Example
    ///
    /// ```
    /// // The family of IPv4, and a packet of which two bytes were captured.
    /// let lax = LaxSlicedPacket::from_loopback(&[2, 0, 0, 0, 0x45, 0])?;
    /// assert!(rt; lax.packet.link == Some(LinkSlice::Loopback { family: 2 }));
    /// assert!(rt; matches!(lax.stop, Some(SliceError::Ip(_))));
    /// ```
    pub fn from_loopback(frame: &'a [u8]) -> Result<LaxSlicedPacket<'a>, LinkError>
        ensures reads { IsLaxReadingOf LinkType.Null frame.now result }
    {
        frame_layers(LinkType::Null, frame)
    }

    /// The layers of a frame of a link type. A loop that reads them at once and keeps none is
    /// faster with [`frame_layers`].
    ///
    /// # Errors
    ///
    /// A `LinkError` if the frame ends within its link header.
    ///
    /// # Example
    ///
    /// ```
    /// // The same in network byte order, as a frame of LINKTYPE_LOOP.
    /// let lax = LaxSlicedPacket::from_link_type(LinkType::Loop, &[0, 0, 0, 2, 0x45, 0])?;
    /// assert!(rt; lax.packet.link == Some(LinkSlice::Loopback { family: 2 }));
    /// assert!(rt; matches!(lax.stop, Some(SliceError::Ip(_))));
    /// ```
    #[inline(never)] // Its parts then come together in registers, and stay in memory once.
    pub fn from_link_type(
        link_type: LinkType,
        frame: &'a [u8],
    ) -> Result<LaxSlicedPacket<'a>, LinkError>
        ensures reads { IsLaxReadingOf link_type frame.now result }
    {
        frame_layers(link_type, frame)
    }

    /// The layers of bytes that an EtherType names: a VLAN tag and what it tags, an IP packet, or
    /// another protocol.
    ///
    /// # Example
    ///
    /// ```
    /// // A frame that ends within its tag.
    /// let lax = LaxSlicedPacket::from_ether_type(EtherType::VLAN_TAGGED_FRAME, &[1, 2, 3]);
    /// assert!(rt; matches!(lax.stop, Some(SliceError::Vlan(_))));
    /// assert!(rt; lax.packet.vlan.is_none() && lax.packet.payload == [1, 2, 3].as_slice());
    /// ```
    pub fn from_ether_type(ether_type: EtherType, bytes: &'a [u8]) -> LaxSlicedPacket<'a>
        ensures reads { IsLaxReadingAfter (Some ether_type) bytes.now result }
    {
        layers_after(Some(ether_type), bytes)
    }

    /// The layers of an IP packet of either version.
    pub fn from_ip(packet: &'a [u8]) -> LaxSlicedPacket<'a>
        ensures reads { IsLaxReadingAfter None packet.now result }
    {
        layers_after(None, packet)
    }

    /// The verdict on the checksum of the IP packet's payload; `Incomplete` if the packet is not
    /// whole; `None` if `net` is `None`.
    ///
    /// # Example
    ///
    /// ```
    /// // A datagram of 12 bytes, and without its last byte.
    /// let packet = [
    ///     0x45, 0, 0, 32, 0, 0, 0, 0, 64, 17, 0, 0, 192, 168, 0, 1, 192, 168, 0, 199, 4, 0, 0, 53,
    ///     0, 12, 0x91, 0xae, b't', b'e', b's', b't',
    /// ];
    /// let lax = LaxSlicedPacket::from_ip(&packet);
    /// assert!(rt; lax.verdict() == Some(Verdict::Right));
    /// let lax = LaxSlicedPacket::from_ip(&packet[..31]);
    /// assert!(rt; lax.verdict() == Some(Verdict::Absent(Absence::Incomplete)));
    /// ```
    pub fn verdict(&self) -> Option<Verdict>
        ensures judges { IsVerdictOn self.now.packet.net self.now.stop result }
    {
        match &self.packet.net {
            None => None,
            Some(ip) => match &self.stop {
                Some(SliceError::Ip(_)) => Some(Verdict::Absent(Absence::Incomplete)),
                _ => Some(ip.verdict()),
            },
        }
    }
}

/// The layers of a frame of a link type, as [`LaxSlicedPacket::from_link_type`] gives them, compiled
/// into the caller: for one that reads them at once, in registers, and keeps none.
///
/// # Errors
///
/// A `LinkError` if the frame ends within its link header.
#[inline(always)]
pub fn frame_layers(link_type: LinkType, frame: &[u8]) -> Result<LaxSlicedPacket, LinkError>
    ensures reads { IsLaxReadingOf link_type frame.now result }
{
    match link_header(link_type, frame) {
        Ok((link, ether_type, bytes)) => Ok(layers(frame.len(), link, ether_type, bytes)),
        Err(e) => Err(e),
    }
}

/// The same of bytes that an EtherType names, or of an IP packet if there is none.
#[inline(always)]
pub fn layers_after(ether_type: Option<EtherType>, bytes: &[u8]) -> LaxSlicedPacket
    ensures reads { IsLaxReadingAfter ether_type bytes.now result }
{
    layers(bytes.len(), None, ether_type, bytes)
}

// The layers after the link header of a frame of this length, as far as they can be read.
#[inline(always)]
fn layers<'a>(
    frame_len: usize,
    link: Option<LinkSlice<'a>>,
    first: Option<EtherType>,
    bytes: &'a [u8],
) -> LaxSlicedPacket<'a>
    requires fits { frame_len < 2 ^ 63 }
    requires within { length bytes.now ≤ frame_len }
    ensures link { result.packet.link ≡ link.entry }
    ensures layers { HasLayers frame_len first bytes.now result.packet result.stop }
{
    let Tagged {
        vlan,
        ether_type,
        bytes: payload,
        stop,
    } = after_tags(frame_len, first, bytes);
    if let Some(e) = stop {
        let stop = Some(SliceError::Vlan(e));
        let packet = without_ip(link, vlan, ether_type, payload);
        return LaxSlicedPacket { packet, stop };
    }
    if !carries_ip(&link, &ether_type) {
        let packet = without_ip(link, vlan, ether_type, payload);
        return LaxSlicedPacket { packet, stop: None };
    }
    let network = network_at(frame_len - payload.len(), payload);
    LaxSlicedPacket {
        packet: SlicedPacket {
            link,
            vlan,
            ether_type,
            payload,
            net: network.net,
            transport: network.transport,
        },
        stop: network.stop,
    }
}

// A packet of which no IP packet is read.
#[inline(always)]
fn without_ip<'a>(
    link: Option<LinkSlice<'a>>,
    vlan: Option<VlanSlice<'a>>,
    ether_type: Option<EtherType>,
    payload: &'a [u8],
) -> SlicedPacket<'a>
    ensures link { result.link ≡ link.entry }
    ensures vlan { result.vlan ≡ vlan.entry }
    ensures ether_type { result.ether_type ≡ ether_type }
    ensures payload { result.payload ≡ payload.entry }
    ensures net { result.net ≡ None }
    ensures transport { result.transport ≡ None }
{
    SlicedPacket {
        link,
        vlan,
        ether_type,
        payload,
        net: None,
        transport: None,
    }
}

// Whether an IP packet follows.
#[inline(always)]
pub(crate) fn carries_ip(link: &Option<LinkSlice>, ether_type: &Option<EtherType>) -> bool
    ensures value { result ≡ carries_ip (option_map link_parts link.now) ether_type.now }
{
    match (link, ether_type) {
        (_, Some(ether_type)) => matches!(ether_type.0, 0x0800 | 0x86dd),
        (Some(LinkSlice::Loopback { family }), None) => matches!(family, 2 | 24 | 28 | 30),
        (Some(LinkSlice::Framed { carried, .. }), None) => carried.is_ip(),
        (None, None) => true,
        (Some(_), None) => false,
    }
}
