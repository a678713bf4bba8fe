//! A packet in its layers.

ghost use Rattle.std.specs.Prelude.{◌≡◌};
ghost use Rattle.packet.specs.SlicedPacket.{whole_of};

use crate::error::SliceError;
use crate::lax_sliced_packet::{LaxSlicedPacket, frame_layers, layers_after};
use crate::link::{LinkSlice, LinkType};
use crate::transport::{TransportSlice, ports_in};
use crate::vlan::VlanSlice;
use etherparse::err::LenError;
use etherparse_link::{ArpPacketSlice, EtherType};
use packet_parts::ip_slice::IpSlice;

/// The layers of a frame.
#[derive(Clone, Debug, PartialEq, Eq, Drop)]
pub struct SlicedPacket<'a> {
    /// The link header; `None` if there is none before what was read.
    pub link: Option<LinkSlice<'a>>,
    /// The VLAN tags, of which at most two are read: a third is another protocol.
    pub vlan: Option<VlanSlice<'a>>,
    /// What follows the link header and the tags: the EtherType in the last of them. `None` if it
    /// has none, as a loopback header or a Linux cooked capture of netlink, or if the bytes that were
    /// read began with an IP packet.
    pub ether_type: Option<EtherType>,
    /// All bytes after the link header and the tags: an IP packet and what comes after it, as
    /// Ethernet's padding, or another protocol.
    pub payload: &'a [u8],
    /// The IP packet; `None` if `payload` is another protocol, or in a `LaxSlicedPacket` if the
    /// frame ends within a tag, or `payload` has no IP header, or one whose total length is below
    /// the header's, but not 0.
    pub net: Option<IpSlice<'a>>,
    /// The transport header; `None` without an IP packet, if the number of its payload is of none
    /// that is read, if that payload is of a later fragment, or if a first fragment, or in a
    /// `LaxSlicedPacket` any packet, does not have all of it or has a data offset of TCP below 5.
    pub transport: Option<TransportSlice<'a>>,
}

impl<'a> SlicedPacket<'a> {
    ghost use Rattle.std.specs.Prelude.{ℕ, IfNone, IfSome, IsSomeAnd, None, Some};
    ghost use Rattle.std.specs.Prelude.{◌≢◌};
    ghost use Rattle.packet.specs.SlicedPacket.{CarriesArp, IsReadingAfter, IsReadingOf};
    ghost use Rattle.packet.specs.Transport.{HasPorts};

    /// The layers of an Ethernet frame (IEEE 802.3 section 3.1.1).
    ///
    /// # Errors
    ///
    /// In this order: `Link` if the frame has fewer than 14 bytes; `Vlan`; `Ip`; `Udp`, `Tcp` or
    /// `Icmp`.
    ///
    /// # Example
    ///
    /// ```
    /// // Ethernet, a tag of VLAN 5 with priority 3, IPv4, and a datagram to port 53.
    /// let frame = [
    ///     2, 0, 0, 0, 0, 2, 2, 0, 0, 0, 0, 1, 0x81, 0, 0x60, 5, 8, 0, 0x45, 0, 0, 30, 0, 0, 0, 0, 64,
    ///     17, 0, 0, 10, 0, 0, 1, 10, 0, 0, 2, 4, 0, 0, 53, 0, 10, 0, 0, b'h', b'i',
    /// ];
    /// let packet = SlicedPacket::from_ethernet(&frame)?;
    /// assert!(rt; packet.ether_type == Some(EtherType::IPV4));
    /// assert!(rt; packet.ports() == Some((1024, 53)));
    /// ```
    pub fn from_ethernet(frame: &'a [u8]) -> Result<SlicedPacket<'a>, SliceError>
        ensures reads { IsReadingOf LinkType.Ethernet2 frame.now result }
    {
        SlicedPacket::from_link_type(LinkType::Ethernet2, frame)
    }

    /// The layers of a Linux cooked capture (LINKTYPE_LINUX_SLL).
    ///
    /// # Errors
    ///
    /// In this order: `Link` if the frame has fewer than 16 bytes; `Vlan`; `Ip`; `Udp`, `Tcp` or
    /// `Icmp`.
    ///
    /// # Example
    ///
    /// ```
    /// // The header of a broadcast from 2:0:0:0:0:1, and an ARP packet that is not read.
    /// let frame = [0, 1, 0, 1, 0, 6, 2, 0, 0, 0, 0, 1, 0, 0, 8, 6, 0, 1, 8, 0];
    /// let packet = SlicedPacket::from_linux_sll(&frame)?;
    /// assert!(rt; packet.ether_type == Some(EtherType::ARP));
    /// assert!(rt; packet.payload == [0, 1, 8, 0].as_slice());
    /// ```
    pub fn from_linux_sll(frame: &'a [u8]) -> Result<SlicedPacket<'a>, SliceError>
        ensures reads { IsReadingOf LinkType.LinuxSll frame.now result }
    {
        SlicedPacket::from_link_type(LinkType::LinuxSll, frame)
    }

    /// The layers of a Linux cooked capture of version 2 (LINKTYPE_LINUX_SLL2).
    ///
    /// # Errors
    ///
    /// In this order: `Link` if the frame has fewer than 20 bytes; `Vlan`; `Ip`; `Udp`, `Tcp` or
    /// `Icmp`.
    ///
    /// # Example
    ///
    /// ```
    /// // The same with the header of version 2, on interface 3.
    /// let frame = [
    ///     8, 6, 0, 0, 0, 0, 0, 3, 0, 1, 1, 6, 2, 0, 0, 0, 0, 1, 0, 0, 0, 1, 8, 0,
    /// ];
    /// let packet = SlicedPacket::from_linux_sll2(&frame)?;
    /// assert!(rt; packet.ether_type == Some(EtherType::ARP));
    /// assert!(rt; packet.payload == [0, 1, 8, 0].as_slice());
    /// ```
    pub fn from_linux_sll2(frame: &'a [u8]) -> Result<SlicedPacket<'a>, SliceError>
        ensures reads { IsReadingOf LinkType.LinuxSll2 frame.now result }
    {
        SlicedPacket::from_link_type(LinkType::LinuxSll2, frame)
    }

    /// The layers of a frame of a loopback interface whose family is in the byte order of the
    /// machine that captured it (LINKTYPE_NULL). For LINKTYPE_LOOP there is
    /// [`SlicedPacket::from_link_type`].
    ///
    /// # Errors
    ///
    /// In this order: `Link` if the frame has fewer than 4 bytes; `Ip`; `Udp`, `Tcp` or `Icmp`.
    ///
    /// # Example
    ///
    /// ```
    /// // Family 7 in either byte order, which is not that of IP.
    /// let frame = [7, 0, 0, 0, 1];
    /// let packet = SlicedPacket::from_loopback(&frame)?;
    /// assert!(rt; packet.link == Some(LinkSlice::Loopback { family: 7 }));
    /// assert!(rt; SlicedPacket::from_loopback(&[0, 0, 0, 7, 1])? == packet);
    /// ```
    pub fn from_loopback(frame: &'a [u8]) -> Result<SlicedPacket<'a>, SliceError>
        ensures reads { IsReadingOf LinkType.Null frame.now result }
    {
        SlicedPacket::from_link_type(LinkType::Null, frame)
    }

    /// The layers of a frame of a link type.
    ///
    /// # Errors
    ///
    /// In this order: `Link`; `Vlan`; `Ip`; `Udp`, `Tcp` or `Icmp`.
    ///
    /// # Example
    ///
    /// ```
    /// // A frame of LINKTYPE_ETHERNET that ends within its link header.
    /// let link_type = LinkType::from_number(1);
    /// assert!(rt; link_type == Some(LinkType::Ethernet2));
    /// let refused = SlicedPacket::from_link_type(LinkType::Ethernet2, &[0; 13]);
    /// let too_short = LinkError {
    ///     required_len: 14,
    ///     len: 13,
    /// };
    /// assert!(rt; refused == Err(SliceError::Link(too_short)));
    /// ```
    pub fn from_link_type(
        link_type: LinkType,
        frame: &'a [u8],
    ) -> Result<SlicedPacket<'a>, SliceError>
        ensures reads { IsReadingOf link_type frame.now result }
    {
        match frame_layers(link_type, frame) {
            Ok(lax) => whole(lax),
            Err(e) => Err(SliceError::Link(e)),
        }
    }

    /// The layers of bytes that an EtherType names: a VLAN tag and what it tags, an IP packet, or
    /// another protocol.
    ///
    /// # Errors
    ///
    /// In this order: `Vlan`; `Ip`; `Udp`, `Tcp` or `Icmp`.
    ///
    /// # Example
    ///
    /// ```
    /// // A protocol that is not read.
    /// let packet = SlicedPacket::from_ether_type(EtherType::ARP, &[0, 1, 8, 0])?;
    /// assert!(rt; packet.net.is_none());
    /// assert!(rt; packet.payload == [0, 1, 8, 0].as_slice());
    /// ```
    pub fn from_ether_type(
        ether_type: EtherType,
        bytes: &'a [u8],
    ) -> Result<SlicedPacket<'a>, SliceError>
        ensures reads { IsReadingAfter (Some ether_type) bytes.now result }
    {
        whole(layers_after(Some(ether_type), bytes))
    }

    /// The layers of an IP packet of either version.
    ///
    /// # Errors
    ///
    /// In this order: `Ip`; `Udp`, `Tcp` or `Icmp`.
    ///
    /// # Example
    ///
    /// ```
    /// // Four bytes of a TCP header, in a packet that is as short as it says.
    /// let packet = [
    ///     0x45, 0, 0, 24, 0, 0, 0, 0, 64, 6, 0, 0, 10, 0, 0, 1, 10, 0, 0, 2, 4, 0, 0, 80,
    /// ];
    /// let too_short = LenError {
    ///     required_len: 20,
    ///     len: 4,
    ///     len_source: LenSource::Ipv4HeaderTotalLen,
    ///     layer: Layer::TcpHeader,
    ///     layer_start_offset: 20,
    /// };
    /// let refused = SlicedPacket::from_ip(&packet);
    /// assert!(rt; refused == Err(SliceError::Tcp(TcpError::Len(too_short))));
    /// ```
    pub fn from_ip(packet: &'a [u8]) -> Result<SlicedPacket<'a>, SliceError>
        ensures reads { IsReadingAfter None packet.now result }
    {
        whole(layers_after(None, packet))
    }

    /// The source port and the destination port, if the IP packet carries UDP or TCP, is no later
    /// fragment, and has the first four bytes of that. So the ports are there in a first fragment
    /// or a cut packet that does not have the whole header.
    ///
    /// # Example
    ///
    /// ```
    /// // Four bytes of a TCP header, in a packet that a capture cut.
    /// let packet = [
    ///     0x45, 0, 0, 40, 0, 0, 0, 0, 64, 6, 0, 0, 10, 0, 0, 1, 10, 0, 0, 2, 4, 0, 0, 80,
    /// ];
    /// let lax = LaxSlicedPacket::from_ip(&packet);
    /// assert!(rt; lax.stop.is_some());
    /// assert!(rt; lax.packet.transport.is_none());
    /// assert!(rt; lax.packet.ports() == Some((1024, 80)));
    /// ```
    pub fn ports(&self) -> Option<(u16, u16)>
        ensures found { IfSome result (λ ports. IsSomeAnd self.now.net (λ ip. HasPorts ip ports)) }
        ensures none { IfNone result (IfSome self.now.net (λ ip.
            (ports : ℕ × ℕ) → ¬ HasPorts ip ports)) }
    {
        match &self.net {
            Some(ip) => ports_in(ip),
            None => None,
        }
    }

    /// The ARP packet at the front of `payload` (RFC 826); `None` if `ether_type` is not that of
    /// ARP. What follows it in `payload` is padding.
    ///
    /// # Errors
    ///
    /// Inside the `Some`, that of [`ArpPacketSlice::from_slice`] if `payload` does not have all of
    /// the ARP packet; its place counts from the start of `payload`. A frame is not refused for
    /// that: its layers are there all the same.
    ///
    /// # Example
    ///
    /// ```
    /// // Who has 192.168.0.2? Tell 192.168.0.1.
    /// let arp = [
    ///     0, 1, 8, 0, 6, 4, 0, 1, 2, 0, 0, 0, 0, 1, 192, 168, 0, 1, 0, 0, 0, 0, 0, 0, 192, 168, 0, 2,
    /// ];
    /// let packet = SlicedPacket::from_ether_type(EtherType::ARP, &arp)?;
    /// let operation = packet.arp().map(|view| view.map(|arp| arp.operation()));
    /// assert!(rt; operation == Some(Ok(ArpOperation::REQUEST)));
    /// // All of it but its last byte.
    /// let packet = SlicedPacket::from_ether_type(EtherType::ARP, &arp[..27])?;
    /// assert!(rt; matches!(packet.arp(), Some(Err(e)) if e.required_len == 28 && e.len == 27));
    /// ```
    pub fn arp(&self) -> Option<Result<ArpPacketSlice<'a>, LenError>>
        ensures views { IfSome result (CarriesArp self.now) }
        ensures none { IfNone result (self.now.ether_type ≢ Some 0x0806) }
    {
        match self.ether_type {
            Some(EtherType::ARP) => Some(ArpPacketSlice::from_slice(self.payload)),
            _ => None,
        }
    }
}

// A packet that nothing stopped.
fn whole(lax: LaxSlicedPacket) -> Result<SlicedPacket, SliceError>
    ensures value { result ≡ whole_of lax.entry.packet lax.entry.stop }
{
    match lax.stop {
        None => Ok(lax.packet),
        Some(e) => Err(e),
    }
}
