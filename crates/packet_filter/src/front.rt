//! The layers of a plain frame that tests ask for: all but the transport header.

ghost use Rattle.std.specs.Prelude.{◌≡◌, IfSome, IsTrue, None, option_map};
ghost use Rattle.etherparse.specs.Bytes.{IsBytes};
ghost use Rattle.packet.specs.Link.{link_parts};
ghost use Rattle.packet.specs.SlicedPacket.{HasLinkLayers, carries_ip};
ghost use Rattle.packet.specs.declared.link.LinkType.TheVariants.{Ethernet2};
ghost use Rattle.packet_filter.specs.Private.Front.{IsFront};

use etherparse_link::Ethernet2HeaderSlice;
use packet::lax_sliced_packet::LaxSlicedPacket;
use packet::link::{LinkSlice, LinkType};
use packet::link_layers::LinkLayers;
use packet::sliced_packet::SlicedPacket;
use packet_parts::ip_slice::LaxIpSlice;

/// The packet in a plain frame but for its transport header: a frame of Ethernet without a tag, or
/// one that is an IP packet, if the packet is there whole. `None` of any other.
#[inline(always)]
pub(crate) fn plain_in<'a>(link_type: LinkType, frame: &'a [u8]) -> Option<LaxSlicedPacket<'a>>
    ensures found { IfSome result (IsFront link_type frame.now) }
{
    let layers = match untagged(link_type, frame) {
        Some(layers) => layers,
        None => return None,
    };
    match LaxIpSlice::from_slice(layers.payload) {
        Ok(lax) => match lax.stop {
            None => {
                are_bytes(lax.slice.payload);
                let packet = SlicedPacket {
                    link: layers.link,
                    vlan: layers.vlan,
                    ether_type: layers.ether_type,
                    payload: layers.payload,
                    net: Some(lax.slice),
                    transport: None,
                };
                Some(LaxSlicedPacket { packet, stop: None })
            }
            Some(_) => None,
        },
        Err(_) => None,
    }
}

// The layers of a frame that is an IP packet, or of one of Ethernet that has no tag before it.
#[inline(always)]
fn untagged<'a>(link_type: LinkType, frame: &'a [u8]) -> Option<LinkLayers<'a>>
    ensures found { IfSome result (HasLinkLayers link_type frame.now) }
    ensures carries_ip { IfSome result (λ layers.
        IsTrue (carries_ip (option_map link_parts layers.link) layers.ether_type)) }
    ensures whole { IfSome result (λ layers. layers.stop ≡ None) }
{
    match link_type {
        LinkType::Ethernet2 => untagged_ethernet(frame),
        LinkType::Ip => Some(LinkLayers {
            link: None,
            vlan: None,
            ether_type: None,
            payload: frame,
            stop: None,
        }),
        _ => None,
    }
}

// Those of a frame of Ethernet.
#[inline(always)]
fn untagged_ethernet(frame: &[u8]) -> Option<LinkLayers>
    ensures found { IfSome result (HasLinkLayers Ethernet2 frame.now) }
    ensures carries_ip { IfSome result (λ layers.
        IsTrue (carries_ip (option_map link_parts layers.link) layers.ether_type)) }
    ensures whole { IfSome result (λ layers. layers.stop ≡ None) }
{
    if frame.len() < 14 {
        return None;
    }
    let (slice, payload) = frame.split_at(14);
    let header = Ethernet2HeaderSlice { slice };
    let ether_type = header.ether_type();
    if !matches!(ether_type.0, 0x0800 | 0x86dd) {
        return None;
    }
    Some(LinkLayers {
        link: Some(LinkSlice::Ethernet2(header)),
        vlan: None,
        ether_type: Some(ether_type),
        payload,
        stop: None,
    })
}

// The bytes of a slice are bytes.
#[inline(always)]
fn are_bytes(slice: &[u8])
    ensures are_bytes { IsBytes slice.now }
{}
