//! What a frame is found to carry.

ghost use Rattle.std.specs.Prelude.{◌≡◌, ◌↔◌, IsTrue, MatchOption};
ghost use Rattle.ipcap.specs.Shown.{IsShownAt};
ghost use Rattle.ipcap.specs.Reading.{ReadsFrame, ReadsNumbered, ReadsPacket, is_cut, left_out};
ghost use Rattle.ipcap.specs.Reading.{max_len};

use crate::shown::{Shown, has_no_length, has_whole_headers, shown_of};
use packet::link::{LinkSlice, LinkType};
use packet::link_layers::LinkLayers;
use packet_capture::any::{Capture, PacketHead};
use packet_links::header::Carried;
use packet_parts::checksum::Verdict;
use packet_parts::ip_slice::{IpSliceError, LaxIpSlice};

/// Why a frame carries no IP packet.
#[derive(Clone, Copy)]
pub enum NoPacket {
    /// The frame ends within its link header or a VLAN tag; the number is the frame's length in
    /// bytes.
    NoLinkHeader(usize),
    /// It carries another protocol, of this EtherType. Up to 1500 it is no EtherType: in Ethernet a
    /// length (IEEE 802.3 section 3.2.6), in a Linux cooked capture a number of Linux's own.
    OtherType(u16),
    /// It carries another protocol, of this family of a loopback interface.
    OtherFamily(u32),
    /// It has no EtherType: it is a Linux cooked capture of a device of this ARPHRD type.
    OtherDevice(u16),
    /// It carries what another framing tells, which is no IP packet.
    OtherCarried(Carried),
    /// Its link type is not read; the number of that.
    OtherLinkType(u16),
}

/// What the frame of a record is found to carry.
#[derive(Drop)]
pub enum Reading<'a> {
    /// An IP packet that is shown.
    Packet(Shown<'a>),
    /// An IP packet that is refused.
    Refused(IpSliceError),
    /// No IP packet.
    Other(NoPacket),
    /// It is not read: its block is too long for the buffer.
    Skipped,
}

/// Whether fewer bytes were captured than the packet had.
pub fn is_cut(head: &PacketHead) -> bool
    ensures value { result ≡ is_cut head.now }
{
    head.captured_len < head.original_len
}

/// How many bytes fewer.
pub fn left_out(head: &PacketHead) -> usize
    ensures value { result ≡ left_out head.now }
{
    head.original_len.saturating_sub(head.captured_len) as usize
}

/// The most bytes of a block that are read: a record with 262,144 captured bytes, and in pcapng
/// 65,536 bytes of fields and options beside as many.
pub fn max_len(capture: &Capture) -> usize
    ensures value { result ≡ max_len capture.now }
{
    match capture {
        Capture::Pcap(_) => 262_160,
        Capture::Pcapng(_) => 327_680,
    }
}

/// The same as [`read_frame`] of the link type with a number. Of one that is not read, a frame
/// carries nothing that is.
#[inline(always)] // A caller that only counts makes no more of it than it needs.
pub fn read_numbered(number: u16, left_out: usize, frame: &[u8]) -> Reading
    ensures reads { ReadsNumbered number left_out frame.now result }
{
    match LinkType::from_number(u32::from(number)) {
        Some(link_type) => read_frame(link_type, left_out, frame),
        None => Reading::Other(NoPacket::OtherLinkType(number)),
    }
}

/// What a frame of a link type is found to carry, of which the capture left this many bytes out: its
/// packet can lack as many of those that its length field says.
#[inline(always)] // Likewise.
pub fn read_frame(link_type: LinkType, left_out: usize, frame: &[u8]) -> Reading
    ensures reads { ReadsFrame link_type left_out frame.now result }
{
    let layers = match LinkLayers::from_link_type(link_type, frame) {
        Ok(layers) => layers,
        Err(_) => return Reading::Other(NoPacket::NoLinkHeader(frame.len())),
    };
    if layers.stop.is_some() {
        return Reading::Other(NoPacket::NoLinkHeader(frame.len()));
    }
    if layers.carries_ip() {
        return read_packet(left_out, layers.payload);
    }
    match (layers.ether_type, layers.link) {
        (Some(ether_type), _) => Reading::Other(NoPacket::OtherType(ether_type.0)),
        (None, Some(LinkSlice::Loopback { family })) => {
            Reading::Other(NoPacket::OtherFamily(family))
        }
        (None, Some(LinkSlice::LinuxSll(header))) => {
            Reading::Other(NoPacket::OtherDevice(header.arp_hardware_type()))
        }
        (None, Some(LinkSlice::LinuxSll2(header))) => {
            Reading::Other(NoPacket::OtherDevice(header.arp_hardware_type()))
        }
        (None, Some(LinkSlice::Framed { carried, .. })) => {
            Reading::Other(NoPacket::OtherCarried(carried))
        }
        (None, _) => Reading::Other(NoPacket::NoLinkHeader(frame.len())),
    }
}

// What is shown of a packet, or why it is refused.
#[inline(always)] // Likewise.
fn read_packet(left_out: usize, packet: &[u8]) -> Reading
    ensures reads { ReadsPacket left_out packet.now result }
{
    match LaxIpSlice::from_slice(packet) {
        Ok(lax) => {
            if is_shown(left_out, &lax) {
                return Reading::Packet(shown_of(lax));
            }
            match lax.stop {
                Some(e) => Reading::Refused(e),
                None => unreachable!(),
            }
        }
        Err(e) => Reading::Refused(e),
    }
}

// Whether a packet is shown: it is whole; or its length field asks for no more bytes than there
// were before the capture left some out; or that field says nothing, and either bytes were left out
// or what there is ends within no extension header.
fn is_shown(left_out: usize, lax: &LaxIpSlice) -> bool
    ensures value { IsTrue result ↔ MatchOption lax.now.stop (Unit {0}) (IsShownAt left_out lax.now) }
{
    match &lax.stop {
        None => true,
        Some(IpSliceError::Packet(e)) => {
            e.required_len.saturating_sub(e.len) <= left_out || has_no_length(&lax.slice)
        }
        Some(IpSliceError::Extensions(_)) => {
            has_no_length(&lax.slice) && (left_out > 0 || has_whole_headers(&lax.slice))
        }
        Some(_) => false,
    }
}

impl Reading<'_> {
    ghost use Rattle.ipcap.specs.Reading.{has_wrong_checksum};

    /// Whether a packet is shown with a wrong checksum.
    pub fn has_wrong_checksum(&self) -> bool
        ensures value { result ≡ has_wrong_checksum self.now }
    {
        match self {
            Reading::Packet(shown) => {
                shown.is_header_right == Some(false) || matches!(shown.verdict, Verdict::Wrong)
            }
            _ => false,
        }
    }
}
