//! A frame in its layers in one call.

ghost use Rattle.std.specs.Prelude.{◌≡◌, ◌≢◌, ◌<◌, IsTrue, Some, false, length};
ghost use Rattle.packet.specs.Link.{link_type_of};
ghost use Rattle.packet.specs.SlicedPacket.{IsLaxReadingAfter, IsLaxReadingOf};
ghost use Rattle.packet.specs.SlicedPacket.{IsReadingAfter, IsReadingOf};
ghost use Rattle.c_answers.specs.Batch.{AreAnswers};
ghost use Rattle.c_answers.specs.Layers.{GetsAnswer, GivesLax, IsLaxInC, IsPacketInC, IsWholeInC};
ghost use Rattle.c_answers.specs.Layers.{OfLinkType, refused_packet};

use crate::error::Error;
use crate::packet_layers::{Packet, packet_of};
use crate::store::put_whole;
use etherparse_link::EtherType;
use packet::lax_sliced_packet::{LaxSlicedPacket, frame_layers, layers_after};
use packet::link::LinkType;

/// The layers of a frame, as far as they can be read. The link type is a number of the registry of
/// tcpdump.org. If `checksums` is true, the checksums of the IP packet are judged.
///
/// If there are none, all else is 0, and the error is the first of these: the link type is none that
/// is read; the frame ends within its link header.
pub fn lax_from_link_type(link_type: u32, frame: &[u8], checksums: bool, answer: &mut Packet)
    ensures reads { GivesLax link_type checksums frame.now answer.new }
{
    put(
        LinkType::from_number(link_type),
        link_type,
        frame,
        !checksums,
        checksums,
        answer,
    );
}

/// The layers of a frame that is read whole. All else is 0 if it is not, and the error is what
/// `lax_from_link_type` finds.
pub fn strict_from_link_type(link_type: u32, frame: &[u8], checksums: bool, answer: &mut Packet)
    ensures reads { OfLinkType (link_type_of link_type)
        (λ known. GetsAnswer (IsReadingOf known frame.now)
        (IsWholeInC (length frame.now) checksums answer.new)) link_type answer.new }
{
    match LinkType::from_number(link_type) {
        Some(link_type) => {
            put_as_read(link_type, frame, checksums, answer);
            refuse_stopped(answer);
        }
        None => *answer = refused(Error::of_link_type(link_type)),
    }
}

/// The layers of bytes that an EtherType names: a VLAN tag and what it tags, an IP packet, or another
/// protocol; as far as they can be read.
pub fn lax_from_ether_type(ether_type: u16, bytes: &[u8], checksums: bool, answer: &mut Packet)
    ensures reads { GetsAnswer (IsLaxReadingAfter (Some ether_type) bytes.now)
        (λ lax. IsPacketInC (length bytes.now) checksums lax.packet lax.stop answer.new) }
{
    let LaxSlicedPacket { packet, stop } = layers_after(Some(EtherType(ether_type)), bytes);
    *answer = packet_of(bytes.len(), &packet, &stop, checksums);
}

/// The same of bytes that are read whole. All else is 0 if they are not.
pub fn strict_from_ether_type(ether_type: u16, bytes: &[u8], checksums: bool, answer: &mut Packet)
    ensures reads { GetsAnswer (IsReadingAfter (Some ether_type) bytes.now)
        (IsWholeInC (length bytes.now) checksums answer.new) }
{
    lax_from_ether_type(ether_type, bytes, checksums, answer);
    refuse_stopped(answer);
}

/// A frame of a list.
#[repr(C)]
#[derive(Drop)]
pub struct Frame<'a> {
    /// What there is of it.
    pub bytes: &'a [u8],
    /// How many bytes it had on the wire; a capture can have fewer.
    pub original_len: usize,
}

/// The layers of each frame of a list, as `lax_from_link_type` has them, at the
/// same place in a list of answers. It returns how many there are, which is the length of the
/// shorter list; answers after them stay as they are.
pub fn lax_batch(link_type: u32, frames: &[Frame], checksums: bool, answers: &mut [Packet]) -> usize
    ensures reads { AreAnswers (λ frame answer.
        GivesLax link_type checksums frame.bytes.now answer)
        frames.now answers.old answers.new result }
{
    let known = LinkType::from_number(link_type);
    let count = frames.len().min(answers.len());
    let mut next = has_ether_type(frames, 0);
    for i in 0..count {
        // The next frame is looked at before this one is stored, so that it is on its way to the
        // processor meanwhile.
        let in_one_pass = next && !checksums;
        next = has_ether_type(frames, i + 1);
        put(
            known,
            link_type,
            frames[i].bytes,
            in_one_pass,
            checksums,
            &mut answers[i],
        );
    }
    count
}

// Whether there is a frame at a place, with an EtherType other than 0 where Ethernet has it.
#[inline(always)]
fn has_ether_type(frames: &[Frame], place: usize) -> bool
    ensures there { IsTrue result → place < length frames.now }
{
    match frames.get(place) {
        Some(frame) => {
            let bytes = frame.bytes;
            bytes.len() >= 14 && u16::from_be_bytes([bytes[12], bytes[13]]) != 0
        }
        None => false,
    }
}

// The layers of a frame of the link type of a number, or the error of one that is not read. That of
// Ethernet is known where its code is compiled.
#[inline(always)]
fn put(
    known: Option<LinkType>,
    number: u32,
    frame: &[u8],
    in_one_pass: bool,
    checksums: bool,
    answer: &mut Packet,
)
    requires known { known ≡ link_type_of number }
    requires unjudged { IsTrue in_one_pass → checksums ≡ false }
    ensures reads { GivesLax number checksums frame.now answer.new }
{
    match known {
        Some(LinkType::Ethernet2) => put_ethernet(frame, in_one_pass, checksums, answer),
        Some(link_type) => put_as_read(link_type, frame, checksums, answer),
        None => *answer = refused(Error::of_link_type(number)),
    }
}

// The layers of an Ethernet frame: in one pass, if that is asked for and nothing stops its reading.
#[inline(always)]
fn put_ethernet(frame: &[u8], in_one_pass: bool, checksums: bool, answer: &mut Packet)
    requires unjudged { IsTrue in_one_pass → checksums ≡ false }
    ensures reads { GetsAnswer (IsLaxReadingOf LinkType.Ethernet2 frame.now)
        (IsLaxInC (length frame.now) checksums answer.new) }
{
    if in_one_pass && put_whole(frame, answer) {
        return;
    }
    put_as_read(LinkType::Ethernet2, frame, checksums, answer);
}

// The layers of a frame of a link type that is read.
#[inline(never)]
fn put_as_read(link_type: LinkType, frame: &[u8], checksums: bool, answer: &mut Packet)
    ensures reads { GetsAnswer (IsLaxReadingOf link_type frame.now)
        (IsLaxInC (length frame.now) checksums answer.new) }
{
    put_lax(link_type, frame, checksums, answer);
}

// The same, compiled into its caller.
#[inline(always)]
fn put_lax(link_type: LinkType, frame: &[u8], checksums: bool, answer: &mut Packet)
    ensures reads { GetsAnswer (IsLaxReadingOf link_type frame.now)
        (IsLaxInC (length frame.now) checksums answer.new) }
{
    *answer = match frame_layers(link_type, frame) {
        Ok(lax) => {
            let LaxSlicedPacket { packet, stop } = lax;
            packet_of(frame.len(), &packet, &stop, checksums)
        }
        Err(e) => refused(Error::of_link(&e)),
    };
}

// Of layers that something stopped, the error alone.
fn refuse_stopped(answer: &mut Packet)
    ensures whole { answer.old.stop.kind ≡ 0 → answer.new ≡ answer.old }
    ensures refused { answer.old.stop.kind ≢ 0 → answer.new ≡ refused_packet answer.old.stop }
{
    if answer.stop.kind != 0 {
        // Each field by itself: as a whole it would be copied by `memcpy` of the C library.
        let Error {
            kind,
            number,
            layer,
            required_len,
            len,
            layer_start_offset,
            limit,
        } = answer.stop;
        *answer = refused(Error {
            kind,
            number,
            layer,
            required_len,
            len,
            layer_start_offset,
            limit,
        });
    }
}

// No layers, but an error.
#[inline(always)]
fn refused(error: Error) -> Packet
    ensures value { result ≡ refused_packet error }
{
    Packet {
        stop: error,
        ..Packet::default()
    }
}
