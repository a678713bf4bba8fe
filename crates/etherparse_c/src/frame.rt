//! A frame in its layers in one call.

ghost use Rattle.std.specs.Prelude.{Some, length};
ghost use Rattle.packet.specs.Link.{link_type_of};
ghost use Rattle.packet.specs.SlicedPacket.{IsLaxReadingAfter, IsReadingAfter, IsReadingOf};
ghost use Rattle.c_answers.specs.Batch.{AreAnswers};
ghost use Rattle.c_answers.specs.Layers.{GetsAnswer, GivesLax, IsPacketInC, IsWholeInC};
ghost use Rattle.c_answers.specs.Layers.{OfLinkType};

use c_answers::frame::{
    Frame, lax_batch, lax_from_ether_type, lax_from_link_type, strict_from_ether_type,
    strict_from_link_type,
};
use c_answers::packet_layers::Packet;

/// The layers of a frame, as far as they can be read. The link type is a number of the registry of
/// tcpdump.org. If `checksums` is true, the checksums of the IP packet are judged.
///
/// If there are none, all else is 0, and the error is the first of these: the link type is none that
/// is read; the frame ends within its link header.
#[unsafe(no_mangle)]
pub extern "C" fn etherparse_packet_lax_from_link_type(
    link_type: u32,
    frame: &[u8],
    checksums: bool,
    answer: &mut Packet,
)
    ensures reads { GivesLax link_type checksums frame.now answer.new }
{
    lax_from_link_type(link_type, frame, checksums, answer);
}

/// The layers of a frame that is read whole. All else is 0 if it is not, and the error is what
/// `etherparse_packet_lax_from_link_type` finds.
#[unsafe(no_mangle)]
pub extern "C" fn etherparse_packet_strict_from_link_type(
    link_type: u32,
    frame: &[u8],
    checksums: bool,
    answer: &mut Packet,
)
    ensures reads { OfLinkType (link_type_of link_type)
        (λ known. GetsAnswer (IsReadingOf known frame.now)
        (IsWholeInC (length frame.now) checksums answer.new)) link_type answer.new }
{
    strict_from_link_type(link_type, frame, checksums, answer);
}

/// The layers of bytes that an EtherType names: a VLAN tag and what it tags, an IP packet, or another
/// protocol; as far as they can be read.
#[unsafe(no_mangle)]
pub extern "C" fn etherparse_packet_lax_from_ether_type(
    ether_type: u16,
    bytes: &[u8],
    checksums: bool,
    answer: &mut Packet,
)
    ensures reads { GetsAnswer (IsLaxReadingAfter (Some ether_type) bytes.now)
        (λ lax. IsPacketInC (length bytes.now) checksums lax.packet lax.stop answer.new) }
{
    lax_from_ether_type(ether_type, bytes, checksums, answer);
}

/// The same of bytes that are read whole. All else is 0 if they are not.
#[unsafe(no_mangle)]
pub extern "C" fn etherparse_packet_strict_from_ether_type(
    ether_type: u16,
    bytes: &[u8],
    checksums: bool,
    answer: &mut Packet,
)
    ensures reads { GetsAnswer (IsReadingAfter (Some ether_type) bytes.now)
        (IsWholeInC (length bytes.now) checksums answer.new) }
{
    strict_from_ether_type(ether_type, bytes, checksums, answer);
}

/// The layers of each frame of a list, as `etherparse_packet_lax_from_link_type` has them, at the
/// same place in a list of answers. It returns how many there are, which is the length of the
/// shorter list; answers after them stay as they are.
#[unsafe(no_mangle)]
pub extern "C" fn etherparse_packet_lax_batch(
    link_type: u32,
    frames: &[Frame],
    checksums: bool,
    answers: &mut [Packet],
) -> usize
    ensures reads { AreAnswers (λ frame answer.
        GivesLax link_type checksums frame.bytes.now answer)
        frames.now answers.old answers.new result }
{
    lax_batch(link_type, frames, checksums, answers)
}
