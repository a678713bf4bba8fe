//! Laws: the text of each error that a call returns is the library's own; the parts of a packet are
//! the bytes at their places. Nothing calls these functions: they are there to be proved.

ghost use Rattle.std.specs.Prelude.{ℕ, ◌≡◌, ◌<◌, Bool, List, Err, Option, length};
ghost use Rattle.etherparse.specs.ExtensionHeaderChain.{WalksUpTo};
ghost use Rattle.etherparse.specs.Ipv4Errors.{ipv4_header_slice_error_text};
ghost use Rattle.etherparse.specs.Ipv4Header.{ReadsIpv4, ipv4_payload_len};
ghost use Rattle.etherparse.specs.Ipv6Errors.{chain_error_text, ipv6_header_slice_error_text};
ghost use Rattle.etherparse.specs.Ipv6Header.{ReadsIpv6};
ghost use Rattle.etherparse.specs.LenError.{len_error_text};
ghost use Rattle.etherparse.specs.declared.err.LenError.{LenError};
ghost use Rattle.etherparse.specs.declared.err.ipv4.HeaderSliceError as ipv4;
ghost use Rattle.etherparse.specs.declared.err.ipv6.ChainError as ipv6_chain;
ghost use Rattle.etherparse.specs.declared.err.ipv6.HeaderSliceError as ipv6;
ghost use Rattle.etherparse.specs.declared.net.ipv4_header.Ipv4Header.{Ipv4Header};
ghost use Rattle.c_answers.specs.Error.{chain_error_in_c, ipv4_error_in_c, ipv6_error_in_c};
ghost use Rattle.c_answers.specs.Error.{len_error_in_c};
ghost use Rattle.c_answers.specs.Text.{GivesText};
ghost use Rattle.c_answers.specs.Layers.{IsPacketInC, LieThere};
ghost use Rattle.c_answers.specs.declared.packet_layers.Packet.{Packet};
ghost use Rattle.packet.specs.SlicedPacket.{IsFrame};
ghost use Rattle.packet.specs.declared.error.SliceError.{SliceError};
ghost use Rattle.packet.specs.declared.link.LinkType.{LinkType};
ghost use Rattle.packet.specs.declared.sliced_packet.SlicedPacket.{SlicedPacket};

use crate::error::Error;
use crate::error_text::put_error;

// For the numbers of each error that a reader, a walk or the call for lengths returns, whatever its
// arguments. An error of one skip is one of the walk, and each error of the walk is one of the walk
// with a limit above the number of headers before it.
fn text_of_answers(error: &Error, text: &mut [u8]) -> usize
    ensures ipv4 { (s : List ℕ) (e : ipv4.HeaderSliceError) → ReadsIpv4 s (Err e) →
        error.now ≡ ipv4_error_in_c e →
        GivesText (ipv4_header_slice_error_text e) text.old text.new result }
    ensures ipv6 { (s : List ℕ) (e : ipv6.HeaderSliceError) → ReadsIpv6 s (Err e) →
        error.now ≡ ipv6_error_in_c e →
        GivesText (ipv6_header_slice_error_text e) text.old text.new result }
    ensures lengths { (header : Ipv4Header) (e : LenError) → ipv4_payload_len header ≡ Err e →
        error.now ≡ len_error_in_c e → GivesText (len_error_text e) text.old text.new result }
    ensures walk_up_to { (limit : ℕ) (s : List ℕ) (first : ℕ) (e : ipv6_chain.ChainError) →
        WalksUpTo limit s first (Err e) → error.now ≡ chain_error_in_c e →
        GivesText (chain_error_text e) text.old text.new result }
{
    put_error(error, text)
}

// Where C is told that the payload of a frame's link and the parts of its IP packet are, there are
// those bytes.
fn parts_of_answers()
    ensures lie_there { (link_type : LinkType) → (frame : List ℕ) → (packet : SlicedPacket) →
        (stop : Option SliceError) → (checksums : Bool) → (in_c : Packet) →
        IsFrame link_type frame packet stop →
        IsPacketInC (length frame) checksums packet stop in_c → LieThere frame packet in_c }
{}
