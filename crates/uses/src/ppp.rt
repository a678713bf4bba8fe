//! Frames of PPP.

ghost use Rattle.std.specs.Prelude.{◌≡◌, IfNone, IfSome, IsFalse, IsTrue, drop};
ghost use Rattle.packet_links.specs.Framing.{BeginsWith};
ghost use Rattle.packet_links.specs.Header.{is_ip};
ghost use Rattle.packet_links.specs.declared.framing.Framing.{Framing};
ghost use Rattle.packet_links.specs.declared.header.Header.{Header};

use packet_links::framing::Framing;

/// The IP packet that a frame of PPP carries, and what comes after it.
pub fn carried_packet(frame: &[u8]) -> Option<&[u8]>
    ensures found { IfSome result (λ packet. (header : Header)
        × BeginsWith Framing.Ppp frame.now header
        × IsTrue (is_ip header.carried) × (packet.now ≡ drop header.len frame.now)) }
    ensures none { IfNone result ((header : Header) → BeginsWith Framing.Ppp frame.now header
        → IsFalse (is_ip header.carried)) }
{
    let header = match Framing::Ppp.header(frame) {
        Ok(header) => header,
        Err(_) => return None,
    };
    if !header.carried.is_ip() {
        return None;
    }
    Some(&frame[header.len..])
}
