//! Ethernet frames.

ghost use Rattle.std.specs.Prelude.{ℕ, ◌≡◌, ◌<◌, ◌⊎◌, IfNone, IfSome, IsSomeAnd, Option, length};
ghost use Rattle.packet.specs.SlicedPacket.{IsFrame};
ghost use Rattle.packet.specs.Transport.{HasPorts};
ghost use Rattle.packet.specs.declared.error.SliceError.{SliceError};
ghost use Rattle.packet.specs.declared.link.LinkType.{LinkType};
ghost use Rattle.packet.specs.declared.sliced_packet.SlicedPacket.{SlicedPacket as Packet};

use packet::lax_sliced_packet::LaxSlicedPacket;

/// The source port and the destination port of an Ethernet frame that carries UDP or TCP, also of
/// one that the capture truncated.
pub fn ports(frame: &[u8]) -> Option<(u16, u16)>
    ensures short { length frame.now < 14 → result ≡ None }
    ensures found { IfSome result (λ ports. (packet : Packet) × (stop : Option SliceError)
        × IsFrame LinkType.Ethernet2 frame.now packet stop
        × IsSomeAnd packet.net (λ ip. HasPorts ip ports)) }
    ensures none { IfNone result ((length frame.now < 14)
        ⊎ ((packet : Packet) × (stop : Option SliceError)
        × IsFrame LinkType.Ethernet2 frame.now packet stop
        × IfSome packet.net (λ ip. (ports : ℕ × ℕ) → ¬ HasPorts ip ports))) }
{
    match LaxSlicedPacket::from_ethernet(frame) {
        Ok(lax) => lax.packet.ports(),
        Err(_) => None,
    }
}
