//! A host that sends: headers that are made for a payload.

ghost use Rattle.std.specs.Prelude.{ℕ, ◌≡◌, ◌≤◌, ◌+◌, ◌-◌, ◌↔◌, List, ◌++◌, IfSome, IsSome};
ghost use Rattle.std.specs.Prelude.{length};
ghost use Rattle.etherparse.specs.Ipv4Options.{IsOptionsLen};
ghost use Rattle.etherparse.specs.WordSums.{SumsToAllOnes};
ghost use Rattle.uses.specs.Payload.{HasIpv4Payload};
ghost use Rattle.uses.specs.Send.{IsFrontFor};

use arrayvec::ArrayVec;
use etherparse::Ipv4Header;

/// The bytes of this header with these options, a total length for this payload and a right
/// checksum; `None` if options cannot have that many bytes, or if the payload does not fit after
/// them. Whoever reads a packet of these bytes and the payload, and cuts it at its total length,
/// gets this payload, whatever follows it, such as the padding of a frame.
pub fn ipv4_front_for(
    mut header: Ipv4Header,
    options: &[u8],
    payload: &[u8],
) -> Option<ArrayVec<u8, 60>>
    ensures fits { IsSome result ↔ (IsOptionsLen (length options.now)
        × (20 + length options.now + length payload.now ≤ 65535)) }
    ensures front { IfSome result (λ bytes.
        IsFrontFor header options.now payload.now bytes.items) }
    ensures received { IfSome result (λ bytes. (padding : List ℕ) → (payload_read : List ℕ) →
        HasIpv4Payload (bytes.items ++ (payload.now ++ padding)) payload_read →
        payload_read ≡ payload.now) }
    ensures right { IfSome result (λ bytes. SumsToAllOnes bytes.items) }
{
    let Ok(()) = header.set_options(options) else {
        return None;
    };
    let Ok(()) = header.set_payload_len(payload.len()) else {
        return None;
    };
    header.set_checksum();
    Some(header.to_bytes())
}
