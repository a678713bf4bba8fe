//! Callers of `packet_reassembly`.

ghost use Rattle.std.specs.Prelude.{ℕ, ◌≡◌, ◌<◌, ◌≤◌, List, None, length};
ghost use Rattle.std.specs.Prelude.{IfErr, IfNone, IfOk, IfSome, OnErr};
ghost use Rattle.packet_reassembly.specs.Arrivals.{HoldDatagram, came};
ghost use Rattle.packet_reassembly.specs.IpFragment.{IsNoFragment};
ghost use Rattle.packet_reassembly.specs.PacketAdded.{IsPacketAdded, RefusesPacket};

use packet_reassembly::ip_defrag_packet::IpDefragPacketError;
use packet_reassembly::ip_defrag_pool::{Added, IpDefragPool, IpDefragSlot};
use packet_reassembly::reassemble::{IpFragment, reassemble};

/// How long the datagram is that these fragments are, in bytes, in whichever order they came.
pub fn datagram_len(bytes: &mut [u8], units: &mut [u8], fragments: &[IpFragment]) -> Option<usize>
    requires bytes { 65535 ≤ length bytes.old }
    requires units { 8192 ≤ length units.old }
    ensures found { IfSome result (λ len. (datagram : List ℕ)
        × HoldDatagram (came fragments.now) datagram × (length datagram ≡ len)) }
    ensures none { IfNone result ((datagram : List ℕ) →
        ¬ HoldDatagram (came fragments.now) datagram) }
{
    let buf = reassemble(bytes, units, fragments);
    match buf.datagram() {
        Some(datagram) => Some(datagram.len()),
        None => None,
    }
}

/// Adds a packet to the datagrams in slots that a caller keeps, by a pool for this packet alone.
pub fn added_to(
    slots: &mut [IpDefragSlot],
    packet: &[u8],
    now: u64,
) -> Result<Option<Added>, IpDefragPacketError>
    requires some { 0 < length slots.old }
    ensures added { IfOk result (λ found. IfSome found (IsPacketAdded slots.old packet.now None None
        60 now slots.new)) }
    ensures none { IfOk result (λ found. IfNone found (IsNoFragment packet.now)) }
    ensures kept { IfOk result (λ found. IfNone found (slots.new ≡ slots.old)) }
    ensures refused { IfErr result (RefusesPacket packet.now) }
    ensures unchanged { OnErr result (slots.new ≡ slots.old) }
{
    let mut pool = IpDefragPool {
        slots,
        timeout: IpDefragPool::TIMEOUT_SECONDS,
    };
    pool.add_packet(packet, None, None, now)
}
