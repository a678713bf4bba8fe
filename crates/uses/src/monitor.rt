//! A monitor that looks into whole packets: fragments are put together first.

ghost use Rattle.std.specs.Prelude.{◌≡◌, ◌<◌, ◌≤◌, length};
ghost use Rattle.packet_reassembly.specs.Pool.{HaveFirstHeaders};
ghost use Rattle.uses.specs.Monitor.{HasPoolAfter, IsSeen, WritesSeen};

use packet_reassembly::ip_defrag_pool::{DatagramState, IpDefragPool};

/// What the monitor has of a packet that it sees.
#[derive(Clone, Copy)]
pub enum Seen {
    /// The packet itself, which is whole.
    Whole,
    /// The packet of the datagram that it completes, of so many bytes.
    PutTogether(usize),
    /// Nothing to look into, or nothing yet.
    Nothing,
}

/// What a monitor has of a packet that it sees: that packet, or the one that was cut into fragments,
/// written to `out` once the last of them has come.
pub fn watch(pool: &mut IpDefragPool, packet: &[u8], now: u64, out: &mut [u8]) -> Seen
    requires some { 0 < length pool.old.slots.now }
    requires headers { HaveFirstHeaders pool.old.slots.now }
    requires room { 65575 ≤ length out.old }
    ensures seen { IsSeen pool.old.slots.now packet.now pool.old.timeout now out.new result }
    ensures headers { HaveFirstHeaders pool.new.slots.now }
    ensures pool { HasPoolAfter pool.old.slots.now packet.now pool.old.timeout now
        pool.new.slots.now }
    ensures timeout { pool.new.timeout ≡ pool.old.timeout }
    ensures written { WritesSeen result out.old out.new }
{
    let added = match pool.add_packet(packet, None, None, now) {
        Ok(Some(added)) => added,
        Ok(None) => return Seen::Whole,
        Err(_) => return Seen::Nothing,
    };
    match added.state {
        DatagramState::Complete => {}
        _ => return Seen::Nothing,
    }
    let written = pool.write_packet(added.slot, out);
    pool.release(added.slot);
    let found = match written {
        Ok(found) => found,
        Err(_) => return Seen::Nothing,
    };
    match found {
        Some(len) => Seen::PutTogether(len),
        None => unreachable!(), // The headers of the first fragment are there.
    }
}
