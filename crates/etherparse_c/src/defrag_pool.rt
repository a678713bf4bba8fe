//! Many datagrams at once.

ghost use Rattle.std.specs.Prelude.{◌≡◌, ◌≤◌, ◌<◌, None, length};
ghost use Rattle.packet_reassembly.specs.Pool.{AreSameBut, HaveFirstHeaders, slot_at};
ghost use Rattle.c_answers.specs.DefragSlots.{Slots};
ghost use Rattle.c_answers.specs.DefragAdded.{AddsPacketInC, WritesPacketInC, vlan_id_of};

use crate::defrag_memory::DefragPoolState;
use crate::defrag_slots::Slots;
use c_answers::defrag_added::{DefragAdded, DefragWritten, vlan_id};
use c_answers::defrag_error::{DefragError, PACKET_TOO_LONG};
use std::marker::Model;

/// Many datagrams, in slots.
#[repr(C)]
pub struct DefragPool {
    /// The state that `etherparse_defrag_pool_new` made. No one else uses it.
    pub state: *mut DefragPoolState,
    /// The slots, and how long a datagram is kept.
    pub ghost pool: { Slots },
}

impl Model for DefragPool {
    ghost use Rattle.std.specs.Borrow.{full_share};
    ghost use Rattle.std.specs.Ptr.{lies_at};
    ghost use Rattle.etherparse_c.specs.DefragMemory.{pool_row};

    ghost also_owns = { λ p. lies_at pool_row full_share p.state p.pool };
}

impl DefragPool {
    ghost use Rattle.std.specs.Prelude.{◌≡◌};
    ghost use Rattle.std.specs.Borrow.{sem};
    ghost use Rattle.etherparse_c.specs.LendsPool.{LendsPool};

    // The library's value.
    fn get(&mut self) -> &mut Slots
        ensures* writes_back { sem 𝓛 (LendsPool self.entry result) }
        ensures value { result.now ≡ self.old.pool }
    {
        unsafe { &mut *(self.state as *mut Slots) }
    }
}

/// Adds the fragment that an IP packet is, in the VLANs that it came in: a number above 65535 says
/// that there is no tag. A packet that is whole is no fragment, and nothing changes.
///
/// The ECN codepoint of each fragment counts, also of an exact duplicate: if one has `CE` and another
/// `Not-ECT`, the datagram is discarded for good (RFC 3168 section 5.3).
///
/// The error is the first of these, and nothing changes: the bytes are no whole IP packet; it is the
/// first fragment of an IPv6 packet and lacks a part of the header chain; it is the first fragment
/// of a datagram and has headers of more than 1280 bytes; it is a fragment that
/// `etherparse_defrag_buf_add` refuses.
#[unsafe(no_mangle)]
pub extern "C" fn etherparse_defrag_pool_add_packet(
    pool: &mut DefragPool,
    packet: &[u8],
    outer_vlan_id: u32,
    inner_vlan_id: u32,
    now: u64,
) -> DefragAdded
    requires some { 0 < length pool.old.pool.slots }
    ensures adds { AddsPacketInC pool.old.pool packet.now (vlan_id_of outer_vlan_id)
        (vlan_id_of inner_vlan_id) now pool.new.pool result }
    ensures headers { HaveFirstHeaders pool.old.pool.slots →
        HaveFirstHeaders pool.new.pool.slots }
    ensures timeout { pool.new.pool.timeout ≡ pool.old.pool.timeout }
    ensures same_state { pool.new.state ≡ pool.old.state }
{
    let outer = vlan_id(outer_vlan_id);
    let inner = vlan_id(inner_vlan_id);
    let slots = pool.get();
    match slots.pool.add_packet(packet, outer, inner, now) {
        Ok(Some(added)) => DefragAdded::of(&added),
        Ok(None) => DefragAdded::none(DefragError::of_kind(0)),
        Err(e) => DefragAdded::none(DefragError::of_packet(&e)),
    }
}

/// Writes the packet of the datagram in a slot to the front of a buffer with room for 65575 bytes,
/// with the headers of its first fragment, and with the ECN codepoint `CE` if any fragment had it.
/// There is none if the datagram is not complete. The slots do not change: release this one once the
/// packet is done with.
///
/// The packet can be too long: its length field says 65535 at most.
#[unsafe(no_mangle)]
pub extern "C" fn etherparse_defrag_pool_write_packet(
    pool: &mut DefragPool,
    slot: usize,
    out: &mut [u8],
) -> DefragWritten
    requires within { slot < length pool.old.pool.slots }
    requires room { 65575 ≤ length out.old }
    ensures writes { WritesPacketInC (slot_at pool.old.pool.slots slot) out.old out.new result }
    ensures slots { pool.new.pool.slots ≡ pool.old.pool.slots }
    ensures timeout { pool.new.pool.timeout ≡ pool.old.pool.timeout }
    ensures same_state { pool.new.state ≡ pool.old.state }
{
    let slots = pool.get();
    match slots.pool.write_packet(slot, out) {
        Ok(Some(len)) => DefragWritten {
            len,
            error: DefragError::of_kind(0),
        },
        Ok(None) => DefragWritten {
            len: 0,
            error: DefragError::of_kind(0),
        },
        Err(_) => DefragWritten {
            len: 0,
            error: DefragError::of_kind(PACKET_TOO_LONG),
        },
    }
}

/// Takes a slot from its datagram. What has come of that stays in the slot until another datagram
/// takes it: a packet that was complete can still be written.
#[unsafe(no_mangle)]
pub extern "C" fn etherparse_defrag_pool_release(pool: &mut DefragPool, slot: usize)
    requires within { slot < length pool.old.pool.slots }
    ensures others { AreSameBut slot pool.old.pool.slots pool.new.pool.slots }
    ensures free { slot_at pool.new.pool.slots slot
        ≡ record (slot_at pool.old.pool.slots slot) { id = None } }
    ensures headers { HaveFirstHeaders pool.old.pool.slots →
        HaveFirstHeaders pool.new.pool.slots }
    ensures timeout { pool.new.pool.timeout ≡ pool.old.pool.timeout }
    ensures same_state { pool.new.state ≡ pool.old.state }
{
    let slots = pool.get();
    slots.pool.release(slot);
}
