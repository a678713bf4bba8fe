//! The memory in which packets are put together.

ghost use Rattle.std.specs.Prelude.{◌≡◌, ◌≤◌, ◌*◌, All, IfOk, None, length, vec_len};

use frame_reassembly::frame_reassembly::FrameReassembly;
use packet_reassembly::fragment_ecn::FragmentEcn;
use packet_reassembly::ip_defrag_buf::IpDefragBuf;
use packet_reassembly::ip_defrag_headers::IpDefragHeaders;
use packet_reassembly::ip_defrag_pool::IpDefragSlot;
use std::alloc::{AllocError, Global};
use std::marker::Model;

/// The room for the frame of a packet that is put together: for the longest block that is read, and
/// for the longest packet.
pub const FRAME_ROOM: usize = 393_255;

/// The bytes that a datagram takes: its headers, its payload, and a table of what has come of it.
pub const SLOT_LEN: usize = 75_007;

/// What has come of datagrams, and room for a frame that is put together. A contract sees it as the
/// list of the slots of the datagrams.
#[derive(Drop)]
pub struct Reassembly<'a, 'b> {
    pub frames: FrameReassembly<'a, 'b>,
    pub out: &'a mut [u8],
}

impl<'a, 'b> Model for Reassembly<'a, 'b> {
    ghost use Rattle.std.specs.Prelude.{◌≡◌, List, length};
    ghost use Rattle.packet_reassembly.specs.declared.ip_defrag_pool.IpDefragSlot.{IpDefragSlot};

    ghost Value = { List IpDefragSlot };

    ghost view = { λ s. s.frames };

    ghost invariant = { λ s. length s.out.now ≡ 393255 };
}

impl<'a, 'b> Reassembly<'a, 'b> {
    /// With these slots, which no datagram has, and this room for a frame.
    pub fn new(slots: &'a mut [IpDefragSlot<'b>], out: &'a mut [u8]) -> Reassembly<'a, 'b>
        requires len { length slots.old ≡ 32 }
        requires free { All (λ slot. slot.id ≡ None) slots.old }
        requires room { length out.old ≡ 393255 }
        ensures slots { result ≡ slots.old }
    {
        Reassembly {
            frames: FrameReassembly::new(slots),
            out,
        }
    }
}

/// Slots in this memory, which no datagram has.
///
/// # Errors
///
/// An `AllocError` if there is no memory for the list of them.
pub fn slots_in(alloc: Global, memory: &mut [u8]) -> Result<Vec<IpDefragSlot>, AllocError>
    requires memory { 32 * 75007 ≤ length memory.old }
    ensures free { IfOk result (λ slots. All (λ slot. slot.id ≡ None) slots.items) }
    ensures len { IfOk result (λ slots. vec_len slots ≡ 32) }
{
    let mut slots = Vec::with_capacity(alloc, FrameReassembly::SLOTS)?;
    let mut memory = memory;
    'slots: while slots.len() < FrameReassembly::SLOTS {
        let (piece, rest) = memory.split_at_mut(SLOT_LEN);
        memory = rest;
        slots.push(slot_in(piece))?;
    }
    Ok(slots)
}

// A slot in this memory, which no datagram has.
fn slot_in(memory: &mut [u8]) -> IpDefragSlot
    requires memory { 75007 ≤ length memory.old }
    ensures free { result.id ≡ None }
{
    let (headers, memory) = memory.split_at_mut(IpDefragHeaders::MAX_LEN);
    let (bytes, units) = memory.split_at_mut(IpDefragBuf::MAX_LEN);
    IpDefragSlot {
        id: None,
        ecn: FragmentEcn::NONE,
        since: 0,
        headers: IpDefragHeaders::new(headers),
        buf: IpDefragBuf::new(bytes, units),
    }
}
