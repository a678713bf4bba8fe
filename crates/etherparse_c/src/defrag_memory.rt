//! Memory of the caller, and the values of the library in it.

ghost use Rattle.std.specs.Prelude.{ℕ, ◌≡◌, ◌≤◌, ◌<◌, ◌*◌, ◌^◌, List, length};
ghost use Rattle.std.specs.Borrow.{full_share, sem, u8};
ghost use Rattle.std.specs.Ptr.{lies_at};
ghost use base.Fml.{fsep};
ghost use denote.Array.{Array};
ghost use Rattle.packet_reassembly.specs.Pool.{no_slot};
ghost use Rattle.packet_reassembly.specs.declared.ip_defrag_pool.IpDefragSlot.{IpDefragSlot as Slot};
ghost use Rattle.etherparse_c.specs.DefragMemory.{HasRoomForBuf, HasRoomForPool, HasRoomForSlot};
ghost use Rattle.etherparse_c.specs.DefragMemory.{buf_row, empty_buf, pool_row, slot_row};

use crate::defrag_slots::Slots;
use packet_reassembly::fragment_ecn::FragmentEcn;
use packet_reassembly::ip_defrag_buf::IpDefragBuf;
use packet_reassembly::ip_defrag_headers::IpDefragHeaders;
use packet_reassembly::ip_defrag_pool::IpDefragSlot;

/// The memory of an `IpDefragBuf`.
#[repr(C)]
pub struct DefragBufState {
    words: [u64; 8],
}

/// The memory of an `IpDefragSlot`.
#[repr(C)]
pub struct DefragSlot {
    words: [u64; 21],
}

/// The memory of a pool.
#[repr(C)]
pub struct DefragPoolState {
    words: [u64; 3],
}

/// Makes the state of a datagram of which nothing has come. Its memory is at least 73727 bytes: what
/// they have before makes no difference. It belongs to the state from then on.
#[unsafe(no_mangle)]
pub unsafe extern "C" fn etherparse_defrag_buf_new(
    state: *mut DefragBufState,
    memory: *mut u8,
    len: usize,
)
    ghost before: { List ℕ }
    requires enough { 73727 ≤ len }
    requires most { len < 2 ^ 63 }
    requires* room { sem 𝓛 (fsep (HasRoomForBuf state)
        (lies_at (Array u8 len) full_share memory before)) }
    ensures* made { sem 𝓛 (lies_at buf_row full_share state empty_buf) }
{
    std::ptr::write(
        state as *mut IpDefragBuf<'static>,
        buf_over(std::slice::from_raw_parts_mut(memory, len)),
    );
}

// A datagram of which nothing has come.
fn buf_over(memory: &'static mut [u8]) -> IpDefragBuf<'static>
    requires enough { 73727 ≤ length memory.old }
    ensures empty { result ≡ empty_buf }
{
    let (bytes, rest) = memory.split_at_mut(IpDefragBuf::MAX_LEN);
    let (units, _) = rest.split_at_mut(IpDefragBuf::UNITS);
    IpDefragBuf::new(bytes, units)
}

/// Makes a slot that no datagram has. Its memory is at least 75007 bytes, and belongs to it from then
/// on.
#[unsafe(no_mangle)]
pub unsafe extern "C" fn etherparse_defrag_slot_new(
    slot: *mut DefragSlot,
    memory: *mut u8,
    len: usize,
)
    ghost before: { List ℕ }
    requires enough { 75007 ≤ len }
    requires most { len < 2 ^ 63 }
    requires* room { sem 𝓛 (fsep (HasRoomForSlot slot)
        (lies_at (Array u8 len) full_share memory before)) }
    ensures* made { sem 𝓛 (lies_at slot_row full_share slot no_slot) }
{
    std::ptr::write(
        slot as *mut IpDefragSlot<'static>,
        slot_over(std::slice::from_raw_parts_mut(memory, len)),
    );
}

// A slot that no datagram has.
fn slot_over(memory: &'static mut [u8]) -> IpDefragSlot<'static>
    requires enough { 75007 ≤ length memory.old }
    ensures empty { result ≡ no_slot }
{
    let (bytes, rest) = memory.split_at_mut(IpDefragBuf::MAX_LEN);
    let (units, rest) = rest.split_at_mut(IpDefragBuf::UNITS);
    let (headers, _) = rest.split_at_mut(IpDefragHeaders::MAX_LEN);
    IpDefragSlot {
        id: None,
        ecn: FragmentEcn::NONE,
        since: 0,
        headers: IpDefragHeaders::new(headers),
        buf: IpDefragBuf::new(bytes, units),
    }
}

/// Makes the state of a pool with these slots, which belong to it from then on. A datagram is kept
/// for `timeout` ticks of the caller's clock after its first fragment.
#[unsafe(no_mangle)]
pub unsafe extern "C" fn etherparse_defrag_pool_new(
    state: *mut DefragPoolState,
    slots: *mut DefragSlot,
    count: usize,
    timeout: u64,
)
    ghost before: { List Slot }
    requires most { count * 168 < 2 ^ 63 }
    requires* room { sem 𝓛 (fsep (HasRoomForPool state)
        (lies_at (Array slot_row count) full_share slots before)) }
    ensures* made { sem 𝓛 (lies_at pool_row full_share state
        (record { slots = before; timeout = timeout })) }
{
    std::ptr::write(
        state as *mut Slots,
        Slots::new(
            std::slice::from_raw_parts_mut(slots as *mut IpDefragSlot<'static>, count),
            timeout,
        ),
    );
}
