//! The packets that fragments complete.

ghost use Rattle.std.specs.Prelude.{◌≡◌, ◌≤◌, ◌+◌, ◌<◌, ◌^◌, IfSome, Some, length, option_map, take};
ghost use Rattle.ipcap.specs.Reassembled.{Reassembles, head_of_whole, nanoseconds_at};

use crate::totals::Totals;
use frame_reassembly::frame_reassembly::FrameReassembly;
use packet::link::LinkType;
use packet_capture::any::PacketHead;

/// Takes the frame of a packet: if it carries a fragment, that is added to its datagram. If it
/// completes that, `out` gets the frame that it completes, whose length is returned.
pub fn completed(
    totals: &mut Totals,
    frames: &mut FrameReassembly,
    head: &PacketHead,
    frame: &[u8],
    out: &mut [u8],
) -> Option<usize>
    requires room { length frame.now + 65575 ≤ length out.old }
    ensures completes { Reassembles head.now frame.now totals.old (Some frames.old) totals.new
        (Some frames.new) (option_map (λ len. take len out.new) result) }
    ensures within { IfSome result (λ len. len ≤ length out.new) }
    ensures same_len { length out.new ≡ length out.old }
{
    let mut datagrams = totals.datagrams?;
    let link_type = LinkType::from_number(u32::from(head.link_type))?;
    let len = frames.take(link_type, frame, nanoseconds_at(head), &mut datagrams, out);
    totals.datagrams = Some(datagrams);
    len
}

// The time of a packet in nanoseconds, by a clock that shows 2^63 at the start of 1970.
fn nanoseconds_at(head: &PacketHead) -> u64
    ensures value { result ≡ nanoseconds_at head.now.stamp }
{
    let time = head.time();
    // Since -2^63, the earliest that an i64 can say.
    let seconds = time.seconds.wrapping_add(1 << 63);
    let nanoseconds = u128::from(seconds) * 1_000_000_000 + u128::from(time.nanoseconds);
    let shown = nanoseconds.saturating_sub((1 << 63) * 999_999_999);
    shown.min(u128::from(u64::MAX)) as u64
}

/// The head of a packet that is put together, whose frame has `len` bytes.
pub fn head_of_whole(head: &PacketHead, len: usize) -> PacketHead
    requires fits { len < 2 ^ 32 }
    ensures value { result ≡ head_of_whole head.now len }
{
    PacketHead {
        captured_len: len as u32,
        original_len: len as u32,
        ..*head
    }
}
