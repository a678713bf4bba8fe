//! One datagram.

ghost use Rattle.std.specs.Prelude.{ℕ, ◌≡◌, ◌≤◌, ◌<◌, List, [], Option, Some};
ghost use Rattle.packet_reassembly.specs.Fragment.{Fragment, IsWhole, fragment};
ghost use Rattle.c_answers.specs.DefragAnswer.{AddsInC, IsStateInC, IsWrittenOut};
ghost use Rattle.c_answers.specs.DefragError.{offset_error};

use crate::defrag_memory::DefragBufState;
use c_answers::defrag_added::{COMPLETE, DISCARDED, INCOMPLETE};
use c_answers::defrag_error::{DefragError, OFFSET};
use etherparse::IpFragOffset;
use packet_reassembly::ip_defrag_buf::IpDefragBuf;
use std::marker::Model;

/// The fragments that have come of one datagram.
#[repr(C)]
pub struct DefragBuf {
    /// The state that `etherparse_defrag_buf_new` made. No one else uses it.
    pub state: *mut DefragBufState,
    /// What is kept of them; nothing, once two of them have contradicted each other.
    pub ghost fragments: { Option (List Fragment) },
}

impl Model for DefragBuf {
    ghost use Rattle.std.specs.Borrow.{full_share};
    ghost use Rattle.std.specs.Ptr.{lies_at};
    ghost use Rattle.etherparse_c.specs.DefragMemory.{buf_row};

    ghost also_owns = { λ b. lies_at buf_row full_share b.state b.fragments };
}

impl DefragBuf {
    ghost use Rattle.std.specs.Prelude.{◌≡◌};
    ghost use Rattle.std.specs.Borrow.{sem};
    ghost use Rattle.etherparse_c.specs.LendsBuf.{LendsBuf};

    // The library's value.
    fn get(&mut self) -> &mut IpDefragBuf<'static>
        ensures* writes_back { sem 𝓛 (LendsBuf self.entry result) }
        ensures value { result.now ≡ self.old.fragments }
    {
        unsafe { &mut *(self.state as *mut IpDefragBuf<'static>) }
    }
}

/// Takes a fragment. An exact duplicate of one that has come changes nothing. The datagram is
/// discarded for good if the fragment contradicts one that has come: they overlap and are not the
/// same, or one goes past the end that the other tells.
///
/// The error is the first of these: the offset is greater than 8191; the fragment has no bytes; more
/// fragments follow it, and its length is no multiple of 8; it ends past byte 65535. Nothing changes
/// then.
#[unsafe(no_mangle)]
pub extern "C" fn etherparse_defrag_buf_add(
    buf: &mut DefragBuf,
    offset: u16,
    more_fragments: bool,
    payload: &[u8],
) -> DefragError
    ensures adds { offset ≤ 8191 → AddsInC buf.old.fragments
        (fragment offset more_fragments payload.now) buf.new.fragments result }
    ensures offset { 8191 < offset → result ≡ offset_error offset }
    ensures unchanged { 8191 < offset → buf.new.fragments ≡ buf.old.fragments }
    ensures same_state { buf.new.state ≡ buf.old.state }
{
    match IpFragOffset::try_new(offset) {
        Ok(offset) => match buf.get().add(offset, more_fragments, payload) {
            Ok(()) => DefragError::of_kind(0),
            Err(e) => DefragError::of_fragment(&e),
        },
        Err(_) => DefragError {
            offset,
            ..DefragError::of_kind(OFFSET)
        },
    }
}

/// What is known of the datagram: 0 if not all of it has come, 1 if all of it has, 2 if it is
/// discarded.
#[unsafe(no_mangle)]
pub extern "C" fn etherparse_defrag_buf_datagram_state(buf: &mut DefragBuf) -> u32
    ensures state { IsStateInC buf.old.fragments result }
    ensures unchanged { buf.new.fragments ≡ buf.old.fragments }
    ensures same_state { buf.new.state ≡ buf.old.state }
{
    let buf = buf.get();
    if buf.is_discarded() {
        return DISCARDED;
    }
    match buf.datagram() {
        Some(_) => COMPLETE,
        None => INCOMPLETE,
    }
}

/// Writes the datagram to the front of a buffer, if all of it has come and there is room for it.
/// Returns its length in bytes, also if there is no room; 0 if not all of it has come, or if it is
/// discarded.
#[unsafe(no_mangle)]
pub extern "C" fn etherparse_defrag_buf_datagram(buf: &mut DefragBuf, out: &mut [u8]) -> usize
    ensures whole { (datagram : List ℕ) → IsWhole buf.old.fragments datagram →
        IsWrittenOut datagram out.old out.new result }
    ensures none { ((datagram : List ℕ) → ¬ IsWhole buf.old.fragments datagram) →
        IsWrittenOut [] out.old out.new result }
    ensures unchanged { buf.new.fragments ≡ buf.old.fragments }
    ensures same_state { buf.new.state ≡ buf.old.state }
{
    let buf = buf.get();
    match buf.datagram() {
        Some(datagram) => written_out(datagram, out),
        None => 0,
    }
}

/// Forgets all that has come.
#[unsafe(no_mangle)]
pub extern "C" fn etherparse_defrag_buf_clear(buf: &mut DefragBuf)
    ensures empty { buf.new.fragments ≡ Some [] }
    ensures same_state { buf.new.state ≡ buf.old.state }
{
    buf.get().clear();
}

// Writes bytes to the front of a buffer, if there is room. Returns how many they are.
fn written_out(bytes: &[u8], out: &mut [u8]) -> usize
    ensures written { IsWrittenOut bytes.now out.old out.new result }
{
    let len = bytes.len();
    if len <= out.len() {
        out[..len].copy_from_slice(bytes);
    }
    len
}
