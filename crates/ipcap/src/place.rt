//! The state of a listing between two blocks, and how it can end before its capture does.

use crate::memory::Reassembly;
use crate::totals::Totals;
use packet_capture::any::Capture;
use packet_capture::capture::CutOff;
use packet_capture::pcapng::blocks::BlockError;

/// The state of a listing between two blocks. A block of the classic format is a record.
#[derive(Drop)]
pub struct Place<'a, 'b> {
    /// What is counted of the blocks before it.
    pub totals: Totals,
    /// What is known of the capture there.
    pub capture: Capture,
    /// What has come of datagrams, if packets are put together.
    pub memory: Option<Reassembly<'a, 'b>>,
}

/// How a listing ends before its capture does.
#[derive(Clone, Copy)]
pub enum End {
    /// The next block is cut off.
    CutOff(CutOff),
    /// The next block is refused for another reason.
    Refused(BlockError),
    /// The next block says how those after it are read, and it is longer than what is read; the
    /// number is its length in bytes.
    TooLong(usize),
}
