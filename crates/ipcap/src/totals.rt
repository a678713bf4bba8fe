//! What is counted.

ghost use Rattle.std.specs.Prelude.{◌≡◌, ◌+◌, ◌-◌, ◌^◌, IsFalse, IsTrue};

use crate::reading::{Reading, is_cut};
use frame_reassembly::datagrams::Datagrams;
use packet_capture::any::PacketHead;
use packet_parts::ip_slice::IpHeaderSlice;

/// How many packets there were, how many of them are listed, and of which kinds these are.
#[derive(Clone, Copy)]
pub struct Totals {
    /// All of them.
    pub records: u64,
    /// Those that are listed: all, or those that match the expression.
    pub listed: u64,
    /// Those that are shown as IPv4 packets.
    pub ipv4: u64,
    /// Those that are shown as IPv6 packets.
    pub ipv6: u64,
    /// Those whose frames carry no IP packet.
    pub other: u64,
    /// Those that are refused.
    pub refused: u64,
    /// Those that are skipped, listed or not.
    pub skipped: u64,
    /// Those with fewer captured bytes than the packet had.
    pub cut: u64,
    /// Those with a wrong checksum.
    pub wrong: u64,
    /// The bytes of all blocks so far, of packets or not, or 2^64 - 1 if there are more.
    pub bytes: u64,
    /// How many datagrams there were, if packets are put together.
    pub datagrams: Option<Datagrams>,
}

impl Totals {
    ghost use Rattle.std.specs.Prelude.{◌≡◌, Bool, IsFalse, IsTrue, None, Some};
    ghost use Rattle.ipcap.specs.Totals.{HasRoom, counted, counted_as, first_totals, no_packet};
    ghost use Rattle.ipcap.specs.Totals.{packet};

    /// No record, and no datagram if packets are put together.
    pub fn none(reassembles: bool) -> Totals
        ensures value { result ≡ first_totals reassembles }
    {
        Totals {
            records: 0,
            listed: 0,
            ipv4: 0,
            ipv6: 0,
            other: 0,
            refused: 0,
            skipped: 0,
            cut: 0,
            wrong: 0,
            bytes: 0,
            datagrams: reassembles.then_some(Datagrams::none()),
        }
    }

    /// Counts one more packet that is listed, in a block of `len` bytes. If a count of packets would
    /// exceed 2^64 - 1, nothing is counted, and the answer is `false`.
    #[inline(always)] // A reading that is only counted is then never in memory.
    pub fn count(&mut self, len: usize, head: &PacketHead, reading: &Reading) -> bool
        ensures counted { IsTrue result → (is_long is_reassembled : Bool) → self.new
            ≡ counted len is_long (packet is_reassembled head.now (Some reading.now)) self.old }
        ensures full { IsFalse result → ¬ HasRoom self.old }
        ensures kept { IsFalse result → self.new ≡ self.old }
    {
        let (cut, wrong) = (is_cut(head), reading.has_wrong_checksum());
        let (Some(records), Some(listed), Some(cut), Some(wrong)) = (
            self.records.checked_add(1),
            self.listed.checked_add(1),
            self.cut.checked_add(u64::from(cut)),
            self.wrong.checked_add(u64::from(wrong)),
        ) else {
            return false;
        };
        if !self.count_as(reading) {
            return false;
        }
        self.records = records;
        self.listed = listed;
        self.cut = cut;
        self.wrong = wrong;
        self.bytes = self.bytes.saturating_add(len as u64);
        true
    }

    /// Counts one more packet that is not listed, in a block of `len` bytes, which is too long or
    /// not. If a count of packets would exceed 2^64 - 1, nothing is counted, and the answer is
    /// `false`.
    pub fn pass(&mut self, len: usize, is_long: bool, head: &PacketHead) -> bool
        ensures counted { IsTrue result → (is_reassembled : Bool) → self.new
            ≡ counted len is_long (packet is_reassembled head.now None) self.old }
        ensures full { IsFalse result → ¬ HasRoom self.old }
        ensures kept { IsFalse result → self.new ≡ self.old }
    {
        let (Some(records), Some(skipped)) = (
            self.records.checked_add(1),
            self.skipped.checked_add(u64::from(is_long)),
        ) else {
            return false;
        };
        self.records = records;
        self.skipped = skipped;
        self.bytes = self.bytes.saturating_add(len as u64);
        true
    }

    /// Counts one more block of `len` bytes, which has no packet.
    pub fn pass_block(&mut self, len: usize)
        ensures counted { (is_long : Bool) → self.new ≡ counted len is_long no_packet self.old }
    {
        self.bytes = self.bytes.saturating_add(len as u64);
    }

    // Counts one more record of its kind, if that count has room.
    fn count_as(&mut self, reading: &Reading) -> bool
        ensures counted { IsTrue result → self.new ≡ counted_as reading.now self.old }
        ensures full { IsFalse result → ¬ HasRoom self.old }
        ensures kept { IsFalse result → self.new ≡ self.old }
    {
        match reading {
            Reading::Packet(shown) => match shown.lax.slice.header {
                IpHeaderSlice::Ipv4(_) => add_one(&mut self.ipv4),
                IpHeaderSlice::Ipv6(_) => add_one(&mut self.ipv6),
            },
            Reading::Other(_) => add_one(&mut self.other),
            Reading::Refused(_) => add_one(&mut self.refused),
            Reading::Skipped => add_one(&mut self.skipped),
        }
    }
}

// Adds one to a count, if it has room.
fn add_one(count: &mut u64) -> bool
    ensures added { IsTrue result → count.new ≡ count.old + 1 }
    ensures full { IsFalse result → count.old ≡ 2 ^ 64 - 1 }
    ensures kept { IsFalse result → count.new ≡ count.old }
{
    match count.checked_add(1) {
        Some(after) => {
            *count = after;
            true
        }
        None => false,
    }
}
