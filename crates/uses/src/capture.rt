//! A reader of captures: the records of a file in memory, one after the other.

ghost use Rattle.std.specs.Prelude.{IfErr, IfOk, MatchOption};
ghost use Rattle.std.specs.Bool.{OnFalse, OnTrue};
ghost use Rattle.uses.specs.Capture.{HasFirstWrong, HasNoWrong, IsJudged, IsNotWrong};
ghost use Rattle.uses.specs.Capture.{RefusesCapture};

use packet_capture::capture::{CaptureError, CutOff, FileHeader, Record, next_record};
use packet_parts::checksum::Verdict;
use packet_parts::ip_slice::IpSlice;

/// Why a capture is not read to its end.
#[derive(Clone, Copy)]
pub enum Refusal {
    /// It does not begin with a file header.
    Header(CaptureError),
    /// The link type, which is not 101: its packets do not begin with their IP headers.
    LinkType(u32),
    /// It ends within a record.
    CutOff(CutOff),
}

/// The first record whose packet has a wrong checksum of UDP, TCP, ICMP or ICMPv6; `None` if there
/// is none. Packets that are cut short, that are not IP, or that have no checksum are passed over.
///
/// # Errors
///
/// In this order: `Header`; `LinkType`; `CutOff`, if no record before it has such a packet.
pub fn first_wrong(file: &[u8]) -> Result<Option<Record>, Refusal>
    ensures found { IfOk result (λ found.
        MatchOption found (HasNoWrong file.now) (HasFirstWrong file.now)) }
    ensures refused { IfErr result (RefusesCapture file.now) }
{
    let (header, records) = match FileHeader::from_slice(file) {
        Ok(read) => read,
        Err(e) => return Err(Refusal::Header(e)),
    };
    if header.link_type != 101 {
        return Err(Refusal::LinkType(header.link_type));
    }
    let mut rest = records;
    'records: loop {
        let (record, after) = match next_record(&header, rest) {
            Ok(Some(next)) => next,
            Ok(None) => return Ok(None),
            Err(e) => return Err(Refusal::CutOff(e)),
        };
        if is_wrong(record.bytes) {
            return Ok(Some(record));
        }
        rest = after;
    }
}

// Whether a receiver finds the checksum of a packet wrong.
fn is_wrong(packet: &[u8]) -> bool
    ensures yes { OnTrue result (IsJudged packet.now Verdict.Wrong) }
    ensures no { OnFalse result (IsNotWrong packet.now) }
{
    match IpSlice::from_slice(packet) {
        Ok(slice) => matches!(slice.verdict(), Verdict::Wrong),
        Err(_) => false,
    }
}
