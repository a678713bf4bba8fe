//! The whole run: a capture in, lines or records out.

ghost use Rattle.std.specs.Prelude.{◌≡◌, ◌<◌, ◌⊎◌, [], IfErr, IfNone, IfOk, IfSome, IsFalse, IsTrue, OnOk};
ghost use Rattle.std.specs.Prelude.{length};
ghost use Rattle.std.specs.Io.KnownBytes.{IsAtEnd};
ghost use Rattle.ipcap.specs.Output.{Fails, HasReadFrames, IsOutcome, Writes, header_len};
ghost use Rattle.ipcap.specs.Output.{status_at};
ghost use Rattle.ipcap.specs.Private.Ended.{FailsListing, HasUnreadFrames, LacksFront};
ghost use Rattle.ipcap.specs.Private.Ended.{WritesListing};
ghost use Rattle.ipcap.specs.Streams.{CannotRead, NoReadFails, NoWriteFails, Takes, pending};
ghost use Rattle.ipcap.specs.Streams.{unlisted, unread};

use crate::failure::Failure;
use crate::input::Input;
use crate::lines::{Closing, LinkTypeLine, NoCaptureLine, Report};
use crate::memory::Reassembly;
use crate::output::Output;
use crate::place::{End, Place};
use crate::request::Request;
use crate::status::Status;
use crate::streams::{Sink, Source};
use crate::totals::Totals;
use packet::link::LinkType;
use packet_capture::any::Capture;
use packet_capture::capture::{CaptureError, FileHeader};

/// Reads a capture in the classic format or in pcapng, and writes to `output` what is asked for of
/// each packet that is listed: its line; or its record or block as it came, where the file header
/// and the blocks without a packet stay as they came; or nothing.
///
/// With an expression those packets are listed whose frame it is true of; the lines have the
/// numbers that the packets have in the capture, and the closing line says how many of how many it
/// is true of. The run ends with the capture, or at a block that is refused, or once as many are
/// listed as were asked for, and then reads no more. The closing line goes to `errors`; that of a
/// quiet run to `output`, and there, if it is asked for, how many are listed. If the input is no
/// capture, or in the classic format one of a link type that is not read, or its last block is cut
/// off, or one is refused, `errors` gets a line on that. Whether `errors` takes its lines changes
/// nothing else. It allocates no memory.
///
/// # Errors
///
/// The run ends as soon as a read or a write to `output` fails, or a count is full; what is written
/// of the records before a read that fails is written.
pub fn run<R: Source, W: Sink, E: Sink>(
    request: &Request,
    memory: Option<Reassembly>,
    input: &mut Input<R>,
    output: &mut Output<W>,
    errors: &mut Output<E>,
) -> Result<Status, Failure>
    requires fresh { (pending output.old ≡ []) × (pending errors.old ≡ []) }
    requires reads_on { R.goes_on input.old.source }
    ensures output { IfOk result (λ status. IfSome (unlisted R.remaining input.old) (λ bytes.
        Writes W.contents E.contents E.has_failed (IsOutcome request.now memory.entry bytes) status
        output.old output.new errors.old errors.new)) }
    ensures failed { IfErr result (λ e. Fails R.remaining W.contents R.has_failed W.has_failed
        request.now memory.entry e input.old input.new output.old output.new errors.old errors.new) }
    ensures unfailed { OnOk result (NoReadFails R.has_failed input.old input.new) }
    ensures unfailed_writes { OnOk result (NoWriteFails W.has_failed output.old output.new) }
{
    fill_to_front(input, output)?;
    let front = input.unread();
    let capture = match Capture::from_slice(front) {
        Ok((capture, _)) => capture,
        Err(e) => {
            errors.report(NoCaptureLine(e));
            return Ok(Status::NoCapture);
        }
    };
    match unread_link_type(&capture) {
        Some(number) => {
            errors.report(LinkTypeLine(number));
            return Ok(Status::NoCapture);
        }
        None => {}
    }
    let len = header_len(&capture);
    output.copy_if(request.copies(), &front[..len])?;
    input.pass(len);
    list_blocks(request, memory, capture, input, output, errors)
}

// The link type that a capture has for all its frames, if that is not read.
fn unread_link_type(capture: &Capture) -> Option<u32>
    ensures some { IfSome result (HasUnreadFrames capture.now) }
    ensures none { IfNone result (HasReadFrames capture.now) }
{
    match capture {
        Capture::Pcap(header) => {
            let number = header.link_type % 65_536;
            match LinkType::from_number(number) {
                Some(_) => None,
                None => Some(number),
            }
        }
        Capture::Pcapng(_) => None,
    }
}

// How many bytes stand before the first block.
fn header_len(capture: &Capture) -> usize
    ensures value { result ≡ header_len capture.now }
{
    match capture {
        Capture::Pcap(_) => FileHeader::LEN,
        Capture::Pcapng(_) => 0,
    }
}

// Reads until the front of a capture can be told, or the input is at its end.
fn fill_to_front<R: Source, W: Sink>(
    input: &mut Input<R>,
    output: &Output<W>,
) -> Result<(), Failure>
    requires written { pending output.now ≡ [] }
    requires reads_on { R.goes_on input.old.source }
    ensures takes { Takes R.remaining input.old input.new [] }
    ensures enough { OnOk result ((¬ LacksFront (unread input.new))
        ⊎ IsAtEnd (R.remaining input.new.source)) }
    ensures failed { IfErr result (λ e. (e ≡ Failure.Read) × CannotRead R.has_failed input.new
        × LacksFront (unread input.new)) }
    ensures unfailed { OnOk result (NoReadFails R.has_failed input.old input.new) }
    ensures goes_on { OnOk result ((¬ LacksFront (unread input.new)) → R.goes_on input.new.source) }
{
    'reads: while lacks_front(input.unread()) {
        if !input.fill(output)? {
            return Ok(());
        }
    }
    Ok(())
}

// Whether bytes are too few for the front of a capture.
fn lacks_front(bytes: &[u8]) -> bool
    ensures few { IsTrue result → LacksFront bytes.now }
    ensures enough { IsFalse result → ¬ LacksFront bytes.now }
    ensures room { IsTrue result → length bytes.now < 24 }
{
    matches!(Capture::from_slice(bytes), Err(CaptureError::CutOff(_)))
}

// Lists the blocks of a capture, and writes the lines at the end.
fn list_blocks<R: Source, W: Sink, E: Sink>(
    request: &Request,
    memory: Option<Reassembly>,
    capture: Capture,
    input: &mut Input<R>,
    output: &mut Output<W>,
    errors: &mut Output<E>,
) -> Result<Status, Failure>
    requires fresh { pending errors.old ≡ [] }
    requires reads_on { R.goes_on input.old.source }
    ensures output { IfOk result (λ status. IfSome (unlisted R.remaining input.old) (λ bytes.
        WritesListing W.contents E.contents E.has_failed request.now memory.entry capture bytes status
        output.old output.new errors.old errors.new)) }
    ensures failed { IfErr result (λ e. FailsListing R.remaining W.contents
        R.has_failed W.has_failed request.now memory.entry capture e
        input.old input.new output.old output.new errors.old errors.new) }
    ensures unfailed { OnOk result (NoReadFails R.has_failed input.old input.new) }
    ensures unfailed_writes { OnOk result (NoWriteFails W.has_failed output.old output.new) }
{
    let reassembles = memory.is_some();
    let mut place = Place {
        totals: Totals::none(reassembles),
        capture,
        memory,
    };
    let end = match request.list(&mut place, input, output) {
        Ok(end) => end,
        Err(Failure::Write) => return Err(Failure::Write),
        Err(Failure::Read) => {
            output.hand_over()?;
            return Err(Failure::Read);
        }
        Err(Failure::Count) => {
            output.hand_over()?;
            return Err(Failure::Count);
        }
    };
    let closing = Closing {
        mode: request.mode,
        has_filter: request.filter.is_some(),
        totals: place.totals,
    };
    output.close(closing)?;
    errors.report(Report { end, closing });
    Ok(status_at(end))
}

// The status of a run that listed a capture.
fn status_at(end: Option<End>) -> Status
    ensures value { result ≡ status_at end }
{
    match end {
        None => Status::Done,
        Some(End::CutOff(_)) => Status::CutOff,
        Some(End::Refused(_)) => Status::Refused,
        Some(End::TooLong(_)) => Status::Refused,
    }
}
