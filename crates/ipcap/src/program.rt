//! What the program does with the words of its command line.

ghost use Rattle.std.specs.Prelude.{◌≡◌, ◌↔◌, [], IfErr, IfOk, IsOk, IsTrue, Ok, OnErr, Some, false, map};
ghost use Rattle.std.specs.Prelude.{string_bytes, true};
ghost use Rattle.std.specs.declared.io.Error.{Error};
ghost use Rattle.ipcap.specs.Arguments.{text_of};
ghost use Rattle.ipcap.specs.Faults.{Says};
ghost use Rattle.ipcap.specs.Program.{Answers, HasCode, IsRequest, IsUnread, LacksMemory, Obeys};
ghost use Rattle.ipcap.specs.Program.{Runs, RunsAnew, Stops};
ghost use Rattle.ipcap.specs.Program.{failure_text, name_of, reason_of, unopened};
ghost use Rattle.ipcap.specs.Request.{IsNoFilter};
ghost use Rattle.ipcap.specs.Streams.{pending};
ghost use Rattle.ipcap.specs.declared.system.Asked.{Asked};

use crate::arguments::Arguments;
use crate::failure::Failure;
use crate::input::{Input, ROOM};
use crate::memory::{FRAME_ROOM, Reassembly, SLOT_LEN, slots_in};
use crate::output::Output;
use crate::refusal::RefusalLines;
use crate::request::{Request, read_filter};
use crate::run::run;
use crate::streams::{Sink, Source};
use crate::system::System;
use clap::error::ErrorKind;
use frame_reassembly::frame_reassembly::FrameReassembly;
use packet_filter::FilterError;
use std::alloc::Global;
use std::io;

/// The exit status if the command line or the expression is refused, or a file cannot be opened.
pub const REFUSED: u8 = 2;

/// The exit status if a read or a write failed, or there was no memory.
pub const FAILED: u8 = 3;

const _: () = prove!(REFUSED == 2 && FAILED == 3);

/// How the program ended, and how it left its streams.
#[derive(Drop)]
pub struct Ended<R, W> {
    /// The exit status; or why there is none, since there is no memory.
    pub code: io::Result<u8>,
    /// What was read from, if it was opened.
    pub source: Option<R>,
    /// What was written to, if it was made.
    pub sink: Option<W>,
}

/// Does what the words of a command line say, of which the first is the program's name.
///
/// # Errors
///
/// There is no memory; or help, the version, or what is wrong with the words cannot be printed.
pub fn obey<S: System, E: Sink>(
    system: &mut S,
    alloc: Global,
    words: &[String],
    errors: &mut Output<E>,
) -> io::Result<Ended<S::Reader, S::Writer>>
    requires first { S.asked system.old ≡ Asked.Nothing }
    requires fresh { pending errors.old ≡ [] }
    ensures obeys { IfOk result (λ ended. Obeys S.Reader.remaining S.Writer.contents E.contents
        S.Reader.has_failed S.Writer.has_failed E.has_failed S.Reader.why_failed
        S.Writer.why_failed (E.is_text Error) S.opens S.creates S.reads S.shows
        (map string_bytes words.now) ended (S.asked system.new) errors.old errors.new) }
    ensures stops { IfErr result (Stops S.reads S.shows (map string_bytes words.now)
        (S.asked system.new)) }
    ensures silent { OnErr result (errors.new ≡ errors.old) }
{
    let matches = match system.read(alloc, words)? {
        Ok(matches) => matches,
        Err(e) => {
            system.show(&e)?;
            return Ok(unopened(code_of_error(&e)));
        }
    };
    match Arguments::from_matches(&matches) {
        Ok(arguments) => Ok(answer(system, alloc, &arguments, errors)),
        Err(e) => {
            errors.say(e.text().as_bytes(), None);
            Ok(unopened(REFUSED))
        }
    }
}

// The exit status for an error in the words.
fn code_of_error(e: &clap::Error) -> u8
    ensures code { HasCode e.now result }
{
    match e.kind() {
        ErrorKind::DisplayHelp | ErrorKind::DisplayVersion => 0,
        ErrorKind::OutOfMemory => FAILED,
        _ => REFUSED,
    }
}

// Reads the expression, opens the files, and runs.
fn answer<S: System, E: Sink>(
    system: &mut S,
    alloc: Global,
    arguments: &Arguments,
    errors: &mut Output<E>,
) -> Ended<S::Reader, S::Writer>
    requires first { S.asked system.old ≡ Asked.Nothing }
    requires fresh { pending errors.old ≡ [] }
    ensures answers { Answers S.Reader.remaining S.Writer.contents E.contents
        S.Reader.has_failed S.Writer.has_failed E.has_failed S.Reader.why_failed
        S.Writer.why_failed (E.is_text Error) S.opens S.creates arguments.now result
        (S.asked system.new) errors.old errors.new }
    ensures allocates { arguments.now.reassembles ≡ false → IsOk result.code }
{
    let request = match request_of(arguments) {
        Ok(request) => request,
        Err(error) => {
            let text = &arguments.text;
            errors.report(RefusalLines { text, error });
            return unopened(REFUSED);
        }
    };
    let reader = match system.open(arguments.input) {
        Ok(reader) => reader,
        Err(e) => return refuse(errors, arguments.input, e, None),
    };
    let writer = match system.create(arguments.output) {
        Ok(writer) => writer,
        Err(e) => return refuse(errors, arguments.output, e, Some(reader)),
    };
    let mut input = Input::new(reader);
    let mut output = Output::new(writer);
    let reassembles = arguments.reassembles;
    let code = list_anew(
        alloc,
        reassembles,
        &request,
        &mut input,
        &mut output,
        errors,
    );
    Ended {
        code,
        source: Some(input.source),
        sink: Some(output.sink),
    }
}

// No file is opened.
fn unopened<R, W>(code: u8) -> Ended<R, W>
    ensures value { result ≡ unopened code }
{
    Ended {
        code: Ok(code),
        source: None,
        sink: None,
    }
}

// What arguments ask for.
fn request_of(arguments: &Arguments) -> Result<Request, FilterError>
    ensures request { IfOk result (IsRequest arguments.now) }
    ensures refused { IfErr result (IsNoFilter arguments.now.text.items) }
{
    let filter = read_filter(arguments.text.as_slice())?;
    Ok(Request {
        mode: arguments.mode,
        is_utc: arguments.is_utc,
        limit: arguments.limit,
        filter,
    })
}

// Says why a file is not opened, with as many bytes of its name as there is room for: on Linux an
// argument has less.
fn refuse<R, W, E: Sink>(
    errors: &mut Output<E>,
    name: Option<&str>,
    e: io::Error,
    source: Option<R>,
) -> Ended<R, W>
    requires fresh { pending errors.old ≡ [] }
    ensures says { Says E.contents E.has_failed (E.is_text Error) (name_of (text_of name.entry))
        (Some e) errors.old errors.new }
    ensures value { result ≡ record { code = Ok 2; source = source; sink = None } }
{
    let name = name.unwrap_or("-").as_bytes();
    errors.say(&name[..ROOM.min(name.len())], Some(e));
    Ended {
        code: Ok(REFUSED),
        source,
        sink: None,
    }
}

// Lists a capture, and puts packets together of their fragments, if that is asked for, in memory
// that is taken before. Returns the exit status.
fn list_anew<R: Source, W: Sink, E: Sink>(
    alloc: Global,
    reassembles: bool,
    request: &Request,
    input: &mut Input<R>,
    output: &mut Output<W>,
    errors: &mut Output<E>,
) -> io::Result<u8>
    requires fresh { (pending output.old ≡ []) × (pending errors.old ≡ []) }
    requires reads_on { R.goes_on input.old.source }
    ensures runs { IfOk result (RunsAnew R.remaining W.contents E.contents R.has_failed
        W.has_failed E.has_failed R.why_failed W.why_failed (E.is_text Error) request.now
        reassembles input.old input.new output.old output.new errors.old errors.new) }
    ensures allocates { reassembles ≡ false → IsOk result }
    ensures lacks { IfErr result (LacksMemory reassembles input.old input.new
        output.old output.new errors.old errors.new) }
{
    if !reassembles {
        return Ok(list(request, None, input, output, errors));
    }
    let mut memory = vec![in alloc; 0; FrameReassembly::SLOTS * SLOT_LEN]?;
    let mut slots = slots_in(alloc, &mut memory)?;
    let mut frame = vec![in alloc; 0; FRAME_ROOM]?;
    let reassembly = Reassembly::new(&mut slots, &mut frame);
    Ok(list(request, Some(reassembly), input, output, errors))
}

// Lists a capture. Returns the exit status.
fn list<R: Source, W: Sink, E: Sink>(
    request: &Request,
    memory: Option<Reassembly>,
    input: &mut Input<R>,
    output: &mut Output<W>,
    errors: &mut Output<E>,
) -> u8
    requires fresh { (pending output.old ≡ []) × (pending errors.old ≡ []) }
    requires reads_on { R.goes_on input.old.source }
    ensures runs { Runs R.remaining W.contents E.contents R.has_failed W.has_failed E.has_failed
        R.why_failed W.why_failed (E.is_text Error) request.now memory.entry
        input.old input.new output.old output.new errors.old errors.new result }
{
    match run(request, memory, input, output, errors) {
        Ok(status) => status.code(),
        Err(failure) => {
            let (what, why) = reason_of(failure, &input.source, &output.sink);
            if is_unread(failure, &why) {
                return FAILED;
            }
            errors.say(what.as_bytes(), why);
            FAILED
        }
    }
}

// Whether the output is a pipe that nobody reads any more, as after `head`.
fn is_unread(failure: Failure, why: &Option<io::Error>) -> bool
    ensures value { IsTrue result ↔ IsUnread failure why.now }
{
    match (failure, why) {
        (Failure::Write, Some(e)) => e.kind() == io::ErrorKind::BrokenPipe,
        _ => false,
    }
}

// What failed, and why, if that is known.
fn reason_of<R: Source, W: Sink>(
    failure: Failure,
    source: &R,
    sink: &W,
) -> (&'static str, Option<io::Error>)
    ensures what { result.0.now ≡ failure_text failure }
    ensures why { result.1 ≡ reason_of failure (R.why_failed source.now) (W.why_failed sink.now) }
{
    match failure {
        Failure::Read => ("a read failed", source.failure()),
        Failure::Write => ("a write failed", sink.failure()),
        Failure::Count => ("there are more than 2^64 - 1 packets", None),
    }
}
