//! The lines or the records that a sink gets.

ghost use Rattle.arrayvec.specs.ArrayVec.{array_vec_len};
ghost use Rattle.std.specs.Prelude.{◌≡◌, ◌≤◌, ◌+◌, [], IfErr, IfSome, OnErr, OnOk, codes, length};
ghost use Rattle.std.specs.Prelude.{Some, option_map};
ghost use Rattle.std.specs.declared.io.Error.{Error};

use crate::failure::Failure;
use crate::input::ROOM;
use crate::streams::{FitsLine, Line, Sink};
use arrayvec::ArrayVec;
use std::io;

// The room for bytes that the sink has not yet got: a block, or some thousand lines.
const TEXT_ROOM: usize = ROOM;

/// A sink, and the bytes that it gets. It has not yet got the last ones.
#[derive(Drop)]
pub struct Output<W> {
    pub sink: W,
    pub text: ArrayVec<u8, TEXT_ROOM>,
    pub passed: usize,
    pub line: Line,
    ghost in_bounds: { passed ≤ array_vec_len text },
}

impl<W: Sink> Output<W> {
    ghost use Rattle.ipcap.specs.Faults.{Says, fault_line, reason_text};
    ghost use Rattle.ipcap.specs.Streams.{NoWriteFails, Prints, PrintsFront, Reports, kept_if};
    ghost use Rattle.ipcap.specs.Streams.{pending};

    /// No line.
    pub fn new(sink: W) -> Output<W>
        ensures sink { result.sink ≡ sink }
        ensures empty { pending result ≡ [] }
    {
        Output {
            sink,
            text: ArrayVec::new(),
            passed: 0,
            line: Line::new(),
        }
    }

    /// Adds a line, and passes lines to the sink if there is no room for it.
    pub fn print<D: FitsLine>(&mut self, line: D) -> Result<(), Failure>
        ensures prints { OnOk result (IfSome (D.output line)
            (Prints W.contents self.old self.new)) }
        ensures kept { OnErr result (Prints W.contents self.old self.new []) }
        ensures failed { IfErr result (λ e. (e ≡ Failure.Write) × W.has_failed self.new.sink) }
        ensures unfailed_writes { OnOk result (NoWriteFails W.has_failed self.old self.new) }
    {
        self.line.clear();
        if self.sink.format(line, &mut self.line).is_err() {
            return Err(Failure::Write);
        }
        let len = self.line.len();
        self.make_room(len)?;
        let _fits = self
            .text
            .try_extend_from_slice(self.line.as_str().as_bytes());
        Ok(())
    }

    /// Adds bytes, such as a record, and passes bytes to the sink if there is no room for them.
    pub fn copy(&mut self, bytes: &[u8]) -> Result<(), Failure>
        requires fits { length bytes.now ≤ ROOM }
        ensures prints { OnOk result (Prints W.contents self.old self.new bytes.now) }
        ensures kept { OnErr result (Prints W.contents self.old self.new []) }
        ensures failed { IfErr result (λ e. (e ≡ Failure.Write) × W.has_failed self.new.sink) }
        ensures unfailed_writes { OnOk result (NoWriteFails W.has_failed self.old self.new) }
    {
        self.make_room(bytes.len())?;
        let _fits = self.text.try_extend_from_slice(bytes);
        Ok(())
    }

    /// The same, if the bytes are kept.
    pub fn copy_if(&mut self, is_kept: bool, bytes: &[u8]) -> Result<(), Failure>
        requires fits { length bytes.now ≤ ROOM }
        ensures prints { OnOk result
            (Prints W.contents self.old self.new (kept_if is_kept bytes.now)) }
        ensures kept { OnErr result (Prints W.contents self.old self.new []) }
        ensures failed { IfErr result (λ e. (e ≡ Failure.Write) × W.has_failed self.new.sink) }
        ensures unfailed_writes { OnOk result (NoWriteFails W.has_failed self.old self.new) }
    {
        if is_kept { self.copy(bytes) } else { Ok(()) }
    }

    // Passes all bytes to the sink if there is no room for so many more.
    fn make_room(&mut self, len: usize) -> Result<(), Failure>
        requires fits { len ≤ TEXT_ROOM }
        ensures kept { Prints W.contents self.old self.new [] }
        ensures room { OnOk result (array_vec_len self.new.text + len ≤ TEXT_ROOM) }
        ensures line { self.new.line ≡ self.old.line }
        ensures failed { IfErr result (λ e. (e ≡ Failure.Write) × W.has_failed self.new.sink) }
        ensures unfailed_writes { OnOk result (NoWriteFails W.has_failed self.old self.new) }
    {
        if self.text.remaining_capacity() < len {
            self.hand_over()
        } else {
            Ok(())
        }
    }

    /// Passes all bytes to the sink. After an error it has got a front of them.
    pub fn hand_over(&mut self) -> Result<(), Failure>
        ensures kept { Prints W.contents self.old self.new [] }
        ensures all { OnOk result (pending self.new ≡ []) }
        ensures room { OnOk result (self.new.text.items ≡ []) }
        ensures line { self.new.line ≡ self.old.line }
        ensures failed { IfErr result (λ e. (e ≡ Failure.Write) × W.has_failed self.new.sink) }
        ensures unfailed_writes { OnOk result (NoWriteFails W.has_failed self.old self.new) }
    {
        'writes: while self.passed < self.text.len() {
            match self.sink.write(&self.text.as_slice()[self.passed..]) {
                Ok(n) => self.passed += n,
                Err(_) => return Err(Failure::Write),
            }
        }
        self.text.clear();
        self.passed = 0;
        Ok(())
    }

    /// Adds the last lines, and passes all bytes to the sink. After an error it has got a front of
    /// them.
    pub fn close<D: FitsLine>(&mut self, lines: D) -> Result<(), Failure>
        ensures prints { OnOk result (IfSome (D.output lines)
            (Prints W.contents self.old self.new)) }
        ensures all { OnOk result (pending self.new ≡ []) }
        ensures front { OnErr result (IfSome (D.output lines)
            (PrintsFront W.contents self.old self.new)) }
        ensures failed { IfErr result (λ e. (e ≡ Failure.Write) × W.has_failed self.new.sink) }
        ensures unfailed_writes { OnOk result (NoWriteFails W.has_failed self.old self.new) }
    {
        self.print(lines)?;
        self.hand_over()
    }

    /// Adds the last lines, and passes them to the sink, if it takes them.
    pub fn report<D: FitsLine>(&mut self, lines: D)
        requires fresh { pending self.old ≡ [] }
        ensures reports { IfSome (D.output lines)
            (Reports W.contents W.has_failed self.old self.new) }
    {
        let _ = self.close(lines);
    }

    /// Adds a line on what failed, and why, if that is known, and passes it to the sink, likewise.
    pub fn say(&mut self, what: &[u8], why: Option<io::Error>)
        requires fresh { pending self.old ≡ [] }
        requires fits { length what.now ≤ ROOM }
        ensures says { Says W.contents W.has_failed (W.is_text Error) what.now why
            self.old self.new }
    {
        match why {
            None => self.report_fault(what, None),
            Some(e) => {
                let mut text = Line::new();
                match self.sink.format(e, &mut text) {
                    Ok(()) => self.report_fault(what, Some(text.as_str())),
                    Err(_) => {}
                }
            }
        }
    }

    // Adds such a line, and passes it to the sink, if it takes it.
    fn report_fault(&mut self, what: &[u8], reason: Option<&str>)
        requires fresh { pending self.old ≡ [] }
        requires fits { length what.now ≤ ROOM }
        requires reason_fits { IfSome reason (λ text. length text.now ≤ ROOM) }
        ensures reports { Reports W.contents W.has_failed self.old self.new
            (fault_line what.now (option_map (λ text. text.now) reason.entry)) }
    {
        let _ = self.print_fault(what, reason);
    }

    // The same. After an error the sink has got a front of the line.
    fn print_fault(&mut self, what: &[u8], reason: Option<&str>) -> Result<(), Failure>
        requires fits { length what.now ≤ ROOM }
        requires reason_fits { IfSome reason (λ text. length text.now ≤ ROOM) }
        ensures prints { OnOk result (Prints W.contents self.old self.new
            (fault_line what.now (option_map (λ text. text.now) reason.entry))) }
        ensures all { OnOk result (pending self.new ≡ []) }
        ensures front { OnErr result (PrintsFront W.contents self.old self.new
            (fault_line what.now (option_map (λ text. text.now) reason.entry))) }
        ensures failed { IfErr result (λ e. (e ≡ Failure.Write) × W.has_failed self.new.sink) }
        ensures unfailed_writes { OnOk result (NoWriteFails W.has_failed self.old self.new) }
    {
        self.copy(b"error: ")?;
        self.copy(what)?;
        self.end_fault(reason)
    }

    // Adds why it failed, if that is known, and the end of the line, and passes all bytes to the
    // sink. After an error it has got a front of them.
    fn end_fault(&mut self, reason: Option<&str>) -> Result<(), Failure>
        requires reason_fits { IfSome reason (λ text. length text.now ≤ ROOM) }
        ensures prints { OnOk result (Prints W.contents self.old self.new
            (reason_text (option_map (λ text. text.now) reason.entry))) }
        ensures all { OnOk result (pending self.new ≡ []) }
        ensures front { OnErr result (PrintsFront W.contents self.old self.new
            (reason_text (option_map (λ text. text.now) reason.entry))) }
        ensures failed { IfErr result (λ e. (e ≡ Failure.Write) × W.has_failed self.new.sink) }
        ensures unfailed_writes { OnOk result (NoWriteFails W.has_failed self.old self.new) }
    {
        match reason {
            None => self.end_line(),
            Some(reason) => self.end_with(reason),
        }
    }

    // The same, if it is known.
    fn end_with(&mut self, reason: &str) -> Result<(), Failure>
        requires reason_fits { length reason.now ≤ ROOM }
        ensures prints { OnOk result (Prints W.contents self.old self.new
            (reason_text (Some reason.now))) }
        ensures all { OnOk result (pending self.new ≡ []) }
        ensures front { OnErr result (PrintsFront W.contents self.old self.new
            (reason_text (Some reason.now))) }
        ensures failed { IfErr result (λ e. (e ≡ Failure.Write) × W.has_failed self.new.sink) }
        ensures unfailed_writes { OnOk result (NoWriteFails W.has_failed self.old self.new) }
    {
        self.copy(b": ")?;
        self.copy(reason.as_bytes())?;
        self.end_line()
    }

    // Adds the end of a line, and passes all bytes to the sink. After an error it has got a front
    // of them.
    fn end_line(&mut self) -> Result<(), Failure>
        ensures prints { OnOk result (Prints W.contents self.old self.new (codes "\n")) }
        ensures all { OnOk result (pending self.new ≡ []) }
        ensures front { OnErr result (PrintsFront W.contents self.old self.new (codes "\n")) }
        ensures failed { IfErr result (λ e. (e ≡ Failure.Write) × W.has_failed self.new.sink) }
        ensures unfailed_writes { OnOk result (NoWriteFails W.has_failed self.old self.new) }
    {
        self.copy(b"\n")?;
        self.hand_over()
    }
}
