//! What a run reads from and writes to, and whether one of their calls has failed.

ghost use Rattle.std.specs.Prelude.{◌≡◌, ◌<◌, ◌⊎◌, ℕ, List, [], IfOk, IfSome, Option, OnErr, OnOk};
ghost use Rattle.std.specs.Prelude.{◌≢◌, IfErr, IsSome, None, Some, length};
ghost use Rattle.std.specs.Io.{ReadsAtMost, WritesAtMost};
ghost use Rattle.std.specs.IoError.{error_kind};
ghost use Rattle.std.specs.declared.io.Error.{Error};
ghost use Rattle.std.specs.Io.KnownBytes.{Keeps, ReadConsumes, WriteAppends};

use arrayvec::ArrayString;
use std::fmt::{Display, Write as _};
use std::io::{ErrorKind, Read, Write};
use std::{fmt, io};

// The most bytes in a line, or in the lines at the end. The most that there can be are those on a
// refused expression of 4096 bytes: it stands there once, and as many blanks before the mark.
const LINE_ROOM: usize = 16_384;

const _: () = prove!(LINE_ROOM == 16_384);

/// A line, or the lines at the end.
pub type Line = ArrayString<LINE_ROOM>;

/// A type whose texts all fit in a `Line`, which is tested and not proved. No other can be
/// formatted, so that a sink fails only by a write.
pub trait FitsLine: Display + Drop {}

impl FitsLine for io::Error {}

/// What a run reads from.
///
/// A run is proved for every source, so whatever `has_failed` is, a run knows it from a call that
/// has returned an error, and from nothing else. The same holds of a sink.
pub trait Source {
    // The bytes that reads will give from here on, where they are known.
    ghost remaining: { Self → Option (List ℕ) };

    // A read has failed.
    ghost has_failed: { Self → Type 0 };

    // Why the last read that failed did so.
    ghost why_failed: { Self → Option Error };

    // There may be more to read. A run knows it of a source that was just opened, and after a read
    // that gave bytes; so it reads no more after the end, or after a read that failed.
    ghost goes_on: { Self → Type 0 };

    /// Reads once, as `Read::read` does.
    fn read(&mut self, buf: &mut [u8]) -> io::Result<usize>
        requires reads_on { goes_on self.old }
        ensures bound { ReadsAtMost result buf.new }
        ensures bytes { ReadConsumes (remaining self.old) (remaining self.new) result buf.new }
        ensures failed { OnErr result (has_failed self.new) }
        ensures why { IfErr result (λ e. why_failed self.new ≡ Some e) }
        ensures unfailed { OnOk result (has_failed self.new → has_failed self.old) }
        ensures goes_on { IfOk result (λ n. 0 < n → goes_on self.new) };

    /// Why the last read that failed did so; `None` if none has failed.
    fn failure(&self) -> Option<io::Error>
        ensures { result ≡ why_failed self.now };
}

/// What a run writes to.
pub trait Sink {
    // The bytes that the sink holds, where they are known.
    ghost contents: { Self → Option (List ℕ) };

    // A write has failed, or `write!` could not write a line to an empty `Line`.
    ghost has_failed: { Self → Type 0 };

    // Why the last of these calls that failed did so.
    ghost why_failed: { Self → Option Error };

    // A text that `format` has made of a value.
    ghost is_text: { (D : Type 0) → D → List ℕ → Type 0 };

    /// Writes once, as `Write::write` does, but takes at least one byte if there are any, and tries
    /// again if a signal interrupts it.
    fn write(&mut self, bytes: &[u8]) -> io::Result<usize>
        ensures bound { WritesAtMost result bytes.now }
        ensures bytes { WriteAppends (contents self.old) (contents self.new) result bytes.now }
        ensures some { IfOk result (λ n. 0 < length bytes.now → 0 < n) }
        ensures retried { IfErr result (λ e. error_kind e ≢ ErrorKind.Interrupted) }
        ensures failed { OnErr result (has_failed self.new) }
        ensures unfailed { OnOk result (has_failed self.new → has_failed self.old) }
        ensures why { IfErr result (λ e. why_failed self.new ≡ Some e) };

    /// Writes a text to an empty line, as `write!` does. What the sink holds stays as it is.
    fn format<D: FitsLine>(&mut self, text: D, line: &mut Line) -> io::Result<()>
        requires empty { line.old.bytes ≡ [] }
        ensures text { OnOk result (IfSome (D.output text) (λ bytes. line.new.bytes ≡ bytes)) }
        ensures made { OnOk result (is_text D text line.new.bytes) }
        ensures kept { Keeps (contents self.old) (contents self.new) }
        ensures failed { OnErr result (has_failed self.new) }
        ensures unfailed { OnOk result (has_failed self.new → has_failed self.old) }
        ensures why { IfErr result (λ e. why_failed self.new ≡ Some e) };

    /// Why the last of these calls that failed did so; `None` if none has failed.
    fn failure(&self) -> Option<io::Error>
        ensures { result ≡ why_failed self.now };
}

/// A reader or a writer, and why one of its calls has failed.
#[derive(Drop)]
pub struct Watched<T> {
    inner: T,
    failure: Option<io::Error>,
}

impl<T> Watched<T> {
    /// None of its calls has failed.
    pub fn new(inner: T) -> Watched<T>
        ensures value { result ≡ record { inner = inner; failure = None } }
    {
        Watched {
            inner,
            failure: None,
        }
    }
}

impl<R: Read> Source for Watched<R> {
    ghost remaining = { λ watched. R.remaining watched.inner };

    ghost has_failed = { λ watched. IsSome watched.failure };

    ghost why_failed = { λ watched. watched.failure };

    ghost goes_on = { λ _. Unit {0} };

    fn read(&mut self, buf: &mut [u8]) -> io::Result<usize> {
        match self.inner.read(buf) {
            Ok(n) => Ok(n),
            Err(e) => {
                self.failure = Some(e);
                Err(e)
            }
        }
    }

    fn failure(&self) -> Option<io::Error> {
        self.failure
    }
}

impl<W: Write> Sink for Watched<W> {
    ghost contents = { λ watched. W.contents watched.inner };

    ghost has_failed = { λ watched. IsSome watched.failure };

    ghost why_failed = { λ watched. watched.failure };

    ghost is_text = { λ _ _ _. Unit {0} };

    // A write that a signal interrupts is tried again, as in `write_all`.
    fn write(&mut self, bytes: &[u8]) -> io::Result<usize> {
        'tries: for _ in 0..u64::MAX {
            match self.inner.write(bytes) {
                Ok(0) if !bytes.is_empty() => break,
                Err(e) if e.kind() == ErrorKind::Interrupted => {}
                Ok(n) => return Ok(n),
                Err(e) => {
                    self.failure = Some(e);
                    return Err(e);
                }
            }
        }
        let e = io::Error::from(ErrorKind::WriteZero);
        self.failure = Some(e);
        Err(e)
    }

    fn format<D: FitsLine>(&mut self, text: D, line: &mut Line) -> io::Result<()> {
        match write!(line, "{text}") {
            Ok(()) => Ok(()),
            Err(fmt::Error) => {
                let e = io::Error::from(ErrorKind::WriteZero);
                self.failure = Some(e);
                Err(e)
            }
        }
    }

    fn failure(&self) -> Option<io::Error> {
        self.failure
    }
}
