//! What a run writes to.

ghost use Rattle.std.specs.Prelude.{◌≡◌, ◌≤◌, ◌<◌, IfOk, length};
ghost use Rattle.std.specs.Io.KnownBytes.{WriteAppends};

use std::io;
use std::io::Write;

/// What a run writes to: every writer. A run knows `has_failed` only from a write that has failed.
pub trait Sink: Write {
    // A write has failed, or has taken nothing.
    ghost has_failed: { Self → Type 0 };

    /// Writes once, as `write` does.
    fn write_once(&mut self, bytes: &[u8]) -> io::Result<usize>
        ensures bound { IfOk result (λ n. n ≤ length bytes.now) }
        ensures appends { WriteAppends (Self.contents self.old) (Self.contents self.new)
            result bytes.now }
        ensures failed { 0 < length bytes.now → IfOk result (λ n. n ≡ 0) → has_failed self.new };
}

impl<W: Write> Sink for W {
    ghost has_failed = { λ _. Unit {0} };

    fn write_once(&mut self, bytes: &[u8]) -> io::Result<usize> {
        self.write(bytes)
    }
}
