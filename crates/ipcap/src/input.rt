//! What has been read of the input and is not yet listed.

ghost use Rattle.ipcap.specs.declared.input.TheConstants.{ROOM};
ghost use Rattle.std.specs.Prelude.{◌<◌, ◌≤◌, ◌^◌};

use crate::failure::Failure;
use crate::output::Output;
use crate::streams::{Sink, Source};

/// The room for a block.
pub const ROOM: usize = 327_680;

/// A source, and the bytes that have been read of it and are not yet listed.
#[derive(Drop)]
pub struct Input<R> {
    pub source: R,
    pub bytes: [u8; ROOM],
    pub len: usize,
    // How many bytes the source has given.
    pub count: u64,
    ghost in_bounds: { len ≤ ROOM },
    ghost bounded: { count < 2 ^ 64 },
}

impl<R: Source> Input<R> {
    ghost use Rattle.std.specs.Prelude.{◌≡◌, [], IfErr, IfOk, IsFalse, IsTrue, OnErr, OnOk};
    ghost use Rattle.std.specs.Prelude.{drop, length, take};
    ghost use Rattle.std.specs.Io.KnownBytes.{IsAtEnd};
    ghost use Rattle.ipcap.specs.Streams.{CannotRead, NoReadFails, Takes, pending, unread};

    /// Nothing is read yet.
    pub fn new(source: R) -> Input<R>
        ensures source { result.source ≡ source }
        ensures unread { unread result ≡ [] }
        ensures count { result.count ≡ 0 }
    {
        Input {
            source,
            bytes: [0; ROOM],
            len: 0,
            count: 0,
        }
    }

    /// The bytes that are read and not yet listed.
    pub fn unread(&self) -> &[u8]
        ensures value { result.now ≡ unread self.now }
        ensures within { length result.now ≤ ROOM }
    {
        &self.bytes[..self.len]
    }

    /// Takes the first `len` of these bytes.
    pub fn pass(&mut self, len: usize)
        requires there { len ≤ length (unread self.old) }
        ensures takes { Takes R.remaining self.old self.new (take len (unread self.old)) }
        ensures rest { unread self.new ≡ drop len (unread self.old) }
        ensures source { self.new.source ≡ self.old.source }
    {
        let end = self.len;
        self.bytes.copy_within(len..end, 0);
        self.len = end - len;
    }

    /// Reads once, as much as there is room for; `false` if the input is at its end. The read can
    /// wait for more, so the sink must have got all bytes of the output before it.
    pub fn fill<W: Sink>(&mut self, _output: &Output<W>) -> Result<bool, Failure>
        requires room { length (unread self.old) < ROOM }
        requires written { pending _output.now ≡ [] }
        requires reads_on { R.goes_on self.old.source }
        ensures takes { Takes R.remaining self.old self.new [] }
        ensures more { IfOk result (λ more. IsTrue more → self.old.count < self.new.count) }
        ensures end { IfOk result (λ more. IsFalse more → IsAtEnd (R.remaining self.new.source)) }
        ensures same { IfOk result (λ more. IsFalse more → unread self.new ≡ unread self.old) }
        ensures failed { IfErr result (λ e. (e ≡ Failure.Read) × CannotRead R.has_failed self.new) }
        ensures unread { OnErr result (unread self.new ≡ unread self.old) }
        ensures unfailed { OnOk result (NoReadFails R.has_failed self.old self.new) }
        ensures goes_on { IfOk result (λ more. IsTrue more → R.goes_on self.new.source) }
    {
        let start = self.len;
        let left = u64::MAX - self.count;
        let most = (ROOM - start).min(left as usize);
        if most == 0 {
            return Err(Failure::Read);
        }
        let Ok(n) = self.source.read(&mut self.bytes[start..start + most]) else {
            return Err(Failure::Read);
        };
        self.len = start + n;
        self.count += n as u64;
        Ok(n > 0)
    }
}
