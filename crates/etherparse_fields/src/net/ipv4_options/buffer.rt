ghost use Rattle.std.specs.Prelude.{◌≡◌, ◌≤◌, length, take};
ghost use Rattle.std.specs.Borrow.{sem};
ghost use Rattle.etherparse_base.specs.Bytes.{IsBytes};
ghost use Rattle.etherparse_fields.specs.Private.Buffer.{LendsFront};

/// Room for the options. It is a struct of its own, so that a contract can say what a loan of its
/// front leaves in it.
#[derive(Clone, Copy, Drop)]
pub(super) struct Buffer {
    pub(super) bytes: [u8; 40],
}

impl Buffer {
    /// The first bytes, for writing.
    #[inline]
    pub(super) fn front_mut(&mut self, len: usize) -> &mut [u8]
        requires { len ≤ 40 }
        ensures* writes_back { sem 𝓛 (LendsFront self.entry result) }
        ensures value { result.now ≡ take len self.old.bytes }
    {
        &mut self.bytes[..len]
    }
}

/// The first bytes.
#[inline]
pub(super) fn front(bytes: &[u8], len: usize) -> &[u8]
    requires { len ≤ length bytes.now }
    ensures value { result.now ≡ take len bytes.now }
    ensures are_bytes { IsBytes result.now }
{
    &bytes[..len]
}
