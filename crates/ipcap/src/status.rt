/// How a run ended that did not fail.
#[derive(Clone, Copy, PartialEq, Eq)]
pub enum Status {
    /// The capture was read to its end, or as many packets are listed as were asked for.
    Done,
    /// The capture ends within a record or a block.
    CutOff,
    /// A block is refused.
    Refused,
    /// The input is no capture, or one of a link type that is not read.
    NoCapture,
}

impl Status {
    ghost use Rattle.std.specs.Prelude.{◌≡◌};
    ghost use Rattle.ipcap.specs.Status.{code_of};

    /// The exit status of the process: 2 if the input is no capture that is read, 1 if what is read
    /// ends with a record or block that is cut off or refused, and otherwise 0.
    pub fn code(self) -> u8
        ensures value { result ≡ code_of self }
    {
        match self {
            Status::Done => 0,
            Status::CutOff | Status::Refused => 1,
            Status::NoCapture => 2,
        }
    }
}
