/// How a run ended.
#[derive(Clone, Copy, Debug, PartialEq, Eq)]
pub enum Status {
    /// All fields were printed.
    Done,
    /// The bytes are not a header, or the walk past its extension headers was refused; the reason
    /// was printed.
    Refused,
    /// The input is not an even number of hex digits, or too long; the reason was printed.
    BadInput,
    /// A read or a write failed.
    Failed,
}

impl Status {
    ghost use Rattle.std.specs.Prelude.{◌≡◌};
    ghost use Rattle.iphead.specs.Status.{code_of};

    /// The exit status of the process: 0 to 3, in the order of the variants.
    pub fn code(self) -> u8
        ensures value { result ≡ code_of self }
    {
        match self {
            Status::Done => 0,
            Status::Refused => 1,
            Status::BadInput => 2,
            Status::Failed => 3,
        }
    }
}
