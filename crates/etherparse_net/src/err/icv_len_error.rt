ghost use Rattle.std.specs.Prelude.{Some};
ghost use Rattle.etherparse_net.specs.HeaderErrors.{icv_len_error_text};

use std::error::Error;
use std::fmt;

/// A length that the integrity check value of an authentication header cannot have (RFC 4302
/// sections 2.2 and 2.6). Each has the length that was refused, in bytes.
#[derive(Clone, Copy, Debug, PartialEq, Eq, Hash)]
pub enum IcvLenError {
    /// It is above 1016.
    TooBig(usize),
    /// It is at most 1016, but not a multiple of 4.
    Unaligned(usize),
}

/// Says which length was refused, and why.
impl fmt::Display for IcvLenError {
    ghost output = { λ e. Some (icv_len_error_text e) };

    fn fmt<W: fmt::Write>(&self, f: &mut fmt::Formatter<W>) -> fmt::Result {
        match *self {
            IcvLenError::TooBig(len) => write!(
                f,
                "IP Authentication Header Error: The integrity check value has '{len}' byte(s) (maximum allowed value is '1016')."
            ),
            IcvLenError::Unaligned(len) => write!(
                f,
                "IP Authentication Header Error: The integrity check value has '{len}' byte(s), which is not a multiple of '4'."
            ),
        }
    }
}

impl Error for IcvLenError {}
