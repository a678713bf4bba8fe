ghost use Rattle.std.specs.Prelude.{Some};
ghost use Rattle.etherparse_net.specs.HeaderErrors.{ext_payload_len_error_text};

use std::error::Error;
use std::fmt;

/// A length that an extension header of IPv6 cannot have after its first two bytes (RFC 8200
/// sections 4.3, 4.4 and 4.6). Each has the length that was refused, in bytes.
#[derive(Clone, Copy, Debug, PartialEq, Eq, Hash)]
pub enum ExtPayloadLenError {
    /// It is below 6.
    TooSmall(usize),
    /// It is above 2046.
    TooBig(usize),
    /// It is from 6 to 2046, but not 6 more than a multiple of 8.
    Unaligned(usize),
}

/// Says which length was refused, and why.
impl fmt::Display for ExtPayloadLenError {
    ghost output = { λ e. Some (ext_payload_len_error_text e) };

    fn fmt<W: fmt::Write>(&self, f: &mut fmt::Formatter<W>) -> fmt::Result {
        match *self {
            ExtPayloadLenError::TooSmall(len) => write!(
                f,
                "IPv6 Extension Header Error: The payload has '{len}' byte(s) (minimum allowed value is '6')."
            ),
            ExtPayloadLenError::TooBig(len) => write!(
                f,
                "IPv6 Extension Header Error: The payload has '{len}' byte(s) (maximum allowed value is '2046')."
            ),
            ExtPayloadLenError::Unaligned(len) => write!(
                f,
                "IPv6 Extension Header Error: The payload has '{len}' byte(s), which is not '6' more than a multiple of '8'."
            ),
        }
    }
}

impl Error for ExtPayloadLenError {}
