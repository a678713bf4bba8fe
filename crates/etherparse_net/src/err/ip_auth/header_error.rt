ghost use Rattle.std.specs.Prelude.{Some};
ghost use Rattle.etherparse_net.specs.HeaderErrors.{header_error_text};

use std::error::Error;
use std::fmt;

/// Why a slice of sufficient length does not begin with an authentication header (RFC 4302 section
/// 2).
#[derive(Clone, Copy, Debug, PartialEq, Eq, Hash)]
pub enum HeaderError {
    /// The payload length is 0: that is a header of 8 bytes, and each has at least 12.
    ZeroPayloadLen,
}

/// Says what the payload length is, and the least that it can be.
impl fmt::Display for HeaderError {
    ghost output = { λ e. Some (header_error_text e) };

    fn fmt<W: fmt::Write>(&self, f: &mut fmt::Formatter<W>) -> fmt::Result {
        match self {
            HeaderError::ZeroPayloadLen => write!(
                f,
                "IP Authentication Header Error: The payload length is '0' (minimum allowed value is '1')."
            ),
        }
    }
}

impl Error for HeaderError {}
