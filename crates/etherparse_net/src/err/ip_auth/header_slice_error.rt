ghost use Rattle.std.specs.Prelude.{Some};
ghost use Rattle.etherparse_net.specs.HeaderErrors.{header_slice_error_text};

use super::HeaderError;
use etherparse::err::LenError;
use std::error::Error;
use std::fmt;

/// Why a slice does not begin with an authentication header.
#[derive(Clone, Debug, PartialEq, Eq, Hash, Drop)]
pub enum HeaderSliceError {
    /// The slice is shorter than the header.
    Len(LenError),
    /// The bytes are not an authentication header.
    Content(HeaderError),
}

/// Writes the text of the error inside.
impl fmt::Display for HeaderSliceError {
    ghost output = { λ e. Some (header_slice_error_text e) };

    fn fmt<W: fmt::Write>(&self, f: &mut fmt::Formatter<W>) -> fmt::Result {
        match self {
            HeaderSliceError::Len(e) => e.fmt(f),
            HeaderSliceError::Content(e) => e.fmt(f),
        }
    }
}

impl Error for HeaderSliceError {}
