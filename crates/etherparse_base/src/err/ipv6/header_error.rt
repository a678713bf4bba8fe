ghost use Rattle.std.specs.Prelude.{Some};
ghost use Rattle.etherparse_base.specs.Ipv6Errors.{ipv6_header_error_text};

use std::error::Error;
use std::fmt;

/// Why a slice of sufficient length does not begin with an IPv6 header (RFC 8200 section 3).
#[derive(Clone, Debug, PartialEq, Eq, Hash, Drop)]
pub enum HeaderError {
    /// The version field is not 6.
    UnexpectedVersion {
        /// The version field, the upper half of the first byte.
        version_number: u8,
    },
}

/// Says which version was found.
impl fmt::Display for HeaderError {
    ghost output = { λ e. Some (ipv6_header_error_text e) };

    fn fmt<W: fmt::Write>(&self, f: &mut fmt::Formatter<W>) -> fmt::Result {
        match self {
            HeaderError::UnexpectedVersion { version_number } => write!(
                f,
                "IPv6 Header Error: Encountered '{version_number}' as IP version number in the IPv6 header (must be '6' in an IPv6 header)."
            ),
        }
    }
}

impl Error for HeaderError {}
