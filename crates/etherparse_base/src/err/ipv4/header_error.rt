ghost use Rattle.std.specs.Prelude.{Some};
ghost use Rattle.etherparse_base.specs.Ipv4Errors.{ipv4_header_error_text};

use std::error::Error;
use std::fmt;

/// Why a slice of sufficient length does not begin with an IPv4 header (RFC 791 section 3.1).
#[derive(Clone, Debug, PartialEq, Eq, Hash, Drop)]
pub enum HeaderError {
    /// The version field is not 4.
    UnexpectedVersion {
        /// The version field, the upper half of the first byte.
        version_number: u8,
    },
    /// The header length that the IHL field gives is below that of a header with no options.
    HeaderLengthSmallerThanHeader {
        /// The IHL field, the lower half of the first byte, in words of 4 bytes.
        ihl: u8,
    },
}

/// Says which version or which header length was found.
impl fmt::Display for HeaderError {
    ghost output = { λ e. Some (ipv4_header_error_text e) };

    fn fmt<W: fmt::Write>(&self, f: &mut fmt::Formatter<W>) -> fmt::Result {
        match self {
            HeaderError::UnexpectedVersion { version_number } => write!(
                f,
                "IPv4 Header Error: Encountered '{version_number}' as IP version number in the IPv4 header (must be '4' in an IPv4 header)."
            ),
            HeaderError::HeaderLengthSmallerThanHeader { ihl } => write!(
                f,
                "IPv4 Header Error: The 'internet header length' value '{ihl}' present in the IPv4 header is smaller than the minimum size of an IPv4 header. The minimum allowed value is '5'."
            ),
        }
    }
}

impl Error for HeaderError {}
