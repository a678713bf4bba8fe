//! Why a packet is not written.

ghost use Rattle.std.specs.Prelude.{Some};
ghost use Rattle.packet_builder.specs.ErrorText.{text_in_any_style, write_error_text};

use etherparse::err::ValueTooBigError;
use std::error::Error;
use std::fmt;

/// Why a packet is not written into a slice.
#[derive(Clone, Debug, PartialEq, Eq, Drop)]
pub enum BuildSliceWriteError {
    /// The IP header cannot count the bytes after it.
    PayloadLen(ValueTooBigError<usize>),
    /// A message of ICMPv6 would follow an IPv4 header, which has no pseudo-header for its checksum.
    Icmpv6InIpv4,
    /// The slice is too short. It needs this many bytes.
    Space(usize),
}

impl fmt::Display for BuildSliceWriteError {
    ghost output = { λ error. Some (write_error_text error) };

    // A width, a precision or a flag changes nothing; of a text with a number that is not said.
    ghost styled_output = { λ error _. text_in_any_style error };

    fn fmt<W: fmt::Write>(&self, f: &mut fmt::Formatter<W>) -> fmt::Result {
        match self {
            BuildSliceWriteError::PayloadLen(e) => fmt::Display::fmt(e, f),
            BuildSliceWriteError::Icmpv6InIpv4 => {
                f.write_str("A message of ICMPv6 cannot follow an IPv4 header.")
            }
            &BuildSliceWriteError::Space(required_len) => write!(
                f,
                "Not enough space to write packet to slice. Needed {required_len} byte(s)."
            ),
        }
    }
}

impl Error for BuildSliceWriteError {}
