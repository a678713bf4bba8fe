ghost use Rattle.std.specs.Prelude.{Some};
ghost use Rattle.etherparse_base.specs.Ipv4Errors.{bad_options_len_text};

use std::error::Error;
use std::fmt;

/// A length that IPv4 options cannot have: above 40 bytes, or not a multiple of 4 (RFC 791 section
/// 3.1).
#[derive(Clone, Debug, PartialEq, Eq, Hash, Drop)]
pub struct BadOptionsLen {
    /// The length that was refused, in bytes.
    pub bad_len: usize,
}

/// Says which length was refused.
impl fmt::Display for BadOptionsLen {
    ghost output = { λ e. Some (bad_options_len_text e) };

    fn fmt<W: fmt::Write>(&self, f: &mut fmt::Formatter<W>) -> fmt::Result {
        let bad_len = self.bad_len;
        write!(
            f,
            "Slice of length {bad_len} cannot be set as IPv4 header options. The length must be a multiple of 4 and at maximum 40."
        )
    }
}

impl Error for BadOptionsLen {}
