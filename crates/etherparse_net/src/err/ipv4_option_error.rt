ghost use Rattle.std.specs.Prelude.{Some};
ghost use Rattle.etherparse_net.specs.OptionErrors.{ipv4_option_error_text};

use super::IncompleteOption;
use std::error::Error;
use std::fmt;

/// Why the options of an IPv4 header do not go on (RFC 791 section 3.1).
#[derive(Clone, Copy, Debug, PartialEq, Eq, Hash)]
pub enum Ipv4OptionError {
    /// An option is cut off by the end of the bytes.
    Incomplete(IncompleteOption),
    /// The length of an option is below 2: it counts the bytes of the type and of the length too.
    LengthBelowTwo {
        /// The type of the option, its first byte.
        option_type: u8,
        /// Its length, 0 or 1.
        option_length: u8,
        /// Where the option begins, in bytes from the first option on.
        offset: usize,
    },
}

/// Says which option it is, where it begins, and what is wrong with it.
impl fmt::Display for Ipv4OptionError {
    ghost output = { λ e. Some (ipv4_option_error_text e) };

    fn fmt<W: fmt::Write>(&self, f: &mut fmt::Formatter<W>) -> fmt::Result {
        match self {
            Ipv4OptionError::Incomplete(e) => e.fmt(f),
            &Ipv4OptionError::LengthBelowTwo {
                option_type,
                option_length,
                offset,
            } => write!(
                f,
                "IP Option Error: The option of type '{option_type}' at byte {offset} has the length '{option_length}' (minimum allowed value is '2')."
            ),
        }
    }
}

impl Error for Ipv4OptionError {}
