ghost use Rattle.std.specs.Prelude.{Some};
ghost use Rattle.etherparse_net.specs.OptionErrors.{incomplete_option_text};

use std::error::Error;
use std::fmt;

/// An option of IP that is cut off by the end of the bytes.
#[derive(Clone, Copy, Debug, PartialEq, Eq, Hash)]
pub struct IncompleteOption {
    /// The type of the option, its first byte.
    pub option_type: u8,
    /// How many bytes the option has, or 2 if the byte that gives its length is not there.
    pub required_len: usize,
    /// How many bytes there are from its first on.
    pub len: usize,
    /// Where the option begins, in bytes from the first option on.
    pub offset: usize,
}

/// Says which option it is, where it begins, how many bytes it needs and how many there are.
impl fmt::Display for IncompleteOption {
    ghost output = { λ e. Some (incomplete_option_text e) };

    fn fmt<W: fmt::Write>(&self, f: &mut fmt::Formatter<W>) -> fmt::Result {
        let (option_type, offset) = (self.option_type, self.offset);
        let (required_len, len) = (self.required_len, self.len);
        write!(
            f,
            "IP Option Error: The option of type '{option_type}' at byte {offset} is cut off. {required_len} byte(s) would be required, but only {len} byte(s) are available."
        )
    }
}

impl Error for IncompleteOption {}
