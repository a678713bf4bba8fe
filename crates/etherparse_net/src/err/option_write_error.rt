ghost use Rattle.std.specs.Prelude.{Some};
ghost use Rattle.etherparse_net.specs.OptionErrors.{option_write_error_text};

use std::error::Error;
use std::fmt;

/// Why an option of IPv6 is not written (RFC 8200 section 4.2).
#[derive(Clone, Copy, Debug, PartialEq, Eq, Hash)]
pub enum OptionWriteError {
    /// Its data has so many bytes, which is more than an option of its type can have.
    DataTooLong(usize),
    /// There is too little room: with the option there would be so many bytes.
    NotEnoughSpace(usize),
}

/// Says how many bytes there are of the data, or would be with the option.
impl fmt::Display for OptionWriteError {
    ghost output = { λ e. Some (option_write_error_text e) };

    fn fmt<W: fmt::Write>(&self, f: &mut fmt::Formatter<W>) -> fmt::Result {
        match *self {
            OptionWriteError::DataTooLong(len) => write!(
                f,
                "IPv6 Option Error: The data has '{len}' byte(s), which is more than an option of its type can have."
            ),
            OptionWriteError::NotEnoughSpace(len) => write!(
                f,
                "IPv6 Option Error: Not enough space to write the option. Needed {len} byte(s)."
            ),
        }
    }
}

impl Error for OptionWriteError {}
