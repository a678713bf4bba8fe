ghost use Rattle.std.specs.Prelude.{Some};
ghost use Rattle.etherparse_transport.specs.TcpOptionErrors.{read_error_text};

use std::error::Error;
use std::fmt;

/// Why no option of a TCP header is read, where the options have not ended.
#[derive(Clone, Copy, Debug, PartialEq, Eq)]
pub enum TcpOptionReadError {
    /// The bytes end before the option does.
    UnexpectedEndOfSlice {
        /// The kind of the option: its first byte.
        option_id: u8,
        /// How many bytes it needs: those of its kind, or of Selective Acknowledgement (kind 5) its
        /// length, or 2 if its length is missing.
        expected_len: u8,
        /// How many bytes are left.
        actual_len: usize,
    },
    /// The length of the option is none that its kind has. Of a kind with one length the missing
    /// bytes are told first, by `UnexpectedEndOfSlice`.
    UnexpectedSize {
        /// The kind of the option: its first byte.
        option_id: u8,
        /// The length: its second byte, which is to count both and the data.
        size: u8,
    },
    /// The kind is none that is known here: not 0 to 5 and not 8. It ends the options.
    UnknownId(u8),
}

impl fmt::Display for TcpOptionReadError {
    ghost output = { λ error. Some (read_error_text error) };

    fn fmt<W: fmt::Write>(&self, f: &mut fmt::Formatter<W>) -> fmt::Result {
        match *self {
            TcpOptionReadError::UnexpectedEndOfSlice {
                option_id,
                expected_len,
                actual_len,
            } => write!(
                f,
                "TCP option of kind {option_id} needs {expected_len} bytes, but only {actual_len} are left."
            ),
            TcpOptionReadError::UnexpectedSize { option_id, size } => write!(
                f,
                "TCP option of kind {option_id} has the length {size}, which its kind does not allow."
            ),
            TcpOptionReadError::UnknownId(option_id) => {
                write!(f, "TCP option of kind {option_id} is not known.")
            }
        }
    }
}

impl Error for TcpOptionReadError {}
