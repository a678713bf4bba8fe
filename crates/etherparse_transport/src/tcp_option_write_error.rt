ghost use Rattle.std.specs.Prelude.{Some};
ghost use Rattle.etherparse_transport.specs.TcpOptionErrors.{write_error_text};

use std::error::Error;
use std::fmt;

/// Why options are not put into a TCP header.
#[derive(Clone, Copy, Debug, PartialEq, Eq)]
pub enum TcpOptionWriteError {
    /// How many bytes they have without padding, which is more than the 40 that a header has room
    /// for.
    NotEnoughSpace(usize),
}

impl fmt::Display for TcpOptionWriteError {
    ghost output = { λ error. Some (write_error_text error) };

    fn fmt<W: fmt::Write>(&self, f: &mut fmt::Formatter<W>) -> fmt::Result {
        match *self {
            TcpOptionWriteError::NotEnoughSpace(len) => write!(
                f,
                "TCP options of {len} bytes do not fit into the 40 of a header."
            ),
        }
    }
}

impl Error for TcpOptionWriteError {}
