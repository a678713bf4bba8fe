//! Why a fragment is refused.

ghost use Rattle.std.specs.Prelude.{Some};
ghost use Rattle.packet_reassembly.specs.ErrorText.{ip_defrag_error_text};

use etherparse::IpFragOffset;
use std::error::Error;
use std::fmt;

/// Why a fragment is refused: no datagram can have it. It is then as if it had not come.
#[derive(Clone, Copy, Debug, PartialEq, Eq)]
pub enum IpDefragError {
    /// It has no bytes.
    Empty {
        /// Its offset, in units of 8 bytes.
        offset: IpFragOffset,
    },
    /// More fragments follow it, and its length is not a multiple of 8 bytes.
    UnalignedFragmentPayloadLen {
        /// Its offset, in units of 8 bytes.
        offset: IpFragOffset,
        /// Its length in bytes.
        payload_len: usize,
    },
    /// It ends past the greatest length of a datagram.
    SegmentTooBig {
        /// Its offset, in units of 8 bytes.
        offset: IpFragOffset,
        /// Its length in bytes.
        payload_len: usize,
        /// That greatest length, in bytes: 65535.
        max: u16,
    },
}

impl fmt::Display for IpDefragError {
    ghost output = { λ error. Some (ip_defrag_error_text error) };

    fn fmt<W: fmt::Write>(&self, f: &mut fmt::Formatter<W>) -> fmt::Result {
        match *self {
            IpDefragError::Empty { offset } => {
                let place = offset.byte_offset();
                write!(
                    f,
                    "IP Fragment Error: The fragment at byte {place} has no bytes."
                )
            }
            IpDefragError::UnalignedFragmentPayloadLen {
                offset,
                payload_len,
            } => {
                let place = offset.byte_offset();
                write!(
                    f,
                    "IP Fragment Error: More fragments follow the one at byte {place}, and its {payload_len} bytes are no multiple of 8."
                )
            }
            IpDefragError::SegmentTooBig {
                offset,
                payload_len,
                max,
            } => {
                let place = offset.byte_offset();
                write!(
                    f,
                    "IP Fragment Error: The fragment at byte {place} has {payload_len} bytes and ends past byte {max}."
                )
            }
        }
    }
}

impl Error for IpDefragError {}
