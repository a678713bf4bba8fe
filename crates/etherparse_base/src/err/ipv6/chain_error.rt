ghost use Rattle.std.specs.Prelude.{◌≡◌, ◌+◌, ◌^◌, ◌<◌, Some};
ghost use Rattle.etherparse_base.specs.Ipv6Errors.{chain_error_moved, chain_error_place};
ghost use Rattle.etherparse_base.specs.Ipv6Errors.{chain_error_text};

use crate::err::LenError;
use std::error::Error;
use std::fmt;

/// Why a walk past extension headers with a limit did not find the end of their chain (RFC 8200
/// section 4).
///
/// The Rust crate has no such type.
#[derive(Clone, Debug, PartialEq, Eq, Hash, Drop)]
pub enum ChainError {
    /// A header is incomplete.
    Len(LenError),
    /// After as many headers as the limit allows, there is one more.
    TooMany {
        /// The greatest number of headers allowed.
        limit: usize,
        /// The number of the header that is one too many.
        next_header: u8,
        /// Where that header starts, in bytes from the start of the parsed data.
        layer_start_offset: usize,
    },
}

impl ChainError {
    /// The error of a chain that starts `offset` bytes further on: the place of either variant
    /// grows by `offset`, and all else stays the same. The sum has to fit `usize`.
    ///
    /// # Example
    ///
    /// ```
    /// // One header too many, 8 bytes after the IPv6 header, and its place in the packet.
    /// let error = ChainError::TooMany {
    ///     limit: 1,
    ///     next_header: 60,
    ///     layer_start_offset: 8,
    /// };
    /// let in_packet = ChainError::TooMany {
    ///     limit: 1,
    ///     next_header: 60,
    ///     layer_start_offset: 48,
    /// };
    /// assert!(rt; error.add_slice_offset(40) == in_packet);
    /// ```
    #[inline]
    pub fn add_slice_offset(self, offset: usize) -> ChainError
        requires fits { chain_error_place self + offset < 2 ^ 64 }
        ensures moved { result ≡ chain_error_moved 0 offset self }
    {
        match self {
            ChainError::Len(e) => ChainError::Len(e.add_offset(offset)),
            ChainError::TooMany {
                limit,
                next_header,
                layer_start_offset,
            } => ChainError::TooMany {
                limit,
                next_header,
                layer_start_offset: layer_start_offset + offset,
            },
        }
    }
}

/// Writes the text of a `Len`, or how many headers were allowed and where the next one starts, even
/// at byte 0.
impl fmt::Display for ChainError {
    ghost output = { λ e. Some (chain_error_text e) };

    fn fmt<W: fmt::Write>(&self, f: &mut fmt::Formatter<W>) -> fmt::Result {
        match self {
            ChainError::Len(e) => e.fmt(f),
            ChainError::TooMany {
                limit,
                next_header,
                layer_start_offset,
            } => write!(
                f,
                "IPv6 Extension Header Error: More than {limit} extension header(s) ('{next_header}' starts at overall parsed byte {layer_start_offset})."
            ),
        }
    }
}

impl Error for ChainError {}
