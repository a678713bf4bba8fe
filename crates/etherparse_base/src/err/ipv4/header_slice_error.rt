ghost use Rattle.std.specs.Prelude.{◌≡◌, ◌+◌, ◌^◌, ◌<◌, Some};
ghost use Rattle.etherparse_base.specs.Ipv4Errors.{ipv4_error_moved, ipv4_error_place};
ghost use Rattle.etherparse_base.specs.Ipv4Errors.{ipv4_header_slice_error_text};

use super::HeaderError;
use crate::err::LenError;
use std::error::Error;
use std::fmt;

/// Why a slice does not begin with an IPv4 header.
#[derive(Clone, Debug, PartialEq, Eq, Hash, Drop)]
pub enum HeaderSliceError {
    /// The slice is shorter than the header.
    Len(LenError),
    /// The bytes are not an IPv4 header.
    Content(HeaderError),
}

impl HeaderSliceError {
    /// The error of a header that starts `offset` bytes further on. A `Len` changes by
    /// [`LenError::add_offset`], whose sum has to fit `usize`; a `Content` stays as it is.
    ///
    /// # Example
    ///
    /// ```
    /// fn inner_header(packet: &[u8]) -> Result<Option<(Ipv4Header, &[u8])>, HeaderSliceError> {
    ///     let (outer, payload) = Ipv4Header::from_slice(packet)?;
    ///     if outer.protocol != IpNumber::IPV4 || outer.is_fragmenting_payload() {
    ///         return Ok(None);
    ///     }
    ///     match Ipv4Header::from_slice(payload) {
    ///         Ok(inner) => Ok(Some(inner)),
    ///         Err(e) => Err(e.add_slice_offset(outer.header_len())),
    ///     }
    /// }
    /// ```
    #[inline]
    pub fn add_slice_offset(self, offset: usize) -> HeaderSliceError
        requires fits { ipv4_error_place self + offset < 2 ^ 64 }
        ensures moved { result ≡ ipv4_error_moved offset self }
    {
        match self {
            HeaderSliceError::Len(e) => HeaderSliceError::Len(e.add_offset(offset)),
            HeaderSliceError::Content(e) => HeaderSliceError::Content(e),
        }
    }
}

/// Writes the text of the error inside.
impl fmt::Display for HeaderSliceError {
    ghost output = { λ e. Some (ipv4_header_slice_error_text e) };

    fn fmt<W: fmt::Write>(&self, f: &mut fmt::Formatter<W>) -> fmt::Result {
        match self {
            HeaderSliceError::Len(e) => e.fmt(f),
            HeaderSliceError::Content(e) => e.fmt(f),
        }
    }
}

impl Error for HeaderSliceError {}
