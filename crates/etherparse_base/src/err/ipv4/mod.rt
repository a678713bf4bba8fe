//! The errors of IPv4 headers.

mod bad_options_len;
mod header_error;
mod header_slice_error;

pub use bad_options_len::BadOptionsLen;
pub use header_error::HeaderError;
pub use header_slice_error::HeaderSliceError;
