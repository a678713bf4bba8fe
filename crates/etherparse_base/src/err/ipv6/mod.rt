//! The errors of IPv6 headers.

mod chain_error;
mod header_error;
mod header_slice_error;

pub use chain_error::ChainError;
pub use header_error::HeaderError;
pub use header_slice_error::HeaderSliceError;
