//! Why bytes are no authentication header.

mod header_error;
mod header_slice_error;

pub use header_error::HeaderError;
pub use header_slice_error::HeaderSliceError;
