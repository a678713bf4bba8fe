//! The errors of the header crates.

pub mod ip;
pub mod ipv4;
pub mod ipv6;
mod layer;
mod len_error;
mod slice_write_space_error;
mod value_too_big_error;
mod value_type;

pub use layer::Layer;
pub use len_error::LenError;
pub use slice_write_space_error::SliceWriteSpaceError;
pub use value_too_big_error::ValueTooBigError;
pub use value_type::ValueType;
