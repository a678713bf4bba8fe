//! One module for each view and each header, and what those of IPv4 share.

pub mod ipv4_header;
pub mod ipv4_header_slice;
mod ipv4_payload_len;
pub mod ipv6_header;
pub mod ipv6_header_slice;
