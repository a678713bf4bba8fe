//! IP headers: views of received bytes, owned headers, and the bytes that are written.
//!
//! The layer of IP base headers of the Rust crate `etherparse` 0.19.0, under the same paths, with
//! checksums and the walk past IPv6 extension headers.
//!
//! ```
//! use etherparse::err::ipv4::HeaderSliceError;
//! use etherparse::{IpNumber, Ipv4Header};
//!
//! /// The destination port of a UDP packet that is no fragment.
//! pub fn udp_port(packet: &[u8]) -> Result<Option<u16>, HeaderSliceError> {
//!     let (header, rest) = Ipv4Header::from_slice(packet)?;
//!     if header.protocol != IpNumber::UDP || header.is_fragmenting_payload() {
//!         return Ok(None);
//!     }
//!     if rest.len() < 4 || usize::from(header.total_len) < header.header_len() + 4 {
//!         return Ok(None);
//!     }
//!     Ok(Some(u16::from_be_bytes([rest[2], rest[3]])))
//! }
//! ```
//!
//! `docs/examples.py` runs the other examples: `rt` is a test's argument, `?` ends the test with the
//! error, and all names come from `etherparse`.
#![tactic(auto)]

mod laws;
mod net;

pub use etherparse_base::{LenSource, checksum, err};
pub use etherparse_fields::{
    IpDscp, IpDscpKnown, IpEcn, IpFragOffset, IpNumber, Ipv4Options, Ipv6FlowLabel, ip_number,
};
pub use net::ipv4_header::Ipv4Header;
pub use net::ipv4_header_slice::Ipv4HeaderSlice;
pub use net::ipv6_header::Ipv6Header;
pub use net::ipv6_header_slice::Ipv6HeaderSlice;

/// An older name of [`IpDscp`].
pub type Ipv4Dscp = IpDscp;

/// An older name of [`IpEcn`].
pub type Ipv4Ecn = IpEcn;

/// An older name of [`IpNumber`].
pub type IpTrafficClass = IpNumber;
