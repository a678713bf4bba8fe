//! The errors of what both IP headers have in common.

mod ip_dscp_unknown_value_error;

pub use ip_dscp_unknown_value_error::IpDscpUnknownValueError;
