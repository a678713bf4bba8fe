//! One module for each type, and one for the numbers of protocols by their names.

pub mod ip_dscp;
pub mod ip_dscp_known;
pub mod ip_ecn;
pub mod ip_frag_offset;
pub mod ip_number;
pub mod ip_number_impl;
pub mod ipv4_options;
pub mod ipv6_flow_label;
