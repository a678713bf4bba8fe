//! The errors of link headers.

pub mod arp;
pub mod double_vlan;
