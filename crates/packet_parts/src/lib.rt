//! An IP packet in its parts: header, extension headers and fragment header, and payload; and what a
//! receiver finds of the checksums. Each call views the packet and takes no memory.
#![tactic(auto)]

pub mod address;
pub mod checksum;
mod covered_addresses;
pub mod extensions;
pub mod final_destination;
pub mod fragment;
pub mod fragment_key;
pub mod ip_slice;
mod laws;
pub mod original_source;
