//! Packets that are rewritten: the replies to echo requests, checksums, and other addresses, each
//! with the checksums for it.
#![tactic(auto)]

pub mod checksum;
pub mod echo;
pub mod fields;
mod laws;
pub mod translation;
