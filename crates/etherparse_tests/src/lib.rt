//! Tests of the libraries by their public paths: what no clause says, and worked values from the
//! standards.
//!
//! They are in a crate of their own, since each crate with tests is proved once more for them.
#![tactic(auto)]

#[cfg(test)]
mod address;
#[cfg(test)]
mod built_messages;
#[cfg(test)]
mod built_packets;
#[cfg(test)]
mod captures;
#[cfg(test)]
mod checksum;
#[cfg(test)]
mod errors;
#[cfg(test)]
mod fields;
#[cfg(test)]
mod filter;
#[cfg(test)]
mod frames;
#[cfg(test)]
mod framings;
#[cfg(test)]
mod headers;
#[cfg(test)]
mod layers;
#[cfg(test)]
mod reassembly;
#[cfg(test)]
mod shared;
#[cfg(test)]
mod skipping;
#[cfg(test)]
mod updates;
#[cfg(test)]
mod views;
#[cfg(test)]
mod whole_frames;
