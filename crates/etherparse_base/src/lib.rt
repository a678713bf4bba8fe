//! What all header crates share: where a length came from, the errors with their texts, and
//! checksums.
//!
//! `docs/examples.py` runs the examples: `rt` is a test's argument, `?` ends the test with the error,
//! and `etherparse` has all names.
#![tactic(auto)]

pub mod checksum;
pub mod err;
mod laws;
mod len_source;

pub use len_source::LenSource;
