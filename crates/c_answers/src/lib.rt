//! What the library for C answers: structs of numbers, what they are of the library's values, and
//! the texts of errors. `etherparse_c` has the calls.
#![tactic(auto)]

pub mod defrag_added;
pub mod defrag_error;
pub mod defrag_text;
pub mod error;
pub mod error_text;
pub mod filter_frames;
pub mod filter_reading;
pub mod filter_refusal;
pub mod frame;
mod laws;
pub mod packet_layers;
pub mod rewriting;
pub mod rewriting_text;
mod store;
pub mod text;
