//! Frames whose IP packets are fragments: which frame a fragment completes, and how many datagrams
//! there were. No memory is allocated: the caller lends it.
#![tactic(auto)]

pub mod datagrams;
pub mod frame_reassembly;
mod laws;
