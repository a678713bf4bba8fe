//! Reassembly of fragmented IP packets. The datagram that fragments give does not depend on the
//! order in which they come. No memory is allocated: the caller lends it.
#![tactic(auto)]

pub mod fragment_ecn;
pub mod header_chain;
pub mod ip_defrag_buf;
pub mod ip_defrag_error;
pub mod ip_defrag_headers;
pub mod ip_defrag_packet;
pub mod ip_defrag_pool;
pub mod ip_frag_id;
mod ip_frag_range;
pub mod ip_fragment_slice;
pub mod ipv6_fragment;
mod laws;
pub mod packet;
pub mod reassemble;
mod table;
