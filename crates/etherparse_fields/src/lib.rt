//! Fields of IP headers with fewer values than their integer type, the numbers of protocols, and
//! IPv4 options.
//!
//! `docs/examples.py` runs the examples: `rt` is a test's argument, `?` ends the test with the error,
//! and `etherparse` has all names.
#![tactic(auto)]

mod laws;
mod net;

pub use net::ip_dscp::IpDscp;
pub use net::ip_dscp_known::IpDscpKnown;
pub use net::ip_ecn::IpEcn;
pub use net::ip_frag_offset::IpFragOffset;
pub use net::ip_number;
pub use net::ip_number_impl::IpNumber;
pub use net::ipv4_options::Ipv4Options;
pub use net::ipv6_flow_label::Ipv6FlowLabel;
