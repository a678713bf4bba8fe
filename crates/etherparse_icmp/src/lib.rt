//! The headers of ICMP and ICMPv6, and views of their messages.
#![tactic(auto)]

mod icmp_echo_header;
pub mod icmpv4;
mod icmpv4_header;
mod icmpv4_slice;
mod icmpv4_type;
pub mod icmpv6;
mod icmpv6_header;
mod icmpv6_slice;
mod icmpv6_type;
mod laws;

pub use icmp_echo_header::IcmpEchoHeader;
pub use icmpv4_header::Icmpv4Header;
pub use icmpv4_slice::Icmpv4Slice;
pub use icmpv4_type::Icmpv4Type;
pub use icmpv6_header::Icmpv6Header;
pub use icmpv6_slice::Icmpv6Slice;
pub use icmpv6_type::Icmpv6Type;
