//! Packets that are built: link header, VLAN tags, IP header, transport header and payload, with all
//! lengths, numbers and checksums set, in memory of the caller.
#![tactic(auto)]

mod arp_step;
mod build_slice_write_error;
mod headers;
mod icmpv4_step;
mod icmpv6_step;
mod ip_step;
mod laws;
mod link_step;
mod packet_builder;
mod tcp_step;
mod udp_step;
mod vlan_step;
mod writing;

pub use arp_step::ArpStep;
pub use build_slice_write_error::BuildSliceWriteError;
pub use headers::{Headers, IpHeader, LinkHeader, VlanHeader};
pub use icmpv4_step::Icmpv4Step;
pub use icmpv6_step::Icmpv6Step;
pub use ip_step::IpStep;
pub use laws::built_packet_law;
pub use link_step::LinkStep;
pub use packet_builder::PacketBuilder;
pub use tcp_step::TcpStep;
pub use udp_step::UdpStep;
pub use vlan_step::VlanStep;
