//! Link headers: Ethernet, VLAN tags, Linux cooked captures, and ARP packets.
#![tactic(auto)]

mod address_pair;
mod arp_eth_ipv4_packet;
mod arp_hardware_id;
mod arp_operation;
mod arp_packet;
mod arp_packet_slice;
mod double_vlan_header;
pub mod err;
mod ether_type;
mod ethernet2_header;
mod ethernet2_header_slice;
mod laws;
mod linux_sll2_header;
mod linux_sll2_header_slice;
mod linux_sll_header;
mod linux_sll_header_slice;
mod linux_sll_packet_type;
mod single_vlan_header;
mod single_vlan_header_slice;
mod vlan_id;
mod vlan_pcp;

pub use arp_eth_ipv4_packet::ArpEthIpv4Packet;
pub use arp_hardware_id::ArpHardwareId;
pub use arp_operation::ArpOperation;
pub use arp_packet::ArpPacket;
pub use arp_packet_slice::ArpPacketSlice;
pub use double_vlan_header::DoubleVlanHeader;
pub use ether_type::EtherType;
pub use ethernet2_header::Ethernet2Header;
pub use ethernet2_header_slice::Ethernet2HeaderSlice;
pub use linux_sll_header::LinuxSllHeader;
pub use linux_sll_header_slice::LinuxSllHeaderSlice;
pub use linux_sll_packet_type::LinuxSllPacketType;
pub use linux_sll2_header::LinuxSll2Header;
pub use linux_sll2_header_slice::LinuxSll2HeaderSlice;
pub use single_vlan_header::SingleVlanHeader;
pub use single_vlan_header_slice::SingleVlanHeaderSlice;
pub use vlan_id::VlanId;
pub use vlan_pcp::VlanPcp;
