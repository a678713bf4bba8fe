//! A packet in one call: the link header, VLAN tags, the IP packet and the transport header of a
//! frame. Each call views the frame and takes no memory.
#![tactic(auto)]

pub mod error;
mod laws;
pub mod lax_sliced_packet;
pub mod link;
pub mod link_layers;
mod network;
pub mod sliced_packet;
pub mod transport;
pub mod vlan;
