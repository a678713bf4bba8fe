//! Link headers that tell by their own bytes where they end and what follows: PPP, Cisco's HDLC,
//! frame relay, SLIP, and IEEE 802.11. Each call reads a frame where it lies and takes no memory.
#![tactic(auto)]

mod bytes;
mod frame_relay;
pub mod framing;
pub mod header;
mod ieee80211;
mod laws;
mod ppp;
