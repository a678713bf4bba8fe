//! Callers of `etherparse` and of the crates on top of it as their users write them, each with a
//! contract that says what the user wants to know, proved from public contracts.
#![tactic(auto)]

pub mod capture;
pub mod checksum;
pub mod compare;
pub mod configure;
pub mod filter;
pub mod forward;
pub mod frame;
pub mod gre;
pub mod ipv4_view;
pub mod ipv6_view;
pub mod monitor;
pub mod options;
pub mod payload;
pub mod ppp;
pub mod queue;
pub mod reassembly;
pub mod selection;
pub mod send;
pub mod translation;
pub mod tunnel;
pub mod upper_layer;
