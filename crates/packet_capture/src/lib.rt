//! Captures: files in the classic format of libpcap, and pcapng files.
#![tactic(auto)]

pub mod any;
pub mod capture;
pub mod file_format;
mod laws;
pub mod pcapng;
pub mod skip;
mod word;
