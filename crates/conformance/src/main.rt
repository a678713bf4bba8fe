//! Answers cases, one per line: each is a call of `etherparse`, and its answer is what the call
//! returned.
#![tactic(auto)]

mod answer;
mod build;
mod case;
mod comparison;
mod constants;
mod errors;
mod extensions;
mod fields;
mod filters;
mod fragments;
mod icmp;
mod ipv4;
mod ipv6;
mod link;
mod offsets;
mod options;
mod packets;
mod replay;
mod shown;
mod sums;
mod tables;
mod transport;
mod walks;

use replay::replay;
use std::io;
use std::io::{BufReader, BufWriter};

fn main(rt: HostRuntime) -> io::Result<()> {
    let alloc = rt.alloc();
    let mut reader = BufReader::new(alloc, rt.reader())?;
    let mut writer = BufWriter::new(alloc, io::writer(&rt))?;
    replay(alloc, &mut reader, &mut writer)
}
