//! Reads the hex digits of an IP header from standard input, and prints its fields, one per line.
#![tactic(auto)]

mod decode;
mod input;
mod lines;
mod run;
mod sink;
mod status;

use run::run;
use std::io;
use std::process::ExitCode;

fn main(rt: HostRuntime) -> ExitCode {
    let status = run(&mut rt.reader(), &mut io::writer(&rt));
    ExitCode::from(status.code())
}
