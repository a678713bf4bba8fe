//! Reads a capture, and prints a line for each packet, or writes the packets that are chosen.
#![tactic(auto)]

mod arguments;
mod completing;
mod dates;
mod ends;
mod failure;
mod files;
mod input;
mod lines;
mod listing;
mod memory;
mod output;
mod place;
mod program;
mod reading;
mod refusal;
mod request;
mod run;
mod shown;
mod status;
mod streams;
mod system;
mod totals;

use output::Output;
use program::{FAILED, REFUSED, obey};
use std::io::ErrorKind;
use std::process::ExitCode;
use std::{env, io};
use streams::Watched;
use system::Host;

fn main(rt: HostRuntime) -> ExitCode {
    let code = match start(&rt) {
        Ok(code) => code,
        Err(e) => {
            let _ = eprintln!(&rt; "error: {e}");
            FAILED
        }
    };
    ExitCode::from(code)
}

// Reads the command line, and does what it says. Returns the exit status.
fn start(rt: &HostRuntime) -> io::Result<u8> {
    let arguments = match env::args(rt) {
        Ok(arguments) => arguments,
        Err(e) if e.kind() == ErrorKind::InvalidData => {
            let _ = eprintln!(rt; "error: an argument is not UTF-8");
            return Ok(REFUSED);
        }
        Err(e) => return Err(e),
    };
    let words: Vec<String> = arguments.collect(rt.alloc())?;
    let mut system = Host::new(rt);
    let mut errors = Output::new(Watched::new(rt.stderr()));
    obey(&mut system, rt.alloc(), words.as_slice(), &mut errors)?.code
}
