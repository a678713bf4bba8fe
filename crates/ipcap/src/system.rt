//! What the program has of the system: the files that names stand for, and the texts on a command
//! line.

ghost use Rattle.std.specs.Prelude.{◌≡◌, ℕ, IfErr, IfOk, List, Option, Result, map};
ghost use Rattle.std.specs.Prelude.{string_bytes};
ghost use Rattle.std.specs.declared.alloc.AllocError.{AllocError as NoMemory};
ghost use Rattle.std.specs.declared.io.Error.{Error};
ghost use Rattle.clap.specs.declared.error.Error as text;
ghost use Rattle.clap.specs.declared.parser.matches.ArgMatches as found;
ghost use Rattle.ipcap.specs.Arguments.{text_of};
ghost use Rattle.ipcap.specs.Files.{OpensReader, OpensWriter};
ghost use Rattle.ipcap.specs.Program.{HasNoMatches, IsCommandLine};
ghost use Rattle.ipcap.specs.declared.system.Asked as asked_for;

use crate::arguments::read_words;
use crate::files;
use crate::streams::{Sink, Source, Watched};
use clap::ArgMatches;
use std::alloc::{AllocError, Global};
use std::fs::File;
use std::io;
use std::io::{Stdin, Stdout};

/// What a system has been asked for.
#[derive(Clone, Copy)]
pub enum Asked {
    /// Nothing.
    Nothing,
    /// To show a text on the command line.
    Text,
    /// To open the input.
    Input,
    /// To open the input, and then to make the output.
    Output,
}

/// The files that names stand for, and the texts on a command line.
///
/// The program is proved for every system, so it knows a source or a sink of a name from a call
/// that has opened it, and from nothing else. A system is asked for one text; or for the input, and
/// then for the output; or for nothing.
pub trait System {
    /// What a capture is read from.
    type Reader: Source + Drop;

    /// What lines and packets are written to.
    type Writer: Sink + Drop;

    // What it has been asked for.
    ghost asked: { Self → asked_for.Asked };

    // What reading the words of a command line comes to.
    ghost reads: { List (List ℕ) → Result (Result found.ArgMatches text.Error) NoMemory → Type 0 };

    // What showing a text on a command line comes to.
    ghost shows: { text.Error → Result (Unit {0}) Error → Type 0 };

    // What opening the file with a name comes to; `-` and no name are standard input.
    ghost opens: { Option (List ℕ) → Result Self.Reader Error → Type 0 };

    // What making the file with a name comes to; `-` and no name are standard output.
    ghost creates: { Option (List ℕ) → Result Self.Writer Error → Type 0 };

    /// Reads the words of a command line, as `read_words` does.
    fn read<'a>(
        &self,
        alloc: Global,
        words: &'a [String],
    ) -> Result<Result<ArgMatches<'a>, clap::Error>, AllocError>
        ensures reads { reads (map string_bytes words.entry.now) result }
        ensures matches { IfOk result (λ read. IfOk read
            (IsCommandLine (map string_bytes words.entry.now))) }
        ensures none { IfOk result (λ read. IfErr read
            (HasNoMatches (map string_bytes words.entry.now))) };

    /// Shows help or the version on standard output, or on standard error what is wrong with a
    /// command line, as `clap::Error::print` does.
    fn show(&mut self, text: &clap::Error) -> io::Result<()>
        requires first { asked self.old ≡ Asked.Nothing }
        ensures asked { asked self.new ≡ Asked.Text }
        ensures shows { shows text.now result };

    /// Opens the file with this name, as `Reader::open` does.
    fn open(&mut self, name: Option<&str>) -> io::Result<Self::Reader>
        requires first { asked self.old ≡ Asked.Nothing }
        ensures asked { asked self.new ≡ Asked.Input }
        ensures opens { opens (text_of name.entry) result }
        ensures goes_on { IfOk result Self.Reader.goes_on };

    /// Makes the file with this name, or empties it, as `Writer::create` does.
    fn create(&mut self, name: Option<&str>) -> io::Result<Self::Writer>
        requires second { asked self.old ≡ Asked.Input }
        ensures asked { asked self.new ≡ Asked.Output }
        ensures creates { creates (text_of name.entry) result };
}

/// The files and the standard streams of a process.
#[derive(Drop)]
pub struct Host<'a> {
    rt: &'a HostRuntime,
    asked: Asked,
}

impl<'a> Host<'a> {
    /// Nothing has been asked for.
    pub fn new(rt: &'a HostRuntime) -> Host<'a>
        ensures asked { result.asked ≡ Asked.Nothing }
    {
        Host {
            rt,
            asked: Asked::Nothing,
        }
    }
}

impl System for Host<'_> {
    type Reader = Watched<files::Reader<Stdin, File>>;

    type Writer = Watched<files::Writer<Stdout, File>>;

    ghost asked = { λ host. host.asked };

    ghost reads = { λ _ _. Unit {0} };

    ghost shows = { λ _ _. Unit {0} };

    ghost opens = { λ name result. OpensReader name result };

    ghost creates = { λ name result. OpensWriter name result };

    fn read<'a>(
        &self,
        alloc: Global,
        words: &'a [String],
    ) -> Result<Result<ArgMatches<'a>, clap::Error>, AllocError> {
        read_words(alloc, words)
    }

    fn show(&mut self, text: &clap::Error) -> io::Result<()> {
        self.asked = Asked::Text;
        text.print(self.rt)
    }

    fn open(&mut self, name: Option<&str>) -> io::Result<Watched<files::Reader<Stdin, File>>> {
        self.asked = Asked::Input;
        Ok(Watched::new(files::Reader::open(self.rt, name)?))
    }

    fn create(&mut self, name: Option<&str>) -> io::Result<Watched<files::Writer<Stdout, File>>> {
        self.asked = Asked::Output;
        Ok(Watched::new(files::Writer::create(self.rt, name)?))
    }
}
