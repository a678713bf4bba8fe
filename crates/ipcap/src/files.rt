//! What is read from and written to: a file, or a standard stream.

ghost use Rattle.std.specs.Prelude.{◌≡◌, IfOk, IsOk, IsTrue};
ghost use Rattle.ipcap.specs.Arguments.{is_standard, text_of};
ghost use Rattle.ipcap.specs.Files.{of_reader, of_writer, reads_standard, writes_standard};

use std::fs::File;
use std::io;
use std::io::{Read, Stdin, Stdout, Write};

/// What a capture is read from. A contract can name what it gives, for other types than those of
/// standard input and a file.
#[derive(Drop)]
pub enum Reader<S, F> {
    /// Standard input.
    Standard(S),
    /// A file.
    File(F),
}

impl Reader<Stdin, File> {
    /// Opens the file with this name. `-` and no name are standard input.
    ///
    /// # Errors
    ///
    /// The system's reason why the file cannot be opened.
    pub fn open(rt: &HostRuntime, name: Option<&str>) -> io::Result<Reader<Stdin, File>>
        ensures standard { IsTrue (is_standard (text_of name.entry)) → IsOk result }
        ensures stream { IfOk result (λ reader.
            reads_standard reader ≡ is_standard (text_of name.entry)) }
    {
        match name {
            None | Some("-") => Ok(Reader::Standard(rt.stdin())),
            Some(name) => Ok(Reader::File(File::open(rt, name)?)),
        }
    }
}

impl<S: Read, F: Read> Read for Reader<S, F> {
    ghost remaining = { λ reader. of_reader S.remaining F.remaining reader };

    fn read(&mut self, buf: &mut [u8]) -> io::Result<usize> {
        match self {
            Reader::Standard(stdin) => stdin.read(buf),
            Reader::File(file) => file.read(buf),
        }
    }
}

/// What lines and packets are written to. A contract can name what it has, likewise.
#[derive(Drop)]
pub enum Writer<S, F> {
    /// Standard output.
    Standard(S),
    /// A file.
    File(F),
}

impl Writer<Stdout, File> {
    /// Makes the file with this name, or empties it. `-` and no name are standard output.
    ///
    /// # Errors
    ///
    /// The system's reason why the file cannot be made.
    pub fn create(rt: &HostRuntime, name: Option<&str>) -> io::Result<Writer<Stdout, File>>
        ensures standard { IsTrue (is_standard (text_of name.entry)) → IsOk result }
        ensures stream { IfOk result (λ writer.
            writes_standard writer ≡ is_standard (text_of name.entry)) }
    {
        match name {
            None | Some("-") => Ok(Writer::Standard(rt.stdout())),
            Some(name) => {
                // A clone has a number above 2. The file itself could get that of a closed standard
                // stream, and then what is written to standard error would end up in it.
                let file = File::create(rt, name)?;
                Ok(Writer::File(file.try_clone()?))
            }
        }
    }
}

impl<S: Write, F: Write> Write for Writer<S, F> {
    ghost contents = { λ writer. of_writer S.contents F.contents writer };

    fn write(&mut self, buf: &[u8]) -> io::Result<usize> {
        match self {
            Writer::Standard(stdout) => stdout.write(buf),
            Writer::File(file) => file.write(buf),
        }
    }

    fn flush(&mut self) -> io::Result<()> {
        match self {
            Writer::Standard(stdout) => stdout.flush(),
            Writer::File(file) => file.flush(),
        }
    }
}
