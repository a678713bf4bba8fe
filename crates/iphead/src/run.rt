ghost use Rattle.std.specs.Prelude.{◌≡◌, ◌≢◌, ◌≤◌, ◌<◌, ◌⊎◌, IfOk, IfSome, List, length, take};
ghost use Rattle.std.specs.Io.KnownBytes.{Appends};
ghost use Rattle.hex.specs.Hex.{decode_of};
ghost use Rattle.etherparse.specs.ExtensionHeaderChain.{WalksUpTo};
ghost use Rattle.etherparse.specs.Ipv4Header.{ReadsIpv4};
ghost use Rattle.iphead.specs.Output.{IsOutput, ReadsIpv6Packet, Reports, ReportsBytes, Writes};
ghost use Rattle.iphead.specs.Output.{ipv4_outcome, ipv6_outcome, max_extension_headers};
ghost use Rattle.iphead.specs.Output.{WritesFront, walk_outcome};

use crate::decode::decode_input;
use crate::input::read_digits;
use crate::lines::{write_error, write_ipv4, write_ipv6, write_upper_layer};
use crate::sink::Sink;
use crate::status::Status;
use arrayvec::ArrayVec;
use etherparse::{IpNumber, Ipv4HeaderSlice, Ipv6Header, Ipv6HeaderSlice};
use std::io;
use std::io::{ErrorKind, Read, Write};

// The greatest number of extension headers that the walk goes past.
const MAX_EXTENSION_HEADERS: usize = 32;

// The room for all that is printed, in bytes. The longest output has 426: eight fields of an IPv6
// header, and the error of the walk after it. With numbers of 20 digits it would have 474.
const OUTPUT_ROOM: usize = 1024;

// All that is printed.
type Text = ArrayVec<u8, OUTPUT_ROOM>;

/// Reads the hex digits of a header and prints its fields, one per line, or one line that says why
/// there are none.
///
/// Blanks between the digits are dropped. `run` accepts at most 4096 digits among at most 65536
/// bytes, reads in pieces of 512 bytes, walks past at most 32 extension headers, and allocates no
/// memory. It prints once the whole output is made. A read or a write that fails ends it at once,
/// and only a write that fails may leave a front of the output.
pub fn run<R: Read, W: Sink>(reader: &mut R, writer: &mut W) -> Status
    ensures output { result ≢ Status.Failed → IfSome (R.remaining reader.old) (λ input.
        Writes (IsOutput input) result (W.contents writer.old) (W.contents writer.new)) }
    ensures front { (writer.new ≡ writer.old) ⊎ IfSome (R.remaining reader.old) (λ input.
        WritesFront (IsOutput input) result (W.has_failed writer.new)
        (W.contents writer.old) (W.contents writer.new)) }
{
    let Ok((status, text)) = try_run(reader) else {
        return Status::Failed;
    };
    if write_front(writer, text.as_slice()) < text.len() {
        return Status::Failed;
    }
    status
}

// The status, and all that is printed. A read that fails is an error.
fn try_run<R: Read>(reader: &mut R) -> io::Result<(Status, Text)>
    ensures output { IfOk result (λ ended. IfSome (R.remaining reader.old) (λ input.
        IsOutput input (ended.0, ended.1.items))) }
{
    let mut text = Text::new();
    let status = match read_digits(reader)? {
        Some(digits) => report(digits.as_slice(), &mut text)?,
        None => {
            write_error(&mut text, "input is too long")?;
            Status::BadInput
        }
    };
    Ok((status, text))
}

// Writes bytes as `write_all` does, and returns how many of them the writer has got.
fn write_front<W: Sink>(writer: &mut W, bytes: &[u8]) -> usize
    ensures front { Appends (W.contents writer.old) (W.contents writer.new) (take result bytes.now) }
    ensures failed { result < length bytes.now → W.has_failed writer.new }
{
    let mut len = 0;
    let mut tries = u64::MAX;
    'writes: while len < bytes.len() {
        match writer.write_once(&bytes[len..]) {
            Ok(n) if n > 0 => len += n,
            Err(e) if tries > 0 && e.kind() == ErrorKind::Interrupted => tries -= 1,
            _ => break,
        }
    }
    len
}

// Prints what is to be said about the bytes that digits stand for.
fn report<W: Write>(digits: &[u8], writer: &mut W) -> io::Result<Status>
    requires short { length digits.now ≤ 4096 }
    ensures output { IfOk result (λ status. Writes (ReportsBytes (decode_of digits.now)) status
        (W.contents writer.old) (W.contents writer.new)) }
{
    let mut bytes = [0; 2048];
    let Some(len) = decode_input(digits, &mut bytes) else {
        write_error(writer, "input is not hex")?;
        return Ok(Status::BadInput);
    };
    let bytes = &bytes[..len];
    match bytes.first() {
        Some(first) if first >> 4 == 6 => report_ipv6(bytes, writer),
        _ => report_ipv4(bytes, writer),
    }
}

// Prints what is to be said about bytes that are read as IPv6.
fn report_ipv6<W: Write>(bytes: &[u8], writer: &mut W) -> io::Result<Status>
    ensures output { IfOk result (λ status. Writes
        (Reports (ReadsIpv6Packet bytes.now) ipv6_outcome) status
        (W.contents writer.old) (W.contents writer.new)) }
{
    match Ipv6HeaderSlice::from_slice(bytes) {
        Ok(view) => {
            write_ipv6(writer, &view)?;
            report_walk(&bytes[Ipv6Header::LEN..], view.next_header(), writer)
        }
        Err(e) => {
            write_error(writer, e)?;
            Ok(Status::Refused)
        }
    }
}

// Prints what is to be said about the bytes after an IPv6 header.
fn report_walk<W: Write>(bytes: &[u8], next_header: IpNumber, writer: &mut W) -> io::Result<Status>
    ensures output { IfOk result (λ status. Writes
        (Reports (WalksUpTo max_extension_headers bytes.now next_header)
        (walk_outcome (length bytes.now))) status (W.contents writer.old) (W.contents writer.new)) }
{
    match Ipv6Header::skip_header_extensions_up_to(bytes, next_header, MAX_EXTENSION_HEADERS) {
        Ok((upper, rest)) => {
            let place = Ipv6Header::LEN + (bytes.len() - rest.len());
            write_upper_layer(writer, upper.0, place, rest.len())?;
            Ok(Status::Done)
        }
        Err(e) => {
            write_error(writer, e.add_slice_offset(Ipv6Header::LEN))?;
            Ok(Status::Refused)
        }
    }
}

// Prints what is to be said about bytes that are read as IPv4.
fn report_ipv4<W: Write>(bytes: &[u8], writer: &mut W) -> io::Result<Status>
    ensures output { IfOk result (λ status. Writes
        (Reports (ReadsIpv4 bytes.now) (ipv4_outcome bytes.now)) status
        (W.contents writer.old) (W.contents writer.new)) }
{
    match Ipv4HeaderSlice::from_slice(bytes) {
        Ok(view) => {
            let rest_len = bytes.len() - view.slice().len();
            write_ipv4(writer, &view, rest_len)?;
            Ok(Status::Done)
        }
        Err(e) => {
            write_error(writer, e)?;
            Ok(Status::Refused)
        }
    }
}

#[cfg(test)]
mod tests;
