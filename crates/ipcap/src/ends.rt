//! The line on how a listing ends before the capture does.

ghost use Rattle.std.specs.Prelude.{Some};
ghost use Rattle.std.specs.Fmt.{DisplaysOnOk};
ghost use Rattle.ipcap.specs.Ends.{block_error_text, cut_off_line, end_text};
ghost use Rattle.ipcap.specs.Ends.{refused_line, too_long_line, word_text};

use crate::place::End;
use packet_capture::capture::CutOff;
use packet_capture::pcapng::blocks::BlockError;
use std::fmt;
use std::fmt::Formatter;

/// Writes how a listing ends, if it ends before the capture does; `place` is how many bytes of
/// blocks stand before the one that ends it.
pub fn write_end<W: fmt::Write>(f: &mut Formatter<W>, place: u64, end: Option<End>) -> fmt::Result
    ensures text { DisplaysOnOk W.write_str_gives f.old result (Some (end_text place end)) f.new }
{
    match end {
        Some(End::CutOff(e)) => write_cut_off(f, e),
        Some(End::Refused(e)) => write_refused(f, place, e),
        Some(End::TooLong(len)) => write_too_long(f, place, len),
        None => Ok(()),
    }
}

// Writes the line on a last block that is cut off.
#[tactic(auto, unfolding(crate::specs::Ends::cut_off_line))]
fn write_cut_off<W: fmt::Write>(f: &mut Formatter<W>, e: CutOff) -> fmt::Result
    ensures text { DisplaysOnOk W.write_str_gives f.old result (Some (cut_off_line e)) f.new }
{
    let CutOff { required_len, len } = e;
    write!(
        f,
        "error: the last record is cut off: it needs {required_len} bytes, and there are {len}\n"
    )
}

// Writes the line on a block that is refused.
#[tactic(auto, unfolding(crate::specs::Ends::refused_line))]
fn write_refused<W: fmt::Write>(f: &mut Formatter<W>, place: u64, e: BlockError) -> fmt::Result
    ensures text { DisplaysOnOk W.write_str_gives f.old result (Some (refused_line place e)) f.new }
{
    let reason = Reason(e);
    write!(f, "error: the block at byte {place} is refused: {reason}\n")
}

// Writes the line on a block that is too long.
#[tactic(auto, unfolding(crate::specs::Ends::too_long_line))]
fn write_too_long<W: fmt::Write>(f: &mut Formatter<W>, place: u64, len: usize) -> fmt::Result
    ensures text { DisplaysOnOk W.write_str_gives f.old result
        (Some (too_long_line place len)) f.new }
{
    write!(
        f,
        "error: the block at byte {place} is refused: it is too long ({len} bytes)\n"
    )
}

// Why a block of pcapng is refused.
#[derive(Clone, Copy)]
struct Reason(BlockError);

impl fmt::Display for Reason {
    ghost output = { λ reason. Some (block_error_text reason.0) };

    #[tactic(auto, unfolding(crate::specs::Ends::block_error_text))]
    fn fmt<W: fmt::Write>(&self, f: &mut Formatter<W>) -> fmt::Result {
        let reason = self.0;
        match reason {
            BlockError::CutOff(e) => {
                let (required_len, len) = (e.required_len, e.len);
                write!(f, "it needs {required_len} bytes, and there are {len}")
            }
            BlockError::Magic(magic) => {
                let magic = Word(magic);
                write!(f, "it begins with 0x{magic}, and no section")
            }
            BlockError::ByteOrderMagic(magic) => {
                let magic = Word(magic);
                write!(f, "the byte-order magic is 0x{magic}")
            }
            BlockError::BlockLength { total_len, .. } => {
                write!(f, "its length is {total_len} bytes")
            }
            BlockError::Lengths { front, back } => {
                write!(f, "its length is {front} bytes, and {back} at its end")
            }
            BlockError::Version { major, minor } => write!(f, "the version is {major}.{minor}"),
            BlockError::TooManyInterfaces => {
                f.write_str("the section has 256 interfaces already")
            }
            BlockError::OptionLength { code, len, place } => {
                write!(f, "its option {code} at byte {place} has {len} bytes")
            }
            BlockError::Resolution(value) => {
                write!(f, "its unit of time is too small (if_tsresol {value})")
            }
            BlockError::Interface { id, count } => {
                write!(f, "its packet is of interface {id}, and there are {count}")
            }
            BlockError::CapturedLength { captured_len, room } => write!(
                f,
                "it has room for {room} bytes of its packet, and not for {captured_len}"
            ),
        }
    }
}

// A number in eight hex digits.
#[derive(Clone, Copy)]
struct Word(u32);

impl fmt::Display for Word {
    ghost output = { λ word. Some (word_text word.0) };

    #[tactic(auto, using(crate::proofs::Written::padded_with_zeros))]
    fn fmt<W: fmt::Write>(&self, f: &mut Formatter<W>) -> fmt::Result {
        let number = self.0;
        write!(f, "{number:08x}")
    }
}
