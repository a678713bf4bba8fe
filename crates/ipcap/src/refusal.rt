//! The lines on arguments that are refused.

ghost use Rattle.std.specs.Prelude.{◌≡◌, Some, map, replicate};
ghost use Rattle.std.specs.Fmt.{DisplaysOnOk};
ghost use Rattle.ipcap.specs.Refusal.{refusal_lines, shown_byte};

use crate::arguments::Text;
use crate::request::is_space;
use crate::streams::FitsLine;
use packet_filter::FilterError;
use std::fmt;
use std::fmt::Formatter;

/// The lines on a text that is no expression: why, the text, and a mark under the place.
#[derive(Clone, Copy)]
pub struct RefusalLines<'a> {
    /// The text.
    pub text: &'a Text,
    /// Why it is none.
    pub error: FilterError,
}

impl FitsLine for RefusalLines<'_> {}

impl fmt::Display for RefusalLines<'_> {
    ghost output = { λ lines. Some (refusal_lines lines.text.now.items lines.error) };

    #[tactic(auto, unfolding(crate::specs::Refusal::refusal_lines))]
    fn fmt<W: fmt::Write>(&self, f: &mut Formatter<W>) -> fmt::Result {
        let (error, text) = (self.error, Shown(self.text.as_slice()));
        let len = self.text.len();
        let place = Blanks(self.error.place().unwrap_or(len).min(len));
        write!(f, "{error}\n{text}\n{place}^\n")
    }
}

// The text of an expression in one line, a character for each byte.
#[derive(Clone, Copy)]
struct Shown<'a>(&'a [u8]);

impl fmt::Display for Shown<'_> {
    ghost output = { λ text. Some (map shown_byte text.0.now) };

    fn fmt<W: fmt::Write>(&self, f: &mut Formatter<W>) -> fmt::Result {
        for byte in self.0 {
            f.write_char(char::from(shown_byte(*byte)))?;
        }
        Ok(())
    }
}

// A byte of an expression as it is shown.
fn shown_byte(byte: u8) -> u8
    ensures value { result ≡ shown_byte byte }
{
    if is_space(byte) {
        b' '
    } else if byte > b' ' && byte < 0x7f {
        byte
    } else {
        b'?'
    }
}

// So many blanks.
#[derive(Clone, Copy)]
struct Blanks(usize);

impl fmt::Display for Blanks {
    ghost output = { λ blanks. Some (replicate blanks.0 32) };

    fn fmt<W: fmt::Write>(&self, f: &mut Formatter<W>) -> fmt::Result {
        for _i in 0..self.0 {
            f.write_str(" ")?;
        }
        Ok(())
    }
}
