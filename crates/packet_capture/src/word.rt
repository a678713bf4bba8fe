//! A number of four bytes in the text of an error.

ghost use Rattle.std.specs.Prelude.{Some};
ghost use Rattle.packet_capture.specs.ErrorText.{word_text};

use std::fmt;

// A number in eight hex digits.
#[derive(Clone, Copy)]
pub(crate) struct Word(pub(crate) u32);

impl fmt::Display for Word {
    ghost output = { λ word. Some (word_text word.0) };

    #[tactic(auto, using(crate::proofs::Written::padded_with_zeros))]
    fn fmt<W: fmt::Write>(&self, f: &mut fmt::Formatter<W>) -> fmt::Result {
        let number = self.0;
        write!(f, "{number:08x}")
    }
}
