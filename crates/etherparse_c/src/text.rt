//! The texts of errors.

ghost use Rattle.std.specs.Prelude.{ℕ, ◌≡◌, ◌≢◌, []};
ghost use Rattle.c_answers.specs.DefragText.{error_text};
ghost use Rattle.c_answers.specs.ErrorText.{GivesErrorText};
ghost use Rattle.c_answers.specs.FilterRefusal.{refusal_in_c};
ghost use Rattle.c_answers.specs.RewritingText.{kind_text};
ghost use Rattle.c_answers.specs.Text.{GivesText};
ghost use Rattle.packet_filter.specs.Language.{filter_error_text};
ghost use Rattle.packet_filter.specs.declared.reading.FilterError.{FilterError};

use c_answers::defrag_error::DefragError;
use c_answers::defrag_text::put_defrag_error;
use c_answers::error::Error;
use c_answers::error_text::put_error;
use c_answers::filter_refusal::{FilterRefusal, put_refusal};
use c_answers::rewriting_text::put_rewriting_error;

/// Writes the text of the error with these numbers to the front of a buffer, as much of it as there
/// is room for, and a byte 0 after it; returns how many bytes the whole text has, without that 0.
///
/// A kind, a layer, a source or a value that no error has, and a length that is not too small, have
/// the empty text.
#[unsafe(no_mangle)]
pub extern "C" fn etherparse_error_text(error: &Error, text: &mut [u8]) -> usize
    ensures gives { GivesErrorText error.now text.old text.new result }
{
    put_error(error, text)
}

/// The same of the refusal of an expression. Numbers that no refusal has, and those of none, have the
/// empty text.
#[unsafe(no_mangle)]
pub extern "C" fn etherparse_filter_error_text(refusal: &FilterRefusal, text: &mut [u8]) -> usize
    ensures gives { (end : ℕ) → (e : FilterError) → refusal.now ≡ refusal_in_c end e →
        GivesText (filter_error_text e) text.old text.new result }
    ensures none { ((end : ℕ) → (e : FilterError) → refusal.now ≢ refusal_in_c end e) →
        GivesText [] text.old text.new result }
{
    put_refusal(refusal, text)
}

/// The same of an error of reassembly. A kind that no error has has the empty text.
#[unsafe(no_mangle)]
pub extern "C" fn etherparse_defrag_error_text(error: &DefragError, text: &mut [u8]) -> usize
    ensures gives { GivesText (error_text error.now) text.old text.new result }
{
    put_defrag_error(error, text)
}

/// The same of the number of an error of rewriting. A number that no error has has the empty text.
#[unsafe(no_mangle)]
pub extern "C" fn etherparse_rewriting_error_text(error: u32, text: &mut [u8]) -> usize
    ensures gives { GivesText (kind_text error) text.old text.new result }
{
    put_rewriting_error(error, text)
}
