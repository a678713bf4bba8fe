//! Filters from text, for C.

ghost use Rattle.c_answers.specs.FilterReading.{PutsFilter};

use crate::filter_refusal::FilterRefusal;
use packet_filter::Filter;

/// Puts the filter that a text is in the place of another; or the other stays, and the refusal says
/// why.
pub fn read(text: &[u8], filter: &mut Filter, refusal: &mut FilterRefusal) -> bool
    ensures puts { PutsFilter text.now filter.old filter.new refusal.new result }
{
    match Filter::from_text(text) {
        Ok(found) => {
            *filter = found;
            *refusal = FilterRefusal::none();
            true
        }
        Err(error) => {
            *refusal = FilterRefusal::of_error(text.len(), &error);
            false
        }
    }
}
