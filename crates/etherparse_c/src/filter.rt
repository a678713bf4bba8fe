//! A filter in memory of the caller: compiled from text, and asked for frames.

ghost use Rattle.std.specs.Prelude.{List};
ghost use Rattle.std.specs.Borrow.{full_share, sem};
ghost use Rattle.std.specs.Ptr.{lies_at, room_at};
ghost use Rattle.packet_filter.specs.Program.{expression_of};
ghost use Rattle.packet_filter.specs.contracts.filter.Filter.{the_row as filter_row};
ghost use Rattle.packet_filter.specs.declared.filter.Step.{Step};
ghost use Rattle.c_answers.specs.FilterMatching.{AnswersEach, AnswersNumber};
ghost use Rattle.c_answers.specs.FilterReading.{GivesFilter};

use c_answers::filter_frames::{choose_each, chooses};
use c_answers::filter_reading::read;
use c_answers::filter_refusal::FilterRefusal;
use c_answers::frame::Frame;
use packet_filter::Filter;

/// Compiles an expression, in the words of pcap-filter(7), to a filter in this memory. If the text is
/// none, it returns `false`: the memory then has a filter that chooses no packet, and the refusal
/// says why.
///
/// There is room for a filter at the pointer, whatever it holds, and it is aligned.
#[unsafe(no_mangle)]
pub unsafe extern "C" fn etherparse_filter_from_text(
    text: &[u8],
    filter: *mut u8,
    refusal: &mut FilterRefusal,
) -> bool
    requires* room { sem 𝓛 (room_at filter_row filter) }
    ensures* gives { ∃ₛ (λ (f : List Step). sem 𝓛 (lies_at filter_row full_share filter f)
        ∗ ⌜ GivesFilter text.now f refusal.new result ⌝) }
{
    let filter = filter as *mut Filter;
    *filter = Filter::nothing();
    read(text, &mut *filter, refusal)
}

/// Whether a filter chooses a frame. The link type is a number of the registry of tcpdump.org, and
/// `original_len` the length of the frame on the wire, in bytes; a capture can have fewer.
///
/// A frame of a link type that is not read is not chosen, whatever the expression says.
#[unsafe(no_mangle)]
pub unsafe extern "C" fn etherparse_filter_matches(
    filter: *mut u8,
    link_type: u32,
    frame: &[u8],
    original_len: usize,
) -> bool
    ghost f: { List Step }
    requires* there { sem 𝓛 (lies_at filter_row full_share filter f) }
    ensures* there { sem 𝓛 (lies_at filter_row full_share filter f) }
    ensures answers { AnswersNumber (expression_of f) link_type frame.now original_len result }
{
    chooses(&*(filter as *const Filter), link_type, frame, original_len)
}

/// Whether a filter chooses each frame of a list, as `etherparse_filter_matches` has it, at the same
/// place in a list of answers. It returns how many answers there are, which is the length of the
/// shorter list; answers after them stay as they are.
#[unsafe(no_mangle)]
pub unsafe extern "C" fn etherparse_filter_matches_batch(
    filter: *mut u8,
    link_type: u32,
    frames: &[Frame],
    answers: &mut [bool],
) -> usize
    ghost f: { List Step }
    requires* there { sem 𝓛 (lies_at filter_row full_share filter f) }
    ensures* there { sem 𝓛 (lies_at filter_row full_share filter f) }
    ensures answers { AnswersEach (expression_of f) link_type frames.now answers.old answers.new
        result }
{
    choose_each(&*(filter as *const Filter), link_type, frames, answers)
}
