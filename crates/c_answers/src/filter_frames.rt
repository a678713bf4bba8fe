//! Frames chosen by a filter.

ghost use Rattle.std.specs.Prelude.{◌≡◌, false};
ghost use Rattle.c_answers.specs.Batch.{AreAnswers};
ghost use Rattle.packet_filter.specs.Frame.{Answers};
ghost use Rattle.packet_filter.specs.Program.{expression_of};
ghost use Rattle.c_answers.specs.FilterMatching.{AnswersEach, AnswersNumber};

use crate::frame::Frame;
use packet::link::LinkType;
use packet_filter::Filter;

/// Whether a filter chooses a frame of the link type with this number: it is a list of one. So the
/// code that takes a frame apart stands in the loop over a list, and nowhere else.
#[inline(always)]
pub fn chooses(filter: &Filter, link_type: u32, frame: &[u8], original_len: usize) -> bool
    ensures answers { AnswersNumber (expression_of filter.now) link_type frame.now original_len
        result }
{
    let frames = [Frame {
        bytes: frame,
        original_len,
    }];
    let mut answers = [false];
    choose_each(filter, link_type, &frames, &mut answers);
    answers[0]
}

/// The same of each frame of a list, at its place in a list of answers. It returns how many there
/// are, which is the length of the shorter list; answers after them stay as they are.
#[inline(never)]
pub fn choose_each(filter: &Filter, link_type: u32, frames: &[Frame], answers: &mut [bool]) -> usize
    ensures answers { AnswersEach (expression_of filter.now) link_type frames.now
        answers.old answers.new result }
{
    match LinkType::from_number(link_type) {
        Some(link_type) => choose_each_of(filter, link_type, frames, answers),
        None => choose_none(frames, answers),
    }
}

// The same of frames of a link type that is read.
#[inline(always)]
fn choose_each_of(
    filter: &Filter,
    link_type: LinkType,
    frames: &[Frame],
    answers: &mut [bool],
) -> usize
    ensures answers { AreAnswers (λ frame answer. Answers (expression_of filter.now) link_type
        frame.bytes.now frame.original_len answer) frames.now answers.old answers.new result }
{
    let count = frames.len().min(answers.len());
    for i in 0..count {
        let frame = &frames[i];
        answers[i] = filter.matches_frame(link_type, frame.bytes, frame.original_len);
    }
    count
}

// None of the frames of another.
fn choose_none(frames: &[Frame], answers: &mut [bool]) -> usize
    ensures answers { AreAnswers (λ frame answer. answer ≡ false)
        frames.now answers.old answers.new result }
{
    let count = frames.len().min(answers.len());
    for i in 0..count {
        answers[i] = false;
    }
    count
}
