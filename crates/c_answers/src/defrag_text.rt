//! The text of an error of reassembly.

ghost use Rattle.std.specs.Prelude.{◌≤◌, ◌+◌, ◌*◌, ◌++◌, length};
ghost use Rattle.std.specs.Fmt.{decimal};
ghost use Rattle.c_answers.specs.Text.{GivesText};
ghost use Rattle.c_answers.specs.DefragText.{error_text};

use crate::defrag_error::{
    DefragError, EMPTY, HEADER_CHAIN, HEADERS_TOO_LONG, OFFSET, PACKET, PACKET_TOO_LONG, TOO_BIG,
    UNALIGNED_LEN,
};
use crate::text::{digits, put, put_number};
use itoa::Buffer;

/// Writes the text of the error with these numbers to the front of a buffer, as much of it as there
/// is room for, and a byte 0 after it; returns how many bytes the whole text has, without that 0.
///
/// A kind that no error has has the empty text.
pub fn put_defrag_error(error: &DefragError, text: &mut [u8]) -> usize
    ensures gives { GivesText (error_text error.now) text.old text.new result }
{
    let offset = usize::from(error.offset);
    match error.kind {
        EMPTY => put_number(
            "IP Fragment Error: The fragment at byte ",
            8 * offset,
            " has no bytes.",
            text,
        ),
        UNALIGNED_LEN => put_numbers(
            "IP Fragment Error: More fragments follow the one at byte ",
            error,
            ", and its ",
            " bytes are no multiple of 8.",
            text,
        ),
        TOO_BIG => put_numbers(
            "IP Fragment Error: The fragment at byte ",
            error,
            " has ",
            " bytes and ends past byte 65535.",
            text,
        ),
        PACKET => put(
            &["IP Packet Error: The bytes are no whole IP packet."],
            text,
        ),
        HEADER_CHAIN => put(
            &["IPv6 Fragment Error: The first fragment lacks a part of the header chain."],
            text,
        ),
        HEADERS_TOO_LONG => put_number(
            "IP Fragment Error: The headers of the first fragment have ",
            error.len,
            " bytes, and there is room for 1280.",
            text,
        ),
        OFFSET => put_number(
            "IP Fragment Error: The offset ",
            offset,
            " is greater than 8191.",
            text,
        ),
        PACKET_TOO_LONG => put(
            &["IP Packet Error: The packet is longer than its length field can say."],
            text,
        ),
        _ => put(&[], text),
    }
}

// Writes the place and the length of a fragment between three texts.
fn put_numbers(
    before: &'static str,
    error: &DefragError,
    between: &'static str,
    after: &'static str,
    text: &mut [u8],
) -> usize
    requires short { length before.now + length between.now + length after.now ≤ 512 }
    ensures gives { GivesText (before.now ++ (decimal (8 * error.now.offset) ++ (between.now
        ++ (decimal error.now.len ++ after.now)))) text.old text.new result }
{
    let (mut place, mut len) = (Buffer::new(), Buffer::new());
    put(
        &[
            before,
            digits(8 * usize::from(error.offset), &mut place),
            between,
            digits(error.len, &mut len),
            after,
        ],
        text,
    )
}
