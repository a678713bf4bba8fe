//! Texts in a buffer of the caller.

ghost use Rattle.std.specs.Prelude.{◌≡◌, ◌≤◌, ◌+◌, ◌++◌, length};
ghost use Rattle.std.specs.Fmt.{decimal};
ghost use Rattle.std.specs.List.{flat_map};
ghost use Rattle.c_answers.specs.Text.{GivesText};

use itoa::Buffer;

/// A number's decimal digits. The function is called and never inlined, so that the code that makes
/// digits stands once in a library.
#[inline(never)]
pub fn digits(number: usize, buffer: &mut Buffer) -> &str
    ensures text { result.now ≡ decimal number }
    ensures short { length result.now ≤ 40 }
{
    buffer.format(number)
}

/// Writes these pieces to the front of a buffer, one after the other, as much of them as there is
/// room for, and a byte 0 after them; returns how many bytes they have, without that 0.
#[inline(never)]
pub fn put(pieces: &[&str], text: &mut [u8]) -> usize
    requires short { length (flat_map (λ piece. piece.now) pieces.now) ≤ 1024 }
    ensures gives { GivesText (flat_map (λ piece. piece.now) pieces.now) text.old text.new result }
{
    let room = text.len().saturating_sub(1);
    let mut len: usize = 0;
    for piece in pieces {
        let start = len.min(room);
        len += piece.len();
        let end = len.min(room);
        copy(&piece.as_bytes()[..end - start], &mut text[start..end]);
    }
    if !text.is_empty() {
        text[len.min(room)] = 0;
    }
    len
}

/// Writes a number between two texts, as [`put`] does.
#[inline(never)]
pub fn put_number(before: &str, number: usize, after: &str, text: &mut [u8]) -> usize
    requires short { length before.now + length after.now ≤ 512 }
    ensures gives { GivesText (before.now ++ decimal number ++ after.now)
        text.old text.new result }
{
    put(&[before, digits(number, &mut Buffer::new()), after], text)
}

// Copies bytes over as many others. `copy_from_slice` would call `memmove` of the C library.
fn copy(from: &[u8], to: &mut [u8])
    requires as_many { length to.old ≡ length from.now }
    ensures copied { to.new ≡ from.now }
{
    for i in 0..from.len() {
        to[i] = from[i];
    }
}
