ghost use Rattle.std.specs.Prelude.{◌≡◌, ◌+◌, ◌≤◌, ◌<◌, ◌⊎◌, ◌↔◌, ◌++◌, [], ◌∷◌, List, length};
ghost use Rattle.std.specs.Prelude.{Some, IsTrue, MatchOption, IfOk, IfSome};
ghost use Rattle.std.specs.Bool.{OnTrue, OnFalse};
ghost use Rattle.arrayvec.specs.ArrayVec.{array_vec_len};
ghost use Rattle.iphead.specs.Input.{digits_of, is_blank, IsTooLong};
ghost use Rattle.iphead.specs.declared.input.TheConstants.{MAX_DIGITS, MAX_LEN};

use arrayvec::ArrayVec;
use std::io;
use std::io::Read;

// The greatest number of bytes that are read, of any kind.
const MAX_LEN: usize = 65536;

/// The greatest number of digits that are accepted: those of 2048 bytes.
pub const MAX_DIGITS: usize = 4096;

const _: () = prove!(MAX_LEN == 65536 && MAX_DIGITS == 4096);

// How many bytes are read at a time.
const PIECE_LEN: usize = 512;

// The digits so far, and the number of bytes among which they stood.
#[derive(Drop)]
struct Input {
    digits: ArrayVec<u8, MAX_DIGITS>,
    len: usize,
    ghost few: { length digits.items ≤ MAX_DIGITS },
    ghost short: { len ≤ MAX_LEN },
}

impl Input {
    // Takes the next piece of the input, unless that makes it too long.
    fn take(&mut self, piece: &[u8]) -> bool
        ensures digits { OnTrue result
            (self.new.digits.items ≡ self.old.digits.items ++ digits_of piece.now) }
        ensures len { OnTrue result (self.new.len ≡ self.old.len + length piece.now) }
        ensures too_long { OnFalse result
            ((MAX_DIGITS < length (self.old.digits.items ++ digits_of piece.now))
            ⊎ (MAX_LEN < self.old.len + length piece.now)) }
    {
        if MAX_LEN - self.len < piece.len() {
            return false;
        }
        self.len += piece.len();
        push_digits(&mut self.digits, piece)
    }
}

// Adds the digits of a piece, unless they are too many.
fn push_digits(digits: &mut ArrayVec<u8, MAX_DIGITS>, piece: &[u8]) -> bool
    ensures ok { OnTrue result (digits.new.items ≡ digits.old.items ++ digits_of piece.now) }
    ensures too_many { OnFalse result
        (MAX_DIGITS < length (digits.old.items ++ digits_of piece.now)) }
    ensures few { length digits.old.items ≤ MAX_DIGITS → length digits.new.items ≤ MAX_DIGITS }
{
    for byte in piece {
        if !push_digit(digits, *byte) {
            return false;
        }
    }
    true
}

// Adds a byte that is not a blank, unless there are too many.
fn push_digit(digits: &mut ArrayVec<u8, MAX_DIGITS>, byte: u8) -> bool
    ensures ok { OnTrue result (digits.new.items ≡ digits.old.items ++ digits_of (byte ∷ [])) }
    ensures too_many { OnFalse result
        (MAX_DIGITS < length (digits.old.items ++ digits_of (byte ∷ []))) }
    ensures few { length digits.old.items ≤ MAX_DIGITS → length digits.new.items ≤ MAX_DIGITS }
{
    matches!(byte, b' ' | b'\t' | b'\r' | b'\n') || digits.try_push(byte).is_ok()
}

/// The digits of all that a reader holds, or `None` if there are more than 4096 digits or more than
/// 65536 bytes: it then reads no further.
pub fn read_digits<R: Read>(reader: &mut R) -> io::Result<Option<ArrayVec<u8, MAX_DIGITS>>>
    ensures { IfOk result (λ digits. IfSome (R.remaining reader.old) (λ input.
        MatchOption digits (IsTooLong input)
        (λ d. (¬ IsTooLong input) × (d.items ≡ digits_of input)))) }
{
    let mut input = Input {
        digits: ArrayVec::new(),
        len: 0,
    };
    let mut piece = [0; PIECE_LEN];
    loop {
        let n = reader.read(&mut piece)?;
        if n == 0 {
            return Ok(Some(input.digits));
        }
        if !input.take(&piece[..n]) {
            return Ok(None);
        }
    }
}
