ghost use Rattle.std.specs.Prelude.{◌≡◌, ◌==◌, ◌↔◌, length};
ghost use Rattle.std.specs.Prelude.{IsTrue, IsNone, IsSome, IfSome, MatchOption};
ghost use Rattle.std.specs.List.{position_or_len, before_first, after_first};

mod errors;
mod headers;
mod sums;

use crate::shown::{Answer, Shown};
use hex::{FromHex, FromHexError};
use std::alloc::Global;
use std::fmt::Display;
use std::str::FromStr;

/// What a case has as one word or several.
pub trait Argument: Sized {
    /// Reads its words.
    fn read(case: &mut Case) -> Self;
}

/// A case: its words that are yet to be read, with single spaces between them, and its answer.
///
/// A word that is missing, or is not what was asked for, makes the case a bad one and reads as some
/// value. [`Case::were_all_good`] says whether the case was good once all its words are read.
#[derive(Drop)]
pub struct Case<'a> {
    /// The allocator for what is read.
    pub alloc: Global,
    /// The text from the next word on; none if no word is left.
    pub rest: Option<&'a str>,
    /// Whether a word was missing or was not what was asked for.
    pub is_bad: bool,
    /// What is written so far. If there was no memory for the bytes of a word, it says so.
    pub answer: Answer,
}

impl<'a> Case<'a> {
    /// All the words of a line, with no answer yet.
    pub fn new(alloc: Global, line: &'a str) -> Case<'a> {
        Case {
            alloc,
            rest: Some(line),
            is_bad: false,
            answer: Answer::new(alloc),
        }
    }

    // The next word, which may be empty; none if no word is left.
    fn next_word(&mut self) -> Option<&'a str>
        ensures left { IsSome result ↔ IsSome self.old.rest }
        ensures first { IfSome result (λ word. IfSome self.old.rest (λ text.
            word.now ≡ before_first (λ b. b == 32) text.now)) }
        ensures others { IfSome self.old.rest (λ text. MatchOption self.new.rest
            (position_or_len (λ b. b == 32) text.now ≡ length text.now)
            (λ others. others.now ≡ after_first (λ b. b == 32) text.now)) }
    {
        let rest = self.rest?;
        match rest.split_once(' ') {
            Some((word, others)) => {
                self.rest = Some(others);
                Some(word)
            }
            None => {
                self.rest = None;
                Some(rest)
            }
        }
    }

    /// Makes the case a bad one.
    pub fn refuse(&mut self)
        ensures bad { IsTrue self.new.is_bad }
        ensures same_words { self.new.rest ≡ self.old.rest }
    {
        self.is_bad = true;
    }

    /// Whether no word is left, and each was what was asked for.
    pub fn were_all_good(&self) -> bool
        ensures { IsTrue result ↔ ¬ IsTrue self.now.is_bad × IsNone self.now.rest }
    {
        !self.is_bad && self.rest.is_none()
    }

    /// The next word; an empty one if no word is left.
    pub fn word(&mut self) -> &'a str {
        match self.next_word() {
            Some(word) => word,
            None => {
                self.refuse();
                ""
            }
        }
    }

    /// What has words of its own.
    pub fn read<T: Argument>(&mut self) -> T {
        T::read(self)
    }

    /// What was made from words. If it was refused, so is the case, and the default is used.
    pub fn accepted<T: Default, E: Drop>(&mut self, made: Result<T, E>) -> T {
        match made {
            Ok(value) => value,
            Err(_) => {
                self.refuse();
                T::default()
            }
        }
    }

    /// A number of any width, in decimal digits without a sign or leading zeros.
    pub fn number<T: FromStr + Default>(&mut self) -> T
    where
        T::Err: Drop,
    {
        let word = self.word();
        if word.starts_with('+') || word.starts_with('0') && word != "0" {
            self.refuse();
        }
        self.accepted(word.parse::<T>())
    }

    /// A field in range, by its number.
    pub fn field<N: FromStr + Default, T: TryFrom<N> + Default>(&mut self) -> T
    where
        N::Err: Drop,
        T::Error: Drop,
    {
        let made = T::try_from(self.number());
        self.accepted(made)
    }

    /// A flag: `0` or `1`.
    pub fn flag(&mut self) -> bool {
        let word = self.word();
        if word != "0" && word != "1" {
            self.refuse();
        }
        word == "1"
    }

    /// Any number of bytes, in lower-case hex digits; `-` for none.
    pub fn bytes(&mut self) -> Vec<u8> {
        let word = self.word();
        self.decoded(word)
    }

    /// Exactly `N` bytes, as [`Case::bytes`] has them.
    pub fn array<const N: usize>(&mut self) -> [u8; N] {
        let word = self.word();
        self.decoded_array(word)
    }

    // The bytes of a word.
    fn decoded(&mut self, word: &str) -> Vec<u8> {
        match hex::decode(self.alloc, self.digits(word)) {
            Ok(bytes) => bytes,
            Err(e) => {
                self.refuse();
                self.answer.is_out_of_memory |= e == FromHexError::OutOfMemory;
                Vec::new(self.alloc)
            }
        }
    }

    // The `N` bytes of a word.
    fn decoded_array<const N: usize>(&mut self, word: &str) -> [u8; N] {
        match <[u8; N] as FromHex>::from_hex(self.digits(word)) {
            Ok(bytes) => bytes,
            Err(_) => {
                self.refuse();
                [0; N]
            }
        }
    }

    // The digits of a word: `-` has none.
    fn digits<'b>(&mut self, word: &'b str) -> &'b str {
        if word == "-" {
            return "";
        }
        if word.is_empty() {
            self.refuse();
        }
        for byte in word.as_bytes() {
            if byte.is_ascii_uppercase() {
                self.refuse();
            }
        }
        word
    }

    // What a table has under the next word; `other` if it has nothing.
    fn named<T: Copy>(&mut self, table: &[(&str, T)], other: T) -> T {
        let name = self.word();
        for (known, value) in table {
            if *known == name {
                return *value;
            }
        }
        self.refuse();
        other
    }
}

/// Answers with a value.
pub fn write_text<T: Display + Drop>(value: T, case: &mut Case) {
    case.answer.put("", value);
}

/// Answers with a value as answers have it.
pub fn write_shown<T: Shown + Drop>(value: T, case: &mut Case) {
    value.show(&mut case.answer);
}

/// Answers with what a setter returned, and the header afterwards.
pub fn write_change<E: Shown, H: Shown>(change: &Result<(), E>, header: &H, case: &mut Case) {
    match change {
        Ok(()) => case.answer.words("ok"),
        Err(e) => e.show(&mut case.answer),
    }
    case.answer.shown(" ; ", header);
}

/// Answers whether two values are equal.
pub fn write_equality(is_equal: bool, case: &mut Case) {
    case.answer.put("eq=", is_equal);
}
