//! How the result of a call is written in an answer.

ghost use Rattle.std.specs.Prelude.{◌≡◌};

use etherparse::IpNumber;
use etherparse::err::{LenError, ValueTooBigError, ipv4, ipv6};
use std::alloc::Global;
use std::cmp::Ordering;
use std::fmt::{Debug, Display};
use std::hash::Hash;

/// The answer to a case, as far as it is written.
///
/// What is written once there is no memory is lost, and [`Answer::is_out_of_memory`] says so.
#[derive(Drop)]
pub struct Answer {
    /// What is written.
    pub text: String,
    /// Whether there was no memory for what a case has or gives.
    pub is_out_of_memory: bool,
}

impl Answer {
    /// An answer that is yet to be written.
    pub fn new(alloc: Global) -> Answer {
        Answer {
            text: String::new(alloc),
            is_out_of_memory: false,
        }
    }

    /// Keeps in mind whether there was memory for something.
    pub fn note<E>(&mut self, done: &Result<(), E>) {
        self.is_out_of_memory |= done.is_err();
    }

    /// Writes words.
    pub fn words(&mut self, words: &str) {
        let written = self.text.push_str(words);
        self.note(&written);
    }

    /// Writes a value after some words.
    pub fn put<T: Display + Drop>(&mut self, words: &str, value: T) {
        let written = write!(self.text, "{words}{value}");
        self.note(&written);
    }

    /// Writes the `Debug` of a value after some words.
    pub fn debug<T: Debug>(&mut self, words: &str, value: &T) {
        let written = write!(self.text, "{words}{value:?}");
        self.note(&written);
    }

    /// Writes bytes after some words: in lower-case hex digits, `-` for none.
    pub fn bytes(&mut self, words: &str, bytes: &[u8]) {
        self.words(words);
        if bytes.is_empty() {
            self.words("-");
        }
        for byte in bytes {
            let written = write!(self.text, "{byte:02x}");
            self.note(&written);
        }
    }

    /// Writes after some words what the Rust crate has no text for.
    pub fn shown<T: Shown>(&mut self, words: &str, value: &T) {
        self.words(words);
        value.show(self);
    }

    /// Writes a value that others follow.
    pub fn one<T: Shown>(&mut self, value: &T) {
        value.show(self);
        self.words(" ; ");
    }

    /// Writes numbers after their names, with a space between them.
    pub fn named(&mut self, numbers: &[(&str, u8)]) {
        let mut gap = "";
        for (name, number) in numbers {
            self.words(gap);
            self.words(name);
            self.put("=", *number);
            gap = " ";
        }
    }

    /// Writes what follows a header, and the bytes of the header again.
    pub fn rest_and_bytes(&mut self, rest: &[u8], bytes: &[u8]) {
        self.bytes(" rest=", rest);
        self.bytes(" bytes=", bytes);
    }
}

/// What the Rust crate has no text for, or another one than answers have.
pub trait Shown {
    /// Writes it as an answer has it.
    fn show(&self, answer: &mut Answer);
}

/// An error whose `Debug` is what answers have.
pub trait PlainError: Debug {}

impl<E: PlainError> Shown for E {
    fn show(&self, answer: &mut Answer) {
        answer.debug("err ", self);
    }
}

impl<T: Shown, E: Shown> Shown for Result<T, E> {
    fn show(&self, answer: &mut Answer) {
        match self {
            Ok(value) => answer.shown("ok ", value),
            Err(e) => e.show(answer),
        }
    }
}

/// A header at the front of some bytes, and the bytes after it.
pub type Found<'a, H> = (H, &'a [u8]);

/// A header that was made with no bytes after it.
pub fn made<'a, H, E>(made: Result<H, E>) -> Result<Found<'a, H>, E> {
    match made {
        Ok(header) => Ok((header, &[])),
        Err(e) => Err(e),
    }
}

/// How two values compare, and whether they are equal.
#[derive(Drop)]
pub struct Comparison {
    /// The first against the second.
    pub order: Ordering,
    /// What `==` says.
    pub is_equal: bool,
}

impl Comparison {
    /// The first value against the second.
    pub fn of<T: Ord>(first: &T, second: &T) -> Comparison
        ensures order { result.order ≡ T.cmp first.now second.now }
        ensures is_equal { result.is_equal ≡ T.eq first.now second.now }
    {
        Comparison {
            order: first.cmp(second),
            is_equal: first == second,
        }
    }
}

impl Shown for Comparison {
    fn show(&self, answer: &mut Answer) {
        let order = match self.order {
            Ordering::Less => "lt",
            Ordering::Equal => "eq",
            Ordering::Greater => "gt",
        };
        answer.words(order);
        answer.put(" eq=", self.is_equal);
    }
}

impl Shown for u16 {
    fn show(&self, answer: &mut Answer) {
        answer.put("", *self);
    }
}

impl Shown for usize {
    fn show(&self, answer: &mut Answer) {
        answer.put("", *self);
    }
}

impl Shown for LenError {
    fn show(&self, answer: &mut Answer) {
        answer.put("err len required=", self.required_len);
        answer.put(" len=", self.len);
        answer.debug(" source=", &self.len_source);
        answer.debug(" layer=", &self.layer);
        answer.put(" offset=", self.layer_start_offset);
    }
}

impl<T: Clone + Display + Debug + Eq + Hash> Shown for ValueTooBigError<T> {
    fn show(&self, answer: &mut Answer) {
        answer.put("err too_big actual=", &self.actual);
        answer.put(" max=", &self.max_allowed);
        answer.debug(" type=", &self.value_type);
    }
}

impl Shown for ipv4::BadOptionsLen {
    fn show(&self, answer: &mut Answer) {
        answer.put("err bad_options bad_len=", self.bad_len);
    }
}

impl Shown for ipv4::HeaderSliceError {
    fn show(&self, answer: &mut Answer) {
        match self {
            ipv4::HeaderSliceError::Len(e) => e.show(answer),
            ipv4::HeaderSliceError::Content(
                ipv4::HeaderError::UnexpectedVersion { version_number },
            ) => answer.put("err version number=", *version_number),
            ipv4::HeaderSliceError::Content(
                ipv4::HeaderError::HeaderLengthSmallerThanHeader { ihl },
            ) => answer.put("err ihl ihl=", *ihl),
        }
    }
}

impl Shown for ipv6::HeaderSliceError {
    fn show(&self, answer: &mut Answer) {
        match self {
            ipv6::HeaderSliceError::Len(e) => e.show(answer),
            ipv6::HeaderSliceError::Content(
                ipv6::HeaderError::UnexpectedVersion { version_number },
            ) => answer.put("err version number=", *version_number),
        }
    }
}

impl Shown for ipv6::ChainError {
    fn show(&self, answer: &mut Answer) {
        match self {
            ipv6::ChainError::Len(e) => e.show(answer),
            ipv6::ChainError::TooMany {
                limit,
                next_header,
                layer_start_offset,
            } => {
                answer.put("err too_many limit=", *limit);
                answer.put(" next=", *next_header);
                answer.put(" offset=", *layer_start_offset);
            }
        }
    }
}

/// What a walk past extension headers reached.
impl Shown for (IpNumber, &[u8]) {
    fn show(&self, answer: &mut Answer) {
        answer.put("next=", self.0.0);
        answer.bytes(" rest=", self.1);
    }
}
