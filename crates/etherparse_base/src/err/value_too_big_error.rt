ghost use Rattle.std.specs.Prelude.{Some};
ghost use Rattle.std.specs.Fmt.{DisplaysOnOk};
ghost use Rattle.etherparse_base.specs.ValueTooBigError.{value_too_big_error_text};

use super::ValueType;
use std::error::Error;
use std::fmt;
use std::fmt::{Debug, Display};
use std::hash::Hash;

/// A value above the greatest that is allowed.
#[derive(Clone, Debug, PartialEq, Eq, Hash, Drop)]
pub struct ValueTooBigError<T: Sized + Clone + Display + Debug + Eq + PartialEq + Hash> {
    /// The value that was refused.
    pub actual: T,
    /// The greatest value that is allowed.
    pub max_allowed: T,
    /// What kind of value it is.
    pub value_type: ValueType,
}

/// Says which value was refused, what kind of value it is and how great it may be.
impl fmt::Display for ValueTooBigError<u8> {
    ghost output = { λ e. Some (value_too_big_error_text e) };

    fn fmt<W: fmt::Write>(&self, f: &mut fmt::Formatter<W>) -> fmt::Result {
        write_text(
            f,
            u64::from(self.actual),
            u64::from(self.max_allowed),
            self.value_type,
        )
    }
}

impl Error for ValueTooBigError<u8> {}

/// Says which value was refused, what kind of value it is and how great it may be.
impl fmt::Display for ValueTooBigError<u16> {
    ghost output = { λ e. Some (value_too_big_error_text e) };

    fn fmt<W: fmt::Write>(&self, f: &mut fmt::Formatter<W>) -> fmt::Result {
        write_text(
            f,
            u64::from(self.actual),
            u64::from(self.max_allowed),
            self.value_type,
        )
    }
}

impl Error for ValueTooBigError<u16> {}

/// Says which value was refused, what kind of value it is and how great it may be.
impl fmt::Display for ValueTooBigError<u32> {
    ghost output = { λ e. Some (value_too_big_error_text e) };

    fn fmt<W: fmt::Write>(&self, f: &mut fmt::Formatter<W>) -> fmt::Result {
        write_text(
            f,
            u64::from(self.actual),
            u64::from(self.max_allowed),
            self.value_type,
        )
    }
}

impl Error for ValueTooBigError<u32> {}

/// Says which value was refused, what kind of value it is and how great it may be.
impl fmt::Display for ValueTooBigError<usize> {
    ghost output = { λ e. Some (value_too_big_error_text e) };

    fn fmt<W: fmt::Write>(&self, f: &mut fmt::Formatter<W>) -> fmt::Result {
        write_text(
            f,
            self.actual as u64,
            self.max_allowed as u64,
            self.value_type,
        )
    }
}

impl Error for ValueTooBigError<usize> {}

// Writes the text of the error with these fields, for all four types: `u64` has room for each.
fn write_text<W: fmt::Write>(
    f: &mut fmt::Formatter<W>,
    actual: u64,
    max_allowed: u64,
    value_type: ValueType,
) -> fmt::Result
    ensures text { DisplaysOnOk W.write_str_gives f.old result (Some (value_too_big_error_text
        (record { actual = actual; max_allowed = max_allowed; value_type = value_type }))) f.new }
{
    write!(
        f,
        "Error '{actual}' is too big to be a '{value_type}' (maximum allowed value is '{max_allowed}')"
    )
}
