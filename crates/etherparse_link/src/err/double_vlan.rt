//! The errors of two VLAN tags.

ghost use Rattle.std.specs.Prelude.{Some};
ghost use Rattle.etherparse_link.specs.DoubleVlanErrors.{header_error_text};
ghost use Rattle.etherparse_link.specs.DoubleVlanErrors.{header_slice_error_text};

use crate::EtherType;
use etherparse::err::LenError;
use std::error::Error;
use std::fmt;

/// Why a slice does not begin with two VLAN tags.
#[derive(Clone, Debug, PartialEq, Eq, Hash, Drop)]
pub enum HeaderSliceError {
    /// The slice is shorter than two tags.
    Len(LenError),
    /// What follows the outer tag is no tag.
    Content(HeaderError),
}

/// Writes the text of the error inside.
impl fmt::Display for HeaderSliceError {
    ghost output = { λ e. Some (header_slice_error_text e) };

    fn fmt<W: fmt::Write>(&self, f: &mut fmt::Formatter<W>) -> fmt::Result {
        match self {
            HeaderSliceError::Len(e) => e.fmt(f),
            HeaderSliceError::Content(e) => e.fmt(f),
        }
    }
}

impl Error for HeaderSliceError {}

/// Why a slice of sufficient length does not begin with two VLAN tags.
#[derive(Clone, Copy, Debug, PartialEq, Eq, Hash)]
pub enum HeaderError {
    /// What follows the outer tag is no tag.
    NonVlanEtherType {
        /// The EtherType of the outer tag, which is not that of a tag.
        unexpected_ether_type: EtherType,
    },
}

/// Says which EtherType was found, in decimal digits.
impl fmt::Display for HeaderError {
    ghost output = { λ e. Some (header_error_text e) };

    fn fmt<W: fmt::Write>(&self, f: &mut fmt::Formatter<W>) -> fmt::Result {
        match *self {
            HeaderError::NonVlanEtherType {
                unexpected_ether_type: EtherType(number),
            } => write!(
                f,
                "Double VLAN Error: The outer tag has the ether type '{number}', which is that of no VLAN tag."
            ),
        }
    }
}

impl Error for HeaderError {}
