//! The texts of the errors, and whether two of them are equal.

use crate::case::{Argument, Case, write_equality, write_text};
use etherparse::err::ip::IpDscpUnknownValueError;
use etherparse::err::{LenError, SliceWriteSpaceError, ValueTooBigError, ipv4, ipv6};
use std::fmt::Display;

/// The cases `text.NAME`: each makes an error from its arguments and prints it.
pub fn answer_text(name: &str, case: &mut Case) {
    match name {
        "unknown" => write_text(
            &IpDscpUnknownValueError {
                value: case.number(),
            },
            case,
        ),
        "bad_options" => write_text(
            &ipv4::BadOptionsLen {
                bad_len: case.number(),
            },
            case,
        ),
        "v4.version" => write_text(case.ipv4_content("version"), case),
        "v4.ihl" => write_text(case.ipv4_content("ihl"), case),
        "v6.version" => write_text(case.ipv6_content("version"), case),
        _ => answer(true, name, case),
    }
}

/// The text of an error, or else, for the cases `eq.NAME`, whether two errors with a `/` between
/// them are equal.
pub fn answer(is_text: bool, name: &str, case: &mut Case) {
    match name {
        "len" => answer_kind::<LenError>(is_text, case),
        "swse" => answer_kind::<SliceWriteSpaceError>(is_text, case),
        "v4" => answer_kind::<ipv4::HeaderSliceError>(is_text, case),
        "v6" => answer_kind::<ipv6::HeaderSliceError>(is_text, case),
        "chain" => answer_kind::<ipv6::ChainError>(is_text, case),
        "too_big" => answer_too_big(is_text, case),
        _ => case.refuse(),
    }
}

// A `ValueTooBigError` of the width that the first argument names, or two.
fn answer_too_big(is_text: bool, case: &mut Case) {
    match case.word() {
        "u8" => answer_kind::<ValueTooBigError<u8>>(is_text, case),
        "u16" => answer_kind::<ValueTooBigError<u16>>(is_text, case),
        "u32" => answer_kind::<ValueTooBigError<u32>>(is_text, case),
        "usize" => answer_kind::<ValueTooBigError<usize>>(is_text, case),
        _ => case.refuse(),
    }
}

// One error of a kind, or two.
fn answer_kind<E: Argument + Display + PartialEq + Drop>(is_text: bool, case: &mut Case) {
    let error: E = case.read();
    if is_text {
        return write_text(error, case);
    }
    if case.word() != "/" {
        case.refuse();
    }
    write_equality(error == case.read::<E>(), case);
}
