//! Sums of words of sixteen bits, in both widths.

use crate::case::{Case, write_equality, write_text};
use etherparse::checksum::{u32_16bit_word, u64_16bit_word, update_2bytes};
use std::fmt::Display;

/// The cases `c32.NAME`: sums in 32 bits.
pub fn answer_u32(name: &str, case: &mut Case) {
    match name {
        "add2" => write_sum(
            u32_16bit_word::add_2bytes(case.number(), case.array()),
            case,
        ),
        "add4" => write_sum(
            u32_16bit_word::add_4bytes(case.number(), case.array()),
            case,
        ),
        "fold" => write_fold_u32(case.number(), case),
        "slice" => write_fold_u32(
            u32_16bit_word::add_slice(case.number(), &case.bytes()),
            case,
        ),
        "slices" => {
            let pieces = case.pieces();
            write_fold_u32(u32_16bit_word::add_slices(&borrowed(&pieces, case)), case);
        }
        _ => case.refuse(),
    }
}

// Both complements of a sum in 32 bits.
fn write_fold_u32(sum: u32, case: &mut Case) {
    let complement = u32_16bit_word::ones_complement(sum);
    let with_no_zero = u32_16bit_word::ones_complement_with_no_zero(sum);
    write_fold(complement, with_no_zero, case);
}

/// The cases `c64.NAME`: sums in 64 bits.
pub fn answer_u64(name: &str, case: &mut Case) {
    match name {
        "add2" => write_sum(
            u64_16bit_word::add_2bytes(case.number(), case.array()),
            case,
        ),
        "add4" => write_sum(
            u64_16bit_word::add_4bytes(case.number(), case.array()),
            case,
        ),
        "add8" => write_sum(
            u64_16bit_word::add_8bytes(case.number(), case.array()),
            case,
        ),
        "fold" => write_fold_u64(case.number(), case),
        "slice" => write_fold_u64(
            u64_16bit_word::add_slice(case.number(), &case.bytes()),
            case,
        ),
        "slices" => {
            let pieces = case.pieces();
            write_fold_u64(u64_16bit_word::add_slices(&borrowed(&pieces, case)), case);
        }
        _ => case.refuse(),
    }
}

// Both complements of a sum in 64 bits.
fn write_fold_u64(sum: u64, case: &mut Case) {
    let complement = u64_16bit_word::ones_complement(sum);
    let with_no_zero = u64_16bit_word::ones_complement_with_no_zero(sum);
    write_fold(complement, with_no_zero, case);
}

/// `sum STEP ..` and `sum.eq STEP .. / STEP ..`: sums that are built step by step.
pub fn answer_steps(name: &str, case: &mut Case) {
    match name {
        "" => {
            let sum = case.sum(false);
            write_fold(
                sum.ones_complement(),
                sum.to_ones_complement_with_no_zero(),
                case,
            );
        }
        "eq" => write_equality(case.sum(true) == case.sum(false), case),
        _ => case.refuse(),
    }
}

/// `upd CHECKSUM OLD NEW`: a checksum after two bytes of what it covers have changed.
pub fn answer_update(case: &mut Case) {
    let checksum = case.number();
    let (old, new) = (case.array(), case.array());
    write_text(update_2bytes(checksum, old, new), case);
}

fn write_sum<T: Display + Drop>(sum: T, case: &mut Case) {
    case.answer.put("sum=", sum);
}

// The complement of a sum, and its form that is never 0.
fn write_fold(complement: u16, with_no_zero: u16, case: &mut Case) {
    case.answer.put("oc=", complement);
    case.answer.put(" nz=", with_no_zero);
}

// The pieces as slices.
fn borrowed<'a>(pieces: &'a [Vec<u8>], case: &mut Case) -> Vec<&'a [u8]> {
    let mut slices = Vec::new(case.alloc);
    for piece in pieces {
        let pushed = slices.push(piece.as_slice());
        case.answer.note(&pushed);
    }
    slices
}
