//! The order of two values, and whether they are equal.

use crate::case::{Argument, Case, write_shown};
use crate::shown::Comparison;
use etherparse::err::{Layer, ValueType};
use etherparse::{IpDscp, IpDscpKnown, IpEcn, IpFragOffset, IpNumber, Ipv4Options, Ipv6FlowLabel};
use std::str::FromStr;

/// The cases `KIND.cmp A B`, and `field.cmp FIELD A B`.
pub fn answer(kind: &str, case: &mut Case) {
    let comparison = match kind {
        "layer" => compared::<Layer>(case),
        "value_type" => compared::<ValueType>(case),
        "known" => compared::<IpDscpKnown>(case),
        "opt" => compared::<Ipv4Options>(case),
        "field" => compared_fields(case),
        _ => return case.refuse(),
    };
    write_shown(comparison, case);
}

// Two values that have words of their own.
fn compared<T: Argument + Ord + Drop>(case: &mut Case) -> Comparison {
    Comparison::of(&case.read::<T>(), &case.read())
}

// Two values of the field that the first argument names.
fn compared_fields(case: &mut Case) -> Comparison {
    match case.word() {
        "dscp" => compared_numbers::<u8, IpDscp>(case),
        "frag" => compared_numbers::<u16, IpFragOffset>(case),
        "flow" => compared_numbers::<u32, Ipv6FlowLabel>(case),
        "ecn" => compared_numbers::<u8, IpEcn>(case),
        kind => {
            if kind != "ipnum" {
                case.refuse();
            }
            Comparison::of(&IpNumber(case.number()), &IpNumber(case.number()))
        }
    }
}

// Two values of a field in range, by their numbers.
fn compared_numbers<N, T>(case: &mut Case) -> Comparison
where
    N: FromStr + Default,
    N::Err: Drop,
    T: TryFrom<N> + Default + Ord + Drop,
    T::Error: Drop,
{
    let (first, second): (T, T) = (case.field::<N, T>(), case.field::<N, T>());
    Comparison::of(&first, &second)
}
