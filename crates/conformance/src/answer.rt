use crate::case::{Case, write_shown, write_text};
use crate::{
    build, comparison, constants, errors, extensions, fields, filters, fragments, icmp, ipv4, ipv6,
    link, offsets, options, packets, sums, transport, walks,
};
use etherparse::err::{Layer, ValueType};
use etherparse::{IpDscpKnown, IpNumber};
use std::alloc::{AllocError, Global};
use std::str;

/// The answer to a line: `bad line` if it is not a case.
pub fn answer_to(alloc: Global, line: &[u8]) -> Result<String, AllocError> {
    if let Ok(text) = str::from_utf8(line) {
        let mut case = Case::new(alloc, text);
        answer_case(&mut case);
        if case.answer.is_out_of_memory {
            return Err(AllocError);
        }
        if case.were_all_good() {
            return Ok(case.answer.text);
        }
    }
    let mut answer = String::new(alloc);
    answer.push_str("bad line")?;
    Ok(answer)
}

// Makes the call and writes what it gave. For a bad case, what is written is thrown away.
fn answer_case(case: &mut Case) {
    let operation = case.word();
    let (group, name) = operation.split_once('.').unwrap_or((operation, ""));
    match group {
        "v4" => ipv4::answer(name, case),
        "v6" => ipv6::answer(name, case),
        "walk" => walks::answer_walk(name, case),
        "c32" => sums::answer_u32(name, case),
        "c64" => sums::answer_u64(name, case),
        "sum" => sums::answer_steps(name, case),
        "link" => link::answer(name, case),
        "ext" => extensions::answer(name, case),
        "udp" => transport::answer_udp(name, case),
        "tcp" => transport::answer_tcp(name, case),
        "icmp" => icmp::answer(name, case),
        _ => answer_other(group, name, case),
    }
}

// A case of a group that has no header, of a field, or of no group.
fn answer_other(group: &str, name: &str, case: &mut Case) {
    match group {
        "opt" => options::answer(name, case),
        "const" => constants::answer_const(name, case),
        "default" => constants::answer_default(name, case),
        "text" => errors::answer_text(name, case),
        "eq" => errors::answer(false, name, case),
        "off" => offsets::answer(name, case),
        _ => match name {
            "" => answer_alone(group, case),
            "cmp" => comparison::answer(group, case),
            _ => fields::answer(group, name, case),
        },
    }
}

// A case of an operation that is in no group.
fn answer_alone(operation: &str, case: &mut Case) {
    match operation {
        "skip" => walks::answer_skip(case),
        "packet" => packets::answer(case),
        "filter" => filters::answer(case),
        "fragments" => fragments::answer(case),
        "build" => build::answer(case),
        "upd" => sums::answer_update(case),
        "known" => write_shown(IpDscpKnown::try_from_ip_dscp(case.field::<u8, _>()), case),
        "ipnum" => write_shown(IpNumber(case.number()), case),
        "layer" => {
            let layer: Layer = case.read();
            case.answer.words(layer.error_title());
            case.answer.put(" ; ", layer);
        }
        "value_type" => write_text(case.read::<ValueType>(), case),
        _ => case.refuse(),
    }
}
