//! The named constants, the variants in their order, and the defaults.

use crate::case::{Case, write_shown};
use crate::shown::Answer;
use crate::tables::{IP_NUMBER_NAMES, IP_NUMBERS, KNOWN_CODE_POINTS, LAYERS, VALUE_TYPES};
use etherparse::{
    IpDscp, IpEcn, IpFragOffset, IpNumber, Ipv4Header, Ipv4Options, Ipv6FlowLabel, Ipv6Header,
};
use std::fmt::Debug;

/// The cases `const.NAME`, which have no arguments.
pub fn answer_const(name: &str, case: &mut Case) {
    match name {
        "fields" => write_fields(&mut case.answer),
        "headers" => write_headers(&mut case.answer),
        "dscp" => write_code_points(&mut case.answer),
        "known" => write_known_code_points(&mut case.answer),
        "ipnum" => case.answer.named(&IP_NUMBERS),
        "ip_number" => case.answer.named(&IP_NUMBER_NAMES),
        "layers" => write_names(&LAYERS, &mut case.answer),
        "value_types" => write_names(&VALUE_TYPES, &mut case.answer),
        _ => case.refuse(),
    }
}

fn write_fields(answer: &mut Answer) {
    answer.put("IpDscp::ZERO=", IpDscp::ZERO.value());
    answer.put(" IpDscp::MAX_U8=", IpDscp::MAX_U8);
    answer.put(" IpDscp::MAX=", IpDscp::MAX.value());
    answer.put(" IpFragOffset::ZERO=", IpFragOffset::ZERO.value());
    answer.put(" IpFragOffset::MAX_U16=", IpFragOffset::MAX_U16);
    answer.put(" Ipv6FlowLabel::ZERO=", Ipv6FlowLabel::ZERO.value());
    answer.put(" Ipv6FlowLabel::MAX_U32=", Ipv6FlowLabel::MAX_U32);
    answer.put(" IpEcn::ZERO=", IpEcn::ZERO.value());
    answer.put(" IpEcn::ONE=", IpEcn::ONE.value());
    answer.put(" IpEcn::TWO=", IpEcn::TWO.value());
    answer.put(" IpEcn::THREE=", IpEcn::THREE.value());
    answer.put(" IpEcn::TRHEE=", IpEcn::TRHEE.value());
    answer.put(" IpEcn::MAX_U8=", IpEcn::MAX_U8);
    answer.put(" Ipv4Options::MAX_LEN=", Ipv4Options::MAX_LEN);
}

fn write_headers(answer: &mut Answer) {
    answer.put("Ipv4Header::MIN_LEN=", Ipv4Header::MIN_LEN);
    answer.put(" Ipv4Header::MIN_LEN_U16=", Ipv4Header::MIN_LEN_U16);
    answer.put(" Ipv4Header::SERIALIZED_SIZE=", Ipv4Header::SERIALIZED_SIZE);
    answer.put(" Ipv4Header::MAX_LEN=", Ipv4Header::MAX_LEN);
    answer.put(" Ipv6Header::LEN=", Ipv6Header::LEN);
    answer.put(" Ipv6Header::SERIALIZED_SIZE=", Ipv6Header::SERIALIZED_SIZE);
}

// The differentiated services code points that have names, by their numbers.
fn write_code_points(answer: &mut Answer) {
    answer.put("CS0=", IpDscp::CS0.value());
    answer.put(" LOWER_EFFORT=", IpDscp::LOWER_EFFORT.value());
    answer.put(" CS1=", IpDscp::CS1.value());
    answer.put(" AF11=", IpDscp::AF11.value());
    answer.put(" AF12=", IpDscp::AF12.value());
    answer.put(" AF13=", IpDscp::AF13.value());
    answer.put(" CS2=", IpDscp::CS2.value());
    answer.put(" AF21=", IpDscp::AF21.value());
    answer.put(" AF22=", IpDscp::AF22.value());
    answer.put(" AF23=", IpDscp::AF23.value());
    answer.put(" CS3=", IpDscp::CS3.value());
    answer.put(" AF31=", IpDscp::AF31.value());
    write_code_points_from_af32(answer);
}

fn write_code_points_from_af32(answer: &mut Answer) {
    answer.put(" AF32=", IpDscp::AF32.value());
    answer.put(" AF33=", IpDscp::AF33.value());
    answer.put(" CS4=", IpDscp::CS4.value());
    answer.put(" AF41=", IpDscp::AF41.value());
    answer.put(" AF42=", IpDscp::AF42.value());
    answer.put(" AF43=", IpDscp::AF43.value());
    answer.put(" CS5=", IpDscp::CS5.value());
    answer.put(" VOICE_ADMIT=", IpDscp::VOICE_ADMIT.value());
    answer.put(" EF=", IpDscp::EF.value());
    answer.put(" CS6=", IpDscp::CS6.value());
    answer.put(" CS7=", IpDscp::CS7.value());
}

fn write_known_code_points(answer: &mut Answer) {
    let mut gap = "";
    for (_, known) in &KNOWN_CODE_POINTS {
        answer.debug(gap, known);
        answer.put("=", u8::from(*known));
        gap = " ";
    }
}

// The values of a table, in its order, by the names that their `Debug` has for them.
fn write_names<T: Debug>(table: &[(&str, T)], answer: &mut Answer) {
    let mut gap = "";
    for (_, value) in table {
        answer.debug(gap, value);
        gap = " ";
    }
}

/// The cases `default.NAME`, which have no arguments.
pub fn answer_default(name: &str, case: &mut Case) {
    match name {
        "fields" => write_default_fields(&mut case.answer),
        "v4" => write_shown(Ipv4Header::default(), case),
        "v6" => write_shown(Ipv6Header::default(), case),
        _ => case.refuse(),
    }
}

fn write_default_fields(answer: &mut Answer) {
    answer.put("dscp=", IpDscp::default().value());
    answer.put(" frag=", IpFragOffset::default().value());
    answer.put(" flow=", Ipv6FlowLabel::default().value());
    answer.put(" ecn=", IpEcn::default().value());
    answer.put(" ipnum=", IpNumber::default().0);
    answer.bytes(" options=", Ipv4Options::default().as_slice());
}
