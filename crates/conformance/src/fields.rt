//! The fields that have fewer values than their integer type, including the known code points, and
//! the numbers of protocols.

use crate::case::{Case, write_shown};
use crate::shown::{Answer, Shown};
use etherparse::err::ip::IpDscpUnknownValueError;
use etherparse::{IpDscp, IpDscpKnown, IpEcn, IpFragOffset, IpNumber, Ipv6FlowLabel, Ipv6Header};
use etherparse_link::{VlanId, VlanPcp};
use std::fmt::Display;
use std::str::FromStr;

/// The cases `FIELD.new V` and `FIELD.try V`: a field from its number.
pub fn answer(field: &str, name: &str, case: &mut Case) {
    match name {
        "new" => answer_new(field, case),
        "try" => answer_try(field, case),
        _ => case.refuse(),
    }
}

// By the constructor of the field.
fn answer_new(field: &str, case: &mut Case) {
    match field {
        "dscp" => write_shown(IpDscp::try_new(case.number()), case),
        "frag" => write_shown(IpFragOffset::try_new(case.number()), case),
        "flow" => write_shown(Ipv6FlowLabel::try_new(case.number()), case),
        "ecn" => write_shown(IpEcn::try_new(case.number()), case),
        "vlan_id" => write_shown(VlanId::try_new(case.number()), case),
        "vlan_pcp" => write_shown(VlanPcp::try_new(case.number()), case),
        _ => case.refuse(),
    }
}

// By the conversion from its integer type.
fn answer_try(field: &str, case: &mut Case) {
    match field {
        "dscp" => write_converted::<u8, IpDscp>(case),
        "frag" => write_converted::<u16, IpFragOffset>(case),
        "flow" => write_converted::<u32, Ipv6FlowLabel>(case),
        "ecn" => write_converted::<u8, IpEcn>(case),
        "vlan_id" => write_converted::<u16, VlanId>(case),
        "vlan_pcp" => write_converted::<u8, VlanPcp>(case),
        _ => case.refuse(),
    }
}

fn write_converted<N, T>(case: &mut Case)
where
    N: FromStr + Default,
    N::Err: Drop,
    T: TryFrom<N> + Shown + Drop,
    T::Error: Shown + Drop,
{
    write_shown(T::try_from(case.number()), case);
}

// The number of a field, by its getter and by conversion, and its text.
fn write_field<T, N>(field: T, value: N, into: N, answer: &mut Answer)
where
    T: Display + Drop,
    N: Display + Drop,
{
    answer.put("value=", value);
    answer.put(" into=", into);
    answer.put(" text=", field);
}

impl Shown for IpDscp {
    fn show(&self, answer: &mut Answer) {
        write_field(*self, self.value(), u8::from(*self), answer);
    }
}

impl Shown for IpFragOffset {
    fn show(&self, answer: &mut Answer) {
        write_field(*self, self.value(), u16::from(*self), answer);
        answer.put(" bytes=", self.byte_offset());
    }
}

impl Shown for Ipv6FlowLabel {
    fn show(&self, answer: &mut Answer) {
        write_field(*self, self.value(), u32::from(*self), answer);
    }
}

impl Shown for IpEcn {
    fn show(&self, answer: &mut Answer) {
        write_field(*self, self.value(), u8::from(*self), answer);
        answer.debug(" variant=", self);
    }
}

impl Shown for VlanId {
    fn show(&self, answer: &mut Answer) {
        write_field(*self, self.value(), u16::from(*self), answer);
    }
}

impl Shown for VlanPcp {
    fn show(&self, answer: &mut Answer) {
        write_field(*self, self.value(), u8::from(*self), answer);
    }
}

impl Shown for IpDscpKnown {
    fn show(&self, answer: &mut Answer) {
        answer.debug("variant=", self);
        answer.put(" u8=", u8::from(*self));
        answer.put(" dscp=", IpDscp::from(*self));
    }
}

impl Shown for IpDscpUnknownValueError {
    fn show(&self, answer: &mut Answer) {
        answer.put("err unknown value=", self.value);
    }
}

impl Shown for IpNumber {
    fn show(&self, answer: &mut Answer) {
        answer.put("value=", self.0);
        answer.put(" into=", u8::from(*self));
        answer.put(" ext=", self.is_ipv6_ext_header_value());
        answer.put(
            " skippable=",
            Ipv6Header::is_skippable_header_extension(*self),
        );
    }
}
