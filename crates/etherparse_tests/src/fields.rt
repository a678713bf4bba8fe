//! What fields and known code points print, and that their clones hash alike, also of options.

use crate::shared::{assert_clones, assert_derives, assert_equal, assert_hashes, hash_of};
use etherparse::err::ValueTooBigError;
use etherparse::{
    IpDscp, IpDscpKnown, IpEcn, IpFragOffset, Ipv4Dscp, Ipv4Ecn, Ipv4Options, Ipv6FlowLabel,
};
use std::alloc::Global;
use std::fmt::{Debug, Display};
use std::hash::Hash;
use std::process::Abort;

// The integer types that fields are made of.
trait Number: Copy + Debug + Display + Drop + Hash + Ord {}

impl Number for u8 {}

impl Number for u16 {}

impl Number for u32 {}

// Asserts what `{:08}` and `{:?}` print for values of a field, and that a clone hashes as its source
// does. The bounds are the traits that each field and its number have.
fn assert_field<F, N>(rt: &impl Abort, alloc: Global, values: &[(F, &str, &str)])
where
    F: Copy + Debug + Display + Drop + Hash + Into<N> + Ord,
    F: TryFrom<N, Error = ValueTooBigError<N>>,
    N: Number + From<F> + TryInto<F, Error = ValueTooBigError<N>>,
{
    for (field, text, debug_text) in values {
        let printed = format!(in alloc; "{field:08}").expect(rt, "a text");
        assert_equal(rt, printed.as_str(), *text);
        assert_clones(rt, alloc, field, debug_text);
        assert_hashes(rt, field);
    }
}

#[test]
fn fields_are_printed_and_hashed(rt: HostRuntime) {
    let code_points = &[
        (IpDscp::ZERO, "00000000", "IpDscp(0)"),
        (IpDscp::MAX, "00000063", "IpDscp(63)"),
    ];
    assert_field::<Ipv4Dscp, u8>(&rt, rt.alloc(), code_points);
    let notifications = &[
        (IpEcn::NotEct, "00000000", "NotEct"),
        (IpEcn::Ect1, "00000001", "Ect1"),
        (IpEcn::Ect0, "00000002", "Ect0"),
        (
            IpEcn::CongestionExperienced,
            "00000003",
            "CongestionExperienced",
        ),
    ];
    assert_field::<Ipv4Ecn, u8>(&rt, rt.alloc(), notifications);
    let offsets = &[
        (IpFragOffset::ZERO, "00000000", "IpFragOffset(0)"),
        (
            IpFragOffset::try_new(8191).unwrap(),
            "00008191",
            "IpFragOffset(8191)",
        ),
    ];
    assert_field::<IpFragOffset, u16>(&rt, rt.alloc(), offsets);
    let flow_labels = &[
        (Ipv6FlowLabel::ZERO, "00000000", "Ipv6FlowLabel(0)"),
        (
            Ipv6FlowLabel::try_new(1048575).unwrap(),
            "01048575",
            "Ipv6FlowLabel(1048575)",
        ),
    ];
    assert_field::<Ipv6FlowLabel, u32>(&rt, rt.alloc(), flow_labels);
}

#[test]
fn known_code_points_are_printed_and_hashed(rt: HostRuntime) {
    let code_points = &[
        (IpDscpKnown::ClassSelector0, "ClassSelector0"),
        (IpDscpKnown::VoiceAdmit, "VoiceAdmit"),
        (IpDscpKnown::LowerEffort, "LowerEffort"),
    ];
    assert_derives(&rt, rt.alloc(), code_points);
}

#[test]
fn options_are_hashed(rt: HostRuntime) {
    // The unused bytes of options are not hashed.
    let in_front = Ipv4Options::from_front(&[7; 40], 4);
    let of_its_own = Ipv4Options::from([7; 4]);
    assert_equal(&rt, hash_of(&in_front), hash_of(&of_its_own));
    assert_hashes(&rt, &in_front);
}
