//! Laws of derived calls, of hashes, and of a write through a lent slice, for what no clause of
//! these calls says. Nothing calls them: they are there to be proved.
ghost use Rattle.std.specs.Prelude.{◌≡◌, ◌<◌, ◌↔◌, IsTrue, Ok, fold, length};
ghost use Rattle.std.specs.Ordering.{nat_cmp};
ghost use Rattle.std.specs.Hash as fed;
ghost use Rattle.etherparse_fields.specs.IpDscpKnown.{code_point_of};
ghost use Rattle.etherparse_fields.specs.IpEcn.{ecn_value};

use crate::{IpDscp, IpDscpKnown, IpEcn, IpFragOffset, IpNumber, Ipv4Options, Ipv6FlowLabel};
use etherparse_base::err::ip::IpDscpUnknownValueError;
use std::alloc::AllocError;
use std::cmp::Ordering;
use std::hash::{Hash, Hasher};

fn dscp_equality(a: &IpDscp, b: &IpDscp) -> bool
    ensures same_value { IsTrue result ↔ (a.now ≡ b.now) }
{
    a == b
}

fn dscp_order(a: &IpDscp, b: &IpDscp) -> Ordering
    ensures by_number { result ≡ nat_cmp a.now b.now }
{
    a.cmp(b)
}

fn dscp_below(a: &IpDscp, b: &IpDscp) -> bool
    ensures by_number { IsTrue result ↔ (a.now < b.now) }
{
    a < b
}

fn dscp_hash<H: Hasher>(a: &IpDscp, state: &mut H)
    ensures by_number { state.new ≡ fold H.write state.old (fed.u8 a.now) }
{
    a.hash(state);
}

fn dscp_clone(a: &IpDscp) -> Result<IpDscp, AllocError>
    ensures same_value { result ≡ Ok a.now }
{
    a.clone()
}

fn known_code_point_below(a: &IpDscpKnown, b: &IpDscpKnown) -> bool
    ensures by_code_point { IsTrue result ↔ (code_point_of a.now < code_point_of b.now) }
{
    a < b
}

fn known_code_point_hash<H: Hasher>(a: &IpDscpKnown, state: &mut H)
    ensures by_code_point { state.new ≡ fold H.write state.old (fed.u8 (code_point_of a.now)) }
{
    a.hash(state);
}

fn known_code_point_clone(a: &IpDscpKnown) -> Result<IpDscpKnown, AllocError>
    ensures same_value { result ≡ Ok a.now }
{
    a.clone()
}

fn known_code_point_and_back(a: IpDscpKnown) -> Result<IpDscpKnown, IpDscpUnknownValueError>
    ensures same_value { result ≡ Ok a }
{
    IpDscpKnown::try_from_ip_dscp(IpDscp::from(a))
}

fn fragment_offset_equality(a: &IpFragOffset, b: &IpFragOffset) -> bool
    ensures same_value { IsTrue result ↔ (a.now ≡ b.now) }
{
    a == b
}

fn fragment_offset_order(a: &IpFragOffset, b: &IpFragOffset) -> Ordering
    ensures by_number { result ≡ nat_cmp a.now b.now }
{
    a.cmp(b)
}

fn fragment_offset_below(a: &IpFragOffset, b: &IpFragOffset) -> bool
    ensures by_number { IsTrue result ↔ (a.now < b.now) }
{
    a < b
}

fn fragment_offset_hash<H: Hasher>(a: &IpFragOffset, state: &mut H)
    ensures by_number { state.new ≡ fold H.write state.old (fed.u16 a.now) }
{
    a.hash(state);
}

fn fragment_offset_clone(a: &IpFragOffset) -> Result<IpFragOffset, AllocError>
    ensures same_value { result ≡ Ok a.now }
{
    a.clone()
}

fn flow_label_equality(a: &Ipv6FlowLabel, b: &Ipv6FlowLabel) -> bool
    ensures same_value { IsTrue result ↔ (a.now ≡ b.now) }
{
    a == b
}

fn flow_label_order(a: &Ipv6FlowLabel, b: &Ipv6FlowLabel) -> Ordering
    ensures by_number { result ≡ nat_cmp a.now b.now }
{
    a.cmp(b)
}

fn flow_label_below(a: &Ipv6FlowLabel, b: &Ipv6FlowLabel) -> bool
    ensures by_number { IsTrue result ↔ (a.now < b.now) }
{
    a < b
}

fn flow_label_hash<H: Hasher>(a: &Ipv6FlowLabel, state: &mut H)
    ensures by_number { state.new ≡ fold H.write state.old (fed.u32 a.now) }
{
    a.hash(state);
}

fn flow_label_clone(a: &Ipv6FlowLabel) -> Result<Ipv6FlowLabel, AllocError>
    ensures same_value { result ≡ Ok a.now }
{
    a.clone()
}

fn ecn_equality(a: &IpEcn, b: &IpEcn) -> bool
    ensures same_value { IsTrue result ↔ (a.now ≡ b.now) }
    ensures by_number { IsTrue result ↔ (ecn_value a.now ≡ ecn_value b.now) }
{
    a == b
}

fn ecn_order(a: &IpEcn, b: &IpEcn) -> Ordering
    ensures by_number { result ≡ nat_cmp (ecn_value a.now) (ecn_value b.now) }
{
    a.cmp(b)
}

fn ecn_below(a: &IpEcn, b: &IpEcn) -> bool
    ensures by_number { IsTrue result ↔ (ecn_value a.now < ecn_value b.now) }
{
    a < b
}

fn ecn_hash<H: Hasher>(a: &IpEcn, state: &mut H)
    ensures by_number { state.new ≡ fold H.write state.old (fed.usize (ecn_value a.now)) }
{
    a.hash(state);
}

fn ecn_clone(a: &IpEcn) -> Result<IpEcn, AllocError>
    ensures same_value { result ≡ Ok a.now }
{
    a.clone()
}

fn ip_number_equality(a: &IpNumber, b: &IpNumber) -> bool
    ensures same_value { IsTrue result ↔ (a.now ≡ b.now) }
{
    a == b
}

fn ip_number_order(a: &IpNumber, b: &IpNumber) -> Ordering
    ensures by_number { result ≡ nat_cmp a.now b.now }
{
    a.cmp(b)
}

fn ip_number_below(a: &IpNumber, b: &IpNumber) -> bool
    ensures by_number { IsTrue result ↔ (a.now < b.now) }
{
    a < b
}

fn ip_number_hash<H: Hasher>(a: &IpNumber, state: &mut H)
    ensures by_number { state.new ≡ fold H.write state.old (fed.u8 a.now) }
{
    a.hash(state);
}

fn ip_number_clone(a: &IpNumber) -> Result<IpNumber, AllocError>
    ensures same_value { result ≡ Ok a.now }
{
    a.clone()
}

fn options_hash<H: Hasher>(a: &Ipv4Options, state: &mut H)
    ensures by_bytes { state.new ≡ fold H.write state.old (fed.slice fed.u8 a.now) }
{
    a.hash(state);
}

fn options_written(options: &mut Ipv4Options, bytes: &[u8])
    requires { length bytes.now ≡ length options.old }
    ensures kept { options.new ≡ bytes.now }
{
    options.as_mut_slice().copy_from_slice(bytes);
}
