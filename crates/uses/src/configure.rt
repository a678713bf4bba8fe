//! A configuration: fields and options that are made from numbers and bytes.

ghost use Rattle.std.specs.Prelude.{◌≤◌, length};
ghost use Rattle.std.specs.Option.{SomeIff};
ghost use Rattle.etherparse.specs.Ipv4Options.{IsOptionsLen};

use etherparse::{IpDscp, Ipv4Options, Ipv6FlowLabel};

/// The class that a rule names by its number, or `None` if the number needs more than 6 bits.
pub fn class_of(number: u8) -> Option<IpDscp>
    ensures exact { SomeIff result (number ≤ 63) number }
{
    IpDscp::try_new(number).ok()
}

/// The flow label of a number, or `None` if the number needs more than 20 bits.
pub fn label_of(number: u32) -> Option<Ipv6FlowLabel>
    ensures exact { SomeIff result (number ≤ 1048575) number }
{
    Ipv6FlowLabel::try_new(number).ok()
}

/// The options of these bytes, or `None` if options cannot have that many.
pub fn options_of(bytes: &[u8]) -> Option<Ipv4Options>
    ensures exact { SomeIff result (IsOptionsLen (length bytes.now)) bytes.now }
{
    Ipv4Options::try_from(bytes).ok()
}
