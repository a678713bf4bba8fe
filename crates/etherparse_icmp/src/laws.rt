//! What the derived `==` of headers and views and the `clone` of all types say, each as the clause of
//! one small function. Nothing calls them: they are there to be proved.

ghost use Rattle.std.specs.Prelude.{◌≡◌, ◌↔◌, IsTrue, Ok};
ghost use Rattle.etherparse_icmp.specs.declared.icmpv4_type.Icmpv4Type.TheVariants as v4;
ghost use Rattle.etherparse_icmp.specs.declared.icmpv6_type.Icmpv6Type.TheVariants as v6;

use crate::{
    IcmpEchoHeader, Icmpv4Header, Icmpv4Slice, Icmpv4Type, Icmpv6Header, Icmpv6Slice, Icmpv6Type,
    icmpv4, icmpv6,
};
use std::alloc::AllocError;

fn icmpv4_header_equality(a: &Icmpv4Header, b: &Icmpv4Header) -> bool
    ensures same_value { IsTrue result ↔ (a.now ≡ b.now) }
{
    a == b
}

fn icmpv6_header_equality(a: &Icmpv6Header, b: &Icmpv6Header) -> bool
    ensures same_value { IsTrue result ↔ (a.now ≡ b.now) }
{
    a == b
}

// Views are equal if they show the same bytes.
fn icmpv4_view_equality(a: &Icmpv4Slice, b: &Icmpv4Slice) -> bool
    ensures same_bytes { IsTrue result ↔ (a.now.slice.now ≡ b.now.slice.now) }
{
    a == b
}

fn icmpv6_view_equality(a: &Icmpv6Slice, b: &Icmpv6Slice) -> bool
    ensures same_bytes { IsTrue result ↔ (a.now.slice.now ≡ b.now.slice.now) }
{
    a == b
}

// A clone is equal, and cloning never fails.
fn icmpv4_view_clone<'a>(view: &Icmpv4Slice<'a>) -> Result<Icmpv4Slice<'a>, AllocError>
    ensures same_value { result ≡ Ok view.now }
{
    view.clone()
}

fn icmpv6_view_clone<'a>(view: &Icmpv6Slice<'a>) -> Result<Icmpv6Slice<'a>, AllocError>
    ensures same_value { result ≡ Ok view.now }
{
    view.clone()
}

fn icmpv4_header_clone(header: &Icmpv4Header) -> Result<Icmpv4Header, AllocError>
    ensures same_value { result ≡ Ok header.now }
{
    header.clone()
}

fn icmpv4_type_clone(icmp_type: &Icmpv4Type) -> Result<Icmpv4Type, AllocError>
    ensures same_value { result ≡ Ok icmp_type.now }
{
    icmp_type.clone()
}

fn icmpv6_header_clone(header: &Icmpv6Header) -> Result<Icmpv6Header, AllocError>
    ensures same_value { result ≡ Ok header.now }
{
    header.clone()
}

fn icmpv6_type_clone(icmp_type: &Icmpv6Type) -> Result<Icmpv6Type, AllocError>
    ensures same_value { result ≡ Ok icmp_type.now }
{
    icmp_type.clone()
}

fn echo_header_clone(echo: &IcmpEchoHeader) -> Result<IcmpEchoHeader, AllocError>
    ensures same_value { result ≡ Ok echo.now }
{
    echo.clone()
}

fn icmpv4_dest_unreachable_header_clone(
    header: &icmpv4::DestUnreachableHeader,
) -> Result<icmpv4::DestUnreachableHeader, AllocError>
    ensures same_value { result ≡ Ok header.now }
{
    header.clone()
}

fn icmpv4_parameter_problem_header_clone(
    header: &icmpv4::ParameterProblemHeader,
) -> Result<icmpv4::ParameterProblemHeader, AllocError>
    ensures same_value { result ≡ Ok header.now }
{
    header.clone()
}

fn redirect_code_clone(code: &icmpv4::RedirectCode) -> Result<icmpv4::RedirectCode, AllocError>
    ensures same_value { result ≡ Ok code.now }
{
    code.clone()
}

fn redirect_header_clone(
    header: &icmpv4::RedirectHeader,
) -> Result<icmpv4::RedirectHeader, AllocError>
    ensures same_value { result ≡ Ok header.now }
{
    header.clone()
}

fn icmpv4_time_exceeded_code_clone(
    code: &icmpv4::TimeExceededCode,
) -> Result<icmpv4::TimeExceededCode, AllocError>
    ensures same_value { result ≡ Ok code.now }
{
    code.clone()
}

fn timestamp_message_clone(
    message: &icmpv4::TimestampMessage,
) -> Result<icmpv4::TimestampMessage, AllocError>
    ensures same_value { result ≡ Ok message.now }
{
    message.clone()
}

fn icmpv6_dest_unreachable_code_clone(
    code: &icmpv6::DestUnreachableCode,
) -> Result<icmpv6::DestUnreachableCode, AllocError>
    ensures same_value { result ≡ Ok code.now }
{
    code.clone()
}

fn icmpv6_neighbor_advertisement_header_clone(
    header: &icmpv6::NeighborAdvertisementHeader,
) -> Result<icmpv6::NeighborAdvertisementHeader, AllocError>
    ensures same_value { result ≡ Ok header.now }
{
    header.clone()
}

fn icmpv6_parameter_problem_code_clone(
    code: &icmpv6::ParameterProblemCode,
) -> Result<icmpv6::ParameterProblemCode, AllocError>
    ensures same_value { result ≡ Ok code.now }
{
    code.clone()
}

fn icmpv6_parameter_problem_header_clone(
    header: &icmpv6::ParameterProblemHeader,
) -> Result<icmpv6::ParameterProblemHeader, AllocError>
    ensures same_value { result ≡ Ok header.now }
{
    header.clone()
}

fn icmpv6_router_advertisement_header_clone(
    header: &icmpv6::RouterAdvertisementHeader,
) -> Result<icmpv6::RouterAdvertisementHeader, AllocError>
    ensures same_value { result ≡ Ok header.now }
{
    header.clone()
}

fn icmpv6_time_exceeded_code_clone(
    code: &icmpv6::TimeExceededCode,
) -> Result<icmpv6::TimeExceededCode, AllocError>
    ensures same_value { result ≡ Ok code.now }
{
    code.clone()
}

// The fields of a variant, by their names, are those of the definitions in their order.
fn icmpv4_unknown_fields(type_u8: u8, code_u8: u8, bytes5to8: [u8; 4]) -> Icmpv4Type
    ensures by_name { result ≡ v4.Unknown type_u8 code_u8 bytes5to8 }
{
    Icmpv4Type::Unknown {
        type_u8,
        code_u8,
        bytes5to8,
    }
}

fn icmpv6_unknown_fields(type_u8: u8, code_u8: u8, bytes5to8: [u8; 4]) -> Icmpv6Type
    ensures by_name { result ≡ v6.Unknown type_u8 code_u8 bytes5to8 }
{
    Icmpv6Type::Unknown {
        type_u8,
        code_u8,
        bytes5to8,
    }
}
