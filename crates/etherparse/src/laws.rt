//! Laws of the derived equality and clones of headers and views, and of the parts of the traffic
//! class, for what no clause of a single call says. Nothing calls them: they are there to be
//! proved.

ghost use Rattle.std.specs.Prelude.{◌≡◌, ◌+◌, ◌*◌, ◌/◌, ◌%◌, ◌^◌, ◌↔◌, IsTrue, Ok};
ghost use Rattle.etherparse_fields.specs.IpEcn.{ecn_value};

use crate::{IpDscp, IpEcn, Ipv4Header, Ipv4HeaderSlice, Ipv6Header, Ipv6HeaderSlice};
use std::alloc::AllocError;

// Headers are equal if all their fields are.
fn ipv4_header_equality(header: &Ipv4Header, other: &Ipv4Header) -> bool
    ensures same_value { IsTrue result ↔ (header.now ≡ other.now) }
{
    header == other
}

fn ipv6_header_equality(header: &Ipv6Header, other: &Ipv6Header) -> bool
    ensures same_value { IsTrue result ↔ (header.now ≡ other.now) }
{
    header == other
}

// Views are equal if they show the same bytes, the reserved bit included.
fn ipv4_view_equality(view: &Ipv4HeaderSlice, other: &Ipv4HeaderSlice) -> bool
    ensures same_bytes { IsTrue result ↔ (view.now.slice.now ≡ other.now.slice.now) }
{
    view == other
}

fn ipv6_view_equality(view: &Ipv6HeaderSlice, other: &Ipv6HeaderSlice) -> bool
    ensures same_bytes { IsTrue result ↔ (view.now.slice.now ≡ other.now.slice.now) }
{
    view == other
}

// The traffic class is put together from its parts, and setting one part keeps the other.
fn traffic_class_parts(header: &Ipv6Header) -> (IpDscp, IpEcn)
    ensures sum { header.now.traffic_class ≡ result.0 * 2 ^ 2 + ecn_value result.1 }
{
    (header.dscp(), header.ecn())
}

fn ecn_set(header: &mut Ipv6Header, ecn: IpEcn) -> (IpDscp, IpEcn)
    ensures kept { result.0 ≡ header.old.traffic_class / 2 ^ 2 }
    ensures set { result.1 ≡ ecn }
{
    header.set_ecn(ecn);
    (header.dscp(), header.ecn())
}

fn dscp_set(header: &mut Ipv6Header, dscp: IpDscp) -> (IpDscp, IpEcn)
    ensures set { result.0 ≡ dscp }
    ensures kept { ecn_value result.1 ≡ header.old.traffic_class % 2 ^ 2 }
{
    header.set_dscp(dscp);
    (header.dscp(), header.ecn())
}

// A clone is equal, and cloning never fails.
fn ipv4_view_clone<'a>(view: &Ipv4HeaderSlice<'a>) -> Result<Ipv4HeaderSlice<'a>, AllocError>
    ensures same_value { result ≡ Ok view.now }
{
    view.clone()
}

fn ipv6_view_clone<'a>(view: &Ipv6HeaderSlice<'a>) -> Result<Ipv6HeaderSlice<'a>, AllocError>
    ensures same_value { result ≡ Ok view.now }
{
    view.clone()
}

fn ipv4_header_clone(header: &Ipv4Header) -> Result<Ipv4Header, AllocError>
    ensures same_value { result ≡ Ok header.now }
{
    header.clone()
}

fn ipv6_header_clone(header: &Ipv6Header) -> Result<Ipv6Header, AllocError>
    ensures same_value { result ≡ Ok header.now }
{
    header.clone()
}
