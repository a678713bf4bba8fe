//! A reader of IPv6 headers by their views: each getter returns the field of the view's header.

ghost use Rattle.std.specs.Prelude.{◌≡◌, ◌/◌, ◌%◌, ◌^◌, length, slice_index};
ghost use Rattle.etherparse.specs.IpEcn.{ecn_value};
ghost use Rattle.etherparse.specs.Ipv6Header.{IsIpv6Layout};

use etherparse::{IpDscp, IpEcn, IpNumber, Ipv6FlowLabel, Ipv6Header, Ipv6HeaderSlice};

/// The traffic class, beside the header.
pub fn traffic_class(view: &Ipv6HeaderSlice) -> (u8, Ipv6Header)
    ensures field { result.0 ≡ result.1.traffic_class }
    ensures header { IsIpv6Layout result.1 view.now.slice.now }
{
    (view.traffic_class(), view.to_header())
}

/// The explicit congestion notification, beside the header.
pub fn ecn(view: &Ipv6HeaderSlice) -> (IpEcn, Ipv6Header)
    ensures field { ecn_value result.0 ≡ result.1.traffic_class % 2 ^ 2 }
    ensures header { IsIpv6Layout result.1 view.now.slice.now }
{
    (view.ecn(), view.to_header())
}

/// The differentiated services code point, beside the header.
pub fn dscp(view: &Ipv6HeaderSlice) -> (IpDscp, Ipv6Header)
    ensures field { result.0 ≡ result.1.traffic_class / 2 ^ 2 }
    ensures header { IsIpv6Layout result.1 view.now.slice.now }
{
    (view.dscp(), view.to_header())
}

/// The flow label, beside the header.
pub fn flow_label(view: &Ipv6HeaderSlice) -> (Ipv6FlowLabel, Ipv6Header)
    ensures field { result.0 ≡ result.1.flow_label }
    ensures header { IsIpv6Layout result.1 view.now.slice.now }
{
    (view.flow_label(), view.to_header())
}

/// The length in bytes of what follows the header, beside the header.
pub fn payload_length(view: &Ipv6HeaderSlice) -> (u16, Ipv6Header)
    ensures field { result.0 ≡ result.1.payload_length }
    ensures header { IsIpv6Layout result.1 view.now.slice.now }
{
    (view.payload_length(), view.to_header())
}

/// What follows the header, beside the header.
pub fn next_header(view: &Ipv6HeaderSlice) -> (IpNumber, Ipv6Header)
    ensures field { result.0 ≡ result.1.next_header }
    ensures header { IsIpv6Layout result.1 view.now.slice.now }
{
    (view.next_header(), view.to_header())
}

/// The hop limit, beside the header.
pub fn hop_limit(view: &Ipv6HeaderSlice) -> (u8, Ipv6Header)
    ensures field { result.0 ≡ result.1.hop_limit }
    ensures header { IsIpv6Layout result.1 view.now.slice.now }
{
    (view.hop_limit(), view.to_header())
}

/// The source address, beside the header.
pub fn source(view: &Ipv6HeaderSlice) -> ([u8; 16], Ipv6Header)
    ensures field { result.0 ≡ result.1.source }
    ensures header { IsIpv6Layout result.1 view.now.slice.now }
{
    (view.source(), view.to_header())
}

/// The destination address, beside the header.
pub fn destination(view: &Ipv6HeaderSlice) -> ([u8; 16], Ipv6Header)
    ensures field { result.0 ≡ result.1.destination }
    ensures header { IsIpv6Layout result.1 view.now.slice.now }
{
    (view.destination(), view.to_header())
}

/// The headers of two views. They are the same if the bytes are.
pub fn headers(view: &Ipv6HeaderSlice, other: &Ipv6HeaderSlice) -> (Ipv6Header, Ipv6Header)
    ensures same { view.now.slice.now ≡ other.now.slice.now → result.0 ≡ result.1 }
    ensures first { IsIpv6Layout result.0 view.now.slice.now }
    ensures second { IsIpv6Layout result.1 other.now.slice.now }
{
    (view.to_header(), other.to_header())
}

/// The hop limit of a view that was made elsewhere: its byte 7.
pub fn hop_limit_by_byte(view: &Ipv6HeaderSlice) -> u8
    ensures byte { result ≡ slice_index view.now.slice.now 7 }
{
    view.hop_limit()
}

/// The length in bytes of a view that was made elsewhere.
pub fn header_len(view: &Ipv6HeaderSlice) -> usize
    ensures len { result ≡ length view.now.slice.now }
{
    view.header_len()
}
