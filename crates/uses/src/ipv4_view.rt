//! A reader of IPv4 headers by their views: each getter returns the field of the view's header.

ghost use Rattle.std.specs.Prelude.{◌≡◌, ◌↔◌, IsTrue, length, slice_index};
ghost use Rattle.etherparse.specs.Ipv4Header.{IsIpv4Layout, IsFragment, ipv4_ihl};
ghost use Rattle.etherparse.specs.Ipv4Header.{ipv4_payload_len};

use etherparse::err::LenError;
use etherparse::{IpDscp, IpEcn, IpFragOffset, IpNumber, Ipv4Header, Ipv4HeaderSlice};

/// The length of the header in words of 4 bytes, beside the header.
pub fn ihl(view: &Ipv4HeaderSlice) -> (u8, Ipv4Header)
    ensures field { result.0 ≡ ipv4_ihl result.1 }
    ensures header { IsIpv4Layout result.1 view.now.slice.now }
{
    (view.ihl(), view.to_header())
}

/// The differentiated services code point, beside the header.
pub fn dcp(view: &Ipv4HeaderSlice) -> (IpDscp, Ipv4Header)
    ensures field { result.0 ≡ result.1.dscp }
    ensures header { IsIpv4Layout result.1 view.now.slice.now }
{
    (view.dcp(), view.to_header())
}

/// The explicit congestion notification, beside the header.
pub fn ecn(view: &Ipv4HeaderSlice) -> (IpEcn, Ipv4Header)
    ensures field { result.0 ≡ result.1.ecn }
    ensures header { IsIpv4Layout result.1 view.now.slice.now }
{
    (view.ecn(), view.to_header())
}

/// The length of the header and what follows it, in bytes, beside the header.
pub fn total_len(view: &Ipv4HeaderSlice) -> (u16, Ipv4Header)
    ensures field { result.0 ≡ result.1.total_len }
    ensures header { IsIpv4Layout result.1 view.now.slice.now }
{
    (view.total_len(), view.to_header())
}

/// The length of the payload in bytes, or why there is none, beside the header.
pub fn payload_len(view: &Ipv4HeaderSlice) -> (Result<u16, LenError>, Ipv4Header)
    ensures field { result.0 ≡ ipv4_payload_len result.1 }
    ensures header { IsIpv4Layout result.1 view.now.slice.now }
{
    (view.payload_len(), view.to_header())
}

/// What is equal in all fragments of one packet, beside the header.
pub fn identification(view: &Ipv4HeaderSlice) -> (u16, Ipv4Header)
    ensures field { result.0 ≡ result.1.identification }
    ensures header { IsIpv4Layout result.1 view.now.slice.now }
{
    (view.identification(), view.to_header())
}

/// Whether the packet must not be fragmented, beside the header.
pub fn dont_fragment(view: &Ipv4HeaderSlice) -> (bool, Ipv4Header)
    ensures field { result.0 ≡ result.1.dont_fragment }
    ensures header { IsIpv4Layout result.1 view.now.slice.now }
{
    (view.dont_fragment(), view.to_header())
}

/// Whether more fragments follow, beside the header.
pub fn more_fragments(view: &Ipv4HeaderSlice) -> (bool, Ipv4Header)
    ensures field { result.0 ≡ result.1.more_fragments }
    ensures header { IsIpv4Layout result.1 view.now.slice.now }
{
    (view.more_fragments(), view.to_header())
}

/// Where the fragment stands, beside the header.
pub fn fragments_offset(view: &Ipv4HeaderSlice) -> (IpFragOffset, Ipv4Header)
    ensures field { result.0 ≡ result.1.fragment_offset }
    ensures header { IsIpv4Layout result.1 view.now.slice.now }
{
    (view.fragments_offset(), view.to_header())
}

/// Whether the payload is a fragment, beside the header.
pub fn is_fragmenting_payload(view: &Ipv4HeaderSlice) -> (bool, Ipv4Header)
    ensures field { IsTrue result.0 ↔ IsFragment result.1 }
    ensures header { IsIpv4Layout result.1 view.now.slice.now }
{
    (view.is_fragmenting_payload(), view.to_header())
}

/// The time to live, beside the header.
pub fn ttl(view: &Ipv4HeaderSlice) -> (u8, Ipv4Header)
    ensures field { result.0 ≡ result.1.time_to_live }
    ensures header { IsIpv4Layout result.1 view.now.slice.now }
{
    (view.ttl(), view.to_header())
}

/// The protocol of what follows, beside the header.
pub fn protocol(view: &Ipv4HeaderSlice) -> (IpNumber, Ipv4Header)
    ensures field { result.0 ≡ result.1.protocol }
    ensures header { IsIpv4Layout result.1 view.now.slice.now }
{
    (view.protocol(), view.to_header())
}

/// The checksum that the header has, beside the header.
pub fn header_checksum(view: &Ipv4HeaderSlice) -> (u16, Ipv4Header)
    ensures field { result.0 ≡ result.1.header_checksum }
    ensures header { IsIpv4Layout result.1 view.now.slice.now }
{
    (view.header_checksum(), view.to_header())
}

/// The source address, beside the header.
pub fn source(view: &Ipv4HeaderSlice) -> ([u8; 4], Ipv4Header)
    ensures field { result.0 ≡ result.1.source }
    ensures header { IsIpv4Layout result.1 view.now.slice.now }
{
    (view.source(), view.to_header())
}

/// The destination address, beside the header.
pub fn destination(view: &Ipv4HeaderSlice) -> ([u8; 4], Ipv4Header)
    ensures field { result.0 ≡ result.1.destination }
    ensures header { IsIpv4Layout result.1 view.now.slice.now }
{
    (view.destination(), view.to_header())
}

/// The options, as bytes of the packet, beside the header.
pub fn options<'a>(view: &Ipv4HeaderSlice<'a>) -> (&'a [u8], Ipv4Header)
    ensures field { result.0.now ≡ result.1.options }
    ensures header { IsIpv4Layout result.1 view.now.slice.now }
{
    (view.options(), view.to_header())
}

/// The headers of two views. They are the same if the bytes are.
pub fn headers(view: &Ipv4HeaderSlice, other: &Ipv4HeaderSlice) -> (Ipv4Header, Ipv4Header)
    ensures same { view.now.slice.now ≡ other.now.slice.now → result.0 ≡ result.1 }
    ensures first { IsIpv4Layout result.0 view.now.slice.now }
    ensures second { IsIpv4Layout result.1 other.now.slice.now }
{
    (view.to_header(), other.to_header())
}

/// The time to live of a view that was made elsewhere: its byte 8.
pub fn ttl_by_byte(view: &Ipv4HeaderSlice) -> u8
    ensures byte { result ≡ slice_index view.now.slice.now 8 }
{
    view.ttl()
}

/// The length in bytes of a view that was made elsewhere, by its IHL.
pub fn len_by_ihl(view: &Ipv4HeaderSlice) -> usize
    ensures len { result ≡ length view.now.slice.now }
{
    4 * usize::from(view.ihl())
}
