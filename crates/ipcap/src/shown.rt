//! What is shown of a packet.

ghost use Rattle.std.specs.Prelude.{◌≡◌, ◌≢◌, ◌↔◌, IsTrue};
ghost use Rattle.ipcap.specs.Shown.{IsDetail, IsHeaderDetail, IsHeaderVerdict, Shows};
ghost use Rattle.ipcap.specs.Shown.{has_no_length, has_whole_payload, hops_of, len_of};
ghost use Rattle.packet_parts.specs.IpSlice.{HasWholeHeaders};

use etherparse::checksum::u64_16bit_word;
use etherparse::{IpNumber, Ipv6Header};
use etherparse_transport::{TcpHeaderSlice, UdpHeader};
use packet_parts::checksum::Verdict;
use packet_parts::ip_slice::{IpHeaderSlice, IpSlice, LaxIpSlice};

/// What is shown of the header that a payload begins with.
#[derive(Clone, Copy)]
pub enum Detail {
    /// The ports of UDP and TCP: source and destination.
    Ports(u16, u16),
    /// Type and code of ICMP and ICMPv6.
    Message(u8, u8),
    /// Another protocol, or too few bytes.
    Nothing,
}

/// A packet that is shown.
#[derive(Drop)]
pub struct Shown<'a> {
    /// Its parts, as far as they are there.
    pub lax: LaxIpSlice<'a>,
    /// What the header that its payload begins with says.
    pub detail: Detail,
    /// Whether the checksum of an IPv4 header is right; `None` for IPv6, which has none.
    pub is_header_right: Option<bool>,
    /// The verdict on the checksum of UDP, TCP, ICMP or ICMPv6.
    pub verdict: Verdict,
}

/// What is shown of a packet in these parts.
#[inline(always)] // The caller makes a larger value of it, in place.
pub fn shown_of(lax: LaxIpSlice) -> Shown
    ensures lax { result.lax ≡ lax.entry }
    ensures shows { Shows result }
{
    let detail = detail_of(has_whole_payload(&lax), &lax.slice);
    let is_header_right = is_header_right(&lax.slice.header);
    let verdict = lax.verdict();
    Shown {
        lax,
        detail,
        is_header_right,
        verdict,
    }
}

// Whether the payload is there whole, and goes on in no other fragment.
fn has_whole_payload(lax: &LaxIpSlice) -> bool
    ensures value { result ≡ has_whole_payload lax.now }
{
    lax.stop.is_none() && lax.slice.fragment.is_none()
}

/// The time to live or the hop limit.
pub fn hops_of(slice: &IpSlice) -> u8
    ensures value { result ≡ hops_of slice.now }
{
    match &slice.header {
        IpHeaderSlice::Ipv4(view) => view.ttl(),
        IpHeaderSlice::Ipv6(view) => view.hop_limit(),
    }
}

/// How long the payload is, in bytes: after any extension headers, by the length field, or if that
/// says nothing by what there is. If the packet ends within an extension header, that header counts
/// too, and all that follows it.
pub fn len_of(slice: &IpSlice) -> usize
    ensures value { result ≡ len_of slice.now }
{
    let packet_len = slice.header.packet_len();
    if packet_len == 0 {
        slice.payload.len()
    } else {
        packet_len.saturating_sub(slice.header_len())
    }
}

/// Whether the length field is 0, and says nothing.
pub fn has_no_length(slice: &IpSlice) -> bool
    ensures value { result ≡ has_no_length slice.now }
{
    slice.header.packet_len() == 0
}

/// Whether what there is of the packet ends within no extension header.
pub fn has_whole_headers(slice: &IpSlice) -> bool
    ensures value { IsTrue result ↔ HasWholeHeaders slice.now.header slice.now }
{
    match slice.header {
        IpHeaderSlice::Ipv4(_) => true,
        IpHeaderSlice::Ipv6(_) => {
            slice.is_later_fragment || !Ipv6Header::is_skippable_header_extension(slice.upper)
        }
    }
}

// What is shown of the header that the payload begins with, which goes on elsewhere if it is not
// whole: in another fragment, or beyond what was captured.
fn detail_of(is_whole: bool, slice: &IpSlice) -> Detail
    ensures shows { IsDetail is_whole slice.now result }
{
    if slice.is_later_fragment {
        return Detail::Nothing;
    }
    let icmp = match slice.header {
        IpHeaderSlice::Ipv4(_) => IpNumber::ICMP,
        IpHeaderSlice::Ipv6(_) => IpNumber::IPV6_ICMP,
    };
    header_detail(is_whole, icmp, slice.upper, slice.payload)
}

// What is shown of the header that a payload of this number begins with.
fn header_detail(is_whole: bool, icmp: IpNumber, number: IpNumber, payload: &[u8]) -> Detail
    requires other { (icmp ≢ 17) × (icmp ≢ 6) }
    ensures shows { IsHeaderDetail is_whole icmp number payload.now result }
{
    let len = payload.len();
    let (udp_len, tcp_len, icmp_len) = if is_whole {
        (UdpHeader::LEN, TcpHeaderSlice::MIN_LEN, 4)
    } else {
        (4, 4, 2)
    };
    if number == IpNumber::UDP && len >= udp_len || number == IpNumber::TCP && len >= tcp_len {
        return Detail::Ports(
            u16::from_be_bytes([payload[0], payload[1]]),
            u16::from_be_bytes([payload[2], payload[3]]),
        );
    }
    if number == icmp && len >= icmp_len {
        return Detail::Message(payload[0], payload[1]);
    }
    Detail::Nothing
}

// Whether the checksum of an IPv4 header is right.
fn is_header_right(header: &IpHeaderSlice) -> Option<bool>
    ensures value { IsHeaderVerdict header.now result }
{
    match header {
        IpHeaderSlice::Ipv4(view) => Some(u64_16bit_word::checksum(0, view.slice()) == 0),
        IpHeaderSlice::Ipv6(_) => None,
    }
}
