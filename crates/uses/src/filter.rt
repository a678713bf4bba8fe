//! A packet filter: what a packet is, by its bytes.

ghost use Rattle.std.specs.Prelude.{ℕ, ◌≡◌, ◌<◌, ◌≤◌, ◌↔◌, List, IfErr, IfNone, IfOk, IfSome};
ghost use Rattle.std.specs.Prelude.{IsFalse, IsTrue};
ghost use Rattle.etherparse.specs.Ipv4Header.{IsIpv4Layout, OfIpv4Header, RefusesIpv4};
ghost use Rattle.etherparse.specs.Ipv6Header.{IsIpv6Layout, OfIpv6Header, RefusesIpv6};
ghost use Rattle.etherparse.specs.Reading.{BeginsWith};
ghost use Rattle.etherparse.specs.declared.err.ipv4.HeaderSliceError.{HeaderSliceError as Error4};
ghost use Rattle.etherparse.specs.declared.err.ipv6.HeaderSliceError.{HeaderSliceError as Error6};
ghost use Rattle.etherparse.specs.declared.net.ipv4_header.Ipv4Header.{Ipv4Header as Header4};
ghost use Rattle.etherparse.specs.declared.net.ipv6_header.Ipv6Header.{Ipv6Header as Header6};
ghost use Rattle.uses.specs.Filter.{HasNoUdpPort, HasUdpPort, IsIpv4For, IsIpv6For};
ghost use Rattle.uses.specs.Filter.{IsRefusedIpv6, StartsWithIpv6};

use etherparse::err::ipv4::HeaderSliceError;
use etherparse::err::ipv6;
use etherparse::{IpDscp, IpNumber, Ipv4Header, Ipv4HeaderSlice, Ipv6Header, Ipv6HeaderSlice};

/// The destination port of a UDP packet that is no fragment; `None` for another protocol, a
/// fragment, or fewer than 4 bytes of payload; the reader's error where there is no header.
pub fn udp_port(packet: &[u8]) -> Result<Option<u16>, HeaderSliceError>
    ensures found { IfOk result (λ found. IfSome found (HasUdpPort packet.now)) }
    ensures none { IfOk result (λ found. IfNone found (HasNoUdpPort packet.now)) }
    ensures refused { IfErr result (RefusesIpv4 packet.now) }
{
    let (header, rest) = Ipv4Header::from_slice(packet)?;
    if header.protocol != IpNumber::UDP || header.is_fragmenting_payload() {
        return Ok(None);
    }
    if rest.len() < 4 || usize::from(header.total_len) < header.header_len() + 4 {
        return Ok(None);
    }
    Ok(Some(u16::from_be_bytes([rest[2], rest[3]])))
}

/// Whether the IPv4 header of a view has this DSCP and destination.
pub fn is_ipv4_view_for(view: &Ipv4HeaderSlice, dscp: IpDscp, destination: [u8; 4]) -> bool
    ensures header { OfIpv4Header view.now.slice.now (λ header.
        IsTrue result ↔ IsIpv4For dscp destination header) }
{
    (view.dcp(), view.destination()) == (dscp, destination)
}

/// Whether a packet begins with an IPv4 header of this DSCP and destination.
pub fn is_ipv4_marked_for(packet: &[u8], dscp: IpDscp, destination: [u8; 4]) -> bool
    ensures header { (header : Header4) → (rest : List ℕ) →
        BeginsWith IsIpv4Layout packet.now header rest →
        (IsTrue result ↔ IsIpv4For dscp destination header) }
    ensures refused { (e : Error4) → RefusesIpv4 packet.now e → IsFalse result }
{
    Ipv4HeaderSlice::from_slice(packet).is_ok_and(|view| is_ipv4_view_for(&view, dscp, destination))
}

/// The hop limit of an IPv6 packet; `None` if it has no header.
pub fn hop_limit(packet: &[u8]) -> Option<u8>
    ensures found { IfSome result (λ limit. StartsWithIpv6 packet.now (λ header.
        header.hop_limit ≡ limit)) }
    ensures none { IfNone result (IsRefusedIpv6 packet.now) }
{
    let (header, _) = Ipv6Header::from_slice(packet).ok()?;
    Some(header.hop_limit)
}

/// The number of what follows the header of an IPv6 packet.
pub fn next_header(packet: &[u8]) -> Result<IpNumber, ipv6::HeaderSliceError>
    ensures found { IfOk result (λ number. StartsWithIpv6 packet.now (λ header.
        header.next_header ≡ number)) }
    ensures refused { IfErr result (RefusesIpv6 packet.now) }
{
    Ipv6Header::from_slice(packet).map(|(header, _)| header.next_header)
}

/// Whether a packet begins with an IPv6 header and may go further.
pub fn goes_on(packet: &[u8]) -> bool
    ensures yes { (header : Header6) → (rest : List ℕ) →
        BeginsWith IsIpv6Layout packet.now header rest → 1 < header.hop_limit → IsTrue result }
    ensures no { (header : Header6) → (rest : List ℕ) →
        BeginsWith IsIpv6Layout packet.now header rest → header.hop_limit ≤ 1 → IsFalse result }
    ensures no_header { IsTrue result → StartsWithIpv6 packet.now (λ header.
        1 < header.hop_limit) }
{
    Ipv6Header::from_slice(packet).is_ok_and(|(header, _)| header.hop_limit > 1)
}

/// Whether the IPv6 header of a view has this DSCP and destination.
pub fn is_ipv6_view_for(view: &Ipv6HeaderSlice, dscp: IpDscp, destination: [u8; 16]) -> bool
    ensures header { OfIpv6Header view.now.slice.now (λ header.
        IsTrue result ↔ IsIpv6For dscp destination header) }
{
    (view.dscp(), view.destination()) == (dscp, destination)
}

/// Whether a packet begins with an IPv6 header of this DSCP and destination.
pub fn is_ipv6_marked_for(packet: &[u8], dscp: IpDscp, destination: [u8; 16]) -> bool
    ensures header { (header : Header6) → (rest : List ℕ) →
        BeginsWith IsIpv6Layout packet.now header rest →
        (IsTrue result ↔ IsIpv6For dscp destination header) }
    ensures refused { (e : Error6) → RefusesIpv6 packet.now e → IsFalse result }
{
    Ipv6HeaderSlice::from_slice(packet).is_ok_and(|view| is_ipv6_view_for(&view, dscp, destination))
}
