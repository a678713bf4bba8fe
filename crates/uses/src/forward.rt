//! A forwarder: headers that are read, changed and written.

ghost use Rattle.std.specs.Prelude.{ℕ, ◌≡◌, ◌+◌, ◌*◌, ◌/◌, ◌^◌, List, ◌++◌, length};
ghost use Rattle.std.specs.Prelude.{IfErr, IfNone, IfOk, IfSome, OnErr, OnOk};
ghost use Rattle.std.specs.Bool.{OnFalse, OnTrue};
ghost use Rattle.etherparse.specs.IpEcn.{ecn_value};
ghost use Rattle.etherparse.specs.Ipv4Header.{IsIpv4Layout, RefusesIpv4};
ghost use Rattle.etherparse.specs.Ipv4Header.{with_reserved_bit_cleared};
ghost use Rattle.etherparse.specs.Ipv6Header.{IsIpv6Layout, RefusesIpv6};
ghost use Rattle.etherparse.specs.Reading.{BeginsWith};
ghost use Rattle.etherparse.specs.declared.net.ipv4_header.Ipv4Header.{Ipv4Header as Header4};
ghost use Rattle.etherparse.specs.declared.net.ipv6_header.Ipv6Header.{Ipv6Header as Header6};
ghost use Rattle.uses.specs.Forward.{IsForwardedInPlace, IsForwardedIpv4, IsMarkedInPlace};
ghost use Rattle.uses.specs.Forward.{IsLastIpv4Hop, IsLastIpv6Hop, IsNextIpv4Hop, IsNextIpv6Hop};

use arrayvec::ArrayVec;
use etherparse::err::{ipv4, ipv6};
use etherparse::{IpDscp, IpEcn, Ipv4Header, Ipv6Header};

/// The header of an IPv4 packet with one hop less to go, or `None` if it may go no further. The
/// checksum is still the one that was read: it has to be computed anew before the header is sent,
/// or updated as [`ipv4_forwarded`] does.
pub fn ipv4_next_hop(packet: &[u8]) -> Result<Option<ArrayVec<u8, 60>>, ipv4::HeaderSliceError>
    ensures next { IfOk result (λ sent. IfSome sent (λ bytes.
        IsNextIpv4Hop packet.now bytes.items)) }
    ensures last { IfOk result (λ sent. IfNone sent (IsLastIpv4Hop packet.now)) }
    ensures refused { IfErr result (RefusesIpv4 packet.now) }
{
    let (mut header, _) = Ipv4Header::from_slice(packet)?;
    if header.time_to_live <= 1 {
        return Ok(None);
    }
    header.time_to_live -= 1;
    Ok(Some(header.to_bytes()))
}

/// An IPv4 packet with one hop less to go: the bytes of its header, written again with the checksum
/// updated, and what follows it; `None` if it may go no further. What is written has the reserved
/// bit 0, so the checksum is right exactly when it was for the header with that bit cleared.
pub fn ipv4_forwarded(
    packet: &[u8],
) -> Result<Option<(ArrayVec<u8, 60>, &[u8])>, ipv4::HeaderSliceError>
    ensures next { IfOk result (λ sent. IfSome sent (λ x.
        IsForwardedIpv4 packet.now x.0.items x.1.now)) }
    ensures last { IfOk result (λ sent. IfNone sent (IsLastIpv4Hop packet.now)) }
    ensures refused { IfErr result (RefusesIpv4 packet.now) }
{
    let (mut header, rest) = Ipv4Header::from_slice(packet)?;
    if !header.lower_time_to_live() {
        return Ok(None);
    }
    Ok(Some((header.to_bytes(), rest)))
}

/// Takes one hop from an IPv4 packet in place, in bytes 8, 10 and 11 alone; `false` if it may go no
/// further. The reserved bit stays, so the checksum is right exactly when it was before. A packet
/// that goes no further is unchanged.
pub fn ipv4_forward_in_place(packet: &mut [u8]) -> Result<bool, ipv4::HeaderSliceError>
    ensures next { IfOk result (λ goes_on.
        OnTrue goes_on (IsForwardedInPlace packet.old packet.new)) }
    ensures last { IfOk result (λ goes_on. OnFalse goes_on (IsLastIpv4Hop packet.old)) }
    ensures kept { IfOk result (λ goes_on. OnFalse goes_on (packet.new ≡ packet.old)) }
    ensures refused { IfErr result (RefusesIpv4 packet.old) }
    ensures unchanged { OnErr result (packet.new ≡ packet.old) }
{
    let (mut header, _) = Ipv4Header::from_slice(packet)?;
    if !header.lower_time_to_live() {
        return Ok(false);
    }
    let [high, low] = header.header_checksum.to_be_bytes();
    packet[8] = header.time_to_live;
    packet[10] = high;
    packet[11] = low;
    Ok(true)
}

/// Gives an IPv4 packet another code point in place, in bytes 1, 10 and 11 alone, as a router does
/// at the edge of a network (RFC 2474 section 6). The reserved bit stays, so the checksum is right
/// exactly when it was before.
pub fn ipv4_mark_in_place(packet: &mut [u8], dscp: IpDscp) -> Result<(), ipv4::HeaderSliceError>
    ensures marked { OnOk result (IsMarkedInPlace dscp packet.old packet.new) }
    ensures refused { IfErr result (RefusesIpv4 packet.old) }
    ensures unchanged { OnErr result (packet.new ≡ packet.old) }
{
    let (mut header, _) = Ipv4Header::from_slice(packet)?;
    header.set_dscp(dscp);
    let [high, low] = header.header_checksum.to_be_bytes();
    packet[1] = differentiated_services_byte(&header);
    packet[10] = high;
    packet[11] = low;
    Ok(())
}

// The second byte of a header: its code point and its congestion notification.
fn differentiated_services_byte(header: &Ipv4Header) -> u8
    ensures value { result ≡ header.now.dscp * 2 ^ 2 + ecn_value header.now.ecn }
{
    (header.dscp.value() << 2) + header.ecn.value()
}

/// The header of an IPv6 packet with one hop less to go, or `None` if it may go no further.
pub fn ipv6_next_hop(packet: &[u8]) -> Result<Option<[u8; 40]>, ipv6::HeaderSliceError>
    ensures next { IfOk result (λ sent. IfSome sent (IsNextIpv6Hop packet.now)) }
    ensures last { IfOk result (λ sent. IfNone sent (IsLastIpv6Hop packet.now)) }
    ensures refused { IfErr result (RefusesIpv6 packet.now) }
{
    let (mut header, _) = Ipv6Header::from_slice(packet)?;
    if header.hop_limit <= 1 {
        return Ok(None);
    }
    header.hop_limit -= 1;
    Ok(Some(header.to_bytes()))
}

/// The bytes of an IPv4 header that was read and is written again, and what follows it.
pub fn ipv4_rewritten(packet: &[u8]) -> Result<(ArrayVec<u8, 60>, &[u8]), ipv4::HeaderSliceError>
    ensures rest { IfOk result (λ x. (header : Header4) ×
        BeginsWith IsIpv4Layout packet.now header x.1.now) }
    ensures cleared { IfOk result (λ x. (front : List ℕ) → packet.now ≡ front ++ x.1.now →
        x.0.items ≡ with_reserved_bit_cleared front) }
    ensures refused { IfErr result (RefusesIpv4 packet.now) }
{
    let (header, rest) = Ipv4Header::read_from_slice(packet)?;
    Ok((header.to_bytes(), rest))
}

/// The bytes of an IPv6 header that was read and is written again, and what follows it; together
/// they are the packet.
pub fn ipv6_rewritten(packet: &[u8]) -> Result<([u8; 40], &[u8]), ipv6::HeaderSliceError>
    ensures rest { IfOk result (λ x. (header : Header6) ×
        BeginsWith IsIpv6Layout packet.now header x.1.now) }
    ensures whole { IfOk result (λ x. packet.now ≡ x.0 ++ x.1.now) }
    ensures refused { IfErr result (RefusesIpv6 packet.now) }
{
    let (header, rest) = Ipv6Header::from_slice(packet)?;
    Ok((header.to_bytes(), rest))
}

/// Lets an IPv4 header announce a payload of 100 bytes. There is room for them, whatever its
/// options, which stay the same.
pub fn announce_hundred_bytes(header: &mut Ipv4Header)
    ensures set { header.new ≡ record header.old {
      total_len = 120 + length header.old.options;
    } }
{
    header.set_payload_len(100).unwrap();
}

/// Marks that an IPv6 packet met congestion, and returns its class, which stays the same. The
/// caller has to test first that the sender is capable of it, so that the ECN was not `NotEct` (RFC
/// 3168 section 5).
pub fn mark_congestion(header: &mut Ipv6Header) -> IpDscp
    ensures class { result ≡ header.old.traffic_class / 2 ^ 2 }
    ensures set { header.new ≡ record header.old {
      traffic_class = result * 2 ^ 2 + 3;
    } }
{
    header.set_ecn(IpEcn::CongestionExperienced);
    header.dscp()
}
