//! Addresses as numbers, and those that a packet has.

ghost use Rattle.std.specs.Prelude.{◌≡◌, ◌-◌, ◌+◌, ◌/◌, ◌^◌, ◌≤◌, ◌↔◌, IsTrue, IsSomeAnd, length};
ghost use Rattle.std.specs.Prelude.{[], ◌∷◌, take};
ghost use Rattle.std.specs.Int.{from_be_bytes, w32, w128};
ghost use Rattle.std.specs.Str.{bytes_eq};
ghost use Rattle.packet_filter.specs.Meaning.{IsWithin, IsWithinMask, OfEnds, arp_address};
ghost use Rattle.packet_filter.specs.Meaning.{destination_address, ip_destination, ip_source};
ghost use Rattle.packet_filter.specs.Meaning.{is_arp_of_ipv4, source_address};
ghost use Rattle.packet_filter.specs.declared.address.Address.TheVariants.{V4, V6};

use crate::expression::Direction;
use crate::holds::of_ends;
use etherparse_link::EtherType;
use packet::sliced_packet::SlicedPacket;
use packet_parts::ip_slice::IpHeaderSlice;

/// An address of either version, as the number that its octets make, the first the highest.
#[derive(Clone, Copy, Debug)]
pub(crate) enum Address {
    /// An IPv4 address.
    V4(u32),
    /// An IPv6 address.
    V6(u128),
}

// Whether the addresses of a packet at these ends begin with so many bits of this one.
#[inline(always)]
pub(crate) fn has_address(
    direction: Option<Direction>,
    address: &Address,
    bits: u8,
    packet: &SlicedPacket,
) -> bool
    ensures value { IsTrue result ↔ OfEnds direction (source_address packet.now)
        (destination_address packet.now) (λ found. IsSomeAnd found (IsWithin address.now bits)) }
{
    match &packet.net {
        Some(ip) => has_ip_address(direction, address, bits, &ip.header),
        None => has_arp_address(direction, address, bits, packet),
    }
}

// The same of the addresses in the header of an IP packet.
#[inline(always)]
fn has_ip_address(
    direction: Option<Direction>,
    address: &Address,
    bits: u8,
    header: &IpHeaderSlice,
) -> bool
    ensures value { IsTrue result ↔ OfEnds direction (ip_source header.now)
        (ip_destination header.now) (IsWithin address.now bits) }
{
    match (header, address) {
        (IpHeaderSlice::Ipv4(view), Address::V4(address)) => {
            let source = is_within_ipv4(*address, bits, view.source());
            of_ends(
                direction,
                source,
                is_within_ipv4(*address, bits, view.destination()),
            )
        }
        (IpHeaderSlice::Ipv6(view), Address::V6(address)) => {
            let source = is_within_ipv6(*address, bits, view.source());
            of_ends(
                direction,
                source,
                is_within_ipv6(*address, bits, view.destination()),
            )
        }
        (IpHeaderSlice::Ipv4(_), Address::V6(_)) | (IpHeaderSlice::Ipv6(_), Address::V4(_)) => {
            false
        }
    }
}

// The same of the addresses in an ARP packet.
#[inline(never)]
fn has_arp_address(
    direction: Option<Direction>,
    address: &Address,
    bits: u8,
    packet: &SlicedPacket,
) -> bool
    ensures value { IsTrue result ↔ OfEnds direction (arp_address 14 packet.now)
        (arp_address 24 packet.now) (λ found. IsSomeAnd found (IsWithin address.now bits)) }
{
    let source = is_arp_address(address, bits, 14, packet);
    of_ends(direction, source, is_arp_address(address, bits, 24, packet))
}

// Whether there is an address at a place in an ARP packet, which begins with so many bits of this.
fn is_arp_address(address: &Address, bits: u8, place: usize, packet: &SlicedPacket) -> bool
    requires small { place ≤ 24 }
    ensures value { IsTrue result ↔
        IsSomeAnd (arp_address place packet.now) (IsWithin address.now bits) }
{
    let payload = packet.payload;
    if !is_arp_of_ipv4(packet.ether_type, payload) || payload.len() < place + 4 {
        return false;
    }
    match address {
        Address::V4(address) => {
            let found = [
                payload[place],
                payload[place + 1],
                payload[place + 2],
                payload[place + 3],
            ];
            is_within_ipv4(*address, bits, found)
        }
        Address::V6(_) => false,
    }
}

// Whether the addresses of a packet at these ends are of IPv4, and have the bits of this one where
// the mask has one.
#[inline(always)]
pub(crate) fn has_masked_address(
    direction: Option<Direction>,
    address: u32,
    mask: u32,
    packet: &SlicedPacket,
) -> bool
    ensures value { IsTrue result ↔ OfEnds direction (source_address packet.now)
        (destination_address packet.now)
        (λ found. IsSomeAnd found (IsWithinMask address mask)) }
{
    match &packet.net {
        Some(ip) => match &ip.header {
            IpHeaderSlice::Ipv4(view) => {
                let source = is_within_mask(address, mask, view.source());
                of_ends(
                    direction,
                    source,
                    is_within_mask(address, mask, view.destination()),
                )
            }
            IpHeaderSlice::Ipv6(_) => false,
        },
        None => has_masked_arp_address(direction, address, mask, packet),
    }
}

// The same of the addresses in an ARP packet.
#[inline(never)]
fn has_masked_arp_address(
    direction: Option<Direction>,
    address: u32,
    mask: u32,
    packet: &SlicedPacket,
) -> bool
    ensures value { IsTrue result ↔ OfEnds direction (arp_address 14 packet.now)
        (arp_address 24 packet.now) (λ found. IsSomeAnd found (IsWithinMask address mask)) }
{
    let source = is_masked_arp_address(address, mask, 14, packet);
    of_ends(
        direction,
        source,
        is_masked_arp_address(address, mask, 24, packet),
    )
}

// Whether there is such an address at a place in an ARP packet.
fn is_masked_arp_address(address: u32, mask: u32, place: usize, packet: &SlicedPacket) -> bool
    requires small { place ≤ 24 }
    ensures value { IsTrue result ↔
        IsSomeAnd (arp_address place packet.now) (IsWithinMask address mask) }
{
    let payload = packet.payload;
    if !is_arp_of_ipv4(packet.ether_type, payload) || payload.len() < place + 4 {
        return false;
    }
    let found = [
        payload[place],
        payload[place + 1],
        payload[place + 2],
        payload[place + 3],
    ];
    is_within_mask(address, mask, found)
}

// Whether an IPv4 address has the bits of this one where the mask has one.
#[inline(always)]
fn is_within_mask(address: u32, mask: u32, found: [u8; 4]) -> bool
    ensures value { IsTrue result ↔
        IsWithinMask address mask (V4 (from_be_bytes w32 found)) }
{
    address & mask == u32::from_be_bytes(found) & mask
}

// Whether these bytes begin as an ARP packet for Ethernet and IPv4.
pub(crate) fn is_arp_of_ipv4(ether_type: Option<EtherType>, payload: &[u8]) -> bool
    ensures value { result ≡ is_arp_of_ipv4 ether_type payload.now }
{
    match ether_type {
        Some(ether_type) => matches!(ether_type.0, 0x0806 | 0x8035) && begins_as_arp(payload),
        None => false,
    }
}

// Whether bytes begin with the first six of an ARP packet for Ethernet and IPv4.
fn begins_as_arp(payload: &[u8]) -> bool
    ensures value { result ≡ bytes_eq (take 6 payload.now) (0 ∷ 1 ∷ 8 ∷ 0 ∷ 6 ∷ 4 ∷ []) }
{
    payload.len() >= 6 && payload[..6] == [0, 1, 8, 0, 6, 4]
}

// Whether an IPv4 address begins with so many bits of this one.
#[inline(always)]
fn is_within_ipv4(address: u32, bits: u8, found: [u8; 4]) -> bool
    ensures value { IsTrue result ↔ IsWithin (V4 address) bits (V4 (from_be_bytes w32 found)) }
{
    let others = 32u32.saturating_sub(u32::from(bits));
    u64::from(address) >> others == u64::from(u32::from_be_bytes(found)) >> others
}

// Whether an IPv6 address begins with so many bits of this one.
#[inline(always)]
fn is_within_ipv6(address: u128, bits: u8, found: [u8; 16]) -> bool
    ensures value { IsTrue result ↔ IsWithin (V6 address) bits (V6 (from_be_bytes w128 found)) }
{
    ipv6_front(address, bits) == ipv6_front(u128::from_be_bytes(found), bits)
}

// The first bits of an IPv6 address, as a number.
#[inline(always)]
fn ipv6_front(address: u128, bits: u8) -> u128
    ensures value { result ≡ address / 2 ^ (128 - bits) }
{
    if bits == 0 {
        0
    } else if bits < 128 {
        address >> (128 - bits)
    } else {
        address
    }
}
