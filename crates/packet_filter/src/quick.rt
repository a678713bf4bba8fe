//! Tests in which all that the packet does not say is computed before.

ghost use Rattle.std.specs.Prelude.{◌≡◌, ◌/◌, ◌%◌, ◌^◌, ◌≤◌, ◌↔◌, ◌⊎◌, IfSome, IsSomeAnd, IsTrue};
ghost use Rattle.std.specs.Int.{from_be_bytes, w32};
ghost use Rattle.packet_filter.specs.Meaning.{arp_address, destination_address, source_address};
ghost use Rattle.packet_filter.specs.Private.Quick.{Asks, HasFront, HasFrontInIpv4, IsNumber};
ghost use Rattle.packet_filter.specs.Private.Quick.{byte_test, quick_of};
ghost use Rattle.packet_filter.specs.Private.Quick.{quick_of_step};
ghost use Rattle.packet_filter.specs.declared.expression.Quantity.TheVariants.{Load};
ghost use Rattle.packet_filter.specs.declared.expression.Size.TheVariants.{One};
ghost use Rattle.packet_filter.specs.declared.filter.Step.{Step as AnyStep};

use crate::address::{Address, has_masked_address, is_arp_of_ipv4};
use crate::expression::{
    Direction, Layer, Primitive, Quantity, Relation, Size, Transport, Version,
};
use crate::filter::Step;
use crate::holds::{has_ports, has_proto, has_version, is_ip};
use crate::number::{compares, tells};
use etherparse::IpNumber;
use packet::lax_sliced_packet::LaxSlicedPacket;
use packet::sliced_packet::SlicedPacket;
use packet_parts::ip_slice::IpHeaderSlice;

/// What a step asks of a packet.
#[derive(Clone, Copy, Default)]
pub(crate) enum Quick {
    /// It is an IP packet of this version.
    Version(Version),
    /// The payload of the IP packet has this number.
    Proto(u8),
    /// One of the ports of this transport protocol or any is within a range.
    Ports(Option<Transport>, u16, u16),
    /// The IPv4 address of the sender, without so many of its last bits, is this number.
    Source(u8, u32),
    /// That of the receiver is.
    Destination(u8, u32),
    /// One of them is.
    Host(u8, u32),
    /// The IPv4 addresses at these ends have the bits of this one where the mask has one.
    Masked(Option<Direction>, u32, u32),
    /// The length of the frame is in this relation to a number.
    Length(Relation, u32),
    /// The bits that a mask has of the byte at a place of an IP packet of this version are.
    IpByte(Version, u8, Option<u8>, Relation, u8),
    /// Those of the byte at a place of what IP, of this version or any, carries by this number are.
    PayloadByte(Option<Version>, u8, u8, Option<u8>, Relation, u8),
    /// Anything else: see the step.
    #[default]
    Other,
}

/// The test that a step is.
pub(crate) fn quick_of_step(step: &Step) -> Quick
    ensures value { result ≡ quick_of_step step.now }
{
    match step {
        Step::Test(primitive) => quick_of(primitive),
        Step::Not | Step::Operator(_) => Quick::Other,
    }
}

// The test that a primitive is.
#[tactic(auto, unfolding(crate::specs::Private::Quick::quick_of))]
fn quick_of(primitive: &Primitive) -> Quick
    ensures value { result ≡ quick_of primitive.now }
{
    match primitive {
        Primitive::Version(version) => Quick::Version(*version),
        Primitive::Proto(None, number) => Quick::Proto(*number),
        Primitive::Ports(transport, None, low, high) => Quick::Ports(*transport, *low, *high),
        Primitive::Net(None, direction, Address::V4(address), bits) => {
            let others = 32u8.saturating_sub(*bits);
            let front = front_of(*address, others);
            match direction {
                None => Quick::Host(others, front),
                Some(Direction::Source) => Quick::Source(others, front),
                Some(Direction::Destination) => Quick::Destination(others, front),
                Some(Direction::Either | Direction::Both) => Quick::Other,
            }
        }
        Primitive::Masked(None, direction, address, mask) => {
            Quick::Masked(*direction, *address, *mask)
        }
        Primitive::Compare(Quantity::Length, None, relation, limit) => {
            Quick::Length(*relation, *limit)
        }
        Primitive::Compare(Quantity::Load(layer, place, Size::One), mask, relation, limit) => {
            byte_test(*layer, *place, *mask, *relation, *limit)
        }
        _ => Quick::Other,
    }
}

// The test of a byte of a layer, if all its numbers are bytes: a test is then no larger than others.
fn byte_test(layer: Layer, place: u32, mask: Option<u32>, relation: Relation, limit: u32) -> Quick
    ensures value { result ≡ byte_test layer place mask relation limit }
{
    let mask = match mask {
        None => None,
        Some(mask) if mask < 256 => Some(mask as u8),
        Some(_) => return Quick::Other,
    };
    if place >= 256 || limit >= 256 {
        return Quick::Other;
    }
    let (place, limit) = (place as u8, limit as u8);
    match layer {
        Layer::Ip(version) => Quick::IpByte(version, place, mask, relation, limit),
        Layer::Payload(version, number) => {
            Quick::PayloadByte(version, number, place, mask, relation, limit)
        }
        Layer::Ether | Layer::Type(_) => Quick::Other,
    }
}

// An IPv4 address without so many of its last bits, as a number.
#[inline(always)]
fn front_of(address: u32, others: u8) -> u32
    requires few { others ≤ 32 }
    ensures value { result ≡ address / 2 ^ others }
{
    (u64::from(address) >> others) as u32
}

// Whether the bits that a mask has of the byte at a place of a layer are in a relation to a number.
#[inline(always)]
fn has_byte(
    layer: Layer,
    place: u8,
    mask: Option<u8>,
    relation: Relation,
    limit: u8,
    packet: &SlicedPacket,
    len: usize,
) -> bool
    ensures value { IsTrue result ↔
        IsNumber (Load layer place One) mask relation limit packet.now len }
{
    let byte = Quantity::Load(layer, u32::from(place), Size::One);
    let mask = match mask {
        Some(mask) => Some(u32::from(mask)),
        None => None,
    };
    tells(byte, mask, relation, u32::from(limit), packet, len)
}

impl Quick {
    /// Whether a packet is what it asks for, or else what the step asks for.
    #[inline(always)]
    pub(crate) fn holds(&self, step: &Step, lax: &LaxSlicedPacket, len: usize) -> bool
        ensures value { IsTrue result ↔ Asks self.now step.now lax.now len }
    {
        let packet = &lax.packet;
        match *self {
            Quick::Version(version) => is_ip(version, packet),
            Quick::Proto(number) => has_proto(None, IpNumber(number), packet),
            Quick::Ports(transport, low, high) => match &packet.net {
                Some(ip) => has_ports(transport, None, low, high, ip),
                None => false,
            },
            Quick::Source(others, front) => has_source(others, front, packet),
            Quick::Destination(others, front) => has_destination(others, front, packet),
            Quick::Host(others, front) => has_either(others, front, packet),
            Quick::Masked(direction, address, mask) => {
                has_masked_address(direction, address, mask, packet)
            }
            Quick::Length(relation, limit) => compares(relation, len, limit as usize),
            Quick::IpByte(version, place, mask, relation, limit) => {
                has_byte(
                    Layer::Ip(version),
                    place,
                    mask,
                    relation,
                    limit,
                    packet,
                    len,
                )
            }
            Quick::PayloadByte(version, number, place, mask, relation, limit) => {
                let layer = Layer::Payload(version, number);
                has_byte(layer, place, mask, relation, limit, packet, len)
            }
            Quick::Other => other_holds(step, lax, len),
        }
    }

    /// The same of what it asks for itself; `None` if the step has to be asked.
    #[inline(always)]
    pub(crate) fn holds_by_itself(&self, lax: &LaxSlicedPacket, len: usize) -> Option<bool>
        ensures value { (step : AnyStep) →
            IfSome result (λ holds. IsTrue holds ↔ Asks self.now step lax.now len) }
    {
        match *self {
            Quick::Other => None,
            _ => Some(self.holds(&Step::Not, lax, len)), // The step is not asked.
        }
    }
}

// Whether a packet is what a step asks for.
#[inline(never)]
fn other_holds(step: &Step, lax: &LaxSlicedPacket, len: usize) -> bool
    ensures value { IsTrue result ↔ Asks Quick.Other step.now lax.now len }
{
    match step {
        Step::Test(primitive) => primitive.holds(lax, len),
        Step::Not | Step::Operator(_) => false,
    }
}

// Whether the IPv4 address of the sender, without so many of its last bits, is this number.
#[inline(always)]
fn has_source(others: u8, front: u32, packet: &SlicedPacket) -> bool
    ensures value { IsTrue result ↔
        IsSomeAnd (source_address packet.now) (HasFront others front) }
{
    match &packet.net {
        Some(ip) => has_front_in_ipv4(others, front, 12, &ip.header),
        None => has_front_in_arp(others, front, 14, packet),
    }
}

// The same of the receiver.
#[inline(always)]
fn has_destination(others: u8, front: u32, packet: &SlicedPacket) -> bool
    ensures value { IsTrue result ↔
        IsSomeAnd (destination_address packet.now) (HasFront others front) }
{
    match &packet.net {
        Some(ip) => has_front_in_ipv4(others, front, 16, &ip.header),
        None => has_front_in_arp(others, front, 24, packet),
    }
}

// Whether a header is of IPv4, and the address at a place in it is this number, likewise. A header of
// IPv6 has bytes there too, so that no branch depends on the version.
#[inline(always)]
fn has_front_in_ipv4(others: u8, front: u32, place: usize, header: &IpHeaderSlice) -> bool
    requires place { (place ≡ 12) ⊎ (place ≡ 16) }
    ensures value { IsTrue result ↔ HasFrontInIpv4 others front place header.now }
{
    let bytes = header.slice();
    let found = *bytes[place..place + 4].first_chunk::<4>().unwrap();
    has_version(Version::Ipv4, header) & is_front(others, front, found)
}

// The same of one of them.
#[inline(always)]
fn has_either(others: u8, front: u32, packet: &SlicedPacket) -> bool
    ensures value { IsTrue result ↔ IsSomeAnd (source_address packet.now) (HasFront others front)
        ⊎ IsSomeAnd (destination_address packet.now) (HasFront others front) }
{
    has_source(others, front, packet) | has_destination(others, front, packet)
}

// The same of an address at a place in an ARP packet.
#[inline(never)]
fn has_front_in_arp(others: u8, front: u32, place: usize, packet: &SlicedPacket) -> bool
    requires small { place ≤ 24 }
    ensures value { IsTrue result ↔
        IsSomeAnd (arp_address place packet.now) (HasFront others front) }
{
    let payload = packet.payload;
    if !is_arp_of_ipv4(packet.ether_type, payload) || payload.len() < place + 4 {
        return false;
    }
    let found = [
        payload[place],
        payload[place + 1],
        payload[place + 2],
        payload[place + 3],
    ];
    is_front(others, front, found)
}

// Whether an IPv4 address without so many of its last bits is this number.
#[inline(always)]
fn is_front(others: u8, front: u32, found: [u8; 4]) -> bool
    ensures value { IsTrue result ↔ (from_be_bytes w32 found / 2 ^ (others % 64) ≡ front) }
{
    u64::from(u32::from_be_bytes(found)) >> (others % 64) == u64::from(front)
}
