//! Numbers that a packet tells.

ghost use Rattle.std.specs.Prelude.{ℕ, ◌≡◌, ◌<◌, ◌^◌, ◌↔◌, ◌++◌, IsTrue, List, Some, slice_get};
ghost use Rattle.std.specs.List.{concat};
ghost use Rattle.packet.specs.Vlan.{tags_of};
ghost use Rattle.packet_filter.specs.Meaning.{Compares, IsNumberAt, Loads, Tells, masked};

use crate::expression::{Layer, Quantity, Relation, Size};
use crate::holds::{has_proto, has_version};
use etherparse::IpNumber;
use etherparse_link::EtherType;
use packet::link::LinkSlice;
use packet::sliced_packet::SlicedPacket;
use packet::vlan::VlanSlice;
use std::marker::Model;

// Whether a packet tells a number, of which the bits of the mask are in this relation to another.
#[inline(never)]
pub(crate) fn is_number(
    quantity: Quantity,
    mask: Option<u32>,
    relation: Relation,
    limit: u32,
    packet: &SlicedPacket,
    len: usize,
) -> bool
    ensures value { IsTrue result ↔ (number : ℕ) × Tells quantity packet.now len number
        × Compares relation (masked mask number) limit }
{
    tells(quantity, mask, relation, limit, packet, len)
}

// The same, for a quantity of a kind that is known where it is called.
#[inline(always)]
pub(crate) fn tells(
    quantity: Quantity,
    mask: Option<u32>,
    relation: Relation,
    limit: u32,
    packet: &SlicedPacket,
    len: usize,
) -> bool
    ensures value { IsTrue result ↔ (number : ℕ) × Tells quantity packet.now len number
        × Compares relation (masked mask number) limit }
{
    match told(quantity, packet, len) {
        Some(number) => compares(relation, masked(mask, number), limit as usize),
        None => false,
    }
}

// The number that a packet tells, of which the frame had so many bytes on the wire.
#[inline(always)]
fn told(quantity: Quantity, packet: &SlicedPacket, len: usize) -> Option<usize>
    ensures value { (number : ℕ) → Tells quantity packet.now len number ↔ (result ≡ Some number) }
{
    match quantity {
        Quantity::Length => Some(len),
        Quantity::Load(layer, place, size) => match loads(layer, packet) {
            Some(bytes) => bytes.number(place as usize, size),
            None => None,
        },
    }
}

// The bits of a number that the mask has.
#[inline(always)]
fn masked(mask: Option<u32>, number: usize) -> usize
    ensures value { result ≡ masked mask number }
{
    match mask {
        Some(mask) => number & mask as usize,
        None => number,
    }
}

// Whether the first number is in this relation to the second.
#[inline(always)]
pub(crate) fn compares(relation: Relation, a: usize, b: usize) -> bool
    ensures value { IsTrue result ↔ Compares relation a b }
{
    match relation {
        Relation::Equal => a == b,
        Relation::NotEqual => a != b,
        Relation::Less => a < b,
        Relation::LessOrEqual => a <= b,
        Relation::Greater => a > b,
        Relation::GreaterOrEqual => a >= b,
    }
}

// Bytes that stand in up to four slices, one after the other. A contract sees the bytes.
#[derive(Drop)]
struct Bytes<'a> {
    first: &'a [u8],
    second: &'a [u8],
    third: &'a [u8],
    last: &'a [u8],
}

impl<'a> Model for Bytes<'a> {
    ghost use Rattle.std.specs.Prelude.{ℕ, List, ◌++◌};

    ghost Value = { List ℕ };

    ghost view = { λ b. b.first.now ++ (b.second.now ++ (b.third.now ++ b.last.now)) };
}

// The bytes that a load counts from the first on.
#[inline(always)]
fn loads<'a>(layer: Layer, packet: &SlicedPacket<'a>) -> Option<Bytes<'a>>
    ensures value { (bytes : List ℕ) → Loads layer packet.now bytes ↔ (result ≡ Some bytes) }
{
    match (layer, &packet.net, &packet.link) {
        (Layer::Ether, _, Some(LinkSlice::Ethernet2(header))) => {
            Some(frame(header.slice, &packet.vlan, packet.payload))
        }
        (Layer::Ether, _, _) => None,
        (Layer::Ip(version), Some(ip), _) => {
            if !has_version(version, &ip.header) {
                return None;
            }
            Some(Bytes {
                first: ip.header.slice(),
                second: ip.extensions,
                third: &[],
                last: ip.payload,
            })
        }
        (Layer::Type(number), _, _) => {
            if packet.ether_type != Some(EtherType(number)) {
                return None;
            }
            Some(Bytes {
                first: packet.payload,
                second: &[],
                third: &[],
                last: &[],
            })
        }
        (Layer::Payload(version, number), Some(ip), _) => {
            if !has_proto(version, IpNumber(number), packet) || ip.is_later_fragment {
                return None;
            }
            Some(Bytes {
                first: ip.payload,
                second: &[],
                third: &[],
                last: &[],
            })
        }
        (Layer::Ip(_) | Layer::Payload(..), None, _) => None,
    }
}

// A frame of this header, these tags and what follows them.
#[inline(always)]
fn frame<'a>(header: &'a [u8], vlan: &Option<VlanSlice<'a>>, payload: &'a [u8]) -> Bytes<'a>
    ensures value { result ≡ header.now ++ (concat (tags_of vlan.now) ++ payload.now) }
{
    let (outer, inner): (&[u8], &[u8]) = match vlan {
        None => (&[], &[]),
        Some(VlanSlice::SingleVlan(tag)) => (tag.slice, &[]),
        Some(VlanSlice::DoubleVlan { outer, inner }) => (outer.slice, inner.slice),
    };
    Bytes {
        first: header,
        second: outer,
        third: inner,
        last: payload,
    }
}

impl<'a> Bytes<'a> {
    // The bytes at a place as a number, in network byte order, if they are all there.
    #[inline(always)]
    fn number(&self, place: usize, size: Size) -> Option<usize>
        requires small { place < 2 ^ 32 }
        ensures value { (number : ℕ) →
            IsNumberAt size place self.now number ↔ (result ≡ Some number) }
    {
        let first = self.byte(place);
        match size {
            Size::One => match first {
                Some(a) => Some(usize::from(a)),
                None => None,
            },
            Size::Two => match (first, self.byte(place + 1)) {
                (Some(a), Some(b)) => Some(usize::from(u16::from_be_bytes([a, b]))),
                (_, _) => None,
            },
            Size::Four => match (
                first,
                self.byte(place + 1),
                self.byte(place + 2),
                self.byte(place + 3),
            ) {
                (Some(a), Some(b), Some(c), Some(d)) => {
                    Some(u32::from_be_bytes([a, b, c, d]) as usize)
                }
                (_, _, _, _) => None,
            },
        }
    }

    // The byte at a place.
    #[inline(always)]
    fn byte(&self, place: usize) -> Option<u8>
        ensures value { result ≡ slice_get self.now place }
    {
        if place < self.first.len() {
            return Some(self.first[place]);
        }
        let place = place - self.first.len();
        if place < self.second.len() {
            return Some(self.second[place]);
        }
        let place = place - self.second.len();
        if place < self.third.len() {
            return Some(self.third[place]);
        }
        self.last.get(place - self.third.len()).copied()
    }
}
