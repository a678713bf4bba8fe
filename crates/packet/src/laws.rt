//! What the derived `==` and `clone` say, as the clause of one small function for each type. Nothing
//! calls them: they are there to be proved.

ghost use Rattle.std.specs.Prelude.{◌≡◌, ◌↔◌, IfOk, IsOk, IsTrue, Ok, Some, option_map};
ghost use Rattle.packet.specs.Link.{link_parts};
ghost use Rattle.packet.specs.SlicedPacket.{lax_layers, layers_of};
ghost use Rattle.packet.specs.Transport.{transport_parts};
ghost use Rattle.packet.specs.Vlan.{tags_of};
ghost use Rattle.packet.specs.declared.vlan.VlanSlice.TheVariants.{DoubleVlan};

use crate::error::SliceError;
use crate::lax_sliced_packet::LaxSlicedPacket;
use crate::link::{LinkError, LinkSlice, LinkType};
use crate::link_layers::LinkLayers;
use crate::sliced_packet::SlicedPacket;
use crate::transport::{IcmpHeader, TransportSlice};
use crate::vlan::VlanSlice;
use etherparse_link::SingleVlanHeaderSlice;
use std::alloc::AllocError;

fn icmp_header_equality(a: &IcmpHeader, b: &IcmpHeader) -> bool
    ensures same_value { IsTrue result ↔ (a.now ≡ b.now) }
{
    a == b
}

fn link_error_equality(a: &LinkError, b: &LinkError) -> bool
    ensures same_value { IsTrue result ↔ (a.now ≡ b.now) }
{
    a == b
}

fn link_type_equality(a: &LinkType, b: &LinkType) -> bool
    ensures same_value { IsTrue result ↔ (a.now ≡ b.now) }
{
    a == b
}

fn slice_error_equality(a: &SliceError, b: &SliceError) -> bool
    ensures same_value { IsTrue result ↔ (a.now ≡ b.now) }
{
    a == b
}

// Views are equal if they show the same bytes.
fn link_view_equality(a: &LinkSlice, b: &LinkSlice) -> bool
    ensures same_parts { IsTrue result ↔ (link_parts a.now ≡ link_parts b.now) }
{
    a == b
}

fn vlan_view_equality(a: &VlanSlice, b: &VlanSlice) -> bool
    ensures same_tags { IsTrue result ↔ (tags_of (Some a.now) ≡ tags_of (Some b.now)) }
{
    a == b
}

fn transport_view_equality(a: &TransportSlice, b: &TransportSlice) -> bool
    ensures same_parts { IsTrue result ↔ (transport_parts a.now ≡ transport_parts b.now) }
{
    a == b
}

fn link_layers_equality(a: &LinkLayers, b: &LinkLayers) -> bool
    ensures same_layers { IsTrue result ↔
        (option_map link_parts a.now.link ≡ option_map link_parts b.now.link)
        × (tags_of a.now.vlan ≡ tags_of b.now.vlan)
        × (a.now.ether_type ≡ b.now.ether_type)
        × (a.now.payload.now ≡ b.now.payload.now)
        × (a.now.stop ≡ b.now.stop) }
{
    a == b
}

fn sliced_packet_equality(a: &SlicedPacket, b: &SlicedPacket) -> bool
    ensures same_layers { IsTrue result ↔ (layers_of a.now ≡ layers_of b.now) }
{
    a == b
}

fn lax_sliced_packet_equality(a: &LaxSlicedPacket, b: &LaxSlicedPacket) -> bool
    ensures same_layers { IsTrue result ↔ (lax_layers a.now ≡ lax_layers b.now) }
{
    a == b
}

// A clone is equal, and cloning never fails.
fn icmp_header_clone(header: &IcmpHeader) -> Result<IcmpHeader, AllocError>
    ensures same_value { result ≡ Ok header.now }
{
    header.clone()
}

fn lax_sliced_packet_clone<'a>(
    packet: &LaxSlicedPacket<'a>,
) -> Result<LaxSlicedPacket<'a>, AllocError>
    ensures never_fails { IsOk result }
    ensures link { IfOk result (λ clone. clone.packet.link ≡ packet.now.packet.link) }
    ensures vlan { IfOk result (λ clone. clone.packet.vlan ≡ packet.now.packet.vlan) }
    ensures ether_type { IfOk result (λ clone.
        clone.packet.ether_type ≡ packet.now.packet.ether_type) }
    ensures payload { IfOk result (λ clone. clone.packet.payload ≡ packet.now.packet.payload) }
    ensures net { IfOk result (λ clone. clone.packet.net ≡ packet.now.packet.net) }
    ensures transport { IfOk result (λ clone.
        clone.packet.transport ≡ packet.now.packet.transport) }
    ensures stop { IfOk result (λ clone. clone.stop ≡ packet.now.stop) }
{
    packet.clone()
}

fn link_error_clone(error: &LinkError) -> Result<LinkError, AllocError>
    ensures same_value { result ≡ Ok error.now }
{
    error.clone()
}

fn link_layers_clone<'a>(layers: &LinkLayers<'a>) -> Result<LinkLayers<'a>, AllocError>
    ensures same_value { result ≡ Ok layers.now }
{
    layers.clone()
}

fn link_slice_clone<'a>(link: &LinkSlice<'a>) -> Result<LinkSlice<'a>, AllocError>
    ensures same_value { result ≡ Ok link.now }
{
    link.clone()
}

fn link_type_clone(link_type: &LinkType) -> Result<LinkType, AllocError>
    ensures same_value { result ≡ Ok link_type.now }
{
    link_type.clone()
}

fn slice_error_clone(error: &SliceError) -> Result<SliceError, AllocError>
    ensures same_value { result ≡ Ok error.now }
{
    error.clone()
}

fn sliced_packet_clone<'a>(packet: &SlicedPacket<'a>) -> Result<SlicedPacket<'a>, AllocError>
    ensures never_fails { IsOk result }
    ensures link { IfOk result (λ clone. clone.link ≡ packet.now.link) }
    ensures vlan { IfOk result (λ clone. clone.vlan ≡ packet.now.vlan) }
    ensures ether_type { IfOk result (λ clone. clone.ether_type ≡ packet.now.ether_type) }
    ensures payload { IfOk result (λ clone. clone.payload ≡ packet.now.payload) }
    ensures net { IfOk result (λ clone. clone.net ≡ packet.now.net) }
    ensures transport { IfOk result (λ clone. clone.transport ≡ packet.now.transport) }
{
    packet.clone()
}

fn transport_slice_clone<'a>(
    transport: &TransportSlice<'a>,
) -> Result<TransportSlice<'a>, AllocError>
    ensures same_value { result ≡ Ok transport.now }
{
    transport.clone()
}

fn vlan_slice_clone<'a>(vlan: &VlanSlice<'a>) -> Result<VlanSlice<'a>, AllocError>
    ensures same_value { result ≡ Ok vlan.now }
{
    vlan.clone()
}

// The fields of a variant, by their names, are those of the definitions in their order.
fn double_vlan_fields<'a>(
    outer: SingleVlanHeaderSlice<'a>,
    inner: SingleVlanHeaderSlice<'a>,
) -> VlanSlice<'a>
    ensures by_name { result ≡ DoubleVlan outer.entry inner.entry }
{
    VlanSlice::DoubleVlan { outer, inner }
}
