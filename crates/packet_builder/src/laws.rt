//! What follows from the definitions: a packet that was built, taken apart, has the parts that it
//! was built of. And what the derived `==` and `clone` say, as the clause of one small function for
//! each type. Nothing calls them: they are there to be proved.

ghost use Rattle.std.specs.Prelude.{ℕ, ◌≡◌, ◌↔◌, ◌++◌, IsFalse, IsOkAnd, IsTrue, List, Ok};
ghost use Rattle.std.specs.Prelude.{Result, Some};
ghost use Rattle.etherparse_icmp.specs.declared.icmpv4_type.Icmpv4Type.{Icmpv4Type as Icmpv4};
ghost use Rattle.etherparse_icmp.specs.declared.icmpv6_type.Icmpv6Type.{Icmpv6Type as Icmpv6};
ghost use Rattle.etherparse_transport.specs.declared.tcp_header.TcpHeader.{TcpHeader as Tcp};
ghost use Rattle.packet.specs.SlicedPacket.{IsReadingOf, layers_of};
ghost use Rattle.packet.specs.declared.error.SliceError.{SliceError as Refused};
ghost use Rattle.packet.specs.declared.sliced_packet.SlicedPacket.{SlicedPacket as Packet};
ghost use Rattle.packet_builder.specs.BuiltPacket.{IsArpFrame, IsIcmpv4Packet, IsIcmpv6Packet};
ghost use Rattle.packet_builder.specs.BuiltPacket.{IsIpv4, IsLink, IsTcpPacket, IsUdpPacket};
ghost use Rattle.packet_builder.specs.TakenApart.{IsBuiltOfArp, IsBuiltOfIcmpv4};
ghost use Rattle.packet_builder.specs.TakenApart.{IsBuiltOfIcmpv6, IsBuiltOfTcp, IsBuiltOfUdp};
ghost use Rattle.packet_builder.specs.TakenApart.{IsNoFragment, TagsAreLinked, layers_after};
ghost use Rattle.packet_builder.specs.TakenApart.{link_parts_for, link_type_for};
ghost use Rattle.packet_builder.specs.TakenApart.{tells_ether_type};
ghost use Rattle.packet_builder.specs.declared.arp_step.ArpStep.{ArpStep as Arp};
ghost use Rattle.packet_builder.specs.declared.headers.Headers.{Headers as Before};
ghost use Rattle.packet_builder.specs.declared.headers.LinkHeader.{LinkHeader as Link};
ghost use Rattle.packet_builder.specs.declared.headers.VlanHeader.TheVariants.{Double};

use crate::{
    ArpStep, BuildSliceWriteError, Headers, Icmpv4Step, Icmpv6Step, IpHeader, IpStep, LinkHeader,
    LinkStep, PacketBuilder, TcpStep, UdpStep, VlanHeader, VlanStep,
};
use etherparse_link::SingleVlanHeader;
use std::alloc::AllocError;

/// A packet that was built of UDP, TCP, ICMP over IPv4 or ICMPv6, is no fragment and has tags only
/// after a link header is read by `SlicedPacket::from_link_type` in its layers, each with the bytes
/// that it was built of; and its checksum is right. Of a Linux cooked capture of a device whose
/// protocol type is no EtherType, only the link header is read.
pub fn built_packet_law()
    ensures udp { (headers : Before) → (source_port destination_port : ℕ) →
        (payload frame : List ℕ) →
        IsUdpPacket headers source_port destination_port payload frame →
        IsNoFragment headers.ip → TagsAreLinked headers →
        IsTrue (tells_ether_type headers.link) → (answer : Result Packet Refused) →
        IsReadingOf (link_type_for headers.link) frame answer →
        IsOkAnd answer (IsBuiltOfUdp headers source_port destination_port payload frame) }
    ensures tcp { (headers : Before) → (header : Tcp) → (payload frame : List ℕ) →
        IsTcpPacket headers header payload frame → IsNoFragment headers.ip →
        TagsAreLinked headers → IsTrue (tells_ether_type headers.link) →
        (answer : Result Packet Refused) →
        IsReadingOf (link_type_for headers.link) frame answer →
        IsOkAnd answer (IsBuiltOfTcp headers header payload frame) }
    ensures icmpv4 { (headers : Before) → (icmp_type : Icmpv4) → (payload frame : List ℕ) →
        IsIcmpv4Packet headers icmp_type payload frame → IsIpv4 headers.ip →
        IsNoFragment headers.ip → TagsAreLinked headers →
        IsTrue (tells_ether_type headers.link) → (answer : Result Packet Refused) →
        IsReadingOf (link_type_for headers.link) frame answer →
        IsOkAnd answer (IsBuiltOfIcmpv4 headers icmp_type payload frame) }
    ensures icmpv6 { (headers : Before) → (icmp_type : Icmpv6) → (payload frame : List ℕ) →
        IsIcmpv6Packet headers icmp_type payload frame → TagsAreLinked headers →
        IsTrue (tells_ether_type headers.link) → (answer : Result Packet Refused) →
        IsReadingOf (link_type_for headers.link) frame answer →
        IsOkAnd answer (IsBuiltOfIcmpv6 headers icmp_type payload frame) }
    ensures arp { (step : Arp) → (frame : List ℕ) → IsArpFrame step frame →
        IsTrue (tells_ether_type (Some step.link)) → (answer : Result Packet Refused) →
        IsReadingOf (link_type_for (Some step.link)) frame answer →
        IsOkAnd answer (IsBuiltOfArp step frame) }
    ensures other_device { (link : Link) → (ether_type : ℕ) → (front rest : List ℕ) →
        IsLink (Some link) ether_type front → IsFalse (tells_ether_type (Some link)) →
        (answer : Result Packet Refused) →
        IsReadingOf (link_type_for (Some link)) (front ++ rest) answer →
        IsOkAnd answer (λ packet.
        layers_of packet ≡ layers_after (link_parts_for (Some link) front) rest) }
{}

fn build_slice_write_error_equality(a: &BuildSliceWriteError, b: &BuildSliceWriteError) -> bool
    ensures same_value { IsTrue result ↔ (a.now ≡ b.now) }
{
    a == b
}

fn ip_header_equality(a: &IpHeader, b: &IpHeader) -> bool
    ensures same_value { IsTrue result ↔ (a.now ≡ b.now) }
{
    a == b
}

fn link_header_equality(a: &LinkHeader, b: &LinkHeader) -> bool
    ensures same_value { IsTrue result ↔ (a.now ≡ b.now) }
{
    a == b
}

fn vlan_header_equality(a: &VlanHeader, b: &VlanHeader) -> bool
    ensures same_value { IsTrue result ↔ (a.now ≡ b.now) }
{
    a == b
}

// A clone is equal, and cloning never fails.
fn arp_step_clone(step: &ArpStep) -> Result<ArpStep, AllocError>
    ensures same_value { result ≡ Ok step.now }
{
    step.clone()
}

fn build_slice_write_error_clone(
    error: &BuildSliceWriteError,
) -> Result<BuildSliceWriteError, AllocError>
    ensures same_value { result ≡ Ok error.now }
{
    error.clone()
}

fn headers_clone(headers: &Headers) -> Result<Headers, AllocError>
    ensures same_value { result ≡ Ok headers.now }
{
    headers.clone()
}

fn icmpv4_step_clone(step: &Icmpv4Step) -> Result<Icmpv4Step, AllocError>
    ensures same_value { result ≡ Ok step.now }
{
    step.clone()
}

fn icmpv6_step_clone(step: &Icmpv6Step) -> Result<Icmpv6Step, AllocError>
    ensures same_value { result ≡ Ok step.now }
{
    step.clone()
}

fn ip_header_clone(header: &IpHeader) -> Result<IpHeader, AllocError>
    ensures same_value { result ≡ Ok header.now }
{
    header.clone()
}

fn ip_step_clone(step: &IpStep) -> Result<IpStep, AllocError>
    ensures same_value { result ≡ Ok step.now }
{
    step.clone()
}

fn link_header_clone(header: &LinkHeader) -> Result<LinkHeader, AllocError>
    ensures same_value { result ≡ Ok header.now }
{
    header.clone()
}

fn link_step_clone(step: &LinkStep) -> Result<LinkStep, AllocError>
    ensures same_value { result ≡ Ok step.now }
{
    step.clone()
}

fn packet_builder_clone(builder: &PacketBuilder) -> Result<PacketBuilder, AllocError>
    ensures same_value { result ≡ Ok builder.now }
{
    builder.clone()
}

fn tcp_step_clone(step: &TcpStep) -> Result<TcpStep, AllocError>
    ensures same_value { result ≡ Ok step.now }
{
    step.clone()
}

fn udp_step_clone(step: &UdpStep) -> Result<UdpStep, AllocError>
    ensures same_value { result ≡ Ok step.now }
{
    step.clone()
}

fn vlan_header_clone(header: &VlanHeader) -> Result<VlanHeader, AllocError>
    ensures same_value { result ≡ Ok header.now }
{
    header.clone()
}

fn vlan_step_clone(step: &VlanStep) -> Result<VlanStep, AllocError>
    ensures same_value { result ≡ Ok step.now }
{
    step.clone()
}

/// The fields of a variant, by their names, are those of the definitions in their order.
pub fn double_vlan_fields(outer: SingleVlanHeader, inner: SingleVlanHeader) -> VlanHeader
    ensures by_name { result ≡ Double outer inner }
{
    VlanHeader::Double { outer, inner }
}
