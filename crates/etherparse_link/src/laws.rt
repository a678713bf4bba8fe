//! What the derived `==`, `cmp`, `hash` and `clone` say, each as the clause of one small function.
//! Nothing calls them: they are there to be proved.

ghost use Rattle.std.specs.Prelude.{◌≡◌, ◌↔◌, IsTrue, Ok, fold};
ghost use Rattle.std.specs.Hash as fed;
ghost use Rattle.std.specs.Ordering.{nat_cmp};
ghost use Rattle.etherparse_link.specs.ArpErrors.{arp_eth_ipv4_from_error_writes};
ghost use Rattle.etherparse_link.specs.ArpErrors.{arp_hw_addr_error_writes};
ghost use Rattle.etherparse_link.specs.ArpErrors.{arp_new_error_writes};
ghost use Rattle.etherparse_link.specs.ArpErrors.{arp_proto_addr_error_writes};
ghost use Rattle.etherparse_link.specs.DoubleVlanErrors.{header_error_writes};

use crate::err::arp::{ArpEthIpv4FromError, ArpHwAddrError, ArpNewError, ArpProtoAddrError};
use crate::err::double_vlan::{HeaderError, HeaderSliceError};
use crate::{
    ArpEthIpv4Packet, ArpHardwareId, ArpOperation, ArpPacket, ArpPacketSlice, DoubleVlanHeader,
    EtherType, Ethernet2Header, Ethernet2HeaderSlice, LinuxSll2Header, LinuxSll2HeaderSlice,
    LinuxSllHeader, LinuxSllHeaderSlice, LinuxSllPacketType, SingleVlanHeader,
    SingleVlanHeaderSlice, VlanId, VlanPcp,
};
use std::alloc::AllocError;
use std::cmp::Ordering;
use std::hash::{Hash, Hasher};

fn arp_eth_ipv4_packet_equality(a: &ArpEthIpv4Packet, b: &ArpEthIpv4Packet) -> bool
    ensures same_value { IsTrue result ↔ (a.now ≡ b.now) }
{
    a == b
}

fn arp_packet_equality(a: &ArpPacket, b: &ArpPacket) -> bool
    ensures same_value { IsTrue result ↔ (a.now ≡ b.now) }
{
    a == b
}

fn double_vlan_header_equality(a: &DoubleVlanHeader, b: &DoubleVlanHeader) -> bool
    ensures same_value { IsTrue result ↔ (a.now ≡ b.now) }
{
    a == b
}

fn ethernet2_header_equality(a: &Ethernet2Header, b: &Ethernet2Header) -> bool
    ensures same_value { IsTrue result ↔ (a.now ≡ b.now) }
{
    a == b
}

fn linux_sll_header_equality(a: &LinuxSllHeader, b: &LinuxSllHeader) -> bool
    ensures same_value { IsTrue result ↔ (a.now ≡ b.now) }
{
    a == b
}

fn linux_sll2_header_equality(a: &LinuxSll2Header, b: &LinuxSll2Header) -> bool
    ensures same_value { IsTrue result ↔ (a.now ≡ b.now) }
{
    a == b
}

fn single_vlan_header_equality(a: &SingleVlanHeader, b: &SingleVlanHeader) -> bool
    ensures same_value { IsTrue result ↔ (a.now ≡ b.now) }
{
    a == b
}

// Views are equal if they show the same bytes.
fn arp_packet_view_equality(a: &ArpPacketSlice, b: &ArpPacketSlice) -> bool
    ensures same_bytes { IsTrue result ↔ (a.now.slice.now ≡ b.now.slice.now) }
{
    a == b
}

fn ethernet2_view_equality(a: &Ethernet2HeaderSlice, b: &Ethernet2HeaderSlice) -> bool
    ensures same_bytes { IsTrue result ↔ (a.now.slice.now ≡ b.now.slice.now) }
{
    a == b
}

fn linux_sll_view_equality(a: &LinuxSllHeaderSlice, b: &LinuxSllHeaderSlice) -> bool
    ensures same_bytes { IsTrue result ↔ (a.now.slice.now ≡ b.now.slice.now) }
{
    a == b
}

fn linux_sll2_view_equality(a: &LinuxSll2HeaderSlice, b: &LinuxSll2HeaderSlice) -> bool
    ensures same_bytes { IsTrue result ↔ (a.now.slice.now ≡ b.now.slice.now) }
{
    a == b
}

fn single_vlan_view_equality(a: &SingleVlanHeaderSlice, b: &SingleVlanHeaderSlice) -> bool
    ensures same_bytes { IsTrue result ↔ (a.now.slice.now ≡ b.now.slice.now) }
{
    a == b
}

// A clone is equal, and cloning never fails.
fn arp_packet_clone(packet: &ArpPacket) -> Result<ArpPacket, AllocError>
    ensures same_value { result ≡ Ok packet.now }
{
    packet.clone()
}

fn arp_eth_ipv4_packet_clone(packet: &ArpEthIpv4Packet) -> Result<ArpEthIpv4Packet, AllocError>
    ensures same_value { result ≡ Ok packet.now }
{
    packet.clone()
}

fn double_vlan_header_clone(header: &DoubleVlanHeader) -> Result<DoubleVlanHeader, AllocError>
    ensures same_value { result ≡ Ok header.now }
{
    header.clone()
}

fn ethernet2_header_clone(header: &Ethernet2Header) -> Result<Ethernet2Header, AllocError>
    ensures same_value { result ≡ Ok header.now }
{
    header.clone()
}

fn linux_sll_header_clone(header: &LinuxSllHeader) -> Result<LinuxSllHeader, AllocError>
    ensures same_value { result ≡ Ok header.now }
{
    header.clone()
}

fn linux_sll2_header_clone(header: &LinuxSll2Header) -> Result<LinuxSll2Header, AllocError>
    ensures same_value { result ≡ Ok header.now }
{
    header.clone()
}

fn single_vlan_header_clone(header: &SingleVlanHeader) -> Result<SingleVlanHeader, AllocError>
    ensures same_value { result ≡ Ok header.now }
{
    header.clone()
}

fn arp_hardware_id_clone(number: &ArpHardwareId) -> Result<ArpHardwareId, AllocError>
    ensures same_value { result ≡ Ok number.now }
{
    number.clone()
}

fn arp_operation_clone(number: &ArpOperation) -> Result<ArpOperation, AllocError>
    ensures same_value { result ≡ Ok number.now }
{
    number.clone()
}

fn ether_type_clone(number: &EtherType) -> Result<EtherType, AllocError>
    ensures same_value { result ≡ Ok number.now }
{
    number.clone()
}

fn linux_sll_packet_type_clone(
    number: &LinuxSllPacketType,
) -> Result<LinuxSllPacketType, AllocError>
    ensures same_value { result ≡ Ok number.now }
{
    number.clone()
}

fn vlan_id_clone(number: &VlanId) -> Result<VlanId, AllocError>
    ensures same_value { result ≡ Ok number.now }
{
    number.clone()
}

fn vlan_pcp_clone(number: &VlanPcp) -> Result<VlanPcp, AllocError>
    ensures same_value { result ≡ Ok number.now }
{
    number.clone()
}

fn arp_packet_view_clone<'a>(view: &ArpPacketSlice<'a>) -> Result<ArpPacketSlice<'a>, AllocError>
    ensures same_value { result ≡ Ok view.now }
{
    view.clone()
}

fn ethernet2_view_clone<'a>(
    view: &Ethernet2HeaderSlice<'a>,
) -> Result<Ethernet2HeaderSlice<'a>, AllocError>
    ensures same_value { result ≡ Ok view.now }
{
    view.clone()
}

fn linux_sll_view_clone<'a>(
    view: &LinuxSllHeaderSlice<'a>,
) -> Result<LinuxSllHeaderSlice<'a>, AllocError>
    ensures same_value { result ≡ Ok view.now }
{
    view.clone()
}

fn linux_sll2_view_clone<'a>(
    view: &LinuxSll2HeaderSlice<'a>,
) -> Result<LinuxSll2HeaderSlice<'a>, AllocError>
    ensures same_value { result ≡ Ok view.now }
{
    view.clone()
}

fn single_vlan_view_clone<'a>(
    view: &SingleVlanHeaderSlice<'a>,
) -> Result<SingleVlanHeaderSlice<'a>, AllocError>
    ensures same_value { result ≡ Ok view.now }
{
    view.clone()
}

fn arp_eth_ipv4_from_error_clone(
    error: &ArpEthIpv4FromError,
) -> Result<ArpEthIpv4FromError, AllocError>
    ensures same_value { result ≡ Ok error.now }
{
    error.clone()
}

fn arp_hw_addr_error_clone(error: &ArpHwAddrError) -> Result<ArpHwAddrError, AllocError>
    ensures same_value { result ≡ Ok error.now }
{
    error.clone()
}

fn arp_proto_addr_error_clone(error: &ArpProtoAddrError) -> Result<ArpProtoAddrError, AllocError>
    ensures same_value { result ≡ Ok error.now }
{
    error.clone()
}

fn arp_new_error_clone(error: &ArpNewError) -> Result<ArpNewError, AllocError>
    ensures same_value { result ≡ Ok error.now }
{
    error.clone()
}

fn double_vlan_header_error_clone(error: &HeaderError) -> Result<HeaderError, AllocError>
    ensures same_value { result ≡ Ok error.now }
{
    error.clone()
}

fn double_vlan_header_slice_error_clone(
    error: &HeaderSliceError,
) -> Result<HeaderSliceError, AllocError>
    ensures same_value { result ≡ Ok error.now }
{
    error.clone()
}

// Numbers have the order of the numbers.
fn arp_hardware_id_order(a: &ArpHardwareId, b: &ArpHardwareId) -> Ordering
    ensures by_number { result ≡ nat_cmp a.now b.now }
{
    a.cmp(b)
}

fn arp_operation_order(a: &ArpOperation, b: &ArpOperation) -> Ordering
    ensures by_number { result ≡ nat_cmp a.now b.now }
{
    a.cmp(b)
}

fn ether_type_order(a: &EtherType, b: &EtherType) -> Ordering
    ensures by_number { result ≡ nat_cmp a.now b.now }
{
    a.cmp(b)
}

fn linux_sll_packet_type_order(a: &LinuxSllPacketType, b: &LinuxSllPacketType) -> Ordering
    ensures by_number { result ≡ nat_cmp a.now b.now }
{
    a.cmp(b)
}

fn vlan_id_order(a: &VlanId, b: &VlanId) -> Ordering
    ensures by_number { result ≡ nat_cmp a.now b.now }
{
    a.cmp(b)
}

fn vlan_pcp_order(a: &VlanPcp, b: &VlanPcp) -> Ordering
    ensures by_number { result ≡ nat_cmp a.now b.now }
{
    a.cmp(b)
}

// Numbers are hashed as the numbers.
fn arp_hardware_id_hash<H: Hasher>(number: &ArpHardwareId, state: &mut H)
    ensures by_number { state.new ≡ fold H.write state.old (fed.u16 number.now) }
{
    number.hash(state);
}

fn arp_operation_hash<H: Hasher>(number: &ArpOperation, state: &mut H)
    ensures by_number { state.new ≡ fold H.write state.old (fed.u16 number.now) }
{
    number.hash(state);
}

fn ether_type_hash<H: Hasher>(number: &EtherType, state: &mut H)
    ensures by_number { state.new ≡ fold H.write state.old (fed.u16 number.now) }
{
    number.hash(state);
}

fn linux_sll_packet_type_hash<H: Hasher>(number: &LinuxSllPacketType, state: &mut H)
    ensures by_number { state.new ≡ fold H.write state.old (fed.u16 number.now) }
{
    number.hash(state);
}

fn vlan_id_hash<H: Hasher>(number: &VlanId, state: &mut H)
    ensures by_number { state.new ≡ fold H.write state.old (fed.u16 number.now) }
{
    number.hash(state);
}

fn vlan_pcp_hash<H: Hasher>(number: &VlanPcp, state: &mut H)
    ensures by_number { state.new ≡ fold H.write state.old (fed.u8 number.now) }
{
    number.hash(state);
}

fn double_vlan_header_error_equality(a: &HeaderError, b: &HeaderError) -> bool
    ensures same_value { IsTrue result ↔ (a.now ≡ b.now) }
{
    a == b
}

fn double_vlan_header_slice_error_equality(a: &HeaderSliceError, b: &HeaderSliceError) -> bool
    ensures same_value { IsTrue result ↔ (a.now ≡ b.now) }
{
    a == b
}

fn arp_eth_ipv4_from_error_equality(a: &ArpEthIpv4FromError, b: &ArpEthIpv4FromError) -> bool
    ensures same_value { IsTrue result ↔ (a.now ≡ b.now) }
{
    a == b
}

fn arp_hw_addr_error_equality(a: &ArpHwAddrError, b: &ArpHwAddrError) -> bool
    ensures same_value { IsTrue result ↔ (a.now ≡ b.now) }
{
    a == b
}

fn arp_proto_addr_error_equality(a: &ArpProtoAddrError, b: &ArpProtoAddrError) -> bool
    ensures same_value { IsTrue result ↔ (a.now ≡ b.now) }
{
    a == b
}

fn arp_new_error_equality(a: &ArpNewError, b: &ArpNewError) -> bool
    ensures same_value { IsTrue result ↔ (a.now ≡ b.now) }
{
    a == b
}

// Errors are hashed by all that they say.
fn arp_eth_ipv4_from_error_hash<H: Hasher>(error: &ArpEthIpv4FromError, state: &mut H)
    ensures by_value { state.new ≡ fold H.write state.old (arp_eth_ipv4_from_error_writes error.now) }
{
    error.hash(state);
}

fn arp_hw_addr_error_hash<H: Hasher>(error: &ArpHwAddrError, state: &mut H)
    ensures by_value { state.new ≡ fold H.write state.old (arp_hw_addr_error_writes error.now) }
{
    error.hash(state);
}

fn arp_proto_addr_error_hash<H: Hasher>(error: &ArpProtoAddrError, state: &mut H)
    ensures by_value { state.new ≡ fold H.write state.old (arp_proto_addr_error_writes error.now) }
{
    error.hash(state);
}

fn arp_new_error_hash<H: Hasher>(error: &ArpNewError, state: &mut H)
    ensures by_value { state.new ≡ fold H.write state.old (arp_new_error_writes error.now) }
{
    error.hash(state);
}

fn double_vlan_header_error_hash<H: Hasher>(error: &HeaderError, state: &mut H)
    ensures by_value { state.new ≡ fold H.write state.old (header_error_writes error.now) }
{
    error.hash(state);
}
