//! Link headers and ARP packets, by `etherparse_link`.

use crate::case::{Case, write_shown};
use crate::shown::{Answer, Found, PlainError, Shown, made};
use etherparse_link::err::arp::{ArpEthIpv4FromError, ArpNewError};
use etherparse_link::err::double_vlan;
use etherparse_link::{
    ArpEthIpv4Packet, ArpHardwareId, ArpOperation, ArpPacket, DoubleVlanHeader, EtherType,
    Ethernet2Header, LinuxSll2Header, LinuxSllHeader, SingleVlanHeader,
};

/// The cases `link.NAME`.
pub fn answer(name: &str, case: &mut Case) {
    match name {
        "arp_new" => answer_new(case),
        _ => write_slice(name, &case.bytes(), case),
    }
}

// What is read at the front of some bytes.
fn write_slice(name: &str, bytes: &[u8], case: &mut Case) {
    match name {
        "ethernet2" => write_shown(Ethernet2Header::from_slice(bytes), case),
        "vlan" => write_shown(SingleVlanHeader::from_slice(bytes), case),
        "double_vlan" => write_shown(DoubleVlanHeader::from_slice(bytes), case),
        "sll" => write_shown(LinuxSllHeader::from_slice(bytes), case),
        "sll2" => write_shown(LinuxSll2Header::from_slice(bytes), case),
        "arp" => write_arp(bytes, case),
        _ => case.refuse(),
    }
}

// The ARP packet at the front of some bytes, and the same of Ethernet and IPv4 if it is one.
fn write_arp(bytes: &[u8], case: &mut Case) {
    let found = ArpPacket::from_slice(bytes);
    found.show(&mut case.answer);
    if let Ok((packet, _)) = found {
        case.answer
            .shown(" ; ", &ArpEthIpv4Packet::try_from(packet));
    }
}

// An ARP packet of some fields.
fn answer_new(case: &mut Case) {
    let hw_addr_type = ArpHardwareId(case.number());
    let proto_addr_type = EtherType(case.number());
    let operation = ArpOperation(case.number());
    let packet = ArpPacket::new(
        hw_addr_type,
        proto_addr_type,
        operation,
        &case.bytes(),
        &case.bytes(),
        &case.bytes(),
        &case.bytes(),
    );
    write_shown(made(packet), case);
}

impl Shown for Found<'_, Ethernet2Header> {
    fn show(&self, answer: &mut Answer) {
        let (header, rest) = self;
        answer.bytes("destination=", &header.destination);
        answer.bytes(" source=", &header.source);
        answer.put(" ether_type=", header.ether_type.0);
        answer.rest_and_bytes(rest, &header.to_bytes());
    }
}

impl Shown for SingleVlanHeader {
    fn show(&self, answer: &mut Answer) {
        answer.put("pcp=", self.pcp);
        answer.put(" drop_eligible_indicator=", self.drop_eligible_indicator);
        answer.put(" vlan_id=", self.vlan_id);
        answer.put(" ether_type=", self.ether_type.0);
    }
}

impl Shown for Found<'_, SingleVlanHeader> {
    fn show(&self, answer: &mut Answer) {
        self.0.show(answer);
        answer.rest_and_bytes(self.1, &self.0.to_bytes());
    }
}

impl Shown for Found<'_, DoubleVlanHeader> {
    fn show(&self, answer: &mut Answer) {
        let (header, rest) = self;
        answer.shown("outer ", &header.outer);
        answer.shown(" inner ", &header.inner);
        answer.rest_and_bytes(rest, &header.to_bytes());
    }
}

impl Shown for double_vlan::HeaderSliceError {
    fn show(&self, answer: &mut Answer) {
        match self {
            double_vlan::HeaderSliceError::Len(e) => e.show(answer),
            double_vlan::HeaderSliceError::Content(e) => answer.debug("err ", e),
        }
    }
}

impl Shown for Found<'_, LinuxSllHeader> {
    fn show(&self, answer: &mut Answer) {
        let (header, rest) = self;
        answer.put("packet_type=", header.packet_type.0);
        answer.put(" arp_hrd_type=", header.arp_hrd_type.0);
        answer.put(
            " sender_address_valid_length=",
            header.sender_address_valid_length,
        );
        answer.put(" protocol_type=", header.protocol_type.0);
        answer.bytes(" sender_address=", &header.sender_address);
        answer.rest_and_bytes(rest, &header.to_bytes());
    }
}

impl Shown for Found<'_, LinuxSll2Header> {
    fn show(&self, answer: &mut Answer) {
        let (header, rest) = self;
        answer.put("protocol_type=", header.protocol_type.0);
        answer.put(" interface_index=", header.interface_index);
        answer.put(" arp_hrd_type=", header.arp_hrd_type.0);
        answer.put(" packet_type=", header.packet_type);
        answer.put(
            " sender_address_valid_length=",
            header.sender_address_valid_length,
        );
        answer.bytes(" sender_address=", &header.sender_address);
        answer.rest_and_bytes(rest, &header.to_bytes());
    }
}

impl Shown for Found<'_, ArpPacket> {
    fn show(&self, answer: &mut Answer) {
        let (packet, rest) = self;
        answer.put("hw_addr_type=", packet.hw_addr_type.0);
        answer.put(" proto_addr_type=", packet.proto_addr_type.0);
        answer.put(" hw_addr_size=", packet.hw_addr_size());
        answer.put(" protocol_addr_size=", packet.protocol_addr_size());
        answer.put(" operation=", packet.operation.0);
        answer.bytes(" sender_hw_addr=", packet.sender_hw_addr());
        answer.bytes(" sender_protocol_addr=", packet.sender_protocol_addr());
        answer.bytes(" target_hw_addr=", packet.target_hw_addr());
        answer.bytes(" target_protocol_addr=", packet.target_protocol_addr());
        answer.rest_and_bytes(rest, packet.to_bytes().as_slice());
    }
}

/// The packet, and its bytes.
impl Shown for ArpEthIpv4Packet {
    fn show(&self, answer: &mut Answer) {
        answer.put("operation=", self.operation.0);
        answer.bytes(" sender_mac=", &self.sender_mac);
        answer.bytes(" sender_ipv4=", &self.sender_ipv4);
        answer.bytes(" target_mac=", &self.target_mac);
        answer.bytes(" target_ipv4=", &self.target_ipv4);
        answer.bytes(" bytes=", &self.to_bytes());
    }
}

impl PlainError for ArpEthIpv4FromError {}

impl PlainError for ArpNewError {}
