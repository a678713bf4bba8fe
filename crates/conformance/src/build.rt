//! Packets that are built, by `packet_builder`.

use crate::case::{Argument, Case};
use crate::shown::{Answer, Shown};
use etherparse::IpNumber;
use etherparse_link::{
    ArpHardwareId, EtherType, LinuxSllHeader, LinuxSllPacketType, SingleVlanHeader,
};
use etherparse_transport::TcpHeader;
use packet_builder::{BuildSliceWriteError, IpHeader, IpStep, LinkStep, PacketBuilder, VlanHeader};
use std::alloc::AllocError;

/// `build ROOM LINK TAGS IP UPPER B`: a packet of these headers and this payload, written into so
/// many bytes of memory.
pub fn answer(case: &mut Case) {
    let room: u16 = case.number();
    match vec![in case.alloc; 0; usize::from(room)] {
        Ok(mut memory) => write_packet(&mut memory, case),
        Err(AllocError) => case.answer.is_out_of_memory = true,
    }
}

// Writes a packet into some memory.
fn write_packet(memory: &mut [u8], case: &mut Case) {
    let link: Option<LinkStep> = case.read();
    let tags: Option<VlanHeader> = case.read();
    let ip: IpHeader = case.read();
    let step = ip_step(link, tags, ip);
    let (size, written) = match case.word() {
        "udp" => {
            let step = step.udp(case.number(), case.number());
            let payload = case.bytes();
            let size = step.size(payload.len());
            (size, step.write_to_slice(memory, &payload))
        }
        "tcp" => {
            let step = step.tcp_header(case.read());
            let payload = case.bytes();
            let size = step.size(payload.len());
            (size, step.write_to_slice(memory, &payload))
        }
        "ip" => {
            let protocol = IpNumber(case.number());
            let payload = case.bytes();
            let size = step.size(payload.len());
            (size, step.write_to_slice(memory, protocol, &payload))
        }
        _ => return case.refuse(),
    };
    case.answer.put("size=", size);
    case.answer.shown(" ", &written);
    case.answer.bytes(" memory=", memory);
}

// A packet with these headers.
fn ip_step(link: Option<LinkStep>, tags: Option<VlanHeader>, ip: IpHeader) -> IpStep {
    match (link, tags) {
        (None, _) => PacketBuilder::ip(ip),
        (Some(step), None) => step.ip(ip),
        (Some(step), Some(tags)) => step.vlan(tags).ip(ip),
    }
}

/// `none`, `ethernet2 SOURCE DESTINATION`, or `sll` and the fields but that of what follows
impl Argument for Option<LinkStep> {
    fn read(case: &mut Case) -> Option<LinkStep> {
        match case.word() {
            "ethernet2" => Some(PacketBuilder::ethernet2(case.array(), case.array())),
            "sll" => Some(PacketBuilder::linux_sll(LinuxSllHeader {
                packet_type: LinuxSllPacketType(case.number()),
                arp_hrd_type: ArpHardwareId(case.number()),
                sender_address_valid_length: case.number(),
                sender_address: case.array(),
                protocol_type: EtherType(0),
            })),
            "none" => None,
            _ => {
                case.refuse();
                None
            }
        }
    }
}

/// `none`, `single TAG` or `double TAG TAG`
impl Argument for Option<VlanHeader> {
    fn read(case: &mut Case) -> Option<VlanHeader> {
        match case.word() {
            "single" => Some(VlanHeader::Single(case.read())),
            "double" => Some(VlanHeader::Double {
                outer: case.read(),
                inner: case.read(),
            }),
            "none" => None,
            _ => {
                case.refuse();
                None
            }
        }
    }
}

/// `PCP DEI VLAN_ID`
impl Argument for SingleVlanHeader {
    fn read(case: &mut Case) -> SingleVlanHeader {
        SingleVlanHeader {
            pcp: case.field::<u8, _>(),
            drop_eligible_indicator: case.flag(),
            vlan_id: case.field::<u16, _>(),
            ether_type: EtherType(0),
        }
    }
}

/// `4` or `6`, and the fields
impl Argument for IpHeader {
    fn read(case: &mut Case) -> IpHeader {
        match case.word() {
            "4" => IpHeader::Ipv4(case.read()),
            "6" => IpHeader::Ipv6(case.read()),
            _ => {
                case.refuse();
                IpHeader::Ipv6(case.read())
            }
        }
    }
}

/// The bytes of a header
impl Argument for TcpHeader {
    fn read(case: &mut Case) -> TcpHeader {
        match TcpHeader::from_slice(&case.bytes()) {
            Ok((header, _)) => header,
            Err(_) => {
                case.refuse();
                TcpHeader::default()
            }
        }
    }
}

impl Shown for BuildSliceWriteError {
    fn show(&self, answer: &mut Answer) {
        match self {
            BuildSliceWriteError::PayloadLen(e) => e.show(answer),
            BuildSliceWriteError::Icmpv6InIpv4 => answer.words("err icmpv6_in_ipv4"),
            BuildSliceWriteError::Space(required) => answer.put("err space required=", *required),
        }
    }
}
