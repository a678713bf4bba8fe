//! Packets of either version, taken apart by `packet_parts` and rewritten by `packet_rewriting`.

use crate::case::Case;
use crate::shown::{Answer, Shown};
use etherparse::err::ipv6::HeaderSliceError;
use etherparse::{IpNumber, Ipv4Header, Ipv6Header};
use etherparse_net::Ipv6FragmentHeader;
use etherparse_transport::{TcpHeaderSlice, UdpHeader};
use packet_parts::checksum::{Absence, Verdict};
use packet_parts::fragment_key::{Ipv4Key, Ipv6Key, ipv4_key, ipv6_key};
use packet_parts::ip_slice::{IpHeaderSlice, IpSlice, IpSliceError};
use packet_rewriting::echo::{icmpv4_reply, icmpv6_reply};
use packet_rewriting::translation::{
    translate_tcp_destination, translate_tcp_source, translate_udp_destination,
    translate_udp_source,
};
use std::alloc::AllocError;

// The addresses that translation gives to packets: 198.51.100.7 and 203.0.113.9 (RFC 5737).
const SOURCE: [u8; 4] = [198, 51, 100, 7];

const DESTINATION: [u8; 4] = [203, 0, 113, 9];

/// `packet B`: the parts of a packet; what its upper layer holds, if it is no fragment; its key, if
/// it is one.
pub fn answer(case: &mut Case) {
    let bytes = case.bytes();
    write_parts(&bytes, case);
    write_keys(&bytes, &mut case.answer);
}

// The parts of a packet, and what its upper layer holds, if it is no fragment.
fn write_parts(bytes: &[u8], case: &mut Case) {
    let sliced = IpSlice::from_slice(bytes);
    sliced.show(&mut case.answer);
    match &sliced {
        Ok(slice) if slice.fragment.is_none() => write_upper(slice, case),
        _ => (),
    }
}

// The key of a packet that is a fragment, and its first fragment header.
fn write_keys(bytes: &[u8], answer: &mut Answer) {
    match bytes.first() {
        Some(first) if *first >> 4 == 4 => write_key(&ipv4_key(bytes), answer),
        Some(first) if *first >> 4 == 6 => {
            write_fragment_header(bytes, answer);
            write_key(&ipv6_key(bytes), answer);
        }
        _ => (),
    }
}

// The key of a packet, if it is a fragment.
fn write_key<K: Shown, E: Shown>(key: &Result<Option<K>, E>, answer: &mut Answer) {
    match key {
        Ok(Some(key)) => answer.shown(" ; key ", key),
        Ok(None) => answer.words(" ; key=none"),
        Err(e) => answer.shown(" ; key=", e),
    }
}

// The first fragment header of a packet, if it has one.
fn write_fragment_header(bytes: &[u8], answer: &mut Answer) {
    match first_fragment_header(bytes) {
        Ok(Some((header, rest))) => {
            answer.shown(" ; fragment_header ", &header);
            answer.bytes(" rest=", rest);
        }
        Ok(None) => answer.words(" ; fragment_header=none"),
        Err(e) => answer.shown(" ; fragment_header=", &e),
    }
}

impl Shown for IpSliceError {
    fn show(&self, answer: &mut Answer) {
        match self {
            IpSliceError::Empty(e) => answer.shown("empty=", e),
            IpSliceError::UnexpectedVersion { version_number } => {
                answer.put("err version number=", *version_number)
            }
            IpSliceError::Ipv4Header(e) => answer.shown("header=", e),
            IpSliceError::Ipv6Header(e) => answer.shown("header=", e),
            IpSliceError::Packet(e) => answer.shown("packet=", e),
            IpSliceError::Extensions(e) => answer.shown("extensions=", e),
        }
    }
}

impl Shown for IpSlice<'_> {
    fn show(&self, answer: &mut Answer) {
        match &self.header {
            IpHeaderSlice::Ipv4(view) => view.to_header().show(answer),
            IpHeaderSlice::Ipv6(view) => {
                view.to_header().show(answer);
                answer.bytes(" extensions=", self.extensions);
            }
        }
        answer.put(" upper=", self.upper.0);
        answer.bytes(" payload=", self.payload);
        answer.put(" fragment=", self.fragment.is_some());
    }
}

// What the payload of a packet that is no fragment holds.
fn write_upper(slice: &IpSlice, case: &mut Case) {
    match (&slice.header, slice.upper) {
        (_, IpNumber::UDP) => write_udp(slice, &mut case.answer),
        (_, IpNumber::TCP) => write_tcp(slice, &mut case.answer),
        (IpHeaderSlice::Ipv4(_), IpNumber::ICMP) | (IpHeaderSlice::Ipv6(_), IpNumber::IPV6_ICMP) =>
            write_echo(slice, case),
        _ => (),
    }
}

// A UDP header, and the checksum of its datagram.
fn write_udp(slice: &IpSlice, answer: &mut Answer) {
    match UdpHeader::from_slice(slice.payload) {
        Ok((mut udp, rest)) => {
            let checksum = udp.checksum;
            answer.shown(" ; udp ", &udp);
            write_udp_checksum(slice, &mut udp, rest, answer);
            write_translated(slice, checksum, answer);
        }
        Err(e) => answer.shown(" ; udp=", &e),
    }
}

// Whether the checksum of a datagram is correct, and its header with a newly computed one, if the
// payload has as many bytes as the length says.
fn write_udp_checksum(slice: &IpSlice, udp: &mut UdpHeader, rest: &[u8], answer: &mut Answer) {
    let len = usize::from(udp.length);
    if len < 8 || rest.len() < len - 8 {
        return;
    }
    let data = &rest[..len - 8];
    match &slice.header {
        IpHeaderSlice::Ipv4(view) => udp.set_checksum_ipv4(&view.to_header(), data),
        IpHeaderSlice::Ipv6(view) => udp.set_checksum_ipv6(&view.to_header(), data),
    }
    answer.put(" right=", is_right(slice));
    answer.bytes(" made=", &udp.to_bytes());
}

// Whether a receiver finds no fault with the checksum: it is correct, or there is none.
fn is_right(slice: &IpSlice) -> bool {
    match slice.verdict() {
        Verdict::Right | Verdict::Absent(Absence::NotComputed) => true,
        _ => false,
    }
}

// A TCP header, and the checksum of its segment.
fn write_tcp(slice: &IpSlice, answer: &mut Answer) {
    match TcpHeaderSlice::from_slice(slice.payload) {
        Ok(view) => {
            answer.shown(" ; tcp ", &view);
            answer.put(" right=", is_right(slice));
            write_translated(slice, view.checksum(), answer);
        }
        Err(e) => answer.shown(" ; tcp=", &e),
    }
}

impl Shown for TcpHeaderSlice<'_> {
    fn show(&self, answer: &mut Answer) {
        answer.put("source_port=", self.source_port());
        answer.put(" destination_port=", self.destination_port());
        answer.put(" sequence_number=", self.sequence_number());
        answer.put(" acknowledgment_number=", self.acknowledgment_number());
        answer.put(" data_offset=", self.data_offset());
        answer.put(" flags=", self.flags());
        answer.put(" window_size=", self.window_size());
        answer.put(" checksum=", self.checksum());
        answer.put(" urgent_pointer=", self.urgent_pointer());
        answer.put(" fin=", self.fin());
        answer.put(" syn=", self.syn());
        answer.put(" rst=", self.rst());
        answer.put(" ack=", self.ack());
        answer.bytes(" options=", self.options());
    }
}

// The header of an IPv4 packet and the checksum of UDP or TCP, with other addresses.
fn write_translated(slice: &IpSlice, checksum: u16, answer: &mut Answer) {
    let IpHeaderSlice::Ipv4(view) = &slice.header else {
        return;
    };
    let mut header = view.to_header();
    let checksum = translated(&mut header, checksum);
    answer.bytes(" ; translated source=", &header.source);
    answer.bytes(" destination=", &header.destination);
    answer.put(" header_checksum=", header.header_checksum);
    answer.put(" checksum=", checksum);
}

fn translated(header: &mut Ipv4Header, checksum: u16) -> u16 {
    if header.protocol == IpNumber::UDP {
        let checksum = translate_udp_source(header, checksum, SOURCE);
        return translate_udp_destination(header, checksum, DESTINATION);
    }
    let checksum = translate_tcp_source(header, checksum, SOURCE);
    translate_tcp_destination(header, checksum, DESTINATION)
}

// The reply to an echo request, or the message as it was. The reply goes to the sender of the
// request.
fn write_echo(slice: &IpSlice, case: &mut Case) {
    match slice.payload.to_vec(case.alloc) {
        Ok(mut message) => {
            let is_reply = reply(&slice.header, &mut message);
            case.answer.put(" ; reply=", is_reply);
            case.answer.bytes(" message=", &message);
        }
        Err(AllocError) => case.answer.is_out_of_memory = true,
    }
}

// Whether a message is an echo request, which then becomes the reply.
fn reply(header: &IpHeaderSlice, message: &mut [u8]) -> bool {
    match header {
        IpHeaderSlice::Ipv4(_) => icmpv4_reply(message),
        IpHeaderSlice::Ipv6(view) => icmpv6_reply(view.destination(), view.source(), message),
    }
}

// The key that the fragments of a packet of version 4 share.
impl Shown for Ipv4Key {
    fn show(&self, answer: &mut Answer) {
        answer.bytes("source=", &self.source);
        answer.bytes(" destination=", &self.destination);
        answer.put(" protocol=", self.protocol.0);
        answer.put(" identification=", self.identification);
    }
}

// The key that the fragments of a packet of version 6 share.
impl Shown for Ipv6Key {
    fn show(&self, answer: &mut Answer) {
        answer.bytes("source=", &self.source);
        answer.bytes(" destination=", &self.destination);
        answer.put(" identification=", self.identification);
    }
}

// The first fragment header of a packet of version 6, which can be an atomic one, and all the bytes
// after it: the packet is not cut at its payload length.
fn first_fragment_header(
    packet: &[u8],
) -> Result<Option<(Ipv6FragmentHeader, &[u8])>, HeaderSliceError> {
    let (header, body) = Ipv6Header::from_slice(packet)?;
    let mut number = header.next_header;
    let mut rest = body;
    'headers: loop {
        let place = packet.len() - rest.len();
        if number == IpNumber::IPV6_FRAGMENTATION_HEADER {
            return match Ipv6FragmentHeader::from_slice(rest) {
                Ok(found) => Ok(Some(found)),
                Err(e) => Err(HeaderSliceError::Len(e.add_offset(place))),
            };
        }
        if !Ipv6Header::is_skippable_header_extension(number) {
            return Ok(None);
        }
        match Ipv6Header::skip_header_extension_in_slice(rest, number) {
            Ok(skipped) => (number, rest) = skipped,
            Err(e) => return Err(HeaderSliceError::Len(e.add_offset(place))),
        }
    }
}
