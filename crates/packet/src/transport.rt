//! The transport header of an IP packet: UDP, TCP, and ICMP of either version.

ghost use Rattle.std.specs.Prelude.{ℕ, ◌≡◌, ◌≤◌, ◌+◌, ◌^◌, ◌<◌, IfNone, IfSome, length};
ghost use Rattle.std.specs.Result.{result_map_both};
ghost use Rattle.etherparse.specs.Reading.{IsTooShort, Reads, found_and_rest};
ghost use Rattle.packet.specs.Transport.{HasPorts, IsIcmpLayout, ReadsHeader, ReadsTransport};
ghost use Rattle.packet.specs.Transport.{protocol_of, transport_parts};
ghost use Rattle.packet_parts.specs.IpSlice.{payload_end_of};

use crate::error::{SliceError, error_by, tcp_error_moved};
use etherparse::err::{Layer, LenError};
use etherparse::{IpNumber, LenSource};
use etherparse_transport::{TcpHeaderSlice, UdpHeader};
use packet_parts::ip_slice::{IpHeaderSlice, IpSlice};

/// The transport header of an IP packet, and what there is of what follows it.
#[derive(Clone, Copy, Debug, PartialEq, Eq)]
pub enum TransportSlice<'a> {
    /// A UDP datagram (RFC 768).
    Udp {
        /// The header. Its `length` counts header and payload as the sender says it, and can differ
        /// from what is there.
        header: UdpHeader,
        /// All bytes after the header.
        payload: &'a [u8],
    },
    /// A TCP segment (RFC 9293).
    Tcp {
        /// The header with its options.
        header: TcpHeaderSlice<'a>,
        /// All bytes after the header.
        payload: &'a [u8],
    },
    /// A message of ICMP (RFC 792), over IPv4.
    Icmpv4 {
        /// What all messages begin with.
        header: IcmpHeader,
        /// All bytes after the checksum.
        payload: &'a [u8],
    },
    /// A message of ICMPv6 (RFC 4443), over IPv6.
    Icmpv6 {
        /// What all messages begin with.
        header: IcmpHeader,
        /// All bytes after the checksum.
        payload: &'a [u8],
    },
}

/// What all messages of ICMP (RFC 792) and of ICMPv6 (RFC 4443 section 2.1) begin with: 4 bytes.
#[derive(Clone, Copy, Debug, PartialEq, Eq)]
pub struct IcmpHeader {
    /// The type: byte 0.
    pub type_u8: u8,
    /// The code: byte 1.
    pub code_u8: u8,
    /// The checksum: bytes 2 and 3.
    pub checksum: u16,
}

// The protocols whose headers are read.
#[derive(Clone, Copy)]
pub(crate) enum Protocol {
    Udp,
    Tcp,
    Icmpv4,
    Icmpv6,
}

// The protocol of the payload of a packet, unless that is of a later fragment.
#[inline(always)]
fn protocol_of(ip: &IpSlice) -> Option<Protocol>
    ensures value { result ≡ protocol_of ip.now }
{
    if ip.is_later_fragment {
        return None;
    }
    let is_ipv4 = matches!(ip.header, IpHeaderSlice::Ipv4(_));
    match ip.upper {
        IpNumber::UDP => Some(Protocol::Udp),
        IpNumber::TCP => Some(Protocol::Tcp),
        IpNumber::ICMP if is_ipv4 => Some(Protocol::Icmpv4),
        IpNumber::IPV6_ICMP if !is_ipv4 => Some(Protocol::Icmpv6),
        _ => None,
    }
}

// The ports of a packet: the first four bytes of its payload.
pub(crate) fn ports_in(ip: &IpSlice) -> Option<(u16, u16)>
    ensures found { IfSome result (HasPorts ip.now) }
    ensures none { IfNone result ((ports : ℕ × ℕ) → ¬ HasPorts ip.now ports) }
{
    let payload = ip.payload;
    match protocol_of(ip) {
        Some(Protocol::Udp | Protocol::Tcp) if payload.len() >= 4 => Some((
            u16::from_be_bytes([payload[0], payload[1]]),
            u16::from_be_bytes([payload[2], payload[3]]),
        )),
        _ => None,
    }
}

// The transport header of a payload at a place, or the error of one that is incomplete.
#[inline(always)]
pub(crate) fn transport_of<'a>(
    place: usize,
    ip: &IpSlice<'a>,
) -> (Option<TransportSlice<'a>>, Option<SliceError>)
    requires fits { place < 2 ^ 63 }
    ensures reads { ReadsTransport place ip.now result.0 result.1 }
{
    let protocol = match protocol_of(ip) {
        Some(protocol) => protocol,
        None => return (None, None),
    };
    match header_of(protocol, place, ip.payload) {
        Ok(found) => (Some(found), None),
        Err(e) => match ip.fragment {
            Some(_) => (None, None),
            None => (None, Some(error_by(payload_end_of(&ip.header), e))),
        },
    }
}

// What says where the payload of a packet ends that has all its bytes.
#[inline(always)]
fn payload_end_of(header: &IpHeaderSlice) -> LenSource
    ensures value { result ≡ payload_end_of header.now }
{
    match header {
        IpHeaderSlice::Ipv4(_) => LenSource::Ipv4HeaderTotalLen,
        IpHeaderSlice::Ipv6(_) => LenSource::Ipv6HeaderPayloadLen,
    }
}

// The header of a protocol at the front of a payload at a place.
#[inline(always)]
fn header_of(protocol: Protocol, place: usize, payload: &[u8]) -> Result<TransportSlice, SliceError>
    requires fits { place < 2 ^ 63 }
    ensures reads { ReadsHeader protocol place payload.now
        (result_map_both transport_parts (λ e. e) result) }
{
    match protocol {
        Protocol::Udp => match UdpHeader::from_slice(payload) {
            Ok((header, payload)) => Ok(TransportSlice::Udp { header, payload }),
            Err(e) => Err(SliceError::Udp(e.add_offset(place))),
        },
        Protocol::Tcp => match TcpHeaderSlice::from_slice(payload) {
            Ok(header) => {
                let payload = &payload[header.slice.len()..];
                Ok(TransportSlice::Tcp { header, payload })
            }
            Err(e) => Err(SliceError::Tcp(tcp_error_moved(place, e))),
        },
        Protocol::Icmpv4 => match icmp(Layer::Icmpv4, payload) {
            Ok((header, payload)) => Ok(TransportSlice::Icmpv4 { header, payload }),
            Err(e) => Err(SliceError::Icmp(e.add_offset(place))),
        },
        Protocol::Icmpv6 => match icmp(Layer::Icmpv6, payload) {
            Ok((header, payload)) => Ok(TransportSlice::Icmpv6 { header, payload }),
            Err(e) => Err(SliceError::Icmp(e.add_offset(place))),
        },
    }
}

// What a message begins with, and the rest of it.
#[inline(always)]
fn icmp(layer: Layer, message: &[u8]) -> Result<(IcmpHeader, &[u8]), LenError>
    ensures reads { Reads IsIcmpLayout (IsTooShort layer 4) message.now (found_and_rest result) }
{
    if message.len() < 4 {
        return Err(LenError {
            required_len: 4,
            len: message.len(),
            len_source: LenSource::Slice,
            layer,
            layer_start_offset: 0,
        });
    }
    Ok((icmp_header_of(&message[..4]), &message[4..]))
}

// The header of 4 bytes.
#[inline(always)]
fn icmp_header_of(bytes: &[u8]) -> IcmpHeader
    requires { length bytes.now ≡ 4 }
    ensures layout { IsIcmpLayout result bytes.now }
{
    IcmpHeader {
        type_u8: bytes[0],
        code_u8: bytes[1],
        checksum: u16::from_be_bytes([bytes[2], bytes[3]]),
    }
}
