//! Parts of several calls' results: an error as numbers, and where the rest of a slice is.

ghost use Rattle.std.specs.Prelude.{ℕ, ◌≡◌, ◌≤◌, ◌+◌, List, length};
ghost use Rattle.c_answers.specs.Answer.{rest_of};
ghost use Rattle.c_answers.specs.Error.{chain_error_in_c, ipv4_error_in_c, ipv6_error_in_c};
ghost use Rattle.c_answers.specs.Error.{ip_error_in_c, ip_packet_layer_in_c, layer_in_c};
ghost use Rattle.c_answers.specs.Error.{len_error_in_c, link_error_in_c, link_type_error};
ghost use Rattle.c_answers.specs.Error.{slice_error_in_c, source_in_c, stop_in_c, tcp_error_in_c};

use etherparse::LenSource;
use etherparse::err::{Layer, LenError, ipv4, ipv6};
use etherparse_transport::TcpError;
use packet::error::SliceError;
use packet::link::LinkError;
use packet_parts::ip_slice::IpSliceError;

// The kinds of errors; 0 is none.
pub(crate) const LEN: u32 = 1;

pub(crate) const UNEXPECTED_VERSION: u32 = 2;

pub(crate) const HEADER_LENGTH_SMALLER_THAN_HEADER: u32 = 3;

pub(crate) const TOO_MANY: u32 = 4;

/// The kind of a value that is too big.
pub const VALUE_TOO_BIG: u32 = 5;

/// The kind of a length that options cannot have.
pub const BAD_OPTIONS_LEN: u32 = 6;

pub(crate) const DATA_OFFSET: u32 = 7;

pub(crate) const LINK_TYPE: u32 = 8;

// The layers.
pub(crate) const IPV4_HEADER: u16 = 1;

pub(crate) const IPV4_PACKET: u16 = 2;

pub(crate) const IPV6_HEADER: u16 = 3;

pub(crate) const IPV6_EXT_HEADER: u16 = 4;

pub(crate) const LINK_HEADER: u16 = 5;

pub(crate) const VLAN_HEADER: u16 = 6;

pub(crate) const IP_HEADER: u16 = 7;

pub(crate) const IPV4_PACKET_BYTES: u16 = 8;

pub(crate) const IPV6_PACKET: u16 = 9;

pub(crate) const UDP_HEADER: u16 = 10;

pub(crate) const TCP_HEADER: u16 = 11;

pub(crate) const ICMPV4: u16 = 12;

pub(crate) const ICMPV6: u16 = 13;

// The values that can be too big.
pub(crate) const IP_FRAGMENT_OFFSET: u16 = 1;

pub(crate) const IP_DSCP: u16 = 2;

pub(crate) const IP_ECN: u16 = 3;

pub(crate) const IPV6_FLOW_LABEL: u16 = 4;

/// The number of the length of an IPv4 payload, among the values that can be too big.
pub const IPV4_PAYLOAD_LENGTH: u16 = 5;

pub(crate) const IPV6_PAYLOAD_LENGTH: u16 = 6;

// Where a length that is too small comes from.
pub(crate) const FROM_SLICE: u16 = 0;

pub(crate) const FROM_IPV4_TOTAL_LEN: u16 = 1;

pub(crate) const FROM_IPV6_PAYLOAD_LENGTH: u16 = 2;

/// Why a call refused, as numbers; each number that its kind does not have is 0.
#[repr(C)]
#[derive(Default, Drop)]
pub struct Error {
    /// Which error it is: 0 none, 1 a length, 2 another version, 3 an IHL below 5, 4 too many
    /// extension headers, 5 a value that is too big, 6 a length that options cannot have, 7 a data
    /// offset below 5, 8 a link type that is not read.
    pub kind: u32,
    /// For kind 1 where the actual length comes from: 0 the end of the bytes that were passed, 1 the
    /// total length of an IPv4 header, 2 the payload length of an IPv6 header. For kind 2 the version
    /// number, for kind 3 the IHL, for kind 4 the number of the header that is one too many, for kind
    /// 5 which value it is: 1 a fragment offset, 2 a DSCP, 3 an ECN, 4 a flow label, 5 the length of
    /// an IPv4 payload, 6 that of an IPv6 payload. For kind 7 the data offset.
    pub number: u16,
    /// For kinds 1 to 4 and 7 the layer: 1 an IPv4 header, 2 an IPv4 packet, whose length is the
    /// total length of its header, 3 an IPv6 header, 4 an IPv6 extension header, 5 a link header, 6
    /// a VLAN tag, 7 an IP header of any version, 8 an IPv4 packet, whose length is how many bytes
    /// there are, 9 an IPv6 packet, 10 a UDP header, 11 a TCP header, 12 an ICMP message, 13 an
    /// ICMPv6 message.
    pub layer: u16,
    /// For kind 1 the required length, in bytes.
    pub required_len: usize,
    /// For kinds 1 and 6 the actual length, in bytes; for kind 5 the value; for kind 8 the number of
    /// the link type.
    pub len: usize,
    /// For kinds 1 and 4 where the layer starts, in bytes from the start of the slice.
    pub layer_start_offset: usize,
    /// For kind 4 how many headers were allowed, for kind 5 the greatest allowed value.
    pub limit: usize,
}

/// Where the rest of a slice is; of one that is refused, both numbers are 0.
#[repr(C)]
#[derive(Default, Drop)]
pub struct Rest {
    /// How many bytes of the slice come before it.
    pub offset: usize,
    /// How many bytes it has.
    pub len: usize,
}

impl Error {
    /// The error of a length that is too small.
    #[inline(always)]
    pub fn of_len(e: &LenError) -> Error
        ensures value { result ≡ len_error_in_c e.now }
    {
        Error {
            kind: LEN,
            number: source_number(e.len_source),
            layer: layer_number(e.layer),
            required_len: e.required_len,
            len: e.len,
            layer_start_offset: e.layer_start_offset,
            ..Error::default()
        }
    }

    /// The error of an IPv4 reader.
    #[inline(always)]
    pub fn of_ipv4(e: &ipv4::HeaderSliceError) -> Error
        ensures value { result ≡ ipv4_error_in_c e.now }
    {
        match e {
            ipv4::HeaderSliceError::Len(e) => Error::of_len(e),
            ipv4::HeaderSliceError::Content(
                ipv4::HeaderError::UnexpectedVersion { version_number },
            ) => Error {
                kind: UNEXPECTED_VERSION,
                number: u16::from(*version_number),
                layer: IPV4_HEADER,
                ..Error::default()
            },
            ipv4::HeaderSliceError::Content(
                ipv4::HeaderError::HeaderLengthSmallerThanHeader { ihl },
            ) => Error {
                kind: HEADER_LENGTH_SMALLER_THAN_HEADER,
                number: u16::from(*ihl),
                layer: IPV4_HEADER,
                ..Error::default()
            },
        }
    }

    /// The error of an IPv6 reader.
    #[inline(always)]
    pub fn of_ipv6(e: &ipv6::HeaderSliceError) -> Error
        ensures value { result ≡ ipv6_error_in_c e.now }
    {
        match e {
            ipv6::HeaderSliceError::Len(e) => Error::of_len(e),
            ipv6::HeaderSliceError::Content(
                ipv6::HeaderError::UnexpectedVersion { version_number },
            ) => Error {
                kind: UNEXPECTED_VERSION,
                number: u16::from(*version_number),
                layer: IPV6_HEADER,
                ..Error::default()
            },
        }
    }

    /// The error of a walk past extension headers.
    #[inline(always)]
    pub fn of_chain(e: &ipv6::ChainError) -> Error
        ensures value { result ≡ chain_error_in_c e.now }
    {
        match e {
            ipv6::ChainError::Len(e) => Error::of_len(e),
            ipv6::ChainError::TooMany {
                limit,
                next_header,
                layer_start_offset,
            } => Error {
                kind: TOO_MANY,
                number: u16::from(*next_header),
                layer: IPV6_EXT_HEADER,
                layer_start_offset: *layer_start_offset,
                limit: *limit,
                ..Error::default()
            },
        }
    }

    // The error of an IP packet.
    fn of_ip(e: &IpSliceError) -> Error
        ensures value { result ≡ ip_error_in_c e.now }
    {
        match e {
            IpSliceError::Empty(e) => Error::of_len(e),
            IpSliceError::UnexpectedVersion { version_number } => Error {
                kind: UNEXPECTED_VERSION,
                number: u16::from(*version_number),
                layer: IP_HEADER,
                ..Error::default()
            },
            IpSliceError::Ipv4Header(e) => Error::of_ipv4(e),
            IpSliceError::Ipv6Header(e) => Error::of_ipv6(e),
            IpSliceError::Packet(e) => Error {
                layer: packet_layer_number(e.len_source, e.layer),
                ..Error::of_len(e)
            },
            IpSliceError::Extensions(e) => Error::of_len(e),
        }
    }

    // The error of a link header.
    pub(crate) fn of_link(e: &LinkError) -> Error
        ensures value { result ≡ link_error_in_c e.now }
    {
        Error {
            kind: LEN,
            layer: LINK_HEADER,
            required_len: e.required_len,
            len: e.len,
            ..Error::default()
        }
    }

    // The error of a TCP header.
    fn of_tcp(e: &TcpError) -> Error
        ensures value { result ≡ tcp_error_in_c e.now }
    {
        match e {
            TcpError::Len(e) => Error::of_len(e),
            TcpError::DataOffset(offset) => Error {
                kind: DATA_OFFSET,
                number: u16::from(*offset),
                layer: TCP_HEADER,
                ..Error::default()
            },
        }
    }

    // Why a frame is not read further.
    #[cold]
    #[inline(never)] // A frame that nothing stops then needs no room for it.
    pub(crate) fn of_slice_error(e: &SliceError) -> Error
        ensures value { result ≡ slice_error_in_c e.now }
    {
        match e {
            SliceError::Link(e) => Error::of_link(e),
            SliceError::Vlan(e) => Error::of_len(e),
            SliceError::Ip(e) => Error::of_ip(e),
            SliceError::Udp(e) => Error::of_len(e),
            SliceError::Tcp(e) => Error::of_tcp(e),
            SliceError::Icmp(e) => Error::of_len(e),
        }
    }

    // The same, or no error.
    #[inline(always)]
    pub(crate) fn of_stop(stop: &Option<SliceError>) -> Error
        ensures value { result ≡ stop_in_c stop.now }
    {
        match stop {
            Some(e) => Error::of_slice_error(e),
            None => Error::default(),
        }
    }

    // The error of a link type that is not read.
    pub(crate) fn of_link_type(number: u32) -> Error
        ensures value { result ≡ link_type_error number }
    {
        Error {
            kind: LINK_TYPE,
            len: number as usize,
            ..Error::default()
        }
    }
}

impl Rest {
    /// The rest of a slice.
    #[inline(always)]
    pub fn of(slice: &[u8], rest: &[u8]) -> Rest
        requires { length rest.now ≤ length slice.now }
        ensures value { result ≡ rest_of slice.now rest.now }
    {
        Rest {
            offset: slice.len() - rest.len(),
            len: rest.len(),
        }
    }

    /// What follows the front of a slice.
    #[inline(always)]
    pub fn after(slice: &[u8], front: &[u8]) -> Rest
        requires { length front.now ≤ length slice.now }
        ensures value { (rest : List ℕ) → length front.now + length rest ≡ length slice.now →
            result ≡ rest_of slice.now rest }
    {
        Rest {
            offset: front.len(),
            len: slice.len() - front.len(),
        }
    }
}

// The number of a layer.
#[inline(always)]
fn layer_number(layer: Layer) -> u16
    ensures value { result ≡ layer_in_c layer }
{
    match layer {
        Layer::Ipv4Header => IPV4_HEADER,
        Layer::Ipv4Packet => IPV4_PACKET,
        Layer::Ipv6Header => IPV6_HEADER,
        Layer::Ipv6ExtHeader => IPV6_EXT_HEADER,
        Layer::VlanHeader => VLAN_HEADER,
        Layer::IpHeader => IP_HEADER,
        Layer::Ipv6Packet => IPV6_PACKET,
        Layer::UdpHeader => UDP_HEADER,
        Layer::TcpHeader => TCP_HEADER,
        Layer::Icmpv4 => ICMPV4,
        Layer::Icmpv6 => ICMPV6,
        _ => 0,
    }
}

// The number of the source of a length; 3 if it is none that an error of a call has.
#[inline(always)]
fn source_number(source: LenSource) -> u16
    ensures value { result ≡ source_in_c source }
{
    match source {
        LenSource::Slice => FROM_SLICE,
        LenSource::Ipv4HeaderTotalLen => FROM_IPV4_TOTAL_LEN,
        LenSource::Ipv6HeaderPayloadLen => FROM_IPV6_PAYLOAD_LENGTH,
        _ => 3,
    }
}

// The number of the layer of an IP packet with a wrong length.
fn packet_layer_number(source: LenSource, layer: Layer) -> u16
    ensures value { result ≡ ip_packet_layer_in_c source layer }
{
    match (source, layer) {
        (LenSource::Slice, Layer::Ipv4Packet) => IPV4_PACKET_BYTES,
        _ => layer_number(layer),
    }
}
