//! The headers that come before the transport header of a packet that is built.

ghost use Rattle.std.specs.Prelude.{◌≡◌, ◌+◌, ◌≤◌};
ghost use Rattle.packet_builder.specs.BuiltPacket.{ether_type_of, link_len, tags_len};
ghost use Rattle.packet_builder.specs.Steps.{ipv4_header, ipv6_header};

use crate::build_slice_write_error::BuildSliceWriteError;
use crate::writing::{put_ip, put_link_headers};
use etherparse::err::{ValueTooBigError, ValueType};
use etherparse::{IpNumber, Ipv4Header, Ipv6Header};
use etherparse_link::{EtherType, Ethernet2Header, LinuxSllHeader, SingleVlanHeader};

/// A link header. Its EtherType is set when the packet is written.
#[derive(Clone, Copy, Debug, PartialEq, Eq)]
pub enum LinkHeader {
    /// That of Ethernet (IEEE 802.3 section 3.1.1).
    Ethernet2(Ethernet2Header),
    /// That of a Linux cooked capture (LINKTYPE_LINUX_SLL).
    LinuxSll(LinuxSllHeader),
}

/// VLAN tags (IEEE 802.1Q). Their EtherTypes are set when the packet is written.
#[derive(Clone, Copy, Debug, PartialEq, Eq)]
pub enum VlanHeader {
    /// One tag, of a customer's VLAN.
    Single(SingleVlanHeader),
    /// Two tags, as in a network of a service provider.
    Double {
        /// The first tag, of a service's VLAN.
        outer: SingleVlanHeader,
        /// The tag after it, of a customer's VLAN.
        inner: SingleVlanHeader,
    },
}

/// An IP header of either version. Its length, the number of what follows it, and the checksum of
/// IPv4 are set when the packet is written.
#[derive(Clone, Debug, PartialEq, Eq, Drop)]
pub enum IpHeader {
    /// That of IPv4, with its options. If these have a source route, the checksum of UDP or TCP is
    /// for its last address (RFC 791 section 3.1).
    Ipv4(Ipv4Header),
    /// That of IPv6.
    Ipv6(Ipv6Header),
}

/// All headers before the transport header.
#[derive(Clone, Debug, Drop)]
pub struct Headers {
    /// The link header, if there is one.
    pub link: Option<LinkHeader>,
    /// The VLAN tags, if there are any.
    pub vlan: Option<VlanHeader>,
    /// The IP header.
    pub ip: IpHeader,
}

impl Headers {
    ghost use Rattle.std.specs.Prelude.{◌≡◌, ◌≤◌, ◌↔◌, IfErr, IfOk, IsOk, OnErr, OnOk, length};
    ghost use Rattle.packet_builder.specs.BuiltPacket.{AreHeadersBefore, FitsInto, IsIpBefore};
    ghost use Rattle.packet_builder.specs.BuiltPacket.{RefusesToWrite, headers_len};
    ghost use Rattle.packet_builder.specs.Writing.{WritesPart};

    /// The length of the headers, in bytes.
    #[inline(always)]
    pub fn len(&self) -> usize
        ensures value { result ≡ headers_len self.now }
        ensures within { result ≤ 84 }
    {
        let ip = match &self.ip {
            IpHeader::Ipv4(header) => header.header_len(),
            IpHeader::Ipv6(_) => Ipv6Header::LEN,
        };
        link_headers_len(&self.link, &self.vlan) + ip
    }

    // Writes the headers before this many bytes of a protocol, at the front of memory that has room
    // for the whole packet. Returns their length. The IP header is now the one that is written.
    // It comes before the payload is summed: after that loop, branches are often mispredicted.
    #[inline(always)]
    pub(crate) fn put(
        &mut self,
        protocol: IpNumber,
        len: usize,
        out: &mut [u8],
    ) -> Result<usize, BuildSliceWriteError>
        ensures accepted { IsOk result ↔ FitsInto self.old len (length out.old) }
        ensures refused { IfErr result (RefusesToWrite self.old len (length out.old)) }
        ensures unchanged { OnErr result (out.new ≡ out.old) }
        ensures made { OnOk result (IsIpBefore self.old.ip protocol len self.new.ip) }
        ensures end { IfOk result (λ at. at ≡ headers_len self.old) }
        ensures writes { IfOk result (λ at.
            WritesPart (AreHeadersBefore self.old protocol len) 0 at out.old out.new) }
    {
        self.check(len, out.len())?;
        let at = put_link_headers(&self.link, &self.vlan, ether_type_of(&self.ip), out);
        self.ip.set_before(protocol, len);
        Ok(put_ip(&self.ip, at, out))
    }

    // Whether a packet with this many bytes after its IP header can be written in this room.
    #[inline(always)]
    fn check(&self, len: usize, room: usize) -> Result<(), BuildSliceWriteError>
        ensures accepted { IsOk result ↔ FitsInto self.now len room }
        ensures refused { IfErr result (RefusesToWrite self.now len room) }
    {
        let max_allowed = self.ip.max_len_after();
        if len > max_allowed {
            return Err(BuildSliceWriteError::PayloadLen(ValueTooBigError {
                actual: len,
                max_allowed,
                value_type: self.ip.len_type(),
            }));
        }
        let required_len = self.len() + len;
        if room < required_len {
            return Err(BuildSliceWriteError::Space(required_len));
        }
        Ok(())
    }
}

impl IpHeader {
    ghost use Rattle.std.specs.Prelude.{◌≡◌, ◌≤◌};
    ghost use Rattle.packet_builder.specs.BuiltPacket.{IsIpBefore, len_type, max_len_after};

    // How many bytes can follow the header.
    #[inline(always)]
    fn max_len_after(&self) -> usize
        ensures value { result ≡ max_len_after self.now }
        ensures within { result ≤ 65535 }
    {
        match self {
            IpHeader::Ipv4(header) => usize::from(header.max_payload_len()),
            IpHeader::Ipv6(_) => usize::from(u16::MAX),
        }
    }

    // The name of that length.
    #[inline(always)]
    fn len_type(&self) -> ValueType
        ensures value { result ≡ len_type self.now }
    {
        match self {
            IpHeader::Ipv4(_) => ValueType::Ipv4PayloadLength,
            IpHeader::Ipv6(_) => ValueType::Ipv6PayloadLength,
        }
    }

    // Makes it the header before this many bytes of a protocol.
    #[inline(always)]
    fn set_before(&mut self, protocol: IpNumber, len: usize)
        requires counts { len ≤ max_len_after self.old }
        ensures made { IsIpBefore self.old protocol len self.new }
    {
        match self {
            IpHeader::Ipv4(header) => {
                header.total_len = (header.header_len() + len) as u16;
                header.protocol = protocol;
                header.header_checksum = header.calc_header_checksum();
            }
            IpHeader::Ipv6(header) => {
                header.payload_length = len as u16;
                header.next_header = protocol;
            }
        }
    }
}

// An IPv4 header without options, between these addresses.
#[inline(always)]
pub(crate) fn ipv4_header(source: [u8; 4], destination: [u8; 4], time_to_live: u8) -> IpHeader
    ensures value { result ≡ ipv4_header source destination time_to_live }
{
    IpHeader::Ipv4(Ipv4Header {
        time_to_live,
        source,
        destination,
        ..Ipv4Header::default()
    })
}

// An IPv6 header between these addresses.
#[inline(always)]
pub(crate) fn ipv6_header(source: [u8; 16], destination: [u8; 16], hop_limit: u8) -> IpHeader
    ensures value { result ≡ ipv6_header source destination hop_limit }
{
    IpHeader::Ipv6(Ipv6Header {
        hop_limit,
        source,
        destination,
        ..Ipv6Header::default()
    })
}

// The EtherType of an IP packet with this header.
#[inline(always)]
fn ether_type_of(ip: &IpHeader) -> EtherType
    ensures value { result ≡ ether_type_of ip.now }
{
    match ip {
        IpHeader::Ipv4(_) => EtherType::IPV4,
        IpHeader::Ipv6(_) => EtherType::IPV6,
    }
}

// The length of a link header and tags, in bytes.
#[inline(always)]
pub(crate) fn link_headers_len(link: &Option<LinkHeader>, vlan: &Option<VlanHeader>) -> usize
    ensures value { result ≡ link_len link.now + tags_len vlan.now }
    ensures within { result ≤ 24 }
{
    let link = match link {
        None => 0,
        Some(LinkHeader::Ethernet2(_)) => Ethernet2Header::LEN,
        Some(LinkHeader::LinuxSll(_)) => LinuxSllHeader::LEN,
    };
    let tags = match vlan {
        None => 0,
        Some(VlanHeader::Single(_)) => SingleVlanHeader::LEN,
        Some(VlanHeader::Double { .. }) => 2 * SingleVlanHeader::LEN,
    };
    link + tags
}
