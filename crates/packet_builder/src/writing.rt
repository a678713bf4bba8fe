//! The parts of a packet, written into memory one after the other. Each function returns the place
//! after its part.

ghost use Rattle.std.specs.Prelude.{◌≡◌, ◌+◌, ◌++◌, ◌≤◌, length};
ghost use Rattle.etherparse.specs.Ipv4Header.{IsIpv4LayoutWith, ipv4_header_len};
ghost use Rattle.packet_builder.specs.BuiltPacket.{AreTags, IsIp, IsLink, IsTag, ip_len, link_len};
ghost use Rattle.packet_builder.specs.BuiltPacket.{AreLinkHeaders, AreTwoTags};
ghost use Rattle.packet_builder.specs.BuiltPacket.{first_ether_type, tags_len};
ghost use Rattle.packet_builder.specs.Writing.{WritesPart};

use crate::headers::{IpHeader, LinkHeader, VlanHeader};
use etherparse::Ipv4Header;
use etherparse_link::{EtherType, Ethernet2Header, LinuxSllHeader, SingleVlanHeader};

// These bytes.
#[inline(always)]
pub(crate) fn put(part: &[u8], at: usize, out: &mut [u8]) -> usize
    requires room { at + length part.now ≤ length out.old }
    ensures end { result ≡ at + length part.now }
    ensures writes { WritesPart (λ bytes. bytes ≡ part.now) at result out.old out.new }
{
    let end = at + part.len();
    out[at..end].copy_from_slice(part);
    end
}

// A transport header and a payload.
#[inline(always)]
pub(crate) fn put_upper(transport: &[u8], payload: &[u8], at: usize, out: &mut [u8]) -> usize
    requires room { at + length (transport.now ++ payload.now) ≤ length out.old }
    ensures end { result ≡ at + length (transport.now ++ payload.now) }
    ensures writes { WritesPart (λ bytes. bytes ≡ transport.now ++ payload.now)
        at result out.old out.new }
{
    let at = put(transport, at, out);
    put(payload, at, out)
}

// A link header and tags before what has this EtherType, at the front.
#[inline(always)]
pub(crate) fn put_link_headers(
    link: &Option<LinkHeader>,
    vlan: &Option<VlanHeader>,
    ether_type: EtherType,
    out: &mut [u8],
) -> usize
    requires room { link_len link.now + tags_len vlan.now ≤ length out.old }
    ensures end { result ≡ link_len link.now + tags_len vlan.now }
    ensures writes { WritesPart (AreLinkHeaders link.now vlan.now ether_type)
        0 result out.old out.new }
{
    let first = first_ether_type(vlan, ether_type);
    let at = put_link(link, first, 0, out);
    put_tags(vlan, ether_type, at, out)
}

// The EtherType that stands before these tags, before a packet of an EtherType.
#[inline(always)]
fn first_ether_type(vlan: &Option<VlanHeader>, ether_type: EtherType) -> EtherType
    ensures value { result ≡ first_ether_type vlan.now ether_type }
{
    match vlan {
        None => ether_type,
        Some(VlanHeader::Single(_)) => EtherType::VLAN_TAGGED_FRAME,
        Some(VlanHeader::Double { .. }) => EtherType::PROVIDER_BRIDGING,
    }
}

// A link header that has this EtherType.
#[inline(always)]
fn put_link(link: &Option<LinkHeader>, ether_type: EtherType, at: usize, out: &mut [u8]) -> usize
    requires room { at + link_len link.now ≤ length out.old }
    ensures end { result ≡ at + link_len link.now }
    ensures writes { WritesPart (IsLink link.now ether_type) at result out.old out.new }
{
    match link {
        None => put(&[], at, out),
        Some(LinkHeader::Ethernet2(header)) => {
            let header = Ethernet2Header {
                ether_type,
                ..*header
            };
            put(&header.to_bytes(), at, out)
        }
        Some(LinkHeader::LinuxSll(header)) => {
            let header = LinuxSllHeader {
                protocol_type: ether_type,
                ..*header
            };
            put(&header.to_bytes(), at, out)
        }
    }
}

// VLAN tags before what has this EtherType.
#[inline(always)]
fn put_tags(vlan: &Option<VlanHeader>, ether_type: EtherType, at: usize, out: &mut [u8]) -> usize
    requires room { at + tags_len vlan.now ≤ length out.old }
    ensures end { result ≡ at + tags_len vlan.now }
    ensures writes { WritesPart (AreTags vlan.now ether_type) at result out.old out.new }
{
    match vlan {
        None => put(&[], at, out),
        Some(VlanHeader::Single(tag)) => put_tag(tag, ether_type, at, out),
        Some(VlanHeader::Double { outer, inner }) => {
            put_two_tags(outer, inner, ether_type, at, out)
        }
    }
}

// Two tags before what has this EtherType.
#[inline(always)]
fn put_two_tags(
    outer: &SingleVlanHeader,
    inner: &SingleVlanHeader,
    ether_type: EtherType,
    at: usize,
    out: &mut [u8],
) -> usize
    requires room { at + 8 ≤ length out.old }
    ensures end { result ≡ at + 8 }
    ensures writes { WritesPart (AreTwoTags outer.now inner.now ether_type)
        at result out.old out.new }
{
    let at = put_tag(outer, EtherType::VLAN_TAGGED_FRAME, at, out);
    put_tag(inner, ether_type, at, out)
}

// A tag before what has this EtherType.
#[inline(always)]
fn put_tag(tag: &SingleVlanHeader, ether_type: EtherType, at: usize, out: &mut [u8]) -> usize
    requires room { at + 4 ≤ length out.old }
    ensures end { result ≡ at + 4 }
    ensures writes { WritesPart (IsTag tag.now ether_type) at result out.old out.new }
{
    let tag = SingleVlanHeader { ether_type, ..*tag };
    put(&tag.to_bytes(), at, out)
}

// An IP header.
#[inline(always)]
pub(crate) fn put_ip(ip: &IpHeader, at: usize, out: &mut [u8]) -> usize
    requires room { at + ip_len ip.now ≤ length out.old }
    ensures end { result ≡ at + ip_len ip.now }
    ensures writes { WritesPart (IsIp ip.now) at result out.old out.new }
{
    match ip {
        IpHeader::Ipv4(header) => put_ipv4(header, at, out),
        IpHeader::Ipv6(header) => put(&header.to_bytes(), at, out),
    }
}

// An IPv4 header. Most have no options: the compiler then knows the length, and stores the bytes
// without a copy in between.
#[inline(always)]
fn put_ipv4(header: &Ipv4Header, at: usize, out: &mut [u8]) -> usize
    requires room { at + ipv4_header_len header.now ≤ length out.old }
    ensures end { result ≡ at + ipv4_header_len header.now }
    ensures writes { WritesPart (IsIpv4LayoutWith header.now 0) at result out.old out.new }
{
    if header.options.is_empty() {
        return put(&header.to_bytes()[..Ipv4Header::MIN_LEN], at, out);
    }
    put_ipv4_with_options(header.clone().unwrap(), at, out)
}

// The same of a header with options. It is not inlined, so that a header without them stays in
// registers.
#[inline(never)]
fn put_ipv4_with_options(header: Ipv4Header, at: usize, out: &mut [u8]) -> usize
    requires room { at + ipv4_header_len header ≤ length out.old }
    ensures end { result ≡ at + ipv4_header_len header }
    ensures writes { WritesPart (IsIpv4LayoutWith header 0) at result out.old out.new }
{
    put(&header.to_bytes(), at, out)
}
