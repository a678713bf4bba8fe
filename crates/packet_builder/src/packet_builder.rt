//! Where a packet that is built begins.

use crate::headers::{IpHeader, LinkHeader, ipv4_header, ipv6_header};
use crate::ip_step::IpStep;
use crate::link_step::LinkStep;
use etherparse_link::{EtherType, Ethernet2Header, LinuxSllHeader};

/// Builds a packet from its headers, from the outside to the inside, and writes it with a payload.
/// All lengths, EtherTypes, protocol numbers and checksums are set as the packet is written.
///
/// # Example
///
/// ```
/// let (source, destination) = ([1, 2, 3, 4, 5, 6], [7, 8, 9, 10, 11, 12]);
/// let builder = PacketBuilder::ethernet2(source, destination)
///     .ipv4([192, 168, 1, 1], [192, 168, 1, 2], 20)
///     .udp(21, 1234);
/// let mut memory = [0; 64];
/// let len = builder.write_to_slice(&mut memory, &[1, 2, 3, 4, 5, 6, 7, 8])?;
/// assert!(rt; len == 50);
/// ```
#[derive(Clone, Copy, Debug)]
pub struct PacketBuilder;

impl PacketBuilder {
    ghost use Rattle.std.specs.Prelude.{◌≡◌, None};
    ghost use Rattle.packet_builder.specs.Steps.{ethernet2_step, ip_step, ipv4_header};
    ghost use Rattle.packet_builder.specs.Steps.{ipv6_header, linux_sll_step};

    /// A packet that begins with an Ethernet header between these addresses.
    #[inline(always)]
    pub fn ethernet2(source: [u8; 6], destination: [u8; 6]) -> LinkStep
        ensures made { result ≡ ethernet2_step source destination }
    {
        LinkStep {
            link: LinkHeader::Ethernet2(Ethernet2Header {
                source,
                destination,
                ether_type: EtherType(0),
            }),
        }
    }

    /// A packet that begins with the header of a Linux cooked capture.
    #[inline(always)]
    pub fn linux_sll(header: LinuxSllHeader) -> LinkStep
        ensures made { result ≡ linux_sll_step header }
    {
        LinkStep {
            link: LinkHeader::LinuxSll(header),
        }
    }

    /// A packet that begins with an IPv4 header without options, between these addresses.
    #[inline(always)]
    pub fn ipv4(source: [u8; 4], destination: [u8; 4], time_to_live: u8) -> IpStep
        ensures made { result ≡ ip_step None None (ipv4_header source destination time_to_live) }
    {
        PacketBuilder::ip(ipv4_header(source, destination, time_to_live))
    }

    /// A packet that begins with an IPv6 header between these addresses.
    #[inline(always)]
    pub fn ipv6(source: [u8; 16], destination: [u8; 16], hop_limit: u8) -> IpStep
        ensures made { result ≡ ip_step None None (ipv6_header source destination hop_limit) }
    {
        PacketBuilder::ip(ipv6_header(source, destination, hop_limit))
    }

    /// A packet that begins with this IP header, whose length, number of what follows, and checksum
    /// are set when the packet is written.
    #[inline(always)]
    pub fn ip(ip: IpHeader) -> IpStep
        ensures made { result ≡ ip_step None None ip }
    {
        IpStep::after(None, None, ip)
    }
}
