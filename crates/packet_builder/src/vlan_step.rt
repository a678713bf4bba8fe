//! A packet that is built, after its VLAN tags.

use crate::arp_step::ArpStep;
use crate::headers::{IpHeader, LinkHeader, VlanHeader, ipv4_header, ipv6_header};
use crate::ip_step::IpStep;
use etherparse_link::ArpPacket;

/// A packet that is built, after its VLAN tags.
#[derive(Clone, Copy, Debug)]
pub struct VlanStep {
    /// The link header.
    pub link: LinkHeader,
    /// The tags. Their EtherTypes are set when the packet is written.
    pub vlan: VlanHeader,
}

impl VlanStep {
    ghost use Rattle.std.specs.Prelude.{◌≡◌, Some};
    ghost use Rattle.packet_builder.specs.Steps.{ip_step, ipv4_header, ipv6_header};

    /// Adds an IPv4 header without options, between these addresses.
    #[inline(always)]
    pub fn ipv4(self, source: [u8; 4], destination: [u8; 4], time_to_live: u8) -> IpStep
        ensures made { result ≡
            ip_step (Some self.link) (Some self.vlan) (ipv4_header source destination time_to_live) }
    {
        self.ip(ipv4_header(source, destination, time_to_live))
    }

    /// Adds an IPv6 header between these addresses.
    #[inline(always)]
    pub fn ipv6(self, source: [u8; 16], destination: [u8; 16], hop_limit: u8) -> IpStep
        ensures made { result ≡
            ip_step (Some self.link) (Some self.vlan) (ipv6_header source destination hop_limit) }
    {
        self.ip(ipv6_header(source, destination, hop_limit))
    }

    /// Adds an ARP packet, which ends the packet.
    #[inline(always)]
    pub fn arp(self, arp: ArpPacket) -> ArpStep
        ensures made { result ≡ record { link = self.link; vlan = Some self.vlan; arp = arp } }
    {
        ArpStep {
            link: self.link,
            vlan: Some(self.vlan),
            arp,
        }
    }

    /// Adds this IP header.
    #[inline(always)]
    pub fn ip(self, ip: IpHeader) -> IpStep
        ensures made { result ≡ ip_step (Some self.link) (Some self.vlan) ip }
    {
        IpStep::after(Some(self.link), Some(self.vlan), ip)
    }
}
