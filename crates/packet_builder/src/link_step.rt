//! A packet that is built, after its link header.

ghost use Rattle.std.specs.Prelude.{◌≡◌};
ghost use Rattle.packet_builder.specs.Steps.{tag_of};

use crate::arp_step::ArpStep;
use crate::headers::{IpHeader, LinkHeader, VlanHeader, ipv4_header, ipv6_header};
use crate::ip_step::IpStep;
use crate::vlan_step::VlanStep;
use etherparse_link::{ArpPacket, EtherType, SingleVlanHeader, VlanId, VlanPcp};

/// A packet that is built, after its link header.
#[derive(Clone, Copy, Debug)]
pub struct LinkStep {
    /// The link header. Its EtherType is set when the packet is written.
    pub link: LinkHeader,
}

impl LinkStep {
    ghost use Rattle.std.specs.Prelude.{◌≡◌, None, Some};
    ghost use Rattle.packet_builder.specs.Steps.{ip_step, ipv4_header, ipv6_header, tag_of};

    /// Adds a tag of a VLAN, with priority 0.
    #[inline(always)]
    pub fn single_vlan(self, vlan_id: VlanId) -> VlanStep
        ensures made { result ≡ record { link = self.link; vlan = VlanHeader.Single (tag_of vlan_id) } }
    {
        self.vlan(VlanHeader::Single(tag_of(vlan_id)))
    }

    /// Adds the tags of two VLANs, with priority 0: first that of a service, then that of a
    /// customer.
    #[inline(always)]
    pub fn double_vlan(self, outer: VlanId, inner: VlanId) -> VlanStep
        ensures made { result ≡ record {
          link = self.link;
          vlan = VlanHeader.Double (tag_of outer) (tag_of inner);
        } }
    {
        self.vlan(VlanHeader::Double {
            outer: tag_of(outer),
            inner: tag_of(inner),
        })
    }

    /// Adds these tags.
    #[inline(always)]
    pub fn vlan(self, vlan: VlanHeader) -> VlanStep
        ensures made { result ≡ record { link = self.link; vlan = vlan } }
    {
        VlanStep {
            link: self.link,
            vlan,
        }
    }

    /// Adds an IPv4 header without options, between these addresses.
    #[inline(always)]
    pub fn ipv4(self, source: [u8; 4], destination: [u8; 4], time_to_live: u8) -> IpStep
        ensures made { result ≡
            ip_step (Some self.link) None (ipv4_header source destination time_to_live) }
    {
        self.ip(ipv4_header(source, destination, time_to_live))
    }

    /// Adds an IPv6 header between these addresses.
    #[inline(always)]
    pub fn ipv6(self, source: [u8; 16], destination: [u8; 16], hop_limit: u8) -> IpStep
        ensures made { result ≡
            ip_step (Some self.link) None (ipv6_header source destination hop_limit) }
    {
        self.ip(ipv6_header(source, destination, hop_limit))
    }

    /// Adds an ARP packet, which ends the packet.
    #[inline(always)]
    pub fn arp(self, arp: ArpPacket) -> ArpStep
        ensures made { result ≡ record { link = self.link; vlan = None; arp = arp } }
    {
        ArpStep {
            link: self.link,
            vlan: None,
            arp,
        }
    }

    /// Adds this IP header.
    #[inline(always)]
    pub fn ip(self, ip: IpHeader) -> IpStep
        ensures made { result ≡ ip_step (Some self.link) None ip }
    {
        IpStep::after(Some(self.link), None, ip)
    }
}

// A tag of a VLAN with priority 0, whose EtherType is set later.
#[inline(always)]
fn tag_of(vlan_id: VlanId) -> SingleVlanHeader
    ensures value { result ≡ tag_of vlan_id }
{
    SingleVlanHeader {
        pcp: VlanPcp::ZERO,
        drop_eligible_indicator: false,
        vlan_id,
        ether_type: EtherType(0),
    }
}
