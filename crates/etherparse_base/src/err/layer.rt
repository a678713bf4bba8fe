ghost use Rattle.std.specs.Prelude.{◌≡◌, Some};
ghost use Rattle.etherparse_base.specs.Layer.{layer_text, layer_title};

use std::fmt;

/// A layer of a packet in which an error can occur. Layers are ordered as listed here.
#[derive(Clone, Copy, Debug, PartialEq, Eq, PartialOrd, Ord, Hash)]
pub enum Layer {
    /// The Linux cooked capture header, version 1 (SLL).
    LinuxSllHeader,
    /// The Ethernet II header.
    Ethernet2Header,
    /// The payload that an ether type names.
    EtherPayload,
    /// A VLAN tag.
    VlanHeader,
    /// The MACsec header, also called SecTag.
    MacsecHeader,
    /// The whole MACsec packet, whose length the "short length" field gives.
    MacsecPacket,
    /// An IP header of either version.
    IpHeader,
    /// The IPv4 header.
    Ipv4Header,
    /// The whole IPv4 packet, whose length the header gives.
    Ipv4Packet,
    /// The IP authentication header.
    IpAuthHeader,
    /// The IPv6 header.
    Ipv6Header,
    /// The whole IPv6 packet, whose payload length the header gives.
    Ipv6Packet,
    /// An IPv6 extension header of any kind.
    Ipv6ExtHeader,
    /// The hop-by-hop options header of IPv6.
    Ipv6HopByHopHeader,
    /// The destination options header of IPv6.
    Ipv6DestOptionsHeader,
    /// The routing header of IPv6.
    Ipv6RouteHeader,
    /// The fragment header of IPv6.
    Ipv6FragHeader,
    /// The UDP header.
    UdpHeader,
    /// The UDP payload, whose length the header gives.
    UdpPayload,
    /// The TCP header.
    TcpHeader,
    /// An ICMP packet.
    Icmpv4,
    /// An ICMP timestamp message.
    Icmpv4Timestamp,
    /// An ICMP timestamp reply message.
    Icmpv4TimestampReply,
    /// An ICMPv6 packet.
    Icmpv6,
    /// An ARP packet.
    Arp,
}

impl Layer {
    /// The title that begins the text of an error of this layer.
    pub fn error_title(&self) -> &'static str
        ensures title { result.now ≡ layer_title self.now }
    {
        // One exit for all arms: with an exit for each, the proof takes three times as long.
        let title: &'static str = match self {
            Layer::LinuxSllHeader => "Linux Cooked Capture v1 Error",
            Layer::Ethernet2Header => "Ethernet 2 Header Error",
            Layer::EtherPayload => "Payload with Ether Type Error",
            Layer::VlanHeader => "VLAN Header Error",
            Layer::MacsecHeader => "MACsec Header Error",
            Layer::MacsecPacket => "MACsec Packet Error",
            Layer::IpHeader => "IP Header Error",
            Layer::Ipv4Header => "IPv4 Header Error",
            Layer::Ipv4Packet => "IPv4 Packet Error",
            Layer::IpAuthHeader => "IP Authentication Header Error",
            Layer::Ipv6Header => "IPv6 Header Error",
            Layer::Ipv6Packet => "IPv6 Packet Error",
            Layer::Ipv6ExtHeader => "IPv6 Extension Header Error",
            Layer::Ipv6HopByHopHeader => "IPv6 Hop-by-Hop Option Header Error",
            Layer::Ipv6DestOptionsHeader => "IPv6 Destination Options Header Error",
            Layer::Ipv6RouteHeader => "IPv6 Routing Header Error",
            Layer::Ipv6FragHeader => "IPv6 Fragment Header Error",
            Layer::UdpHeader => "UDP Header Error",
            Layer::UdpPayload => "UDP Payload Error",
            Layer::TcpHeader => "TCP Header Error",
            Layer::Icmpv4 => "ICMP Packet Error",
            Layer::Icmpv4Timestamp => "ICMP Timestamp Error",
            Layer::Icmpv4TimestampReply => "ICMP Timestamp Reply Error",
            Layer::Icmpv6 => "ICMPv6 Packet Error",
            Layer::Arp => "Address Resolution Protocol Packet Error",
        };
        title
    }
}

/// Writes the layer's name.
impl fmt::Display for Layer {
    ghost output = { λ layer. Some (layer_text layer) };

    ghost styled_output = { λ layer _. Some (layer_text layer) };

    fn fmt<W: fmt::Write>(&self, f: &mut fmt::Formatter<W>) -> fmt::Result {
        f.write_str(match self {
            Layer::LinuxSllHeader => "Linux Cooked Capture v1 header",
            Layer::Ethernet2Header => "Ethernet 2 header",
            Layer::EtherPayload => "Ether type payload",
            Layer::VlanHeader => "VLAN header",
            Layer::MacsecHeader => "MACsec header",
            Layer::MacsecPacket => "MACsec packet",
            Layer::IpHeader => "IP header",
            Layer::Ipv4Header => "IPv4 header",
            Layer::Ipv4Packet => "IPv4 packet",
            Layer::IpAuthHeader => "IP Authentication header",
            Layer::Ipv6Header => "IPv6 header",
            Layer::Ipv6Packet => "IPv6 packet",
            Layer::Ipv6ExtHeader => "IPv6 extension header",
            Layer::Ipv6HopByHopHeader => "IPv6 hop-by-hop option header",
            Layer::Ipv6DestOptionsHeader => "IPv6 destination options header",
            Layer::Ipv6RouteHeader => "IPv6 routing header",
            Layer::Ipv6FragHeader => "IPv6 fragment header",
            Layer::UdpHeader => "UDP header",
            Layer::UdpPayload => "UDP payload",
            Layer::TcpHeader => "TCP header",
            Layer::Icmpv4 => "ICMP packet",
            Layer::Icmpv4Timestamp => "ICMP timestamp message",
            Layer::Icmpv4TimestampReply => "ICMP timestamp reply message",
            Layer::Icmpv6 => "ICMPv6 packet",
            Layer::Arp => "Address Resolution Protocol packet",
        })
    }
}
