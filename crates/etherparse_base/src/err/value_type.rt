ghost use Rattle.std.specs.Prelude.{Some};
ghost use Rattle.etherparse_base.specs.ValueType.{value_type_text};

use std::fmt;

/// Which kind of value an error is about. The kinds are ordered as listed here.
#[derive(Clone, Copy, Debug, PartialEq, Eq, PartialOrd, Ord, Hash)]
pub enum ValueType {
    /// The 12-bit identifier of a VLAN.
    VlanId,
    /// The 3-bit priority code point of a VLAN tag.
    VlanPcp,
    /// The 2-bit association number of a MACsec header.
    MacsecAn,
    /// The 6-bit short length of a MACsec header.
    MacsecShortLen,
    /// The 13-bit fragment offset of an IP header.
    IpFragmentOffset,
    /// The 6-bit differentiated services code point of an IP header.
    IpDscp,
    /// The 2-bit explicit congestion notification of an IP header.
    IpEcn,
    /// The 20-bit flow label of an IPv6 header.
    Ipv6FlowLabel,
    /// The length of an IPv4 payload, from which the total length is set.
    Ipv4PayloadLength,
    /// The payload length of an IPv6 header.
    Ipv6PayloadLength,
    /// The length of a UDP payload, in its checksum over IPv4.
    UdpPayloadLengthIpv4,
    /// The length of a UDP payload, in its checksum over IPv6.
    UdpPayloadLengthIpv6,
    /// The length of a TCP payload, in its checksum over IPv4.
    TcpPayloadLengthIpv4,
    /// The length of a TCP payload, in its checksum over IPv6.
    TcpPayloadLengthIpv6,
    /// The length of an ICMPv6 payload.
    Icmpv6PayloadLength,
    /// The packet type of a Linux cooked capture header, version 1 (SLL).
    LinuxSllType,
}

/// Writes the value's name.
impl fmt::Display for ValueType {
    ghost output = { λ value_type. Some (value_type_text value_type) };

    ghost styled_output = { λ value_type _. Some (value_type_text value_type) };

    fn fmt<W: fmt::Write>(&self, f: &mut fmt::Formatter<W>) -> fmt::Result {
        f.write_str(match self {
            ValueType::VlanId => "VLAN ID",
            ValueType::VlanPcp => "VLAN PCP (Priority Code Point)",
            ValueType::MacsecAn => "MACsec AN (Association Number)",
            ValueType::MacsecShortLen => "MACsec SL (Short Length)",
            ValueType::IpFragmentOffset => "IP Fragment Offset",
            ValueType::IpDscp => "IPv4 DSCP (Differentiated Services Code Point)",
            ValueType::IpEcn => "IPv4 ECN (Explicit Congestion Notification)",
            ValueType::Ipv6FlowLabel => "IPv6 Flow Label",
            ValueType::Ipv4PayloadLength => "IPv4 Header 'Payload Length' (sets 'Total Length')",
            ValueType::Ipv6PayloadLength => "IPv6 Header 'Payload Length'",
            ValueType::UdpPayloadLengthIpv4 => "UDP Payload Length (in IPv4 checksum calculation)",
            ValueType::UdpPayloadLengthIpv6 => "UDP Payload Length (in IPv6 checksum calculation)",
            ValueType::TcpPayloadLengthIpv4 => "TCP Payload Length (in IPv4 checksum calculation)",
            ValueType::TcpPayloadLengthIpv6 => "TCP Payload Length (in IPv6 checksum calculation)",
            ValueType::Icmpv6PayloadLength => "ICMPv6 Payload Length",
            ValueType::LinuxSllType => "Linux Cooked Capture v1 (SLL)",
        })
    }
}
