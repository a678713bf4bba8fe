/// Where a length that limits the parsed data came from.
#[derive(Clone, Copy, Debug, PartialEq, Eq, Hash)]
pub enum LenSource {
    /// The end of the slice that was passed in.
    Slice,
    /// The "short length" field of a MACsec header.
    MacsecShortLength,
    /// The "total length" field of an IPv4 header.
    Ipv4HeaderTotalLen,
    /// The "payload length" field of an IPv6 header.
    Ipv6HeaderPayloadLen,
    /// The "length" field of a UDP header.
    UdpHeaderLen,
    /// The "data offset" field of a TCP header, which the text of the error calls its length field.
    TcpHeaderLen,
    /// The two address length fields of an ARP packet.
    ArpAddrLengths,
}
