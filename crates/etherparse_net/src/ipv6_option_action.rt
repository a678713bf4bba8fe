/// What a node does with a packet if it does not know the type of one of its options (RFC 8200
/// section 4.2).
#[derive(Clone, Copy, Debug, PartialEq, Eq)]
pub enum Ipv6OptionAction {
    /// It skips the option: 00.
    Skip,
    /// It discards the packet: 01.
    Discard,
    /// It discards the packet and sends an ICMP parameter problem to its source: 10.
    DiscardAndReport,
    /// It does the same, but sends none if the destination is a multicast address: 11.
    DiscardAndReportUnlessMulticast,
}
