//! What the fragments of one packet have in common.

/// Equal for all fragments of one packet: the fields by which a receiver puts them together, and
/// the VLANs that they came in.
#[derive(Clone, Copy, Debug, PartialEq, Eq)]
pub struct IpFragId {
    /// The VLAN identifier of the outer tag, if the caller tells fragments apart by it.
    pub outer_vlan_id: Option<u16>,
    /// That of the inner tag.
    pub inner_vlan_id: Option<u16>,
    /// The fields of the packet.
    pub ip: IpFragVersionSpecId,
}

/// The fields of a packet by which its fragments are put together.
#[derive(Clone, Copy, Debug, PartialEq, Eq)]
pub enum IpFragVersionSpecId {
    /// Those of IPv4 (RFC 791 section 3.2).
    Ipv4 {
        /// The address of the sender.
        source: [u8; 4],
        /// The address of the receiver.
        destination: [u8; 4],
        /// The protocol of what was fragmented.
        protocol: u8,
        /// The number that the sender gave the packet.
        identification: u16,
    },
    /// Those of IPv6 (RFC 8200 section 4.5).
    Ipv6 {
        /// The address of the sender.
        source: [u8; 16],
        /// The address of the receiver.
        destination: [u8; 16],
        /// The number that the sender gave the packet.
        identification: u32,
    },
}
