//! EtherTypes (IEEE 802.3 section 3.2.6).

ghost use Rattle.std.specs.Prelude.{ℕ, ◌≡◌, ◌+◌, ◌^◌, ◌<◌, ◌≤◌, length};
ghost use Rattle.std.specs.Int.{to_be_bytes, w16};
ghost use Rattle.etherparse_link.specs.Bytes.{number_at};

use std::marker::Model;

/// What the bytes after a header are. Up to 1500 it is none: in Ethernet a length (IEEE 802.3
/// section 3.2.6), in a Linux cooked capture a number of Linux's own.
///
/// # Example
///
/// ```
/// assert!(rt; EtherType(0x86dd) == EtherType::IPV6);
/// ```
#[derive(Clone, Copy, Debug, PartialEq, Eq, PartialOrd, Ord, Hash)]
pub struct EtherType(pub u16);

/// A contract sees the number itself.
impl Model for EtherType {
    ghost Value = { ℕ };

    ghost view = { λ ether_type. ether_type.0 };

    ghost inverse = { λ number. record { 0 = number } };
}

impl EtherType {
    /// Internet Protocol version 4 (RFC 894).
    pub const IPV4: EtherType = EtherType(0x0800);

    /// Address Resolution Protocol (RFC 826).
    pub const ARP: EtherType = EtherType(0x0806);

    /// A magic packet that wakes a host (Wake on LAN).
    pub const WAKE_ON_LAN: EtherType = EtherType(0x0842);

    /// Transparent Interconnection of Lots of Links (RFC 6325).
    pub const TRILL: EtherType = EtherType(0x22f3);

    /// An Ethernet frame in another protocol, as in GRE (RFC 1701).
    pub const TRANSPARENT_ETHERNET_BRIDGING: EtherType = EtherType(0x6558);

    /// Reverse Address Resolution Protocol (RFC 903).
    pub const RARP: EtherType = EtherType(0x8035);

    /// The tag of a customer's VLAN (IEEE 802.1Q section 9.5, C-TAG).
    pub const VLAN_TAGGED_FRAME: EtherType = EtherType(0x8100);

    /// Internet Protocol version 6 (RFC 2464 section 3).
    pub const IPV6: EtherType = EtherType(0x86dd);

    /// Multiprotocol Label Switching (RFC 3032).
    pub const MPLS: EtherType = EtherType(0x8847);

    /// Multiprotocol Label Switching with an upstream-assigned label (RFC 5332).
    pub const MPLS_UPSTREAM_ASSIGNED: EtherType = EtherType(0x8848);

    /// The discovery stage of PPP over Ethernet (RFC 2516).
    pub const PPPOE_DISCOVERY: EtherType = EtherType(0x8863);

    /// The session stage of PPP over Ethernet (RFC 2516).
    pub const PPPOE_SESSION: EtherType = EtherType(0x8864);

    /// Port-based network access control (IEEE 802.1X).
    pub const EAPOL: EtherType = EtherType(0x888e);

    /// The tag of a service's VLAN (IEEE 802.1Q section 9.5, S-TAG).
    pub const PROVIDER_BRIDGING: EtherType = EtherType(0x88a8);

    /// Link Layer Discovery Protocol (IEEE 802.1AB).
    pub const LLDP: EtherType = EtherType(0x88cc);

    /// Media access control security (IEEE 802.1AE).
    pub const MACSEC: EtherType = EtherType(0x88e5);

    /// Precision Time Protocol (IEEE 1588).
    pub const PRECISION_TIME_PROTOCOL: EtherType = EtherType(0x88f7);

    /// Connectivity Fault Management (IEEE 802.1Q section 18).
    pub const CONNECTIVITY_FAULT_MANAGEMENT: EtherType = EtherType(0x8902);

    /// The Network Service Header (RFC 8300).
    pub const NETWORK_SERVICE_HEADER: EtherType = EtherType(0x894f);

    /// The outer of two tags before the one of a service existed.
    pub const VLAN_DOUBLE_TAGGED_FRAME: EtherType = EtherType(0x9100);
}

// The numbers in decimal, as the registry of IANA has them too.
const _: () = prove!(
    EtherType::IPV4.0 == 2048
        && EtherType::ARP.0 == 2054
        && EtherType::WAKE_ON_LAN.0 == 2114
        && EtherType::TRILL.0 == 8947
        && EtherType::TRANSPARENT_ETHERNET_BRIDGING.0 == 25944
        && EtherType::RARP.0 == 32821
        && EtherType::VLAN_TAGGED_FRAME.0 == 33024
        && EtherType::IPV6.0 == 34525
        && EtherType::MPLS.0 == 34887
        && EtherType::MPLS_UPSTREAM_ASSIGNED.0 == 34888
);

const _: () = prove!(
    EtherType::PPPOE_DISCOVERY.0 == 34915
        && EtherType::PPPOE_SESSION.0 == 34916
        && EtherType::EAPOL.0 == 34958
        && EtherType::PROVIDER_BRIDGING.0 == 34984
        && EtherType::LLDP.0 == 35020
        && EtherType::MACSEC.0 == 35045
        && EtherType::PRECISION_TIME_PROTOCOL.0 == 35063
        && EtherType::CONNECTIVITY_FAULT_MANAGEMENT.0 == 35074
        && EtherType::NETWORK_SERVICE_HEADER.0 == 35151
        && EtherType::VLAN_DOUBLE_TAGGED_FRAME.0 == 37120
);

impl From<u16> for EtherType {
    ghost from_gives = { λ number ether_type. ether_type ≡ number };

    fn from(value: u16) -> EtherType {
        EtherType(value)
    }
}

impl From<EtherType> for u16 {
    ghost from_gives = { λ ether_type number. number ≡ ether_type };

    fn from(value: EtherType) -> u16 {
        value.0
    }
}

// Two bytes at a place as a number, the high byte first.
pub(crate) fn u16_at(bytes: &[u8], place: usize) -> u16
    requires within { place + 2 ≤ length bytes.now }
    ensures value { result ≡ number_at place bytes.now }
{
    u16::from_be_bytes([bytes[place], bytes[place + 1]])
}

// The two bytes of an EtherType, the high one first.
pub(crate) fn ether_type_bytes(ether_type: EtherType) -> [u8; 2]
    ensures value { result ≡ to_be_bytes w16 ether_type }
    ensures fits { ether_type < 2 ^ 16 }
{
    let number = ether_type.0;
    number.to_be_bytes()
}
