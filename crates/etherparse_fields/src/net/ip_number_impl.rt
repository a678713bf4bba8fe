ghost use Rattle.std.specs.Prelude.{ℕ, ◌≡◌, ◌↔◌, IsTrue};
ghost use Rattle.etherparse_fields.specs.ExtensionHeaders.{IsExtensionHeaderValue};

use std::marker::Model;

/// The number of the protocol or extension header that follows an IP header, as IANA assigns it:
/// the "protocol" field of IPv4 (RFC 791 section 3.1),
/// the "next header" field of IPv6 (RFC 8200 section 3).
///
/// The constants have the names of the Rust crate. There is none for 99, 143 to 252 and 255; any
/// number can be made, as in `IpNumber(99)`. The module [`crate::ip_number`] has the constants too.
///
/// Each constant's comment has the keyword and the name from IANA's registry of protocol numbers,
/// and the RFC or other document that defines the protocol, if there is one. A name that equals the
/// keyword is not repeated; a number without a keyword has its name alone.
///
/// Equality, order and hash are those of the number.
///
/// # Example
///
/// ```
/// let number = IpNumber::from(17);
/// assert!(rt; number == ip_number::UDP);
/// assert!(rt; number.0 == 17);
/// ```
#[derive(Clone, Copy, Debug, PartialEq, Eq, PartialOrd, Ord, Hash)]
pub struct IpNumber(pub u8);

/// A contract sees the number itself.
impl Model for IpNumber {
    ghost Value = { ℕ };

    ghost view = { λ ip_number. ip_number.0 };

    ghost inverse = { λ number. record { 0 = number } };
}

impl IpNumber {
    /// `HOPOPT`: IPv6 Hop-by-Hop Option (RFC 8200).
    pub const IPV6_HEADER_HOP_BY_HOP: IpNumber = IpNumber(0);

    /// `ICMP`: Internet Control Message (RFC 792).
    pub const ICMP: IpNumber = IpNumber(1);

    /// `IGMP`: Internet Group Management (RFC 1112).
    pub const IGMP: IpNumber = IpNumber(2);

    /// `GGP`: Gateway-to-Gateway (RFC 823).
    pub const GGP: IpNumber = IpNumber(3);

    /// `IPv4`: IPv4 encapsulation (RFC 2003).
    pub const IPV4: IpNumber = IpNumber(4);

    /// `ST`: Stream (RFC 1190, RFC 1819).
    pub const STREAM: IpNumber = IpNumber(5);

    /// `TCP`: Transmission Control (RFC 9293, which replaced RFC 793).
    pub const TCP: IpNumber = IpNumber(6);

    /// `CBT` (RFC 2189).
    pub const CBT: IpNumber = IpNumber(7);

    /// `EGP`: Exterior Gateway Protocol (RFC 888).
    pub const EGP: IpNumber = IpNumber(8);

    /// `IGP`: any private interior gateway (used by Cisco for their IGRP).
    pub const IGP: IpNumber = IpNumber(9);

    /// `BBN-RCC-MON`: BBN RCC Monitoring.
    pub const BBN_RCC_MON: IpNumber = IpNumber(10);

    /// `NVP-II`: Network Voice Protocol (RFC 741).
    pub const NVP_II: IpNumber = IpNumber(11);

    /// `PUP` (Xerox PARC, CSL-79-10).
    pub const PUP: IpNumber = IpNumber(12);

    /// `ARGUS`, deprecated.
    pub const ARGUS: IpNumber = IpNumber(13);

    /// `EMCON`.
    pub const EMCON: IpNumber = IpNumber(14);

    /// `XNET`: Cross Net Debugger (IEN 158).
    pub const XNET: IpNumber = IpNumber(15);

    /// `CHAOS`: Chaos.
    pub const CHAOS: IpNumber = IpNumber(16);

    /// `UDP`: User Datagram (RFC 768).
    pub const UDP: IpNumber = IpNumber(17);

    /// `MUX`: Multiplexing (IEN 90).
    pub const MUX: IpNumber = IpNumber(18);

    /// `DCN-MEAS`: DCN Measurement Subsystems.
    pub const DCN_MEAS: IpNumber = IpNumber(19);

    /// `HMP`: Host Monitoring (RFC 869).
    pub const HMP: IpNumber = IpNumber(20);

    /// `PRM`: Packet Radio Measurement.
    pub const PRM: IpNumber = IpNumber(21);

    /// `XNS-IDP`: XEROX NS IDP.
    pub const XNS_IDP: IpNumber = IpNumber(22);

    /// `TRUNK-1`: Trunk-1.
    pub const TRUNK1: IpNumber = IpNumber(23);

    /// `TRUNK-2`: Trunk-2.
    pub const TRUNK2: IpNumber = IpNumber(24);

    /// `LEAF-1`: Leaf-1.
    pub const LEAF1: IpNumber = IpNumber(25);

    /// `LEAF-2`: Leaf-2.
    pub const LEAF2: IpNumber = IpNumber(26);

    /// `RDP`: Reliable Data Protocol (RFC 908).
    pub const RDP: IpNumber = IpNumber(27);

    /// `IRTP`: Internet Reliable Transaction (RFC 938).
    pub const IRTP: IpNumber = IpNumber(28);

    /// `ISO-TP4`: ISO Transport Protocol Class 4 (RFC 905).
    pub const ISO_TP4: IpNumber = IpNumber(29);

    /// `NETBLT`: Bulk Data Transfer Protocol (RFC 969).
    pub const NET_BLT: IpNumber = IpNumber(30);

    /// `MFE-NSP`: MFE Network Services Protocol (UCRL-52317).
    pub const MFE_NSP: IpNumber = IpNumber(31);

    /// `MERIT-INP`: MERIT Internodal Protocol.
    pub const MERIT_INP: IpNumber = IpNumber(32);

    /// `DCCP`: Datagram Congestion Control Protocol (RFC 4340).
    pub const DCCP: IpNumber = IpNumber(33);

    /// `3PC`: Third Party Connect Protocol.
    pub const THIRD_PARTY_CONNECT_PROTOCOL: IpNumber = IpNumber(34);

    /// `IDPR`: Inter-Domain Policy Routing Protocol (RFC 1479).
    pub const IDPR: IpNumber = IpNumber(35);

    /// `XTP`.
    pub const XTP: IpNumber = IpNumber(36);

    /// `DDP`: Datagram Delivery Protocol.
    pub const DDP: IpNumber = IpNumber(37);

    /// `IDPR-CMTP`: IDPR Control Message Transport Proto (RFC 1479).
    pub const IDPR_CMTP: IpNumber = IpNumber(38);

    /// `TP++`: TP++ Transport Protocol.
    pub const TP_PLUS_PLUS: IpNumber = IpNumber(39);

    /// `IL`: IL Transport Protocol.
    pub const IL: IpNumber = IpNumber(40);

    /// `IPv6`: IPv6 encapsulation (RFC 2473).
    pub const IPV6: IpNumber = IpNumber(41);

    /// `SDRP`: Source Demand Routing Protocol (RFC 1940).
    pub const SDRP: IpNumber = IpNumber(42);

    /// `IPv6-Route`: Routing Header for IPv6 (RFC 8200).
    pub const IPV6_ROUTE_HEADER: IpNumber = IpNumber(43);

    /// `IPv6-Frag`: Fragment Header for IPv6 (RFC 8200).
    pub const IPV6_FRAGMENTATION_HEADER: IpNumber = IpNumber(44);

    /// `IDRP`: Inter-Domain Routing Protocol.
    pub const IDRP: IpNumber = IpNumber(45);

    /// `RSVP`: Reservation Protocol (RFC 2205, RFC 3209).
    pub const RSVP: IpNumber = IpNumber(46);

    /// `GRE`: Generic Routing Encapsulation (RFC 2784).
    pub const GRE: IpNumber = IpNumber(47);

    /// `DSR`: Dynamic Source Routing Protocol (RFC 4728).
    pub const DSR: IpNumber = IpNumber(48);

    /// `BNA`.
    pub const BNA: IpNumber = IpNumber(49);

    /// `ESP`: Encap Security Payload (RFC 4303).
    pub const ENCAPSULATING_SECURITY_PAYLOAD: IpNumber = IpNumber(50);

    /// `AH`: Authentication Header (RFC 4302).
    pub const AUTHENTICATION_HEADER: IpNumber = IpNumber(51);

    /// `I-NLSP`: Integrated Net Layer Security TUBA.
    pub const INLSP: IpNumber = IpNumber(52);

    /// `SWIPE`: IP with Encryption, deprecated.
    pub const SWIPE: IpNumber = IpNumber(53);

    /// `NARP`: NBMA Address Resolution Protocol (RFC 1735).
    pub const NARP: IpNumber = IpNumber(54);

    /// `MOBILE`: IP Mobility (RFC 2004).
    pub const MOBILE: IpNumber = IpNumber(55);

    /// `TLSP`: Transport Layer Security Protocol using Kryptonet key management.
    pub const TLSP: IpNumber = IpNumber(56);

    /// `SKIP`.
    pub const SKIP: IpNumber = IpNumber(57);

    /// `IPv6-ICMP`: ICMP for IPv6 (RFC 8200, RFC 4443).
    pub const IPV6_ICMP: IpNumber = IpNumber(58);

    /// `IPv6-NoNxt`: No Next Header for IPv6 (RFC 8200).
    pub const IPV6_NO_NEXT_HEADER: IpNumber = IpNumber(59);

    /// `IPv6-Opts`: Destination Options for IPv6 (RFC 8200).
    pub const IPV6_DESTINATION_OPTIONS: IpNumber = IpNumber(60);

    /// Any host internal protocol.
    pub const ANY_HOST_INTERNAL_PROTOCOL: IpNumber = IpNumber(61);

    /// `CFTP` (Bolt Beranek and Newman, 1982).
    pub const CFTP: IpNumber = IpNumber(62);

    /// Any local network.
    pub const ANY_LOCAL_NETWORK: IpNumber = IpNumber(63);

    /// `SAT-EXPAK`: SATNET and Backroom EXPAK.
    pub const SAT_EXPAK: IpNumber = IpNumber(64);

    /// `KRYPTOLAN`: Kryptolan. The constant lacks a letter, as in the Rust crate.
    pub const KRYTOLAN: IpNumber = IpNumber(65);

    /// `RVD`: MIT Remote Virtual Disk Protocol.
    pub const RVD: IpNumber = IpNumber(66);

    /// `IPPC`: Internet Pluribus Packet Core.
    pub const IPPC: IpNumber = IpNumber(67);

    /// Any distributed file system.
    pub const ANY_DISTRIBUTED_FILE_SYSTEM: IpNumber = IpNumber(68);

    /// `SAT-MON`: SATNET Monitoring.
    pub const SAT_MON: IpNumber = IpNumber(69);

    /// `VISA`: VISA Protocol.
    pub const VISA: IpNumber = IpNumber(70);

    /// `IPCV`: Internet Packet Core Utility.
    pub const IPCV: IpNumber = IpNumber(71);

    /// `CPNX`: Computer Protocol Network Executive.
    pub const CPNX: IpNumber = IpNumber(72);

    /// `CPHB`: Computer Protocol Heart Beat.
    pub const CPHB: IpNumber = IpNumber(73);

    /// `WSN`: Wang Span Network.
    pub const WSN: IpNumber = IpNumber(74);

    /// `PVP`: Packet Video Protocol.
    pub const PVP: IpNumber = IpNumber(75);

    /// `BR-SAT-MON`: Backroom SATNET Monitoring.
    pub const BR_SAT_MON: IpNumber = IpNumber(76);

    /// `SUN-ND`: SUN ND PROTOCOL-Temporary.
    pub const SUN_ND: IpNumber = IpNumber(77);

    /// `WB-MON`: WIDEBAND Monitoring.
    pub const WB_MON: IpNumber = IpNumber(78);

    /// `WB-EXPAK`: WIDEBAND EXPAK.
    pub const WB_EXPAK: IpNumber = IpNumber(79);

    /// `ISO-IP`: ISO Internet Protocol.
    pub const ISO_IP: IpNumber = IpNumber(80);

    /// `VMTP` (RFC 1045).
    pub const VMTP: IpNumber = IpNumber(81);

    /// `SECURE-VMTP` (RFC 1045).
    pub const SECURE_VMTP: IpNumber = IpNumber(82);

    /// `VINES`.
    pub const VINES: IpNumber = IpNumber(83);

    /// `TTP`: Transaction Transport Protocol; `IPTM`: Internet Protocol Traffic Manager.
    pub const TTP_OR_IPTM: IpNumber = IpNumber(84);

    /// `NSFNET-IGP`.
    pub const NSFNET_IGP: IpNumber = IpNumber(85);

    /// `DGP`: Dissimilar Gateway Protocol (M/A-COM, CS901145).
    pub const DGP: IpNumber = IpNumber(86);

    /// `TCF`.
    pub const TCF: IpNumber = IpNumber(87);

    /// `EIGRP` (RFC 7868).
    pub const EIGRP: IpNumber = IpNumber(88);

    /// `OSPFIGP` (RFC 1583, RFC 2328, RFC 5340).
    pub const OSPFIGP: IpNumber = IpNumber(89);

    /// `Sprite-RPC`: Sprite RPC Protocol (University of California at Berkeley, 86/302).
    pub const SPRITE_RPC: IpNumber = IpNumber(90);

    /// `LARP`: Locus Address Resolution Protocol.
    pub const LARP: IpNumber = IpNumber(91);

    /// `MTP`: Multicast Transport Protocol (RFC 1301).
    pub const MTP: IpNumber = IpNumber(92);

    /// `AX.25`: AX.25 Frames.
    pub const AX25: IpNumber = IpNumber(93);

    /// `IPIP`: IP-within-IP Encapsulation Protocol.
    pub const IPIP: IpNumber = IpNumber(94);

    /// `MICP`: Mobile Internetworking Control Pro., deprecated.
    pub const MICP: IpNumber = IpNumber(95);

    /// `SCC-SP`: Semaphore Communications Sec. Pro.
    pub const SCC_SP: IpNumber = IpNumber(96);

    /// `ETHERIP`: Ethernet-within-IP Encapsulation (RFC 3378).
    pub const ETHER_IP: IpNumber = IpNumber(97);

    /// `ENCAP`: Encapsulation Header (RFC 1241).
    pub const ENCAP: IpNumber = IpNumber(98);

    /// `GMTP`.
    pub const GMTP: IpNumber = IpNumber(100);

    /// `IFMP`: Ipsilon Flow Management Protocol (RFC 1953).
    pub const IFMP: IpNumber = IpNumber(101);

    /// `PNNI`: PNNI over IP.
    pub const PNNI: IpNumber = IpNumber(102);

    /// `PIM`: Protocol Independent Multicast (RFC 7761).
    pub const PIM: IpNumber = IpNumber(103);

    /// `ARIS`.
    pub const ARIS: IpNumber = IpNumber(104);

    /// `SCPS`.
    pub const SCPS: IpNumber = IpNumber(105);

    /// `QNX`.
    pub const QNX: IpNumber = IpNumber(106);

    /// `A/N`: Active Networks.
    pub const ACTIVE_NETWORKS: IpNumber = IpNumber(107);

    /// `IPComp`: IP Payload Compression Protocol (RFC 2393, replaced by RFC 3173).
    pub const IP_COMP: IpNumber = IpNumber(108);

    /// `SNP`: Sitara Networks Protocol. The constant lacks a letter, as in the Rust crate.
    pub const SITRA_NETWORKS_PROTOCOL: IpNumber = IpNumber(109);

    /// `Compaq-Peer`: Compaq Peer Protocol.
    pub const COMPAQ_PEER: IpNumber = IpNumber(110);

    /// `IPX-in-IP`: IPX in IP.
    pub const IPX_IN_IP: IpNumber = IpNumber(111);

    /// `VRRP`: Virtual Router Redundancy Protocol (RFC 5798, replaced by RFC 9568).
    pub const VRRP: IpNumber = IpNumber(112);

    /// `PGM`: PGM Reliable Transport Protocol (RFC 3208).
    pub const PGM: IpNumber = IpNumber(113);

    /// Any 0-hop protocol.
    pub const ANY_ZERO_HOP_PROTOCOL: IpNumber = IpNumber(114);

    /// `L2TP`: Layer Two Tunneling Protocol (RFC 3931).
    pub const LAYER2_TUNNELING_PROTOCOL: IpNumber = IpNumber(115);

    /// `DDX`: D-II Data Exchange (DDX).
    pub const DDX: IpNumber = IpNumber(116);

    /// `IATP`: Interactive Agent Transfer Protocol.
    pub const IATP: IpNumber = IpNumber(117);

    /// `STP`: Schedule Transfer Protocol.
    pub const STP: IpNumber = IpNumber(118);

    /// `SRP`: SpectraLink Radio Protocol.
    pub const SRP: IpNumber = IpNumber(119);

    /// `UTI`.
    pub const UTI: IpNumber = IpNumber(120);

    /// `SMP`: Simple Message Protocol.
    pub const SIMPLE_MESSAGE_PROTOCOL: IpNumber = IpNumber(121);

    /// `SM`: Simple Multicast Protocol, deprecated.
    pub const SM: IpNumber = IpNumber(122);

    /// `PTP`: Performance Transparency Protocol.
    pub const PTP: IpNumber = IpNumber(123);

    /// `ISIS over IPv4`.
    pub const ISIS_OVER_IPV4: IpNumber = IpNumber(124);

    /// `FIRE`.
    pub const FIRE: IpNumber = IpNumber(125);

    /// `CRTP`: Combat Radio Transport Protocol.
    pub const CRTP: IpNumber = IpNumber(126);

    /// `CRUDP`: Combat Radio User Datagram.
    pub const CRUDP: IpNumber = IpNumber(127);

    /// `SSCOPMCE`.
    pub const SSCOPMCE: IpNumber = IpNumber(128);

    /// `IPLT`.
    pub const IPLT: IpNumber = IpNumber(129);

    /// `SPS`: Secure Packet Shield.
    pub const SPS: IpNumber = IpNumber(130);

    /// `PIPE`: Private IP Encapsulation within IP.
    pub const PIPE: IpNumber = IpNumber(131);

    /// `SCTP`: Stream Control Transmission Protocol (RFC 9260).
    pub const SCTP: IpNumber = IpNumber(132);

    /// `FC`: Fibre Channel (RFC 6172).
    pub const FC: IpNumber = IpNumber(133);

    /// `RSVP-E2E-IGNORE` (RFC 3175).
    pub const RSVP_E2E_IGNORE: IpNumber = IpNumber(134);

    /// `Mobility Header` (RFC 6275).
    pub const MOBILITY_HEADER: IpNumber = IpNumber(135);

    /// `UDPLite` (RFC 3828).
    pub const UDP_LITE: IpNumber = IpNumber(136);

    /// `MPLS-in-IP` (RFC 4023).
    pub const MPLS_IN_IP: IpNumber = IpNumber(137);

    /// `manet`: MANET Protocols (RFC 5498).
    pub const MANET: IpNumber = IpNumber(138);

    /// `HIP`: Host Identity Protocol (RFC 7401).
    pub const HIP: IpNumber = IpNumber(139);

    /// `Shim6`: Shim6 Protocol (RFC 5533).
    pub const SHIM6: IpNumber = IpNumber(140);

    /// `WESP`: Wrapped Encapsulating Security Payload (RFC 5840).
    pub const WESP: IpNumber = IpNumber(141);

    /// `ROHC`: Robust Header Compression (RFC 5858).
    pub const ROHC: IpNumber = IpNumber(142);

    /// Use for experimentation and testing (RFC 3692).
    pub const EXPERIMENTAL_AND_TESTING_0: IpNumber = IpNumber(253);

    /// Use for experimentation and testing (RFC 3692).
    pub const EXPERIMENTAL_AND_TESTING_1: IpNumber = IpNumber(254);

    /// Whether the number is that of an IPv6 extension header (IANA's registry of IPv6 extension
    /// header types, RFC 7045): 0, 43, 44, 50, 51, 60, 135, 139, 140, 253 or 254.
    pub fn is_ipv6_ext_header_value(self) -> bool
        ensures value { IsTrue result ↔ IsExtensionHeaderValue self }
    {
        matches!(
            self.0,
            0 | 43 | 44 | 50 | 51 | 60 | 135 | 139 | 140 | 253 | 254
        )
    }
}

/// 255, which is reserved.
impl Default for IpNumber {
    ghost is_default = { λ number. number ≡ 255 };

    #[inline]
    fn default() -> IpNumber {
        IpNumber(255)
    }
}

impl From<u8> for IpNumber {
    ghost from_gives = { λ value number. number ≡ value };

    #[inline]
    fn from(value: u8) -> IpNumber {
        IpNumber(value)
    }
}

impl From<IpNumber> for u8 {
    ghost from_gives = { λ number value. value ≡ number };

    #[inline]
    fn from(value: IpNumber) -> u8 {
        value.0
    }
}
