//! The names that cases and answers use, each with what it stands for.

use etherparse::err::{Layer, ValueType};
use etherparse::{IpDscpKnown, IpNumber, LenSource, ip_number};

// Names, each with the variant, the constant or the number that has it.
macro_rules! named {
    ($path:ident: $($name:ident),*) => { [$((stringify!($name), $path::$name)),*] };
    ($path:ident.0: $($name:ident),*) => { [$((stringify!($name), $path::$name.0)),*] };
}

/// The layers, in their order.
pub static LAYERS: [(&str, Layer); 25] = named![Layer:
    LinuxSllHeader, Ethernet2Header, EtherPayload, VlanHeader, MacsecHeader, MacsecPacket,
    IpHeader, Ipv4Header, Ipv4Packet, IpAuthHeader, Ipv6Header, Ipv6Packet, Ipv6ExtHeader,
    Ipv6HopByHopHeader, Ipv6DestOptionsHeader, Ipv6RouteHeader, Ipv6FragHeader, UdpHeader,
    UdpPayload, TcpHeader, Icmpv4, Icmpv4Timestamp, Icmpv4TimestampReply, Icmpv6, Arp
];

/// The value types, in their order.
pub static VALUE_TYPES: [(&str, ValueType); 16] = named![ValueType:
    VlanId, VlanPcp, MacsecAn, MacsecShortLen, IpFragmentOffset, IpDscp, IpEcn, Ipv6FlowLabel,
    Ipv4PayloadLength, Ipv6PayloadLength, UdpPayloadLengthIpv4, UdpPayloadLengthIpv6,
    TcpPayloadLengthIpv4, TcpPayloadLengthIpv6, Icmpv6PayloadLength, LinuxSllType
];

/// Where a length may come from.
pub static LEN_SOURCES: [(&str, LenSource); 7] = named![LenSource:
    Slice, MacsecShortLength, Ipv4HeaderTotalLen, Ipv6HeaderPayloadLen, UdpHeaderLen,
    TcpHeaderLen, ArpAddrLengths
];

/// The known code points, in their order.
pub static KNOWN_CODE_POINTS: [(&str, IpDscpKnown); 23] = named![IpDscpKnown:
    ClassSelector0, LowerEffort, ClassSelector1, AfGroup11, AfGroup12, AfGroup13,
    ClassSelector2, AfGroup21, AfGroup22, AfGroup23, ClassSelector3, AfGroup31, AfGroup32,
    AfGroup33, ClassSelector4, AfGroup41, AfGroup42, AfGroup43, ClassSelector5, VoiceAdmit,
    ExpeditedForwarding, ClassSelector6, ClassSelector7
];

/// The numbers of protocols that have names, by their numbers.
pub static IP_NUMBERS: [(&str, u8); 144] = named![IpNumber.0:
    IPV6_HEADER_HOP_BY_HOP, ICMP, IGMP, GGP, IPV4, STREAM, TCP, CBT, EGP, IGP, BBN_RCC_MON,
    NVP_II, PUP, ARGUS, EMCON, XNET, CHAOS, UDP, MUX, DCN_MEAS, HMP, PRM, XNS_IDP, TRUNK1,
    TRUNK2, LEAF1, LEAF2, RDP, IRTP, ISO_TP4, NET_BLT, MFE_NSP, MERIT_INP, DCCP,
    THIRD_PARTY_CONNECT_PROTOCOL, IDPR, XTP, DDP, IDPR_CMTP, TP_PLUS_PLUS, IL, IPV6, SDRP,
    IPV6_ROUTE_HEADER, IPV6_FRAGMENTATION_HEADER, IDRP, RSVP, GRE, DSR, BNA,
    ENCAPSULATING_SECURITY_PAYLOAD, AUTHENTICATION_HEADER, INLSP, SWIPE, NARP, MOBILE, TLSP,
    SKIP, IPV6_ICMP, IPV6_NO_NEXT_HEADER, IPV6_DESTINATION_OPTIONS, ANY_HOST_INTERNAL_PROTOCOL,
    CFTP, ANY_LOCAL_NETWORK, SAT_EXPAK, KRYTOLAN, RVD, IPPC, ANY_DISTRIBUTED_FILE_SYSTEM,
    SAT_MON, VISA, IPCV, CPNX, CPHB, WSN, PVP, BR_SAT_MON, SUN_ND, WB_MON, WB_EXPAK, ISO_IP,
    VMTP, SECURE_VMTP, VINES, TTP_OR_IPTM, NSFNET_IGP, DGP, TCF, EIGRP, OSPFIGP, SPRITE_RPC,
    LARP, MTP, AX25, IPIP, MICP, SCC_SP, ETHER_IP, ENCAP, GMTP, IFMP, PNNI, PIM, ARIS, SCPS,
    QNX, ACTIVE_NETWORKS, IP_COMP, SITRA_NETWORKS_PROTOCOL, COMPAQ_PEER, IPX_IN_IP, VRRP, PGM,
    ANY_ZERO_HOP_PROTOCOL, LAYER2_TUNNELING_PROTOCOL, DDX, IATP, STP, SRP, UTI,
    SIMPLE_MESSAGE_PROTOCOL, SM, PTP, ISIS_OVER_IPV4, FIRE, CRTP, CRUDP, SSCOPMCE, IPLT, SPS,
    PIPE, SCTP, FC, RSVP_E2E_IGNORE, MOBILITY_HEADER, UDP_LITE, MPLS_IN_IP, MANET, HIP, SHIM6,
    WESP, ROHC, EXPERIMENTAL_AND_TESTING_0, EXPERIMENTAL_AND_TESTING_1
];

/// The same with the short names, as the module has them, by their numbers and then by their names.
pub static IP_NUMBER_NAMES: [(&str, u8); 153] = named![ip_number.0:
    IPV6_HEADER_HOP_BY_HOP, IPV6_HOP_BY_HOP, ICMP, IGMP, GGP, IPV4, STREAM, TCP, CBT, EGP, IGP,
    BBN_RCC_MON, NVP_II, PUP, ARGUS, EMCON, XNET, CHAOS, UDP, MUX, DCN_MEAS, HMP, PRM, XNS_IDP,
    TRUNK1, TRUNK2, LEAF1, LEAF2, RDP, IRTP, ISO_TP4, NET_BLT, MFE_NSP, MERIT_INP, DCCP,
    THIRD_PARTY_CONNECT_PROTOCOL, IDPR, XTP, DDP, IDPR_CMTP, TP_PLUS_PLUS, IL, IPV6, SDRP,
    IPV6_ROUTE, IPV6_ROUTE_HEADER, IPV6_FRAG, IPV6_FRAGMENTATION_HEADER, IDRP, RSVP, GRE, DSR,
    BNA, ENCAPSULATING_SECURITY_PAYLOAD, ENCAP_SEC, AUTH, AUTHENTICATION_HEADER, INLSP, SWIPE,
    NARP, MOBILE, TLSP, SKIP, IPV6_ICMP, IPV6_NO_NEXT_HEADER, IPV6_DESTINATION_OPTIONS,
    IPV6_DEST_OPTIONS, ANY_HOST_INTERNAL_PROTOCOL, CFTP, ANY_LOCAL_NETWORK, SAT_EXPAK, KRYTOLAN,
    RVD, IPPC, ANY_DISTRIBUTED_FILE_SYSTEM, SAT_MON, VISA, IPCV, CPNX, CPHB, WSN, PVP,
    BR_SAT_MON, SUN_ND, WB_MON, WB_EXPAK, ISO_IP, VMTP, SECURE_VMTP, VINES, TTP_OR_IPTM,
    NSFNET_IGP, DGP, TCF, EIGRP, OSPFIGP, SPRITE_RPC, LARP, MTP, AX25, IPIP, MICP, SCC_SP,
    ETHER_IP, ENCAP, GMTP, IFMP, PNNI, PIM, ARIS, SCPS, QNX, ACTIVE_NETWORKS, IP_COMP,
    SITRA_NETWORKS_PROTOCOL, COMPAQ_PEER, IPX_IN_IP, VRRP, PGM, ANY_ZERO_HOP_PROTOCOL,
    LAYER2_TUNNELING_PROTOCOL, DDX, IATP, STP, SRP, UTI, SIMPLE_MESSAGE_PROTOCOL, SM, PTP,
    ISIS_OVER_IPV4, FIRE, CRTP, CRUDP, SSCOPMCE, IPLT, SPS, PIPE, SCTP, FC, RSVP_E2E_IGNORE,
    MOBILITY, MOBILITY_HEADER, UDP_LITE, MPLS_IN_IP, MANET, HIP, SHIM6, WESP, ROHC, EXP0,
    EXPERIMENTAL_AND_TESTING_0, EXP1, EXPERIMENTAL_AND_TESTING_1
];
