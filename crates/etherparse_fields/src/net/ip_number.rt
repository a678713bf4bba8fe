//! The constants of [`IpNumber`] by themselves, so that they can be named without the type; nine of
//! them also have a short name.

use crate::IpNumber;

/// [`IpNumber::IPV6_HEADER_HOP_BY_HOP`], 0.
pub const IPV6_HEADER_HOP_BY_HOP: IpNumber = IpNumber::IPV6_HEADER_HOP_BY_HOP;

/// [`IpNumber::IPV6_HEADER_HOP_BY_HOP`], 0.
pub const IPV6_HOP_BY_HOP: IpNumber = IpNumber::IPV6_HEADER_HOP_BY_HOP;

/// [`IpNumber::ICMP`], 1.
pub const ICMP: IpNumber = IpNumber::ICMP;

/// [`IpNumber::IGMP`], 2.
pub const IGMP: IpNumber = IpNumber::IGMP;

/// [`IpNumber::GGP`], 3.
pub const GGP: IpNumber = IpNumber::GGP;

/// [`IpNumber::IPV4`], 4.
pub const IPV4: IpNumber = IpNumber::IPV4;

/// [`IpNumber::STREAM`], 5.
pub const STREAM: IpNumber = IpNumber::STREAM;

/// [`IpNumber::TCP`], 6.
pub const TCP: IpNumber = IpNumber::TCP;

/// [`IpNumber::CBT`], 7.
pub const CBT: IpNumber = IpNumber::CBT;

/// [`IpNumber::EGP`], 8.
pub const EGP: IpNumber = IpNumber::EGP;

/// [`IpNumber::IGP`], 9.
pub const IGP: IpNumber = IpNumber::IGP;

/// [`IpNumber::BBN_RCC_MON`], 10.
pub const BBN_RCC_MON: IpNumber = IpNumber::BBN_RCC_MON;

/// [`IpNumber::NVP_II`], 11.
pub const NVP_II: IpNumber = IpNumber::NVP_II;

/// [`IpNumber::PUP`], 12.
pub const PUP: IpNumber = IpNumber::PUP;

/// [`IpNumber::ARGUS`], 13.
pub const ARGUS: IpNumber = IpNumber::ARGUS;

/// [`IpNumber::EMCON`], 14.
pub const EMCON: IpNumber = IpNumber::EMCON;

/// [`IpNumber::XNET`], 15.
pub const XNET: IpNumber = IpNumber::XNET;

/// [`IpNumber::CHAOS`], 16.
pub const CHAOS: IpNumber = IpNumber::CHAOS;

/// [`IpNumber::UDP`], 17.
pub const UDP: IpNumber = IpNumber::UDP;

/// [`IpNumber::MUX`], 18.
pub const MUX: IpNumber = IpNumber::MUX;

/// [`IpNumber::DCN_MEAS`], 19.
pub const DCN_MEAS: IpNumber = IpNumber::DCN_MEAS;

/// [`IpNumber::HMP`], 20.
pub const HMP: IpNumber = IpNumber::HMP;

/// [`IpNumber::PRM`], 21.
pub const PRM: IpNumber = IpNumber::PRM;

/// [`IpNumber::XNS_IDP`], 22.
pub const XNS_IDP: IpNumber = IpNumber::XNS_IDP;

/// [`IpNumber::TRUNK1`], 23.
pub const TRUNK1: IpNumber = IpNumber::TRUNK1;

/// [`IpNumber::TRUNK2`], 24.
pub const TRUNK2: IpNumber = IpNumber::TRUNK2;

/// [`IpNumber::LEAF1`], 25.
pub const LEAF1: IpNumber = IpNumber::LEAF1;

/// [`IpNumber::LEAF2`], 26.
pub const LEAF2: IpNumber = IpNumber::LEAF2;

/// [`IpNumber::RDP`], 27.
pub const RDP: IpNumber = IpNumber::RDP;

/// [`IpNumber::IRTP`], 28.
pub const IRTP: IpNumber = IpNumber::IRTP;

/// [`IpNumber::ISO_TP4`], 29.
pub const ISO_TP4: IpNumber = IpNumber::ISO_TP4;

/// [`IpNumber::NET_BLT`], 30.
pub const NET_BLT: IpNumber = IpNumber::NET_BLT;

/// [`IpNumber::MFE_NSP`], 31.
pub const MFE_NSP: IpNumber = IpNumber::MFE_NSP;

/// [`IpNumber::MERIT_INP`], 32.
pub const MERIT_INP: IpNumber = IpNumber::MERIT_INP;

/// [`IpNumber::DCCP`], 33.
pub const DCCP: IpNumber = IpNumber::DCCP;

/// [`IpNumber::THIRD_PARTY_CONNECT_PROTOCOL`], 34.
pub const THIRD_PARTY_CONNECT_PROTOCOL: IpNumber = IpNumber::THIRD_PARTY_CONNECT_PROTOCOL;

/// [`IpNumber::IDPR`], 35.
pub const IDPR: IpNumber = IpNumber::IDPR;

/// [`IpNumber::XTP`], 36.
pub const XTP: IpNumber = IpNumber::XTP;

/// [`IpNumber::DDP`], 37.
pub const DDP: IpNumber = IpNumber::DDP;

/// [`IpNumber::IDPR_CMTP`], 38.
pub const IDPR_CMTP: IpNumber = IpNumber::IDPR_CMTP;

/// [`IpNumber::TP_PLUS_PLUS`], 39.
pub const TP_PLUS_PLUS: IpNumber = IpNumber::TP_PLUS_PLUS;

/// [`IpNumber::IL`], 40.
pub const IL: IpNumber = IpNumber::IL;

/// [`IpNumber::IPV6`], 41.
pub const IPV6: IpNumber = IpNumber::IPV6;

/// [`IpNumber::SDRP`], 42.
pub const SDRP: IpNumber = IpNumber::SDRP;

/// [`IpNumber::IPV6_ROUTE_HEADER`], 43.
pub const IPV6_ROUTE: IpNumber = IpNumber::IPV6_ROUTE_HEADER;

/// [`IpNumber::IPV6_ROUTE_HEADER`], 43.
pub const IPV6_ROUTE_HEADER: IpNumber = IpNumber::IPV6_ROUTE_HEADER;

/// [`IpNumber::IPV6_FRAGMENTATION_HEADER`], 44.
pub const IPV6_FRAG: IpNumber = IpNumber::IPV6_FRAGMENTATION_HEADER;

/// [`IpNumber::IPV6_FRAGMENTATION_HEADER`], 44.
pub const IPV6_FRAGMENTATION_HEADER: IpNumber = IpNumber::IPV6_FRAGMENTATION_HEADER;

/// [`IpNumber::IDRP`], 45.
pub const IDRP: IpNumber = IpNumber::IDRP;

/// [`IpNumber::RSVP`], 46.
pub const RSVP: IpNumber = IpNumber::RSVP;

/// [`IpNumber::GRE`], 47.
pub const GRE: IpNumber = IpNumber::GRE;

/// [`IpNumber::DSR`], 48.
pub const DSR: IpNumber = IpNumber::DSR;

/// [`IpNumber::BNA`], 49.
pub const BNA: IpNumber = IpNumber::BNA;

/// [`IpNumber::ENCAPSULATING_SECURITY_PAYLOAD`], 50.
pub const ENCAPSULATING_SECURITY_PAYLOAD: IpNumber = IpNumber::ENCAPSULATING_SECURITY_PAYLOAD;

/// [`IpNumber::ENCAPSULATING_SECURITY_PAYLOAD`], 50.
pub const ENCAP_SEC: IpNumber = IpNumber::ENCAPSULATING_SECURITY_PAYLOAD;

/// [`IpNumber::AUTHENTICATION_HEADER`], 51.
pub const AUTH: IpNumber = IpNumber::AUTHENTICATION_HEADER;

/// [`IpNumber::AUTHENTICATION_HEADER`], 51.
pub const AUTHENTICATION_HEADER: IpNumber = IpNumber::AUTHENTICATION_HEADER;

/// [`IpNumber::INLSP`], 52.
pub const INLSP: IpNumber = IpNumber::INLSP;

/// [`IpNumber::SWIPE`], 53.
pub const SWIPE: IpNumber = IpNumber::SWIPE;

/// [`IpNumber::NARP`], 54.
pub const NARP: IpNumber = IpNumber::NARP;

/// [`IpNumber::MOBILE`], 55.
pub const MOBILE: IpNumber = IpNumber::MOBILE;

/// [`IpNumber::TLSP`], 56.
pub const TLSP: IpNumber = IpNumber::TLSP;

/// [`IpNumber::SKIP`], 57.
pub const SKIP: IpNumber = IpNumber::SKIP;

/// [`IpNumber::IPV6_ICMP`], 58.
pub const IPV6_ICMP: IpNumber = IpNumber::IPV6_ICMP;

/// [`IpNumber::IPV6_NO_NEXT_HEADER`], 59.
pub const IPV6_NO_NEXT_HEADER: IpNumber = IpNumber::IPV6_NO_NEXT_HEADER;

/// [`IpNumber::IPV6_DESTINATION_OPTIONS`], 60.
pub const IPV6_DESTINATION_OPTIONS: IpNumber = IpNumber::IPV6_DESTINATION_OPTIONS;

/// [`IpNumber::IPV6_DESTINATION_OPTIONS`], 60.
pub const IPV6_DEST_OPTIONS: IpNumber = IpNumber::IPV6_DESTINATION_OPTIONS;

/// [`IpNumber::ANY_HOST_INTERNAL_PROTOCOL`], 61.
pub const ANY_HOST_INTERNAL_PROTOCOL: IpNumber = IpNumber::ANY_HOST_INTERNAL_PROTOCOL;

/// [`IpNumber::CFTP`], 62.
pub const CFTP: IpNumber = IpNumber::CFTP;

/// [`IpNumber::ANY_LOCAL_NETWORK`], 63.
pub const ANY_LOCAL_NETWORK: IpNumber = IpNumber::ANY_LOCAL_NETWORK;

/// [`IpNumber::SAT_EXPAK`], 64.
pub const SAT_EXPAK: IpNumber = IpNumber::SAT_EXPAK;

/// [`IpNumber::KRYTOLAN`], 65.
pub const KRYTOLAN: IpNumber = IpNumber::KRYTOLAN;

/// [`IpNumber::RVD`], 66.
pub const RVD: IpNumber = IpNumber::RVD;

/// [`IpNumber::IPPC`], 67.
pub const IPPC: IpNumber = IpNumber::IPPC;

/// [`IpNumber::ANY_DISTRIBUTED_FILE_SYSTEM`], 68.
pub const ANY_DISTRIBUTED_FILE_SYSTEM: IpNumber = IpNumber::ANY_DISTRIBUTED_FILE_SYSTEM;

/// [`IpNumber::SAT_MON`], 69.
pub const SAT_MON: IpNumber = IpNumber::SAT_MON;

/// [`IpNumber::VISA`], 70.
pub const VISA: IpNumber = IpNumber::VISA;

/// [`IpNumber::IPCV`], 71.
pub const IPCV: IpNumber = IpNumber::IPCV;

/// [`IpNumber::CPNX`], 72.
pub const CPNX: IpNumber = IpNumber::CPNX;

/// [`IpNumber::CPHB`], 73.
pub const CPHB: IpNumber = IpNumber::CPHB;

/// [`IpNumber::WSN`], 74.
pub const WSN: IpNumber = IpNumber::WSN;

/// [`IpNumber::PVP`], 75.
pub const PVP: IpNumber = IpNumber::PVP;

/// [`IpNumber::BR_SAT_MON`], 76.
pub const BR_SAT_MON: IpNumber = IpNumber::BR_SAT_MON;

/// [`IpNumber::SUN_ND`], 77.
pub const SUN_ND: IpNumber = IpNumber::SUN_ND;

/// [`IpNumber::WB_MON`], 78.
pub const WB_MON: IpNumber = IpNumber::WB_MON;

/// [`IpNumber::WB_EXPAK`], 79.
pub const WB_EXPAK: IpNumber = IpNumber::WB_EXPAK;

/// [`IpNumber::ISO_IP`], 80.
pub const ISO_IP: IpNumber = IpNumber::ISO_IP;

/// [`IpNumber::VMTP`], 81.
pub const VMTP: IpNumber = IpNumber::VMTP;

/// [`IpNumber::SECURE_VMTP`], 82.
pub const SECURE_VMTP: IpNumber = IpNumber::SECURE_VMTP;

/// [`IpNumber::VINES`], 83.
pub const VINES: IpNumber = IpNumber::VINES;

/// [`IpNumber::TTP_OR_IPTM`], 84.
pub const TTP_OR_IPTM: IpNumber = IpNumber::TTP_OR_IPTM;

/// [`IpNumber::NSFNET_IGP`], 85.
pub const NSFNET_IGP: IpNumber = IpNumber::NSFNET_IGP;

/// [`IpNumber::DGP`], 86.
pub const DGP: IpNumber = IpNumber::DGP;

/// [`IpNumber::TCF`], 87.
pub const TCF: IpNumber = IpNumber::TCF;

/// [`IpNumber::EIGRP`], 88.
pub const EIGRP: IpNumber = IpNumber::EIGRP;

/// [`IpNumber::OSPFIGP`], 89.
pub const OSPFIGP: IpNumber = IpNumber::OSPFIGP;

/// [`IpNumber::SPRITE_RPC`], 90.
pub const SPRITE_RPC: IpNumber = IpNumber::SPRITE_RPC;

/// [`IpNumber::LARP`], 91.
pub const LARP: IpNumber = IpNumber::LARP;

/// [`IpNumber::MTP`], 92.
pub const MTP: IpNumber = IpNumber::MTP;

/// [`IpNumber::AX25`], 93.
pub const AX25: IpNumber = IpNumber::AX25;

/// [`IpNumber::IPIP`], 94.
pub const IPIP: IpNumber = IpNumber::IPIP;

/// [`IpNumber::MICP`], 95.
pub const MICP: IpNumber = IpNumber::MICP;

/// [`IpNumber::SCC_SP`], 96.
pub const SCC_SP: IpNumber = IpNumber::SCC_SP;

/// [`IpNumber::ETHER_IP`], 97.
pub const ETHER_IP: IpNumber = IpNumber::ETHER_IP;

/// [`IpNumber::ENCAP`], 98.
pub const ENCAP: IpNumber = IpNumber::ENCAP;

/// [`IpNumber::GMTP`], 100.
pub const GMTP: IpNumber = IpNumber::GMTP;

/// [`IpNumber::IFMP`], 101.
pub const IFMP: IpNumber = IpNumber::IFMP;

/// [`IpNumber::PNNI`], 102.
pub const PNNI: IpNumber = IpNumber::PNNI;

/// [`IpNumber::PIM`], 103.
pub const PIM: IpNumber = IpNumber::PIM;

/// [`IpNumber::ARIS`], 104.
pub const ARIS: IpNumber = IpNumber::ARIS;

/// [`IpNumber::SCPS`], 105.
pub const SCPS: IpNumber = IpNumber::SCPS;

/// [`IpNumber::QNX`], 106.
pub const QNX: IpNumber = IpNumber::QNX;

/// [`IpNumber::ACTIVE_NETWORKS`], 107.
pub const ACTIVE_NETWORKS: IpNumber = IpNumber::ACTIVE_NETWORKS;

/// [`IpNumber::IP_COMP`], 108.
pub const IP_COMP: IpNumber = IpNumber::IP_COMP;

/// [`IpNumber::SITRA_NETWORKS_PROTOCOL`], 109.
pub const SITRA_NETWORKS_PROTOCOL: IpNumber = IpNumber::SITRA_NETWORKS_PROTOCOL;

/// [`IpNumber::COMPAQ_PEER`], 110.
pub const COMPAQ_PEER: IpNumber = IpNumber::COMPAQ_PEER;

/// [`IpNumber::IPX_IN_IP`], 111.
pub const IPX_IN_IP: IpNumber = IpNumber::IPX_IN_IP;

/// [`IpNumber::VRRP`], 112.
pub const VRRP: IpNumber = IpNumber::VRRP;

/// [`IpNumber::PGM`], 113.
pub const PGM: IpNumber = IpNumber::PGM;

/// [`IpNumber::ANY_ZERO_HOP_PROTOCOL`], 114.
pub const ANY_ZERO_HOP_PROTOCOL: IpNumber = IpNumber::ANY_ZERO_HOP_PROTOCOL;

/// [`IpNumber::LAYER2_TUNNELING_PROTOCOL`], 115.
pub const LAYER2_TUNNELING_PROTOCOL: IpNumber = IpNumber::LAYER2_TUNNELING_PROTOCOL;

/// [`IpNumber::DDX`], 116.
pub const DDX: IpNumber = IpNumber::DDX;

/// [`IpNumber::IATP`], 117.
pub const IATP: IpNumber = IpNumber::IATP;

/// [`IpNumber::STP`], 118.
pub const STP: IpNumber = IpNumber::STP;

/// [`IpNumber::SRP`], 119.
pub const SRP: IpNumber = IpNumber::SRP;

/// [`IpNumber::UTI`], 120.
pub const UTI: IpNumber = IpNumber::UTI;

/// [`IpNumber::SIMPLE_MESSAGE_PROTOCOL`], 121.
pub const SIMPLE_MESSAGE_PROTOCOL: IpNumber = IpNumber::SIMPLE_MESSAGE_PROTOCOL;

/// [`IpNumber::SM`], 122.
pub const SM: IpNumber = IpNumber::SM;

/// [`IpNumber::PTP`], 123.
pub const PTP: IpNumber = IpNumber::PTP;

/// [`IpNumber::ISIS_OVER_IPV4`], 124.
pub const ISIS_OVER_IPV4: IpNumber = IpNumber::ISIS_OVER_IPV4;

/// [`IpNumber::FIRE`], 125.
pub const FIRE: IpNumber = IpNumber::FIRE;

/// [`IpNumber::CRTP`], 126.
pub const CRTP: IpNumber = IpNumber::CRTP;

/// [`IpNumber::CRUDP`], 127.
pub const CRUDP: IpNumber = IpNumber::CRUDP;

/// [`IpNumber::SSCOPMCE`], 128.
pub const SSCOPMCE: IpNumber = IpNumber::SSCOPMCE;

/// [`IpNumber::IPLT`], 129.
pub const IPLT: IpNumber = IpNumber::IPLT;

/// [`IpNumber::SPS`], 130.
pub const SPS: IpNumber = IpNumber::SPS;

/// [`IpNumber::PIPE`], 131.
pub const PIPE: IpNumber = IpNumber::PIPE;

/// [`IpNumber::SCTP`], 132.
pub const SCTP: IpNumber = IpNumber::SCTP;

/// [`IpNumber::FC`], 133.
pub const FC: IpNumber = IpNumber::FC;

/// [`IpNumber::RSVP_E2E_IGNORE`], 134.
pub const RSVP_E2E_IGNORE: IpNumber = IpNumber::RSVP_E2E_IGNORE;

/// [`IpNumber::MOBILITY_HEADER`], 135.
pub const MOBILITY: IpNumber = IpNumber::MOBILITY_HEADER;

/// [`IpNumber::MOBILITY_HEADER`], 135.
pub const MOBILITY_HEADER: IpNumber = IpNumber::MOBILITY_HEADER;

/// [`IpNumber::UDP_LITE`], 136.
pub const UDP_LITE: IpNumber = IpNumber::UDP_LITE;

/// [`IpNumber::MPLS_IN_IP`], 137.
pub const MPLS_IN_IP: IpNumber = IpNumber::MPLS_IN_IP;

/// [`IpNumber::MANET`], 138.
pub const MANET: IpNumber = IpNumber::MANET;

/// [`IpNumber::HIP`], 139.
pub const HIP: IpNumber = IpNumber::HIP;

/// [`IpNumber::SHIM6`], 140.
pub const SHIM6: IpNumber = IpNumber::SHIM6;

/// [`IpNumber::WESP`], 141.
pub const WESP: IpNumber = IpNumber::WESP;

/// [`IpNumber::ROHC`], 142.
pub const ROHC: IpNumber = IpNumber::ROHC;

/// [`IpNumber::EXPERIMENTAL_AND_TESTING_0`], 253.
pub const EXP0: IpNumber = IpNumber::EXPERIMENTAL_AND_TESTING_0;

/// [`IpNumber::EXPERIMENTAL_AND_TESTING_0`], 253.
pub const EXPERIMENTAL_AND_TESTING_0: IpNumber = IpNumber::EXPERIMENTAL_AND_TESTING_0;

/// [`IpNumber::EXPERIMENTAL_AND_TESTING_1`], 254.
pub const EXP1: IpNumber = IpNumber::EXPERIMENTAL_AND_TESTING_1;

/// [`IpNumber::EXPERIMENTAL_AND_TESTING_1`], 254.
pub const EXPERIMENTAL_AND_TESTING_1: IpNumber = IpNumber::EXPERIMENTAL_AND_TESTING_1;
