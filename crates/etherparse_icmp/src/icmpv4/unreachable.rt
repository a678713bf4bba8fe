//! Why a packet did not reach its destination (RFC 792, RFC 1122, RFC 1812).

/// The code of a destination unreachable message of ICMP: 0 to 5 of RFC 792, 6 to 12 of RFC 1122
/// section 3.2.2.1, 13 to 15 of RFC 1812 section 5.2.7.1; and the MTU that a message of code 4 has
/// (RFC 1191 section 4).
///
/// # Example
///
/// ```
/// let header = DestUnreachableHeader::from_values(4, 1400);
/// let needed = DestUnreachableHeader::FragmentationNeeded { next_hop_mtu: 1400 };
/// assert!(rt; header == Some(needed) && needed.code_u8() == 4);
/// assert!(rt; DestUnreachableHeader::from_values(3, 0) == Some(DestUnreachableHeader::Port));
/// assert!(rt; DestUnreachableHeader::from_values(16, 0).is_none());
/// ```
#[derive(Clone, Copy, Debug, PartialEq, Eq)]
pub enum DestUnreachableHeader {
    /// 0: the network is unreachable.
    Network,
    /// 1: the host is unreachable.
    Host,
    /// 2: the host does not have the protocol.
    Protocol,
    /// 3: nothing listens at the port.
    Port,
    /// 4: the packet is larger than the next link takes, and may not be fragmented.
    FragmentationNeeded {
        /// Bytes 6 and 7: the greatest length of a packet on that link, in bytes; 0 of a router
        /// that does not tell it.
        next_hop_mtu: u16,
    },
    /// 5: the source route failed.
    SourceRouteFailed,
    /// 6: the network is unknown.
    NetworkUnknown,
    /// 7: the host is unknown.
    HostUnknown,
    /// 8: the source host is isolated.
    Isolated,
    /// 9: communication with the network is prohibited by an administrator.
    NetworkProhibited,
    /// 10: communication with the host is prohibited by an administrator.
    HostProhibited,
    /// 11: the network is unreachable for the type of service.
    TosNetwork,
    /// 12: the host is unreachable for the type of service.
    TosHost,
    /// 13: communication is prohibited by an administrator's filter.
    FilterProhibited,
    /// 14: the host may not have this precedence.
    HostPrecedenceViolation,
    /// 15: the precedence is below the least that the network has.
    PrecedenceCutoff,
}

impl DestUnreachableHeader {
    ghost use Rattle.std.specs.Prelude.{◌≡◌, ◌≤◌, ◌↔◌, IfSome, IsSome};
    ghost use Rattle.std.specs.Prelude.{slice_range};
    ghost use Rattle.std.specs.Int.{from_be_bytes, w16};
    ghost use Rattle.etherparse_icmp.specs.Icmpv4Codes.{IsNextHopMtu, unreachable_cleared};
    ghost use Rattle.etherparse_icmp.specs.Icmpv4Codes.{dest_unreachable_number};

    /// What a message of this code with this number in its bytes 6 and 7 says, if the code has a
    /// name: the numbers from 0 to 15 have one. Only code 4 has the second number.
    pub fn from_values(code_u8: u8, next_hop_mtu: u16) -> Option<DestUnreachableHeader>
        ensures number { IfSome result (λ header. dest_unreachable_number header ≡ code_u8) }
        ensures mtu { IfSome result (λ header. IsNextHopMtu header next_hop_mtu) }
        ensures named { IsSome result ↔ (code_u8 ≤ 15) }
    {
        match code_u8 {
            0 => Some(DestUnreachableHeader::Network),
            1 => Some(DestUnreachableHeader::Host),
            2 => Some(DestUnreachableHeader::Protocol),
            3 => Some(DestUnreachableHeader::Port),
            4 => Some(DestUnreachableHeader::FragmentationNeeded { next_hop_mtu }),
            5 => Some(DestUnreachableHeader::SourceRouteFailed),
            6 => Some(DestUnreachableHeader::NetworkUnknown),
            7 => Some(DestUnreachableHeader::HostUnknown),
            8 => Some(DestUnreachableHeader::Isolated),
            9 => Some(DestUnreachableHeader::NetworkProhibited),
            10 => Some(DestUnreachableHeader::HostProhibited),
            11 => Some(DestUnreachableHeader::TosNetwork),
            12 => Some(DestUnreachableHeader::TosHost),
            13 => Some(DestUnreachableHeader::FilterProhibited),
            14 => Some(DestUnreachableHeader::HostPrecedenceViolation),
            15 => Some(DestUnreachableHeader::PrecedenceCutoff),
            _ => None,
        }
    }

    /// The number of the code, from 0 to 15.
    pub fn code_u8(&self) -> u8
        ensures number { result ≡ dest_unreachable_number self.now }
    {
        match self {
            DestUnreachableHeader::Network => 0,
            DestUnreachableHeader::Host => 1,
            DestUnreachableHeader::Protocol => 2,
            DestUnreachableHeader::Port => 3,
            DestUnreachableHeader::FragmentationNeeded { .. } => 4,
            DestUnreachableHeader::SourceRouteFailed => 5,
            DestUnreachableHeader::NetworkUnknown => 6,
            DestUnreachableHeader::HostUnknown => 7,
            DestUnreachableHeader::Isolated => 8,
            DestUnreachableHeader::NetworkProhibited => 9,
            DestUnreachableHeader::HostProhibited => 10,
            DestUnreachableHeader::TosNetwork => 11,
            DestUnreachableHeader::TosHost => 12,
            DestUnreachableHeader::FilterProhibited => 13,
            DestUnreachableHeader::HostPrecedenceViolation => 14,
            DestUnreachableHeader::PrecedenceCutoff => 15,
        }
    }

    // The 4 bytes after the checksum: those that are not used are 0.
    pub(crate) fn bytes5to8(&self) -> [u8; 4]
        ensures mtu { IsNextHopMtu self.now (from_be_bytes w16 (slice_range result 2 4)) }
        ensures unused { result ≡ unreachable_cleared self.now result }
    {
        match self {
            DestUnreachableHeader::FragmentationNeeded { next_hop_mtu } => {
                let [a, b] = next_hop_mtu.to_be_bytes();
                [0, 0, a, b]
            }
            _ => [0; 4],
        }
    }
}
