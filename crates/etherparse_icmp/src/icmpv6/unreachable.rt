//! Why a packet did not reach its destination (RFC 4443 section 3.1).

/// The code of a destination unreachable message of ICMPv6 (RFC 4443 section 3.1).
///
/// # Example
///
/// ```
/// let code = DestUnreachableCode::from_u8(4);
/// assert!(rt; code == Some(DestUnreachableCode::Port));
/// assert!(rt; DestUnreachableCode::Port.code_u8() == 4);
/// assert!(rt; DestUnreachableCode::from_u8(7).is_none());
/// ```
#[derive(Clone, Copy, Debug, PartialEq, Eq)]
pub enum DestUnreachableCode {
    /// 0: there is no route to the destination.
    NoRoute,
    /// 1: communication with the destination is prohibited by an administrator.
    Prohibited,
    /// 2: the scope of the source address ends before the destination.
    BeyondScope,
    /// 3: the address is unreachable.
    Address,
    /// 4: nothing listens at the port.
    Port,
    /// 5: the source address failed a policy of ingress or egress.
    SourceAddressFailedPolicy,
    /// 6: the route to the destination is one that rejects.
    RejectRoute,
}

impl DestUnreachableCode {
    ghost use Rattle.std.specs.Prelude.{◌≡◌, ◌≤◌, ◌↔◌, IfSome, IsSome};
    ghost use Rattle.etherparse_icmp.specs.Icmpv6Codes.{dest_unreachable_number};

    /// The code of this number, if it has a name: the numbers from 0 to 6 have one.
    pub fn from_u8(code_u8: u8) -> Option<DestUnreachableCode>
        ensures number { IfSome result (λ code. dest_unreachable_number code ≡ code_u8) }
        ensures named { IsSome result ↔ (code_u8 ≤ 6) }
    {
        match code_u8 {
            0 => Some(DestUnreachableCode::NoRoute),
            1 => Some(DestUnreachableCode::Prohibited),
            2 => Some(DestUnreachableCode::BeyondScope),
            3 => Some(DestUnreachableCode::Address),
            4 => Some(DestUnreachableCode::Port),
            5 => Some(DestUnreachableCode::SourceAddressFailedPolicy),
            6 => Some(DestUnreachableCode::RejectRoute),
            _ => None,
        }
    }

    /// The number of the code, from 0 to 6.
    pub fn code_u8(&self) -> u8
        ensures number { result ≡ dest_unreachable_number self.now }
    {
        match self {
            DestUnreachableCode::NoRoute => 0,
            DestUnreachableCode::Prohibited => 1,
            DestUnreachableCode::BeyondScope => 2,
            DestUnreachableCode::Address => 3,
            DestUnreachableCode::Port => 4,
            DestUnreachableCode::SourceAddressFailedPolicy => 5,
            DestUnreachableCode::RejectRoute => 6,
        }
    }
}
