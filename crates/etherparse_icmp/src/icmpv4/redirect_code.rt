//! Which packets a redirect is about (RFC 792).

/// The code of a redirect message of ICMP (RFC 792): which packets are to take the other gateway.
///
/// # Example
///
/// ```
/// let code = RedirectCode::from_u8(1);
/// assert!(rt; code == Some(RedirectCode::RedirectForHost));
/// assert!(rt; RedirectCode::RedirectForHost.code_u8() == 1);
/// assert!(rt; RedirectCode::from_u8(4).is_none());
/// ```
#[derive(Clone, Copy, Debug, PartialEq, Eq)]
pub enum RedirectCode {
    /// 0: those to the network.
    RedirectForNetwork,
    /// 1: those to the host.
    RedirectForHost,
    /// 2: those to the network of this type of service.
    RedirectForTypeOfServiceAndNetwork,
    /// 3: those to the host of this type of service.
    RedirectForTypeOfServiceAndHost,
}

impl RedirectCode {
    ghost use Rattle.std.specs.Prelude.{◌≡◌, ◌≤◌, ◌↔◌, IfSome, IsSome};
    ghost use Rattle.etherparse_icmp.specs.Icmpv4Codes.{redirect_number};

    /// The code of this number, if it has a name: the numbers from 0 to 3 have one.
    pub fn from_u8(code_u8: u8) -> Option<RedirectCode>
        ensures number { IfSome result (λ code. redirect_number code ≡ code_u8) }
        ensures named { IsSome result ↔ (code_u8 ≤ 3) }
    {
        match code_u8 {
            0 => Some(RedirectCode::RedirectForNetwork),
            1 => Some(RedirectCode::RedirectForHost),
            2 => Some(RedirectCode::RedirectForTypeOfServiceAndNetwork),
            3 => Some(RedirectCode::RedirectForTypeOfServiceAndHost),
            _ => None,
        }
    }

    /// The number of the code, from 0 to 3.
    pub fn code_u8(&self) -> u8
        ensures number { result ≡ redirect_number self.now }
    {
        match self {
            RedirectCode::RedirectForNetwork => 0,
            RedirectCode::RedirectForHost => 1,
            RedirectCode::RedirectForTypeOfServiceAndNetwork => 2,
            RedirectCode::RedirectForTypeOfServiceAndHost => 3,
        }
    }
}
