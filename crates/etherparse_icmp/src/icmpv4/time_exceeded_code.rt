//! Which time was exceeded (RFC 792).

/// The code of a time exceeded message of ICMP (RFC 792).
///
/// # Example
///
/// ```
/// let code = TimeExceededCode::from_u8(0);
/// assert!(rt; code == Some(TimeExceededCode::TtlExceededInTransit));
/// assert!(rt; TimeExceededCode::TtlExceededInTransit.code_u8() == 0);
/// assert!(rt; TimeExceededCode::from_u8(2).is_none());
/// ```
#[derive(Clone, Copy, Debug, PartialEq, Eq)]
pub enum TimeExceededCode {
    /// 0: the time to live reached 0 on the way.
    TtlExceededInTransit,
    /// 1: not all fragments came in time.
    FragmentReassemblyTimeExceeded,
}

impl TimeExceededCode {
    ghost use Rattle.std.specs.Prelude.{◌≡◌, ◌≤◌, ◌↔◌, IfSome, IsSome};
    ghost use Rattle.etherparse_icmp.specs.Icmpv4Codes.{time_exceeded_number};

    /// The code of this number, if it has a name: 0 and 1 have one.
    pub fn from_u8(code_u8: u8) -> Option<TimeExceededCode>
        ensures number { IfSome result (λ code. time_exceeded_number code ≡ code_u8) }
        ensures named { IsSome result ↔ (code_u8 ≤ 1) }
    {
        match code_u8 {
            0 => Some(TimeExceededCode::TtlExceededInTransit),
            1 => Some(TimeExceededCode::FragmentReassemblyTimeExceeded),
            _ => None,
        }
    }

    /// The number of the code, 0 or 1.
    pub fn code_u8(&self) -> u8
        ensures number { result ≡ time_exceeded_number self.now }
    {
        match self {
            TimeExceededCode::TtlExceededInTransit => 0,
            TimeExceededCode::FragmentReassemblyTimeExceeded => 1,
        }
    }
}
