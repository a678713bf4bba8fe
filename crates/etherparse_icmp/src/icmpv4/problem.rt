//! What a packet was discarded for (RFC 792).

/// The code of a parameter problem message of ICMP, and the pointer that a message of code 0 has
/// (RFC 792; code 1 of RFC 1122 section 3.2.2.5).
///
/// # Example
///
/// ```
/// let header = ParameterProblemHeader::from_values(0, 20);
/// let problem = ParameterProblemHeader::PointerIndicatesError(20);
/// assert!(rt; header == Some(problem) && problem.code_u8() == 0);
/// let length = ParameterProblemHeader::from_values(2, 0);
/// assert!(rt; length == Some(ParameterProblemHeader::BadLength));
/// assert!(rt; ParameterProblemHeader::from_values(3, 0).is_none());
/// ```
#[derive(Clone, Copy, Debug, PartialEq, Eq)]
pub enum ParameterProblemHeader {
    /// 0: the problem is at this place in the discarded packet, in bytes from its front. The place
    /// is byte 4 of the message.
    PointerIndicatesError(u8),
    /// 1: an option that is required is missing.
    MissingRequiredOption,
    /// 2: a length is bad.
    BadLength,
}

impl ParameterProblemHeader {
    ghost use Rattle.std.specs.Prelude.{◌≡◌, ◌≤◌, ◌↔◌, IfSome, IsSome, slice_index};
    ghost use Rattle.etherparse_icmp.specs.Icmpv4Codes.{IsPointer, problem_cleared};
    ghost use Rattle.etherparse_icmp.specs.Icmpv4Codes.{parameter_problem_number};

    /// What a message of this code with this byte 4 says, if the code has a name: 0, 1 and 2 have
    /// one. Only code 0 has the byte.
    pub fn from_values(code_u8: u8, pointer: u8) -> Option<ParameterProblemHeader>
        ensures number { IfSome result (λ header. parameter_problem_number header ≡ code_u8) }
        ensures pointer { IfSome result (λ header. IsPointer header pointer) }
        ensures named { IsSome result ↔ (code_u8 ≤ 2) }
    {
        match code_u8 {
            0 => Some(ParameterProblemHeader::PointerIndicatesError(pointer)),
            1 => Some(ParameterProblemHeader::MissingRequiredOption),
            2 => Some(ParameterProblemHeader::BadLength),
            _ => None,
        }
    }

    /// The number of the code, 0 to 2.
    pub fn code_u8(&self) -> u8
        ensures number { result ≡ parameter_problem_number self.now }
    {
        match self {
            ParameterProblemHeader::PointerIndicatesError(_) => 0,
            ParameterProblemHeader::MissingRequiredOption => 1,
            ParameterProblemHeader::BadLength => 2,
        }
    }

    // The 4 bytes after the checksum: those that are not used are 0.
    pub(crate) fn bytes5to8(&self) -> [u8; 4]
        ensures pointer { IsPointer self.now (slice_index result 0) }
        ensures unused { result ≡ problem_cleared self.now result }
    {
        match self {
            ParameterProblemHeader::PointerIndicatesError(pointer) => [*pointer, 0, 0, 0],
            _ => [0; 4],
        }
    }
}
