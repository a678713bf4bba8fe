//! What a packet was discarded for, and where that was found (RFC 4443 section 3.4).

use super::ParameterProblemCode;

/// The code and the pointer of a parameter problem message of ICMPv6 (RFC 4443 section 3.4).
///
/// # Example
///
/// ```
/// // An unrecognized next header, at byte 40 of a packet that began with `abcd`.
/// let bytes = [4, 1, 0xdb, 0x54, 0, 0, 0, 40, b'a', b'b', b'c', b'd'];
/// let (header, _) = Icmpv6Header::from_slice(&bytes)?;
/// let code = ParameterProblemCode::UnrecognizedNextHeader;
/// let problem = ParameterProblemHeader { code, pointer: 40 };
/// assert!(rt; header.icmp_type == Icmpv6Type::ParameterProblem(problem));
/// ```
#[derive(Clone, Copy, Debug, PartialEq, Eq)]
pub struct ParameterProblemHeader {
    /// What the packet was discarded for.
    pub code: ParameterProblemCode,
    /// Bytes 4 to 7 of the message: the place in the discarded packet, in bytes from its front,
    /// where the problem was found.
    pub pointer: u32,
}
