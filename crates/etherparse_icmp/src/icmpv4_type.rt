//! What a message of ICMP is (RFC 792).

ghost use Rattle.std.specs.Prelude.{◌≡◌, ◌≤◌, ◌++◌, IfSome, IsNone, length};
ghost use Rattle.etherparse.specs.Bytes.{IsBytes};
ghost use Rattle.etherparse_icmp.specs.Icmpv4.{AreIcmpv4Unnamed, HasIcmpv4Name, SaysIcmpv4};
ghost use Rattle.etherparse_icmp.specs.Icmpv4.{icmpv4_len};

use crate::IcmpEchoHeader;
use crate::icmpv4::{
    DestUnreachableHeader, ParameterProblemHeader, RedirectCode, RedirectHeader, TimeExceededCode,
    TimestampMessage,
};
use arrayvec::ArrayVec;
use etherparse::checksum::Sum16BitWords;

/// The type of a message of ICMP, its code, and what the bytes after its checksum say (RFC 792).
///
/// A message of a type or a code that has no name here is `Unknown`, with its 4 bytes as they are.
/// A value that is made as `Unknown` with the numbers of a named type is written as it is, and is
/// not read as `Unknown`.
#[derive(Clone, Copy, Debug, PartialEq, Eq)]
pub enum Icmpv4Type {
    /// Any other message, as its bytes.
    Unknown {
        /// The type: byte 0.
        type_u8: u8,
        /// The code: byte 1.
        code_u8: u8,
        /// The 4 bytes after the checksum.
        bytes5to8: [u8; 4],
    },
    /// Type 0, code 0: the echo.
    EchoReply(IcmpEchoHeader),
    /// Type 3: a packet did not reach its destination. Bytes 4 and 5, and 6 and 7 but of code 4,
    /// are not used: they are read whatever they are, and written as 0.
    DestinationUnreachable(DestUnreachableHeader),
    /// Type 5: another gateway is nearer.
    Redirect(RedirectHeader),
    /// Type 8, code 0: asks for an echo.
    EchoRequest(IcmpEchoHeader),
    /// Type 11: a packet was discarded since a time was exceeded. Bytes 4 to 7 are not used: they
    /// are read whatever they are, and written as 0.
    TimeExceeded(TimeExceededCode),
    /// Type 12: a packet was discarded for a problem in its header. Bytes 5 to 7, and byte 4 but of
    /// code 0, are not used: they are read whatever they are, and written as 0.
    ParameterProblem(ParameterProblemHeader),
    /// Type 13, code 0: asks for times.
    TimestampRequest(TimestampMessage),
    /// Type 14, code 0: the times.
    TimestampReply(TimestampMessage),
}

impl Icmpv4Type {
    ghost use Rattle.std.specs.Prelude.{◌≡◌, ◌+◌, ◌∷◌, length};
    ghost use Rattle.std.specs.Int.{to_be_bytes, w16};
    ghost use Rattle.etherparse_icmp.specs.Icmpv4.{HasIcmpv4Rest, IsIcmpv4AsRead};
    ghost use Rattle.etherparse_icmp.specs.Icmpv4.{icmpv4_cleared, IsIcmpv4Written};
    ghost use Rattle.etherparse_icmp.specs.Icmpv4.{icmpv4_code_number, icmpv4_len};
    ghost use Rattle.etherparse_icmp.specs.Icmpv4.{icmpv4_type_number};
    ghost use Rattle.etherparse_icmp.specs.Icmpv4Checksum.{IsIcmpv4Checksum};

    /// The number of the type: byte 0.
    pub fn type_u8(&self) -> u8
        ensures number { result ≡ icmpv4_type_number self.now }
    {
        match self {
            Icmpv4Type::Unknown { type_u8, .. } => *type_u8,
            Icmpv4Type::EchoReply(_) => 0,
            Icmpv4Type::DestinationUnreachable(_) => 3,
            Icmpv4Type::Redirect(_) => 5,
            Icmpv4Type::EchoRequest(_) => 8,
            Icmpv4Type::TimeExceeded(_) => 11,
            Icmpv4Type::ParameterProblem(_) => 12,
            Icmpv4Type::TimestampRequest(_) => 13,
            Icmpv4Type::TimestampReply(_) => 14,
        }
    }

    /// The number of the code: byte 1.
    pub fn code_u8(&self) -> u8
        ensures number { result ≡ icmpv4_code_number self.now }
    {
        match self {
            Icmpv4Type::Unknown { code_u8, .. } => *code_u8,
            Icmpv4Type::DestinationUnreachable(header) => header.code_u8(),
            Icmpv4Type::Redirect(header) => header.code.code_u8(),
            Icmpv4Type::TimeExceeded(code) => code.code_u8(),
            Icmpv4Type::ParameterProblem(header) => header.code_u8(),
            Icmpv4Type::EchoReply(_)
            | Icmpv4Type::EchoRequest(_)
            | Icmpv4Type::TimestampRequest(_)
            | Icmpv4Type::TimestampReply(_) => 0,
        }
    }

    /// The length of the header of a message of this type, in bytes: 20 of a timestamp message or
    /// its reply, 8 of any other.
    pub fn header_len(&self) -> usize
        ensures value { result ≡ icmpv4_len self.now }
    {
        match self {
            Icmpv4Type::TimestampRequest(_) | Icmpv4Type::TimestampReply(_) => 20,
            Icmpv4Type::Unknown { .. }
            | Icmpv4Type::EchoReply(_)
            | Icmpv4Type::DestinationUnreachable(_)
            | Icmpv4Type::Redirect(_)
            | Icmpv4Type::EchoRequest(_)
            | Icmpv4Type::TimeExceeded(_)
            | Icmpv4Type::ParameterProblem(_) => 8,
        }
    }

    /// The checksum of a message of this type that has this payload. It covers the payload too, and
    /// no pseudo-header. It is 65535 only where all bytes are 0.
    ///
    /// # Example
    ///
    /// ```
    /// let request = Icmpv4Type::EchoRequest(IcmpEchoHeader { id: 0x1234, seq: 1 });
    /// assert!(rt; request.calc_checksum(b"abcd") == 0x2104);
    /// ```
    pub fn calc_checksum(&self, payload: &[u8]) -> u16
        ensures computed { IsIcmpv4Checksum self.now payload.now result }
    {
        let header = self.bytes_with(0);
        let header_sum = Sum16BitWords::new().add_slice(header.as_slice());
        let sum = header_sum.add_slice(payload);
        sum.ones_complement().swap_bytes()
    }

    // What a message of these numbers, which is no timestamp message, is with these bytes after the
    // checksum.
    pub(crate) fn of(type_u8: u8, code_u8: u8, bytes5to8: [u8; 4]) -> Icmpv4Type
        requires request { type_u8 ≡ 13 → code_u8 ≡ 0 → ⊥ }
        requires reply { type_u8 ≡ 14 → code_u8 ≡ 0 → ⊥ }
        ensures says { SaysIcmpv4 type_u8 code_u8 bytes5to8 result }
        ensures as_read { IsIcmpv4AsRead result }
        ensures len { icmpv4_len result ≡ 8 }
    {
        match named(type_u8, code_u8, bytes5to8) {
            Some(icmp_type) => icmp_type,
            None => Icmpv4Type::Unknown {
                type_u8,
                code_u8,
                bytes5to8,
            },
        }
    }

    // The bytes of the header of a message with this checksum.
    pub(crate) fn bytes_with(&self, checksum: u16) -> ArrayVec<u8, 20>
        ensures written { IsIcmpv4Written self.now checksum result.items }
    {
        joined(&self.front(checksum), self.rest().as_slice())
    }

    // The type, the code, and this checksum.
    fn front(&self, checksum: u16) -> [u8; 4]
        ensures value { result ≡ icmpv4_type_number self.now ∷ icmpv4_code_number self.now
            ∷ to_be_bytes w16 checksum }
    {
        let [a, b] = checksum.to_be_bytes();
        [self.type_u8(), self.code_u8(), a, b]
    }

    // The bytes after the checksum.
    fn rest(&self) -> ArrayVec<u8, 16>
        ensures len { 4 + length result.items ≡ icmpv4_len self.now }
        ensures rest { HasIcmpv4Rest self.now result.items }
        ensures unused { result.items ≡ icmpv4_cleared self.now result.items }
    {
        match self {
            Icmpv4Type::Unknown { bytes5to8, .. } => held(bytes5to8),
            Icmpv4Type::EchoReply(echo) | Icmpv4Type::EchoRequest(echo) => held(&echo.to_bytes()),
            Icmpv4Type::DestinationUnreachable(header) => held(&header.bytes5to8()),
            Icmpv4Type::Redirect(header) => held(&header.gateway_internet_address),
            Icmpv4Type::TimeExceeded(_) => held(&[0; 4]),
            Icmpv4Type::ParameterProblem(header) => held(&header.bytes5to8()),
            Icmpv4Type::TimestampRequest(message) | Icmpv4Type::TimestampReply(message) => {
                held(&message.to_bytes())
            }
        }
    }
}

// The same bytes, which are at most 16.
fn held(bytes: &[u8]) -> ArrayVec<u8, 16>
    requires { length bytes.now ≤ 16 }
    ensures value { result.items ≡ bytes.now }
{
    let mut held = ArrayVec::new();
    held.try_extend_from_slice(bytes).unwrap();
    held
}

// Two parts, one after the other.
fn joined(front: &[u8], rest: &[u8]) -> ArrayVec<u8, 20>
    requires front_len { length front.now ≡ 4 }
    requires rest_len { length rest.now ≤ 16 }
    ensures parts { result.items ≡ front.now ++ rest.now }
    ensures are_bytes { IsBytes result.items }
{
    let mut bytes = ArrayVec::new();
    bytes.try_extend_from_slice(front).unwrap();
    bytes.try_extend_from_slice(rest).unwrap();
    bytes
}

// What a message is whose numbers have a name, but of a timestamp message.
fn named(type_u8: u8, code_u8: u8, rest: [u8; 4]) -> Option<Icmpv4Type>
    requires request { type_u8 ≡ 13 → code_u8 ≡ 0 → ⊥ }
    requires reply { type_u8 ≡ 14 → code_u8 ≡ 0 → ⊥ }
    ensures says { IfSome result (SaysIcmpv4 type_u8 code_u8 rest) }
    ensures name { IfSome result HasIcmpv4Name }
    ensures len { IfSome result (λ icmp_type. icmpv4_len icmp_type ≡ 8) }
    ensures unnamed { IsNone result → AreIcmpv4Unnamed type_u8 code_u8 }
{
    match type_u8 {
        0 if code_u8 == 0 => Some(Icmpv4Type::EchoReply(IcmpEchoHeader::from_bytes(rest))),
        3 => {
            let mtu = u16::from_be_bytes([rest[2], rest[3]]);
            match DestUnreachableHeader::from_values(code_u8, mtu) {
                Some(header) => Some(Icmpv4Type::DestinationUnreachable(header)),
                None => None,
            }
        }
        5 => match RedirectCode::from_u8(code_u8) {
            Some(code) => Some(Icmpv4Type::Redirect(RedirectHeader {
                code,
                gateway_internet_address: rest,
            })),
            None => None,
        },
        8 if code_u8 == 0 => Some(Icmpv4Type::EchoRequest(IcmpEchoHeader::from_bytes(rest))),
        11 => match TimeExceededCode::from_u8(code_u8) {
            Some(code) => Some(Icmpv4Type::TimeExceeded(code)),
            None => None,
        },
        12 => match ParameterProblemHeader::from_values(code_u8, rest[0]) {
            Some(header) => Some(Icmpv4Type::ParameterProblem(header)),
            None => None,
        },
        _ => None,
    }
}
