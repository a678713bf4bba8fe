//! What a message of ICMPv6 is (RFC 4443).

ghost use Rattle.std.specs.Prelude.{IfSome, IsNone};
ghost use Rattle.etherparse_icmp.specs.Icmpv6.{AreIcmpv6Unnamed, HasIcmpv6Name, SaysIcmpv6};

use crate::IcmpEchoHeader;
use crate::icmpv6::{
    DestUnreachableCode, NeighborAdvertisementHeader, ParameterProblemCode, ParameterProblemHeader,
    RouterAdvertisementHeader, TimeExceededCode,
};
use etherparse::IpNumber;
use etherparse::err::{ValueTooBigError, ValueType};
use packet_parts::checksum::ipv6_pseudo_header;

/// The type of a message of ICMPv6, its code, and what the 4 bytes after its checksum say (RFC
/// 4443, RFC 4861).
///
/// A message of a type or a code that has no name here is `Unknown`, with its 4 bytes as they are.
/// A value that is made as `Unknown` with the numbers of a named type is written as it is, and is
/// read as the named type.
#[derive(Clone, Copy, Debug, PartialEq, Eq)]
pub enum Icmpv6Type {
    /// Any other message, as its bytes.
    Unknown {
        /// The type: byte 0.
        type_u8: u8,
        /// The code: byte 1.
        code_u8: u8,
        /// The 4 bytes after the checksum.
        bytes5to8: [u8; 4],
    },
    /// Type 1: a packet did not reach its destination (RFC 4443 section 3.1). Bytes 4 to 7 are not
    /// used: they are read whatever they are, and written as 0.
    DestinationUnreachable(DestUnreachableCode),
    /// Type 2, code 0: a packet was larger than the link that it had to take (RFC 4443 section
    /// 3.2). A receiver ignores the code; a message with another one is `Unknown` here, so that it
    /// is written back as it was.
    PacketTooBig {
        /// The greatest length of a packet on that link, in bytes.
        mtu: u32,
    },
    /// Type 3: a packet was discarded since a time was exceeded (RFC 4443 section 3.3). Bytes 4 to
    /// 7 are not used: they are read whatever they are, and written as 0.
    TimeExceeded(TimeExceededCode),
    /// Type 4: a packet was discarded for a problem in its headers (RFC 4443 section 3.4).
    ParameterProblem(ParameterProblemHeader),
    /// Type 128, code 0: asks for an echo (RFC 4443 section 4.1).
    EchoRequest(IcmpEchoHeader),
    /// Type 129, code 0: the echo (RFC 4443 section 4.2).
    EchoReply(IcmpEchoHeader),
    /// Type 133, code 0: asks for routers (RFC 4861 section 4.1). Bytes 4 to 7 are not used: they
    /// are read whatever they are, and written as 0; options follow the header.
    RouterSolicitation,
    /// Type 134, code 0: a router tells hosts of itself (RFC 4861 section 4.2). Two times and
    /// options follow the header.
    RouterAdvertisement(RouterAdvertisementHeader),
    /// Type 135, code 0: asks for the link-layer address of a neighbor (RFC 4861 section 4.3).
    /// Bytes 4 to 7 are not used: they are read whatever they are, and written as 0; the target's
    /// address follows the header.
    NeighborSolicitation,
    /// Type 136, code 0: tells a link-layer address (RFC 4861 section 4.4). The target's address and
    /// options follow the header.
    NeighborAdvertisement(NeighborAdvertisementHeader),
    /// Type 137, code 0: another first hop is nearer (RFC 4861 section 4.5). Bytes 4 to 7 are not
    /// used: they are read whatever they are, and written as 0; two addresses follow the header.
    Redirect,
}

impl Icmpv6Type {
    ghost use Rattle.std.specs.Prelude.{◌≡◌, ◌≤◌, ◌↔◌, IfErr, IfOk, IsOk, length};
    ghost use Rattle.etherparse_icmp.specs.Icmpv6.{HasIcmpv6Rest};
    ghost use Rattle.etherparse_icmp.specs.Icmpv6.{IsIcmpv6AsRead, icmpv6_cleared, SaysIcmpv6};
    ghost use Rattle.etherparse_icmp.specs.Icmpv6.{IsIcmpv6Written, icmpv6_code_number};
    ghost use Rattle.etherparse_icmp.specs.Icmpv6.{icmpv6_type_number};
    ghost use Rattle.etherparse_icmp.specs.Icmpv6Checksum.{IsIcmpv6Checksum};

    // The longest payload beside the header in the 32 bits that a pseudo-header has.
    const MAX_PAYLOAD_LEN: usize = 4294967287;

    /// The number of the type: byte 0.
    pub fn type_u8(&self) -> u8
        ensures number { result ≡ icmpv6_type_number self.now }
    {
        match self {
            Icmpv6Type::Unknown { type_u8, .. } => *type_u8,
            Icmpv6Type::DestinationUnreachable(_) => 1,
            Icmpv6Type::PacketTooBig { .. } => 2,
            Icmpv6Type::TimeExceeded(_) => 3,
            Icmpv6Type::ParameterProblem(_) => 4,
            Icmpv6Type::EchoRequest(_) => 128,
            Icmpv6Type::EchoReply(_) => 129,
            Icmpv6Type::RouterSolicitation => 133,
            Icmpv6Type::RouterAdvertisement(_) => 134,
            Icmpv6Type::NeighborSolicitation => 135,
            Icmpv6Type::NeighborAdvertisement(_) => 136,
            Icmpv6Type::Redirect => 137,
        }
    }

    /// The number of the code: byte 1.
    pub fn code_u8(&self) -> u8
        ensures number { result ≡ icmpv6_code_number self.now }
    {
        match self {
            Icmpv6Type::Unknown { code_u8, .. } => *code_u8,
            Icmpv6Type::DestinationUnreachable(code) => code.code_u8(),
            Icmpv6Type::TimeExceeded(code) => code.code_u8(),
            Icmpv6Type::ParameterProblem(header) => header.code.code_u8(),
            Icmpv6Type::PacketTooBig { .. }
            | Icmpv6Type::EchoRequest(_)
            | Icmpv6Type::EchoReply(_)
            | Icmpv6Type::RouterSolicitation
            | Icmpv6Type::RouterAdvertisement(_)
            | Icmpv6Type::NeighborSolicitation
            | Icmpv6Type::NeighborAdvertisement(_)
            | Icmpv6Type::Redirect => 0,
        }
    }

    /// The checksum of a message of this type that has this payload, between these addresses. In a
    /// packet with a routing header, the destination has to be the last one (RFC 8200 section 8.1);
    /// with a Home Address option, the source has to be the home address (RFC 6275 section 11.3.1).
    /// The checksum is never 65535.
    ///
    /// # Errors
    ///
    /// A `ValueTooBigError` if the payload is longer than 4294967287 bytes: with the 8 of the
    /// header, that is more than the length of a pseudo-header can count.
    ///
    /// # Example
    ///
    /// ```
    /// let source = [0x20, 0x01, 0x0d, 0xb8, 0, 0, 0, 0, 0, 0, 0, 0, 0, 0, 0, 1];
    /// let destination = [0x20, 0x01, 0x0d, 0xb8, 0, 0, 0, 0, 0, 0, 0, 0, 0, 0, 0, 2];
    /// let too_big = Icmpv6Type::PacketTooBig { mtu: 1280 };
    /// assert!(rt; too_big.calc_checksum(source, destination, b"abcd")? == 0xd87d);
    /// ```
    pub fn calc_checksum(
        &self,
        source: [u8; 16],
        destination: [u8; 16],
        payload: &[u8],
    ) -> Result<u16, ValueTooBigError<usize>>
        ensures accepted { IsOk result ↔ (length payload.now ≤ 4294967287) }
        ensures refused { IfErr result (λ e. e ≡ record {
          actual = length payload.now;
          max_allowed = 4294967287;
          value_type = ValueType.Icmpv6PayloadLength;
        }) }
        ensures computed { IfOk result
            (IsIcmpv6Checksum source destination self.now payload.now) }
    {
        if payload.len() > Icmpv6Type::MAX_PAYLOAD_LEN {
            return Err(ValueTooBigError {
                actual: payload.len(),
                max_allowed: Icmpv6Type::MAX_PAYLOAD_LEN,
                value_type: ValueType::Icmpv6PayloadLength,
            });
        }
        Ok(self.checksum_of_message(source, destination, payload))
    }

    // The checksum, where the pseudo-header can tell the length.
    fn checksum_of_message(&self, source: [u8; 16], destination: [u8; 16], payload: &[u8]) -> u16
        requires { length payload.now ≤ 4294967287 }
        ensures computed { IsIcmpv6Checksum source destination self.now payload.now result }
    {
        let len = (8 + payload.len()) as u32;
        let mut pseudo_header = ipv6_pseudo_header(source, destination, IpNumber::IPV6_ICMP, len);
        let sum = pseudo_header
            .add_8bytes(self.bytes_with(0))
            .add_slice(payload);
        sum.ones_complement().swap_bytes()
    }

    // What a message of these numbers, with these bytes after the checksum, is.
    pub(crate) fn of(type_u8: u8, code_u8: u8, bytes5to8: [u8; 4]) -> Icmpv6Type
        ensures says { SaysIcmpv6 type_u8 code_u8 bytes5to8 result }
        ensures as_read { IsIcmpv6AsRead result }
    {
        match named(type_u8, code_u8, bytes5to8) {
            Some(icmp_type) => icmp_type,
            None => Icmpv6Type::Unknown {
                type_u8,
                code_u8,
                bytes5to8,
            },
        }
    }

    // The 8 bytes of the header of a message with this checksum.
    pub(crate) fn bytes_with(&self, checksum: u16) -> [u8; 8]
        ensures written { IsIcmpv6Written self.now checksum result }
    {
        let [a, b] = checksum.to_be_bytes();
        let [c, d, e, f] = self.bytes5to8();
        [self.type_u8(), self.code_u8(), a, b, c, d, e, f]
    }

    // The 4 bytes after the checksum.
    fn bytes5to8(&self) -> [u8; 4]
        ensures rest { HasIcmpv6Rest self.now result }
        ensures unused { result ≡ icmpv6_cleared self.now result }
    {
        match self {
            Icmpv6Type::Unknown { bytes5to8, .. } => *bytes5to8,
            Icmpv6Type::DestinationUnreachable(_)
            | Icmpv6Type::TimeExceeded(_)
            | Icmpv6Type::RouterSolicitation
            | Icmpv6Type::NeighborSolicitation
            | Icmpv6Type::Redirect => [0; 4],
            Icmpv6Type::PacketTooBig { mtu } => mtu.to_be_bytes(),
            Icmpv6Type::ParameterProblem(header) => header.pointer.to_be_bytes(),
            Icmpv6Type::EchoRequest(echo) | Icmpv6Type::EchoReply(echo) => echo.to_bytes(),
            Icmpv6Type::RouterAdvertisement(header) => header.to_bytes(),
            Icmpv6Type::NeighborAdvertisement(header) => header.to_bytes(),
        }
    }
}

const _: () = prove!(Icmpv6Type::MAX_PAYLOAD_LEN == 4294967287);

// What a message is whose numbers have a name.
fn named(type_u8: u8, code_u8: u8, rest: [u8; 4]) -> Option<Icmpv6Type>
    ensures says { IfSome result (SaysIcmpv6 type_u8 code_u8 rest) }
    ensures name { IfSome result HasIcmpv6Name }
    ensures unnamed { IsNone result → AreIcmpv6Unnamed type_u8 code_u8 }
{
    match type_u8 {
        1 => match DestUnreachableCode::from_u8(code_u8) {
            Some(code) => Some(Icmpv6Type::DestinationUnreachable(code)),
            None => None,
        },
        2 if code_u8 == 0 => Some(Icmpv6Type::PacketTooBig {
            mtu: u32::from_be_bytes(rest),
        }),
        3 => match TimeExceededCode::from_u8(code_u8) {
            Some(code) => Some(Icmpv6Type::TimeExceeded(code)),
            None => None,
        },
        4 => match ParameterProblemCode::from_u8(code_u8) {
            Some(code) => Some(Icmpv6Type::ParameterProblem(ParameterProblemHeader {
                code,
                pointer: u32::from_be_bytes(rest),
            })),
            None => None,
        },
        128 if code_u8 == 0 => Some(Icmpv6Type::EchoRequest(IcmpEchoHeader::from_bytes(rest))),
        129 if code_u8 == 0 => Some(Icmpv6Type::EchoReply(IcmpEchoHeader::from_bytes(rest))),
        133 if code_u8 == 0 => Some(Icmpv6Type::RouterSolicitation),
        134 if code_u8 == 0 => Some(Icmpv6Type::RouterAdvertisement(
            RouterAdvertisementHeader::from_bytes(rest),
        )),
        135 if code_u8 == 0 => Some(Icmpv6Type::NeighborSolicitation),
        136 if code_u8 == 0 => Some(Icmpv6Type::NeighborAdvertisement(
            NeighborAdvertisementHeader::from_bytes(rest),
        )),
        137 if code_u8 == 0 => Some(Icmpv6Type::Redirect),
        _ => None,
    }
}
