//! What tells echo messages apart (RFC 792, RFC 4443 section 4.1).

/// The identifier and the sequence number of an echo message or its reply. A reply repeats those of
/// its request.
///
/// # Example
///
/// ```
/// let request = [8, 0, 0x21, 4, 0x12, 0x34, 0, 1, b'a', b'b', b'c', b'd'];
/// let (header, payload) = Icmpv4Header::from_slice(&request)?;
/// if let Icmpv4Type::EchoRequest(echo) = header.icmp_type {
///     let reply = Icmpv4Header::with_checksum(Icmpv4Type::EchoReply(echo), payload);
///     assert!(rt; reply.to_bytes().as_slice() == [0, 0, 0x29, 4, 0x12, 0x34, 0, 1].as_slice());
/// }
/// ```
#[derive(Clone, Copy, Debug, PartialEq, Eq)]
pub struct IcmpEchoHeader {
    /// Bytes 4 and 5 of the message: which sender it is of.
    pub id: u16,
    /// Bytes 6 and 7 of the message: which of its requests it is.
    pub seq: u16,
}

impl IcmpEchoHeader {
    ghost use Rattle.etherparse_icmp.specs.IcmpEcho.{HasEcho};

    // The header of these 4 bytes.
    pub(crate) fn from_bytes(bytes: [u8; 4]) -> IcmpEchoHeader
        ensures echo { HasEcho result bytes }
    {
        let [a, b, c, d] = bytes;
        IcmpEchoHeader {
            id: u16::from_be_bytes([a, b]),
            seq: u16::from_be_bytes([c, d]),
        }
    }

    // The 4 bytes: the identifier and the sequence number, each with the high byte first.
    pub(crate) fn to_bytes(self) -> [u8; 4]
        ensures echo { HasEcho self result }
    {
        let (id, seq) = (self.id, self.seq);
        let [a, b] = id.to_be_bytes();
        let [c, d] = seq.to_be_bytes();
        [a, b, c, d]
    }
}
