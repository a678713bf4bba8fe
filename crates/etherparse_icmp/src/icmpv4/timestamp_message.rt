//! The times of a timestamp message (RFC 792).

/// What a timestamp message of ICMP, or its reply, says (RFC 792): bytes 4 to 19 of the message.
/// Each time is in milliseconds since midnight, Universal Time, or any number with the highest bit
/// set.
///
/// # Example
///
/// ```
/// let bytes = [
///     13, 0, 0xe0, 0xc4, 0x12, 0x34, 0, 1, 0, 0, 0, 1, 0, 0, 0, 2, 0, 0, 0, 3,
/// ];
/// let (header, rest) = Icmpv4Header::from_slice(&bytes)?;
/// let message = TimestampMessage {
///     id: 0x1234,
///     seq: 1,
///     originate_timestamp: 1,
///     receive_timestamp: 2,
///     transmit_timestamp: 3,
/// };
/// assert!(rt; header.icmp_type == Icmpv4Type::TimestampRequest(message) && rest.is_empty());
/// assert!(rt; header.icmp_type.calc_checksum(&[]) == 0xe0c4);
/// ```
#[derive(Clone, Copy, Debug, PartialEq, Eq)]
pub struct TimestampMessage {
    /// Bytes 4 and 5: which sender the message is of.
    pub id: u16,
    /// Bytes 6 and 7: which of its requests it is.
    pub seq: u16,
    /// Bytes 8 to 11: when the sender last touched the request.
    pub originate_timestamp: u32,
    /// Bytes 12 to 15: when the receiver first touched it.
    pub receive_timestamp: u32,
    /// Bytes 16 to 19: when the receiver last touched the reply.
    pub transmit_timestamp: u32,
}

impl TimestampMessage {
    ghost use Rattle.std.specs.Prelude.{◌≡◌, length};
    ghost use Rattle.etherparse_icmp.specs.IcmpTimestamps.{HasTimestamps};

    // The message of these 16 bytes.
    pub(crate) fn from_bytes(bytes: &[u8]) -> TimestampMessage
        requires { length bytes.now ≡ 16 }
        ensures timestamps { HasTimestamps result bytes.now }
    {
        let b = bytes;
        TimestampMessage {
            id: u16::from_be_bytes([b[0], b[1]]),
            seq: u16::from_be_bytes([b[2], b[3]]),
            originate_timestamp: u32::from_be_bytes([b[4], b[5], b[6], b[7]]),
            receive_timestamp: u32::from_be_bytes([b[8], b[9], b[10], b[11]]),
            transmit_timestamp: u32::from_be_bytes([b[12], b[13], b[14], b[15]]),
        }
    }

    // The 16 bytes.
    #[rattlefmt::skip]
    pub(crate) fn to_bytes(self) -> [u8; 16]
        ensures timestamps { HasTimestamps self result }
    {
        let (id, seq) = (self.id, self.seq);
        let [a, b] = id.to_be_bytes();
        let [c, d] = seq.to_be_bytes();
        let o = self.originate_timestamp.to_be_bytes();
        let r = self.receive_timestamp.to_be_bytes();
        let t = self.transmit_timestamp.to_be_bytes();
        [
            a, b, c, d,
            o[0], o[1], o[2], o[3],
            r[0], r[1], r[2], r[3],
            t[0], t[1], t[2], t[3],
        ]
    }
}
