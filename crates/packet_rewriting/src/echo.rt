//! A host that answers echo requests: ICMP (RFC 792) and ICMPv6 (RFC 4443 sections 4.1 and 4.2).

ghost use Rattle.std.specs.Prelude.{◌≡◌, ◌↔◌, ◌<◌, ◌^◌, [], ◌∷◌, IsTrue, length};
ghost use Rattle.std.specs.Bool.{OnFalse, OnTrue};
ghost use Rattle.etherparse.specs.WordSums.{SumsToAllOnes, ones_complement_sum};
ghost use Rattle.packet_parts.specs.Checksum.{ipv6_pseudo_header};
ghost use Rattle.packet_rewriting.specs.Echo.{IsEchoReply, IsEchoRequest, echo_reply};

use etherparse::IpNumber;
use etherparse::checksum::u64_16bit_word;
use packet_parts::checksum::ipv6_pseudo_header;

/// Turns an ICMP echo request in place into its reply: type 0 in place of 8, and a checksum that is
/// computed anew, so that it is right whatever that of the request was. All else stays the same.
///
/// `false`, with the message unchanged, if it is not an echo request: it has fewer than 8 bytes,
/// another type, or a code other than 0. The slice has to end where the packet's length field says,
/// since each of its bytes counts in the checksum.
///
/// # Example
///
/// ```
/// let mut message = [8, 0, 0x84, 0x68, 0x12, 0x34, 0, 1, b'a', b'b'];
/// assert!(rt; icmpv4_reply(&mut message));
/// assert!(rt; message == [0, 0, 0x8c, 0x68, 0x12, 0x34, 0, 1, b'a', b'b']);
/// // A reply gets no reply.
/// assert!(rt; !icmpv4_reply(&mut message));
/// ```
pub fn icmpv4_reply(message: &mut [u8]) -> bool
    ensures asked { IsTrue result ↔ IsEchoRequest 8 message.old }
    ensures made { OnTrue result
        (IsEchoReply 0 message.old (echo_reply 0 0 message.old ∷ []) message.new) }
    ensures right { OnTrue result (SumsToAllOnes message.new) }
    ensures refused { OnFalse result (message.new ≡ message.old) }
{
    if message.len() < 8 || message[0] != 8 || message[1] != 0 {
        return false;
    }
    // Type and code are 0, so that the words after the checksum are all that counts.
    let [h, l] = u64_16bit_word::checksum(0, &message[4..]).to_le_bytes();
    message[..4].copy_from_slice(&[0, 0, h, l]);
    true
}

/// Turns an ICMPv6 echo request in place into its reply: type 129 in place of 128, and a checksum
/// that is computed anew, over the addresses of the reply too (RFC 4443 section 2.3). All else
/// stays the same.
///
/// `false`, with the message unchanged, if it is not an echo request: it has fewer than 8 bytes, or
/// 2^32 or more, another type, or a code other than 0. The addresses are those of the reply: if the
/// request was sent to a multicast or an anycast address, the reply's source is another address.
///
/// # Example
///
/// ```
/// // A reply from 2001:db8::1 to 2001:db8::2.
/// let source = [0x20, 0x01, 0x0d, 0xb8, 0, 0, 0, 0, 0, 0, 0, 0, 0, 0, 0, 1];
/// let mut destination = source;
/// destination[15] = 2;
/// let mut message = [128, 0, 0xb0, 0xae, 0x12, 0x34, 0, 1, b'a', b'b'];
/// assert!(rt; icmpv6_reply(source, destination, &mut message));
/// assert!(rt; message == [129, 0, 0xaf, 0xae, 0x12, 0x34, 0, 1, b'a', b'b']);
/// ```
pub fn icmpv6_reply(source: [u8; 16], destination: [u8; 16], message: &mut [u8]) -> bool
    ensures asked { IsTrue result
        ↔ (IsEchoRequest 128 message.old × (length message.old < 2 ^ 32)) }
    ensures made { OnTrue result (IsEchoReply 129 message.old
        (ipv6_pseudo_header source destination 58 (length message.old)
        ∷ echo_reply 129 0 message.old ∷ []) message.new) }
    ensures right { OnTrue result (ones_complement_sum
        (ipv6_pseudo_header source destination 58 (length message.new) ∷ message.new ∷ [])
        ≡ 65535) }
    ensures refused { OnFalse result (message.new ≡ message.old) }
{
    let len = match u32::try_from(message.len()) {
        Ok(len) => len,
        Err(_) => return false,
    };
    if len < 8 || message[0] != 128 || message[1] != 0 {
        return false;
    }
    let sum = ipv6_pseudo_header(source, destination, IpNumber::IPV6_ICMP, len)
        .add_4bytes([129, 0, 0, 0])
        .add_slice(&message[4..]);
    let [h, l] = sum.ones_complement().to_le_bytes();
    message[..4].copy_from_slice(&[129, 0, h, l]);
    true
}
