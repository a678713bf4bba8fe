//! A host that receives and sends datagrams: checksums that are checked and computed.

ghost use Rattle.std.specs.Prelude.{◌≡◌, ◌≢◌, ◌↔◌, ◌-◌, [], ◌∷◌, IfErr, IfNone, IfOk, IfSome};
ghost use Rattle.std.specs.Prelude.{IsTrue};
ghost use Rattle.etherparse.specs.WordSums.{SumsToAllOnes, ones_complement_sum, with_no_zero};
ghost use Rattle.packet_parts.specs.IpSlice.{RefusesIp};
ghost use Rattle.uses.specs.Datagram.{HasDatagram, HasNoDatagram};

use etherparse::checksum::u64_16bit_word;
use etherparse::{IpNumber, Ipv4HeaderSlice};
use packet_parts::checksum::{Absence, Verdict};
use packet_parts::ip_slice::{IpSlice, IpSliceError};

/// Whether the checksum of a UDP datagram is right, from the pseudo-header of its addresses, its
/// header and its payload.
pub fn is_udp_checksum_right(pseudo_header: &[u8], header: &[u8], payload: &[u8]) -> bool
    ensures right { IsTrue result ↔ (ones_complement_sum
        (pseudo_header.now ∷ header.now ∷ payload.now ∷ []) ≡ 65535) }
{
    let sum = u64_16bit_word::add_slices(&[pseudo_header, header, payload]);
    u64_16bit_word::ones_complement(sum) == 0
}

/// The checksum that a UDP datagram is sent with, from the same pieces with 0 for the checksum. It
/// is never 0, which would say that there is none. `to_le_bytes` gives its two bytes in the order
/// of the header.
pub fn udp_checksum(pseudo_header: &[u8], header: &[u8], payload: &[u8]) -> u16
    ensures made { result ≡ with_no_zero (65535 - ones_complement_sum
        (pseudo_header.now ∷ header.now ∷ payload.now ∷ [])) }
    ensures there { result ≢ 0 }
{
    let sum = u64_16bit_word::add_slices(&[pseudo_header, header, payload]);
    u64_16bit_word::ones_complement_with_no_zero(sum)
}

/// Whether the checksum of an IPv4 header is right as it was received, counting the reserved bit.
pub fn is_ipv4_checksum_right(view: &Ipv4HeaderSlice) -> bool
    ensures right { IsTrue result ↔ SumsToAllOnes view.now.slice.now }
{
    let sum = u64_16bit_word::add_slice(0, view.slice());
    u64_16bit_word::ones_complement(sum) == 0
}

/// Whether the UDP datagram in a packet is right by its checksum. Over IPv4 a checksum of 0 says
/// that there is none, and is right; over IPv6 there has to be one (RFC 8200 section 8.1). What
/// comes after the datagram, by its UDP length, does not count.
///
/// `None` where the packet has no datagram: its payload is of another protocol, or a fragment, or
/// shorter than 8 bytes or than its UDP length says, or that is below 8; or a routing header or
/// Shim6 does not tell where the packet goes in the end, which is the destination that the checksum
/// covers.
///
/// # Errors
///
/// Those of [`IpSlice::from_slice`].
pub fn is_udp_right(packet: &[u8]) -> Result<Option<bool>, IpSliceError>
    ensures judged { IfOk result (λ found. IfSome found (HasDatagram packet.now)) }
    ensures none { IfOk result (λ found. IfNone found (HasNoDatagram packet.now)) }
    ensures refused { IfErr result (RefusesIp packet.now) }
{
    let slice = match IpSlice::from_slice(packet) {
        Ok(slice) => slice,
        Err(e) => return Err(e),
    };
    if slice.upper != IpNumber::UDP {
        return Ok(None);
    }
    match slice.verdict() {
        Verdict::Right | Verdict::Absent(Absence::NotComputed) => Ok(Some(true)),
        Verdict::Wrong => Ok(Some(false)),
        Verdict::Absent(_) => Ok(None),
    }
}
