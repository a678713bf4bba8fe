//! The checksums of UDP, TCP, ICMP and ICMPv6: the pseudo-headers that they cover, and what a
//! receiver finds of them.

ghost use Rattle.std.specs.Prelude.{◌≡◌, ◌≢◌, ◌↔◌, ◌<◌, ◌≤◌, IfErr, IfOk, IsTrue, Some, length};
ghost use Rattle.etherparse.specs.WordSums.{StandsForWords};
ghost use Rattle.packet_parts.specs.Checksum.{Covers, IsAbsent, IsRightIpv4, IsRightIpv6};
ghost use Rattle.packet_parts.specs.Checksum.{IsVerdictIpv4, IsVerdictIpv6};
ghost use Rattle.packet_parts.specs.Checksum.{IsVerdictBetween, IsVerdictOnUnknown};
ghost use Rattle.packet_parts.specs.Checksum.{IsWithoutChecksum};
ghost use Rattle.packet_parts.specs.Checksum.{ipv4_pseudo_header, ipv6_pseudo_header};
ghost use Rattle.packet_parts.specs.Checksum.{udp_length, verdict_text};

use etherparse::IpNumber;
use etherparse::checksum::Sum16BitWords;
use std::fmt;

/// What a receiver finds of the checksum of a payload. It is displayed as `right`, `wrong` or
/// `none`.
///
/// The packets that a host sends look wrong in a capture on that host if its network card computes
/// their checksums (checksum offload).
#[derive(Clone, Copy, Debug, PartialEq, Eq)]
pub enum Verdict {
    /// It is right.
    Right,
    /// It is wrong.
    Wrong,
    /// There is none to judge.
    Absent(Absence),
}

impl fmt::Display for Verdict {
    ghost output = { λ verdict. Some (verdict_text verdict) };

    // A width, a precision or a flag changes nothing.
    ghost styled_output = { λ verdict _. Some (verdict_text verdict) };

    fn fmt<W: fmt::Write>(&self, f: &mut fmt::Formatter<W>) -> fmt::Result {
        f.write_str(match self {
            Verdict::Right => "right",
            Verdict::Wrong => "wrong",
            Verdict::Absent(_) => "none",
        })
    }
}

/// Why there is no checksum to judge.
#[derive(Clone, Copy, Debug, PartialEq, Eq)]
pub enum Absence {
    /// The payload is a fragment: its checksum covers other fragments too.
    Fragment,
    /// The protocol is none of UDP, TCP, ICMP (over IPv4) and ICMPv6 (over IPv6).
    OtherProtocol,
    /// Not all the bytes that it covers are there: fewer than 8 of UDP, 20 of TCP or 4 of ICMP, or
    /// than the length field of UDP says; or that field is below 8. Or the packet is not whole, or
    /// its length field of 0 does not say where the payload ends.
    Incomplete,
    /// The sender has computed none: the field of UDP over IPv4 is 0 (RFC 768).
    NotComputed,
    /// It covers the final destination of an IPv6 packet, which is unknown: a routing header with
    /// segments left has a type other than 0, 2, 3 and 4, or its numbers do not fit its length; or a
    /// payload header of Shim6 hides it.
    UnknownDestination,
}

/// The sum of the pseudo-header of IPv4, from both addresses, the protocol's number and the length
/// in bytes of its header and data (RFC 768, RFC 9293 section 3.1).
///
/// # Example
///
/// ```
/// // A datagram of 12 bytes and its pseudo-header sum to all ones.
/// let (source, destination) = ([192, 168, 0, 1], [192, 168, 0, 199]);
/// let datagram = [4, 0, 0, 53, 0, 12, 0x91, 0xae, b't', b'e', b's', b't'];
/// let mut sum = ipv4_pseudo_header(source, destination, IpNumber::UDP, 12);
/// assert!(rt; sum.add_slice(&datagram).ones_complement() == 0);
/// ```
pub fn ipv4_pseudo_header(
    source: [u8; 4],
    destination: [u8; 4],
    protocol: IpNumber,
    len: u16,
) -> Sum16BitWords
    ensures sum { StandsForWords 0 (ipv4_pseudo_header source destination protocol len) result }
{
    let [h, l] = len.to_be_bytes();
    Sum16BitWords::new()
        .add_4bytes(source)
        .add_4bytes(destination)
        .add_4bytes([0, protocol.0, h, l])
}

/// The sum of the pseudo-header of IPv6, from both addresses, the number of the upper layer and the
/// length in bytes of its header and data (RFC 8200 section 8.1).
///
/// # Example
///
/// ```
/// // A datagram of 12 bytes from 2001:db8::1 to 2001:db8::2, with its pseudo-header.
/// let source = [0x20, 0x01, 0x0d, 0xb8, 0, 0, 0, 0, 0, 0, 0, 0, 0, 0, 0, 1];
/// let mut destination = source;
/// destination[15] = 2;
/// let datagram = [4, 0, 0, 53, 0, 12, 0xb8, 0x52, b't', b'e', b's', b't'];
/// let mut sum = ipv6_pseudo_header(source, destination, IpNumber::UDP, 12);
/// assert!(rt; sum.add_slice(&datagram).ones_complement() == 0);
/// ```
pub fn ipv6_pseudo_header(
    source: [u8; 16],
    destination: [u8; 16],
    number: IpNumber,
    len: u32,
) -> Sum16BitWords
    ensures sum { StandsForWords 0 (ipv6_pseudo_header source destination number len) result }
{
    let [a, b, c, d] = len.to_be_bytes();
    Sum16BitWords::new()
        .add_16bytes(source)
        .add_16bytes(destination)
        .add_8bytes([a, b, c, d, 0, 0, 0, number.0])
}

/// The verdict on the checksum of an IPv4 packet's payload that is no fragment, from both addresses
/// and the protocol's number. The destination is the final one (RFC 791 section 3.1), as
/// [`final_destination_ipv4`] gives it. Fragments are not seen here. The payload has to end where
/// the total length says, since each of its bytes counts, but those after a UDP datagram. A TCP
/// segment of more than 65535 bytes is `Wrong`: the pseudo-header cannot say its length.
///
/// # Example
///
/// ```
/// let (source, destination) = ([192, 168, 0, 1], [192, 168, 0, 199]);
/// let mut payload = [4, 0, 0, 53, 0, 12, 0x91, 0xae, b't', b'e', b's', b't'];
/// let verdict = ipv4_verdict(source, destination, IpNumber::UDP, &payload);
/// assert!(rt; verdict == Verdict::Right);
/// payload[11] = b'x';
/// let verdict = ipv4_verdict(source, destination, IpNumber::UDP, &payload);
/// assert!(rt; verdict == Verdict::Wrong);
/// // The sender has computed none.
/// [payload[6], payload[7]] = [0, 0];
/// let verdict = ipv4_verdict(source, destination, IpNumber::UDP, &payload);
/// assert!(rt; verdict == Verdict::Absent(Absence::NotComputed));
/// ```
///
/// [`final_destination_ipv4`]: crate::final_destination::final_destination_ipv4
pub fn ipv4_verdict(
    source: [u8; 4],
    destination: [u8; 4],
    protocol: IpNumber,
    payload: &[u8],
) -> Verdict
    ensures judges { IsVerdictIpv4 source destination protocol payload.now result }
{
    let covered = match covered(IpNumber::ICMP, protocol, payload) {
        Ok(covered) => covered,
        Err(reason) => return Verdict::Absent(reason),
    };
    if is_without_checksum(protocol, covered) {
        return Verdict::Absent(Absence::NotComputed);
    }
    if is_right_ipv4(source, destination, protocol, covered) {
        Verdict::Right
    } else {
        Verdict::Wrong
    }
}

/// The verdict on the checksum of an IPv6 packet's payload that is no fragment, from both addresses
/// and the number of the payload, which has to end where the payload length says. The source is the
/// original one (RFC 6275 section 11.3.1), as [`original_source_ipv6`] gives it; the destination is
/// the final one (RFC 8200 section 8.1), as [`final_destination_ipv6`] gives it.
///
/// # Example
///
/// ```
/// let source = [0x20, 0x01, 0x0d, 0xb8, 0, 0, 0, 0, 0, 0, 0, 0, 0, 0, 0, 1];
/// let mut destination = source;
/// destination[15] = 2;
/// let mut payload = [4, 0, 0, 53, 0, 12, 0xb8, 0x52, b't', b'e', b's', b't'];
/// let verdict = ipv6_verdict(source, destination, IpNumber::UDP, &payload);
/// assert!(rt; verdict == Verdict::Right);
/// // Over IPv6 there has to be a checksum.
/// [payload[6], payload[7]] = [0, 0];
/// let verdict = ipv6_verdict(source, destination, IpNumber::UDP, &payload);
/// assert!(rt; verdict == Verdict::Wrong);
/// ```
///
/// [`original_source_ipv6`]: crate::original_source::original_source_ipv6
/// [`final_destination_ipv6`]: crate::final_destination::final_destination_ipv6
pub fn ipv6_verdict(
    source: [u8; 16],
    destination: [u8; 16],
    number: IpNumber,
    payload: &[u8],
) -> Verdict
    ensures judges { IsVerdictIpv6 source destination number payload.now result }
{
    match covered(IpNumber::IPV6_ICMP, number, payload) {
        Ok(covered) => {
            if is_right_ipv6(source, destination, number, covered) {
                Verdict::Right
            } else {
                Verdict::Wrong
            }
        }
        Err(reason) => Verdict::Absent(reason),
    }
}

// The same between an original source and a final destination, each of which can be unknown.
pub(crate) fn verdict_between(
    source: Option<[u8; 16]>,
    destination: Option<[u8; 16]>,
    number: IpNumber,
    payload: &[u8],
) -> Verdict
    ensures judges { IsVerdictBetween source destination number payload.now result }
{
    match (source, destination) {
        (Some(source), Some(destination)) => ipv6_verdict(source, destination, number, payload),
        _ => verdict_on_unknown(number, payload),
    }
}

// The same where an address that the checksum covers is unknown.
fn verdict_on_unknown(number: IpNumber, payload: &[u8]) -> Verdict
    ensures judges { IsVerdictOnUnknown number payload.now result }
{
    match covered(IpNumber::IPV6_ICMP, number, payload) {
        Ok(_) => Verdict::Absent(Absence::UnknownDestination),
        Err(reason) => Verdict::Absent(reason),
    }
}

// The bytes of a payload that its checksum covers, or why there are none.
fn covered(icmp: IpNumber, number: IpNumber, payload: &[u8]) -> Result<&[u8], Absence>
    requires other { (icmp ≢ 17) × (icmp ≢ 6) }
    ensures found { IfOk result (λ covered. Covers icmp number payload.now covered.now) }
    ensures absent { IfErr result (IsAbsent icmp number payload.now) }
{
    let (least, len) = if number == IpNumber::UDP {
        (UDP_HEADER_LEN, datagram_len(payload))
    } else if number == IpNumber::TCP {
        (TCP_HEADER_LEN, payload.len())
    } else if number == icmp {
        (ICMP_LEN, payload.len())
    } else {
        return Err(Absence::OtherProtocol);
    };
    if len < least || payload.len() < len {
        return Err(Absence::Incomplete);
    }
    Ok(&payload[..len])
}

// The lengths in bytes of a UDP header, of a TCP header without options, and of type, code and
// checksum of ICMP and ICMPv6.
const UDP_HEADER_LEN: usize = 8;

const TCP_HEADER_LEN: usize = 20;

const ICMP_LEN: usize = 4;

const _: () = prove!(UDP_HEADER_LEN == 8);

const _: () = prove!(TCP_HEADER_LEN == 20);

const _: () = prove!(ICMP_LEN == 4);

// The length field of a UDP header; 0 if the bytes end before it.
fn datagram_len(bytes: &[u8]) -> usize
    ensures value { 8 ≤ length bytes.now → result ≡ udp_length bytes.now }
    ensures none { length bytes.now < 8 → result ≡ 0 }
{
    if bytes.len() < UDP_HEADER_LEN {
        return 0;
    }
    usize::from(u16::from_be_bytes([bytes[4], bytes[5]]))
}

// Whether this is a datagram without a checksum.
fn is_without_checksum(number: IpNumber, covered: &[u8]) -> bool
    requires enough { number ≡ 17 → 8 ≤ length covered.now }
    ensures value { IsTrue result ↔ IsWithoutChecksum number covered.now }
{
    number == IpNumber::UDP && u16::from_be_bytes([covered[6], covered[7]]) == 0
}

// Whether the bytes sum to all ones, with the pseudo-header of IPv4 but for ICMP.
fn is_right_ipv4(source: [u8; 4], destination: [u8; 4], protocol: IpNumber, covered: &[u8]) -> bool
    ensures value { IsTrue result ↔ IsRightIpv4 source destination protocol covered.now }
{
    if protocol == IpNumber::ICMP {
        return Sum16BitWords::new().add_slice(covered).ones_complement() == 0;
    }
    let len = match u16::try_from(covered.len()) {
        Ok(len) => len,
        Err(_) => return false,
    };
    let sum = ipv4_pseudo_header(source, destination, protocol, len);
    sum.add_slice(covered).ones_complement() == 0
}

// Whether the bytes sum to all ones with the pseudo-header of IPv6, and have a checksum.
fn is_right_ipv6(source: [u8; 16], destination: [u8; 16], number: IpNumber, covered: &[u8]) -> bool
    requires enough { number ≡ 17 → 8 ≤ length covered.now }
    ensures value { IsTrue result ↔ IsRightIpv6 source destination number covered.now }
{
    let len = match u32::try_from(covered.len()) {
        Ok(len) => len,
        Err(_) => return false,
    };
    if is_without_checksum(number, covered) {
        return false;
    }
    let sum = ipv6_pseudo_header(source, destination, number, len);
    sum.add_slice(covered).ones_complement() == 0
}
