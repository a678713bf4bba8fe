//! The checksums of UDP, TCP, ICMP and ICMPv6, computed and written, with the pseudo-header that
//! they cover.

ghost use Rattle.std.specs.Prelude.{ℕ, ◌≡◌, ◌≢◌, ◌+◌, ◌%◌, ◌<◌, ◌≤◌, List, ◌++◌, IfErr, IfOk};
ghost use Rattle.std.specs.Prelude.{OnErr, OnOk, Some, length};
ghost use Rattle.etherparse.specs.HeaderChecksum.{with_part};
ghost use Rattle.etherparse.specs.WordSums.{StandsForWords};
ghost use Rattle.packet_parts.specs.Checksum.{Covers, IsVerdictIpv4, IsVerdictIpv6};
ghost use Rattle.packet_parts.specs.Checksum.{udp_length};
ghost use Rattle.packet_parts.specs.declared.checksum.Verdict.TheVariants.{Right};
ghost use Rattle.packet_rewriting.specs.UpperChecksum.{CoversNothing, IsIpv4Checksum};
ghost use Rattle.packet_rewriting.specs.UpperChecksum.{IsIpv6Checksum};
ghost use Rattle.packet_rewriting.specs.UpperChecksum.{RefusesIpv4Checksum, RefusesIpv6Checksum};
ghost use Rattle.packet_rewriting.specs.UpperChecksum.{WritesIpv4Checksum, WritesIpv6Checksum};
ghost use Rattle.packet_rewriting.specs.UpperChecksum.{checksum_error_text, checksum_place};
ghost use Rattle.packet_rewriting.specs.UpperChecksum.{complement_of, with_checksum};

use etherparse::IpNumber;
use etherparse::checksum::Sum16BitWords;
use etherparse_transport::{TcpHeaderSlice, UdpHeader};
use packet_parts::checksum::{ipv4_pseudo_header, ipv6_pseudo_header};
use std::error::Error;
use std::fmt;

/// Why a segment gets no checksum.
#[derive(Clone, Copy, Debug, PartialEq, Eq)]
pub enum ChecksumError {
    /// The protocol is none of UDP, TCP, ICMP (over IPv4) and ICMPv6 (over IPv6).
    OtherProtocol,
    /// Not all the bytes that the checksum covers are there: fewer than 8 of UDP, 20 of TCP or 4 of
    /// ICMP and ICMPv6, or than the length field of UDP says; or that field is below 8.
    Incomplete,
    /// There are more bytes than the pseudo-header can tell: more than 65535 over IPv4, or 2^32 - 1
    /// over IPv6. ICMP over IPv4 has no pseudo-header.
    TooLong,
}

impl fmt::Display for ChecksumError {
    ghost output = { λ error. Some (checksum_error_text error) };

    // A width, a precision or a flag changes nothing.
    ghost styled_output = { λ error _. Some (checksum_error_text error) };

    fn fmt<W: fmt::Write>(&self, f: &mut fmt::Formatter<W>) -> fmt::Result {
        f.write_str(match self {
            ChecksumError::OtherProtocol => {
                "Checksum Error: The protocol has no checksum that is known here."
            }
            ChecksumError::Incomplete => {
                "Checksum Error: Not all bytes that the checksum covers are there."
            }
            ChecksumError::TooLong => {
                "Checksum Error: The pseudo-header has no room for the length."
            }
        })
    }
}

impl Error for ChecksumError {}

/// The checksum that a segment should have over IPv4, whatever it has: the complement of the
/// ones-complement sum of the pseudo-header and the segment, with 0 in the place of the checksum
/// (RFC 768, RFC 9293 section 3.1). ICMP has no pseudo-header (RFC 792). For UDP it is never 0, which
/// says that there is none: 0xffff stands for 0. It is a number whose high byte comes first in the
/// segment.
///
/// The segment has to end where the packet's length field says, since each of its bytes counts; but
/// a UDP datagram ends where its own length field says: set that first. On a source route, the
/// destination has to be the final one (RFC 791 section 3.1).
///
/// # Errors
///
/// `OtherProtocol` if the protocol is none of UDP, TCP and ICMP; otherwise `Incomplete`, and
/// otherwise `TooLong`.
///
/// # Example
///
/// ```
/// let (source, destination) = ([192, 168, 0, 1], [192, 168, 0, 199]);
/// let mut datagram = [4, 0, 0, 53, 0, 12, 0, 0, b't', b'e', b's', b't'];
/// let checksum = calc_checksum_ipv4(source, destination, IpNumber::UDP, &datagram)?;
/// assert!(rt; checksum == 0x91ae);
/// ```
pub fn calc_checksum_ipv4(
    source: [u8; 4],
    destination: [u8; 4],
    protocol: IpNumber,
    segment: &[u8],
) -> Result<u16, ChecksumError>
    ensures computed { IfOk result (IsIpv4Checksum source destination protocol segment.now) }
    ensures refused { IfErr result (RefusesIpv4Checksum protocol segment.now) }
{
    let covered = match covered(IpNumber::ICMP, protocol, segment) {
        Ok(covered) => covered,
        Err(e) => return Err(e),
    };
    if protocol == IpNumber::ICMP {
        return Ok(complement(Sum16BitWords::new(), protocol, covered));
    }
    match u16::try_from(covered.len()) {
        Ok(len) => {
            let before = ipv4_pseudo_header(source, destination, protocol, len);
            Ok(complement(before, protocol, covered))
        }
        Err(_) => Err(ChecksumError::TooLong),
    }
}

/// The checksum that a segment should have over IPv6, as [`calc_checksum_ipv4`] has it over IPv4:
/// that of ICMPv6 covers the pseudo-header too (RFC 4443 section 2.3, RFC 8200 section 8.1). The
/// source has to be the original one, and the destination the final one.
///
/// # Errors
///
/// `OtherProtocol` if the number is none of UDP, TCP and ICMPv6; otherwise `Incomplete`, and
/// otherwise `TooLong`.
///
/// # Example
///
/// ```
/// // An echo request from 2001:db8::1 to 2001:db8::2.
/// let source = [0x20, 0x01, 0x0d, 0xb8, 0, 0, 0, 0, 0, 0, 0, 0, 0, 0, 0, 1];
/// let mut destination = source;
/// destination[15] = 2;
/// let message = [128, 0, 0, 0, 0x12, 0x34, 0, 1, b'a', b'b'];
/// let checksum = calc_checksum_ipv6(source, destination, IpNumber::IPV6_ICMP, &message)?;
/// assert!(rt; checksum == 0xb0ae);
/// ```
pub fn calc_checksum_ipv6(
    source: [u8; 16],
    destination: [u8; 16],
    number: IpNumber,
    segment: &[u8],
) -> Result<u16, ChecksumError>
    ensures computed { IfOk result (IsIpv6Checksum source destination number segment.now) }
    ensures refused { IfErr result (RefusesIpv6Checksum number segment.now) }
{
    let covered = match covered(IpNumber::IPV6_ICMP, number, segment) {
        Ok(covered) => covered,
        Err(e) => return Err(e),
    };
    match u32::try_from(covered.len()) {
        Ok(len) => {
            let before = ipv6_pseudo_header(source, destination, number, len);
            Ok(complement(before, number, covered))
        }
        Err(_) => Err(ChecksumError::TooLong),
    }
}

/// Writes into a segment the checksum that it should have over IPv4, [`calc_checksum_ipv4`], in two
/// bytes; all else stays the same. A receiver then finds it right. Call it last.
///
/// # Errors
///
/// Those of [`calc_checksum_ipv4`]. The segment is then unchanged.
///
/// # Example
///
/// With the datagram of [`calc_checksum_ipv4`]:
///
/// ```
/// set_checksum_ipv4(source, destination, IpNumber::UDP, &mut datagram)?;
/// assert!(rt; datagram == [4, 0, 0, 53, 0, 12, 0x91, 0xae, b't', b'e', b's', b't']);
/// ```
pub fn set_checksum_ipv4(
    source: [u8; 4],
    destination: [u8; 4],
    protocol: IpNumber,
    segment: &mut [u8],
) -> Result<(), ChecksumError>
    ensures written { OnOk result
        (WritesIpv4Checksum source destination protocol segment.old segment.new) }
    ensures right { OnOk result
        (IsVerdictIpv4 source destination protocol segment.new Right) }
    ensures refused { IfErr result (RefusesIpv4Checksum protocol segment.old) }
    ensures unchanged { OnErr result (segment.new ≡ segment.old) }
{
    match calc_checksum_ipv4(source, destination, protocol, segment) {
        Ok(checksum) => {
            put_checksum(segment, protocol, checksum);
            Ok(())
        }
        Err(e) => Err(e),
    }
}

/// Writes into a segment the checksum that it should have over IPv6, as [`set_checksum_ipv4`] does
/// over IPv4.
///
/// # Errors
///
/// Those of [`calc_checksum_ipv6`]. The segment is then unchanged.
pub fn set_checksum_ipv6(
    source: [u8; 16],
    destination: [u8; 16],
    number: IpNumber,
    segment: &mut [u8],
) -> Result<(), ChecksumError>
    ensures written { OnOk result
        (WritesIpv6Checksum source destination number segment.old segment.new) }
    ensures right { OnOk result (IsVerdictIpv6 source destination number segment.new Right) }
    ensures refused { IfErr result (RefusesIpv6Checksum number segment.old) }
    ensures unchanged { OnErr result (segment.new ≡ segment.old) }
{
    match calc_checksum_ipv6(source, destination, number, segment) {
        Ok(checksum) => {
            put_checksum(segment, number, checksum);
            Ok(())
        }
        Err(e) => Err(e),
    }
}

// The length of type, code and checksum of ICMP and ICMPv6, in bytes.
pub(crate) const ICMP_LEN: usize = 4;

const _: () = prove!(ICMP_LEN == 4);

// Where the checksum is in the header of an upper layer.
pub(crate) fn place_of_checksum(number: IpNumber) -> usize
    ensures value { result ≡ checksum_place number }
    ensures even { result % 2 ≡ 0 }
    ensures within { result ≤ 16 }
{
    if number == IpNumber::UDP {
        6
    } else if number == IpNumber::TCP {
        16
    } else {
        2
    }
}

// Writes a checksum, its high byte first.
pub(crate) fn put_checksum(segment: &mut [u8], number: IpNumber, checksum: u16)
    requires enough { checksum_place number + 2 ≤ length segment.now }
    ensures written { segment.new ≡ with_checksum number checksum segment.old }
{
    put(segment, place_of_checksum(number), &checksum.to_be_bytes());
}

// Writes a part over other bytes.
#[inline(always)]
pub(crate) fn put(bytes: &mut [u8], place: usize, part: &[u8])
    requires within { place + length part.now ≤ length bytes.now }
    ensures written { bytes.new ≡ with_part place part.now bytes.old }
{
    bytes[place..place + part.len()].copy_from_slice(part);
}

// The bytes of a segment that its checksum covers, or why there are none.
fn covered(icmp: IpNumber, number: IpNumber, segment: &[u8]) -> Result<&[u8], ChecksumError>
    requires other { (icmp ≢ 17) × (icmp ≢ 6) }
    ensures found { IfOk result (λ covered. Covers icmp number segment.now covered.now) }
    ensures enough { IfOk result (λ covered.
        checksum_place number + 2 ≤ length covered.now) }
    ensures none { IfErr result (CoversNothing icmp number segment.now) }
{
    let (least, len) = if number == IpNumber::UDP {
        (UdpHeader::LEN, datagram_len(segment))
    } else if number == IpNumber::TCP {
        (TcpHeaderSlice::MIN_LEN, segment.len())
    } else if number == icmp {
        (ICMP_LEN, segment.len())
    } else {
        return Err(ChecksumError::OtherProtocol);
    };
    if len < least || segment.len() < len {
        return Err(ChecksumError::Incomplete);
    }
    Ok(&segment[..len])
}

// The length field of a UDP header; 0 if the bytes end before it.
fn datagram_len(bytes: &[u8]) -> usize
    ensures value { 8 ≤ length bytes.now → result ≡ udp_length bytes.now }
    ensures none { length bytes.now < 8 → result ≡ 0 }
{
    if bytes.len() < UdpHeader::LEN {
        return 0;
    }
    usize::from(u16::from_be_bytes([bytes[4], bytes[5]]))
}

// The complement of the sum of what comes before and of these bytes, with 0 for their checksum.
fn complement(before: Sum16BitWords, number: IpNumber, covered: &[u8]) -> u16
    requires enough { checksum_place number + 2 ≤ length covered.now }
    ensures value { (front : List ℕ) → length front % 2 ≡ 0 → StandsForWords 0 front before →
        result ≡ complement_of number (front ++ with_checksum number 0 covered.now) }
{
    let place = place_of_checksum(number);
    let sum = before
        .add_slice(&covered[..place])
        .add_slice(&covered[place + 2..]);
    if number == IpNumber::UDP {
        sum.to_ones_complement_with_no_zero().swap_bytes()
    } else {
        sum.ones_complement().swap_bytes()
    }
}
