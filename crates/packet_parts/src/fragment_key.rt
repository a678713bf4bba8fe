//! The keys by which a receiver puts the fragments of one packet together, of both versions.

ghost use Rattle.std.specs.Prelude.{◌≡◌, IfErr, IfNone, IfOk, IfSome};
ghost use Rattle.etherparse.specs.Ipv4Header.{RefusesIpv4};
ghost use Rattle.packet_parts.specs.FragmentKey.{HasIpv4Key, HasIpv6Key, IsWholeIpv4};
ghost use Rattle.packet_parts.specs.FragmentKey.{IsWholeIpv6, RefusesIpv6Key};
ghost use Rattle.packet_parts.specs.FragmentKey.{undecided_error};

use crate::extensions::{AfterExtensions, after_extensions};
use etherparse::err::{Layer, LenError, ipv4, ipv6};
use etherparse::{IpNumber, Ipv4Header, Ipv6Header};
use etherparse_net::Ipv6FragmentHeader;

/// The key of the fragments of one IPv4 packet (RFC 791 section 3.2).
#[derive(Clone, Copy, Debug, PartialEq, Eq, Hash)]
pub struct Ipv4Key {
    /// The address of the sender.
    pub source: [u8; 4],
    /// The address of the receiver.
    pub destination: [u8; 4],
    /// The protocol of what was fragmented.
    pub protocol: IpNumber,
    /// The number that the sender gave the packet.
    pub identification: u16,
}

/// The key of the fragments of one IPv6 packet (RFC 8200 section 4.5).
#[derive(Clone, Copy, Debug, PartialEq, Eq, Hash)]
pub struct Ipv6Key {
    /// The address of the sender.
    pub source: [u8; 16],
    /// The address of the receiver.
    pub destination: [u8; 16],
    /// The number that the sender gave the packet.
    pub identification: u32,
}

/// The key of an IPv4 packet that is a fragment; `None` if the packet is whole, since there is then
/// nothing to put together, and other packets can have its identification (RFC 6864 section 4.1).
///
/// # Errors
///
/// Those of [`Ipv4Header::from_slice`].
///
/// # Example
///
/// ```
/// // Two fragments of one packet, without their payload.
/// let first = [
///     0x45, 0, 0, 20, 0x12, 0x34, 0x20, 0, 64, 17, 0, 0, 192, 168, 0, 1, 192, 168, 0, 199,
/// ];
/// let mut packet = first;
/// [packet[6], packet[7]] = [0, 185];
/// assert!(rt; ipv4_key(&packet) == ipv4_key(&first));
/// // A whole packet.
/// [packet[6], packet[7]] = [0, 0];
/// assert!(rt; ipv4_key(&packet) == Ok(None));
/// ```
pub fn ipv4_key(packet: &[u8]) -> Result<Option<Ipv4Key>, ipv4::HeaderSliceError>
    ensures found { IfOk result (λ found. IfSome found (HasIpv4Key packet.now)) }
    ensures none { IfOk result (λ found. IfNone found (IsWholeIpv4 packet.now)) }
    ensures refused { IfErr result (RefusesIpv4 packet.now) }
{
    let (header, _) = Ipv4Header::from_slice(packet)?;
    if !header.is_fragmenting_payload() {
        return Ok(None);
    }
    Ok(Some(Ipv4Key {
        source: header.source,
        destination: header.destination,
        protocol: header.protocol,
        identification: header.identification,
    }))
}

/// The key of an IPv6 packet that is a fragment; `None` where the packet is whole: it has no
/// fragment header, or atomic ones alone, which have neither an offset nor more fragments. Such a
/// packet is not to be put together with fragments that have its addresses and identification (RFC
/// 8200 section 4.5, RFC 6946 section 4). So the first fragment header that is not atomic decides.
/// The packet is not trimmed at its payload length.
///
/// # Errors
///
/// Those of [`Ipv6Header::from_slice`]; `Len` if an extension header before the one that decides is
/// incomplete, or that one, with the place of that header from the packet's start.
///
/// # Example
///
/// ```
/// // Two fragments of one packet, without their payload.
/// let mut first = [0; 48];
/// [first[0], first[5], first[6], first[7]] = [0x60, 8, 44, 64];
/// first[40..].copy_from_slice(&[17, 0, 0, 1, 1, 2, 3, 4]);
/// let mut packet = first;
/// packet[43] = 8;
/// assert!(rt; ipv6_key(&packet) == ipv6_key(&first));
/// // An atomic fragment header: the packet is whole.
/// packet[43] = 0;
/// assert!(rt; ipv6_key(&packet) == Ok(None));
/// ```
pub fn ipv6_key(packet: &[u8]) -> Result<Option<Ipv6Key>, ipv6::HeaderSliceError>
    ensures found { IfOk result (λ found. IfSome found (HasIpv6Key packet.now)) }
    ensures none { IfOk result (λ found. IfNone found (IsWholeIpv6 packet.now)) }
    ensures refused { IfErr result (RefusesIpv6Key packet.now) }
{
    let (header, body) = Ipv6Header::from_slice(packet)?;
    let AfterExtensions {
        number,
        fragment,
        incomplete,
        ..
    } = after_extensions(body, header.next_header);
    match (fragment, incomplete) {
        (Some(fragment), _) => {
            let (source, destination) = (header.source, header.destination);
            Ok(Some(Ipv6Key {
                source,
                destination,
                identification: fragment.identification,
            }))
        }
        (None, Some(e)) => {
            let e = undecided_error(number, e).add_offset(Ipv6Header::LEN);
            Err(ipv6::HeaderSliceError::Len(e))
        }
        (None, None) => Ok(None),
    }
}

// The error of an extension header of this number that is incomplete.
fn undecided_error(number: IpNumber, e: LenError) -> LenError
    ensures value { result ≡ undecided_error number e }
{
    if number != IpNumber::IPV6_FRAGMENTATION_HEADER {
        return e;
    }
    LenError {
        required_len: Ipv6FragmentHeader::LEN,
        layer: Layer::Ipv6FragHeader,
        ..e
    }
}
