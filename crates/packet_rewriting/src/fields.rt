//! Fields of a whole IP packet, changed where they stand: addresses, ports, DSCP and ECN. The
//! checksums of the IPv4 header, UDP, TCP and ICMPv6 that cover a field are updated for it (RFC
//! 1624 section 3), so that a right one stays right, and a wrong one is not repaired. Other
//! checksums, also of mobility headers (135) and the Host Identity Protocol (139), stay as they
//! are, and can become wrong.

ghost use Rattle.std.specs.Prelude.{◌≡◌, ◌+◌, ◌*◌, ◌/◌, ◌%◌, ◌^◌, ◌<◌, ◌≤◌, [], ◌∷◌, drop};
ghost use Rattle.std.specs.Prelude.{length};
ghost use Rattle.std.specs.Prelude.{IfErr, IfNone, IfOk, IfSome, OnErr, OnOk, Some};
ghost use Rattle.std.specs.Int.{to_be_bytes, w16};
ghost use Rattle.etherparse.specs.FirstByte.{version_of};
ghost use Rattle.etherparse.specs.IpEcn.{ecn_value};
ghost use Rattle.etherparse.specs.Ipv6Header.{IsIpv6Layout};
ghost use Rattle.etherparse.specs.Reading.{BeginsWith, too_short_error};
ghost use Rattle.etherparse.specs.WordSums.{network_order_word_sum};
ghost use Rattle.etherparse.specs.HeaderChecksum.{with_field_and_checksum};
ghost use Rattle.packet_parts.specs.FinalDestination.{GoesToIpv6};
ghost use Rattle.packet_parts.specs.IpSlice.{header_len_of};
ghost use Rattle.packet_parts.specs.OriginalSource.{ComesFromIpv6};
ghost use Rattle.packet_rewriting.specs.Fields.{CutsIpv4, CutsIpv6, EndsInUpper, Reaches};
ghost use Rattle.packet_rewriting.specs.Fields.{HasOtherDestinationIpv4, HasOtherDestinationIpv6};
ghost use Rattle.packet_rewriting.specs.Fields.{HasOtherSourceIpv4, HasOtherSourceIpv6};
ghost use Rattle.packet_rewriting.specs.Fields.{ChangesPort, CutsAtPorts, HasOtherDscp};
ghost use Rattle.packet_rewriting.specs.Fields.{HasOtherEcn, MarksIpv4, MarksIpv6};
ghost use Rattle.packet_rewriting.specs.Fields.{RefusesAddress, RefusesMark, RefusesPort};
ghost use Rattle.packet_rewriting.specs.Fields.{UpdatesIfKnown, UpdatesIfOther, UpdatesPayload};
ghost use Rattle.packet_rewriting.specs.Fields.{UpdatesUpper};
ghost use Rattle.packet_rewriting.specs.Fields.{covers_addresses};
ghost use Rattle.packet_rewriting.specs.Fields.{has_ports, least_len, rewrite_error_text};
ghost use Rattle.packet_rewriting.specs.Fields.{text_in_any_style, updated_upper, with_port};
ghost use Rattle.packet_rewriting.specs.Fields.{word_at};
ghost use Rattle.packet_rewriting.specs.UpperChecksum.{checksum_field, checksum_place};
ghost use Rattle.packet_rewriting.specs.declared.fields.Reach.TheVariants as reaching;

use crate::checksum::{ICMP_LEN, place_of_checksum, put, put_checksum};
use etherparse::checksum::{
    update_2bytes, update_2bytes_with_no_zero, update_4bytes, update_4bytes_with_no_zero,
    update_16bytes, update_16bytes_with_no_zero,
};
use etherparse::err::{Layer, LenError};
use etherparse::{IpDscp, IpEcn, IpNumber, Ipv4Header, Ipv6Header, LenSource};
use etherparse_transport::{TcpHeaderSlice, UdpHeader};
use packet_parts::final_destination::{final_destination_ipv4, final_destination_ipv6};
use packet_parts::ip_slice::{IpHeaderSlice, IpSlice, IpSliceError};
use packet_parts::original_source::original_source_ipv6;
use std::error::Error;
use std::fmt;

/// Why a packet is not rewritten.
#[derive(Clone, Debug, PartialEq, Eq, Drop)]
pub enum RewriteError {
    /// It is no whole IP packet, by `IpSlice::from_slice` of `packet_parts`.
    Ip(IpSliceError),
    /// The address is one of the other IP version.
    OtherVersion,
    /// The payload has fewer than 8 bytes of UDP, 20 of TCP or 4 of ICMPv6, as that of a first
    /// fragment can. Options of TCP need not be there.
    Incomplete,
    /// The payload is a later fragment, which has no ports.
    LaterFragment,
    /// The payload is neither UDP nor TCP.
    OtherProtocol,
}

impl fmt::Display for RewriteError {
    ghost output = { λ error. Some (rewrite_error_text error) };

    // A width, a precision or a flag changes nothing; of `Ip` that is not said.
    ghost styled_output = { λ error _. text_in_any_style error };

    fn fmt<W: fmt::Write>(&self, f: &mut fmt::Formatter<W>) -> fmt::Result {
        f.write_str(match self {
            RewriteError::Ip(e) => return fmt::Display::fmt(e, f),
            RewriteError::OtherVersion => "Rewrite Error: The packet has the other IP version.",
            RewriteError::Incomplete => {
                "Rewrite Error: The packet ends within the header of its upper layer."
            }
            RewriteError::LaterFragment => {
                "Rewrite Error: The packet is a later fragment, which has no ports."
            }
            RewriteError::OtherProtocol => {
                "Rewrite Error: The packet carries neither UDP nor TCP."
            }
        })
    }
}

impl Error for RewriteError {}

/// How far the change of an address reaches in a packet.
#[derive(Clone, Copy, Debug, PartialEq, Eq)]
pub enum Reach {
    /// Into the header of UDP, TCP or, over IPv6, ICMPv6, whose checksum is updated too, but where
    /// [`set_destination_ipv4`], [`set_source_ipv6`] or [`set_destination_ipv6`] says that it
    /// stays.
    Upper,
    /// It ends with the IP header: the payload is a later fragment. No checksum in it is updated:
    /// the one that covers the address is in the first fragment, but that of TCP over IPv4 in a
    /// later one if the first has fewer than 18 bytes of TCP.
    LaterFragment,
    /// It ends with the IP header: the checksum of the protocol does not cover the addresses, or the
    /// protocol is not known here.
    OtherProtocol,
}

/// Gives an IPv4 packet another source address in place: bytes 12 to 15, the header checksum, and
/// the checksum of UDP or TCP, if [`Reach`] says so. A UDP checksum of 0, which says that there is
/// none, stays 0. All else stays the same, also what comes after the packet.
///
/// # Errors
///
/// In this order: `Ip`; `OtherVersion` if the packet is one of IPv6; `Incomplete`. The packet is
/// then unchanged.
///
/// # Example
///
/// ```
/// let mut packet = [
///     0x45, 0, 0, 32, 0, 0, 0, 0, 64, 17, 0xf8, 0xb4, 192, 168, 0, 1, 192, 168, 0, 199, 4, 0, 0,
///     53, 0, 12, 0x91, 0xae, b't', b'e', b's', b't',
/// ];
/// let reach = set_source_ipv4(&mut packet, [198, 51, 100, 7])?;
/// assert!(rt; reach == Reach::Upper);
/// assert!(rt; packet[10..16] == [0x8f, 0x23, 198, 51, 100, 7]);
/// assert!(rt; packet[26..28] == [0x28, 0x1d]);
/// let reach = set_destination_ipv4(&mut packet, [10, 0, 0, 2])?;
/// assert!(rt; reach == Reach::Upper);
/// assert!(rt; packet[10..12] == [0x46, 0x91] && packet[16..20] == [10, 0, 0, 2]);
/// assert!(rt; packet[26..28] == [0xdf, 0x8a]);
/// ```
pub fn set_source_ipv4(packet: &mut [u8], source: [u8; 4]) -> Result<Reach, RewriteError>
    ensures changed { IfOk result (HasOtherSourceIpv4 source packet.old packet.new) }
    ensures refused { IfErr result (RefusesAddress 4 packet.old) }
    ensures unchanged { OnErr result (packet.new ≡ packet.old) }
{
    let (mut header, parts) = match ipv4_parts(packet) {
        Ok(found) => found,
        Err(e) => return Err(e),
    };
    let old = header.source;
    header.set_source(source);
    let (front, rest) = packet.split_at_mut(parts.header_len);
    put_address_ipv4(front, 12, source, header.header_checksum);
    update_for_ipv4(&mut rest[..parts.payload_len], &parts, old, source);
    Ok(parts.reach)
}

/// Gives an IPv4 packet another destination address in place, bytes 16 to 19, as
/// [`set_source_ipv4`] gives it another source address. The checksum of UDP or TCP covers the
/// [`final_destination_ipv4`]: it is updated if that becomes another one, and stays if a source route
/// option keeps it the same.
///
/// # Errors
///
/// Those of [`set_source_ipv4`]. The packet is then unchanged.
pub fn set_destination_ipv4(packet: &mut [u8], destination: [u8; 4]) -> Result<Reach, RewriteError>
    ensures changed { IfOk result (HasOtherDestinationIpv4 destination packet.old packet.new) }
    ensures refused { IfErr result (RefusesAddress 4 packet.old) }
    ensures unchanged { OnErr result (packet.new ≡ packet.old) }
{
    let (mut header, parts) = match ipv4_parts(packet) {
        Ok(found) => found,
        Err(e) => return Err(e),
    };
    let old = final_destination_ipv4(header.destination, header.options.as_slice());
    header.set_destination(destination);
    let new = final_destination_ipv4(destination, header.options.as_slice());
    let (front, rest) = packet.split_at_mut(parts.header_len);
    put_address_ipv4(front, 16, destination, header.header_checksum);
    update_if_other_ipv4(&mut rest[..parts.payload_len], &parts, old, new);
    Ok(parts.reach)
}

/// Gives an IPv6 packet another source address in place: bytes 8 to 23, and the checksum of UDP,
/// TCP or ICMPv6, if [`Reach`] says so. The checksum covers the [`original_source_ipv6`]: it is
/// updated if that becomes another one, and stays if that is unknown, or the same because of a Home
/// Address option (RFC 6275 section 11.3.1). A UDP checksum of 0 stays 0. All else stays the same,
/// also what comes after the packet, and an authentication header (RFC 4302).
///
/// # Errors
///
/// In this order: `Ip`; `OtherVersion` if the packet is one of IPv4; `Incomplete`. The packet is
/// then unchanged.
///
/// # Example
///
/// ```
/// let source = [0x20, 0x01, 0x0d, 0xb8, 0, 0, 0, 0, 0, 0, 0, 0, 0, 0, 0, 7];
/// let mut destination = source;
/// destination[15] = 9;
/// let mut packet = [
///     0x60, 0, 0, 0, 0, 12, 17, 64, 0x20, 0x01, 0x0d, 0xb8, 0, 0, 0, 0, 0, 0, 0, 0, 0, 0, 0, 1,
///     0x20, 0x01, 0x0d, 0xb8, 0, 0, 0, 0, 0, 0, 0, 0, 0, 0, 0, 2, 4, 0, 0, 53, 0, 12, 0xb8, 0x52,
///     b't', b'e', b's', b't',
/// ];
/// let reach = set_source_ipv6(&mut packet, source)?;
/// assert!(rt; reach == Reach::Upper && packet[8..24] == source[..]);
/// assert!(rt; packet[46..48] == [0xb8, 0x4c]);
/// let reach = set_destination_ipv6(&mut packet, destination)?;
/// assert!(rt; reach == Reach::Upper && packet[24..40] == destination[..]);
/// assert!(rt; packet[46..48] == [0xb8, 0x45]);
/// ```
pub fn set_source_ipv6(packet: &mut [u8], source: [u8; 16]) -> Result<Reach, RewriteError>
    ensures changed { IfOk result (HasOtherSourceIpv6 source packet.old packet.new) }
    ensures refused { IfErr result (RefusesAddress 6 packet.old) }
    ensures unchanged { OnErr result (packet.new ≡ packet.old) }
{
    let (header, cut) = match ipv6_parts(packet) {
        Ok(found) => found,
        Err(e) => return Err(e),
    };
    let (front, rest) = packet.split_at_mut(cut.header_len);
    let old = original_in(&header, front);
    let next = with_source(header, source);
    let new = original_in(&next, front);
    put_ipv6(front, &next);
    update_if_known(&mut rest[..cut.payload_len], &cut, old, new);
    Ok(cut.reach)
}

/// Gives an IPv6 packet another destination address in place, bytes 24 to 39, as
/// [`set_source_ipv6`] gives it another source address. In a packet with a routing header that has
/// segments left, the checksum covers the [`final_destination_ipv6`] (RFC 8200 section 8.1): it is
/// updated if that becomes another one, and stays if that is the same or unknown.
///
/// # Errors
///
/// Those of [`set_source_ipv6`]. The packet is then unchanged.
pub fn set_destination_ipv6(packet: &mut [u8], destination: [u8; 16]) -> Result<Reach, RewriteError>
    ensures changed { IfOk result (HasOtherDestinationIpv6 destination packet.old packet.new) }
    ensures refused { IfErr result (RefusesAddress 6 packet.old) }
    ensures unchanged { OnErr result (packet.new ≡ packet.old) }
{
    let (header, cut) = match ipv6_parts(packet) {
        Ok(found) => found,
        Err(e) => return Err(e),
    };
    let (front, rest) = packet.split_at_mut(cut.header_len);
    let old = final_in(&header, front);
    let next = with_destination(header, destination);
    let new = final_in(&next, front);
    put_ipv6(front, &next);
    update_if_known(&mut rest[..cut.payload_len], &cut, old, new);
    Ok(cut.reach)
}

/// Gives a packet of either version that carries UDP or TCP another source port in place: bytes 0
/// and 1 of the payload, and its checksum. A UDP checksum of 0, which says that there is none, stays
/// 0. All else stays the same.
///
/// # Errors
///
/// In this order: `Ip`; `LaterFragment`; `OtherProtocol`; `Incomplete`. The packet is then
/// unchanged.
///
/// # Example
///
/// ```
/// let mut packet = [
///     0x45, 0, 0, 32, 0, 0, 0, 0, 64, 17, 0x46, 0x91, 198, 51, 100, 7, 10, 0, 0, 2, 4, 0, 0, 53,
///     0, 12, 0xdf, 0x8a, b't', b'e', b's', b't',
/// ];
/// set_source_port(&mut packet, 40000)?;
/// assert!(rt; packet[20..28] == [0x9c, 0x40, 0, 53, 0, 12, 0x47, 0x4a]);
/// set_destination_port(&mut packet, 5353)?;
/// assert!(rt; packet[20..28] == [0x9c, 0x40, 0x14, 0xe9, 0, 12, 0x32, 0x96]);
/// ```
pub fn set_source_port(packet: &mut [u8], port: u16) -> Result<(), RewriteError>
    ensures changed { OnOk result (ChangesPort 0 port packet.old packet.new) }
    ensures refused { IfErr result (RefusesPort packet.old) }
    ensures unchanged { OnErr result (packet.new ≡ packet.old) }
{
    set_port(packet, 0, port)
}

/// Gives a packet another destination port in place, bytes 2 and 3 of the payload, as
/// [`set_source_port`] gives it another source port.
///
/// # Errors
///
/// Those of [`set_source_port`]. The packet is then unchanged.
pub fn set_destination_port(packet: &mut [u8], port: u16) -> Result<(), RewriteError>
    ensures changed { OnOk result (ChangesPort 2 port packet.old packet.new) }
    ensures refused { IfErr result (RefusesPort packet.old) }
    ensures unchanged { OnErr result (packet.new ≡ packet.old) }
{
    set_port(packet, 2, port)
}

/// Gives a packet of either version another differentiated services code point in place (RFC 2474
/// section 3): the upper 6 bits of byte 1 in IPv4, with the header checksum, and of the traffic
/// class in IPv6, which has no checksum. All else stays the same. Only the header is read: what
/// follows it may be cut.
///
/// # Errors
///
/// `Ip`, with `Empty`, `UnexpectedVersion`, `Ipv4Header` or `Ipv6Header`. The packet is then
/// unchanged.
///
/// # Example
///
/// ```
/// let mut packet = [
///     0x45, 0, 0, 32, 0, 0, 0, 0, 64, 17, 0x46, 0x91, 198, 51, 100, 7, 10, 0, 0, 2, 4, 0, 0, 53,
/// ];
/// set_dscp(&mut packet, IpDscp::EF)?;
/// assert!(rt; packet[1] == 0xb8 && packet[10..12] == [0x45, 0xd9]);
/// set_ecn(&mut packet, IpEcn::CongestionExperienced)?;
/// assert!(rt; packet[1] == 0xbb && packet[10..12] == [0x45, 0xd6]);
/// ```
pub fn set_dscp(packet: &mut [u8], dscp: IpDscp) -> Result<(), RewriteError>
    ensures changed { OnOk result (HasOtherDscp dscp packet.old packet.new) }
    ensures refused { IfErr result (RefusesMark packet.old) }
    ensures unchanged { OnErr result (packet.new ≡ packet.old) }
{
    if packet.is_empty() {
        return Err(RewriteError::Ip(IpSliceError::Empty(empty())));
    }
    match packet[0] >> 4 {
        4 => set_dscp_ipv4(packet, dscp),
        6 => set_dscp_ipv6(packet, dscp),
        version_number => Err(RewriteError::Ip(IpSliceError::UnexpectedVersion { version_number })),
    }
}

/// Gives a packet of either version another explicit congestion notification in place (RFC 3168
/// section 5): the lower 2 bits of byte 1 in IPv4, with the header checksum, and of the traffic
/// class in IPv6. All else stays the same, as with [`set_dscp`].
///
/// # Errors
///
/// Those of [`set_dscp`]. The packet is then unchanged.
pub fn set_ecn(packet: &mut [u8], ecn: IpEcn) -> Result<(), RewriteError>
    ensures changed { OnOk result (HasOtherEcn ecn packet.old packet.new) }
    ensures refused { IfErr result (RefusesMark packet.old) }
    ensures unchanged { OnErr result (packet.new ≡ packet.old) }
{
    if packet.is_empty() {
        return Err(RewriteError::Ip(IpSliceError::Empty(empty())));
    }
    match packet[0] >> 4 {
        4 => set_ecn_ipv4(packet, ecn),
        6 => set_ecn_ipv6(packet, ecn),
        version_number => Err(RewriteError::Ip(IpSliceError::UnexpectedVersion { version_number })),
    }
}

// The error of a packet that has no bytes.
fn empty() -> LenError
    ensures value { result ≡ too_short_error Layer.IpHeader 1 0 }
{
    LenError {
        required_len: 1,
        len: 0,
        len_source: LenSource::Slice,
        layer: Layer::IpHeader,
        layer_start_offset: 0,
    }
}

// How a packet is cut, and how far the change of an address reaches.
#[derive(Clone, Copy)]
struct Cut {
    // The length of the IP header with its extension headers.
    header_len: usize,
    // The length of what follows them.
    payload_len: usize,
    upper: IpNumber,
    reach: Reach,
}

// How a packet of these parts is cut, if the change of an address reaches so far.
fn cut_of(slice: &IpSlice, reach: Reach) -> Cut
    ensures header_len { result.header_len ≡ header_len_of slice.now }
    ensures payload_len { result.payload_len ≡ length slice.now.payload.now }
    ensures upper { result.upper ≡ slice.now.upper }
    ensures reach { result.reach ≡ reach }
{
    Cut {
        header_len: slice.header_len(),
        payload_len: slice.payload.len(),
        upper: slice.upper,
        reach,
    }
}

// The header of a packet of IPv4, and how the packet is cut.
fn ipv4_parts(packet: &[u8]) -> Result<(Ipv4Header, Cut), RewriteError>
    ensures found { IfOk result (λ x. CutsIpv4 packet.now x.0 x.1) }
    ensures refused { IfErr result (RefusesAddress 4 packet.now) }
{
    let slice = match IpSlice::from_slice(packet) {
        Ok(slice) => slice,
        Err(e) => return Err(RewriteError::Ip(e)),
    };
    let view = match slice.header {
        IpHeaderSlice::Ipv4(view) => view,
        IpHeaderSlice::Ipv6(_) => return Err(RewriteError::OtherVersion),
    };
    match reach_of(&slice) {
        Some(reach) => Ok((view.to_header(), cut_of(&slice, reach))),
        None => Err(RewriteError::Incomplete),
    }
}

// The header of a packet of IPv6, and how the packet is cut.
fn ipv6_parts(packet: &[u8]) -> Result<(Ipv6Header, Cut), RewriteError>
    ensures found { IfOk result (λ x. CutsIpv6 packet.now x.0 x.1) }
    ensures refused { IfErr result (RefusesAddress 6 packet.now) }
{
    let slice = match IpSlice::from_slice(packet) {
        Ok(slice) => slice,
        Err(e) => return Err(RewriteError::Ip(e)),
    };
    let view = match slice.header {
        IpHeaderSlice::Ipv6(view) => view,
        IpHeaderSlice::Ipv4(_) => return Err(RewriteError::OtherVersion),
    };
    match reach_of(&slice) {
        Some(reach) => Ok((view.to_header(), cut_of(&slice, reach))),
        None => Err(RewriteError::Incomplete),
    }
}

// The original source of a packet with a header; `front` is its 40 bytes and extension headers.
fn original_in(header: &Ipv6Header, front: &[u8]) -> Option<[u8; 16]>
    requires enough { 40 ≤ length front.now }
    ensures comes_from { ComesFromIpv6 header.now.source header.now.next_header (drop 40 front.now)
        result }
{
    let extensions = &front[Ipv6Header::LEN..];
    original_source_ipv6(source_in(header), header.next_header, extensions)
}

// The final destination of such a packet.
fn final_in(header: &Ipv6Header, front: &[u8]) -> Option<[u8; 16]>
    requires enough { 40 ≤ length front.now }
    ensures goes_to { GoesToIpv6 header.now.destination header.now.next_header (drop 40 front.now)
        result }
{
    let extensions = &front[Ipv6Header::LEN..];
    final_destination_ipv6(destination_in(header), header.next_header, extensions)
}

// Updates the checksum of a payload for another IPv6 address, if both are known and the change
// reaches it.
fn update_if_known(payload: &mut [u8], cut: &Cut, old: Option<[u8; 16]>, new: Option<[u8; 16]>)
    requires enough { cut.now.reach ≡ reaching.Upper →
        checksum_place cut.now.upper + 2 ≤ length payload.now }
    ensures updated { UpdatesIfKnown cut.now.reach cut.now.upper old new payload.old payload.new }
{
    match (old, new) {
        (Some(old), Some(new)) if old != new => update_for_ipv6(payload, cut, old, new),
        _ => {}
    }
}

// Updates the checksum of a payload for another IPv6 address, if the change reaches it.
fn update_for_ipv6(payload: &mut [u8], cut: &Cut, old: [u8; 16], new: [u8; 16])
    requires enough { cut.now.reach ≡ reaching.Upper →
        checksum_place cut.now.upper + 2 ≤ length payload.now }
    ensures updated { UpdatesPayload cut.now.reach 8 cut.now.upper old new payload.old
        payload.new }
{
    match cut.reach {
        Reach::Upper => {
            let checksum = checksum_in(payload, cut.upper);
            let updated = if cut.upper == IpNumber::UDP {
                update_16bytes_with_no_zero(checksum, old, new)
            } else {
                update_16bytes(checksum, old, new)
            };
            put_checksum(payload, cut.upper, updated);
        }
        Reach::LaterFragment | Reach::OtherProtocol => {}
    }
}

// How far the change of an address reaches; `None` if the header of the upper layer is not whole.
fn reach_of(slice: &IpSlice) -> Option<Reach>
    ensures found { IfSome result (Reaches slice.now) }
    ensures none { IfNone result (EndsInUpper slice.now) }
{
    if slice.is_later_fragment {
        return Some(Reach::LaterFragment);
    }
    if !covers_addresses(&slice.header, slice.upper) {
        return Some(Reach::OtherProtocol);
    }
    if slice.payload.len() < least_len(slice.upper) {
        return None;
    }
    Some(Reach::Upper)
}

// Whether the checksum of the upper layer covers the addresses.
fn covers_addresses(header: &IpHeaderSlice, number: IpNumber) -> bool
    ensures value { result ≡ covers_addresses header.now number }
{
    match header {
        IpHeaderSlice::Ipv4(_) => has_ports(number),
        IpHeaderSlice::Ipv6(_) => has_ports(number) || number == IpNumber::IPV6_ICMP,
    }
}

// Whether the number is that of UDP or TCP, which have ports.
fn has_ports(number: IpNumber) -> bool
    ensures value { result ≡ has_ports number }
{
    number == IpNumber::UDP || number == IpNumber::TCP
}

// How long the header of an upper layer is at least.
fn least_len(number: IpNumber) -> usize
    ensures value { result ≡ least_len number }
{
    if number == IpNumber::UDP {
        UdpHeader::LEN
    } else if number == IpNumber::TCP {
        TcpHeaderSlice::MIN_LEN
    } else {
        ICMP_LEN
    }
}

// Writes an address and the header checksum of an IPv4 header.
fn put_address_ipv4(front: &mut [u8], offset: usize, address: [u8; 4], checksum: u16)
    requires within { offset + 4 ≤ length front.now }
    requires enough { 12 ≤ length front.now }
    ensures written { front.new ≡ with_field_and_checksum offset address checksum front.old }
{
    put(front, offset, &address);
    put(front, 10, &checksum.to_be_bytes());
}

// Updates the checksum of a payload if the final destination is another.
fn update_if_other_ipv4(payload: &mut [u8], cut: &Cut, old: [u8; 4], new: [u8; 4])
    requires enough { cut.now.reach ≡ reaching.Upper →
        checksum_place cut.now.upper + 2 ≤ length payload.now }
    ensures updated { UpdatesIfOther 2 cut.now.reach cut.now.upper old new payload.old payload.new }
{
    if old != new {
        update_for_ipv4(payload, cut, old, new);
    }
}

// Updates the checksum of a payload for another IPv4 address, if the change reaches it.
fn update_for_ipv4(payload: &mut [u8], cut: &Cut, old: [u8; 4], new: [u8; 4])
    requires enough { cut.now.reach ≡ reaching.Upper →
        checksum_place cut.now.upper + 2 ≤ length payload.now }
    ensures updated { UpdatesPayload cut.now.reach 2 cut.now.upper old new payload.old
        payload.new }
{
    match cut.reach {
        Reach::Upper => {
            let checksum = checksum_in(payload, cut.upper);
            let updated = if cut.upper == IpNumber::UDP {
                update_4bytes_with_no_zero(checksum, old, new)
            } else {
                update_4bytes(checksum, old, new)
            };
            put_checksum(payload, cut.upper, updated);
        }
        Reach::LaterFragment | Reach::OtherProtocol => {}
    }
}

// The checksum in the header of an upper layer.
fn checksum_in(payload: &[u8], number: IpNumber) -> u16
    requires enough { checksum_place number + 2 ≤ length payload.now }
    ensures value { result ≡ checksum_field number payload.now }
{
    let place = place_of_checksum(number);
    u16::from_be_bytes([payload[place], payload[place + 1]])
}

// Gives a packet another port, which is at an offset in its payload.
fn set_port(packet: &mut [u8], offset: usize, port: u16) -> Result<(), RewriteError>
    requires within { offset ≤ 2 }
    requires even { offset % 2 ≡ 0 }
    ensures changed { OnOk result (ChangesPort offset port packet.old packet.new) }
    ensures refused { IfErr result (RefusesPort packet.old) }
    ensures unchanged { OnErr result (packet.new ≡ packet.old) }
{
    let cut = match port_cut(packet) {
        Ok(cut) => cut,
        Err(e) => return Err(e),
    };
    let (_, rest) = packet.split_at_mut(cut.header_len);
    put_port(&mut rest[..cut.payload_len], cut.upper, offset, port);
    Ok(())
}

// Where the ports of a packet are.
fn port_cut(packet: &[u8]) -> Result<Cut, RewriteError>
    ensures found { IfOk result (CutsAtPorts packet.now) }
    ensures refused { IfErr result (RefusesPort packet.now) }
{
    let slice = match IpSlice::from_slice(packet) {
        Ok(slice) => slice,
        Err(e) => return Err(RewriteError::Ip(e)),
    };
    if slice.is_later_fragment {
        return Err(RewriteError::LaterFragment);
    }
    if !has_ports(slice.upper) {
        return Err(RewriteError::OtherProtocol);
    }
    if slice.payload.len() < least_len(slice.upper) {
        return Err(RewriteError::Incomplete);
    }
    Ok(cut_of(&slice, Reach::Upper))
}

// Writes a port of a payload, and updates its checksum.
fn put_port(payload: &mut [u8], number: IpNumber, offset: usize, port: u16)
    requires within { offset ≤ 2 }
    requires enough { checksum_place number + 2 ≤ length payload.now }
    requires long { 4 ≤ length payload.now }
    ensures written { payload.new ≡ with_port number offset (to_be_bytes w16 port) payload.old }
    ensures updates { UpdatesUpper number (checksum_field number payload.old)
        (network_order_word_sum (word_at offset payload.old))
        (network_order_word_sum (to_be_bytes w16 port))
        (updated_upper 1 number (checksum_field number payload.old)
        (word_at offset payload.old) (to_be_bytes w16 port)) }
{
    let old = [payload[offset], payload[offset + 1]];
    let new = port.to_be_bytes();
    let updated = updated_for_word(checksum_in(payload, number), number, old, new);
    put_checksum(payload, number, updated);
    put(payload, offset, &new);
}

// The checksum of an upper layer after a change of one word.
fn updated_for_word(checksum: u16, number: IpNumber, old: [u8; 2], new: [u8; 2]) -> u16
    ensures value { result ≡ updated_upper 1 number checksum old new }
    ensures updates { UpdatesUpper number checksum (network_order_word_sum old)
        (network_order_word_sum new) result }
{
    if number == IpNumber::UDP {
        update_2bytes_with_no_zero(checksum, old, new)
    } else {
        update_2bytes(checksum, old, new)
    }
}

// Gives an IPv4 packet another code point.
fn set_dscp_ipv4(packet: &mut [u8], dscp: IpDscp) -> Result<(), RewriteError>
    requires some { 0 < length packet.now }
    requires version { version_of packet.now ≡ 4 }
    ensures changed { OnOk result
        (MarksIpv4 (λ h. record h { dscp = dscp }) packet.old packet.new) }
    ensures refused { IfErr result (RefusesMark packet.old) }
    ensures unchanged { OnErr result (packet.new ≡ packet.old) }
{
    let mut header = match Ipv4Header::from_slice(packet) {
        Ok((header, _)) => header,
        Err(e) => return Err(RewriteError::Ip(IpSliceError::Ipv4Header(e))),
    };
    header.set_dscp(dscp);
    put_mark(packet, &header);
    Ok(())
}

// Gives an IPv4 packet another notification.
fn set_ecn_ipv4(packet: &mut [u8], ecn: IpEcn) -> Result<(), RewriteError>
    requires some { 0 < length packet.now }
    requires version { version_of packet.now ≡ 4 }
    ensures changed { OnOk result
        (MarksIpv4 (λ h. record h { ecn = ecn }) packet.old packet.new) }
    ensures refused { IfErr result (RefusesMark packet.old) }
    ensures unchanged { OnErr result (packet.new ≡ packet.old) }
{
    let mut header = match Ipv4Header::from_slice(packet) {
        Ok((header, _)) => header,
        Err(e) => return Err(RewriteError::Ip(IpSliceError::Ipv4Header(e))),
    };
    header.set_ecn(ecn);
    put_mark(packet, &header);
    Ok(())
}

// Writes the code point, the notification and the checksum of an IPv4 header.
fn put_mark(packet: &mut [u8], header: &Ipv4Header)
    requires enough { 20 ≤ length packet.now }
    ensures written { packet.new ≡ with_field_and_checksum 1
        ((header.now.dscp * 2 ^ 2 + ecn_value header.now.ecn) ∷ [])
        header.now.header_checksum packet.old }
{
    packet[1] = (header.dscp.value() << 2) + header.ecn.value();
    put(packet, 10, &header.header_checksum.to_be_bytes());
}

// Gives an IPv6 packet another code point.
fn set_dscp_ipv6(packet: &mut [u8], dscp: IpDscp) -> Result<(), RewriteError>
    requires some { 0 < length packet.now }
    requires version { version_of packet.now ≡ 6 }
    ensures changed { OnOk result
        (MarksIpv6 (λ class. dscp * 2 ^ 2 + class % 2 ^ 2) packet.old packet.new) }
    ensures refused { IfErr result (RefusesMark packet.old) }
    ensures unchanged { OnErr result (packet.new ≡ packet.old) }
{
    let mut header = match Ipv6Header::from_slice(packet) {
        Ok((header, _)) => header,
        Err(e) => return Err(RewriteError::Ip(IpSliceError::Ipv6Header(e))),
    };
    header.set_dscp(dscp);
    put_ipv6(packet, &header);
    Ok(())
}

// Gives an IPv6 packet another notification.
fn set_ecn_ipv6(packet: &mut [u8], ecn: IpEcn) -> Result<(), RewriteError>
    requires some { 0 < length packet.now }
    requires version { version_of packet.now ≡ 6 }
    ensures changed { OnOk result
        (MarksIpv6 (λ class. class / 2 ^ 2 * 2 ^ 2 + ecn_value ecn) packet.old packet.new) }
    ensures refused { IfErr result (RefusesMark packet.old) }
    ensures unchanged { OnErr result (packet.new ≡ packet.old) }
{
    let mut header = match Ipv6Header::from_slice(packet) {
        Ok((header, _)) => header,
        Err(e) => return Err(RewriteError::Ip(IpSliceError::Ipv6Header(e))),
    };
    header.set_ecn(ecn);
    put_ipv6(packet, &header);
    Ok(())
}

// Writes an IPv6 header over that of a packet.
fn put_ipv6(packet: &mut [u8], header: &Ipv6Header)
    requires enough { 40 ≤ length packet.now }
    ensures written { BeginsWith IsIpv6Layout packet.new header.now (drop 40 packet.old) }
{
    packet[..Ipv6Header::LEN].copy_from_slice(&header.to_bytes());
}

// An IPv6 header with another source address.
fn with_source(header: Ipv6Header, source: [u8; 16]) -> Ipv6Header
    ensures value { result ≡ record header { source = source } }
{
    Ipv6Header { source, ..header }
}

// An IPv6 header with another destination address.
fn with_destination(header: Ipv6Header, destination: [u8; 16]) -> Ipv6Header
    ensures value { result ≡ record header { destination = destination } }
{
    Ipv6Header {
        destination,
        ..header
    }
}

// The source address of an IPv6 header.
fn source_in(header: &Ipv6Header) -> [u8; 16]
    ensures value { result ≡ header.now.source }
{
    header.source
}

// The destination address of an IPv6 header.
fn destination_in(header: &Ipv6Header) -> [u8; 16]
    ensures value { result ≡ header.now.destination }
{
    header.destination
}
