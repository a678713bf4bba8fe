//! IP packets of either version, sliced into their parts.

ghost use Rattle.std.specs.Prelude.{ℕ, ◌≡◌, ◌≢◌, ◌+◌, ◌<◌, ◌≤◌, ◌^◌, List, ◌++◌, IfErr, IfOk, IfSome};
ghost use Rattle.std.specs.Prelude.{MatchOption, Some, length, option_map};
ghost use Rattle.etherparse.specs.FirstByte.{version_of};
ghost use Rattle.etherparse.specs.Ipv4Header.{IsIpv4Layout, OfIpv4Header};
ghost use Rattle.etherparse.specs.Ipv6Header.{IsIpv6Layout};
ghost use Rattle.etherparse.specs.Reading.{BeginsWith, too_short_error};
ghost use Rattle.etherparse.specs.declared.net.ipv4_header.Ipv4Header.{Ipv4Header as Header4};
ghost use Rattle.etherparse.specs.declared.net.ipv6_header.Ipv6Header.{Ipv6Header as Header6};
ghost use Rattle.packet_parts.specs.IpSlice.{HasIpParts, HasLaxIpParts, HasNoIpParts, IsWhole};
ghost use Rattle.packet_parts.specs.IpSlice.{ReadsIp, ReadsLaxIp, RefusesIp, ip_slice_error_text};
ghost use Rattle.packet_parts.specs.IpSlice.{extension_error, ipv4_bytes, ipv4_fragment_of};
ghost use Rattle.packet_parts.specs.IpSlice.{ipv6_bytes, ipv6_packet_len, packet_len_of, placed};
ghost use Rattle.packet_parts.specs.declared.ip_slice.IpHeaderSlice.TheVariants as Header;
ghost use Rattle.packet_parts.specs.declared.ip_slice.IpSliceError.TheVariants as Stop;

use crate::checksum::{Absence, Verdict, ipv4_verdict, verdict_between};
use crate::extensions::after_extensions;
use crate::final_destination::{final_destination_ipv4, final_destination_ipv6};
use crate::fragment::Fragment;
use crate::original_source::original_source_ipv6;
use etherparse::err::{Layer, LenError, ipv4, ipv6};
use etherparse::{IpNumber, Ipv4HeaderSlice, Ipv6Header, Ipv6HeaderSlice, LenSource};
use etherparse_net::Ipv6FragmentHeader;
use std::error::Error;
use std::fmt;
use std::net::{IpAddr, Ipv4Addr, Ipv6Addr};

/// The header of an IP packet, without extension headers.
#[derive(Clone, Copy, Debug, PartialEq, Eq)]
pub enum IpHeaderSlice<'a> {
    /// That of an IPv4 packet (RFC 791 section 3.1).
    Ipv4(Ipv4HeaderSlice<'a>),
    /// That of an IPv6 packet (RFC 8200 section 3).
    Ipv6(Ipv6HeaderSlice<'a>),
}

/// The parts of an IP packet, trimmed at its length field, if that says something: what comes after
/// the packet is in none of them.
#[derive(Clone, Copy, Debug, PartialEq, Eq)]
pub struct IpSlice<'a> {
    /// The header.
    pub header: IpHeaderSlice<'a>,
    /// The bytes of the extension headers of an IPv6 packet, which can be none, as in IPv4. A
    /// fragment header is among them. If its offset is not 0 it is the last: what follows it is the
    /// fragment itself, and no header (RFC 8200 section 4.5).
    pub extensions: &'a [u8],
    /// The place of the payload, if it is a fragment: more fragments follow it, or its offset is not
    /// 0. In IPv6 the first fragment header that is not atomic tells it (RFC 8200 section 4.5).
    pub fragment: Option<Fragment>,
    /// Whether the payload is a later part of one that was fragmented, which begins with no header
    /// of an upper layer: a fragment offset is not 0. In IPv6 any fragment header can say so, also
    /// one after that of `fragment`, where a fragment was fragmented again.
    pub is_later_fragment: bool,
    /// The number of the payload. In IPv4 it is the header's `protocol`; in IPv6 the first that is
    /// of no extension header that can be skipped, or any that a fragment header with an offset
    /// other than 0 names.
    pub upper: IpNumber,
    /// What follows the header and the extension headers. An encrypted payload (50) begins with its
    /// own header; in IPv4 an authentication header (51) is in the payload too.
    pub payload: &'a [u8],
}

/// Why a packet is not sliced.
#[derive(Clone, Debug, PartialEq, Eq, Drop)]
pub enum IpSliceError {
    /// There are no bytes, and one is required.
    Empty(LenError),
    /// The version is neither 4 nor 6.
    UnexpectedVersion {
        /// The upper half of the first byte.
        version_number: u8,
    },
    /// The version is 4, and there is no IPv4 header.
    Ipv4Header(ipv4::HeaderSliceError),
    /// The version is 6, and there is no IPv6 header.
    Ipv6Header(ipv6::HeaderSliceError),
    /// The total length is below that of the header: `len` is then the total length, `required_len`
    /// the header length. Or the packet has fewer bytes than its length field says: `len` is then
    /// how many it has, `required_len` how many it should have, with the header.
    Packet(LenError),
    /// An IPv6 packet, trimmed at its payload length, ends within an extension header. `len_source`
    /// is the payload length, `layer_start_offset` the place of that header from the packet's start.
    Extensions(LenError),
}

impl fmt::Display for IpSliceError {
    ghost output = { λ error. Some (ip_slice_error_text error) };

    fn fmt<W: fmt::Write>(&self, f: &mut fmt::Formatter<W>) -> fmt::Result {
        match self {
            IpSliceError::Empty(e) => fmt::Display::fmt(e, f),
            &IpSliceError::UnexpectedVersion { version_number } => write!(
                f,
                "IP Header Error: Version {version_number} is neither 4 nor 6."
            ),
            IpSliceError::Ipv4Header(e) => fmt::Display::fmt(e, f),
            IpSliceError::Ipv6Header(e) => fmt::Display::fmt(e, f),
            IpSliceError::Packet(e) => fmt::Display::fmt(e, f),
            IpSliceError::Extensions(e) => fmt::Display::fmt(e, f),
        }
    }
}

impl Error for IpSliceError {}

/// The parts of an IP packet as far as they are there.
#[derive(Clone, Debug, PartialEq, Eq, Drop)]
pub struct LaxIpSlice<'a> {
    /// The parts, the last of which can be incomplete. If a packet ends within an extension header,
    /// that is in the place of the payload, with its number.
    pub slice: IpSlice<'a>,
    /// Why [`IpSlice::from_slice`] refuses the packet: `Packet` or `Extensions`; `None` if it does
    /// not. If the length field says nothing ([`IpHeaderSlice::packet_len`] is 0), the parts are of
    /// all bytes: with `Packet` for a total length of 0, with `Extensions` for a payload length of 0
    /// before hop-by-hop options.
    pub stop: Option<IpSliceError>,
}

impl<'a> IpHeaderSlice<'a> {
    ghost use Rattle.std.specs.Prelude.{◌≡◌};
    ghost use Rattle.packet_parts.specs.IpSlice.{header_bytes, packet_len_of};

    /// The bytes of the header.
    pub fn slice(&self) -> &'a [u8]
        ensures value { result.now ≡ header_bytes self.now }
    {
        match self {
            IpHeaderSlice::Ipv4(view) => view.slice(),
            IpHeaderSlice::Ipv6(view) => view.slice(),
        }
    }

    /// How long the packet is by its length field, in bytes and with the header; 0 if the field says
    /// nothing. That is a total length of 0, which a host writes if its network card cuts long
    /// packets (segmentation offload), and a payload length of 0 before hop-by-hop options, as in a
    /// jumbogram (RFC 2675 section 3). Any other payload length of 0 gives 40.
    pub fn packet_len(&self) -> usize
        ensures value { result ≡ packet_len_of self.now }
    {
        match self {
            IpHeaderSlice::Ipv4(view) => usize::from(view.total_len()),
            IpHeaderSlice::Ipv6(view) => ipv6_packet_len(view),
        }
    }
}

impl<'a> IpSlice<'a> {
    ghost use Rattle.std.specs.Prelude.{◌≡◌, IfErr, IfOk, Result};
    ghost use Rattle.packet_parts.specs.Checksum.{IsVerdict};
    ghost use Rattle.packet_parts.specs.declared.ip_slice.IpSlice.{IpSlice as Slice};
    ghost use Rattle.packet_parts.specs.declared.ip_slice.IpSliceError.{IpSliceError as Refused};
    ghost use Rattle.packet_parts.specs.IpSlice.{IsAddressIn, IsIpPacket, ReadsIp, RefusesIp};
    ghost use Rattle.packet_parts.specs.IpSlice.{destination_of, header_len_of, ip_answer};
    ghost use Rattle.packet_parts.specs.IpSlice.{source_of};

    /// The parts of the packet at the front of a slice.
    ///
    /// A payload length of 0 is taken as it stands: a jumbogram (RFC 2675 section 3) is refused,
    /// since its options are beyond that length. [`LaxIpSlice`] has its parts.
    ///
    /// # Errors
    ///
    /// In this order: `Empty`, `UnexpectedVersion`, `Ipv4Header` or `Ipv6Header`, `Packet`,
    /// `Extensions`.
    ///
    /// # Example
    ///
    /// ```
    /// // A datagram of 12 bytes, and two bytes that the link added.
    /// let packet = [
    ///     0x45, 0, 0, 32, 0, 0, 0, 0, 64, 17, 0, 0, 192, 168, 0, 1, 192, 168, 0, 199, 4, 0, 0, 53,
    ///     0, 12, 0x91, 0xae, b't', b'e', b's', b't', 0, 0,
    /// ];
    /// let slice = IpSlice::from_slice(&packet)?;
    /// assert!(rt; slice.source() == IpAddr::V4(Ipv4Addr::new(192, 168, 0, 1)));
    /// assert!(rt; slice.destination() == IpAddr::V4(Ipv4Addr::new(192, 168, 0, 199)));
    /// assert!(rt; slice.header_len() == 20 && slice.header.packet_len() == 32);
    /// assert!(rt; slice.upper == IpNumber::UDP && slice.payload.len() == 12);
    /// assert!(rt; slice.verdict() == Verdict::Right);
    /// // A fragment that is not the first, and not the last.
    /// let packet = [
    ///     0x45, 0, 0, 28, 0x12, 0x34, 0x20, 1, 64, 17, 0, 0, 192, 168, 0, 1, 192, 168, 0, 199, 1,
    ///     2, 3, 4, 5, 6, 7, 8,
    /// ];
    /// let slice = IpSlice::from_slice(&packet)?;
    /// let place = Fragment {
    ///     identification: 0x1234,
    ///     offset: 8,
    ///     more_fragments: true,
    /// };
    /// assert!(rt; slice.fragment == Some(place) && slice.is_later_fragment);
    /// ```
    pub fn from_slice(packet: &'a [u8]) -> Result<IpSlice<'a>, IpSliceError>
        ensures found { IfOk result (IsIpPacket packet.now) }
        ensures refused { IfErr result (RefusesIp packet.now) }
        ensures only { (other : Result Slice Refused) → ReadsIp packet.now other →
            ip_answer other ≡ ip_answer result }
    {
        whole_slice(packet)
    }

    /// The place of the payload in the packet: how long the header is with its extension headers, in
    /// bytes.
    pub fn header_len(&self) -> usize
        ensures value { result ≡ header_len_of self.now }
    {
        self.header.slice().len() + self.extensions.len()
    }

    /// The source of the header. The original source of an IPv6 packet can be another one:
    /// [`original_source_ipv6`].
    pub fn source(&self) -> IpAddr
        ensures value { IsAddressIn self.now.header result (source_of self.now.header) }
    {
        match &self.header {
            IpHeaderSlice::Ipv4(view) => IpAddr::V4(Ipv4Addr::from_octets(view.source())),
            IpHeaderSlice::Ipv6(view) => IpAddr::V6(Ipv6Addr::from_octets(view.source())),
        }
    }

    /// The destination of the header: the next stop of a packet that a routing header (RFC 8200
    /// section 4.4) or a source route option (RFC 791 section 3.1) sends on. Its final destination
    /// can be another one: [`final_destination_ipv4`], [`final_destination_ipv6`].
    pub fn destination(&self) -> IpAddr
        ensures value { IsAddressIn self.now.header result (destination_of self.now.header) }
    {
        match &self.header {
            IpHeaderSlice::Ipv4(view) => IpAddr::V4(Ipv4Addr::from_octets(view.destination())),
            IpHeaderSlice::Ipv6(view) => IpAddr::V6(Ipv6Addr::from_octets(view.destination())),
        }
    }

    /// The verdict on the checksum of the payload: `Absent(Fragment)`, or that of [`ipv4_verdict`]
    /// or [`ipv6_verdict`] between the original source (over IPv6 by [`original_source_ipv6`]) and
    /// the final destination (by [`final_destination_ipv4`] or [`final_destination_ipv6`]). If one
    /// of these is unknown, it is `UnknownDestination` instead of right or wrong.
    ///
    /// The payload is taken for whole: for [`LaxIpSlice::slice`] there is [`LaxIpSlice::verdict`].
    pub fn verdict(&self) -> Verdict
        ensures judges { IsVerdict self.now result }
    {
        match (self.fragment, &self.header) {
            (Some(_), _) => Verdict::Absent(Absence::Fragment),
            (None, IpHeaderSlice::Ipv4(view)) => {
                let last = final_destination_ipv4(view.destination(), view.options());
                ipv4_verdict(view.source(), last, self.upper, self.payload)
            }
            (None, IpHeaderSlice::Ipv6(view)) => {
                let (first, extensions) = (view.next_header(), self.extensions);
                let original = original_source_ipv6(view.source(), first, extensions);
                let last = final_destination_ipv6(view.destination(), first, extensions);
                verdict_between(original, last, self.upper, self.payload)
            }
        }
    }
}

impl<'a> LaxIpSlice<'a> {
    ghost use Rattle.std.specs.Prelude.{◌≡◌, IfErr, IfOk, Result};
    ghost use Rattle.packet_parts.specs.Checksum.{IsLaxVerdict};
    ghost use Rattle.packet_parts.specs.IpSlice.{HasLaxIpParts, HasNoIpParts, ReadsLaxIp};
    ghost use Rattle.packet_parts.specs.IpSlice.{lax_ip_answer};
    ghost use Rattle.packet_parts.specs.declared.ip_slice.IpSliceError.{IpSliceError as Refused};
    ghost use Rattle.packet_parts.specs.declared.ip_slice.LaxIpSlice.{LaxIpSlice as Lax};

    /// The parts of the packet at the front of a slice, as far as they are there.
    ///
    /// # Errors
    ///
    /// Those of [`IpSlice::from_slice`] without parts: `Empty`, `UnexpectedVersion`, `Ipv4Header` or
    /// `Ipv6Header`, and `Packet` if the total length is below that of the header, but not 0.
    ///
    /// # Example
    ///
    /// ```
    /// // A packet of 32 bytes, 28 of which were captured.
    /// let mut packet = [
    ///     0x45, 0, 0, 32, 0, 0, 0, 0, 64, 17, 0, 0, 192, 168, 0, 1, 192, 168, 0, 199, 4, 0, 0, 53,
    ///     0, 12, 0x91, 0xae,
    /// ];
    /// let lax = LaxIpSlice::from_slice(&packet)?;
    /// assert!(rt; lax.slice.payload.len() == 8 && lax.stop.is_some());
    /// assert!(rt; lax.verdict() == Verdict::Absent(Absence::Incomplete));
    /// // A total length of 0: the payload is all that there is.
    /// packet[3] = 0;
    /// let lax = LaxIpSlice::from_slice(&packet)?;
    /// assert!(rt; lax.slice.header.packet_len() == 0);
    /// assert!(rt; lax.slice.payload.len() == 8 && lax.stop.is_some());
    /// ```
    #[inline(always)]
    pub fn from_slice(packet: &'a [u8]) -> Result<LaxIpSlice<'a>, IpSliceError>
        ensures found { IfOk result (HasLaxIpParts packet.now) }
        ensures refused { IfErr result (HasNoIpParts packet.now) }
        ensures only { (other : Result Lax Refused) → ReadsLaxIp packet.now other →
            lax_ip_answer other ≡ lax_ip_answer result }
    {
        lax_slice(packet)
    }

    /// The verdict on the checksum of the payload, as [`IpSlice::verdict`] gives it; `Incomplete` if
    /// there is a `stop`.
    pub fn verdict(&self) -> Verdict
        ensures judges { IsLaxVerdict self.now result }
    {
        match self.stop {
            None => self.slice.verdict(),
            Some(_) => Verdict::Absent(Absence::Incomplete),
        }
    }
}

// The parts of a packet that is whole.
fn whole_slice(packet: &[u8]) -> Result<IpSlice, IpSliceError>
    ensures reads { ReadsIp packet.now result }
{
    match lax_slice(packet) {
        Ok(lax) => match lax.stop {
            None => Ok(lax.slice),
            Some(e) => Err(e),
        },
        Err(e) => Err(e),
    }
}

// The parts of a packet as far as they are there.
#[inline(always)]
fn lax_slice(packet: &[u8]) -> Result<LaxIpSlice, IpSliceError>
    ensures reads { ReadsLaxIp packet.now result }
{
    if packet.is_empty() {
        return Err(IpSliceError::Empty(too_short(1, 0, Layer::IpHeader)));
    }
    match packet[0] >> 4 {
        4 => ipv4_slice(packet),
        6 => ipv6_slice(packet),
        version_number => Err(IpSliceError::UnexpectedVersion { version_number }),
    }
}

// The parts of a packet of version 4.
#[inline(always)]
fn ipv4_slice(packet: &[u8]) -> Result<LaxIpSlice, IpSliceError>
    requires some { 0 < length packet.now }
    requires version { version_of packet.now ≡ 4 }
    ensures found { IfOk result (HasLaxIpParts packet.now) }
    ensures refused { IfErr result (HasNoIpParts packet.now) }
{
    let header = match Ipv4HeaderSlice::from_slice(packet) {
        Ok(header) => header,
        Err(e) => return Err(IpSliceError::Ipv4Header(e)),
    };
    let rest = &packet[header.slice().len()..];
    let total_len = usize::from(header.total_len());
    let (payload, stop) = match header.payload_len() {
        Ok(_) if packet.len() < total_len => {
            let e = too_short(total_len, packet.len(), Layer::Ipv4Packet);
            (rest, Some(IpSliceError::Packet(e)))
        }
        Ok(len) => (&rest[..usize::from(len)], None),
        Err(e) => {
            if total_len != 0 {
                return Err(IpSliceError::Packet(e));
            }
            (rest, Some(IpSliceError::Packet(e)))
        }
    };
    Ok(LaxIpSlice {
        slice: ipv4_parts(header, payload),
        stop,
    })
}

// The parts of a packet of version 4 with this header and this payload.
#[inline(always)]
fn ipv4_parts<'a>(header: Ipv4HeaderSlice<'a>, payload: &'a [u8]) -> IpSlice<'a>
    ensures parts { (packet : List ℕ) → (read : Header4) →
        (begins : BeginsWith IsIpv4Layout (ipv4_bytes read packet) read payload.now) →
        begins.front ≡ header.entry.slice.now → HasIpParts packet result }
    ensures header { result.header ≡ Header.Ipv4 header.entry }
{
    IpSlice {
        header: IpHeaderSlice::Ipv4(header),
        extensions: &[],
        fragment: ipv4_fragment(&header),
        is_later_fragment: header.fragments_offset().value() != 0,
        upper: header.protocol(),
        payload,
    }
}

// The parts of a packet of version 6.
#[inline(always)]
fn ipv6_slice(packet: &[u8]) -> Result<LaxIpSlice, IpSliceError>
    requires some { 0 < length packet.now }
    requires version { version_of packet.now ≡ 6 }
    ensures found { IfOk result (HasLaxIpParts packet.now) }
    ensures refused { IfErr result (HasNoIpParts packet.now) }
{
    let header = match Ipv6HeaderSlice::from_slice(packet) {
        Ok(header) => header,
        Err(e) => return Err(IpSliceError::Ipv6Header(e)),
    };
    let len = ipv6_packet_len(&header);
    if len == 0 {
        return Ok(slice_without_length(header, &packet[Ipv6Header::LEN..]));
    }
    if packet.len() < len {
        let e = too_short(len, packet.len(), Layer::Ipv6Packet);
        let slice = ipv6_parts(header, &packet[Ipv6Header::LEN..]).slice;
        let stop = Some(IpSliceError::Packet(e));
        return Ok(LaxIpSlice { slice, stop });
    }
    Ok(ipv6_parts(header, &packet[Ipv6Header::LEN..len]))
}

// How long a packet of version 6 is by its payload length; 0 if that says nothing.
#[inline(always)]
fn ipv6_packet_len(header: &Ipv6HeaderSlice) -> usize
    ensures value { result ≡ packet_len_of (Header.Ipv6 header.now) }
{
    match (header.payload_length(), header.next_header()) {
        (0, IpNumber::IPV6_HEADER_HOP_BY_HOP) => 0,
        (payload_length, _) => Ipv6Header::LEN + usize::from(payload_length),
    }
}

// The parts of a packet of version 6 with this header, whose payload length says nothing, and this
// body. Taken as it stands, that length cuts the packet off before the hop-by-hop options.
#[inline(always)] // The caller has the parts in registers.
fn slice_without_length<'a>(header: Ipv6HeaderSlice<'a>, body: &'a [u8]) -> LaxIpSlice<'a>
    ensures found { (packet : List ℕ) → (read : Header6) →
        ipv6_packet_len read.payload_length read.next_header ≡ 0 →
        (begins : BeginsWith IsIpv6Layout packet read body.now) →
        begins.front ≡ header.entry.slice.now → HasLaxIpParts packet result }
{
    let slice = ipv6_parts(header, body).slice;
    let stop = Some(IpSliceError::Extensions(LenError {
        required_len: 2,
        len: 0,
        len_source: LenSource::Ipv6HeaderPayloadLen,
        layer: Layer::Ipv6ExtHeader,
        layer_start_offset: Ipv6Header::LEN,
    }));
    LaxIpSlice { slice, stop }
}

// The parts of a packet of version 6 with this header and this body.
#[inline(always)]
fn ipv6_parts<'a>(header: Ipv6HeaderSlice<'a>, body: &'a [u8]) -> LaxIpSlice<'a>
    ensures parts { (packet : List ℕ) → (read : Header6) →
        (begins : BeginsWith IsIpv6Layout (ipv6_bytes read packet) read body.now) →
        begins.front ≡ header.entry.slice.now → HasIpParts packet result.slice }
    ensures stop { (packet : List ℕ) → (read : Header6) →
        ipv6_packet_len read.payload_length read.next_header ≢ 0 →
        40 + read.payload_length ≤ length packet →
        (begins : BeginsWith IsIpv6Layout (ipv6_bytes read packet) read body.now) →
        begins.front ≡ header.entry.slice.now →
        MatchOption result.stop (IsWhole packet result.slice) (RefusesIp packet) }
    ensures header { result.slice.header ≡ Header.Ipv6 header.entry }
{
    let after = after_extensions(body, header.next_header());
    let slice = IpSlice {
        header: IpHeaderSlice::Ipv6(header),
        extensions: before(body, after.rest),
        fragment: placed(after.fragment),
        is_later_fragment: after.is_later,
        upper: after.number,
        payload: after.rest,
    };
    let stop = moved(after.incomplete);
    LaxIpSlice { slice, stop }
}

// The place of an IPv4 fragment.
fn ipv4_fragment(header: &Ipv4HeaderSlice) -> Option<Fragment>
    ensures value { OfIpv4Header header.now.slice.now (λ read. result ≡ ipv4_fragment_of read) }
{
    if !header.is_fragmenting_payload() {
        return None;
    }
    Some(Fragment {
        identification: u32::from(header.identification()),
        offset: 8 * u32::from(header.fragments_offset().value()),
        more_fragments: header.more_fragments(),
    })
}

// The place of an IPv6 fragment, by the fragment header that decides.
fn placed(decided: Option<Ipv6FragmentHeader>) -> Option<Fragment>
    ensures value { result ≡ option_map placed decided }
{
    match decided {
        Some(header) => Some(Fragment {
            identification: header.identification,
            offset: 8 * u32::from(header.fragment_offset.value()),
            more_fragments: header.more_fragments,
        }),
        None => None,
    }
}

// The error of an extension header that is incomplete: the packet ends there by its payload length.
fn moved(incomplete: Option<LenError>) -> Option<IpSliceError>
    requires fits { IfSome incomplete (λ e. e.layer_start_offset + 40 < 2 ^ 64) }
    ensures value { result ≡ option_map (λ e. Stop.Extensions (extension_error e)) incomplete }
{
    match incomplete {
        Some(e) => Some(IpSliceError::Extensions(LenError {
            len_source: LenSource::Ipv6HeaderPayloadLen,
            ..e.add_offset(Ipv6Header::LEN)
        })),
        None => None,
    }
}

// The error of a packet that is shorter than its first byte or than its length field says.
fn too_short(required_len: usize, len: usize, layer: Layer) -> LenError
    ensures value { result ≡ too_short_error layer required_len len }
{
    LenError {
        required_len,
        len,
        len_source: LenSource::Slice,
        layer,
        layer_start_offset: 0,
    }
}

// What stands in a slice before its rest.
fn before<'a>(slice: &'a [u8], rest: &[u8]) -> &'a [u8]
    requires rest { (front : List ℕ) × (slice.now ≡ front ++ rest.now) }
    ensures parts { slice.now ≡ result.now ++ rest.now }
{
    &slice[..slice.len() - rest.len()]
}
