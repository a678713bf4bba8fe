//! The headers of the first fragment of a datagram, in memory that the caller lends.

ghost use Rattle.std.specs.Prelude.{ℕ, ◌≡◌, ◌≤◌, IfErr, IfNone, IfOk, IfSome, List, None, OnErr};
ghost use Rattle.std.specs.Prelude.{Some, drop, length, take};
ghost use Rattle.std.specs.Option.{option_or};
ghost use Rattle.etherparse.specs.Ipv4Header.{IsIpv4Layout};
ghost use Rattle.etherparse.specs.declared.net.ipv4_header.Ipv4Header.{Ipv4Header as Header4};
ghost use Rattle.packet_reassembly.specs.Headers.{AreIpv6HeadersAt, AreKeptAs, HasHeaders};
ghost use Rattle.packet_reassembly.specs.Headers.{IsErrorFor, IsIpv4ErrorFor, IsIpv4PacketWith};
ghost use Rattle.packet_reassembly.specs.Headers.{IsIpv6ErrorFor, IsIpv6PacketWith, IsPacketOf};
ghost use Rattle.packet_reassembly.specs.Headers.{IsTooLongFor, IsTooLongForIpv4, IsTooLongForIpv6};
ghost use Rattle.packet_reassembly.specs.Headers.{kept_headers};

use crate::fragment_ecn::FragmentEcn;
use crate::ip_frag_id::IpFragVersionSpecId;
use crate::ip_fragment_slice::IpFragmentSlice;
use crate::packet::{put, write_ipv4_packet, write_ipv6_packet};
use etherparse::err::ValueTooBigError;
use etherparse::{IpNumber, Ipv4Header, Ipv6Header};
use etherparse_net::Ipv6FragmentHeader;
use std::marker::Model;

// Which headers the memory holds.
#[derive(Clone, Copy)]
enum Kept {
    // None.
    Nothing,
    // An IPv4 header of so many bytes.
    Ipv4(usize),
    // An IPv6 header, extension headers and a fragment header, of so many bytes; and the place of
    // the last extension header, or of the fragment header if there is none.
    Ipv6(usize, usize),
}

/// The headers of the first fragment of a datagram, that at offset 0, once it has come: the bytes
/// of its packet before those of the fragment. They are in memory that the caller lends.
///
/// In IPv4 that is the header with its options (RFC 791 section 3.1); in IPv6 the header, its
/// extension headers up to the fragment header, and that one (RFC 8200 section 4.5).
#[derive(Drop)]
pub struct IpDefragHeaders<'a> {
    bytes: &'a mut [u8],
    kept: Kept,
}

impl<'a> Model for IpDefragHeaders<'a> {
    ghost use Rattle.std.specs.Prelude.{ℕ, List, Option};

    ghost Value = { Option (List ℕ) };

    ghost use Rattle.packet_reassembly.specs.Headers.{AreKeptAs, kept_headers};

    ghost view = { λ s. kept_headers s.kept s.bytes.now };

    ghost invariant = { λ s. AreKeptAs s.kept s.bytes.now };
}

impl<'a> IpDefragHeaders<'a> {
    /// The memory that they take, in bytes: 1280. A first fragment with longer headers is refused.
    /// Each link takes packets of that length (RFC 8200 section 5), and an IPv4 header has 60 bytes
    /// at most.
    pub const MAX_LEN: usize = 1280;

    /// Those of a datagram whose first fragment has not come. `bytes` has to have at least
    /// [`IpDefragHeaders::MAX_LEN`] bytes.
    pub fn new(bytes: &'a mut [u8]) -> IpDefragHeaders<'a>
        requires bytes { 1280 ≤ length bytes.old }
        ensures none { result ≡ None }
    {
        IpDefragHeaders {
            bytes,
            kept: Kept::Nothing,
        }
    }

    /// Their bytes, once the first fragment has come.
    pub fn bytes(&self) -> Option<&[u8]>
        ensures some { IfSome result (λ bytes. self.now ≡ Some bytes.now) }
        ensures none { IfNone result (self.now ≡ None) }
    {
        match self.kept {
            Kept::Nothing => None,
            Kept::Ipv4(len) => Some(&self.bytes[..len]),
            Kept::Ipv6(len, _) => Some(&self.bytes[..len]),
        }
    }

    /// Forgets them.
    pub fn clear(&mut self)
        ensures none { self.new ≡ None }
    {
        self.kept = Kept::Nothing;
    }

    /// Keeps those of a fragment, unless some are kept already.
    pub(crate) fn keep(&mut self, fragment: &IpFragmentSlice)
        requires headers { HasHeaders fragment.now }
        ensures kept { self.new ≡ option_or self.old (Some fragment.now.headers.now) }
    {
        if let Kept::Nothing = self.kept {
            let bytes = &mut *self.bytes;
            put(fragment.headers, bytes, 0);
            self.kept = kept_of(fragment);
        }
    }

    /// Writes the packet of a datagram whose first fragment has these headers, as
    /// [`write_ipv4_packet`] or [`write_ipv6_packet`] does. The next header of IPv6 is that of the
    /// first fragment (RFC 8200 section 4.5). `ecn` is that of all its fragments: the packet has `CE`
    /// if any has it, else the codepoint of the first (RFC 3168 section 5.3). A packet that must be
    /// dropped, by [`FragmentEcn::is_dropped`], is written all the same. `out` has to have at least
    /// 65575 bytes. Returns the length of the packet in bytes; `None` if the first fragment has not
    /// come.
    ///
    /// # Errors
    ///
    /// A `ValueTooBigError` if the packet would be longer than its total length or its payload
    /// length can say: 65535 bytes, in IPv6 without the IPv6 header. Nothing is written.
    pub fn write_packet(
        &self,
        ecn: FragmentEcn,
        datagram: &[u8],
        out: &mut [u8],
    ) -> Result<Option<usize>, ValueTooBigError<usize>>
        requires room { 65575 ≤ length out.old }
        ensures packet { IfOk result (λ found. IfSome found (λ len.
            IsPacketOf self.now ecn datagram.now (take len out.new))) }
        ensures within { IfOk result (λ found. IfSome found (λ len. len ≤ length out.new)) }
        ensures after { IfOk result (λ found. IfSome found (λ len.
            drop len out.new ≡ drop len out.old)) }
        ensures none { IfOk result (λ found. IfNone found (self.now ≡ None)) }
        ensures refused { IfErr result (λ e. IsTooLongFor self.now datagram.now) }
        ensures error { IfErr result (IsErrorFor self.now datagram.now) }
        ensures unchanged { OnErr result (out.new ≡ out.old) }
        ensures nothing { IfOk result (λ found. IfNone found (out.new ≡ out.old)) }
    {
        match self.kept {
            Kept::Nothing => Ok(None),
            Kept::Ipv4(len) => match write_ipv4(&self.bytes[..len], ecn, datagram, out) {
                Ok(len) => Ok(Some(len)),
                Err(e) => Err(e),
            },
            Kept::Ipv6(len, place) => match write_ipv6(
                &self.bytes[..len],
                place,
                ecn,
                datagram,
                out,
            ) {
                Ok(len) => Ok(Some(len)),
                Err(e) => Err(e),
            },
        }
    }
}

const _: () = prove!(IpDefragHeaders::MAX_LEN == 1280);

// Which headers those of a fragment are, where memory begins with them.
fn kept_of(fragment: &IpFragmentSlice) -> Kept
    requires headers { HasHeaders fragment.now }
    ensures kept { (bytes : List ℕ) → 1280 ≤ length bytes →
        take (length fragment.now.headers.now) bytes ≡ fragment.now.headers.now →
        AreKeptAs result bytes × (kept_headers result bytes ≡ Some fragment.now.headers.now) }
{
    let len = fragment.headers.len();
    match fragment.ip {
        IpFragVersionSpecId::Ipv4 { .. } => Kept::Ipv4(len),
        IpFragVersionSpecId::Ipv6 { .. } => Kept::Ipv6(len, fragment.last_extension),
    }
}

// The packet with this IPv4 header, whose fragments have these ECN codepoints.
fn write_ipv4(
    headers: &[u8],
    ecn: FragmentEcn,
    datagram: &[u8],
    out: &mut [u8],
) -> Result<usize, ValueTooBigError<usize>>
    requires room { 65535 ≤ length out.old }
    requires header { (first : Header4) × IsIpv4Layout first headers.now }
    ensures packet { IfOk result (λ len. IsIpv4PacketWith headers.now ecn datagram.now
        (take len out.new)) }
    ensures within { IfOk result (λ len. len ≤ length out.new) }
    ensures after { IfOk result (λ len. drop len out.new ≡ drop len out.old) }
    ensures refused { IfErr result (λ e. IsTooLongForIpv4 headers.now datagram.now) }
    ensures error { IfErr result (IsIpv4ErrorFor headers.now datagram.now) }
    ensures unchanged { OnErr result (out.new ≡ out.old) }
{
    match Ipv4Header::from_slice(headers) {
        Ok((first, _)) => write_ipv4_packet(ecn.mark_ipv4(first), datagram, out),
        Err(_) => unreachable!(), // It is a header.
    }
}

// The packet with these headers, of which the last extension header, or the fragment header if there
// is none, is at this place; its fragments have these ECN codepoints.
fn write_ipv6(
    headers: &[u8],
    place: usize,
    ecn: FragmentEcn,
    datagram: &[u8],
    out: &mut [u8],
) -> Result<usize, ValueTooBigError<usize>>
    requires room { 65575 ≤ length out.old }
    requires short { length headers.now ≤ 1280 }
    requires headers { AreIpv6HeadersAt headers.now place }
    ensures packet { IfOk result (λ len. IsIpv6PacketWith headers.now ecn datagram.now
        (take len out.new)) }
    ensures within { IfOk result (λ len. len ≤ length out.new) }
    ensures after { IfOk result (λ len. drop len out.new ≡ drop len out.old) }
    ensures refused { IfErr result (λ e. IsTooLongForIpv6 headers.now datagram.now) }
    ensures error { IfErr result (IsIpv6ErrorFor headers.now datagram.now) }
    ensures unchanged { OnErr result (out.new ≡ out.old) }
{
    let first = match Ipv6Header::from_slice(headers) {
        Ok((first, _)) => first,
        Err(_) => unreachable!(), // They begin with a header.
    };
    let end = headers.len() - Ipv6FragmentHeader::LEN;
    let next_header = IpNumber(headers[end]);
    let before = &headers[Ipv6Header::LEN..place];
    let last = &headers[place..end];
    write_ipv6_packet(
        ecn.mark_ipv6(first),
        before,
        last,
        next_header,
        datagram,
        out,
    )
}
