//! A capture reader: the payloads of packets, cut as their headers say.

ghost use Rattle.std.specs.Prelude.{ℕ, ◌≡◌, ◌≤◌, ◌+◌, ◌*◌, ◌↔◌, List, IfErr, IfOk, IfSome, IsSome};
ghost use Rattle.std.specs.Prelude.{length, take};
ghost use Rattle.etherparse.specs.Ipv4Header.{OfIpv4Header, RefusesIpv4};
ghost use Rattle.etherparse.specs.declared.err.LenError.{LenError as LengthError};
ghost use Rattle.etherparse.specs.declared.err.ipv4.HeaderSliceError.TheVariants.{Len};
ghost use Rattle.etherparse.specs.Ipv6Header.{IsIpv6Layout, RefusesIpv6};
ghost use Rattle.etherparse.specs.Reading.{BeginsWith};
ghost use Rattle.etherparse.specs.declared.net.ipv6_header.Ipv6Header.{Ipv6Header as Header6};
ghost use Rattle.uses.specs.Payload.{HasIpv4Payload, HasIpv6Payload, IsShortBy, RefusesIpv4Payload};

use etherparse::err::{ipv4, ipv6};
use etherparse::{Ipv4Header, Ipv4HeaderSlice, Ipv6Header};

/// What follows an IPv6 header, as far as its payload length says and the capture has it.
pub fn ipv6_payload(packet: &[u8]) -> Result<&[u8], ipv6::HeaderSliceError>
    ensures cut { IfOk result (λ payload. HasIpv6Payload packet.now payload.now) }
    ensures refused { IfErr result (RefusesIpv6 packet.now) }
{
    let (header, rest) = Ipv6Header::from_slice(packet)?;
    Ok(&rest[..usize::from(header.payload_length).min(rest.len())])
}

/// An IPv6 header and its payload, if the packet is as long as the header says; what comes after it
/// is cut off.
pub fn ipv6_packet(packet: &[u8]) -> Option<(Ipv6Header, &[u8])>
    ensures cut { IfSome result (λ x. BeginsWith IsIpv6Layout
        (take (40 + x.0.payload_length) packet.now) x.0 x.1.now) }
    ensures found { (header : Header6) → (rest : List ℕ) →
        BeginsWith IsIpv6Layout packet.now header rest →
        (IsSome result ↔ (header.payload_length ≤ length rest)) }
{
    let (header, rest) = match Ipv6Header::from_slice(packet) {
        Ok(read) => read,
        Err(_) => return None,
    };
    let len = usize::from(header.payload_length);
    if rest.len() < len {
        return None;
    }
    Some((header, &rest[..len]))
}

/// What follows an IPv4 header, as far as its total length says and the capture has it. A total
/// length below that of the header is refused as a length error.
pub fn ipv4_payload(packet: &[u8]) -> Result<&[u8], ipv4::HeaderSliceError>
    ensures cut { IfOk result (λ payload. HasIpv4Payload packet.now payload.now) }
    ensures refused { IfErr result (RefusesIpv4Payload packet.now) }
{
    let (header, rest) = Ipv4Header::from_slice(packet)?;
    let len = usize::from(header.payload_len().map_err(ipv4::HeaderSliceError::Len)?);
    Ok(&rest[..len.min(rest.len())])
}

/// Where the payload of a fragment stands in the original payload, in bytes.
pub fn fragment_start(view: &Ipv4HeaderSlice) -> usize
    ensures value { OfIpv4Header view.now.slice.now (λ header.
        result ≡ 8 * header.fragment_offset) }
{
    usize::from(view.fragments_offset().byte_offset())
}

/// How many bytes a reader has to wait for before it can say more about an IPv4 header than it can
/// now; `None` if the header is whole, or if the bytes are not a header.
pub fn missing(packet: &[u8]) -> Option<usize>
    ensures more { IfSome result (λ count. IsShortBy count packet.now) }
    ensures none { (e : LengthError) → RefusesIpv4 packet.now (Len e) → IsSome result }
{
    match Ipv4Header::from_slice(packet) {
        Err(ipv4::HeaderSliceError::Len(e)) => Some(e.required_len - e.len),
        _ => None,
    }
}
