//! The end of a tunnel: an IPv4 packet within an IPv4 packet, with or without a GRE header between.

ghost use Rattle.std.specs.Prelude.{◌≡◌, ◌↔◌, IfErr, IfNone, IfOk, IfSome, IsTrue};
ghost use Rattle.std.specs.Option.{option_map};
ghost use Rattle.std.specs.Result.{result_map_both};
ghost use Rattle.std.specs.String.{string_bytes};
ghost use Rattle.etherparse.specs.Ipv4Header.{ipv4_header_len};
ghost use Rattle.etherparse.specs.LenError.{len_error_text};
ghost use Rattle.uses.specs.Tunnel.{HasInnerIpv4, HasNoInnerIpv4, IsOfGre, RefusesInnerIpv4};
ghost use Rattle.uses.specs.Tunnel.{TellsInGre};

use crate::gre::{GreError, GreHeader};
use etherparse::err::{LenError, ipv4};
use etherparse::{IpNumber, Ipv4Header};
use std::alloc::{AllocError, Global};

/// The header inside, and what follows it; `None` where the protocol is not 4 (RFC 2003), and for a
/// fragment, which has no whole packet inside. The place of an error is that in the whole packet.
///
/// Neither packet is cut at its total length.
pub fn inner_ipv4(packet: &[u8]) -> Result<Option<(Ipv4Header, &[u8])>, ipv4::HeaderSliceError>
    ensures found { IfOk result (λ found. IfSome found (λ x.
        HasInnerIpv4 packet.now x.0 x.1.now)) }
    ensures none { IfOk result (λ found. IfNone found (HasNoInnerIpv4 packet.now)) }
    ensures refused { IfErr result (RefusesInnerIpv4 packet.now) }
{
    let (outer, payload) = Ipv4Header::from_slice(packet)?;
    if outer.protocol != IpNumber::IPV4 || outer.is_fragmenting_payload() {
        return Ok(None);
    }
    match Ipv4Header::from_slice(payload) {
        Ok(inner) => Ok(Some(inner)),
        Err(e) => Err(e.add_slice_offset(outer.header_len())),
    }
}

/// Why there is no header inside, in words, from an error about the bytes after the outer header.
pub fn inner_reason(
    alloc: Global,
    outer: &Ipv4Header,
    error: LenError,
) -> Result<String, AllocError>
    requires { error.layer_start_offset ≡ 0 }
    ensures text { IfOk result (λ text. string_bytes text
        ≡ len_error_text (record error { layer_start_offset = ipv4_header_len outer.now })) }
{
    let moved = error.add_offset(outer.header_len());
    format!(in alloc; "{moved}")
}

/// Why a packet with a GRE header in it is not read; an error has its place in the whole packet.
#[derive(Drop)]
pub enum TunnelError {
    Ipv4(ipv4::HeaderSliceError),
    Gre(GreError),
}

/// The IPv4 header after a GRE header, and the bytes after it; `None` where the protocol is not 47,
/// for a fragment, and for another payload. Nothing is cut at a total length.
pub fn inner_ipv4_by_gre(packet: &[u8]) -> Result<Option<(Ipv4Header, &[u8])>, TunnelError>
    ensures tells { TellsInGre packet.now
        (result_map_both (option_map (λ x. (x.0, x.1.now))) (λ e. e) result) }
{
    let (outer, payload) = match Ipv4Header::from_slice(packet) {
        Ok(found) => found,
        Err(e) => return Err(TunnelError::Ipv4(e)),
    };
    if !is_of_gre(&outer) {
        return Ok(None);
    }
    let (gre, inside) = match GreHeader::from_slice(payload) {
        Ok(found) => found,
        Err(e) => return Err(TunnelError::Gre(e.add_offset(outer.header_len()))),
    };
    if gre.protocol_type != 0x0800 {
        return Ok(None);
    }
    match Ipv4Header::from_slice(inside) {
        Ok(inner) => Ok(Some(inner)),
        Err(e) => Err(TunnelError::Ipv4(e.add_slice_offset(packet.len() - inside.len()))),
    }
}

// Whether a whole GRE packet follows the header.
fn is_of_gre(outer: &Ipv4Header) -> bool
    ensures value { IsTrue result ↔ IsOfGre outer.now }
{
    outer.protocol == IpNumber::GRE && !outer.is_fragmenting_payload()
}
