//! A filter on IPv6 packets: the upper layer, past any extension headers.

ghost use Rattle.std.specs.Prelude.{◌≤◌, IfErr, IfOk, length};
ghost use Rattle.etherparse.specs.ExtensionHeaderChain.{FollowsChain, IsWalkOf, Walks};
ghost use Rattle.etherparse.specs.Reading.{found_and_rest};
ghost use Rattle.uses.specs.UpperLayer.{HasUpperLayer, RefusesUpperLayer};

use etherparse::err::LenError;
use etherparse::err::ipv6::{ChainError, HeaderSliceError};
use etherparse::{IpNumber, Ipv6Header};

/// The number of the upper-layer protocol of an IPv6 packet, and its bytes. In a fragment that is
/// not the first they are the middle of a payload: [`packet_parts::ip_slice::IpSlice`] stops before them.
/// The packet is not cut at its payload length. An error tells places from the packet's start.
pub fn upper_layer(packet: &[u8]) -> Result<(IpNumber, &[u8]), HeaderSliceError>
    ensures found { IfOk result (λ x. HasUpperLayer packet.now x.0 x.1.now) }
    ensures refused { IfErr result (RefusesUpperLayer packet.now) }
{
    let (header, rest) = Ipv6Header::from_slice(packet)?;
    match Ipv6Header::skip_all_header_extensions_in_slice(rest, header.next_header) {
        Ok(upper) => Ok(upper),
        Err(e) => Err(HeaderSliceError::Len(e.add_offset(Ipv6Header::LEN))),
    }
}

// The greatest payload of a packet on Ethernet, and so of its extension headers, in bytes.
const MTU: usize = 1500;

/// The upper layer of the payload of a packet on Ethernet. A limit of one more than an eighth of the
/// bytes that there can be is never reached, so no answer has to be made for it.
pub fn upper_layer_on_ethernet(
    payload: &[u8],
    next_header: IpNumber,
) -> Result<(IpNumber, &[u8]), LenError>
    requires { length payload.now ≤ 1500 }
    ensures walk { Walks payload.now next_header (found_and_rest result) }
{
    match Ipv6Header::skip_header_extensions_up_to(payload, next_header, MTU / 8 + 1) {
        Ok(upper) => Ok(upper),
        Err(ChainError::Len(e)) => Err(e),
        Err(ChainError::TooMany { .. }) => unreachable!(),
    }
}

/// The walk past all extension headers of a slice, after those that were skipped before:
/// their rest, and its number.
pub fn walked_on<'a>(
    slice: &[u8],
    first: IpNumber,
    rest: &'a [u8],
    number: IpNumber,
) -> Result<(IpNumber, &'a [u8]), LenError>
    requires after { FollowsChain slice.now first number rest.now }
    requires within { length rest.now ≤ length slice.now }
    ensures walk { IsWalkOf slice.now first (found_and_rest result) }
{
    match Ipv6Header::skip_all_header_extensions_in_slice(rest, number) {
        Ok(upper) => Ok(upper),
        Err(e) => Err(e.add_offset(slice.len() - rest.len())),
    }
}

/// The walk past all extension headers, one skip at a time.
pub fn walked_by_skips(slice: &[u8], first: IpNumber) -> Result<(IpNumber, &[u8]), LenError>
    ensures walk { IsWalkOf slice.now first (found_and_rest result) }
{
    let mut number = first;
    let mut rest = slice;
    'skips: loop {
        if !Ipv6Header::is_skippable_header_extension(number) {
            return Ok((number, rest));
        }
        match Ipv6Header::skip_header_extension_in_slice(rest, number) {
            Ok(skipped) => (number, rest) = skipped,
            Err(e) => return Err(e.add_offset(slice.len() - rest.len())),
        }
    }
}
