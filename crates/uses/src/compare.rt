//! A monitor: what was seen is compared, ordered, kept and described.

ghost use Rattle.std.specs.Prelude.{◌≡◌, ◌<◌, ◌↔◌, IfErr, IfOk, IsTrue, Ok};
ghost use Rattle.std.specs.String.{string_bytes};
ghost use Rattle.etherparse.specs.Ipv4Errors.{ipv4_header_slice_error_text};
ghost use Rattle.etherparse.specs.Ipv4Header.{OfIpv4Header};
ghost use Rattle.etherparse.specs.Layer.{layer_index};
ghost use Rattle.uses.specs.Compare.{ComparesIpv4, RefusesOneIpv4};

use etherparse::err::{Layer, LenError, ValueTooBigError, ipv4, ipv6};
use etherparse::{IpDscp, Ipv4Header, Ipv4HeaderSlice, Ipv6Header, Ipv6HeaderSlice};
use std::alloc::{AllocError, Global};

/// Whether two lengths were refused for the same reason.
pub fn is_same_len_error(first: &LenError, other: &LenError) -> bool
    ensures same { IsTrue result ↔ (first.now ≡ other.now) }
{
    first == other
}

/// Whether two IPv4 packets were refused for the same reason.
pub fn is_same_ipv4_error(first: &ipv4::HeaderSliceError, other: &ipv4::HeaderSliceError) -> bool
    ensures same { IsTrue result ↔ (first.now ≡ other.now) }
{
    first == other
}

/// Whether two IPv6 packets were refused for the same reason.
pub fn is_same_ipv6_error(first: &ipv6::HeaderSliceError, other: &ipv6::HeaderSliceError) -> bool
    ensures same { IsTrue result ↔ (first.now ≡ other.now) }
{
    first == other
}

/// Whether two values were refused for the same reason.
pub fn is_same_value_error(first: &ValueTooBigError<u16>, other: &ValueTooBigError<u16>) -> bool
    ensures same { IsTrue result ↔ (first.now ≡ other.now) }
{
    first == other
}

/// Whether an IPv4 header was received as it was sent.
pub fn is_same_ipv4_header(sent: &Ipv4Header, received: &Ipv4Header) -> bool
    ensures same { IsTrue result ↔ (sent.now ≡ received.now) }
{
    sent == received
}

/// Whether an IPv6 header was received as it was sent.
pub fn is_same_ipv6_header(sent: &Ipv6Header, received: &Ipv6Header) -> bool
    ensures same { IsTrue result ↔ (sent.now ≡ received.now) }
{
    sent == received
}

/// Whether two packets begin with one header, such as those of two copies of a capture: the same
/// bytes are always read as the same header. If the first has none, the error is about that.
pub fn have_same_ipv4_header(first: &[u8], other: &[u8]) -> Result<bool, ipv4::HeaderSliceError>
    ensures same { first.now ≡ other.now → IfOk result IsTrue }
    ensures compared { IfOk result (ComparesIpv4 first.now other.now) }
    ensures refused { IfErr result (RefusesOneIpv4 first.now other.now) }
{
    let (header, _) = Ipv4Header::from_slice(first)?;
    let (again, _) = Ipv4Header::from_slice(other)?;
    Ok(is_same_ipv4_header(&header, &again))
}

/// Whether the IPv4 headers of two packets have the same bytes.
pub fn is_same_ipv4_view(first: &Ipv4HeaderSlice, other: &Ipv4HeaderSlice) -> bool
    ensures same { IsTrue result ↔ (first.now.slice.now ≡ other.now.slice.now) }
{
    first == other
}

/// Whether the IPv6 headers of two packets have the same bytes.
pub fn is_same_ipv6_view(first: &Ipv6HeaderSlice, other: &Ipv6HeaderSlice) -> bool
    ensures same { IsTrue result ↔ (first.now.slice.now ≡ other.now.slice.now) }
{
    first == other
}

/// Whether a fragment comes before another one in the original payload.
pub fn is_earlier(first: &Ipv4Header, other: &Ipv4Header) -> bool
    ensures order { IsTrue result ↔ (first.now.fragment_offset < other.now.fragment_offset) }
{
    first.fragment_offset < other.fragment_offset
}

/// Whether a class is below another, by its number.
pub fn is_lower(first: IpDscp, other: IpDscp) -> bool
    ensures order { IsTrue result ↔ (first < other) }
{
    first < other
}

/// The header that was seen, to be kept.
pub fn kept_ipv4(header: &Ipv4Header) -> Result<Ipv4Header, AllocError>
    ensures equal { result ≡ Ok header.now }
{
    header.clone()
}

/// The header that was seen, to be kept.
pub fn kept_ipv6(header: &Ipv6Header) -> Result<Ipv6Header, AllocError>
    ensures equal { result ≡ Ok header.now }
{
    header.clone()
}

/// The number of bytes of a packet by its IPv4 header, for a counter.
pub fn counted_bytes(view: &Ipv4HeaderSlice) -> u32
    ensures count { OfIpv4Header view.now.slice.now (λ header. result ≡ header.total_len) }
{
    u32::from(view.total_len())
}

/// The reason for a refusal, to be kept.
pub fn kept_error(error: &ipv4::HeaderSliceError) -> Result<ipv4::HeaderSliceError, AllocError>
    ensures equal { result ≡ Ok error.now }
{
    error.clone()
}

/// The reason for a refusal, in words.
pub fn reason(alloc: Global, error: &ipv4::HeaderSliceError) -> Result<String, AllocError>
    ensures text { IfOk result (λ text.
        string_bytes text ≡ ipv4_header_slice_error_text error.now) }
{
    format!(in alloc; "{error}")
}

/// Whether a layer comes before another.
pub fn is_lower_layer(first: Layer, other: Layer) -> bool
    ensures order { IsTrue result ↔ (layer_index first < layer_index other) }
{
    first < other
}
