//! The packet that fragments were cut from (RFC 791 section 3.2, RFC 8200 section 4.5).

ghost use Rattle.std.specs.Prelude.{ℕ, ◌≡◌, ◌+◌, ◌++◌, ◌≤◌, ◌↔◌, IfErr, IfOk, IsOk, OnErr};
ghost use Rattle.std.specs.Prelude.{drop, length, take};
ghost use Rattle.etherparse.specs.Ipv4Header.{ipv4_max_payload_len};
ghost use Rattle.etherparse.specs.declared.err.ValueType.TheVariants as ValueType;
ghost use Rattle.packet_reassembly.specs.Packet.{AreUnfragmentable, IsIpv4Packet, IsIpv6Packet};

use etherparse::err::ValueTooBigError;
use etherparse::{IpFragOffset, IpNumber, Ipv4Header, Ipv6Header};

/// Writes an IPv4 packet that fragments were cut from: the header of the fragment at offset 0, with
/// the total length of both, no offset, no more fragments and the checksum of that (RFC 791 section
/// 3.2); and the payload. Its options are those of that fragment. `out` has to have at least 65535
/// bytes. Returns the length of the packet in bytes.
///
/// # Errors
///
/// A `ValueTooBigError` if header and payload are longer than 65535 bytes. Nothing is written.
///
/// # Example
///
/// ```
/// let mut first = Ipv4Header::new(8, 64, IpNumber::UDP, [192, 168, 0, 1], [192, 168, 0, 199])?;
/// (first.dont_fragment, first.more_fragments) = (false, true);
/// let mut out = [0; 65535];
/// let len = write_ipv4_packet(first, b"thirteenbytes", &mut out)?;
/// let packet = [
///     0x45, 0, 0, 33, 0, 0, 0, 0, 64, 17, 0xf8, 0xb3, 192, 168, 0, 1, 192, 168, 0, 199, b't',
///     b'h', b'i', b'r', b't', b'e', b'e', b'n', b'b', b'y', b't', b'e', b's',
/// ];
/// assert!(rt; &out[..len] == packet.as_slice());
/// ```
pub fn write_ipv4_packet(
    first: Ipv4Header,
    payload: &[u8],
    out: &mut [u8],
) -> Result<usize, ValueTooBigError<usize>>
    requires room { 65535 ≤ length out.old }
    ensures accepted { IsOk result ↔ (length payload.now ≤ ipv4_max_payload_len first) }
    ensures packet { IfOk result (λ len. IsIpv4Packet first payload.now (take len out.new)) }
    ensures within { IfOk result (λ len. len ≤ length out.new) }
    ensures after { IfOk result (λ len. drop len out.new ≡ drop len out.old) }
    ensures refused { IfErr result (λ e. e ≡ record {
      actual = length payload.now;
      max_allowed = ipv4_max_payload_len first;
      value_type = ValueType.Ipv4PayloadLength;
    }) }
    ensures unchanged { OnErr result (out.new ≡ out.old) }
{
    let mut header = first;
    header.set_payload_len(payload.len())?;
    header.more_fragments = false;
    header.fragment_offset = IpFragOffset::ZERO;
    header.header_checksum = header.calc_header_checksum();
    Ok(join(header.to_bytes().as_slice(), payload, out))
}

/// Writes an IPv6 packet that fragments were cut from: the IPv6 header of the fragment at offset 0
/// with the payload length of all after it; its extension headers before the fragment header, those
/// before the last and the last; and the payload. `next_header` goes into the header before the
/// fragment header: the last extension header, or the IPv6 header if there is none (RFC 8200
/// section 4.5). Returns the length of the packet in bytes.
///
/// `before` and `last` have to be a chain of extension headers of which `first` names the first, of
/// at most 65535 bytes together; `out` has to have at least 65575 bytes.
///
/// # Errors
///
/// A `ValueTooBigError` if extension headers and payload are longer than 65535 bytes. Nothing is
/// written.
///
/// # Example
///
/// ```
/// let mut first = Ipv6Header::default();
/// first.next_header = IpNumber::IPV6_HEADER_HOP_BY_HOP;
/// // Hop-by-hop options, which name the fragment header.
/// let last = [44, 0, 1, 4, 0, 0, 0, 0];
/// let mut out = [0; 65575];
/// let len = write_ipv6_packet(first, &[], &last, IpNumber::UDP, b"thirteenbytes", &mut out)?;
/// assert!(rt; len == 61 && out[4..7] == [0, 21, 0]);
/// assert!(rt; out[40..48] == [17, 0, 1, 4, 0, 0, 0, 0]);
/// assert!(rt; &out[48..len] == b"thirteenbytes".as_slice());
/// ```
pub fn write_ipv6_packet(
    first: Ipv6Header,
    before: &[u8],
    last: &[u8],
    next_header: IpNumber,
    payload: &[u8],
    out: &mut [u8],
) -> Result<usize, ValueTooBigError<usize>>
    requires room { 65575 ≤ length out.old }
    requires headers { AreUnfragmentable first.next_header before.now last.now }
    requires within { length before.now + length last.now ≤ 65535 }
    ensures accepted { IsOk result
        ↔ (length before.now + length last.now + length payload.now ≤ 65535) }
    ensures packet { IfOk result (λ len. IsIpv6Packet first before.now last.now next_header
        payload.now (take len out.new)) }
    ensures within { IfOk result (λ len. len ≤ length out.new) }
    ensures after { IfOk result (λ len. drop len out.new ≡ drop len out.old) }
    ensures refused { IfErr result (λ e. e ≡ record {
      actual = length before.now + length last.now + length payload.now;
      max_allowed = 65535;
      value_type = ValueType.Ipv6PayloadLength;
    }) }
    ensures unchanged { OnErr result (out.new ≡ out.old) }
{
    let mut header = first;
    header.set_payload_length(before.len() + last.len() + payload.len())?;
    if last.is_empty() {
        header.next_header = next_header;
        return Ok(join(&header.to_bytes(), payload, out));
    }
    let at = put(&header.to_bytes(), out, 0);
    let at = put(before, out, at);
    let at = put(&[next_header.0], out, at);
    let at = put(&last[1..], out, at);
    Ok(put(payload, out, at))
}

/// Writes a part after the others. Returns the place after it.
pub(crate) fn put(part: &[u8], out: &mut [u8], at: usize) -> usize
    requires room { at + length part.now ≤ length out.old }
    ensures joined { take result out.new ≡ take at out.old ++ part.now }
    ensures after { (n : ℕ) → result ≤ n → drop n out.new ≡ drop n out.old }
    ensures end { result ≡ at + length part.now }
    ensures same_len { length out.new ≡ length out.old }
{
    let end = at + part.len();
    out[at..end].copy_from_slice(part);
    end
}

// Writes one part after the other. Returns the length of both.
fn join(front: &[u8], rest: &[u8], out: &mut [u8]) -> usize
    requires room { length front.now + length rest.now ≤ length out.old }
    ensures joined { take result out.new ≡ front.now ++ rest.now }
    ensures after { drop result out.new ≡ drop result out.old }
    ensures len { result ≡ length front.now + length rest.now }
    ensures same_len { length out.new ≡ length out.old }
{
    let at = put(front, out, 0);
    put(rest, out, at)
}
