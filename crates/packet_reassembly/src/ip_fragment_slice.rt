//! A packet of either version that is a fragment.

ghost use Rattle.std.specs.Prelude.{ℕ, ◌≡◌, ◌≢◌, ◌≤◌, ◌+◌, List, IfErr, IfNone, IfOk, IfSome};
ghost use Rattle.std.specs.Prelude.{Option, Result, length};
ghost use Rattle.etherparse.specs.FirstByte.{version_of};
ghost use Rattle.etherparse.specs.Ipv4Header.{IsIpv4Layout};
ghost use Rattle.etherparse.specs.Ipv6Header.{IsIpv6Layout};
ghost use Rattle.etherparse.specs.Reading.{BeginsWith};
ghost use Rattle.etherparse.specs.declared.net.ipv4_header.Ipv4Header.{Ipv4Header as Header4};
ghost use Rattle.etherparse.specs.declared.net.ipv6_header.Ipv6Header.{Ipv6Header as Header6};
ghost use Rattle.packet_parts.specs.declared.ip_slice.IpSliceError.{IpSliceError as Refused};
ghost use Rattle.packet_parts.specs.IpSlice.{HasIpParts, ipv4_bytes, ipv6_trimmed, packet_len_of};
ghost use Rattle.packet_reassembly.specs.IpFragment.{HasIpFragment, IsNoFragment};
ghost use Rattle.packet_reassembly.specs.IpFragment.{ReadsIpFragment, RefusesIpFragment};
ghost use Rattle.packet_reassembly.specs.IpFragment.{ip_fragment_answer};
ghost use Rattle.packet_reassembly.specs.declared.ip_fragment_slice.IpFragmentSlice.{IpFragmentSlice as Found};

use crate::ip_frag_id::IpFragVersionSpecId;
use crate::ipv6_fragment::ipv6_fragment_parts;
use etherparse::err::LenError;
use etherparse::{
    IpEcn, IpFragOffset, IpNumber, Ipv4HeaderSlice, Ipv6Header, Ipv6HeaderSlice, LenSource,
};
use packet_parts::ip_slice::{IpHeaderSlice, IpSlice, IpSliceError, LaxIpSlice};

/// A packet that is a fragment: which packet it is of, where it stands in that, and its bytes.
#[derive(Debug, Drop)]
pub struct IpFragmentSlice<'a> {
    /// Equal for all fragments of one packet.
    pub ip: IpFragVersionSpecId,
    /// The place of its first byte, in units of 8 bytes.
    pub offset: IpFragOffset,
    /// Whether more fragments follow it.
    pub more_fragments: bool,
    /// The number of what was fragmented, as this fragment has it: the protocol of IPv4; of IPv6 the
    /// next header in its fragment header, which counts in the fragment at offset 0 alone.
    pub next_header: IpNumber,
    /// The ECN codepoint of its IP header (RFC 3168 section 5).
    pub ecn: IpEcn,
    /// The bytes of the packet before these: the IPv4 header with its options; or the IPv6 header,
    /// its extension headers before the fragment header, and that one.
    pub headers: &'a [u8],
    /// Of IPv6 the place in `headers` of the last extension header before the fragment header, or of
    /// the fragment header if there is none. Of IPv4 their length.
    pub last_extension: usize,
    /// Its bytes.
    pub payload: &'a [u8],
}

/// The fragment that a packet is; `None` if it is no fragment. Nor is one with atomic fragment
/// headers alone, which is never put together with others (RFC 6946).
///
/// A fragment of IPv6 can end within an extension header after its fragment header:
/// [`has_whole_chain`](crate::header_chain::has_whole_chain) tells.
///
/// # Errors
///
/// Those of [`IpSlice::from_slice`], but `Extensions` only if no fragment header that is not atomic
/// stands before the extension header that is incomplete.
///
/// # Example
///
/// ```
/// // A fragment that is not the first, and not the last.
/// let mut packet = [
///     0x45, 0, 0, 28, 0x12, 0x34, 0x20, 1, 64, 17, 0, 0, 192, 168, 0, 1, 192, 168, 0, 199, 1,
///     2, 3, 4, 5, 6, 7, 8,
/// ];
/// assert!(rt; ip_fragment(&packet)?.is_some());
/// if let Some(fragment) = ip_fragment(&packet)? {
///     assert!(rt; fragment.offset.value() == 1 && fragment.more_fragments);
///     assert!(rt; fragment.payload == [1, 2, 3, 4, 5, 6, 7, 8].as_slice());
///     assert!(rt; fragment.headers == &packet[..20]);
/// }
/// // A whole packet.
/// [packet[6], packet[7]] = [0, 0];
/// assert!(rt; ip_fragment(&packet)?.is_none());
/// ```
pub fn ip_fragment(packet: &[u8]) -> Result<Option<IpFragmentSlice>, IpSliceError>
    ensures found { IfOk result (λ found. IfSome found (HasIpFragment packet.now)) }
    ensures none { IfOk result (λ found. IfNone found (IsNoFragment packet.now)) }
    ensures refused { IfErr result (RefusesIpFragment packet.now) }
    ensures only { (other : Result (Option Found) Refused) →
        ReadsIpFragment packet.now other → ip_fragment_answer other ≡ ip_fragment_answer result }
{
    let slice = match all_there(packet) {
        Ok(slice) => slice,
        Err(e) => return Err(e),
    };
    match slice.header {
        IpHeaderSlice::Ipv4(view) => Ok(ipv4_fragment(view, slice.payload)),
        // As far as its payload length says, taken as it stands: a jumbogram is no fragment.
        IpHeaderSlice::Ipv6(view) => {
            let len = Ipv6Header::LEN + usize::from(view.payload_length());
            ipv6_fragment(view, &packet[..len], &packet[Ipv6Header::LEN..len])
        }
    }
}

// The parts of a packet that has the bytes that its length field says, which can end within an
// extension header. Of an IPv6 packet whose payload length says nothing they are of all bytes.
fn all_there(packet: &[u8]) -> Result<IpSlice, IpSliceError>
    ensures parts { IfOk result (HasIpParts packet.now) }
    ensures untold_is_ipv6 { IfOk result (λ slice. packet_len_of slice.header ≡ 0 →
        version_of packet.now ≡ 6) }
    ensures enough { IfOk result (λ slice. packet_len_of slice.header ≤ length packet.now) }
    ensures refused { IfErr result (RefusesIpFragment packet.now) }
{
    let LaxIpSlice { slice, stop } = match LaxIpSlice::from_slice(packet) {
        Ok(lax) => lax,
        Err(e) => return Err(e),
    };
    match stop {
        None => Ok(slice),
        Some(e) => match e {
            IpSliceError::Extensions(_) => Ok(slice),
            other => Err(other),
        },
    }
}

// The fragment with this header and these bytes.
fn ipv4_fragment<'a>(view: Ipv4HeaderSlice<'a>, payload: &'a [u8]) -> Option<IpFragmentSlice<'a>>
    ensures found { (packet : List ℕ) → (header : Header4) →
        header.total_len ≢ 0 → header.total_len ≤ length packet →
        (begins : BeginsWith IsIpv4Layout (ipv4_bytes header packet) header payload.now) →
        begins.front ≡ view.entry.slice.now → IfSome result (HasIpFragment packet) }
    ensures none { (packet : List ℕ) → (header : Header4) →
        header.total_len ≢ 0 → header.total_len ≤ length packet →
        (begins : BeginsWith IsIpv4Layout (ipv4_bytes header packet) header payload.now) →
        begins.front ≡ view.entry.slice.now → IfNone result (IsNoFragment packet) }
{
    if !view.is_fragmenting_payload() {
        return None;
    }
    let headers = view.slice();
    Some(IpFragmentSlice {
        ip: IpFragVersionSpecId::Ipv4 {
            source: view.source(),
            destination: view.destination(),
            protocol: view.protocol().0,
            identification: view.identification(),
        },
        offset: view.fragments_offset(),
        more_fragments: view.more_fragments(),
        next_header: view.protocol(),
        ecn: view.ecn(),
        headers,
        last_extension: headers.len(),
        payload,
    })
}

// The fragment with this header and what follows it, of the packet that is both.
fn ipv6_fragment<'a>(
    view: Ipv6HeaderSlice<'a>,
    whole: &'a [u8],
    body: &'a [u8],
) -> Result<Option<IpFragmentSlice<'a>>, IpSliceError>
    requires within { length body.now ≤ 65535 }
    requires whole { length body.now ≤ length whole.now }
    ensures found { (packet : List ℕ) → (header : Header6) →
        40 + header.payload_length ≤ length packet →
        (begins : BeginsWith IsIpv6Layout (ipv6_trimmed header packet) header body.now) →
        begins.front ≡ view.entry.slice.now → ipv6_trimmed header packet ≡ whole.now →
        IfOk result (λ found. IfSome found (HasIpFragment packet)) }
    ensures none { (packet : List ℕ) → (header : Header6) →
        40 + header.payload_length ≤ length packet →
        (begins : BeginsWith IsIpv6Layout (ipv6_trimmed header packet) header body.now) →
        begins.front ≡ view.entry.slice.now →
        IfOk result (λ found. IfNone found (IsNoFragment packet)) }
    ensures refused { (packet : List ℕ) → (header : Header6) →
        40 + header.payload_length ≤ length packet →
        (begins : BeginsWith IsIpv6Layout (ipv6_trimmed header packet) header body.now) →
        begins.front ≡ view.entry.slice.now → IfErr result (RefusesIpFragment packet) }
{
    let parts = match ipv6_fragment_parts(body, view.next_header()) {
        Ok(Some(parts)) => parts,
        Ok(None) => return Ok(None),
        Err(e) => {
            return Err(IpSliceError::Extensions(LenError {
                len_source: LenSource::Ipv6HeaderPayloadLen,
                ..e.add_offset(Ipv6Header::LEN)
            }));
        }
    };
    Ok(Some(IpFragmentSlice {
        ip: IpFragVersionSpecId::Ipv6 {
            source: view.source(),
            destination: view.destination(),
            identification: parts.fragment.identification,
        },
        offset: parts.fragment.fragment_offset,
        more_fragments: parts.fragment.more_fragments,
        next_header: parts.fragment.next_header,
        ecn: view.ecn(),
        headers: &whole[..whole.len() - parts.payload.len()],
        last_extension: Ipv6Header::LEN + parts.before.len(),
        payload: parts.payload,
    }))
}
