//! An IPv6 packet that is a fragment, in its parts (RFC 8200 section 4.5).

ghost use Rattle.std.specs.Prelude.{ℕ, ◌≡◌, ◌≤◌, ◌+◌, IfErr, IfNone, IfOk, IfSome, length};
ghost use Rattle.std.specs.Prelude.{List, None, IsTrue, drop, slice_index};
ghost use Rattle.etherparse.specs.ExtensionHeaderChain.{required_len_of};
ghost use Rattle.etherparse.specs.ExtensionHeaders.{IsSkippable};
ghost use Rattle.etherparse.specs.Reading.{BeginsWith};
ghost use Rattle.packet_parts.specs.Extensions.{Passes};
ghost use Rattle.etherparse_net.specs.Ipv6FragmentHeader.{IsFragmentLayout, is_part};
ghost use Rattle.packet_reassembly.specs.Ipv6Fragment.{AreFragmentParts, EndsBefore, HasNoFragment};

use etherparse::err::LenError;
use etherparse::{IpNumber, Ipv6Header};
use etherparse_net::Ipv6FragmentHeader;

/// What follows the IPv6 header of a fragment.
#[derive(Debug, Drop)]
pub struct Ipv6FragmentParts<'a> {
    /// The extension headers before the last of those before the fragment header.
    pub before: &'a [u8],
    /// That last one, which names the fragment header; empty if the IPv6 header names it.
    pub last: &'a [u8],
    /// The fragment header.
    pub fragment: Ipv6FragmentHeader,
    /// The bytes of the fragment.
    pub payload: &'a [u8],
}

/// The parts of what follows an IPv6 header that names this number; `None` if the packet is no
/// fragment. The fragment header is the first that is not atomic, with an offset or more fragments:
/// an atomic one counts as an extension header (RFC 6946).
///
/// # Errors
///
/// A `LenError` if an extension header before that one is incomplete, with its place in `body`.
#[tactic(auto, using(crate::proofs::Walked::walked_none))]
pub fn ipv6_fragment_parts(
    body: &[u8],
    first: IpNumber,
) -> Result<Option<Ipv6FragmentParts>, LenError>
    ensures found { IfOk result (λ found. IfSome found (AreFragmentParts body.now first)) }
    ensures none { IfOk result (λ found. IfNone found (HasNoFragment body.now first)) }
    ensures refused { IfErr result (EndsBefore body.now first) }
    ensures within { IfErr result (λ e. e.layer_start_offset ≤ length body.now) }
{
    let mut number = first;
    let mut rest = body;
    let mut last = 0;
    let mut at = 0;
    'headers: loop {
        if !Ipv6Header::is_skippable_header_extension(number) {
            return Ok(None);
        }
        let (next, after) = match Ipv6Header::skip_header_extension_in_slice(rest, number) {
            Ok(skipped) => skipped,
            Err(e) => return Err(e.add_offset(at)),
        };
        if let Some((fragment, payload)) = deciding(rest, number) {
            return Ok(Some(Ipv6FragmentParts {
                before: &body[..last],
                last: &body[last..at],
                fragment,
                payload,
            }));
        }
        number = next;
        last = at;
        at = body.len() - after.len();
        rest = after;
    }
}

// The fragment header at the front of a slice and the bytes after it, if it is one that is not
// atomic.
fn deciding(slice: &[u8], number: IpNumber) -> Option<(Ipv6FragmentHeader, &[u8])>
    requires skippable { IsSkippable number }
    requires enough { required_len_of number slice.now ≤ length slice.now }
    ensures found { IfSome result (λ x. (number ≡ 44)
        × BeginsWith IsFragmentLayout slice.now x.0 x.1.now × IsTrue (is_part x.0)) }
    ensures none { IfNone result ((body : List ℕ) → (first : ℕ) →
        Passes body first None number slice.now → Passes body first None
        (slice_index slice.now 0) (drop (required_len_of number slice.now) slice.now)) }
{
    if number != IpNumber::IPV6_FRAGMENTATION_HEADER {
        return None;
    }
    match Ipv6FragmentHeader::from_slice(slice) {
        Ok((header, rest)) if header.is_fragmenting_payload() => Some((header, rest)),
        Ok(_) => None,
        Err(_) => unreachable!(), // The header is whole.
    }
}
