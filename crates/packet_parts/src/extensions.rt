//! The extension headers of IPv6 in one pass (RFC 8200 sections 4 and 4.5).

ghost use Rattle.std.specs.Prelude.{ℕ, ◌≡◌, ◌<◌, ◌≤◌, List, IfErr, IfOk, IfSome, IsFalse, IsTrue};
ghost use Rattle.std.specs.Prelude.{Option, length};
ghost use Rattle.etherparse.specs.ExtensionHeaderChain.{FollowsChain, incomplete_header_error};
ghost use Rattle.etherparse.specs.ExtensionHeaderChain.{required_len_of};
ghost use Rattle.etherparse.specs.ExtensionHeaders.{IsSkippable};
ghost use Rattle.packet_parts.specs.Extensions.{EndsAs, EndsAtLaterFragment, Passes};
ghost use Rattle.packet_parts.specs.Extensions.{deciding};
ghost use Rattle.etherparse_net.specs.declared.ipv6_fragment_header.Ipv6FragmentHeader.{Ipv6FragmentHeader as Header};
ghost use Rattle.std.specs.Option.{option_or};

use etherparse::err::LenError;
use etherparse::{IpNumber, Ipv6Header};
use etherparse_net::Ipv6FragmentHeader;

/// What comes after whole extension headers.
#[derive(Debug, Drop)]
pub struct AfterExtensions<'a> {
    /// The number of the payload, or of the extension header that is incomplete.
    pub number: IpNumber,
    /// The payload, or what there is of that header.
    pub rest: &'a [u8],
    /// The fragment header that decides whether the payload is a fragment: the first that is not
    /// atomic (RFC 8200 section 4.5, RFC 6946).
    pub fragment: Option<Ipv6FragmentHeader>,
    /// That the payload is of a fragment that is not the first: the middle of a payload, which
    /// begins with no header.
    pub is_later: bool,
    /// That the header is incomplete. `layer_start_offset` is its place from the front of the
    /// slice.
    pub incomplete: Option<LenError>,
}

/// What comes after the whole extension headers at the front of a slice, of which the first has
/// this number: the payload, or an extension header that is incomplete.
///
/// Nothing after a fragment header whose offset is not 0 counts as a header.
///
/// # Example
///
/// ```
/// // The fragment header of a fragment that is not the first, and the middle of a payload.
/// let body = [17, 0, 0, 9, 1, 2, 3, 4, 5, 6, 7, 8];
/// let after = after_extensions(&body, IpNumber::IPV6_FRAGMENTATION_HEADER);
/// assert!(rt; after.number == IpNumber::UDP && after.is_later);
/// assert!(rt; after.rest == [5, 6, 7, 8].as_slice());
/// ```
#[tactic(auto, using(crate::specs::Extensions::at_front))]
pub fn after_extensions(body: &[u8], first: IpNumber) -> AfterExtensions
    ensures chain { FollowsChain body.now first result.number result.rest.now }
    ensures ends { EndsAs result.is_later result.incomplete body.now first result.fragment result.number result.rest.now }
    ensures within { IfSome result.incomplete (λ e. e.layer_start_offset ≤ length body.now) }
{
    let mut rest = body;
    let mut number = first;
    let mut fragment = None;
    'headers: loop {
        if !Ipv6Header::is_skippable_header_extension(number) {
            return AfterExtensions {
                number,
                rest,
                fragment,
                is_later: false,
                incomplete: None,
            };
        }
        match passed(rest, number) {
            Ok(next) => {
                number = next.number;
                rest = next.rest;
                fragment = fragment.or(next.fragment);
                if next.is_later {
                    return AfterExtensions {
                        number,
                        rest,
                        fragment,
                        is_later: true,
                        incomplete: None,
                    };
                }
            }
            Err(e) => {
                let incomplete = Some(e.add_offset(body.len() - rest.len()));
                return AfterExtensions {
                    number,
                    rest,
                    fragment,
                    is_later: false,
                    incomplete,
                };
            }
        }
    }
}

// What comes after one more extension header.
#[derive(Drop)]
struct Step<'a> {
    number: IpNumber,
    rest: &'a [u8],
    // The header, if it is a fragment header that is not atomic.
    fragment: Option<Ipv6FragmentHeader>,
    // That the header is the fragment header of a fragment that is not the first.
    is_later: bool,
}

// What comes after the extension header at the front of a slice.
#[tactic(auto, using(crate::specs::Extensions::after_other, crate::specs::Extensions::after_fragment))]
fn passed(slice: &[u8], number: IpNumber) -> Result<Step, LenError>
    requires skippable { IsSkippable number }
    ensures chain { (s : List ℕ) → (first : ℕ) → FollowsChain s first number slice.now →
        IfOk result (λ x. FollowsChain s first x.number x.rest.now) }
    ensures goes_on { (s : List ℕ) → (first : ℕ) → (decided : Option Header) →
        Passes s first decided number slice.now → IfOk result (λ x. IsFalse x.is_later →
        Passes s first (option_or decided x.fragment) x.number x.rest.now) }
    ensures ends { (s : List ℕ) → (first : ℕ) → (decided : Option Header) →
        Passes s first decided number slice.now → IfOk result (λ x. IsTrue x.is_later →
        EndsAtLaterFragment s first (option_or decided x.fragment) x.number x.rest.now) }
    ensures short { IfErr result (λ e. length slice.now < required_len_of number slice.now) }
    ensures error { IfErr result (λ e. e ≡ incomplete_header_error number slice.now 0) }
    ensures shorter { IfOk result (λ x. length x.rest.now < length slice.now) }
{
    let (next, rest) = match Ipv6Header::skip_header_extension_in_slice(slice, number) {
        Ok(skipped) => skipped,
        Err(e) => return Err(e),
    };
    if number != IpNumber::IPV6_FRAGMENTATION_HEADER {
        return Ok(Step {
            number: next,
            rest,
            fragment: None,
            is_later: false,
        });
    }
    let header = match Ipv6FragmentHeader::from_slice(slice) {
        Ok((header, _)) => header,
        Err(_) => unreachable!(), // The header is whole.
    };
    let is_later = header.fragment_offset.value() != 0;
    Ok(Step {
        number: next,
        rest,
        fragment: deciding(header),
        is_later,
    })
}

// A fragment header, if it decides.
fn deciding(header: Ipv6FragmentHeader) -> Option<Ipv6FragmentHeader>
    ensures value { result ≡ deciding header }
{
    if header.is_fragmenting_payload() {
        Some(header)
    } else {
        None
    }
}
