//! The extension headers of IPv6, one after another.

ghost use Rattle.std.specs.Prelude.{ℕ, List, ◌≡◌, ◌+◌, ◌-◌, ◌^◌, ◌<◌, IfErr, IfOk, Err, length};
ghost use Rattle.std.specs.Prelude.{slice_index, ⊤};
ghost use Rattle.etherparse.specs.ExtensionHeaderChain.{FollowsChain, IsWalkOf};
ghost use Rattle.etherparse.specs.ExtensionHeaders.{IsSkippable};
ghost use Rattle.etherparse.specs.LenError.{len_error_moved};
ghost use Rattle.etherparse_net.specs.Ipv6Extensions.{BeginsWithExtension, EndsInExtension};
ghost use Rattle.etherparse_net.specs.Ipv6Extensions.{extension_bytes};

use crate::Ipv6ExtensionSlice;
use crate::ipv6_extension_slice::extension_of;
use etherparse::err::LenError;
use etherparse::{IpNumber, Ipv6Header};
use std::alloc::AllocError;

/// The extension headers at the front of some bytes, one after another (RFC 8200 section 4). They
/// end where the walk of [`Ipv6Header::skip_all_header_extensions_in_slice`] does: before a number
/// that no skippable header has, or at a header that is incomplete.
///
/// A fragment header is passed whatever its offset: after one with an offset above 0 comes the
/// middle of a payload, in which what looks like a header is none.
///
/// The order of the headers is not tested, nor how many there are of a kind. RFC 8200 section 4.1
/// lets them stand in any order, but for hop-by-hop options: these are given at any place too, and
/// are allowed only as the first header, where `offset` was 0.
///
/// # Example
///
/// ```
/// // Hop-by-hop options, a fragment header, and the start of a UDP header.
/// let body = [
///     44, 0, 1, 4, 0, 0, 0, 0, 17, 0, 0, 1, 0, 0, 0, 7, 4, 0, 0, 53,
/// ];
/// let mut headers = Ipv6ExtensionSliceIter::new(IpNumber::IPV6_HEADER_HOP_BY_HOP, &body);
/// let Some(Ok(Ipv6ExtensionSlice::HopByHop(options))) = headers.next() else {
///     return Err(Fail::from("no options"));
/// };
/// let Some(Ok(Ipv6ExtensionSlice::Fragment(fragment))) = headers.next() else {
///     return Err(Fail::from("no fragment header"));
/// };
/// assert!(rt; options.slice().len() == 8 && fragment.identification() == 7);
/// assert!(rt; headers.next().is_none() && headers.next_header == IpNumber::UDP);
/// assert!(rt; headers.rest == [4, 0, 0, 53].as_slice());
/// ```
#[derive(Debug, PartialEq, Eq, Drop)]
pub struct Ipv6ExtensionSliceIter<'a> {
    /// The number of what comes next. After an error 59, no next header.
    pub next_header: IpNumber,
    /// The bytes that are left, from what comes next on. After an error, none.
    pub rest: &'a [u8],
    /// Where they begin, in bytes from the first header on. After an error, where the incomplete
    /// header begins.
    pub offset: usize,
    // What every iterator keeps.
    pub ghost place: { offset + length rest.now < 2 ^ 64 },
}

impl<'a> Ipv6ExtensionSliceIter<'a> {
    ghost use Rattle.std.specs.Prelude.{ℕ, List, ◌≡◌, ◌+◌, ◌<◌, IfErr, IfNone, IfOk, IfSome};
    ghost use Rattle.std.specs.Prelude.{[], Ok, Err, length, slice_index};
    ghost use Rattle.etherparse.specs.ExtensionHeaderChain.{FollowsChain, IsWalkOf};
    ghost use Rattle.etherparse.specs.ExtensionHeaders.{IsSkippable};
    ghost use Rattle.etherparse_net.specs.Ipv6Extensions.{BeginsWithExtension, EndsInExtension};
    ghost use Rattle.etherparse_net.specs.Ipv6Extensions.{extension_bytes};

    /// The extension headers at the front of a slice: what an IPv6 header has after it. `first` is
    /// the number of the first, the next header of that header.
    pub fn new(first: IpNumber, slice: &'a [u8]) -> Ipv6ExtensionSliceIter<'a>
        ensures first { result.next_header ≡ first }
        ensures slice { result.rest.now ≡ slice.now }
        ensures at_front { result.offset ≡ 0 }
    {
        Ipv6ExtensionSliceIter {
            next_header: first,
            rest: slice,
            offset: 0,
        }
    }

    /// The next header, or `None` after the last: `next_header` and `rest` are then those of what
    /// follows the headers.
    ///
    /// # Errors
    ///
    /// A `LenError` if the next header is incomplete. Its offset counts from the first header on.
    /// What comes after that is `None`.
    pub fn next_slice(&mut self) -> Option<Result<Ipv6ExtensionSlice<'a>, LenError>>
        ensures header { IfSome result (λ found. IfOk found (λ view.
            BeginsWithExtension self.old.next_header self.old.rest.now view self.new.rest.now
            × (self.new.next_header ≡ slice_index (extension_bytes view) 0)
            × (self.new.offset ≡ self.old.offset + length (extension_bytes view)))) }
        ensures incomplete { IfSome result (λ found. IfErr found (λ e.
            EndsInExtension self.old.next_header self.old.rest.now self.old.offset e
            × (self.new.next_header ≡ 59) × (self.new.rest.now ≡ [])
            × (self.new.offset ≡ self.old.offset))) }
        ensures end { IfNone result (¬ IsSkippable self.old.next_header
            × (self.new.next_header ≡ self.old.next_header)
            × (self.new.rest.now ≡ self.old.rest.now)
            × (self.new.offset ≡ self.old.offset)) }
        ensures shorter { IfSome result (λ found.
            IfOk found (λ _. length self.new.rest.now < length self.old.rest.now)) }

        // After a chain from the front on, the chain goes on, or the walk of all bytes ends.
        ensures goes_on { (s : List ℕ) → (first : ℕ) →
            FollowsChain s first self.old.next_header self.old.rest.now →
            IfSome result (λ found. IfOk found (λ view.
            FollowsChain s first self.new.next_header self.new.rest.now)) }
        ensures ends { (s : List ℕ) → (first : ℕ) →
            FollowsChain s first self.old.next_header self.old.rest.now →
            IfNone result (IsWalkOf s first (Ok (self.old.next_header, self.old.rest.now))) }
        ensures ends_incomplete { (s : List ℕ) → (first : ℕ) →
            FollowsChain s first self.old.next_header self.old.rest.now →
            self.old.offset + length self.old.rest.now ≡ length s →
            IfSome result (λ found. IfErr found (λ e. IsWalkOf s first (Err e))) }
    {
        if !Ipv6Header::is_skippable_header_extension(self.next_header) {
            return None;
        }
        match first_extension(self.next_header, self.rest) {
            Ok(first) => {
                self.offset += self.rest.len() - first.rest.len();
                self.next_header = first.next_header;
                self.rest = first.rest;
                Some(Ok(first.view))
            }
            Err(e) => {
                self.next_header = IpNumber::IPV6_NO_NEXT_HEADER;
                self.rest = &self.rest[..0];
                Some(Err(e.add_offset(self.offset)))
            }
        }
    }
}

/// A clone goes on from the same place.
impl<'a> Clone for Ipv6ExtensionSliceIter<'a> {
    ghost is_clone = { λ left copy. (copy.next_header ≡ left.next_header)
        × (copy.rest.now ≡ left.rest.now) × (copy.offset ≡ left.offset) };

    ghost is_infallible = { λ _. ⊤ };

    fn clone(&self) -> Result<Ipv6ExtensionSliceIter<'a>, AllocError> {
        Ok(Ipv6ExtensionSliceIter {
            next_header: self.next_header,
            rest: self.rest,
            offset: self.offset,
        })
    }
}

/// The headers, as [`Ipv6ExtensionSliceIter::next_slice`] gives them.
impl<'a> Iterator for Ipv6ExtensionSliceIter<'a> {
    type Item = Result<Ipv6ExtensionSlice<'a>, LenError>;

    ghost use Rattle.std.specs.Prelude.{◌==◌, ◌+◌, if◌then◌else◌, length};
    ghost use Rattle.std.specs.Iterator.{at_most};
    ghost use Rattle.etherparse_net.specs.Ipv6Extensions.{GivesExtension};

    ghost next_gives = { λ before found after. GivesExtension
        before.next_header before.rest.now before.offset found
        after.next_header after.rest.now after.offset };

    ghost remaining = { λ left. at_most
        (length left.rest.now + (if left.next_header == 59 then 0 else 1)) };

    fn next(&mut self) -> Option<Result<Ipv6ExtensionSlice<'a>, LenError>> {
        self.next_slice()
    }
}

// The header at the front of a slice, and what follows it.
#[derive(Drop)]
struct FirstExtension<'a> {
    view: Ipv6ExtensionSlice<'a>,
    next_header: IpNumber,
    rest: &'a [u8],
}

// The header of a number at the front of a slice.
fn first_extension(number: IpNumber, slice: &[u8]) -> Result<FirstExtension, LenError>
    requires { IsSkippable number }
    ensures header { IfOk result (λ x. BeginsWithExtension number slice.now x.view x.rest.now) }
    ensures named { IfOk result (λ x. x.next_header ≡ slice_index (extension_bytes x.view) 0) }
    ensures shorter { IfOk result (λ x. length x.rest.now < length slice.now) }
    ensures goes_on { (s : List ℕ) → (first : ℕ) → FollowsChain s first number slice.now →
        IfOk result (λ x. FollowsChain s first x.next_header x.rest.now) }
    ensures incomplete { IfErr result (λ e. EndsInExtension number slice.now 0 e) }
    ensures ends { (s : List ℕ) → (first : ℕ) → FollowsChain s first number slice.now →
        IfErr result (λ e.
        IsWalkOf s first (Err (len_error_moved (length s - length slice.now) e))) }
{
    let (next_header, rest) = match Ipv6Header::skip_header_extension_in_slice(slice, number) {
        Ok(skipped) => skipped,
        Err(e) => return Err(e),
    };
    let header = &slice[..slice.len() - rest.len()];
    Ok(FirstExtension {
        view: extension_of(number, header),
        next_header,
        rest,
    })
}
