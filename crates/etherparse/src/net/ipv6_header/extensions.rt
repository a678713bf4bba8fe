//! The walk past IPv6 extension headers.

ghost use Rattle.std.specs.Prelude.{ℕ, ◌≡◌, ◌+◌, ◌*◌, ◌≤◌, ◌↔◌, drop, length};
ghost use Rattle.etherparse_base.specs.declared.err.layer.Layer.TheVariants as layer;
ghost use Rattle.etherparse_fields.specs.ExtensionHeaders.{IsSkippable};
ghost use Rattle.etherparse.specs.ExtensionHeaderChain.{extension_header_len, required_len_of};
ghost use Rattle.etherparse.specs.Reading.{too_short_error};

mod limited_walk;

use super::Ipv6Header;
use crate::err::{Layer, LenError};
use crate::{IpNumber, LenSource};

// How many bytes a unit of an extension header's second byte stands for, by the header's number: 8,
// in an authentication header (51) 4, in a fragment header (44) none. If that byte is 0, each of
// these headers has 8 bytes. All other numbers have `NOT_SKIPPABLE`. No branch tells the numbers
// apart, so the time of a walk hardly depends on which are mixed.
const UNITS: [u8; 256] = [
    8, 1, 1, 1, 1, 1, 1, 1, 1, 1, 1, 1, 1, 1, 1, 1, 1, 1, 1, 1, 1, 1, 1, 1, 1, 1, 1, 1, 1, 1, 1, 1,
    1, 1, 1, 1, 1, 1, 1, 1, 1, 1, 1, 8, 0, 1, 1, 1, 1, 1, 1, 4, 1, 1, 1, 1, 1, 1, 1, 1, 8, 1, 1, 1,
    1, 1, 1, 1, 1, 1, 1, 1, 1, 1, 1, 1, 1, 1, 1, 1, 1, 1, 1, 1, 1, 1, 1, 1, 1, 1, 1, 1, 1, 1, 1, 1,
    1, 1, 1, 1, 1, 1, 1, 1, 1, 1, 1, 1, 1, 1, 1, 1, 1, 1, 1, 1, 1, 1, 1, 1, 1, 1, 1, 1, 1, 1, 1, 1,
    1, 1, 1, 1, 1, 1, 1, 8, 1, 1, 1, 8, 8, 1, 1, 1, 1, 1, 1, 1, 1, 1, 1, 1, 1, 1, 1, 1, 1, 1, 1, 1,
    1, 1, 1, 1, 1, 1, 1, 1, 1, 1, 1, 1, 1, 1, 1, 1, 1, 1, 1, 1, 1, 1, 1, 1, 1, 1, 1, 1, 1, 1, 1, 1,
    1, 1, 1, 1, 1, 1, 1, 1, 1, 1, 1, 1, 1, 1, 1, 1, 1, 1, 1, 1, 1, 1, 1, 1, 1, 1, 1, 1, 1, 1, 1, 1,
    1, 1, 1, 1, 1, 1, 1, 1, 1, 1, 1, 1, 1, 1, 1, 1, 1, 1, 1, 1, 1, 1, 1, 1, 1, 1, 1, 1, 1, 1, 1, 1,
];

const NOT_SKIPPABLE: u8 = 1;

const _: () = prove!(NOT_SKIPPABLE == 1);

impl Ipv6Header {
    ghost use Rattle.std.specs.Prelude.{ℕ, ◌≡◌, ◌+◌, ◌/◌, ◌<◌, ◌≤◌, ◌↔◌, ◌-◌, List, Ok, Err};
    ghost use Rattle.std.specs.Prelude.{IfErr, IfOk, IsFalse, IsOk, IsTrue, drop, length};
    ghost use Rattle.std.specs.Prelude.{slice_index};
    ghost use Rattle.etherparse_base.specs.LenError.{len_error_moved};
    ghost use Rattle.etherparse_fields.specs.ExtensionHeaders.{IsSkippable};
    ghost use Rattle.etherparse.specs.ExtensionHeaderChain.{Ends, FollowsChain};
    ghost use Rattle.etherparse.specs.ExtensionHeaderChain.{IsOnlyWalkOf, IsWalkAfterChains};
    ghost use Rattle.etherparse.specs.ExtensionHeaderChain.{IsWalkOf, incomplete_header_error};
    ghost use Rattle.etherparse.specs.ExtensionHeaderChain.{required_len_of};
    ghost use Rattle.etherparse.specs.Reading.{found_and_rest};

    /// Skips the extension header with this number at the front of a slice, and returns the number
    /// of what follows it and all the bytes after it. If no header with this number can be skipped,
    /// returns the number and the whole slice. A fragment header is skipped whatever its offset:
    /// after one with an offset above 0 comes the middle of a payload.
    ///
    /// # Errors
    ///
    /// A `LenError` at offset 0 if the slice is shorter than the header says. If it has fewer than
    /// 2 bytes, 2 are required.
    ///
    /// # Example
    ///
    /// ```
    /// // Hop-by-hop options of 8 bytes, and the start of a UDP header.
    /// let slice = [17, 0, 0, 0, 0, 0, 0, 0, 4, 0, 0, 53];
    /// let first = IpNumber::IPV6_HEADER_HOP_BY_HOP;
    /// let (next, rest) = Ipv6Header::skip_header_extension_in_slice(&slice, first)?;
    /// assert!(rt; next == IpNumber::UDP);
    /// assert!(rt; rest == [4, 0, 0, 53].as_slice());
    /// ```
    pub fn skip_header_extension_in_slice(
        slice: &[u8],
        next_header: IpNumber,
    ) -> Result<(IpNumber, &[u8]), LenError>
        ensures kept { ¬ IsSkippable next_header →
            found_and_rest result ≡ Ok (next_header, slice.now) }
        ensures accepted { IsSkippable next_header →
            (IsOk result ↔ (required_len_of next_header slice.now ≤ length slice.now)) }
        ensures skipped { IsSkippable next_header →
            required_len_of next_header slice.now ≤ length slice.now →
            found_and_rest result ≡ Ok (
              slice_index slice.now 0,
              drop (required_len_of next_header slice.now) slice.now,
            ) }
        ensures refused { IsSkippable next_header →
            length slice.now < required_len_of next_header slice.now → found_and_rest result
            ≡ Err (incomplete_header_error next_header slice.now 0) }

        // For callers that skip one header after another: a chain before this slice goes on, or the
        // walk of the whole slice ends.
        ensures goes_on { (s : List ℕ) → (first : ℕ) → FollowsChain s first next_header slice.now →
            IfOk result (λ x. FollowsChain s first x.0 x.1.now) }
        ensures ends { (s : List ℕ) → (first : ℕ) → FollowsChain s first next_header slice.now →
            IfErr result (λ e.
            IsWalkOf s first (Err (len_error_moved (length s - length slice.now) e))) }
        ensures walks { IfErr result (λ e. IsWalkOf slice.now next_header (Err e)) }
        ensures at_front { IfErr result (λ e. e.layer_start_offset ≡ 0) }
        ensures shorter { IsSkippable next_header →
            IfOk result (λ x. length x.1.now < length slice.now) }
    {
        if !Ipv6Header::is_skippable_header_extension(next_header) {
            return Ok((next_header, slice));
        }
        let required_len = required_len_at(slice, 0, next_header);
        if slice.len() < required_len {
            return Err(incomplete_header(required_len, slice.len(), 0));
        }
        Ok((IpNumber(slice[0]), &slice[required_len..]))
    }

    /// Whether this is the number of an extension header that can be skipped, since its length and
    /// the number of what follows it can be determined: 0, 43, 44, 51, 60, 135, 139 and 140.
    ///
    /// An encapsulating security payload (50) and headers for experiments (253, 254) cannot.
    pub fn is_skippable_header_extension(ip_protocol_number: IpNumber) -> bool
        ensures value { IsTrue result ↔ IsSkippable ip_protocol_number }

        // The walk of a slice ends where a number that cannot be skipped follows a chain.
        ensures ends { (s : List ℕ) → (first : ℕ) → (rest : List ℕ) →
            FollowsChain s first ip_protocol_number rest →
            IsFalse result → IsWalkOf s first (Ok (ip_protocol_number, rest)) }
    {
        unit_of(ip_protocol_number) != NOT_SKIPPABLE
    }

    /// Skips all extension headers at the front of a slice, the first of which has this number.
    /// Returns the first number that cannot be skipped, and all the bytes after the header that
    /// gave it.
    ///
    /// A fragment header is skipped whatever its offset. In a fragment that is not the first, what
    /// follows is the middle of a payload, not the header of an upper layer.
    ///
    /// # Errors
    ///
    /// A `LenError` if a header is incomplete: the length that it requires, the number of bytes
    /// that are left, and the offset from the front of the slice at which it starts. If fewer than
    /// 2 bytes are left, 2 are required.
    ///
    /// # Example
    ///
    /// ```
    /// // Hop-by-hop options, destination options, and the start of a UDP header.
    /// let slice = [
    ///     60, 0, 0, 0, 0, 0, 0, 0, 17, 0, 0, 0, 0, 0, 0, 0, 4, 0, 0, 53,
    /// ];
    /// let first = IpNumber::IPV6_HEADER_HOP_BY_HOP;
    /// let (upper, rest) = Ipv6Header::skip_all_header_extensions_in_slice(&slice, first)?;
    /// assert!(rt; upper == IpNumber::UDP);
    /// assert!(rt; rest == [4, 0, 0, 53].as_slice());
    /// ```
    pub fn skip_all_header_extensions_in_slice(
        slice: &[u8],
        next_header: IpNumber,
    ) -> Result<(IpNumber, &[u8]), LenError>
        ensures walks { IsOnlyWalkOf slice.now next_header (found_and_rest result) }
        ensures follows { IsWalkAfterChains slice.now next_header (found_and_rest result) }
    {
        Ipv6Header::skip_all_header_extensions_counted(slice, next_header).0
    }

    /// The result of [`Ipv6Header::skip_all_header_extensions_in_slice`], and how many numbers were
    /// tested: one more than the number of skipped headers, and at most `slice.len() / 8 + 1`.
    ///
    /// # Errors
    ///
    /// Those of [`Ipv6Header::skip_all_header_extensions_in_slice`].
    ///
    /// # Example
    ///
    /// ```
    /// // Hop-by-hop options, destination options, and the start of a UDP header.
    /// let slice = [
    ///     60, 0, 0, 0, 0, 0, 0, 0, 17, 0, 0, 0, 0, 0, 0, 0, 4, 0, 0, 53,
    /// ];
    /// let first = IpNumber::IPV6_HEADER_HOP_BY_HOP;
    /// let (walked, turns) = Ipv6Header::skip_all_header_extensions_counted(&slice, first);
    /// // The numbers 0, 60 and 17 were tested.
    /// assert!(rt; walked.is_ok() && turns == 3);
    /// ```
    pub fn skip_all_header_extensions_counted(
        slice: &[u8],
        next_header: IpNumber,
    ) -> (Result<(IpNumber, &[u8]), LenError>, usize)
        ensures walks { IsOnlyWalkOf slice.now next_header (found_and_rest result.0) }
        ensures follows { IsWalkAfterChains slice.now next_header (found_and_rest result.0) }
        ensures turns { (headers : List (List ℕ)) →
            Ends slice.now next_header headers (found_and_rest result.0) →
            result.1 ≡ length headers + 1 }
        ensures few_turns { result.1 ≤ length slice.now / 8 + 1 }
    {
        let mut number = next_header;
        let mut offset = 0;
        let mut turns = 0;
        'headers: loop {
            turns += 1;
            if !Ipv6Header::is_skippable_header_extension(number) {
                return (Ok((number, &slice[offset..])), turns);
            }
            let required_len = required_len_at(slice, offset, number);
            let left = slice.len() - offset;
            if left < required_len {
                return (Err(incomplete_header(required_len, left, offset)), turns);
            }
            number = IpNumber(slice[offset]);
            offset += required_len;
        }
    }
}

// What `UNITS` has for a number.
#[inline(always)]
fn unit_of(number: IpNumber) -> u8
    ensures skippable { result ≡ NOT_SKIPPABLE ↔ ¬ IsSkippable number }
    ensures len { IsSkippable number → (second_byte : ℕ) →
        extension_header_len number second_byte ≡ second_byte * result + 8 }
{
    UNITS[usize::from(number.0)]
}

// How many bytes the header with this number, at an offset of the slice, requires.
#[inline(always)]
fn required_len_at(slice: &[u8], offset: usize, number: IpNumber) -> usize
    requires within { offset ≤ length slice.now }
    requires skippable { IsSkippable number }
    ensures value { result ≡ required_len_of number (drop offset slice.now) }
{
    if slice.len() - offset < 2 {
        return 2;
    }
    usize::from(slice[offset + 1]) * usize::from(unit_of(number)) + 8
}

// The error of a header that starts at an offset where too few bytes are left.
#[cold]
fn incomplete_header(required_len: usize, len: usize, offset: usize) -> LenError
    ensures value { result ≡ record (too_short_error layer.Ipv6ExtHeader required_len len) {
      layer_start_offset = offset;
    } }
{
    LenError {
        required_len,
        len,
        len_source: LenSource::Slice,
        layer: Layer::Ipv6ExtHeader,
        layer_start_offset: offset,
    }
}
