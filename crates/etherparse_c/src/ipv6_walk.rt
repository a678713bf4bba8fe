//! The walk past IPv6 extension headers (RFC 8200 section 4).

ghost use Rattle.std.specs.Prelude.{◌≡◌, ◌≤◌, Ok, Err, drop, length, nat_le, slice_index};
ghost use Rattle.std.specs.Prelude.{if◌then◌else◌};
ghost use Rattle.etherparse.specs.ExtensionHeaderChain.{Walks, WalksUpTo};
ghost use Rattle.etherparse.specs.ExtensionHeaderChain.{incomplete_header_error, required_len_of};
ghost use Rattle.etherparse.specs.ExtensionHeaders.{IsSkippable};
ghost use Rattle.c_answers.specs.Answer.{GivesAnswer, answer_in_c, rest_of};
ghost use Rattle.c_answers.specs.Error.{chain_error_in_c, len_error_in_c, no_error};

use c_answers::error::{Error, Rest};
use etherparse::{IpNumber, Ipv6Header};

/// Where a walk past extension headers, or one skip, ended.
#[repr(C)]
#[derive(Drop)]
pub struct Ipv6WalkAnswer {
    /// The number of what follows the headers that were skipped. That after a whole walk cannot be
    /// skipped.
    pub next_header: u8,
    /// Why it did not come to an end; its kind is 0 if it did.
    pub error: Error,
    /// All the bytes after the headers that were skipped.
    pub rest: Rest,
}

/// Skips the extension header of this number at the front of a slice. For a number that cannot be
/// skipped the rest is the whole slice.
///
/// Fewer bytes than the header says are an error. If there are fewer than 2 bytes, 2 are required.
#[unsafe(no_mangle)]
pub extern "C" fn etherparse_ipv6_skip(slice: &[u8], next_header: u8) -> Ipv6WalkAnswer
    ensures kept { ¬ IsSkippable next_header →
        (result.next_header, result.error, result.rest)
        ≡ answer_in_c (λ number. number) 0 len_error_in_c slice.now (Ok (next_header, slice.now)) }
    ensures skips { IsSkippable next_header →
        let required_len = required_len_of next_header slice.now in
        (result.next_header, result.error, result.rest)
        ≡ answer_in_c (λ number. number) 0 len_error_in_c slice.now
        (if nat_le required_len (length slice.now)
        then Ok (slice_index slice.now 0, drop required_len slice.now)
        else Err (incomplete_header_error next_header slice.now 0)) }
{
    match Ipv6Header::skip_header_extension_in_slice(slice, IpNumber(next_header)) {
        // Each arm has its own `return`, for speed: as the value of the `match` the answer takes
        // more instructions, a third more in `etherparse_ipv4_view`.
        Ok((number, rest)) => return ended(slice, number, rest),
        Err(e) => return refused(Error::of_len(&e)),
    }
}

/// Skips all extension headers at the front of a slice; the first has this number.
///
/// The error is that of the first incomplete header. If fewer than 2 bytes are left, 2 are
/// required.
#[unsafe(no_mangle)]
pub extern "C" fn etherparse_ipv6_walk(slice: &[u8], next_header: u8) -> Ipv6WalkAnswer
    ensures walks { GivesAnswer (Walks slice.now next_header)
        (answer_in_c (λ number. number) 0 len_error_in_c slice.now)
        (result.next_header, result.error, result.rest) }
{
    match Ipv6Header::skip_all_header_extensions_in_slice(slice, IpNumber(next_header)) {
        Ok((number, rest)) => return ended(slice, number, rest),
        Err(e) => return refused(Error::of_len(&e)),
    }
}

/// Skips the extension headers at the front of a slice, but no more than `limit` of them; the first
/// has this number.
///
/// The error is of kind 4 if that many were skipped and the number after them is that of one more,
/// whatever bytes are left; otherwise it is that of `etherparse_ipv6_walk`.
#[unsafe(no_mangle)]
pub extern "C" fn etherparse_ipv6_walk_up_to(
    slice: &[u8],
    next_header: u8,
    limit: usize,
) -> Ipv6WalkAnswer
    ensures walks { GivesAnswer (WalksUpTo limit slice.now next_header)
        (answer_in_c (λ number. number) 0 chain_error_in_c slice.now)
        (result.next_header, result.error, result.rest) }
{
    match Ipv6Header::skip_header_extensions_up_to(slice, IpNumber(next_header), limit) {
        Ok((number, rest)) => return ended(slice, number, rest),
        Err(e) => return refused(Error::of_chain(&e)),
    }
}

// The answer of a walk that came to its end.
#[inline(always)]
fn ended(slice: &[u8], number: IpNumber, rest: &[u8]) -> Ipv6WalkAnswer
    requires { length rest.now ≤ length slice.now }
    ensures value { result ≡ record {
      error = no_error;
      rest = rest_of slice.now rest.now;
      next_header = number;
    } }
{
    Ipv6WalkAnswer {
        next_header: number.0,
        rest: Rest::of(slice, rest),
        error: Error::default(),
    }
}

// The answer of a walk that did not.
#[inline(always)]
fn refused(error: Error) -> Ipv6WalkAnswer
    ensures value { result ≡ record {
      error = error;
      rest = record { offset = 0; len = 0 };
      next_header = 0;
    } }
{
    Ipv6WalkAnswer {
        next_header: 0,
        rest: Rest::default(),
        error,
    }
}
