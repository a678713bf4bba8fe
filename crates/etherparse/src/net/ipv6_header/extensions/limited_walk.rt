//! The walk past IPv6 extension headers, with a limit of headers.

ghost use Rattle.etherparse_base.specs.declared.err.ipv6.chain_error.ChainError.TheVariants.{Len};

use super::{incomplete_header, required_len_at};
use crate::err::ipv6::ChainError;
use crate::{IpNumber, Ipv6Header};

impl Ipv6Header {
    ghost use Rattle.std.specs.Prelude.{ℕ, ◌≡◌, ◌+◌, ◌-◌, ◌/◌, ◌≤◌, List, IfErr, IfOk, length};
    ghost use Rattle.std.specs.Result.{result_map_both};
    ghost use Rattle.etherparse_base.specs.Ipv6Errors.{chain_error_moved, chain_error_place};
    ghost use Rattle.etherparse_base.specs.declared.err.len_error.LenError.{LenError as LengthError};
    ghost use Rattle.etherparse.specs.ExtensionHeaderChain.{BeginsWithChain, LimitedWalkAnswer};
    ghost use Rattle.etherparse.specs.ExtensionHeaderChain.{WalkAnswer, Walks, WalksUpTo};
    ghost use Rattle.etherparse.specs.Reading.{found_and_rest};

    /// Skips the extension headers at the front of a slice, the first of which has this number, but
    /// no more than `limit` of them. Returns the first number that cannot be skipped, and all the
    /// bytes after the header that gave it.
    ///
    /// A fragment header is skipped whatever its offset. In a fragment that is not the first, what
    /// follows is the middle of a payload, not the header of an upper layer.
    ///
    /// A header has at least 8 bytes. So with a limit of `slice.len() / 8 + 1` or more the result
    /// is that of [`Ipv6Header::skip_all_header_extensions_in_slice`], and never `TooMany`. A larger
    /// limit changes no result but `TooMany`.
    ///
    /// # Errors
    ///
    /// `TooMany` if `limit` headers were skipped and the number after them is that of one more,
    /// even if no byte of it is left. It has the limit, this number, and the offset from the front
    /// of the slice at which that header starts. Otherwise `Len` if a header is incomplete, with
    /// the error of [`Ipv6Header::skip_all_header_extensions_in_slice`].
    ///
    /// # Example
    ///
    /// ```
    /// let slice = [60, 0, 0, 0, 0, 0, 0, 0, 17, 0, 0, 0, 0, 0, 0, 0];
    /// let first = IpNumber::IPV6_HEADER_HOP_BY_HOP;
    /// let too_many = ChainError::TooMany {
    ///     limit: 1,
    ///     next_header: 60,
    ///     layer_start_offset: 8,
    /// };
    /// let refused = Ipv6Header::skip_header_extensions_up_to(&slice, first, 1);
    /// assert!(rt; refused == Err(too_many));
    /// ```
    pub fn skip_header_extensions_up_to(
        slice: &[u8],
        next_header: IpNumber,
        limit: usize,
    ) -> Result<(IpNumber, &[u8]), ChainError>
        ensures walks { WalksUpTo limit slice.now next_header (found_and_rest result) }
        ensures only { (other : LimitedWalkAnswer) → WalksUpTo limit slice.now next_header other →
            other ≡ found_and_rest result }
        ensures as_without_limit { length slice.now / 8 + 1 ≤ limit → (answer : WalkAnswer) →
            Walks slice.now next_header answer →
            found_and_rest result ≡
            result_map_both (λ x. x) (λ e. Len e) answer }
        ensures not_too_many { length slice.now / 8 + 1 ≤ limit →
            IfErr result (λ e. (error : LengthError) × (e ≡ Len error)) }

        // An answer other than `TooMany` is that of each larger limit too.
        ensures larger { (larger : ℕ) → limit ≤ larger → (answer : WalkAnswer) →
            found_and_rest result ≡ result_map_both (λ x. x) (λ e. Len e) answer →
            WalksUpTo larger slice.now next_header (found_and_rest result) }
        ensures shorter { IfOk result (λ x. length x.1.now ≤ length slice.now) }
        ensures within { IfErr result (λ e. chain_error_place e ≤ length slice.now) }

        // After a chain of a slice this is the walk of that slice; the limit counts the chain's
        // headers too.
        ensures follows { (s : List ℕ) → (first : ℕ) → (headers : List (List ℕ)) →
            BeginsWithChain s first headers next_header slice.now →
            WalksUpTo (length headers + limit) s first (result_map_both (λ x. x)
            (chain_error_moved (length headers) (length s - length slice.now))
            (found_and_rest result)) }
    {
        let mut number = next_header;
        let mut offset = 0;
        let mut skipped = 0;
        'headers: loop {
            if !Ipv6Header::is_skippable_header_extension(number) {
                return Ok((number, &slice[offset..]));
            }
            if skipped == limit {
                return Err(ChainError::TooMany {
                    limit,
                    next_header: number.0,
                    layer_start_offset: offset,
                });
            }
            let required_len = required_len_at(slice, offset, number);
            let left = slice.len() - offset;
            if left < required_len {
                return Err(ChainError::Len(incomplete_header(required_len, left, offset)));
            }
            number = IpNumber(slice[offset]);
            offset += required_len;
            skipped += 1;
        }
    }
}
