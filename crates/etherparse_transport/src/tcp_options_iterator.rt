//! The options of a TCP header, one after the other (RFC 9293 section 3.1).

ghost use Rattle.std.specs.Prelude.{◌≡◌, ◌≢◌, ◌+◌, ◌*◌, ◌^◌, ◌<◌, ◌≤◌, ◌++◌, IfErr};
ghost use Rattle.std.specs.Prelude.{IfOk, drop, length};
ghost use Rattle.std.specs.Prelude.{slice_index, slice_range};
ghost use Rattle.std.specs.Int.{from_be_bytes, w32};
ghost use Rattle.std.specs.List.{flat_map};
ghost use Rattle.etherparse_transport.specs.TcpOptions.{BeginsWithOption, RefusesOption};
ghost use Rattle.etherparse_transport.specs.TcpOptions.{AreOtherBlocks, HasBlocksLength};
ghost use Rattle.etherparse_transport.specs.TcpOptions.{HasLength, IsBlock, NextOption, blocks_of, edges};

use crate::{TcpOptionElement, TcpOptionReadError};

/// The options in some bytes, one after the other, with each No-Operation (kind 1). The end is where
/// the bytes end, at End of Option List (kind 0), or after the first error.
///
/// An option of a kind that is not known here is an error, `TcpOptionReadError::UnknownId`, and so
/// the last item, although its length says where the next option begins: the options after it are
/// not read.
///
/// # Example
///
/// ```
/// // A maximum segment size of 1460 bytes, a no-operation, a window scale of 7, and the end.
/// let options = TcpOptions::try_from_slice(&[2, 4, 0x05, 0xb4, 1, 3, 3, 7, 0])?;
/// let mut iterator = options.elements_iter();
/// assert!(rt; iterator.next() == Some(Ok(TcpOptionElement::MaximumSegmentSize(1460))));
/// assert!(rt; iterator.next() == Some(Ok(TcpOptionElement::Noop)));
/// assert!(rt; iterator.next() == Some(Ok(TcpOptionElement::WindowScale(7))));
/// assert!(rt; iterator.next() == None);
/// ```
#[derive(Clone, Debug, PartialEq, Eq, Drop)]
pub struct TcpOptionsIterator<'a> {
    /// The bytes that are left: none after the end or an error.
    pub options: &'a [u8],
}

impl<'a> TcpOptionsIterator<'a> {
    /// The options in these bytes.
    #[inline]
    pub fn from_slice(options: &'a [u8]) -> TcpOptionsIterator<'a>
        ensures value { result.options.now ≡ options.now }
    {
        TcpOptionsIterator { options }
    }

    /// The bytes that are left: none after the end or an error.
    #[inline]
    pub fn rest(&self) -> &'a [u8]
        ensures value { result.now ≡ self.now.options.now }
    {
        self.options
    }
}

impl<'a> Iterator for TcpOptionsIterator<'a> {
    ghost use Rattle.std.specs.Prelude.{length};
    ghost use Rattle.std.specs.Iterator.{at_most};
    ghost use Rattle.etherparse_transport.specs.TcpOptions.{GivesOption};

    type Item = Result<TcpOptionElement, TcpOptionReadError>;

    ghost next_gives = { λ before next after.
        GivesOption before.options.now next after.options.now };

    ghost remaining = { λ iterator. at_most (length iterator.options.now) };

    #[inline(always)]
    fn next(&mut self) -> Option<Result<TcpOptionElement, TcpOptionReadError>> {
        let (next, rest) = next_option(self.options);
        self.options = rest;
        next
    }
}

// What comes next in some bytes, and the bytes after it. Each case has its own result, which a loop
// over the options takes apart where it is made.
#[inline(always)]
fn next_option(s: &[u8]) -> (Option<Result<TcpOptionElement, TcpOptionReadError>>, &[u8])
    ensures next { NextOption s.now result.0 result.1.now }
{
    if s.is_empty() || s[0] == 0 {
        return (None, after(s, s.len()));
    }
    match s[0] {
        1 => (Some(Ok(TcpOptionElement::Noop)), after(s, 1)),
        2 => match check_len(s, 4) {
            Ok(()) => {
                let size = u16::from_be_bytes([s[2], s[3]]);
                (
                    Some(Ok(TcpOptionElement::MaximumSegmentSize(size))),
                    after(s, 4),
                )
            }
            Err(e) => (Some(Err(e)), after(s, s.len())),
        },
        3 => match check_len(s, 3) {
            Ok(()) => (Some(Ok(TcpOptionElement::WindowScale(s[2]))), after(s, 3)),
            Err(e) => (Some(Err(e)), after(s, s.len())),
        },
        4 => match check_len(s, 2) {
            Ok(()) => {
                let permitted = TcpOptionElement::SelectiveAcknowledgementPermitted;
                (Some(Ok(permitted)), after(s, 2))
            }
            Err(e) => (Some(Err(e)), after(s, s.len())),
        },
        5 => match check_blocks_len(s) {
            Ok(len) => (Some(Ok(blocks_at(s, len))), after(s, usize::from(len))),
            Err(e) => (Some(Err(e)), after(s, s.len())),
        },
        8 => match check_len(s, 10) {
            Ok(()) => {
                let value = u32::from_be_bytes([s[2], s[3], s[4], s[5]]);
                let echo = u32::from_be_bytes([s[6], s[7], s[8], s[9]]);
                (
                    Some(Ok(TcpOptionElement::Timestamp(value, echo))),
                    after(s, 10),
                )
            }
            Err(e) => (Some(Err(e)), after(s, s.len())),
        },
        kind => (
            Some(Err(TcpOptionReadError::UnknownId(kind))),
            after(s, s.len()),
        ),
    }
}

// The bytes from a place on.
#[inline(always)]
fn after(s: &[u8], at: usize) -> &[u8]
    requires { at ≤ length s.now }
    ensures value { result.now ≡ drop at s.now }
{
    &s[at..]
}

// Whether an option of one length has it, and all its bytes are there.
#[inline(always)]
fn check_len(s: &[u8], len: u8) -> Result<(), TcpOptionReadError>
    requires some { 0 < length s.now }
    requires has_length { HasLength (slice_index s.now 0) len }
    ensures enough { IfOk result (λ _. len ≤ length s.now) }
    ensures right { IfOk result (λ _. slice_index s.now 1 ≡ len) }
    ensures refused { IfErr result (RefusesOption s.now) }
{
    if s.len() < usize::from(len) {
        return Err(TcpOptionReadError::UnexpectedEndOfSlice {
            option_id: s[0],
            expected_len: len,
            actual_len: s.len(),
        });
    }
    if s[1] != len {
        return Err(TcpOptionReadError::UnexpectedSize {
            option_id: s[0],
            size: s[1],
        });
    }
    Ok(())
}

// Selective Acknowledgement at the front of some bytes, of this length.
#[inline(always)]
fn blocks_at(s: &[u8], len: u8) -> TcpOptionElement
    requires has_length { HasBlocksLength len }
    requires enough { len ≤ length s.now }
    requires kind { slice_index s.now 0 ≡ 5 }
    requires right { slice_index s.now 1 ≡ len }
    ensures read { BeginsWithOption s.now result (drop len s.now) }
{
    let first = block_at(s, 2);
    let others = other_blocks(s, len);
    TcpOptionElement::SelectiveAcknowledgement(first, others)
}

// The blocks after the first, up to the length of Selective Acknowledgement.
#[inline(always)]
fn other_blocks(s: &[u8], len: u8) -> [Option<(u32, u32)>; 3]
    requires len { HasBlocksLength len }
    requires enough { len ≤ length s.now }
    ensures told { drop 10 s.now ≡ flat_map edges (blocks_of result) ++ drop len s.now }
    ensures count { len ≡ 10 + 8 * length (blocks_of result) }
    ensures blocks { AreOtherBlocks result }
{
    match len {
        10 => [None; 3],
        18 => [Some(block_at(s, 10)), None, None],
        26 => [Some(block_at(s, 10)), Some(block_at(s, 18)), None],
        _ => [
            Some(block_at(s, 10)),
            Some(block_at(s, 18)),
            Some(block_at(s, 26)),
        ],
    }
}

// The length of Selective Acknowledgement, if all its bytes are there.
#[inline(always)]
fn check_blocks_len(s: &[u8]) -> Result<u8, TcpOptionReadError>
    requires some { 0 < length s.now }
    requires kind { slice_index s.now 0 ≡ 5 }
    ensures len { IfOk result (λ len. HasBlocksLength len) }
    ensures enough { IfOk result (λ len. len ≤ length s.now) }
    ensures right { IfOk result (λ len. slice_index s.now 1 ≡ len) }
    ensures refused { IfErr result (RefusesOption s.now) }
{
    if s.len() < 2 {
        return Err(TcpOptionReadError::UnexpectedEndOfSlice {
            option_id: s[0],
            expected_len: 2,
            actual_len: s.len(),
        });
    }
    let len = s[1];
    if len != 10 && len != 18 && len != 26 && len != 34 {
        return Err(TcpOptionReadError::UnexpectedSize {
            option_id: s[0],
            size: len,
        });
    }
    if s.len() < usize::from(len) {
        return Err(TcpOptionReadError::UnexpectedEndOfSlice {
            option_id: s[0],
            expected_len: len,
            actual_len: s.len(),
        });
    }
    Ok(len)
}

// The edges of the block at a place.
#[inline(always)]
fn block_at(s: &[u8], at: usize) -> (u32, u32)
    requires { at + 8 ≤ length s.now }
    ensures told { drop at s.now ≡ edges result ++ drop (at + 8) s.now }
    ensures is_block { IsBlock result }
{
    (number_at(s, at), number_at(s, at + 4))
}

// The number of four bytes at a place.
#[inline(always)]
fn number_at(s: &[u8], at: usize) -> u32
    requires { at + 4 ≤ length s.now }
    ensures value { result ≡ from_be_bytes w32 (slice_range s.now at (at + 4)) }
    ensures fits { result < 2 ^ 32 }
{
    u32::from_be_bytes([s[at], s[at + 1], s[at + 2], s[at + 3]])
}
