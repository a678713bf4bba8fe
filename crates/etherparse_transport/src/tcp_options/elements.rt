//! Options of a TCP header that are written and read one by one.

ghost use Rattle.std.specs.Prelude.{◌≡◌, ◌+◌, ◌*◌, ◌≤◌, ◌↔◌, [], ◌∷◌, ◌++◌, IfErr, IfOk, IsOk};
ghost use Rattle.std.specs.Prelude.{length, map};
ghost use Rattle.std.specs.List.{AllByRecursion, flat_map};
ghost use Rattle.arrayvec.specs.ArrayVec.{array_vec_len};
ghost use Rattle.etherparse_transport.specs.TcpOptions.{AreOtherBlocks, IsBlock, IsOption};
ghost use Rattle.etherparse_transport.specs.TcpOptions.{IsOptionList, blocks_of, edges, in_front};
ghost use Rattle.etherparse_transport.specs.TcpOptions.{option_bytes, options_len, read_again};
ghost use Rattle.etherparse_transport.specs.TcpPadding.{IsPadded};

use super::TcpOptions;
use crate::{TcpOptionElement, TcpOptionWriteError, TcpOptionsIterator};
use arrayvec::ArrayVec;

impl TcpOptions {
    /// The bytes of these options, one after the other, filled up to a multiple of 4 with zeros. Of
    /// Selective Acknowledgement the blocks that are there are written in their order.
    ///
    /// # Errors
    ///
    /// `NotEnoughSpace` with the number of bytes of the options if that is more than 40.
    ///
    /// # Example
    ///
    /// ```
    /// let elements = [
    ///     TcpOptionElement::MaximumSegmentSize(1460),
    ///     TcpOptionElement::WindowScale(7),
    /// ];
    /// let options = TcpOptions::try_from_elements(&elements)?;
    /// assert!(rt; options.as_slice() == [2, 4, 0x05, 0xb4, 3, 3, 7, 0].as_slice());
    /// ```
    pub fn try_from_elements(
        elements: &[TcpOptionElement],
    ) -> Result<TcpOptions, TcpOptionWriteError>
        ensures accepted { IsOk result ↔ (options_len elements.now ≤ 40) }
        ensures refused { IfErr result (λ e.
            e ≡ TcpOptionWriteError.NotEnoughSpace (options_len elements.now)) }
        ensures written { IfOk result (IsPadded (flat_map option_bytes elements.now)) }
        ensures read_again { IfOk result (IsOptionList (map read_again elements.now)) }
    {
        let len = len_of(elements);
        if len > TcpOptions::MAX_LEN {
            return Err(TcpOptionWriteError::NotEnoughSpace(len));
        }
        let mut bytes = ArrayVec::new();
        for element in elements {
            append(&mut bytes, element);
        }
        TcpOptions::try_from_slice(bytes.as_slice())
    }

    /// The options one after the other.
    #[inline]
    pub fn elements_iter(&self) -> TcpOptionsIterator<'_>
        ensures value { result.options.now ≡ self.now }
    {
        TcpOptionsIterator::from_slice(self.as_slice())
    }
}

// How many bytes the options have.
fn len_of(elements: &[TcpOptionElement]) -> usize
    ensures value { result ≡ options_len elements.now }
{
    let mut len = 0;
    for element in elements {
        len += element_len(element);
    }
    len
}

// How many bytes the option has: at most 34.
fn element_len(element: &TcpOptionElement) -> usize
    ensures value { result ≡ length (option_bytes element.now) }
    ensures within { result ≤ 34 }
{
    match element {
        TcpOptionElement::Noop => 1,
        TcpOptionElement::MaximumSegmentSize(_) => 4,
        TcpOptionElement::WindowScale(_) => 3,
        TcpOptionElement::SelectiveAcknowledgementPermitted => 2,
        TcpOptionElement::SelectiveAcknowledgement(_, others) => usize::from(blocks_len(others)),
        TcpOptionElement::Timestamp(_, _) => 10,
    }
}

// The length of Selective Acknowledgement with these blocks after the first.
fn blocks_len(others: &[Option<(u32, u32)>; 3]) -> u8
    ensures value { result ≡ 2 + 8 * (1 + length (blocks_of others.now)) }
    ensures within { result ≤ 34 }
{
    let [a, b, c] = *others;
    10 + 8 * (u8::from(a.is_some()) + u8::from(b.is_some()) + u8::from(c.is_some()))
}

// Appends the bytes of an option.
fn append(bytes: &mut ArrayVec<u8, 40>, element: &TcpOptionElement)
    requires room { array_vec_len bytes.old + length (option_bytes element.now) ≤ 40 }
    ensures appended { bytes.new.items ≡ bytes.old.items ++ option_bytes element.now }
    ensures is_option { IsOption (read_again element.now) }
{
    match element {
        TcpOptionElement::Noop => bytes.push(1),
        TcpOptionElement::MaximumSegmentSize(size) => {
            let [a, b] = size.to_be_bytes();
            bytes.try_extend_from_slice(&[2, 4, a, b]).unwrap();
        }
        TcpOptionElement::WindowScale(shift) => {
            let shift = *shift;
            bytes.try_extend_from_slice(&[3, 3, shift]).unwrap();
        }
        TcpOptionElement::SelectiveAcknowledgementPermitted => {
            bytes.try_extend_from_slice(&[4, 2]).unwrap();
        }
        TcpOptionElement::SelectiveAcknowledgement(first, others) => {
            append_blocks(bytes, *first, others);
        }
        TcpOptionElement::Timestamp(value, echo) => {
            bytes.try_extend_from_slice(&[8, 10]).unwrap();
            append_pair(bytes, (*value, *echo));
        }
    }
}

// Appends Selective Acknowledgement with these blocks.
fn append_blocks(bytes: &mut ArrayVec<u8, 40>, first: (u32, u32), others: &[Option<(u32, u32)>; 3])
    requires room { array_vec_len bytes.old + (2 + 8 * (1 + length (blocks_of others.now))) ≤ 40 }
    ensures appended { bytes.new.items ≡ bytes.old.items
        ++ option_bytes (TcpOptionElement.SelectiveAcknowledgement first others.now) }
    ensures is_block { IsBlock first }
    ensures are_blocks { AreOtherBlocks (in_front (blocks_of others.now)) }
{
    let len = blocks_len(others);
    let [a, b, c] = *others;
    bytes.try_extend_from_slice(&[5, len]).unwrap();
    append_pair(bytes, first);
    append_block(bytes, a);
    append_block(bytes, b);
    append_block(bytes, c);
}

// Appends a block, if there is one.
fn append_block(bytes: &mut ArrayVec<u8, 40>, block: Option<(u32, u32)>)
    requires room { array_vec_len bytes.old + 8 * length (blocks_of (block ∷ [])) ≤ 40 }
    ensures appended { bytes.new.items
        ≡ bytes.old.items ++ flat_map edges (blocks_of (block ∷ [])) }
    ensures are_blocks { AllByRecursion IsBlock (blocks_of (block ∷ [])) }
{
    if let Some(pair) = block {
        append_pair(bytes, pair);
    }
}

// Appends two numbers.
fn append_pair(bytes: &mut ArrayVec<u8, 40>, pair: (u32, u32))
    requires room { array_vec_len bytes.old + 8 ≤ 40 }
    ensures appended { bytes.new.items ≡ bytes.old.items ++ edges pair }
    ensures is_block { IsBlock pair }
{
    let (first, second) = pair;
    let [a, b, c, d] = first.to_be_bytes();
    let [e, f, g, h] = second.to_be_bytes();
    bytes
        .try_extend_from_slice(&[a, b, c, d, e, f, g, h])
        .unwrap();
}
