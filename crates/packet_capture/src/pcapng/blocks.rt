//! The blocks of a pcapng file (draft-ietf-opsawg-pcapng sections 3.1 and 4.1).

ghost use Rattle.std.specs.Prelude.{◌≡◌, ◌≢◌, ◌%◌, ◌+◌, ◌≤◌, ◌↔◌, IfErr, IfNone, IfOk};
ghost use Rattle.std.specs.Prelude.{IfSome, IsTrue, OnErr, OnOk, Some};
ghost use Rattle.std.specs.Prelude.{[], length};
ghost use Rattle.std.specs.Int.{w32};
ghost use Rattle.packet_capture.specs.Capture.{number_in};
ghost use Rattle.packet_capture.specs.Pcapng.Blocks.{BlockReading, HeadReading, IsRead};
ghost use Rattle.packet_capture.specs.Pcapng.Blocks.{IsRightLength, IsWhole};
ghost use Rattle.packet_capture.specs.Pcapng.Blocks.{ReadsBlock, ReadsBody};
ghost use Rattle.packet_capture.specs.Pcapng.Blocks.{ReadsHead, ReadsWhole};
ghost use Rattle.packet_capture.specs.Pcapng.Blocks.{block_reading, block_type_of, body_reading};
ghost use Rattle.packet_capture.specs.Pcapng.Packets.{PacketReading, ReadsPacket, data_start};
ghost use Rattle.packet_capture.specs.Pcapng.Blocks.{front_len, least_len, major, minor, order_of};
ghost use Rattle.packet_capture.specs.Pcapng.Blocks.{order_told_by};
ghost use Rattle.packet_capture.specs.ErrorText.{block_error_text};

use crate::capture::{ByteOrder, CutOff};
use crate::pcapng::interfaces::Interface;
use crate::pcapng::packets::{PacketHead, PacketType};
use crate::word::Word;
use arrayvec::ArrayVec;
use std::error::Error;
use std::fmt;

/// What the blocks so far say about the next one: the state of a reader between two blocks.
#[derive(Debug, PartialEq, Drop)]
pub struct Section {
    /// The byte order of the section, or `None` if no section has begun.
    pub order: Option<ByteOrder>,
    /// The interfaces of the section, in the order of their descriptions.
    pub interfaces: ArrayVec<Interface, 256>,
}

/// A block.
#[derive(Clone, Copy, Debug, PartialEq, Eq)]
pub enum Block<'a> {
    /// A Section Header Block: a section begins, in a byte order of its own and with no interfaces.
    Section,
    /// An Interface Description Block: the section has one more interface.
    Interface(Interface),
    /// An Enhanced Packet Block, a Simple Packet Block or an obsolete Packet Block: a packet.
    Packet {
        /// What the block says about it.
        head: PacketHead,
        /// The bytes of the packet that were kept. They live as long as the slice that was read.
        bytes: &'a [u8],
    },
    /// A block of another type, which has this number. What it says is not read.
    Other(u32),
}

/// The type of a block: bytes 0 to 3.
#[derive(Clone, Copy, Debug, PartialEq, Eq)]
pub enum BlockType {
    /// A Section Header Block, 0x0a0d0d0a.
    SectionHeader,
    /// An Interface Description Block, 1.
    InterfaceDescription,
    /// A block with a packet.
    Packet(PacketType),
    /// Any other number: name resolution, statistics, secrets, custom blocks and so on.
    Other(u32),
}

/// The head of a block.
#[derive(Clone, Copy, Debug, PartialEq, Eq)]
pub struct BlockHead {
    /// The byte order of its section.
    pub order: ByteOrder,
    /// The type: bytes 0 to 3.
    pub block_type: BlockType,
    /// The length of the block in bytes, from its type to the end of the repeated length: bytes 4
    /// to 7. It is a multiple of 4, and no less than the type needs.
    pub total_len: u32,
}

/// Why a slice does not begin with a block.
#[derive(Clone, Copy, Debug, PartialEq, Eq)]
pub enum BlockError {
    /// There are fewer bytes than needed: 8, or 12 of a Section Header Block, or 16 of a record of
    /// the classic format; or else as many as the block has.
    CutOff(CutOff),
    /// No section has begun, and these first four bytes, with the high byte first, begin none: it
    /// is no pcapng file.
    Magic(u32),
    /// Bytes 8 to 11 of a Section Header Block, with the high byte first, which are not a
    /// byte-order magic.
    ByteOrderMagic(u32),
    /// The total length, in bytes 4 to 7, is not a multiple of 4, or less than a block of the type
    /// needs: 28 for a Section Header Block, 20 for an Interface Description Block, 32 for an
    /// Enhanced Packet Block and a Packet Block, 16 for a Simple Packet Block, 12 for all others.
    BlockLength {
        /// The type of the block.
        block_type: BlockType,
        /// Its total length.
        total_len: u32,
    },
    /// The total length that the last four bytes repeat is another one.
    Lengths {
        /// The total length in bytes 4 to 7.
        front: u32,
        /// That in the last four bytes.
        back: u32,
    },
    /// The version of the section is neither 1.0 nor 1.2: major in bytes 12 and 13, minor in bytes
    /// 14 and 15.
    Version {
        major: u16,
        minor: u16,
    },
    /// The section has 256 interfaces already.
    TooManyInterfaces,
    /// An option of an interface reaches past its block, or it is an `if_tsresol` (code 9) whose
    /// length is not 1, or an `if_tsoffset` (code 14) whose length is not 8.
    OptionLength {
        /// The code of the option.
        code: u16,
        /// The length of its value in bytes, without the padding.
        len: u16,
        /// Where the option begins, from the start of the block.
        place: usize,
    },
    /// An `if_tsresol` by which a second has 2^64 or more units.
    Resolution(u8),
    /// The packet is of an interface that the section does not have.
    Interface {
        /// The number of the interface, from 0.
        id: u32,
        /// How many interfaces the section has.
        count: usize,
    },
    /// The packet has more bytes than its block has room for.
    CapturedLength {
        /// How many bytes of the packet are said to be kept.
        captured_len: u32,
        /// How many the block has room for.
        room: u32,
    },
}

impl fmt::Display for BlockError {
    ghost output = { λ error. Some (block_error_text error) };

    #[tactic(auto, unfolding(crate::specs::ErrorText::block_error_text))]
    fn fmt<W: fmt::Write>(&self, f: &mut fmt::Formatter<W>) -> fmt::Result {
        match *self {
            BlockError::CutOff(e) => fmt::Display::fmt(&e, f),
            BlockError::Magic(magic) => {
                let magic = Word(magic);
                write!(
                    f,
                    "Capture Error: No section has begun, and 0x{magic} begins none."
                )
            }
            BlockError::ByteOrderMagic(magic) => {
                let magic = Word(magic);
                write!(f, "Capture Error: 0x{magic} is no byte-order magic.")
            }
            BlockError::BlockLength { total_len, .. } => write!(
                f,
                "Capture Error: A block of its type cannot have the length {total_len}."
            ),
            BlockError::Lengths { front, back } => write!(
                f,
                "Capture Error: The block has the length {front}, and {back} at its end."
            ),
            BlockError::Version { major, minor } => {
                write!(f, "Capture Error: Version {major}.{minor} is not read.")
            }
            BlockError::TooManyInterfaces => {
                f.write_str("Capture Error: The section has 256 interfaces already.")
            }
            BlockError::OptionLength { code, len, place } => write!(
                f,
                "Capture Error: The option {code} at byte {place} of the block cannot have the length {len}."
            ),
            BlockError::Resolution(value) => write!(
                f,
                "Capture Error: The unit of time is too small (if_tsresol {value})."
            ),
            BlockError::Interface { id, count } => write!(
                f,
                "Capture Error: The packet is of interface {id}, counted from 0, and there are {count}."
            ),
            BlockError::CapturedLength { captured_len, room } => write!(
                f,
                "Capture Error: The packet has {captured_len} byte(s), but the block has room for {room}."
            ),
        }
    }
}

impl Error for BlockError {}

impl Section {
    /// The state before the first block: no section has begun.
    pub fn none() -> Section
        ensures order { result.order ≡ None }
        ensures interfaces { result.interfaces.items ≡ [] }
    {
        Section {
            order: None,
            interfaces: ArrayVec::new(),
        }
    }
}

impl BlockType {
    /// The type of this number.
    #[tactic(auto, unfolding(crate::specs::Pcapng::Blocks::block_type_of))]
    pub fn from_number(number: u32) -> BlockType
        ensures value { result ≡ block_type_of number }
    {
        match number {
            0x0a0d_0d0a => BlockType::SectionHeader,
            1 => BlockType::InterfaceDescription,
            2 => BlockType::Packet(PacketType::Obsolete),
            3 => BlockType::Packet(PacketType::Simple),
            6 => BlockType::Packet(PacketType::Enhanced),
            _ => BlockType::Other(number),
        }
    }

    /// The least length of a block of this type, in bytes: that of one with its fixed fields alone.
    pub fn least_len(self) -> u32
        ensures value { result ≡ least_len self }
    {
        match self {
            BlockType::SectionHeader => 28,
            BlockType::InterfaceDescription => 20,
            BlockType::Packet(packet_type) => packet_type.data_start() as u32 + 4,
            BlockType::Other(_) => 12,
        }
    }
}

impl BlockHead {
    /// That the last four bytes of the block repeat its total length, for a program that skips a
    /// block in pieces. [`next_block`] does this itself.
    ///
    /// # Errors
    ///
    /// `Lengths` if they are another length.
    pub fn check_end(&self, last: [u8; 4]) -> Result<(), BlockError>
        ensures same { OnOk result (number_in self.now.order w32 last ≡ self.now.total_len) }
        ensures other { OnErr result (number_in self.now.order w32 last ≢ self.now.total_len) }
        ensures error { IfErr result (λ e.
            e ≡ BlockError.Lengths self.now.total_len (number_in self.now.order w32 last)) }
    {
        let back = self.order.u32_of(&last);
        if back != self.total_len {
            return Err(BlockError::Lengths {
                front: self.total_len,
                back,
            });
        }
        Ok(())
    }

    // Whether the length is one that a block of the type can have.
    fn has_right_length(&self) -> bool
        ensures value { IsTrue result ↔ IsRightLength self.now }
    {
        self.total_len % 4 == 0 && self.total_len >= self.block_type.least_len()
    }

    // All of the block, which begins at the front of a slice.
    fn block<'a>(&self, slice: &'a [u8]) -> Result<&'a [u8], BlockError>
        requires least { 12 ≤ self.now.total_len }
        ensures whole { IfOk result (λ block. IsWhole self.now slice.now block.now) }
        ensures refused { IfErr result (λ e. ReadsWhole self.now slice.now (Err e)) }
    {
        let len = self.total_len as usize;
        if slice.len() < len {
            return Err(cut_off(len, slice));
        }
        let block = &slice[..len];
        self.check_end([
            block[len - 4],
            block[len - 3],
            block[len - 2],
            block[len - 1],
        ])?;
        Ok(block)
    }
}

impl Section {
    /// The head of the packet in a block that has one, at the front of a slice, whether or not the
    /// rest of the block is there, for a program that skips a packet that is too long for it. The
    /// caller has to pass `packet_type.data_start()` bytes at least, and the head of a block that is
    /// 4 bytes longer at least; a head that `block_head` read is.
    ///
    /// # Errors
    ///
    /// `Interface` if the packet is of no interface of the section; otherwise `CapturedLength` if
    /// the block has no room for its bytes.
    pub fn packet_head(
        &self,
        head: &BlockHead,
        packet_type: PacketType,
        slice: &[u8],
    ) -> Result<PacketHead, BlockError>
        requires enough { data_start packet_type ≤ length slice.now }
        requires room { data_start packet_type + 4 ≤ head.now.total_len }
        ensures reads { ReadsPacket packet_type head.now.order self.now.interfaces.items
            head.now.total_len slice.now result }
        ensures only { (other : PacketReading) → ReadsPacket packet_type head.now.order
            self.now.interfaces.items head.now.total_len slice.now other → other ≡ result }
    {
        let interfaces = self.interfaces.as_slice();
        packet_type.head_of(head.order, interfaces, head.total_len, slice)
    }

    // What a whole block says, and the change that it makes.
    fn read<'a>(&mut self, head: &BlockHead, block: &'a [u8]) -> Result<Block<'a>, BlockError>
        requires least { least_len head.now.block_type ≤ length block.now }
        requires in_words { length block.now % 4 ≡ 0 }
        requires whole { length block.now ≡ head.now.total_len }
        ensures reads { ReadsBody head.now.block_type self.old head.now.order block.now
            (body_reading self.new result) }
        ensures kept { IfErr result (λ _. self.new ≡ self.old) }
    {
        match head.block_type {
            BlockType::SectionHeader => {
                check_version(head.order, block)?;
                self.order = Some(head.order);
                self.interfaces.clear();
                Ok(Block::Section)
            }
            BlockType::InterfaceDescription => {
                if self.interfaces.is_full() {
                    return Err(BlockError::TooManyInterfaces);
                }
                let interface = Interface::from_block(head.order, block)?;
                self.interfaces.push(interface);
                Ok(Block::Interface(interface))
            }
            BlockType::Packet(packet_type) => {
                let packet = self.packet_head(head, packet_type, block)?;
                let start = packet_type.data_start();
                let end = start + packet.captured_len as usize;
                Ok(Block::Packet {
                    head: packet,
                    bytes: &block[start..end],
                })
            }
            BlockType::Other(number) => Ok(Block::Other(number)),
        }
    }
}

/// The head of the block at the front of a slice, whether or not the rest of the block is there,
/// for a program that reads a file in pieces.
///
/// # Errors
///
/// `CutOff` if the slice has fewer than 8 bytes; otherwise `Magic` if no section has begun and the
/// block begins none; otherwise, for a Section Header Block, `CutOff` if there are fewer than 12
/// bytes, and then `ByteOrderMagic` if its byte-order magic is wrong; otherwise `BlockLength` if
/// the total length is wrong.
pub fn block_head(section: &Section, slice: &[u8]) -> Result<BlockHead, BlockError>
    ensures reads { ReadsHead section.now slice.now result }
    ensures only { (other : HeadReading) → ReadsHead section.now slice.now other →
        other ≡ result }
{
    if slice.len() < 8 {
        return Err(cut_off(8, slice));
    }
    let order = match order_of(section, slice) {
        Ok(order) => order,
        Err(e) => return Err(e),
    };
    let head = BlockHead {
        order,
        block_type: BlockType::from_number(order.u32_of(&slice[..4])),
        total_len: order.u32_of(&slice[4..8]),
    };
    if !head.has_right_length() {
        return Err(BlockError::BlockLength {
            block_type: head.block_type,
            total_len: head.total_len,
        });
    }
    Ok(head)
}

/// The block at the front of a slice, and all the bytes after it; `None` if the slice is empty. The
/// bytes after it are fewer by at least 12, so a loop over the blocks ends.
///
/// The section is then what the next block is read by: a Section Header Block begins a new one, and
/// an Interface Description Block adds an interface to it. After an error it is what it was.
///
/// # Errors
///
/// If the slice has some bytes, those of [`block_head`]; otherwise `CutOff` if it has fewer bytes
/// than the block; otherwise `Lengths` if the block does not end with its length; otherwise what is
/// wrong in the block: `Version` for a Section Header Block; `TooManyInterfaces`, or else
/// `OptionLength` or `Resolution` for the first option that is wrong, for an Interface Description
/// Block; `Interface`, or else `CapturedLength`, for a block with a packet.
///
/// # Example
///
/// ```
/// // A section of little-endian numbers, without a length of its own.
/// let file = [
///     0x0a, 0x0d, 0x0d, 0x0a, 28, 0, 0, 0, 0x4d, 0x3c, 0x2b, 0x1a, 1, 0, 0, 0, 0xff, 0xff, 0xff,
///     0xff, 0xff, 0xff, 0xff, 0xff, 28, 0, 0, 0,
/// ];
/// let mut section = Section::none();
/// let expected = Ok(Some((Block::Section, [].as_slice())));
/// assert!(rt; next_block(&mut section, &file) == expected);
/// assert!(rt; section.order == Some(ByteOrder::LittleEndian));
/// assert!(rt; next_block(&mut section, &[]) == Ok(None));
/// ```
pub fn next_block<'a>(
    section: &mut Section,
    slice: &'a [u8],
) -> Result<Option<(Block<'a>, &'a [u8])>, BlockError>
    ensures reads { ReadsBlock section.old slice.now (block_reading section.new result) }
    ensures only { (other : BlockReading) → ReadsBlock section.old slice.now other →
        other ≡ block_reading section.new result }
    ensures shorter { IfOk result (λ next. IfSome next (λ x.
        12 + length x.1.now ≤ length slice.now)) }
    ensures kept { IfErr result (λ _. section.new ≡ section.old) }
    ensures kept_at_end { IfOk result (λ next. IfNone next (section.new ≡ section.old)) }
{
    if slice.is_empty() {
        return Ok(None);
    }
    let head = match block_head(section, slice) {
        Ok(head) => head,
        Err(e) => return Err(e),
    };
    let block = match head.block(slice) {
        Ok(block) => block,
        Err(e) => return Err(e),
    };
    match section.read(&head, block) {
        Ok(said) => Ok(Some((said, &slice[block.len()..]))),
        Err(e) => Err(e),
    }
}

// The byte order of the block at the front of a slice.
fn order_of(section: &Section, slice: &[u8]) -> Result<ByteOrder, BlockError>
    requires enough { 8 ≤ length slice.now }
    ensures enough { OnOk result (front_len slice.now ≤ length slice.now) }
    ensures order { IfOk result (λ order. order_of section.now slice.now ≡ Some order) }
    ensures refused { IfErr result (λ e. ReadsHead section.now slice.now (Err e)) }
{
    let magic = u32::from_be_bytes([slice[0], slice[1], slice[2], slice[3]]);
    if magic != 0x0a0d_0d0a {
        return section.order.ok_or(BlockError::Magic(magic));
    }
    if slice.len() < 12 {
        return Err(cut_off(12, slice));
    }
    let magic = u32::from_be_bytes([slice[8], slice[9], slice[10], slice[11]]);
    order_told_by(magic).ok_or(BlockError::ByteOrderMagic(magic))
}

// What a byte-order magic says, read with the high byte first.
#[tactic(auto, unfolding(crate::specs::Pcapng::Blocks::order_told_by))]
fn order_told_by(magic: u32) -> Option<ByteOrder>
    ensures value { result ≡ order_told_by magic }
{
    match magic {
        0x1a2b_3c4d => Some(ByteOrder::BigEndian),
        0x4d3c_2b1a => Some(ByteOrder::LittleEndian),
        _ => None,
    }
}

// That the version of a section header is one that is read.
fn check_version(order: ByteOrder, block: &[u8]) -> Result<(), BlockError>
    requires enough { 16 ≤ length block.now }
    ensures known { OnOk result (IsRead (major order block.now) (minor order block.now)) }
    ensures other { OnErr result (¬ IsRead (major order block.now) (minor order block.now)) }
    ensures error { IfErr result (λ e.
        e ≡ BlockError.Version (major order block.now) (minor order block.now)) }
{
    let major = order.u16_of(&block[12..14]);
    let minor = order.u16_of(&block[14..16]);
    if major != 1 || (minor != 0 && minor != 2) {
        return Err(BlockError::Version { major, minor });
    }
    Ok(())
}

// The error of a slice that has fewer bytes than required.
fn cut_off(required_len: usize, slice: &[u8]) -> BlockError
    ensures value { result ≡ BlockError.CutOff (record {
      required_len = required_len;
      len = length slice.now;
    }) }
{
    BlockError::CutOff(CutOff {
        required_len,
        len: slice.len(),
    })
}
