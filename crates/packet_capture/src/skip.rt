//! Blocks that a program skips in pieces, since they are too long for it.

ghost use Rattle.std.specs.Prelude.{◌≡◌, ◌≤◌, Ok, IfErr, IfOk, OnErr, OnOk, length};
ghost use Rattle.packet_capture.specs.Any.{head_of_packet};
ghost use Rattle.packet_capture.specs.Skip.{BlockFrontReading, ReadsBlockFront, SaysContent};
ghost use Rattle.packet_capture.specs.Skip.{EndsRight, HasOtherEnd, front_len};
ghost use Rattle.packet_capture.specs.Pcapng.Blocks.{ReadsHead};

use crate::any::{Capture, PacketHead};
use crate::capture::{FileHeader, RecordHead};
use crate::pcapng::blocks::{BlockError, BlockHead, BlockType, Section, block_head};

/// What the front of a block says, whether or not the rest of the block is there.
#[derive(Clone, Copy, Debug, PartialEq, Eq)]
pub struct BlockFront {
    /// What the block holds.
    pub content: Content,
    /// The length of the block in bytes.
    pub len: usize,
    /// In pcapng, the head of the block; `None` in the classic format.
    pub head: Option<BlockHead>,
}

/// What a block holds.
#[derive(Clone, Copy, Debug, PartialEq, Eq)]
pub enum Content {
    /// A packet.
    Packet(PacketHead),
    /// A packet that is refused: it is of no interface of the section (`Interface`), or the block
    /// has no room for its bytes (`CapturedLength`).
    Refused(BlockError),
    /// A section header or the description of an interface: what the next blocks are read by. A
    /// program that skips it cannot read them.
    Description,
    /// Another block of pcapng.
    Other,
}

impl Capture {
    /// How many bytes [`Capture::block_front`] reads: in the classic format the 16 of the head of a
    /// record; in pcapng 28, which is all that stands before the bytes of a packet.
    pub fn front_len(&self) -> usize
        ensures value { result ≡ front_len self.now }
    {
        match self {
            Capture::Pcap(_) => RecordHead::LEN,
            Capture::Pcapng(_) => 28,
        }
    }

    /// What the front of the block at the front of a slice says, whether or not the rest of the
    /// block is there. The slice must have [`Capture::front_len`] bytes. A short block at the end of
    /// a file does not have as many; [`crate::any::next_block`] reads it.
    ///
    /// # Errors
    ///
    /// In pcapng those of [`block_head`] but `CutOff`; none in the classic format.
    ///
    /// # Example
    ///
    /// ```
    /// // The first bytes of a section header of pcapng that has 400,000 bytes.
    /// let file = [
    ///     0x0a, 0x0d, 0x0d, 0x0a, 0x80, 0x1a, 6, 0, 0x4d, 0x3c, 0x2b, 0x1a, 1, 0, 0, 0, 0xff, 0xff,
    ///     0xff, 0xff, 0xff, 0xff, 0xff, 0xff, 1, 0, 0, 0,
    /// ];
    /// let (capture, bytes) = Capture::from_slice(&file)?;
    /// let front = capture.block_front(bytes)?;
    /// assert!(rt; (front.len, front.content) == (400_000, Content::Description));
    /// ```
    pub fn block_front(&self, slice: &[u8]) -> Result<BlockFront, BlockError>
        requires enough { front_len self.now ≤ length slice.now }
        ensures reads { ReadsBlockFront self.now slice.now result }
        ensures only { (other : BlockFrontReading) → ReadsBlockFront self.now slice.now other →
            other ≡ result }
    {
        match self {
            Capture::Pcap(header) => Ok(front_of_record(header, slice)),
            Capture::Pcapng(section) => front_of_block(section, slice),
        }
    }
}

impl BlockFront {
    /// That the last four bytes of the block repeat its length, as all blocks of pcapng do.
    ///
    /// # Errors
    ///
    /// `Lengths` if they are another length.
    pub fn check_end(&self, last: [u8; 4]) -> Result<(), BlockError>
        ensures same { OnOk result (EndsRight self.now.head last) }
        ensures other { IfErr result (HasOtherEnd self.now.head last) }
    {
        match &self.head {
            Some(head) => head.check_end(last),
            None => Ok(()),
        }
    }
}

// What the head of a record says.
fn front_of_record(header: &FileHeader, slice: &[u8]) -> BlockFront
    requires enough { 16 ≤ length slice.now }
    ensures reads { ReadsBlockFront (Capture.Pcap header.now) slice.now (Ok result) }
{
    let head = PacketHead::of_record(header, slice);
    BlockFront {
        content: Content::Packet(head),
        len: RecordHead::LEN + head.captured_len as usize,
        head: None,
    }
}

// What the front of a block of pcapng says.
fn front_of_block(section: &Section, slice: &[u8]) -> Result<BlockFront, BlockError>
    requires enough { 28 ≤ length slice.now }
    ensures reads { ReadsBlockFront (Capture.Pcapng section.now) slice.now result }
{
    let head = match block_head(section, slice) {
        Ok(head) => head,
        Err(e) => return Err(e),
    };
    Ok(BlockFront {
        content: content_of(section, &head, slice),
        len: head.total_len as usize,
        head: Some(head),
    })
}

// What a block of pcapng holds.
fn content_of(section: &Section, head: &BlockHead, slice: &[u8]) -> Content
    requires enough { 28 ≤ length slice.now }
    requires right { ReadsHead section.now slice.now (Ok head.now) }
    ensures says { SaysContent head.now.block_type section.now head.now slice.now result }
{
    match head.block_type {
        BlockType::Packet(packet_type) => match section.packet_head(head, packet_type, slice) {
            Ok(packet) => Content::Packet(PacketHead::of_packet(&packet)),
            Err(e) => Content::Refused(e),
        },
        BlockType::SectionHeader | BlockType::InterfaceDescription => Content::Description,
        BlockType::Other(_) => Content::Other,
    }
}
