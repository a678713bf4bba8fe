//! Captures in either format, classic or pcapng, block by block. A block of the classic format is a
//! record.

ghost use Rattle.std.specs.Prelude.{◌≡◌, ◌+◌, ◌≤◌, ◌↔◌, IfErr, IfNone, IfOk, IfSome, IsTrue, length};
ghost use Rattle.packet_capture.specs.Any.{FrontReading, IsPcapng, NextReading, ReadsFront};
ghost use Rattle.packet_capture.specs.Any.{ReadsNext, front_and_rest};
ghost use Rattle.packet_capture.specs.Any.{head_of_packet, head_of_record, next_reading, said};
ghost use Rattle.packet_capture.specs.Any.{said_of, stamp_on};
ghost use Rattle.packet_capture.specs.Pcapng.Blocks as blocks;

use crate::capture::{self, CaptureError, FileHeader, next_record};
use crate::pcapng::blocks::{self, BlockError, Section};
use crate::pcapng::interfaces::Interface;
use crate::pcapng::{packets, times};

/// A capture, as far as its blocks so far say how the next one is read.
#[derive(Debug, PartialEq, Drop)]
pub enum Capture {
    /// In the classic format, with this file header.
    Pcap(FileHeader),
    /// In pcapng.
    Pcapng(Section),
}

/// When a packet was captured, as its capture says it.
#[derive(Clone, Copy, Debug, PartialEq, Eq)]
pub enum Stamp {
    /// In the classic format.
    Recorded {
        /// Seconds since the start of 1970, UTC.
        seconds: u32,
        /// Nanoseconds of that second. They are not checked to be less than a second.
        nanoseconds: u64,
        /// The unit in which the file counts fractions of a second.
        resolution: capture::Resolution,
    },
    /// In pcapng.
    Counted {
        /// How many units since the start of 1970, UTC.
        timestamp: u64,
        /// The unit.
        resolution: times::Resolution,
        /// Seconds to add; a negative number is in two's complement.
        offset: u64,
    },
    /// Not at all: a Simple Packet Block of pcapng.
    Unknown,
}

/// The time of a packet.
#[derive(Clone, Copy, Debug, PartialEq, Eq)]
pub struct Time {
    /// Seconds since the start of 1970, UTC, modulo 2^64; 0 if the capture does not say when.
    pub seconds: u64,
    /// Nanoseconds of that second. In the classic format they can be a second or more.
    pub nanoseconds: u64,
}

/// What a block says about its packet.
#[derive(Clone, Copy, Debug, PartialEq, Eq)]
pub struct PacketHead {
    /// The link type of its frame: in the classic format the lower 16 bits of the field in the file
    /// header, whose upper bits can describe a frame check sequence.
    pub link_type: u16,
    /// When it was captured. See [`PacketHead::time`].
    pub stamp: Stamp,
    /// How many bytes of the packet were kept.
    pub captured_len: u32,
    /// The length of the packet in bytes.
    pub original_len: u32,
}

/// A block.
#[derive(Clone, Copy, Debug, PartialEq, Eq)]
pub enum Block<'a> {
    /// A packet.
    Packet {
        /// What the block says about it.
        head: PacketHead,
        /// The bytes of the packet that were kept. They live as long as the slice that was read.
        bytes: &'a [u8],
    },
    /// A block of pcapng that has no packet.
    Other,
}

impl Capture {
    /// The capture at the front of a file, and the bytes from its first block on: after the file
    /// header of the classic format, and all bytes of pcapng.
    ///
    /// # Errors
    ///
    /// Those of [`FileHeader::from_slice`] if the first four bytes are not those of pcapng.
    pub fn from_slice(file: &[u8]) -> Result<(Capture, &[u8]), CaptureError>
        ensures reads { ReadsFront file.now (front_and_rest result) }
        ensures only { (other : FrontReading) → ReadsFront file.now other →
            other ≡ front_and_rest result }
    {
        if is_pcapng(file) {
            return Ok((Capture::Pcapng(Section::none()), file));
        }
        match FileHeader::from_slice(file) {
            Ok((header, records)) => Ok((Capture::Pcap(header), records)),
            Err(e) => Err(e),
        }
    }
}

// Whether a file begins as pcapng does.
fn is_pcapng(file: &[u8]) -> bool
    ensures value { IsTrue result ↔ IsPcapng file.now }
{
    file.len() >= 4 && u32::from_be_bytes([file[0], file[1], file[2], file[3]]) == 0x0a0d_0d0a
}

impl PacketHead {
    ghost use Rattle.std.specs.Prelude.{◌≡◌};
    ghost use Rattle.packet_capture.specs.Any.{is_fine, nanoseconds_of, seconds_of};

    /// The time of the packet.
    pub fn time(&self) -> Time
        ensures seconds { result.seconds ≡ seconds_of self.now.stamp }
        ensures nanoseconds { result.nanoseconds ≡ nanoseconds_of self.now.stamp }
    {
        match self.stamp {
            Stamp::Recorded {
                seconds,
                nanoseconds,
                ..
            } => Time {
                seconds: u64::from(seconds),
                nanoseconds,
            },
            Stamp::Counted {
                timestamp,
                resolution,
                offset,
            } => {
                let time = resolution.time_of(offset, timestamp);
                Time {
                    seconds: time.seconds,
                    nanoseconds: u64::from(time.nanoseconds),
                }
            }
            Stamp::Unknown => Time {
                seconds: 0,
                nanoseconds: 0,
            },
        }
    }

    /// Whether its time is counted in a unit smaller than a microsecond.
    pub fn is_fine(&self) -> bool
        ensures value { result ≡ is_fine self.now.stamp }
    {
        match self.stamp {
            Stamp::Recorded { resolution, .. } => match resolution {
                capture::Resolution::Microseconds => false,
                capture::Resolution::Nanoseconds => true,
            },
            Stamp::Counted { resolution, .. } => match resolution {
                times::Resolution::PowerOfTen(power) => power > 6,
                times::Resolution::PowerOfTwo(power) => power > 19,
            },
            Stamp::Unknown => false,
        }
    }

    /// The head of the packet in a record of the classic format. The caller has to pass the 16 bytes
    /// of the record's head at least.
    pub fn of_record(header: &FileHeader, slice: &[u8]) -> PacketHead
        requires enough { 16 ≤ length slice.now }
        ensures value { result ≡ head_of_record header.now slice.now }
    {
        let head = header.record_head(slice);
        PacketHead {
            link_type: (header.link_type % 65_536) as u16,
            stamp: Stamp::Recorded {
                seconds: head.seconds,
                nanoseconds: head.nanoseconds,
                resolution: header.format.resolution,
            },
            captured_len: head.captured_len,
            original_len: head.original_len,
        }
    }

    /// The head of a packet of pcapng.
    pub fn of_packet(head: &packets::PacketHead) -> PacketHead
        ensures value { result ≡ head_of_packet head.now }
    {
        PacketHead {
            link_type: head.interface.link_type,
            stamp: stamp_on(&head.interface, head.timestamp),
            captured_len: head.captured_len,
            original_len: head.original_len,
        }
    }
}

// When a packet of an interface was captured.
fn stamp_on(interface: &Interface, timestamp: Option<u64>) -> Stamp
    ensures value { result ≡ stamp_on interface.now timestamp }
{
    match timestamp {
        Some(timestamp) => Stamp::Counted {
            timestamp,
            resolution: interface.resolution,
            offset: interface.offset,
        },
        None => Stamp::Unknown,
    }
}

/// The block at the front of a slice that follows the front of the file or another block, and all
/// the bytes after it; `None` if the slice is empty. The bytes after it are fewer by at least 12, so
/// a loop over the blocks ends.
///
/// The capture is then what the next block is read by. After an error it is what it was.
///
/// # Errors
///
/// In the classic format `CutOff` alone, as [`next_record`]; in pcapng those of
/// [`blocks::next_block`].
///
/// # Example
///
/// ```
/// // pcapng: a section, an interface of packets that begin with their IP header, and a packet of
/// // 3 bytes, 1,000,001 microseconds after the start of 1970.
/// let file = [
///     0x0a, 0x0d, 0x0d, 0x0a, 28, 0, 0, 0, 0x4d, 0x3c, 0x2b, 0x1a, 1, 0, 0, 0, 0xff, 0xff, 0xff,
///     0xff, 0xff, 0xff, 0xff, 0xff, 28, 0, 0, 0, 1, 0, 0, 0, 20, 0, 0, 0, 101, 0, 0, 0, 0, 0, 0, 0,
///     20, 0, 0, 0, 6, 0, 0, 0, 36, 0, 0, 0, 0, 0, 0, 0, 0, 0, 0, 0, 0x41, 0x42, 0x0f, 0, 3, 0, 0, 0,
///     5, 0, 0, 0, b'a', b'b', b'c', 0, 36, 0, 0, 0,
/// ];
/// let (mut capture, bytes) = Capture::from_slice(&file)?;
/// let mut rest = bytes;
/// let mut found = None;
/// 'next: while let Some((block, after)) = next_block(&mut capture, rest)? {
///     if let Block::Packet { head, bytes } = block {
///         found = Some((head.link_type, head.time().seconds, bytes.len()));
///     }
///     rest = after;
/// }
/// assert!(rt; found == Some((101, 1, 3)));
/// ```
pub fn next_block<'a>(
    capture: &mut Capture,
    slice: &'a [u8],
) -> Result<Option<(Block<'a>, &'a [u8])>, BlockError>
    ensures reads { ReadsNext capture.old slice.now (next_reading capture.new result) }
    ensures only { (other : NextReading) → ReadsNext capture.old slice.now other →
        other ≡ next_reading capture.new result }
    ensures shorter { IfOk result (λ next. IfSome next (λ x.
        12 + length x.1.now ≤ length slice.now)) }
    ensures kept { IfErr result (λ _. capture.new ≡ capture.old) }
    ensures kept_at_end { IfOk result (λ next. IfNone next (capture.new ≡ capture.old)) }
{
    match capture {
        Capture::Pcap(header) => next_of_records(header, slice),
        Capture::Pcapng(section) => next_of_blocks(section, slice),
    }
}

// The next block of the classic format.
fn next_of_records<'a>(
    header: &FileHeader,
    slice: &'a [u8],
) -> Result<Option<(Block<'a>, &'a [u8])>, BlockError>
    ensures reads { ReadsNext (Capture.Pcap header.now) slice.now
        (next_reading (Capture.Pcap header.now) result) }
    ensures only { (other : NextReading) → ReadsNext (Capture.Pcap header.now) slice.now other →
        other ≡ next_reading (Capture.Pcap header.now) result }
    ensures shorter { IfOk result (λ next. IfSome next (λ x.
        12 + length x.1.now ≤ length slice.now)) }
{
    match next_record(header, slice) {
        Ok(Some((record, rest))) => {
            let head = PacketHead::of_record(header, slice);
            let bytes = record.bytes;
            Ok(Some((Block::Packet { head, bytes }, rest)))
        }
        Ok(None) => Ok(None),
        Err(e) => Err(BlockError::CutOff(e)),
    }
}

// The next block of pcapng.
fn next_of_blocks<'a>(
    section: &mut Section,
    slice: &'a [u8],
) -> Result<Option<(Block<'a>, &'a [u8])>, BlockError>
    ensures reads { ReadsNext (Capture.Pcapng section.old) slice.now
        (next_reading (Capture.Pcapng section.new) result) }
    ensures only { (other : NextReading) → ReadsNext (Capture.Pcapng section.old) slice.now other →
        other ≡ next_reading (Capture.Pcapng section.new) result }
    ensures shorter { IfOk result (λ next. IfSome next (λ x.
        12 + length x.1.now ≤ length slice.now)) }
    ensures kept { IfErr result (λ _. section.new ≡ section.old) }
    ensures kept_at_end { IfOk result (λ next. IfNone next (section.new ≡ section.old)) }
{
    match blocks::next_block(section, slice) {
        Ok(Some((block, rest))) => Ok(Some((of_block(&block), rest))),
        Ok(None) => Ok(None),
        Err(e) => Err(e),
    }
}

// What a block of pcapng says of a packet.
fn of_block<'a>(block: &blocks::Block<'a>) -> Block<'a>
    ensures value { said result ≡ said_of (blocks.said block.now) }
{
    match block {
        blocks::Block::Packet { head, bytes } => Block::Packet {
            head: PacketHead::of_packet(head),
            bytes: *bytes,
        },
        blocks::Block::Section | blocks::Block::Interface(_) | blocks::Block::Other(_) => {
            Block::Other
        }
    }
}
