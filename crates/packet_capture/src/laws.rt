//! What the derived `==`, `clone` and `default` of the values of this crate say, each as the clause of
//! one small function; `==` speaks for the values within them too. Nothing calls them: they are there
//! to be proved.

ghost use Rattle.std.specs.Prelude.{◌≡◌, ◌↔◌, IsTrue, Ok};
ghost use Rattle.packet_capture.specs.Any.{said};
ghost use Rattle.packet_capture.specs.Capture.{recorded};
ghost use Rattle.packet_capture.specs.Pcapng.Blocks.{said as said_in_pcapng};
ghost use Rattle.packet_capture.specs.declared.any.Stamp.TheVariants.{Counted};
ghost use Rattle.packet_capture.specs.declared.capture.CaptureError.TheVariants as file;
ghost use Rattle.packet_capture.specs.declared.pcapng.blocks.BlockError.TheVariants as error;
ghost use Rattle.packet_capture.specs.declared.pcapng.times.Resolution.TheVariants.{PowerOfTen};

use crate::any::{self, Capture, Stamp};
use crate::capture::{
    ByteOrder, CaptureError, CutOff, FileHeader, Format, Record, RecordHead, Resolution,
};
use crate::file_format::FileFormat;
use crate::pcapng::blocks::{self, BlockError, BlockHead, BlockType};
use crate::pcapng::interfaces::Interface;
use crate::pcapng::packets::{self, PacketType};
use crate::pcapng::times;
use crate::skip::{BlockFront, Content};
use std::alloc::AllocError;

fn file_format_equality(a: &FileFormat, b: &FileFormat) -> bool
    ensures same_value { IsTrue result ↔ (a.now ≡ b.now) }
{
    a == b
}

fn capture_equality(a: &Capture, b: &Capture) -> bool
    ensures same_value { IsTrue result ↔ (a.now ≡ b.now) }
{
    a == b
}

fn capture_error_equality(a: &CaptureError, b: &CaptureError) -> bool
    ensures same_value { IsTrue result ↔ (a.now ≡ b.now) }
{
    a == b
}

fn record_head_equality(a: &RecordHead, b: &RecordHead) -> bool
    ensures same_value { IsTrue result ↔ (a.now ≡ b.now) }
{
    a == b
}

fn block_front_equality(a: &BlockFront, b: &BlockFront) -> bool
    ensures same_value { IsTrue result ↔ (a.now ≡ b.now) }
{
    a == b
}

fn time_equality(a: &any::Time, b: &any::Time) -> bool
    ensures same_value { IsTrue result ↔ (a.now ≡ b.now) }
{
    a == b
}

fn time_of_pcapng_equality(a: &times::Time, b: &times::Time) -> bool
    ensures same_value { IsTrue result ↔ (a.now ≡ b.now) }
{
    a == b
}

// Records and blocks are equal if they say the same, wherever their bytes lie in memory.
fn record_equality(a: &Record, b: &Record) -> bool
    ensures same_bytes { IsTrue result ↔ (recorded a.now ≡ recorded b.now) }
{
    a == b
}

fn block_equality(a: &any::Block, b: &any::Block) -> bool
    ensures same_bytes { IsTrue result ↔ (said a.now ≡ said b.now) }
{
    a == b
}

fn block_of_pcapng_equality(a: &blocks::Block, b: &blocks::Block) -> bool
    ensures same_bytes { IsTrue result ↔ (said_in_pcapng a.now ≡ said_in_pcapng b.now) }
{
    a == b
}

// A clone is equal, and cloning never fails.
fn byte_order_clone(order: &ByteOrder) -> Result<ByteOrder, AllocError>
    ensures same_value { result ≡ Ok order.now }
{
    order.clone()
}

fn resolution_clone(resolution: &Resolution) -> Result<Resolution, AllocError>
    ensures same_value { result ≡ Ok resolution.now }
{
    resolution.clone()
}

fn format_clone(format: &Format) -> Result<Format, AllocError>
    ensures same_value { result ≡ Ok format.now }
{
    format.clone()
}

fn file_header_clone(header: &FileHeader) -> Result<FileHeader, AllocError>
    ensures same_value { result ≡ Ok header.now }
{
    header.clone()
}

fn cut_off_clone(error: &CutOff) -> Result<CutOff, AllocError>
    ensures same_value { result ≡ Ok error.now }
{
    error.clone()
}

fn capture_error_clone(error: &CaptureError) -> Result<CaptureError, AllocError>
    ensures same_value { result ≡ Ok error.now }
{
    error.clone()
}

fn record_head_clone(head: &RecordHead) -> Result<RecordHead, AllocError>
    ensures same_value { result ≡ Ok head.now }
{
    head.clone()
}

fn record_clone<'a>(one: &Record<'a>) -> Result<Record<'a>, AllocError>
    ensures same_value { result ≡ Ok one.now }
{
    one.clone()
}

fn file_format_clone(format: &FileFormat) -> Result<FileFormat, AllocError>
    ensures same_value { result ≡ Ok format.now }
{
    format.clone()
}

fn block_front_clone(front: &BlockFront) -> Result<BlockFront, AllocError>
    ensures same_value { result ≡ Ok front.now }
{
    front.clone()
}

fn content_clone(content: &Content) -> Result<Content, AllocError>
    ensures same_value { result ≡ Ok content.now }
{
    content.clone()
}

fn interface_clone(interface: &Interface) -> Result<Interface, AllocError>
    ensures same_value { result ≡ Ok interface.now }
{
    interface.clone()
}

fn resolution_of_pcapng_clone(
    resolution: &times::Resolution,
) -> Result<times::Resolution, AllocError>
    ensures same_value { result ≡ Ok resolution.now }
{
    resolution.clone()
}

fn time_of_pcapng_clone(time: &times::Time) -> Result<times::Time, AllocError>
    ensures same_value { result ≡ Ok time.now }
{
    time.clone()
}

fn block_of_pcapng_clone<'a>(block: &blocks::Block<'a>) -> Result<blocks::Block<'a>, AllocError>
    ensures same_value { result ≡ Ok block.now }
{
    block.clone()
}

fn block_type_clone(block_type: &BlockType) -> Result<BlockType, AllocError>
    ensures same_value { result ≡ Ok block_type.now }
{
    block_type.clone()
}

fn block_head_clone(head: &BlockHead) -> Result<BlockHead, AllocError>
    ensures same_value { result ≡ Ok head.now }
{
    head.clone()
}

fn block_error_clone(error: &BlockError) -> Result<BlockError, AllocError>
    ensures same_value { result ≡ Ok error.now }
{
    error.clone()
}

fn packet_type_clone(packet_type: &PacketType) -> Result<PacketType, AllocError>
    ensures same_value { result ≡ Ok packet_type.now }
{
    packet_type.clone()
}

fn packet_head_of_pcapng_clone(
    head: &packets::PacketHead,
) -> Result<packets::PacketHead, AllocError>
    ensures same_value { result ≡ Ok head.now }
{
    head.clone()
}

fn stamp_clone(stamp: &Stamp) -> Result<Stamp, AllocError>
    ensures same_value { result ≡ Ok stamp.now }
{
    stamp.clone()
}

fn time_clone(time: &any::Time) -> Result<any::Time, AllocError>
    ensures same_value { result ≡ Ok time.now }
{
    time.clone()
}

fn packet_head_clone(head: &any::PacketHead) -> Result<any::PacketHead, AllocError>
    ensures same_value { result ≡ Ok head.now }
{
    head.clone()
}

fn block_clone<'a>(block: &any::Block<'a>) -> Result<any::Block<'a>, AllocError>
    ensures same_value { result ≡ Ok block.now }
{
    block.clone()
}

// An interface of which nothing is said but that it is there counts microseconds.
fn interface_default() -> Interface
    ensures value { result ≡ record {
      link_type = 0;
      snap_len = 0;
      resolution = PowerOfTen 6;
      offset = 0;
    } }
{
    Interface::default()
}

// The fields of a variant, by their names, are those of the definitions in their order.
fn counted_fields(timestamp: u64, resolution: times::Resolution, offset: u64) -> Stamp
    ensures by_name { result ≡ Counted timestamp resolution offset }
{
    Stamp::Counted {
        timestamp,
        resolution,
        offset,
    }
}

fn file_version_fields(major: u16, minor: u16) -> CaptureError
    ensures by_name { result ≡ file.Version major minor }
{
    CaptureError::Version { major, minor }
}

fn lengths_fields(front: u32, back: u32) -> BlockError
    ensures by_name { result ≡ error.Lengths front back }
{
    BlockError::Lengths { front, back }
}

fn version_fields(major: u16, minor: u16) -> BlockError
    ensures by_name { result ≡ error.Version major minor }
{
    BlockError::Version { major, minor }
}

fn option_length_fields(code: u16, len: u16, place: usize) -> BlockError
    ensures by_name { result ≡ error.OptionLength code len place }
{
    BlockError::OptionLength { code, len, place }
}

fn captured_length_fields(captured_len: u32, room: u32) -> BlockError
    ensures by_name { result ≡ error.CapturedLength captured_len room }
{
    BlockError::CapturedLength { captured_len, room }
}
