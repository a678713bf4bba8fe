//! A reader of captures: the records of a file in the classic format of libpcap
//! (draft-ietf-opsawg-pcap sections 4 and 5).

ghost use Rattle.std.specs.Prelude.{◌≡◌, ◌+◌, ◌*◌, ◌≤◌, IfOk, IfSome, Some, length};
ghost use Rattle.std.specs.Int.{w16, w32, w64};
ghost use Rattle.etherparse.specs.Reading.{found_and_rest};
ghost use Rattle.packet_capture.specs.Capture.{FileReading, ReadsFileHeader, ReadsRecord, RecordReading};
ghost use Rattle.packet_capture.specs.Capture.{nanoseconds_in, number_in, record_and_rest, record_head};
ghost use Rattle.packet_capture.specs.Capture.{told_by};
ghost use Rattle.packet_capture.specs.ErrorText.{capture_error_text, cut_off_text};

use crate::word::Word;
use std::error::Error;
use std::fmt;

/// The byte order of all numbers in a file: that of the machine that wrote it.
#[derive(Clone, Copy, Debug, PartialEq, Eq)]
pub enum ByteOrder {
    /// The high byte first.
    BigEndian,
    /// The low byte first.
    LittleEndian,
}

/// The unit of the fractions of a second in a file.
#[derive(Clone, Copy, Debug, PartialEq, Eq)]
pub enum Resolution {
    /// Magic number a1b2c3d4.
    Microseconds,
    /// Magic number a1b23c4d.
    Nanoseconds,
}

/// How a file stores its numbers and times: bytes 0 to 3, the magic number.
#[derive(Clone, Copy, Debug, PartialEq, Eq)]
pub struct Format {
    /// The byte order in which the magic number is written.
    pub order: ByteOrder,
    /// The unit that the magic number stands for.
    pub resolution: Resolution,
}

/// The header of a capture file, of 24 bytes. Bytes 8 to 15 are not read.
#[derive(Clone, Copy, Debug, PartialEq, Eq)]
pub struct FileHeader {
    /// How numbers and times are stored: bytes 0 to 3.
    pub format: Format,
    /// The snap length, the most bytes of a packet that were to be kept: bytes 16 to 19. Records
    /// are not checked against it.
    pub snap_len: u32,
    /// The link type, 1 for Ethernet and 101 for packets that begin with their IP header: all of
    /// bytes 20 to 23, whose upper bits can describe a frame check sequence.
    pub link_type: u32,
}

/// There are fewer bytes than a file header, a record or a block needs.
#[derive(Clone, Copy, Debug, PartialEq, Eq)]
pub struct CutOff {
    /// How many bytes are needed: 24 for a file header; for a record 16, for a block of pcapng 8, or
    /// 12 if it begins a section; or, once there are that many, its whole length.
    pub required_len: usize,
    /// How many bytes there are.
    pub len: usize,
}

impl fmt::Display for CutOff {
    ghost output = { λ error. Some (cut_off_text error) };

    #[tactic(auto, unfolding(crate::specs::ErrorText::cut_off_text))]
    fn fmt<W: fmt::Write>(&self, f: &mut fmt::Formatter<W>) -> fmt::Result {
        let (required_len, len) = (self.required_len, self.len);
        write!(
            f,
            "Capture Error: {required_len} byte(s) are needed, but there are only {len}."
        )
    }
}

impl Error for CutOff {}

/// Why a slice does not begin with the header of a capture file.
#[derive(Clone, Copy, Debug, PartialEq, Eq)]
pub enum CaptureError {
    /// The slice has fewer than 24 bytes.
    CutOff(CutOff),
    /// The first four bytes, with the high byte first, which are not a known magic number.
    Magic(u32),
    /// The version, which is not 2.4: major in bytes 4 and 5, minor in bytes 6 and 7.
    Version { major: u16, minor: u16 },
}

impl fmt::Display for CaptureError {
    ghost output = { λ error. Some (capture_error_text error) };

    #[tactic(auto, unfolding(crate::specs::ErrorText::capture_error_text))]
    fn fmt<W: fmt::Write>(&self, f: &mut fmt::Formatter<W>) -> fmt::Result {
        match *self {
            CaptureError::CutOff(e) => fmt::Display::fmt(&e, f),
            CaptureError::Magic(magic) => {
                let magic = Word(magic);
                write!(f, "Capture Error: The magic number 0x{magic} is not known.")
            }
            CaptureError::Version { major, minor } => {
                write!(f, "Capture Error: Version {major}.{minor} is not read.")
            }
        }
    }
}

impl Error for CaptureError {}

/// The head of a record, of 16 bytes.
#[derive(Clone, Copy, Debug, PartialEq, Eq)]
pub struct RecordHead {
    /// Seconds since the start of 1970, UTC: bytes 0 to 3.
    pub seconds: u32,
    /// Nanoseconds of that second, even if the file counts microseconds: bytes 4 to 7. They are not
    /// checked to be less than a second.
    pub nanoseconds: u64,
    /// How many bytes of the packet were kept: bytes 8 to 11.
    pub captured_len: u32,
    /// The length of the packet in bytes: bytes 12 to 15.
    pub original_len: u32,
}

/// A captured packet: a head of 16 bytes, and the bytes that were kept.
#[derive(Clone, Copy, Debug, PartialEq, Eq)]
pub struct Record<'a> {
    /// Seconds since the start of 1970, UTC: bytes 0 to 3.
    pub seconds: u32,
    /// Nanoseconds of that second, even if the file counts microseconds: bytes 4 to 7. They are not
    /// checked to be less than a second.
    pub nanoseconds: u64,
    /// The length of the packet in bytes, fewer of which may have been kept: bytes 12 to 15.
    pub original_len: u32,
    /// The bytes of the packet that were kept, as many as bytes 8 to 11 say. They live as long as
    /// the slice that was read.
    pub bytes: &'a [u8],
}

const _: () = prove!(FileHeader::LEN == 24 && RecordHead::LEN == 16);

impl RecordHead {
    /// Its length in bytes.
    pub const LEN: usize = 16;
}

impl FileHeader {
    /// Its length in bytes.
    pub const LEN: usize = 24;

    /// The header at the front of a file, and all the bytes after it: its records.
    ///
    /// # Errors
    ///
    /// `CutOff` if the slice has fewer than 24 bytes; otherwise `Magic` if the first four bytes are
    /// not a known magic number; otherwise `Version` if the version is not 2.4.
    ///
    /// # Example
    ///
    /// ```
    /// // A file without records: packets that begin with their IP header, in microseconds.
    /// let file = [
    ///     0xd4, 0xc3, 0xb2, 0xa1, 2, 0, 4, 0, 0, 0, 0, 0, 0, 0, 0, 0, 0xff, 0xff, 0, 0, 101, 0, 0,
    ///     0,
    /// ];
    /// let (header, records) = FileHeader::from_slice(&file)?;
    /// assert!(rt; header.format.resolution == Resolution::Microseconds);
    /// assert!(rt; (header.snap_len, header.link_type) == (65535, 101));
    /// assert!(rt; records.is_empty());
    /// ```
    pub fn from_slice(file: &[u8]) -> Result<(FileHeader, &[u8]), CaptureError>
        ensures reads { ReadsFileHeader file.now (found_and_rest result) }
        ensures only { (other : FileReading) → ReadsFileHeader file.now other →
            other ≡ found_and_rest result }
    {
        if file.len() < FileHeader::LEN {
            return Err(CaptureError::CutOff(CutOff {
                required_len: FileHeader::LEN,
                len: file.len(),
            }));
        }
        let magic = u32::from_be_bytes([file[0], file[1], file[2], file[3]]);
        let format = match format_of(magic) {
            Some(format) => format,
            None => return Err(CaptureError::Magic(magic)),
        };
        let order = format.order;
        let major = order.u16_of(&file[4..6]);
        let minor = order.u16_of(&file[6..8]);
        if major != 2 || minor != 4 {
            return Err(CaptureError::Version { major, minor });
        }
        let header = FileHeader {
            format,
            snap_len: order.u32_of(&file[16..20]),
            link_type: order.u32_of(&file[20..24]),
        };
        Ok((header, &file[FileHeader::LEN..]))
    }

    /// The head at the front of a record. The caller has to pass its 16 bytes at least.
    pub fn record_head(&self, slice: &[u8]) -> RecordHead
        requires enough { 16 ≤ length slice.now }
        ensures value { result ≡ record_head self.now slice.now }
    {
        let order = self.format.order;
        let fraction = order.u32_of(&slice[4..8]);
        RecordHead {
            seconds: order.u32_of(&slice[..4]),
            nanoseconds: self.format.resolution.nanoseconds(fraction),
            captured_len: order.u32_of(&slice[8..12]),
            original_len: order.u32_of(&slice[12..16]),
        }
    }
}

/// The record at the front of a slice that follows the file header or another record, and all the
/// bytes after it; `None` if the slice is empty. The bytes after it are fewer by at least 16, so a
/// loop over the records ends.
///
/// The captured length is not compared with the snap length or with the original length.
///
/// # Errors
///
/// A `CutOff` if the slice has some bytes, but fewer than 16, or fewer than 16 plus the captured
/// length.
///
/// # Example
///
/// ```
/// let format = Format {
///     order: ByteOrder::LittleEndian,
///     resolution: Resolution::Microseconds,
/// };
/// let header = FileHeader {
///     format,
///     snap_len: 65535,
///     link_type: 101,
/// };
/// // 3 bytes of a packet of 5, captured 2 microseconds into second 1.
/// let records = [
///     1, 0, 0, 0, 2, 0, 0, 0, 3, 0, 0, 0, 5, 0, 0, 0, b'a', b'b', b'c',
/// ];
/// let head = header.record_head(&records);
/// assert!(rt; (head.captured_len, head.original_len) == (3, 5));
/// let record = Record {
///     seconds: 1,
///     nanoseconds: 2000,
///     original_len: 5,
///     bytes: b"abc",
/// };
/// let expected = Ok(Some((record, [].as_slice())));
/// assert!(rt; next_record(&header, &records) == expected);
/// assert!(rt; next_record(&header, &[]) == Ok(None));
/// ```
pub fn next_record<'a>(
    header: &FileHeader,
    slice: &'a [u8],
) -> Result<Option<(Record<'a>, &'a [u8])>, CutOff>
    ensures reads { ReadsRecord header.now slice.now (record_and_rest result) }
    ensures only { (other : RecordReading) → ReadsRecord header.now slice.now other →
        other ≡ record_and_rest result }
    ensures shorter { IfOk result (λ next. IfSome next (λ x.
        16 + length x.1.now ≤ length slice.now)) }
{
    if slice.is_empty() {
        return Ok(None);
    }
    if slice.len() < RecordHead::LEN {
        return Err(CutOff {
            required_len: RecordHead::LEN,
            len: slice.len(),
        });
    }
    let head = header.record_head(slice);
    let end = RecordHead::LEN + head.captured_len as usize;
    if slice.len() < end {
        return Err(CutOff {
            required_len: end,
            len: slice.len(),
        });
    }
    let record = Record {
        seconds: head.seconds,
        nanoseconds: head.nanoseconds,
        original_len: head.original_len,
        bytes: &slice[RecordHead::LEN..end],
    };
    Ok(Some((record, &slice[end..])))
}

// What a magic number says, read with the high byte first.
#[tactic(auto, unfolding(crate::specs::Capture::told_by))]
fn format_of(magic: u32) -> Option<Format>
    ensures value { result ≡ told_by magic }
{
    let (order, resolution) = match magic {
        0xa1b2_c3d4 => (ByteOrder::BigEndian, Resolution::Microseconds),
        0xa1b2_3c4d => (ByteOrder::BigEndian, Resolution::Nanoseconds),
        0xd4c3_b2a1 => (ByteOrder::LittleEndian, Resolution::Microseconds),
        0x4d3c_b2a1 => (ByteOrder::LittleEndian, Resolution::Nanoseconds),
        _ => return None,
    };
    Some(Format { order, resolution })
}

impl ByteOrder {
    // Two bytes as a number.
    pub(crate) fn u16_of(self, bytes: &[u8]) -> u16
        requires { length bytes.now ≡ 2 }
        ensures value { result ≡ number_in self w16 bytes.now }
    {
        let bytes = [bytes[0], bytes[1]];
        match self {
            ByteOrder::BigEndian => u16::from_be_bytes(bytes),
            ByteOrder::LittleEndian => u16::from_le_bytes(bytes),
        }
    }

    // Four bytes as a number.
    pub(crate) fn u32_of(self, bytes: &[u8]) -> u32
        requires { length bytes.now ≡ 4 }
        ensures value { result ≡ number_in self w32 bytes.now }
    {
        let bytes = [bytes[0], bytes[1], bytes[2], bytes[3]];
        match self {
            ByteOrder::BigEndian => u32::from_be_bytes(bytes),
            ByteOrder::LittleEndian => u32::from_le_bytes(bytes),
        }
    }

    // Eight bytes as a number.
    pub(crate) fn u64_of(self, bytes: &[u8]) -> u64
        requires { length bytes.now ≡ 8 }
        ensures value { result ≡ number_in self w64 bytes.now }
    {
        let bytes = [
            bytes[0], bytes[1], bytes[2], bytes[3], bytes[4], bytes[5], bytes[6], bytes[7],
        ];
        match self {
            ByteOrder::BigEndian => u64::from_be_bytes(bytes),
            ByteOrder::LittleEndian => u64::from_le_bytes(bytes),
        }
    }
}

impl Resolution {
    // A fraction of a second in nanoseconds.
    fn nanoseconds(self, fraction: u32) -> u64
        ensures value { result ≡ fraction * nanoseconds_in self }
    {
        match self {
            Resolution::Microseconds => u64::from(fraction) * 1000,
            Resolution::Nanoseconds => u64::from(fraction),
        }
    }
}
