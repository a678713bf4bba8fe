//! The formats that the first four bytes of a file name, for a program that says what it was given.

ghost use Rattle.std.specs.Prelude.{◌≡◌};
ghost use Rattle.packet_capture.specs.FileFormat.{format_named as format_named_by};

/// A format that a file of captured packets may have. [`FileFormat::Pcap`] and
/// [`FileFormat::Pcapng`] are read by this crate.
#[derive(Clone, Copy, Debug, PartialEq, Eq)]
pub enum FileFormat {
    /// The format pcapng: bytes 0a 0d 0d 0a.
    Pcapng,
    /// The classic format of libpcap: a1b2c3d4 or a1b23c4d, in either byte order.
    Pcap,
    /// The classic format with longer record heads, by Alexey Kuznetzov's changes to libpcap:
    /// a1b2cd34 in either byte order.
    ModifiedPcap,
    /// The format of snoop (RFC 1761): `snoo`, the first four bytes of the text `snoop`.
    Snoop,
    /// A file compressed by gzip (RFC 1952): bytes 1f 8b.
    Gzip,
    /// A file compressed by Zstandard (RFC 8878): bytes 28 b5 2f fd.
    Zstandard,
    /// A file compressed by xz: bytes fd 37 7a 58.
    Xz,
    /// A file compressed by bzip2: the text `BZh`.
    Bzip2,
    /// A file compressed by LZ4: bytes 04 22 4d 18.
    Lz4,
    /// A ZIP archive: bytes 50 4b 03 04.
    Zip,
}

/// The format that the first four bytes of a file name, given as a number with the high byte first,
/// or `None` if it is none of [`FileFormat`].
///
/// # Example
///
/// ```
/// assert!(rt; format_named(0x1f8b_0800) == Some(FileFormat::Gzip));
/// assert!(rt; format_named(0x4d5a_9000) == None);
/// ```
#[tactic(auto, unfolding(crate::specs::FileFormat::format_named))]
pub fn format_named(magic: u32) -> Option<FileFormat>
    ensures value { result ≡ format_named_by magic }
{
    match magic {
        0x0a0d_0d0a => Some(FileFormat::Pcapng),
        0xa1b2_c3d4 | 0xd4c3_b2a1 | 0xa1b2_3c4d | 0x4d3c_b2a1 => Some(FileFormat::Pcap),
        0xa1b2_cd34 | 0x34cd_b2a1 => Some(FileFormat::ModifiedPcap),
        0x736e_6f6f => Some(FileFormat::Snoop),
        0x1f8b_0000..=0x1f8b_ffff => Some(FileFormat::Gzip),
        0x28b5_2ffd => Some(FileFormat::Zstandard),
        0xfd37_7a58 => Some(FileFormat::Xz),
        0x425a_6800..=0x425a_68ff => Some(FileFormat::Bzip2),
        0x0422_4d18 => Some(FileFormat::Lz4),
        0x504b_0304 => Some(FileFormat::Zip),
        _ => None,
    }
}
