//! Why a call of reassembly refused, as numbers.

ghost use Rattle.std.specs.Prelude.{◌≡◌};
ghost use Rattle.c_answers.specs.DefragError.{fragment_error_in_c, no_error, packet_error_in_c};

use packet_reassembly::ip_defrag_error::IpDefragError;
use packet_reassembly::ip_defrag_packet::IpDefragPacketError;

pub(crate) const EMPTY: u32 = 1;

pub(crate) const UNALIGNED_LEN: u32 = 2;

pub(crate) const TOO_BIG: u32 = 3;

pub(crate) const PACKET: u32 = 4;

pub(crate) const HEADER_CHAIN: u32 = 5;

pub(crate) const HEADERS_TOO_LONG: u32 = 6;

/// The kind of an offset that no fragment can have.
pub const OFFSET: u32 = 7;

/// The kind of a packet that would be too long.
pub const PACKET_TOO_LONG: u32 = 8;

/// Why a call refused. Each number that a kind does not have is 0.
#[repr(C)]
#[derive(Drop)]
pub struct DefragError {
    /// 0 if nothing was refused.
    pub kind: u32,
    /// The offset of the fragment, in units of 8 bytes.
    pub offset: u16,
    /// The length of its payload, or of the headers before it, in bytes.
    pub len: usize,
}

impl DefragError {
    /// The error of a fragment.
    pub fn of_fragment(e: &IpDefragError) -> DefragError
        ensures value { result ≡ fragment_error_in_c e.now }
    {
        match *e {
            IpDefragError::Empty { offset } => DefragError {
                kind: EMPTY,
                offset: offset.value(),
                len: 0,
            },
            IpDefragError::UnalignedFragmentPayloadLen {
                offset,
                payload_len,
            } => DefragError {
                kind: UNALIGNED_LEN,
                offset: offset.value(),
                len: payload_len,
            },
            IpDefragError::SegmentTooBig {
                offset,
                payload_len,
                max: _,
            } => DefragError {
                kind: TOO_BIG,
                offset: offset.value(),
                len: payload_len,
            },
        }
    }

    /// The error of a packet.
    pub fn of_packet(e: &IpDefragPacketError) -> DefragError
        ensures value { result ≡ packet_error_in_c e.now }
    {
        match e {
            IpDefragPacketError::Packet(_) => DefragError::of_kind(PACKET),
            IpDefragPacketError::HeaderChain => DefragError::of_kind(HEADER_CHAIN),
            IpDefragPacketError::HeadersTooLong { len } => DefragError {
                len: *len,
                ..DefragError::of_kind(HEADERS_TOO_LONG)
            },
            IpDefragPacketError::Fragment(e) => DefragError::of_fragment(e),
        }
    }

    /// An error that has no other number.
    pub fn of_kind(kind: u32) -> DefragError
        ensures value { result ≡ record no_error { kind = kind } }
    {
        DefragError {
            kind,
            offset: 0,
            len: 0,
        }
    }
}
