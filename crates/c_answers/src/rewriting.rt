//! The numbers of errors, and of how far the change of an address reaches.

ghost use Rattle.std.specs.Prelude.{◌≡◌};
ghost use Rattle.c_answers.specs.Rewriting.{checksum_kind, reach_in_c, rewrite_kind};

use packet_parts::ip_slice::IpSliceError;
use packet_rewriting::checksum::ChecksumError;
use packet_rewriting::fields::{Reach, RewriteError};

/// Nothing is refused.
pub const OK: u32 = 0;

pub(crate) const EMPTY: u32 = 1;

pub(crate) const UNEXPECTED_VERSION: u32 = 2;

pub(crate) const IPV4_HEADER: u32 = 3;

pub(crate) const IPV6_HEADER: u32 = 4;

pub(crate) const PACKET: u32 = 5;

pub(crate) const EXTENSIONS: u32 = 6;

pub(crate) const OTHER_VERSION: u32 = 7;

pub(crate) const INCOMPLETE: u32 = 8;

pub(crate) const LATER_FRAGMENT: u32 = 9;

pub(crate) const OTHER_PROTOCOL: u32 = 10;

pub(crate) const TOO_LONG: u32 = 11;

/// A value does not fit its field.
pub const VALUE_TOO_BIG: u32 = 12;

/// A checksum, or why there is none.
#[repr(C)]
#[derive(Drop)]
pub struct ChecksumAnswer {
    /// The number of the error, or 0.
    pub error: u32,
    /// The checksum, whose high byte comes first in the segment; 0 if there is an error.
    pub checksum: u16,
}

/// How far the change of an address reaches, or why nothing is changed.
#[repr(C)]
#[derive(Drop)]
pub struct ReachAnswer {
    /// The number of the error, or 0.
    pub error: u32,
    /// 1 if the checksum of the upper layer is updated too, unless the address that it covers stays
    /// the same or is unknown; 2 if the payload is a later fragment; 3 if its protocol is
    /// unknown, or its checksum does not cover the addresses; 0 if there is an error.
    pub reach: u32,
}

// The number of the error of a checksum.
pub fn kind_of_checksum(e: &ChecksumError) -> u32
    ensures value { result ≡ checksum_kind e.now }
{
    match e {
        ChecksumError::OtherProtocol => OTHER_PROTOCOL,
        ChecksumError::Incomplete => INCOMPLETE,
        ChecksumError::TooLong => TOO_LONG,
    }
}

// The number of the error of a packet.
pub fn kind_of_rewrite(e: &RewriteError) -> u32
    ensures value { result ≡ rewrite_kind e.now }
{
    match e {
        RewriteError::Ip(IpSliceError::Empty(_)) => EMPTY,
        RewriteError::Ip(IpSliceError::UnexpectedVersion { .. }) => UNEXPECTED_VERSION,
        RewriteError::Ip(IpSliceError::Ipv4Header(_)) => IPV4_HEADER,
        RewriteError::Ip(IpSliceError::Ipv6Header(_)) => IPV6_HEADER,
        RewriteError::Ip(IpSliceError::Packet(_)) => PACKET,
        RewriteError::Ip(IpSliceError::Extensions(_)) => EXTENSIONS,
        RewriteError::OtherVersion => OTHER_VERSION,
        RewriteError::Incomplete => INCOMPLETE,
        RewriteError::LaterFragment => LATER_FRAGMENT,
        RewriteError::OtherProtocol => OTHER_PROTOCOL,
    }
}

// The number of a reach.
pub fn number_of_reach(reach: Reach) -> u32
    ensures value { result ≡ reach_in_c reach }
{
    match reach {
        Reach::Upper => 1,
        Reach::LaterFragment => 2,
        Reach::OtherProtocol => 3,
    }
}
