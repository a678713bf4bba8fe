//! Why a frame is not read to the transport header.

ghost use Rattle.std.specs.Prelude.{◌≡◌, ◌+◌, ◌^◌, ◌<◌, Some};
ghost use Rattle.packet.specs.Error.{ip_error_moved, ip_error_place, slice_error_text};
ghost use Rattle.packet.specs.Error.{error_by, tcp_error_moved, tcp_error_place};

use crate::link::LinkError;
use etherparse::LenSource;
use etherparse::err::LenError;
use etherparse_transport::TcpError;
use packet_parts::ip_slice::IpSliceError;
use std::error::Error;
use std::fmt;

/// Why a frame is not read to the transport header. Each `layer_start_offset` counts from the start
/// of the frame, or of the bytes that are given without a link header.
#[derive(Clone, Debug, PartialEq, Eq, Drop)]
pub enum SliceError {
    /// The frame ends within its link header.
    Link(LinkError),
    /// The frame ends within the first or the second VLAN tag. `len` is the number of bytes after
    /// the tag's EtherType, of which 4 are required.
    Vlan(LenError),
    /// The IP packet is refused.
    Ip(IpSliceError),
    /// The payload is a UDP datagram of fewer than 8 bytes, and no fragment. `len_source` is the
    /// length field of the IP header, which says where the payload ends, as in the two below.
    Udp(LenError),
    /// The payload is a TCP segment that does not begin with a whole header, and no fragment.
    Tcp(TcpError),
    /// The payload is a message of ICMP or ICMPv6 of fewer than 4 bytes, and no fragment. The layer
    /// says which.
    Icmp(LenError),
}

impl fmt::Display for SliceError {
    ghost output = { λ error. Some (slice_error_text error) };

    fn fmt<W: fmt::Write>(&self, f: &mut fmt::Formatter<W>) -> fmt::Result {
        match self {
            SliceError::Link(e) => fmt::Display::fmt(e, f),
            SliceError::Vlan(e) => fmt::Display::fmt(e, f),
            SliceError::Ip(e) => fmt::Display::fmt(e, f),
            SliceError::Udp(e) => fmt::Display::fmt(e, f),
            SliceError::Tcp(e) => fmt::Display::fmt(e, f),
            SliceError::Icmp(e) => fmt::Display::fmt(e, f),
        }
    }
}

impl Error for SliceError {}

// The error of a packet that starts this many bytes further on.
#[cold]
#[inline(never)] // A frame that nothing stops is then taken apart in registers.
pub(crate) fn ip_error_moved(offset: usize, e: IpSliceError) -> IpSliceError
    requires fits { ip_error_place e + offset < 2 ^ 64 }
    ensures value { result ≡ ip_error_moved offset e }
{
    match e {
        IpSliceError::Ipv4Header(e) => IpSliceError::Ipv4Header(e.add_slice_offset(offset)),
        IpSliceError::Ipv6Header(e) => IpSliceError::Ipv6Header(e.add_slice_offset(offset)),
        IpSliceError::Packet(e) => IpSliceError::Packet(e.add_offset(offset)),
        IpSliceError::Extensions(e) => IpSliceError::Extensions(e.add_offset(offset)),
        IpSliceError::Empty(e) => IpSliceError::Empty(e.add_offset(offset)),
        IpSliceError::UnexpectedVersion { version_number } => IpSliceError::UnexpectedVersion {
            version_number,
        },
    }
}

// The error of a TCP header that starts this many bytes further on.
#[cold]
#[inline(never)] // Likewise.
pub(crate) fn tcp_error_moved(offset: usize, e: TcpError) -> TcpError
    requires fits { tcp_error_place e + offset < 2 ^ 64 }
    ensures value { result ≡ tcp_error_moved offset e }
{
    match e {
        TcpError::Len(e) => TcpError::Len(e.add_offset(offset)),
        TcpError::DataOffset(data_offset) => TcpError::DataOffset(data_offset),
    }
}

// The error of a transport header that is incomplete, since this says where the payload ends.
#[cold]
#[inline(never)] // Likewise.
pub(crate) fn error_by(len_source: LenSource, e: SliceError) -> SliceError
    ensures value { result ≡ error_by len_source e }
{
    match e {
        SliceError::Udp(e) => SliceError::Udp(LenError { len_source, ..e }),
        SliceError::Tcp(TcpError::Len(e)) => {
            SliceError::Tcp(TcpError::Len(LenError { len_source, ..e }))
        }
        SliceError::Icmp(e) => SliceError::Icmp(LenError { len_source, ..e }),
        e => e,
    }
}
