//! A packet that is built, after its UDP header.

ghost use Rattle.std.specs.Prelude.{◌+◌, ◌<◌, ◌^◌, length};
ghost use Rattle.packet_builder.specs.BuiltPacket.{IsUdpBefore};

use crate::build_slice_write_error::BuildSliceWriteError;
use crate::headers::{Headers, IpHeader};
use crate::writing::put_upper;
use etherparse::IpNumber;
use etherparse_transport::UdpHeader;
use packet_parts::final_destination::final_destination_ipv4;

/// A packet that is built, after its UDP header.
#[derive(Clone, Debug, Drop)]
pub struct UdpStep {
    /// All headers before that of UDP.
    pub headers: Headers,
    /// The source port.
    pub source_port: u16,
    /// The destination port.
    pub destination_port: u16,
}

impl UdpStep {
    ghost use Rattle.std.specs.Prelude.{◌≡◌, ◌+◌, ◌≤◌, ◌<◌, ◌^◌, ◌↔◌, IfErr, IfOk, IsOk, OnErr};
    ghost use Rattle.std.specs.Prelude.{length};
    ghost use Rattle.packet_builder.specs.BuiltPacket.{FitsInto, IsUdpPacket, RefusesToWrite, headers_len};
    ghost use Rattle.packet_builder.specs.Writing.{WritesFront};

    /// The length of the packet with a payload of this length, in bytes. The payload has to be below
    /// 2^63 bytes.
    #[inline(always)]
    pub fn size(&self, payload_size: usize) -> usize
        requires fits { payload_size < 2 ^ 63 }
        ensures value { result ≡ headers_len self.now.headers + (8 + payload_size) }
    {
        self.headers.len() + UdpHeader::LEN + payload_size
    }

    /// Writes the packet with this payload at the front of a slice. Returns its length in bytes. The
    /// slice is as before after it.
    ///
    /// # Errors
    ///
    /// `PayloadLen` if the IP header cannot count the bytes after it; otherwise `Space` if the slice
    /// is too short. Nothing is written.
    #[inline(always)]
    pub fn write_to_slice(
        self,
        slice: &mut [u8],
        payload: &[u8],
    ) -> Result<usize, BuildSliceWriteError>
        ensures packet { IfOk result (λ end. WritesFront (IsUdpPacket self.headers self.source_port
            self.destination_port payload.now) end slice.old slice.new) }
        ensures accepted { IsOk result ↔
            FitsInto self.headers (8 + length payload.now) (length slice.old) }
        ensures refused { IfErr result
            (RefusesToWrite self.headers (8 + length payload.now) (length slice.old)) }
        ensures unchanged { OnErr result (slice.new ≡ slice.old) }
    {
        let mut headers = self.headers;
        let at = headers.put(IpNumber::UDP, UdpHeader::LEN + payload.len(), slice)?;
        let udp = header_over(
            &headers.ip,
            self.source_port,
            self.destination_port,
            payload,
        );
        Ok(put_upper(&udp.to_bytes(), payload, at, slice))
    }
}

// The header of a datagram over this IP header.
#[inline(always)]
fn header_over(ip: &IpHeader, source_port: u16, destination_port: u16, payload: &[u8]) -> UdpHeader
    requires fits { 8 + length payload.now < 2 ^ 16 }
    ensures made { IsUdpBefore ip.now source_port destination_port payload.now result }
{
    let mut header = UdpHeader {
        source_port,
        destination_port,
        length: (UdpHeader::LEN + payload.len()) as u16,
        checksum: 0,
    };
    let checksum = match ip {
        IpHeader::Ipv4(ip) => {
            let last = final_destination_ipv4(ip.destination, ip.options.as_slice());
            header
                .calc_checksum_ipv4_raw(ip.source, last, payload)
                .unwrap()
        }
        IpHeader::Ipv6(ip) => header.calc_checksum_ipv6(ip, payload).unwrap(),
    };
    header.checksum = checksum;
    header
}
