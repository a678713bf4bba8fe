//! A packet that is built, after its ICMPv6 header.

ghost use Rattle.std.specs.Prelude.{◌≡◌, ◌+◌, ◌≤◌, length};
ghost use Rattle.etherparse_icmp.specs.Icmpv6Checksum.{IsIcmpv6Checksum};

use crate::build_slice_write_error::BuildSliceWriteError;
use crate::headers::{Headers, IpHeader};
use crate::writing::put_upper;
use etherparse::IpNumber;
use etherparse_icmp::{Icmpv6Header, Icmpv6Type};

/// A packet that is built, after the header of a message of ICMPv6 (RFC 4443 section 2.1). It is
/// written over IPv6 alone.
#[derive(Clone, Debug, Drop)]
pub struct Icmpv6Step {
    /// All headers before that of ICMPv6.
    pub headers: Headers,
    /// What the message is. Its checksum is computed when the packet is written.
    pub icmp_type: Icmpv6Type,
}

impl Icmpv6Step {
    ghost use Rattle.std.specs.Prelude.{◌≡◌, ◌+◌, ◌<◌, ◌^◌, ◌↔◌, IfErr, IfOk, IsOk, OnErr};
    ghost use Rattle.std.specs.Prelude.{length};
    ghost use Rattle.packet_builder.specs.BuiltPacket.{FitsInto, IsIcmpv6Packet, IsIpv6};
    ghost use Rattle.packet_builder.specs.BuiltPacket.{RefusesIcmpv6, headers_len};
    ghost use Rattle.packet_builder.specs.Writing.{WritesFront};

    /// The length of the packet with a payload of this length, in bytes. The payload has to be below
    /// 2^63 bytes.
    #[inline(always)]
    pub fn size(&self, payload_size: usize) -> usize
        requires fits { payload_size < 2 ^ 63 }
        ensures value { result ≡ headers_len self.now.headers + (8 + payload_size) }
    {
        self.headers.len() + Icmpv6Header::MIN_LEN + payload_size
    }

    /// Writes the packet with this payload at the front of a slice. Returns its length in bytes. The
    /// slice is as before after it.
    ///
    /// # Errors
    ///
    /// `Icmpv6InIpv4` if the IP header is that of IPv4; otherwise `PayloadLen` if the IP header
    /// cannot count the bytes after it; otherwise `Space` if the slice is too short. Nothing is
    /// written.
    pub fn write_to_slice(
        self,
        slice: &mut [u8],
        payload: &[u8],
    ) -> Result<usize, BuildSliceWriteError>
        ensures packet { IfOk result (λ end. WritesFront
            (IsIcmpv6Packet self.headers self.icmp_type payload.now) end slice.old slice.new) }
        ensures accepted { IsOk result ↔ (IsIpv6 self.headers.ip
            × FitsInto self.headers (8 + length payload.now) (length slice.old)) }
        ensures refused { IfErr result
            (RefusesIcmpv6 self.headers (8 + length payload.now) (length slice.old)) }
        ensures unchanged { OnErr result (slice.new ≡ slice.old) }
    {
        let Icmpv6Step {
            mut headers,
            icmp_type,
        } = self;
        let (source, destination) = match &headers.ip {
            IpHeader::Ipv4(_) => return Err(BuildSliceWriteError::Icmpv6InIpv4),
            IpHeader::Ipv6(ip) => (ip.source, ip.destination),
        };
        let at = headers.put(
            IpNumber::IPV6_ICMP,
            Icmpv6Header::MIN_LEN + payload.len(),
            slice,
        )?;
        let icmp = header_between(source, destination, icmp_type, payload);
        Ok(put_upper(&icmp.to_bytes(), payload, at, slice))
    }
}

// The header of a message between these addresses.
fn header_between(
    source: [u8; 16],
    destination: [u8; 16],
    icmp_type: Icmpv6Type,
    payload: &[u8],
) -> Icmpv6Header
    requires fits { 8 + length payload.now ≤ 65535 }
    ensures icmp_type { result.icmp_type ≡ icmp_type }
    ensures computed { IsIcmpv6Checksum source destination icmp_type payload.now result.checksum }
{
    Icmpv6Header::with_checksum(icmp_type, source, destination, payload).unwrap()
}
