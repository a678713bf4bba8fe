//! A packet that is built, after its ICMP header.

use crate::build_slice_write_error::BuildSliceWriteError;
use crate::headers::Headers;
use crate::writing::put_upper;
use etherparse::IpNumber;
use etherparse_icmp::{Icmpv4Header, Icmpv4Type};

/// A packet that is built, after the header of a message of ICMP (RFC 792).
#[derive(Clone, Debug, Drop)]
pub struct Icmpv4Step {
    /// All headers before that of ICMP.
    pub headers: Headers,
    /// What the message is. Its checksum is computed when the packet is written.
    pub icmp_type: Icmpv4Type,
}

impl Icmpv4Step {
    ghost use Rattle.std.specs.Prelude.{◌≡◌, ◌+◌, ◌<◌, ◌^◌, ◌↔◌, IfErr, IfOk, IsOk, OnErr};
    ghost use Rattle.std.specs.Prelude.{length};
    ghost use Rattle.etherparse_icmp.specs.Icmpv4.{icmpv4_len};
    ghost use Rattle.packet_builder.specs.BuiltPacket.{FitsInto, IsIcmpv4Packet, RefusesToWrite};
    ghost use Rattle.packet_builder.specs.BuiltPacket.{headers_len};
    ghost use Rattle.packet_builder.specs.Writing.{WritesFront};

    /// The length of the packet with a payload of this length, in bytes. The payload has to be below
    /// 2^63 bytes.
    #[inline(always)]
    pub fn size(&self, payload_size: usize) -> usize
        requires fits { payload_size < 2 ^ 63 }
        ensures value { result ≡
            headers_len self.now.headers + (icmpv4_len self.now.icmp_type + payload_size) }
    {
        self.headers.len() + self.icmp_type.header_len() + payload_size
    }

    /// Writes the packet with this payload at the front of a slice. Returns its length in bytes. The
    /// slice is as before after it.
    ///
    /// # Errors
    ///
    /// `PayloadLen` if the IP header cannot count the bytes after it; otherwise `Space` if the slice
    /// is too short. Nothing is written.
    pub fn write_to_slice(
        self,
        slice: &mut [u8],
        payload: &[u8],
    ) -> Result<usize, BuildSliceWriteError>
        ensures packet { IfOk result (λ end. WritesFront
            (IsIcmpv4Packet self.headers self.icmp_type payload.now) end slice.old slice.new) }
        ensures accepted { IsOk result ↔ FitsInto self.headers
            (icmpv4_len self.icmp_type + length payload.now) (length slice.old) }
        ensures refused { IfErr result (RefusesToWrite self.headers
            (icmpv4_len self.icmp_type + length payload.now) (length slice.old)) }
        ensures unchanged { OnErr result (slice.new ≡ slice.old) }
    {
        let Icmpv4Step {
            mut headers,
            icmp_type,
        } = self;
        let at = headers.put(
            IpNumber::ICMP,
            icmp_type.header_len() + payload.len(),
            slice,
        )?;
        let icmp = Icmpv4Header::with_checksum(icmp_type, payload).to_bytes();
        Ok(put_upper(icmp.as_slice(), payload, at, slice))
    }
}
