//! A packet that is built, after its ARP packet.

ghost use Rattle.std.specs.Prelude.{◌≡◌, ◌≤◌};
ghost use Rattle.packet_builder.specs.BuiltPacket.{arp_len};

use crate::build_slice_write_error::BuildSliceWriteError;
use crate::headers::{LinkHeader, VlanHeader, link_headers_len};
use crate::writing::{put, put_link_headers};
use etherparse_link::{ArpPacket, EtherType};

/// A packet that is built and ends with an ARP packet (RFC 826).
#[derive(Clone, Debug, Drop)]
pub struct ArpStep {
    /// The link header. Its EtherType is set when the packet is written.
    pub link: LinkHeader,
    /// The VLAN tags, if there are any.
    pub vlan: Option<VlanHeader>,
    /// The ARP packet.
    pub arp: ArpPacket,
}

impl ArpStep {
    ghost use Rattle.std.specs.Prelude.{◌≡◌, ◌≤◌, ◌↔◌, IfErr, IfOk, IsOk, OnErr, length};
    ghost use Rattle.packet_builder.specs.BuiltPacket.{IsArpFrame, arp_frame_len};
    ghost use Rattle.packet_builder.specs.Writing.{WritesFront};

    /// The length of the packet, in bytes. No padding is counted or written: a frame of Ethernet has
    /// at least 60 bytes, without its check sequence.
    pub fn size(&self) -> usize
        ensures value { result ≡ arp_frame_len self.now }
    {
        link_headers_len(&Some(self.link), &self.vlan) + arp_len(&self.arp)
    }

    /// Writes the packet at the front of a slice. Returns its length in bytes. The slice is as before
    /// after it.
    ///
    /// # Errors
    ///
    /// `Space` if the slice is too short. Nothing is written.
    pub fn write_to_slice(self, slice: &mut [u8]) -> Result<usize, BuildSliceWriteError>
        ensures packet { IfOk result (λ end.
            WritesFront (IsArpFrame self) end slice.old slice.new) }
        ensures accepted { IsOk result ↔ (arp_frame_len self ≤ length slice.old) }
        ensures refused { IfErr result (λ e. e ≡ BuildSliceWriteError.Space (arp_frame_len self)) }
        ensures unchanged { OnErr result (slice.new ≡ slice.old) }
    {
        let required_len = self.size();
        if slice.len() < required_len {
            return Err(BuildSliceWriteError::Space(required_len));
        }
        let at = put_link_headers(&Some(self.link), &self.vlan, EtherType::ARP, slice);
        let arp = self.arp.to_bytes();
        Ok(put(arp.as_slice(), at, slice))
    }
}

// The length of an ARP packet, in bytes.
fn arp_len(arp: &ArpPacket) -> usize
    ensures value { result ≡ arp_len arp.now }
    ensures within { result ≤ 1028 }
{
    8 + 2 * usize::from(arp.hw_addr_size()) + 2 * usize::from(arp.protocol_addr_size())
}
