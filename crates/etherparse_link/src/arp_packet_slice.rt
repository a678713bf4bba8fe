//! A view of an ARP packet (RFC 826).

ghost use Rattle.std.specs.Prelude.{◌≡◌, ◌≤◌, length};
ghost use Rattle.etherparse_link.specs.ArpPacketSlice.{arp_len_of};

use crate::arp_packet::packet_of;
use crate::ether_type::{EtherType, u16_at};
use crate::{ArpHardwareId, ArpOperation, ArpPacket};
use etherparse::LenSource;
use etherparse::err::{Layer, LenError};

/// A view of an ARP packet (RFC 826), as long as its two lengths of addresses say.
///
/// ```text
///  0                   1                   2                   3
///  0 1 2 3 4 5 6 7 8 9 0 1 2 3 4 5 6 7 8 9 0 1 2 3 4 5 6 7 8 9 0 1
/// +-+-+-+-+-+-+-+-+-+-+-+-+-+-+-+-+-+-+-+-+-+-+-+-+-+-+-+-+-+-+-+-+
/// |          hw_addr_type         |        proto_addr_type        |
/// +-+-+-+-+-+-+-+-+-+-+-+-+-+-+-+-+-+-+-+-+-+-+-+-+-+-+-+-+-+-+-+-+
/// |  hw_addr_size |proto_addr_size|           operation           |
/// +-+-+-+-+-+-+-+-+-+-+-+-+-+-+-+-+-+-+-+-+-+-+-+-+-+-+-+-+-+-+-+-+
/// |  sender_hw_addr, sender_protocol_addr, target_hw_addr and     |
/// |  target_protocol_addr, one after the other                    |
/// +-+-+-+-+-+-+-+-+-+-+-+-+-+-+-+-+-+-+-+-+-+-+-+-+-+-+-+-+-+-+-+-+
/// ```
///
/// # Example
///
/// ```
/// // Who has 192.168.0.2? Tell 192.168.0.1.
/// let packet = [
///     0, 1, 8, 0, 6, 4, 0, 1, 2, 0, 0, 0, 0, 1, 192, 168, 0, 1, 0, 0, 0, 0, 0, 0, 192, 168, 0, 2,
/// ];
/// let arp = ArpPacketSlice::from_slice(&packet)?;
/// assert!(rt; arp.hw_addr_type() == ArpHardwareId::ETHERNET && arp.hw_addr_size() == 6);
/// assert!(rt; arp.proto_addr_type() == EtherType::IPV4 && arp.proto_addr_size() == 4);
/// assert!(rt; arp.operation() == ArpOperation::REQUEST);
/// assert!(rt; arp.sender_hw_addr() == [2, 0, 0, 0, 0, 1].as_slice());
/// assert!(rt; arp.sender_protocol_addr() == [192, 168, 0, 1].as_slice());
/// assert!(rt; arp.target_hw_addr() == [0, 0, 0, 0, 0, 0].as_slice());
/// assert!(rt; arp.target_protocol_addr() == [192, 168, 0, 2].as_slice());
/// ```
#[derive(Clone, Copy, Debug, PartialEq, Eq)]
pub struct ArpPacketSlice<'a> {
    /// The bytes of the packet, 8 to 1028.
    pub slice: &'a [u8],
    // What every view keeps.
    pub ghost len: { length slice.now ≡ arp_len_of slice.now },
}

impl<'a> ArpPacketSlice<'a> {
    ghost use Rattle.std.specs.Prelude.{ℕ, ◌≡◌, List, Result, length, slice_index};
    ghost use Rattle.std.specs.Result.{result_map_both};
    ghost use Rattle.etherparse_link.specs.ArpPacket.{IsArpLayout};
    ghost use Rattle.etherparse_link.specs.ArpPacketSlice.{ViewsArp, arp_len_of};
    ghost use Rattle.etherparse_link.specs.ArpPacketSlice.{hw_addr_size_of, proto_addr_size_of};
    ghost use Rattle.etherparse_link.specs.ArpPacketSlice.{sender_hw_addr_in};
    ghost use Rattle.etherparse_link.specs.ArpPacketSlice.{sender_protocol_addr_in};
    ghost use Rattle.etherparse_link.specs.ArpPacketSlice.{target_hw_addr_in};
    ghost use Rattle.etherparse_link.specs.ArpPacketSlice.{target_protocol_addr_in};
    ghost use Rattle.etherparse_link.specs.Bytes.{IsOnlyHeader, number_at};

    /// A view of the packet at the front of a slice. What follows it, such as the padding of an
    /// Ethernet frame, begins at `slice[len..]`, where `len` is `view.slice().len()`. Neither types
    /// nor the operation are tested.
    ///
    /// # Errors
    ///
    /// A `LenError` if the slice has fewer than 8 bytes; or else one whose `len_source` is
    /// [`LenSource::ArpAddrLengths`] if it has fewer than 8 and twice each length of an address.
    pub fn from_slice(slice: &'a [u8]) -> Result<ArpPacketSlice<'a>, LenError>
        ensures views { ViewsArp slice.now
            (result_map_both (λ view. view.slice.now) (λ e. e) result) }
        ensures only { (other : Result (List ℕ) LenError) → ViewsArp slice.now other →
            other ≡ result_map_both (λ view. view.slice.now) (λ e. e) result }
    {
        if slice.len() < 8 {
            return Err(too_short(8, slice.len(), LenSource::Slice));
        }
        let len = 8 + 2 * usize::from(slice[4]) + 2 * usize::from(slice[5]);
        if slice.len() < len {
            return Err(too_short(len, slice.len(), LenSource::ArpAddrLengths));
        }
        Ok(ArpPacketSlice {
            slice: &slice[..len],
        })
    }

    /// The bytes of the packet, which live as long as the slice that was read.
    pub fn slice(&self) -> &'a [u8]
        ensures value { result.now ≡ self.now.slice.now }
        ensures len { length result.now ≡ arp_len_of result.now }
    {
        self.slice
    }

    /// The packet of these bytes, which holds the addresses in itself.
    pub fn to_packet(&self) -> ArpPacket
        ensures layout { IsArpLayout result self.now.slice.now }
        ensures only { IsOnlyHeader IsArpLayout result self.now.slice.now }
    {
        packet_of(self.slice)
    }

    /// The kind of hardware: bytes 0 and 1.
    pub fn hw_addr_type(&self) -> ArpHardwareId
        ensures bytes_0_1 { result ≡ number_at 0 self.now.slice.now }
    {
        ArpHardwareId(u16_at(self.slice, 0))
    }

    /// The protocol whose addresses these are: bytes 2 and 3.
    pub fn proto_addr_type(&self) -> EtherType
        ensures bytes_2_3 { result ≡ number_at 2 self.now.slice.now }
    {
        EtherType(u16_at(self.slice, 2))
    }

    /// The length of each hardware address, in bytes: byte 4.
    pub fn hw_addr_size(&self) -> u8
        ensures byte_4 { result ≡ slice_index self.now.slice.now 4 }
    {
        self.slice[4]
    }

    /// The length of each protocol address, in bytes: byte 5.
    pub fn proto_addr_size(&self) -> u8
        ensures byte_5 { result ≡ slice_index self.now.slice.now 5 }
    {
        self.slice[5]
    }

    /// What the packet asks or tells: bytes 6 and 7.
    pub fn operation(&self) -> ArpOperation
        ensures bytes_6_7 { result ≡ number_at 6 self.now.slice.now }
    {
        ArpOperation(u16_at(self.slice, 6))
    }

    /// The hardware address of the sender: the bytes from 8 on.
    pub fn sender_hw_addr(&self) -> &'a [u8]
        ensures bytes_from_8 { result.now ≡ sender_hw_addr_in self.now.slice.now }
        ensures len { length result.now ≡ hw_addr_size_of self.now.slice.now }
    {
        &self.slice[8..8 + usize::from(self.slice[4])]
    }

    /// The protocol address of the sender, after the first hardware address.
    pub fn sender_protocol_addr(&self) -> &'a [u8]
        ensures after_it { result.now ≡ sender_protocol_addr_in self.now.slice.now }
        ensures len { length result.now ≡ proto_addr_size_of self.now.slice.now }
    {
        let at = 8 + usize::from(self.slice[4]);
        &self.slice[at..at + usize::from(self.slice[5])]
    }

    /// The hardware address of the target, after the two addresses of the sender. In a request it
    /// is what is asked for, and can be anything.
    pub fn target_hw_addr(&self) -> &'a [u8]
        ensures after_it { result.now ≡ target_hw_addr_in self.now.slice.now }
        ensures len { length result.now ≡ hw_addr_size_of self.now.slice.now }
    {
        let size = usize::from(self.slice[4]);
        let at = 8 + size + usize::from(self.slice[5]);
        &self.slice[at..at + size]
    }

    /// The protocol address of the target, the last of the four.
    pub fn target_protocol_addr(&self) -> &'a [u8]
        ensures after_it { result.now ≡ target_protocol_addr_in self.now.slice.now }
        ensures len { length result.now ≡ proto_addr_size_of self.now.slice.now }
    {
        let size = usize::from(self.slice[5]);
        let at = 8 + 2 * usize::from(self.slice[4]) + size;
        &self.slice[at..at + size]
    }
}

// The error of a slice that is shorter than the packet needs, by the slice or the lengths in it.
fn too_short(required_len: usize, len: usize, len_source: LenSource) -> LenError
    ensures value { result ≡ record {
      required_len = required_len;
      len = len;
      len_source = len_source;
      layer = Layer.Arp;
      layer_start_offset = 0;
    } }
{
    LenError {
        required_len,
        len,
        len_source,
        layer: Layer::Arp,
        layer_start_offset: 0,
    }
}
