//! A view of the header of a Linux cooked capture of version 2.

ghost use Rattle.std.specs.Prelude.{◌≡◌, length};

use crate::ether_type::{EtherType, u16_at};
use crate::linux_sll_header_slice::address_in;
use crate::linux_sll2_header::{LinuxSll2Header, header_of};
use etherparse::LenSource;
use etherparse::err::{Layer, LenError};

/// A view of the header of a Linux cooked capture of version 2 (LINKTYPE_LINUX_SLL2). It keeps the
/// two reserved bytes, which are no field of a [`LinuxSll2Header`], and is made for any kind of
/// device.
///
/// # Example
///
/// ```
/// // A broadcast from 2:0:0:0:0:1 on interface 3, an Ethernet device, and the first bytes of an
/// // ARP packet.
/// let frame = [
///     8, 6, 0, 0, 0, 0, 0, 3, 0, 1, 1, 6, 2, 0, 0, 0, 0, 1, 0, 0, 0, 1,
/// ];
/// let header = LinuxSll2HeaderSlice::from_slice(&frame)?;
/// assert!(rt; header.protocol_type() == EtherType::ARP);
/// assert!(rt; (header.interface_index(), header.arp_hardware_type()) == (3, 1));
/// assert!(rt; (header.packet_type(), header.sender_address_valid_length()) == (1, 6));
/// assert!(rt; header.sender_address() == [2, 0, 0, 0, 0, 1].as_slice());
/// ```
#[derive(Clone, Copy, Debug, PartialEq, Eq)]
pub struct LinuxSll2HeaderSlice<'a> {
    /// The 20 bytes of the header.
    pub slice: &'a [u8],
    // What every view keeps.
    pub ghost len: { length slice.now ≡ 20 },
}

impl<'a> LinuxSll2HeaderSlice<'a> {
    ghost use Rattle.std.specs.Prelude.{ℕ, ◌≡◌, List, Result, slice_index, slice_range};
    ghost use Rattle.std.specs.Int.{from_be_bytes, w32};
    ghost use Rattle.std.specs.Result.{result_map_both};
    ghost use Rattle.etherparse.specs.Reading.{Views};
    ghost use Rattle.etherparse_link.specs.Bytes.{IsOnlyHeader, address_in, number_at};
    ghost use Rattle.etherparse_link.specs.LinuxSll2Header.{IsLinuxSll2Layout, RefusesLinuxSll2};

    /// A view of the header at the front of a slice. Any packet type and any kind of device is
    /// seen.
    ///
    /// # Errors
    ///
    /// A `LenError` if the slice has fewer than 20 bytes. Its layer is
    /// [`Layer::LinuxSllHeader`], that of version 1: no layer has a name for version 2.
    pub fn from_slice(slice: &'a [u8]) -> Result<LinuxSll2HeaderSlice<'a>, LenError>
        ensures views { Views IsLinuxSll2Layout RefusesLinuxSll2 slice.now
            (result_map_both (λ view. view.slice.now) (λ e. e) result) }
        ensures only { (other : Result (List ℕ) LenError) →
            Views IsLinuxSll2Layout RefusesLinuxSll2 slice.now other →
            other ≡ result_map_both (λ view. view.slice.now) (λ e. e) result }
    {
        if slice.len() < LinuxSll2Header::LEN {
            return Err(LenError {
                required_len: LinuxSll2Header::LEN,
                len: slice.len(),
                len_source: LenSource::Slice,
                layer: Layer::LinuxSllHeader,
                layer_start_offset: 0,
            });
        }
        Ok(LinuxSll2HeaderSlice {
            slice: &slice[..LinuxSll2Header::LEN],
        })
    }

    /// The bytes of the header, which live as long as the slice that was read.
    pub fn slice(&self) -> &'a [u8]
        ensures value { result.now ≡ self.now.slice.now }
    {
        self.slice
    }

    /// The header of these bytes.
    pub fn to_header(&self) -> LinuxSll2Header
        ensures layout { IsLinuxSll2Layout result self.now.slice.now }
        ensures only { IsOnlyHeader IsLinuxSll2Layout result self.now.slice.now }
    {
        header_of(self.slice)
    }

    /// What follows the header: bytes 0 and 1. For some kinds of devices it is no EtherType, as
    /// [`crate::LinuxSllHeader`] says.
    pub fn protocol_type(&self) -> EtherType
        ensures bytes_0_1 { result ≡ number_at 0 self.now.slice.now }
    {
        EtherType(u16_at(self.slice, 0))
    }

    /// The number of the interface on the machine that captured the packet: bytes 4 to 7.
    pub fn interface_index(&self) -> u32
        ensures bytes_4_to_7 { result ≡ from_be_bytes w32 (slice_range self.now.slice.now 4 8) }
    {
        u32::from_be_bytes([self.slice[4], self.slice[5], self.slice[6], self.slice[7]])
    }

    /// The kind of the device, by Linux's numbers ARPHRD: bytes 8 and 9.
    pub fn arp_hardware_type(&self) -> u16
        ensures bytes_8_9 { result ≡ number_at 8 self.now.slice.now }
    {
        u16_at(self.slice, 8)
    }

    /// Where the packet went, as in [`crate::LinuxSllHeaderSlice::packet_type`]: byte 10.
    pub fn packet_type(&self) -> u8
        ensures byte_10 { result ≡ slice_index self.now.slice.now 10 }
    {
        self.slice[10]
    }

    /// The length of the sender's address, in bytes, of which 8 are there at most: byte 11.
    pub fn sender_address_valid_length(&self) -> u8
        ensures byte_11 { result ≡ slice_index self.now.slice.now 11 }
    {
        self.slice[11]
    }

    /// The sender's address, as long as its length says, or its first 8 bytes: from byte 12 on.
    pub fn sender_address(&self) -> &'a [u8]
        ensures bytes_from_12 { result.now ≡
            address_in (slice_index self.now.slice.now 11) (slice_range self.now.slice.now 12 20) }
    {
        address_in(usize::from(self.slice[11]), &self.slice[12..20])
    }
}
