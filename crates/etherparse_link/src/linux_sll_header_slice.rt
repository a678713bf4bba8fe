//! A view of the header of a Linux cooked capture.

ghost use Rattle.std.specs.Prelude.{◌≡◌, length};
ghost use Rattle.etherparse_link.specs.Bytes.{address_in};

use crate::ether_type::{EtherType, u16_at};
use crate::linux_sll_header::{LinuxSllHeader, header_of};
use etherparse::LenSource;
use etherparse::err::{Layer, LenError};

/// A view of the header of a Linux cooked capture (LINKTYPE_LINUX_SLL). It is made for any kind of
/// device: [`LinuxSllHeader`] says for which of them the protocol type is no EtherType.
///
/// # Example
///
/// ```
/// // A broadcast from 2:0:0:0:0:1 on an Ethernet device, and the first bytes of an ARP packet.
/// let frame = [0, 1, 0, 1, 0, 6, 2, 0, 0, 0, 0, 1, 0, 0, 8, 6, 0, 1];
/// let header = LinuxSllHeaderSlice::from_slice(&frame)?;
/// assert!(rt; (header.packet_type(), header.arp_hardware_type()) == (1, 1));
/// assert!(rt; header.sender_address_valid_length() == 6);
/// assert!(rt; header.sender_address() == [2, 0, 0, 0, 0, 1].as_slice());
/// assert!(rt; header.protocol_type() == EtherType::ARP);
/// ```
#[derive(Clone, Copy, Debug, PartialEq, Eq)]
pub struct LinuxSllHeaderSlice<'a> {
    /// The 16 bytes of the header.
    pub slice: &'a [u8],
    // What every view keeps.
    pub ghost len: { length slice.now ≡ 16 },
}

impl<'a> LinuxSllHeaderSlice<'a> {
    ghost use Rattle.std.specs.Prelude.{ℕ, ◌≡◌, List, Result, slice_range};
    ghost use Rattle.std.specs.Result.{result_map_both};
    ghost use Rattle.etherparse.specs.Reading.{Views};
    ghost use Rattle.etherparse_link.specs.Bytes.{IsOnlyHeader, address_in, number_at};
    ghost use Rattle.etherparse_link.specs.LinuxSllHeader.{IsLinuxSllLayout, RefusesLinuxSll};

    /// A view of the header at the front of a slice. Any packet type and any kind of device is
    /// seen.
    ///
    /// # Errors
    ///
    /// A `LenError` if the slice has fewer than 16 bytes.
    pub fn from_slice(slice: &'a [u8]) -> Result<LinuxSllHeaderSlice<'a>, LenError>
        ensures views { Views IsLinuxSllLayout RefusesLinuxSll slice.now
            (result_map_both (λ view. view.slice.now) (λ e. e) result) }
        ensures only { (other : Result (List ℕ) LenError) →
            Views IsLinuxSllLayout RefusesLinuxSll slice.now other →
            other ≡ result_map_both (λ view. view.slice.now) (λ e. e) result }
    {
        if slice.len() < LinuxSllHeader::LEN {
            return Err(LenError {
                required_len: LinuxSllHeader::LEN,
                len: slice.len(),
                len_source: LenSource::Slice,
                layer: Layer::LinuxSllHeader,
                layer_start_offset: 0,
            });
        }
        Ok(LinuxSllHeaderSlice {
            slice: &slice[..LinuxSllHeader::LEN],
        })
    }

    /// The bytes of the header, which live as long as the slice that was read.
    pub fn slice(&self) -> &'a [u8]
        ensures value { result.now ≡ self.now.slice.now }
    {
        self.slice
    }

    /// The header of these bytes.
    pub fn to_header(&self) -> LinuxSllHeader
        ensures layout { IsLinuxSllLayout result self.now.slice.now }
        ensures only { IsOnlyHeader IsLinuxSllLayout result self.now.slice.now }
    {
        header_of(self.slice)
    }

    /// Whether the packet came in, as 0 to this host, 1 to all, 2 to a group or 3 to another host,
    /// or went out, as 4: bytes 0 and 1.
    pub fn packet_type(&self) -> u16
        ensures bytes_0_1 { result ≡ number_at 0 self.now.slice.now }
    {
        u16_at(self.slice, 0)
    }

    /// The kind of the device, by Linux's numbers ARPHRD: bytes 2 and 3.
    pub fn arp_hardware_type(&self) -> u16
        ensures bytes_2_3 { result ≡ number_at 2 self.now.slice.now }
    {
        u16_at(self.slice, 2)
    }

    /// The length of the sender's address, in bytes, of which 8 are there at most: bytes 4 and 5.
    pub fn sender_address_valid_length(&self) -> u16
        ensures bytes_4_5 { result ≡ number_at 4 self.now.slice.now }
    {
        u16_at(self.slice, 4)
    }

    /// The sender's address, as long as its length says, or its first 8 bytes: from byte 6 on.
    pub fn sender_address(&self) -> &'a [u8]
        ensures bytes_from_6 { result.now ≡
            address_in (number_at 4 self.now.slice.now) (slice_range self.now.slice.now 6 14) }
    {
        address_in(
            usize::from(self.sender_address_valid_length()),
            &self.slice[6..14],
        )
    }

    /// What follows the header: bytes 14 and 15. For some kinds of devices it is no EtherType, as
    /// [`LinuxSllHeader`] says.
    pub fn protocol_type(&self) -> EtherType
        ensures bytes_14_15 { result ≡ number_at 14 self.now.slice.now }
    {
        EtherType(u16_at(self.slice, 14))
    }
}

// The address in a field of 8 bytes, with its length.
pub(crate) fn address_in(len: usize, field: &[u8]) -> &[u8]
    requires { length field.now ≡ 8 }
    ensures value { result.now ≡ address_in len field.now }
{
    &field[..len.min(8)]
}
