//! The header of a Linux cooked capture of version 2 (LINKTYPE_LINUX_SLL2).

ghost use Rattle.std.specs.Prelude.{◌≡◌, ◌++◌, length};
ghost use Rattle.etherparse.specs.Bytes.{IsBytes};
ghost use Rattle.etherparse_link.specs.LinuxSll2Header.{IsLinuxSll2Layout};

use crate::ArpHardwareId;
use crate::ether_type::{EtherType, u16_at};
use crate::linux_sll2_header_slice::LinuxSll2HeaderSlice;
use etherparse::err::LenError;

/// The header of a Linux cooked capture of version 2 (LINKTYPE_LINUX_SLL2 of tcpdump.org's
/// registry), which tells the interface too. Its two reserved bytes are no field: they are read
/// with any value, and written as 0.
///
/// ```text
///  0                   1                   2                   3
///  0 1 2 3 4 5 6 7 8 9 0 1 2 3 4 5 6 7 8 9 0 1 2 3 4 5 6 7 8 9 0 1
/// +-+-+-+-+-+-+-+-+-+-+-+-+-+-+-+-+-+-+-+-+-+-+-+-+-+-+-+-+-+-+-+-+
/// |         protocol_type         |            reserved           |
/// +-+-+-+-+-+-+-+-+-+-+-+-+-+-+-+-+-+-+-+-+-+-+-+-+-+-+-+-+-+-+-+-+
/// |                        interface_index                        |
/// +-+-+-+-+-+-+-+-+-+-+-+-+-+-+-+-+-+-+-+-+-+-+-+-+-+-+-+-+-+-+-+-+
/// |          arp_hrd_type         |  packet_type  |  valid_length |
/// +-+-+-+-+-+-+-+-+-+-+-+-+-+-+-+-+-+-+-+-+-+-+-+-+-+-+-+-+-+-+-+-+
/// |                                                               |
/// +                         sender_address                        +
/// |                                                               |
/// +-+-+-+-+-+-+-+-+-+-+-+-+-+-+-+-+-+-+-+-+-+-+-+-+-+-+-+-+-+-+-+-+
/// ```
///
/// # Example
///
/// ```
/// let header = LinuxSll2Header {
///     protocol_type: EtherType::ARP,
///     interface_index: 3,
///     arp_hrd_type: ArpHardwareId::ETHERNET,
///     packet_type: 1,
///     sender_address_valid_length: 6,
///     sender_address: [2, 0, 0, 0, 0, 1, 0, 0],
/// };
/// let bytes = header.to_bytes();
/// assert!(rt; bytes == [8, 6, 0, 0, 0, 0, 0, 3, 0, 1, 1, 6, 2, 0, 0, 0, 0, 1, 0, 0]);
/// ```
#[derive(Clone, Copy, Debug, PartialEq, Eq)]
pub struct LinuxSll2Header {
    /// What follows the header: bytes 0 and 1. For some kinds of devices it is no EtherType, as in
    /// [`LinuxSllHeader`](crate::LinuxSllHeader).
    pub protocol_type: EtherType,
    /// The number of the interface on the machine that captured the packet: bytes 4 to 7.
    pub interface_index: u32,
    /// The kind of the device: bytes 8 and 9.
    pub arp_hrd_type: ArpHardwareId,
    /// Where the packet went: byte 10. `LinuxSllPacketType::from(packet_type)` has names, and
    /// `u8::try_from` of that type gives the byte back.
    pub packet_type: u8,
    /// The length of the sender's address, in bytes: byte 11. Above 8 the address was cut.
    pub sender_address_valid_length: u8,
    /// The sender's address, as far as its length says; all 8 bytes are kept: bytes 12 to 19.
    pub sender_address: [u8; 8],
}

impl LinuxSll2Header {
    ghost use Rattle.std.specs.Prelude.{ℕ, ◌≡◌, ◌<◌, ◌^◌, List, [], ◌∷◌, ◌++◌, Ok};
    ghost use Rattle.std.specs.Int.{to_be_bytes, w16, w32};
    ghost use Rattle.etherparse.specs.Reading.{Reads, found_and_rest};
    ghost use Rattle.etherparse_link.specs.LinuxSll2Header.{IsLinuxSll2Layout, RefusesLinuxSll2};
    ghost use Rattle.etherparse_link.specs.LinuxSll2Header.{reserved_of};
    ghost use Rattle.etherparse_link.specs.LinuxSll2Header.{LinuxSll2Reading};

    /// The length of the header, in bytes: 20.
    pub const LEN: usize = 20;

    /// The header at the front of a slice, and all the bytes after it.
    ///
    /// # Errors
    ///
    /// A `LenError` if the slice has fewer than 20 bytes. Its layer is `LinuxSllHeader`, that of
    /// version 1: no layer has a name for version 2.
    ///
    /// # Example
    ///
    /// ```
    /// // A packet that this host sent on interface 2, an Ethernet device.
    /// let bytes = [
    ///     8, 0, 0, 0, 0, 0, 0, 2, 0, 1, 4, 6, 2, 0, 0, 0, 0, 1, 0, 0, 0x45,
    /// ];
    /// let (header, rest) = LinuxSll2Header::from_slice(&bytes)?;
    /// let packet_type = LinuxSllPacketType::from(header.packet_type);
    /// assert!(rt; packet_type == LinuxSllPacketType::OUTGOING);
    /// assert!(rt; header.interface_index == 2 && header.protocol_type == EtherType::IPV4);
    /// assert!(rt; rest == [0x45].as_slice());
    /// ```
    pub fn from_slice(slice: &[u8]) -> Result<(LinuxSll2Header, &[u8]), LenError>
        ensures reads { Reads IsLinuxSll2Layout RefusesLinuxSll2 slice.now
            (found_and_rest result) }
        ensures only { (other : LinuxSll2Reading) →
            Reads IsLinuxSll2Layout RefusesLinuxSll2 slice.now other →
            other ≡ found_and_rest result }
    {
        let header = LinuxSll2HeaderSlice::from_slice(slice)?.to_header();
        Ok((header, &slice[LinuxSll2Header::LEN..]))
    }

    /// The 20 bytes of the header, with the reserved ones as 0.
    pub fn to_bytes(&self) -> [u8; 20]
        ensures layout { IsLinuxSll2Layout self.now result }
        ensures reserved { reserved_of result ≡ 0 }
        ensures only { (bytes : List ℕ) → IsLinuxSll2Layout self.now bytes →
            reserved_of bytes ≡ 0 → bytes ≡ result }
        ensures read_again { (rest : List ℕ) →
            Reads IsLinuxSll2Layout RefusesLinuxSll2 (result ++ rest) (Ok (self.now, rest)) }
    {
        joined(&self.front(), &self.sender_address)
    }

    // The bytes before the address.
    fn front(&self) -> [u8; 12]
        ensures parts { result ≡ to_be_bytes w16 self.now.protocol_type
            ++ (0 ∷ 0 ∷ (to_be_bytes w32 self.now.interface_index
            ++ (to_be_bytes w16 self.now.arp_hrd_type
            ++ self.now.packet_type ∷ self.now.sender_address_valid_length ∷ []))) }
        ensures protocol_type_fits { self.now.protocol_type < 2 ^ 16 }
        ensures interface_index_fits { self.now.interface_index < 2 ^ 32 }
        ensures arp_hrd_type_fits { self.now.arp_hrd_type < 2 ^ 16 }
    {
        let (protocol, device) = (self.protocol_type.0, self.arp_hrd_type.0);
        let interface_index = self.interface_index;
        let [a, b] = protocol.to_be_bytes();
        let [c, d, e, f] = interface_index.to_be_bytes();
        let [g, h] = device.to_be_bytes();
        let (packet_type, valid_length) = (self.packet_type, self.sender_address_valid_length);
        [a, b, 0, 0, c, d, e, f, g, h, packet_type, valid_length]
    }
}

const _: () = prove!(LinuxSll2Header::LEN == 20);

// The header of 20 bytes.
pub(crate) fn header_of(bytes: &[u8]) -> LinuxSll2Header
    requires { length bytes.now ≡ 20 }
    ensures layout { IsLinuxSll2Layout result bytes.now }
{
    let b = bytes;
    LinuxSll2Header {
        protocol_type: EtherType(u16_at(bytes, 0)),
        interface_index: u32::from_be_bytes([b[4], b[5], b[6], b[7]]),
        arp_hrd_type: ArpHardwareId(u16_at(bytes, 8)),
        packet_type: b[10],
        sender_address_valid_length: b[11],
        sender_address: [b[12], b[13], b[14], b[15], b[16], b[17], b[18], b[19]],
    }
}

// Two parts, one after the other.
#[rattlefmt::skip]
fn joined(front: &[u8], address: &[u8]) -> [u8; 20]
    requires front_len { length front.now ≡ 12 }
    requires address_len { length address.now ≡ 8 }
    ensures parts { result ≡ front.now ++ address.now }
    ensures are_bytes { IsBytes (front.now ++ address.now) }
{
    let (f, a) = (front, address);
    [
        f[0], f[1], f[2], f[3], f[4], f[5], f[6], f[7], f[8], f[9], f[10], f[11],
        a[0], a[1], a[2], a[3], a[4], a[5], a[6], a[7],
    ]
}
