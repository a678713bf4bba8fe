//! The header of a Linux cooked capture (LINKTYPE_LINUX_SLL).

ghost use Rattle.std.specs.Prelude.{◌≡◌, ◌++◌, length};
ghost use Rattle.etherparse.specs.Bytes.{IsBytes};
ghost use Rattle.etherparse_link.specs.LinuxSllHeader.{IsLinuxSllLayout};

use crate::ether_type::{EtherType, ether_type_bytes, u16_at};
use crate::linux_sll_header_slice::LinuxSllHeaderSlice;
use crate::{ArpHardwareId, LinuxSllPacketType};
use etherparse::err::LenError;

/// The header of a Linux cooked capture (LINKTYPE_LINUX_SLL of tcpdump.org's registry), which Linux
/// puts before packets that are captured on several devices at once, or on one without a link
/// header. Any kind of device is read and written, and so is any packet type. What the protocol
/// type means depends on the kind of device, which the caller compares.
///
/// ```text
///  0                   1                   2                   3
///  0 1 2 3 4 5 6 7 8 9 0 1 2 3 4 5 6 7 8 9 0 1 2 3 4 5 6 7 8 9 0 1
/// +-+-+-+-+-+-+-+-+-+-+-+-+-+-+-+-+-+-+-+-+-+-+-+-+-+-+-+-+-+-+-+-+
/// |          packet_type          |          arp_hrd_type         |
/// +-+-+-+-+-+-+-+-+-+-+-+-+-+-+-+-+-+-+-+-+-+-+-+-+-+-+-+-+-+-+-+-+
/// |  sender_address_valid_length  |                               |
/// +-+-+-+-+-+-+-+-+-+-+-+-+-+-+-+-+                               +
/// |                         sender_address                        |
/// +                               +-+-+-+-+-+-+-+-+-+-+-+-+-+-+-+-+
/// |                               |         protocol_type         |
/// +-+-+-+-+-+-+-+-+-+-+-+-+-+-+-+-+-+-+-+-+-+-+-+-+-+-+-+-+-+-+-+-+
/// ```
///
/// # Example
///
/// ```
/// let header = LinuxSllHeader {
///     packet_type: LinuxSllPacketType::BROADCAST,
///     arp_hrd_type: ArpHardwareId::ETHERNET,
///     sender_address_valid_length: 6,
///     sender_address: [2, 0, 0, 0, 0, 1, 0, 0],
///     protocol_type: EtherType::ARP,
/// };
/// assert!(rt; header.to_bytes() == [0, 1, 0, 1, 0, 6, 2, 0, 0, 0, 0, 1, 0, 0, 8, 6]);
/// ```
#[derive(Clone, Copy, Debug, PartialEq, Eq)]
pub struct LinuxSllHeader {
    /// Where the packet went: bytes 0 and 1.
    pub packet_type: LinuxSllPacketType,
    /// The kind of the device: bytes 2 and 3.
    pub arp_hrd_type: ArpHardwareId,
    /// The length of the sender's address, in bytes: bytes 4 and 5. Above 8 the address was cut.
    pub sender_address_valid_length: u16,
    /// The sender's address, as far as its length says; all 8 bytes are kept: bytes 6 to 13.
    pub sender_address: [u8; 8],
    /// What follows the header: bytes 14 and 15. For some kinds of devices it is no EtherType: for
    /// [`ArpHardwareId::NETLINK`] it is a netlink family; for [`ArpHardwareId::FRAD`] and
    /// [`ArpHardwareId::IEEE80211_RADIOTAP`] it says nothing, and is to be ignored. For
    /// [`ArpHardwareId::IPGRE`] it is one (RFC 2784 section 2.4).
    pub protocol_type: EtherType,
}

impl LinuxSllHeader {
    ghost use Rattle.std.specs.Prelude.{ℕ, ◌≡◌, ◌<◌, ◌^◌, List, ◌++◌, Ok};
    ghost use Rattle.std.specs.Int.{to_be_bytes, w16};
    ghost use Rattle.etherparse.specs.Reading.{Reads, found_and_rest};
    ghost use Rattle.etherparse_link.specs.LinuxSllHeader.{IsLinuxSllLayout, RefusesLinuxSll};
    ghost use Rattle.etherparse_link.specs.LinuxSllHeader.{LinuxSllReading};

    /// The length of the header, in bytes: 16.
    pub const LEN: usize = 16;

    /// The header at the front of a slice, and all the bytes after it.
    ///
    /// # Errors
    ///
    /// A `LenError` if the slice has fewer than 16 bytes. Any packet type and any kind of device is
    /// read.
    ///
    /// # Example
    ///
    /// ```
    /// // A packet that this host sent, from an Ethernet device.
    /// let bytes = [0, 4, 0, 1, 0, 6, 2, 0, 0, 0, 0, 1, 0, 0, 8, 0, 0x45];
    /// let (header, rest) = LinuxSllHeader::from_slice(&bytes)?;
    /// assert!(rt; header.packet_type == LinuxSllPacketType::OUTGOING);
    /// assert!(rt; header.arp_hrd_type == ArpHardwareId::ETHERNET);
    /// assert!(rt; header.sender_address_valid_length == 6);
    /// assert!(rt; header.protocol_type == EtherType::IPV4 && rest == [0x45].as_slice());
    /// ```
    pub fn from_slice(slice: &[u8]) -> Result<(LinuxSllHeader, &[u8]), LenError>
        ensures reads { Reads IsLinuxSllLayout RefusesLinuxSll slice.now (found_and_rest result) }
        ensures only { (other : LinuxSllReading) →
            Reads IsLinuxSllLayout RefusesLinuxSll slice.now other →
            other ≡ found_and_rest result }
    {
        let header = LinuxSllHeaderSlice::from_slice(slice)?.to_header();
        Ok((header, &slice[LinuxSllHeader::LEN..]))
    }

    /// The 16 bytes of the header.
    pub fn to_bytes(&self) -> [u8; 16]
        ensures layout { IsLinuxSllLayout self.now result }
        ensures only { (bytes : List ℕ) → IsLinuxSllLayout self.now bytes → bytes ≡ result }
        ensures read_again { (rest : List ℕ) →
            Reads IsLinuxSllLayout RefusesLinuxSll (result ++ rest) (Ok (self.now, rest)) }
    {
        joined(
            &self.front(),
            &self.sender_address,
            &ether_type_bytes(self.protocol_type),
        )
    }

    // The bytes before the address.
    fn front(&self) -> [u8; 6]
        ensures parts { result ≡ to_be_bytes w16 self.now.packet_type
            ++ (to_be_bytes w16 self.now.arp_hrd_type
            ++ to_be_bytes w16 self.now.sender_address_valid_length) }
        ensures packet_type_fits { self.now.packet_type < 2 ^ 16 }
        ensures arp_hrd_type_fits { self.now.arp_hrd_type < 2 ^ 16 }
        ensures valid_length_fits { self.now.sender_address_valid_length < 2 ^ 16 }
    {
        let (packet_type, device) = (self.packet_type.0, self.arp_hrd_type.0);
        let valid_length = self.sender_address_valid_length;
        let [a, b] = packet_type.to_be_bytes();
        let [c, d] = device.to_be_bytes();
        let [e, f] = valid_length.to_be_bytes();
        [a, b, c, d, e, f]
    }
}

const _: () = prove!(LinuxSllHeader::LEN == 16);

// The header of 16 bytes.
pub(crate) fn header_of(bytes: &[u8]) -> LinuxSllHeader
    requires { length bytes.now ≡ 16 }
    ensures layout { IsLinuxSllLayout result bytes.now }
{
    let b = bytes;
    LinuxSllHeader {
        packet_type: LinuxSllPacketType(u16_at(bytes, 0)),
        arp_hrd_type: ArpHardwareId(u16_at(bytes, 2)),
        sender_address_valid_length: u16_at(bytes, 4),
        sender_address: [b[6], b[7], b[8], b[9], b[10], b[11], b[12], b[13]],
        protocol_type: EtherType(u16_at(bytes, 14)),
    }
}

// Three parts, one after the other.
#[rattlefmt::skip]
fn joined(front: &[u8], address: &[u8], protocol_type: &[u8]) -> [u8; 16]
    requires front_len { length front.now ≡ 6 }
    requires address_len { length address.now ≡ 8 }
    requires protocol_type_len { length protocol_type.now ≡ 2 }
    ensures parts { result ≡ front.now ++ (address.now ++ protocol_type.now) }
    ensures are_bytes { IsBytes (front.now ++ (address.now ++ protocol_type.now)) }
{
    let (f, a, p) = (front, address, protocol_type);
    [
        f[0], f[1], f[2], f[3], f[4], f[5],
        a[0], a[1], a[2], a[3], a[4], a[5], a[6], a[7],
        p[0], p[1],
    ]
}
