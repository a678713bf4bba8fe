//! The header of an Ethernet frame (IEEE 802.3 section 3.1.1).

ghost use Rattle.std.specs.Prelude.{◌≡◌, ◌++◌, length};
ghost use Rattle.etherparse.specs.Bytes.{IsBytes};
ghost use Rattle.etherparse_link.specs.Ethernet2Header.{IsEthernet2Layout};

use crate::ether_type::{EtherType, ether_type_bytes, u16_at};
use crate::ethernet2_header_slice::Ethernet2HeaderSlice;
use etherparse::err::LenError;

/// The header of an Ethernet frame (IEEE 802.3 section 3.1.1).
///
/// ```text
/// +-------------+-------------+------------+
/// | destination |   source    | ether_type |
/// |   6 bytes   |   6 bytes   |  2 bytes   |
/// +-------------+-------------+------------+
/// ```
///
/// # Example
///
/// ```
/// let header = Ethernet2Header {
///     source: [2, 0, 0, 0, 0, 1],
///     destination: [2, 0, 0, 0, 0, 2],
///     ether_type: EtherType::IPV4,
/// };
/// assert!(rt; header.to_bytes() == [2, 0, 0, 0, 0, 2, 2, 0, 0, 0, 0, 1, 8, 0]);
/// ```
#[derive(Clone, Copy, Debug, PartialEq, Eq)]
pub struct Ethernet2Header {
    /// Who sent the frame: bytes 6 to 11.
    pub source: [u8; 6],
    /// Who receives the frame: bytes 0 to 5.
    pub destination: [u8; 6],
    /// What follows the header: bytes 12 and 13. Up to 1500 it is the length of the payload, in
    /// bytes.
    pub ether_type: EtherType,
}

impl Ethernet2Header {
    ghost use Rattle.std.specs.Prelude.{ℕ, ◌≡◌, List, ◌++◌, Ok};
    ghost use Rattle.etherparse.specs.Reading.{Reads, found_and_rest};
    ghost use Rattle.etherparse_link.specs.Ethernet2Header.{IsEthernet2Layout, RefusesEthernet2};
    ghost use Rattle.etherparse_link.specs.Ethernet2Header.{Ethernet2Reading};

    /// The length of the header, in bytes: 14.
    pub const LEN: usize = 14;

    /// The header at the front of a slice, and all the bytes after it: the payload, with padding
    /// and a frame check sequence if they are there.
    ///
    /// # Errors
    ///
    /// A `LenError` if the slice has fewer than 14 bytes.
    ///
    /// # Example
    ///
    /// ```
    /// // The first bytes of an ARP packet that is a broadcast.
    /// let frame = [255, 255, 255, 255, 255, 255, 2, 0, 0, 0, 0, 1, 8, 6, 0, 1];
    /// let (header, rest) = Ethernet2Header::from_slice(&frame)?;
    /// assert!(rt; header.destination == [255; 6]);
    /// assert!(rt; header.source == [2, 0, 0, 0, 0, 1]);
    /// assert!(rt; header.ether_type == EtherType::ARP && rest == [0, 1].as_slice());
    /// assert!(rt; Ethernet2Header::from_slice(&frame[..13]).is_err());
    /// ```
    pub fn from_slice(slice: &[u8]) -> Result<(Ethernet2Header, &[u8]), LenError>
        ensures reads { Reads IsEthernet2Layout RefusesEthernet2 slice.now
            (found_and_rest result) }
        ensures only { (other : Ethernet2Reading) →
            Reads IsEthernet2Layout RefusesEthernet2 slice.now other →
            other ≡ found_and_rest result }
    {
        let header = Ethernet2HeaderSlice::from_slice(slice)?.to_header();
        Ok((header, &slice[Ethernet2Header::LEN..]))
    }

    /// The 14 bytes of the header.
    pub fn to_bytes(&self) -> [u8; 14]
        ensures layout { IsEthernet2Layout self.now result }
        ensures only { (bytes : List ℕ) → IsEthernet2Layout self.now bytes → bytes ≡ result }
        ensures read_again { (rest : List ℕ) →
            Reads IsEthernet2Layout RefusesEthernet2 (result ++ rest) (Ok (self.now, rest)) }
    {
        joined(
            &self.destination,
            &self.source,
            &ether_type_bytes(self.ether_type),
        )
    }
}

const _: () = prove!(Ethernet2Header::LEN == 14);

// The header of 14 bytes.
pub(crate) fn header_of(bytes: &[u8]) -> Ethernet2Header
    requires { length bytes.now ≡ 14 }
    ensures layout { IsEthernet2Layout result bytes.now }
{
    let b = bytes;
    Ethernet2Header {
        source: [b[6], b[7], b[8], b[9], b[10], b[11]],
        destination: [b[0], b[1], b[2], b[3], b[4], b[5]],
        ether_type: EtherType(u16_at(bytes, 12)),
    }
}

// Three parts, one after the other.
fn joined(destination: &[u8], source: &[u8], ether_type: &[u8]) -> [u8; 14]
    requires destination_len { length destination.now ≡ 6 }
    requires source_len { length source.now ≡ 6 }
    requires ether_type_len { length ether_type.now ≡ 2 }
    ensures parts { result ≡ destination.now ++ (source.now ++ ether_type.now) }
    ensures are_bytes { IsBytes (destination.now ++ (source.now ++ ether_type.now)) }
{
    let (d, s, e) = (destination, source, ether_type);
    [
        d[0], d[1], d[2], d[3], d[4], d[5], s[0], s[1], s[2], s[3], s[4], s[5], e[0], e[1],
    ]
}
