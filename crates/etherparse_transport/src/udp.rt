//! The UDP header (RFC 768).

ghost use Rattle.std.specs.Prelude.{◌≡◌, length};
ghost use Rattle.etherparse.specs.Reading.{too_short_error};
ghost use Rattle.etherparse.specs.declared.err.Layer.TheVariants as layer;
ghost use Rattle.etherparse_transport.specs.Udp.{IsUdpLayout};

mod checksum;

use etherparse::err::{Layer, LenError};
use etherparse::{Ipv4Header, Ipv6Header, LenSource};

/// A UDP header (RFC 768): 8 bytes, each number with the high byte first.
///
/// ```text
///  0               1               2               3
/// +---------------+---------------+---------------+---------------+
/// |          source_port          |        destination_port       |
/// +---------------+---------------+---------------+---------------+
/// |             length            |            checksum           |
/// +---------------+---------------+---------------+---------------+
/// ```
#[derive(Clone, Copy, Debug, PartialEq, Eq)]
pub struct UdpHeader {
    /// Bytes 0 and 1: the port of the sender, or 0 if it expects no answer.
    pub source_port: u16,
    /// Bytes 2 and 3: the port of the receiver.
    pub destination_port: u16,
    /// Bytes 4 and 5: the length of the header and the payload, in bytes. It is read and written as
    /// it stands, also below 8.
    pub length: u16,
    /// Bytes 6 and 7: the checksum, right or wrong, or 0 if there is none.
    pub checksum: u16,
}

impl UdpHeader {
    ghost use Rattle.std.specs.Prelude.{ℕ, ◌≡◌, ◌≢◌, ◌+◌, ◌<◌, ◌^◌, List, [], ◌∷◌, ◌++◌, Ok, map};
    ghost use Rattle.std.specs.Prelude.{length, slice_index};
    ghost use Rattle.std.specs.Int.{to_be_bytes, w16};
    ghost use Rattle.std.specs.List.{concat};
    ghost use Rattle.etherparse.specs.Reading.{found_and_rest};
    ghost use Rattle.etherparse.specs.WordSums.{ones_complement_sum};
    ghost use Rattle.packet_parts.specs.Checksum.{ipv4_pseudo_header, ipv6_pseudo_header};
    ghost use Rattle.etherparse_transport.specs.Udp.{IsUdpLayout, ReadsUdp, UdpReading, udp_words};
    ghost use Rattle.etherparse_transport.specs.UdpChecksum.{IsRightDatagramIpv4};
    ghost use Rattle.etherparse_transport.specs.UdpChecksum.{IsRightDatagramIpv6};

    /// The length of the header, in bytes: 8.
    pub const LEN: usize = 8;

    /// The header at the front of a slice, and all the bytes after it: neither is the length field
    /// compared with them, nor the checksum tested.
    ///
    /// # Errors
    ///
    /// A `LenError` of `Layer::UdpHeader` if the slice has fewer than 8 bytes.
    ///
    /// # Example
    ///
    /// ```
    /// let slice = [4, 0, 0, 53, 0, 12, 0x91, 0xae, b't', b'e', b's', b't'];
    /// let (header, rest) = UdpHeader::from_slice(&slice)?;
    /// assert!(rt; (header.source_port, header.destination_port) == (1024, 53));
    /// assert!(rt; rest == b"test".as_slice());
    /// ```
    #[inline(always)]
    pub fn from_slice(slice: &[u8]) -> Result<(UdpHeader, &[u8]), LenError>
        ensures reads { ReadsUdp slice.now (found_and_rest result) }
        ensures only { (other : UdpReading) → ReadsUdp slice.now other →
            other ≡ found_and_rest result }
    {
        if slice.len() < UdpHeader::LEN {
            return Err(too_short(slice.len()));
        }
        let (front, rest) = (&slice[..UdpHeader::LEN], &slice[UdpHeader::LEN..]);
        Ok((header_of(front), rest))
    }

    /// The 8 bytes of the header.
    pub fn to_bytes(&self) -> [u8; 8]
        ensures layout { IsUdpLayout self.now result }
        ensures only { (bytes : List ℕ) → IsUdpLayout self.now bytes → bytes ≡ result }
        ensures read_again { (rest : List ℕ) → ReadsUdp (result ++ rest) (Ok (self.now, rest)) }
    {
        self.words()
    }

    /// Sets the checksum of a datagram over IPv4. With it the datagram sums to all ones with its
    /// pseudo-header, and it is not 0, which says that there is none. On a source route, set
    /// [`UdpHeader::calc_checksum_ipv4_raw`] with the final destination instead (RFC 791 section
    /// 3.1).
    ///
    /// The payload may have any length, and the sum has the field `length` as it stands: set it
    /// first, to 8 and the payload's length. Otherwise no receiver finds the checksum of this
    /// datagram right, but by chance.
    ///
    /// # Example
    ///
    /// ```
    /// let (source, destination) = ([192, 168, 0, 1], [192, 168, 0, 199]);
    /// let ip = Ipv4Header::new(12, 64, IpNumber::UDP, source, destination)?;
    /// let mut udp = UdpHeader {
    ///     source_port: 1024,
    ///     destination_port: 53,
    ///     length: 12,
    ///     checksum: 0,
    /// };
    /// udp.set_checksum_ipv4(&ip, b"test");
    /// assert!(rt; udp.to_bytes() == [4, 0, 0, 53, 0, 12, 0x91, 0xae]);
    /// ```
    pub fn set_checksum_ipv4(&mut self, ip: &Ipv4Header, payload: &[u8])
        ensures others { self.new ≡ record self.old { checksum = self.new.checksum } }
        ensures there { self.new.checksum ≢ 0 }
        ensures right { (header : List ℕ) → IsUdpLayout self.new header → ones_complement_sum
            (ipv4_pseudo_header ip.now.source ip.now.destination 17 self.old.length
            ∷ (header ++ payload.now) ∷ []) ≡ 65535 }
        ensures datagram { self.old.length ≡ 8 + length payload.now → IsRightDatagramIpv4
            ip.now.source ip.now.destination self.old payload.now self.new.checksum }
    {
        self.checksum = self.checksum_over_ipv4(ip.source, ip.destination, payload);
    }

    /// Sets the checksum of a datagram over IPv6, as [`UdpHeader::set_checksum_ipv4`] does. With a
    /// routing header, set [`UdpHeader::calc_checksum_ipv6_raw`] with the final destination instead
    /// (RFC 8200 section 8.1), and if there is a Home Address option, with the home address as
    /// source (RFC 6275 section 11.3.1).
    ///
    /// # Example
    ///
    /// ```
    /// let mut ip = Ipv6Header::default();
    /// ip.source = [0x20, 0x01, 0x0d, 0xb8, 0, 0, 0, 0, 0, 0, 0, 0, 0, 0, 0, 1];
    /// ip.destination = [0x20, 0x01, 0x0d, 0xb8, 0, 0, 0, 0, 0, 0, 0, 0, 0, 0, 0, 2];
    /// let mut udp = UdpHeader {
    ///     source_port: 1024,
    ///     destination_port: 53,
    ///     length: 12,
    ///     checksum: 0,
    /// };
    /// udp.set_checksum_ipv6(&ip, b"test");
    /// assert!(rt; udp.checksum == 0xb852);
    /// ```
    pub fn set_checksum_ipv6(&mut self, ip: &Ipv6Header, payload: &[u8])
        ensures others { self.new ≡ record self.old { checksum = self.new.checksum } }
        ensures there { self.new.checksum ≢ 0 }
        ensures right { (header : List ℕ) → IsUdpLayout self.new header → ones_complement_sum
            (ipv6_pseudo_header ip.now.source ip.now.destination 17 self.old.length
            ∷ (header ++ payload.now) ∷ []) ≡ 65535 }
        ensures datagram { self.old.length ≡ 8 + length payload.now → IsRightDatagramIpv6
            ip.now.source ip.now.destination self.old payload.now self.new.checksum }
    {
        self.checksum = self.checksum_over_ipv6(ip.source, ip.destination, payload);
    }

    // The four words, each with the high byte first.
    fn words(&self) -> [u8; 8]
        ensures value { result ≡ concat (map (λ n. to_be_bytes w16 n) (udp_words self.now)) }
        ensures fit { (i : ℕ) → slice_index (udp_words self.now) i < 2 ^ 16 }
    {
        let (source_port, destination_port) = (self.source_port, self.destination_port);
        let (length, checksum) = (self.length, self.checksum);
        let [a, b] = source_port.to_be_bytes();
        let [c, d] = destination_port.to_be_bytes();
        let [e, f] = length.to_be_bytes();
        let [g, h] = checksum.to_be_bytes();
        [a, b, c, d, e, f, g, h]
    }
}

const _: () = prove!(UdpHeader::LEN == 8);

// The header of 8 bytes.
#[inline(always)]
pub(crate) fn header_of(bytes: &[u8]) -> UdpHeader
    requires { length bytes.now ≡ 8 }
    ensures layout { IsUdpLayout result bytes.now }
{
    UdpHeader {
        source_port: u16::from_be_bytes([bytes[0], bytes[1]]),
        destination_port: u16::from_be_bytes([bytes[2], bytes[3]]),
        length: u16::from_be_bytes([bytes[4], bytes[5]]),
        checksum: u16::from_be_bytes([bytes[6], bytes[7]]),
    }
}

// The error of a slice of so many bytes, which are fewer than 8.
pub(crate) fn too_short(len: usize) -> LenError
    ensures value { result ≡ too_short_error layer.UdpHeader 8 len }
{
    LenError {
        required_len: UdpHeader::LEN,
        len,
        len_source: LenSource::Slice,
        layer: Layer::UdpHeader,
        layer_start_offset: 0,
    }
}
