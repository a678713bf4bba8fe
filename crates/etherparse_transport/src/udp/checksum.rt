//! Checksums of UDP that are computed, and headers that are made for a payload (RFC 768).

ghost use Rattle.std.specs.Prelude.{ℕ, ◌≡◌, ◌≢◌, ◌+◌, ◌%◌, ◌≤◌, ◌↔◌, List, IfErr, IfOk, IsOk};
ghost use Rattle.std.specs.Prelude.{length};
ghost use Rattle.etherparse.specs.WordSums.{StandsForWords};
ghost use Rattle.etherparse_transport.specs.TransportChecksum.{IsUdpChecksum};
ghost use Rattle.etherparse_transport.specs.UdpChecksum.{HasUdpBytesWith, udp_header_for};
ghost use Rattle.etherparse_transport.specs.UdpChecksum.{IsRightDatagramIpv4};
ghost use Rattle.etherparse_transport.specs.UdpChecksum.{IsRightDatagramIpv6};
ghost use Rattle.etherparse_transport.specs.UdpChecksum.{IsUdpChecksumIpv4, IsUdpChecksumIpv6};

use super::UdpHeader;
use crate::payload_len::check_payload_len;
use etherparse::checksum::Sum16BitWords;
use etherparse::err::{ValueTooBigError, ValueType};
use etherparse::{IpNumber, Ipv4Header, Ipv6Header};
use packet_parts::checksum::{ipv4_pseudo_header, ipv6_pseudo_header};

impl UdpHeader {
    // The longest payload that the length field can count beside the header, in bytes.
    const MAX_PAYLOAD_LEN: usize = 65527;

    // The longest payload beside the header in the 32 bits that a pseudo-header of IPv6 has.
    const MAX_PAYLOAD_LEN_IPV6: usize = 4294967287;

    /// A header for a payload of this length in bytes, without a checksum: 0.
    ///
    /// # Errors
    ///
    /// A `ValueTooBigError` if the payload is longer than 65527 bytes: with the 8 of the header,
    /// that is more than the length field can count.
    ///
    /// # Example
    ///
    /// ```
    /// let header = UdpHeader::without_ipv4_checksum(1024, 53, 4)?;
    /// assert!(rt; header.to_bytes() == [4, 0, 0, 53, 0, 12, 0, 0]);
    /// assert!(rt; UdpHeader::without_ipv4_checksum(1024, 53, 65528).is_err());
    /// ```
    pub fn without_ipv4_checksum(
        source_port: u16,
        destination_port: u16,
        payload_len: usize,
    ) -> Result<UdpHeader, ValueTooBigError<usize>>
        ensures accepted { IsOk result ↔ (payload_len ≤ 65527) }
        ensures refused { IfErr result (λ e. e ≡ record {
          actual = payload_len;
          max_allowed = 65527;
          value_type = ValueType.UdpPayloadLengthIpv4;
        }) }
        ensures made { IfOk result (λ header.
            header ≡ udp_header_for source_port destination_port payload_len) }
    {
        let value_type = ValueType::UdpPayloadLengthIpv4;
        UdpHeader::for_payload(source_port, destination_port, payload_len, value_type)
    }

    /// A header for this payload, with its checksum over IPv4: the addresses are those of the IP
    /// header. On a source route, set [`UdpHeader::calc_checksum_ipv4_raw`] with the final
    /// destination instead (RFC 791 section 3.1).
    ///
    /// # Errors
    ///
    /// A `ValueTooBigError` if the payload is longer than 65527 bytes.
    ///
    /// # Example
    ///
    /// ```
    /// let (source, destination) = ([192, 168, 0, 1], [192, 168, 0, 199]);
    /// let ip = Ipv4Header::new(12, 64, IpNumber::UDP, source, destination)?;
    /// let header = UdpHeader::with_ipv4_checksum(1024, 53, &ip, b"test")?;
    /// assert!(rt; header.to_bytes() == [4, 0, 0, 53, 0, 12, 0x91, 0xae]);
    /// ```
    pub fn with_ipv4_checksum(
        source_port: u16,
        destination_port: u16,
        ip_header: &Ipv4Header,
        payload: &[u8],
    ) -> Result<UdpHeader, ValueTooBigError<usize>>
        ensures accepted { IsOk result ↔ (length payload.now ≤ 65527) }
        ensures refused { IfErr result (λ e. e ≡ record {
          actual = length payload.now;
          max_allowed = 65527;
          value_type = ValueType.UdpPayloadLengthIpv4;
        }) }
        ensures made { IfOk result (λ header. header ≡ record (udp_header_for source_port
            destination_port (length payload.now)) { checksum = header.checksum }) }
        ensures there { IfOk result (λ header. header.checksum ≢ 0) }
        ensures computed { IfOk result (λ header. IsUdpChecksumIpv4 ip_header.now.source
            ip_header.now.destination header payload.now header.checksum) }
        ensures datagram { IfOk result (λ header. IsRightDatagramIpv4 ip_header.now.source
            ip_header.now.destination header payload.now header.checksum) }
    {
        let value_type = ValueType::UdpPayloadLengthIpv4;
        let made = UdpHeader::for_payload(source_port, destination_port, payload.len(), value_type);
        match made {
            Ok(header) => {
                let (source, destination) = (ip_header.source, ip_header.destination);
                let checksum = header.checksum_over_ipv4(source, destination, payload);
                Ok(UdpHeader { checksum, ..header })
            }
            Err(e) => Err(e),
        }
    }

    /// A header for this payload, with its checksum over IPv6: the addresses are those of the IP
    /// header. With a routing header, set [`UdpHeader::calc_checksum_ipv6_raw`] with the final
    /// destination instead (RFC 8200 section 8.1), and if there is a Home Address option, with the
    /// home address as source (RFC 6275 section 11.3.1).
    ///
    /// # Errors
    ///
    /// A `ValueTooBigError` if the payload is longer than 65527 bytes: with the 8 of the header,
    /// that is more than the length field can count.
    pub fn with_ipv6_checksum(
        source_port: u16,
        destination_port: u16,
        ip_header: &Ipv6Header,
        payload: &[u8],
    ) -> Result<UdpHeader, ValueTooBigError<usize>>
        ensures accepted { IsOk result ↔ (length payload.now ≤ 65527) }
        ensures refused { IfErr result (λ e. e ≡ record {
          actual = length payload.now;
          max_allowed = 65527;
          value_type = ValueType.UdpPayloadLengthIpv6;
        }) }
        ensures made { IfOk result (λ header. header ≡ record (udp_header_for source_port
            destination_port (length payload.now)) { checksum = header.checksum }) }
        ensures there { IfOk result (λ header. header.checksum ≢ 0) }
        ensures computed { IfOk result (λ header. IsUdpChecksumIpv6 ip_header.now.source
            ip_header.now.destination header payload.now header.checksum) }
        ensures datagram { IfOk result (λ header. IsRightDatagramIpv6 ip_header.now.source
            ip_header.now.destination header payload.now header.checksum) }
    {
        let value_type = ValueType::UdpPayloadLengthIpv6;
        let made = UdpHeader::for_payload(source_port, destination_port, payload.len(), value_type);
        match made {
            Ok(header) => {
                let (source, destination) = (ip_header.source, ip_header.destination);
                let checksum = header.checksum_over_ipv6(source, destination, payload);
                Ok(UdpHeader { checksum, ..header })
            }
            Err(e) => Err(e),
        }
    }

    /// The checksum over IPv4 that belongs into this header before this payload, whatever its field
    /// `checksum` has; the addresses are those of the IP header. It is never 0. On a source route,
    /// call the `_raw` form with the final destination (RFC 791 section 3.1).
    ///
    /// The sum has the field `length` as it stands: set it first, to 8 and the payload's length.
    /// Otherwise no receiver finds the checksum of this datagram right, but by chance.
    ///
    /// # Errors
    ///
    /// A `ValueTooBigError` if the payload is longer than 65527 bytes: with the 8 of the header,
    /// that is more than the length field can count.
    ///
    /// # Example
    ///
    /// ```
    /// let (source, destination) = ([192, 168, 0, 1], [192, 168, 0, 199]);
    /// let ip = Ipv4Header::new(12, 64, IpNumber::UDP, source, destination)?;
    /// let udp = UdpHeader::without_ipv4_checksum(1024, 53, 4)?;
    /// assert!(rt; udp.calc_checksum_ipv4(&ip, b"test")? == 0x91ae);
    /// ```
    pub fn calc_checksum_ipv4(
        &self,
        ip_header: &Ipv4Header,
        payload: &[u8],
    ) -> Result<u16, ValueTooBigError<usize>>
        ensures accepted { IsOk result ↔ (length payload.now ≤ 65527) }
        ensures refused { IfErr result (λ e. e ≡ record {
          actual = length payload.now;
          max_allowed = 65527;
          value_type = ValueType.UdpPayloadLengthIpv4;
        }) }
        ensures there { IfOk result (λ checksum. checksum ≢ 0) }
        ensures computed { IfOk result (IsUdpChecksumIpv4 ip_header.now.source
            ip_header.now.destination self.now payload.now) }
        ensures datagram { self.now.length ≡ 8 + length payload.now → IfOk result
            (IsRightDatagramIpv4 ip_header.now.source ip_header.now.destination self.now
            payload.now) }
    {
        self.calc_checksum_ipv4_raw(ip_header.source, ip_header.destination, payload)
    }

    /// The same as [`UdpHeader::calc_checksum_ipv4`], between these addresses.
    ///
    /// # Errors
    ///
    /// A `ValueTooBigError` if the payload is longer than 65527 bytes.
    pub fn calc_checksum_ipv4_raw(
        &self,
        source: [u8; 4],
        destination: [u8; 4],
        payload: &[u8],
    ) -> Result<u16, ValueTooBigError<usize>>
        ensures accepted { IsOk result ↔ (length payload.now ≤ 65527) }
        ensures refused { IfErr result (λ e. e ≡ record {
          actual = length payload.now;
          max_allowed = 65527;
          value_type = ValueType.UdpPayloadLengthIpv4;
        }) }
        ensures there { IfOk result (λ checksum. checksum ≢ 0) }
        ensures computed { IfOk result
            (IsUdpChecksumIpv4 source destination self.now payload.now) }
        ensures datagram { self.now.length ≡ 8 + length payload.now → IfOk result
            (IsRightDatagramIpv4 source destination self.now payload.now) }
    {
        check_payload_len(
            payload.len(),
            UdpHeader::MAX_PAYLOAD_LEN,
            ValueType::UdpPayloadLengthIpv4,
        )?;
        Ok(self.checksum_over_ipv4(source, destination, payload))
    }

    /// The checksum over IPv6, as [`UdpHeader::calc_checksum_ipv4`] gives that over IPv4. With
    /// a routing header, call the `_raw` form with the final destination (RFC 8200 section 8.1),
    /// and if there is a Home Address option, with the home address as source (RFC 6275 section
    /// 11.3.1).
    ///
    /// The sum has the field `length` as it stands, in the pseudo-header too. A payload from 65528
    /// bytes on, which that field cannot count, is summed as any other: for a jumbogram, whose
    /// field `length` is 0 (RFC 2675 section 4), the result is not its checksum, since the
    /// pseudo-header has to have the true length.
    ///
    /// # Errors
    ///
    /// A `ValueTooBigError` if the payload is longer than 4294967287 bytes: with the 8 of the
    /// header, that is more than the length of a pseudo-header of IPv6 can count.
    ///
    /// # Example
    ///
    /// ```
    /// let mut ip = Ipv6Header::default();
    /// ip.source = [0x20, 0x01, 0x0d, 0xb8, 0, 0, 0, 0, 0, 0, 0, 0, 0, 0, 0, 1];
    /// ip.destination = [0x20, 0x01, 0x0d, 0xb8, 0, 0, 0, 0, 0, 0, 0, 0, 0, 0, 0, 2];
    /// let udp = UdpHeader::without_ipv4_checksum(1024, 53, 4)?;
    /// assert!(rt; udp.calc_checksum_ipv6(&ip, b"test")? == 0xb852);
    /// ```
    pub fn calc_checksum_ipv6(
        &self,
        ip_header: &Ipv6Header,
        payload: &[u8],
    ) -> Result<u16, ValueTooBigError<usize>>
        ensures accepted { IsOk result ↔ (length payload.now ≤ 4294967287) }
        ensures refused { IfErr result (λ e. e ≡ record {
          actual = length payload.now;
          max_allowed = 4294967287;
          value_type = ValueType.UdpPayloadLengthIpv6;
        }) }
        ensures there { IfOk result (λ checksum. checksum ≢ 0) }
        ensures computed { IfOk result (IsUdpChecksumIpv6 ip_header.now.source
            ip_header.now.destination self.now payload.now) }
        ensures datagram { self.now.length ≡ 8 + length payload.now → IfOk result
            (IsRightDatagramIpv6 ip_header.now.source ip_header.now.destination self.now
            payload.now) }
    {
        self.calc_checksum_ipv6_raw(ip_header.source, ip_header.destination, payload)
    }

    /// The same as [`UdpHeader::calc_checksum_ipv6`], between these addresses. Payloads from 65528
    /// bytes on, which the length field cannot count, are summed too.
    ///
    /// # Errors
    ///
    /// A `ValueTooBigError` if the payload is longer than 4294967287 bytes.
    pub fn calc_checksum_ipv6_raw(
        &self,
        source: [u8; 16],
        destination: [u8; 16],
        payload: &[u8],
    ) -> Result<u16, ValueTooBigError<usize>>
        ensures accepted { IsOk result ↔ (length payload.now ≤ 4294967287) }
        ensures refused { IfErr result (λ e. e ≡ record {
          actual = length payload.now;
          max_allowed = 4294967287;
          value_type = ValueType.UdpPayloadLengthIpv6;
        }) }
        ensures there { IfOk result (λ checksum. checksum ≢ 0) }
        ensures computed { IfOk result
            (IsUdpChecksumIpv6 source destination self.now payload.now) }
        ensures datagram { self.now.length ≡ 8 + length payload.now → IfOk result
            (IsRightDatagramIpv6 source destination self.now payload.now) }
    {
        check_payload_len(
            payload.len(),
            UdpHeader::MAX_PAYLOAD_LEN_IPV6,
            ValueType::UdpPayloadLengthIpv6,
        )?;
        Ok(self.checksum_over_ipv6(source, destination, payload))
    }

    // A header without a checksum for a payload of this length.
    fn for_payload(
        source_port: u16,
        destination_port: u16,
        payload_len: usize,
        value_type: ValueType,
    ) -> Result<UdpHeader, ValueTooBigError<usize>>
        ensures accepted { IsOk result ↔ (payload_len ≤ 65527) }
        ensures refused { IfErr result (λ e. e ≡ record {
          actual = payload_len;
          max_allowed = 65527;
          value_type = value_type;
        }) }
        ensures made { IfOk result (λ header.
            header ≡ udp_header_for source_port destination_port payload_len) }
    {
        check_payload_len(payload_len, UdpHeader::MAX_PAYLOAD_LEN, value_type)?;
        Ok(UdpHeader {
            source_port,
            destination_port,
            length: (UdpHeader::LEN + payload_len) as u16,
            checksum: 0,
        })
    }

    // The checksum between these addresses of IPv4.
    pub(super) fn checksum_over_ipv4(
        &self,
        source: [u8; 4],
        destination: [u8; 4],
        payload: &[u8],
    ) -> u16
        ensures there { result ≢ 0 }
        ensures computed { IsUdpChecksumIpv4 source destination self.now payload.now result }
        ensures datagram { self.now.length ≡ 8 + length payload.now →
            IsRightDatagramIpv4 source destination self.now payload.now result }
    {
        let sum = ipv4_pseudo_header(source, destination, IpNumber::UDP, self.length);
        self.checksum_after(sum, payload)
    }

    // The checksum between these addresses of IPv6.
    pub(super) fn checksum_over_ipv6(
        &self,
        source: [u8; 16],
        destination: [u8; 16],
        payload: &[u8],
    ) -> u16
        ensures there { result ≢ 0 }
        ensures computed { IsUdpChecksumIpv6 source destination self.now payload.now result }
        ensures datagram { self.now.length ≡ 8 + length payload.now →
            IsRightDatagramIpv6 source destination self.now payload.now result }
    {
        let len = u32::from(self.length);
        let sum = ipv6_pseudo_header(source, destination, IpNumber::UDP, len);
        self.checksum_after(sum, payload)
    }

    // The checksum, from the sum of the pseudo-header.
    fn checksum_after(&self, mut pseudo_header: Sum16BitWords, payload: &[u8]) -> u16
        ensures there { result ≢ 0 }
        ensures computed { (before : List ℕ) → StandsForWords 0 before pseudo_header →
            length before % 2 ≡ 0 →
            IsUdpChecksum (HasUdpBytesWith self.now) before payload.now result }
    {
        let zeroed = UdpHeader {
            source_port: self.source_port,
            destination_port: self.destination_port,
            length: self.length,
            checksum: 0,
        };
        let sum = pseudo_header
            .add_8bytes(zeroed.to_bytes())
            .add_slice(payload);
        sum.to_ones_complement_with_no_zero().swap_bytes()
    }
}
