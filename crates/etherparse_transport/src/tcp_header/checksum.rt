//! Checksums of TCP that are computed for a header and a payload (RFC 9293 section 3.1).

ghost use Rattle.std.specs.Prelude.{ℕ, ◌≡◌, ◌+◌, ◌-◌, ◌%◌, ◌≤◌, ◌↔◌, List};
ghost use Rattle.std.specs.Prelude.{IfErr, IfOk, IsOk, length};
ghost use Rattle.etherparse.specs.WordSums.{StandsForWords};
ghost use Rattle.etherparse.specs.declared.err.ValueType.TheVariants.{TcpPayloadLengthIpv4};
ghost use Rattle.etherparse.specs.declared.err.ValueType.TheVariants.{TcpPayloadLengthIpv6};
ghost use Rattle.etherparse_transport.specs.TcpChecksum.{HasTcpBytesWith};
ghost use Rattle.etherparse_transport.specs.TcpChecksum.{IsTcpChecksumIpv4, IsTcpChecksumIpv6};
ghost use Rattle.etherparse_transport.specs.TcpHeader.{tcp_header_len};
ghost use Rattle.etherparse_transport.specs.TransportChecksum.{IsTcpChecksum};

use super::TcpHeader;
use crate::tcp_pseudo_header::{sum_over_ipv4, sum_over_ipv6};
use etherparse::checksum::Sum16BitWords;
use etherparse::err::ValueTooBigError;
use etherparse::{Ipv4Header, Ipv6Header};

impl TcpHeader {
    /// The checksum over IPv4 that belongs into this header before this payload, whatever its field
    /// `checksum` has; the addresses are those of the IP header. It is never 65535. On a source
    /// route, call the `_raw` form with the final destination (RFC 791 section 3.1).
    ///
    /// # Errors
    ///
    /// A `ValueTooBigError` if header and payload are longer than 65535 bytes, which is more
    /// than the length of a pseudo-header can count. `max_allowed` is the longest payload after
    /// this header.
    ///
    /// # Example
    ///
    /// ```
    /// let (source, destination) = ([192, 168, 0, 1], [192, 168, 0, 199]);
    /// let ip = Ipv4Header::new(24, 64, IpNumber::TCP, source, destination)?;
    /// let mut tcp = TcpHeader::new(1024, 80, 1, 8192);
    /// tcp.psh = true;
    /// tcp.checksum = tcp.calc_checksum_ipv4(&ip, b"test")?;
    /// assert!(rt; tcp.checksum == 0x2195);
    /// ```
    pub fn calc_checksum_ipv4(
        &self,
        ip_header: &Ipv4Header,
        payload: &[u8],
    ) -> Result<u16, ValueTooBigError<usize>>
        ensures accepted { IsOk result ↔ (tcp_header_len self.now + length payload.now ≤ 65535) }
        ensures refused { IfErr result (λ e. e ≡ record {
          actual = length payload.now;
          max_allowed = 65535 - tcp_header_len self.now;
          value_type = TcpPayloadLengthIpv4;
        }) }
        ensures computed { IfOk result (IsTcpChecksumIpv4 ip_header.now.source
            ip_header.now.destination self.now payload.now) }
    {
        self.calc_checksum_ipv4_raw(ip_header.source, ip_header.destination, payload)
    }

    /// The same as [`TcpHeader::calc_checksum_ipv4`], between these addresses.
    ///
    /// # Errors
    ///
    /// A `ValueTooBigError` if header and payload are longer than 65535 bytes.
    pub fn calc_checksum_ipv4_raw(
        &self,
        source: [u8; 4],
        destination: [u8; 4],
        payload: &[u8],
    ) -> Result<u16, ValueTooBigError<usize>>
        ensures accepted { IsOk result ↔ (tcp_header_len self.now + length payload.now ≤ 65535) }
        ensures refused { IfErr result (λ e. e ≡ record {
          actual = length payload.now;
          max_allowed = 65535 - tcp_header_len self.now;
          value_type = TcpPayloadLengthIpv4;
        }) }
        ensures computed { IfOk result
            (IsTcpChecksumIpv4 source destination self.now payload.now) }
    {
        match sum_over_ipv4(source, destination, self.header_len(), payload.len()) {
            Ok(sum) => Ok(self.checksum_after(sum, payload)),
            Err(e) => Err(e),
        }
    }

    /// The checksum over IPv6, as [`TcpHeader::calc_checksum_ipv4`] gives that over IPv4. With
    /// a routing header, call the `_raw` form with the final destination (RFC 8200 section 8.1),
    /// and if there is a Home Address option, with the home address as source (RFC 6275 section
    /// 11.3.1).
    ///
    /// # Errors
    ///
    /// A `ValueTooBigError` if header and payload are longer than 4294967295 bytes, which is more
    /// than the length of a pseudo-header can count. `max_allowed` is the longest payload after
    /// this header.
    ///
    /// # Example
    ///
    /// ```
    /// let mut ip = Ipv6Header::default();
    /// ip.source = [0x20, 0x01, 0x0d, 0xb8, 0, 0, 0, 0, 0, 0, 0, 0, 0, 0, 0, 1];
    /// ip.destination = [0x20, 0x01, 0x0d, 0xb8, 0, 0, 0, 0, 0, 0, 0, 0, 0, 0, 0, 2];
    /// let mut tcp = TcpHeader::new(1024, 80, 1, 8192);
    /// tcp.psh = true;
    /// assert!(rt; tcp.calc_checksum_ipv6(&ip, b"test")? == 0x4839);
    /// ```
    pub fn calc_checksum_ipv6(
        &self,
        ip_header: &Ipv6Header,
        payload: &[u8],
    ) -> Result<u16, ValueTooBigError<usize>>
        ensures accepted { IsOk result
            ↔ (tcp_header_len self.now + length payload.now ≤ 4294967295) }
        ensures refused { IfErr result (λ e. e ≡ record {
          actual = length payload.now;
          max_allowed = 4294967295 - tcp_header_len self.now;
          value_type = TcpPayloadLengthIpv6;
        }) }
        ensures computed { IfOk result (IsTcpChecksumIpv6 ip_header.now.source
            ip_header.now.destination self.now payload.now) }
    {
        self.calc_checksum_ipv6_raw(ip_header.source, ip_header.destination, payload)
    }

    /// The same as [`TcpHeader::calc_checksum_ipv6`], between these addresses.
    ///
    /// # Errors
    ///
    /// A `ValueTooBigError` if header and payload are longer than 4294967295 bytes.
    pub fn calc_checksum_ipv6_raw(
        &self,
        source: [u8; 16],
        destination: [u8; 16],
        payload: &[u8],
    ) -> Result<u16, ValueTooBigError<usize>>
        ensures accepted { IsOk result
            ↔ (tcp_header_len self.now + length payload.now ≤ 4294967295) }
        ensures refused { IfErr result (λ e. e ≡ record {
          actual = length payload.now;
          max_allowed = 4294967295 - tcp_header_len self.now;
          value_type = TcpPayloadLengthIpv6;
        }) }
        ensures computed { IfOk result
            (IsTcpChecksumIpv6 source destination self.now payload.now) }
    {
        match sum_over_ipv6(source, destination, self.header_len(), payload.len()) {
            Ok(sum) => Ok(self.checksum_after(sum, payload)),
            Err(e) => Err(e),
        }
    }

    // The checksum, from the sum of the pseudo-header.
    fn checksum_after(&self, pseudo_header: Sum16BitWords, payload: &[u8]) -> u16
        ensures computed { (before : List ℕ) → StandsForWords 0 before pseudo_header →
            length before % 2 ≡ 0 →
            IsTcpChecksum (HasTcpBytesWith self.now) before payload.now result }
    {
        let front = self.front(0);
        let fixed = pseudo_header.add_slice(&front);
        let header = fixed.add_slice(self.options.as_slice());
        let sum = header.add_slice(payload);
        sum.ones_complement().swap_bytes()
    }
}
