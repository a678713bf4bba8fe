//! Checksums of TCP that are computed for a view of a header and a payload (RFC 9293 section 3.1).

ghost use Rattle.std.specs.Prelude.{ℕ, ◌≡◌, ◌+◌, ◌-◌, ◌%◌, ◌≤◌, ◌↔◌, List};
ghost use Rattle.std.specs.Prelude.{IfErr, IfOk, IsOk, length, slice_range};
ghost use Rattle.etherparse.specs.WordSums.{StandsForWords};
ghost use Rattle.etherparse.specs.declared.err.ValueType.TheVariants.{TcpPayloadLengthIpv4};
ghost use Rattle.etherparse.specs.declared.err.ValueType.TheVariants.{TcpPayloadLengthIpv6};
ghost use Rattle.etherparse_transport.specs.TcpChecksum.{IsTcpFrontWith};
ghost use Rattle.etherparse_transport.specs.TcpChecksum.{IsTcpFrontChecksumIpv4};
ghost use Rattle.etherparse_transport.specs.TcpChecksum.{IsTcpFrontChecksumIpv6};
ghost use Rattle.etherparse_transport.specs.TransportChecksum.{IsTcpChecksum};

use super::TcpHeaderSlice;
use crate::tcp_pseudo_header::{sum_over_ipv4, sum_over_ipv6};
use etherparse::checksum::Sum16BitWords;
use etherparse::err::ValueTooBigError;
use etherparse::{Ipv4HeaderSlice, Ipv6HeaderSlice};

impl<'a> TcpHeaderSlice<'a> {
    /// The checksum over IPv4 that belongs into the header before this payload, whatever bytes 16
    /// and 17 have; the addresses are those of the IP header. It is never 65535. On a source
    /// route, call the `_raw` form with the final destination (RFC 791 section 3.1).
    ///
    /// # Errors
    ///
    /// A `ValueTooBigError` if header and payload are longer than 65535 bytes, which is more
    /// than the length of a pseudo-header can count. `max_allowed` is the longest payload after
    /// this header.
    ///
    /// # Example
    ///
    /// ```
    /// // A segment with the payload "test" from 192.168.0.1 to 192.168.0.199.
    /// let packet = [
    ///     0x45, 0, 0, 44, 0, 0, 0x40, 0, 64, 6, 0xb8, 0xb3, 192, 168, 0, 1, 192, 168, 0, 199,
    ///     4, 0, 0, 80, 0, 0, 0, 1, 0, 0, 0, 0, 0x50, 0x08, 0x20, 0, 0x21, 0x95, 0, 0,
    ///     b't', b'e', b's', b't',
    /// ];
    /// let ip = Ipv4HeaderSlice::from_slice(&packet)?;
    /// let tcp = TcpHeaderSlice::from_slice(&packet[20..])?;
    /// assert!(rt; tcp.calc_checksum_ipv4(&ip, &packet[40..])? == tcp.checksum());
    /// ```
    pub fn calc_checksum_ipv4(
        &self,
        ip_header: &Ipv4HeaderSlice,
        payload: &[u8],
    ) -> Result<u16, ValueTooBigError<usize>>
        ensures accepted { IsOk result ↔ (length self.now.slice.now + length payload.now ≤ 65535) }
        ensures refused { IfErr result (λ e. e ≡ record {
          actual = length payload.now;
          max_allowed = 65535 - length self.now.slice.now;
          value_type = TcpPayloadLengthIpv4;
        }) }
        ensures computed { IfOk result (IsTcpFrontChecksumIpv4
            (slice_range ip_header.now.slice.now 12 16) (slice_range ip_header.now.slice.now 16 20)
            self.now.slice.now payload.now) }
    {
        self.calc_checksum_ipv4_raw(ip_header.source(), ip_header.destination(), payload)
    }

    /// The same as [`TcpHeaderSlice::calc_checksum_ipv4`], between these addresses.
    ///
    /// # Errors
    ///
    /// A `ValueTooBigError` if header and payload are longer than 65535 bytes.
    pub fn calc_checksum_ipv4_raw(
        &self,
        source: [u8; 4],
        destination: [u8; 4],
        payload: &[u8],
    ) -> Result<u16, ValueTooBigError<usize>>
        ensures accepted { IsOk result ↔ (length self.now.slice.now + length payload.now ≤ 65535) }
        ensures refused { IfErr result (λ e. e ≡ record {
          actual = length payload.now;
          max_allowed = 65535 - length self.now.slice.now;
          value_type = TcpPayloadLengthIpv4;
        }) }
        ensures computed { IfOk result
            (IsTcpFrontChecksumIpv4 source destination self.now.slice.now payload.now) }
    {
        match sum_over_ipv4(source, destination, self.slice.len(), payload.len()) {
            Ok(sum) => Ok(self.checksum_after(sum, payload)),
            Err(e) => Err(e),
        }
    }

    /// The checksum over IPv6, as [`TcpHeaderSlice::calc_checksum_ipv4`] gives that over IPv4. With
    /// a routing header, call the `_raw` form with the final destination (RFC 8200 section 8.1),
    /// and if there is a Home Address option, with the home address as source (RFC 6275 section
    /// 11.3.1).
    ///
    /// # Errors
    ///
    /// A `ValueTooBigError` if header and payload are longer than 4294967295 bytes, which is more
    /// than the length of a pseudo-header can count. `max_allowed` is the longest payload after
    /// this header.
    pub fn calc_checksum_ipv6(
        &self,
        ip_header: &Ipv6HeaderSlice,
        payload: &[u8],
    ) -> Result<u16, ValueTooBigError<usize>>
        ensures accepted { IsOk result
            ↔ (length self.now.slice.now + length payload.now ≤ 4294967295) }
        ensures refused { IfErr result (λ e. e ≡ record {
          actual = length payload.now;
          max_allowed = 4294967295 - length self.now.slice.now;
          value_type = TcpPayloadLengthIpv6;
        }) }
        ensures computed { IfOk result (IsTcpFrontChecksumIpv6
            (slice_range ip_header.now.slice.now 8 24) (slice_range ip_header.now.slice.now 24 40)
            self.now.slice.now payload.now) }
    {
        self.calc_checksum_ipv6_raw(ip_header.source(), ip_header.destination(), payload)
    }

    /// The same as [`TcpHeaderSlice::calc_checksum_ipv6`], between these addresses.
    ///
    /// # Errors
    ///
    /// A `ValueTooBigError` if header and payload are longer than 4294967295 bytes.
    pub fn calc_checksum_ipv6_raw(
        &self,
        source: [u8; 16],
        destination: [u8; 16],
        payload: &[u8],
    ) -> Result<u16, ValueTooBigError<usize>>
        ensures accepted { IsOk result
            ↔ (length self.now.slice.now + length payload.now ≤ 4294967295) }
        ensures refused { IfErr result (λ e. e ≡ record {
          actual = length payload.now;
          max_allowed = 4294967295 - length self.now.slice.now;
          value_type = TcpPayloadLengthIpv6;
        }) }
        ensures computed { IfOk result
            (IsTcpFrontChecksumIpv6 source destination self.now.slice.now payload.now) }
    {
        match sum_over_ipv6(source, destination, self.slice.len(), payload.len()) {
            Ok(sum) => Ok(self.checksum_after(sum, payload)),
            Err(e) => Err(e),
        }
    }

    // The checksum, from the sum of the pseudo-header: that of all bytes but 16 and 17.
    fn checksum_after(&self, pseudo_header: Sum16BitWords, payload: &[u8]) -> u16
        ensures computed { (before : List ℕ) → StandsForWords 0 before pseudo_header →
            length before % 2 ≡ 0 →
            IsTcpChecksum (IsTcpFrontWith self.now.slice.now) before payload.now result }
    {
        let front = pseudo_header.add_slice(&self.slice[..16]);
        let header = front.add_slice(&self.slice[18..]);
        let sum = header.add_slice(payload);
        sum.ones_complement().swap_bytes()
    }
}
