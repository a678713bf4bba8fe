//! The pseudo-headers of a TCP segment, whose length is in no field of its header.

ghost use Rattle.std.specs.Prelude.{◌≡◌, ◌+◌, ◌-◌, ◌≤◌, ◌↔◌, IfErr, IfOk, IsOk};
ghost use Rattle.etherparse.specs.WordSums.{StandsForWords};
ghost use Rattle.packet_parts.specs.Checksum.{ipv4_pseudo_header, ipv6_pseudo_header};

use crate::payload_len::check_payload_len;
use etherparse::IpNumber;
use etherparse::checksum::Sum16BitWords;
use etherparse::err::{ValueTooBigError, ValueType};
use packet_parts::checksum::{ipv4_pseudo_header, ipv6_pseudo_header};

// The sum of the pseudo-header of IPv4, if its 16 bits can tell the length of the segment.
pub(crate) fn sum_over_ipv4(
    source: [u8; 4],
    destination: [u8; 4],
    header_len: usize,
    payload_len: usize,
) -> Result<Sum16BitWords, ValueTooBigError<usize>>
    requires { header_len ≤ 60 }
    ensures accepted { IsOk result ↔ (header_len + payload_len ≤ 65535) }
    ensures refused { IfErr result (λ e. e ≡ record {
      actual = payload_len;
      max_allowed = 65535 - header_len;
      value_type = ValueType.TcpPayloadLengthIpv4;
    }) }
    ensures sum { IfOk result (StandsForWords 0
        (ipv4_pseudo_header source destination 6 (header_len + payload_len))) }
{
    let max_allowed = 65535 - header_len;
    check_payload_len(payload_len, max_allowed, ValueType::TcpPayloadLengthIpv4)?;
    let len = (header_len + payload_len) as u16;
    Ok(ipv4_pseudo_header(source, destination, IpNumber::TCP, len))
}

// The sum of the pseudo-header of IPv6, if its 32 bits can tell the length of the segment.
pub(crate) fn sum_over_ipv6(
    source: [u8; 16],
    destination: [u8; 16],
    header_len: usize,
    payload_len: usize,
) -> Result<Sum16BitWords, ValueTooBigError<usize>>
    requires { header_len ≤ 60 }
    ensures accepted { IsOk result ↔ (header_len + payload_len ≤ 4294967295) }
    ensures refused { IfErr result (λ e. e ≡ record {
      actual = payload_len;
      max_allowed = 4294967295 - header_len;
      value_type = ValueType.TcpPayloadLengthIpv6;
    }) }
    ensures sum { IfOk result (StandsForWords 0
        (ipv6_pseudo_header source destination 6 (header_len + payload_len))) }
{
    let max_allowed = 4294967295 - header_len;
    check_payload_len(payload_len, max_allowed, ValueType::TcpPayloadLengthIpv6)?;
    let len = (header_len + payload_len) as u32;
    Ok(ipv6_pseudo_header(source, destination, IpNumber::TCP, len))
}
