//! The checksums of UDP, TCP, ICMP and ICMPv6, with the pseudo-header.

ghost use Rattle.std.specs.Prelude.{◌≡◌, ◌≢◌};
ghost use Rattle.packet_parts.specs.Checksum.{IsVerdictIpv4, IsVerdictIpv6};
ghost use Rattle.packet_parts.specs.declared.checksum.Verdict.TheVariants.{Right};
ghost use Rattle.packet_rewriting.specs.UpperChecksum.{IsIpv4Checksum, IsIpv6Checksum};
ghost use Rattle.packet_rewriting.specs.UpperChecksum.{RefusesIpv4Checksum, RefusesIpv6Checksum};
ghost use Rattle.packet_rewriting.specs.UpperChecksum.{WritesIpv4Checksum, WritesIpv6Checksum};
ghost use Rattle.c_answers.specs.Rewriting.{IsRefused, checksum_kind};

use c_answers::rewriting::{ChecksumAnswer, OK, kind_of_checksum};
use etherparse::IpNumber;
use packet_rewriting::checksum::{
    calc_checksum_ipv4, calc_checksum_ipv6, set_checksum_ipv4, set_checksum_ipv6,
};

/// The checksum that a segment should have over IPv4, whatever it has.
#[unsafe(no_mangle)]
pub extern "C" fn etherparse_checksum_ipv4(
    source: &[u8; 4],
    destination: &[u8; 4],
    protocol: u8,
    segment: &[u8],
) -> ChecksumAnswer
    ensures computed { result.error ≡ 0 →
        IsIpv4Checksum source.now destination.now protocol segment.now result.checksum }
    ensures refused { result.error ≢ 0 → IsRefused (RefusesIpv4Checksum protocol segment.now)
        checksum_kind result.error }
    ensures nothing { result.error ≢ 0 → result.checksum ≡ 0 }
{
    match calc_checksum_ipv4(*source, *destination, IpNumber(protocol), segment) {
        Ok(checksum) => ChecksumAnswer {
            error: OK,
            checksum,
        },
        Err(e) => ChecksumAnswer {
            error: kind_of_checksum(&e),
            checksum: 0,
        },
    }
}

/// The checksum that a segment should have over IPv6, whatever it has.
#[unsafe(no_mangle)]
pub extern "C" fn etherparse_checksum_ipv6(
    source: &[u8; 16],
    destination: &[u8; 16],
    number: u8,
    segment: &[u8],
) -> ChecksumAnswer
    ensures computed { result.error ≡ 0 →
        IsIpv6Checksum source.now destination.now number segment.now result.checksum }
    ensures refused { result.error ≢ 0 → IsRefused (RefusesIpv6Checksum number segment.now)
        checksum_kind result.error }
    ensures nothing { result.error ≢ 0 → result.checksum ≡ 0 }
{
    match calc_checksum_ipv6(*source, *destination, IpNumber(number), segment) {
        Ok(checksum) => ChecksumAnswer {
            error: OK,
            checksum,
        },
        Err(e) => ChecksumAnswer {
            error: kind_of_checksum(&e),
            checksum: 0,
        },
    }
}

/// Writes into a segment the checksum that it should have over IPv4; returns the number of the
/// error, or 0. If there is an error, the segment is unchanged.
#[unsafe(no_mangle)]
pub extern "C" fn etherparse_set_checksum_ipv4(
    source: &[u8; 4],
    destination: &[u8; 4],
    protocol: u8,
    segment: &mut [u8],
) -> u32
    ensures written { result ≡ 0 →
        WritesIpv4Checksum source.now destination.now protocol segment.old segment.new }
    ensures right { result ≡ 0 →
        IsVerdictIpv4 source.now destination.now protocol segment.new Right }
    ensures refused { result ≢ 0 →
        IsRefused (RefusesIpv4Checksum protocol segment.old) checksum_kind result }
    ensures unchanged { result ≢ 0 → segment.new ≡ segment.old }
{
    match set_checksum_ipv4(*source, *destination, IpNumber(protocol), segment) {
        Ok(()) => OK,
        Err(e) => kind_of_checksum(&e),
    }
}

/// Writes into a segment the checksum that it should have over IPv6; returns the number of the
/// error, or 0. If there is an error, the segment is unchanged.
#[unsafe(no_mangle)]
pub extern "C" fn etherparse_set_checksum_ipv6(
    source: &[u8; 16],
    destination: &[u8; 16],
    number: u8,
    segment: &mut [u8],
) -> u32
    ensures written { result ≡ 0 →
        WritesIpv6Checksum source.now destination.now number segment.old segment.new }
    ensures right { result ≡ 0 →
        IsVerdictIpv6 source.now destination.now number segment.new Right }
    ensures refused { result ≢ 0 →
        IsRefused (RefusesIpv6Checksum number segment.old) checksum_kind result }
    ensures unchanged { result ≢ 0 → segment.new ≡ segment.old }
{
    match set_checksum_ipv6(*source, *destination, IpNumber(number), segment) {
        Ok(()) => OK,
        Err(e) => kind_of_checksum(&e),
    }
}
