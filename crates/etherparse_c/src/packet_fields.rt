//! Fields of a packet that are changed in place.

ghost use Rattle.std.specs.Prelude.{◌≡◌, ◌≢◌, ◌<◌, ◌≤◌, ◌⊎◌};
ghost use Rattle.packet_rewriting.specs.Fields.{ChangesPort, HasOtherDscp, HasOtherEcn};
ghost use Rattle.packet_rewriting.specs.Fields.{HasOtherDestinationIpv4, HasOtherDestinationIpv6};
ghost use Rattle.packet_rewriting.specs.Fields.{HasOtherSourceIpv4, HasOtherSourceIpv6};
ghost use Rattle.packet_rewriting.specs.Fields.{RefusesAddress, RefusesMark, RefusesPort};
ghost use Rattle.c_answers.specs.Rewriting.{IsOtherEcn, IsReach, IsRefused, rewrite_kind};

use c_answers::rewriting::{OK, ReachAnswer, VALUE_TOO_BIG, kind_of_rewrite, number_of_reach};
use etherparse::{IpDscp, IpEcn};
use packet_rewriting::fields::{
    set_destination_ipv4, set_destination_ipv6, set_destination_port, set_dscp, set_ecn,
    set_source_ipv4, set_source_ipv6, set_source_port,
};

/// Gives an IPv4 packet another source address. If there is an error, the packet is unchanged.
#[unsafe(no_mangle)]
pub extern "C" fn etherparse_set_source_ipv4(packet: &mut [u8], source: &[u8; 4]) -> ReachAnswer
    ensures changed { result.error ≡ 0 →
        IsReach (HasOtherSourceIpv4 source.now packet.old packet.new) result.reach }
    ensures refused { result.error ≢ 0 →
        IsRefused (RefusesAddress 4 packet.old) rewrite_kind result.error }
    ensures unchanged { result.error ≢ 0 → packet.new ≡ packet.old }
    ensures nothing { result.error ≢ 0 → result.reach ≡ 0 }
{
    match set_source_ipv4(packet, *source) {
        Ok(reach) => ReachAnswer {
            error: OK,
            reach: number_of_reach(reach),
        },
        Err(e) => ReachAnswer {
            error: kind_of_rewrite(&e),
            reach: 0,
        },
    }
}

/// Gives an IPv4 packet another destination address. If there is an error, the packet is unchanged.
#[unsafe(no_mangle)]
pub extern "C" fn etherparse_set_destination_ipv4(
    packet: &mut [u8],
    destination: &[u8; 4],
) -> ReachAnswer
    ensures changed { result.error ≡ 0 →
        IsReach (HasOtherDestinationIpv4 destination.now packet.old packet.new) result.reach }
    ensures refused { result.error ≢ 0 →
        IsRefused (RefusesAddress 4 packet.old) rewrite_kind result.error }
    ensures unchanged { result.error ≢ 0 → packet.new ≡ packet.old }
    ensures nothing { result.error ≢ 0 → result.reach ≡ 0 }
{
    match set_destination_ipv4(packet, *destination) {
        Ok(reach) => ReachAnswer {
            error: OK,
            reach: number_of_reach(reach),
        },
        Err(e) => ReachAnswer {
            error: kind_of_rewrite(&e),
            reach: 0,
        },
    }
}

/// Gives an IPv6 packet another source address. If there is an error, the packet is unchanged.
#[unsafe(no_mangle)]
pub extern "C" fn etherparse_set_source_ipv6(packet: &mut [u8], source: &[u8; 16]) -> ReachAnswer
    ensures changed { result.error ≡ 0 →
        IsReach (HasOtherSourceIpv6 source.now packet.old packet.new) result.reach }
    ensures refused { result.error ≢ 0 →
        IsRefused (RefusesAddress 6 packet.old) rewrite_kind result.error }
    ensures unchanged { result.error ≢ 0 → packet.new ≡ packet.old }
    ensures nothing { result.error ≢ 0 → result.reach ≡ 0 }
{
    match set_source_ipv6(packet, *source) {
        Ok(reach) => ReachAnswer {
            error: OK,
            reach: number_of_reach(reach),
        },
        Err(e) => ReachAnswer {
            error: kind_of_rewrite(&e),
            reach: 0,
        },
    }
}

/// Gives an IPv6 packet another destination address. If there is an error, the packet is unchanged.
#[unsafe(no_mangle)]
pub extern "C" fn etherparse_set_destination_ipv6(
    packet: &mut [u8],
    destination: &[u8; 16],
) -> ReachAnswer
    ensures changed { result.error ≡ 0 →
        IsReach (HasOtherDestinationIpv6 destination.now packet.old packet.new) result.reach }
    ensures refused { result.error ≢ 0 →
        IsRefused (RefusesAddress 6 packet.old) rewrite_kind result.error }
    ensures unchanged { result.error ≢ 0 → packet.new ≡ packet.old }
    ensures nothing { result.error ≢ 0 → result.reach ≡ 0 }
{
    match set_destination_ipv6(packet, *destination) {
        Ok(reach) => ReachAnswer {
            error: OK,
            reach: number_of_reach(reach),
        },
        Err(e) => ReachAnswer {
            error: kind_of_rewrite(&e),
            reach: 0,
        },
    }
}

/// Gives a packet another source port; returns the number of the error, or 0. If there is an error,
/// the packet is unchanged.
#[unsafe(no_mangle)]
pub extern "C" fn etherparse_set_source_port(packet: &mut [u8], port: u16) -> u32
    ensures changed { result ≡ 0 → ChangesPort 0 port packet.old packet.new }
    ensures refused { result ≢ 0 → IsRefused (RefusesPort packet.old) rewrite_kind result }
    ensures unchanged { result ≢ 0 → packet.new ≡ packet.old }
{
    match set_source_port(packet, port) {
        Ok(()) => OK,
        Err(e) => kind_of_rewrite(&e),
    }
}

/// Gives a packet another destination port; returns the number of the error, or 0. If there is an
/// error, the packet is unchanged.
#[unsafe(no_mangle)]
pub extern "C" fn etherparse_set_destination_port(packet: &mut [u8], port: u16) -> u32
    ensures changed { result ≡ 0 → ChangesPort 2 port packet.old packet.new }
    ensures refused { result ≢ 0 → IsRefused (RefusesPort packet.old) rewrite_kind result }
    ensures unchanged { result ≢ 0 → packet.new ≡ packet.old }
{
    match set_destination_port(packet, port) {
        Ok(()) => OK,
        Err(e) => kind_of_rewrite(&e),
    }
}

/// Gives a packet another DSCP, at most 63; returns the number of the error, or 0. If there is an
/// error, the packet is unchanged.
#[unsafe(no_mangle)]
pub extern "C" fn etherparse_set_dscp(packet: &mut [u8], dscp: u8) -> u32
    ensures changed { result ≡ 0 → HasOtherDscp dscp packet.old packet.new }
    ensures refused { result ≢ 0 → ((63 < dscp) × (result ≡ 12))
        ⊎ ((dscp ≤ 63) × IsRefused (RefusesMark packet.old) rewrite_kind result) }
    ensures unchanged { result ≢ 0 → packet.new ≡ packet.old }
{
    let dscp = match IpDscp::try_new(dscp) {
        Ok(dscp) => dscp,
        Err(_) => return VALUE_TOO_BIG,
    };
    match set_dscp(packet, dscp) {
        Ok(()) => OK,
        Err(e) => kind_of_rewrite(&e),
    }
}

/// Gives a packet another ECN, at most 3; returns the number of the error, or 0. If there is an
/// error, the packet is unchanged.
#[unsafe(no_mangle)]
pub extern "C" fn etherparse_set_ecn(packet: &mut [u8], ecn: u8) -> u32
    ensures changed { result ≡ 0 → IsOtherEcn ecn packet.old packet.new }
    ensures refused { result ≢ 0 → ((3 < ecn) × (result ≡ 12))
        ⊎ ((ecn ≤ 3) × IsRefused (RefusesMark packet.old) rewrite_kind result) }
    ensures unchanged { result ≢ 0 → packet.new ≡ packet.old }
{
    let ecn = match IpEcn::try_new(ecn) {
        Ok(ecn) => ecn,
        Err(_) => return VALUE_TOO_BIG,
    };
    match set_ecn(packet, ecn) {
        Ok(()) => OK,
        Err(e) => kind_of_rewrite(&e),
    }
}
