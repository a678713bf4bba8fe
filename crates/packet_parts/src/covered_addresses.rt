//! An address that the checksums of an IPv6 packet cover, followed over its extension headers.

ghost use Rattle.std.specs.Prelude.{◌≡◌, ◌≤◌, length};
ghost use Rattle.packet_parts.specs.CoveredAddresses.{FollowsIpv6, hides_addresses};
ghost use Rattle.packet_parts.specs.Sides.{LeavesAt};

use crate::final_destination::destination_after;
use crate::original_source::source_after;
use etherparse::{IpNumber, Ipv6Header};

// Whose address is followed.
#[derive(Clone, Copy)]
pub(crate) enum Side {
    Source,
    Destination,
}

// What becomes of an address over extension headers; `None` if it is unknown.
pub(crate) fn follow(
    side: Side,
    address: [u8; 16],
    first: IpNumber,
    extensions: &[u8],
) -> Option<[u8; 16]>
    ensures follows { FollowsIpv6 (LeavesAt side) address first extensions.now result }
{
    let mut last = address;
    let mut number = first;
    let mut rest = extensions;
    'headers: loop {
        if !Ipv6Header::is_skippable_header_extension(number) {
            return Some(last);
        }
        let (next, after) = match Ipv6Header::skip_header_extension_in_slice(rest, number) {
            Ok(skipped) => skipped,
            Err(_) => return None,
        };
        let header = &rest[..rest.len() - after.len()];
        if hides_addresses(number, header) {
            return None;
        }
        match address_after(side, last, number, header) {
            Some(next) => last = next,
            None => return None,
        }
        number = next;
        rest = after;
    }
}

// The address after an extension header of a number.
fn address_after(side: Side, address: [u8; 16], number: IpNumber, header: &[u8]) -> Option<[u8; 16]>
    requires enough { 8 ≤ length header.now }
    ensures leaves { LeavesAt side address number header.now result }
{
    match side {
        Side::Source => Some(source_after(address, number, header)),
        Side::Destination => destination_after(address, number, header),
    }
}

// Whether an extension header of a number is a payload header of Shim6.
fn hides_addresses(number: IpNumber, header: &[u8]) -> bool
    requires enough { 8 ≤ length header.now }
    ensures value { result ≡ hides_addresses number header.now }
{
    number == IpNumber::SHIM6 && header[2] >= 128
}
