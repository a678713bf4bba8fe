//! The last of several stops over which a source route of IPv4 or routing headers of IPv6 send a
//! packet: the destination that its checksums cover.

ghost use Rattle.std.specs.Prelude.{ℕ, ◌≡◌, ◌≤◌, List, Option, Some, length, option_map};
ghost use Rattle.packet_parts.specs.FinalDestination.{GoesToIpv4, GoesToIpv6, HasFirstRoute};
ghost use Rattle.packet_parts.specs.FinalDestination.{after_route, destination_after};
ghost use Rattle.packet_parts.specs.FinalDestination.{first_in_list, is_source_route};
ghost use Rattle.packet_parts.specs.FinalDestination.{last_address, last_compressed, last_in_list};
ghost use Rattle.packet_parts.specs.FinalDestination.{only_address, segments_left};

use crate::covered_addresses::{Side, follow};
use etherparse::IpNumber;
use etherparse_net::Ipv4OptionsIterator;

/// The final destination of an IPv4 packet, which its checksums cover, from the destination of its
/// header and the bytes of its options.
///
/// It is the destination of the header, unless the options have a source route with addresses left
/// (RFC 791 section 3.1, types 131 and 137): then it is the last of these addresses. If there are
/// several source routes, the first one counts.
///
/// A route whose pointer or length does not fit counts as completed. The options end at type 0, or
/// at one that is cut off or has a length below 2.
///
/// # Example
///
/// ```
/// // A loose source route, whose pointer 4 says that both of its addresses are left.
/// let mut options = [131, 11, 4, 192, 0, 2, 1, 192, 0, 2, 2, 0];
/// assert!(rt; final_destination_ipv4([10, 0, 0, 1], &options) == [192, 0, 2, 2]);
/// // With all visited, it is the destination of the header.
/// options[2] = 12;
/// assert!(rt; final_destination_ipv4([192, 0, 2, 9], &options) == [192, 0, 2, 9]);
/// ```
pub fn final_destination_ipv4(destination: [u8; 4], options: &[u8]) -> [u8; 4]
    ensures goes_to { GoesToIpv4 destination options.now result }
    ensures only { (other : List ℕ) → GoesToIpv4 destination options.now other → other ≡ result }
{
    match first_source_route(options) {
        Some(route) => after_route(destination, route),
        None => destination,
    }
}

// The first source route of the options, as far as these are whole.
fn first_source_route(options: &[u8]) -> Option<&[u8]>
    ensures found { HasFirstRoute options.now (option_map (λ route. route.now) result) }
    ensures only { (other : Option (List ℕ)) → HasFirstRoute options.now other →
        other ≡ option_map (λ route. route.now) result }
{
    let mut left = Ipv4OptionsIterator::new(options);
    let mut first = None;
    'options: loop {
        match left.next_option() {
            Some(Ok(option)) => {
                if is_source_route(option.slice) {
                    first = first.or(Some(option.slice));
                }
            }
            Some(Err(_)) => return first,
            None => return first,
        }
    }
}

// The types of both source routes.
const LOOSE_SOURCE_ROUTE: u8 = 131;

const STRICT_SOURCE_ROUTE: u8 = 137;

const _: () = prove!(LOOSE_SOURCE_ROUTE == 131);

const _: () = prove!(STRICT_SOURCE_ROUTE == 137);

// Whether an option is a source route.
fn is_source_route(option: &[u8]) -> bool
    requires some { 1 ≤ length option.now }
    ensures value { result ≡ is_source_route option.now }
{
    option[0] == LOOSE_SOURCE_ROUTE || option[0] == STRICT_SOURCE_ROUTE
}

// The destination after a source route.
fn after_route(destination: [u8; 4], route: &[u8]) -> [u8; 4]
    ensures value { result ≡ after_route destination (Some route.now) }
{
    let len = route.len();
    if len % 4 != 3 || route[2] % 4 != 0 || route[2] < 4 || len < usize::from(route[2]) {
        return destination;
    }
    *route[len - 4..].first_chunk::<4>().unwrap()
}

/// The final destination of an IPv6 packet, which its checksums cover (RFC 8200 section 8.1), from
/// the destination and the next header of its IPv6 header and the extension headers after it.
///
/// It is the destination of the IPv6 header, unless a routing header has segments left: then it is
/// the address that this visits last. If several have segments left, the last of them counts.
///
/// `None` if it is not known: a routing header with segments left has a type other than 0 (RFC 2460
/// section 4.4), 2 (RFC 6275 section 6.4), 3 (RFC 6554 section 3) and 4 (RFC 8754 section 2), or
/// its numbers do not fit its length; a payload header of Shim6 hides it (RFC 5533 section 5.2); or
/// an extension header is incomplete. The compressed segments of RFC 9800 are not looked into.
///
/// What follows the fragment header of a later fragment is no header: leave it out, as
/// [`IpSlice::extensions`] does. If that fragment header names an extension header, the answer is
/// `None`.
///
/// # Example
///
/// ```
/// // A routing header of type 4 with one of two segments left. It visits the first one last.
/// let header = [
///     17, 4, 4, 1, 1, 0, 0, 0, 0x20, 0x01, 0x0d, 0xb8, 0, 0, 0, 0, 0, 0, 0, 0, 0, 0, 0, 4, 0x20,
///     0x01, 0x0d, 0xb8, 0, 0, 0, 0, 0, 0, 0, 0, 0, 0, 0, 3,
/// ];
/// let mut destination = [0x20, 0x01, 0x0d, 0xb8, 0, 0, 0, 0, 0, 0, 0, 0, 0, 0, 0, 3];
/// let last = final_destination_ipv6(destination, IpNumber::IPV6_ROUTE_HEADER, &header);
/// destination[15] = 4;
/// assert!(rt; last == Some(destination));
/// ```
///
/// [`IpSlice::extensions`]: crate::ip_slice::IpSlice
pub fn final_destination_ipv6(
    destination: [u8; 16],
    first: IpNumber,
    extensions: &[u8],
) -> Option<[u8; 16]>
    ensures goes_to { GoesToIpv6 destination first extensions.now result }
    ensures only { (other : Option (List ℕ)) → GoesToIpv6 destination first extensions.now other →
        other ≡ result }
{
    follow(Side::Destination, destination, first, extensions)
}

// The destination after an extension header of a number.
pub(crate) fn destination_after(
    destination: [u8; 16],
    number: IpNumber,
    header: &[u8],
) -> Option<[u8; 16]>
    requires enough { 8 ≤ length header.now }
    ensures value { result ≡ destination_after destination number header.now }
{
    if number == IpNumber::IPV6_ROUTE_HEADER && header[3] != 0 {
        last_address(destination, header)
    } else {
        Some(destination)
    }
}

// The address that a routing header with segments left visits last.
fn last_address(destination: [u8; 16], header: &[u8]) -> Option<[u8; 16]>
    requires enough { 8 ≤ length header.now }
    requires left { 1 ≤ segments_left header.now }
    ensures value { result ≡ last_address destination header.now }
{
    match header[2] {
        0 => last_in_list(header),
        2 => only_address(header),
        3 => last_compressed(destination, header),
        4 => first_in_list(header),
        _ => None,
    }
}

// That of type 0.
fn last_in_list(header: &[u8]) -> Option<[u8; 16]>
    requires enough { 8 ≤ length header.now }
    requires left { 1 ≤ segments_left header.now }
    ensures value { result ≡ last_in_list header.now }
{
    let len = header.len();
    if len % 16 != 8 || len / 16 < usize::from(header[3]) {
        return None;
    }
    Some(*header[len - 16..len].first_chunk::<16>().unwrap())
}

// That of type 2.
fn only_address(header: &[u8]) -> Option<[u8; 16]>
    requires enough { 8 ≤ length header.now }
    ensures value { result ≡ only_address header.now }
{
    if header.len() != 24 || header[3] != 1 {
        return None;
    }
    Some(*header[8..].first_chunk::<16>().unwrap())
}

// That of type 3, whose first bytes are those of the destination.
fn last_compressed(destination: [u8; 16], header: &[u8]) -> Option<[u8; 16]>
    requires enough { 8 ≤ length header.now }
    ensures value { result ≡ last_compressed destination header.now }
{
    let cmpr_e = usize::from(header[4] % 16);
    let other_len = 16 - usize::from(header[4] / 16);
    let pad = usize::from(header[5] / 16);
    if header.len() < 24 - cmpr_e + pad {
        return None;
    }
    let others_len = header.len() - (24 - cmpr_e + pad);
    if others_len % other_len != 0 || others_len / other_len + 1 < usize::from(header[3]) {
        return None;
    }
    let mut last = destination;
    last[cmpr_e..].copy_from_slice(&header[8 + others_len..24 - cmpr_e + others_len]);
    Some(last)
}

// That of type 4.
fn first_in_list(header: &[u8]) -> Option<[u8; 16]>
    requires enough { 8 ≤ length header.now }
    ensures value { result ≡ first_in_list header.now }
{
    let last_entry = usize::from(header[4]);
    if header.len() < 16 * last_entry + 24 || last_entry + 1 < usize::from(header[3]) {
        return None;
    }
    Some(*header[8..24].first_chunk::<16>().unwrap())
}
