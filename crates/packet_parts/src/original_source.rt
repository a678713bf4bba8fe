//! The source that the checksums of a packet cover: over IPv6 it can be the home address of a
//! mobile node.

ghost use Rattle.std.specs.Prelude.{ℕ, ◌≡◌, ◌≤◌, List, Option, Some, length};
ghost use Rattle.packet_parts.specs.OriginalSource.{ComesFromIpv6, HasSourceAfter, LeavesSource};
ghost use Rattle.packet_parts.specs.OriginalSource.{after_option};

use crate::covered_addresses::{Side, follow};
use etherparse::IpNumber;
use etherparse_net::Ipv6OptionsIterator;

/// The original source of an IPv6 packet, which its checksums cover, from the source and the next
/// header of its IPv6 header and the extension headers after it.
///
/// It is the source of the IPv6 header, unless there is a Home Address option (type 201, RFC 6275
/// section 6.3) in destination options, wherever these stand. A mobile node that is away from home
/// and uses route optimization sends from its care-of address, and its checksums cover its home
/// address (section 11.3.1). If there are several of these options, the last one counts. One that
/// has other than 16 bytes of data, or is cut off, does not count.
///
/// `None` if it is not known: a payload header of Shim6 hides it (RFC 5533 section 5.2), or an
/// extension header is incomplete.
///
/// What follows the fragment header of a later fragment is no header: leave it out, as
/// [`IpSlice::extensions`] does. If that fragment header names an extension header, the answer is
/// `None`.
///
/// # Example
///
/// ```
/// // Destination options with a PadN of four bytes and a Home Address option.
/// let header = [
///     17, 2, 1, 2, 0, 0, 201, 16, 0x20, 0x01, 0x0d, 0xb8, 0, 0, 0, 0, 0, 0, 0, 0, 0, 0, 0, 5,
/// ];
/// let mut source = [0x20, 0x01, 0x0d, 0xb8, 0, 0, 0, 0, 0, 0, 0, 0, 0, 0, 0, 1];
/// let original = original_source_ipv6(source, IpNumber::IPV6_DESTINATION_OPTIONS, &header);
/// source[15] = 5;
/// assert!(rt; original == Some(source));
/// ```
///
/// [`IpSlice::extensions`]: crate::ip_slice::IpSlice
pub fn original_source_ipv6(
    source: [u8; 16],
    first: IpNumber,
    extensions: &[u8],
) -> Option<[u8; 16]>
    ensures comes_from { ComesFromIpv6 source first extensions.now result }
    ensures only { (other : Option (List ℕ)) → ComesFromIpv6 source first extensions.now other →
        other ≡ result }
{
    follow(Side::Source, source, first, extensions)
}

// The source after an extension header of a number.
pub(crate) fn source_after(source: [u8; 16], number: IpNumber, header: &[u8]) -> [u8; 16]
    requires enough { 8 ≤ length header.now }
    ensures leaves { LeavesSource source number header.now (Some result) }
{
    if number == IpNumber::IPV6_DESTINATION_OPTIONS {
        after_options(source, &header[2..])
    } else {
        source
    }
}

// The source after the options of a header.
fn after_options(source: [u8; 16], options: &[u8]) -> [u8; 16]
    ensures after { HasSourceAfter source options.now result }
{
    let mut left = Ipv6OptionsIterator::new(options);
    let mut last = source;
    'options: loop {
        match left.next_option() {
            Some(Ok(option)) => {
                let next = after_option(last, option.slice);
                last = next;
            }
            Some(Err(_)) | None => return last,
        }
    }
}

// The type of a Home Address option, and how many bytes it has with its type and its length.
const HOME_ADDRESS: u8 = 201;

const HOME_ADDRESS_LEN: usize = 18;

const _: () = prove!(HOME_ADDRESS == 201);

const _: () = prove!(HOME_ADDRESS_LEN == 18);

// The source after an option.
fn after_option(source: [u8; 16], option: &[u8]) -> [u8; 16]
    requires some { 1 ≤ length option.now }
    ensures value { result ≡ after_option source option.now }
{
    if option[0] != HOME_ADDRESS || option.len() != HOME_ADDRESS_LEN {
        return source;
    }
    *option[2..].first_chunk::<16>().unwrap()
}
