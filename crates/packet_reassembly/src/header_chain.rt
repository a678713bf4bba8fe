//! The header chain of an IPv6 packet, all of which its first fragment has (RFC 7112).

ghost use Rattle.std.specs.Prelude.{◌≡◌, IsFalse, IsTrue};
ghost use Rattle.packet_reassembly.specs.HeaderChain.{HasWholeChain, LacksChain, upper_header_len};

use etherparse::IpNumber;
use packet_parts::extensions::after_extensions;

/// Whether the payload of a first fragment has the rest of the header chain: the extension headers
/// after the fragment header, which names the first of them, and the header of the upper layer. A
/// first fragment without that is to be refused (RFC 7112 section 5), since what it lacks decides
/// who takes the packet. After one more fragment header whose offset is not 0, the rest is missing.
///
/// An upper-layer header counts if RFC 8200 section 4.5 names it: 20 bytes of TCP or IPv4, or as
/// many as the data offset or the IHL says; 8 of UDP; 40 of IPv6; 8 of ESP; 4 of ICMPv6. Nothing is
/// asked of others.
///
/// # Example
///
/// ```
/// let udp = [4, 0, 0, 53, 0, 12, 0x91, 0xae];
/// assert!(rt; has_whole_chain(IpNumber::UDP, &udp));
/// assert!(rt; !has_whole_chain(IpNumber::UDP, &udp[..7]));
/// // Destination options of 16 bytes, 8 of which are there.
/// assert!(rt; !has_whole_chain(IpNumber::IPV6_DESTINATION_OPTIONS, &[17, 1, 1, 4, 0, 0, 0, 0]));
/// // The first 8 bytes of the 40 of an IPv6 header.
/// assert!(rt; !has_whole_chain(IpNumber::IPV6, &[0x60, 0, 0, 0, 0, 8, 17, 64]));
/// ```
pub fn has_whole_chain(next_header: IpNumber, payload: &[u8]) -> bool
    ensures whole { IsTrue result → HasWholeChain next_header payload.now }
    ensures lacks { IsFalse result → LacksChain next_header payload.now }
{
    let after = after_extensions(payload, next_header);
    if after.incomplete.is_some() || after.is_later {
        return false;
    }
    after.rest.len() >= upper_header_len(after.number, after.rest)
}

// How many bytes the header of the upper layer has at least.
fn upper_header_len(number: IpNumber, bytes: &[u8]) -> usize
    ensures len { result ≡ upper_header_len number bytes.now }
{
    match number {
        IpNumber::TCP | IpNumber::IPV4 if bytes.len() < 20 => 20,
        IpNumber::TCP => usize::from(bytes[12] >> 4) * 4,
        IpNumber::IPV4 => usize::from(bytes[0] % 16) * 4,
        IpNumber::UDP | IpNumber::ENCAPSULATING_SECURITY_PAYLOAD => 8,
        IpNumber::IPV6 => 40,
        IpNumber::IPV6_ICMP => 4,
        _ => 0,
    }
}
