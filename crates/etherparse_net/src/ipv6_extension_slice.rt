//! A view of an extension header of IPv6 of any kind.

ghost use Rattle.std.specs.Prelude.{◌≡◌};
ghost use Rattle.etherparse.specs.ExtensionHeaderChain.{IsExtensionHeader};
ghost use Rattle.etherparse_net.specs.Ipv6Extensions.{IsOfKind, extension_bytes};

use crate::{IpAuthHeaderSlice, Ipv6FragmentHeaderSlice, Ipv6RawExtHeaderSlice};
use etherparse::IpNumber;

/// A view of an extension header of IPv6 that can be skipped (RFC 8200 section 4). Each is told by
/// the number of the header before it, whatever place it has in the chain.
#[derive(Clone, Copy, Debug, PartialEq, Eq)]
pub enum Ipv6ExtensionSlice<'a> {
    /// Hop-by-hop options: number 0. They are allowed only right after the IPv6 header (RFC 8200
    /// section 4.1), which is not tested.
    HopByHop(Ipv6RawExtHeaderSlice<'a>),
    /// A routing header: number 43.
    Routing(Ipv6RawExtHeaderSlice<'a>),
    /// A fragment header: number 44.
    Fragment(Ipv6FragmentHeaderSlice<'a>),
    /// An authentication header: number 51.
    Authentication(IpAuthHeaderSlice<'a>),
    /// Destination options: number 60.
    DestinationOptions(Ipv6RawExtHeaderSlice<'a>),
    /// A header of another kind with its number: of mobility (135), host identity (139) or shim6
    /// (140). Also an authentication header (51) whose payload length is 0: it has 8 bytes, which
    /// leave no room for its fields.
    Other(IpNumber, Ipv6RawExtHeaderSlice<'a>),
}

// The view of the header of a number.
pub(crate) fn extension_of(number: IpNumber, header: &[u8]) -> Ipv6ExtensionSlice
    requires { IsExtensionHeader number header.now }
    ensures bytes { extension_bytes result ≡ header.now }
    ensures kind { IsOfKind number result }
{
    if number == IpNumber::IPV6_FRAGMENTATION_HEADER {
        return Ipv6ExtensionSlice::Fragment(Ipv6FragmentHeaderSlice { slice: header });
    }
    if number == IpNumber::AUTHENTICATION_HEADER && header[1] != 0 {
        return Ipv6ExtensionSlice::Authentication(IpAuthHeaderSlice { slice: header });
    }
    let view = Ipv6RawExtHeaderSlice { slice: header };
    match number.0 {
        0 => Ipv6ExtensionSlice::HopByHop(view),
        43 => Ipv6ExtensionSlice::Routing(view),
        60 => Ipv6ExtensionSlice::DestinationOptions(view),
        _ => Ipv6ExtensionSlice::Other(number, view),
    }
}
