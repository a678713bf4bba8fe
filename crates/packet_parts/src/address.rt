//! The text of an IPv6 address as RFC 5952 recommends it.

ghost use Rattle.std.specs.Prelude.{Some};
ghost use Rattle.std.specs.Net.Addr.{segments_of};
ghost use Rattle.std.specs.Net.Text.{ipv6_text};

use std::fmt;
use std::net::Ipv6Addr;

/// The text of an IPv6 address of 16 bytes: fields of 16 bits in lower-case hex with no leading
/// zeros. `::` stands for the longest run of zero fields, for the first of equal runs, and never
/// for one field alone (RFC 5952 section 4). An IPv4-mapped address ends in dotted decimals
/// (section 5).
///
/// # Example
///
/// ```
/// let address = Ipv6Text([0x20, 0x01, 0x0d, 0xb8, 0, 0, 0, 0, 0, 0, 0, 0, 0, 0, 0, 1]);
/// let text = format!(in rt.alloc(); "{address}")?;
/// assert!(rt; text.as_str() == "2001:db8::1");
/// ```
#[derive(Clone, Copy, Debug, PartialEq, Eq)]
pub struct Ipv6Text(pub [u8; 16]);

impl Ipv6Text {
    ghost use Rattle.std.specs.Prelude.{◌≡◌, length};
    ghost use Rattle.std.specs.Net.Addr.{segments_of as fields_of};
    ghost use Rattle.std.specs.Net.Text.{ipv6_text as text_of};
    ghost use Rattle.packet_parts.specs.Address.{IsIpv6Text};

    /// A law: what is displayed is the text that RFC 5952 recommends.
    pub fn is_recommended(&self)
        ensures { IsIpv6Text (fields_of self.now.0) (text_of (fields_of self.now.0)) }
    {}
}

impl fmt::Display for Ipv6Text {
    ghost output = { λ address. Some (ipv6_text (segments_of address.0)) };

    fn fmt<W: fmt::Write>(&self, f: &mut fmt::Formatter<W>) -> fmt::Result {
        fmt::Display::fmt(&Ipv6Addr::from_octets(self.0), f)
    }
}
