//! A link header and what it says of the bytes after it.

ghost use Rattle.std.specs.Prelude.{◌≡◌, ◌<◌, ◌≤◌, ◌^◌};
ghost use Rattle.packet_links.specs.Header.{is_bridged, is_ether_type, is_unnumbered, llc_header};
ghost use Rattle.packet_links.specs.Header.{snap_header};

use crate::bytes::{byte_at, has, is_set, number_at};

/// What follows a link header, as the header tells it.
#[derive(Clone, Copy, Debug, PartialEq, Eq)]
pub enum Carried {
    /// A protocol, by its EtherType (IEEE 802.3 section 3.2.6).
    EtherType(u16),
    /// A protocol, by its number of PPP (RFC 1661 section 2).
    PppProtocol(u16),
    /// A protocol, by its NLPID (RFC 2427 section 4).
    Nlpid(u8),
    /// An IP packet, by LLC `06 06 03` (RFC 948), or with no number before it.
    Ip,
    /// A protocol over LLC, by the address of its destination, the DSAP (IEEE 802.2 section 3.2).
    Llc(u8),
    /// A protocol of an organization (IEEE 802 section 9.2.2).
    Snap,
    /// The rest of a management frame of IEEE 802.11.
    Management,
    /// The rest of a control frame of IEEE 802.11.
    Control,
    /// The rest of an extension frame of IEEE 802.11.
    Extension,
    /// Nothing: a frame of IEEE 802.11 with a null subtype.
    NoData,
    /// Encrypted data of IEEE 802.11.
    Encrypted,
    /// A fragment of IEEE 802.11: its packet goes on in another frame, or began in one.
    Fragment,
    /// Several packets in one frame of IEEE 802.11, an A-MSDU.
    Aggregate,
    /// It is not known: the header has no form that is read here.
    Unknown,
}

/// A link header.
#[derive(Clone, Copy, Debug, PartialEq, Eq)]
pub struct Header {
    /// Its length in bytes.
    pub len: usize,
    /// What follows it.
    pub carried: Carried,
}

impl Carried {
    ghost use Rattle.std.specs.Prelude.{◌≡◌};
    ghost use Rattle.packet_links.specs.Header.{ether_type_of, is_ip};

    /// Whether an IP packet follows.
    ///
    /// # Example
    ///
    /// ```
    /// // IPv6 and the control protocol of IPv4, by their numbers of PPP.
    /// assert!(rt; Carried::PppProtocol(0x0057).is_ip());
    /// assert!(rt; !Carried::PppProtocol(0x8021).is_ip());
    /// ```
    pub fn is_ip(self) -> bool
        ensures value { result ≡ is_ip self }
    {
        match self {
            Carried::EtherType(number) => matches!(number, 0x0800 | 0x86dd),
            Carried::PppProtocol(number) => matches!(number, 0x0021 | 0x0057),
            Carried::Nlpid(number) => matches!(number, 0xcc | 0x8e),
            Carried::Ip => true,
            _ => false,
        }
    }

    /// The EtherType of what follows; `None` if something else tells what that is.
    ///
    /// # Example
    ///
    /// ```
    /// assert!(rt; Carried::EtherType(0x0806).ether_type() == Some(0x0806));
    /// assert!(rt; Carried::Nlpid(0xcc).ether_type().is_none());
    /// ```
    pub fn ether_type(self) -> Option<u16>
        ensures value { result ≡ ether_type_of self }
    {
        match self {
            Carried::EtherType(number) => Some(number),
            _ => None,
        }
    }
}

// SNAP at a place, with `padding` bytes before a bridged frame.
pub(crate) fn snap_header(frame: &[u8], place: usize, padding: usize) -> Header
    requires fits { place < 2 ^ 31 }
    requires short { padding ≤ 2 }
    ensures value { result ≡ snap_header padding place frame.now }
{
    if is_ether_type(frame, place) {
        return Header {
            len: place + 5,
            carried: Carried::EtherType(number_at(frame, place + 3)),
        };
    }
    if is_bridged(frame, place) {
        let bridged = place + 5 + padding;
        return Header {
            len: bridged + 14,
            carried: Carried::EtherType(number_at(frame, bridged + 12)),
        };
    }
    Header {
        len: place + 5,
        carried: Carried::Snap,
    }
}

// Whether the protocols of the organization at a place are EtherTypes.
fn is_ether_type(frame: &[u8], place: usize) -> bool
    requires fits { place < 2 ^ 31 }
    ensures value { result ≡ is_ether_type place frame.now }
{
    let (first, second) = (byte_at(frame, place), byte_at(frame, place + 1));
    first == 0 && second == 0 && matches!(byte_at(frame, place + 2), 0 | 0xf8)
}

// Whether the protocol at a place is a whole frame of Ethernet.
fn is_bridged(frame: &[u8], place: usize) -> bool
    requires fits { place < 2 ^ 31 }
    ensures value { result ≡ is_bridged place frame.now }
{
    has(0, place, frame)
        && has(0x80, place + 1, frame)
        && has(0xc2, place + 2, frame)
        && has(0, place + 3, frame)
        && matches!(byte_at(frame, place + 4), 0x01 | 0x07)
}

// Whether the control of LLC at a place has one byte.
fn is_unnumbered(frame: &[u8], place: usize) -> bool
    ensures value { result ≡ is_unnumbered place frame.now }
{
    frame.len() <= place || (is_set(0, place, frame) && is_set(1, place, frame))
}

// LLC at a place.
pub(crate) fn llc_header(frame: &[u8], place: usize) -> Header
    requires fits { place < 2 ^ 30 }
    ensures value { result ≡ llc_header place frame.now }
{
    let dsap = byte_at(frame, place);
    if dsap == 0xaa && has(0xaa, place + 1, frame) && has(0x03, place + 2, frame) {
        return snap_header(frame, place + 3, 2);
    }
    if dsap == 0x06 && has(0x06, place + 1, frame) && has(0x03, place + 2, frame) {
        return Header {
            len: place + 3,
            carried: Carried::Ip,
        };
    }
    let control_len = if is_unnumbered(frame, place + 2) {
        1
    } else {
        2
    };
    Header {
        len: place + 2 + control_len,
        carried: Carried::Llc(dsap),
    }
}
