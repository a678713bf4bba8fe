//! The link header of a frame: Ethernet, Linux cooked captures, loopback interfaces, and framings
//! that tell what they carry in ways of their own.

ghost use Rattle.std.specs.Prelude.{◌≡◌, ◌<◌, ◌++◌, IfErr, IfOk, Some, length};
ghost use Rattle.packet.specs.Link.{BeginsWithLink, LacksLink, cooked_ether_type, family_of};
ghost use Rattle.packet.specs.Link.{link_error_text};
ghost use Rattle.packet.specs.declared.link.LinkType.TheVariants.{Framed};
ghost use Rattle.packet_links.specs.Framing.{BeginsWith};
ghost use Rattle.packet_links.specs.Header.{ether_type_of};

use etherparse_link::{
    ArpHardwareId, EtherType, Ethernet2HeaderSlice, LinuxSll2HeaderSlice, LinuxSllHeaderSlice,
};
use packet_links::framing::Framing;
use packet_links::header::{Carried, Header};
use std::error::Error;
use std::fmt;

/// How frames begin. A capture names it by a number of the registry of link types of tcpdump.org.
#[derive(Clone, Copy, Debug, PartialEq, Eq)]
pub enum LinkType {
    /// LINKTYPE_NULL (0): four bytes with the family, in the byte order of the machine that
    /// captured the frame.
    Null,
    /// LINKTYPE_ETHERNET (1): 14 bytes, of which the last two are the EtherType (IEEE 802.3 section
    /// 3.1.1). A frame check sequence is not looked for.
    Ethernet2,
    /// LINKTYPE_RAW (12, 14 or 101), LINKTYPE_IPV4 (228) or LINKTYPE_IPV6 (229): no link header.
    Ip,
    /// LINKTYPE_LOOP (108): four bytes with the family, in network byte order.
    Loop,
    /// LINKTYPE_LINUX_SLL (113): the 16 bytes of a Linux cooked capture, of any kind of device. For
    /// ARPHRD_FRAD (770), ARPHRD_IEEE80211_RADIOTAP (803) and ARPHRD_NETLINK (824) the protocol type
    /// is no EtherType, and nothing after the header is read.
    LinuxSll,
    /// LINKTYPE_LINUX_SLL2 (276): the 20 bytes of a Linux cooked capture of version 2, likewise.
    LinuxSll2,
    /// PPP, Cisco's HDLC, frame relay, SLIP or IEEE 802.11, by the numbers that are named there.
    Framed(Framing),
}

/// The link header of a frame.
#[derive(Clone, Copy, Debug, PartialEq, Eq)]
pub enum LinkSlice<'a> {
    /// That of Ethernet.
    Ethernet2(Ethernet2HeaderSlice<'a>),
    /// That of a Linux cooked capture.
    LinuxSll(LinuxSllHeaderSlice<'a>),
    /// That of a Linux cooked capture of version 2.
    LinuxSll2(LinuxSll2HeaderSlice<'a>),
    /// That of a loopback interface.
    Loopback {
        /// What the frame carries: 2 for IPv4; 24, 28 or 30, by the system, for IPv6; or another
        /// protocol.
        family: u32,
    },
    /// That of another framing.
    Framed {
        /// The bytes of the header.
        slice: &'a [u8],
        /// What follows it.
        carried: Carried,
    },
}

/// A frame ends within its link header.
#[derive(Clone, Copy, Debug, PartialEq, Eq)]
pub struct LinkError {
    /// The length of the link header, in bytes; if the header gives its own length, a lower bound.
    pub required_len: usize,
    /// The length of the frame, in bytes.
    pub len: usize,
}

impl fmt::Display for LinkError {
    ghost output = { λ error. Some (link_error_text error) };

    fn fmt<W: fmt::Write>(&self, f: &mut fmt::Formatter<W>) -> fmt::Result {
        let (required_len, len) = (self.required_len, self.len);
        write!(
            f,
            "Link Header Error: The header has at least {required_len} bytes, the frame {len}."
        )
    }
}

impl Error for LinkError {}

impl LinkType {
    ghost use Rattle.std.specs.Prelude.{◌≡◌};
    ghost use Rattle.packet.specs.Link.{link_len, link_type_of};

    /// The link type that has a number in the registry of link types of tcpdump.org; `None` if
    /// frames of that type are not read.
    pub fn from_number(number: u32) -> Option<LinkType>
        ensures value { result ≡ link_type_of number }
    {
        match number {
            0 => Some(LinkType::Null),
            1 => Some(LinkType::Ethernet2),
            12 | 14 | 101 | 228 | 229 => Some(LinkType::Ip),
            108 => Some(LinkType::Loop),
            113 => Some(LinkType::LinuxSll),
            276 => Some(LinkType::LinuxSll2),
            _ => Framing::from_number(number).map(LinkType::Framed),
        }
    }

    /// The length of the link header of a frame, in bytes. If the header gives its own length and
    /// the frame ends within it, a lower bound.
    ///
    /// # Example
    ///
    /// ```
    /// // LINKTYPE_LINUX_SLL2.
    /// let link_type = LinkType::from_number(276);
    /// assert!(rt; link_type == Some(LinkType::LinuxSll2));
    /// assert!(rt; LinkType::LinuxSll2.header_len(&[]) == 20);
    /// // LINKTYPE_PPP: address, control, and the number of IPv4.
    /// let link_type = LinkType::from_number(9);
    /// assert!(rt; link_type == Some(LinkType::Framed(Framing::Ppp)));
    /// assert!(rt; LinkType::Framed(Framing::Ppp).header_len(&[0xff, 3, 0, 0x21]) == 4);
    /// ```
    pub fn header_len(self, frame: &[u8]) -> usize
        ensures value { result ≡ link_len self frame.now }
    {
        match self {
            LinkType::Null | LinkType::Loop => 4,
            LinkType::Ethernet2 => 14,
            LinkType::Ip => 0,
            LinkType::LinuxSll => 16,
            LinkType::LinuxSll2 => 20,
            LinkType::Framed(framing) => match framing.header(frame) {
                Ok(header) => header.len,
                Err(required_len) => required_len,
            },
        }
    }
}

// What a link header is found to be: the header, the EtherType of what follows it, and all bytes
// after it.
type Found<'a> = (Option<LinkSlice<'a>>, Option<EtherType>, &'a [u8]);

// The link header of a frame, the EtherType of what follows it, and all bytes after it.
#[inline(always)]
pub(crate) fn link_header(link_type: LinkType, frame: &[u8]) -> Result<Found, LinkError>
    ensures found { IfOk result (λ x. BeginsWithLink link_type frame.now x.0 x.1 x.2.now) }
    ensures refused { IfErr result (LacksLink link_type frame.now) }
{
    match link_type {
        LinkType::Ethernet2 => {
            let (slice, rest) = front(14, frame)?;
            let header = Ethernet2HeaderSlice { slice };
            let ether_type = header.ether_type();
            Ok((Some(LinkSlice::Ethernet2(header)), Some(ether_type), rest))
        }
        LinkType::LinuxSll => {
            let (slice, rest) = front(16, frame)?;
            let header = LinuxSllHeaderSlice { slice };
            let ether_type = cooked_ether_type(header.arp_hardware_type(), header.protocol_type());
            Ok((Some(LinkSlice::LinuxSll(header)), ether_type, rest))
        }
        LinkType::LinuxSll2 => {
            let (slice, rest) = front(20, frame)?;
            let header = LinuxSll2HeaderSlice { slice };
            let ether_type = cooked_ether_type(header.arp_hardware_type(), header.protocol_type());
            Ok((Some(LinkSlice::LinuxSll2(header)), ether_type, rest))
        }
        LinkType::Null | LinkType::Loop => {
            let (slice, rest) = front(4, frame)?;
            let family = family_of(link_type, [slice[0], slice[1], slice[2], slice[3]]);
            Ok((Some(LinkSlice::Loopback { family }), None, rest))
        }
        LinkType::Ip => Ok((None, None, frame)),
        LinkType::Framed(framing) => {
            let Header { len, carried } = framed_header(framing, frame)?;
            let (slice, rest) = frame.split_at(len);
            let link = LinkSlice::Framed { slice, carried };
            Ok((Some(link), ether_type_of(carried), rest))
        }
    }
}

// The first bytes of a frame, and what follows them.
#[inline(always)]
fn front(len: usize, frame: &[u8]) -> Result<(&[u8], &[u8]), LinkError>
    ensures found { IfOk result (λ x. (frame.now ≡ x.0.now ++ x.1.now) × (length x.0.now ≡ len)) }
    ensures refused { IfErr result (λ e. (length frame.now < len)
        × (e ≡ record { required_len = len; len = length frame.now })) }
{
    match frame.split_at_checked(len) {
        Some(parts) => Ok(parts),
        None => Err(LinkError {
            required_len: len,
            len: frame.len(),
        }),
    }
}

// The link header of a frame of another framing.
#[cold]
#[inline(never)] // A frame of a link type with a header of one length is then read in registers.
fn framed_header(framing: Framing, frame: &[u8]) -> Result<Header, LinkError>
    ensures found { IfOk result (BeginsWith framing frame.now) }
    ensures refused { IfErr result (LacksLink (Framed framing) frame.now) }
{
    match framing.header(frame) {
        Ok(header) => Ok(header),
        Err(required_len) => Err(LinkError {
            required_len,
            len: frame.len(),
        }),
    }
}

// The EtherType that the protocol type of a Linux cooked capture is, by the kind of the device.
fn cooked_ether_type(arp_hrd_type: u16, protocol_type: EtherType) -> Option<EtherType>
    ensures value { result ≡ cooked_ether_type arp_hrd_type protocol_type }
{
    match ArpHardwareId(arp_hrd_type) {
        ArpHardwareId::NETLINK | ArpHardwareId::FRAD | ArpHardwareId::IEEE80211_RADIOTAP => None,
        _ => Some(protocol_type),
    }
}

// The EtherType of what follows, if it has one.
fn ether_type_of(carried: Carried) -> Option<EtherType>
    ensures value { result ≡ ether_type_of carried }
{
    match carried.ether_type() {
        Some(number) => Some(EtherType(number)),
        None => None,
    }
}

// The family in four bytes: in network order, or in the order that gives the smaller number.
fn family_of(link_type: LinkType, bytes: [u8; 4]) -> u32
    ensures value { result ≡ family_of link_type bytes }
{
    let family = u32::from_be_bytes(bytes);
    match link_type {
        LinkType::Loop => family,
        _ => family.min(u32::from_le_bytes(bytes)),
    }
}
