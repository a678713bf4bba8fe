//! The header of a frame, by its link type.

ghost use Rattle.std.specs.Prelude.{◌≡◌};

use crate::frame_relay::frame_relay_header;
use crate::header::{Carried, Header};
use crate::ieee80211::{ieee80211_header, radiotap_header};
use crate::ppp::{cisco_hdlc_header, ppp_hdlc_header, ppp_header};

/// A link type whose headers tell by their own bytes where they end, or what follows them other
/// than by an EtherType. A capture names it by a number of the registry of link types of
/// tcpdump.org.
#[derive(Clone, Copy, Debug, PartialEq, Eq)]
pub enum Framing {
    /// LINKTYPE_SLIP (8): a direction and 15 bytes on compression, and then an IP packet.
    Slip,
    /// LINKTYPE_PPP (9): the protocol in one or two bytes (RFC 1661), before which an address and a
    /// control byte can stand (RFC 1662 section 3.1).
    Ppp,
    /// LINKTYPE_PPP_HDLC (50): PPP, or Cisco's HDLC, told apart by the address.
    PppHdlc,
    /// LINKTYPE_C_HDLC (104): Cisco's HDLC, with an EtherType (RFC 1547 section 4.3.1).
    CiscoHdlc,
    /// LINKTYPE_IEEE802_11 (105): the MAC header of IEEE 802.11, and in data frames LLC. A mesh
    /// header is not looked for.
    Ieee80211,
    /// LINKTYPE_FRELAY (107): frame relay, with an NLPID (RFC 2427) or, as Cisco has it, an
    /// EtherType.
    FrameRelay,
    /// LINKTYPE_IEEE802_11_RADIOTAP (127): radiotap, and the MAC header of IEEE 802.11. Of the
    /// fields of radiotap only the flag of a padding after the MAC header is looked at.
    Ieee80211Radiotap,
}

impl Framing {
    ghost use Rattle.std.specs.Prelude.{◌≡◌, IfErr, IfOk};
    ghost use Rattle.packet_links.specs.Framing.{BeginsWith, EndsWithin, framing_of, header_in};

    /// The framing that has a number in the registry of link types of tcpdump.org; `None` if there
    /// is none here.
    pub fn from_number(number: u32) -> Option<Framing>
        ensures value { result ≡ framing_of number }
    {
        match number {
            8 => Some(Framing::Slip),
            9 => Some(Framing::Ppp),
            50 => Some(Framing::PppHdlc),
            104 => Some(Framing::CiscoHdlc),
            105 => Some(Framing::Ieee80211),
            107 => Some(Framing::FrameRelay),
            127 => Some(Framing::Ieee80211Radiotap),
            _ => None,
        }
    }

    /// The link header that a frame begins with.
    ///
    /// # Errors
    ///
    /// If the frame ends within its link header: the number of bytes that the header has at least,
    /// as far as the frame tells.
    ///
    /// # Example
    ///
    /// ```
    /// // PPP without address and control, and the number of IPv4 in one byte.
    /// let header = Header {
    ///     len: 1,
    ///     carried: Carried::PppProtocol(0x0021),
    /// };
    /// assert!(rt; Framing::Ppp.header(&[0x21, 0x45, 0]) == Ok(header));
    /// // With address, control, and one byte of the number.
    /// assert!(rt; Framing::Ppp.header(&[0xff, 3, 0]) == Err(4));
    /// ```
    pub fn header(self, frame: &[u8]) -> Result<Header, usize>
        ensures found { IfOk result (BeginsWith self frame.now) }
        ensures refused { IfErr result (EndsWithin self frame.now) }
    {
        let header = self.header_in(frame);
        if frame.len() < header.len {
            return Err(header.len);
        }
        Ok(header)
    }

    // The header, of which the frame need not have all bytes.
    fn header_in(self, frame: &[u8]) -> Header
        ensures value { result ≡ header_in self frame.now }
    {
        match self {
            Framing::Slip => Header {
                len: 16,
                carried: Carried::Ip,
            },
            Framing::Ppp => ppp_header(frame),
            Framing::PppHdlc => ppp_hdlc_header(frame),
            Framing::CiscoHdlc => cisco_hdlc_header(frame),
            Framing::FrameRelay => frame_relay_header(frame),
            Framing::Ieee80211 => ieee80211_header(false, frame),
            Framing::Ieee80211Radiotap => radiotap_header(frame),
        }
    }
}
