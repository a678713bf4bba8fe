//! The headers of PPP and of Cisco's HDLC.

ghost use Rattle.std.specs.Prelude.{◌≡◌, ◌<◌, ◌^◌};
ghost use Rattle.packet_links.specs.Ppp.{cisco_hdlc_header, ppp_hdlc_header, ppp_header};
ghost use Rattle.packet_links.specs.Ppp.{protocol_header};

use crate::bytes::{byte_at, has, is_set, number_at};
use crate::header::{Carried, Header};

// The header of LINKTYPE_PPP.
pub(crate) fn ppp_header(frame: &[u8]) -> Header
    ensures value { result ≡ ppp_header frame.now }
{
    if !has(0xff, 0, frame) {
        return protocol_header(frame, 0);
    }
    if has(0x03, 1, frame) {
        return protocol_header(frame, 2);
    }
    Header {
        len: 2,
        carried: Carried::Unknown,
    }
}

// The protocol at a place.
pub(crate) fn protocol_header(frame: &[u8], place: usize) -> Header
    requires fits { place < 2 ^ 18 }
    ensures value { result ≡ protocol_header place frame.now }
{
    if frame.len() <= place || is_set(0, place, frame) {
        return Header {
            len: place + 1,
            carried: Carried::PppProtocol(u16::from(byte_at(frame, place))),
        };
    }
    Header {
        len: place + 2,
        carried: Carried::PppProtocol(number_at(frame, place)),
    }
}

// The header of LINKTYPE_C_HDLC.
pub(crate) fn cisco_hdlc_header(frame: &[u8]) -> Header
    ensures value { result ≡ cisco_hdlc_header frame.now }
{
    Header {
        len: 4,
        carried: Carried::EtherType(number_at(frame, 2)),
    }
}

// The header of LINKTYPE_PPP_HDLC.
pub(crate) fn ppp_hdlc_header(frame: &[u8]) -> Header
    ensures value { result ≡ ppp_hdlc_header frame.now }
{
    if has(0x0f, 0, frame) || has(0x8f, 0, frame) {
        return cisco_hdlc_header(frame);
    }
    ppp_header(frame)
}
