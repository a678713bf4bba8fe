//! The header of frame relay.

ghost use Rattle.std.specs.Prelude.{◌≡◌, ◌<◌, ◌≤◌, ◌^◌};
ghost use Rattle.packet_links.specs.declared.header.Carried.TheVariants.{Unknown};
ghost use Rattle.packet_links.specs.FrameRelay.{after_address, ends_with_zero, frame_relay_header};
ghost use Rattle.packet_links.specs.FrameRelay.{is_signalling, nlpid_header};

use crate::bytes::{byte_at, has, is_set, number_at};
use crate::header::{Carried, Header, snap_header};
use crate::ppp::protocol_header;

// The header of LINKTYPE_FRELAY.
pub(crate) fn frame_relay_header(frame: &[u8]) -> Header
    ensures value { result ≡ frame_relay_header frame.now }
{
    if frame.len() < 3 {
        return unknown(3);
    }
    if is_set(0, 0, frame) {
        return unknown(4);
    }
    if is_set(0, 1, frame) {
        after_address(frame, 2)
    } else if is_set(0, 2, frame) {
        after_address(frame, 3)
    } else if is_set(0, 3, frame) {
        after_address(frame, 4)
    } else {
        unknown(4)
    }
}

// A header of this length after which something unknown follows.
fn unknown(len: usize) -> Header
    ensures value { result ≡ record { len = len; carried = Unknown } }
{
    Header {
        len,
        carried: Carried::Unknown,
    }
}

// Whether the address that ends at a place has DLCI 0.
fn is_signalling(frame: &[u8], place: usize) -> bool
    requires some { 2 ≤ place }
    ensures value { result ≡ is_signalling place frame.now }
{
    byte_at(frame, 0) / 4 == 0
        && byte_at(frame, 1) / 16 == 0
        && (place == 2 || ends_with_zero(frame, place))
        && (place != 4 || byte_at(frame, 2) / 2 == 0)
}

// Whether the last byte of a longer address adds nothing to its DLCI.
fn ends_with_zero(frame: &[u8], place: usize) -> bool
    requires some { 0 < place }
    ensures value { result ≡ ends_with_zero place frame.now }
{
    is_set(1, place - 1, frame) || byte_at(frame, place - 1) / 4 == 0
}

// What follows an address that ends at a place.
fn after_address(frame: &[u8], place: usize) -> Header
    requires some { 2 ≤ place }
    requires fits { place < 2 ^ 16 }
    ensures value { result ≡ after_address place frame.now }
{
    if has(0x03, place, frame) {
        let is_padded = place + 1 < frame.len() && has(0, place + 1, frame);
        return nlpid_header(frame, if is_padded { place + 2 } else { place + 1 });
    }
    if is_signalling(frame, place) {
        return unknown(place + 1);
    }
    Header {
        len: place + 2,
        carried: Carried::EtherType(number_at(frame, place)),
    }
}

// The NLPID at a place.
fn nlpid_header(frame: &[u8], place: usize) -> Header
    requires fits { place < 2 ^ 17 }
    ensures value { result ≡ nlpid_header place frame.now }
{
    let nlpid = byte_at(frame, place);
    if nlpid == 0x80 {
        return snap_header(frame, place + 1, 0);
    }
    if nlpid == 0xcf {
        return protocol_header(frame, place + 1);
    }
    Header {
        len: place + 1,
        carried: Carried::Nlpid(nlpid),
    }
}
