//! Frames of PPP, Cisco's HDLC, frame relay, SLIP and IEEE 802.11: where their packets begin, as
//! tshark and tcpdump have it.

use crate::shared::assert_equal;
use arrayvec::ArrayVec;
use packet::link::{LinkSlice, LinkType};
use packet::link_layers::LinkLayers;
use packet::sliced_packet::SlicedPacket;
use packet_links::framing::Framing;
use packet_links::header::{Carried, Header};
use std::process::Abort;

// A datagram to port 53.
const DATAGRAM: [u8; 30] = [
    0x45, 0, 0, 30, 0, 0, 0, 0, 64, 17, 0x66, 0xcd, 10, 0, 0, 1, 10, 0, 0, 2, 4, 0, 0, 53, 0, 10,
    0, 0, b'h', b'i',
];

// The addresses of a data frame, and the first two bytes of LLC.
const ADDRESSES: [u8; 24] = [
    8, 1, 0, 0, 2, 0, 0, 0, 0, 1, 2, 0, 0, 0, 0, 2, 2, 0, 0, 0, 0, 3, 0, 0,
];

// LLC and SNAP before an IPv4 packet.
const SNAP: [u8; 8] = [0xaa, 0xaa, 3, 0, 0, 0, 8, 0];

// Whether a datagram after these headers is found, and nowhere else.
fn carries_datagram(rt: &impl Abort, framing: Framing, headers: &[&[u8]]) -> bool {
    let mut frame: ArrayVec<u8, 90> = ArrayVec::new();
    for header in headers {
        frame.try_extend_from_slice(header).expect(rt, "room");
    }
    frame.try_extend_from_slice(&DATAGRAM).expect(rt, "room");
    match SlicedPacket::from_link_type(LinkType::Framed(framing), frame.as_slice()) {
        Ok(packet) => packet.payload.len() == 30 && packet.ports() == Some((1024, 53)),
        Err(_) => false,
    }
}

// What a frame is found to carry.
fn carried(framing: Framing, frame: &[u8]) -> Option<Carried> {
    match LinkLayers::from_link_type(LinkType::Framed(framing), frame) {
        Ok(
            LinkLayers {
                link: Some(LinkSlice::Framed { carried, .. }),
                ..
            },
        ) => Some(carried),
        _ => None,
    }
}

#[test]
fn lines_of_ppp_carry_packets(rt: HostRuntime) {
    for header in [
        [0xff, 3, 0, 0x21].as_slice(),
        &[0xff, 3, 0x21],
        &[0, 0x21],
        &[0x21],
    ] {
        let are_found = [
            carries_datagram(&rt, Framing::Ppp, &[header]),
            carries_datagram(&rt, Framing::PppHdlc, &[header]),
        ];
        assert_equal(&rt, (header, are_found), (header, [true; 2]));
    }
}

#[test]
fn ends_of_ppp_headers(rt: HostRuntime) {
    let ends = [
        Framing::Ppp.header(&[]),
        Framing::Ppp.header(&[0]),
        Framing::Ppp.header(&[0xff]),
        Framing::Ppp.header(&[0xff, 3]),
        Framing::Ppp.header(&[0xff, 3, 0]),
        Framing::FrameRelay.header(&[0x18, 0x41, 3, 0xcf]),
    ];
    assert_equal(&rt, ends, [Err(1), Err(2), Err(2), Err(3), Err(4), Err(5)]);
    // The address, and another control than 3.
    let header = Header {
        len: 2,
        carried: Carried::Unknown,
    };
    assert_equal(&rt, Framing::PppHdlc.header(&[0xff, 5, 0]), Ok(header));
}

#[test]
fn lines_of_cisco_hdlc_carry_packets(rt: HostRuntime) {
    for header in [[0x0f, 0, 8, 0], [0x8f, 0, 8, 0]] {
        let are_found = [
            carries_datagram(&rt, Framing::CiscoHdlc, &[&header]),
            carries_datagram(&rt, Framing::PppHdlc, &[&header]),
        ];
        assert_equal(&rt, (header, are_found), (header, [true; 2]));
    }
}

#[test]
fn lines_carry_others(rt: HostRuntime) {
    assert_equal(
        &rt,
        (
            carries_datagram(&rt, Framing::Slip, &[&[1; 16]]),
            carried(Framing::Ppp, &[0x80, 0x21, 1]),
            carried(Framing::CiscoHdlc, &[0x8f, 0, 0x20, 0]),
            Framing::Slip.header(&[0; 15]),
        ),
        (
            true,
            Some(Carried::PppProtocol(0x8021)),
            Some(Carried::EtherType(0x2000)),
            Err(16),
        ),
    );
}

#[test]
fn frame_relay_carries_packets(rt: HostRuntime) {
    let headers = [
        [0x18, 0x41, 3, 0xcc].as_slice(),
        &[0x18, 0x40, 3, 3, 0xcc],
        &[0x18, 0x40, 2, 0x11, 3, 0xcc],
        &[0x18, 0x41, 3, 0, 0x80, 0, 0, 0, 8, 0],
        &[0x18, 0x41, 3, 0x80, 0, 0, 0, 8, 0],
        &[0x18, 0x41, 8, 0],
        &[0x18, 0x41, 3, 0xcf, 0, 0x21],
        &[
            0x18, 0x41, 3, 0, 0x80, 0, 0x80, 0xc2, 0, 7, 2, 0, 0, 0, 0, 1, 2, 0, 0, 0, 0, 2, 8, 0,
        ],
    ];
    for header in headers {
        let is_found = carries_datagram(&rt, Framing::FrameRelay, &[header]);
        assert_equal(&rt, (header, is_found), (header, true));
    }
}

#[test]
fn frame_relay_carries_others(rt: HostRuntime) {
    // A status enquiry, an address of one byte, and one of five; a link that is set up on DLCI 0, and
    // a message of Q.933 over it.
    let unknown = Some(Carried::Unknown);
    assert_equal(
        &rt,
        [
            carried(Framing::FrameRelay, &[0, 1, 3, 8, 0x75]),
            carried(Framing::FrameRelay, &[1, 3, 0xcc, 0x45]),
            carried(Framing::FrameRelay, &[0, 0, 0, 0, 1]),
            carried(Framing::FrameRelay, &[2, 1, 0x7f]),
            carried(Framing::FrameRelay, &[2, 1, 0, 0, 8, 2, 0, 1, 5]),
        ],
        [Some(Carried::Nlpid(8)), unknown, unknown, unknown, unknown],
    );
    assert_equal(
        &rt,
        [
            Framing::FrameRelay.header(&[0x18, 0x41, 3, 0]),
            Framing::FrameRelay.header(&[0x18, 0x41, 8]),
            Framing::FrameRelay.header(&[0, 1]),
        ],
        [Err(5), Err(4), Err(3)],
    );
}

#[test]
fn frame_relay_has_longer_addresses(rt: HostRuntime) {
    // Of 3 and of 4 bytes: DLCI 0, also where the last 6 bits are control bits; and DLCI 1, in the
    // last byte, and in the third of 4.
    let unknown = Some(Carried::Unknown);
    let ipv4 = Some(Carried::EtherType(0x0800));
    assert_equal(
        &rt,
        [
            carried(Framing::FrameRelay, &[0, 0, 1, 8, 0]),
            carried(Framing::FrameRelay, &[0, 0, 0, 1, 8, 0]),
            carried(Framing::FrameRelay, &[0, 0, 7, 8, 0]),
            carried(Framing::FrameRelay, &[0, 0, 0, 7, 8, 0]),
            carried(Framing::FrameRelay, &[0, 0, 5, 8, 0]),
            carried(Framing::FrameRelay, &[0, 0, 0, 5, 8, 0]),
            carried(Framing::FrameRelay, &[0, 0, 2, 1, 8, 0]),
        ],
        [unknown, unknown, unknown, unknown, ipv4, ipv4, ipv4],
    );
}

#[test]
fn ieee_802_11_carries_packets(rt: HostRuntime) {
    // Frame control, the bytes after the three addresses, and how many of these there are.
    let cases = [
        (0x08, 0x01, 0),
        (0x08, 0x03, 6),
        (0x88, 0x02, 2),
        (0x88, 0x03, 8),
        (0x88, 0x82, 6),
        (0x08, 0x82, 0),
    ];
    for (first, second, more) in cases {
        let radiotap = [0, 0, 8, 0, 0, 0, 0, 0].as_slice();
        let headers = [
            radiotap,
            &[first, second],
            &ADDRESSES[2..],
            &[0; 8][..more],
            &SNAP,
        ];
        let are_found = [
            carries_datagram(&rt, Framing::Ieee80211Radiotap, &headers),
            carries_datagram(&rt, Framing::Ieee80211, &headers[1..]),
        ];
        let seen = (first, second, more, are_found);
        assert_equal(&rt, seen, (first, second, more, [true; 2]));
    }
}

#[test]
fn bridged_frames_carry_packets(rt: HostRuntime) {
    // Ethernet whose source ends like an EtherType; after LLC, 2 bytes of padding come first.
    let ethernet = [2, 0, 0, 0, 0, 3, 2, 0, 0, 0, 8, 0, 8, 0];
    for number in [1, 7] {
        let padded = [0xaa, 0xaa, 3, 0, 0x80, 0xc2, 0, number, 0, 0];
        let relayed = [0x18, 0x41, 3, 0, 0x80, 0, 0x80, 0xc2, 0, number];
        let are_found = [
            carries_datagram(&rt, Framing::Ieee80211, &[&ADDRESSES, &padded, &ethernet]),
            carries_datagram(&rt, Framing::FrameRelay, &[&relayed, &ethernet]),
        ];
        assert_equal(&rt, (number, are_found), (number, [true; 2]));
    }
    // IP after LLC alone.
    let is_found = carries_datagram(&rt, Framing::Ieee80211, &[&ADDRESSES, &[6, 6, 3]]);
    assert_equal(&rt, is_found, true);
}

#[test]
fn padding_is_skipped(rt: HostRuntime) {
    // Radiotap whose Flags say that there is padding: alone, after TSFT, and after two words more.
    let cases = [
        [0, 0, 9, 0, 2, 0, 0, 0, 0x20].as_slice(),
        &[0, 0, 17, 0, 3, 0, 0, 0, 0, 0, 0, 0, 0, 0, 0, 0, 0x20],
        &[0, 0, 17, 0, 2, 0, 0, 0x80, 0, 0, 0, 0x80, 0, 0, 0, 0, 0x20],
    ];
    for radiotap in cases {
        // After the addresses there are QoS control and two bytes of padding.
        let headers = [radiotap, &[0x88, 2], &ADDRESSES[2..], &[0; 4], &SNAP];
        let is_found = carries_datagram(&rt, Framing::Ieee80211Radiotap, &headers);
        assert_equal(&rt, (radiotap, is_found), (radiotap, true));
    }
}

#[test]
fn frame_without_data_has_no_padding(rt: HostRuntime) {
    let mut frame = [0; 35];
    frame[..9].copy_from_slice(&[0, 0, 9, 0, 2, 0, 0, 0, 0x20]);
    frame[9..33].copy_from_slice(&ADDRESSES);
    [frame[9], frame[10]] = [0xc8, 1];
    let found = Framing::Ieee80211Radiotap.header(&frame);
    let carried = Carried::NoData;
    assert_equal(&rt, found, Ok(Header { len: 35, carried }));
}

#[test]
fn ieee_802_11_carries_others(rt: HostRuntime) {
    // Frame control, sequence control, the first byte of QoS control, and what is carried.
    let cases = [
        (0x80, 0, 0, 0, Carried::Management),
        (0xd4, 0, 0, 0, Carried::Control),
        (0x0c, 0, 0, 0, Carried::Extension),
        (0x09, 0, 0, 0, Carried::Unknown),
        (0x48, 1, 0, 0, Carried::NoData),
        (0xc8, 1, 0, 0, Carried::NoData),
        (0x88, 0x42, 0, 0, Carried::Encrypted),
        (0x08, 1, 0x11, 0, Carried::Fragment),
        (0x08, 5, 0x10, 0, Carried::Fragment),
        (0x88, 2, 0, 0x80, Carried::Aggregate),
        (0x88, 2, 0, 0, Carried::Llc(0x42)),
    ];
    for (first, second, sequence, qos, wanted) in cases {
        let frame = frame_with([first, second, sequence, qos]);
        assert_equal(&rt, carried(Framing::Ieee80211, &frame), Some(wanted));
    }
}

// A frame with these bytes at 0, 1, 22 and 24, and LLC at 26.
fn frame_with([first, second, sequence, qos]: [u8; 4]) -> [u8; 40] {
    let mut frame = [0; 40];
    frame[..24].copy_from_slice(&ADDRESSES);
    [frame[0], frame[1], frame[22], frame[24]] = [first, second, sequence, qos];
    [frame[26], frame[27], frame[28]] = [0x42, 0x42, 3];
    frame
}

#[test]
fn control_of_llc_has_one_or_two_bytes(rt: HostRuntime) {
    let mut frame = frame_with([0x88, 2, 0, 0]);
    // Unnumbered information, a command, information, and two of supervision.
    for (control, len) in [(3, 29), (0xe3, 29), (2, 30), (1, 30), (5, 30)] {
        frame[28] = control;
        let carried = Carried::Llc(0x42);
        let found = Framing::Ieee80211.header(&frame);
        assert_equal(
            &rt,
            (control, found),
            (control, Ok(Header { len, carried })),
        );
    }
}

#[test]
fn short_frames_of_ieee_802_11_are_refused(rt: HostRuntime) {
    assert_equal(
        &rt,
        (
            Framing::Ieee80211.header(&ADDRESSES),
            Framing::Ieee80211.header(&ADDRESSES[..23]),
            Framing::Ieee80211Radiotap.header(&[0, 0, 12, 0, 0, 0, 0, 0]),
        ),
        (Err(27), Err(24), Err(12)),
    );
}
