//! Frames whose packets are fragments: a forged one changes nothing.

use crate::shared::assert_that;
use frame_reassembly::datagrams::Datagrams;
use frame_reassembly::frame_reassembly::FrameReassembly;
use packet::link::LinkType;
use packet_reassembly::fragment_ecn::FragmentEcn;
use packet_reassembly::ip_defrag_buf::IpDefragBuf;
use packet_reassembly::ip_defrag_headers::IpDefragHeaders;
use packet_reassembly::ip_defrag_pool::IpDefragSlot;
use std::process::Abort;

#[test]
fn forged_fragments_change_nothing(rt: HostRuntime) {
    let mut headers = [0; IpDefragHeaders::MAX_LEN];
    let mut bytes = [0; IpDefragBuf::MAX_LEN];
    let mut units = [0; IpDefragBuf::UNITS];
    let mut slots = [IpDefragSlot {
        id: None,
        ecn: FragmentEcn::NONE,
        since: 0,
        headers: IpDefragHeaders::new(&mut headers),
        buf: IpDefragBuf::new(&mut bytes, &mut units),
    }];
    take_fragments(&rt, &mut FrameReassembly::new(&mut slots));
}

// Two fragments of an IPv4 packet, and forged copies of both, which a host discards since their header
// checksum is wrong (RFC 1122 section 3.2.1.2): one would complete the datagram, the other contradict
// it.
fn take_fragments(rt: &impl Abort, frames: &mut FrameReassembly) {
    let mut out = [0; 65_700];
    let first = [
        0x45, 0, 0, 28, 0x12, 0x34, 0x20, 0, 64, 17, 0xc6, 0x84, 192, 168, 0, 1, 192, 168, 0, 199,
        b't', b'h', b'i', b'r', b't', b'e', b'e', b'n',
    ];
    let last = [
        0x45, 0, 0, 25, 0x12, 0x34, 0, 1, 64, 17, 0xe6, 0x86, 192, 168, 0, 1, 192, 168, 0, 199,
        b'b', b'y', b't', b'e', b's',
    ];
    let forged_first = [
        0x45, 0, 0, 28, 0x12, 0x34, 0x20, 0, 64, 17, 0xc6, 0x85, 192, 168, 0, 1, 192, 168, 0, 199,
        b'f', b'o', b'u', b'r', b't', b'e', b'e', b'n',
    ];
    let forged_last = [
        0x45, 0, 0, 25, 0x12, 0x34, 0, 1, 64, 17, 0, 0, 192, 168, 0, 1, 192, 168, 0, 199, b'w',
        b'o', b'r', b'd', b's',
    ];
    let mut datagrams = Datagrams::none();
    let begun = Datagrams {
        begun: 1,
        put_together: 0,
        discarded: 0,
    };
    for packet in [&first[..], &forged_last[..], &forged_first[..]] {
        let taken = frames.take(LinkType::Ip, packet, 0, &mut datagrams, &mut out);
        assert_that(&rt, taken.is_none() && datagrams == begun);
    }
    let taken = frames.take(LinkType::Ip, &last, 1, &mut datagrams, &mut out);
    assert_that(&rt, taken == Some(33) && datagrams.put_together == 1);
    assert_that(&rt, &out[20..33] == b"thirteenbytes".as_slice());
}
