//! How runs end on every first byte at every length from 0 to 60, and on a header of each version
//! at every length above. The clause of `run` says what they print.

use super::*;

// How a run ends on the digits of these bytes.
fn status_of(rt: &(impl Abort + AllocGlobal), bytes: &[u8]) -> Status {
    let digits = hex::encode(rt.alloc(), bytes).expect(rt, "memory");
    let mut reader = digits.as_bytes();
    run(&mut reader, &mut Text::new())
}

// Runs on every front with every first byte and the same byte in every other place, and counts
// those for which all fields are printed. The others have to be refused.
fn done_on_every_front(rt: &(impl Abort + AllocGlobal), byte: u8) -> u64 {
    let mut done = 0u64;
    for first in 0..=255 {
        let mut packet = [byte; 60];
        packet[0] = first;
        for len in 0..=60 {
            match status_of(rt, &packet[..len]) {
                Status::Done => done = done.saturating_add(1),
                status => assert_equal(rt, status, Status::Refused),
            }
        }
    }
    done
}

#[test]
fn every_front_is_printed_or_refused(rt: HostRuntime) {
    // 231 are IPv4 headers with as many bytes as their IHL says, and 336 are IPv6 headers, whose
    // next header 165 cannot be skipped.
    assert_equal(&rt, done_on_every_front(&rt, 0xa5), 567);
    // After an IPv6 header, and after each hop-by-hop header, there should be a hop-by-hop header.
    // So one of them is incomplete.
    assert_equal(&rt, done_on_every_front(&rt, 0), 231);
}

#[test]
fn every_longer_front_is_printed(rt: HostRuntime) {
    // An IPv4 header with no options, and an IPv6 header with the next header 59, which says that
    // nothing follows.
    for first in [0x45, 0x60] {
        let mut packet = [59; 2048];
        packet[0] = first;
        for len in 61..=2048 {
            assert_equal(&rt, status_of(&rt, &packet[..len]), Status::Done);
        }
    }
}
