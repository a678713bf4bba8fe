//! A loop over the blocks of a capture of either format, as in the example of `any::next_block`: here
//! it is proved.

use crate::shared::assert_equal;
use packet_capture::any::{Block, Capture, next_block};
use std::test::Fail;

#[test]
fn captures_of_either_format(rt: HostRuntime) -> Result<(), Fail> {
    // pcapng: a section, an interface of packets that begin with their IP header, and a packet of
    // 3 bytes, 1,000,001 microseconds after the start of 1970.
    let file = &[
        0x0a, 0x0d, 0x0d, 0x0a, 28, 0, 0, 0, 0x4d, 0x3c, 0x2b, 0x1a, 1, 0, 0, 0, 0xff, 0xff, 0xff,
        0xff, 0xff, 0xff, 0xff, 0xff, 28, 0, 0, 0, 1, 0, 0, 0, 20, 0, 0, 0, 101, 0, 0, 0, 0, 0, 0,
        0, 20, 0, 0, 0, 6, 0, 0, 0, 36, 0, 0, 0, 0, 0, 0, 0, 0, 0, 0, 0, 0x41, 0x42, 0x0f, 0, 3, 0,
        0, 0, 5, 0, 0, 0, b'a', b'b', b'c', 0, 36, 0, 0, 0,
    ];
    let (mut capture, bytes) = Capture::from_slice(file)?;
    let mut rest = bytes;
    let mut found = None;
    'next: while let Some((block, after)) = next_block(&mut capture, rest)? {
        if let Block::Packet { head, bytes } = block {
            found = Some((head.link_type, head.time().seconds, bytes.len()));
        }
        rest = after;
    }
    assert_equal(&rt, found, Some((101, 1, 3)));
    Ok(())
}
