//! Blocks that a program skips: what the front of a block says of each content, in the layouts of
//! draft-ietf-opsawg-pcap section 5, and of sections 4.1 to 4.5 and appendix A of
//! draft-ietf-opsawg-pcapng. No block is there to its end.

use crate::shared::assert_equal;
use arrayvec::ArrayVec;
use packet_capture::any::{Capture, PacketHead, Stamp};
use packet_capture::capture::{ByteOrder, FileHeader, Format, Resolution};
use packet_capture::pcapng::blocks::{BlockError, BlockHead, BlockType, Section};
use packet_capture::pcapng::interfaces::Interface;
use packet_capture::pcapng::packets::PacketType;
use packet_capture::pcapng::times;
use packet_capture::skip::{BlockFront, Content};
use std::process::Abort;

#[test]
fn front_of_a_record(rt: HostRuntime) {
    // The upper bits of the link type say that frames end with a check sequence of 4 bytes.
    let capture = Capture::Pcap(FileHeader {
        format: Format {
            order: ByteOrder::BigEndian,
            resolution: Resolution::Microseconds,
        },
        snap_len: 65_535,
        link_type: 0x2400_0001,
    });
    // 400,000 bytes of a packet of 500,000, captured 2 microseconds into second 1.
    let record = &[0, 0, 0, 1, 0, 0, 0, 2, 0, 6, 0x1a, 0x80, 0, 7, 0xa1, 0x20];
    let stamp = Stamp::Recorded {
        seconds: 1,
        nanoseconds: 2_000,
        resolution: Resolution::Microseconds,
    };
    let front = BlockFront {
        content: Content::Packet(packet(1, stamp)),
        len: 400_016,
        head: None,
    };
    assert_equal(
        &rt,
        (capture.front_len(), capture.block_front(record)),
        (16, Ok(front)),
    );
    // Records do not repeat their length.
    assert_equal(&rt, front.check_end([0, 0, 0, 0]), Ok(()));
}

#[test]
fn fronts_of_packets(rt: HostRuntime) {
    let capture = Capture::Pcapng(section());
    assert_equal(&rt, capture.front_len(), 28);

    // 3 * 2^32 + 2 milliseconds after an offset of 7 seconds, on the second interface; the bytes of
    // the packet are all that the block has room for.
    let stamp = Stamp::Counted {
        timestamp: 12_884_901_890,
        resolution: times::Resolution::PowerOfTen(3),
        offset: 7,
    };
    let content = Content::Packet(packet(101, stamp));
    let block = &[
        0, 0, 0, 6, 0, 6, 0x1a, 0xa0, 0, 0, 0, 1, 0, 0, 0, 3, 0, 0, 0, 2, 0, 6, 0x1a, 0x80, 0, 7,
        0xa1, 0x20,
    ];
    let block_type = BlockType::Packet(PacketType::Enhanced);
    assert_front(&rt, block, front(block_type, 400_032, content));

    // The same, after 65,535 packets that were dropped.
    let block = &[
        0, 0, 0, 2, 0, 6, 0x1a, 0xa0, 0, 1, 0xff, 0xff, 0, 0, 0, 3, 0, 0, 0, 2, 0, 6, 0x1a, 0x80,
        0, 7, 0xa1, 0x20,
    ];
    let block_type = BlockType::Packet(PacketType::Obsolete);
    assert_front(&rt, block, front(block_type, 400_032, content));

    // On the first interface, which keeps 400,000 bytes of a packet.
    let content = Content::Packet(packet(1, Stamp::Unknown));
    let block = &[
        0, 0, 0, 3, 0, 6, 0x1a, 0x90, 0, 7, 0xa1, 0x20, 1, 2, 3, 4, 5, 6, 7, 8, 9, 10, 11, 12, 13,
        14, 15, 16,
    ];
    let block_type = BlockType::Packet(PacketType::Simple);
    assert_front(&rt, block, front(block_type, 400_016, content));
}

#[test]
fn fronts_of_refused_packets(rt: HostRuntime) {
    let block_type = BlockType::Packet(PacketType::Enhanced);

    // Of a third interface.
    let content = Content::Refused(BlockError::Interface { id: 2, count: 2 });
    let block = &[
        0, 0, 0, 6, 0, 6, 0x1a, 0xa0, 0, 0, 0, 2, 0, 0, 0, 3, 0, 0, 0, 2, 0, 6, 0x1a, 0x80, 0, 7,
        0xa1, 0x20,
    ];
    assert_front(&rt, block, front(block_type, 400_032, content));

    // One byte more than 400,032 bytes have room for after 28 and before 4.
    let content = Content::Refused(BlockError::CapturedLength {
        captured_len: 400_001,
        room: 400_000,
    });
    let block = &[
        0, 0, 0, 6, 0, 6, 0x1a, 0xa0, 0, 0, 0, 1, 0, 0, 0, 3, 0, 0, 0, 2, 0, 6, 0x1a, 0x81, 0, 7,
        0xa1, 0x20,
    ];
    assert_front(&rt, block, front(block_type, 400_032, content));
}

#[test]
fn fronts_without_packets(rt: HostRuntime) {
    // A section header in the other byte order.
    let block = &[
        0x0a, 0x0d, 0x0d, 0x0a, 0x80, 0x1a, 6, 0, 0x4d, 0x3c, 0x2b, 0x1a, 1, 0, 0, 0, 0xff, 0xff,
        0xff, 0xff, 0xff, 0xff, 0xff, 0xff, 1, 0, 0, 0,
    ];
    let expected = BlockFront {
        content: Content::Description,
        len: 400_000,
        head: Some(BlockHead {
            order: ByteOrder::LittleEndian,
            block_type: BlockType::SectionHeader,
            total_len: 400_000,
        }),
    };
    assert_front(&rt, block, Ok(expected));

    // An interface with a comment (option 1) of 65,000 bytes.
    let block = &[
        0, 0, 0, 1, 0, 6, 0x1a, 0x80, 0, 1, 0, 0, 0, 0, 0, 0, 0, 1, 0xfd, 0xe8, b'a', b'a', b'a',
        b'a', b'a', b'a', b'a', b'a',
    ];
    let block_type = BlockType::InterfaceDescription;
    let expected = front(block_type, 400_000, Content::Description);
    assert_front(&rt, block, expected);

    // A Name Resolution Block, which has the type 4; its first record has the type 1 and 65,000
    // bytes.
    let block = &[
        0, 0, 0, 4, 0, 6, 0x1a, 0x80, 0, 1, 0xfd, 0xe8, 10, 0, 0, 1, b'a', b'a', b'a', b'a', b'a',
        b'a', b'a', b'a', b'a', b'a', b'a', b'a',
    ];
    let expected = front(BlockType::Other(4), 400_000, Content::Other);
    assert_front(&rt, block, expected);

    // A length that is no multiple of 4.
    let block = &[
        0, 0, 0, 4, 0, 6, 0x1a, 0x82, 0, 1, 0xfd, 0xe8, 10, 0, 0, 1, b'a', b'a', b'a', b'a', b'a',
        b'a', b'a', b'a', b'a', b'a', b'a', b'a',
    ];
    let expected = Err(BlockError::BlockLength {
        block_type: BlockType::Other(4),
        total_len: 400_002,
    });
    assert_front(&rt, block, expected);
}

#[test]
fn ends_of_blocks(rt: HostRuntime) {
    // 400,000 is 0x61a80, and with its bytes in reverse 0x801a0600.
    let front = BlockFront {
        content: Content::Other,
        len: 400_000,
        head: Some(BlockHead {
            order: ByteOrder::LittleEndian,
            block_type: BlockType::Other(4),
            total_len: 400_000,
        }),
    };
    assert_equal(&rt, front.check_end([0x80, 0x1a, 6, 0]), Ok(()));
    let expected = Err(BlockError::Lengths {
        front: 400_000,
        back: 0x801a_0600,
    });
    assert_equal(&rt, front.check_end([0, 6, 0x1a, 0x80]), expected);
}

// A big-endian section with two interfaces: of Ethernet, 400,000 bytes of a packet are kept; of
// packets that begin with their IP header, all, with milliseconds since second 7.
fn section() -> Section {
    let mut interfaces = ArrayVec::new();
    interfaces.push(Interface {
        link_type: 1,
        snap_len: 400_000,
        ..Interface::default()
    });
    interfaces.push(Interface {
        link_type: 101,
        snap_len: 0,
        resolution: times::Resolution::PowerOfTen(3),
        offset: 7,
    });
    Section {
        order: Some(ByteOrder::BigEndian),
        interfaces,
    }
}

// Asserts what is read of the front of a block after that section.
fn assert_front(rt: &impl Abort, block: &[u8; 28], expected: Result<BlockFront, BlockError>) {
    let capture = Capture::Pcapng(section());
    assert_equal(rt, capture.block_front(block), expected);
}

// What the front of a block of that section says.
fn front(
    block_type: BlockType,
    total_len: u32,
    content: Content,
) -> Result<BlockFront, BlockError> {
    Ok(BlockFront {
        content,
        len: total_len as usize,
        head: Some(BlockHead {
            order: ByteOrder::BigEndian,
            block_type,
            total_len,
        }),
    })
}

// 400,000 bytes of a packet of 500,000.
fn packet(link_type: u16, stamp: Stamp) -> PacketHead {
    PacketHead {
        link_type,
        stamp,
        captured_len: 400_000,
        original_len: 500_000,
    }
}
