//! The packets of a section (draft-ietf-opsawg-pcapng sections 4.3 and 4.4, and appendix A).

ghost use Rattle.std.specs.Prelude.{◌≡◌, ◌+◌, ◌^◌, ◌<◌, ◌≤◌, IfSome, length};
ghost use Rattle.std.specs.Option.{option_map};
ghost use Rattle.packet_capture.specs.Pcapng.Packets.{ReadsPacket, data_start, interface_id};
ghost use Rattle.packet_capture.specs.Pcapng.Packets.{packet_head, snapped, timestamp_at_12};
ghost use Rattle.packet_capture.specs.Pcapng.Times.{nanoseconds, seconds};

use crate::capture::ByteOrder;
use crate::pcapng::blocks::BlockError;
use crate::pcapng::interfaces::Interface;
use crate::pcapng::times::Time;

/// The three types of blocks that have a packet.
#[derive(Clone, Copy, Debug, PartialEq, Eq)]
pub enum PacketType {
    /// An Enhanced Packet Block, type 6.
    Enhanced,
    /// A Simple Packet Block, type 3.
    Simple,
    /// A Packet Block, type 2, which is obsolete.
    Obsolete,
}

/// What a block says about its packet.
#[derive(Clone, Copy, Debug, PartialEq, Eq)]
pub struct PacketHead {
    /// The number of its interface, from 0, among those of the section; 0 for a Simple Packet
    /// Block.
    pub interface_id: u32,
    /// That interface.
    pub interface: Interface,
    /// When it was captured, in the units of its interface; `None` for a Simple Packet Block. See
    /// [`PacketHead::time`].
    pub timestamp: Option<u64>,
    /// How many bytes of the packet were kept. For a Simple Packet Block, the smaller of the
    /// original length and the snap length.
    pub captured_len: u32,
    /// The length of the packet in bytes.
    pub original_len: u32,
}

impl PacketType {
    /// How many bytes of the block stand before those of the packet: 12 in a Simple Packet Block,
    /// 28 in the others.
    pub fn data_start(self) -> usize
        ensures value { result ≡ data_start self }
    {
        match self {
            PacketType::Simple => 12,
            PacketType::Enhanced | PacketType::Obsolete => 28,
        }
    }

    // The head of the packet in a block, whose bytes before those of the packet are there.
    pub(crate) fn head_of(
        self,
        order: ByteOrder,
        interfaces: &[Interface],
        total_len: u32,
        block: &[u8],
    ) -> Result<PacketHead, BlockError>
        requires enough { data_start self ≤ length block.now }
        requires room { data_start self + 4 ≤ total_len }
        ensures reads { ReadsPacket self order interfaces.now total_len block.now result }
    {
        let id = self.interface_id(order, block);
        let Some(interface) = interfaces.get(id as usize) else {
            return Err(BlockError::Interface {
                id,
                count: interfaces.len(),
            });
        };
        let head = self.head_on(order, id, interface, block);
        let room = total_len - 4 - self.data_start() as u32;
        if head.captured_len > room {
            return Err(BlockError::CapturedLength {
                captured_len: head.captured_len,
                room,
            });
        }
        Ok(head)
    }

    // The number of the packet's interface.
    fn interface_id(self, order: ByteOrder, block: &[u8]) -> u32
        requires enough { data_start self ≤ length block.now }
        ensures value { result ≡ interface_id self order block.now }
    {
        match self {
            PacketType::Enhanced => order.u32_of(&block[8..12]),
            PacketType::Simple => 0,
            PacketType::Obsolete => u32::from(order.u16_of(&block[8..10])),
        }
    }

    // The head of a packet of this interface.
    fn head_on(self, order: ByteOrder, id: u32, interface: &Interface, block: &[u8]) -> PacketHead
        requires enough { data_start self ≤ length block.now }
        requires number { id ≡ interface_id self order block.now }
        ensures value { result ≡ packet_head self order interface.now block.now }
    {
        match self {
            PacketType::Simple => {
                let original_len = order.u32_of(&block[8..12]);
                PacketHead {
                    interface_id: id,
                    interface: *interface,
                    timestamp: None,
                    captured_len: interface.snapped(original_len),
                    original_len,
                }
            }
            PacketType::Enhanced | PacketType::Obsolete => PacketHead {
                interface_id: id,
                interface: *interface,
                timestamp: Some(timestamp_of(order, block)),
                captured_len: order.u32_of(&block[20..24]),
                original_len: order.u32_of(&block[24..28]),
            },
        }
    }
}

impl PacketHead {
    /// The time of the packet, or `None` for a Simple Packet Block.
    pub fn time(&self) -> Option<Time>
        ensures seconds { option_map (λ time. time.seconds) result ≡ option_map
            (seconds self.now.interface.resolution self.now.interface.offset) self.now.timestamp }
        ensures nanoseconds { option_map (λ time. time.nanoseconds) result ≡ option_map
            (nanoseconds self.now.interface.resolution) self.now.timestamp }
        ensures within { IfSome result (λ time. time.nanoseconds < 10 ^ 9) }
    {
        match self.timestamp {
            Some(timestamp) => Some(self.interface.time_of(timestamp)),
            None => None,
        }
    }
}

impl Interface {
    // As many bytes of a packet of this length as the snap length lets be kept.
    fn snapped(&self, len: u32) -> u32
        ensures value { result ≡ snapped self.now.snap_len len }
    {
        if self.snap_len == 0 {
            len
        } else {
            len.min(self.snap_len)
        }
    }
}

// The timestamp in bytes 12 to 19, whose upper half stands first in either byte order.
fn timestamp_of(order: ByteOrder, block: &[u8]) -> u64
    requires { 28 ≤ length block.now }
    ensures value { result ≡ timestamp_at_12 order block.now }
{
    let upper = order.u32_of(&block[12..16]);
    let lower = order.u32_of(&block[16..20]);
    (u64::from(upper) << 32) + u64::from(lower)
}
