//! The interfaces of a section (draft-ietf-opsawg-pcapng sections 3.5 and 4.2).

ghost use Rattle.std.specs.Prelude.{◌≡◌, ◌%◌, ◌^◌, ◌<◌, ◌≤◌, length};
ghost use Rattle.packet_capture.specs.Pcapng.Interfaces.{InterfaceReading, ReadsInterface};
ghost use Rattle.packet_capture.specs.Pcapng.Interfaces.{ReadsOptions, before_options, with_option};
ghost use Rattle.packet_capture.specs.Pcapng.Times.{nanoseconds, seconds};

use crate::capture::ByteOrder;
use crate::pcapng::blocks::BlockError;
use crate::pcapng::times::{Resolution, Time};

/// An interface on which packets were captured: what an Interface Description Block says.
///
/// Options other than `if_tsresol` and `if_tsoffset` are skipped. If one of these two stands there
/// more than once, the last counts.
#[derive(Clone, Copy, Debug, Default, PartialEq, Eq)]
pub struct Interface {
    /// The link type, 1 for Ethernet and 101 for packets that begin with their IP header: bytes 8
    /// and 9 of the block.
    pub link_type: u16,
    /// The snap length, the most bytes of a packet that were to be kept, or 0 for no limit: bytes
    /// 12 to 15. Only the packets of Simple Packet Blocks depend on it.
    pub snap_len: u32,
    /// The unit of its timestamps: option 9, `if_tsresol`, or else microseconds.
    pub resolution: Resolution,
    /// Seconds to add to its timestamps: option 14, `if_tsoffset`, or else 0. A negative number is
    /// in two's complement.
    pub offset: u64,
}

impl Interface {
    /// The time of a timestamp of this interface.
    ///
    /// # Example
    ///
    /// ```
    /// // Microseconds, and a clock that is one second ahead of 1970.
    /// let interface = Interface {
    ///     offset: 1,
    ///     ..Interface::default()
    /// };
    /// let time = interface.time_of(2_000_003);
    /// assert!(rt; (time.seconds, time.nanoseconds) == (3, 3000));
    /// ```
    pub fn time_of(&self, timestamp: u64) -> Time
        ensures seconds { result.seconds ≡ seconds self.now.resolution self.now.offset timestamp }
        ensures nanoseconds { result.nanoseconds ≡ nanoseconds self.now.resolution timestamp }
        ensures within { result.nanoseconds < 10 ^ 9 }
    {
        self.resolution.time_of(self.offset, timestamp)
    }

    // The interface of an Interface Description Block.
    pub(crate) fn from_block(order: ByteOrder, block: &[u8]) -> Result<Interface, BlockError>
        requires enough { 20 ≤ length block.now }
        requires in_words { length block.now % 4 ≡ 0 }
        ensures reads { ReadsInterface order block.now result }
    {
        let interface = Interface {
            link_type: order.u16_of(&block[8..10]),
            snap_len: order.u32_of(&block[12..16]),
            resolution: Resolution::MICROSECONDS,
            offset: 0,
        };
        interface.with_options(order, block)
    }

    // The interface with what the options of its block say.
    fn with_options(self, order: ByteOrder, block: &[u8]) -> Result<Interface, BlockError>
        requires enough { 20 ≤ length block.now }
        requires in_words { length block.now % 4 ≡ 0 }
        ensures reads { ReadsOptions order block.now 16 self result }
    {
        let end = block.len() - 4;
        let mut interface = self;
        let mut place = 16;
        'options: while place < end {
            let code = order.u16_of(&block[place..place + 2]);
            if code == 0 {
                return Ok(interface);
            }
            let len = order.u16_of(&block[place + 2..place + 4]);
            let start = place + 4;
            let value_len = usize::from(len);
            let after = start + (value_len + 3) / 4 * 4;
            if after > end {
                return Err(BlockError::OptionLength { code, len, place });
            }
            let value = &block[start..start + value_len];
            match interface.with_option(order, place, code, value) {
                Ok(next) => interface = next,
                Err(e) => return Err(e),
            }
            place = after;
        }
        Ok(interface)
    }

    // The interface with what an option says.
    fn with_option(
        self,
        order: ByteOrder,
        place: usize,
        code: u16,
        value: &[u8],
    ) -> Result<Interface, BlockError>
        requires { length value.now ≤ u16.MAX }
        ensures value { result ≡ with_option order place code value.now self }
    {
        let len = value.len() as u16;
        match (code, len) {
            (9, 1) => match Resolution::from_byte(value[0]) {
                Some(resolution) => Ok(Interface { resolution, ..self }),
                None => Err(BlockError::Resolution(value[0])),
            },
            (14, 8) => {
                let offset = order.u64_of(value);
                Ok(Interface { offset, ..self })
            }
            (9 | 14, _) => Err(BlockError::OptionLength { code, len, place }),
            _ => Ok(self),
        }
    }
}
