//! Where a packet of a Linux cooked capture went.

ghost use Rattle.std.specs.Prelude.{ℕ, ◌≡◌};
ghost use Rattle.etherparse.specs.ValueTooBigError.{TakesUpTo};
ghost use Rattle.etherparse.specs.declared.err.ValueType.TheVariants as value_type;

use etherparse::err::{ValueTooBigError, ValueType};
use std::marker::Model;

/// Where a packet of a Linux cooked capture went, by the numbers PACKET of Linux's `if_packet.h`.
///
/// Any number can be made and is read, as in `LinuxSllPacketType(9)`: the format leaves it to the
/// kernel that captures, which may have more than are named here.
///
/// Equality, order and hash are those of the number.
///
/// # Example
///
/// ```
/// assert!(rt; LinuxSllPacketType(4) == LinuxSllPacketType::OUTGOING);
/// // The byte of a capture of version 2.
/// let byte: u8 = 1;
/// assert!(rt; LinuxSllPacketType::from(byte) == LinuxSllPacketType::BROADCAST);
/// ```
#[derive(Clone, Copy, Debug, PartialEq, Eq, PartialOrd, Ord, Hash)]
pub struct LinuxSllPacketType(pub u16);

/// A contract sees the number itself.
impl Model for LinuxSllPacketType {
    ghost Value = { ℕ };

    ghost view = { λ packet_type. packet_type.0 };

    ghost inverse = { λ number. record { 0 = number } };
}

impl LinuxSllPacketType {
    /// To this host (0).
    pub const HOST: LinuxSllPacketType = LinuxSllPacketType(0);

    /// To all hosts (1).
    pub const BROADCAST: LinuxSllPacketType = LinuxSllPacketType(1);

    /// To a group (2).
    pub const MULTICAST: LinuxSllPacketType = LinuxSllPacketType(2);

    /// To another host (3).
    pub const OTHERHOST: LinuxSllPacketType = LinuxSllPacketType(3);

    /// Sent by this host (4).
    pub const OUTGOING: LinuxSllPacketType = LinuxSllPacketType(4);

    /// Looped back in the kernel, a broadcast or to a group (5).
    pub const LOOPBACK: LinuxSllPacketType = LinuxSllPacketType(5);

    /// To a process (6).
    pub const USER: LinuxSllPacketType = LinuxSllPacketType(6);

    /// To the kernel (7).
    pub const KERNEL: LinuxSllPacketType = LinuxSllPacketType(7);
}

const _: () = prove!(
    LinuxSllPacketType::HOST.0 == 0
        && LinuxSllPacketType::BROADCAST.0 == 1
        && LinuxSllPacketType::MULTICAST.0 == 2
        && LinuxSllPacketType::OTHERHOST.0 == 3
        && LinuxSllPacketType::OUTGOING.0 == 4
        && LinuxSllPacketType::LOOPBACK.0 == 5
        && LinuxSllPacketType::USER.0 == 6
        && LinuxSllPacketType::KERNEL.0 == 7
);

impl From<u16> for LinuxSllPacketType {
    ghost from_gives = { λ number packet_type. packet_type ≡ number };

    fn from(value: u16) -> LinuxSllPacketType {
        LinuxSllPacketType(value)
    }
}

impl From<LinuxSllPacketType> for u16 {
    ghost from_gives = { λ packet_type number. number ≡ packet_type };

    fn from(value: LinuxSllPacketType) -> u16 {
        value.0
    }
}

/// The packet type of version 2, which has one byte for it.
impl From<u8> for LinuxSllPacketType {
    ghost from_gives = { λ number packet_type. packet_type ≡ number };

    fn from(value: u8) -> LinuxSllPacketType {
        LinuxSllPacketType(u16::from(value))
    }
}

/// The byte of version 2, which has one for the packet type.
///
/// # Errors
///
/// A `ValueTooBigError` if the number is above 255. Those that are named here are below 8.
impl TryFrom<LinuxSllPacketType> for u8 {
    type Error = ValueTooBigError<u16>;

    ghost try_from_gives = { TakesUpTo (λ byte. byte) 255 value_type.LinuxSllType };

    fn try_from(value: LinuxSllPacketType) -> Result<u8, ValueTooBigError<u16>> {
        let number = value.0;
        if number > 255 {
            return Err(ValueTooBigError {
                actual: number,
                max_allowed: 255,
                value_type: ValueType::LinuxSllType,
            });
        }
        Ok(number as u8)
    }
}
