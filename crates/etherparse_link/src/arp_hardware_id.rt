//! The numbers of kinds of hardware.

ghost use Rattle.std.specs.Prelude.{ℕ, ◌≡◌};

use std::marker::Model;

/// A kind of hardware: in ARP the hardware type (RFC 826, `ar$hrd`), in a Linux cooked capture the
/// kind of the device. Any number can be made, as in `ArpHardwareId(7)`.
///
/// The constants have the numbers of ARPHRD in Linux's `if_arp.h`, and mostly its names. Those from
/// 1 to 255 are IANA's hardware types too; the others are Linux's own.
///
/// Equality, order and hash are those of the number.
///
/// # Example
///
/// ```
/// assert!(rt; ArpHardwareId(1) == ArpHardwareId::ETHERNET);
/// assert!(rt; ArpHardwareId::LOOPBACK.0 == 772);
/// ```
#[derive(Clone, Copy, Debug, PartialEq, Eq, PartialOrd, Ord, Hash)]
pub struct ArpHardwareId(pub u16);

/// A contract sees the number itself.
impl Model for ArpHardwareId {
    ghost Value = { ℕ };

    ghost view = { λ id. id.0 };

    ghost inverse = { λ number. record { 0 = number } };
}

impl ArpHardwareId {
    /// `NETROM`: NET/ROM over AX.25 (0).
    pub const NETROM: ArpHardwareId = ArpHardwareId(0);

    /// `ETHER`: Ethernet (1).
    pub const ETHERNET: ArpHardwareId = ArpHardwareId(1);

    /// `EETHER`: experimental Ethernet (2).
    pub const EETHER: ArpHardwareId = ArpHardwareId(2);

    /// `AX25`: AX.25 level 2 (3).
    pub const AX25: ArpHardwareId = ArpHardwareId(3);

    /// `IEEE802`: networks of IEEE 802.2 (6).
    pub const IEEE802: ArpHardwareId = ArpHardwareId(6);

    /// `ARCNET`: ARCnet (7).
    pub const ARCNET: ArpHardwareId = ArpHardwareId(7);

    /// `DLCI`: a connection of frame relay (15).
    pub const DLCI: ArpHardwareId = ArpHardwareId(15);

    /// `ATM`: Asynchronous Transfer Mode (19).
    pub const ATM: ArpHardwareId = ArpHardwareId(19);

    /// `IEEE1394`: IEEE 1394 (24).
    pub const IEEE1394: ArpHardwareId = ArpHardwareId(24);

    /// `EUI64`: addresses of 64 bits (27).
    pub const EUI64: ArpHardwareId = ArpHardwareId(27);

    /// `INFINIBAND`: InfiniBand (32).
    pub const INFINIBAND: ArpHardwareId = ArpHardwareId(32);

    /// `SLIP`: IP over a serial line (256).
    pub const SLIP: ArpHardwareId = ArpHardwareId(256);

    /// `CAN`: Controller Area Network (280).
    pub const CAN: ArpHardwareId = ArpHardwareId(280);

    /// `PPP`: the Point-to-Point Protocol (512).
    pub const PPP: ArpHardwareId = ArpHardwareId(512);

    /// `HDLC`, also `CISCO`: Cisco's HDLC (513).
    pub const HDLC: ArpHardwareId = ArpHardwareId(513);

    /// `RAWIP`: IP packets without a link header (519).
    pub const RAWIP: ArpHardwareId = ArpHardwareId(519);

    /// `TUNNEL`: IPv4 in an IP tunnel (768).
    pub const TUNNEL: ArpHardwareId = ArpHardwareId(768);

    /// `TUNNEL6`: an IPv6 tunnel (769).
    pub const TUNNEL6: ArpHardwareId = ArpHardwareId(769);

    /// `FRAD`: a frame relay access device (770).
    pub const FRAD: ArpHardwareId = ArpHardwareId(770);

    /// `LOOPBACK`: the loopback device (772).
    pub const LOOPBACK: ArpHardwareId = ArpHardwareId(772);

    /// `FDDI`: the Fiber Distributed Data Interface (774).
    pub const FDDI: ArpHardwareId = ArpHardwareId(774);

    /// `SIT`: IPv6 in IPv4 (776).
    pub const SIT: ArpHardwareId = ArpHardwareId(776);

    /// `IPGRE`: GRE over IPv4 (778).
    pub const IPGRE: ArpHardwareId = ArpHardwareId(778);

    /// `IEEE80211`: IEEE 802.11 (801).
    pub const IEEE80211: ArpHardwareId = ArpHardwareId(801);

    /// `IEEE80211_PRISM`: IEEE 802.11 with a Prism header (802).
    pub const IEEE80211_PRISM: ArpHardwareId = ArpHardwareId(802);

    /// `IEEE80211_RADIOTAP`: IEEE 802.11 with a radiotap header (803).
    pub const IEEE80211_RADIOTAP: ArpHardwareId = ArpHardwareId(803);

    /// `IEEE802154`: IEEE 802.15.4 (804).
    pub const IEEE802154: ArpHardwareId = ArpHardwareId(804);

    /// `IP6GRE`: GRE over IPv6 (823).
    pub const IP6GRE: ArpHardwareId = ArpHardwareId(823);

    /// `NETLINK`: messages of Linux's netlink (824).
    pub const NETLINK: ArpHardwareId = ArpHardwareId(824);

    /// `6LOWPAN`: IPv6 over low-power wireless networks (825).
    pub const IPV6_LOWPAN: ArpHardwareId = ArpHardwareId(825);

    /// `VSOCKMON`: messages of virtual sockets (826).
    pub const VSOCKMON: ArpHardwareId = ArpHardwareId(826);

    /// `NONE`: a device without link headers (65534).
    pub const NONE: ArpHardwareId = ArpHardwareId(0xfffe);

    /// `VOID`: not known (65535).
    pub const VOID: ArpHardwareId = ArpHardwareId(0xffff);
}

// Numbers of IANA, and 0
const _: () = prove!(
    ArpHardwareId::NETROM.0 == 0
        && ArpHardwareId::ETHERNET.0 == 1
        && ArpHardwareId::EETHER.0 == 2
        && ArpHardwareId::AX25.0 == 3
        && ArpHardwareId::IEEE802.0 == 6
        && ArpHardwareId::ARCNET.0 == 7
        && ArpHardwareId::DLCI.0 == 15
        && ArpHardwareId::ATM.0 == 19
        && ArpHardwareId::IEEE1394.0 == 24
        && ArpHardwareId::EUI64.0 == 27
        && ArpHardwareId::INFINIBAND.0 == 32
);

// Linux's own numbers
const _: () = prove!(
    ArpHardwareId::SLIP.0 == 0x100
        && ArpHardwareId::CAN.0 == 0x118
        && ArpHardwareId::PPP.0 == 0x200
        && ArpHardwareId::HDLC.0 == 0x201
        && ArpHardwareId::RAWIP.0 == 0x207
        && ArpHardwareId::TUNNEL.0 == 0x300
        && ArpHardwareId::TUNNEL6.0 == 0x301
        && ArpHardwareId::FRAD.0 == 0x302
        && ArpHardwareId::LOOPBACK.0 == 0x304
        && ArpHardwareId::FDDI.0 == 0x306
        && ArpHardwareId::SIT.0 == 0x308
        && ArpHardwareId::IPGRE.0 == 0x30a
);

const _: () = prove!(
    ArpHardwareId::IEEE80211.0 == 0x321
        && ArpHardwareId::IEEE80211_PRISM.0 == 0x322
        && ArpHardwareId::IEEE80211_RADIOTAP.0 == 0x323
        && ArpHardwareId::IEEE802154.0 == 0x324
        && ArpHardwareId::IP6GRE.0 == 0x337
        && ArpHardwareId::NETLINK.0 == 0x338
        && ArpHardwareId::IPV6_LOWPAN.0 == 0x339
        && ArpHardwareId::VSOCKMON.0 == 0x33a
        && ArpHardwareId::NONE.0 == 0xfffe
        && ArpHardwareId::VOID.0 == 0xffff
);

impl From<u16> for ArpHardwareId {
    ghost from_gives = { λ number id. id ≡ number };

    fn from(value: u16) -> ArpHardwareId {
        ArpHardwareId(value)
    }
}

impl From<ArpHardwareId> for u16 {
    ghost from_gives = { λ id number. number ≡ id };

    fn from(value: ArpHardwareId) -> u16 {
        value.0
    }
}
