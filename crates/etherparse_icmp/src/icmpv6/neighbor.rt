//! What a neighbor says of itself (RFC 4861 section 4.4).

/// The flags of a neighbor advertisement of ICMPv6, in byte 4 (RFC 4861 section 4.4). The target's
/// address and options follow the header.
///
/// ```text
///  4               5               6               7
/// +-+-+-+---------------------------------------------------------+
/// |R|S|O|                         reserved                        |
/// +-+-+-+---------------------------------------------------------+
/// ```
///
/// The reserved bits are read whatever they are, and written as 0.
///
/// # Example
///
/// ```
/// // From 2001:db8::2, which tells 2001:db8::1 of itself: S and O.
/// let bytes = [
///     136, 0, 0x8e, 0x7c, 0x60, 0, 0, 0, 0x20, 1, 0x0d, 0xb8, 0, 0, 0, 0, 0, 0, 0, 0, 0, 0, 0, 2,
/// ];
/// let (header, _) = Icmpv6Header::from_slice(&bytes)?;
/// let neighbor = NeighborAdvertisementHeader {
///     router: false,
///     solicited: true,
///     override_flag: true,
/// };
/// assert!(rt; header.icmp_type == Icmpv6Type::NeighborAdvertisement(neighbor));
/// ```
#[derive(Clone, Copy, Debug, PartialEq, Eq)]
pub struct NeighborAdvertisementHeader {
    /// R, the highest bit of byte 4: the sender is a router.
    pub router: bool,
    /// S, the next bit: it answers a solicitation.
    pub solicited: bool,
    /// O, the next bit: it is to override an entry that the receiver has for the target.
    pub override_flag: bool,
}

impl NeighborAdvertisementHeader {
    ghost use Rattle.std.specs.Prelude.{◌≡◌};
    ghost use Rattle.etherparse_icmp.specs.Advertisements.{HasNeighborAdvertisement};
    ghost use Rattle.etherparse_icmp.specs.Advertisements.{neighbor_advertisement_cleared};

    // The flags in these 4 bytes.
    pub(crate) fn from_bytes(bytes: [u8; 4]) -> NeighborAdvertisementHeader
        ensures flags { HasNeighborAdvertisement result bytes }
    {
        let flags = bytes[0];
        NeighborAdvertisementHeader {
            router: flags / 128 == 1,
            solicited: flags / 64 % 2 == 1,
            override_flag: flags / 32 % 2 == 1,
        }
    }

    // The 4 bytes, with the reserved bits 0.
    pub(crate) fn to_bytes(self) -> [u8; 4]
        ensures flags { HasNeighborAdvertisement self result }
        ensures unused { result ≡ neighbor_advertisement_cleared result }
    {
        let (router, solicited) = (u8::from(self.router), u8::from(self.solicited));
        let flags = 128 * router + 64 * solicited + 32 * u8::from(self.override_flag);
        [flags, 0, 0, 0]
    }
}
