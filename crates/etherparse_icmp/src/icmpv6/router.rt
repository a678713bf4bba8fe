//! What a router says of itself (RFC 4861 section 4.2).

/// The fields of a router advertisement of ICMPv6 in bytes 4 to 7 (RFC 4861 section 4.2). Two times
/// and options follow the header.
///
/// ```text
///  4               5               6               7
/// +---------------+-+-+-----------+-------------------------------+
/// | cur hop limit |M|O| reserved  |        router lifetime        |
/// +---------------+-+-+-----------+-------------------------------+
/// ```
///
/// The reserved bits are read whatever they are, and written as 0; so what later RFCs put there is
/// lost, such as the preference of a router (RFC 4191).
///
/// # Example
///
/// ```
/// // From fe80::1 to all nodes: a default router for half an hour, and O.
/// let bytes = [134, 0, 0x34, 0xe7, 64, 0x40, 7, 8, 0, 0, 0, 0, 0, 0, 0, 0];
/// let (header, _) = Icmpv6Header::from_slice(&bytes)?;
/// let router = RouterAdvertisementHeader {
///     cur_hop_limit: 64,
///     managed_address_config: false,
///     other_config: true,
///     router_lifetime: 1800,
/// };
/// assert!(rt; header.icmp_type == Icmpv6Type::RouterAdvertisement(router));
/// ```
#[derive(Clone, Copy, Debug, PartialEq, Eq)]
pub struct RouterAdvertisementHeader {
    /// Byte 4: the hop limit that hosts should give their packets; 0 if the router says none.
    pub cur_hop_limit: u8,
    /// M, the highest bit of byte 5: DHCPv6 gives addresses, and all other configuration.
    pub managed_address_config: bool,
    /// O, the next bit: DHCPv6 gives other configuration, such as the addresses of name servers.
    pub other_config: bool,
    /// Bytes 6 and 7: for how many seconds the router can be a default router; 0 if it is none.
    pub router_lifetime: u16,
}

impl RouterAdvertisementHeader {
    ghost use Rattle.std.specs.Prelude.{◌≡◌};
    ghost use Rattle.etherparse_icmp.specs.Advertisements.{HasRouterAdvertisement};
    ghost use Rattle.etherparse_icmp.specs.Advertisements.{router_advertisement_cleared};

    // The fields in these 4 bytes.
    pub(crate) fn from_bytes(bytes: [u8; 4]) -> RouterAdvertisementHeader
        ensures fields { HasRouterAdvertisement result bytes }
    {
        let [cur_hop_limit, flags, c, d] = bytes;
        RouterAdvertisementHeader {
            cur_hop_limit,
            managed_address_config: flags / 128 == 1,
            other_config: flags / 64 % 2 == 1,
            router_lifetime: u16::from_be_bytes([c, d]),
        }
    }

    // The 4 bytes, with the reserved bits 0.
    pub(crate) fn to_bytes(self) -> [u8; 4]
        ensures fields { HasRouterAdvertisement self result }
        ensures unused { result ≡ router_advertisement_cleared result }
    {
        let flags = 128 * u8::from(self.managed_address_config) + 64 * u8::from(self.other_config);
        let [c, d] = self.router_lifetime.to_be_bytes();
        [self.cur_hop_limit, flags, c, d]
    }
}
