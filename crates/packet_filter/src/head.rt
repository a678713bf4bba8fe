//! The words of a primitive up to its value.

use crate::expression::{Direction, Network, Transport, Version};

/// What a value is about.
#[derive(Clone, Copy)]
pub(crate) enum Head {
    /// `host`, or a direction alone: an address.
    Host(Option<Network>, Option<Direction>),
    /// `net`: an address and how many of its bits count.
    Net(Option<Network>, Option<Direction>),
    /// `port`.
    Port(Option<Transport>, Option<Direction>),
    /// `portrange`.
    PortRange(Option<Transport>, Option<Direction>),
    /// `proto`: the number of IP's payload.
    Proto(Option<Version>),
    /// `ether host`, or `ether` and a direction: an Ethernet address.
    Ether(Option<Direction>),
    /// `ether proto`: an EtherType.
    EtherProto,
}
