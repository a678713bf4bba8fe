//! What an ARP packet asks or tells.

ghost use Rattle.std.specs.Prelude.{ℕ, ◌≡◌};

use std::marker::Model;

/// What an ARP packet asks or tells (RFC 826, `ar$op`). Any number can be made, as in
/// `ArpOperation(8)`; IANA's registry of ARP parameters has the others.
///
/// Equality, order and hash are those of the number.
///
/// # Example
///
/// ```
/// assert!(rt; ArpOperation(1) == ArpOperation::REQUEST);
/// assert!(rt; ArpOperation::REPLY.0 == 2);
/// ```
#[derive(Clone, Copy, Debug, PartialEq, Eq, PartialOrd, Ord, Hash)]
pub struct ArpOperation(pub u16);

/// A contract sees the number itself.
impl Model for ArpOperation {
    ghost Value = { ℕ };

    ghost view = { λ operation. operation.0 };

    ghost inverse = { λ number. record { 0 = number } };
}

impl ArpOperation {
    /// Asks for the hardware address of a protocol address (RFC 826, `ares_op$REQUEST`).
    pub const REQUEST: ArpOperation = ArpOperation(1);

    /// Tells it (RFC 826, `ares_op$REPLY`).
    pub const REPLY: ArpOperation = ArpOperation(2);
}

const _: () = prove!(ArpOperation::REQUEST.0 == 1 && ArpOperation::REPLY.0 == 2);

impl From<u16> for ArpOperation {
    ghost from_gives = { λ number operation. operation ≡ number };

    fn from(value: u16) -> ArpOperation {
        ArpOperation(value)
    }
}

impl From<ArpOperation> for u16 {
    ghost from_gives = { λ operation number. number ≡ operation };

    fn from(value: ArpOperation) -> u16 {
        value.0
    }
}
