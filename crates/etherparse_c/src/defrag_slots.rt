//! The slots of a pool, lent for good.

use packet_reassembly::ip_defrag_pool::{IpDefragPool, IpDefragSlot};
use std::marker::Model;

/// A pool over slots that the caller lends for good. A contract sees the slots, and how long a
/// datagram is kept.
#[derive(Drop)]
pub struct Slots {
    pub(crate) pool: IpDefragPool<'static, 'static>,
}

impl Model for Slots {
    ghost use Rattle.c_answers.specs.DefragSlots.{Slots};

    ghost Value = { Slots };

    ghost view = { λ s. record { slots = s.pool.slots.now; timeout = s.pool.timeout } };
}

impl Slots {
    ghost use Rattle.std.specs.Prelude.{◌≡◌};

    pub(crate) fn new(slots: &'static mut [IpDefragSlot<'static>], timeout: u64) -> Slots
        ensures value { result ≡ record { slots = slots.old; timeout = timeout } }
    {
        Slots {
            pool: IpDefragPool { slots, timeout },
        }
    }
}
