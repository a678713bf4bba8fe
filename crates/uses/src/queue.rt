//! A router with queues: a packet is served by its class.

ghost use Rattle.std.specs.Prelude.{◌≡◌};
ghost use Rattle.etherparse.specs.IpDscpKnown.{IsUnknown, code_point_of};
ghost use Rattle.etherparse.specs.declared.IpDscpKnown.{IpDscpKnown as Known};
ghost use Rattle.uses.specs.Queue.{queue_for};

use etherparse::{IpDscp, IpDscpKnown};

/// When a packet is served.
#[derive(Clone, Copy)]
pub enum Queue {
    /// Ahead of all others.
    First,
    /// With most others.
    Usual,
    /// When nothing else waits.
    Last,
}

/// The queue of a packet with this code point. An unknown code point is served as most are (RFC
/// 2474 section 3).
pub fn queue_of(dscp: IpDscp) -> Queue
    ensures known { (known : Known) → code_point_of known ≡ dscp → result ≡ queue_for known }
    ensures unknown { IsUnknown dscp → result ≡ Queue.Usual }
{
    match IpDscpKnown::try_from_ip_dscp(dscp) {
        Ok(known) => queue_of_known(known),
        Err(_) => Queue::Usual,
    }
}

fn queue_of_known(known: IpDscpKnown) -> Queue
    ensures value { result ≡ queue_for known }
{
    match known {
        IpDscpKnown::ExpeditedForwarding | IpDscpKnown::VoiceAdmit => Queue::First,
        IpDscpKnown::LowerEffort => Queue::Last,
        _ => Queue::Usual,
    }
}
