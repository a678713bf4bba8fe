//! The IP packet of a frame and its transport header.

ghost use Rattle.std.specs.Prelude.{ℕ, ◌≡◌, ◌+◌, ◌≤◌, ◌<◌, ◌^◌, length};
ghost use Rattle.packet.specs.Network.{HasNetwork};

use crate::error::{SliceError, ip_error_moved};
use crate::transport::{TransportSlice, transport_of};
use packet_parts::ip_slice::{IpSlice, LaxIpSlice};

// The IP packet of a frame and its transport header, and why they are not read further.
#[derive(Drop)]
pub(crate) struct Network<'a> {
    pub net: Option<IpSlice<'a>>,
    pub transport: Option<TransportSlice<'a>>,
    pub stop: Option<SliceError>,
}

// The IP packet at a place in a frame and its transport header, as far as they can be read.
#[inline(always)] // The caller has its parts in registers.
#[tactic(auto, using(crate::proofs::Places::error_within, crate::proofs::Places::header_within))]
pub(crate) fn network_at(place: usize, packet: &[u8]) -> Network
    requires fits { place + length packet.now < 2 ^ 63 }
    ensures layers { HasNetwork place packet.now result.net result.transport result.stop }
{
    let lax = match LaxIpSlice::from_slice(packet) {
        Ok(lax) => lax,
        Err(e) => return Network {
            net: None,
            transport: None,
            stop: Some(SliceError::Ip(ip_error_moved(place, e))),
        },
    };
    let slice = lax.slice;
    let (transport, missing) = transport_of(place + slice.header_len(), &slice);
    match lax.stop {
        None => Network {
            net: Some(slice),
            transport,
            stop: missing,
        },
        Some(e) => Network {
            net: Some(slice),
            transport,
            stop: Some(SliceError::Ip(ip_error_moved(place, e))),
        },
    }
}
