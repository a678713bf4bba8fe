//! The length of an IPv4 payload, for an owned header and for a view.

ghost use Rattle.std.specs.Prelude.{◌≡◌, ◌+◌, ◌<◌, IfErr, IfOk};
ghost use Rattle.etherparse.specs.Ipv4Header.{payload_len_of};

use crate::LenSource;
use crate::err::{Layer, LenError};

// The length of a payload, from the lengths of the header and of the packet.
#[inline]
pub(super) fn payload_len_between(header_len: u16, total_len: u16) -> Result<u16, LenError>
    ensures value { result ≡ payload_len_of header_len total_len }
    ensures of_total { IfOk result (λ len. header_len + len ≡ total_len) }
    ensures short { IfErr result (λ e. total_len < header_len) }
{
    if header_len <= total_len {
        Ok(total_len - header_len)
    } else {
        Err(LenError {
            required_len: usize::from(header_len),
            len: usize::from(total_len),
            len_source: LenSource::Ipv4HeaderTotalLen,
            layer: Layer::Ipv4Packet,
            layer_start_offset: 0,
        })
    }
}
