//! What an extension header of IPv6 has after its first two bytes.

ghost use Rattle.std.specs.Prelude.{ℕ, List, ◌≡◌, ◌↔◌, IsTrue, length};
ghost use Rattle.etherparse.specs.Bytes.{IsBytes};
ghost use Rattle.etherparse_net.specs.Ipv6ExtPayload.{IsExtPayloadLen, TakesExtPayload};

use crate::bytes::known_bytes;
use crate::err::ExtPayloadLenError;
use arrayvec::ArrayVec;
use std::marker::Model;

/// What an extension header of IPv6 has after its first two bytes: 6 to 2046 bytes, 6 more than a
/// multiple of 8 (RFC 8200 sections 4.3, 4.4 and 4.6).
///
/// # Example
///
/// ```
/// let payload = Ipv6ExtPayload::try_from([5, 2, 0, 0, 1, 0].as_slice())?;
/// assert!(rt; payload.as_slice() == [5, 2, 0, 0, 1, 0].as_slice());
/// let refused = Ipv6ExtPayload::try_from([0; 8].as_slice());
/// assert!(rt; refused == Err(ExtPayloadLenError::Unaligned(8)));
/// ```
#[derive(Clone, Debug, PartialEq, Eq, Hash, Drop)]
pub struct Ipv6ExtPayload {
    bytes: ArrayVec<u8, 2046>,
}

/// A contract sees the list of the bytes.
impl Model for Ipv6ExtPayload {
    ghost Value = { List ℕ };

    ghost view = { λ payload. payload.bytes.items };

    ghost invariant = { λ payload. IsExtPayloadLen (length payload.bytes.items) };

    ghost inverse = { λ bytes. record { bytes = record { items = bytes } } };
}

impl Ipv6ExtPayload {
    /// The least number of bytes: 6.
    pub const MIN_LEN: usize = 6;

    /// The greatest number of bytes: 2046.
    pub const MAX_LEN: usize = 2046;

    /// The bytes, 6 to 2046.
    pub fn as_slice(&self) -> &[u8]
        ensures value { result.now ≡ self.now }
        ensures payload_len { IsExtPayloadLen (length result.now) }
        ensures are_bytes { IsBytes result.now }
    {
        known_bytes(self.bytes.as_slice())
    }

    // The payload of these bytes.
    pub(crate) fn copy_of(bytes: &[u8]) -> Ipv6ExtPayload
        requires { IsExtPayloadLen (length bytes.now) }
        ensures value { result ≡ bytes.now }
    {
        let mut copy = ArrayVec::new();
        copy.try_extend_from_slice(bytes).unwrap();
        Ipv6ExtPayload { bytes: copy }
    }
}

const _: () = prove!(Ipv6ExtPayload::MIN_LEN == 6 && Ipv6ExtPayload::MAX_LEN == 2046);

/// The bytes of the slice.
///
/// # Errors
///
/// In this order: `TooSmall` if the slice has fewer than 6 bytes, `TooBig` if it has more than
/// 2046, `Unaligned` if their number is not 6 more than a multiple of 8.
impl TryFrom<&[u8]> for Ipv6ExtPayload {
    type Error = ExtPayloadLenError;

    ghost try_from_gives = { λ bytes result. TakesExtPayload bytes.now result };

    fn try_from(value: &[u8]) -> Result<Ipv6ExtPayload, ExtPayloadLenError> {
        let len = value.len();
        if len < Ipv6ExtPayload::MIN_LEN {
            return Err(ExtPayloadLenError::TooSmall(len));
        }
        if len > Ipv6ExtPayload::MAX_LEN {
            return Err(ExtPayloadLenError::TooBig(len));
        }
        if len % 8 != 6 {
            return Err(ExtPayloadLenError::Unaligned(len));
        }
        Ok(Ipv6ExtPayload::copy_of(value))
    }
}
