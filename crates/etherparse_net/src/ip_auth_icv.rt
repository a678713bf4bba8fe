//! The integrity check value of an authentication header.

ghost use Rattle.std.specs.Prelude.{ℕ, List, ◌≡◌, length};
ghost use Rattle.etherparse.specs.Bytes.{IsBytes};
ghost use Rattle.etherparse_net.specs.IpAuthIcv.{IsIcvLen, TakesIcv};

use crate::bytes::known_bytes;
use crate::err::IcvLenError;
use arrayvec::ArrayVec;
use std::marker::Model;

/// The integrity check value of an authentication header: 0 to 1016 bytes, in words of 4 (RFC 4302
/// section 2.6). In IPv6 it has 4 bytes more than a multiple of 8, which is not tested.
///
/// # Example
///
/// ```
/// // A value of 96 bits, as HMAC-SHA-1-96 has (RFC 2404).
/// let icv = IpAuthIcv::try_from([7; 12].as_slice())?;
/// assert!(rt; icv.as_slice() == [7; 12].as_slice());
/// let refused = IpAuthIcv::try_from([7; 13].as_slice());
/// assert!(rt; refused == Err(IcvLenError::Unaligned(13)));
/// ```
#[derive(Clone, Debug, PartialEq, Eq, Hash, Drop)]
pub struct IpAuthIcv {
    bytes: ArrayVec<u8, 1016>,
}

/// A contract sees the list of the bytes.
impl Model for IpAuthIcv {
    ghost Value = { List ℕ };

    ghost view = { λ icv. icv.bytes.items };

    ghost invariant = { λ icv. IsIcvLen (length icv.bytes.items) };

    ghost inverse = { λ bytes. record { bytes = record { items = bytes } } };
}

impl IpAuthIcv {
    /// The greatest number of bytes: 1016.
    pub const MAX_LEN: usize = 1016;

    /// The bytes, 0 to 1016.
    pub fn as_slice(&self) -> &[u8]
        ensures value { result.now ≡ self.now }
        ensures icv_len { IsIcvLen (length result.now) }
        ensures are_bytes { IsBytes result.now }
    {
        known_bytes(self.bytes.as_slice())
    }

    // The value of these bytes.
    pub(crate) fn copy_of(bytes: &[u8]) -> IpAuthIcv
        requires { IsIcvLen (length bytes.now) }
        ensures value { result ≡ bytes.now }
    {
        let mut copy = ArrayVec::new();
        copy.try_extend_from_slice(bytes).unwrap();
        IpAuthIcv { bytes: copy }
    }
}

const _: () = prove!(IpAuthIcv::MAX_LEN == 1016);

/// The bytes of the slice.
///
/// # Errors
///
/// In this order: `TooBig` if the slice has more than 1016 bytes, `Unaligned` if their number is
/// not a multiple of 4.
impl TryFrom<&[u8]> for IpAuthIcv {
    type Error = IcvLenError;

    ghost try_from_gives = { λ bytes result. TakesIcv bytes.now result };

    fn try_from(value: &[u8]) -> Result<IpAuthIcv, IcvLenError> {
        let len = value.len();
        if len > IpAuthIcv::MAX_LEN {
            return Err(IcvLenError::TooBig(len));
        }
        if len % 4 != 0 {
            return Err(IcvLenError::Unaligned(len));
        }
        Ok(IpAuthIcv::copy_of(value))
    }
}
