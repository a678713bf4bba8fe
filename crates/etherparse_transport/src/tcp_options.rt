//! The options of a TCP header, as bytes.

ghost use Rattle.std.specs.Prelude.{ℕ, ◌≡◌, ◌≤◌, ◌↔◌, List, [], IfErr, IfOk, IsOk, IsTrue};
ghost use Rattle.std.specs.Prelude.{length, take};
ghost use Rattle.etherparse.specs.Bytes.{IsBytes};
ghost use Rattle.etherparse.specs.Ipv4Options.{IsOptionsLen};
ghost use Rattle.etherparse_transport.specs.TcpPadding.{IsPadded};

mod elements;

use crate::TcpOptionWriteError;
use etherparse::Ipv4Options;
use std::marker::Model;

/// The options of a TCP header with their padding (RFC 9293 section 3.1): 0 to 40 bytes, in words
/// of 4.
///
/// # Example
///
/// ```
/// // A maximum segment size of 1460 bytes, a no-operation and a window scale of 7: the zero after
/// // them fills up the word.
/// let options = TcpOptions::try_from_slice(&[2, 4, 0x05, 0xb4, 1, 3, 3])?;
/// assert!(rt; options.as_slice() == [2, 4, 0x05, 0xb4, 1, 3, 3, 0].as_slice());
/// let refused = TcpOptions::try_from_slice(&[1; 41]);
/// assert!(rt; refused == Err(TcpOptionWriteError::NotEnoughSpace(41)));
/// ```
#[derive(Clone, Debug, PartialEq, Eq, Hash, Drop)]
pub struct TcpOptions {
    // In an IPv4 header options have the same lengths.
    bytes: Ipv4Options,
}

/// A contract sees the list of the bytes.
impl Model for TcpOptions {
    ghost Value = { List ℕ };

    ghost view = { λ options. options.bytes };

    ghost inverse = { λ bytes. record { bytes = bytes } };
}

impl TcpOptions {
    /// The greatest number of bytes: 40.
    pub const MAX_LEN: usize = 40;

    /// Options of zero bytes.
    #[inline]
    pub fn new() -> TcpOptions
        ensures empty { result ≡ [] }
    {
        TcpOptions {
            bytes: Ipv4Options::new(),
        }
    }

    /// The options that these bytes are. Up to a multiple of 4 they are filled up with zeros, of
    /// which the first is End of Option List; whether the bytes are options is not tested.
    ///
    /// # Errors
    ///
    /// `NotEnoughSpace` with the number of bytes if that is more than 40.
    pub fn try_from_slice(slice: &[u8]) -> Result<TcpOptions, TcpOptionWriteError>
        ensures accepted { IsOk result ↔ (length slice.now ≤ 40) }
        ensures refused { IfErr result (λ e.
            e ≡ TcpOptionWriteError.NotEnoughSpace (length slice.now)) }
        ensures padded { IfOk result (IsPadded slice.now) }
    {
        let len = slice.len();
        if len > TcpOptions::MAX_LEN {
            return Err(TcpOptionWriteError::NotEnoughSpace(len));
        }
        let mut room = [0; 40];
        room[..len].copy_from_slice(slice);
        Ok(TcpOptions::from_front(&room, (len + 3) / 4 * 4))
    }

    // The options in the first `len` bytes. Copying 40, a number that the compiler knows, is faster
    // than copying `len`.
    #[inline(always)]
    pub(crate) fn from_front(bytes: &[u8; 40], len: usize) -> TcpOptions
        requires { IsOptionsLen len }
        ensures value { result ≡ take len bytes.now }
    {
        TcpOptions {
            bytes: Ipv4Options::from_front(bytes, len),
        }
    }

    // The options that a header has.
    #[inline]
    pub(crate) fn copy_of(bytes: &[u8]) -> TcpOptions
        requires { IsOptionsLen (length bytes.now) }
        ensures value { result ≡ bytes.now }
    {
        TcpOptions {
            bytes: Ipv4Options::try_from(bytes).unwrap(),
        }
    }

    /// The bytes with their padding.
    #[inline]
    pub fn as_slice(&self) -> &[u8]
        ensures value { result.now ≡ self.now }
        ensures options_len { IsOptionsLen (length result.now) }
        ensures are_bytes { IsBytes result.now }
    {
        self.bytes.as_slice()
    }

    /// The number of bytes with the padding.
    #[inline]
    pub fn len(&self) -> usize
        ensures value { result ≡ length self.now }
        ensures options_len { IsOptionsLen result }
    {
        self.bytes.len()
    }

    /// The number of bytes with the padding.
    #[inline]
    pub fn len_u8(&self) -> u8
        ensures value { result ≡ length self.now }
        ensures options_len { IsOptionsLen result }
    {
        self.bytes.len_u8()
    }

    /// Whether there are no bytes.
    #[inline]
    pub fn is_empty(&self) -> bool
        ensures empty { IsTrue result ↔ (self.now ≡ []) }
    {
        self.bytes.is_empty()
    }
}

const _: () = prove!(TcpOptions::MAX_LEN == 40);

/// Options of zero bytes.
impl Default for TcpOptions {
    ghost is_default = { λ options. options ≡ [] };

    #[inline]
    fn default() -> TcpOptions {
        TcpOptions::new()
    }
}
