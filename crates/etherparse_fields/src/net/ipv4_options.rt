ghost use Rattle.std.specs.Prelude.{ℕ, List, [], ⊤, ◌≡◌, ◌↔◌, Ok, Some, IsTrue};
ghost use Rattle.std.specs.Prelude.{length, nat_eq, refl, take};
ghost use Rattle.std.specs.Ordering.{nat_cmp};
ghost use Rattle.std.specs.Cmp.{partial_equiv_from_equiv};
ghost use Rattle.std.specs.Cmp.Lexicographic.{pointwise, slice_cmp};
ghost use Rattle.std.specs.Cmp.Lexicographic.{nat_list_cmp_total, nat_list_eq_equiv};
ghost use Rattle.std.specs.Cmp.Lexicographic.{texts_po, texts_ties};
ghost use Rattle.std.specs.Cmp.Rules.{hashing};
ghost use Rattle.std.specs.Fmt.{debug_list, decimal};
ghost use Rattle.std.specs.Hash as fed;
ghost use Rattle.std.proofs.Common.{rules};
ghost use Rattle.etherparse_base.specs.Bytes.{IsBytes};
ghost use Rattle.etherparse_fields.specs.Ipv4Options.{IsOptionsLen, TakesOptions};

mod buffer;

use buffer::{Buffer, front};
use etherparse_base::err::ipv4::BadOptionsLen;
use std::alloc::AllocError;
use std::cmp::Ordering;
use std::fmt;
use std::hash::{Hash, Hasher};
use std::marker::Model;

/// The options of an IPv4 header (RFC 791 section 3.1): 0 to 40 bytes, in words of 4.
///
/// # Example
///
/// ```
/// // A router alert (RFC 2113), from an array and from a slice.
/// let alert = Ipv4Options::from([148, 4, 0, 0]);
/// let options = Ipv4Options::try_from([148, 4, 0, 0].as_slice())?;
/// assert!(rt; options == alert);
/// let refused = Ipv4Options::try_from([1, 1, 0].as_slice());
/// assert!(rt; refused == Err(BadOptionsLen { bad_len: 3 }));
/// ```
#[derive(Drop)]
pub struct Ipv4Options {
    // Two bytes, so that in a header the buffer begins on a multiple of four: the compiler then
    // keeps each word of the options whole. With one byte it cut words and joined them in memory.
    len: u16,
    buffer: Buffer,
}

/// A contract sees the list of the bytes.
impl Model for Ipv4Options {
    ghost Value = { List ℕ };

    ghost view = { λ options. take options.len options.buffer.bytes };

    ghost invariant = { λ options. IsOptionsLen options.len };
}

impl Ipv4Options {
    ghost use Rattle.std.specs.Borrow.{sem};
    ghost use Rattle.etherparse_fields.specs.Ipv4OptionsLends.{LendsBytes};

    /// The greatest number of bytes: 40.
    pub const MAX_LEN: u8 = 40;

    /// Options of zero bytes.
    #[inline]
    pub fn new() -> Ipv4Options
        ensures empty { result ≡ [] }
    {
        Ipv4Options {
            len: 0,
            buffer: Buffer { bytes: [0; 40] },
        }
    }

    /// The options in the first `len` bytes of an array. `len` has to be at most 40 and a multiple
    /// of 4. What follows them in the array is not part of them.
    ///
    /// The Rust crate has no such call. Copying 40 bytes, a number that the compiler knows, is
    /// faster than copying `len`.
    ///
    /// # Example
    ///
    /// ```
    /// // A router alert (RFC 2113), and 36 bytes that are no part of it.
    /// let mut room = [7; 40];
    /// [room[0], room[1], room[2], room[3]] = [148, 4, 0, 0];
    /// let options = Ipv4Options::from_front(&room, 4);
    /// assert!(rt; options == Ipv4Options::from([148, 4, 0, 0]));
    /// ```
    #[inline(always)]
    pub fn from_front(bytes: &[u8; 40], len: usize) -> Ipv4Options
        requires { IsOptionsLen len }
        ensures value { result ≡ take len bytes.now }
    {
        Ipv4Options {
            len: len as u16,
            buffer: Buffer { bytes: *bytes },
        }
    }

    /// The bytes.
    #[inline]
    pub fn as_slice(&self) -> &[u8]
        ensures value { result.now ≡ self.now }
        ensures options_len { IsOptionsLen (length result.now) }
        ensures are_bytes { IsBytes result.now }
    {
        front(&self.buffer.bytes, usize::from(self.len))
    }

    /// The bytes, for writing. Their number stays the same.
    #[inline]
    pub fn as_mut_slice(&mut self) -> &mut [u8]
        ensures* writes_back { sem 𝓛 (LendsBytes self.entry result) }
        ensures value { result.now ≡ self.old }
    {
        let len = usize::from(self.len);
        self.buffer.front_mut(len)
    }

    /// The number of bytes.
    #[inline]
    pub fn len(&self) -> usize
        ensures value { result ≡ length self.now }
        ensures options_len { IsOptionsLen result }
    {
        self.as_slice().len()
    }

    /// The number of bytes.
    #[inline]
    pub fn len_u8(&self) -> u8
        ensures value { result ≡ length self.now }
        ensures options_len { IsOptionsLen result }
    {
        self.len() as u8
    }

    /// Whether there are no bytes.
    #[inline]
    pub fn is_empty(&self) -> bool
        ensures empty { IsTrue result ↔ (self.now ≡ []) }
    {
        self.as_slice().is_empty()
    }

    // The options of these bytes.
    #[inline]
    fn copy_of(bytes: &[u8]) -> Ipv4Options
        requires { IsOptionsLen (length bytes.now) }
        ensures value { result ≡ bytes.now }
    {
        let mut buffer = Buffer { bytes: [0; 40] };
        buffer.front_mut(bytes.len()).copy_from_slice(bytes);
        Ipv4Options {
            len: bytes.len() as u16,
            buffer,
        }
    }
}

const _: () = prove!(Ipv4Options::MAX_LEN == 40u8);

/// The bytes of the slice.
///
/// # Errors
///
/// A `BadOptionsLen` if the slice has more than 40 bytes, or a number of bytes that is not a
/// multiple of 4.
impl TryFrom<&[u8]> for Ipv4Options {
    type Error = BadOptionsLen;

    ghost try_from_gives = { λ bytes result. TakesOptions bytes.now result };

    #[inline]
    fn try_from(value: &[u8]) -> Result<Ipv4Options, BadOptionsLen> {
        let len = value.len();
        if len <= usize::from(Ipv4Options::MAX_LEN) && len % 4 == 0 {
            Ok(Ipv4Options::copy_of(value))
        } else {
            Err(BadOptionsLen { bad_len: len })
        }
    }
}

/// Options of zero bytes.
impl Default for Ipv4Options {
    ghost is_default = { λ options. options ≡ [] };

    #[inline]
    fn default() -> Ipv4Options {
        Ipv4Options::new()
    }
}

impl Clone for Ipv4Options {
    ghost is_clone = { λ options copy. copy ≡ options };

    ghost is_infallible = { λ _. ⊤ };

    #[inline]
    fn clone(&self) -> Result<Ipv4Options, AllocError>
        ensures same_bytes { result ≡ Ok self.now }
    {
        Ok(Ipv4Options {
            len: self.len,
            buffer: self.buffer,
        })
    }
}

/// Writes the bytes as a list.
impl fmt::Debug for Ipv4Options {
    ghost debug_output = { debug_list (λ byte. Some (decimal byte)) };

    fn fmt<W: fmt::Write>(&self, f: &mut fmt::Formatter<W>) -> fmt::Result {
        fmt::Debug::fmt(&self.as_slice(), f)
    }
}

/// Options are equal if their bytes are.
impl PartialEq for Ipv4Options {
    ghost eq = { pointwise nat_eq };

    ghost laws = { partial_equiv_from_equiv nat_list_eq_equiv };

    fn eq(&self, other: &Ipv4Options) -> bool
        ensures same_bytes { IsTrue result ↔ (self.now ≡ other.now) }
    {
        self.as_slice() == other.as_slice()
    }
}

impl Eq for Ipv4Options {
    ghost laws = { nat_list_eq_equiv };
}

impl Hash for Ipv4Options {
    ghost hash_input = { fed.slice fed.u8 };

    ghost respects_eq = { Prim.search (hashing, rules) };

    fn hash<H: Hasher>(&self, state: &mut H) {
        self.as_slice().hash(state);
    }
}

/// Any two options have an order, that of `cmp`.
impl PartialOrd for Ipv4Options {
    ghost partial_cmp = { λ options other. Some (slice_cmp nat_cmp options other) };

    ghost laws = { texts_po };

    fn partial_cmp(&self, other: &Ipv4Options) -> Option<Ordering> {
        Some(self.cmp(other))
    }
}

/// The order of lists: the first byte in which two differ decides, and a prefix is less than the
/// whole.
impl Ord for Ipv4Options {
    ghost cmp = { slice_cmp nat_cmp };

    ghost total = { nat_list_cmp_total };

    ghost matches_partial_cmp = { λ options other. refl };

    ghost matches_eq = { texts_ties };

    fn cmp(&self, other: &Ipv4Options) -> Ordering
        ensures order { result ≡ slice_cmp nat_cmp self.now other.now }
    {
        self.as_slice().cmp(&other.as_slice())
    }
}

impl From<[u8; 0]> for Ipv4Options {
    ghost from_gives = { λ bytes options. options ≡ bytes };

    #[inline]
    fn from(values: [u8; 0]) -> Ipv4Options {
        Ipv4Options::copy_of(&values)
    }
}

impl From<[u8; 4]> for Ipv4Options {
    ghost from_gives = { λ bytes options. options ≡ bytes };

    #[inline]
    fn from(values: [u8; 4]) -> Ipv4Options {
        Ipv4Options::copy_of(&values)
    }
}

impl From<[u8; 8]> for Ipv4Options {
    ghost from_gives = { λ bytes options. options ≡ bytes };

    #[inline]
    fn from(values: [u8; 8]) -> Ipv4Options {
        Ipv4Options::copy_of(&values)
    }
}

impl From<[u8; 12]> for Ipv4Options {
    ghost from_gives = { λ bytes options. options ≡ bytes };

    #[inline]
    fn from(values: [u8; 12]) -> Ipv4Options {
        Ipv4Options::copy_of(&values)
    }
}

impl From<[u8; 16]> for Ipv4Options {
    ghost from_gives = { λ bytes options. options ≡ bytes };

    #[inline]
    fn from(values: [u8; 16]) -> Ipv4Options {
        Ipv4Options::copy_of(&values)
    }
}

impl From<[u8; 20]> for Ipv4Options {
    ghost from_gives = { λ bytes options. options ≡ bytes };

    #[inline]
    fn from(values: [u8; 20]) -> Ipv4Options {
        Ipv4Options::copy_of(&values)
    }
}

impl From<[u8; 24]> for Ipv4Options {
    ghost from_gives = { λ bytes options. options ≡ bytes };

    #[inline]
    fn from(values: [u8; 24]) -> Ipv4Options {
        Ipv4Options::copy_of(&values)
    }
}

impl From<[u8; 28]> for Ipv4Options {
    ghost from_gives = { λ bytes options. options ≡ bytes };

    #[inline]
    fn from(values: [u8; 28]) -> Ipv4Options {
        Ipv4Options::copy_of(&values)
    }
}

impl From<[u8; 32]> for Ipv4Options {
    ghost from_gives = { λ bytes options. options ≡ bytes };

    #[inline]
    fn from(values: [u8; 32]) -> Ipv4Options {
        Ipv4Options::copy_of(&values)
    }
}

impl From<[u8; 36]> for Ipv4Options {
    ghost from_gives = { λ bytes options. options ≡ bytes };

    #[inline]
    fn from(values: [u8; 36]) -> Ipv4Options {
        Ipv4Options::copy_of(&values)
    }
}

impl From<[u8; 40]> for Ipv4Options {
    ghost from_gives = { λ bytes options. options ≡ bytes };

    #[inline]
    fn from(values: [u8; 40]) -> Ipv4Options {
        Ipv4Options::copy_of(&values)
    }
}
