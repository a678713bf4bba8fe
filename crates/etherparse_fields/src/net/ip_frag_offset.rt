ghost use Rattle.std.specs.Prelude.{ℕ, ◌≡◌, ◌*◌, ◌≤◌, Some};
ghost use Rattle.std.specs.Fmt.{decimal, styled_decimal};
ghost use Rattle.etherparse_base.specs.ValueTooBigError.{TakesUpTo};
ghost use Rattle.etherparse_base.specs.declared.err.value_type.ValueType.TheVariants as value_type;
ghost use Rattle.etherparse_fields.specs.declared.net.ip_frag_offset.TheConstants.IpFragOffset.{MAX_U16};

use etherparse_base::err::{ValueTooBigError, ValueType};
use std::fmt;
use std::marker::Model;

/// The fragment offset of an IP header, a number of 13 bits: where the payload of a fragment begins
/// in the original payload, in units of 8 bytes (RFC 791 section 3.1, RFC 8200 section 4.5).
///
/// Equality, order and hash are those of the number.
#[derive(Clone, Copy, Debug, PartialEq, Eq, PartialOrd, Ord, Hash)]
pub struct IpFragOffset(u16);

/// A contract sees the number itself.
impl Model for IpFragOffset {
    ghost Value = { ℕ };

    ghost view = { λ offset. offset.0 };

    ghost invariant = { λ offset. offset.0 ≤ MAX_U16 };

    ghost inverse = { λ number. record { 0 = number } };
}

impl IpFragOffset {
    /// The offset 0, of a first or only fragment.
    pub const ZERO: IpFragOffset = IpFragOffset(0);

    /// The greatest offset, as a number: 8191.
    pub const MAX_U16: u16 = 0x1fff;

    /// The offset of a number of 8-byte units.
    ///
    /// # Errors
    ///
    /// A `ValueTooBigError` if the number needs more than 13 bits, that is, if it is above
    /// [`IpFragOffset::MAX_U16`].
    ///
    /// # Example
    ///
    /// ```
    /// let offset = IpFragOffset::try_new(185)?;
    /// assert!(rt; offset.byte_offset() == 1480);
    /// ```
    #[inline]
    pub const fn try_new(value: u16) -> Result<IpFragOffset, ValueTooBigError<u16>>
        ensures answer { TakesUpTo (λ offset. offset) MAX_U16 value_type.IpFragmentOffset value
            result }
    {
        if value <= IpFragOffset::MAX_U16 {
            Ok(IpFragOffset(value))
        } else {
            Err(ValueTooBigError {
                actual: value,
                max_allowed: IpFragOffset::MAX_U16,
                value_type: ValueType::IpFragmentOffset,
            })
        }
    }

    /// The number of 8-byte units, of at most 13 bits.
    #[inline]
    pub const fn value(self) -> u16
        ensures value { result ≡ self }
        ensures within { self ≤ MAX_U16 }
    {
        self.0
    }

    /// The offset in bytes, at most 65528.
    #[inline]
    pub const fn byte_offset(self) -> u16
        ensures value { result ≡ 8 * self }
    {
        self.0 << 3
    }
}

const _: () = prove!(IpFragOffset::ZERO.0 == 0 && IpFragOffset::MAX_U16 == 8191u16);

/// The offset 0.
impl Default for IpFragOffset {
    ghost is_default = { λ offset. offset ≡ 0 };

    #[inline]
    fn default() -> IpFragOffset {
        IpFragOffset::ZERO
    }
}

/// Writes the number of 8-byte units in decimal digits.
impl fmt::Display for IpFragOffset {
    ghost output = { λ offset. Some (decimal offset) };

    ghost styled_output = { λ offset style. Some (styled_decimal style offset) };

    #[inline]
    fn fmt<W: fmt::Write>(&self, f: &mut fmt::Formatter<W>) -> fmt::Result {
        self.0.fmt(f)
    }
}

impl From<IpFragOffset> for u16 {
    ghost from_gives = { λ offset number. number ≡ offset };

    #[inline]
    fn from(value: IpFragOffset) -> u16 {
        value.0
    }
}

/// Refuses what [`IpFragOffset::try_new`] refuses.
impl TryFrom<u16> for IpFragOffset {
    type Error = ValueTooBigError<u16>;

    ghost try_from_gives = { TakesUpTo (λ offset. offset) MAX_U16 value_type.IpFragmentOffset };

    #[inline]
    fn try_from(value: u16) -> Result<IpFragOffset, ValueTooBigError<u16>> {
        IpFragOffset::try_new(value)
    }
}
