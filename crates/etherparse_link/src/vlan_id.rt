//! The identifier of a VLAN.

ghost use Rattle.std.specs.Prelude.{ℕ, ◌≡◌, ◌≤◌, Some};
ghost use Rattle.std.specs.Fmt.{decimal, styled_decimal};
ghost use Rattle.etherparse.specs.ValueTooBigError.{TakesUpTo};
ghost use Rattle.etherparse.specs.declared.err.ValueType.TheVariants as value_type;
ghost use Rattle.etherparse_link.specs.declared.vlan_id.TheConstants.VlanId.{MAX_U16};

use etherparse::err::{ValueTooBigError, ValueType};
use std::fmt;
use std::marker::Model;

/// The identifier of a VLAN, a number of 12 bits (IEEE 802.1Q section 9.6).
///
/// 0 says that the tag has a priority alone, and no VLAN; 4095 is reserved, and not for use in a
/// frame. Both are read and written as any other.
///
/// Equality, order and hash are those of the number.
#[derive(Clone, Copy, Debug, PartialEq, Eq, PartialOrd, Ord, Hash)]
pub struct VlanId(u16);

/// A contract sees the number itself.
impl Model for VlanId {
    ghost Value = { ℕ };

    ghost view = { λ id. id.0 };

    ghost invariant = { λ id. id.0 ≤ MAX_U16 };

    ghost inverse = { λ number. record { 0 = number } };
}

impl VlanId {
    /// The identifier 0, the null VID: the tag has a priority alone.
    pub const ZERO: VlanId = VlanId(0);

    /// The greatest identifier, as a number: 4095.
    pub const MAX_U16: u16 = 0xfff;

    /// The identifier of a number.
    ///
    /// # Errors
    ///
    /// A `ValueTooBigError` if the number needs more than 12 bits, that is, if it is above
    /// [`VlanId::MAX_U16`].
    ///
    /// # Example
    ///
    /// ```
    /// let id = VlanId::try_new(4095)?;
    /// assert!(rt; id.value() == 4095);
    /// assert!(rt; VlanId::try_new(4096).is_err());
    /// ```
    #[inline]
    pub const fn try_new(value: u16) -> Result<VlanId, ValueTooBigError<u16>>
        ensures answer { TakesUpTo (λ id. id) MAX_U16 value_type.VlanId value result }
    {
        if value <= VlanId::MAX_U16 {
            Ok(VlanId(value))
        } else {
            Err(ValueTooBigError {
                actual: value,
                max_allowed: VlanId::MAX_U16,
                value_type: ValueType::VlanId,
            })
        }
    }

    /// The number, of at most 12 bits.
    #[inline]
    pub const fn value(self) -> u16
        ensures value { result ≡ self }
        ensures within { self ≤ MAX_U16 }
    {
        self.0
    }
}

const _: () = prove!(VlanId::ZERO.0 == 0 && VlanId::MAX_U16 == 4095u16);

/// The identifier 0.
impl Default for VlanId {
    ghost is_default = { λ id. id ≡ 0 };

    #[inline]
    fn default() -> VlanId {
        VlanId::ZERO
    }
}

/// Writes the number in decimal digits.
impl fmt::Display for VlanId {
    ghost output = { λ id. Some (decimal id) };

    ghost styled_output = { λ id style. Some (styled_decimal style id) };

    #[inline]
    fn fmt<W: fmt::Write>(&self, f: &mut fmt::Formatter<W>) -> fmt::Result {
        self.0.fmt(f)
    }
}

impl From<VlanId> for u16 {
    ghost from_gives = { λ id number. number ≡ id };

    #[inline]
    fn from(value: VlanId) -> u16 {
        value.0
    }
}

/// Refuses what [`VlanId::try_new`] refuses.
impl TryFrom<u16> for VlanId {
    type Error = ValueTooBigError<u16>;

    ghost try_from_gives = { TakesUpTo (λ id. id) MAX_U16 value_type.VlanId };

    #[inline]
    fn try_from(value: u16) -> Result<VlanId, ValueTooBigError<u16>> {
        VlanId::try_new(value)
    }
}
