//! The priority of a tagged frame.

ghost use Rattle.std.specs.Prelude.{ℕ, ◌≡◌, ◌≤◌, Some};
ghost use Rattle.std.specs.Fmt.{decimal, styled_decimal};
ghost use Rattle.etherparse.specs.ValueTooBigError.{TakesUpTo};
ghost use Rattle.etherparse.specs.declared.err.ValueType.TheVariants as value_type;
ghost use Rattle.etherparse_link.specs.declared.vlan_pcp.TheConstants.VlanPcp.{MAX_U8};

use etherparse::err::{ValueTooBigError, ValueType};
use std::fmt;
use std::marker::Model;

/// The priority code point of a VLAN tag, a number of 3 bits (IEEE 802.1Q section 9.6).
///
/// Which of two numbers comes first is up to the network: by default 7 is the most urgent, and 1
/// less urgent than 0 (IEEE 802.1Q section I.4).
///
/// Equality, order and hash are those of the number.
#[derive(Clone, Copy, Debug, PartialEq, Eq, PartialOrd, Ord, Hash)]
pub struct VlanPcp(u8);

/// A contract sees the number itself.
impl Model for VlanPcp {
    ghost Value = { ℕ };

    ghost view = { λ pcp. pcp.0 };

    ghost invariant = { λ pcp. pcp.0 ≤ MAX_U8 };

    ghost inverse = { λ number. record { 0 = number } };
}

impl VlanPcp {
    /// The priority code point 0, that of a frame to which no other was given.
    pub const ZERO: VlanPcp = VlanPcp(0);

    /// The greatest priority code point, as a number: 7.
    pub const MAX_U8: u8 = 0b111;

    /// The priority code point of a number.
    ///
    /// # Errors
    ///
    /// A `ValueTooBigError` if the number needs more than 3 bits, that is, if it is above
    /// [`VlanPcp::MAX_U8`].
    ///
    /// # Example
    ///
    /// ```
    /// let pcp = VlanPcp::try_new(7)?;
    /// assert!(rt; pcp.value() == 7);
    /// assert!(rt; VlanPcp::try_new(8).is_err());
    /// ```
    #[inline]
    pub const fn try_new(value: u8) -> Result<VlanPcp, ValueTooBigError<u8>>
        ensures answer { TakesUpTo (λ pcp. pcp) MAX_U8 value_type.VlanPcp value result }
    {
        if value <= VlanPcp::MAX_U8 {
            Ok(VlanPcp(value))
        } else {
            Err(ValueTooBigError {
                actual: value,
                max_allowed: VlanPcp::MAX_U8,
                value_type: ValueType::VlanPcp,
            })
        }
    }

    /// The number, of at most 3 bits.
    #[inline]
    pub const fn value(self) -> u8
        ensures value { result ≡ self }
        ensures within { self ≤ MAX_U8 }
    {
        self.0
    }
}

const _: () = prove!(VlanPcp::ZERO.0 == 0 && VlanPcp::MAX_U8 == 7u8);

/// The priority code point 0.
impl Default for VlanPcp {
    ghost is_default = { λ pcp. pcp ≡ 0 };

    #[inline]
    fn default() -> VlanPcp {
        VlanPcp::ZERO
    }
}

/// Writes the number in decimal digits.
impl fmt::Display for VlanPcp {
    ghost output = { λ pcp. Some (decimal pcp) };

    ghost styled_output = { λ pcp style. Some (styled_decimal style pcp) };

    #[inline]
    fn fmt<W: fmt::Write>(&self, f: &mut fmt::Formatter<W>) -> fmt::Result {
        self.0.fmt(f)
    }
}

impl From<VlanPcp> for u8 {
    ghost from_gives = { λ pcp number. number ≡ pcp };

    #[inline]
    fn from(value: VlanPcp) -> u8 {
        value.0
    }
}

/// Refuses what [`VlanPcp::try_new`] refuses.
impl TryFrom<u8> for VlanPcp {
    type Error = ValueTooBigError<u8>;

    ghost try_from_gives = { TakesUpTo (λ pcp. pcp) MAX_U8 value_type.VlanPcp };

    #[inline]
    fn try_from(value: u8) -> Result<VlanPcp, ValueTooBigError<u8>> {
        VlanPcp::try_new(value)
    }
}
