ghost use Rattle.std.specs.Prelude.{ℕ, ◌≡◌, ◌≤◌, Some};
ghost use Rattle.std.specs.Fmt.{decimal, styled_decimal};
ghost use Rattle.etherparse_base.specs.ValueTooBigError.{TakesUpTo};
ghost use Rattle.etherparse_base.specs.declared.err.value_type.ValueType.TheVariants as value_type;
ghost use Rattle.etherparse_fields.specs.declared.net.ipv6_flow_label.TheConstants.Ipv6FlowLabel.{MAX_U32};

use etherparse_base::err::{ValueTooBigError, ValueType};
use std::fmt;
use std::marker::Model;

/// The flow label of an IPv6 header, a number of 20 bits (RFC 8200 sections 3 and 6).
///
/// Equality, order and hash are those of the number.
#[derive(Clone, Copy, Debug, PartialEq, Eq, PartialOrd, Ord, Hash)]
pub struct Ipv6FlowLabel(u32);

/// A contract sees the number itself.
impl Model for Ipv6FlowLabel {
    ghost Value = { ℕ };

    ghost view = { λ label. label.0 };

    ghost invariant = { λ label. label.0 ≤ MAX_U32 };

    ghost inverse = { λ number. record { 0 = number } };
}

impl Ipv6FlowLabel {
    /// The flow label 0, of a packet that belongs to no flow.
    pub const ZERO: Ipv6FlowLabel = Ipv6FlowLabel(0);

    /// The greatest flow label, as a number: 1048575.
    pub const MAX_U32: u32 = 0xf_ffff;

    /// The flow label of a number.
    ///
    /// # Errors
    ///
    /// A `ValueTooBigError` if the number needs more than 20 bits, that is, if it is above
    /// [`Ipv6FlowLabel::MAX_U32`].
    ///
    /// # Example
    ///
    /// ```
    /// let label = Ipv6FlowLabel::try_new(0xbeef)?;
    /// assert!(rt; label.value() == 0xbeef);
    /// ```
    #[inline]
    pub const fn try_new(value: u32) -> Result<Ipv6FlowLabel, ValueTooBigError<u32>>
        ensures answer { TakesUpTo (λ label. label) MAX_U32 value_type.Ipv6FlowLabel value result }
    {
        if value <= Ipv6FlowLabel::MAX_U32 {
            Ok(Ipv6FlowLabel(value))
        } else {
            Err(ValueTooBigError {
                actual: value,
                max_allowed: Ipv6FlowLabel::MAX_U32,
                value_type: ValueType::Ipv6FlowLabel,
            })
        }
    }

    /// The number, of at most 20 bits.
    #[inline]
    pub const fn value(self) -> u32
        ensures value { result ≡ self }
        ensures within { self ≤ MAX_U32 }
    {
        self.0
    }
}

const _: () = prove!(Ipv6FlowLabel::ZERO.0 == 0 && Ipv6FlowLabel::MAX_U32 == 1048575u32);

/// The flow label 0.
impl Default for Ipv6FlowLabel {
    ghost is_default = { λ label. label ≡ 0 };

    #[inline]
    fn default() -> Ipv6FlowLabel {
        Ipv6FlowLabel::ZERO
    }
}

/// Writes the number in decimal digits.
impl fmt::Display for Ipv6FlowLabel {
    ghost output = { λ label. Some (decimal label) };

    ghost styled_output = { λ label style. Some (styled_decimal style label) };

    #[inline]
    fn fmt<W: fmt::Write>(&self, f: &mut fmt::Formatter<W>) -> fmt::Result {
        self.0.fmt(f)
    }
}

impl From<Ipv6FlowLabel> for u32 {
    ghost from_gives = { λ label number. number ≡ label };

    #[inline]
    fn from(value: Ipv6FlowLabel) -> u32 {
        value.0
    }
}

/// Refuses what [`Ipv6FlowLabel::try_new`] refuses.
impl TryFrom<u32> for Ipv6FlowLabel {
    type Error = ValueTooBigError<u32>;

    ghost try_from_gives = { TakesUpTo (λ label. label) MAX_U32 value_type.Ipv6FlowLabel };

    #[inline]
    fn try_from(value: u32) -> Result<Ipv6FlowLabel, ValueTooBigError<u32>> {
        Ipv6FlowLabel::try_new(value)
    }
}
