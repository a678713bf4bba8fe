ghost use Rattle.std.specs.Prelude.{◌≡◌, ◌≤◌, Some};
ghost use Rattle.std.specs.Fmt.{decimal, styled_decimal};
ghost use Rattle.etherparse_base.specs.ValueTooBigError.{TakesUpTo};
ghost use Rattle.etherparse_base.specs.declared.err.value_type.ValueType.TheVariants as value_type;
ghost use Rattle.etherparse_fields.specs.declared.net.ip_ecn.TheConstants.IpEcn.{MAX_U8};
ghost use Rattle.etherparse_fields.specs.IpEcn.{ecn_value};

use etherparse_base::err::{ValueTooBigError, ValueType};
use std::fmt;

/// The explicit congestion notification of an IP header, a number of 2 bits (RFC 3168 section 5).
/// It is in the lower bits of byte 1 of an IPv4 header, and of the traffic class of an IPv6 header.
///
/// Equality, order and hash are those of the number.
#[derive(Clone, Copy, Debug, PartialEq, Eq, PartialOrd, Ord, Hash)]
pub enum IpEcn {
    /// `Not-ECT`: the sender's transport does not use the notification (RFC 3168).
    NotEct = 0,
    /// `ECT(1)`: the sender's transport is capable of the notification. RFC 3168 treats it as
    /// [`IpEcn::Ect0`]; RFC 8311 opened it to experiments, and RFC 9331 marks L4S traffic with it.
    Ect1 = 1,
    /// `ECT(0)`: the sender's transport is capable of the notification (RFC 3168).
    Ect0 = 2,
    /// `CE`: a router on the way met congestion (RFC 3168).
    CongestionExperienced = 3,
}

impl IpEcn {
    /// The code point of the number 0.
    pub const ZERO: IpEcn = IpEcn::NotEct;

    /// The code point of the number 1.
    pub const ONE: IpEcn = IpEcn::Ect1;

    /// The code point of the number 2.
    pub const TWO: IpEcn = IpEcn::Ect0;

    /// The code point of the number 3.
    pub const THREE: IpEcn = IpEcn::CongestionExperienced;

    /// The greatest code point, as a number: 3.
    pub const MAX_U8: u8 = 0b11;

    /// An older spelling of [`IpEcn::THREE`].
    pub const TRHEE: IpEcn = IpEcn::THREE;

    /// The code point of a number.
    ///
    /// # Errors
    ///
    /// A `ValueTooBigError` if the number needs more than 2 bits, that is, if it is above
    /// [`IpEcn::MAX_U8`].
    ///
    /// # Example
    ///
    /// ```
    /// let ecn = IpEcn::try_new(3)?;
    /// assert!(rt; ecn == IpEcn::CongestionExperienced);
    /// ```
    #[inline]
    pub const fn try_new(value: u8) -> Result<IpEcn, ValueTooBigError<u8>>
        ensures answer { TakesUpTo ecn_value MAX_U8 value_type.IpEcn value result }
    {
        match value {
            0 => Ok(IpEcn::NotEct),
            1 => Ok(IpEcn::Ect1),
            2 => Ok(IpEcn::Ect0),
            3 => Ok(IpEcn::CongestionExperienced),
            _ => Err(ValueTooBigError {
                actual: value,
                max_allowed: IpEcn::MAX_U8,
                value_type: ValueType::IpEcn,
            }),
        }
    }

    /// The number, of at most 2 bits.
    #[inline]
    pub const fn value(self) -> u8
        ensures value { result ≡ ecn_value self }
        ensures within { ecn_value self ≤ MAX_U8 }
    {
        self as u8
    }
}

const _: () = prove!(IpEcn::ZERO as u8 == 0 && IpEcn::ONE as u8 == 1 && IpEcn::TWO as u8 == 2);

const _: () = prove!(IpEcn::THREE as u8 == 3 && IpEcn::TRHEE as u8 == 3 && IpEcn::MAX_U8 == 3u8);

/// The code point of the number 0.
impl Default for IpEcn {
    ghost is_default = { λ ecn. ecn_value ecn ≡ 0 };

    #[inline]
    fn default() -> IpEcn {
        IpEcn::ZERO
    }
}

/// Writes the number in decimal digits.
impl fmt::Display for IpEcn {
    ghost output = { λ ecn. Some (decimal (ecn_value ecn)) };

    ghost styled_output = { λ ecn style. Some (styled_decimal style (ecn_value ecn)) };

    #[inline]
    fn fmt<W: fmt::Write>(&self, f: &mut fmt::Formatter<W>) -> fmt::Result {
        self.value().fmt(f)
    }
}

impl From<IpEcn> for u8 {
    ghost from_gives = { λ ecn number. number ≡ ecn_value ecn };

    #[inline]
    fn from(value: IpEcn) -> u8 {
        value.value()
    }
}

/// Refuses what [`IpEcn::try_new`] refuses.
impl TryFrom<u8> for IpEcn {
    type Error = ValueTooBigError<u8>;

    ghost try_from_gives = { TakesUpTo ecn_value MAX_U8 value_type.IpEcn };

    #[inline]
    fn try_from(value: u8) -> Result<IpEcn, ValueTooBigError<u8>> {
        IpEcn::try_new(value)
    }
}
