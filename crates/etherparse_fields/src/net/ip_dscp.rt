ghost use Rattle.std.specs.Prelude.{ℕ, ◌≡◌, ◌≤◌, Some};
ghost use Rattle.std.specs.Fmt.{decimal, styled_decimal};
ghost use Rattle.etherparse_base.specs.ValueTooBigError.{TakesUpTo};
ghost use Rattle.etherparse_base.specs.declared.err.value_type.ValueType.TheVariants as value_type;
ghost use Rattle.etherparse_fields.specs.declared.net.ip_dscp.TheConstants.IpDscp.{MAX_U8};

use etherparse_base::err::{ValueTooBigError, ValueType};
use std::fmt;
use std::marker::Model;

/// The differentiated services code point of an IP header, a number of 6 bits (RFC 2474 section 3).
/// It is in the upper bits of byte 1 of an IPv4 header, and of the traffic class of an IPv6 header.
///
/// Equality, order and hash are those of the number.
#[derive(Clone, Copy, Debug, PartialEq, Eq, PartialOrd, Ord, Hash)]
pub struct IpDscp(u8);

/// A contract sees the number itself.
impl Model for IpDscp {
    ghost Value = { ℕ };

    ghost view = { λ dscp. dscp.0 };

    ghost invariant = { λ dscp. dscp.0 ≤ MAX_U8 };

    ghost inverse = { λ number. record { 0 = number } };
}

impl IpDscp {
    /// The code point 0, which asks for no special treatment: that of [`IpDscp::CS0`].
    pub const ZERO: IpDscp = IpDscp(0);

    /// The greatest code point, as a number: 63.
    pub const MAX_U8: u8 = 0b11_1111;

    /// The greatest code point.
    pub const MAX: IpDscp = IpDscp(IpDscp::MAX_U8);

    /// Class selector 0 (RFC 2474 section 4.2.2).
    pub const CS0: IpDscp = IpDscp(0b00_0000);

    /// Class selector 1 (RFC 2474 section 4.2.2).
    pub const CS1: IpDscp = IpDscp(0b00_1000);

    /// Class selector 2 (RFC 2474 section 4.2.2).
    pub const CS2: IpDscp = IpDscp(0b01_0000);

    /// Class selector 3 (RFC 2474 section 4.2.2).
    pub const CS3: IpDscp = IpDscp(0b01_1000);

    /// Class selector 4 (RFC 2474 section 4.2.2).
    pub const CS4: IpDscp = IpDscp(0b10_0000);

    /// Class selector 5 (RFC 2474 section 4.2.2).
    pub const CS5: IpDscp = IpDscp(0b10_1000);

    /// Class selector 6 (RFC 2474 section 4.2.2).
    pub const CS6: IpDscp = IpDscp(0b11_0000);

    /// Class selector 7 (RFC 2474 section 4.2.2).
    pub const CS7: IpDscp = IpDscp(0b11_1000);

    /// Assured forwarding class 1, low drop precedence (RFC 2597 section 6).
    pub const AF11: IpDscp = IpDscp(0b00_1010);

    /// Assured forwarding class 1, medium drop precedence (RFC 2597 section 6).
    pub const AF12: IpDscp = IpDscp(0b00_1100);

    /// Assured forwarding class 1, high drop precedence (RFC 2597 section 6).
    pub const AF13: IpDscp = IpDscp(0b00_1110);

    /// Assured forwarding class 2, low drop precedence (RFC 2597 section 6).
    pub const AF21: IpDscp = IpDscp(0b01_0010);

    /// Assured forwarding class 2, medium drop precedence (RFC 2597 section 6).
    pub const AF22: IpDscp = IpDscp(0b01_0100);

    /// Assured forwarding class 2, high drop precedence (RFC 2597 section 6).
    pub const AF23: IpDscp = IpDscp(0b01_0110);

    /// Assured forwarding class 3, low drop precedence (RFC 2597 section 6).
    pub const AF31: IpDscp = IpDscp(0b01_1010);

    /// Assured forwarding class 3, medium drop precedence (RFC 2597 section 6).
    pub const AF32: IpDscp = IpDscp(0b01_1100);

    /// Assured forwarding class 3, high drop precedence (RFC 2597 section 6).
    pub const AF33: IpDscp = IpDscp(0b01_1110);

    /// Assured forwarding class 4, low drop precedence (RFC 2597 section 6).
    pub const AF41: IpDscp = IpDscp(0b10_0010);

    /// Assured forwarding class 4, medium drop precedence (RFC 2597 section 6).
    pub const AF42: IpDscp = IpDscp(0b10_0100);

    /// Assured forwarding class 4, high drop precedence (RFC 2597 section 6).
    pub const AF43: IpDscp = IpDscp(0b10_0110);

    /// Expedited forwarding, for traffic that must not wait in queues (RFC 3246).
    pub const EF: IpDscp = IpDscp(0b10_1110);

    /// Expedited forwarding of calls that were admitted to reserved capacity (RFC 5865).
    pub const VOICE_ADMIT: IpDscp = IpDscp(0b10_1100);

    /// Traffic that takes only the capacity which nothing else uses (RFC 8622).
    pub const LOWER_EFFORT: IpDscp = IpDscp(0b00_0001);

    /// The code point of a number.
    ///
    /// # Errors
    ///
    /// A `ValueTooBigError` if the number needs more than 6 bits, that is, if it is above
    /// [`IpDscp::MAX_U8`].
    ///
    /// # Example
    ///
    /// ```
    /// let dscp = IpDscp::try_new(46)?;
    /// assert!(rt; dscp == IpDscp::EF);
    /// assert!(rt; IpDscp::try_new(64).is_err());
    /// ```
    #[inline]
    pub const fn try_new(value: u8) -> Result<IpDscp, ValueTooBigError<u8>>
        ensures answer { TakesUpTo (λ dscp. dscp) MAX_U8 value_type.IpDscp value result }
    {
        if value <= IpDscp::MAX_U8 {
            Ok(IpDscp(value))
        } else {
            Err(ValueTooBigError {
                actual: value,
                max_allowed: IpDscp::MAX_U8,
                value_type: ValueType::IpDscp,
            })
        }
    }

    /// The number, of at most 6 bits.
    #[inline]
    pub const fn value(self) -> u8
        ensures value { result ≡ self }
        ensures within { self ≤ MAX_U8 }
    {
        self.0
    }
}

const _: () = prove!(IpDscp::ZERO.0 == 0 && IpDscp::MAX.0 == 63 && IpDscp::MAX_U8 == 63u8);

// Class selectors (RFC 2474 section 4.2.2)
const _: () = prove!(
    IpDscp::CS0.0 == 0
        && IpDscp::CS1.0 == 8
        && IpDscp::CS2.0 == 16
        && IpDscp::CS3.0 == 24
        && IpDscp::CS4.0 == 32
        && IpDscp::CS5.0 == 40
        && IpDscp::CS6.0 == 48
        && IpDscp::CS7.0 == 56
);

// Assured forwarding (RFC 2597 section 6)
const _: () = prove!(
    IpDscp::AF11.0 == 10
        && IpDscp::AF12.0 == 12
        && IpDscp::AF13.0 == 14
        && IpDscp::AF21.0 == 18
        && IpDscp::AF22.0 == 20
        && IpDscp::AF23.0 == 22
        && IpDscp::AF31.0 == 26
        && IpDscp::AF32.0 == 28
        && IpDscp::AF33.0 == 30
        && IpDscp::AF41.0 == 34
        && IpDscp::AF42.0 == 36
        && IpDscp::AF43.0 == 38
);

// Expedited forwarding (RFC 3246), voice admit (RFC 5865), lower effort (RFC 8622)
const _: () = prove!(
    IpDscp::EF.0 == 46 && IpDscp::VOICE_ADMIT.0 == 44 && IpDscp::LOWER_EFFORT.0 == 1
);

/// The code point 0.
impl Default for IpDscp {
    ghost is_default = { λ dscp. dscp ≡ 0 };

    #[inline]
    fn default() -> IpDscp {
        IpDscp::ZERO
    }
}

/// Writes the number in decimal digits.
impl fmt::Display for IpDscp {
    ghost output = { λ dscp. Some (decimal dscp) };

    ghost styled_output = { λ dscp style. Some (styled_decimal style dscp) };

    #[inline]
    fn fmt<W: fmt::Write>(&self, f: &mut fmt::Formatter<W>) -> fmt::Result {
        self.0.fmt(f)
    }
}

impl From<IpDscp> for u8 {
    ghost from_gives = { λ dscp number. number ≡ dscp };

    #[inline]
    fn from(value: IpDscp) -> u8 {
        value.0
    }
}

/// Refuses what [`IpDscp::try_new`] refuses.
impl TryFrom<u8> for IpDscp {
    type Error = ValueTooBigError<u8>;

    ghost try_from_gives = { TakesUpTo (λ dscp. dscp) MAX_U8 value_type.IpDscp };

    #[inline]
    fn try_from(value: u8) -> Result<IpDscp, ValueTooBigError<u8>> {
        IpDscp::try_new(value)
    }
}
