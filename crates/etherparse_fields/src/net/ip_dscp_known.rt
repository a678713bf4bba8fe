ghost use Rattle.std.specs.Prelude.{◌≡◌, ◌↔◌, IsTrue, nat_eq};
ghost use Rattle.std.specs.Ordering.{as_partial_cmp, nat_cmp, on};
ghost use Rattle.std.specs.Cmp.{partial_order_from_own_ties, unsigned_ties};
ghost use Rattle.std.specs.Cmp.Rules.{comparing, hashing};
ghost use Rattle.std.specs.Hash as fed;
ghost use Rattle.std.proofs.Common.{rules};
ghost use Rattle.etherparse_fields.specs.IpDscpKnown.{TakesKnown, code_point_of};

use crate::IpDscp;
use etherparse_base::err::ip::IpDscpUnknownValueError;
use std::cmp::Ordering;
use std::hash::{Hash, Hasher};

/// A differentiated services code point with a name in IANA's registry. Each variant's comment
/// gives this name and its RFC. In an IP header the code point is an [`IpDscp`].
///
/// Equality, order and hash are those of the code point's number,
/// whatever the order of the variants.
#[derive(Clone, Copy, Debug)]
pub enum IpDscpKnown {
    /// `CS0`: class selector 0 (RFC 2474 section 4.2.2).
    ClassSelector0 = 0,
    /// `CS1`: class selector 1 (RFC 2474 section 4.2.2).
    ClassSelector1 = 8,
    /// `CS2`: class selector 2 (RFC 2474 section 4.2.2).
    ClassSelector2 = 16,
    /// `CS3`: class selector 3 (RFC 2474 section 4.2.2).
    ClassSelector3 = 24,
    /// `CS4`: class selector 4 (RFC 2474 section 4.2.2).
    ClassSelector4 = 32,
    /// `CS5`: class selector 5 (RFC 2474 section 4.2.2).
    ClassSelector5 = 40,
    /// `CS6`: class selector 6 (RFC 2474 section 4.2.2).
    ClassSelector6 = 48,
    /// `CS7`: class selector 7 (RFC 2474 section 4.2.2).
    ClassSelector7 = 56,
    /// `AF11`: assured forwarding class 1, low drop precedence (RFC 2597 section 6).
    AfGroup11 = 10,
    /// `AF12`: assured forwarding class 1, medium drop precedence (RFC 2597 section 6).
    AfGroup12 = 12,
    /// `AF13`: assured forwarding class 1, high drop precedence (RFC 2597 section 6).
    AfGroup13 = 14,
    /// `AF21`: assured forwarding class 2, low drop precedence (RFC 2597 section 6).
    AfGroup21 = 18,
    /// `AF22`: assured forwarding class 2, medium drop precedence (RFC 2597 section 6).
    AfGroup22 = 20,
    /// `AF23`: assured forwarding class 2, high drop precedence (RFC 2597 section 6).
    AfGroup23 = 22,
    /// `AF31`: assured forwarding class 3, low drop precedence (RFC 2597 section 6).
    AfGroup31 = 26,
    /// `AF32`: assured forwarding class 3, medium drop precedence (RFC 2597 section 6).
    AfGroup32 = 28,
    /// `AF33`: assured forwarding class 3, high drop precedence (RFC 2597 section 6).
    AfGroup33 = 30,
    /// `AF41`: assured forwarding class 4, low drop precedence (RFC 2597 section 6).
    AfGroup41 = 34,
    /// `AF42`: assured forwarding class 4, medium drop precedence (RFC 2597 section 6).
    AfGroup42 = 36,
    /// `AF43`: assured forwarding class 4, high drop precedence (RFC 2597 section 6).
    AfGroup43 = 38,
    /// `EF`: expedited forwarding, for traffic that must not wait in queues (RFC 3246).
    ExpeditedForwarding = 46,
    /// `VOICE-ADMIT`: expedited forwarding of calls admitted to reserved capacity (RFC 5865).
    VoiceAdmit = 44,
    /// `LE`: lower effort, for traffic that takes only capacity nothing else uses (RFC 8622).
    LowerEffort = 1,
}

impl IpDscpKnown {
    /// The known code point of a number.
    ///
    /// # Errors
    ///
    /// An `IpDscpUnknownValueError` with the number, if none of the 23 known code points has it.
    ///
    /// # Example
    ///
    /// ```
    /// let known = IpDscpKnown::try_from_ip_dscp(IpDscp::EF)?;
    /// assert!(rt; known == IpDscpKnown::ExpeditedForwarding);
    /// // No code point of the registry has the number 2.
    /// let dscp = IpDscp::try_new(2)?;
    /// assert!(rt; IpDscpKnown::try_from_ip_dscp(dscp).is_err());
    /// ```
    #[tactic(auto, using(crate::proofs::CodePoints::code_point_of_injective))]
    pub fn try_from_ip_dscp(value: IpDscp) -> Result<IpDscpKnown, IpDscpUnknownValueError>
        ensures answer { TakesKnown value result }
        ensures only { (point : IpDscpKnown) → code_point_of point ≡ value → result ≡ Ok point }
    {
        match value.value() {
            0 => Ok(IpDscpKnown::ClassSelector0),
            8 => Ok(IpDscpKnown::ClassSelector1),
            16 => Ok(IpDscpKnown::ClassSelector2),
            24 => Ok(IpDscpKnown::ClassSelector3),
            32 => Ok(IpDscpKnown::ClassSelector4),
            40 => Ok(IpDscpKnown::ClassSelector5),
            48 => Ok(IpDscpKnown::ClassSelector6),
            56 => Ok(IpDscpKnown::ClassSelector7),
            10 => Ok(IpDscpKnown::AfGroup11),
            12 => Ok(IpDscpKnown::AfGroup12),
            14 => Ok(IpDscpKnown::AfGroup13),
            18 => Ok(IpDscpKnown::AfGroup21),
            20 => Ok(IpDscpKnown::AfGroup22),
            22 => Ok(IpDscpKnown::AfGroup23),
            26 => Ok(IpDscpKnown::AfGroup31),
            28 => Ok(IpDscpKnown::AfGroup32),
            30 => Ok(IpDscpKnown::AfGroup33),
            34 => Ok(IpDscpKnown::AfGroup41),
            36 => Ok(IpDscpKnown::AfGroup42),
            38 => Ok(IpDscpKnown::AfGroup43),
            46 => Ok(IpDscpKnown::ExpeditedForwarding),
            44 => Ok(IpDscpKnown::VoiceAdmit),
            1 => Ok(IpDscpKnown::LowerEffort),
            number => Err(IpDscpUnknownValueError { value: number }),
        }
    }
}

/// Refuses what [`IpDscpKnown::try_from_ip_dscp`] refuses.
impl TryFrom<IpDscp> for IpDscpKnown {
    type Error = IpDscpUnknownValueError;

    ghost try_from_gives = { TakesKnown };

    fn try_from(value: IpDscp) -> Result<IpDscpKnown, IpDscpUnknownValueError> {
        IpDscpKnown::try_from_ip_dscp(value)
    }
}

impl From<IpDscpKnown> for u8 {
    ghost from_gives = { λ known number. number ≡ code_point_of known };

    fn from(value: IpDscpKnown) -> u8 {
        value as u8
    }
}

impl From<IpDscpKnown> for IpDscp {
    ghost from_gives = { λ known dscp. dscp ≡ code_point_of known };

    fn from(value: IpDscpKnown) -> IpDscp {
        IpDscp::try_new(u8::from(value)).unwrap()
    }
}

/// No two variants have the same code point, so equal ones are the same variant.
impl PartialEq for IpDscpKnown {
    ghost eq = { on code_point_of nat_eq };

    ghost laws = { Prim.search (comparing, rules) };

    #[tactic(auto, using(crate::proofs::CodePoints::code_point_of_injective))]
    fn eq(&self, other: &IpDscpKnown) -> bool
        ensures same_variant { IsTrue result ↔ (self.now ≡ other.now) }
    {
        u8::from(*self) == u8::from(*other)
    }
}

impl Eq for IpDscpKnown {
    ghost laws = { Prim.search (comparing, rules) };
}

impl Hash for IpDscpKnown {
    ghost hash_input = { λ known. fed.u8 (code_point_of known) };

    ghost respects_eq = { Prim.search (hashing, rules) };

    fn hash<H: Hasher>(&self, state: &mut H) {
        u8::from(*self).hash(state);
    }
}

/// Any two have an order, that of `cmp`.
impl PartialOrd for IpDscpKnown {
    ghost partial_cmp = { as_partial_cmp (on code_point_of nat_cmp) };

    ghost laws = { partial_order_from_own_ties
        (Prim.search (comparing, rules))
        (λ a b. unsigned_ties (code_point_of a) (code_point_of b)) };

    fn partial_cmp(&self, other: &IpDscpKnown) -> Option<Ordering> {
        Some(self.cmp(other))
    }
}

/// The order of the code points' numbers.
impl Ord for IpDscpKnown {
    ghost cmp = { on code_point_of nat_cmp };

    ghost total = { Prim.search (comparing, rules) };

    ghost matches_partial_cmp = { Prim.search (comparing, rules) };

    ghost matches_eq = { λ a b. unsigned_ties (code_point_of a) (code_point_of b) };

    fn cmp(&self, other: &IpDscpKnown) -> Ordering
        ensures by_code_point { result
            ≡ nat_cmp (code_point_of self.now) (code_point_of other.now) }
    {
        u8::from(*self).cmp(&u8::from(*other))
    }
}
