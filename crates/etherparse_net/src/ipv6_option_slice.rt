//! A view of an option of IPv6.

ghost use Rattle.etherparse_net.specs.Ipv6Options.{IsIpv6Option};

use crate::Ipv6OptionAction;

/// A view of an option of a hop-by-hop or destination options header (RFC 8200 section 4.2).
///
/// # Example
///
/// ```
/// // A router alert (RFC 2711).
/// let Some(Ok(option)) = Ipv6OptionsIterator::new(&[5, 2, 0, 0]).next() else {
///     return Err(Fail::from("no option"));
/// };
/// assert!(rt; option.option_type() == 5 && !option.may_change());
/// assert!(rt; option.unknown_action() == Ipv6OptionAction::Skip);
/// assert!(rt; option.data() == [0, 0].as_slice());
/// ```
#[derive(Clone, Copy, Debug, PartialEq, Eq)]
pub struct Ipv6OptionSlice<'a> {
    /// The bytes of the option: its type, the length of its data and the data; or its type alone,
    /// if that is 0.
    pub slice: &'a [u8],
    // What every view keeps, and what every struct literal of a view has to prove.
    pub ghost is_option: { IsIpv6Option slice.now },
}

impl<'a> Ipv6OptionSlice<'a> {
    ghost use Rattle.std.specs.Prelude.{◌≡◌, ◌/◌, ◌%◌, ◌^◌, ◌↔◌, ◌⊎◌, IsTrue, drop, slice_index};
    ghost use Rattle.etherparse_net.specs.Ipv6OptionAction.{action_of};

    /// The type of the option: byte 0.
    pub fn option_type(&self) -> u8
        ensures byte_0 { result ≡ slice_index self.now.slice.now 0 }
    {
        self.slice[0]
    }

    /// What a node does that does not know the type: the upper 2 bits of byte 0.
    pub fn unknown_action(&self) -> Ipv6OptionAction
        ensures upper_2_bits { result ≡ action_of (slice_index self.now.slice.now 0 / 2 ^ 6) }
    {
        match self.slice[0] >> 6 {
            0 => Ipv6OptionAction::Skip,
            1 => Ipv6OptionAction::Discard,
            2 => Ipv6OptionAction::DiscardAndReport,
            _ => Ipv6OptionAction::DiscardAndReportUnlessMulticast,
        }
    }

    /// Whether the data can change on the way to the destination: the third highest bit of byte 0.
    /// The data of such an option counts as zeros in an authentication header's check.
    pub fn may_change(&self) -> bool
        ensures third_highest_bit { IsTrue result
            ↔ (slice_index self.now.slice.now 0 / 2 ^ 5 % 2 ≡ 1) }
    {
        (self.slice[0] >> 5) % 2 == 1
    }

    /// Whether the option is padding: Pad1 (0) or PadN (1).
    pub fn is_padding(&self) -> bool
        ensures pad1_or_padn { IsTrue result ↔ ((slice_index self.now.slice.now 0 ≡ 0)
            ⊎ (slice_index self.now.slice.now 0 ≡ 1)) }
    {
        self.slice[0] <= 1
    }

    /// The data of the option: all from byte 2 on. Pad1 has none.
    pub fn data(&self) -> &'a [u8]
        ensures from_byte_2 { result.now ≡ drop 2 self.now.slice.now }
    {
        if self.slice.len() < 2 {
            return &self.slice[1..];
        }
        &self.slice[2..]
    }
}
