//! A view of an option of IPv4.

ghost use Rattle.etherparse_net.specs.Ipv4Options.{IsIpv4Option};

/// A view of an option of an IPv4 header (RFC 791 section 3.1).
///
/// # Example
///
/// ```
/// // A router alert (RFC 2113).
/// let Some(Ok(option)) = Ipv4OptionsIterator::new(&[148, 4, 0, 0]).next() else {
///     return Err(Fail::from("no option"));
/// };
/// assert!(rt; option.option_type() == 148 && option.is_copied());
/// assert!(rt; (option.class(), option.number()) == (0, 20));
/// assert!(rt; option.data() == [0, 0].as_slice());
/// ```
#[derive(Clone, Copy, Debug, PartialEq, Eq)]
pub struct Ipv4OptionSlice<'a> {
    /// The bytes of the option: its type, its length, which counts all of them, and the data; or
    /// its type alone, if that is 1.
    pub slice: &'a [u8],
    // What every view keeps, and what every struct literal of a view has to prove.
    pub ghost is_option: { IsIpv4Option slice.now },
}

impl<'a> Ipv4OptionSlice<'a> {
    ghost use Rattle.std.specs.Prelude.{◌≡◌, ◌/◌, ◌%◌, ◌^◌, ◌↔◌, IsTrue, drop, slice_index};

    /// The type of the option: byte 0.
    pub fn option_type(&self) -> u8
        ensures byte_0 { result ≡ slice_index self.now.slice.now 0 }
    {
        self.slice[0]
    }

    /// Whether the option is copied into all fragments: the highest bit of byte 0.
    pub fn is_copied(&self) -> bool
        ensures highest_bit { IsTrue result ↔ (slice_index self.now.slice.now 0 / 2 ^ 7 ≡ 1) }
    {
        self.slice[0] >> 7 == 1
    }

    /// The class of the option, 0 for control and 2 for debugging and measurement: the 2 bits of
    /// byte 0 after the highest.
    pub fn class(&self) -> u8
        ensures next_2_bits { result ≡ slice_index self.now.slice.now 0 / 2 ^ 5 % 2 ^ 2 }
    {
        (self.slice[0] >> 5) % 4
    }

    /// The number of the option: the lower 5 bits of byte 0.
    pub fn number(&self) -> u8
        ensures lower_5_bits { result ≡ slice_index self.now.slice.now 0 % 2 ^ 5 }
    {
        self.slice[0] % 32
    }

    /// The data of the option: all from byte 2 on. No operation has none.
    pub fn data(&self) -> &'a [u8]
        ensures from_byte_2 { result.now ≡ drop 2 self.now.slice.now }
    {
        if self.slice.len() < 2 {
            return &self.slice[1..];
        }
        &self.slice[2..]
    }
}
