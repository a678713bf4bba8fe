//! The times of packets (draft-ietf-opsawg-pcapng sections 4.2 and 4.3).

ghost use Rattle.std.specs.Prelude.{◌≡◌, ◌*◌, ◌/◌, ◌%◌, ◌<◌, ◌^◌};
ghost use Rattle.packet_capture.specs.declared.pcapng.times.Resolution.TheVariants.{PowerOfTen};
ghost use Rattle.packet_capture.specs.declared.pcapng.times.TheConstants.Resolution.{MICROSECONDS};
ghost use Rattle.packet_capture.specs.Pcapng.Times.{nanoseconds, resolution_of, seconds, units};

/// The unit of the timestamps of an interface, a fraction of a second.
#[derive(Clone, Copy, Debug, PartialEq, Eq)]
pub enum Resolution {
    /// A negative power of ten: a second has 10 to this power units, as 6 for microseconds.
    PowerOfTen(u8),
    /// A negative power of two: a second has 2 to this power units.
    PowerOfTwo(u8),
}

/// The time of a packet.
#[derive(Clone, Copy, Debug, PartialEq, Eq)]
pub struct Time {
    /// Seconds since the start of 1970, UTC, modulo 2^64: those of a time before 1970 are in two's
    /// complement.
    pub seconds: u64,
    /// Nanoseconds of that second, less than 1,000,000,000. What is less than one is dropped.
    pub nanoseconds: u32,
}

impl Resolution {
    /// Microseconds, the unit of an interface that has no option `if_tsresol`.
    pub const MICROSECONDS: Resolution = Resolution::PowerOfTen(6);

    /// The resolution that a value of the option `if_tsresol` says: the power in its lower seven
    /// bits, of two if the most significant bit is set, and else of ten. `None` if a second has
    /// 2^64 units or more, that is, at a power of ten above 19 or of two above 63.
    pub fn from_byte(byte: u8) -> Option<Resolution>
        ensures value { result ≡ resolution_of byte }
    {
        match byte {
            0..=19 => Some(Resolution::PowerOfTen(byte)),
            128..=191 => Some(Resolution::PowerOfTwo(byte - 128)),
            _ => None,
        }
    }

    /// The time of a timestamp in this unit, to which `offset` seconds are added.
    pub fn time_of(self, offset: u64, timestamp: u64) -> Time
        ensures seconds { result.seconds ≡ seconds self offset timestamp }
        ensures nanoseconds { result.nanoseconds ≡ nanoseconds self timestamp }
        ensures within { result.nanoseconds < 10 ^ 9 }
    {
        let (whole, nanoseconds) = self.split(timestamp);
        Time {
            seconds: whole.wrapping_add(offset),
            nanoseconds,
        }
    }

    // The whole seconds of a timestamp, and the nanoseconds in the rest.
    fn split(self, timestamp: u64) -> (u64, u32)
        ensures whole { result.0 ≡ timestamp / units self }
        ensures part { result.1 ≡ nanoseconds self timestamp }
    {
        match self {
            Resolution::PowerOfTen(6) => (
                timestamp / 1_000_000,
                (timestamp % 1_000_000) as u32 * 1000,
            ),
            Resolution::PowerOfTen(9) => (
                timestamp / 1_000_000_000,
                (timestamp % 1_000_000_000) as u32,
            ),
            Resolution::PowerOfTen(power) => split_by_ten(power, timestamp),
            Resolution::PowerOfTwo(power) => split_by_two(power, timestamp),
        }
    }
}

// The same of a timestamp in a negative power of ten.
fn split_by_ten(power: u8, timestamp: u64) -> (u64, u32)
    ensures whole { result.0 ≡ timestamp / 10 ^ power }
    ensures part { result.1 ≡ timestamp % 10 ^ power * 10 ^ 9 / 10 ^ power }
{
    if power < 20 {
        let units = power_of_ten(power);
        let part = timestamp % units;
        (timestamp / units, nanoseconds_by_ten(power, part))
    } else {
        (0, nanoseconds_by_ten(power, timestamp))
    }
}

// The nanoseconds in a part of a second.
fn nanoseconds_by_ten(power: u8, part: u64) -> u32
    requires { part < 10 ^ power }
    ensures value { result ≡ part * 10 ^ 9 / 10 ^ power }
{
    let nanoseconds = if power < 10 {
        part * power_of_ten(9 - power)
    } else if power < 29 {
        part / power_of_ten(power - 9)
    } else {
        0
    };
    nanoseconds as u32
}

// A power of ten that fits 64 bits.
fn power_of_ten(power: u8) -> u64
    requires { power < 20 }
    ensures value { result ≡ 10 ^ power }
    ensures positive { 0 < result }
{
    10u64.pow(u32::from(power))
}

// The same of a timestamp in a negative power of two.
fn split_by_two(power: u8, timestamp: u64) -> (u64, u32)
    ensures whole { result.0 ≡ timestamp / 2 ^ power }
    ensures part { result.1 ≡ timestamp % 2 ^ power * 10 ^ 9 / 2 ^ power }
{
    if power < 128 {
        let timestamp = u128::from(timestamp);
        let whole = timestamp >> power;
        let part = timestamp - (whole << power);
        (whole as u64, (part * 1_000_000_000 >> power) as u32)
    } else {
        (0, 0)
    }
}

/// Microseconds.
impl Default for Resolution {
    ghost is_default = { λ resolution. (resolution ≡ PowerOfTen 6) × (resolution ≡ MICROSECONDS) };

    fn default() -> Resolution {
        Resolution::MICROSECONDS
    }
}
