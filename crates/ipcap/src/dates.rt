//! The date and the time of day of a number of seconds.

ghost use Rattle.std.specs.Prelude.{◌≡◌, ◌<◌, ◌↔◌, IsSome, Some};
ghost use Rattle.ipcap.specs.Dates.{date_text, date_time_of, date_time_text};

use jiff_core::civil;
use std::fmt;
use std::fmt::Formatter;

// The seconds of a day: the times of captures count no leap seconds.
const SECONDS_OF_DAY: u64 = 86_400;

/// A day of the Gregorian calendar. It is displayed as the `full-date` of RFC 3339 section 5.6.
#[derive(Clone, Copy)]
pub struct Date {
    /// The year.
    pub year: u16,
    /// The month, from 1.
    pub month: u8,
    /// The day of the month, from 1.
    pub day: u8,
}

/// A day and a time of day, to the second. It is displayed as the `date-time` of RFC 3339 section
/// 5.6 without the fraction of a second and without the offset from UTC.
#[derive(Clone, Copy)]
pub struct DateTime {
    /// The day.
    pub date: Date,
    /// The hour of the day, from 0.
    pub hour: u8,
    /// The minute of the hour, from 0.
    pub minute: u8,
    /// The second of the minute, from 0.
    pub second: u8,
}

/// The date and the time of day in UTC, so many seconds after 1970 began. The result is `None` if
/// the year has more than four digits, which is from 253402300800 seconds on.
pub fn date_time_of(seconds: u64) -> Option<DateTime>
    ensures some { IsSome result ↔ (seconds < 253_402_300_800) }
    ensures value { result ≡ date_time_of seconds }
{
    let days = (seconds / SECONDS_OF_DAY) as i64;
    let Ok(date) = civil::Date::from_unix_epoch_day(days) else {
        return None;
    };
    let time = civil::Time::from_second((seconds % SECONDS_OF_DAY) as u32, 0);
    Some(DateTime {
        date: Date {
            year: date.year as u16,
            month: date.month,
            day: date.day,
        },
        hour: time.hour,
        minute: time.minute,
        second: time.second,
    })
}

impl fmt::Display for Date {
    ghost output = { λ date. Some (date_text date) };

    #[tactic(auto, using(crate::proofs::Written::padded_with_zeros))]
    fn fmt<W: fmt::Write>(&self, f: &mut Formatter<W>) -> fmt::Result {
        let Date { year, month, day } = *self;
        write!(f, "{year:04}-{month:02}-{day:02}")
    }
}

impl fmt::Display for DateTime {
    ghost output = { λ time. Some (date_time_text time) };

    #[tactic(auto, using(crate::proofs::Written::padded_with_zeros))]
    fn fmt<W: fmt::Write>(&self, f: &mut Formatter<W>) -> fmt::Result {
        let DateTime {
            date,
            hour,
            minute,
            second,
        } = *self;
        write!(f, "{date}T{hour:02}:{minute:02}:{second:02}")
    }
}
