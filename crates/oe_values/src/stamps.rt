//! Stamps.
//!
//! A stamp is seen as its seconds since 1900-01-01T00:00:00; by the invariant it lies before 2101.
//! `read` gives `None` exactly for a text that is no stamp. Nothing takes memory.
ghost use Rattle.std.specs.Prelude.{◌≡◌, ◌+◌, ◌*◌, ◌<◌, ◌≤◌, ◌∷◌, ◌++◌, ◌↔◌, ℕ, List, IsSome, IsNone, IfSome, Some, pos, ◌+ℤ◌, ◌≤ℤ◌, unsigned_abs};
ghost use Rattle.std.specs.List.{All};
ghost use Rattle.std.specs.Option.{option_map};
ghost use Rattle.jiff_core.specs.DateTime.{civil_seconds};
ghost use Rattle.oe_values.specs.Reading.{date_of, time_of, numbers_of, IsDay, IsSecond};
ghost use Rattle.oe_values.specs.Stamp.{date_text, time_text, IsCounted, SaysStamp};
ghost use Rattle.oe_values.specs.Text.{IsPrintable};
ghost use Rattle.oe_values.specs.declared.stamps.TheConstants.{SECONDS};

use crate::fronts::{after, pair};
use crate::texts::Text;
use jiff_core::civil;
use std::marker::Model;

/// The days from -9999-01-01, the first of the calendar's dates, to 1900-01-01.
const BEFORE_1900: u32 = 4_346_020;

/// The days from 1900-01-01 to 2101-01-01.
const DAYS: u32 = 73_414;

/// The seconds from 1900-01-01T00:00:00 to 2101-01-01T00:00:00: one more than the last stamp has.
pub const SECONDS: u64 = 6_342_969_600;

/// Reads the year, month and day of `YYYY-MM-DD` at the front, and what follows it.
#[inline]
#[tactic(auto, unfolding(crate::specs::Reading::date_of))]
fn date(text: &[u8]) -> Option<((u16, u8, u8), &[u8])>
    ensures { option_map (λ p. (p.0, p.1.now)) result ≡ date_of text.now }
{
    let (century, rest) = pair(text)?;
    let (of_century, rest) = pair(rest)?;
    let (month, rest) = pair(after(rest, b"-")?)?;
    let (day, rest) = pair(after(rest, b"-")?)?;
    let year = u16::from(century) * 100 + u16::from(of_century);
    Some(((year, month, day), rest))
}

/// Reads the hour, minute and second of `HH:MM:SS` at the front, and what follows it.
#[inline]
#[tactic(auto, unfolding(crate::specs::Reading::time_of))]
fn time(text: &[u8]) -> Option<((u8, u8, u8), &[u8])>
    ensures { option_map (λ p. (p.0, p.1.now)) result ≡ time_of text.now }
{
    let (hour, rest) = pair(text)?;
    let (minute, rest) = pair(after(rest, b":")?)?;
    let (second, rest) = pair(after(rest, b":")?)?;
    Some(((hour, minute, second), rest))
}

/// Gives the numbers of `YYYY-MM-DDTHH:MM:SS`.
#[inline]
#[tactic(auto, unfolding(crate::specs::Reading::numbers_of))]
fn numbers(text: &[u8]) -> Option<((u16, u8, u8), (u8, u8, u8))>
    ensures { result ≡ numbers_of text.now }
{
    let (date, rest) = date(text)?;
    let (time, rest) = time(after(rest, b"T")?)?;
    if rest.is_empty() {
        Some((date, time))
    } else {
        None
    }
}

/// Gives the days from 1900-01-01 to a date, where the calendar has it and it lies before 2101.
#[inline]
fn days_at(date: (u16, u8, u8)) -> Option<u32>
    ensures some { IfSome result (IsDay date.0 date.1 date.2) }
    ensures none { IsNone result → (n : ℕ) → IsDay date.0 date.1 date.2 n → ⊥ }
{
    let (year, month, day) = date;
    if year > 9_999 || month < 1 || month > 12 || day < 1 {
        return None;
    }
    let year = year as i16;
    if day > civil::days_in_month(year, month) {
        return None;
    }
    let days = civil::Date { year, month, day }.days_since_min();
    if days < BEFORE_1900 || days >= BEFORE_1900 + DAYS {
        return None;
    }
    Some(days - BEFORE_1900)
}

/// Gives the seconds from midnight to a time that the clock shows.
#[inline]
fn seconds_at(time: (u8, u8, u8)) -> Option<u32>
    ensures some { IfSome result (IsSecond time.0 time.1 time.2) }
    ensures none { IsNone result → (n : ℕ) → IsSecond time.0 time.1 time.2 n → ⊥ }
{
    let (hour, minute, second) = time;
    if hour > 23 || minute > 59 || second > 59 {
        return None;
    }
    Some(u32::from(hour) * 3600 + u32::from(minute) * 60 + u32::from(second))
}

/// Gives the seconds after 1900-01-01T00:00:00 at which the calendar and the clock have these
/// numbers, before 2101.
#[inline]
fn count(date: (u16, u8, u8), time: (u8, u8, u8)) -> Option<u64>
    ensures some { IfSome result (IsCounted date.0 date.1 date.2 time.0 time.1 time.2) }
    ensures none { IsNone result
        → (n : ℕ) → IsCounted date.0 date.1 date.2 time.0 time.1 time.2 n → ⊥ }
{
    let days = days_at(date)?;
    let seconds = seconds_at(time)?;
    Some(u64::from(days) * 86_400 + u64::from(seconds))
}

/// Reads the seconds after 1900-01-01T00:00:00 that `YYYY-MM-DDTHH:MM:SS` says.
fn read_seconds(text: &[u8]) -> Option<u64>
    ensures some { IfSome result (SaysStamp text.now) }
    ensures none { IsNone result → (n : ℕ) → SaysStamp text.now n → ⊥ }
{
    // So that no step of the reading asks how many bytes are left.
    if text.len() != 19 {
        return None;
    }
    let (date, time) = numbers(text)?;
    count(date, time)
}

/// Gives the date and time `seconds` seconds after 1900-01-01T00:00:00.
fn moment_at(seconds: u64) -> civil::DateTime
    requires { seconds < SECONDS }
    ensures seconds { pos seconds ≡ civil_seconds result +ℤ pos 2_208_988_800 }
    ensures since_1900 { pos 1900 ≤ℤ result.date.year }
{
    civil::DateTime {
        date: civil::Date::from_days_since_min(BEFORE_1900 + (seconds / 86_400) as u32),
        time: civil::Time::from_second((seconds % 86_400) as u32, 0),
    }
}

/// Spells `YYYY-MM-DDTHH:MM:SS` at a date from the year 0 on.
fn spelled(date: civil::Date, time: civil::Time) -> [u8; 19]
    requires { pos 0 ≤ℤ date.year }
    ensures value { result ≡ date_text (unsigned_abs date.year) date.month date.day
        ++ 84 ∷ time_text time.hour time.minute time.second }
    ensures printable { All IsPrintable result }
{
    let year = date.year as u16;
    let century = (year / 100) as u8;
    let of_century = (year % 100) as u8;
    [
        b'0' + century / 10,
        b'0' + century % 10,
        b'0' + of_century / 10,
        b'0' + of_century % 10,
        b'-',
        b'0' + date.month / 10,
        b'0' + date.month % 10,
        b'-',
        b'0' + date.day / 10,
        b'0' + date.day % 10,
        b'T',
        b'0' + time.hour / 10,
        b'0' + time.hour % 10,
        b':',
        b'0' + time.minute / 10,
        b'0' + time.minute % 10,
        b':',
        b'0' + time.second / 10,
        b'0' + time.second % 10,
    ]
}

/// A civil date and time with whole seconds, from 1900-01-01T00:00:00 to 2100-12-31T23:59:59.
#[derive(Clone, Copy, PartialEq, Eq)]
pub struct Stamp {
    since_1900: u64,
}

impl Model for Stamp {
    ghost Value = { ℕ };

    ghost view = { λ s. s.since_1900 };

    ghost invariant = { λ s. s.since_1900 < SECONDS };

    ghost inverse = { λ n. record { since_1900 = n } };
}

impl Stamp {
    /// Reads `YYYY-MM-DDTHH:MM:SS`: a date of the calendar from 1900 to 2100, and a time with
    /// seconds 00 to 59.
    pub fn read(text: &str) -> Option<Stamp>
        ensures some { IfSome result (SaysStamp text.now) }
        ensures reads { (n : ℕ) → SaysStamp text.now n → result ≡ Some n }
    {
        Stamp::read_bytes(text.as_bytes())
    }

    /// Reads a stamp from the text's bytes.
    #[inline]
    pub fn read_bytes(text: &[u8]) -> Option<Stamp>
        ensures some { IfSome result (SaysStamp text.now) }
        ensures reads { (n : ℕ) → SaysStamp text.now n → result ≡ Some n }
    {
        let since_1900 = read_seconds(text)?;
        Some(Stamp { since_1900 })
    }

    /// Gives the text `YYYY-MM-DDTHH:MM:SS`, which is the only one that says this stamp.
    pub fn text(self) -> Text<19, 19>
        ensures says { SaysStamp result self }
        ensures only { (text : List ℕ) → SaysStamp text self → text ≡ result }
    {
        match Text::read_bytes(&self.bytes()) {
            Some(text) => text,
            None => unreachable!(),
        }
    }

    /// Gives the bytes of that text.
    #[inline]
    pub fn bytes(self) -> [u8; 19]
        ensures says { SaysStamp result self }
        ensures only { (text : List ℕ) → SaysStamp text self → text ≡ result }
        ensures printable { All IsPrintable result }
    {
        let moment = moment_at(self.seconds());
        spelled(moment.date, moment.time)
    }

    /// Gives the stamp at these seconds after 1900-01-01T00:00:00; none past 2100-12-31T23:59:59.
    #[inline]
    pub fn from_seconds(seconds: u64) -> Option<Stamp>
        ensures variant { IsSome result ↔ (seconds < SECONDS) }
        ensures value { IfSome result (λ s. s ≡ seconds) }
    {
        if seconds >= SECONDS {
            return None;
        }
        Some(Stamp {
            since_1900: seconds,
        })
    }

    /// Gives the seconds after 1900-01-01T00:00:00, each civil day being 86,400.
    #[inline]
    pub fn seconds(self) -> u64
        ensures value { result ≡ self }
        ensures high { result < SECONDS }
    {
        self.since_1900
    }
}
