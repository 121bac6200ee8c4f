//! Dates of Times, read.
ghost use Rattle.std.specs.Prelude.{◌≡◌, ◌<◌, ◌≤◌, ◌+◌, ◌*◌, true, length, IfSome};
ghost use Rattle.dia_text.specs.Dates.{is_leap_year, days_in_year, days_in_month, days_of_years};
ghost use Rattle.dia_text.specs.Dates.{days_of_months, days_before, digits_at, date_days};
ghost use Rattle.dia_text.specs.Dates.{clock_seconds, has_signs, in_era, time_of};

use crate::numbers::number_below;

const SECONDS_OF_DAY: u64 = 86_400;

/// The first second whose number has 32 bits with the first one set: in 1968.
const FIRST: u64 = 1 << 31;

/// How many seconds 32 bits count.
const ERA: u64 = 1 << 32;

/// The length of `YYYY-MM-DDThh:mm:ssZ`.
const LENGTH: usize = 20;

/// The number of the Time of a date, `YYYY-MM-DDThh:mm:ssZ` (RFC 3339 section 5.6). Years are from 1968 to 2104.
pub(crate) fn time_of(text: &[u8]) -> Option<u32>
    ensures { result ≡ time_of text.now }
{
    if !has_signs(text) {
        return None;
    }
    let days = date_days(text)?;
    let clock = clock_seconds(text)?;
    in_era(days * SECONDS_OF_DAY + clock)
}

fn has_signs(text: &[u8]) -> bool
    ensures signs { result ≡ has_signs text.now }
    ensures long { result ≡ true → length text.now ≡ 20 }
{
    text.len() == LENGTH
        && (text[4] == b'-'
            && (text[7] == b'-'
                && (text[10] == b'T'
                    && (text[13] == b':' && (text[16] == b':' && text[19] == b'Z')))))
}

/// The 32 bits of a count of seconds.
fn in_era(seconds: u64) -> Option<u32>
    ensures { result ≡ in_era seconds }
{
    if seconds < FIRST {
        None
    } else if seconds < ERA {
        Some(seconds as u32)
    } else if seconds < ERA + FIRST {
        Some((seconds - ERA) as u32)
    } else {
        None
    }
}

/// The days from 1 January 1900 up to the date at the front.
fn date_days(text: &[u8]) -> Option<u64>
    requires { length text.now ≡ 20 }
    ensures days { result ≡ date_days text.now }
    ensures small { IfSome result (λ days. days < 4_000_000) }
{
    let year = digits_at(10_000, 0, 4, text)?;
    let month = digits_at(13, 5, 2, text)?;
    let day = digits_at(32, 8, 2, text)?;
    days_before(year, month, day)
}

/// The seconds of the day, after the date.
fn clock_seconds(text: &[u8]) -> Option<u64>
    requires { length text.now ≡ 20 }
    ensures seconds { result ≡ clock_seconds text.now }
    ensures small { IfSome result (λ seconds. seconds < 90_000) }
{
    let hour = digits_at(24, 11, 2, text)?;
    let minute = digits_at(60, 14, 2, text)?;
    let second = digits_at(60, 17, 2, text)?;
    Some(hour * 3600 + minute * 60 + second)
}

/// The number below a limit that so many digits from a place on write.
fn digits_at(limit: u64, place: usize, count: usize, text: &[u8]) -> Option<u64>
    requires { place + count ≤ length text.now }
    ensures value { result ≡ digits_at limit place count text.now }
    ensures small { IfSome result (λ n. n < limit) }
{
    let following = &text[place..];
    number_below(limit, &following[..count])
}

/// The days from 1 January 1900 up to a day, if the calendar has it.
fn days_before(year: u64, month: u64, day: u64) -> Option<u64>
    requires year { year < 10_000 }
    requires month { month < 13 }
    requires day { day < 32 }
    ensures days { result ≡ days_before year month day }
    ensures small { IfSome result (λ days. days < 4_000_000) }
{
    let leap = is_leap_year(year);
    if 1900 <= year && (1 <= month && (1 <= day && day <= days_in_month(leap, month))) {
        Some(days_of_years(year - 1900) + days_of_months(leap, month - 1) + (day - 1))
    } else {
        None
    }
}

/// The days of the first years from 1900 on.
fn days_of_years(years: u64) -> u64
    requires { years < 10_000 }
    ensures days { result ≡ days_of_years years }
    ensures small { result ≤ 366 * years }
{
    let mut days = 0;
    for year in 0..years {
        days += days_in_year(is_leap_year(1900 + year));
    }
    days
}

/// The days of the first months of a year.
fn days_of_months(leap: bool, months: u64) -> u64
    requires { months < 13 }
    ensures days { result ≡ days_of_months leap months }
    ensures small { result ≤ 31 * months }
{
    let mut days = 0;
    for month in 0..months {
        days += days_in_month(leap, month + 1);
    }
    days
}

fn is_leap_year(year: u64) -> bool
    ensures { result ≡ is_leap_year year }
{
    year % 4 == 0 && (year % 100 != 0 || year % 400 == 0)
}

fn days_in_year(leap: bool) -> u64
    ensures days { result ≡ days_in_year leap }
    ensures small { result ≤ 366 }
{
    if leap { 366 } else { 365 }
}

fn days_in_month(leap: bool, month: u64) -> u64
    ensures days { result ≡ days_in_month leap month }
    ensures small { result ≤ 31 }
{
    if month == 2 {
        if leap { 29 } else { 28 }
    } else if month == 4 || (month == 6 || (month == 9 || month == 11)) {
        30
    } else {
        31
    }
}
