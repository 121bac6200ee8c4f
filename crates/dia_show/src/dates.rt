//! The seconds of a Time as a date.

ghost use Rattle.std.specs.Prelude.{◌≡◌, ◌++◌, ◌+◌, ◌<◌, ◌≤◌, ◌^◌, OnOk, string_bytes};
ghost use Rattle.dia_show.specs.Dates.{AddsTime, IsDate, clock_text, date_text, days_in_month, days_in_year};
ghost use Rattle.dia_show.specs.Dates.{days_of_months, days_of_years, is_leap_year, seconds_of, two_digits};

use dia_data::push_decimal;
use std::alloc::AllocError;

const SECONDS_OF_DAY: u64 = 86_400;

/// The first number whose first bit is set, from which on numbers count from 1900.
const SINCE_1900: u64 = 2_147_483_648;

/// How many seconds 32 bits count.
const ERA: u64 = 4_294_967_296;

/// A day of the calendar.
#[derive(Clone, Copy)]
struct Date {
    year: u64,
    month: u64,
    day: u64,
}

/// Adds the date of a Time's number.
pub(crate) fn push_time(text: &mut String, number: u32) -> Result<(), AllocError>
    ensures { OnOk result (AddsTime number (string_bytes text.old) (string_bytes text.new)) }
{
    let seconds = seconds_of(u64::from(number));
    let date = date_of(seconds / SECONDS_OF_DAY);
    push_date(text, date)?;
    push_clock(text, seconds % SECONDS_OF_DAY)
}

/// The seconds since 1900.
fn seconds_of(number: u64) -> u64
    requires { number < 2 ^ 32 }
    ensures seconds { result ≡ seconds_of number }
    ensures bound { result < 2 ^ 33 }
{
    if number < SINCE_1900 {
        number + ERA
    } else {
        number
    }
}

/// The day that so many days come before, from 1 January 1900 on.
fn date_of(days: u64) -> Date
    requires { days < 2 ^ 33 }
    ensures { IsDate days result.year result.month result.day }
{
    let (years, rest) = years_of(days);
    let year = 1900 + years;
    let (months, rest) = months_of(is_leap_year(year), rest);
    Date {
        year,
        month: months + 1,
        day: rest + 1,
    }
}

/// The whole years since 1900, and the days after them.
fn years_of(days: u64) -> (u64, u64)
    requires { days < 2 ^ 33 }
    ensures parts { days ≡ days_of_years result.0 + result.1 }
    ensures within { result.1 < days_in_year (is_leap_year (1900 + result.0)) }
    ensures bound { result.0 < 2 ^ 33 }
{
    let mut years = 0;
    let mut rest = days;
    while rest >= days_in_year(is_leap_year(1900 + years)) {
        rest -= days_in_year(is_leap_year(1900 + years));
        years += 1;
    }
    (years, rest)
}

/// The whole months of a year, and the days after them.
fn months_of(leap: bool, days: u64) -> (u64, u64)
    requires { days < days_in_year leap }
    ensures parts { days ≡ days_of_months leap result.0 + result.1 }
    ensures month { result.0 < 12 }
    ensures within { result.1 < days_in_month leap (result.0 + 1) }
{
    let mut months = 0;
    let mut rest = days;
    while rest >= days_in_month(leap, months + 1) {
        rest -= days_in_month(leap, months + 1);
        months += 1;
    }
    (months, rest)
}

fn is_leap_year(year: u64) -> bool
    ensures { result ≡ is_leap_year year }
{
    year % 4 == 0 && (year % 100 != 0 || year % 400 == 0)
}

fn days_in_year(leap: bool) -> u64
    ensures days { result ≡ days_in_year leap }
    ensures some { 1 ≤ result }
{
    if leap { 366 } else { 365 }
}

fn days_in_month(leap: bool, month: u64) -> u64
    ensures days { result ≡ days_in_month leap month }
    ensures some { 1 ≤ result }
{
    if month == 2 {
        if leap { 29 } else { 28 }
    } else if month == 4 || (month == 6 || (month == 9 || month == 11)) {
        30
    } else {
        31
    }
}

fn push_date(text: &mut String, date: Date) -> Result<(), AllocError>
    ensures { OnOk result (string_bytes text.new
        ≡ string_bytes text.old ++ date_text date.year date.month date.day) }
{
    push_decimal(text, date.year)?;
    push_part(text, "-", date.month)?;
    push_part(text, "-", date.day)
}

/// Adds the time of the day with so many seconds since 0h.
fn push_clock(text: &mut String, seconds: u64) -> Result<(), AllocError>
    ensures { OnOk result (string_bytes text.new ≡ string_bytes text.old ++ clock_text seconds) }
{
    push_part(text, "T", seconds / 3600)?;
    push_part(text, ":", seconds / 60 % 60)?;
    push_part(text, ":", seconds % 60)?;
    text.push_str("Z")
}

/// Adds a sign, and then a number with two digits or more.
fn push_part(text: &mut String, sign: &str, number: u64) -> Result<(), AllocError>
    ensures { OnOk result (string_bytes text.new
        ≡ string_bytes text.old ++ sign.now ++ two_digits number) }
{
    text.push_str(sign)?;
    if number < 10 {
        text.push_str("0")?;
        push_decimal(text, number)
    } else {
        push_decimal(text, number)
    }
}
