//! Times: read, and written.

ghost use Rattle.std.specs.Prelude.{◌≡◌, ◌==◌, ◌<◌, ◌≤◌, ◌^◌, ◌++◌, IfSome, OnOk, length, position, string_bytes};
ghost use Rattle.std.specs.List.{list_all};
ghost use Rattle.std.specs.Char.{is_ascii_digit};
ghost use Rattle.dia_follow_text.specs.Times.{after, digit, digits_of, scale, seconds, six_digits, time_of, value, whole_time, with_decimals};

use std::alloc::AllocError;

const SECOND: u64 = 1_000_000_000;

/// The nanoseconds of a time: 1 to 10 digits of seconds, with a point and 1 to 9 digits after them or without.
pub(crate) fn read_time(word: &[u8]) -> Option<u64>
    ensures { result ≡ time_of word.now }
{
    match point_of(word) {
        Some(point) => {
            let decimals = &word[point + 1..];
            with_decimals(
                digits(&word[..point], 10),
                digits(decimals, 9),
                decimals.len(),
            )
        }
        None => whole_time(digits(word, 10)),
    }
}

fn point_of(word: &[u8]) -> Option<usize>
    ensures place { result ≡ position (λ byte. byte == 46) word.now }
    ensures inside { IfSome result (λ point. point < length word.now) }
{
    word.iter().position(|byte| *byte == b'.')
}

fn whole_time(seconds: Option<u64>) -> Option<u64>
    requires { IfSome seconds (λ seconds. seconds < 10 ^ 10) }
    ensures { result ≡ whole_time seconds }
{
    match seconds {
        Some(seconds) => Some(seconds * SECOND),
        None => None,
    }
}

fn with_decimals(seconds: Option<u64>, decimals: Option<u64>, count: usize) -> Option<u64>
    requires seconds { IfSome seconds (λ seconds. seconds < 10 ^ 10) }
    requires decimals { IfSome decimals (λ decimals. decimals < 10 ^ 10) }
    ensures { result ≡ with_decimals seconds decimals count }
{
    let Some(seconds) = seconds else {
        return None;
    };
    let Some(decimals) = decimals else {
        return None;
    };
    Some(seconds * SECOND + decimals * scale(count))
}

/// The number that 1 to so many digits are.
fn digits(word: &[u8], most: usize) -> Option<u64>
    requires { most ≤ 10 }
    ensures value { result ≡ digits_of most word.now }
    ensures small { IfSome result (λ number. number < 10 ^ 10) }
{
    if word.is_empty() || word.len() > most || !are_digits(word) {
        return None;
    }
    Some(value(word))
}

fn are_digits(word: &[u8]) -> bool
    ensures { result ≡ list_all is_ascii_digit word.now }
{
    word.iter().all(|byte| byte.is_ascii_digit())
}

/// The number that digits are.
fn value(word: &[u8]) -> u64
    requires { length word.now ≤ 10 }
    ensures value { result ≡ value word.now }
    ensures small { result < 10 ^ 10 }
{
    let mut number = 0u64;
    for byte in word {
        number = number * 10 + digit(*byte);
    }
    number
}

/// What a digit counts.
fn digit(byte: u8) -> u64
    ensures value { result ≡ digit byte }
    ensures small { result ≤ 9 }
{
    u64::from(byte.saturating_sub(b'0').min(9))
}

/// How many nanoseconds the last of so many decimals counts.
fn scale(decimals: usize) -> u64
    ensures value { result ≡ scale decimals }
    ensures bound { result ≤ 100000000 }
{
    match decimals {
        1 => 100_000_000,
        2 => 10_000_000,
        3 => 1_000_000,
        4 => 100_000,
        5 => 10_000,
        6 => 1000,
        7 => 100,
        8 => 10,
        _ => 1,
    }
}

/// Adds nanoseconds as seconds, cut to microseconds.
pub(crate) fn push_seconds(text: &mut String, nanoseconds: u64) -> Result<(), AllocError>
    ensures { OnOk result (string_bytes text.new ≡ string_bytes text.old ++ seconds nanoseconds) }
{
    let seconds = nanoseconds / SECOND;
    write!(text, "{seconds}.")?;
    push_six_digits(text, nanoseconds % SECOND / 1000)
}

/// Adds the six decimals of so many millionths.
fn push_six_digits(text: &mut String, millionths: u64) -> Result<(), AllocError>
    ensures { OnOk result (string_bytes text.new ≡ string_bytes text.old ++ six_digits millionths) }
{
    let (first, second) = (millionths / 100_000 % 10, millionths / 10_000 % 10);
    let (third, fourth) = (millionths / 1000 % 10, millionths / 100 % 10);
    let (fifth, sixth) = (millionths / 10 % 10, millionths % 10);
    write!(text, "{first}{second}{third}{fourth}{fifth}{sixth}")
}

/// How long after another time a time is. `None` where one of them isn't known, or it goes back.
pub(crate) fn after(first: Option<u64>, second: Option<u64>) -> Option<u64>
    ensures { result ≡ after first second }
{
    let Some(first) = first else {
        return None;
    };
    let Some(second) = second else {
        return None;
    };
    if first <= second {
        Some(second - first)
    } else {
        None
    }
}
