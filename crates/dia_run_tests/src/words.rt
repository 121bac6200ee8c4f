//! The words of a row.

use dia_check::{Levels, Unknown};
use std::ops::Range;
use std::process::Abort;

/// The policy for unknown AVPs.
pub fn policy_of(rt: &impl Abort, word: &str) -> Unknown {
    assert!(rt; word == "kept" || word == "refused");
    if word == "kept" {
        Unknown::Kept
    } else {
        Unknown::Refused
    }
}

/// The limit on levels.
pub fn levels_of(rt: &impl Abort, word: &str) -> Levels {
    if word == "any" {
        Levels::Any
    } else {
        Levels::AtMost(number_of(rt, word))
    }
}

/// A number in decimal digits.
pub fn number_of(rt: &impl Abort, word: &str) -> u32 {
    word.parse().expect(rt, word)
}

/// The numbers of `FROM..TO`.
pub fn range_of(rt: &impl Abort, word: &str) -> Range<usize> {
    let (from, to) = word.split_once("..").expect(rt, word);
    number_of(rt, from) as usize..number_of(rt, to) as usize
}

/// Two texts are the same, those of a row.
pub fn same(rt: &impl Abort, found: &[u8], wanted: &[u8], line: &str) {
    if found != wanted {
        let found = str::from_utf8(found).unwrap_or("bytes that are no text");
        rt.panic(format_args!("{line}\n found: {found}"));
    }
}
