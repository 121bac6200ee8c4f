//! What the readers of rows share.

use std::process::Abort;

/// A number in decimal digits.
pub fn number_of(rt: &impl Abort, word: &str) -> u32 {
    word.parse().expect(rt, word)
}

/// Two texts are the same, those of a row.
pub fn same(rt: &impl Abort, found: &[u8], wanted: &[u8], line: &str) {
    if found != wanted {
        let found = str::from_utf8(found).unwrap_or("bytes that are no text");
        rt.panic(format_args!("{line}\n found: {found}"));
    }
}
