//! The data formats of AVPs. The expected answers were worked out by hand from RFC 6733 and from docs/FORMATS.md.
//!
//! ```text
//! accepts FORMAT DATA => Fine, BadLength or BadValue
//! lengths FORMAT => the one length of data that it accepts, or any
//! below FORMAT FORMAT => true or false
//! kind FORMAT => its name: its kind
//! copies FORMAT FORMAT => whether a copy of the first equals the second
//! print FORMAT DATA => TEXT
//! shortest FORMAT => its shortest data
//! witness FORMAT FORMAT => shortest data that the first accepts and the second doesn't
//! ```
//!
//! DATA is in hexadecimal. FORMAT is a word of dictionaries; `Enumerated(0..3,7..7)` has the list of these ranges. Each row of
//! `accepts` is also asked of a `LeafState` that is fed the data in two pieces, cut anywhere, and byte by byte. The answers of
//! `shortest` and `witness` are written as an OctetString is, and `-` is none.

use crate::words::{number_of, same};
use dia_breaking_data::{Witness, shortest, witness};
use dia_ccf::FormatName;
use dia_data::{
    Format, FormatKind, Leaf, Reading, Values, accepts, format_below, inclusion, print_value,
};
use dia_rows::{Names, Row, bytes_of, word};
use std::process::Abort;

mod accept;
mod below;
mod kinds;
mod leaf_state;
mod print;
mod values;
mod witness;

const TEXTS: [&str; 6] = [
    accept::ROWS,
    below::ROWS,
    kinds::ROWS,
    print::ROWS,
    leaf_state::ROWS,
    witness::ROWS,
];

#[test]
fn formats_answer(rt: HostRuntime) {
    inclusion();
    for text in TEXTS.iter() {
        answers(&rt, text);
    }
}

/// Checks each row of a text.
fn answers(rt: &(impl AllocGlobal + Abort), text: &str) {
    let mut names = Names::new(rt.alloc());
    for line in text.lines() {
        if let Some(row) = names.row(line).expect(rt, line) {
            answer(rt, &row);
        }
    }
}

/// Checks a row.
fn answer(rt: &(impl AllocGlobal + Abort), row: &Row<'_>) {
    let format = format_of(rt, word(row.call, 1));
    let second = word(row.call, 2);
    match word(row.call, 0) {
        "accepts" => is_accepted(rt, row, &format, second),
        "kind" => is_kind(rt, row, &format),
        "lengths" => has_length(rt, row, &format),
        "print" => is_printed(rt, row, &format, second),
        "shortest" => is_data(rt, row, shortest(&format)),
        verb => answer_pair(rt, row, verb, &format, second),
    }
}

/// Checks a row of two formats.
fn answer_pair(
    rt: &(impl AllocGlobal + Abort),
    row: &Row<'_>,
    verb: &str,
    format: &Format,
    second: &str,
) {
    let second = format_of(rt, second);
    match verb {
        "below" => is_answer(rt, row, format_below(format, &second)),
        "copies" => is_answer(rt, row, is_copied(rt, format, &second)),
        _ => is_data(rt, row, witness(format, &second)),
    }
}

/// Checks whether data is accepted, whole and in pieces.
fn is_accepted(rt: &(impl AllocGlobal + Abort), row: &Row<'_>, format: &Format, digits: &str) {
    let data = bytes_of(rt.alloc(), digits.as_bytes()).expect(rt, row.line);
    let wanted = match row.wanted {
        "Fine" => Leaf::Fine,
        "BadLength" => Leaf::BadLength,
        _ => Leaf::BadValue,
    };
    is_leaf(rt, accepts(format, data.as_slice()), wanted, row.line);
    leaf_state::is_leaf_in_pieces(rt, format, data.as_slice(), wanted, row.line);
}

/// Checks the name and the kind of a format.
fn is_kind(rt: &(impl AllocGlobal + Abort), row: &Row<'_>, format: &Format) {
    let (name, kind) = (format.word(), kind_word(format.kind()));
    let found = format!(in rt.alloc(); "{name}: {kind}").expect(rt, "memory");
    same(rt, found.as_bytes(), row.wanted.as_bytes(), row.line);
}

fn kind_word(kind: FormatKind) -> &'static str {
    match kind {
        FormatKind::AnyBytes => "any bytes",
        FormatKind::FourBytes(Reading::Signed) => "4 bytes, signed",
        FormatKind::FourBytes(Reading::Unsigned) => "4 bytes, unsigned",
        FormatKind::FourBytes(Reading::Bits) => "4 bytes, no number",
        FormatKind::EightBytes(Reading::Signed) => "8 bytes, signed",
        FormatKind::EightBytes(Reading::Unsigned) => "8 bytes, unsigned",
        FormatKind::EightBytes(Reading::Bits) => "8 bytes, no number",
        FormatKind::Grouped => "AVPs",
        FormatKind::Address => "an address",
        FormatKind::Utf8String => "a text",
        FormatKind::DiameterIdentity => "an identity",
        FormatKind::DiameterUri => "a URI",
        FormatKind::Enumerated => "a listed number",
    }
}

/// Checks which lengths of data are accepted, up to 9 bytes.
fn has_length(rt: &impl Abort, row: &Row<'_>, format: &Format) {
    let data = [0xffu8; 9];
    for count in 0..10 {
        let is_fine = row.wanted == "any" || number_of(rt, row.wanted) as usize == count;
        let wanted = if is_fine { Leaf::Fine } else { Leaf::BadLength };
        is_leaf(rt, accepts(format, &data[..count]), wanted, row.line);
    }
}

/// Whether a copy of the first format equals the second.
fn is_copied(rt: &impl Abort, format: &Format, second: &Format) -> bool {
    let copy = format.clone().expect(rt, "memory");
    copy == *second
}

/// Checks an answer that is true or false.
fn is_answer(rt: &impl Abort, row: &Row<'_>, found: bool) {
    assert!(rt; found == (row.wanted == "true"), "{}", row.line);
}

/// Checks the text of data.
fn is_printed(rt: &(impl AllocGlobal + Abort), row: &Row<'_>, format: &Format, digits: &str) {
    let data = bytes_of(rt.alloc(), digits.as_bytes()).expect(rt, row.line);
    let found = print_value(rt.alloc(), format, data.as_slice()).expect(rt, "memory");
    same(rt, found.as_bytes(), row.wanted.as_bytes(), row.line);
}

/// Checks the data that was found, if any.
fn is_data(rt: &(impl AllocGlobal + Abort), row: &Row<'_>, found: Option<Witness>) {
    let Some(data) = found else {
        same(rt, b"-", row.wanted.as_bytes(), row.line);
        return;
    };
    let shown = print_value(rt.alloc(), &Format::OctetString, data.as_slice()).expect(rt, "memory");
    same(rt, shown.as_bytes(), row.wanted.as_bytes(), row.line);
}

/// Checks an answer.
fn is_leaf(rt: &impl Abort, found: Leaf, wanted: Leaf, line: &str) {
    assert!(rt; found == wanted, "{line}");
}

/// The format of a word.
fn format_of(rt: &(impl AllocGlobal + Abort), word: &str) -> Format {
    match word.strip_prefix("Enumerated(") {
        Some(list) => list_of(rt, list),
        None => plain_format(word).expect(rt, word),
    }
}

/// The format of a word without a list.
fn plain_format(word: &str) -> Option<Format> {
    Some(Format::named(FormatName::named(word)?, Values::any()))
}

/// The Enumerated format of a list of ranges.
fn list_of(rt: &(impl AllocGlobal + Abort), list: &str) -> Format {
    let mut ranges = Vec::new(rt.alloc());
    for range in list.trim_end_matches(')').split(',') {
        let (low, high) = range.split_once("..").expect(rt, list);
        let range = (number_of(rt, low), number_of(rt, high));
        ranges.push(range).ok().expect(rt, "memory");
    }
    Format::Enumerated(Values::new(rt.alloc(), ranges).expect(rt, "memory"))
}
