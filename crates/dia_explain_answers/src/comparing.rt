//! The diagnostic of a pair that fails a test.

mod pair;
mod pairing;
mod parts;
mod reasons;

use crate::sides::Side;
use dia_compat::{Answer, Failing, PairKind, Test};
use dia_explain_places::{InputTexts, Note};
use dia_report::Compared;
use pair::Pair;
use pairing::{Pairing, place_of_pair};
use parts::push_lines;
use reasons::{lines_of, more_of};

/// Adds the diagnostic of the first pair of a table that fails a test: its place, what the test asks, and why it fails.
pub fn push_compare(note: &mut Note, texts: &InputTexts<'_>, found: &Compared) {
    let Answer::No { kind, pair, reason } = found.answer else {
        return;
    };
    let pairing = Pairing {
        a: Side::of(&texts.first, &found.books.first),
        b: Side::of(&texts.second, &found.books.second),
        unknown: found.unknown,
        table: &found.table,
        name: texts.table.name,
        text: texts.table.text,
    };
    let at = place_of_pair(pairing.text, kind, pair);
    let asked = asked_by(reason, kind);
    note.put_start(pairing.name, pairing.text, at);
    note.put_all(&["this pair fails the test ", asked, "\n"]);
    match found.failings.first() {
        Some(failing) => push_pair(note, &pairing, kind, pair, *failing),
        None => {}
    }
}

/// What a test is about.
fn asked_by(test: Test, kind: PairKind) -> &'static str {
    match test {
        Test::N1 => "N1, of the fixed AVPs",
        Test::N2 => "N2, of the counts of AVPs that both list",
        Test::N3 => "N3, of the AVPs that the second doesn't list",
        Test::N4 => "N4, of the AVPs that need a pair of their own",
        Test::N5 => "N5, of the AVPs that only the second lists",
        Test::N6 => "N6, of the wildcard AVP",
        Test::N7 => "N7, of the greatest count of the wildcard AVP",
        Test::N8 => "N8, of the least count of the wildcard AVP",
        Test::N9 => "N9, of what the wildcard AVP lets in",
        Test::N10 => match kind {
            PairKind::Command => "N10, of the headers of commands",
            PairKind::Avp => "N10, of the declarations of AVPs",
        },
    }
}

/// Adds what shows that a pair fails the test, and the hint. Unknown names are not reported here.
fn push_pair(
    note: &mut Note,
    pairing: &Pairing<'_>,
    kind: PairKind,
    number: usize,
    failing: Failing,
) {
    if let Failing::FirstName | Failing::SecondName = failing {
        return;
    }
    let (pairs, all) = match kind {
        PairKind::Command => (
            &pairing.table.commands,
            "hint: `diacmd breaking{policy} {a} {b} {x}` lists all that breaks, if anything does",
        ),
        PairKind::Avp => (
            &pairing.table.avps,
            "hint: `diacmd breaking{policy} {a} {b}` lists all that breaks, if anything does",
        ),
    };
    if let Some(names) = pairs.get(number) {
        push_failing(note, &Pair::of(pairing, kind, failing, names), all)
    }
}

fn push_failing(note: &mut Note, pair: &Pair<'_>, all: &str) {
    push_lines(note, pair, lines_of(pair.failing));
    push_lines(note, pair, more_of(pair));
    push_lines(note, pair, all)
}
