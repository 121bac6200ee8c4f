//! Hints about a token that is refused, where the cause is a common one.

use crate::dictionary::scene::Scene;
use crate::hints::hint_of;
use crate::kinds::{RETURNS, first_line, hint_of_text, is_cut_by_comment};
use crate::notes::push_line_column;
use dia_ccf::{CcfFault, Kind, Lexeme};
use dia_explain_places::{Note, nearest_name, place_of};
use dia_terms::format_words;

const DICTIONARY: &str =
    "a dictionary has lines %avp NAME CODE [vendor N] FORMAT RULE, and definitions <NAME> ::= < .. > \
    with their rules: `diacmd render @base` prints one";

/// Adds the hint about the token, if there is one.
pub fn push_cause(note: &mut Note, scene: &Scene<'_>) {
    if let Some(hint) = hint_of_text("dictionary", scene.text) {
        note.put_hint(hint);
    } else if let Some(format) = format_meant(scene) {
        note.put_near(format);
    } else if let Some(name) = unruled(scene) {
        push_unruled(note, scene, name);
    } else if let Some(hint) = hint_at(scene) {
        note.put_hint(hint);
    } else {
        push_last(note, scene);
    }
}

/// The format that is meant, where one is wanted and another word is found.
fn format_meant(scene: &Scene<'_>) -> Option<&'static str> {
    if scene.place != "Format" && scene.place != "VendorOrFormat" {
        return None;
    }
    let word = str::from_utf8(scene.word(scene.token)).ok()?;
    nearest_name(word, format_words())
}

/// The name in the declaration that ends where the rule of its M flag is wanted.
fn unruled(scene: &Scene<'_>) -> Option<Lexeme> {
    if scene.place == "MRule" && is_at_next(scene) {
        scene.declared()
    } else {
        None
    }
}

/// Whether the place is before a declaration or a definition, or at the end of a text that isn't cut.
fn is_at_next(scene: &Scene<'_>) -> bool {
    let next = scene.word(scene.token);
    if next.is_empty() {
        return !is_cut_by_comment(scene.text);
    }
    let following = scene.word(scene.following(scene.token));
    next == b"%avp".as_slice() || next == b"<".as_slice() || following == b"::=".as_slice()
}

/// Adds that a declaration has no rule of the M flag.
fn push_unruled(note: &mut Note, scene: &Scene<'_>, name: Lexeme) {
    note.put("hint: the declaration of ");
    note.put_shown(scene.word(Some(name)));
    note.put(" at ");
    push_line_column(note, place_of(scene.text, name.at));
    note.put(" ends without the rule of the M flag: add must, mustnot or any\n");
}

fn hint_at(scene: &Scene<'_>) -> Option<&'static str> {
    if let CcfFault::Limit { .. } = scene.misfit.fault {
        return Some("shorten the name");
    }
    if scene.token.is_none() && is_cut_by_comment(scene.text) {
        return Some(RETURNS);
    }
    let places = [before(scene), scene.place, "Token", following(scene)];
    match hint_of(&places, &scene.sight()) {
        None if scene.earlier.is_none() => Some(DICTIONARY),
        found => found,
    }
}

/// Which hints precede those of the place: a comment comes before it in a header, a longer word than %avp before a name where
/// the code is wanted, a format before the code, or the words must and not.
fn before(scene: &Scene<'_>) -> &'static str {
    let (Some(earlier), Some(last)) = (scene.earlier, scene.last) else {
        return "";
    };
    let between = scene.text.get(last.end..scene.misfit.at);
    if scene.place.starts_with("Head") && between.unwrap_or(b"".as_slice()).contains(&b';') {
        "Commented"
    } else if scene.place == "Code" && earlier.end == last.at {
        "Longer"
    } else if scene.place == "Code" && is_format_first(scene) {
        "Exchanged"
    } else if scene.text.get(earlier.at..last.end) == Some(b"must not".as_slice()) {
        "MustNot"
    } else {
        ""
    }
}

/// Whether a format is at the place, followed by a number that no format follows.
fn is_format_first(scene: &Scene<'_>) -> bool {
    let number = scene.following(scene.token);
    is_format(scene, scene.token)
        && number.is_some_and(|token| token.kind == Kind::Number)
        && !is_format(scene, after_code(scene, number))
}

/// The token after a code, and after a vendor, if there is one.
fn after_code(scene: &Scene<'_>, code: Option<Lexeme>) -> Option<Lexeme> {
    let next = scene.following(code);
    if scene.word(next) == b"vendor".as_slice() {
        scene.following(scene.following(next))
    } else {
        next
    }
}

fn is_format(scene: &Scene<'_>, token: Option<Lexeme>) -> bool {
    match str::from_utf8(scene.word(token)) {
        Ok(word) => format_words().contains(&word),
        Err(_) => false,
    }
}

/// Which hints follow those of the place: what a text seems to be where a token follows a name that begins a definition.
fn following(scene: &Scene<'_>) -> &'static str {
    let sight = scene.sight();
    if scene.place != "Assign" {
        ""
    } else if sight.word == b"AVP".as_slice() || first_line(sight.rest).contains(&b'|') {
        "Table"
    } else if sight.before == b">".as_slice() || scene.earlier.is_none() {
        ""
    } else {
        "Prose"
    }
}

/// Adds where the last accepted word is, if it is on another line: at the end of the text, and where the bracket after a name is
/// wanted.
fn push_last(note: &mut Note, scene: &Scene<'_>) {
    let Some(last) = scene.last else {
        return;
    };
    let place = place_of(scene.text, last.at);
    if place.line == place_of(scene.text, scene.misfit.at).line {
        return;
    }
    let recorded = if scene.token.is_none() {
        "hint: its last word is at "
    } else if scene.place == "Close" {
        "hint: the name before it is at "
    } else {
        return;
    };
    note.put(recorded);
    push_line_column(note, place);
    note.put("\n");
}
