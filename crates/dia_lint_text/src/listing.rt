//! The lines of an answer.
ghost use Rattle.std.specs.Prelude.{◌≡◌, ◌++◌, ◌∷◌, [], List, ℕ, IfOk, OnOk, codes};
ghost use Rattle.std.specs.Prelude.{flat_map, if◌then◌else◌, map, slice_get, string_bytes};
ghost use Rattle.std.specs.List.{list_any};
ghost use Rattle.std.specs.Option.{option_copied, option_map_or};
ghost use Rattle.std.specs.Fmt.{decimal};
ghost use Rattle.json.specs.Print.{quoted};
ghost use Rattle.dia_accepted.specs.Accepted.{PlainEntry, PlainRecorded, accepts, plain_entry};
ghost use Rattle.dia_accepted.specs.Seen.{HasSeen};
ghost use Rattle.dia_explain_places.specs.Places.{column_at, line_at};
ghost use Rattle.dia_lint_text.specs.Asking.{question};
ghost use Rattle.dia_lint_text.specs.Cursors.{IsCursor};
ghost use Rattle.dia_lint_text.specs.Lines.{ending, is_accepted, left_of, line_by, line_of};
ghost use Rattle.dia_lint_text.specs.Lines.{recorded_of, recorded_by};
ghost use Rattle.dia_lint_text.specs.Lines.{words_by};
ghost use Rattle.dia_lint_text.specs.Listed.{IsListed};
ghost use Rattle.dia_lint_text.specs.Rows.{plain_row};

use crate::accepted::counted;
use crate::asked::Asked;
use crate::cursor::Cursor;
use crate::endings::push_ending;
use crate::objects::push_object;
use crate::parts::Parts;
use crate::sorting::Row;
use dia_accepted::{Accepting, Entry};
use dia_book::Book;
use dia_explain_places::Place;
use dia_lint::Finding;
use std::alloc::{AllocError, Global};

/// A line that is written, by the place of its text.
#[derive(Clone, Copy)]
pub(crate) struct Shown {
    /// The number of its rule.
    pub rule: u8,
    /// The offset of its place in the dictionary's text.
    pub at: usize,
}

/// The lines of an answer, and what was counted.
#[derive(Drop)]
pub(crate) struct Listing {
    pub text: String,
    /// What is shown of the lines, in their order.
    pub shown: Vec<Shown>,
    /// How many lines the list accepts.
    pub accepted: usize,
    /// The entries of the list that accept none.
    pub stale: Vec<Entry>,
}

impl Listing {
    ghost use Rattle.std.specs.Prelude.{◌≡◌, map};
    ghost use Rattle.dia_accepted.specs.Accepted.{plain_entry};
    ghost use Rattle.dia_lint_text.specs.Lines.{has_nothing};

    /// Whether there is nothing to report.
    pub fn is_empty(&self) -> bool
        ensures { result ≡ has_nothing (map (λ s. s.rule) self.now.shown.items) (map plain_entry self.now.stale.items) }
    {
        self.shown.is_empty() && self.stale.is_empty()
    }
}

/// The rows that a list doesn't accept.
#[derive(Drop)]
pub(crate) struct Left {
    pub text: String,
    pub shown: Vec<Shown>,
}

/// The lines of the findings that the list doesn't accept, and then those of its stale entries.
pub(crate) fn list_findings<B: Book>(
    alloc: Global,
    asked: &Asked<'_>,
    parts: &Parts<'_, B>,
    text: &str,
    findings: &[Finding],
    rows: &[Row],
    list: &[Entry],
) -> Result<Listing, AllocError>
    ensures { IfOk result (IsListed (question asked.now) (B.meaning parts.now.book.now) text.now findings.now
        (map plain_entry list.now) (map plain_row rows.now)) }
{
    let mut accepting = Accepting::new(alloc, list)?;
    let left = left_of(alloc, asked, parts, text, findings, rows, &mut accepting)?;
    let stale = accepting.unused(alloc)?;
    let accepted = rows.len().saturating_sub(left.shown.len());
    ended(alloc, asked.json, left, accepted, stale)
}

/// What the list leaves of the rows.
fn left_of<B: Book>(
    alloc: Global,
    asked: &Asked<'_>,
    parts: &Parts<'_, B>,
    text: &str,
    findings: &[Finding],
    rows: &[Row],
    accepting: &mut Accepting<'_>,
) -> Result<Left, AllocError>
    ensures text { IfOk result (λ left. (list : List PlainEntry) → HasSeen accepting.old list []
        → string_bytes left.text ≡ flat_map (line_of (question asked.now) (B.meaning parts.now.book.now) text.now findings.now)
        (left_of list findings.now (map plain_row rows.now))) }
    ensures shown { IfOk result (λ left. (list : List PlainEntry) → HasSeen accepting.old list []
        → map (λ s. s.rule) left.shown.items ≡ map (λ row. row.rule) (left_of list findings.now (map plain_row rows.now))) }
    ensures seen { IfOk result (λ left. (list : List PlainEntry) → HasSeen accepting.old list []
        → HasSeen accepting.new list (map (recorded_of findings.now) (map plain_row rows.now))) }
{
    let mut cursor = Cursor::new(text.as_bytes());
    let mut left = Left {
        text: String::new(alloc),
        shown: Vec::new(alloc),
    };
    for row in rows {
        let finding = finding_at(findings, row.finding);
        take_row(
            alloc,
            asked,
            parts,
            finding,
            row,
            accepting,
            &mut cursor,
            &mut left,
        )?;
    }
    Ok(left)
}

fn finding_at(findings: &[Finding], place: usize) -> Option<&Finding>
    ensures { option_copied result ≡ slice_get findings.now place }
{
    match findings.get(place) {
        Some(finding) => Some(finding),
        None => None,
    }
}

/// Adds a row, unless the list accepts it.
fn take_row<B: Book>(
    alloc: Global,
    asked: &Asked<'_>,
    parts: &Parts<'_, B>,
    finding: Option<&Finding>,
    row: &Row,
    accepting: &mut Accepting<'_>,
    cursor: &mut Cursor<'_>,
    left: &mut Left,
) -> Result<(), AllocError>
    requires { IsCursor cursor.old }
    ensures cursor { OnOk result (IsCursor cursor.new) }
    ensures place { OnOk result (cursor.new.text.now ≡ cursor.old.text.now) }
    ensures text { OnOk result ((list : List PlainEntry) (recorded : List PlainRecorded) → HasSeen accepting.old list recorded
        → string_bytes left.new.text ≡ string_bytes left.old.text
        ++ (if list_any (accepts (words_by (option_copied finding.entry) (plain_row row.now))) list then [] else
        option_map_or (line_by (question asked.now) (B.meaning parts.now.book.now) cursor.old.text.now (plain_row row.now))
        (option_copied finding.entry) [])) }
    ensures shown { OnOk result ((list : List PlainEntry) (recorded : List PlainRecorded) → HasSeen accepting.old list recorded
        → map (λ s. s.rule) left.new.shown.items ≡ map (λ s. s.rule) left.old.shown.items
        ++ (if list_any (accepts (words_by (option_copied finding.entry) (plain_row row.now))) list then [] else row.now.rule ∷ [])) }
    ensures seen { OnOk result ((list : List PlainEntry) (recorded : List PlainRecorded) → HasSeen accepting.old list recorded
        → HasSeen accepting.new list (recorded ++ recorded_by (option_copied finding.entry) (plain_row row.now) ∷ [])) }
{
    if is_accepted(alloc, accepting, finding, row)? {
        return Ok(());
    }
    let place = cursor.move_to(row.at);
    push_row(alloc, asked, parts, place, finding, row, left)
}

/// Whether the list accepts the line of a row.
fn is_accepted(
    alloc: Global,
    accepting: &mut Accepting<'_>,
    finding: Option<&Finding>,
    row: &Row,
) -> Result<bool, AllocError>
    ensures accepted { IfOk result (λ known. (list : List PlainEntry) (recorded : List PlainRecorded)
        → HasSeen accepting.old list recorded
        → known ≡ list_any (accepts (words_by (option_copied finding.entry) (plain_row row.now))) list) }
    ensures come { OnOk result ((list : List PlainEntry) (recorded : List PlainRecorded) → HasSeen accepting.old list recorded
        → HasSeen accepting.new list (recorded ++ recorded_by (option_copied finding.entry) (plain_row row.now) ∷ [])) }
{
    let words = words_of(alloc, finding, row)?;
    accepting.accepts(alloc, &words)
}

/// What counts of a row.
fn words_of(alloc: Global, finding: Option<&Finding>, row: &Row) -> Result<String, AllocError>
    ensures { IfOk result (λ made. string_bytes made ≡ words_by (option_copied finding.entry) (plain_row row.now)) }
{
    match finding {
        Some(finding) => counted(alloc, finding.rule, &row.subject, &row.detail),
        None => Ok(String::new(alloc)),
    }
}

/// Adds a row that the list leaves.
fn push_row<B: Book>(
    alloc: Global,
    asked: &Asked<'_>,
    parts: &Parts<'_, B>,
    place: Place,
    finding: Option<&Finding>,
    row: &Row,
    left: &mut Left,
) -> Result<(), AllocError>
    ensures text { OnOk result ((text : List ℕ) → place.line ≡ line_at text row.now.at → place.column ≡ column_at text row.now.at
        → string_bytes left.new.text ≡ string_bytes left.old.text
        ++ option_map_or (line_by (question asked.now) (B.meaning parts.now.book.now) text (plain_row row.now)) (option_copied finding.entry) []) }
    ensures shown { OnOk result (map (λ s. s.rule) left.new.shown.items ≡ map (λ s. s.rule) left.old.shown.items
        ++ row.now.rule ∷ []) }
{
    if let Some(finding) = finding {
        push_line(alloc, &mut left.text, asked, parts, place, finding, row)?;
    }
    left.shown.push(Shown {
        rule: row.rule,
        at: row.at,
    })?;
    Ok(())
}

fn push_line<B: Book>(
    alloc: Global,
    out: &mut String,
    asked: &Asked<'_>,
    parts: &Parts<'_, B>,
    place: Place,
    finding: &Finding,
    row: &Row,
) -> Result<(), AllocError>
    ensures { OnOk result ((text : List ℕ) → place.line ≡ line_at text row.now.at → place.column ≡ column_at text row.now.at
        → string_bytes out.new ≡ string_bytes out.old
        ++ line_by (question asked.now) (B.meaning parts.now.book.now) text (plain_row row.now) finding.now) }
{
    if asked.json {
        push_object(alloc, out, parts, asked.file, place, finding, &row.detail)
    } else {
        push_place(out, asked.file, place)?;
        push_words(out, finding.rule.word(), &row.subject, &row.detail)
    }
}

fn push_place(out: &mut String, file: &str, place: Place) -> Result<(), AllocError>
    ensures { OnOk result (string_bytes out.new ≡ string_bytes out.old
        ++ (file.now ++ codes ":" ++ decimal place.line ++ codes ":" ++ decimal place.column ++ codes ": ")) }
{
    let line = place.line;
    let column = place.column;
    write!(out, "{file}:{line}:{column}: ")
}

fn push_words(out: &mut String, rule: &str, subject: &str, detail: &str) -> Result<(), AllocError>
    ensures { OnOk result (string_bytes out.new ≡ string_bytes out.old
        ++ (rule.now ++ codes " " ++ subject.now ++ codes ": " ++ detail.now ++ codes "\n")) }
{
    write!(out, "{rule} {subject}: {detail}\n")
}

/// The lines, and what follows them.
fn ended(
    alloc: Global,
    json: bool,
    left: Left,
    accepted: usize,
    stale: Vec<Entry>,
) -> Result<Listing, AllocError>
    ensures text { IfOk result (λ listing. string_bytes listing.text ≡ string_bytes left.text
        ++ ending json (map (λ s. s.rule) left.shown.items) accepted (map plain_entry stale.items)) }
    ensures shown { IfOk result (λ listing. listing.shown ≡ left.shown) }
    ensures stale { IfOk result (λ listing. listing.stale ≡ stale) }
{
    let Left { mut text, shown } = left;
    push_ending(alloc, &mut text, json, &shown, accepted, &stale)?;
    Ok(Listing {
        text,
        shown,
        accepted,
        stale,
    })
}
