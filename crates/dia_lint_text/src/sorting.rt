//! The findings that are reported, in the order of their lines.
ghost use Rattle.std.specs.Prelude.{◌≡◌, ◌∷◌, ◌++◌, [], IfOk, if◌then◌else◌, map, string_bytes, OnOk};
ghost use Rattle.dia_lint_text.specs.Asking.{has_in};
ghost use Rattle.dia_lint_text.specs.Names.{detail_text, subject_text};
ghost use Rattle.dia_lint_text.specs.Rows.{AreSorted, asked_rows, plain_row, row_of};

use crate::choice::Choice;
use crate::details::push_detail;
use crate::parts::Parts;
use crate::words::push_subject;
use dia_book::Book;
use dia_lint::{Detail, Finding, Subject};
use std::alloc::{AllocError, Global};

/// The line of a finding. Lines are ordered by offset, then by rule, then by words.
#[derive(Drop, PartialEq, Eq, PartialOrd, Ord)]
pub(crate) struct Row {
    /// The offset of its place.
    pub at: usize,
    /// The place of its rule among all.
    pub rule: u8,
    pub subject: String,
    pub detail: String,
    /// The place of the finding in the list.
    pub finding: usize,
}

/// The lines of these findings in their order, but for those of rules that aren't asked for.
pub(crate) fn rows<B: Book>(
    alloc: Global,
    parts: &Parts<'_, B>,
    text: &str,
    findings: &[Finding],
    choice: &Choice,
) -> Result<Vec<Row>, AllocError>
    ensures { IfOk result (λ rows. AreSorted (asked_rows (has_in choice.now.chosen.items) (B.meaning parts.now.book.now) parts.now.source.now (map (λ g. g.now) parts.now.groups.items)
        text.now findings.now)
        (map plain_row rows.items)) }
{
    let mut rows = unsorted(alloc, parts, text, findings, choice)?;
    rows.sort()?;
    Ok(rows)
}

fn unsorted<B: Book>(
    alloc: Global,
    parts: &Parts<'_, B>,
    text: &str,
    findings: &[Finding],
    choice: &Choice,
) -> Result<Vec<Row>, AllocError>
    ensures { IfOk result (λ rows. map plain_row rows.items
        ≡ asked_rows (has_in choice.now.chosen.items) (B.meaning parts.now.book.now) parts.now.source.now
        (map (λ g. g.now) parts.now.groups.items) text.now findings.now) }
{
    let mut rows = Vec::new(alloc);
    for index in 0..findings.len() {
        push_asked(
            alloc,
            &mut rows,
            parts,
            text,
            index,
            &findings[index],
            choice,
        )?;
    }
    Ok(rows)
}

/// Adds the line of a finding, if its rule is asked for.
fn push_asked<B: Book>(
    alloc: Global,
    rows: &mut Vec<Row>,
    parts: &Parts<'_, B>,
    text: &str,
    index: usize,
    finding: &Finding,
    choice: &Choice,
) -> Result<(), AllocError>
    ensures { OnOk result (map plain_row rows.new.items ≡ map plain_row rows.old.items
        ++ (if has_in choice.now.chosen.items finding.now.rule then row_of (B.meaning parts.now.book.now) parts.now.source.now
        (map (λ g. g.now) parts.now.groups.items) text.now (index, finding.now) ∷ [] else [])) }
{
    if choice.has(finding.rule) {
        rows.push(row_of(alloc, parts, text, index, finding)?)?;
    }
    Ok(())
}

fn row_of<B: Book>(
    alloc: Global,
    parts: &Parts<'_, B>,
    text: &str,
    index: usize,
    finding: &Finding,
) -> Result<Row, AllocError>
    ensures { IfOk result (λ row. plain_row row ≡ row_of (B.meaning parts.now.book.now) parts.now.source.now
        (map (λ g. g.now) parts.now.groups.items) text.now (index, finding.now)) }
{
    let subject = subject_words(alloc, parts, finding.subject)?;
    let detail = detail_words(alloc, parts, finding.detail)?;
    Ok(Row {
        at: parts.offset(text, finding.place),
        rule: finding.rule.number(),
        subject,
        detail,
        finding: index,
    })
}

fn subject_words<B: Book>(
    alloc: Global,
    parts: &Parts<'_, B>,
    subject: Subject,
) -> Result<String, AllocError>
    ensures { IfOk result (λ words. string_bytes words ≡ subject_text (B.meaning parts.now.book.now) subject) }
{
    let mut out = String::new(alloc);
    push_subject(&mut out, parts, subject)?;
    Ok(out)
}

fn detail_words<B: Book>(
    alloc: Global,
    parts: &Parts<'_, B>,
    detail: Detail,
) -> Result<String, AllocError>
    ensures { IfOk result (λ words. string_bytes words ≡ detail_text (B.meaning parts.now.book.now) detail) }
{
    let mut out = String::new(alloc);
    push_detail(&mut out, parts, detail)?;
    Ok(out)
}
