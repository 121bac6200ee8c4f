//! The list of accepted lines.
ghost use Rattle.std.specs.Prelude.{◌≡◌, ◌++◌, IfErr, IfOk, IfSome, None, ◌+◌, ◌-◌, ◌≤◌, OnOk, Some};
ghost use Rattle.std.specs.Prelude.{map, string_bytes, codes, length};
ghost use Rattle.std.specs.Str.Lines.{lines};
ghost use Rattle.dia_accepted.specs.Accepted.{plain_entry};
ghost use Rattle.dia_accepted.specs.Words.{entry_text};
ghost use Rattle.dia_lint_text.specs.Asking.{has_in};
ghost use Rattle.dia_lint_text.specs.Lists.{HasLine, IsListText, IsNoListText, asked_entry, counted_words, dotted, entries_by};
ghost use Rattle.dia_lint_text.specs.Lists.{entries_from, fault_from, form_of, line_fault};
ghost use Rattle.dia_explain_places.specs.Tables.{start_of_line};
ghost use Rattle.dia_lint_text.specs.Forms.{plain_form};

use crate::choice::Choice;
use crate::form::{Form, form_of};
use dia_accepted::{Entry, MAX_LINES, MAX_LIST, entry_text};
use dia_explain_places::start_of_line;
use dia_io::Input;
use dia_lint::Rule;
use std::alloc::{AllocError, Global};
use std::fmt;
use thiserror::Error;

/// Why a text is no list of accepted lines.
#[derive(Clone, Copy, Debug, Error)]
pub(crate) enum BadList {
    /// More bytes than the text of a list may have.
    TooLong,
    /// Bytes that are no UTF-8, from this offset on.
    NotText { at: usize },
    /// The entry of the line has no form. The text has so many bytes up to the fault.
    Syntax { line: u32, at: usize },
    /// The line is one more than a list may have.
    Limit { line: u32 },
}

impl BadList {
    ghost use Rattle.std.specs.Prelude.{◌≡◌};
    ghost use Rattle.dia_lint_text.specs.Lists.{bad_list_word};

    /// Its word.
    pub fn word(self) -> &'static str
        ensures { result.now ≡ bad_list_word self }
    {
        match self {
            BadList::TooLong => "too long",
            BadList::NotText { .. } => "not text",
            BadList::Syntax { .. } => "syntax",
            BadList::Limit { .. } => "limit",
        }
    }

    /// Its offset in the text of the list.
    pub fn offset(self) -> Option<usize> {
        match self {
            BadList::NotText { at } | BadList::Syntax { at, .. } => Some(at),
            BadList::TooLong | BadList::Limit { .. } => None,
        }
    }
}

impl fmt::Display for BadList {
    ghost use Rattle.std.specs.Prelude.{Some};
    ghost use Rattle.dia_lint_text.specs.Lists.{bad_list_text};

    ghost output = { λ bad. Some (bad_list_text bad) };

    fn fmt<W: fmt::Write>(&self, f: &mut fmt::Formatter<W>) -> fmt::Result {
        match self {
            BadList::TooLong => write!(f, "too long"),
            BadList::NotText { .. } => write!(f, "not text"),
            BadList::Syntax { line, .. } => write!(f, "syntax at line {line}"),
            BadList::Limit { line } => write!(f, "limit at line {line}"),
        }
    }
}

/// The entries of a list whose rules are asked for, or why it is refused.
pub(crate) fn read_accepted(
    alloc: Global,
    input: &Input,
    choice: &Choice,
) -> Result<Result<Vec<Entry>, BadList>, AllocError>
    ensures list { IfOk result (λ read. IfOk read
        (λ list. IsListText (has_in choice.now.chosen.items) input.now (map plain_entry list.items))) }
    ensures bad { IfOk result (λ read. IfErr read (IsNoListText input.now)) }
{
    let Some(bytes) = input.within(MAX_LIST) else {
        return Ok(Err(BadList::TooLong));
    };
    match str::from_utf8(bytes) {
        Ok(text) => read_lines(alloc, text, choice),
        Err(error) => {
            let at = error.valid_up_to();
            Ok(Err(BadList::NotText { at }))
        }
    }
}

fn read_lines(
    alloc: Global,
    text: &str,
    choice: &Choice,
) -> Result<Result<Vec<Entry>, BadList>, AllocError>
    ensures entries { IfOk result (λ read. IfOk read (λ list. map plain_entry list.items
        ≡ entries_from (has_in choice.now.chosen.items) 1 (lines text.now))) }
    ensures form { IfOk result (λ read. IfOk read (λ list. fault_from text.now 1 (lines text.now) ≡ None)) }
    ensures fault { IfOk result (λ read. IfErr read (λ bad. fault_from text.now 1 (lines text.now) ≡ Some bad)) }
    ensures kinds { IfOk result (λ read. IfErr read HasLine) }
{
    let mut list = Vec::new(alloc);
    let mut line: u32 = 0;
    for words in text.lines() {
        line += 1;
        match line_fault(text, line, words) {
            Some(bad) => return Ok(Err(bad)),
            None => push_line(alloc, &mut list, line, words, choice)?,
        }
    }
    Ok(Ok(list))
}

/// What is wrong with a line of the text.
fn line_fault(text: &str, line: u32, words: &str) -> Option<BadList>
    ensures fault { result ≡ line_fault text.now line words.now }
    ensures kinds { IfSome result HasLine }
{
    if line > MAX_LINES {
        return Some(BadList::Limit { line });
    }
    let entry = entry_text(words);
    if entry.is_empty() {
        return None;
    }
    match form_of(entry) {
        Ok(_) => None,
        Err(rest) => Some(syntax(text, line, entry, rest)),
    }
}

/// The fault of an entry from where this rest of it begins.
fn syntax(text: &str, line: u32, entry: &str, rest: &str) -> BadList
    ensures { result ≡ BadList.Syntax line (start_of_line text.now line + (length entry.now - length rest.now)) }
{
    let at = line_start(text, line) + consumed(entry, rest);
    BadList::Syntax { line, at }
}

/// Where the line with a number begins.
fn line_start(text: &str, line: u32) -> usize
    ensures start { result ≡ start_of_line text.now line }
    ensures within { result ≤ length text.now }
{
    start_of_line(text.as_bytes(), line)
}

/// How many bytes of an entry precede its rest.
fn consumed(entry: &str, rest: &str) -> usize
    ensures value { result ≡ length entry.now - length rest.now }
    ensures within { result ≤ length entry.now }
{
    entry.len().saturating_sub(rest.len())
}

/// Adds the entry of a line, if it has one whose rule is asked for.
fn push_line(
    alloc: Global,
    list: &mut Vec<Entry>,
    line: u32,
    words: &str,
    choice: &Choice,
) -> Result<(), AllocError>
    ensures { OnOk result (map plain_entry list.new.items ≡ map plain_entry list.old.items
        ++ entries_by (has_in choice.now.chosen.items) line words.now) }
{
    let entry = entry_text(words);
    if entry.is_empty() {
        return Ok(());
    }
    match form_of(entry) {
        Ok(form) => push_entry(alloc, list, line, entry, &form, choice),
        Err(_) => Ok(()),
    }
}

fn push_entry(
    alloc: Global,
    list: &mut Vec<Entry>,
    line: u32,
    words: &str,
    form: &Form<'_>,
    choice: &Choice,
) -> Result<(), AllocError>
    ensures { OnOk result (map plain_entry list.new.items ≡ map plain_entry list.old.items
        ++ asked_entry (has_in choice.now.chosen.items) line words.now (plain_form form.now)) }
{
    if !choice.has(form.rule) {
        return Ok(());
    }
    let words = String::from_str(alloc, words)?;
    let counted = counted(alloc, form.rule, form.subject, form.detail)?;
    let counted = Vec::from_slice(alloc, counted.as_bytes())?;
    list.push(Entry {
        line,
        words,
        counted,
    })?;
    Ok(())
}

/// What counts of a line: `SUBJECT: RULE: DETAIL`, where a dot joins the names of SUBJECT.
pub(crate) fn counted(
    alloc: Global,
    rule: Rule,
    subject: &str,
    detail: &str,
) -> Result<String, AllocError>
    ensures { IfOk result (λ made. string_bytes made ≡ counted_words rule subject.now detail.now) }
{
    let mut out = dotted(alloc, subject)?;
    push_counted(&mut out, rule.word(), detail)?;
    Ok(out)
}

fn push_counted(out: &mut String, rule: &str, detail: &str) -> Result<(), AllocError>
    ensures { OnOk result (string_bytes out.new ≡ string_bytes out.old ++ (codes ": " ++ rule.now ++ codes ": " ++ detail.now)) }
{
    write!(out, ": {rule}: {detail}")
}

/// A subject with a dot for each slash.
fn dotted(alloc: Global, subject: &str) -> Result<String, AllocError>
    ensures { IfOk result (λ made. string_bytes made ≡ dotted subject.now) }
{
    let mut out = String::new(alloc);
    for c in subject.chars() {
        out.push(if c == '/' { '.' } else { c })?;
    }
    Ok(out)
}
