//! The command, from its inputs to what is written.

ghost use Rattle.std.specs.Prelude.{◌≡◌, ◌↔◌, ℕ, List, Err, IfOk, IsTrue, None, Some, map, string_bytes, true};
ghost use Rattle.std.specs.Io.KnownBytes.{Appends};
ghost use Rattle.std.specs.Str.{IsUtf8};
ghost use Rattle.dia_accepted.specs.Accepted.{plain_entry};
ghost use Rattle.dia_ccf.specs.Plain.{plain_source};
ghost use Rattle.dia_io.specs.declared.Exit.{Exit as AnyExit};
ghost use Rattle.dia_io.specs.Writing.{AppendsFront};
ghost use Rattle.dia_lint.specs.Words.{rules};
ghost use Rattle.dia_lint.specs.declared.finding.Finding.{Finding as AnyFinding};
ghost use Rattle.dia_lint_text.specs.Asking.{asks, is_asked, question, stranger};
ghost use Rattle.dia_lint_text.specs.Lines.{exit_of};
ghost use Rattle.dia_lint_text.specs.Outcome.{AreFindings, AreOthers, IsLintOutcome, IsListing, bad_text, unasked_text};
ghost use Rattle.dia_lint_text.specs.Outcome.{no_list_text, no_rule_text};
ghost use Rattle.dia_refused_json.specs.Refusals.{text_of};
ghost use Rattle.dia_run.specs.Texts.{IsDictionaryText, IsPlacedIn, IsSourceText};

use crate::accepted::{BadList, read_accepted};
use crate::asked::Asked;
use crate::choice::Choice;
use crate::listing::{Listing, list_findings};
use crate::notes::{explain, explain_list, explain_nothing, explain_words};
use crate::objects::{bad_list_line, no_rule_line};
use crate::parts::Parts;
use crate::sorting::rows;
use dia_accepted::Entry;
use dia_book::Book;
use dia_dict::IndexedBook;
use dia_io::{Exit, Input, Inputs, RunFault, Sink, put_all};
use dia_lint::{
    Finding, command_findings, exact_findings, guideline_findings, range_findings, rule_findings,
};
use dia_refused_json::{refuse_as, text_of};
use dia_report::{Answered, ReadBook, Refused, Report, Reported};
use dia_run::read_dictionary;
use dia_terms::Unknown;
use std::alloc::{AllocError, Global};

/// Writes a line for each finding of the dictionary, the first input, that the list of accepted lines, the table's input, doesn't
/// accept; then each stale entry of the list. Without any it writes `nothing found`, or `nothing else found`.
///
/// What is written is made first, and then written in whatever pieces the sink takes. What standard error says is added to
/// `notes`; if memory is refused to that alone, they stay as they are.
pub fn write_lint<S: Sink>(
    alloc: Global,
    asked: &Asked<'_>,
    inputs: &Inputs,
    notes: &mut String,
    sink: &mut S,
) -> Result<Reported, RunFault>
    requires { ¬ IsTrue (S.has_failed sink.old) }
    ensures text { IfOk result (λ reported. (text : List ℕ)
        × IsLintOutcome (question asked.now) inputs.now text reported.exit
        × Appends (S.written sink.old) (S.written sink.new) text) }
    ensures device { (result ≡ Err RunFault.Device) ↔ IsTrue (S.has_failed sink.new) }
    ensures front { result ≡ Err RunFault.Device
        → (text : List ℕ) × (exit : AnyExit) × IsLintOutcome (question asked.now) inputs.now text exit
        × AppendsFront (S.written sink.old) (S.written sink.new) text }
    ensures no_memory { result ≡ Err RunFault.NoMemory → S.written sink.new ≡ S.written sink.old }
{
    let Answered { text, exit, report } = answer(alloc, asked, inputs, notes)?;
    put_all(sink, text.as_bytes())?;
    Ok(Reported { exit, report })
}

/// The text for the inputs, how the command ends, and what was found.
fn answer(
    alloc: Global,
    asked: &Asked<'_>,
    inputs: &Inputs,
    notes: &mut String,
) -> Result<Answered, AllocError>
    ensures { IfOk result (λ a. IsLintOutcome (question asked.now) inputs.now (string_bytes a.text) a.exit) }
{
    match Choice::of(alloc, asked)? {
        Ok(choice) => by_choice(alloc, asked, inputs, notes, &choice),
        Err(word) => no_rule(alloc, asked, inputs, notes, word),
    }
}

/// The answer where each word names a rule.
fn by_choice(
    alloc: Global,
    asked: &Asked<'_>,
    inputs: &Inputs,
    notes: &mut String,
    choice: &Choice,
) -> Result<Answered, AllocError>
    requires chosen { choice.now.chosen.items ≡ map (is_asked (question asked.now)) rules }
    requires known { stranger (question asked.now) ≡ None }
    ensures { IfOk result (λ a. IsLintOutcome (question asked.now) inputs.now (string_bytes a.text) a.exit) }
{
    if choice.has_any() {
        by_rules(alloc, asked, inputs, notes, choice)
    } else {
        explain_nothing(alloc, notes);
        nothing_asked(alloc, asked.json)
    }
}

/// The answer where some rule is asked for.
fn by_rules(
    alloc: Global,
    asked: &Asked<'_>,
    inputs: &Inputs,
    notes: &mut String,
    choice: &Choice,
) -> Result<Answered, AllocError>
    requires chosen { choice.now.chosen.items ≡ map (is_asked (question asked.now)) rules }
    requires known { stranger (question asked.now) ≡ None }
    requires some { asks (question asked.now) ≡ true }
    ensures { IfOk result (λ a. IsLintOutcome (question asked.now) inputs.now (string_bytes a.text) a.exit) }
{
    match read_dictionary(alloc, 1, &inputs.first) {
        Ok(read) => over_book(alloc, asked, inputs, notes, choice, &read),
        Err(Refused::Bad(bad)) => refuse_as(alloc, asked.json, &inputs.first, bad),
        Err(Refused::NoMemory) => Err(AllocError),
    }
}

/// The answer about a dictionary that was read.
fn over_book(
    alloc: Global,
    asked: &Asked<'_>,
    inputs: &Inputs,
    notes: &mut String,
    choice: &Choice,
    read: &ReadBook,
) -> Result<Answered, AllocError>
    requires chosen { choice.now.chosen.items ≡ map (is_asked (question asked.now)) rules }
    requires known { stranger (question asked.now) ≡ None }
    requires some { asks (question asked.now) ≡ true }
    requires source { IsSourceText inputs.now.first (plain_source read.now.source) }
    requires placed { IsPlacedIn inputs.now.first read.now.source }
    requires book { IsDictionaryText inputs.now.first (⟦<IndexedBook as Book>⟧.meaning read.now.book) }
    ensures { IfOk result (λ a. IsLintOutcome (question asked.now) inputs.now (string_bytes a.text) a.exit) }
{
    match read_accepted(alloc, &inputs.table, choice)? {
        Ok(list) => {
            let listing = listing_of(alloc, asked, inputs, choice, read, &list)?;
            explain(alloc, notes, asked.file, spelt(&inputs.first), &listing);
            Ok(listed(listing))
        }
        Err(bad) => no_list(alloc, asked, inputs, notes, bad),
    }
}

/// The text of an input that was read.
fn spelt(input: &Input) -> &str
    ensures { IsUtf8 (text_of input.now) → result.now ≡ text_of input.now }
{
    match str::from_utf8(text_of(input)) {
        Ok(text) => text,
        Err(_) => "",
    }
}

/// The listing of a dictionary.
fn listing_of(
    alloc: Global,
    asked: &Asked<'_>,
    inputs: &Inputs,
    choice: &Choice,
    read: &ReadBook,
    list: &[Entry],
) -> Result<Listing, AllocError>
    requires chosen { choice.now.chosen.items ≡ map (is_asked (question asked.now)) rules }
    requires text { IsUtf8 (text_of inputs.now.first) }
    ensures { IfOk result (λ listing. (found : List AnyFinding)
        × AreFindings (⟦<IndexedBook as Book>⟧.meaning read.now.book) asked.now.unknown found
        × IsListing (question asked.now) (⟦<IndexedBook as Book>⟧.meaning read.now.book) read.now.source (text_of inputs.now.first) found
        (map plain_entry list.now) (string_bytes listing.text)
        (exit_of (map (λ s. s.rule) listing.shown.items) (map plain_entry listing.stale.items))) }
{
    let text = spelt(&inputs.first);
    let parts = Parts::of(alloc, &read.source, &read.book)?;
    let findings = findings(alloc, &read.book, asked.unknown)?;
    let rows = rows(alloc, &parts, text, &findings, choice)?;
    list_findings(alloc, asked, &parts, text, &findings, &rows, list)
}

/// All findings of a dictionary.
fn findings<B: Book>(alloc: Global, book: &B, unknown: Unknown) -> Result<Vec<Finding>, AllocError>
    ensures { IfOk result (λ found. AreFindings (B.meaning book.now) unknown found.items) }
{
    let mut all = exact_findings(alloc, book, unknown)?;
    let others = others(alloc, book)?;
    all.extend_from_slice(&others)?;
    Ok(all)
}

/// The findings of the rules that `exact_findings` leaves out.
fn others<B: Book>(alloc: Global, book: &B) -> Result<Vec<Finding>, AllocError>
    ensures { IfOk result (λ found. AreOthers (B.meaning book.now) found.items) }
{
    let mut all = command_findings(alloc, book)?;
    let ranges = range_findings(alloc, book)?;
    let own_rules = rule_findings(alloc, book)?;
    let guidelines = guideline_findings(alloc, book)?;
    all.extend_from_slice(&ranges)?;
    all.extend_from_slice(&own_rules)?;
    all.extend_from_slice(&guidelines)?;
    Ok(all)
}

fn listed(listing: Listing) -> Answered
    ensures text { result.text ≡ listing.text }
    ensures exit { result.exit ≡ exit_of (map (λ s. s.rule) listing.shown.items) (map plain_entry listing.stale.items) }
{
    let exit = if listing.is_empty() {
        Exit::Yes
    } else {
        Exit::No
    };
    Answered {
        text: listing.text,
        exit,
        report: Report::Done,
    }
}

/// The answer where no rule is asked for.
fn nothing_asked(alloc: Global, json: bool) -> Result<Answered, AllocError>
    ensures text { IfOk result (λ a. string_bytes a.text ≡ unasked_text json) }
    ensures exit { IfOk result (λ a. a.exit ≡ Exit.Bad) }
{
    let text = String::from_str(alloc, unasked_line(json))?;
    Ok(bad(text))
}

fn unasked_line(json: bool) -> &'static str
    ensures { result.now ≡ unasked_text json }
{
    if json {
        "{\"error\":\"lint\",\"kind\":\"no rule\"}\n"
    } else {
        "lint: no rule\n"
    }
}

/// The line of a word that names no rule.
fn no_rule(
    alloc: Global,
    asked: &Asked<'_>,
    inputs: &Inputs,
    notes: &mut String,
    word: &str,
) -> Result<Answered, AllocError>
    requires { stranger (question asked.now) ≡ Some word.now }
    ensures { IfOk result (λ a. IsLintOutcome (question asked.now) inputs.now (string_bytes a.text) a.exit) }
{
    let text = no_rule_text(alloc, asked.json, word)?;
    explain_words(alloc, notes);
    Ok(bad(text))
}

fn no_rule_text(alloc: Global, json: bool, word: &str) -> Result<String, AllocError>
    ensures { IfOk result (λ text. string_bytes text ≡ no_rule_text json word.now) }
{
    if json {
        no_rule_line(alloc, word)
    } else {
        format!(in alloc; "lint: no rule {word}\n")
    }
}

/// The line of a list that is refused.
fn no_list(
    alloc: Global,
    asked: &Asked<'_>,
    inputs: &Inputs,
    notes: &mut String,
    why: BadList,
) -> Result<Answered, AllocError>
    ensures text { IfOk result (λ a. string_bytes a.text ≡ no_list_text asked.now.json inputs.now.table why) }
    ensures exit { IfOk result (λ a. a.exit ≡ Exit.Bad) }
{
    let list = text_of(&inputs.table);
    let text = no_list_text(alloc, asked.json, list, why)?;
    explain_list(alloc, notes, asked.list, list, why);
    Ok(bad(text))
}

fn no_list_text(alloc: Global, json: bool, list: &[u8], why: BadList) -> Result<String, AllocError>
    ensures { IfOk result (λ text. string_bytes text ≡ bad_text json list.now why) }
{
    if json {
        bad_list_line(alloc, list, why)
    } else {
        format!(in alloc; "accepted: {why}\n")
    }
}

fn bad(text: String) -> Answered
    ensures text { result.text ≡ text }
    ensures exit { result.exit ≡ Exit.Bad }
{
    Answered {
        text,
        exit: Exit::Bad,
        report: Report::Done,
    }
}
