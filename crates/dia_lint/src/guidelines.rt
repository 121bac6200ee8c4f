//! Where a dictionary leaves what RFC 6733 and RFC 7423 recommend, by the rules of its commands alone.
//!
//! A rule *lists* an AVP if its greatest count is above 0, and *requires* it if its least count is.

ghost use Rattle.std.specs.Prelude.{◌≡◌, ◌<◌, [], IfOk, length};
ghost use Rattle.std.specs.Option.{option_map_or};
ghost use Rattle.dia_book.specs.Dictionary.{definitions, group_place};
ghost use Rattle.dia_lint.specs.Firsts.{AreFirsts};
ghost use Rattle.dia_lint.specs.Gathered.{gathered};
ghost use Rattle.dia_lint.specs.GuidelineLines.{guideline_lines, lines_of_command, lines_of_entry};
ghost use Rattle.dia_lint.specs.Guidelines.{about, at_head, at_rule, command_head, command_lines, group_lines};
ghost use Rattle.dia_lint.specs.Guidelines.{is_proxiable, is_request, only_if, own_lines};

mod base;
mod closed;
mod firsts;
mod numbers;
mod pairs;
mod results;
mod routing;
mod sessions;

use crate::base_avps::BaseAvp;
use crate::books::{command_at, group_of};
use crate::definitions::rule_or_head;
use crate::detail::Detail;
use crate::finding::{Finding, Named, Place, Subject, push};
use crate::rule::Rule;
use base::base_findings;
use closed::{closed_group, open_to_some};
use dia_book::{Book, Class, DRule, DefHead, DefId, Entry, Pxy};
use firsts::Firsts;
use numbers::number_findings;
use pairs::pair_findings;
use results::answer_findings;
use routing::{hop_findings, origin_findings, realm_findings};
use sessions::session_findings;
use std::alloc::{AllocError, Global};

/// The head of a command.
#[derive(Clone, Copy)]
pub(crate) struct Head {
    pub class: Class,
    /// None for errors.
    pub code: Option<u32>,
    pub app: Option<u32>,
    pub p: Pxy,
}

impl Head {
    ghost use Rattle.std.specs.Prelude.{◌≡◌};
    ghost use Rattle.dia_lint.specs.Guidelines.{is_proxiable, is_request};

    pub fn is_request(&self) -> bool
        ensures { result ≡ is_request self.now }
    {
        match self.class {
            Class::Request => true,
            Class::Answer => false,
            Class::Error => false,
        }
    }

    /// Whether the messages may be proxied.
    pub fn is_proxiable(&self) -> bool
        ensures { result ≡ is_proxiable self.now }
    {
        match self.p {
            Pxy::Clear => false,
            Pxy::Set => true,
            Pxy::Either => true,
        }
    }
}

/// The findings of all guidelines: those of the commands, and then those of the AVPs, in the dictionary's order.
pub fn guideline_findings<B: Book>(alloc: Global, book: &B) -> Result<Vec<Finding>, AllocError>
    ensures { IfOk result (λ found. found.items ≡ guideline_lines (B.meaning book.now)) }
{
    let mut found = all_of_commands(alloc, book)?;
    found.extend_from_slice(&all_of_entries(alloc, book)?)?;
    Ok(found)
}

fn all_of_commands<B: Book>(alloc: Global, book: &B) -> Result<Vec<Finding>, AllocError>
    ensures { IfOk result (λ found. found.items ≡ gathered (lines_of_command (B.meaning book.now)) (length (B.meaning book.now).commands)) }
{
    let firsts = Firsts::of(alloc, book)?;
    let mut found = Vec::new(alloc);
    for index in 0..book.commands() {
        found.extend_from_slice(&of_command(alloc, book, index, &firsts)?)?;
    }
    Ok(found)
}

/// The findings of the command at a place.
fn of_command<B: Book>(
    alloc: Global,
    book: &B,
    index: usize,
    firsts: &Firsts,
) -> Result<Vec<Finding>, AllocError>
    requires within { index < length (B.meaning book.now).commands }
    requires firsts { AreFirsts (B.meaning book.now) firsts.now }
    ensures { IfOk result (λ found. found.items ≡ lines_of_command (B.meaning book.now) index) }
{
    let def = command_at(book, index);
    let mut found = command_guidelines(alloc, book, def)?;
    found.extend_from_slice(&pair_findings(alloc, book, def, firsts)?)?;
    Ok(found)
}

fn all_of_entries<B: Book>(alloc: Global, book: &B) -> Result<Vec<Finding>, AllocError>
    ensures { IfOk result (λ found. found.items ≡ gathered (lines_of_entry (B.meaning book.now)) (length (B.meaning book.now).entries)) }
{
    let mut found = Vec::new(alloc);
    for index in 0..book.entries() {
        found.extend_from_slice(&of_entry(alloc, book, book.entry_at(index))?)?;
    }
    Ok(found)
}

/// The findings of an AVP.
fn of_entry<B: Book>(alloc: Global, book: &B, entry: Entry) -> Result<Vec<Finding>, AllocError>
    requires { entry < length (B.meaning book.now).entries }
    ensures { IfOk result (λ found. found.items ≡ lines_of_entry (B.meaning book.now) entry) }
{
    let mut found = of_group(alloc, book, entry)?;
    found.extend_from_slice(&base_findings(alloc, book, entry)?)?;
    Ok(found)
}

/// The findings of the entry's group, if it has one.
fn of_group<B: Book>(alloc: Global, book: &B, entry: Entry) -> Result<Vec<Finding>, AllocError>
    requires { entry < length (B.meaning book.now).entries }
    ensures { IfOk result (λ found. found.items ≡ option_map_or (group_lines (B.meaning book.now)) (group_place (B.meaning book.now) entry) []) }
{
    match group_of(book, entry) {
        Some(def) => group_guidelines(alloc, book, def),
        None => Ok(Vec::new(alloc)),
    }
}

/// The findings of a command by its head and its rules alone. A group has none.
pub fn command_guidelines<B: Book>(
    alloc: Global,
    book: &B,
    def: DefId,
) -> Result<Vec<Finding>, AllocError>
    requires { def < length (definitions (B.meaning book.now)) }
    ensures { IfOk result (λ found. found.items ≡ command_lines (B.meaning book.now) def) }
{
    let definition = book.def(def);
    match command_head(&definition.head) {
        Some(head) => own_findings(alloc, def, &head, &definition.rules),
        None => Ok(Vec::new(alloc)),
    }
}

/// The findings of a group by its rules alone.
pub fn group_guidelines<B: Book>(
    alloc: Global,
    book: &B,
    def: DefId,
) -> Result<Vec<Finding>, AllocError>
    requires { def < length (definitions (B.meaning book.now)) }
    ensures { IfOk result (λ found. found.items ≡ group_lines (B.meaning book.now) def) }
{
    let rules = &book.def(def).rules;
    let mut found = Vec::new(alloc);
    push(&mut found, open_to_some(def, rules))?;
    push(&mut found, closed_group(def, rules))?;
    Ok(found)
}

/// The head of a command.
pub(crate) fn command_head(head: &DefHead) -> Option<Head>
    ensures { result ≡ command_head head.now }
{
    match *head {
        DefHead::Group(_) => None,
        DefHead::Command {
            code,
            class,
            app,
            p,
        } => Some(Head {
            class,
            code: Some(code),
            app,
            p,
        }),
        DefHead::Error { p } => Some(Head {
            class: Class::Error,
            code: None,
            app: None,
            p,
        }),
    }
}

fn own_findings(
    alloc: Global,
    def: DefId,
    head: &Head,
    rules: &[DRule],
) -> Result<Vec<Finding>, AllocError>
    ensures { IfOk result (λ found. found.items ≡ own_lines def head.now rules.now) }
{
    let mut found = origin_findings(alloc, def, head, rules)?;
    found.extend_from_slice(&realm_findings(alloc, def, head, rules)?)?;
    found.extend_from_slice(&hop_findings(alloc, def, head, rules)?)?;
    found.extend_from_slice(&answer_findings(alloc, def, head, rules)?)?;
    found.extend_from_slice(&session_findings(alloc, def, head, rules)?)?;
    found.extend_from_slice(&number_findings(alloc, def, head, rules)?)?;
    Ok(found)
}

/// The finding, if the test holds.
pub(crate) fn only_if(test: bool, finding: Finding) -> Option<Finding>
    ensures { result ≡ only_if test finding }
{
    if test { Some(finding) } else { None }
}

/// A finding about a definition at its head.
pub(crate) fn at_head(def: DefId, rule: Rule, detail: Detail) -> Finding
    ensures { result ≡ at_head def rule detail }
{
    Finding {
        rule,
        place: Place::Head(def),
        subject: Subject::Definition(def),
        detail,
    }
}

/// A finding about a definition, at the rule of an AVP if it has one.
pub(crate) fn at_rule(
    def: DefId,
    rules: &[DRule],
    rule: Rule,
    avp: BaseAvp,
    detail: Detail,
) -> Finding
    ensures { result ≡ at_rule def rules.now rule avp detail }
{
    Finding {
        rule,
        place: rule_or_head(def, rules, avp),
        subject: Subject::Definition(def),
        detail,
    }
}

/// A finding about an AVP of the base protocol in the levels of a definition.
pub(crate) fn about(
    def: DefId,
    rules: &[DRule],
    rule: Rule,
    avp: BaseAvp,
    detail: Detail,
) -> Finding
    ensures { result ≡ about def rules.now rule avp detail }
{
    Finding {
        rule,
        place: rule_or_head(def, rules, avp),
        subject: Subject::Within(def, Named::Base(avp)),
        detail,
    }
}
