//! What fails the test of a pair itself.
ghost use Rattle.std.specs.Prelude.{◌≡◌, ◌<◌, ◌++◌, IfOk, OnOk, length, option_to_list, slice_get};
ghost use Rattle.std.specs.Prelude.{Some, ℕ, map, filter_map};
ghost use Rattle.std.specs.List.{list_any, enumerate_from};
ghost use Rattle.dia_book.specs.Dictionary.{DictEntry, PlainDefinition, plain_definition};
ghost use Rattle.dia_compat.specs.declared.reasons.Failing.TheVariants.{NotBeside};
ghost use Rattle.dia_compat.specs.PairTests.{plain_names, serves, is_ready};
ghost use Rattle.dia_compat.specs.Failings.{AreDeclarationFailings, is_tenth, unless};
ghost use Rattle.dia_compat.specs.Failings.{head_failings, name_failings, selection_failings};

use super::commands::{is_ready, set_of_pairs};
use super::covers::Cover;
use super::failing_rules::unless;
use super::heads::{is_proxiable, same_code_and_class, serves};
use super::pair_tests::{is_format_kept, is_m_kept};
use super::sides::Sides;
use crate::checking::Test;
use crate::reasons::Failing;
use dia_book::{Book, DefHead, Definition, Entry};
use indexmap::IndexSet;
use std::alloc::{AllocError, Global};

/// Whether the test is that of the pair itself.
pub(super) fn is_tenth(test: Test) -> bool
    ensures { result ≡ is_tenth test }
{
    matches!(test, Test::N10)
}

/// Adds a failing, unless the test is passed.
pub(super) fn push_unless(
    all: &mut Vec<Failing>,
    passed: bool,
    failing: Failing,
) -> Result<(), AllocError>
    ensures { OnOk result
        (all.new.items ≡ all.old.items ++ option_to_list (unless passed failing)) }
{
    if !passed {
        all.push(failing)?;
    }
    Ok(())
}

pub(super) fn push_found(all: &mut Vec<Failing>, found: Option<Failing>) -> Result<(), AllocError>
    ensures { OnOk result (all.new.items ≡ all.old.items ++ option_to_list found) }
{
    if let Some(failing) = found {
        all.push(failing)?;
    }
    Ok(())
}

/// Which of the two names no definition has.
pub(super) fn name_failings(
    alloc: Global,
    test: Test,
    first: bool,
    second: bool,
) -> Result<Vec<Failing>, AllocError>
    ensures { IfOk result (λ all. all.items ≡ name_failings test first second) }
{
    let mut all = Vec::new(alloc);
    if is_tenth(test) {
        push_unless(&mut all, first, Failing::FirstName)?;
        push_unless(&mut all, second, Failing::SecondName)?;
    }
    Ok(all)
}

/// Where the declaration of the second doesn't accept what that of the first sends.
pub(super) fn declaration_failings<A: Book, B: Book>(
    alloc: Global,
    a: &A,
    b: &B,
    first: Entry,
    second: Entry,
) -> Result<Vec<Failing>, AllocError>
    requires first { first < length (A.meaning a.now).entries }
    requires second { second < length (B.meaning b.now).entries }
    ensures { IfOk result
        (λ all. (e f : DictEntry) → slice_get (A.meaning a.now).entries first ≡ Some e
        → slice_get (B.meaning b.now).entries second ≡ Some f → AreDeclarationFailings e f all.items) }
{
    let mut all = Vec::new(alloc);
    let same = a.entry_key(first) == b.entry_key(second);
    push_unless(&mut all, same, Failing::Keys)?;
    let takes_flag = is_m_kept(a.rule(first), b.rule(second));
    push_unless(&mut all, takes_flag, Failing::MRules)?;
    let takes_format = is_format_kept(a.format(first), b.format(second));
    push_unless(&mut all, takes_format, Failing::Formats)?;
    Ok(all)
}

/// Where two commands can't correspond to each other.
pub(super) fn head_failings<A: Book, B: Book>(
    alloc: Global,
    cover: &Cover<'_, A, B>,
    first: &Definition,
    second: &Definition,
) -> Result<Vec<Failing>, AllocError>
    ensures { IfOk result (λ all. all.items ≡ head_failings cover.now
        (plain_definition first.now) (plain_definition second.now)) }
{
    let mut all = Vec::new(alloc);
    let same = same_code_and_class(&first.head, &second.head);
    push_unless(&mut all, same, Failing::Heads)?;
    let proxiable = is_proxiable(&first.head, &second.head);
    push_unless(&mut all, proxiable, Failing::PFlags)?;
    let mut selection = selection_failings(alloc, cover, first)?;
    all.append(&mut selection)?;
    Ok(all)
}

/// Whether the second has a definition for all messages of a command, and those of its commands that have no pair with it.
fn selection_failings<A: Book, B: Book>(
    alloc: Global,
    cover: &Cover<'_, A, B>,
    command: &Definition,
) -> Result<Vec<Failing>, AllocError>
    ensures { IfOk result
        (λ all. all.items ≡ selection_failings cover.now (plain_definition command.now)) }
{
    let mut all = Vec::new(alloc);
    let served = is_served(cover.sides().second(), &command.head);
    push_unless(&mut all, served, Failing::Unserved)?;
    let mut apart = commands_apart(alloc, cover, command)?;
    all.append(&mut apart)?;
    Ok(all)
}

/// Whether some command of the dictionary is selected for the messages of a command.
fn is_served<B: Book>(book: &B, head: &DefHead) -> bool
    ensures { result ≡ list_any (λ d. serves head.now d.head) (B.meaning book.now).commands }
{
    for index in 0..book.commands() {
        if serves(head, &book.def(book.command_at(index)).head) {
            return true;
        }
    }
    false
}

/// The commands of the second that may be selected for messages of a command and aren't paired with it in the table.
fn commands_apart<A: Book, B: Book>(
    alloc: Global,
    cover: &Cover<'_, A, B>,
    command: &Definition,
) -> Result<Vec<Failing>, AllocError>
    ensures { IfOk result (λ all. all.items ≡ filter_map
        (λ (p : ℕ × PlainDefinition). unless (is_ready cover.now.sides cover.now.table.commands
        (plain_definition command.now) p.1) (NotBeside p.0))
        (enumerate_from 0 cover.now.sides.second.commands)) }
{
    let beside = set_of_pairs(alloc, &cover.table().commands)?;
    apart_from(alloc, cover.sides(), &beside, command)
}

fn apart_from<A: Book, B: Book>(
    alloc: Global,
    sides: &Sides<'_, A, B>,
    beside: &IndexSet<(&str, &str)>,
    command: &Definition,
) -> Result<Vec<Failing>, AllocError>
    ensures { IfOk result (λ all. all.items ≡ filter_map
        (λ (p : ℕ × PlainDefinition). unless (is_ready sides.now (map plain_names beside.now.keys)
        (plain_definition command.now) p.1) (NotBeside p.0))
        (enumerate_from 0 sides.now.second.commands)) }
{
    let b = sides.second();
    let mut all = Vec::new(alloc);
    for index in 0..b.commands() {
        let other = b.def(b.command_at(index));
        let ready = is_ready(sides, beside, command, other);
        push_unless(&mut all, ready, Failing::NotBeside { second: index })?;
    }
    Ok(all)
}
