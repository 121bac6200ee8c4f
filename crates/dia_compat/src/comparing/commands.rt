//! The test of a pair of commands.
ghost use Rattle.std.specs.Prelude.{◌≡◌, ◌||◌, ◌&&◌, IfOk, map, ℕ, List};
ghost use Rattle.std.specs.List.{list_any, list_all};
ghost use Rattle.dia_book.specs.Dictionary.{plain_definition, IsCommandHead};
ghost use Rattle.dia_compat.specs.TableText.{plain_pair};
ghost use Rattle.dia_compat.specs.PairTests.{plain_names, is_pair, names_app, wants_app};
ghost use Rattle.dia_compat.specs.PairTests.{is_of_app, is_wanted, serves, same_code_and_class};
ghost use Rattle.dia_compat.specs.PairTests.{is_proxiable, is_ready, is_selected};

use super::by_code::{Commands, open_code};
use super::heads::{is_proxiable, same_code_and_class, serves};
use super::sides::Sides;
use dia_book::{Book, Class, DefHead, Definition};
use indexmap::IndexSet;
use std::alloc::{AllocError, Global};

/// The pairs as a set.
pub(super) fn set_of_pairs(
    alloc: Global,
    pairs: &[(String, String)],
) -> Result<IndexSet<(&str, &str)>, AllocError>
    ensures { IfOk result
        (λ set. (x y : List ℕ)
        → list_any (is_pair x y) (map plain_names set.keys) ≡ list_any (is_pair x y)
        (map plain_pair pairs.now)) }
{
    let mut set = IndexSet::new(alloc);
    for pair in pairs {
        set.insert((pair.0.as_str(), pair.1.as_str()))?;
    }
    Ok(set)
}

/// Whether the commands are of one code and class, and the second allows each value of P that the first does.
pub(super) fn may_stand_for(first: &Definition, second: &Definition) -> bool
    ensures { result ≡
        (same_code_and_class (plain_definition first.now).head (plain_definition second.now).head &&
        is_proxiable (plain_definition first.now).head (plain_definition second.now).head) }
{
    same_code_and_class(&first.head, &second.head) && is_proxiable(&first.head, &second.head)
}

/// Of each command of the first, in order, whether the table has each definition of the second that may be selected for its
/// messages, and there is one.
pub(super) fn all_selected<A: Book, B: Book>(
    alloc: Global,
    sides: &Sides<'_, A, B>,
    beside: &IndexSet<(&str, &str)>,
) -> Result<Vec<bool>, AllocError>
    ensures { IfOk result (λ all. all.items ≡ map
        (is_selected sides.now (map plain_names beside.now.keys)) sides.now.first.commands) }
{
    let commands = Commands::new(alloc, sides)?;
    selected_among(alloc, &commands, beside)
}

fn selected_among<A: Book, B: Book>(
    alloc: Global,
    commands: &Commands<'_, A, B>,
    beside: &IndexSet<(&str, &str)>,
) -> Result<Vec<bool>, AllocError>
    ensures { IfOk result (λ all. all.items ≡ map
        (is_selected commands.now (map plain_names beside.now.keys)) commands.now.first.commands) }
{
    let a = commands.sides().first();
    let mut all = Vec::new(alloc);
    for index in 0..a.commands() {
        all.push(is_selected(commands, beside, a.def(a.command_at(index))))?;
    }
    Ok(all)
}

/// Whether some command of the second is selected for messages of this one, and each that may be is paired with it.
fn is_selected<A: Book, B: Book>(
    commands: &Commands<'_, A, B>,
    beside: &IndexSet<(&str, &str)>,
    command: &Definition,
) -> bool
    requires { IsCommandHead command.now.head }
    ensures { result ≡
        is_selected commands.now (map plain_names beside.now.keys) (plain_definition command.now) }
{
    let sides = commands.sides();
    match open_code(command.head) {
        Some(code) => match commands.of_code(code) {
            Some(others) => has_all(sides, beside, command, others.as_slice()),
            None => false,
        },
        None => match commands.only_for(command.head) {
            Some(other) => occurs_beside(beside, command, other),
            None => false,
        },
    }
}

/// Whether one of these definitions of the second is selected for messages of the command, and each that may be is its pair.
fn has_all<A: Book, B: Book>(
    sides: &Sides<'_, A, B>,
    beside: &IndexSet<(&str, &str)>,
    command: &Definition,
    others: &[&Definition],
) -> bool
    ensures { result ≡ (list_any (λ d. serves command.now.head d.now.head) others.now && list_all
        (λ d. is_ready sides.now (map plain_names beside.now.keys)
        (plain_definition command.now) (plain_definition d.now)) others.now) }
{
    is_served(others, &command.head) && all_beside(sides, beside, command, others)
}

/// Whether the table has the definitions as a pair.
fn occurs_beside(beside: &IndexSet<(&str, &str)>, command: &Definition, other: &Definition) -> bool
    ensures { result ≡ list_any
        (is_pair (plain_definition command.now).name (plain_definition other.now).name)
        (map plain_names beside.now.keys) }
{
    beside.contains(&(command.name.as_str(), other.name.as_str()))
}

/// Whether one of these definitions is selected for the messages of a command.
fn is_served(others: &[&Definition], head: &DefHead) -> bool
    ensures { result ≡ list_any (λ d. serves head.now d.now.head) others.now }
{
    for other in others {
        if serves(head, &other.head) {
            return true;
        }
    }
    false
}

/// Whether each of these definitions of the second that may be selected for messages of the command is paired with it.
fn all_beside<A: Book, B: Book>(
    sides: &Sides<'_, A, B>,
    beside: &IndexSet<(&str, &str)>,
    command: &Definition,
    others: &[&Definition],
) -> bool
    ensures { result ≡ list_all
        (λ d. is_ready sides.now (map plain_names beside.now.keys)
        (plain_definition command.now) (plain_definition d.now)) others.now }
{
    for other in others {
        if !is_ready(sides, beside, command, other) {
            return false;
        }
    }
    true
}

/// Whether a command of the second isn't selected for messages of this one, or is paired with it.
pub(super) fn is_ready<A: Book, B: Book>(
    sides: &Sides<'_, A, B>,
    beside: &IndexSet<(&str, &str)>,
    command: &Definition,
    other: &Definition,
) -> bool
    ensures { result ≡ is_ready sides.now (map plain_names beside.now.keys)
        (plain_definition command.now) (plain_definition other.now) }
{
    !is_wanted(sides, &command.head, &other.head) || occurs_beside(beside, command, other)
}

/// Whether a command of the second may be selected for messages of one of the first.
pub(crate) fn is_wanted<A: Book, B: Book>(
    sides: &Sides<'_, A, B>,
    head: &DefHead,
    other: &DefHead,
) -> bool
    ensures { result ≡ is_wanted sides.now head.now other.now }
{
    match head {
        DefHead::Group(_) => false,
        DefHead::Command {
            code,
            class,
            app,
            ..
        } => match other {
            DefHead::Group(_) => false,
            DefHead::Command {
                code: other_code,
                class: other_class,
                app: other_app,
                ..
            } => {
                code == other_code
                    && class == other_class
                    && wants_app(sides, *code, *class, *app, *other_app)
            }
            DefHead::Error { .. } => false,
        },
        DefHead::Error { .. } => match other {
            DefHead::Group(_) => false,
            DefHead::Command { .. } => false,
            DefHead::Error { .. } => true,
        },
    }
}

/// Whether of a code and a class a command of the second with that application, or with none, may be selected for messages of a
/// command of the first with this.
fn wants_app<A: Book, B: Book>(
    sides: &Sides<'_, A, B>,
    code: u32,
    class: Class,
    app: Option<u32>,
    other: Option<u32>,
) -> bool
    ensures { result ≡ wants_app sides.now code class app other }
{
    match app {
        None => match other {
            None => true,
            Some(other) => !names_app(sides.first(), code, class, other),
        },
        Some(app) => match other {
            None => !names_app(sides.second(), code, class, app),
            Some(other) => app == other,
        },
    }
}

/// Whether a command of this code, this class and this very application exists.
fn names_app<B: Book>(book: &B, code: u32, class: Class, app: u32) -> bool
    ensures { result ≡ names_app (B.meaning book.now) code class app }
{
    match book.select(code, class, app) {
        Some(def) => is_of_app(&book.def(def).head, app),
        None => false,
    }
}

fn is_of_app(head: &DefHead, app: u32) -> bool
    ensures { result ≡ is_of_app head.now app }
{
    match head {
        DefHead::Group(_) => false,
        DefHead::Command { app: own, .. } => *own == Some(app),
        DefHead::Error { .. } => true,
    }
}
