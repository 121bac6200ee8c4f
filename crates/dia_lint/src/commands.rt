//! Which commands belong together.
ghost use Rattle.std.specs.Prelude.{◌≡◌, ◌<◌, ◌+◌, ◌^◌, IfOk, IfSome, Contains, length};
ghost use Rattle.std.specs.List.Sorted.{IsNonDecreasing};
ghost use Rattle.dia_book.specs.Dictionary.{definitions, groups, selected};
ghost use Rattle.dia_lint.specs.Pairs.{IsUnnamed, app_in, app_of, command_for, same_p};

use crate::books::command_at;
use dia_book::{Book, Class, DefHead, DefId, Pxy};
use std::alloc::{AllocError, Global};

/// A request.
#[derive(Clone, Copy)]
pub(crate) struct Request {
    pub def: DefId,
    pub p: Pxy,
}

/// An Application-ID that no command is for.
pub(crate) fn unnamed_app<B: Book>(alloc: Global, book: &B) -> Result<u32, AllocError>
    ensures { IfOk result (IsUnnamed (B.meaning book.now)) }
{
    let mut apps = Vec::new(alloc);
    for index in 0..book.commands() {
        if let Some(app) = app_in(book, command_at(book, index)) {
            apps.push(app)?;
        }
    }
    apps.sort()?;
    Ok(first_gap(&apps))
}

/// The Application-ID that a definition is for.
fn app_in<B: Book>(book: &B, def: DefId) -> Option<u32>
    requires { def < length (definitions (B.meaning book.now)) }
    ensures { result ≡ app_in (B.meaning book.now) def }
{
    app_of(&book.def(def).head)
}

fn app_of(head: &DefHead) -> Option<u32>
    ensures { result ≡ app_of head.now }
{
    match *head {
        DefHead::Group(_) => None,
        DefHead::Command { app, .. } => app,
        DefHead::Error { .. } => None,
    }
}

/// The least number that isn't in a list in order.
fn first_gap(numbers: &[u32]) -> u32
    requires sorted { IsNonDecreasing numbers.now }
    requires few { length numbers.now < 2 ^ 32 }
    ensures { ¬ Contains numbers.now result }
{
    let mut next: u32 = 0;
    for number in numbers {
        if *number == next {
            next = next.saturating_add(1);
        }
    }
    next
}

/// The definition that messages of this code, class and application select. Without an application it is the one without.
pub(crate) fn selected<B: Book>(
    book: &B,
    code: u32,
    class: Class,
    app: Option<u32>,
    unnamed: u32,
) -> Option<DefId>
    requires { IsUnnamed (B.meaning book.now) unnamed }
    ensures within { IfSome result (λ def. def < length (definitions (B.meaning book.now))) }
    ensures selected { result ≡ command_for (B.meaning book.now) code class app }
{
    match app {
        Some(app) => select(book, code, class, app),
        None => select(book, code, class, unnamed),
    }
}

/// The definition of a message.
pub(crate) fn select<B: Book>(book: &B, code: u32, class: Class, app: u32) -> Option<DefId>
    ensures within { IfSome result (λ def. def < length (definitions (B.meaning book.now))) }
    ensures selected { result ≡ selected (B.meaning book.now) code class app }
{
    book.select(code, class, app)
}

pub(crate) fn is_same_p(one: Pxy, other: Pxy) -> bool
    ensures { result ≡ same_p one other }
{
    one == other
}
