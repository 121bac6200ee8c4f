//! Commands of an application that say nothing beside the one without application.
ghost use Rattle.std.specs.Prelude.{◌≡◌, ◌<◌, IfOk, IfSome, length};
ghost use Rattle.dia_book.specs.Dictionary.{definitions};
ghost use Rattle.dia_lint.specs.Exact.{AreOf};
ghost use Rattle.dia_lint.specs.Pairs.{IsUnnamed};
ghost use Rattle.dia_lint.specs.SameCommands.{AreSameCommands, IsSameAs, beside, beside_head, general_with, is_general, same_finding};

use crate::books::{command_at, rules_of};
use crate::commands::{is_same_p, selected, unnamed_app};
use crate::detail::Detail;
use crate::finding::{Finding, push};
use crate::guidelines::at_head;
use crate::normal::are_alike;
use crate::rule::Rule;
use dia_book::{Book, Class, DefHead, DefId, Pxy};
use std::alloc::{AllocError, Global};

/// The commands with an application whose levels are those of the command of the same code, class and P flag without one, in the
/// dictionary's order.
pub fn command_findings<B: Book>(alloc: Global, book: &B) -> Result<Vec<Finding>, AllocError>
    ensures rules { IfOk result (λ found. AreOf Rule.SameCommand found.items) }
    ensures same_commands { IfOk result (λ found.
        AreSameCommands (B.meaning book.now) (length (B.meaning book.now).commands) found.items) }
{
    let unnamed = unnamed_app(alloc, book)?;
    let mut found = Vec::new(alloc);
    for index in 0..book.commands() {
        let def = command_at(book, index);
        let other = same_command(alloc, book, def, unnamed)?;
        push(&mut found, same_finding(def, other))?;
    }
    Ok(found)
}

fn same_finding(def: DefId, other: Option<DefId>) -> Option<Finding>
    ensures { result ≡ same_finding def other }
{
    match other {
        Some(other) => Some(at_head(def, Rule::SameCommand, Detail::As(other))),
        None => None,
    }
}

/// The command without application that has the levels of this command, if this one has an application.
fn same_command<B: Book>(
    alloc: Global,
    book: &B,
    def: DefId,
    unnamed: u32,
) -> Result<Option<DefId>, AllocError>
    requires within { def < length (definitions (B.meaning book.now)) }
    requires unnamed { IsUnnamed (B.meaning book.now) unnamed }
    ensures { IfOk result (IsSameAs (B.meaning book.now) def) }
{
    match beside(book, def, unnamed) {
        Some(other) => {
            if are_alike(alloc, rules_of(book, def), rules_of(book, other))? {
                Ok(Some(other))
            } else {
                Ok(None)
            }
        }
        None => Ok(None),
    }
}

/// The command of the same code, class and P flag without application, if this one has an application.
fn beside<B: Book>(book: &B, def: DefId, unnamed: u32) -> Option<DefId>
    requires within { def < length (definitions (B.meaning book.now)) }
    requires unnamed { IsUnnamed (B.meaning book.now) unnamed }
    ensures within { IfSome result (λ def. def < length (definitions (B.meaning book.now))) }
    ensures beside { result ≡ beside (B.meaning book.now) def }
{
    match book.def(def).head {
        DefHead::Group(_) => None,
        DefHead::Command {
            code,
            class,
            app,
            p,
        } => {
            app?;
            general_with(book, code, class, p, unnamed)
        }
        DefHead::Error { .. } => None,
    }
}

/// The command of this code, class and P flag without application.
fn general_with<B: Book>(book: &B, code: u32, class: Class, p: Pxy, unnamed: u32) -> Option<DefId>
    requires { IsUnnamed (B.meaning book.now) unnamed }
    ensures within { IfSome result (λ def. def < length (definitions (B.meaning book.now))) }
    ensures general { result ≡ general_with (B.meaning book.now) code class p }
{
    let other = selected(book, code, class, None, unnamed)?;
    if is_general(p, &book.def(other).head) {
        Some(other)
    } else {
        None
    }
}

/// Whether the head has no application, and this P flag.
fn is_general(p: Pxy, head: &DefHead) -> bool
    ensures { result ≡ is_general p head.now }
{
    match *head {
        DefHead::Group(_) => false,
        DefHead::Command { app, p: own, .. } => app.is_none() && is_same_p(own, p),
        DefHead::Error { .. } => false,
    }
}
