//! Commands as JSON.

ghost use Rattle.std.specs.Prelude.{◌≡◌, IfOk, string_bytes, true};
ghost use Rattle.serde_json.specs.Data.{object};
ghost use Rattle.serde_json.specs.Written.{compact_text, members_text};
ghost use Rattle.dia_book.specs.Dictionary.{plain_definition};
ghost use Rattle.dia_compat.specs.PairTests.{p_of};
ghost use Rattle.dia_compared_json.specs.Objects.{app_of, code_of, command_members, command_value, head_members};
ghost use Rattle.dia_compared_json.specs.Objects.{is_of_requests, p_value, plain_found};

use crate::arrays::{null_text, number_or_null};
use crate::words::p_word;
use dia_book::{Class, DefHead, Definition, Pxy};
use dia_refused_json::quoted;
use std::alloc::{AllocError, Global};

/// A command, if there is one.
pub fn command_or_null(alloc: Global, command: Option<&Definition>) -> Result<String, AllocError>
    ensures { IfOk result (λ text. string_bytes text
        ≡ compact_text (command_value (plain_found command.entry))) }
{
    match command {
        Some(command) => command_text(alloc, command),
        None => null_text(alloc),
    }
}

fn command_text(alloc: Global, command: &Definition) -> Result<String, AllocError>
    ensures { IfOk result (λ text. string_bytes text ≡ compact_text (object (command_members (plain_definition command.now)))) }
{
    let name = quoted(alloc, command.name.as_str())?;
    let selects = head_text(alloc, command.head)?;
    format!(in alloc; "{{\"command\":{name}{selects}")
}

/// The members of a header, with the closing brace.
fn head_text(alloc: Global, head: DefHead) -> Result<String, AllocError>
    ensures { IfOk result (λ text. string_bytes text ≡ members_text true (head_members head)) }
{
    let request = is_of_requests(head);
    let code = number_or_null(alloc, code_of(head))?;
    let app = number_or_null(alloc, app_of(head))?;
    let p = p_text(alloc, p_of(head))?;
    format!(in alloc; ",\"code\":{code},\"request\":{request},\"application\":{app},\"p\":{p}}}")
}

fn code_of(head: DefHead) -> Option<u32>
    ensures { result ≡ code_of head }
{
    match head {
        DefHead::Command { code, .. } => Some(code),
        DefHead::Group(_) | DefHead::Error { .. } => None,
    }
}

fn app_of(head: DefHead) -> Option<u32>
    ensures { result ≡ app_of head }
{
    match head {
        DefHead::Command { app, .. } => app,
        DefHead::Group(_) | DefHead::Error { .. } => None,
    }
}

fn is_of_requests(head: DefHead) -> bool
    ensures { result ≡ is_of_requests head }
{
    match head {
        DefHead::Command { class, .. } => class == Class::Request,
        DefHead::Group(_) | DefHead::Error { .. } => false,
    }
}

fn p_of(head: DefHead) -> Option<Pxy>
    ensures { result ≡ p_of head }
{
    match head {
        DefHead::Command { p, .. } => Some(p),
        DefHead::Error { p } => Some(p),
        DefHead::Group(_) => None,
    }
}

fn p_text(alloc: Global, p: Option<Pxy>) -> Result<String, AllocError>
    ensures { IfOk result (λ text. string_bytes text ≡ compact_text (p_value p)) }
{
    match p {
        Some(p) => quoted(alloc, p_word(p)),
        None => null_text(alloc),
    }
}
