//! Requests and their answers.
//!
//! The answer to a request is what its application selects, and without an application the answer without one.

ghost use Rattle.std.specs.Prelude.{◌≡◌, ◌<◌, ◌≤◌, false, IfOk, length};
ghost use Rattle.std.specs.Option.{option_map_or};
ghost use Rattle.dia_book.specs.Dictionary.{definitions, groups};
ghost use Rattle.dia_lint.specs.Firsts.{AreFirsts};
ghost use Rattle.dia_lint.specs.Pairs.{allows, answer_pairs, error_pairs, first_request, has_session};
ghost use Rattle.dia_lint.specs.Pairs.{is_not_allowed, is_of, no_answer, no_error, no_request, p_differs, pair_lines, pairs_of};
ghost use Rattle.dia_lint.specs.Pairs.{request_in, request_pairs, selector, session_lost};

use crate::base_avps::BaseAvp;
use crate::books::command_at;
use crate::commands::{Request, is_same_p};
use crate::definitions::lists;
use crate::detail::Detail;
use crate::finding::{Finding, push};
use crate::guidelines::firsts::{Firsts, answer_to, first_of, request_if};
use crate::guidelines::{Head, at_head, at_rule, command_head, only_if};
use crate::rule::Rule;
use dia_book::{Book, Class, DRule, DefId, Pxy};
use std::alloc::{AllocError, Global};

/// What is wrong between a request and its answer.
pub(super) fn pair_findings<B: Book>(
    alloc: Global,
    book: &B,
    def: DefId,
    firsts: &Firsts,
) -> Result<Vec<Finding>, AllocError>
    requires command { length (groups (B.meaning book.now)) ≤ def }
    requires within { def < length (definitions (B.meaning book.now)) }
    requires firsts { AreFirsts (B.meaning book.now) firsts.now }
    ensures { IfOk result (λ found. found.items ≡ pair_lines (B.meaning book.now) def) }
{
    let definition = book.def(def);
    match command_head(&definition.head) {
        Some(head) => pairs_of(alloc, book, def, &head, &definition.rules, firsts),
        None => Ok(Vec::new(alloc)),
    }
}

fn pairs_of<B: Book>(
    alloc: Global,
    book: &B,
    def: DefId,
    head: &Head,
    rules: &[DRule],
    firsts: &Firsts,
) -> Result<Vec<Finding>, AllocError>
    requires command { length (groups (B.meaning book.now)) ≤ def }
    requires within { def < length (definitions (B.meaning book.now)) }
    requires firsts { AreFirsts (B.meaning book.now) firsts.now }
    ensures { IfOk result (λ found. found.items ≡ pairs_of (B.meaning book.now) def head.now rules.now) }
{
    match head.class {
        Class::Request => request_findings(alloc, book, def, head, firsts),
        Class::Answer => answer_findings(alloc, book, def, head, rules, firsts),
        Class::Error => error_findings(alloc, book, def, head, rules),
    }
}

fn request_findings<B: Book>(
    alloc: Global,
    book: &B,
    def: DefId,
    head: &Head,
    firsts: &Firsts,
) -> Result<Vec<Finding>, AllocError>
    requires { AreFirsts (B.meaning book.now) firsts.now }
    ensures { IfOk result (λ found. found.items ≡ request_pairs (B.meaning book.now) def head.now) }
{
    let mut found = Vec::new(alloc);
    push(&mut found, no_answer(book, def, head, firsts))?;
    push(&mut found, no_error(book, def, firsts))?;
    Ok(found)
}

fn answer_findings<B: Book>(
    alloc: Global,
    book: &B,
    def: DefId,
    head: &Head,
    rules: &[DRule],
    firsts: &Firsts,
) -> Result<Vec<Finding>, AllocError>
    requires command { length (groups (B.meaning book.now)) ≤ def }
    requires within { def < length (definitions (B.meaning book.now)) }
    requires firsts { AreFirsts (B.meaning book.now) firsts.now }
    ensures { IfOk result (λ found. found.items ≡ answer_pairs (B.meaning book.now) def head.now rules.now) }
{
    let mut found = Vec::new(alloc);
    push(
        &mut found,
        no_request(def, head, first_of(&firsts.any, def)),
    )?;
    push(
        &mut found,
        p_differs(def, head, first_of(&firsts.unlike, def)),
    )?;
    push(
        &mut found,
        session_lost(def, rules, first_of(&firsts.session, def)),
    )?;
    Ok(found)
}

fn error_findings<B: Book>(
    alloc: Global,
    book: &B,
    def: DefId,
    head: &Head,
    rules: &[DRule],
) -> Result<Vec<Finding>, AllocError>
    ensures { IfOk result (λ found. found.items ≡ error_pairs (B.meaning book.now) def head.now rules.now) }
{
    let mut found = Vec::new(alloc);
    push(
        &mut found,
        p_differs(def, head, first_not_allowed(book, head.p)),
    )?;
    push(
        &mut found,
        session_lost(def, rules, first_with_session(book)),
    )?;
    Ok(found)
}

fn no_answer<B: Book>(book: &B, def: DefId, head: &Head, firsts: &Firsts) -> Option<Finding>
    requires { AreFirsts (B.meaning book.now) firsts.now }
    ensures { result ≡ no_answer (B.meaning book.now) def head.now }
{
    only_if(
        !answer_to(book, head, firsts.unnamed).is_some(),
        at_head(def, Rule::NoAnswer, selector(head)),
    )
}

fn no_request(def: DefId, head: &Head, first: Option<Request>) -> Option<Finding>
    ensures { result ≡ no_request def head.now first }
{
    only_if(
        !first.is_some(),
        at_head(def, Rule::NoRequest, selector(head)),
    )
}

fn selector(head: &Head) -> Detail
    ensures { result ≡ selector head.now }
{
    Detail::Selector {
        code: head.code.unwrap_or(0),
        app: head.app,
    }
}

/// Errors answer any request (RFC 6733 section 7.2).
fn no_error<B: Book>(book: &B, def: DefId, firsts: &Firsts) -> Option<Finding>
    requires { AreFirsts (B.meaning book.now) firsts.now }
    ensures { result ≡ no_error (B.meaning book.now) def }
{
    only_if(
        is_request(firsts.request, def) && !book.has_command(0, Class::Error),
        at_head(def, Rule::NoError, Detail::NoErrors),
    )
}

/// Whether the request is of this definition.
fn is_request(request: Option<Request>, def: DefId) -> bool
    ensures { result ≡ option_map_or (is_of def) request false }
{
    match request {
        Some(request) => request.def.index() == def.index(),
        None => false,
    }
}

/// An answer has the P flag of its request (RFC 6733 sections 6.2 and 7.2).
fn p_differs(def: DefId, head: &Head, request: Option<Request>) -> Option<Finding>
    ensures { result ≡ p_differs def head.now request }
{
    match request {
        Some(request) => {
            let detail = Detail::Proxiable {
                own: head.p,
                of: request.def,
                theirs: request.p,
            };
            Some(at_head(def, Rule::PDiffers, detail))
        }
        None => None,
    }
}

/// An answer has the Session-Id of its request (RFC 6733 section 6.2).
fn session_lost(def: DefId, rules: &[DRule], request: Option<Request>) -> Option<Finding>
    ensures { result ≡ session_lost def rules.now request }
{
    if lists(rules, BaseAvp::SessionId) {
        return None;
    }
    match request {
        Some(request) => {
            let detail = Detail::HasSession(request.def);
            Some(at_rule(def, rules, Rule::SessionLost, BaseAvp::SessionId, detail))
        }
        None => None,
    }
}

/// The first request that has Session-Id.
fn first_with_session<B: Book>(book: &B) -> Option<Request>
    ensures { result ≡ first_request (B.meaning book.now) has_session }
{
    let mut first = None;
    for index in 0..book.commands() {
        first = first.or(request_with_session(book, command_at(book, index)));
    }
    first
}

/// The definition, if it is a request that has Session-Id.
fn request_with_session<B: Book>(book: &B, def: DefId) -> Option<Request>
    requires { def < length (definitions (B.meaning book.now)) }
    ensures { result ≡ request_in (B.meaning book.now) has_session def }
{
    let definition = book.def(def);
    match command_head(&definition.head) {
        Some(head) => request_if(lists(&definition.rules, BaseAvp::SessionId), def, &head),
        None => None,
    }
}

/// The first request whose P flag errors with this one don't allow.
fn first_not_allowed<B: Book>(book: &B, own: Pxy) -> Option<Request>
    ensures { result ≡ first_request (B.meaning book.now) (is_not_allowed own) }
{
    let mut first = None;
    for index in 0..book.commands() {
        first = first.or(request_not_allowed(book, command_at(book, index), own));
    }
    first
}

/// The definition, if it is a request whose P flag errors with the other don't allow.
fn request_not_allowed<B: Book>(book: &B, def: DefId, own: Pxy) -> Option<Request>
    requires { def < length (definitions (B.meaning book.now)) }
    ensures { result ≡ request_in (B.meaning book.now) (is_not_allowed own) def }
{
    match command_head(&book.def(def).head) {
        Some(head) => request_if(!allows(own, head.p), def, &head),
        None => None,
    }
}

/// Whether errors with this P flag answer requests with the other.
fn allows(own: Pxy, theirs: Pxy) -> bool
    ensures { result ≡ allows own theirs }
{
    is_same_p(own, Pxy::Either) || is_same_p(own, theirs)
}
