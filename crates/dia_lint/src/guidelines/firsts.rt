//! The first requests that each definition answers.

ghost use Rattle.std.specs.Prelude.{◌≡◌, ◌<◌, ◌+◌, ℕ, None, suc, IfOk, IfSome, length, replicate, slice_get};
ghost use Rattle.std.specs.Option.{option_map_or};
ghost use Rattle.dia_book.specs.Dictionary.{definitions, groups};
ghost use Rattle.dia_lint.specs.Firsts.{AreFirstOf, put_at};
ghost use Rattle.dia_lint.specs.Pairs.{IsUnnamed, answer_to, counts, first_request, is_any, is_unlike, request_if, request_in};

use crate::base_avps::BaseAvp;
use crate::books::command_at;
use crate::commands::{Request, is_same_p, selected, unnamed_app};
use crate::definitions::lists;
use crate::guidelines::{Head, command_head};
use dia_book::{Book, Class, DRule, DefId, Pxy};
use std::alloc::{AllocError, Global};

/// The first request of the dictionary, and for each definition the first ones that it is the answer to.
#[derive(Drop)]
pub(crate) struct Firsts {
    /// An Application-ID that no command is for.
    pub unnamed: u32,
    /// The first of the dictionary.
    pub request: Option<Request>,
    /// The first of each answer.
    pub any: Vec<Option<Request>>,
    /// The first whose P flag is another.
    pub unlike: Vec<Option<Request>>,
    /// The first with Session-Id.
    pub session: Vec<Option<Request>>,
}

/// Which requests of an answer count.
#[derive(Clone, Copy)]
pub(crate) enum Which {
    Any,
    /// Those whose P flag is another.
    Unlike,
    /// Those with Session-Id.
    Session,
}

impl Firsts {
    ghost use Rattle.std.specs.Prelude.{IfOk};
    ghost use Rattle.dia_lint.specs.Firsts.{AreFirsts};

    pub fn of<B: Book>(alloc: Global, book: &B) -> Result<Firsts, AllocError>
        ensures { IfOk result (AreFirsts (B.meaning book.now)) }
    {
        let unnamed = unnamed_app(alloc, book)?;
        let any = first_of_each(alloc, book, unnamed, Which::Any)?;
        let unlike = first_of_each(alloc, book, unnamed, Which::Unlike)?;
        let session = first_of_each(alloc, book, unnamed, Which::Session)?;
        Ok(Firsts {
            unnamed,
            request: first_any(book),
            any,
            unlike,
            session,
        })
    }
}

/// For each definition, the first of these requests that it is the answer to.
fn first_of_each<B: Book>(
    alloc: Global,
    book: &B,
    unnamed: u32,
    which: Which,
) -> Result<Vec<Option<Request>>, AllocError>
    requires { IsUnnamed (B.meaning book.now) unnamed }
    ensures { IfOk result (λ list. AreFirstOf (B.meaning book.now) which (length (B.meaning book.now).commands) list.items) }
{
    let mut list = none_for_each(alloc, definitions(book))?;
    for index in 0..book.commands() {
        see(&mut list, book, unnamed, which, command_at(book, index));
    }
    Ok(list)
}

/// Takes one command more into account.
fn see<B: Book>(list: &mut Vec<Option<Request>>, book: &B, unnamed: u32, which: Which, def: DefId)
    requires within { def < length (definitions (B.meaning book.now)) }
    requires unnamed { IsUnnamed (B.meaning book.now) unnamed }
    ensures { (n : ℕ) → def ≡ length (groups (B.meaning book.now)) + n → AreFirstOf (B.meaning book.now) which n list.old.items
        → AreFirstOf (B.meaning book.now) which (suc n) list.new.items }
{
    let definition = book.def(def);
    if let Some(head) = command_head(&definition.head) {
        if let Some(answer) = answer_to(book, &head, unnamed) {
            let counts = counts(book, which, answer, &head, &definition.rules);
            put_first(list, answer, request_if(counts, def, &head));
        }
    }
}

/// Whether a request of an answer counts.
fn counts<B: Book>(book: &B, which: Which, answer: DefId, head: &Head, rules: &[DRule]) -> bool
    requires { answer < length (definitions (B.meaning book.now)) }
    ensures { result ≡ counts (B.meaning book.now) which answer head.now rules.now }
{
    match which {
        Which::Any => true,
        Which::Unlike => is_unlike(book, answer, head.p),
        Which::Session => lists(rules, BaseAvp::SessionId),
    }
}

/// The first request of the dictionary.
fn first_any<B: Book>(book: &B) -> Option<Request>
    ensures { result ≡ first_request (B.meaning book.now) is_any }
{
    let mut first = None;
    for index in 0..book.commands() {
        first = first.or(request_of(book, command_at(book, index)));
    }
    first
}

/// The definition, if it is a request.
fn request_of<B: Book>(book: &B, def: DefId) -> Option<Request>
    requires { def < length (definitions (B.meaning book.now)) }
    ensures { result ≡ request_in (B.meaning book.now) is_any def }
{
    match command_head(&book.def(def).head) {
        Some(head) => request_if(true, def, &head),
        None => None,
    }
}

/// How many definitions the book has, if it has a command.
fn definitions<B: Book>(book: &B) -> usize
    ensures { 0 < length (B.meaning book.now).commands → result ≡ length (definitions (B.meaning book.now)) }
{
    if book.commands() == 0 {
        0
    } else {
        command_at(book, book.commands() - 1)
            .index()
            .saturating_add(1)
    }
}

fn none_for_each(alloc: Global, count: usize) -> Result<Vec<Option<Request>>, AllocError>
    ensures { IfOk result (λ list. list.items ≡ replicate count None) }
{
    let mut list = Vec::new(alloc);
    for _ in 0..count {
        list.push(None)?;
    }
    Ok(list)
}

fn put_first(firsts: &mut Vec<Option<Request>>, answer: DefId, request: Option<Request>)
    ensures { (k : ℕ) → slice_get firsts.new.items k ≡ put_at answer request k (slice_get firsts.old.items k) }
{
    if let Some(first) = firsts.get_mut(answer.index()) {
        let before = *first;
        *first = before.or(request);
    }
}

/// The first request of a definition.
pub(super) fn first_of(firsts: &[Option<Request>], def: DefId) -> Option<Request>
    ensures { result ≡ option_map_or (λ first. first) (slice_get firsts.now def) None }
{
    match firsts.get(def.index()) {
        Some(first) => *first,
        None => None,
    }
}

/// The command, if it is a request and the test holds.
pub(super) fn request_if(test: bool, def: DefId, head: &Head) -> Option<Request>
    ensures { result ≡ request_if test def head.now }
{
    if head.is_request() && test {
        Some(Request { def, p: head.p })
    } else {
        None
    }
}

pub(super) fn answer_to<B: Book>(book: &B, head: &Head, unnamed: u32) -> Option<DefId>
    requires { IsUnnamed (B.meaning book.now) unnamed }
    ensures within { IfSome result (λ def. def < length (definitions (B.meaning book.now))) }
    ensures answer { result ≡ answer_to (B.meaning book.now) head.now }
{
    match head.code {
        Some(code) => selected(book, code, Class::Answer, head.app, unnamed),
        None => None,
    }
}

/// Whether the P flag of this definition's messages is another one.
fn is_unlike<B: Book>(book: &B, def: DefId, p: Pxy) -> bool
    requires { def < length (definitions (B.meaning book.now)) }
    ensures { result ≡ is_unlike (B.meaning book.now) def p }
{
    match command_head(&book.def(def).head) {
        Some(head) => !is_same_p(head.p, p),
        None => false,
    }
}
