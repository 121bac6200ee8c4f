//! A dictionary out of a text.

ghost use Rattle.std.specs.Prelude.{◌≡◌, ◌≢◌, None, Some, IfOk, IfErr, IfSome, IsSome};
ghost use Rattle.dia_c_calls.specs.Held.{dict_in, text_in};
ghost use Rattle.dia_dict.specs.Base.{base};
ghost use Rattle.dia_dict.specs.Resolution.{first_wrong, resolved, IsRecordedOf};
ghost use Rattle.dia_ccf.specs.Plain.{plain_source};
ghost use Rattle.dia_ccf.specs.Faults.{IsFault};
ghost use Rattle.dia_c_calls.specs.Openings.{IsTextOf, IsRenderedOf, HasProblem, IsUnread, IsProblemOf, number_of, problem_of};

use crate::held::Held;
use dia_book::Book;
use dia_ccf::{CcfFault, Source, parse, render};
use dia_check::Room;
use dia_dict::{DictFault, DictKind, IndexedBook, PlainBook, base_book, resolve};
use std::alloc::{AllocError, AllocFailed, Global};
use std::sync::Arc;
use thiserror::Error;

/// Why a text is no dictionary.
#[repr(C)]
#[derive(Clone, Copy, Debug, PartialEq, Eq)]
pub struct Problem {
    /// Which kind it is.
    pub kind: u32,
    /// Of a kind below 10: the line, from 1.
    pub line: u32,
    /// Of `Syntax`: the token, from 1.
    pub token: u32,
}

/// The text is not UTF-8.
pub const NOT_TEXT: Problem = Problem {
    kind: 0,
    line: 0,
    token: 0,
};

/// Why there is no dictionary.
#[derive(Debug, Drop, Error)]
pub enum Refused {
    #[error("the text is no dictionary")]
    Bad(Problem),
    #[error("out of memory")]
    NoMemory,
}

impl From<AllocError> for Refused {
    ghost use Rattle.std.specs.Prelude.{◌≡◌};
    ghost use Rattle.dia_c_calls.specs.declared.opening.Refused.TheVariants.{NoMemory};

    ghost from_gives = { λ _ e. e ≡ NoMemory };

    fn from(_error: AllocError) -> Refused {
        Refused::NoMemory
    }
}

/// The dictionary of a text.
pub fn opened(alloc: Global, text: &[u8]) -> Result<Box<Held>, Refused>
    ensures text { IfOk result (λ held. IfSome (dict_in (Some held.value)) (IsTextOf text.now)) }
    ensures is_dict { IfOk result (λ held. IsSome (dict_in (Some held.value))) }
    ensures problem { IfErr result (λ e. (p : Problem) → e ≡ Refused.Bad p → HasProblem text.now p) }
{
    let Ok(words) = str::from_utf8(text) else {
        return Err(Refused::Bad(NOT_TEXT));
    };
    match parse(alloc, words) {
        Ok(source) => named(alloc, source),
        Err(fault) => Err(problem_of(fault)),
    }
}

/// The problem of a fault of a text.
fn problem_of(fault: CcfFault) -> Refused
    ensures { (p : Problem) → result ≡ Refused.Bad p → (fault ≢ CcfFault.NoMemory) × (p ≡ problem_of fault) }
{
    match fault {
        CcfFault::Syntax { token, line } => Refused::Bad(Problem {
            kind: 1,
            line,
            token,
        }),
        CcfFault::Number { line } => Refused::Bad(Problem {
            kind: 2,
            line,
            token: 0,
        }),
        CcfFault::Limit { line } => Refused::Bad(Problem {
            kind: 3,
            line,
            token: 0,
        }),
        CcfFault::NoMemory => Refused::NoMemory,
    }
}

/// The kind and the token of a fault of a text.
pub fn misfit_numbers(fault: CcfFault) -> (u32, u32)
    ensures kind { result.0 ≡ (problem_of fault).kind }
    ensures token { result.1 ≡ (problem_of fault).token }
{
    match fault {
        CcfFault::Syntax { token, .. } => (1, token),
        CcfFault::Number { .. } => (2, 0),
        CcfFault::Limit { .. } => (3, 0),
        CcfFault::NoMemory => (0, 0),
    }
}

/// The dictionary that a source names.
fn named(alloc: Global, source: Source) -> Result<Box<Held>, Refused>
    ensures text { IfOk result (λ held. (first_wrong (plain_source source) ≡ None)
        × (dict_in (Some held.value) ≡ Some (resolved (plain_source source)))) }
    ensures problem { IfErr result (λ e. (p : Problem) → e ≡ Refused.Bad p → IsProblemOf (plain_source source) p) }
{
    match resolve(alloc, source) {
        Ok(book) => indexed(alloc, book),
        Err(DictFault::Stands { kind, .. }) => Err(Refused::Bad(Problem {
            kind: kind_number(kind),
            line: 0,
            token: 0,
        })),
        Err(DictFault::NoMemory) => Err(Refused::NoMemory),
    }
}

/// The built-in base dictionary.
pub fn base_opened(alloc: Global) -> Result<Box<Held>, AllocError>
    ensures { IfOk result (λ held. dict_in (Some held.value) ≡ Some base) }
{
    match indexed(alloc, base_book(alloc)?) {
        Ok(held) => Ok(held),
        Err(Refused::NoMemory) => Err(AllocError),
        Err(Refused::Bad(_)) => unreachable!(),
    }
}

/// The book with an index, and the first owner of it.
fn indexed(alloc: Global, book: PlainBook) -> Result<Box<Held>, Refused>
    ensures meaning { IfOk result (λ held. dict_in (Some held.value)
        ≡ Some (⟦<PlainBook as Book>⟧.meaning book)) }
    ensures no_memory { IfErr result (λ refused. refused ≡ Refused.NoMemory) }
{
    let indexed = IndexedBook::from_plain(alloc, book)?;
    match Arc::new(alloc, indexed) {
        Ok(owner) => boxed(alloc, Held::Dict(owner, Room::new(alloc))),
        Err(AllocFailed { .. }) => Err(Refused::NoMemory),
    }
}

/// What a handle is to hold, in a box.
pub fn boxed(alloc: Global, held: Held) -> Result<Box<Held>, Refused>
    ensures value { IfOk result (λ boxed. boxed.value ≡ held) }
    ensures no_memory { IfErr result (λ refused. refused ≡ Refused.NoMemory) }
{
    match Box::new(alloc, held) {
        Ok(boxed) => Ok(boxed),
        Err(AllocFailed { .. }) => Err(Refused::NoMemory),
    }
}

/// The number of a kind.
pub fn kind_number(kind: DictKind) -> u32
    ensures { result ≡ number_of kind }
{
    match kind {
        DictKind::Limit => 10,
        DictKind::DuplicateName => 11,
        DictKind::NoGroupFormat => 12,
        DictKind::HeaderMismatch => 13,
        DictKind::DuplicateKey => 14,
        DictKind::DuplicateCommand => 15,
        DictKind::UndefinedName => 16,
        DictKind::RepeatedSlot => 17,
        DictKind::MinOverMax => 18,
        DictKind::RequiredMin => 19,
        DictKind::OptionalMin => 20,
    }
}

/// The canonical text of a text's source.
pub fn canonical(alloc: Global, text: &[u8]) -> Result<Box<Held>, Refused>
    ensures text { IfOk result (λ held. IfSome (text_in (Some held.value)) (IsRenderedOf text.now)) }
    ensures is_text { IfOk result (λ held. IsSome (text_in (Some held.value))) }
    ensures problem { IfErr result (λ e. (p : Problem) → e ≡ Refused.Bad p → IsUnread text.now p) }
{
    let Ok(words) = str::from_utf8(text) else {
        return Err(Refused::Bad(NOT_TEXT));
    };
    match parse(alloc, words) {
        Ok(source) => {
            let rendered = render(alloc, &source)?;
            boxed(alloc, Held::Text(rendered.into_bytes()))
        }
        Err(fault) => Err(problem_of(fault)),
    }
}
