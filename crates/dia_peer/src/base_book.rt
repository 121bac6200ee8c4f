//! The base dictionary, under which the messages of a connection are checked.

ghost use Rattle.std.specs.Prelude.{◌≡◌, ◌↔◌, IfOk, IsTrue};
ghost use Rattle.std.proofs.Props.{props};
ghost use mathlib.Core.Sum.{⊎_set};
ghost use Rattle.dia_dict.specs.Base.{base};
ghost use Rattle.dia_check.specs.declared.Unknown.TheVariants.{Kept};
ghost use Rattle.dia_check.specs.declared.Levels.TheVariants.{Any};
ghost use Rattle.dia_valid.specs.Valid.{IsValid};
ghost use Rattle.dia_answer.specs.Reports.{IsAnswered};

use dia_answer::{Made, Names, NoAnswer, answer};
use dia_check::{Levels, Refusal, Unknown, check};
use dia_dict::{Book, IndexedBook, base_book};
use std::alloc::{AllocError, Global};

#[derive(Drop)]
pub(crate) struct BaseBook {
    book: IndexedBook,
    ghost is_base: { ⟦<IndexedBook as Book>⟧.meaning book ≡ base } by { Prim.hlevel (props, ⊎_set) },
}

impl BaseBook {
    pub(crate) fn new(alloc: Global) -> Result<BaseBook, AllocError> {
        let plain = base_book(alloc)?;
        let book = IndexedBook::from_plain(alloc, plain)?;
        Ok(BaseBook { book })
    }

    /// Whether the bytes are a valid message, where unknown AVPs are accepted.
    pub(crate) fn is_valid(&self, alloc: Global, bytes: &[u8]) -> Result<bool, AllocError>
        ensures { IfOk result (λ valid. IsTrue valid ↔ IsValid base Kept Any bytes.now) }
    {
        match check(alloc, &self.book, Unknown::Kept, Levels::Any, bytes) {
            Ok(_) => Ok(true),
            Err(Refusal::Fault(_)) => Ok(false),
            Err(Refusal::Truncated) => Ok(false),
            Err(Refusal::Trailing) => Ok(false),
            Err(Refusal::NoMemory) => Err(AllocError),
            Err(Refusal::Spent) => Ok(false),
        }
    }

    /// The answer to a request that has a fault, or why there is none.
    pub(crate) fn answer(
        &self,
        alloc: Global,
        names: &Names<'_>,
        bytes: &[u8],
    ) -> Result<Result<Made, NoAnswer>, AllocError>
        ensures { IfOk result
            (IsAnswered base Kept Any names.now.host.now names.now.realm.now bytes.now) }
    {
        answer(alloc, &self.book, Unknown::Kept, Levels::Any, names, bytes)
    }
}
