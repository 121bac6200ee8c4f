//! The base dictionary.
ghost use Rattle.std.specs.Prelude.{◌≡◌, IfOk, OnOk};
ghost use Rattle.dia_ccf.specs.Grammar.{Derives};
ghost use Rattle.dia_ccf.specs.CanonicalText.{canonical};
ghost use Rattle.dia_ccf.specs.Tokens.{tokens};
ghost use Rattle.dia_dict.specs.Base.{base, base_source};

mod building;
mod soundness;
mod tables;
mod text;

use crate::fault::DictFault;
use crate::plain_book::PlainBook;
use crate::resolving::resolve;
use dia_book::Book;
pub use soundness::base_is_sound;
use std::alloc::{AllocError, Global};
use text::TEXT;

/// The text of the base dictionary (after RFC 6733 sections 5 to 8; which rules and counts it lists is our profile), in
/// canonical form: the declarations by code, the groups by code, and the commands. Takes no memory.
pub fn base_text() -> &'static str
    ensures { result.now ≡ canonical base_source }
{
    TEXT
}

/// The base dictionary, which `base_text` writes down, made from tables without reading that text. The error comes only
/// where memory was refused.
pub fn base_book(alloc: Global) -> Result<PlainBook, AllocError>
    ensures meaning { IfOk result (λ book. ⟦<PlainBook as Book>⟧.meaning book ≡ base) }

    // so `parse` reads `base_text` as the source of this book
    ensures text { OnOk result (Derives (tokens (canonical base_source)) base_source) }
{
    match resolve(alloc, building::source(alloc)?) {
        Ok(book) => Ok(book),
        Err(DictFault::NoMemory) => Err(AllocError),
        Err(DictFault::Stands { .. }) => unreachable!(),
    }
}
