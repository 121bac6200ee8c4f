//! The list of accepted lines, as an input.

ghost use Rattle.std.specs.Prelude.{IfErr, IfOk, map};
ghost use Rattle.dia_accepted.specs.Accepted.{plain_entry};
ghost use Rattle.dia_upgrades.specs.Lists.{IsListText, IsNoListText};

use dia_accepted::{Entry, ListFault, MAX_LIST, read_list};
use dia_io::Input;
use std::alloc::{AllocError, Global};
use std::fmt;
use thiserror::Error;

/// Why a text is no list of accepted lines.
#[derive(Clone, Copy, Debug, Error)]
pub enum BadList {
    /// More bytes than the text of a list may have.
    TooLong,
    /// Bytes that are no UTF-8, from this offset on.
    NotText { at: usize },
    /// The entry of the line has no form; `at` bytes of the line precede the fault.
    Syntax { line: u32, at: usize },
    Limit { line: u32 },
}

impl fmt::Display for BadList {
    ghost use Rattle.std.specs.Prelude.{Some};
    ghost use Rattle.dia_upgrades.specs.Lists.{bad_list_text};

    ghost output = { λ bad. Some (bad_list_text bad) };

    fn fmt<W: fmt::Write>(&self, f: &mut fmt::Formatter<W>) -> fmt::Result {
        match self {
            BadList::TooLong => write!(f, "too long"),
            BadList::NotText { .. } => write!(f, "not text"),
            BadList::Syntax { line, .. } => write!(f, "syntax at line {line}"),
            BadList::Limit { line } => write!(f, "limit at line {line}"),
        }
    }
}

/// The lines of a list that an input's text has, or why it has none.
pub(crate) fn read_accepted(
    alloc: Global,
    input: &Input,
) -> Result<Result<Vec<Entry>, BadList>, AllocError>
    ensures list { IfOk result (λ read. IfOk read (λ list. IsListText input.now (map plain_entry list.items))) }
    ensures bad { IfOk result (λ read. IfErr read (IsNoListText input.now)) }
{
    let Some(bytes) = input.within(MAX_LIST) else {
        return Ok(Err(BadList::TooLong));
    };
    let text = match str::from_utf8(bytes) {
        Ok(text) => text,
        Err(error) => {
            let at = error.valid_up_to();
            return Ok(Err(BadList::NotText { at }));
        }
    };
    match read_list(alloc, text) {
        Ok(list) => Ok(Ok(list)),
        Err(ListFault::Syntax { line, at }) => Ok(Err(BadList::Syntax { line, at })),
        Err(ListFault::Limit { line }) => Ok(Err(BadList::Limit { line })),
        Err(ListFault::NoMemory) => Err(AllocError),
    }
}
