//! The text of a list of accepted lines.
ghost use Rattle.std.specs.Prelude.{◌≡◌, ◌≢◌, ◌++◌, ◌∷◌, [], IfErr, IfOk, List, OnOk, map};
ghost use Rattle.dia_accepted.specs.Accepted.{AreEntries, HasEntries, IsLineFault, IsListFault, PlainEntry, entry, plain_entry};
ghost use Rattle.dia_accepted.specs.Lines.{plain_line};

use crate::entries::entry_text;
use crate::line::AcceptedLine;
use crate::reading::{Misfit, read_line};
use std::alloc::{AllocError, Global};
use thiserror::Error;

/// The most bytes of a list's text (our profile).
pub const MAX_LIST: usize = 1_048_576;

/// The most lines of a list (our profile).
pub const MAX_LINES: u32 = 65_536;

/// An entry of a list.
#[derive(Drop)]
pub struct Entry {
    /// The number of its line in the text, from 1.
    pub line: u32,
    /// Its words, without a comment and without white space at their end.
    pub words: String,
    /// What counts of them.
    pub counted: Vec<u8>,
}

impl Entry {
    ghost use Rattle.std.specs.Prelude.{◌≡◌, IfOk};
    ghost use Rattle.dia_accepted.specs.Accepted.{plain_entry};

    /// The same entry.
    pub fn copy(&self, alloc: Global) -> Result<Entry, AllocError>
        ensures { IfOk result (λ made. plain_entry made ≡ plain_entry self.now) }
    {
        let words = String::from_str(alloc, self.words.as_str())?;
        let counted = Vec::from_slice(alloc, self.counted.as_slice())?;
        Ok(Entry {
            line: self.line,
            words,
            counted,
        })
    }
}

/// Why a text is no list. Lines count from 1.
#[derive(Clone, Copy, Debug, PartialEq, Eq, Error)]
pub enum ListFault {
    /// The entry of the line has neither form of the lines that `breaking` writes; `at` bytes of the line precede the fault.
    #[error("line {line}: no line of `breaking`")]
    Syntax { line: u32, at: usize },
    /// The line is one more than [`MAX_LINES`].
    #[error("line {line}: too many lines")]
    Limit { line: u32 },
    /// Memory was refused.
    #[error("out of memory")]
    NoMemory,
}

impl From<AllocError> for ListFault {
    ghost use Rattle.std.specs.Prelude.{◌≡◌};
    ghost use Rattle.dia_accepted.specs.declared.list.ListFault.TheVariants.{NoMemory};

    ghost from_gives = { λ _ fault. fault ≡ NoMemory };

    fn from(_error: AllocError) -> ListFault {
        ListFault::NoMemory
    }
}

/// Reads the text of a list (our profile). A line has an entry of one of the two forms that `breaking` writes: that of an answer,
/// or that of an answer with `--once`. White space may follow an entry, and after white space a comment, which begins with
/// `#`. A line may have no entry. It ends with a line feed, or with a carriage return and a line feed; the last line may do
/// without. The fault is that of the first line that has one. `NoMemory` comes only where memory was refused.
pub fn read_list(alloc: Global, text: &str) -> Result<Vec<Entry>, ListFault>
    ensures entries { IfOk result (λ list. AreEntries text.now (map plain_entry list.items)) }
    ensures fault { IfErr result (λ fault. fault ≢ ListFault.NoMemory → IsListFault text.now fault) }
{
    let mut list = Vec::new(alloc);
    let mut line = 0;
    for words in text.lines() {
        line += 1;
        match add_line(alloc, &mut list, line, words) {
            Ok(()) => {}
            Err(fault) => return Err(fault),
        }
    }
    Ok(list)
}

/// Adds the entry of a line of the text, if it has one.
fn add_line(alloc: Global, list: &mut Vec<Entry>, line: u32, text: &str) -> Result<(), ListFault>
    ensures added { OnOk result ((entries : List PlainEntry) × HasEntries line text.now entries
        × (map plain_entry list.new.items ≡ map plain_entry list.old.items ++ entries)) }
    ensures fault { IfErr result (λ fault. fault ≢ ListFault.NoMemory → IsLineFault line text.now fault) }
{
    if line > MAX_LINES {
        return Err(ListFault::Limit { line });
    }
    let words = entry_text(text);
    if words.is_empty() {
        return Ok(());
    }
    match read_line(words.as_bytes()) {
        Ok(accepted) => Ok(push_entry(alloc, list, line, words, &accepted)?),
        Err(Misfit { at }) => Err(ListFault::Syntax { line, at }),
    }
}

fn push_entry(
    alloc: Global,
    list: &mut Vec<Entry>,
    line: u32,
    words: &str,
    accepted: &AcceptedLine<'_>,
) -> Result<(), AllocError>
    ensures { OnOk result (map plain_entry list.new.items ≡ map plain_entry list.old.items
        ++ entry line words.now (plain_line accepted.now) ∷ []) }
{
    let counted = accepted.counted(alloc)?;
    let words = String::from_str(alloc, words)?;
    list.push(Entry {
        line,
        words,
        counted,
    })?;
    Ok(())
}
