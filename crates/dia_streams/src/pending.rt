//! The line that isn't at its end yet.

ghost use Rattle.std.specs.Prelude.{◌≡◌, ◌++◌, ◌↔◌, List, ℕ, [], length, OnOk, IsTrue};
ghost use Rattle.dia_streams.specs.Lines.{IsLineInput};

use dia_io::Input;
use dia_terms::MAX_MESSAGE_TEXT;
use std::alloc::{AllocError, Global};

/// Adds bytes to a line. Above the limit none are retained.
pub fn extend(line: &mut Input, bytes: &[u8]) -> Result<(), AllocError>
    ensures { OnOk result ((all : List ℕ) → IsLineInput line.old all
        → IsLineInput line.new (all ++ bytes.now)) }
{
    match line {
        Input::Bytes(kept) if kept.len() + bytes.len() <= MAX_MESSAGE_TEXT => {
            kept.extend_from_slice(bytes)?;
        }
        Input::Bytes(_) => *line = Input::TooLong,
        Input::TooLong => {}
    }
    Ok(())
}

/// Begins the next line, in the same memory.
pub fn clear(alloc: Global, line: &mut Input)
    ensures { IsLineInput line.new [] }
{
    match line {
        Input::Bytes(kept) => kept.clear(),
        Input::TooLong => *line = Input::Bytes(Vec::new(alloc)),
    }
}

/// Whether a line has no bytes yet.
pub fn is_empty(line: &Input) -> bool
    ensures { (all : List ℕ) → IsLineInput line.now all → IsTrue result ↔ (length all ≡ 0) }
{
    match line {
        Input::Bytes(kept) => kept.is_empty(),
        Input::TooLong => false,
    }
}
