//! The words of values, as an input.

ghost use Rattle.std.specs.Prelude.{◌≡◌, ◌≢◌, IfErr, IfOk};
ghost use Rattle.dia_io.specs.declared.Input.{Input as AnyInput};
ghost use Rattle.dia_show.specs.Words.{HasFault, IsNoValuesText, IsValuesText, plain_words};

use crate::manner::Manner;
use crate::words::{MAX_VALUES, ValuesFault, Words, read_words};
use dia_io::Input;
use std::alloc::{AllocError, Global};
use std::fmt;
use thiserror::Error;

/// Why an input is no text of words.
#[derive(Clone, Copy, Debug, PartialEq, Eq, Error)]
pub enum BadValues {
    /// More bytes than the text may have.
    TooLong,
    /// Bytes that are no UTF-8, from this place on.
    NotText { at: usize },
    Syntax { line: u32 },
    Duplicate { line: u32 },
    Limit { line: u32 },
}

impl fmt::Display for BadValues {
    ghost use Rattle.std.specs.Prelude.{Some};
    ghost use Rattle.dia_show.specs.Words.{bad_values_text};

    ghost output = { λ bad. Some (bad_values_text bad) };

    fn fmt<W: fmt::Write>(&self, f: &mut fmt::Formatter<W>) -> fmt::Result {
        match self {
            BadValues::TooLong => write!(f, "too long"),
            BadValues::NotText { .. } => write!(f, "not text"),
            BadValues::Syntax { line } => write!(f, "syntax at line {line}"),
            BadValues::Duplicate { line } => write!(f, "duplicate at line {line}"),
            BadValues::Limit { line } => write!(f, "limit at line {line}"),
        }
    }
}

/// How a message is shown, with the words that an input's text has; or why it has none.
pub fn read_manner<'t>(
    alloc: Global,
    names: bool,
    input: &'t Input,
) -> Result<Result<Box<Manner<'t>>, BadValues>, AllocError>
    ensures words { IfOk result (λ read. IfOk read
        (λ manner. IsValuesText input.now (plain_words manner.value.words) × (manner.value.names ≡ names))) }
    ensures bad { IfOk result (λ read. IfErr read (IsNoValuesText input.now)) }
{
    match read_values(alloc, input)? {
        Ok(words) => Ok(Ok(Box::new(alloc, Manner { words, names })?)),
        Err(bad) => Ok(Err(bad)),
    }
}

/// The words that an input's text has, or why it has none.
fn read_values<'t>(
    alloc: Global,
    input: &'t Input,
) -> Result<Result<Words<'t>, BadValues>, AllocError>
    ensures words { IfOk result (λ read. IfOk read (λ words. IsValuesText input.now (plain_words words))) }
    ensures bad { IfOk result (λ read. IfErr read (IsNoValuesText input.now)) }
{
    let Some(bytes) = input.within(MAX_VALUES) else {
        return Ok(Err(BadValues::TooLong));
    };
    let text = match str::from_utf8(bytes) {
        Ok(text) => text,
        Err(error) => {
            let at = error.valid_up_to();
            return Ok(Err(BadValues::NotText { at }));
        }
    };
    match read_words(alloc, text) {
        Ok(words) => Ok(Ok(words)),
        Err(fault) => Ok(Err(bad_by(fault)?)),
    }
}

/// Why an input whose text has this fault is none of words.
fn bad_by(fault: ValuesFault) -> Result<BadValues, AllocError>
    ensures { IfOk result (λ bad. fault ≢ ValuesFault.NoMemory
        × ((input : AnyInput) → HasFault input fault → IsNoValuesText input bad)) }
{
    match fault {
        ValuesFault::Syntax { line } => Ok(BadValues::Syntax { line }),
        ValuesFault::Duplicate { line } => Ok(BadValues::Duplicate { line }),
        ValuesFault::Limit { line } => Ok(BadValues::Limit { line }),
        ValuesFault::NoMemory => Err(AllocError),
    }
}
