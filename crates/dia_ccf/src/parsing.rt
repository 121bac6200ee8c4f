//! Reading a dictionary text.

ghost use Rattle.std.specs.Prelude.{◌≡◌, ◌<◌, ◌≤◌, ℕ, List, length, Err, MatchResult, IfOk, IfErr};
ghost use Rattle.dia_ccf.specs.declared.fault.CcfFault.{CcfFault as AnyFault};
ghost use Rattle.dia_ccf.specs.Limits.{max_text};
ghost use Rattle.dia_ccf.specs.Plain.{PlainSource, plain_source};
ghost use Rattle.dia_ccf.specs.Tokens.{Token, tokens};
ghost use Rattle.dia_ccf.specs.Grammar.{Derives};
ghost use Rattle.dia_ccf.specs.Faults.{IsFault};
ghost use Rattle.dia_ccf.specs.Places.{IsPlaced};
ghost use Rattle.dia_ccf.specs.Refusals.{IsRefused};

use crate::fault::CcfFault;
use crate::limits::MAX_TEXT;
use crate::reading::Reader;
use crate::refused::Refused;
use crate::source::Source;
use std::alloc::Global;

/// Reads a text of definitions of commands (RFC 6733 section 3.2) and of grouped AVPs (section 4.4), with the forms of our
/// profile, as declarations of AVPs and comments.
///
/// A text above [`MAX_TEXT`] bytes is `Limit { line: 0 }`, before anything else is looked at. Otherwise the fault
/// is that of the first token with which no text of the grammar can go on. `NoMemory` comes only where memory
/// was refused.
pub fn parse(alloc: Global, text: &str) -> Result<Source, CcfFault>
    // What is read is derived from the text's tokens.
    ensures found { IfOk result (λ source. Derives (tokens text.now) (plain_source source)) }
    // Each part of it is at its place.
    ensures placed { IfOk result (IsPlaced text.now) }
    // No other source is, and one that is derived is read, unless memory runs out.
    ensures only { (source : PlainSource) → length text.now ≤ max_text
        → Derives (tokens text.now) source
        → MatchResult result (λ found. plain_source found ≡ source) (λ e. e ≡ CcfFault.NoMemory) }

    ensures too_long { max_text < length text.now → result ≡ Err (CcfFault.Limit 0) }
    ensures fault { length text.now ≤ max_text → IfErr result (IsFault text.now) }
{
    match read(alloc, text) {
        Ok(source) => Ok(source),
        Err(refused) => Err(refused.fault()),
    }
}

/// Reads a text as [`parse`] does. Of a text that is refused it reports the place, and what would fit there.
pub fn read(alloc: Global, text: &str) -> Result<Source, Refused>
    ensures found { IfOk result (λ source. Derives (tokens text.now) (plain_source source)) }
    ensures placed { IfOk result (IsPlaced text.now) }
    ensures only { (source : PlainSource) → length text.now ≤ max_text
        → Derives (tokens text.now) source
        → MatchResult result (λ found. plain_source found ≡ source) (λ e. e ≡ Refused.NoMemory) }
    ensures too_long { max_text < length text.now → result ≡ Err Refused.TooLong }
    ensures refused { IfErr result (IsRefused text.now) }
{
    if text.len() > MAX_TEXT {
        return Err(Refused::TooLong);
    }
    let mut reader = Reader::new(alloc, text);
    match reader.source() {
        Ok(source) => Ok(source),
        Err(refusal) => Err(reader.refused(refusal)),
    }
}

/// A text has one fault at most, so that `parse` can report no other.
pub fn one_fault()
    ensures { (text : List ℕ) (a b : AnyFault) → IsFault text a → IsFault text b
        → ¬ (a ≡ CcfFault.NoMemory) → ¬ (b ≡ CcfFault.NoMemory) → a ≡ b }
{}

/// No tokens are derived for two sources.
pub fn one_source()
    ensures { (ts : List Token) (a b : PlainSource) → Derives ts a → Derives ts b → a ≡ b }
{}
