//! The bytes that the text of a line spells.

ghost use Rattle.std.specs.Prelude.{◌≡◌, ◌≤◌, List, ℕ, IfErr, IfOk, IfSome, IsErr, length, take};
ghost use Rattle.dia_report.specs.Refusals.{RecordsOf};
ghost use Rattle.dia_run.specs.Texts.{IsMessageText, IsNoMessageText, digits_of};
ghost use Rattle.dia_captures.specs.Verdicts.{IsTextRefused};

use crate::verdicts::{Checked, Flaw};
use dia_io::Input;
use dia_report::Refused;
use dia_run::read_message;
use dia_streams::decode_digits;
use dia_terms::{MAX_MESSAGE_TEXT, is_white};
use std::alloc::{AllocError, Global};

/// Decodes the text of a line into the front of the space, and answers how many bytes it spells, or what is wrong with it.
///
/// Digits without white space between them are decoded where they lie.
pub fn spell_line(
    alloc: Global,
    line: &Input,
    space: &mut Vec<u8>,
) -> Result<Result<usize, Flaw>, AllocError>
    ensures within { IfOk result (λ spelled. IfOk spelled (λ count. count ≤ length space.new.items)) }
    ensures message { IfOk result (λ spelled. IfOk spelled
        (λ count. IsMessageText line.now (take count space.new.items))) }
    ensures refused { IfOk result (λ spelled. IfErr spelled
        (λ flaw. IsTextRefused line.now (Checked.Wrong flaw))) }
{
    if let Some(count) = spell_digits(alloc, line, space)? {
        return Ok(Ok(count));
    }
    match read_message(alloc, line) {
        Ok(bytes) => {
            let count = bytes.len();
            *space = bytes;
            Ok(Ok(count))
        }
        Err(refused) => {
            let flaw = refused_as(refused, line)?;
            Ok(Err(flaw))
        }
    }
}

/// Decodes the text of a line that is all digits, but for white space at its end.
fn spell_digits(
    alloc: Global,
    line: &Input,
    space: &mut Vec<u8>,
) -> Result<Option<usize>, AllocError>
    ensures within { IfOk result (λ spelled. IfSome spelled (λ count. count ≤ length space.new.items)) }
    ensures message { IfOk result (λ spelled. IfSome spelled
        (λ count. IsMessageText line.now (take count space.new.items))) }
{
    match line.within(MAX_MESSAGE_TEXT) {
        Some(text) => decode_digits(alloc, without_white_end(text), space),
        None => Ok(None),
    }
}

fn without_white_end(text: &[u8]) -> &[u8]
    ensures { digits_of result.now ≡ digits_of text.entry.now }
{
    let mut length = text.len();
    while length > 0 && is_white(text[length - 1]) {
        length -= 1;
    }
    &text[..length]
}

/// What is wrong with a text that is refused.
fn refused_as(refused: Refused, message: &Input) -> Result<Flaw, AllocError>
    ensures bad { RecordsOf (λ recorded. IfOk result
        (λ flaw. IsNoMessageText message.now recorded → IsTextRefused message.now (Checked.Wrong flaw))) refused }
    ensures memory { refused ≡ Refused.NoMemory → IsErr result }
{
    match refused {
        Refused::Bad(_bad) => Ok(refusal_of(message)),
        Refused::NoMemory => Err(AllocError),
    }
}

/// What is wrong with a text that spells no message.
fn refusal_of(message: &Input) -> Flaw
    ensures { (recorded : List ℕ) → IsNoMessageText message.now recorded
        → IsTextRefused message.now (Checked.Wrong result) }
{
    match message {
        Input::Bytes(bytes) if bytes.len() <= MAX_MESSAGE_TEXT => Flaw::NotHexadecimal,
        Input::Bytes(_) | Input::TooLong => Flaw::TooLong,
    }
}
