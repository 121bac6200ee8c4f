//! A message as hexadecimal text.

ghost use Rattle.std.specs.Prelude.{◌≡◌, ◌≢◌, Ok, IfOk, IfErr, IsOk};
ghost use Rattle.hex.specs.Hex.{decode_of};
ghost use Rattle.dia_io.specs.Inputs.{Holds};
ghost use Rattle.dia_terms.specs.Limits.{max_message_text};
ghost use Rattle.dia_run.specs.Texts.{IsMessageText, IsNoMessageText, digits_of};
ghost use Rattle.dia_report.specs.Refusals.{RecordsOf};

use dia_io::Input;
use dia_report::{BadMessage, Refused};
use dia_terms::{MAX_MESSAGE_TEXT, is_white};
use hex::FromHexError;
use std::alloc::{AllocError, Global};

/// The text of a message, if it is within the limit.
pub fn message_text(input: &Input) -> Result<&[u8], Refused>
    ensures text { IfOk result (λ text. Holds input.entry.now max_message_text text.now) }
    ensures recorded { IfErr result (RecordsOf (IsNoMessageText input.entry.now)) }
    ensures bad { IfErr result (λ refused. refused ≢ Refused.NoMemory) }
{
    let Some(text) = input.within(MAX_MESSAGE_TEXT) else {
        return Err(Refused::from(BadMessage::TooLong));
    };
    Ok(text)
}

/// The bytes that a text spells: pairs of hexadecimal digits of either letter case, its white space taken out first.
pub fn read_message(alloc: Global, input: &Input) -> Result<Vec<u8>, Refused>
    ensures message { IfOk result (λ bytes. IsMessageText input.now bytes.items) }
    ensures recorded { IfErr result (RecordsOf (IsNoMessageText input.now)) }
{
    let text = message_text(input)?;
    match decode(alloc, text) {
        Ok(bytes) => Ok(bytes),
        Err(FromHexError::OutOfMemory) => Err(Refused::NoMemory),
        Err(_) => Err(Refused::from(BadMessage::NotHexadecimal)),
    }
}

/// The bytes that a text spells. A text without white space between its digits is decoded as it is.
fn decode(alloc: Global, text: &[u8]) -> Result<Vec<u8>, FromHexError>
    ensures ok { IfOk result (λ bytes. decode_of (digits_of text.now) ≡ Ok bytes.items) }
    ensures err { IfErr result
        (λ fault. fault ≢ FromHexError.OutOfMemory → ¬ IsOk (decode_of (digits_of text.now))) }
{
    match hex::decode(alloc, without_white_end(text)) {
        Ok(bytes) => Ok(bytes),
        Err(FromHexError::OutOfMemory) => Err(FromHexError::OutOfMemory),
        Err(_) => match without_white(alloc, text) {
            Ok(digits) => hex::decode(alloc, digits.as_slice()),
            Err(AllocError) => Err(FromHexError::OutOfMemory),
        },
    }
}

fn without_white_end(text: &[u8]) -> &[u8]
    ensures { digits_of result.now ≡ digits_of text.entry.now }
{
    let mut length = text.len();
    while length > 0 && is_white(text[length - 1]) {
        length -= 1;
    }
    &text[..length]
}

fn without_white(alloc: Global, text: &[u8]) -> Result<Vec<u8>, AllocError>
    ensures { IfOk result (λ digits. digits.items ≡ digits_of text.now) }
{
    text.iter()
        .copied()
        .filter(|byte| !is_white(*byte))
        .collect(alloc)
}
