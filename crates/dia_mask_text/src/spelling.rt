//! The bytes that the text of a line spells.

ghost use Rattle.std.specs.Prelude.{◌≡◌, ◌≤◌, ◌++◌, IfErr, IfOk, IfSome, Ok, codes, length, take};
ghost use Rattle.hex.specs.Hex.{decode_of};
ghost use Rattle.dia_mask_text.specs.Lines.{why};
ghost use Rattle.dia_run.specs.Texts.{IsMessageText, IsNoMessageText, digits_of};

use dia_io::Input;
use dia_report::Refused;
use dia_run::read_message;
use dia_streams::decode_digits;
use dia_terms::{MAX_MESSAGE_TEXT, is_white};
use std::alloc::{AllocError, Global};
use thiserror::Error;

/// Why a line spells no bytes.
#[derive(Clone, Copy, Debug, PartialEq, Eq, Error)]
pub(crate) enum Unread {
    #[error("the text is too long")]
    TooLong,
    #[error("the text is not hexadecimal")]
    NotHexadecimal,
}

impl Unread {
    ghost use Rattle.dia_mask_text.specs.Lines.{why};

    /// The line that `check` writes of it.
    pub(crate) fn line(self) -> &'static str
        ensures { result.now ≡ why self ++ codes "\n" }
    {
        match self {
            Unread::TooLong => "message: too long\n",
            Unread::NotHexadecimal => "message: not hexadecimal\n",
        }
    }
}

/// Decodes the text of a line into the front of the space, and answers how many bytes it spells, or why it spells none.
///
/// Digits without white space between them are decoded where they lie.
pub(crate) fn spell_line(
    alloc: Global,
    line: &Input,
    space: &mut Vec<u8>,
) -> Result<Result<usize, Unread>, AllocError>
    ensures within { IfOk result (λ spelled. IfOk spelled (λ count. count ≤ length space.new.items)) }
    ensures message { IfOk result (λ spelled. IfOk spelled
        (λ count. IsMessageText line.now (take count space.new.items))) }
    ensures unread { IfOk result (λ spelled. IfErr spelled (λ unread. IsNoMessageText line.now (why unread))) }
{
    let Some(text) = line.within(MAX_MESSAGE_TEXT) else {
        return Ok(Err(Unread::TooLong));
    };
    if let Some(count) = spell_digits(alloc, text, space)? {
        return Ok(Ok(count));
    }
    match read_message(alloc, line) {
        Ok(bytes) => {
            let count = bytes.len();
            *space = bytes;
            Ok(Ok(count))
        }
        Err(Refused::Bad(_bad)) => Ok(Err(Unread::NotHexadecimal)),
        Err(Refused::NoMemory) => Err(AllocError),
    }
}

/// Decodes a text that is all digits, but for white space at its end.
fn spell_digits(
    alloc: Global,
    text: &[u8],
    space: &mut Vec<u8>,
) -> Result<Option<usize>, AllocError>
    ensures within { IfOk result (λ spelled. IfSome spelled (λ count. count ≤ length space.new.items)) }
    ensures digits { IfOk result (λ spelled. IfSome spelled
        (λ count. decode_of (digits_of text.now) ≡ Ok (take count space.new.items))) }
{
    decode_digits(alloc, without_white_end(text), space)
}

fn without_white_end(text: &[u8]) -> &[u8]
    ensures { digits_of result.now ≡ digits_of text.entry.now }
{
    let mut length = text.len();
    while length > 0 && is_white(text[length - 1]) {
        length -= 1;
    }
    &text[..length]
}
