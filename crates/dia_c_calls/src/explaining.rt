//! The diagnostic of a message, as `diacmd check` writes it on standard error.

ghost use Rattle.std.specs.Prelude.{IfOk, IsSome, Some};
ghost use Rattle.dia_c_calls.specs.Held.{MayBeText, text_in};

use crate::held::Held;
use dia_check::{Levels, Unknown};
use dia_explain_answers::push_answer;
use dia_explain_inputs::{push_empty, push_length, push_refused};
use dia_explain_places::{InputTexts, NamedText, Note};
use dia_io::{Command, Input, Inputs};
use dia_report::Report;
use std::alloc::{AllocError, Global};

/// The words that name the two texts in a diagnostic: that of the dictionary, and the digits of the message.
const DICTIONARY: &str = "dictionary";

const MESSAGE: &str = "message";

/// Why a message isn't valid, or why a text is no dictionary; no text where the message is valid.
pub fn explained(
    alloc: Global,
    text: &[u8],
    unknown: Unknown,
    levels: Levels,
    message: &[u8],
) -> Result<Box<Held>, AllocError>
    ensures { IfOk result (λ held. IsSome (text_in (Some held.value)) × ∥ MayBeText (Some held.value) ∥₁) }
{
    let digits = hex::encode(alloc, message)?.into_bytes();
    let texts = texts_of(text, digits.as_slice());
    let inputs = Inputs {
        first: Input::Bytes(Vec::from_slice(alloc, text)?),
        second: Input::Bytes(Vec::new(alloc)),
        table: Input::Bytes(Vec::new(alloc)),
        message: Input::Bytes(Vec::from_slice(alloc, digits.as_slice())?),
    };
    let answered = dia_run::answer(alloc, &Command::Check { unknown, levels }, &inputs)?;
    let mut note = Note::new(alloc);
    push_report(&mut note, &texts, &answered.report);
    Ok(Box::new(alloc, Held::Text(note.finish()?.into_bytes()))?)
}

/// The texts of a check, with the words that name them.
fn texts_of<'a>(text: &'a [u8], digits: &'a [u8]) -> InputTexts<'a> {
    let nothing = NamedText {
        name: "",
        text: b"",
    };
    InputTexts {
        first: NamedText {
            name: DICTIONARY,
            text,
        },
        second: nothing,
        table: nothing,
        message: NamedText {
            name: MESSAGE,
            text: digits,
        },
    }
}

/// Adds the diagnostic of the report of a check.
fn push_report(note: &mut Note, texts: &InputTexts<'_>, report: &Report) {
    match report {
        Report::Refused(bad) => push_refused(note, texts, bad),
        Report::Invalid(found) => {
            push_empty(note, &texts.first);
            push_answer(note, texts, report);
            push_length(note, &texts.message, &found.message)
        }
        _ => {}
    }
}
