//! The inputs with the words that name them.

ghost use Rattle.std.specs.Prelude.{◌≡◌};
ghost use Rattle.dia_driver.specs.Tasks.{word_of};

use dia_cli::{BASE_DICTIONARY, NO_TABLE, Origin, Origins, STANDARD_INPUT};
use dia_explain_places::{InputTexts, NamedText};
use dia_io::{Input, Inputs};

/// The texts of the inputs, with the words that name them.
pub fn texts_of<'a>(origins: &Origins<'a>, inputs: &'a Inputs) -> InputTexts<'a> {
    InputTexts {
        first: named_text(origins.first, &inputs.first),
        second: named_text(origins.second, &inputs.second),
        table: named_text(origins.table, &inputs.table),
        message: named_text(origins.message, &inputs.message),
    }
}

/// The text of an input, with the word that names it.
pub fn named_text<'a>(origin: Origin<'a>, input: &'a Input) -> NamedText<'a> {
    let text = match input {
        Input::Bytes(bytes) => bytes.as_slice(),
        Input::TooLong => b"".as_slice(),
    };
    NamedText {
        name: word_of(origin),
        text,
    }
}

/// The word that names an input.
pub fn word_of(origin: Origin<'_>) -> &str
    ensures { result.now ≡ word_of origin.entry }
{
    match origin {
        Origin::Nowhere => "",
        Origin::Base => BASE_DICTIONARY,
        Origin::Empty => NO_TABLE,
        Origin::StandardInput { .. } => STANDARD_INPUT,
        Origin::File { path, .. } => path,
    }
}
