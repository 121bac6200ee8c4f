//! The diagnostic of an input that is refused.

ghost use Rattle.dia_explain_inputs.specs.Beginnings.{NoteBegins};

use crate::dictionary::push_dictionary;
use crate::messages::push_message;
use crate::tables::push_table;
use dia_explain_places::{InputTexts, Note};
use dia_report::BadInput;

/// Adds the diagnostic of an input that is refused. It begins with what standard output reports: the line of its fault, or the
/// first finding of a source.
pub fn push_refused(note: &mut Note, texts: &InputTexts<'_>, bad: &BadInput)
    ensures { NoteBegins texts.now bad.now note.old note.new }
{
    match bad {
        BadInput::Dictionary { number: 1, why } => push_dictionary(note, &texts.first, why),
        BadInput::Dictionary { why, .. } => push_dictionary(note, &texts.second, why),
        BadInput::Table(why) => push_table(note, &texts.table, why),
        BadInput::Message(why) => push_message(note, &texts.message, why),
    }
}
