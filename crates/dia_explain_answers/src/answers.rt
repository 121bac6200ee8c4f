//! The diagnostic of an answer that isn't yes.

use crate::checking::push_check;
use crate::comparing::push_compare;
use crate::faults::push_show;
use crate::refuting::push_refute;
use dia_explain_places::{InputTexts, Note};
use dia_report::Report;

/// Adds the reason of an answer that isn't yes. Refused inputs have no diagnostic here.
pub fn push_answer(note: &mut Note, texts: &InputTexts<'_>, report: &Report) {
    match report {
        Report::Cut(listing) => push_show(note, texts, listing),
        Report::Invalid(found) => push_check(note, texts, found),
        Report::Unrefuting(found) => push_refute(note, texts, found),
        Report::Compared(found) => push_compare(note, texts, found),
        Report::Done | Report::Refused(_) | Report::NoCommand(_) | Report::Shown(_) => {}
    }
}
