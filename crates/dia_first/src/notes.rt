//! The diagnostics of a report: why an input is refused, and why an answer isn't yes.

use crate::recording::report_made;
use dia_cli::Task;
use dia_compat::Answer;
use dia_explain_answers::{push_answer, push_unnamed};
use dia_explain_inputs::{
    push_empty, push_length, push_no_pairs, push_refused, push_strangers, push_unknown_commands,
};
use dia_explain_places::{InputTexts, Note};
use dia_io::Command;
use dia_report::Report;

/// What `show` writes in place of a name.
pub const UNNAMED: &str = "?";

/// Explains a report on standard error. `names` are those of the commands that were asked for. Where memory or the device fails,
/// there is no note.
pub fn note<R: AllocGlobal + Eprint>(
    rt: &R,
    texts: &InputTexts<'_>,
    names: &[String],
    report: &Report,
) {
    let mut note = Note::new(rt.alloc());
    if !matches!(report, Report::Refused(_)) {
        push_empty(&mut note, &texts.first);
        push_empty(&mut note, &texts.second);
    }
    push_answer(&mut note, texts, report);
    match report {
        Report::Refused(bad) => push_refused(&mut note, texts, bad),
        Report::NoCommand(books) => push_unknown_commands(&mut note, texts, names, books),
        Report::Invalid(found) => push_length(&mut note, &texts.message, &found.message),
        Report::Unrefuting(found) => push_length(&mut note, &texts.message, &found.message),
        // What the table lacks: pairs of commands where the answer is yes, and else names that the dictionaries have.
        Report::Compared(found) => match found.answer {
            Answer::Yes => push_no_pairs(&mut note, texts, &found.table),
            Answer::No { .. } => push_strangers(&mut note, texts, &found.books),
        },
        Report::Done | Report::Shown(_) | Report::Cut(_) => {}
    }
    report_made(rt, note.finish());
}

/// Writes how AVPs get names that the base dictionary doesn't have. `sign` is what was shown in place of a name. Where
/// memory or the device fails, nothing is written.
pub fn note_unnamed<R: AllocGlobal + Eprint>(rt: &R, report: &Report, sign: &str) {
    let mut note = Note::new(rt.alloc());
    match report {
        Report::Shown(message) => push_unnamed(&mut note, message, sign),
        Report::Cut(listing) => push_unnamed(&mut note, &listing.message, sign),
        _ => {}
    }
    report_made(rt, note.finish());
}

/// The names of the commands that are proposed for.
pub fn names_of(task: &Task) -> &[String] {
    match task {
        Task::Whole(Command::Propose { names, .. }) => names.as_slice(),
        _ => &[],
    }
}
