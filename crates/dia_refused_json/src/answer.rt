//! The answers of commands that refuse an input.

ghost use Rattle.std.specs.Prelude.{◌≡◌, IfOk, string_bytes};
ghost use Rattle.dia_report.specs.declared.bad_input.BadInput.{BadInput as AnyBad};
ghost use Rattle.dia_refused_json.specs.Recording.{RecordsBad, refused_text};

use crate::refusals::bad_input_line;
use dia_io::{Exit, Input};
use dia_report::{Answered, BadInput, Refused, Report};
use std::alloc::{AllocError, Global};

/// The answer as JSON where this input is refused.
pub fn refuse(alloc: Global, input: &Input, refused: Refused) -> Result<Answered, AllocError>
    ensures recorded { IfOk result (λ answered. RecordsBad input.now refused (string_bytes answered.text) answered.exit) }
    ensures report { (bad : AnyBad) → refused ≡ Refused.Bad bad → IfOk result (λ answered. answered.report ≡ Report.Refused bad) }
{
    match refused {
        Refused::Bad(bad) => {
            let text = bad_input_line(alloc, input, &bad)?;
            Ok(Answered {
                text,
                exit: Exit::Bad,
                report: Report::Refused(bad),
            })
        }
        Refused::NoMemory => Err(AllocError),
    }
}

/// The answer where this input is refused: as JSON, if that is asked for, and else as text.
pub fn refuse_as(
    alloc: Global,
    json: bool,
    input: &Input,
    bad: BadInput,
) -> Result<Answered, AllocError>
    ensures text { IfOk result (λ answered. string_bytes answered.text ≡ refused_text json input.now bad) }
    ensures exit { IfOk result (λ answered. answered.exit ≡ Exit.Bad) }
{
    let text = refused_line(alloc, json, input, &bad)?;
    Ok(Answered {
        text,
        exit: Exit::Bad,
        report: Report::Refused(bad),
    })
}

fn refused_line(
    alloc: Global,
    json: bool,
    input: &Input,
    bad: &BadInput,
) -> Result<String, AllocError>
    ensures { IfOk result (λ text. string_bytes text ≡ refused_text json input.now bad.now) }
{
    if json {
        bad_input_line(alloc, input, bad)
    } else {
        format!(in alloc; "{bad}\n")
    }
}
