//! The answers of inputs that are refused.

ghost use Rattle.std.specs.Prelude.{◌≡◌, IfOk, string_bytes};
ghost use Rattle.dia_report.specs.Refusals.{bad_input_text};
ghost use Rattle.dia_run.specs.Texts.{line};
ghost use Rattle.dia_show.specs.Words.{values_line};

use crate::reporting::{Answered, Report};
use dia_io::Exit;
use dia_report::BadInput;
use dia_show::BadValues;
use std::alloc::{AllocError, Global};

/// The answer of a dictionary or a message that is refused.
pub(crate) fn refuse(alloc: Global, bad: BadInput) -> Result<Answered, AllocError>
    ensures text { IfOk result (λ answered. string_bytes answered.text ≡ line (bad_input_text bad)) }
    ensures exit { IfOk result (λ answered. answered.exit ≡ Exit.Bad) }
    ensures report { IfOk result (λ answered. answered.report ≡ Report.Refused bad) }
{
    let text = format!(in alloc; "{bad}\n")?;
    let exit = Exit::Bad;
    let report = Report::Refused(bad);
    Ok(Answered { text, exit, report })
}

/// The answer of words of values that are refused.
pub(crate) fn no_values(alloc: Global, bad: BadValues) -> Result<Answered, AllocError>
    ensures text { IfOk result (λ answered. string_bytes answered.text ≡ line (values_line bad)) }
    ensures exit { IfOk result (λ answered. answered.exit ≡ Exit.Bad) }
    ensures report { IfOk result (λ answered. answered.report ≡ Report.NoValues bad) }
{
    let text = format!(in alloc; "values: {bad}\n")?;
    let exit = Exit::Bad;
    let report = Report::NoValues(bad);
    Ok(Answered { text, exit, report })
}
