//! The text of each command, and how it ends.

ghost use Rattle.std.specs.Prelude.{◌≡◌, Ok, IfOk, IfErr, IsErr, string_bytes};
ghost use Rattle.dia_run.specs.Report.{RecordsRefusal};
ghost use Rattle.dia_io.specs.declared.Exit.TheVariants.{Bad};
ghost use Rattle.dia_run.specs.Texts.{line};
ghost use Rattle.dia_report.specs.Refusals.{RecordsOf, bad_input_text};

use dia_io::Exit;
use dia_report::{Answered, BadInput, Refused, Report};
use std::alloc::{AllocError, Global};

pub mod check;
pub mod compare;
pub mod faults;
pub mod propose;
pub mod refute;
pub mod render;
pub mod show;

/// What a command writes, and how it ends.
#[derive(Drop)]
pub struct Outcome {
    pub text: String,
    pub exit: Exit,
}

/// The outcome that writes this text.
pub fn recorded(alloc: Global, text: &str, exit: Exit) -> Result<Outcome, AllocError>
    ensures text { IfOk result (λ outcome. string_bytes outcome.text ≡ text.now) }
    ensures exit { IfOk result (λ outcome. outcome.exit ≡ exit) }
{
    let text = String::from_str(alloc, text)?;
    Ok(Outcome { text, exit })
}

/// The outcome of an input that is refused, which is one line.
fn refuse(alloc: Global, bad: &BadInput) -> Result<Outcome, AllocError>
    ensures text { IfOk result
        (λ outcome. string_bytes outcome.text ≡ line (bad_input_text bad.now)) }
    ensures exit { IfOk result (λ outcome. outcome.exit ≡ Exit.Bad) }
{
    let text = format!(in alloc; "{bad}\n")?;
    let exit = Exit::Bad;
    Ok(Outcome { text, exit })
}

/// The outcome of a command. An input that is refused has one, too.
pub fn outcome_of(alloc: Global, made: Result<Outcome, Refused>) -> Result<Outcome, AllocError>
    ensures done { IfOk made (λ outcome. result ≡ Ok outcome) }
    ensures text { IfErr made
        (RecordsOf (λ recorded. IfOk result (λ outcome. string_bytes outcome.text ≡ line recorded))) }
    ensures exit { IsErr made → IfOk result (λ outcome. outcome.exit ≡ Exit.Bad) }
    ensures memory { IfErr made (λ refused. refused ≡ Refused.NoMemory → IsErr result) }
{
    match made {
        Ok(outcome) => Ok(outcome),
        Err(Refused::Bad(bad)) => refuse(alloc, &bad),
        Err(Refused::NoMemory) => Err(AllocError),
    }
}

/// What is answered for a command: what was made, or the line of an input that is refused.
pub fn answer_of(alloc: Global, made: Result<Answered, Refused>) -> Result<Answered, AllocError>
    ensures done { IfOk made (λ answered. result ≡ Ok answered) }
    ensures refused { IfErr made (λ refused. IfOk result (RecordsRefusal refused)) }
{
    match made {
        Ok(answered) => Ok(answered),
        Err(Refused::Bad(bad)) => refused(alloc, bad),
        Err(Refused::NoMemory) => Err(AllocError),
    }
}

/// The answer of an input that is refused.
fn refused(alloc: Global, bad: BadInput) -> Result<Answered, AllocError>
    ensures text { IfOk result (λ answered. string_bytes answered.text ≡ line (bad_input_text bad)) }
    ensures exit { IfOk result (λ answered. answered.exit ≡ Exit.Bad) }
    ensures report { IfOk result (λ answered. answered.report ≡ Report.Refused bad) }
{
    let Outcome { text, exit } = refuse(alloc, &bad)?;
    let report = Report::Refused(bad);
    Ok(Answered { text, exit, report })
}
