//! `answer`: the answer that reports the first fault of a request.

ghost use Rattle.std.specs.Prelude.{◌≡◌, IfOk, IsTrue, string_bytes};
ghost use Rattle.dia_cli.specs.Ending.{stream};
ghost use Rattle.dia_answer.specs.Outcome.{IsAnswerText};
ghost use Rattle.dia_run.specs.Outcome.{IsMessageOutcome};
ghost use Rattle.dia_io.specs.declared.Exit.TheVariants.{Bad};
ghost use Rattle.dia_program.specs.Answers.{IsReplied, name_line};
ghost use Rattle.dia_driver.specs.Endings.{Runs};

use crate::answering::put_answer;
use dia_answer::{Form, NameFault, Names, NoAnswer, write_answer};
use dia_cli::{Answering, Ending, STANDARD_OUTPUT};
use dia_io::{Exit, Inputs, Sink, ToWriter};
use dia_report::{Answered, Report, Reported};
use std::alloc::{AllocError, Global};
use std::io::Write;

/// Writes the answer to a request by the names that the words give, or why there is none.
pub(crate) fn reply<'a, R, W>(
    rt: &R,
    asked: &Answering,
    inputs: &Inputs,
    quiet: bool,
    out: &mut ToWriter<W>,
) -> Result<Reported, Ending<'a>>
where
    R: AllocGlobal + Eprint,
    W: Write,
    requires { ¬ IsTrue (⟦<ToWriter<W> as Sink>⟧.has_failed out.old) }
    ensures { Runs (IsReplied asked.now inputs.now)
        (stream (⟦<ToWriter<W> as Sink>⟧.written out.old) (⟦<ToWriter<W> as Sink>⟧.written out.new)
        (⟦<ToWriter<W> as Sink>⟧.has_failed out.new)) result }
{
    match Names::new(asked.host.as_str(), asked.realm.as_str()) {
        Ok(names) => reply_by(rt, asked, &names, inputs, quiet, out),
        Err(fault) => put_answer(name_refused(rt.alloc(), fault), out),
    }
}

/// Writes the answer to a request by these names, or why there is none.
fn reply_by<'a, R, W>(
    rt: &R,
    asked: &Answering,
    names: &Names<'_>,
    inputs: &Inputs,
    quiet: bool,
    out: &mut ToWriter<W>,
) -> Result<Reported, Ending<'a>>
where
    R: AllocGlobal + Eprint,
    W: Write,
    requires sound { ¬ IsTrue (⟦<ToWriter<W> as Sink>⟧.has_failed out.old) }
    requires host { names.now.host.now ≡ string_bytes asked.now.host }
    requires realm { names.now.realm.now ≡ string_bytes asked.now.realm }
    ensures { Runs (IsMessageOutcome (IsAnswerText (string_bytes asked.now.host) (string_bytes asked.now.realm)
        asked.now.unknown asked.now.levels) inputs.now)
        (stream (⟦<ToWriter<W> as Sink>⟧.written out.old) (⟦<ToWriter<W> as Sink>⟧.written out.new)
        (⟦<ToWriter<W> as Sink>⟧.has_failed out.new)) result }
{
    match write_answer(rt.alloc(), asked.unknown, asked.levels, names, inputs, out) {
        Ok(reported) => Ok(Reported {
            exit: reported.exit,
            report: explained(rt, reported.report, quiet),
        }),
        Err(fault) => Err(Ending::of_run(fault, STANDARD_OUTPUT, out.failure())),
    }
}

/// Writes by which definition the answer is made, or why there is none, unless it is to be quiet. Where an input is refused, that
/// is left to be explained.
fn explained<R: Eprint>(rt: &R, report: dia_answer::Report, quiet: bool) -> Report {
    let text = match report {
        dia_answer::Report::Refused(bad) => return Report::Refused(bad),
        dia_answer::Report::Made(form) => text_of(form),
        dia_answer::Report::None(why) => reason_of(why),
    };
    if !quiet {
        let _ = rt.eprint(text);
    }
    Report::Done
}

/// Why a request gets no answer.
fn reason_of(why: NoAnswer) -> &'static str {
    match why {
        NoAnswer::Short => "fewer than 20 bytes have no header to answer\n",
        NoAnswer::Answer =>
            "the R flag is clear: this is an answer, and only requests are answered\n",
        NoAnswer::Truncated => "the request goes on: it has fewer bytes than its Message Length\n",
        NoAnswer::Trailing =>
            "there are bytes after the request: `check --stream` takes several messages\n",
        NoAnswer::Valid => "the request is valid, and this command answers faults alone\n",
        NoAnswer::TooLong => "each answer would be longer than 16777212 bytes\n",
    }
}

/// The definition by which an answer is made.
fn text_of(form: Form) -> &'static str {
    match form {
        Form::Own => "the answer is one of the command\n",
        Form::Error => "the answer is an error message (E flag) of the dictionary\n",
        Form::Base =>
            "the answer is an error message (E flag) of RFC 6733: the dictionary has none that fits\n",
    }
}

/// The line of a name that is refused.
pub(crate) fn name_refused(alloc: Global, fault: NameFault) -> Result<Answered, AllocError>
    ensures text { IfOk result (λ answered. string_bytes answered.text ≡ name_line fault) }
    ensures exit { IfOk result (λ answered. answered.exit ≡ Bad) }
{
    let text = match fault {
        NameFault::Host => "answer: host\n",
        NameFault::Realm => "answer: realm\n",
    };
    Ok(Answered {
        text: String::from_str(alloc, text)?,
        exit: Exit::Bad,
        report: Report::Done,
    })
}
