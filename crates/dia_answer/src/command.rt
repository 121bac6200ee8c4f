//! The command, from its inputs to what is written.

ghost use Rattle.std.specs.Prelude.{◌≡◌, ◌↔◌, ◌++◌, ℕ, List, Err, IfOk, IsTrue, codes, string_bytes};
ghost use Rattle.hex.specs.Hex.{encode_lower};
ghost use Rattle.std.specs.Io.KnownBytes.{Appends};
ghost use Rattle.dia_io.specs.declared.Exit.{Exit as AnyExit};
ghost use Rattle.dia_io.specs.Writing.{AppendsFront};
ghost use Rattle.dia_report.specs.Refusals.{bad_input_text};
ghost use Rattle.dia_run.specs.Outcome.{IsMessageOutcome};
ghost use Rattle.dia_run.specs.Texts.{line};
ghost use Rattle.dia_answer.specs.Lines.{IsLineAnswered};
ghost use Rattle.dia_answer.specs.Reports.{no_answer_word};
ghost use Rattle.dia_answer.specs.Outcome.{IsAnswerText};

use crate::answering::answer;
use crate::forms::{Form, Made, NoAnswer};
use crate::names::Names;
use dia_dict::Book;
use dia_io::{Exit, Input, Inputs, RunFault, Sink, put_all};
use dia_report::{BadInput, Refused};
use dia_run::{Outcome, read_dictionary, read_message};
use dia_terms::{Levels, Unknown};
use std::alloc::{AllocError, Global};

/// What the command found in its inputs.
#[derive(Drop)]
pub enum Report {
    /// There is an answer, of this form.
    Made(Form),
    /// There is none.
    None(NoAnswer),
    /// The dictionary or the request is refused.
    Refused(BadInput),
}

/// How the command ended that has written its text, and its report.
#[derive(Drop)]
pub struct Reported {
    pub exit: Exit,
    pub report: Report,
}

/// What is written, how the command ends, and its report.
#[derive(Drop)]
pub(crate) struct Answered {
    pub text: String,
    pub exit: Exit,
    report: Report,
}

impl Answered {
    ghost use Rattle.std.specs.Prelude.{◌≡◌};

    /// What is written, and how the command ends.
    pub(crate) fn outcome(self) -> Outcome
        ensures text { result.text ≡ self.text }
        ensures exit { result.exit ≡ self.exit }
    {
        let Answered { text, exit, .. } = self;
        Outcome { text, exit }
    }
}

/// Writes the answer to the request that the message's input is, by the first dictionary, as a line of hexadecimal digits; or
/// `no answer: ` and why.
///
/// What is written is made first, and then written in whatever pieces the sink takes.
pub fn write_answer<S: Sink>(
    alloc: Global,
    unknown: Unknown,
    levels: Levels,
    names: &Names<'_>,
    inputs: &Inputs,
    sink: &mut S,
) -> Result<Reported, RunFault>
    requires { ¬ IsTrue (S.has_failed sink.old) }
    ensures text { IfOk result (λ reported. (text : List ℕ)
        × IsMessageOutcome (IsAnswerText names.now.host.now names.now.realm.now unknown levels) inputs.now text reported.exit
        × Appends (S.written sink.old) (S.written sink.new) text) }
    ensures device { (result ≡ Err RunFault.Device) ↔ IsTrue (S.has_failed sink.new) }
    ensures front { result ≡ Err RunFault.Device
        → (text : List ℕ) × (exit : AnyExit)
        × IsMessageOutcome (IsAnswerText names.now.host.now names.now.realm.now unknown levels) inputs.now text exit
        × AppendsFront (S.written sink.old) (S.written sink.new) text }
    ensures no_memory { result ≡ Err RunFault.NoMemory → S.written sink.new ≡ S.written sink.old }
{
    let Answered { text, exit, report } = text_for(alloc, unknown, levels, names, inputs)?;
    put_all(sink, text.as_bytes())?;
    Ok(Reported { exit, report })
}

/// The text for the inputs, how the command ends, and what was found.
fn text_for(
    alloc: Global,
    unknown: Unknown,
    levels: Levels,
    names: &Names<'_>,
    inputs: &Inputs,
) -> Result<Answered, AllocError>
    ensures { IfOk result (λ a. IsMessageOutcome
        (IsAnswerText names.now.host.now names.now.realm.now unknown levels) inputs.now (string_bytes a.text) a.exit) }
{
    match read_dictionary(alloc, 1, &inputs.first) {
        Ok(first) => text_by(alloc, &first.book, unknown, levels, names, &inputs.message),
        Err(Refused::Bad(bad)) => refuse(alloc, bad),
        Err(Refused::NoMemory) => Err(AllocError),
    }
}

/// The text for the request that an input spells, by the dictionary that was read.
pub(crate) fn text_by<B: Book>(
    alloc: Global,
    book: &B,
    unknown: Unknown,
    levels: Levels,
    names: &Names<'_>,
    message: &Input,
) -> Result<Answered, AllocError>
    ensures { IfOk result (λ a. IsLineAnswered names.now.host.now names.now.realm.now unknown levels
        (B.meaning book.now) message.now (string_bytes a.text, a.exit)) }
{
    match read_message(alloc, message) {
        Ok(request) => reply(alloc, book, unknown, levels, names, &request),
        Err(Refused::Bad(bad)) => refuse(alloc, bad),
        Err(Refused::NoMemory) => Err(AllocError),
    }
}

/// The answer to a request, or why there is none.
fn reply<B: Book>(
    alloc: Global,
    book: &B,
    unknown: Unknown,
    levels: Levels,
    names: &Names<'_>,
    request: &[u8],
) -> Result<Answered, AllocError>
    ensures { IfOk result (λ a. IsAnswerText names.now.host.now names.now.realm.now unknown levels
        (B.meaning book.now) request.now (string_bytes a.text) a.exit) }
{
    match answer(alloc, book, unknown, levels, names, request)? {
        Ok(made) => sent(alloc, &made),
        Err(why) => unanswered(alloc, why),
    }
}

/// The line of an answer.
fn sent(alloc: Global, made: &Made) -> Result<Answered, AllocError>
    ensures text { IfOk result
        (λ a. string_bytes a.text ≡ line (encode_lower made.now.bytes.items)) }
    ensures exit { IfOk result (λ a. a.exit ≡ Exit.Yes) }
{
    let mut text = hex::encode(alloc, &made.bytes)?;
    text.push('\n')?;
    let exit = Exit::Yes;
    let report = Report::Made(made.form);
    Ok(Answered { text, exit, report })
}

/// The line of a request that gets no answer.
fn unanswered(alloc: Global, why: NoAnswer) -> Result<Answered, AllocError>
    ensures text { IfOk result
        (λ a. string_bytes a.text ≡ line (codes "no answer: " ++ no_answer_word why)) }
    ensures exit { IfOk result (λ a. a.exit ≡ Exit.No) }
{
    let word = why.word();
    let text = format!(in alloc; "no answer: {word}\n")?;
    let exit = Exit::No;
    let report = Report::None(why);
    Ok(Answered { text, exit, report })
}

/// The line of an input that is refused.
fn refuse(alloc: Global, bad: BadInput) -> Result<Answered, AllocError>
    ensures text { IfOk result (λ a. string_bytes a.text ≡ line (bad_input_text bad)) }
    ensures exit { IfOk result (λ a. a.exit ≡ Exit.Bad) }
{
    let text = format!(in alloc; "{bad}\n")?;
    let exit = Exit::Bad;
    let report = Report::Refused(bad);
    Ok(Answered { text, exit, report })
}
