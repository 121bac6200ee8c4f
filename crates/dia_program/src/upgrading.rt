//! `breaking`, with its notes.

ghost use Rattle.std.specs.Prelude.{◌≡◌, ◌↔◌, Err, IfOk, IsTrue, List, ℕ};
ghost use Rattle.std.specs.Io.KnownBytes.{Appends};
ghost use Rattle.dia_io.specs.Writing.{AppendsFront};
ghost use Rattle.dia_cli.specs.Ending.{stream};
ghost use Rattle.dia_program.specs.Breaking.{AsksFor, Breaks, IsBegun, IsBegunOrWhole, IsListed, stale_in};

use dia_cli::{Breaking, Ending, Origins, STANDARD_OUTPUT};
use dia_driver::{Manner, texts_of};
use dia_explain_places::InputTexts;
use dia_explain_upgrades::explain_upgrade;
use dia_io::{Inputs, RunFault, Sink, ToWriter};
use dia_report::Reported;
use dia_upgrades::{Asked, BreakingAnswer, Report, Stale, breaking};
use std::alloc::Global;
use std::io::Write;

/// What standard error says of `--stale-allowed` without a list.
const NO_LIST: &str =
    "hint: --stale-allowed is about entries of --accepted FILE, and there is no list\n";

/// `breaking` as the command line asks for it.
fn asked_of(breaking: &Breaking) -> Asked<'_>
    ensures { AsksFor breaking.now result }
{
    Asked {
        sends: breaking.sends,
        unknown: breaking.unknown,
        messages: breaking.messages,
        once: breaking.once,
        meaning: breaking.meaning,
        stale: stale_in(breaking.stale_allowed),
        names: breaking.names.as_slice(),
    }
}

/// What is done about stale entries of the list.
fn stale_in(is_allowed: bool) -> Stale
    ensures { result ≡ stale_in is_allowed }
{
    if is_allowed {
        Stale::Allowed
    } else {
        Stale::Fails
    }
}

/// Lists what breaks, and explains it, unless it is to be quiet: each cause if that is asked for, and otherwise the first ones.
pub(crate) fn list<'a, R, W>(
    rt: &R,
    question: &Breaking,
    inputs: &Inputs,
    origins: &Origins<'a>,
    manner: Manner,
    out: &mut ToWriter<W>,
) -> Result<Reported, Ending<'a>>
where
    R: AllocGlobal + Eprint,
    W: Write,
    requires { ¬ IsTrue (⟦<ToWriter<W> as Sink>⟧.has_failed out.old) }
    ensures { Breaks manner.json question.now inputs.now
        (stream (⟦<ToWriter<W> as Sink>⟧.written out.old) (⟦<ToWriter<W> as Sink>⟧.written out.new)
        (⟦<ToWriter<W> as Sink>⟧.has_failed out.new)) result }
{
    let asked = asked_of(question);
    match listed(rt.alloc(), asked, inputs, manner.json, out) {
        Ok(listed) => {
            if !manner.quiet {
                let texts = texts_of(origins, inputs);
                let explain = question.explain;
                note_upgrade(rt, &texts, asked, explain, inputs, &listed.report);
            }
            Ok(Reported {
                exit: listed.exit,
                report: dia_report::Report::Done,
            })
        }
        Err(fault) => Err(Ending::of_run(fault, STANDARD_OUTPUT, out.failure())),
    }
}

/// Lists what breaks, as JSON if that is asked for.
fn listed<W: Write>(
    alloc: Global,
    asked: Asked<'_>,
    inputs: &Inputs,
    json: bool,
    out: &mut ToWriter<W>,
) -> Result<BreakingAnswer, RunFault>
    requires { ¬ IsTrue (⟦<ToWriter<W> as Sink>⟧.has_failed out.old) }
    ensures text { IfOk result (λ reported. (text : List ℕ) × IsListed json asked.entry inputs.now text reported.exit
        × Appends (⟦<ToWriter<W> as Sink>⟧.written out.old) (⟦<ToWriter<W> as Sink>⟧.written out.new) text) }
    ensures device { (result ≡ Err RunFault.Device) ↔ IsTrue (⟦<ToWriter<W> as Sink>⟧.has_failed out.new) }
    ensures front { result ≡ Err RunFault.Device → (text : List ℕ) × IsBegunOrWhole json asked.entry inputs.now text
        × AppendsFront (⟦<ToWriter<W> as Sink>⟧.written out.old) (⟦<ToWriter<W> as Sink>⟧.written out.new) text }
    ensures no_memory { result ≡ Err RunFault.NoMemory → (text : List ℕ) × IsBegun json asked.entry inputs.now text
        × Appends (⟦<ToWriter<W> as Sink>⟧.written out.old) (⟦<ToWriter<W> as Sink>⟧.written out.new) text }
{
    if json {
        dia_upgrades_json::breaking(alloc, asked, inputs, out)
    } else {
        breaking(alloc, asked, inputs, out)
    }
}

/// Explains what was found of an upgrade on standard error. Where memory or the device fails, there is no note.
fn note_upgrade<R: AllocGlobal + Eprint>(
    rt: &R,
    texts: &InputTexts<'_>,
    asked: Asked<'_>,
    explain: bool,
    inputs: &Inputs,
    report: &Report,
) {
    if let Ok(text) = explain_upgrade(rt.alloc(), texts, asked, inputs, report, explain) {
        let _ = eprint!(rt; "{text}");
    }
    if matches!(asked.stale, Stale::Allowed) && texts.table.name.is_empty() {
        let _ = rt.eprint(NO_LIST);
    }
}
