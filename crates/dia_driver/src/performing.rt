//! A request that the words ask for.

ghost use Rattle.std.specs.Prelude.{IfErr, IsTrue};
ghost use Rattle.dia_cli.specs.Ending.{stream};
ghost use Rattle.dia_driver.specs.Program.{IsFailed, RequestEnds};
ghost use Rattle.dia_driver.specs.Tasks.{TaskEnds, world};

use crate::manner::Manner;
use crate::tasks::Tasks;
use dia_cli::{Ending, Opener, Request, open_inputs};
use dia_io::{Exit, Inputs, Sink, ToWriter};
use dia_report::Reported;
use std::io::Write;

/// Opens the inputs of a request, and does what it asks for.
pub(crate) fn answer<'a, T, R, O, W>(
    tasks: &T,
    rt: &R,
    opener: &O,
    request: &Request<'a>,
    out: &mut ToWriter<W>,
) -> Result<Exit, Ending<'a>>
where
    T: Tasks,
    R: AllocGlobal + Eprint,
    O: Opener,
    W: Write,
    requires { ¬ IsTrue (⟦<ToWriter<W> as Sink>⟧.has_failed out.old) }
    ensures ends { RequestEnds T.answers request.now (world (O.content opener.now) (O.input opener.now))
        (stream (⟦<ToWriter<W> as Sink>⟧.written out.old) (⟦<ToWriter<W> as Sink>⟧.written out.new)
        (⟦<ToWriter<W> as Sink>⟧.has_failed out.new)) result }
    ensures failed { IfErr result IsFailed }
{
    match open_inputs(rt.alloc(), opener, &request.origins) {
        Ok(inputs) => answer_by(tasks, rt, opener, request, &inputs, out),
        Err(ending) => Err(ending),
    }
}

/// Does what a request asks for of its inputs, and explains the answer, unless it is to be quiet.
fn answer_by<'a, T, R, O, W>(
    tasks: &T,
    rt: &R,
    opener: &O,
    request: &Request<'a>,
    inputs: &Inputs,
    out: &mut ToWriter<W>,
) -> Result<Exit, Ending<'a>>
where
    T: Tasks,
    R: AllocGlobal + Eprint,
    O: Opener,
    W: Write,
    requires { ¬ IsTrue (⟦<ToWriter<W> as Sink>⟧.has_failed out.old) }
    ensures ends { TaskEnds T.answers request.now.task request.now.json (world (O.content opener.now) (O.input opener.now))
        request.now.origins inputs.now
        (stream (⟦<ToWriter<W> as Sink>⟧.written out.old) (⟦<ToWriter<W> as Sink>⟧.written out.new)
        (⟦<ToWriter<W> as Sink>⟧.has_failed out.new)) result }
    ensures failed { IfErr result IsFailed }
{
    let origins = &request.origins;
    let manner = Manner {
        quiet: request.quiet,
        json: request.json,
    };
    match tasks.answer(rt, opener, &request.task, inputs, origins, manner, out) {
        Ok(Reported { exit, report }) => {
            if !manner.quiet {
                tasks.explain(rt, &request.task, inputs, origins, &report);
            }
            Ok(exit)
        }
        Err(ending) => Err(ending),
    }
}
