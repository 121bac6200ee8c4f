//! The tasks of a program.

ghost use Rattle.std.specs.Prelude.{Bool, IfErr, IsTrue, Result as AnyResult};
ghost use Rattle.dia_cli.specs.Ending.{Stream, stream};
ghost use Rattle.dia_cli.specs.declared.ending.Ending.{Ending as AnyEnding};
ghost use Rattle.dia_cli.specs.declared.origin.Origins.{Origins as AnyOrigins};
ghost use Rattle.dia_cli.specs.declared.task.Task.{Task as AnyTask};
ghost use Rattle.dia_io.specs.declared.Inputs.{Inputs as AnyInputs};
ghost use Rattle.dia_report.specs.declared.reporting.Reported.{Reported as AnyReported};
ghost use Rattle.dia_driver.specs.Program.{IsFailed};
ghost use Rattle.dia_driver.specs.Tasks.{World, world};

use crate::manner::Manner;
use dia_cli::{Ending, Opener, Origins, Task};
use dia_io::{Inputs, Sink, ToWriter};
use dia_report::{Report, Reported};
use std::io::Write;

/// What a program answers for each task.
pub trait Tasks {
    // What is written for a task, as JSON or not, over these files and inputs, and how it ends.
    ghost answers: { AnyTask → Bool → World → AnyOrigins → AnyInputs → Stream → AnyResult AnyReported AnyEnding → Type 0 };

    /// Does what is asked for. There is no answer only where a device failed or memory was refused.
    fn answer<'a, R, O, W>(
        &self,
        rt: &R,
        opener: &O,
        task: &Task,
        inputs: &Inputs,
        origins: &Origins<'a>,
        manner: Manner,
        out: &mut ToWriter<W>,
    ) -> Result<Reported, Ending<'a>>
    where
        R: AllocGlobal + Eprint,
        O: Opener,
        W: Write,
        requires { ¬ IsTrue (⟦<ToWriter<W> as Sink>⟧.has_failed out.old) }
        ensures ends { answers task.now manner.json (world (O.content opener.now) (O.input opener.now)) origins.now inputs.now
            (stream (⟦<ToWriter<W> as Sink>⟧.written out.old) (⟦<ToWriter<W> as Sink>⟧.written out.new)
            (⟦<ToWriter<W> as Sink>⟧.has_failed out.new)) result }
        ensures failed { IfErr result IsFailed };

    /// Explains an answer on standard error. Where memory or the device fails, there is no explanation.
    fn explain<R: AllocGlobal + Eprint>(
        &self,
        rt: &R,
        task: &Task,
        inputs: &Inputs,
        origins: &Origins<'_>,
        report: &Report,
    );
}
