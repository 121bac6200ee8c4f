//! The program over all tasks.

ghost use Rattle.std.specs.Prelude.{IsTrue, map, string_bytes};
ghost use Rattle.dia_cli.specs.Ending.{stream};
ghost use Rattle.dia_driver.specs.Program.{IsProcessOutcome, IsProgramOutcome, streams};
ghost use Rattle.dia_driver.specs.Tasks.{world};
ghost use Rattle.dia_program.specs.Tasks.{TaskRuns};

use crate::tasks::AllTasks;
use dia_cli::Opener;
use dia_io::{Sink, ToWriter};
use std::io::Write;
use std::rt::Env;

/// Runs what the words of the process ask for, and answers its status.
pub fn run_process<R, O, W, E>(
    rt: &R,
    opener: &O,
    out: &mut ToWriter<W>,
    err: &mut ToWriter<E>,
) -> u8
where
    R: AllocGlobal + Env + Eprint,
    O: Opener,
    W: Write,
    E: Write,
    requires out { ¬ IsTrue (⟦<ToWriter<W> as Sink>⟧.has_failed out.old) }
    requires err { ¬ IsTrue (⟦<ToWriter<E> as Sink>⟧.has_failed err.old) }
    ensures { IsProcessOutcome TaskRuns (world (O.content opener.now) (O.input opener.now)) (streams
        (stream (⟦<ToWriter<W> as Sink>⟧.written out.old) (⟦<ToWriter<W> as Sink>⟧.written out.new)
        (⟦<ToWriter<W> as Sink>⟧.has_failed out.new))
        (stream (⟦<ToWriter<E> as Sink>⟧.written err.old) (⟦<ToWriter<E> as Sink>⟧.written err.new)
        (⟦<ToWriter<E> as Sink>⟧.has_failed err.new))) result }
{
    dia_driver::run_process(&AllTasks, rt, opener, out, err)
}

/// Runs what the words ask for, the program's own name first, and answers the status of the process. What is answered goes to
/// `out`, and why nothing is to `err`. Notes go to the standard error of the runtime.
pub fn run<R, O, W, E>(
    rt: &R,
    opener: &O,
    version: &str,
    words: &[String],
    out: &mut ToWriter<W>,
    err: &mut ToWriter<E>,
) -> u8
where
    R: AllocGlobal + Eprint,
    O: Opener,
    W: Write,
    E: Write,
    requires out { ¬ IsTrue (⟦<ToWriter<W> as Sink>⟧.has_failed out.old) }
    requires err { ¬ IsTrue (⟦<ToWriter<E> as Sink>⟧.has_failed err.old) }
    ensures { IsProgramOutcome TaskRuns (map (λ word. string_bytes word) words.now)
        (world (O.content opener.now) (O.input opener.now)) (streams
        (stream (⟦<ToWriter<W> as Sink>⟧.written out.old) (⟦<ToWriter<W> as Sink>⟧.written out.new)
        (⟦<ToWriter<W> as Sink>⟧.has_failed out.new))
        (stream (⟦<ToWriter<E> as Sink>⟧.written err.old) (⟦<ToWriter<E> as Sink>⟧.written err.new)
        (⟦<ToWriter<E> as Sink>⟧.has_failed err.new))) result }
{
    dia_driver::run(&AllTasks, rt, opener, version, words, out, err)
}
