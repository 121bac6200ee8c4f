//! A program: its words, its streams and its status.

ghost use Rattle.std.specs.Prelude.{IfErr, IsTrue, map, string_bytes};
ghost use Rattle.dia_cli.specs.Ending.{ShowsHelp, stream};
ghost use Rattle.dia_driver.specs.Tasks.{world};
ghost use Rattle.dia_driver.specs.Program.{Fails, IsFailed, IsProcessOutcome, IsProgramOutcome, Refuses, streams};

use crate::advice::{hint_of, is_unread};
use crate::built::version;
use crate::performing::answer;
use crate::tasks::Tasks;
use dia_cli::{Ending, Opener, advised, finish, parse_words, report_error};
use dia_io::{Sink, ToWriter};
use std::alloc::Global;
use std::env;
use std::io::Write;
use std::rt::Env;

/// The status where a device failed or memory was refused.
const FAILED: u8 = 3;

/// Runs what the words of the process ask for, and answers its status.
pub fn run_process<T, R, O, W, E>(
    tasks: &T,
    rt: &R,
    opener: &O,
    out: &mut ToWriter<W>,
    err: &mut ToWriter<E>,
) -> u8
where
    T: Tasks,
    R: AllocGlobal + Env + Eprint,
    O: Opener,
    W: Write,
    E: Write,
    requires out { ¬ IsTrue (⟦<ToWriter<W> as Sink>⟧.has_failed out.old) }
    requires err { ¬ IsTrue (⟦<ToWriter<E> as Sink>⟧.has_failed err.old) }
    ensures { IsProcessOutcome T.answers (world (O.content opener.now) (O.input opener.now)) (streams
        (stream (⟦<ToWriter<W> as Sink>⟧.written out.old) (⟦<ToWriter<W> as Sink>⟧.written out.new)
        (⟦<ToWriter<W> as Sink>⟧.has_failed out.new))
        (stream (⟦<ToWriter<E> as Sink>⟧.written err.old) (⟦<ToWriter<E> as Sink>⟧.written err.new)
        (⟦<ToWriter<E> as Sink>⟧.has_failed err.new))) result }
{
    match read_words(rt) {
        Ok((version, words)) => run(tasks, rt, opener, &version, words.as_slice(), out, err),
        Err(ending) => report_error(rt.alloc(), &ending, err),
    }
}

/// The program's version, and the words of the process, its own name first.
fn read_words<R: AllocGlobal + Env>(rt: &R) -> Result<(String, Vec<String>), Ending<'static>>
    ensures { IfErr result (λ ending. ¬ ShowsHelp ending) }
{
    match env::args(rt) {
        Ok(words) => Ok((version(rt.alloc())?, words.collect(rt.alloc())?)),
        Err(error) => Err(Ending::of_words(error)),
    }
}

/// Runs what the words ask for, the program's own name first, and answers the status of the process. What is answered goes to
/// `out`, and why nothing is to `err`. Notes go to the standard error of the runtime.
pub fn run<T, R, O, W, E>(
    tasks: &T,
    rt: &R,
    opener: &O,
    version: &str,
    words: &[String],
    out: &mut ToWriter<W>,
    err: &mut ToWriter<E>,
) -> u8
where
    T: Tasks,
    R: AllocGlobal + Eprint,
    O: Opener,
    W: Write,
    E: Write,
    requires out { ¬ IsTrue (⟦<ToWriter<W> as Sink>⟧.has_failed out.old) }
    requires err { ¬ IsTrue (⟦<ToWriter<E> as Sink>⟧.has_failed err.old) }
    ensures { IsProgramOutcome T.answers (map (λ word. string_bytes word) words.now)
        (world (O.content opener.now) (O.input opener.now)) (streams
        (stream (⟦<ToWriter<W> as Sink>⟧.written out.old) (⟦<ToWriter<W> as Sink>⟧.written out.new)
        (⟦<ToWriter<W> as Sink>⟧.has_failed out.new))
        (stream (⟦<ToWriter<E> as Sink>⟧.written err.old) (⟦<ToWriter<E> as Sink>⟧.written err.new)
        (⟦<ToWriter<E> as Sink>⟧.has_failed err.new))) result }
{
    match parse_words(rt.alloc(), version, words) {
        Ok(request) => match answer(tasks, rt, opener, &request, out) {
            Ok(exit) => exit.status(),
            Err(ending) => report_failure(rt, request.quiet, &ending, err),
        },
        Err(ending) => report_refusal(rt.alloc(), advised(rt.alloc(), words, ending), out, err),
    }
}

/// Reports why a request has no answer, but silently where standard output is a pipe that nobody reads, and answers the status.
fn report_failure<R, E>(rt: &R, quiet: bool, ending: &Ending<'_>, err: &mut ToWriter<E>) -> u8
where
    R: AllocGlobal + Eprint,
    E: Write,
    requires err { ¬ IsTrue (⟦<ToWriter<E> as Sink>⟧.has_failed err.old) }
    requires failed { IsFailed ending.now }
    ensures { Fails ending.now
        (stream (⟦<ToWriter<E> as Sink>⟧.written err.old) (⟦<ToWriter<E> as Sink>⟧.written err.new)
        (⟦<ToWriter<E> as Sink>⟧.has_failed err.new)) result }
{
    if is_unread(ending) {
        return FAILED;
    }
    let status = report_error(rt.alloc(), ending, err);
    if !quiet {
        let _ = rt.eprint(hint_of(ending));
    }
    status
}

/// Shows help or the version, or reports why the words are refused, and answers the status.
fn report_refusal<W: Write, E: Write>(
    alloc: Global,
    ending: Ending<'_>,
    out: &mut ToWriter<W>,
    err: &mut ToWriter<E>,
) -> u8
    requires out { ¬ IsTrue (⟦<ToWriter<W> as Sink>⟧.has_failed out.old) }
    requires err { ¬ IsTrue (⟦<ToWriter<E> as Sink>⟧.has_failed err.old) }
    ensures { Refuses ending.entry (streams
        (stream (⟦<ToWriter<W> as Sink>⟧.written out.old) (⟦<ToWriter<W> as Sink>⟧.written out.new)
        (⟦<ToWriter<W> as Sink>⟧.has_failed out.new))
        (stream (⟦<ToWriter<E> as Sink>⟧.written err.old) (⟦<ToWriter<E> as Sink>⟧.written err.new)
        (⟦<ToWriter<E> as Sink>⟧.has_failed err.new))) result }
{
    finish(alloc, Err(ending), out, err)
}
