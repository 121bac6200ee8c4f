//! How the program ends where nothing ran, or a run failed.

ghost use Rattle.std.specs.Prelude.{◌≡◌, ◌≢◌, ◌↔◌, Err, IfOk, IfErr, IsErr, IsOkAnd, IsTrue, OnOk, string_bytes};
ghost use Rattle.std.specs.Io.KnownBytes.{Appends};
ghost use Rattle.dia_io.specs.Exit.{status_of};
ghost use Rattle.dia_cli.specs.Ending.{IsDeviceText, IsShown, IsRecorded, ShowsHelp};
ghost use Rattle.dia_cli.specs.Ending.{apart_text, no_memory_text, stream};

use crate::apart::Apart;
use clap::error::ErrorKind;
use dia_io::{Exit, Failed, RunFault, Sink, ToWriter, put_all};
use std::alloc::{AllocError, Global};
use std::io;
use std::io::Write;
use thiserror::Error;

/// Why the program ends without an outcome.
#[derive(Debug, Drop, Error)]
pub enum Ending<'a> {
    /// What clap shows: help or the version, with status 0, or a fault of the command line, with status 2.
    #[error("a text of clap is shown")]
    Recorded(clap::Error),
    /// A word of the command line isn't UTF-8: status 2.
    #[error("a word isn't UTF-8")]
    NotText,
    /// The command line names standard input twice: status 2.
    #[error("standard input is named twice")]
    ReadTwice,
    /// The command line has two options that don't go together: status 2.
    #[error("two options don't go together")]
    Apart(Apart),
    /// A file couldn't be opened, or a device failed: status 3.
    #[error("{name}: the device failed")]
    Device {
        /// The input as the command line names it, or a stream by its name.
        name: &'a str,
        /// What the system said.
        error: Option<io::Error>,
    },
    /// Memory was refused: status 3.
    #[error("out of memory")]
    NoMemory,
}

/// The status of the process. An ending is written first: help to standard output, and any other to standard error. Where
/// standard output fails, standard error says so.
pub fn finish<O: Write, E: Write>(
    alloc: Global,
    ended: Result<Exit, Ending<'_>>,
    out: &mut ToWriter<O>,
    err: &mut ToWriter<E>,
) -> u8
    requires out { ¬ IsTrue (⟦<ToWriter<O> as Sink>⟧.has_failed out.old) }
    requires err { ¬ IsTrue (⟦<ToWriter<E> as Sink>⟧.has_failed err.old) }
    ensures exit { IfOk ended.entry (λ exit. (result ≡ status_of exit)
        × (out.new ≡ out.old) × (err.new ≡ err.old)) }
    ensures fault { IfErr ended.entry (λ ending. ¬ ShowsHelp ending → (out.new ≡ out.old)
        × IsRecorded ending (stream (⟦<ToWriter<E> as Sink>⟧.written err.old)
        (⟦<ToWriter<E> as Sink>⟧.written err.new)
        (⟦<ToWriter<E> as Sink>⟧.has_failed err.new)) result) }
    ensures help { IfErr ended.entry (λ ending. ShowsHelp ending
        → IsShown (stream (⟦<ToWriter<O> as Sink>⟧.written out.old)
        (⟦<ToWriter<O> as Sink>⟧.written out.new)
        (⟦<ToWriter<O> as Sink>⟧.has_failed out.new))
        (stream (⟦<ToWriter<E> as Sink>⟧.written err.old)
        (⟦<ToWriter<E> as Sink>⟧.written err.new)
        (⟦<ToWriter<E> as Sink>⟧.has_failed err.new))
        (err.new ≡ err.old) result) }
{
    match ended {
        Ok(exit) => exit.status(),
        Err(ending) if ending.is_help() => show(alloc, &ending, out, err),
        Err(ending) => report_error(alloc, &ending, err),
    }
}

/// Shows help, or writes to standard error why it couldn't be shown.
fn show<O: Write, E: Sink>(
    alloc: Global,
    help: &Ending<'_>,
    out: &mut ToWriter<O>,
    err: &mut E,
) -> u8
    requires out { ¬ IsTrue (⟦<ToWriter<O> as Sink>⟧.has_failed out.old) }
    requires err { ¬ IsTrue (E.has_failed err.old) }
    requires help { ShowsHelp help.now }
    ensures { IsShown (stream (⟦<ToWriter<O> as Sink>⟧.written out.old)
        (⟦<ToWriter<O> as Sink>⟧.written out.new)
        (⟦<ToWriter<O> as Sink>⟧.has_failed out.new))
        (stream (E.written err.old) (E.written err.new) (E.has_failed err.new))
        (err.new ≡ err.old) result }
{
    match help.deliver(alloc, out) {
        Ok(status) => status,
        Err(fault) => {
            let ending = Ending::of_run(fault, STANDARD_OUTPUT, out.failure());
            report_error(alloc, &ending, err)
        }
    }
}

/// Writes an ending to standard error, and returns the status.
pub fn report_error<S: Sink>(alloc: Global, ending: &Ending<'_>, err: &mut S) -> u8
    requires { ¬ IsTrue (S.has_failed err.old) }
    ensures { IsRecorded ending.now
        (stream (S.written err.old) (S.written err.new) (S.has_failed err.new)) result }
{
    match ending.deliver(alloc, err) {
        Ok(status) => status,
        Err(RunFault::Device) => FAILED,
        Err(RunFault::NoMemory) => report_no_memory(err),
    }
}

/// Writes that memory was refused, and returns the status.
fn report_no_memory<S: Sink>(err: &mut S) -> u8
    requires { ¬ IsTrue (S.has_failed err.old) }
    ensures status { result ≡ 3 }
    ensures text { ¬ IsTrue (S.has_failed err.new)
        → Appends (S.written err.old) (S.written err.new) no_memory_text }
{
    let _recorded = put_all(err, NO_MEMORY.as_bytes());
    FAILED
}

/// The status where a device failed or memory was refused.
const FAILED: u8 = 3;

/// The name of standard output in an ending.
pub const STANDARD_OUTPUT: &str = "standard output";

impl<'a> Ending<'a> {
    ghost use Rattle.std.specs.Prelude.{◌≡◌, ◌↔◌, Err, IfOk, IsErr, IsTrue};
    ghost use Rattle.dia_cli.specs.Ending.{AppendsTextOf, EndsWith, HasForeignText};
    ghost use Rattle.dia_cli.specs.Ending.{IsEndingOfIo, ShowsHelp, ending_of_run};

    /// The ending where the command line can't be read.
    pub fn of_words(error: io::Error) -> Ending<'static>
        ensures { IsEndingOfIo error result }
    {
        match error.kind() {
            io::ErrorKind::OutOfMemory => Ending::NoMemory,
            io::ErrorKind::InvalidData => Ending::NotText,
            _ => Ending::Device {
                name: "command line",
                error: Some(error),
            },
        }
    }

    /// The ending where a run failed. `name` and `error` are those of its sink.
    pub fn of_run(fault: RunFault, name: &'a str, error: Option<io::Error>) -> Ending<'a>
        ensures { result ≡ ending_of_run fault name.entry error }
    {
        match fault {
            RunFault::Device => Ending::Device { name, error },
            RunFault::NoMemory => Ending::NoMemory,
        }
    }

    /// Writes the ending, and returns its status. Memory is needed only for the words of clap and of the system.
    pub fn deliver<S: Sink>(&self, alloc: Global, sink: &mut S) -> Result<u8, RunFault>
        requires { ¬ IsTrue (S.has_failed sink.old) }
        ensures status { IfOk result (EndsWith self.now) }
        ensures text { IfOk result (λ _.
            AppendsTextOf self.now (S.written sink.old) (S.written sink.new)) }
        ensures device { (result ≡ Err RunFault.Device) ↔ IsTrue (S.has_failed sink.new) }
        ensures no_memory { result ≡ Err RunFault.NoMemory
            → HasForeignText self.now × (S.written sink.new ≡ S.written sink.old) }
    {
        self.put(alloc, sink)?;
        Ok(self.status())
    }

    /// The exit status of this ending.
    fn status(&self) -> u8
        ensures { EndsWith self.now result }
    {
        match self {
            Ending::Recorded(error) if error.use_stderr() => 2,
            Ending::Recorded(_) => 0,
            Ending::NotText | Ending::ReadTwice | Ending::Apart(_) => 2,
            Ending::Device { .. } | Ending::NoMemory => FAILED,
        }
    }

    /// Whether this is help or the version, which go to standard output.
    pub fn is_help(&self) -> bool
        ensures { IsTrue result ↔ ShowsHelp self.now }
    {
        match self {
            Ending::Recorded(error) => !error.use_stderr(),
            _ => false,
        }
    }

    /// Writes the text of the ending.
    fn put<S: Sink>(&self, alloc: Global, sink: &mut S) -> Result<(), RunFault>
        requires { ¬ IsTrue (S.has_failed sink.old) }
        ensures text { IfOk result (λ _.
            AppendsTextOf self.now (S.written sink.old) (S.written sink.new)) }
        ensures device { (result ≡ Err RunFault.Device) ↔ IsTrue (S.has_failed sink.new) }
        ensures no_memory { result ≡ Err RunFault.NoMemory
            → HasForeignText self.now × (S.written sink.new ≡ S.written sink.old) }
    {
        match self {
            Ending::Recorded(error) => put_made(sink, format!(in alloc; "{error}")),
            Ending::NotText => put_text(sink, NOT_TEXT),
            Ending::ReadTwice => put_text(sink, READ_TWICE),
            Ending::Apart(apart) => Ok(put_apart(sink, apart.first(), apart.second())?),
            Ending::Device {
                name,
                error: Some(error),
            } => put_made(sink, device_text(alloc, name, *error)),
            Ending::Device { .. } => put_text(sink, DEVICE_FAILED),
            Ending::NoMemory => put_text(sink, NO_MEMORY),
        }
    }
}

/// Writes that two options don't go together.
fn put_apart<S: Sink>(sink: &mut S, first: &str, second: &str) -> Result<(), Failed>
    requires { ¬ IsTrue (S.has_failed sink.old) }
    ensures text { OnOk result
        (Appends (S.written sink.old) (S.written sink.new) (apart_text first.now second.now)) }
    ensures failed { IsErr result ↔ IsTrue (S.has_failed sink.new) }
{
    put_all(sink, APART.as_bytes())?;
    put_all(sink, first.as_bytes())?;
    put_all(sink, CANNOT_BE.as_bytes())?;
    put_all(sink, second.as_bytes())?;
    put_all(sink, CLOSED.as_bytes())
}

/// Writes a text, if there was memory for it.
fn put_made<S: Sink>(sink: &mut S, text: Result<String, AllocError>) -> Result<(), RunFault>
    requires { ¬ IsTrue (S.has_failed sink.old) }
    ensures text { IfOk result (λ _. IsOkAnd text (λ made.
        Appends (S.written sink.old) (S.written sink.new) (string_bytes made))) }
    ensures device { (result ≡ Err RunFault.Device) ↔ IsTrue (S.has_failed sink.new) }
    ensures no_memory { result ≡ Err RunFault.NoMemory → S.written sink.new ≡ S.written sink.old }
{
    let text = text?;
    put_text(sink, text.as_str())
}

/// Writes a text.
fn put_text<S: Sink>(sink: &mut S, text: &str) -> Result<(), RunFault>
    requires { ¬ IsTrue (S.has_failed sink.old) }
    ensures text { IfOk result (λ _. Appends (S.written sink.old) (S.written sink.new) text.now) }
    ensures device { (result ≡ Err RunFault.Device) ↔ IsTrue (S.has_failed sink.new) }
    ensures memory { result ≢ Err RunFault.NoMemory }
{
    put_all(sink, text.as_bytes())?;
    Ok(())
}

/// The text of a failed device, with what the system said.
fn device_text(alloc: Global, name: &str, error: io::Error) -> Result<String, AllocError>
    ensures { IfOk result (λ text. IsDeviceText name.now (string_bytes text)) }
{
    let said = format!(in alloc; "{error}")?;
    let mut text = String::from_str(alloc, DEVICE_FAILED)?;
    text.push_str(name)?;
    text.push_str(": ")?;
    text.push_str(&said)?;
    text.push_str("\n")?;
    Ok(text)
}

const DEVICE_FAILED: &str = "device failed\n";

const NO_MEMORY: &str = "no memory\n";

const NOT_TEXT: &str = "error: a word of the command line isn't UTF-8

For more information, try '--help'.
";

const READ_TWICE: &str =
    "error: '-' is given twice, and standard input can be read once: name a file for one of the two

For more information, try '--help'.
";

const APART: &str = "error: the argument '--";

const CANNOT_BE: &str = "' cannot be used with '--";

const CLOSED: &str = "'

For more information, try '--help'.
";

impl<'a> From<clap::Error> for Ending<'a> {
    ghost use Rattle.std.specs.Prelude.{◌≡◌, ◌≢◌, ◌⊎◌};
    ghost use Rattle.clap.specs.Words.{kind_of};
    ghost use Rattle.dia_cli.specs.declared.ending.Ending.TheVariants.{Recorded, NoMemory};
    ghost use Rattle.clap.specs.declared.error.kind.ErrorKind.TheVariants.{OutOfMemory};

    ghost from_gives = { λ error ending. ((kind_of error ≡ OutOfMemory) × (ending ≡ NoMemory))
        ⊎ ((kind_of error ≢ OutOfMemory) × (ending ≡ Recorded error)) };

    fn from(error: clap::Error) -> Ending<'a> {
        match error.kind() {
            ErrorKind::OutOfMemory => Ending::NoMemory,
            _ => Ending::Recorded(error),
        }
    }
}

impl<'a> From<AllocError> for Ending<'a> {
    ghost use Rattle.std.specs.Prelude.{◌≡◌};
    ghost use Rattle.dia_cli.specs.declared.ending.Ending.TheVariants.{NoMemory};

    ghost from_gives = { λ _ ending. ending ≡ NoMemory };

    fn from(_error: AllocError) -> Ending<'a> {
        Ending::NoMemory
    }
}
