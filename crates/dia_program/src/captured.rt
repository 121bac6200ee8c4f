//! Commands that read their messages a piece at a time.

ghost use Rattle.std.specs.Prelude.{◌≡◌, ◌⊎◌, ◌↔◌, true, false, Err, IfOk, IsErr, IsTrue, is_some};
ghost use Rattle.dia_cli.specs.Ending.{stream};
ghost use Rattle.dia_streams.specs.declared.fault.LinesFault.TheVariants.{Device};
ghost use Rattle.dia_program.specs.Captures.{ArePut, Captures, IsBegun, IsEndingOf, fed, known_of, messages_word};

use crate::front::{Front, is_recording};
use dia_captures::{Captured, Lines, check_lines, check_stream, refute_lines};
use dia_cli::{Ending, Opener, Origin, Origins, STANDARD_INPUT, STANDARD_OUTPUT};
use dia_driver::{Manner, word_of};
use dia_explain_answers::{Asked, push_check_alone, push_refute_alone};
use dia_explain_inputs::push_front;
use dia_explain_places::Note;
use dia_first::report_made;
use dia_io::{Exit, Feed, FromReader, Inputs, Sink, ToWriter};
use dia_report::Reported;
use dia_streams::LinesFault;
use dia_terms::{Levels, Unknown};
use std::alloc::Global;
use std::io;
use std::io::{Read, Write};

/// A command whose messages are read a piece at a time: the lines that it puts, and how messages are checked.
#[derive(Clone, Copy)]
pub(crate) struct Capture {
    lines: Lines,
    unknown: Unknown,
    levels: Levels,
}

impl Capture {
    pub(crate) fn new(lines: Lines, unknown: Unknown, levels: Levels) -> Self
        ensures lines { result.lines ≡ lines }
        ensures unknown { result.unknown ≡ unknown }
        ensures levels { result.levels ≡ levels }
    {
        Capture {
            lines,
            unknown,
            levels,
        }
    }

    /// Puts a line of text, or a JSON object, for each message.
    fn run_as<F: Feed, S: Sink>(
        self,
        alloc: Global,
        json: bool,
        inputs: &Inputs,
        feed: &mut F,
        sink: &mut S,
    ) -> Result<Captured, LinesFault>
        requires sound_feed { ¬ IsTrue (F.has_failed feed.old) }
        requires sound_sink { ¬ IsTrue (S.has_failed sink.old) }
        ensures put { IfOk result (λ captured. ArePut self.lines json self.unknown self.levels inputs.now
            (fed (F.remaining feed.old) (F.remaining feed.new))
            (stream (S.written sink.old) (S.written sink.new) (S.has_failed sink.new)) captured.reported.exit) }
        ensures begun { IsErr result → IsBegun self.lines json self.unknown self.levels inputs.now
            (fed (F.remaining feed.old) (F.remaining feed.new))
            (stream (S.written sink.old) (S.written sink.new) (S.has_failed sink.new)) }
        ensures device { (result ≡ Err Device)
            ↔ (IsTrue (F.has_failed feed.new) ⊎ IsTrue (S.has_failed sink.new)) }
    {
        if json {
            self.run_json(alloc, inputs, feed, sink)
        } else {
            self.run(alloc, inputs, feed, sink)
        }
    }

    /// Puts a line of text for each message.
    fn run<F: Feed, S: Sink>(
        self,
        alloc: Global,
        inputs: &Inputs,
        feed: &mut F,
        sink: &mut S,
    ) -> Result<Captured, LinesFault>
        requires sound_feed { ¬ IsTrue (F.has_failed feed.old) }
        requires sound_sink { ¬ IsTrue (S.has_failed sink.old) }
        ensures put { IfOk result (λ captured. ArePut self.lines false self.unknown self.levels inputs.now
            (fed (F.remaining feed.old) (F.remaining feed.new))
            (stream (S.written sink.old) (S.written sink.new) (S.has_failed sink.new)) captured.reported.exit) }
        ensures begun { IsErr result → IsBegun self.lines false self.unknown self.levels inputs.now
            (fed (F.remaining feed.old) (F.remaining feed.new))
            (stream (S.written sink.old) (S.written sink.new) (S.has_failed sink.new)) }
        ensures device { (result ≡ Err Device)
            ↔ (IsTrue (F.has_failed feed.new) ⊎ IsTrue (S.has_failed sink.new)) }
    {
        let Capture {
            lines,
            unknown,
            levels,
        } = self;
        match lines {
            Lines::Checked => check_lines(alloc, unknown, levels, inputs, feed, sink),
            Lines::Refuted => refute_lines(alloc, unknown, levels, inputs, feed, sink),
            Lines::Placed => check_stream(alloc, unknown, levels, inputs, feed, sink),
        }
    }

    /// Puts a JSON object for each message, a line each.
    fn run_json<F: Feed, S: Sink>(
        self,
        alloc: Global,
        inputs: &Inputs,
        feed: &mut F,
        sink: &mut S,
    ) -> Result<Captured, LinesFault>
        requires sound_feed { ¬ IsTrue (F.has_failed feed.old) }
        requires sound_sink { ¬ IsTrue (S.has_failed sink.old) }
        ensures put { IfOk result (λ captured. ArePut self.lines true self.unknown self.levels inputs.now
            (fed (F.remaining feed.old) (F.remaining feed.new))
            (stream (S.written sink.old) (S.written sink.new) (S.has_failed sink.new)) captured.reported.exit) }
        ensures begun { IsErr result → IsBegun self.lines true self.unknown self.levels inputs.now
            (fed (F.remaining feed.old) (F.remaining feed.new))
            (stream (S.written sink.old) (S.written sink.new) (S.has_failed sink.new)) }
        ensures device { (result ≡ Err Device)
            ↔ (IsTrue (F.has_failed feed.new) ⊎ IsTrue (S.has_failed sink.new)) }
    {
        let Capture {
            lines,
            unknown,
            levels,
        } = self;
        match lines {
            Lines::Checked => dia_json::check_lines(alloc, unknown, levels, inputs, feed, sink),
            Lines::Refuted => dia_json::refute_lines(alloc, unknown, levels, inputs, feed, sink),
            Lines::Placed => dia_json::check_stream(alloc, unknown, levels, inputs, feed, sink),
        }
    }
}

/// Runs a command that reads its messages a piece at a time, and sums them up on standard error, unless it is to be
/// quiet.
pub(crate) fn captured<'a, R, O, W>(
    rt: &R,
    opener: &O,
    capture: Capture,
    inputs: &Inputs,
    origins: &Origins<'a>,
    manner: Manner,
    out: &mut ToWriter<W>,
) -> Result<Reported, Ending<'a>>
where
    R: AllocGlobal + Eprint,
    O: Opener,
    W: Write,
    requires { ¬ IsTrue (⟦<ToWriter<W> as Sink>⟧.has_failed out.old) }
    ensures { Captures capture.lines capture.unknown capture.levels manner.json inputs.now
        (known_of (O.content opener.now) (O.input opener.now) origins.now.messages) (messages_word origins.now.messages)
        (stream (⟦<ToWriter<W> as Sink>⟧.written out.old) (⟦<ToWriter<W> as Sink>⟧.written out.new)
        (⟦<ToWriter<W> as Sink>⟧.has_failed out.new)) result }
{
    let answered = answer_messages(rt, opener, capture, inputs, origins.messages, manner, out);
    if !manner.quiet && matches!(&answered, Ok(Reported { exit: Exit::No, .. })) {
        advise(rt, capture, origins);
    }
    answered
}

/// Writes what a command says of the messages that a file or standard input has.
fn answer_messages<'a, R, O, W>(
    rt: &R,
    opener: &O,
    capture: Capture,
    inputs: &Inputs,
    messages: Origin<'a>,
    manner: Manner,
    out: &mut ToWriter<W>,
) -> Result<Reported, Ending<'a>>
where
    R: AllocGlobal + Eprint,
    O: Opener,
    W: Write,
    requires { ¬ IsTrue (⟦<ToWriter<W> as Sink>⟧.has_failed out.old) }
    ensures { Captures capture.lines capture.unknown capture.levels manner.json inputs.now
        (known_of (O.content opener.now) (O.input opener.now) messages.entry) (messages_word messages.entry)
        (stream (⟦<ToWriter<W> as Sink>⟧.written out.old) (⟦<ToWriter<W> as Sink>⟧.written out.new)
        (⟦<ToWriter<W> as Sink>⟧.has_failed out.new)) result }
{
    match messages {
        Origin::File { path, .. } => match opener.open(path) {
            Ok(file) => answer(rt, capture, inputs, file, path, manner, out),
            Err(error) => Err(Ending::Device {
                name: path,
                error: Some(error),
            }),
        },
        _ => {
            let reader = opener.standard_input();
            answer(rt, capture, inputs, reader, STANDARD_INPUT, manner, out)
        }
    }
}

/// Writes what a command says of the messages that a reader gives, and sums them up, unless it is to be quiet. `name`
/// is the word that names the reader.
fn answer<'a, R, D, W>(
    rt: &R,
    capture: Capture,
    inputs: &Inputs,
    reader: D,
    name: &'a str,
    manner: Manner,
    out: &mut ToWriter<W>,
) -> Result<Reported, Ending<'a>>
where
    R: AllocGlobal + Eprint,
    D: Read + Drop,
    W: Write,
    requires { ¬ IsTrue (⟦<ToWriter<W> as Sink>⟧.has_failed out.old) }
    ensures { Captures capture.lines capture.unknown capture.levels manner.json inputs.now
        (D.remaining reader) name.entry.now
        (stream (⟦<ToWriter<W> as Sink>⟧.written out.old) (⟦<ToWriter<W> as Sink>⟧.written out.new)
        (⟦<ToWriter<W> as Sink>⟧.has_failed out.new)) result }
{
    let alloc = rt.alloc();
    let mut feed = Front::new(alloc, FromReader::new(reader));
    match capture.run_as(alloc, manner.json, inputs, &mut feed, out) {
        Ok(captured) => {
            if !manner.quiet {
                deliver(rt, capture.lines, &captured, name, &feed.kept);
            }
            Ok(captured.reported)
        }
        Err(fault) => Err(ending_of(fault, name, out.failure(), feed.feed.failure())),
    }
}

/// Writes the summary of lines, and what their text is if it has no messages, unless an input is refused or the device fails.
pub(crate) fn deliver<R: AllocGlobal + Eprint>(
    rt: &R,
    lines: Lines,
    captured: &Captured,
    name: &str,
    front: &[u8],
) {
    if matches!(captured.reported.exit, Exit::Bad) {
        return;
    }
    if let Some(Ok(text)) = &captured.summary {
        let _ = rt.eprint(text);
    }
    report_front(rt, name, lines, front);
}

/// How the program ends where lines weren't answered to their end. `name` is the word that names their text; `output` and `input`
/// are the errors that writing and reading met.
pub(crate) fn ending_of(
    fault: LinesFault,
    name: &str,
    output: Option<io::Error>,
    input: Option<io::Error>,
) -> Ending<'_>
    ensures { IsEndingOf fault name.entry.now (is_some output) result }
{
    match fault {
        LinesFault::NoMemory => Ending::NoMemory,
        LinesFault::Device | LinesFault::Endless => match output {
            Some(error) => Ending::Device {
                name: STANDARD_OUTPUT,
                error: Some(error),
            },
            None => Ending::Device { name, error: input },
        },
    }
}

/// Writes how one message is explained by itself. Where memory or the device fails, nothing is written.
fn advise<R: AllocGlobal + Eprint>(rt: &R, capture: Capture, origins: &Origins<'_>) {
    let mut note = Note::new(rt.alloc());
    let messages = word_of(origins.messages);
    let first = word_of(origins.first);
    let second = word_of(origins.second);
    let asked = Asked::new(capture.unknown, capture.levels);
    match capture.lines {
        Lines::Checked => push_check_alone(&mut note, messages, &asked, first),
        Lines::Refuted => push_refute_alone(&mut note, messages, &asked, first, second),
        Lines::Placed => {}
    }
    report_made(rt, note.finish());
}

/// Explains input that has no messages, or not one a line.
pub(crate) fn report_front<R: AllocGlobal + Eprint>(
    rt: &R,
    name: &str,
    lines: Lines,
    front: &[u8],
) {
    if !is_recording(front) {
        return;
    }
    let mut note = Note::new(rt.alloc());
    push_front(&mut note, name, front, lines != Lines::Placed);
    report_made(rt, note.finish());
}
