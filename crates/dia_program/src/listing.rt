//! `show --lines`.

ghost use Rattle.std.specs.Prelude.{◌≡◌, ◌↔◌, ◌⊎◌, Err, IfOk, IsErr, IsTrue};
ghost use Rattle.dia_cli.specs.Ending.{stream};
ghost use Rattle.dia_streams.specs.declared.fault.LinesFault.TheVariants.{Device};
ghost use Rattle.dia_program.specs.Captures.{AreShown, IsShownBegun, Lists, fed, known_of, messages_word};

use crate::captured::{ending_of, report_front};
use crate::front::Front;
use crate::showing::recorded_of;
use dia_captures::Lines;
use dia_cli::{BASE_DICTIONARY, Ending, Opener, Origin, Origins, STANDARD_INPUT};
use dia_driver::{Manner, word_of};
use dia_io::{Exit, Feed, FromReader, Inputs, Sink, ToWriter};
use dia_report::Reported;
use dia_streams::LinesFault;
use std::alloc::Global;
use std::io::{Read, Write};

/// Shows the message of each line, with names or without, and sums them up on standard error, unless it is to be
/// quiet.
pub(crate) fn list_lines<'a, R, O, W>(
    rt: &R,
    opener: &O,
    names: bool,
    inputs: &Inputs,
    origins: &Origins<'a>,
    manner: Manner,
    out: &mut ToWriter<W>,
) -> Result<Reported, Ending<'a>>
where
    R: AllocGlobal + Eprint,
    O: Opener,
    W: Write,
    requires { ¬ IsTrue (⟦<ToWriter<W> as Sink>⟧.has_failed out.old) }
    ensures { Lists manner.json names inputs.now
        (known_of (O.content opener.now) (O.input opener.now) origins.now.messages) (messages_word origins.now.messages)
        (stream (⟦<ToWriter<W> as Sink>⟧.written out.old) (⟦<ToWriter<W> as Sink>⟧.written out.new)
        (⟦<ToWriter<W> as Sink>⟧.has_failed out.new)) result }
{
    let listed = list_messages(rt, opener, names, inputs, origins, manner, out);
    if !manner.quiet && matches!(&listed, Ok(Reported { exit: Exit::No, .. })) {
        advise(rt, word_of(origins.messages), word_of(origins.first));
    }
    listed
}

/// Shows the lines that a file or standard input has.
fn list_messages<'a, R, O, W>(
    rt: &R,
    opener: &O,
    names: bool,
    inputs: &Inputs,
    origins: &Origins<'a>,
    manner: Manner,
    out: &mut ToWriter<W>,
) -> Result<Reported, Ending<'a>>
where
    R: AllocGlobal + Eprint,
    O: Opener,
    W: Write,
    requires { ¬ IsTrue (⟦<ToWriter<W> as Sink>⟧.has_failed out.old) }
    ensures { Lists manner.json names inputs.now
        (known_of (O.content opener.now) (O.input opener.now) origins.now.messages) (messages_word origins.now.messages)
        (stream (⟦<ToWriter<W> as Sink>⟧.written out.old) (⟦<ToWriter<W> as Sink>⟧.written out.new)
        (⟦<ToWriter<W> as Sink>⟧.has_failed out.new)) result }
{
    match origins.messages {
        Origin::File { path, .. } => match opener.open(path) {
            Ok(file) => list(rt, names, inputs, origins, manner, file, path, out),
            Err(error) => Err(Ending::Device {
                name: path,
                error: Some(error),
            }),
        },
        _ => {
            let reader = opener.standard_input();
            list(
                rt,
                names,
                inputs,
                origins,
                manner,
                reader,
                STANDARD_INPUT,
                out,
            )
        }
    }
}

/// Shows the lines that a reader gives. `name` is the word that names it.
fn list<'a, R, D, W>(
    rt: &R,
    names: bool,
    inputs: &Inputs,
    origins: &Origins<'a>,
    manner: Manner,
    reader: D,
    name: &'a str,
    out: &mut ToWriter<W>,
) -> Result<Reported, Ending<'a>>
where
    R: AllocGlobal + Eprint,
    D: Read + Drop,
    W: Write,
    requires { ¬ IsTrue (⟦<ToWriter<W> as Sink>⟧.has_failed out.old) }
    ensures { Lists manner.json names inputs.now (D.remaining reader) name.entry.now
        (stream (⟦<ToWriter<W> as Sink>⟧.written out.old) (⟦<ToWriter<W> as Sink>⟧.written out.new)
        (⟦<ToWriter<W> as Sink>⟧.has_failed out.new)) result }
{
    let alloc = rt.alloc();
    let mut feed = Front::new(alloc, FromReader::new(reader));
    match show_lines(alloc, manner.json, names, inputs, &mut feed, out) {
        Ok(reported) => {
            if !manner.quiet && !matches!(reported.exit, Exit::Bad) {
                report_front(rt, name, Lines::Checked, &feed.kept);
            }
            Ok(recorded_of(rt, reported, origins, manner.quiet))
        }
        Err(fault) => Err(ending_of(fault, name, out.failure(), feed.feed.failure())),
    }
}

/// Puts what `show` writes for each line: as JSON, if that is asked for.
fn show_lines<F: Feed, S: Sink>(
    alloc: Global,
    json: bool,
    names: bool,
    inputs: &Inputs,
    feed: &mut F,
    sink: &mut S,
) -> Result<dia_show::Reported, LinesFault>
    requires sound_feed { ¬ IsTrue (F.has_failed feed.old) }
    requires sound_sink { ¬ IsTrue (S.has_failed sink.old) }
    ensures shown { IfOk result (λ reported. AreShown json names inputs.now
        (fed (F.remaining feed.old) (F.remaining feed.new))
        (stream (S.written sink.old) (S.written sink.new) (S.has_failed sink.new)) reported.exit) }
    ensures begun { IsErr result → IsShownBegun json names inputs.now
        (fed (F.remaining feed.old) (F.remaining feed.new))
        (stream (S.written sink.old) (S.written sink.new) (S.has_failed sink.new)) }
    ensures device { (result ≡ Err Device)
        ↔ (IsTrue (F.has_failed feed.new) ⊎ IsTrue (S.has_failed sink.new)) }
{
    if json {
        dia_json::show_lines(alloc, names, inputs, feed, sink)
    } else {
        dia_show::show_lines(alloc, names, inputs, feed, sink)
    }
}

/// Writes how one line is explained by itself. Where the device fails, nothing is written.
fn advise<R: Eprint>(rt: &R, messages: &str, dictionary: &str) {
    let (dict, dictionary) = if dictionary == BASE_DICTIONARY {
        ("", "")
    } else {
        (" --dict ", dictionary)
    };
    if messages == STANDARD_INPUT {
        let _ = eprint!(rt;
            "hint: of a line alone, `diacmd show{dict}{dictionary} -` explains the fault\n"
        );
    } else {
        let _ = eprint!(rt;
            "hint: `sed -n NUMBERp {messages} | diacmd show{dict}{dictionary} -` explains the fault of the line with that number\n"
        );
    }
}
