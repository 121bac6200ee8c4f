//! `answer --lines`: the answers to the requests of a text that has one a line.

ghost use Rattle.std.specs.Prelude.{◌≡◌, IsTrue, string_bytes};
ghost use Rattle.dia_cli.specs.Ending.{stream};
ghost use Rattle.dia_program.specs.Captures.{Ends, known_of, messages_word};
ghost use Rattle.dia_program.specs.Replies.{AreReplied, AreRepliesBegun, Replies};

use crate::answering::put_answer;
use crate::captured::{deliver, ending_of};
use crate::front::Front;
use crate::replying::name_refused;
use dia_answer::{Names, write_answers};
use dia_captures::Lines;
use dia_cli::{Answering, Ending, Opener, Origin, Origins, STANDARD_INPUT};
use dia_io::{FromReader, Inputs, Sink, ToWriter};
use dia_report::Reported;
use std::io::{Read, Write};

/// Writes the answer to each request by the names that the words give, or why there is none, and sums them up on standard error,
/// unless it is to be quiet.
pub(crate) fn reply_to_lines<'a, R, O, W>(
    rt: &R,
    opener: &O,
    asked: &Answering,
    inputs: &Inputs,
    origins: &Origins<'a>,
    quiet: bool,
    out: &mut ToWriter<W>,
) -> Result<Reported, Ending<'a>>
where
    R: AllocGlobal + Eprint,
    O: Opener,
    W: Write,
    requires { ¬ IsTrue (⟦<ToWriter<W> as Sink>⟧.has_failed out.old) }
    ensures { Replies asked.now inputs.now
        (known_of (O.content opener.now) (O.input opener.now) origins.now.messages) (messages_word origins.now.messages)
        (stream (⟦<ToWriter<W> as Sink>⟧.written out.old) (⟦<ToWriter<W> as Sink>⟧.written out.new)
        (⟦<ToWriter<W> as Sink>⟧.has_failed out.new)) result }
{
    match Names::new(asked.host.as_str(), asked.realm.as_str()) {
        Ok(names) => reply_to_all(
            rt,
            opener,
            asked,
            &names,
            inputs,
            origins.messages,
            quiet,
            out,
        ),
        Err(fault) => put_answer(name_refused(rt.alloc(), fault), out),
    }
}

/// The same by these names, of the lines that a file or standard input has.
fn reply_to_all<'a, R, O, W>(
    rt: &R,
    opener: &O,
    asked: &Answering,
    names: &Names<'_>,
    inputs: &Inputs,
    messages: Origin<'a>,
    quiet: bool,
    out: &mut ToWriter<W>,
) -> Result<Reported, Ending<'a>>
where
    R: AllocGlobal + Eprint,
    O: Opener,
    W: Write,
    requires sound { ¬ IsTrue (⟦<ToWriter<W> as Sink>⟧.has_failed out.old) }
    requires host { names.now.host.now ≡ string_bytes asked.now.host }
    requires realm { names.now.realm.now ≡ string_bytes asked.now.realm }
    ensures { Ends (AreReplied asked.now inputs.now) (AreRepliesBegun asked.now inputs.now)
        (known_of (O.content opener.now) (O.input opener.now) messages.entry) (messages_word messages.entry)
        (stream (⟦<ToWriter<W> as Sink>⟧.written out.old) (⟦<ToWriter<W> as Sink>⟧.written out.new)
        (⟦<ToWriter<W> as Sink>⟧.has_failed out.new)) result }
{
    match messages {
        Origin::File { path, .. } => match opener.open(path) {
            Ok(file) => reply_to_reader(rt, asked, names, inputs, file, path, quiet, out),
            Err(error) => Err(Ending::Device {
                name: path,
                error: Some(error),
            }),
        },
        _ => {
            let reader = opener.standard_input();
            reply_to_reader(rt, asked, names, inputs, reader, STANDARD_INPUT, quiet, out)
        }
    }
}

/// The same of the lines that a reader gives. `name` is the word that names the reader.
fn reply_to_reader<'a, R, D, W>(
    rt: &R,
    asked: &Answering,
    names: &Names<'_>,
    inputs: &Inputs,
    reader: D,
    name: &'a str,
    quiet: bool,
    out: &mut ToWriter<W>,
) -> Result<Reported, Ending<'a>>
where
    R: AllocGlobal + Eprint,
    D: Read + Drop,
    W: Write,
    requires sound { ¬ IsTrue (⟦<ToWriter<W> as Sink>⟧.has_failed out.old) }
    requires host { names.now.host.now ≡ string_bytes asked.now.host }
    requires realm { names.now.realm.now ≡ string_bytes asked.now.realm }
    ensures { Ends (AreReplied asked.now inputs.now) (AreRepliesBegun asked.now inputs.now)
        (D.remaining reader) name.entry.now
        (stream (⟦<ToWriter<W> as Sink>⟧.written out.old) (⟦<ToWriter<W> as Sink>⟧.written out.new)
        (⟦<ToWriter<W> as Sink>⟧.has_failed out.new)) result }
{
    let alloc = rt.alloc();
    let mut feed = Front::new(alloc, FromReader::new(reader));
    match write_answers(
        alloc,
        asked.unknown,
        asked.levels,
        names,
        inputs,
        &mut feed,
        out,
    ) {
        Ok(captured) => {
            if !quiet {
                deliver(rt, Lines::Checked, &captured, name, &feed.kept);
            }
            Ok(captured.reported)
        }
        Err(fault) => Err(ending_of(fault, name, out.failure(), feed.feed.failure())),
    }
}
