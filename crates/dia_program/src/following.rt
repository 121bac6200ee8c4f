//! `follow`: where the ends of a captured connection depart from RFC 6733.

ghost use Rattle.std.specs.Prelude.{◌≡◌, IsTrue};
ghost use Rattle.dia_cli.specs.Ending.{stream};
ghost use Rattle.dia_program.specs.Captures.{known_of, messages_word};
ghost use Rattle.dia_program.specs.Connections.{Follows, options_of};

use crate::captured::{ending_of, report_front};
use crate::front::Front;
use dia_captures::Lines;
use dia_cli::{Ending, Following, Opener, Origin, Origins, STANDARD_INPUT};
use dia_driver::Manner;
use dia_explain_inputs::is_foreign;
use dia_follow_text::{Check, Followed, Options, follow};
use dia_io::{Exit, FromReader, Inputs, Sink, ToWriter};
use dia_report::Reported;
use dia_terms::is_white;
use std::io::{Read, Write};

/// Writes what the messages of a connection show of its ends, and a summary on standard error, unless it is to be quiet.
pub(crate) fn followed<'a, R, O, W>(
    rt: &R,
    opener: &O,
    asked: Following,
    inputs: &Inputs,
    origins: &Origins<'a>,
    manner: Manner,
    out: &mut ToWriter<W>,
) -> Result<Reported, Ending<'a>>
where
    R: AllocGlobal + Eprint,
    O: Opener,
    W: Write,
    requires { ¬ IsTrue (⟦<ToWriter<W> as Sink>⟧.has_failed out.old) }
    ensures { Follows asked manner.json inputs.now
        (known_of (O.content opener.now) (O.input opener.now) origins.now.messages) (messages_word origins.now.messages)
        (stream (⟦<ToWriter<W> as Sink>⟧.written out.old) (⟦<ToWriter<W> as Sink>⟧.written out.new)
        (⟦<ToWriter<W> as Sink>⟧.has_failed out.new)) result }
{
    match origins.messages {
        Origin::File { path, .. } => match opener.open(path) {
            Ok(file) => follow_reader(rt, asked, inputs, file, path, manner, out),
            Err(error) => Err(Ending::Device {
                name: path,
                error: Some(error),
            }),
        },
        _ => {
            let reader = opener.standard_input();
            follow_reader(rt, asked, inputs, reader, STANDARD_INPUT, manner, out)
        }
    }
}

/// The same of the text that a reader gives. `name` is the word that names the reader.
fn follow_reader<'a, R, D, W>(
    rt: &R,
    asked: Following,
    inputs: &Inputs,
    reader: D,
    name: &'a str,
    manner: Manner,
    out: &mut ToWriter<W>,
) -> Result<Reported, Ending<'a>>
where
    R: AllocGlobal + Eprint,
    D: Read + Drop,
    W: Write,
    requires { ¬ IsTrue (⟦<ToWriter<W> as Sink>⟧.has_failed out.old) }
    ensures { Follows asked manner.json inputs.now (D.remaining reader) name.entry.now
        (stream (⟦<ToWriter<W> as Sink>⟧.written out.old) (⟦<ToWriter<W> as Sink>⟧.written out.new)
        (⟦<ToWriter<W> as Sink>⟧.has_failed out.new)) result }
{
    let mut feed = Front::new(rt.alloc(), FromReader::new(reader));
    let options = options_of(asked, manner.json);
    match follow(rt.alloc(), &options, &inputs.first, &mut feed, out) {
        Ok(followed) => {
            if !manner.quiet {
                explain(rt, name, &followed, &feed.kept);
            }
            Ok(followed.reported)
        }
        Err(fault) => Err(ending_of(fault, name, out.failure(), feed.feed.failure())),
    }
}

/// How the connection is read.
fn options_of(asked: Following, json: bool) -> Options
    ensures { result ≡ options_of asked json }
{
    let Following {
        middle,
        check,
        unknown,
        levels,
    } = asked;
    Options {
        middle,
        check: if check {
            Some(Check { unknown, levels })
        } else {
            None
        },
        json,
    }
}

/// Writes the summary, or where a line is refused, or what a text is that has no messages. Where memory or the device fails, nothing
/// is written.
fn explain<R: AllocGlobal + Eprint>(rt: &R, name: &str, followed: &Followed, front: &[u8]) {
    if let Some(Ok(text)) = &followed.summary {
        let _ = rt.eprint(text);
    }
    let is_read = followed.bad_line.is_some() || !matches!(followed.reported.exit, Exit::Bad);
    if is_read && is_no_text(front) {
        report_front(rt, name, Lines::Checked, front);
    } else if let Some((number, _)) = followed.bad_line {
        let _ = eprint!(rt;
            "{name}:{number}: a line is END [TIME] HEX: > or <, seconds, and a message in hexadecimal\n"
        );
    }
}

/// Whether the front of a file is none of a text of messages: it is empty, or the bytes are no text.
pub(crate) fn is_no_text(front: &[u8]) -> bool {
    is_foreign(front) || front.iter().all(|byte| is_white(*byte))
}
