//! `mask`: messages with the data replaced that may identify subscribers or nodes.

ghost use Rattle.std.specs.Prelude.{◌≡◌, IsTrue};
ghost use Rattle.dia_cli.specs.Ending.{stream};
ghost use Rattle.dia_mask_text.specs.Names.{lists};
ghost use Rattle.dia_program.specs.Captures.{known_of, messages_word};
ghost use Rattle.dia_program.specs.Masked.{Masks, lists_of};

use crate::asking::{list_of, put_notes};
use crate::captured::{ending_of, report_front};
use crate::following::is_no_text;
use crate::front::Front;
use dia_captures::Lines;
use dia_cli::{Ending, Masking, Opener, Origin, Origins, STANDARD_INPUT};
use dia_driver::Manner;
use dia_io::{Exit, FromReader, Inputs, Sink, ToWriter};
use dia_mask_text::{Options, mask};
use dia_report::Reported;
use std::io::{Read, Write};

/// Writes the message of each line with data replaced, and a summary on standard error, with what a text is that has no messages,
/// unless it is to be quiet.
pub(crate) fn masked<'a, R, O, W>(
    rt: &R,
    opener: &O,
    asked: &Masking,
    inputs: &Inputs,
    origins: &Origins<'a>,
    manner: Manner,
    out: &mut ToWriter<W>,
) -> Result<Reported, Ending<'a>>
where
    R: AllocGlobal + Eprint,
    O: Opener,
    W: Write,
    requires { ¬ IsTrue (⟦<ToWriter<W> as Sink>⟧.has_failed out.old) }
    ensures { Masks asked.now inputs.now
        (known_of (O.content opener.now) (O.input opener.now) origins.now.messages) (messages_word origins.now.messages)
        (stream (⟦<ToWriter<W> as Sink>⟧.written out.old) (⟦<ToWriter<W> as Sink>⟧.written out.new)
        (⟦<ToWriter<W> as Sink>⟧.has_failed out.new)) result }
{
    match origins.messages {
        Origin::File { path, .. } => match opener.open(path) {
            Ok(file) => mask_reader(rt, asked, inputs, file, path, manner, out),
            Err(error) => Err(Ending::Device {
                name: path,
                error: Some(error),
            }),
        },
        _ => {
            let reader = opener.standard_input();
            mask_reader(rt, asked, inputs, reader, STANDARD_INPUT, manner, out)
        }
    }
}

/// The same of the lines that a reader gives. `name` is the word that names the reader.
fn mask_reader<'a, R, D, W>(
    rt: &R,
    asked: &Masking,
    inputs: &Inputs,
    reader: D,
    name: &'a str,
    manner: Manner,
    out: &mut ToWriter<W>,
) -> Result<Reported, Ending<'a>>
where
    R: AllocGlobal + Eprint,
    D: Read + Drop,
    W: Write,
    requires { ¬ IsTrue (⟦<ToWriter<W> as Sink>⟧.has_failed out.old) }
    ensures { Masks asked.now inputs.now (D.remaining reader) name.entry.now
        (stream (⟦<ToWriter<W> as Sink>⟧.written out.old) (⟦<ToWriter<W> as Sink>⟧.written out.new)
        (⟦<ToWriter<W> as Sink>⟧.has_failed out.new)) result }
{
    let mut feed = Front::new(rt.alloc(), FromReader::new(reader));
    let options = options_of(asked, manner.json);
    let mut notes = String::new(rt.alloc());
    match mask(
        rt.alloc(),
        &options,
        &inputs.first,
        &mut notes,
        &mut feed,
        out,
    ) {
        Ok(reported) => {
            put_notes(rt, &notes, manner);
            if !manner.quiet && !matches!(reported.exit, Exit::Bad) {
                report_no_text(rt, name, &feed.kept);
            }
            Ok(reported)
        }
        Err(fault) => Err(ending_of(fault, name, out.failure(), feed.feed.failure())),
    }
}

/// Which AVPs are masked, and how the summary is written.
fn options_of(asked: &Masking, json: bool) -> Options<'_>
    ensures { lists result ≡ lists_of asked.now }
{
    Options {
        keep: list_of(asked.keep.as_str()),
        mask: list_of(asked.mask.as_str()),
        only: list_of(asked.only.as_str()),
        json,
    }
}

/// Explains that there is no message, or that the bytes are no text of messages, such as those of a capture.
fn report_no_text<R: AllocGlobal + Eprint>(rt: &R, name: &str, front: &[u8]) {
    if is_no_text(front) {
        report_front(rt, name, Lines::Checked, front);
    }
}
