//! The inputs, read from where they come from.

ghost use Rattle.std.specs.Prelude.{◌≡◌, ◌⊎◌, IfOk, IfErr, IfSome};
ghost use Rattle.dia_io.specs.Inputs.{IsWhole};
ghost use Rattle.dia_cli.specs.OpenedInputs.{IsAnyUnread, IsFaultOf, IsInputOf};
ghost use Rattle.dia_cli.specs.OpenedInputs.{IsReadOf, IsUnread, IsWithin, input_of};

use crate::ending::Ending;
use crate::opener::Opener;
use crate::origin::{Origin, Origins, STANDARD_INPUT};
use dia_dict::base_text;
use dia_io::{FromReader, Input as Text, InputFault, Inputs, read_input};
use std::alloc::Global;
use std::io;
use std::io::Read;

/// Reads the inputs whole: first the dictionaries, then the table, then the message, in any order of the words.
pub fn open_inputs<'a, O: Opener>(
    alloc: Global,
    opener: &O,
    origins: &Origins<'a>,
) -> Result<Inputs, Ending<'a>>
    ensures ok { IfOk result (IsReadOf (O.content opener.now) (O.input opener.now) origins.now) }
    ensures err { IfErr result (IsAnyUnread origins.now) }
{
    let (first, second) = open_two(alloc, opener, origins.first, origins.second)?;
    let (table, message) = open_two(alloc, opener, origins.table, origins.message)?;
    Ok(Inputs {
        first,
        second,
        table,
        message,
    })
}

/// Reads two inputs whole, one after the other.
fn open_two<'a, O: Opener>(
    alloc: Global,
    opener: &O,
    first: Origin<'a>,
    second: Origin<'a>,
) -> Result<(Text, Text), Ending<'a>>
    ensures first { IfOk result (λ two. IsInputOf (O.content opener.now) (O.input opener.now) first.entry two.0) }
    ensures second { IfOk result (λ two. IsInputOf (O.content opener.now) (O.input opener.now) second.entry two.1) }
    ensures err { IfErr result (λ made. IsUnread first.entry made ⊎ IsUnread second.entry made) }
{
    let first = open_input(alloc, opener, first)?;
    let second = open_input(alloc, opener, second)?;
    Ok((first, second))
}

fn open_input<'a, O: Opener>(
    alloc: Global,
    opener: &O,
    origin: Origin<'a>,
) -> Result<Text, Ending<'a>>
    ensures ok { IfOk result (IsInputOf (O.content opener.now) (O.input opener.now) origin.entry) }
    ensures err { IfErr result (IsUnread origin.entry) }
{
    match origin {
        Origin::Nowhere => Ok(Text::Bytes(Vec::new(alloc))),
        Origin::Base => {
            let bytes = Vec::from_slice(alloc, base_text().as_bytes())?;
            Ok(Text::Bytes(bytes))
        }
        Origin::Empty => Ok(Text::Bytes(Vec::new(alloc))),
        Origin::StandardInput { limit } => {
            read_text(alloc, opener.standard_input(), STANDARD_INPUT, limit)
        }
        Origin::File { path, limit } => match opener.open(path) {
            Ok(file) => read_text(alloc, file, path, limit),
            Err(error) => Err(Ending::Device {
                name: path,
                error: Some(error),
            }),
        },
    }
}

/// All bytes of a reader, or `TooLong` above the limit. `name` is the word that names the input.
fn read_text<'a, R: Read + Drop>(
    alloc: Global,
    reader: R,
    name: &'a str,
    limit: usize,
) -> Result<Text, Ending<'a>>
    ensures whole { IfOk result (λ text. IfSome (R.remaining reader) (IsWhole text limit)) }
    ensures within { IfOk result (λ text. IsWithin text limit) }
    ensures err { IfErr result (IsFaultOf name.entry.now) }
{
    let mut feed = FromReader::new(reader);
    let read = read_input(alloc, &mut feed, limit);
    input_of(read, name, feed.failure())
}

/// The input that was read, or how the program ends. `name` is the word that names it, `error` what its reader said.
fn input_of<'a>(
    read: Result<Vec<u8>, InputFault>,
    name: &'a str,
    error: Option<io::Error>,
) -> Result<Text, Ending<'a>>
    ensures { result ≡ input_of read name.entry error }
{
    match read {
        Ok(bytes) => Ok(Text::Bytes(bytes)),
        Err(InputFault::TooLong) => Ok(Text::TooLong),
        Err(InputFault::Device) => Err(Ending::Device { name, error }),
        Err(InputFault::NoMemory) => Err(Ending::NoMemory),
    }
}
