//! The walk over a message that writes its rows.

ghost use Rattle.std.specs.Prelude.{◌≡◌, ◌≢◌, ◌<◌, ◌+◌, ◌^◌, length, IfOk, option_map, string_bytes};
ghost use Rattle.dia_wire.specs.Wire.{plain_avp};
ghost use Rattle.dia_run.specs.Outcome.{Ends, IsWritten, listing_exit};
ghost use Rattle.dia_run.specs.Rows.{command_name, is_group, known_avp};
ghost use Rattle.dia_run.specs.Walk.{AddsAvp, AddsLevel, plain_known};

use crate::commands::Outcome;
use crate::row_writer::{Known, RowWriter};
use dia_check::class_of;
use dia_dict::{Book, Format};
use dia_io::Exit;
use dia_report::Refused;
use dia_wire::{Avp, AvpFault, HEADER_LENGTH, Header, key, next_avp, split_message};
use std::alloc::{AllocError, Global};

/// What is left of a level, and the offset of the level's end.
#[derive(Clone, Copy)]
struct Rest<'a> {
    bytes: &'a [u8],
    end: usize,
}

/// The rows of a message: its header, and each AVP with the members of the groups that the dictionary has, up to the end or to a
/// bad AVP length. Yes where they reach the end, else no.
///
/// Bytes that aren't one message (RFC 6733 section 3) are refused.
pub fn write_message<B: Book, W: RowWriter>(
    alloc: Global,
    writer: &W,
    book: &B,
    bytes: &[u8],
) -> Result<Outcome, Refused>
    ensures outcome { Ends (IsWritten (W.writes writer.now) (B.meaning book.now) bytes.now) result }
    ensures exit { IfOk result (λ outcome. outcome.exit ≢ Exit.Bad) }
{
    let (header, body) = split_message(bytes)?;
    let mut text = String::new(alloc);
    let command = command_name(book, &header);
    writer.write_header(alloc, &mut text, &header, bytes.len(), command)?;
    let bad = write_level(alloc, &mut text, writer, book, body, HEADER_LENGTH)?;
    let exit = listing_exit(bad);
    Ok(Outcome { text, exit })
}

/// How rows end: with `No` where they end at a bad length.
fn listing_exit(bad: bool) -> Exit
    ensures { result ≡ listing_exit bad }
{
    if bad { Exit::No } else { Exit::Yes }
}

/// The name of the command of a header.
fn command_name<'b, B: Book>(book: &'b B, header: &Header) -> Option<&'b str>
    ensures { option_map (λ name. name.now) result ≡ command_name (B.meaning book.now) header.now }
{
    match book.select(header.code, class_of(header), header.app) {
        Some(command) => Some(book.def(command).name.as_str()),
        None => None,
    }
}

/// Adds the rows of a level, and of the groups in it that the dictionary has. `bytes` are the level, which begins at `place`.
/// Answers whether the rows end at a bad length.
///
/// The levels around the current one wait in a list, so depth takes memory and no stack.
fn write_level<B: Book, W: RowWriter>(
    alloc: Global,
    text: &mut String,
    writer: &W,
    book: &B,
    bytes: &[u8],
    place: usize,
) -> Result<bool, AllocError>
    requires { place + length bytes.now < 2 ^ 63 }
    ensures { IfOk result (AddsLevel (W.writes writer.now) (B.meaning book.now)
        (record { depth = 0; place = place; bytes = bytes.now })
        (string_bytes text.old) (string_bytes text.new)) }
{
    let mut outer = Vec::new(alloc);
    let mut rest = Rest {
        bytes,
        end: place + bytes.len(),
    };
    loop {
        let place = rest.end - rest.bytes.len();
        match next_avp(rest.bytes) {
            Ok(Some((avp, following))) => {
                let is_group = write_avp(alloc, text, writer, book, place, outer.len(), &avp)?;
                rest.bytes = following;
                if is_group {
                    outer.push(rest)?;
                    rest = Rest {
                        bytes: avp.bytes,
                        end: place + avp.length(),
                    };
                }
            }
            Ok(None) => match outer.pop() {
                Some(level) => rest = level,
                None => return Ok(false),
            },
            Err(AvpFault::Length) => {
                writer.write_bad_length(text, place)?;
                return Ok(true);
            }
        }
    }
}

/// Adds the row of an AVP, and answers whether it is a group that the dictionary has.
fn write_avp<B: Book, W: RowWriter>(
    alloc: Global,
    text: &mut String,
    writer: &W,
    book: &B,
    place: usize,
    depth: usize,
    avp: &Avp<'_>,
) -> Result<bool, AllocError>
    ensures { IfOk result (AddsAvp (W.writes writer.now) (B.meaning book.now) place depth (plain_avp avp.now)
        (string_bytes text.old) (string_bytes text.new)) }
{
    let known = known_avp(book, avp);
    let grouped = is_group(&known);
    writer.write_avp(alloc, text, place, depth, avp, known)?;
    Ok(grouped)
}

/// What the dictionary has of an AVP.
fn known_avp<'b, B: Book>(book: &'b B, avp: &Avp<'_>) -> Option<Known<'b>>
    ensures { option_map plain_known result ≡ known_avp (B.meaning book.now) (plain_avp avp.now) }
{
    match book.avp(key(avp)) {
        Some(entry) => Some(Known {
            name: book.entry_name(entry),
            format: book.format(entry),
        }),
        None => None,
    }
}

fn is_group(known: &Option<Known<'_>>) -> bool
    ensures { result ≡ is_group (option_map plain_known known.now) }
{
    match known {
        Some(known) => matches!(known.format, Format::Grouped),
        None => false,
    }
}
