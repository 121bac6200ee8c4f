//! Messages, written as texts that `make` reads.
ghost use Rattle.std.specs.Prelude.{◌≡◌, ◌↔◌, ◌++◌, IfOk, IfErr, OnOk, IsTrue, Some, Ok, Err};
ghost use Rattle.std.specs.Prelude.{string_bytes};
ghost use Rattle.dia_wire.specs.Wire.{plain_avp, BeginsWith};
ghost use Rattle.dia_data.specs.Plain.{Grouped};
ghost use Rattle.dia_text.specs.Keys.{format_at};
ghost use Rattle.dia_text.specs.Made.{made};
ghost use Rattle.dia_text.specs.TextOf.{AreAvps, IsTextOf, AfterData, AddsAvp, AddsLevel};
ghost use Rattle.dia_text.specs.TextOf.{HasNoText, HasNoLines};

use crate::avp_lines::{push_leaf, push_open};
use crate::header_lines::push_header;
use crate::keys::{AvpCode, format_at};
use dia_book::{Book, Format};
use dia_wire::{Avp, AvpFault, MessageFault, next_avp, split_message};
use std::alloc::{AllocError, AllocFailed, Global};
use thiserror::Error;

/// Why no text was written.
#[derive(Clone, Copy, Debug, Drop, Error)]
pub enum NotWritten {
    /// The bytes are no message.
    #[error("{0}")]
    Message(MessageFault),
    /// Somewhere in the message no AVP begins.
    #[error("an AVP Length doesn't fit")]
    Avps,
    #[error("out of memory")]
    NoMemory,
}

impl From<AllocError> for NotWritten {
    ghost use Rattle.std.specs.Prelude.{◌≡◌};
    ghost use Rattle.dia_text.specs.declared.writing.NotWritten.TheVariants.{NoMemory};

    ghost from_gives = { λ _ e. e ≡ NoMemory };

    fn from(_error: AllocError) -> NotWritten {
        NotWritten::NoMemory
    }
}

impl<T: Drop> From<AllocFailed<T>> for NotWritten {
    ghost use Rattle.std.specs.Prelude.{◌≡◌};
    ghost use Rattle.dia_text.specs.declared.writing.NotWritten.TheVariants.{NoMemory};

    ghost from_gives = { λ _ e. e ≡ NoMemory };

    fn from(_error: AllocFailed<T>) -> NotWritten {
        NotWritten::NoMemory
    }
}

impl From<MessageFault> for NotWritten {
    ghost use Rattle.std.specs.Prelude.{◌≡◌};
    ghost use Rattle.dia_text.specs.declared.writing.NotWritten.TheVariants.{Message};

    ghost from_gives = { λ fault e. e ≡ Message fault };

    fn from(fault: MessageFault) -> NotWritten {
        NotWritten::Message(fault)
    }
}

/// The text of a message, over this dictionary: `make` reads it as these bytes.
///
/// An AVP, a command and their flags are written as the dictionary has them, where it does. A group that the dictionary knows
/// and whose data is AVPs to its end is written with its members. Each AVP of the message itself has to be there to its end.
pub fn as_text<B: Book>(alloc: Global, book: &B, message: &[u8]) -> Result<String, NotWritten>
    ensures text { IfOk result
        (λ text. IsTextOf (B.meaning book.now) message.now (string_bytes text)) }
    ensures reads_back { IfOk result
        (λ text. made (B.meaning book.now) (string_bytes text) ≡ Ok message.now) }
    ensures refused { IfErr result (λ why. HasNoText why message.now) }
{
    let (header, body) = split_message(message)?;
    let mut text = String::new(alloc);
    push_header(&mut text, book, &header)?;
    push_level(alloc, &mut text, book, body)?;
    Ok(text)
}

/// Adds the lines of a level, and of the groups in it that are written with their members.
///
/// The levels around the current one wait in a list, so depth takes memory and no stack.
fn push_level<B: Book>(
    alloc: Global,
    text: &mut String,
    book: &B,
    level: &[u8],
) -> Result<(), NotWritten>
    ensures lines { OnOk result
        (AddsLevel (B.meaning book.now) level.now (string_bytes text.old) (string_bytes text.new)) }
    ensures refused { IfErr result (λ why. HasNoLines why level.now) }
{
    let mut outer = Vec::new(alloc);
    let mut rest = level;
    loop {
        match next_avp(rest) {
            Ok(Some((avp, following))) => {
                let pad = after_data(rest, &avp, following);
                let is_open = push_avp(text, book, &avp, pad)?;
                rest = following;
                if is_open {
                    outer.push(rest)?;
                    rest = avp.bytes;
                }
            }
            Ok(None) => match outer.pop() {
                Some(level) => {
                    text.push_str("}\n")?;
                    rest = level;
                }
                None => return Ok(()),
            },
            Err(AvpFault::Length) => return Err(NotWritten::Avps),
        }
    }
}

/// The padding of the AVP at the front of a level.
fn after_data<'a>(level: &'a [u8], avp: &Avp<'_>, following: &[u8]) -> &'a [u8]
    requires { BeginsWith (plain_avp avp.now) level.now following.now }
    ensures { AfterData (plain_avp avp.now) level.entry.now following.now result.now }
{
    let end = level.len() - following.len();
    let front = &level[..end];
    &front[avp.length()..]
}

/// Adds the line of an AVP, and answers whether it opens a group.
fn push_avp<B: Book>(
    text: &mut String,
    book: &B,
    avp: &Avp<'_>,
    pad: &[u8],
) -> Result<bool, AllocError>
    ensures { IfOk result (AddsAvp (B.meaning book.now) (plain_avp avp.now) pad.now
        (string_bytes text.old) (string_bytes text.new)) }
{
    let code = AvpCode {
        code: avp.code,
        vendor: avp.vendor,
    };
    if is_opened(book, &code, avp.bytes) {
        push_open(text, book, &code, avp)?;
        Ok(true)
    } else {
        push_leaf(text, book, &code, avp, pad)?;
        Ok(false)
    }
}

/// Whether the dictionary knows the AVP as Grouped, and its data is AVPs to its end.
fn is_opened<B: Book>(book: &B, code: &AvpCode, bytes: &[u8]) -> bool
    ensures { IsTrue result
        ↔ ((format_at (B.meaning book.now) code.now ≡ Some Grouped) × AreAvps bytes.now) }
{
    match format_at(book, code) {
        Some(Format::Grouped) => are_avps(bytes),
        _ => false,
    }
}

/// Whether the bytes are AVPs to their end. The data of these isn't looked at.
fn are_avps(bytes: &[u8]) -> bool
    ensures { IsTrue result ↔ AreAvps bytes.now }
{
    let mut rest = bytes;
    loop {
        match next_avp(rest) {
            Ok(Some((_, following))) => rest = following,
            Ok(None) => return true,
            Err(AvpFault::Length) => return false,
        }
    }
}
