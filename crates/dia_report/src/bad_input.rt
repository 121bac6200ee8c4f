//! Inputs that are refused, and what is reported of them.

ghost use Rattle.std.specs.Prelude.{◌≡◌};
ghost use Rattle.dia_report.specs.Refusals.{message_fault_word, or_dash};

use crate::wrong_source::WrongSource;
use dia_ccf::{CcfFault, Misfit};
use dia_wire::MessageFault;
use std::fmt;
use thiserror::Error;

/// An input that is refused, and why.
#[derive(Drop)]
pub enum BadInput {
    /// A dictionary, by its number in the command, from 1.
    Dictionary { number: u8, why: BadDictionary },
    Table(BadTable),
    Message(BadMessage),
}

/// Why a text names no dictionary.
#[derive(Drop)]
pub enum BadDictionary {
    /// More bytes than the text of a dictionary may have.
    TooLong,
    /// Bytes that are no UTF-8, from this place on.
    NotText { at: usize },
    /// The grammar doesn't derive the text: where, and what would fit there. Memory wasn't refused.
    NoSource(Misfit),
    /// What the text says is no dictionary.
    Wrong(WrongSource),
}

/// Why a text is no table of pairs.
#[derive(Clone, Copy)]
pub enum BadTable {
    /// More bytes than the text of a table may have.
    TooLong,
    /// Bytes that are no UTF-8, from this place on.
    NotText { at: usize },
    Syntax { line: u32 },
    Limit { line: u32 },
}

/// Why a text is no message.
#[derive(Clone, Copy, Debug, Error)]
pub enum BadMessage {
    /// More bytes than the text of a message may have.
    TooLong,
    NotHexadecimal,
    /// Its bytes are no single message.
    NoMessage(MessageFault),
}

impl fmt::Display for BadInput {
    ghost use Rattle.std.specs.Prelude.{Some};
    ghost use Rattle.dia_report.specs.Refusals.{bad_input_text};

    ghost output = { λ bad. Some (bad_input_text bad) };

    fn fmt<W: fmt::Write>(&self, f: &mut fmt::Formatter<W>) -> fmt::Result {
        match self {
            BadInput::Dictionary { number, why } => write!(f, "dictionary {number}: {why}"),
            BadInput::Table(why) => write!(f, "table: {why}"),
            BadInput::Message(why) => write!(f, "message: {why}"),
        }
    }
}

impl fmt::Display for BadDictionary {
    ghost use Rattle.std.specs.Prelude.{Some};
    ghost use Rattle.dia_report.specs.Refusals.{bad_dictionary_text};

    ghost output = { λ why. Some (bad_dictionary_text why) };

    fn fmt<W: fmt::Write>(&self, f: &mut fmt::Formatter<W>) -> fmt::Result {
        match self {
            BadDictionary::TooLong => f.write_str("too long"),
            BadDictionary::NotText { .. } => f.write_str("not text"),
            BadDictionary::NoSource(misfit) => match misfit.fault {
                CcfFault::Syntax { line, .. } => write!(f, "syntax at line {line}"),
                CcfFault::Number { line } => write!(f, "number at line {line}"),
                CcfFault::Limit { line } => write!(f, "limit at line {line}"),
                CcfFault::NoMemory => Ok(()),
            },
            BadDictionary::Wrong(wrong) => {
                let kind = wrong.kind;
                let name = or_dash(wrong.name.as_str());
                let slot = or_dash(wrong.slot.as_str());
                write!(f, "{kind} {name} {slot}")
            }
        }
    }
}

impl fmt::Display for BadTable {
    ghost use Rattle.std.specs.Prelude.{Some};
    ghost use Rattle.dia_report.specs.Refusals.{bad_table_text};

    ghost output = { λ why. Some (bad_table_text why) };

    fn fmt<W: fmt::Write>(&self, f: &mut fmt::Formatter<W>) -> fmt::Result {
        match self {
            BadTable::TooLong => f.write_str("too long"),
            BadTable::NotText { .. } => f.write_str("not text"),
            BadTable::Syntax { line } => write!(f, "syntax at line {line}"),
            BadTable::Limit { line } => write!(f, "limit at line {line}"),
        }
    }
}

impl fmt::Display for BadMessage {
    ghost use Rattle.std.specs.Prelude.{Some};
    ghost use Rattle.dia_report.specs.Refusals.{bad_message_word};

    ghost output = { λ why. Some (bad_message_word why) };

    fn fmt<W: fmt::Write>(&self, f: &mut fmt::Formatter<W>) -> fmt::Result {
        match self {
            BadMessage::TooLong => f.write_str("too long"),
            BadMessage::NotHexadecimal => write!(f, "not hexadecimal"),
            BadMessage::NoMessage(fault) => f.write_str(fault_word(*fault)),
        }
    }
}

fn or_dash(name: &str) -> &str
    ensures { result.now ≡ or_dash name.entry.now }
{
    if name.is_empty() { "-" } else { name }
}

/// The word of a fault of bytes that are no message.
pub fn fault_word(fault: MessageFault) -> &'static str
    ensures { result.now ≡ message_fault_word fault }
{
    match fault {
        MessageFault::Short => "short",
        MessageFault::Version => "version",
        MessageFault::Length => "length",
        MessageFault::Truncated => "truncated",
        MessageFault::Trailing => "trailing",
    }
}
