//! The first word of a message, and what the dictionary says of its command.
ghost use Rattle.std.specs.Prelude.{◌≡◌, ◌<◌, ◌≤◌, ◌^◌, option_and_then, IfOk, IfSome};
ghost use Rattle.std.specs.Option.{option_map};
ghost use Rattle.dia_book.specs.Dictionary.{plain_definition};
ghost use Rattle.dia_text.specs.Keys.{start_of, start_named, command_named};
ghost use Rattle.dia_text.specs.Keys.{class_flags, p_flag};

use crate::fault::Kind;
use crate::names::NamedBook;
use dia_book::{Book, Class, DefHead};
use dia_terms::Pxy;
use dia_wire::{COMMAND_ERROR, COMMAND_PROXIABLE, COMMAND_REQUEST};

/// What the first word of a message says: its code, and the flags and the application that it has where its line says no
/// others.
#[derive(Clone, Copy)]
pub struct Start {
    pub code: u32,
    pub flags: Option<u8>,
    pub app: Option<u32>,
}

/// The command that the dictionary has by this name.
pub(crate) fn start_named<B: Book>(named: &NamedBook<'_, B>, word: &[u8]) -> Result<Start, Kind>
    ensures value { result ≡ start_named named.now word.now }
    ensures small { IfOk result (λ start. start.code < 2 ^ 24) }
{
    let Some(definition) = named.command(word) else {
        return Err(Kind::Name);
    };
    match start_of(&definition.head) {
        Some(start) => Ok(start),
        None => Err(Kind::Name),
    }
}

pub(crate) fn start_of(head: &DefHead) -> Option<Start>
    ensures value { result ≡ start_of head.now }
    ensures small { IfSome result (λ start. start.code < 2 ^ 24) }
{
    match head {
        DefHead::Command {
            code,
            class,
            app,
            p,
        } if *code < 1 << 24 => Some(Start {
            code: *code,
            flags: Some(class_flags(*class) + p_flag(*p)),
            app: Some(app.unwrap_or(0)),
        }),
        _ => None,
    }
}

pub(crate) fn class_flags(class: Class) -> u8
    ensures value { result ≡ class_flags class }
    ensures small { result ≤ 128 }
{
    match class {
        Class::Request => COMMAND_REQUEST,
        Class::Answer => 0,
        Class::Error => COMMAND_ERROR,
    }
}

fn p_flag(p: Pxy) -> u8
    ensures value { result ≡ p_flag p }
    ensures small { result ≤ 64 }
{
    match p {
        Pxy::Clear => 0,
        Pxy::Set | Pxy::Either => COMMAND_PROXIABLE,
    }
}
