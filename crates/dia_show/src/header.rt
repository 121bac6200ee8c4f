//! The line of a header.

ghost use Rattle.std.specs.Prelude.{◌≡◌, ◌++◌, OnOk, option_map, string_bytes};
ghost use Rattle.dia_run.specs.Texts.{line};
ghost use Rattle.dia_show.specs.Listing.{code_text, header_of, header_rest};

use crate::flags::push_header_flags;
use dia_data::push_decimal;
use dia_wire::Header;
use std::alloc::AllocError;

/// Adds the line of a header. `length` is the Message Length, and `command` the name of the header's command, if there is one.
pub(crate) fn push_header(
    text: &mut String,
    names: bool,
    header: &Header,
    length: usize,
    command: Option<&str>,
) -> Result<(), AllocError>
    ensures { OnOk result (string_bytes text.new ≡ string_bytes text.old
        ++ header_of names header.now length (option_map (λ name. name.now) command.entry)) }
{
    text.push_str("header flags ")?;
    push_header_flags(text, names, header.flags)?;
    text.push_str(" code ")?;
    push_code(text, names, header, command)?;
    push_rest(text, header, length)
}

/// Adds what follows the Command Code.
fn push_rest(text: &mut String, header: &Header, length: usize) -> Result<(), AllocError>
    ensures { OnOk result (string_bytes text.new
        ≡ string_bytes text.old ++ line (header_rest header.now length)) }
{
    let app = header.app;
    let hop = header.hop;
    let end = header.e2e;
    writeln!(text, " app {app} hop {hop} end {end} length {length}")
}

/// Adds the Command Code, with the command's name or without it.
fn push_code(
    text: &mut String,
    names: bool,
    header: &Header,
    command: Option<&str>,
) -> Result<(), AllocError>
    ensures { OnOk result (string_bytes text.new ≡ string_bytes text.old
        ++ code_text names header.now (option_map (λ name. name.now) command.entry)) }
{
    if !names {
        return push_decimal(text, u64::from(header.code));
    }
    push_decimal(text, u64::from(header.code))?;
    text.push(' ')?;
    match command {
        Some(name) => text.push_str(name),
        None => text.push('?'),
    }
}
