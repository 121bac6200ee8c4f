//! The header of a line's message.
ghost use Rattle.std.specs.Prelude.{◌≡◌, ◌++◌, OnOk, false};
ghost use Rattle.std.specs.Option.{option_map_or};
ghost use Rattle.dia_breaking.specs.Messages.{app_at, command_flags, header_bytes, line_p, p_at};

use crate::heads::Head;
use crate::line::{Cause, Line, Place, Site};
use dia_book::Class;
use dia_breaking_data::big_endian;
use dia_breaking_shortest::push_length;
use dia_wire::{COMMAND_ERROR, COMMAND_PROXIABLE, COMMAND_REQUEST, HEADER_LENGTH};
use std::alloc::AllocError;

/// Adds the header of a message of a command with this head. `site` is that of the command (RFC 6733 section 3).
pub(crate) fn push_header(
    out: &mut Vec<u8>,
    head: &Head,
    line: &Line,
    site: Option<Site>,
) -> Result<(), AllocError>
    ensures { OnOk result (out.new.items ≡ out.old.items ++ header_bytes head.now line.now site) }
{
    out.push(1)?;
    let size = line.length.saturating_add(HEADER_LENGTH as u64);
    push_length(out, size)?;
    let p = is_proxiable(&line.cause, site);
    out.push(command_flags(head.class, p))?;
    push_length(out, u64::from(head.code))?;
    let app = application(site);
    out.extend_from_slice(&big_endian(app))?;
    out.extend_from_slice(&[0, 0, 0, 0, 0, 0, 0, 0])?;
    Ok(())
}

/// The P flag: as the line reports, and else as at the command's site.
fn is_proxiable(cause: &Cause, site: Option<Site>) -> bool
    ensures { result ≡ line_p cause.now site }
{
    match cause {
        Cause::Proxiable { set } => *set,
        _ => has_p(site),
    }
}

fn has_p(site: Option<Site>) -> bool
    ensures { result ≡ option_map_or (λ at. p_at at.place) site false }
{
    match site {
        Some(site) => match site.place {
            Place::Command { proxiable, .. } => proxiable,
            Place::Group { .. } => false,
        },
        None => false,
    }
}

fn application(site: Option<Site>) -> u32
    ensures { result ≡ option_map_or (λ at. app_at at.place) site 0 }
{
    match site {
        Some(site) => match site.place {
            Place::Command { app, .. } => app,
            Place::Group { .. } => 0,
        },
        None => 0,
    }
}

/// The Command Flags (RFC 6733 section 3).
fn command_flags(class: Class, proxiable: bool) -> u8
    ensures { result ≡ command_flags class proxiable }
{
    match class {
        Class::Request => {
            if proxiable {
                COMMAND_REQUEST | COMMAND_PROXIABLE
            } else {
                COMMAND_REQUEST
            }
        }
        Class::Answer => { if proxiable { COMMAND_PROXIABLE } else { 0 } }
        Class::Error => {
            if proxiable {
                COMMAND_ERROR | COMMAND_PROXIABLE
            } else {
                COMMAND_ERROR
            }
        }
    }
}
