//! Messages whose headers are fixed: a definition of B accepts their P flag and their application.
ghost use Rattle.std.specs.Prelude.{◌≡◌, ◌≢◌, ◌≤◌, ◌<◌, ◌↔◌, ℕ, IfOk, IfSome, IsTrue, List, None, Some, length, slice_get, take};
ghost use Rattle.std.specs.Int.{IsBitSet};
ghost use Rattle.dia_wire.specs.declared.Header.{Header as AnyHeader};
ghost use Rattle.dia_wire.specs.Lengths.{header_length};
ghost use Rattle.dia_wire.specs.Wire.{IsHead, IsMessage, PlainAvp};
ghost use Rattle.dia_book.specs.Dictionary.{definitions, selected};
ghost use Rattle.dia_check.specs.Faults.{HasLength};
ghost use Rattle.dia_valid.specs.Valid.{PHolds, class_of};
ghost use Rattle.dia_breaking.specs.Confirmed.{IsConfirmed};
ghost use Rattle.dia_breaking.specs.Corrected.{BreaksAfter, BreaksOnceCorrected, IsCorrectedAt, is_of_header, p_bit};
ghost use Rattle.dia_breaking.specs.Upgrades.{sides_of};

use crate::books::command_of;
use crate::confirm::is_valid;
use crate::heads::{allows, head_of};
use crate::line::{Breaks, Cause, Line, Place, Site};
use crate::upgrade::Upgrade;
use dia_book::{Book, Class, DefId, Pxy};
use dia_breaking_data::big_endian;
use dia_wire::{COMMAND_ERROR, COMMAND_PROXIABLE, COMMAND_REQUEST, Header, split_message};
use std::alloc::{AllocError, Global};

impl<'a, A: Book, B: Book> Upgrade<'a, A, B> {
    /// Whether the message of a line, which B's side refuses, is refused also once its header is fixed. A line about the header
    /// requires nothing more.
    pub(crate) fn breaks_corrected(
        &self,
        alloc: Global,
        breaks: &Breaks,
        line: &Line,
        bytes: &[u8],
    ) -> Result<bool, AllocError>
        requires { IsConfirmed (sides_of self.now) bytes.now breaks.now.command }
        ensures { IfOk result (λ yes. IsTrue yes ↔ BreaksAfter (sides_of self.now) breaks.now.command
            breaks.now.sites.items line.now bytes.now) }
    {
        if is_of_header(&line.cause) {
            return Ok(true);
        }
        let path = breaks.path(alloc, line.site)?;
        let Some(site) = first_of(&path) else {
            return Ok(false);
        };
        self.breaks_at(alloc, breaks.command, site.place, bytes)
    }

    /// Whether it is refused once its header is fixed for B's definition at a place of the command.
    fn breaks_at(
        &self,
        alloc: Global,
        command: DefId,
        place: Place,
        bytes: &[u8],
    ) -> Result<bool, AllocError>
        requires { IsConfirmed (sides_of self.now) bytes.now command }
        ensures { IfOk result (λ yes. IsTrue yes ↔ BreaksOnceCorrected (sides_of self.now) command place bytes.now) }
    {
        let header = header_of(bytes);
        let Some(corrected) = self.corrected_header(command, place, &header) else {
            return Ok(false);
        };
        if corrected == header {
            return Ok(true);
        }
        let message = with_header(alloc, bytes, &corrected)?;
        Ok(!is_valid(alloc, self.b, self.unknown, &message)?)
    }

    /// The header with a P flag and an application that B's definition at a place of the command accepts; none, where there is no
    /// such header.
    fn corrected_header(&self, command: DefId, place: Place, header: &Header) -> Option<Header>
        requires { command < length (definitions (sides_of self.now).sender) }
        ensures some { IfSome result (IsCorrectedAt (sides_of self.now) command place header.now) }
        ensures none { result ≡ None → (corrected : AnyHeader)
            → ¬ IsCorrectedAt (sides_of self.now) command place header.now corrected }
    {
        let Place::Command { read_as, .. } = place else {
            return None;
        };
        let own = head_of(self.lengths.book, command)?;
        let def = command_of(self.b, own.code, own.class, read_as)?;
        let other = head_of(self.b, def)?;
        let corrected = Header {
            flags: corrected_flags(other.p, header),
            app: read_as,
            ..*header
        };
        if selects(self.b, &corrected, def) {
            Some(corrected)
        } else {
            None
        }
    }
}

/// The header of a message.
fn header_of(bytes: &[u8]) -> Header
    requires { HasLength bytes.now (length bytes.now) }
    ensures head { IsHead result (length bytes.now) (take header_length bytes.now) }
    ensures long { 20 ≤ length bytes.now }
{
    match split_message(bytes) {
        Ok((header, _)) => header,
        Err(_) => unreachable!(),
    }
}

/// Whether the dictionary selects the definition for the header.
fn selects<B: Book>(b: &B, header: &Header, def: DefId) -> bool
    ensures { IsTrue result
        ↔ (selected (B.meaning b.now) header.now.code (class_of header.now.flags) header.now.app ≡ Some def) }
{
    match command_of(b, header.code, class_of(header.flags), header.app) {
        Some(found) => found == def,
        None => false,
    }
}

/// The class of a message with these Command Flags.
fn class_of(flags: u8) -> Class
    ensures { result ≡ class_of flags }
{
    if flags & COMMAND_REQUEST == 0 {
        if flags & COMMAND_ERROR == 0 {
            Class::Answer
        } else {
            Class::Error
        }
    } else {
        Class::Request
    }
}

/// The Command Flags, with the other P flag where the rule forbids theirs.
fn corrected_flags(p: Pxy, header: &Header) -> u8
    ensures holds { PHolds p result }
    ensures others { (bit : ℕ) → bit ≢ p_bit → IsBitSet result bit ↔ IsBitSet header.now.flags bit }
{
    if allows(p, header.is_proxiable()) {
        header.flags
    } else {
        header.flags ^ COMMAND_PROXIABLE
    }
}

fn first_of(path: &[Site]) -> Option<Site>
    ensures { result ≡ slice_get path.now 0 }
{
    path.first().copied()
}

/// The message with the Command Flags and the application of this header.
fn with_header(alloc: Global, bytes: &[u8], header: &Header) -> Result<Vec<u8>, AllocError>
    requires { 20 ≤ length bytes.now }
    ensures { IfOk result (λ message. (old : AnyHeader) (avps : List PlainAvp) → IsMessage old avps bytes.now
        → header.now.code ≡ old.code → header.now.hop ≡ old.hop → header.now.e2e ≡ old.e2e
        → IsMessage header.now avps message.items) }
{
    let mut corrected = Vec::new(alloc);
    corrected.extend_from_slice(&bytes[..4])?;
    corrected.push(header.flags)?;
    corrected.extend_from_slice(&bytes[5..8])?;
    corrected.extend_from_slice(&big_endian(header.app))?;
    corrected.extend_from_slice(&bytes[12..])?;
    Ok(corrected)
}

/// Whether the line is about the header.
fn is_of_header(cause: &Cause) -> bool
    ensures { result ≡ is_of_header cause.now }
{
    matches!(
        cause,
        Cause::Command | Cause::Application | Cause::Proxiable { .. }
    )
}
