//! The lines of a command's header.
ghost use Rattle.std.specs.Prelude.{◌≡◌, OnOk, map};
ghost use Rattle.dia_breaking.specs.Listing.{AddsRecorded, flag_causes, header_line, header_lines};
ghost use Rattle.dia_breaking.specs.Listing.{refusal};
ghost use Rattle.dia_breaking.specs.Orders.{of_each};

use crate::heads::{Head, allows};
use crate::line::{Cause, Line};
use crate::lines::push_line;
use crate::readings::Reading;
use crate::sites::other_head;
use crate::start::Start;
use dia_book::Book;
use std::alloc::AllocError;

/// Adds what breaks in the headers of messages, for each reading.
pub(crate) fn push_header_lines<B: Book>(
    b: &B,
    start: &Start,
    lines: &mut Vec<Line>,
) -> Result<(), AllocError>
    ensures { OnOk result (AddsRecorded lines.old.items lines.new.items
        (of_each (header_lines (B.meaning b.now) start.now.head start.now.base) start.now.readings.items)) }
{
    for (site, reading) in start.readings.iter().enumerate() {
        push_header(b, &start.head, start.base, site, reading, lines)?;
    }
    Ok(())
}

/// Adds what breaks in the header of messages, for a reading.
fn push_header<B: Book>(
    b: &B,
    head: &Head,
    base: u64,
    site: usize,
    reading: &Reading,
    lines: &mut Vec<Line>,
) -> Result<(), AllocError>
    ensures { OnOk result (AddsRecorded lines.old.items lines.new.items
        (header_lines (B.meaning b.now) head.now base site reading.now)) }
{
    match other_head(b, head, reading.read_as) {
        Some(other) => {
            push_flag(lines, head, &other, base, site, false)?;
            push_flag(lines, head, &other, base, site, true)
        }
        None => push_line(lines, site, refusal(b, head), base),
    }
}

/// Why B selects no definition.
fn refusal<B: Book>(b: &B, head: &Head) -> Cause
    ensures { result ≡ refusal (B.meaning b.now) head.now }
{
    if b.has_command(head.code, head.class) {
        Cause::Application
    } else {
        Cause::Command
    }
}

/// Adds that B forbids this P flag, if A allows it.
fn push_flag(
    lines: &mut Vec<Line>,
    head: &Head,
    other: &Head,
    base: u64,
    site: usize,
    set: bool,
) -> Result<(), AllocError>
    ensures { OnOk result (AddsRecorded lines.old.items lines.new.items
        (map (header_line base site) (flag_causes head.now other.now set))) }
{
    let is_sent = allows(head.p, set);
    let is_accepted = allows(other.p, set);
    if is_sent && !is_accepted {
        push_line(lines, site, Cause::Proxiable { set }, base)
    } else {
        Ok(())
    }
}
