//! What a part of a line adds to a message under way.
ghost use Rattle.std.specs.Prelude.{◌≡◌};
ghost use Rattle.dia_text.specs.PlainLines.{plain_line};
ghost use Rattle.dia_text.specs.Drafts.{Level, Occurs, added};
ghost use Rattle.dia_text.specs.Avps.{head_at, in_line, IsTaken};
ghost use Rattle.dia_text.specs.Avps.{brace_wanted, line_misfit, value_misfit};
ghost use Rattle.dia_text.specs.AllFaults.{IsLeftAt};

use crate::avps::head_at;
use crate::draft::{Opened, add};
use crate::fault::{Kind, Misfit, Misread, NotRead, Wanted, misfit_at};
use crate::line::Line;
use crate::names::NamedBook;
use crate::words::without_blanks;
use dia_book::Book;
use std::alloc::Global;

/// Adds a part of a line, with which `text` begins; where it can't be added, nothing changes.
pub(crate) fn add_part<B: Book>(
    alloc: Global,
    named: &NamedBook<'_, B>,
    out: &mut Vec<u8>,
    groups: &mut Vec<Opened>,
    text: &[u8],
    part: &Line,
) -> Result<(), NotRead>
    requires { (level : Level) × Occurs level.outer level.bytes out.old.items groups.old.items }
    ensures taken { (level : Level) → Occurs level.outer level.bytes out.old.items groups.old.items
        → IsTaken (in_line named.now text.now (plain_line part.now) (added level (plain_line part.now)))
        result out.new.items groups.new.items }
    ensures bytes { IsLeftAt result out.old.items out.new.items }
    ensures groups { IsLeftAt result groups.old.items groups.new.items }
{
    match add(alloc, out, groups, part) {
        Ok(()) => Ok(()),
        Err(Misread::Fault(kind)) => Err(NotRead::Misfit(line_misfit(named, text, part, kind))),
        Err(Misread::NoMemory) => Err(NotRead::NoMemory),
    }
}

/// Why a line that was read can't be added.
fn line_misfit<B: Book>(named: &NamedBook<'_, B>, text: &[u8], line: &Line, kind: Kind) -> Misfit
    ensures { result ≡ line_misfit named.now text.now (plain_line line.now) kind }
{
    match line {
        Line::Close(_) => misfit_at(text, brace_wanted(kind), kind),
        Line::Blank | Line::Leaf(..) | Line::Open(_) => value_misfit(named, text, kind),
    }
}

/// The value of a line is at fault.
fn value_misfit<B: Book>(named: &NamedBook<'_, B>, text: &[u8], kind: Kind) -> Misfit
    ensures { result ≡ value_misfit named.now text.now kind }
{
    let left = match head_at(named, text) {
        Ok((_, rest)) => without_blanks(rest).len(),
        Err(misfit) => misfit.left,
    };
    Misfit {
        kind,
        wanted: Wanted::ShorterData,
        left,
    }
}

fn brace_wanted(kind: Kind) -> Wanted
    ensures { result ≡ brace_wanted kind }
{
    match kind {
        Kind::Braces => Wanted::OpenGroup,
        Kind::Syntax | Kind::Name | Kind::Value | Kind::Limit => Wanted::ShorterGroup,
    }
}
