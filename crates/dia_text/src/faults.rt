//! All faults of a text.
ghost use Rattle.std.specs.Prelude.{◌≡◌, ◌≤◌, ◌<◌, ◌^◌, ◌++◌, ◌∷◌, [], Option, List, None, IfOk, OnOk, length, map};
ghost use Rattle.dia_text.specs.declared.fault.Fault.{Fault as AnyFault};
ghost use Rattle.dia_text.specs.Drafts.{Level};
ghost use Rattle.dia_text.specs.AllFaults.{all_faults, faults_from, step_of, line_step, end_faults};
ghost use Rattle.dia_text.specs.AllFaults.{AreCounted, IsAt, opens};

use crate::draft::{Opened, open_group};
use crate::fault::{Fault, Kind, NotRead, Wanted};
use crate::keys::AvpCode;
use crate::line::Head;
use crate::lines::header_of;
use crate::making::{fault_at, fault_in, lines_of, take_line};
use crate::many::has_word;
use crate::names::NamedBook;
use dia_book::Book;
use dia_wire::HEADER_LENGTH;
use std::alloc::{AllocError, Global};

/// How many faults of a text are reported with their places.
pub const MAX_FAULTS: usize = 20;

/// The faults of a text, in the order of its lines.
#[derive(Drop)]
pub struct Faults {
    /// The first ones, at most [`MAX_FAULTS`].
    pub first: Vec<Fault>,
    /// How many there are.
    pub count: usize,
}

/// An AVP of which nothing is known.
const UNKNOWN: Head = Head {
    code: AvpCode {
        code: 0,
        vendor: None,
    },
    flags: 0,
    said_length: None,
};

/// A message of a text, up to a line.
#[derive(Drop)]
struct Under {
    has_header: bool,
    out: Vec<u8>,
    groups: Vec<Opened>,
}

/// The faults of all lines of a text, over this dictionary (our profile).
///
/// Each line is judged as if the faulty lines before it were absent. Only, the first line of a message counts as its header, and a
/// line whose last byte is `{` opens a group, also where they are faulty. An empty line ends a message. The error comes only
/// where memory was refused.
pub fn all_faults<B: Book>(alloc: Global, book: &B, text: &[u8]) -> Result<Faults, AllocError>
    ensures { IfOk result (λ found. AreCounted (all_faults (B.meaning book.now) text.now)
        found.first.items found.count) }
{
    let lines = lines_of(alloc, text)?;
    let mut found = Faults {
        first: Vec::new(alloc),
        count: 0,
    };
    if has_word(&lines) {
        let named = NamedBook::new(alloc, book)?;
        judge_lines(alloc, &named, &lines, &mut found)?;
    } else {
        found.push(fault_at(lines.len(), Kind::Syntax, Wanted::HeaderLine))?;
    }
    Ok(found)
}

impl Faults {
    ghost use Rattle.std.specs.Prelude.{◌<◌, ◌^◌, ◌++◌, ◌∷◌, [], List, OnOk};
    ghost use Rattle.dia_text.specs.declared.fault.Fault.{Fault as AnyFault};
    ghost use Rattle.dia_text.specs.AllFaults.{AreCounted};

    /// Adds a fault.
    #[tactic(auto, using(crate::proofs::Counted::counted_more, crate::proofs::Counted::counted_past))]
    fn push(&mut self, fault: Fault) -> Result<(), AllocError>
        requires { self.old.count < 2 ^ 63 }
        ensures { (faults : List AnyFault) → AreCounted faults self.old.first.items self.old.count
            → OnOk result (AreCounted (faults ++ fault ∷ []) self.new.first.items self.new.count) }
    {
        let is_shown = self.count < MAX_FAULTS;
        self.count += 1;
        if is_shown {
            self.first.push(fault)?;
            Ok(())
        } else {
            Ok(())
        }
    }
}

/// Adds the faults of lines to none.
fn judge_lines<B: Book>(
    alloc: Global,
    named: &NamedBook<'_, B>,
    lines: &[&[u8]],
    found: &mut Faults,
) -> Result<(), AllocError>
    requires { AreCounted [] found.old.first.items found.old.count }
    ensures { OnOk result (AreCounted (faults_from named.now 0 None (map (λ x. x.now) lines.now))
        found.new.first.items found.new.count) }
{
    let mut under = Under {
        has_header: false,
        out: Vec::new(alloc),
        groups: Vec::new(alloc),
    };
    for index in 0..lines.len() {
        under.take(alloc, named, lines[index], index, found)?;
    }
    under.end(lines.len(), found)
}

/// Whether the last byte of a line is an opening brace.
fn opens(line: &[u8]) -> bool
    ensures { result ≡ opens line.now }
{
    !line.is_empty() && line[line.len() - 1] == b'{'
}

impl Under {
    ghost use Rattle.std.specs.Prelude.{◌≡◌, ◌≤◌, ◌<◌, ◌+◌, ◌^◌, ◌++◌, ◌∷◌, [], Option, Some, None, List, OnOk, length};
    ghost use Rattle.dia_text.specs.declared.fault.Fault.{Fault as AnyFault};
    ghost use Rattle.dia_text.specs.Lines.{header_of};
    ghost use Rattle.dia_text.specs.Made.{line_added};
    ghost use Rattle.dia_text.specs.Drafts.{Level};
    ghost use Rattle.dia_text.specs.AllFaults.{step_of, begun, judged, end_faults, left_out};
    ghost use Rattle.dia_text.specs.AllFaults.{AreCounted, IsAt};

    /// Takes the line after so many others, and adds its faults.
    fn take<B: Book>(
        &mut self,
        alloc: Global,
        named: &NamedBook<'_, B>,
        line: &[u8],
        before: usize,
        found: &mut Faults,
    ) -> Result<(), AllocError>
        requires small { before < 2 ^ 63 }
        requires few { found.old.count ≤ before }
        requires at { (at : Option Level) × IsAt at self.old.has_header self.old.out.items self.old.groups.items }
        ensures at { (at : Option Level) → IsAt at self.old.has_header self.old.out.items self.old.groups.items
            → OnOk result (IsAt (step_of named.now line.now before at).next
            self.new.has_header self.new.out.items self.new.groups.items) }
        ensures faults { (at : Option Level) (faults : List AnyFault)
            → IsAt at self.old.has_header self.old.out.items self.old.groups.items
            → AreCounted faults found.old.first.items found.old.count
            → OnOk result (AreCounted (faults ++ (step_of named.now line.now before at).faults)
            found.new.first.items found.new.count) }
    {
        if line.is_empty() {
            self.end(before, found)?;
            self.out.clear();
            self.groups.clear();
            self.has_header = false;
            Ok(())
        } else if self.has_header {
            self.add(alloc, named, line, before, found)
        } else {
            self.begin(named, line, before, found)
        }
    }

    /// Takes a line before the header, or that of the header.
    fn begin<B: Book>(
        &mut self,
        named: &NamedBook<'_, B>,
        line: &[u8],
        before: usize,
        found: &mut Faults,
    ) -> Result<(), AllocError>
        requires small { before < 2 ^ 63 }
        requires few { found.old.count ≤ before }
        requires at { IsAt None self.old.has_header self.old.out.items self.old.groups.items }
        ensures at { OnOk result (IsAt (begun line.now (before + 1) (header_of named.now line.now)).next
            self.new.has_header self.new.out.items self.new.groups.items) }
        ensures faults { (faults : List AnyFault) → AreCounted faults found.old.first.items found.old.count
            → OnOk result (AreCounted (faults ++ (begun line.now (before + 1) (header_of named.now line.now)).faults)
            found.new.first.items found.new.count) }
    {
        match header_of(named, line) {
            Ok(None) => Ok(()),
            Ok(Some(_)) => {
                self.has_header = true;
                Ok(())
            }
            Err(misfit) => {
                self.has_header = true;
                found.push(fault_in(line, before + 1, misfit))
            }
        }
    }

    /// Takes a line after the header.
    fn add<B: Book>(
        &mut self,
        alloc: Global,
        named: &NamedBook<'_, B>,
        line: &[u8],
        before: usize,
        found: &mut Faults,
    ) -> Result<(), AllocError>
        requires small { before < 2 ^ 63 }
        requires few { found.old.count ≤ before }
        requires at { (level : Level) × IsAt (Some level) self.old.has_header self.old.out.items self.old.groups.items }
        ensures at { (level : Level) → IsAt (Some level) self.old.has_header self.old.out.items self.old.groups.items
            → OnOk result (IsAt (judged line.now (before + 1) level (line_added named.now line.now level)).next
            self.new.has_header self.new.out.items self.new.groups.items) }
        ensures faults { (level : Level) (faults : List AnyFault)
            → IsAt (Some level) self.old.has_header self.old.out.items self.old.groups.items
            → AreCounted faults found.old.first.items found.old.count
            → OnOk result (AreCounted (faults ++ (judged line.now (before + 1) level (line_added named.now line.now level)).faults)
            found.new.first.items found.new.count) }
    {
        match take_line(alloc, named, &mut self.out, &mut self.groups, line) {
            Ok(()) => Ok(()),
            Err(NotRead::Misfit(misfit)) => {
                found.push(fault_in(line, before + 1, misfit))?;
                self.leave_out(line)
            }
            Err(NotRead::NoMemory) => Err(AllocError),
        }
    }

    /// Leaves a faulty line out, but for the group that it opens.
    fn leave_out(&mut self, line: &[u8]) -> Result<(), AllocError>
        ensures { (level : Level) → IsAt (Some level) self.old.has_header self.old.out.items self.old.groups.items
            → OnOk result (IsAt (Some (left_out line.now level))
            self.new.has_header self.new.out.items self.new.groups.items) }
    {
        if opens(line) {
            open_group(&mut self.out, &mut self.groups, &UNKNOWN)
        } else {
            Ok(())
        }
    }

    /// Adds what is wrong where a message ends, after so many lines.
    fn end(&self, line: usize, found: &mut Faults) -> Result<(), AllocError>
        requires { found.old.count < 2 ^ 63 }
        ensures { (at : Option Level) (faults : List AnyFault)
            → IsAt at self.now.has_header self.now.out.items self.now.groups.items
            → AreCounted faults found.old.first.items found.old.count
            → OnOk result (AreCounted (faults ++ end_faults line at) found.new.first.items found.new.count) }
    {
        if !self.groups.is_empty() {
            found.push(fault_at(line, Kind::Braces, Wanted::ClosingBrace))
        } else if self.has_header && HEADER_LENGTH + self.out.len() >= 1 << 24 {
            found.push(fault_at(line, Kind::Limit, Wanted::ShorterMessage))
        } else {
            Ok(())
        }
    }
}
