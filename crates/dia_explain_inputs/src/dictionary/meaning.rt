//! The diagnostic of a dictionary text that is well formed, and names no dictionary.

ghost use Rattle.std.specs.Prelude.{IfSome, slice_get};
ghost use Rattle.dia_explain_places.specs.Parts.{part_place};
ghost use Rattle.dia_explain_places.specs.Places.{start_text};
ghost use Rattle.dia_explain_inputs.specs.Beginnings.{BeginsWith, RecordsFirst};

mod joined;
mod parts;
mod recorded;
mod texts;
mod values;

use super::shipped::declared_in;
use crate::names::{Named, names_of};
use crate::notes::{push_line_column, push_made};
use dia_dict::{DictKind, Finding, base_text, faults};
use dia_explain_places::{NamedText, Note, Place, nearest_name};
use dia_report::WrongSource;
use joined::Joined;
use parts::Parts;
use recorded::{RecordedFault, recorded_faults};
use std::alloc::{AllocError, Global};
use texts::{push_filled, text_of};

/// The most faults that are reported.
const MOST: usize = 50;

/// The most names that are listed where they are too many for a fault each.
const MOST_NAMES: usize = 200;

/// What hints are made of: the names of AVPs in the text, and what its faults show of its files.
#[derive(Drop)]
struct Known<'a> {
    names: Vec<&'a str>,
    joined: Joined,
}

/// Adds the faults of meaning of a text that spells a source, the one of the report first.
pub fn push_meaning(note: &mut Note, name: &str, text: &str, wrong: &WrongSource)
    ensures { RecordsFirst name.now text.now wrong.now note.old note.new }
{
    let source = &*wrong.source;
    let parts = Parts { source, name, text };
    match faults(note.allocator(), source) {
        Ok(findings) => push_findings(note, &parts, &findings),
        Err(error) => note.keep(Err(error)),
    }
}

/// Adds these faults, after the place of the first.
fn push_findings(note: &mut Note, parts: &Parts<'_>, findings: &[Finding<'_>])
    ensures { IfSome (slice_get findings.now 0) (λ first. BeginsWith (start_text parts.now.name.now parts.now.text.now
        (part_place parts.now.text.now parts.now.source.now first.part)) note.old note.new) }
{
    let Some(first) = findings.first() else {
        return;
    };
    let input = NamedText {
        name: parts.name,
        text: parts.text.as_bytes(),
    };
    let recorded = recorded_of(note.allocator(), parts, findings);
    push_made(note, &input, parts.at(first.part), recorded);
}

/// The diagnostic of all faults, after the place of the first.
fn recorded_of<'a>(
    alloc: Global,
    parts: &Parts<'a>,
    findings: &[Finding<'a>],
) -> Result<String, AllocError> {
    let faults = recorded_faults(alloc, findings)?;
    let known = Known {
        names: names_of(alloc, parts.source, Named::Avp)?,
        joined: Joined::of(alloc, parts, &faults)?,
    };
    let mut recorded = Note::new(alloc);
    push_first(&mut recorded, parts, &known, &faults);
    push_rest(&mut recorded, parts.name, &faults);
    recorded.finish()
}

/// Adds the first faults one by one, without the place of the very first. The hint for each kind of fault is given once.
fn push_first(note: &mut Note, parts: &Parts<'_>, known: &Known<'_>, faults: &[RecordedFault<'_>]) {
    let mut advised = None;
    let mut is_first = true;
    for fault in faults.get(..MOST).unwrap_or(faults) {
        if !is_first {
            let at = parts.at(fault.finding.part);
            note.put_start(parts.name, parts.text.as_bytes(), at);
        }
        is_first = false;
        advised = push_fault(note, parts, known, fault, advised);
    }
}

/// Adds a fault with the place of what it doesn't match, and the hint, unless faults of the kind have it already. Answers the
/// kind that has it.
fn push_fault(
    note: &mut Note,
    parts: &Parts<'_>,
    known: &Known<'_>,
    fault: &RecordedFault<'_>,
    advised: Option<DictKind>,
) -> Option<DictKind> {
    let text = text_of(parts, fault);
    let (recorded, advice) = text.split_once('\n').unwrap_or((text, ""));
    push_filled(note, parts, fault, recorded);
    push_place(note, parts.place(fault.other));
    let kind = fault.finding.recorded.kind;
    if known.joined.causes(kind) {
        if !is_advised(kind, advised) {
            known.joined.push(note, kind);
        }
    } else if push_meant(note, &known.names, fault) || is_advised(kind, advised) {
        return advised;
    } else {
        note.put("hint: ");
        push_filled(note, parts, fault, advice);
        note.put("\n");
    }
    Some(kind)
}

/// Ends a line with a place, if there is one.
fn push_place(note: &mut Note, place: Option<Place>) {
    if let Some(place) = place {
        note.put(" at ");
        push_line_column(note, place);
    }
    note.put("\n");
}

/// Whether the hint for faults of a kind is given, where it is the same for all of them.
fn is_advised(kind: DictKind, advised: Option<DictKind>) -> bool {
    kind != DictKind::NoGroupFormat && advised == Some(kind)
}

/// Adds where an undefined name may come from, the base dictionary, a file of `dictionaries/` or a slip, and returns whether that
/// is known.
fn push_meant(note: &mut Note, names: &[&str], fault: &RecordedFault<'_>) -> bool {
    let recorded = &fault.finding.recorded;
    if !matches!(recorded.kind, DictKind::UndefinedName) {
        return false;
    }
    if push_of_base(note, recorded.slot) || push_of_shipped(note, recorded.slot) {
        return true;
    }
    match nearest_name(recorded.slot, names) {
        Some(near) => {
            note.put_near(near);
            true
        }
        None => false,
    }
}

/// Adds that the base dictionary has an AVP of this name, and returns whether it has.
fn push_of_base(note: &mut Note, name: &str) -> bool {
    if let Some(line) = line_of_base("%avp ", name, " ") {
        note.put_all(&["hint: the base dictionary declares it: ", line, "\n"]);
        return true;
    }
    let is_group = line_of_base("<", name, "> ::= < AVP ").is_some();
    if is_group {
        note.put_hint("the base dictionary has this group: `diacmd render @base` prints it");
    }
    is_group
}

/// Adds that a file of `dictionaries/` declares an AVP of this name, and returns whether one does.
fn push_of_shipped(note: &mut Note, name: &str) -> bool {
    let Some((file, line)) = declared_in(name) else {
        return false;
    };
    note.put_all(&[
        "hint: dictionaries/",
        file,
        " declares it in line ",
        line,
        "\n",
    ]);
    true
}

/// The line of the base dictionary that has `front` before a name, and `following` after it.
fn line_of_base(front: &str, name: &str, following: &str) -> Option<&'static str> {
    for line in base_text().lines() {
        if is_line_of(line, front, name, following) {
            return Some(line);
        }
    }
    None
}

fn is_line_of(line: &str, front: &str, name: &str, following: &str) -> bool {
    let Some(named) = line.strip_prefix(front) else {
        return false;
    };
    match named.strip_prefix(name) {
        Some(rest) => rest.starts_with(following),
        None => false,
    }
}

/// Adds how many faults more there are, and which other names are undefined.
fn push_rest(note: &mut Note, name: &str, faults: &[RecordedFault<'_>]) {
    let Some(rest) = faults.get(MOST..) else {
        return;
    };
    if rest.is_empty() {
        return;
    }
    note.put_all(&[name, ": these are the first "]);
    note.put_number(MOST as u64);
    note.put(" faults, and there are ");
    note.put_number(rest.len() as u64);
    note.put(" more\n");
    match push_undefined(note, rest) {
        0 => {}
        MOST_NAMES => note.put(", ..\n"),
        _ => note.put("\n"),
    }
}

/// Adds the first undefined names of faults. Returns how many these are.
fn push_undefined(note: &mut Note, faults: &[RecordedFault<'_>]) -> usize {
    let mut count = 0usize;
    let mut between = "hint: these names aren't defined either: ";
    for fault in faults {
        let recorded = &fault.finding.recorded;
        if count < MOST_NAMES && matches!(recorded.kind, DictKind::UndefinedName) {
            note.put_all(&[between, recorded.slot]);
            between = ", ";
            count = count.saturating_add(1);
        }
    }
    count
}
