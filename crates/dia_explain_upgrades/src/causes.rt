//! Where both dictionaries have what a cause is about, and what can be changed.

use crate::namesakes::{Namesakes, Twins};
use dia_breaking_places::{Matter, MatterKind, Places, first_place, second_place};
use dia_ccf::Source;
use dia_explain_places::{InputTexts, NamedText, Note};
use dia_report::BothBooks;
use dia_upgrades::Recorded;
use std::alloc::{AllocError, Global};

/// The most causes that are explained, unless all are asked for.
const MOST: usize = 20;

/// The most bytes of a declaration, a head or a rule that are shown.
const MOST_SHOWN: usize = 120;

/// The parts of `REASON SUBJECT: DETAIL, in N commands, first in PATH`.
#[derive(Clone, Copy)]
struct Cause<'a> {
    /// `REASON SUBJECT: DETAIL`
    summary: &'a str,
    /// The reason, without `undecided` before it; or `undecided`.
    reason: &'a str,
    /// The name of the AVP, or `CODE:VENDOR`.
    subject: &'a str,
    path: &'a str,
}

impl<'a> Cause<'a> {
    fn of(words: &'a str) -> Option<Cause<'a>> {
        let (rest, path) = words.rsplit_once(", first in ")?;
        let (summary, _) = rest.rsplit_once(", in ")?;
        let (front, _) = summary.split_once(": ")?;
        let (reason, subject) = front.rsplit_once(' ')?;
        let reason = reason.strip_prefix("undecided ").unwrap_or(reason);
        Some(Cause {
            summary,
            reason,
            subject,
            path,
        })
    }

    /// What the cause is about.
    fn matter(&self) -> Matter<'a> {
        Matter {
            kind: kind_of(self.reason),
            command: self.command(),
            application: self.application(),
            group: self.group(),
            subject: self.subject,
        }
    }

    /// `COMMAND[application N]`, or COMMAND, with which the path begins.
    fn front(&self) -> &'a str {
        match self.path.split_once('/') {
            Some((front, _)) => front,
            None => self.path,
        }
    }

    fn command(&self) -> &'a str {
        let front = self.front();
        match front.split_once('[') {
            Some((name, _)) => name,
            None => front,
        }
    }

    fn application(&self) -> Option<u32> {
        let (_, rest) = self.front().split_once("[application ")?;
        rest.strip_suffix(']')?.parse::<u32>().ok()
    }

    /// The name of the last group of the path.
    fn group(&self) -> Option<&'a str> {
        let (_, last) = self.path.rsplit_once('/')?;
        Some(last)
    }
}

fn kind_of(reason: &str) -> MatterKind {
    match reason {
        "command" | "application" | "proxiable" => MatterKind::Head,
        "missing" | "too-many" | "not-allowed" | "order" => MatterKind::Rule,
        _ => MatterKind::Avp,
    }
}

/// A dictionary's text, the word that names it, and the places of its parts.
#[derive(Drop)]
struct Side<'a> {
    text: NamedText<'a>,
    places: Places<'a>,
}

impl<'a> Side<'a> {
    fn of(alloc: Global, text: NamedText<'a>, source: &'a Source) -> Result<Self, AllocError> {
        let places = Places::new(alloc, source)?;
        Ok(Side { text, places })
    }
}

/// Adds of each cause where both dictionaries have what it is about, and of the first one of each reason what can be changed: of
/// the first causes, and how many are left, or of all.
pub(crate) fn push_causes(
    note: &mut Note,
    texts: &InputTexts<'_>,
    books: &BothBooks,
    namesakes: &mut Namesakes<'_>,
    causes: &[Recorded],
    all: bool,
) -> Result<(), AllocError> {
    let alloc = note.allocator();
    let first = Side::of(alloc, texts.first, &books.first.source)?;
    let second = Side::of(alloc, texts.second, &books.second.source)?;
    let count = if all {
        causes.len()
    } else {
        causes.len().min(MOST)
    };
    let mut hinted = Vec::new(alloc);
    for recorded in causes.iter().take(count) {
        if let Some(cause) = Cause::of(recorded.words.as_str()) {
            push_cause(note, &first, &second, &cause)?;
            let twins = namesakes.twins(cause.subject);
            if let Some(twins) = twins {
                namesakes.push(note, twins)?;
            }
            let fixes = fixes_for(&cause, twins);
            if !hinted.contains(&fixes.in_second) {
                push_fixes(note, &first, &second, fixes);
                hinted.push(fixes.in_second)?;
            }
        }
    }
    push_left(note, causes.len().saturating_sub(count));
    Ok(())
}

/// Adds how many causes aren't explained, if there are some.
fn push_left(note: &mut Note, left: usize) {
    if left > 0 {
        note.put_number(left as u64);
        note.put(if left == 1 {
            " more cause"
        } else {
            " more causes"
        });
        note.put(": --explain explains all\n");
    }
}

/// Adds a cause, with the places in both dictionaries.
fn push_cause(
    note: &mut Note,
    first: &Side<'_>,
    second: &Side<'_>,
    cause: &Cause<'_>,
) -> Result<(), AllocError> {
    let alloc = note.allocator();
    let matter = cause.matter();
    let other = second_place(alloc, &first.places, &second.places, matter)?;
    note.put_all(&[cause.summary, "\n"]);
    push_spot(note, first, first_place(&first.places, matter));
    push_spot(note, second, other);
    Ok(())
}

/// Adds the place of a declaration, a head or a rule, if there is one, and its text.
fn push_spot(note: &mut Note, side: &Side<'_>, at: Option<usize>) {
    if let Some(at) = at {
        let NamedText { name, text } = side.text;
        note.put_place(name, text, at);
        note.put_shown(part_from(text, at));
        note.put("\n");
    }
}

/// The text of the part that begins at a place: a rule, the name and head of a definition, or a declaration.
fn part_from(text: &[u8], at: usize) -> &[u8] {
    let rest = text.get(at..).unwrap_or(&[]);
    let rest = rest.get(..MOST_SHOWN).unwrap_or(rest);
    let end = if rest.starts_with(b"%") {
        end_of_declaration(rest)
    } else {
        end_of_bracket(rest)
    };
    rest.get(..end).unwrap_or(rest).trim_ascii_end()
}

/// The end of a declaration: the next part, a comment or the end of the line.
fn end_of_declaration(rest: &[u8]) -> usize {
    let tail = rest.get(1..).unwrap_or(&[]);
    match tail
        .iter()
        .position(|byte| matches!(*byte, b'\n' | b'\r' | b';' | b'%' | b'<'))
    {
        Some(end) => end.saturating_add(1),
        None => rest.len(),
    }
}

/// The end of the first pair of brackets; of the second one, if `::=` follows the first.
fn end_of_bracket(rest: &[u8]) -> usize {
    let end = end_of_pair(rest);
    let tail = rest.get(end..).unwrap_or(&[]);
    if tail.trim_ascii_start().starts_with(b"::=") {
        end.saturating_add(end_of_pair(tail))
    } else {
        end
    }
}

/// The end of the first pair of brackets.
fn end_of_pair(rest: &[u8]) -> usize {
    let opening = rest
        .iter()
        .position(|byte| matches!(*byte, b'<' | b'{' | b'['));
    let from = opening.unwrap_or(rest.len());
    let tail = rest.get(from..).unwrap_or(&[]);
    let closing = match tail.first() {
        Some(b'<') => b'>',
        Some(b'{') => b'}',
        _ => b']',
    };
    match tail.iter().position(|byte| *byte == closing) {
        Some(end) => from.saturating_add(end).saturating_add(1),
        None => rest.len(),
    }
}

/// What can be changed: in the second dictionary, or in the first and its node.
#[derive(Clone, Copy)]
struct Fixes {
    in_second: &'static str,
    in_first: &'static str,
}

fn push_fixes(note: &mut Note, first: &Side<'_>, second: &Side<'_>, fixes: Fixes) {
    push_fix(note, "hint: in ", second, fixes.in_second);
    push_fix(note, "; or in ", first, fixes.in_first);
    note.put("\n");
}

/// Adds what can be changed in one dictionary.
fn push_fix(note: &mut Note, front: &str, side: &Side<'_>, fix: &str) {
    note.put(front);
    note.put(side.text.name);
    note.put(": ");
    note.put(fix);
}

/// The fixes of a cause. Where its AVP has another code or vendor in the other dictionary, nothing else helps.
fn fixes_for(cause: &Cause<'_>, twins: Option<Twins<'_>>) -> Fixes {
    match twins {
        Some(twins) if twins.is_moved => Fixes {
            in_second: "declare the AVP with the code and vendor that are sent",
            in_first: "declare it with the code and vendor that are accepted",
        },
        Some(twins) if twins.is_lacked && cause.reason == "missing" => Fixes {
            in_second: "lower the least count of the AVP, which isn't the one that is sent",
            in_first: "declare the AVP that is accepted, and send it",
        },
        _ => fixes_of(cause.reason, cause.subject),
    }
}

/// The fixes of a reason, as docs/FAULTS.md has them.
fn fixes_of(reason: &str, subject: &str) -> Fixes {
    let (in_second, in_first) = match (reason, subject) {
        ("command", _) => ("define the command", "don't send it to this node"),
        ("application", _) => (
            "define the command for this application",
            "don't send it to this node",
        ),
        ("proxiable", _) => ("add or drop PXY in the header", "do the same"),
        ("missing" | "too-many", "AVP") => (
            "widen the counts of the wildcard",
            "send as many as are accepted, and declare it",
        ),
        ("missing", _) => (
            "lower the least count, as [ X ] for { X }",
            "always send the AVP, as { X }",
        ),
        ("too-many", _) => (
            "raise or drop the greatest count",
            "send fewer, and lower it",
        ),
        ("not-allowed", "AVP") => (
            "add * [ AVP ]",
            "drop the wildcard, or ask with --sends listed",
        ),
        ("not-allowed", _) => (
            "list the AVP, or add * [ AVP ]",
            "don't send it, and drop its rule",
        ),
        ("order", _) => (
            "make the rule loose, as { X } for < X >",
            "fix the AVP as well, in the same order",
        ),
        ("unknown", _) => (
            "declare the AVP",
            "clear its M flag (mustnot) if such AVPs are accepted, else don't send it",
        ),
        ("m-bit", _) => (
            "let the M rule be any",
            "set or clear the flag as it is accepted, and declare it so",
        ),
        _ => (
            "declare the AVP with the format that is sent",
            "declare it with the format that is accepted, and send only such data",
        ),
    };
    Fixes {
        in_second,
        in_first,
    }
}
