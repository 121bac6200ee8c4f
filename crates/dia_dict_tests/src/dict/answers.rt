//! Two books of one dictionary, asked the same.
ghost use Rattle.std.specs.Prelude.{◌<◌, length};
ghost use Rattle.dia_dict.specs.Dictionary.{definitions};

use super::same;
use dia_dict::{Book, Class, DefId, Definition, Entry, Key};
use std::process::Abort;

/// Codes of AVPs and commands, from the first on and below the second.
const CODES: [(u32, u32); 2] = [(0, 401), (9000, 9011)];

const VENDORS: [u32; 2] = [0, 10415];

/// Two books of one dictionary answer alike: every look-up by key and by selector, and every place.
pub fn same_answers<A: Book, B: Book>(rt: &impl Abort, a: &A, b: &B) {
    same_entries(rt, a, b);
    same_definitions(rt, a, b);
    for (first, end) in CODES {
        for code in first..end {
            same_avps(rt, a, b, code);
            same_commands(rt, a, b, code);
        }
    }
}

/// Checks that the AVPs are the same.
fn same_entries<A: Book, B: Book>(rt: &impl Abort, a: &A, b: &B) {
    let entries = a.entries();
    assert!(rt; b.entries() == entries);
    for place in 0..entries {
        same_entry(rt, a, b, a.entry_at(place), b.entry_at(place));
    }
}

/// Checks that the commands are the same.
fn same_definitions<A: Book, B: Book>(rt: &impl Abort, a: &A, b: &B) {
    let commands = a.commands();
    assert!(rt; b.commands() == commands);
    for place in 0..commands {
        same_definition(rt, a, b, a.command_at(place), b.command_at(place));
    }
}

/// Checks that the AVPs of a code are the same.
fn same_avps<A: Book, B: Book>(rt: &impl Abort, a: &A, b: &B, code: u32) {
    for vendor in VENDORS {
        let key = Key { code, vendor };
        assert!(rt; a.avp(key) == b.avp(key));
    }
}

/// Checks that the commands of a code are the same.
fn same_commands<A: Book, B: Book>(rt: &impl Abort, a: &A, b: &B, code: u32) {
    for class in [Class::Request, Class::Answer, Class::Error] {
        assert!(rt; a.has_command(code, class) == b.has_command(code, class));
        same_selected(rt, a, b, code, class, 0);
        same_selected(rt, a, b, code, class, 5);
    }
}

/// Checks that the commands that a message selects are the same.
fn same_selected<A: Book, B: Book>(
    rt: &impl Abort,
    a: &A,
    b: &B,
    code: u32,
    class: Class,
    app: u32,
) {
    assert!(rt; a.select(code, class, app) == b.select(code, class, app));
}

/// Checks that two AVPs are the same, and their groups.
fn same_entry<A: Book, B: Book>(rt: &impl Abort, a: &A, b: &B, one: Entry, other: Entry)
    requires in_a { one < length (A.meaning a.now).entries }
    requires in_b { other < length (B.meaning b.now).entries }
{
    same_facts(rt, a, b, one, other);
    let group = a.group(one);
    let twin = b.group(other);
    same(rt, &group.is_some(), &twin.is_some());
    if let (Some(group), Some(twin)) = (group, twin) {
        same_definition(rt, a, b, group, twin);
    }
}

/// Checks that two AVPs have the same key, name, format and rule.
fn same_facts<A: Book, B: Book>(rt: &impl Abort, a: &A, b: &B, one: Entry, other: Entry)
    requires in_a { one < length (A.meaning a.now).entries }
    requires in_b { other < length (B.meaning b.now).entries }
{
    same(rt, &a.entry_key(one), &b.entry_key(other));
    same(rt, &a.entry_name(one), &b.entry_name(other));
    same(rt, a.format(one), b.format(other));
    same(rt, &a.rule(one), &b.rule(other));
}

/// Checks that two definitions are the same.
fn same_definition<A: Book, B: Book>(rt: &impl Abort, a: &A, b: &B, one: DefId, other: DefId)
    requires in_a { one < length (definitions (A.meaning a.now)) }
    requires in_b { other < length (definitions (B.meaning b.now)) }
{
    same(rt, &one, &other);
    same_rules(rt, a.def(one), b.def(other));
    for (first, end) in CODES {
        for code in first..end {
            same_slots(rt, a, b, one, other, code);
        }
    }
}

/// Checks that two definitions have the same name, head and rules.
fn same_rules(rt: &impl Abort, one: &Definition, other: &Definition) {
    same(rt, &one.name, &other.name);
    same(rt, &one.head, &other.head);
    same(rt, &one.rules.as_slice(), &other.rules.as_slice());
}

/// Checks that the AVPs of a code have the same slots in two definitions.
fn same_slots<A: Book, B: Book>(rt: &impl Abort, a: &A, b: &B, one: DefId, other: DefId, code: u32)
    requires in_a { one < length (definitions (A.meaning a.now)) }
    requires in_b { other < length (definitions (B.meaning b.now)) }
{
    for vendor in VENDORS {
        let key = Key { code, vendor };
        assert!(rt; a.slot(one, key) == b.slot(other, key));
    }
}
