//! What a line is about, and where both dictionaries have it.

ghost use Rattle.std.specs.Prelude.{◌≡◌, IfOk, string_bytes, unwrap_or};
ghost use Rattle.std.specs.Option.{option_map, option_map_or};
ghost use Rattle.dia_breaking_places.specs.Parts.{parts_in};
ghost use Rattle.dia_breaking_places.specs.Sought.{avp_place_of, first_place, level_of, name_of, name_or_wildcard, number_of};
ghost use Rattle.dia_breaking_places.specs.Sought.{other_command, other_group, other_level, other_name, own_name, own_place};
ghost use Rattle.dia_breaking_places.specs.Sought.{plain_matter, rule_place, second_place};

use crate::places::Places;
use crate::rules::rule_place;
use dia_ccf::Def;
use std::alloc::{AllocError, Global};

/// What of a dictionary is at fault.
#[derive(Clone, Copy)]
pub enum MatterKind {
    /// The head of the command.
    Head,
    /// A rule of the level's definition.
    Rule,
    /// The declaration of the AVP.
    Avp,
}

/// What a line is about.
#[derive(Clone, Copy)]
pub struct Matter<'m> {
    pub kind: MatterKind,
    /// The command of the path.
    pub command: &'m str,
    /// The application that the path names.
    pub application: Option<u32>,
    /// The last group of the path.
    pub group: Option<&'m str>,
    /// The name of the AVP, or `CODE:VENDOR`; `AVP` where the wildcard counts.
    pub subject: &'m str,
}

/// The offset in A's text of what a line is about: of the head, the rule, or the declaration.
pub fn first_place(a: &Places<'_>, matter: Matter<'_>) -> Option<usize>
    ensures { result ≡ first_place (parts_in a.now) (plain_matter matter.entry) }
{
    match matter.kind {
        MatterKind::Head => Some(a.commands.named(matter.command)?.at),
        MatterKind::Rule => rule_place_in(level_of(a, matter), matter.subject),
        MatterKind::Avp => a.avp_place(matter.subject),
    }
}

/// The offset in B's text of what a line is about. The error comes only where memory was refused.
pub fn second_place(
    alloc: Global,
    a: &Places<'_>,
    b: &Places<'_>,
    matter: Matter<'_>,
) -> Result<Option<usize>, AllocError>
    ensures { IfOk result (λ place. place ≡ second_place (parts_in a.now) (parts_in b.now) (plain_matter matter.entry)) }
{
    match matter.kind {
        MatterKind::Head => Ok(start_of(other_command(alloc, a, b, matter)?)),
        MatterKind::Rule => other_rule(alloc, a, b, matter),
        MatterKind::Avp => other_avp(alloc, a, b, matter.subject),
    }
}

fn start_of(def: Option<&Def>) -> Option<usize>
    ensures { result ≡ option_map (λ d. d.at) (option_map (λ d. d.now) def.entry) }
{
    Some(def?.at)
}

fn rule_place_in(def: Option<&Def>, subject: &str) -> Option<usize>
    ensures { result ≡ option_map (rule_place subject.now) (option_map (λ d. d.now) def.entry) }
{
    Some(rule_place(def?, subject))
}

/// A's definition of the level.
fn level_of<'s>(a: &Places<'s>, matter: Matter<'_>) -> Option<&'s Def>
    ensures { option_map (λ d. d.now) result ≡ level_of (parts_in a.now) (plain_matter matter.entry) }
{
    match matter.group {
        Some(group) => a.groups.named(group),
        None => a.commands.named(matter.command),
    }
}

/// B's command for A's.
fn other_command<'s>(
    alloc: Global,
    a: &Places<'_>,
    b: &Places<'s>,
    matter: Matter<'_>,
) -> Result<Option<&'s Def>, AllocError>
    ensures { IfOk result (λ found. option_map (λ d. d.now) found
        ≡ other_command (parts_in a.now) (parts_in b.now) (plain_matter matter.entry)) }
{
    match a.commands.named(matter.command) {
        Some(own) => b.same_command(alloc, matter.application, own.head),
        None => Ok(None),
    }
}

/// B's group for A's of a name.
fn other_group<'s>(
    alloc: Global,
    a: &Places<'_>,
    b: &Places<'s>,
    name: &str,
) -> Result<Option<&'s Def>, AllocError>
    ensures { IfOk result (λ found. option_map (λ d. d.now) found ≡ other_group (parts_in a.now) (parts_in b.now) name.now) }
{
    match a.number_of(alloc, name)? {
        Some(number) => Ok(b.groups.numbered(number.as_str())),
        None => Ok(None),
    }
}

/// B's definition of the level.
fn other_level<'s>(
    alloc: Global,
    a: &Places<'_>,
    b: &Places<'s>,
    matter: Matter<'_>,
) -> Result<Option<&'s Def>, AllocError>
    ensures { IfOk result (λ found. option_map (λ d. d.now) found
        ≡ other_level (parts_in a.now) (parts_in b.now) (plain_matter matter.entry)) }
{
    match matter.group {
        Some(group) => other_group(alloc, a, b, group),
        None => other_command(alloc, a, b, matter),
    }
}

fn other_rule(
    alloc: Global,
    a: &Places<'_>,
    b: &Places<'_>,
    matter: Matter<'_>,
) -> Result<Option<usize>, AllocError>
    ensures { IfOk result (λ place. place ≡ option_map
        (rule_place (other_name (parts_in a.now) (parts_in b.now) matter.entry.subject.now))
        (other_level (parts_in a.now) (parts_in b.now) (plain_matter matter.entry))) }
{
    let level = other_level(alloc, a, b, matter)?;
    let number = a.number_of(alloc, matter.subject)?;
    let subject = other_name(b, &number, matter.subject);
    Ok(rule_place_in(level, subject))
}

/// B's name of the AVP of a number; without a number, of the AVP that has this name or `CODE:VENDOR`.
fn other_name<'n>(b: &Places<'n>, number: &Option<String>, text: &'n str) -> &'n str
    ensures { result.now ≡ option_map_or (name_or_wildcard (parts_in b.now))
        (option_map (λ t. string_bytes t) number.now) (own_name (parts_in b.now) text.now) }
{
    match number {
        Some(number) => name_or(b, number.as_str(), "AVP"),
        None => name_or(b, text, text),
    }
}

/// B's name of the AVP of a number; this name where there is none.
fn name_or<'n>(b: &Places<'n>, number: &str, name: &'n str) -> &'n str
    ensures { result.now ≡ unwrap_or (name_of (parts_in b.now) number.now) name.now }
{
    match b.name_of(number) {
        Some(other) => other,
        None => name,
    }
}

fn other_avp(
    alloc: Global,
    a: &Places<'_>,
    b: &Places<'_>,
    text: &str,
) -> Result<Option<usize>, AllocError>
    ensures { IfOk result (λ place. place ≡ option_map_or (avp_place_of (parts_in b.now))
        (number_of (parts_in a.now) text.now) (own_place (parts_in b.now) text.now)) }
{
    match a.number_of(alloc, text)? {
        Some(number) => Ok(b.avp_place_of(number.as_str())),
        None => Ok(own_place(b, text)),
    }
}

/// The place of the AVP that has this name or `CODE:VENDOR`.
fn own_place(b: &Places<'_>, text: &str) -> Option<usize>
    ensures { result ≡ own_place (parts_in b.now) text.now }
{
    match b.avp_place(text) {
        Some(place) => Some(place),
        None => b.avp_place_of(text),
    }
}
