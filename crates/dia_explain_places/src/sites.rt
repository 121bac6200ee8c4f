//! Where the names of a dictionary's parts are in its text.

ghost use Rattle.std.specs.Prelude.{◌≡◌, slice_get};
ghost use Rattle.std.specs.Option.{option_map, option_and_then};
ghost use Rattle.dia_explain_places.specs.Parts.{part_place, start_in, start_of};
ghost use Rattle.dia_explain_places.specs.Places.{name_place};

use dia_ccf::{Decl, Def, Rule, Source, first_name};
use dia_dict::{Part, PartKind};

/// The place of the first name of a part that begins at a place: the name of a declaration or a definition, or the one in a rule.
pub fn name_from(text: &str, at: usize) -> usize
    ensures { result ≡ name_place text.now at }
{
    first_name(text, at).unwrap_or(at)
}

/// The place of the first name of a part of a source, or of the source's rule, by the text that spells the source.
pub fn part_place(text: &str, source: &Source, part: Option<Part>) -> Option<usize>
    ensures { result ≡ part_place text.now source.now part }
{
    let start = start_of(source, part?)?;
    Some(name_from(text, start))
}

/// Where a part of a source begins.
fn start_of(source: &Source, part: Part) -> Option<usize>
    ensures { result ≡ start_of source.now part }
{
    let Part { kind, index, rule } = part;
    match kind {
        PartKind::Declaration => start_among_decls(&source.avps, index),
        PartKind::Group => start_among(&source.groups, index, rule),
        PartKind::Command => start_among(&source.commands, index, rule),
    }
}

fn start_among_decls(decls: &[Decl], index: usize) -> Option<usize>
    ensures { result ≡ option_map (λ d. d.at) (slice_get decls.now index) }
{
    match decls.get(index) {
        Some(decl) => Some(decl.at),
        None => None,
    }
}

fn start_among(defs: &[Def], index: usize, rule: Option<usize>) -> Option<usize>
    ensures { result ≡ option_and_then (λ d. start_in d rule) (slice_get defs.now index) }
{
    match defs.get(index) {
        Some(def) => start_in(def, rule),
        None => None,
    }
}

/// Where a definition begins, or this rule of it.
fn start_in(def: &Def, rule: Option<usize>) -> Option<usize>
    ensures { result ≡ start_in def.now rule }
{
    match rule {
        Some(index) => start_among_rules(&def.rules, index),
        None => Some(def.at),
    }
}

fn start_among_rules(rules: &[Rule], index: usize) -> Option<usize>
    ensures { result ≡ option_map (λ r. r.at) (slice_get rules.now index) }
{
    match rules.get(index) {
        Some(rule) => Some(rule.at),
        None => None,
    }
}
