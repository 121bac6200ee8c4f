//! The parts of a dictionary by which findings name their places and subjects.
ghost use Rattle.std.specs.Prelude.{◌≡◌, ◌<◌, ◌≤◌, IfOk, cond, is_some, length, map};
ghost use Rattle.std.specs.Option.{option_map};
ghost use Rattle.dia_book.specs.Dictionary.{definitions, group_place, groups};
ghost use Rattle.dia_dict.specs.Resolution.{group_key};
ghost use Rattle.dia_lint_text.specs.Rows.{AreInOrder, bare_groups, entry_number, start_of_rule};

use dia_book::{Book, DefId, Entry, Key};
use dia_ccf::{Def, Head, Source};
use dia_explain_places::name_from;
use dia_lint::Place;
use std::alloc::{AllocError, Global};

/// A dictionary and the parts of its source, in the order of its entries and definitions.
#[derive(Drop)]
pub(crate) struct Parts<'a, B: Book> {
    pub book: &'a B,
    pub source: &'a Source,
    /// Where the groups without a declaration begin.
    bare: Vec<usize>,
    /// The groups in the order of their entries.
    pub groups: Vec<&'a Def>,
    /// How many definitions there are.
    count: usize,
    ghost bare_are: { bare.items ≡ map (λ g. g.at) (bare_groups (B.meaning book.now) source.now) },
    ghost counted: { count ≡ length (definitions (B.meaning book.now)) },
}

impl<'a, B: Book> Parts<'a, B> {
    ghost use Rattle.std.specs.Prelude.{◌≡◌, IfOk, map};
    ghost use Rattle.std.specs.Option.{option_map};
    ghost use Rattle.dia_explain_places.specs.Places.{name_place};
    ghost use Rattle.dia_lint_text.specs.Names.{avp_name, def_name, key_name};
    ghost use Rattle.dia_lint_text.specs.Rows.{AreInOrder, def_at, start_of, start_of_avp};

    /// The parts of a source, of which this is the book.
    pub fn of(alloc: Global, source: &'a Source, book: &'a B) -> Result<Self, AllocError>
        ensures book { IfOk result (λ parts. parts.book.now ≡ book.now) }
        ensures source { IfOk result (λ parts. parts.source.now ≡ source.now) }
        ensures groups { IfOk result (λ parts. AreInOrder (B.meaning book.now) source.now (map (λ g. g.now) parts.groups.items)) }
    {
        let bare = starts_of_bare(alloc, source, book)?;
        let groups = in_order(alloc, source, book)?;
        let count = definition_count(book);
        Ok(Parts {
            book,
            source,
            bare,
            groups,
            count,
        })
    }

    /// The name of an AVP.
    pub fn avp_name(&self, entry: Entry) -> &'a str
        ensures { result.now ≡ avp_name (B.meaning self.now.book.now) entry }
    {
        if entry.index() < self.book.entries() {
            self.book.entry_name(entry)
        } else {
            ""
        }
    }

    /// The name of the AVP of a key.
    pub fn key_name(&self, key: Key) -> &'a str
        ensures { result.now ≡ key_name (B.meaning self.now.book.now) key }
    {
        match self.book.avp(key) {
            Some(entry) => self.avp_name(entry),
            None => "",
        }
    }

    /// The name of a definition.
    pub fn def_name(&self, def: DefId) -> &'a str
        ensures { result.now ≡ def_name (B.meaning self.now.book.now) def }
    {
        if def.index() < self.count {
            self.book.def(def).name.as_str()
        } else {
            ""
        }
    }

    /// The offset of a place's name in the text that spells the source.
    pub fn offset(&self, text: &str, place: Place) -> usize
        ensures { result ≡ name_place text.now
            (start_of (B.meaning self.now.book.now) self.now.source.now (map (λ g. g.now) self.now.groups.items) place) }
    {
        name_from(text, self.start(place))
    }

    fn start(&self, place: Place) -> usize
        ensures { result ≡ start_of (B.meaning self.now.book.now) self.now.source.now (map (λ g. g.now) self.now.groups.items) place }
    {
        match place {
            Place::Avp(entry) => self.start_of_avp(entry.index()),
            Place::Head(def) => match self.def(def.index()) {
                Some(part) => part.at,
                None => 0,
            },
            Place::Rule(def, rule) => match self.def(def.index()) {
                Some(part) => start_of_rule(rule, part),
                None => 0,
            },
        }
    }

    /// Where the declaration of an entry begins, and else its group.
    fn start_of_avp(&self, entry: usize) -> usize
        ensures { result ≡ start_of_avp (B.meaning self.now.book.now) self.now.source.now entry }
    {
        let declared = self.source.avps.len();
        match self.source.avps.get(entry) {
            Some(decl) => decl.at,
            None => match self.bare.get(entry.saturating_sub(declared)) {
                Some(at) => *at,
                None => 0,
            },
        }
    }

    /// The group or the command with the number of a definition.
    fn def(&self, number: usize) -> Option<&'a Def>
        ensures { option_map (λ def. def.now) result
            ≡ def_at self.now.source.now (map (λ g. g.now) self.now.groups.items) number }
    {
        let groups = self.groups.len();
        match self.groups.get(number) {
            Some(group) => Some(*group),
            None => self.source.commands.get(number.saturating_sub(groups)),
        }
    }
}

fn start_of_rule(rule: usize, def: &Def) -> usize
    ensures { result ≡ start_of_rule rule def.now }
{
    match def.rules.get(rule) {
        Some(rule) => rule.at,
        None => def.at,
    }
}

/// Where the groups without a declaration begin, in the order of the text.
fn starts_of_bare<B: Book>(
    alloc: Global,
    source: &Source,
    book: &B,
) -> Result<Vec<usize>, AllocError>
    ensures { IfOk result (λ starts. starts.items ≡ map (λ g. g.at) (bare_groups (B.meaning book.now) source.now)) }
{
    let mut starts = Vec::new(alloc);
    for group in &source.groups {
        if source.avps.len() <= entry_number(book, group) {
            starts.push(group.at)?;
        }
    }
    Ok(starts)
}

/// The groups in the order of their entries.
fn in_order<'a, B: Book>(
    alloc: Global,
    source: &'a Source,
    book: &B,
) -> Result<Vec<&'a Def>, AllocError>
    ensures { IfOk result (λ groups. AreInOrder (B.meaning book.now) source.now (map (λ g. g.now) groups.items)) }
{
    let mut groups = groups_of(alloc, source)?;
    groups.sort_by_key(|group| entry_number(book, *group))?;
    Ok(groups)
}

fn groups_of<'a>(alloc: Global, source: &'a Source) -> Result<Vec<&'a Def>, AllocError>
    ensures { IfOk result (λ groups. map (λ g. g.now) groups.items ≡ source.now.groups.items) }
{
    let mut groups = Vec::new(alloc);
    for group in &source.groups {
        groups.push(group)?;
    }
    Ok(groups)
}

/// The number of the entry of a group's AVP.
fn entry_number<B: Book>(book: &B, group: &Def) -> usize
    ensures { result ≡ entry_number (B.meaning book.now) group.now }
{
    match book.avp(group_key(group.head)) {
        Some(entry) => entry.index(),
        None => 0,
    }
}

fn group_key(head: Head) -> Key
    ensures { result ≡ group_key head }
{
    match head {
        Head::Group { code, vendor } => Key { code, vendor },
        Head::Command { code, .. } => Key { code, vendor: 0 },
        Head::Error { .. } => Key { code: 0, vendor: 0 },
    }
}

/// How many definitions there are.
fn definition_count<B: Book>(book: &B) -> usize
    ensures { result ≡ length (definitions (B.meaning book.now)) }
{
    group_count(book) + book.commands()
}

fn group_count<B: Book>(book: &B) -> usize
    ensures count { result ≡ length (groups (B.meaning book.now)) }
    ensures few { result ≤ length (B.meaning book.now).entries }
{
    let mut count: usize = 0;
    for index in 0..book.entries() {
        count += groups_at(book, index);
    }
    count
}

/// How many groups the entry at a place has: one or none.
fn groups_at<B: Book>(book: &B, index: usize) -> usize
    requires { index < length (B.meaning book.now).entries }
    ensures value { result ≡ cond (is_some (group_place (B.meaning book.now) index)) 1 0 }
    ensures few { result ≤ 1 }
{
    match book.group(book.entry_at(index)) {
        Some(_) => 1,
        None => 0,
    }
}
