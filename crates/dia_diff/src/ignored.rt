//! AVPs that the receiver ignores: a rule of the sender lists them, and the receiver accepts them by a wildcard alone.

ghost use Rattle.std.specs.Prelude.{◌≡◌, ◌||◌, ◌++◌, IfOk, None, OnOk, false, option_and_then, option_to_list, slice_get};
ghost use Rattle.std.specs.HashSet.{contains};
ghost use Rattle.std.specs.Option.{option_map_or};
ghost use Rattle.dia_book.specs.Keys.{same_key};
ghost use Rattle.dia_wire.specs.declared.Key.{Key as AnyKey};
ghost use Rattle.dia_differences.specs.Matching.{listed_at};
ghost use Rattle.dia_differences.specs.Owners.{rules_of};
ghost use Rattle.dia_diff.specs.Ignored.{broken_key, command_readers, group_readers, ignored, ignored_at, ignored_between};
ghost use Rattle.dia_diff.specs.Ignored.{ignored_by, ignored_unless, is_broken, is_ignored, lets_in, lets_others_in, lists};
ghost use Rattle.dia_diff.specs.Ignored.{of_commands, open_rules, origin_between, readers_at, site_readers};
ghost use Rattle.dia_diff.specs.Origins.{found_of};
ghost use Rattle.dia_diff.specs.Routes.{route_of};

use crate::origins::{Origin, corresponds, header, selected_place};
use crate::traffic::Traffic;
use dia_book::{Book, DRule};
use dia_breaking::{Breaks, Cause, Line as Breach, Place, Site};
use dia_differences::{Owner, place_of_rule};
use dia_wire::Key;
use std::alloc::{AllocError, Global};
use std::collections::HashSet;

/// The definitions by which both sides read a level.
#[derive(Clone, Copy)]
pub(crate) struct Readers {
    pub own: Owner,
    pub other: Owner,
}

/// What it is about that AVPs of a command's messages are ignored, each key once for a level that both sides read.
pub(crate) fn ignored_of<A: Book, B: Book>(
    alloc: Global,
    traffic: &Traffic<'_, A, B>,
    index: usize,
    breaks: &Breaks,
) -> Result<Vec<Origin>, AllocError>
    ensures { IfOk result (λ found. found.items ≡ ignored (route_of A.meaning B.meaning traffic.now) (found_of index breaks.now)) }
{
    let broken = broken_keys(alloc, &breaks.lines)?;
    ignored_unless(alloc, traffic, index, breaks, &broken)
}

/// The keys of AVPs that break by themselves.
fn broken_keys(alloc: Global, lines: &[Breach]) -> Result<HashSet<Key>, AllocError>
    ensures { IfOk result (λ found. (key : AnyKey) → contains same_key found key ≡ is_broken lines.now key) }
{
    let mut found = HashSet::new(alloc);
    for line in lines {
        put_some(&mut found, broken_key(line.cause))?;
    }
    Ok(found)
}

fn put_some(set: &mut HashSet<Key>, key: Option<Key>) -> Result<(), AllocError>
    ensures { OnOk result ((q : AnyKey) → contains same_key set.new q
        ≡ (contains same_key set.old q || option_map_or (λ k. same_key k q) key false)) }
{
    match key {
        Some(key) => put(set, key),
        None => Ok(()),
    }
}

fn put(set: &mut HashSet<Key>, key: Key) -> Result<(), AllocError>
    ensures { OnOk result ((q : AnyKey) → contains same_key set.new q
        ≡ (contains same_key set.old q || same_key key q)) }
{
    set.insert(key)?;
    Ok(())
}

fn broken_key(cause: Cause) -> Option<Key>
    ensures { result ≡ broken_key cause }
{
    match cause {
        Cause::Unknown { key, .. } => Some(key),
        Cause::MBit { key, .. } => Some(key),
        Cause::Format { key, .. } => Some(key),
        Cause::LevelAsLeaf { key } => Some(key),
        Cause::Command => None,
        Cause::Application => None,
        Cause::Proxiable { .. } => None,
        Cause::Level(_) => None,
        Cause::Meaning { .. } => None,
    }
}

/// The same, of AVPs whose keys aren't among the broken ones.
fn ignored_unless<A: Book, B: Book>(
    alloc: Global,
    traffic: &Traffic<'_, A, B>,
    index: usize,
    breaks: &Breaks,
    broken: &HashSet<Key>,
) -> Result<Vec<Origin>, AllocError>
    ensures { IfOk result (λ found. found.items
        ≡ ignored_unless (route_of A.meaning B.meaning traffic.now) (found_of index breaks.now) (contains same_key broken.now)) }
{
    let mut found = Vec::new(alloc);
    let sites = breaks.sites.as_slice();
    for site in sites {
        push_site(&mut found, traffic, index, breaks, broken, site)?;
    }
    Ok(found)
}

/// Adds those of a site.
fn push_site<A: Book, B: Book>(
    found: &mut Vec<Origin>,
    traffic: &Traffic<'_, A, B>,
    index: usize,
    breaks: &Breaks,
    broken: &HashSet<Key>,
    site: &Site,
) -> Result<(), AllocError>
    ensures { OnOk result (found.new.items ≡ found.old.items
        ++ ignored_at (route_of A.meaning B.meaning traffic.now) (found_of index breaks.now) (contains same_key broken.now) site.now) }
{
    match site_readers(traffic, index, breaks, site) {
        Some(readers) => push_level(found, traffic, broken, readers),
        None => Ok(()),
    }
}

/// The definitions by which both sides read the level of a site, if the receiver reads one there.
fn site_readers<A: Book, B: Book>(
    traffic: &Traffic<'_, A, B>,
    index: usize,
    breaks: &Breaks,
    site: &Site,
) -> Option<Readers>
    ensures { result ≡ site_readers (route_of A.meaning B.meaning traffic.now) (found_of index breaks.now) site.now }
{
    if site.is_read {
        readers_at(traffic, index, breaks, site.place)
    } else {
        None
    }
}

fn readers_at<A: Book, B: Book>(
    traffic: &Traffic<'_, A, B>,
    index: usize,
    breaks: &Breaks,
    place: Place,
) -> Option<Readers>
    ensures { result ≡ readers_at (route_of A.meaning B.meaning traffic.now) (found_of index breaks.now) place }
{
    match place {
        Place::Command { read_as, .. } => command_readers(traffic, index, breaks, read_as),
        Place::Group { key, .. } => group_readers(traffic, key),
    }
}

fn command_readers<A: Book, B: Book>(
    traffic: &Traffic<'_, A, B>,
    index: usize,
    breaks: &Breaks,
    read_as: u32,
) -> Option<Readers>
    ensures { result ≡ command_readers (route_of A.meaning B.meaning traffic.now) (found_of index breaks.now) read_as }
{
    let other = selected_place(traffic.receiver, breaks.code, breaks.class, read_as)?;
    Some(Readers {
        own: Owner::Command(index),
        other: Owner::Command(other),
    })
}

fn group_readers<A: Book, B: Book>(traffic: &Traffic<'_, A, B>, key: Key) -> Option<Readers>
    ensures { result ≡ group_readers (route_of A.meaning B.meaning traffic.now) key }
{
    let own = traffic.sender.avp(key)?;
    let other = traffic.receiver.avp(key)?;
    Some(Readers {
        own: Owner::Avp(own.index()),
        other: Owner::Avp(other.index()),
    })
}

/// Adds those of a level.
fn push_level<A: Book, B: Book>(
    found: &mut Vec<Origin>,
    traffic: &Traffic<'_, A, B>,
    broken: &HashSet<Key>,
    readers: Readers,
) -> Result<(), AllocError>
    ensures { OnOk result (found.new.items ≡ found.old.items
        ++ ignored_between (route_of A.meaning B.meaning traffic.now) (contains same_key broken.now) readers) }
{
    let rules = open_rules(traffic, readers);
    for rule in rules {
        push_origin(found, ignored_by(traffic, broken, readers, rule))?;
    }
    Ok(())
}

/// The sender's rules: none where the receiver's wildcard lets no AVPs in.
fn open_rules<'d, A: Book, B: Book>(traffic: &Traffic<'d, A, B>, readers: Readers) -> &'d [DRule]
    ensures { result.now ≡ open_rules (route_of A.meaning B.meaning traffic.now) readers }
{
    if lets_others_in(traffic.receiver, readers.other) {
        readers.own.rules(traffic.sender)
    } else {
        &[]
    }
}

fn push_origin(found: &mut Vec<Origin>, origin: Option<Origin>) -> Result<(), AllocError>
    ensures { OnOk result (found.new.items ≡ found.old.items ++ option_to_list origin) }
{
    if let Some(origin) = origin {
        found.push(origin)?;
    }
    Ok(())
}

/// What it is about that AVPs of a rule of the sender are ignored, if they are.
fn ignored_by<A: Book, B: Book>(
    traffic: &Traffic<'_, A, B>,
    broken: &HashSet<Key>,
    readers: Readers,
    rule: &DRule,
) -> Option<Origin>
    ensures { result ≡ ignored_by (route_of A.meaning B.meaning traffic.now) (contains same_key broken.now) readers rule.now }
{
    let key = rule.key?;
    if is_ignored(traffic, broken, readers, rule, key) {
        Some(origin_between(traffic.commands, readers.own, readers.other, key))
    } else {
        None
    }
}

/// Whether the sender's rule lets AVPs of its key in, none of the receiver's lists them, and they don't break by themselves.
fn is_ignored<A: Book, B: Book>(
    traffic: &Traffic<'_, A, B>,
    broken: &HashSet<Key>,
    readers: Readers,
    rule: &DRule,
    key: Key,
) -> bool
    ensures { result ≡ is_ignored (route_of A.meaning B.meaning traffic.now) (contains same_key broken.now) readers rule.now key }
{
    lets_in(rule) && !lists(traffic.receiver, readers.other, key) && !is_in(broken, key)
}

fn is_in(set: &HashSet<Key>, key: Key) -> bool
    ensures { result ≡ contains same_key set.now key }
{
    set.contains(&key)
}

/// What it is about that the AVPs of a key are ignored in the level of two definitions.
fn origin_between(commands: &[Option<usize>], own: Owner, other: Owner, key: Key) -> Origin
    ensures { result ≡ origin_between commands.now own other key }
{
    match (own, other) {
        (Owner::Command(index), Owner::Command(place)) => of_commands(commands, index, place, key),
        (Owner::Command(_), Owner::Avp(_)) => Origin::Ignored { own, other, key },
        (Owner::Avp(_), Owner::Command(_)) => Origin::Ignored { own, other, key },
        (Owner::Avp(_), Owner::Avp(_)) => Origin::Ignored { own, other, key },
    }
}

/// The same of two commands: it is about the headers, where they don't correspond.
fn of_commands(commands: &[Option<usize>], index: usize, place: usize, key: Key) -> Origin
    ensures { result ≡ of_commands commands.now index place key }
{
    if corresponds(commands, index, place) {
        Origin::Ignored {
            own: Owner::Command(index),
            other: Owner::Command(place),
            key,
        }
    } else {
        header(index, Some(place), None)
    }
}

/// Whether the rule lets AVPs in.
fn lets_in(rule: &DRule) -> bool
    ensures { result ≡ lets_in rule.now }
{
    !(rule.max == Some(0))
}

/// Whether a wildcard of the definition lets AVPs in.
fn lets_others_in<D: Book>(book: &D, of: Owner) -> bool
    ensures { result ≡ lets_others_in (rules_of (D.meaning book.now) of) }
{
    match wildcard_of(book, of) {
        Some(rule) => lets_in(&rule),
        None => false,
    }
}

fn wildcard_of<D: Book>(book: &D, of: Owner) -> Option<DRule>
    ensures { result ≡ option_and_then (slice_get (rules_of (D.meaning book.now) of)) (listed_at None (rules_of (D.meaning book.now) of)) }
{
    let place = place_of_rule(book, of, None)?;
    of.rules(book).get(place).copied()
}

/// Whether the definition has a rule for the key.
fn lists<D: Book>(book: &D, of: Owner, key: Key) -> bool
    ensures { result ≡ lists (rules_of (D.meaning book.now) of) key }
{
    place_of_rule(book, of, Some(key)).is_some()
}
