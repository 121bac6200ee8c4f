//! Which AVPs and commands of two dictionaries correspond.

ghost use Rattle.std.specs.Prelude.{◌≡◌, ◌<◌, IfOk, IfSome, length, map, option_and_then, position, slice_get};
ghost use Rattle.std.specs.HashMap.{get};
ghost use Rattle.std.specs.Str.{bytes_eq};
ghost use Rattle.dia_differences.specs.Headers.{messages};
ghost use Rattle.dia_differences.specs.Partners.{AreBothWays, AreNone, FindsAvps, FindsCommands, FindsNames};
ghost use Rattle.dia_differences.specs.Partners.{avp_partner, command_partner, has_key, linked, matches_of, paired};
ghost use Rattle.dia_differences.specs.Partners.{same_messages, unless_in, unless_known};

use crate::headers::{Messages, messages_of};
use dia_book::{Book, Entry};
use std::alloc::{AllocError, Global};
use std::collections::HashMap;

/// Of each of one dictionary, by its place there, the place of the one of the other that corresponds; and the same the other way.
#[derive(Drop)]
pub struct Pairs {
    pub there: Vec<Option<usize>>,
    pub back: Vec<Option<usize>>,
}

/// The AVPs and commands that correspond: those of one key or selector; and of the others those of one name.
#[derive(Drop)]
pub struct Partners {
    pub avps: Pairs,
    pub commands: Pairs,
}

impl Partners {
    pub fn new<A: Book, B: Book>(alloc: Global, a: &A, b: &B) -> Result<Self, AllocError>
        ensures { IfOk result (λ partners. paired partners ≡ matches_of (A.meaning a.now) (B.meaning b.now)) }
    {
        let avps = avp_pairs(alloc, a, b)?;
        let commands = command_pairs(alloc, a, b)?;
        Ok(Partners { avps, commands })
    }
}

fn avp_pairs<A: Book, B: Book>(alloc: Global, a: &A, b: &B) -> Result<Pairs, AllocError>
    ensures there { IfOk result
        (λ pairs. pairs.there.items ≡ map (avp_partner (A.meaning a.now) (B.meaning b.now)) (A.meaning a.now).entries) }
    ensures back { IfOk result
        (λ pairs. pairs.back.items ≡ map (avp_partner (B.meaning b.now) (A.meaning a.now)) (B.meaning b.now).entries) }
{
    let there = avps_there(alloc, a, b)?;
    both_ways(alloc, there, b.entries())
}

fn command_pairs<A: Book, B: Book>(alloc: Global, a: &A, b: &B) -> Result<Pairs, AllocError>
    ensures there { IfOk result
        (λ pairs. pairs.there.items ≡ map (command_partner (A.meaning a.now) (B.meaning b.now)) (A.meaning a.now).commands) }
    ensures back { IfOk result
        (λ pairs. pairs.back.items ≡ map (command_partner (B.meaning b.now) (A.meaning a.now)) (B.meaning b.now).commands) }
{
    let there = commands_there(alloc, a, b)?;
    both_ways(alloc, there, b.commands())
}

/// The same pairs both ways.
fn both_ways(alloc: Global, there: Vec<Option<usize>>, count: usize) -> Result<Pairs, AllocError>
    ensures there { IfOk result (λ pairs. pairs.there.items ≡ there.items) }
    ensures back { IfOk result (λ pairs. AreBothWays pairs.there.items pairs.back.items count) }
{
    let back = back_of(alloc, &there, count)?;
    Ok(Pairs { there, back })
}

/// The pairs the other way.
fn back_of(
    alloc: Global,
    there: &[Option<usize>],
    count: usize,
) -> Result<Vec<Option<usize>>, AllocError>
    ensures { IfOk result (λ back. AreBothWays there.now back.items count) }
{
    let mut back = nones(alloc, count)?;
    for (index, partner) in there.iter().enumerate() {
        link(&mut back, index, *partner);
    }
    Ok(back)
}

fn nones(alloc: Global, count: usize) -> Result<Vec<Option<usize>>, AllocError>
    ensures { IfOk result (λ made. AreNone made.items count) }
{
    let mut made = Vec::with_capacity(alloc, count)?;
    for place in 0..count {
        made.push(None)?;
    }
    Ok(made)
}

/// Notes at a place, if there is one, by which place it is named.
fn link(back: &mut Vec<Option<usize>>, index: usize, partner: Option<usize>)
    ensures { back.new.items ≡ linked back.old.items index partner }
{
    if let Some(place) = partner {
        if place < back.len() {
            back[place] = Some(index);
        }
    }
}

fn avps_there<A: Book, B: Book>(
    alloc: Global,
    a: &A,
    b: &B,
) -> Result<Vec<Option<usize>>, AllocError>
    ensures { IfOk result
        (λ there. there.items ≡ map (avp_partner (A.meaning a.now) (B.meaning b.now)) (A.meaning a.now).entries) }
{
    let names = avp_names(alloc, b)?;
    let mut there = Vec::with_capacity(alloc, a.entries())?;
    for index in 0..a.entries() {
        there.push(avp_there(a, a.entry_at(index), b, &names))?;
    }
    Ok(there)
}

/// The AVP of B that corresponds to one of A: that of its key; or where B doesn't know the key, that of its name, if A doesn't
/// know the other's key.
fn avp_there<A: Book, B: Book>(
    a: &A,
    entry: Entry,
    b: &B,
    names: &HashMap<&str, usize>,
) -> Option<usize>
    requires within { entry < length (A.meaning a.now).entries }
    requires names { FindsAvps (B.meaning b.now) names.now }
    ensures { IfSome (slice_get (A.meaning a.now).entries entry)
        (λ x. result ≡ avp_partner (A.meaning a.now) (B.meaning b.now) x) }
{
    match b.avp(a.entry_key(entry)) {
        Some(other) => Some(other.index()),
        None => avp_by_name(a, a.entry_name(entry), b, names),
    }
}

/// The AVP of B with a name, if A doesn't know its key.
fn avp_by_name<A: Book, B: Book>(
    a: &A,
    name: &str,
    b: &B,
    names: &HashMap<&str, usize>,
) -> Option<usize>
    requires { FindsAvps (B.meaning b.now) names.now }
    ensures { result ≡ option_and_then
        (unless_known has_key (A.meaning a.now).entries (B.meaning b.now).entries)
        (position (λ e. bytes_eq name.now e.name) (B.meaning b.now).entries) }
{
    match names.get(&name) {
        Some(place) => unless_key_known(a, b, *place),
        None => None,
    }
}

/// The AVP of B at a place, if A doesn't know its key.
fn unless_key_known<A: Book, B: Book>(a: &A, b: &B, place: usize) -> Option<usize>
    requires { place < length (B.meaning b.now).entries }
    ensures { result
        ≡ unless_known has_key (A.meaning a.now).entries (B.meaning b.now).entries place }
{
    match a.avp(b.entry_key(b.entry_at(place))) {
        Some(_) => None,
        None => Some(place),
    }
}

/// The place of each AVP, by its name.
fn avp_names<B: Book>(alloc: Global, book: &B) -> Result<HashMap<&str, usize>, AllocError>
    ensures { IfOk result (FindsAvps (B.meaning book.now)) }
{
    let mut names = HashMap::new(alloc);
    for index in 0..book.entries() {
        names.insert(book.entry_name(book.entry_at(index)), index)?;
    }
    Ok(names)
}

fn commands_there<A: Book, B: Book>(
    alloc: Global,
    a: &A,
    b: &B,
) -> Result<Vec<Option<usize>>, AllocError>
    ensures { IfOk result
        (λ there. there.items ≡ map (command_partner (A.meaning a.now) (B.meaning b.now)) (A.meaning a.now).commands) }
{
    let own = all_messages(alloc, a)?;
    let others = all_messages(alloc, b)?;
    let names = command_names(alloc, b)?;
    let mut there = Vec::with_capacity(alloc, a.commands())?;
    for index in 0..a.commands() {
        there.push(command_there(a, index, b, &own, &others, &names))?;
    }
    Ok(there)
}

/// The same of commands, by the messages that they are for.
fn command_there<A: Book, B: Book>(
    a: &A,
    index: usize,
    b: &B,
    own: &HashMap<Messages, usize>,
    others: &HashMap<Messages, usize>,
    names: &HashMap<&str, usize>,
) -> Option<usize>
    requires within { index < length (A.meaning a.now).commands }
    requires own { FindsCommands (A.meaning a.now) own.now }
    requires others { FindsCommands (B.meaning b.now) others.now }
    requires names { FindsNames (B.meaning b.now) names.now }
    ensures { IfSome (slice_get (A.meaning a.now).commands index)
        (λ x. result ≡ command_partner (A.meaning a.now) (B.meaning b.now) x) }
{
    let command = a.def(a.command_at(index));
    match others.get(&messages_of(command.head)) {
        Some(place) => Some(*place),
        None => command_by_name(command.name.as_str(), b, own, names),
    }
}

/// The command of B with a name, if A has none for its messages.
fn command_by_name<B: Book>(
    name: &str,
    b: &B,
    own: &HashMap<Messages, usize>,
    names: &HashMap<&str, usize>,
) -> Option<usize>
    requires { FindsNames (B.meaning b.now) names.now }
    ensures { result ≡ option_and_then
        (unless_in (λ y. get same_messages own.now (messages y.head)) (B.meaning b.now).commands)
        (position (λ c. bytes_eq name.now c.name) (B.meaning b.now).commands) }
{
    match names.get(&name) {
        Some(place) => unless_messages_known(b, own, *place),
        None => None,
    }
}

/// The command of B at a place, if A has none for its messages.
fn unless_messages_known<B: Book>(
    b: &B,
    own: &HashMap<Messages, usize>,
    place: usize,
) -> Option<usize>
    requires { place < length (B.meaning b.now).commands }
    ensures { result
        ≡ unless_in (λ y. get same_messages own.now (messages y.head)) (B.meaning b.now).commands place }
{
    match own.get(&messages_of(b.def(b.command_at(place)).head)) {
        Some(_) => None,
        None => Some(place),
    }
}

/// The place of each command, by the messages that it is for.
fn all_messages<B: Book>(alloc: Global, book: &B) -> Result<HashMap<Messages, usize>, AllocError>
    ensures { IfOk result (FindsCommands (B.meaning book.now)) }
{
    let mut found = HashMap::new(alloc);
    for index in 0..book.commands() {
        let messages = messages_of(book.def(book.command_at(index)).head);
        found.insert(messages, index)?;
    }
    Ok(found)
}

/// The place of each command, by its name.
fn command_names<B: Book>(alloc: Global, book: &B) -> Result<HashMap<&str, usize>, AllocError>
    ensures { IfOk result (FindsNames (B.meaning book.now)) }
{
    let mut names = HashMap::new(alloc);
    for index in 0..book.commands() {
        names.insert(book.def(book.command_at(index)).name.as_str(), index)?;
    }
    Ok(names)
}
