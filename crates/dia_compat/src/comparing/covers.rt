//! Keys of pairs, and what needs no pair.
ghost use Rattle.std.specs.Prelude.{◌≡◌, ◌<◌, ◌||◌, not, IfOk, IfSome, OnOk, map, filter, length, slice_get, false};
ghost use Rattle.std.specs.List.{list_all, list_any};
ghost use Rattle.std.specs.Option.{option_map_or};
ghost use Rattle.dia_data.specs.Plain.{plain_format};
ghost use Rattle.dia_valid.specs.Valid.{known};
ghost use Rattle.dia_wire.specs.declared.Key.{Key as AnyKey};
ghost use Rattle.dia_compat.specs.TableText.{plain_pair, plain_table};
ghost use Rattle.dia_compat.specs.Sides.{compared};
ghost use Rattle.dia_compat.specs.Tests.{holds_key};
ghost use Rattle.dia_compat.specs.PairTests.{pair_key, pairs_key, is_alone};
ghost use Rattle.dia_compat.specs.PairTests.{is_covered, is_must_not, is_wild_covered};
ghost use Rattle.dia_compat.specs.PairTests.{may_be_clear, is_octets, stranger_fits};
ghost use Rattle.dia_compat.specs.PairTests.{uncovered_keys, strangers_fit};

use super::named_book::NamedBook;
use super::rules::Rules;
use super::sides::Sides;
use super::wildcards::wildcard_covered;
use crate::table::Table;
use dia_book::{Book, Entry, Format, Key, MRule};
use indexmap::IndexSet;
use std::alloc::{AllocError, Global};
use std::marker::Model;

/// Two sides and a table, with the keys that need no further test where one definition lets them in and another has to.
#[derive(Drop)]
pub(super) struct Cover<'a, A: Book, B: Book> {
    sides: Sides<'a, A, B>,
    table: &'a Table,
    /// The keys of the table's pairs of AVPs.
    paired: Box<IndexSet<Key>>,
    /// The keys that the first dictionary knows and that are not covered.
    uncovered: Vec<Key>,
    /// Whether the AVPs that the second dictionary alone knows do no harm.
    harmless: bool,
}

impl<'a, A: Book, B: Book> Model for Cover<'a, A, B> {
    ghost use Rattle.std.specs.Prelude.{◌≡◌};
    ghost use Rattle.dia_compat.specs.TableText.{plain_table};
    ghost use Rattle.dia_compat.specs.Sides.{Compared, compared};
    ghost use Rattle.dia_compat.specs.PairTests.{ArePaired, uncovered_keys, strangers_fit};

    ghost Value = { Compared };

    ghost view = { λ c. compared c.sides (plain_table c.table.now) };

    ghost invariant = { λ c. ArePaired (compared c.sides (plain_table c.table.now)) c.paired.value.keys
        × (c.uncovered.items ≡ uncovered_keys (compared c.sides (plain_table c.table.now)))
        × (c.harmless ≡ strangers_fit c.sides) };
}

impl<'a, A: Book, B: Book> Cover<'a, A, B> {
    pub fn new(
        alloc: Global,
        sides: &Sides<'a, A, B>,
        a: &NamedBook<'_, A>,
        b: &NamedBook<'_, B>,
        table: &'a Table,
    ) -> Result<Self, AllocError>
        requires first { a.now ≡ sides.now.first }
        requires second { b.now ≡ sides.now.second }
        ensures { IfOk result (λ cover. cover ≡ compared sides.now (plain_table table.now)) }
    {
        let paired = paired_keys(alloc, a, b, &table.avps)?;
        let uncovered = uncovered_keys(alloc, sides, &paired)?;
        Ok(Cover {
            sides: sides.again(),
            table,
            paired,
            uncovered,
            harmless: strangers_fit(sides),
        })
    }

    /// Whether the key is that of a pair, or needs none.
    pub fn covers(&self, key: Key) -> bool
        ensures { result ≡ is_covered self.now key }
    {
        is_covered(&self.sides, &self.paired, key)
    }

    pub fn sides(&self) -> &Sides<'a, A, B>
        ensures { result.now ≡ self.now.sides }
    {
        &self.sides
    }

    pub fn table(&self) -> &'a Table
        ensures { plain_table result.now ≡ self.now.table }
    {
        self.table
    }

    /// The keys that the first dictionary knows and that are not covered, in its order.
    pub fn uncovered(&self) -> &[Key]
        ensures { result.now ≡ uncovered_keys self.now }
    {
        &self.uncovered
    }

    /// Whether what the wildcard of a definition of the first lets in is covered.
    pub fn covers_wildcard(&self, a: &Rules<'_, A>) -> bool
        ensures { result ≡ is_wild_covered self.now a.now }
    {
        wildcard_covered(a, &self.uncovered, self.harmless)
    }
}

/// The keys that the first knows and that are not covered, in its order.
fn uncovered_keys<A: Book, B: Book>(
    alloc: Global,
    sides: &Sides<'_, A, B>,
    paired: &IndexSet<Key>,
) -> Result<Vec<Key>, AllocError>
    ensures { IfOk result (λ keys. keys.items
        ≡ filter (λ key. not (holds_key paired.now.keys key || is_alone sides.now key))
        (map (λ e. e.key) sides.now.first.entries)) }
{
    let a = sides.first();
    let mut keys = Vec::new(alloc);
    for index in 0..a.entries() {
        let key = a.entry_key(a.entry_at(index));
        if !is_covered(sides, paired, key) {
            keys.push(key)?;
        }
    }
    Ok(keys)
}

/// Whether the key is among those of pairs, or needs no pair.
fn is_covered<A: Book, B: Book>(sides: &Sides<'_, A, B>, paired: &IndexSet<Key>, key: Key) -> bool
    ensures { result ≡ (holds_key paired.now.keys key || is_alone sides.now key) }
{
    paired.contains(&key) || is_alone(sides, key)
}

/// The keys of the pairs whose names have one key.
fn paired_keys<A: Book, B: Book>(
    alloc: Global,
    a: &NamedBook<'_, A>,
    b: &NamedBook<'_, B>,
    pairs: &[(String, String)],
) -> Result<Box<IndexSet<Key>>, AllocError>
    ensures { IfOk result
        (λ set. (key : AnyKey) → holds_key set.value.keys key
        ≡ list_any (pairs_key a.now b.now key) (map plain_pair pairs.now)) }
{
    let mut keys = Box::new(alloc, IndexSet::new(alloc))?;
    for pair in pairs {
        add_key(&mut keys, a, b, pair)?;
    }
    Ok(keys)
}

/// Adds the key that both names of a pair have, if there is one.
fn add_key<A: Book, B: Book>(
    keys: &mut IndexSet<Key>,
    a: &NamedBook<'_, A>,
    b: &NamedBook<'_, B>,
    pair: &(String, String),
) -> Result<(), AllocError>
    ensures { OnOk result ((key : AnyKey) → holds_key keys.new.keys key ≡
        (holds_key keys.old.keys key || pairs_key a.now b.now key (plain_pair pair.now))) }
{
    if let Some(key) = pair_key(a, b, pair.0.as_str(), pair.1.as_str()) {
        keys.insert(key)?;
    }
    Ok(())
}

/// The key that both names have.
fn pair_key<A: Book, B: Book>(
    a: &NamedBook<'_, A>,
    b: &NamedBook<'_, B>,
    first: &str,
    second: &str,
) -> Option<Key>
    ensures { result ≡ pair_key a.now b.now (first.now, second.now) }
{
    match a.key(first) {
        Some(key) => match b.key(second) {
            Some(other) => { if key == other { Some(key) } else { None } }
            None => None,
        },
        None => None,
    }
}

/// Whether each AVP of this key that is valid in the first is one of the unknown ones that are accepted in the second.
fn is_alone<A: Book, B: Book>(sides: &Sides<'_, A, B>, key: Key) -> bool
    ensures { result ≡ is_alone sides.now key }
{
    sides.keeps() && sides.second().avp(key).is_none() && is_never_mandatory(sides.first(), key)
}

fn is_never_mandatory<A: Book>(a: &A, key: Key) -> bool
    ensures { result ≡ option_map_or (λ e. is_must_not e.rule) (known (A.meaning a.now) key) false }
{
    match a.avp(key) {
        Some(entry) => is_must_not(a.rule(entry)),
        None => false,
    }
}

fn is_must_not(rule: MRule) -> bool
    ensures { result ≡ is_must_not rule }
{
    match rule {
        MRule::MustNot => true,
        MRule::Must => false,
        MRule::Any => false,
    }
}

/// Whether the AVPs that the second alone knows do no harm where the first lets unknown ones in.
fn strangers_fit<A: Book, B: Book>(sides: &Sides<'_, A, B>) -> bool
    ensures { result ≡ strangers_fit sides.now }
{
    !sides.keeps() || all_strangers_fit(sides.first(), sides.second())
}

fn all_strangers_fit<A: Book, B: Book>(a: &A, b: &B) -> bool
    ensures { result ≡ list_all (stranger_fits (A.meaning a.now)) (B.meaning b.now).entries }
{
    for index in 0..b.entries() {
        if !stranger_fits(a, b, b.entry_at(index)) {
            return false;
        }
    }
    true
}

pub(super) fn stranger_fits<A: Book, B: Book>(a: &A, b: &B, entry: Entry) -> bool
    requires { entry < length (B.meaning b.now).entries }
    ensures { IfSome (slice_get (B.meaning b.now).entries entry)
        (λ e. result ≡ stranger_fits (A.meaning a.now) e) }
{
    a.avp(b.entry_key(entry)).is_some()
        || (is_octets(b.format(entry)) && may_be_clear(b.rule(entry)))
}

fn is_octets(format: &Format) -> bool
    ensures { result ≡ is_octets (plain_format format.now) }
{
    matches!(format, Format::OctetString)
}

fn may_be_clear(rule: MRule) -> bool
    ensures { result ≡ may_be_clear rule }
{
    match rule {
        MRule::Must => false,
        MRule::MustNot => true,
        MRule::Any => true,
    }
}
