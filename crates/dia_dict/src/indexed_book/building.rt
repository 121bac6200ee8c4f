//! The maps of a dictionary.
ghost use Rattle.std.specs.Prelude.{◌≡◌, ◌+◌, ◌<◌, ◌^◌, ◌++◌, ◌==◌, if◌then◌else◌, ℕ};
ghost use Rattle.std.specs.Prelude.{List, None, Some, IfOk, OnOk, length, map, unwrap_or};
ghost use Rattle.std.specs.List.{list_any};
ghost use Rattle.indexmap.specs.IndexMap.{get};
ghost use Rattle.dia_book.specs.declared.Definition.{Definition as AnyDefinition};
ghost use Rattle.dia_dict.specs.Indexed.{AreEntries, AreCommands, AreSlots, AreSlotsOfEach};
ghost use Rattle.dia_dict.specs.Selectors.{is_for_app, service_of};

use crate::entry_list::Row;
use crate::hashing::Hashing;
use crate::key_map::KeyMap;
use crate::selectors::{Selector, is_for_app, service_of};
use dia_book::{DefId, Definition, Entry, Slot};
use dia_wire::Key;
use indexmap::{IndexMap, IndexSet};
use std::alloc::{AllocError, Global};
use std::hash::Hash;

/// The entries by their keys, in their order.
pub(super) fn entries_of(alloc: Global, rows: &[Row]) -> Result<KeyMap<Entry>, AllocError>
    requires few { length rows.now < 2 ^ 32 }
    ensures { IfOk result (λ entries. AreEntries entries rows.now) }
{
    let keys: Vec<Key> = rows.iter().map(|row| row.key).collect(alloc)?;
    let mut entries = map_for(alloc, &keys)?;
    for (index, row) in rows.iter().enumerate() {
        keep_first(&mut entries, row.key, Entry::new(index))?;
    }
    let keyed = KeyMap::with_guesses(alloc, entries)?;
    Ok(keyed)
}

/// The commands by what they are for, in their order. Definitions are numbered from the groups on.
pub(super) fn commands_of(
    alloc: Global,
    groups: usize,
    commands: &[Definition],
) -> Result<IndexMap<Selector, DefId, Hashing>, AllocError>
    requires few { groups + length commands.now < 2 ^ 32 }
    ensures { IfOk result (λ selected. AreCommands ⟦<Selector as PartialEq>⟧.eq selected groups commands.now) }
{
    let selectors: Vec<Selector> = commands
        .iter()
        .map(|command| Selector::of(command.head))
        .collect(alloc)?;
    let mut selected = map_for(alloc, &selectors)?;
    for (index, command) in commands.iter().enumerate() {
        keep_first(
            &mut selected,
            Selector::of(command.head),
            DefId::new(groups + index),
        )?;
    }
    Ok(selected)
}

/// Whether some command is for an application.
pub(super) fn are_for_apps(commands: &[Definition]) -> bool
    ensures { result ≡ list_any (λ d. is_for_app d.head) commands.now }
{
    commands.iter().any(|command| is_for_app(command.head))
}

/// The numbers of the messages that commands are for, whatever their application.
pub(super) fn services_of(
    alloc: Global,
    commands: &[Definition],
) -> Result<IndexSet<u64, Hashing>, AllocError>
    ensures { IfOk result (λ services. (n : ℕ) → list_any (λ m. n == m) services.keys
        ≡ list_any (λ m. n == m) (map (λ d. service_of d.head) commands.now)) }
{
    let numbers: Vec<u64> = commands
        .iter()
        .map(|command| service_of(command.head))
        .collect(alloc)?;
    let hashing = Hashing::of(alloc, &numbers)?;
    let mut services = IndexSet::with_capacity_and_hasher(alloc, numbers.len(), hashing)?;
    for command in commands {
        services.insert(service_of(command.head))?;
    }
    Ok(services)
}

/// The slots of each definition by their keys: those of the groups, then those of the commands.
pub(super) fn all_slots(
    alloc: Global,
    groups: &[Definition],
    commands: &[Definition],
) -> Result<Vec<KeyMap<Slot>>, AllocError>
    ensures { IfOk result (λ all. AreSlotsOfEach all.items (groups.now ++ commands.now)) }
{
    let mut all = Vec::with_capacity(alloc, groups.len())?;
    push_slots(alloc, &mut all, groups)?;
    push_slots(alloc, &mut all, commands)?;
    Ok(all)
}

/// Adds the slots of each definition.
fn push_slots(
    alloc: Global,
    all: &mut Vec<KeyMap<Slot>>,
    definitions: &[Definition],
) -> Result<(), AllocError>
    ensures { OnOk result ((ds : List AnyDefinition) → AreSlotsOfEach all.old.items ds
        → AreSlotsOfEach all.new.items (ds ++ definitions.now)) }
{
    for definition in definitions {
        all.push(slots_of(alloc, definition)?)?;
    }
    Ok(())
}

/// The slots of a definition by their keys, in its order.
fn slots_of(alloc: Global, definition: &Definition) -> Result<KeyMap<Slot>, AllocError>
    ensures { IfOk result (λ slots. AreSlots slots definition.now) }
{
    let keys: Vec<Key> = definition
        .rules
        .iter()
        .filter_map(|rule| rule.key)
        .collect(alloc)?;
    let mut slots = map_for(alloc, &keys)?;
    for (index, rule) in definition.rules.iter().enumerate() {
        if let Some(key) = rule.key {
            keep_first(&mut slots, key, definition.slot_at(index))?;
        }
    }
    let keyed = KeyMap::with_guesses(alloc, slots)?;
    Ok(keyed)
}

/// An empty map for these keys.
fn map_for<K: Eq + Hash + Copy, V: Drop>(
    alloc: Global,
    keys: &[K],
) -> Result<IndexMap<K, V, Hashing>, AllocError>
    ensures { IfOk result (λ map. (key : K) → get K.eq map key ≡ None) }
{
    let hashing = Hashing::of(alloc, keys)?;
    IndexMap::with_capacity_and_hasher(alloc, keys.len(), hashing)
}

/// Gives a key a value, unless it has one.
fn keep_first<K: Eq + Hash + Drop, V: Drop>(
    map: &mut IndexMap<K, V, Hashing>,
    key: K,
    value: V,
) -> Result<(), AllocError>
    ensures { OnOk result ((other : K) → get K.eq map.new other
        ≡ (if K.eq key other then Some (unwrap_or (get K.eq map.old key) value) else get K.eq map.old other)) }
{
    map.entry(key)?.or_insert(value);
    Ok(())
}
