//! The entries about some commands.
ghost use Rattle.std.specs.Prelude.{◌≡◌, IfOk, List, filter, if◌then◌else◌, map, not, string_bytes, true, ℕ};
ghost use Rattle.std.specs.List.{list_any};
ghost use Rattle.std.specs.Str.{bytes_eq};
ghost use Rattle.dia_accepted.specs.Accepted.{is_about, plain_entry};
ghost use Rattle.dia_accepted.specs.Sets.{has};
ghost use Rattle.dia_accepted.specs.Words.{command_in};

use crate::accepting::push_copy;
use crate::list::Entry;
use crate::words::command_in;
use indexmap::IndexMap;
use std::alloc::{AllocError, Global};

/// The entries about a command of these names, or all entries if there is no name.
pub fn about(alloc: Global, list: &[Entry], names: &[String]) -> Result<Vec<Entry>, AllocError>
    ensures { IfOk result (λ entries. map plain_entry entries.items
        ≡ filter (is_about (map (λ name. string_bytes name) names.now)) (map plain_entry list.now)) }
{
    let known = texts_of(alloc, names)?;
    about_known(alloc, list, names.is_empty(), &known)
}

/// The names, as keys.
fn texts_of(alloc: Global, names: &[String]) -> Result<IndexMap<Vec<u8>, bool>, AllocError>
    ensures { IfOk result (λ known. (x : List ℕ) → has known.entries x
        ≡ list_any (bytes_eq x) (map (λ name. string_bytes name) names.now)) }
{
    let mut known = IndexMap::new(alloc);
    for name in names {
        let text = Vec::from_slice(alloc, name.as_bytes())?;
        known.insert(text, true)?;
    }
    Ok(known)
}

/// The entries whose command is one of these keys; all, if that is wanted.
fn about_known(
    alloc: Global,
    list: &[Entry],
    all: bool,
    known: &IndexMap<Vec<u8>, bool>,
) -> Result<Vec<Entry>, AllocError>
    ensures { IfOk result (λ entries. map plain_entry entries.items
        ≡ filter (λ e. if all then true else has known.now.entries (command_in e.counted)) (map plain_entry list.now)) }
{
    let mut entries = Vec::new(alloc);
    for entry in list {
        let is_other = is_other(all, known, entry.counted.as_slice());
        push_copy(alloc, &mut entries, entry, is_other)?;
    }
    Ok(entries)
}

/// Whether not all are wanted, and an entry, of which this is what counts, has another command than these keys.
fn is_other(all: bool, known: &IndexMap<Vec<u8>, bool>, counted: &[u8]) -> bool
    ensures { result ≡ not (if all then true else has known.now.entries (command_in counted.now)) }
{
    !(all || known.contains_key(command_in(counted)))
}
