//! The AVPs that the options name.

ghost use Rattle.std.specs.Prelude.{◌≡◌, IfErr, IfOk, List, Option, Some, slice_get, ℕ};
ghost use Rattle.std.specs.HashSet.{IsFromIterResult};
ghost use Rattle.std.specs.Option.{option_copied};
ghost use Rattle.std.specs.Str.{bytes_eq};
ghost use Rattle.dia_dict.specs.Dictionary.{Dictionary};
ghost use Rattle.dia_mask_text.specs.Names.{IsChoice, fault_by, fault_in, first_refused, lists, names_of, why_not, with_faults};
ghost use Rattle.dia_mask_text.specs.Naming.{AreKnown, IsNameList, fault_of, texts};

use crate::options::Options;
use dia_dict::Book;
use dia_mask::{Choice, can_be_masked};
use std::alloc::{AllocError, Global};
use std::collections::{HashMap, HashSet};
use thiserror::Error;

/// The word for AVPs that the dictionary doesn't know.
pub(crate) const UNKNOWN: &str = "AVP";

/// A name that is refused, and why.
#[derive(Clone, Copy, Debug, Error)]
#[error("{name}")]
pub(crate) struct BadName<'a> {
    pub(crate) name: &'a str,
    pub(crate) why: Why,
}

#[derive(Clone, Copy, Debug)]
pub(crate) enum Why {
    /// The dictionary has no AVP of this name.
    Missing,
    /// No other data can replace that of the AVP.
    Fixed,
    /// The AVP is to stay, and to be masked.
    Twice,
}

/// The names of a list.
#[derive(Drop)]
struct NameList<'a> {
    /// In their order.
    names: Vec<&'a str>,
    set: HashSet<&'a str>,
}

/// The names of all lists.
#[derive(Drop)]
struct NameLists<'a> {
    keep: NameList<'a>,
    mask: NameList<'a>,
    only: NameList<'a>,
}

/// The AVPs of a dictionary that the options choose, or the first name that is refused.
pub(crate) fn choice_of<'a, B: Book>(
    alloc: Global,
    book: &B,
    options: &Options<'a>,
) -> Result<Result<Choice, BadName<'a>>, AllocError>
    ensures choice { IfOk result (λ made. IfOk made (IsChoice (lists options.now) (B.meaning book.now))) }
    ensures refused { IfOk result (λ made. IfErr made (λ bad.
        first_refused (lists options.now) (B.meaning book.now) ≡ Some (bad.name.now, bad.why))) }
{
    let lists = NameLists::of(alloc, options)?;
    let known = known_names(alloc, book)?;
    match lists.first_bad(&known) {
        Some(bad) => Ok(Err(bad)),
        None => Ok(Ok(lists.choice(alloc, book)?)),
    }
}

impl<'a> NameLists<'a> {
    ghost use Rattle.std.specs.Prelude.{◌≡◌, IfOk};
    ghost use Rattle.dia_dict.specs.Dictionary.{Dictionary};
    ghost use Rattle.dia_mask.specs.Choosing.{IsChosen};
    ghost use Rattle.dia_mask_text.specs.Names.{Lists, first_refused, is_masked_by, lists, masks_entry, masks_unknown};
    ghost use Rattle.dia_mask_text.specs.Naming.{AreKnown, AreNameLists, fault_of};

    fn of(alloc: Global, options: &Options<'a>) -> Result<NameLists<'a>, AllocError>
        ensures { IfOk result (AreNameLists (lists options.now)) }
    {
        Ok(NameLists {
            keep: NameList::of(alloc, options.keep)?,
            mask: NameList::of(alloc, options.mask)?,
            only: NameList::of(alloc, options.only)?,
        })
    }

    /// The first name that is refused.
    fn first_bad(&self, known: &HashMap<&str, bool>) -> Option<BadName<'a>>
        ensures { (l : Lists) (d : Dictionary) → AreNameLists l self.now → AreKnown d known.now
            → fault_of result ≡ first_refused l d }
    {
        first_unfit(known, &self.only.names)
            .or(first_unfit(known, &self.keep.names))
            .or(first_unfit(known, &self.mask.names))
            .or(first_twice(&self.keep, &self.mask.names))
    }

    /// The choice by formats, changed by the lists.
    fn choice<B: Book>(&self, alloc: Global, book: &B) -> Result<Choice, AllocError>
        ensures { IfOk result (λ choice. (l : Lists) → AreNameLists l self.now
            → IsChosen (masks_entry l) (masks_unknown l) (B.meaning book.now) choice) }
    {
        let mut choice = Choice::by_format(alloc, book)?;
        for index in 0..book.entries() {
            let entry = book.entry_at(index);
            let masked = self.masks(choice.masks(entry), book.entry_name(entry));
            choice.set(entry, masked);
        }
        let masked = self.masks(choice.masks_unknown(), UNKNOWN);
        choice.set_unknown(masked);
        Ok(choice)
    }

    /// Whether AVPs of a name are masked, which their format masks or not.
    fn masks(&self, by_format: bool, name: &str) -> bool
        ensures { (l : Lists) → AreNameLists l self.now → result ≡ is_masked_by l by_format name.now }
    {
        if self.only.names.is_empty() {
            (by_format || self.mask.has(name)) && !self.keep.has(name)
        } else {
            self.only.has(name)
        }
    }
}

impl<'a> NameList<'a> {
    ghost use Rattle.std.specs.Prelude.{◌≡◌, IfOk};
    ghost use Rattle.std.specs.HashSet.{contains_by};
    ghost use Rattle.std.specs.Option.{option_copied};
    ghost use Rattle.std.specs.Str.{bytes_eq};
    ghost use Rattle.dia_mask_text.specs.Naming.{IsNameList};

    fn of(alloc: Global, list: Option<&'a str>) -> Result<NameList<'a>, AllocError>
        ensures { IfOk result (IsNameList (option_copied list.entry)) }
    {
        let names = names_of(alloc, list)?;
        let set = set_of(alloc, &names)?;
        Ok(NameList { names, set })
    }

    fn has(&self, name: &str) -> bool
        ensures { result ≡ contains_by (λ k. bytes_eq name.now k.now) self.now.set }
    {
        self.set.contains(&name)
    }
}

/// The names of a list, with commas between them.
fn names_of<'a>(alloc: Global, list: Option<&'a str>) -> Result<Vec<&'a str>, AllocError>
    ensures { IfOk result (λ names. texts names.items ≡ names_of (option_copied list.entry)) }
{
    match list {
        Some(list) => list.split(',').collect(alloc),
        None => Ok(Vec::new(alloc)),
    }
}

fn set_of<'a>(alloc: Global, names: &[&'a str]) -> Result<HashSet<&'a str>, AllocError>
    ensures { IfOk result (IsFromIterResult (λ x y. bytes_eq x.now y.now) names.now) }
{
    names.iter().copied().collect(alloc)
}

/// Whether other data can replace those of each AVP of a dictionary, by its name.
fn known_names<B: Book>(alloc: Global, book: &B) -> Result<HashMap<&str, bool>, AllocError>
    ensures { IfOk result (AreKnown (B.meaning book.now)) }
{
    let mut known = HashMap::new(alloc);
    for index in 0..book.entries() {
        let entry = book.entry_at(index);
        known.insert(book.entry_name(entry), can_be_masked(book.format(entry)))?;
    }
    Ok(known)
}

/// The first of these names that no AVP has, or of which other data can't replace the AVP's.
fn first_unfit<'a>(known: &HashMap<&str, bool>, names: &[&'a str]) -> Option<BadName<'a>>
    ensures { (d : Dictionary) → AreKnown d known.now
        → fault_of result ≡ slice_get (with_faults (fault_in d) (texts names.now)) 0 }
{
    for name in names {
        if let Some(why) = fault_in(known, name) {
            return Some(BadName { name, why });
        }
    }
    None
}

fn fault_in(known: &HashMap<&str, bool>, name: &str) -> Option<Why>
    ensures { (d : Dictionary) → AreKnown d known.now → result ≡ fault_in d name.now }
{
    if name == UNKNOWN {
        None
    } else {
        why_not(known.get(&name).copied())
    }
}

fn why_not(replaceable: Option<bool>) -> Option<Why>
    ensures { result ≡ why_not replaceable }
{
    match replaceable {
        None => Some(Why::Missing),
        Some(false) => Some(Why::Fixed),
        Some(true) => None,
    }
}

/// The first of these names that are to be masked which is among those that are to stay.
fn first_twice<'a>(keep: &NameList<'_>, names: &[&'a str]) -> Option<BadName<'a>>
    ensures { (list : Option (List ℕ)) → IsNameList list keep.now
        → fault_of result ≡ slice_get (with_faults (fault_by list) (texts names.now)) 0 }
{
    for name in names {
        if keep.has(name) {
            let why = Why::Twice;
            return Some(BadName { name, why });
        }
    }
    None
}
