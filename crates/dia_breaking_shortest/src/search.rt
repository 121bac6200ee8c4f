//! Groups in the order in which their least lengths are found: the shortest AVP first, as in Dijkstra's search.
ghost use Rattle.std.specs.Prelude.{◌≡◌, ◌<◌, [], length, IfOk, OnOk};
ghost use Rattle.dia_breaking_shortest.specs.Passes.{AreKept, AreNoShorter, length_in};

use crate::finding::lower;
use crate::lookup::Least;
use crate::order::{Ranked, group_of, lists, rules_of};
use dia_book::{Book, DRule};
use dia_breaking_levels::TOO_LONG;
use dia_terms::Sends;
use std::alloc::{AllocError, Global};
use std::cmp::Reverse;
use std::collections::BinaryHeap;
use std::mem;

/// An AVP that is to be settled: its length, and the place of its entry.
type Next = Reverse<(u64, usize)>;

/// What the least levels of groups still wait for.
#[derive(Drop)]
struct Wants {
    /// Pairs of an entry and a group whose rules ask for it, in order.
    uses: Vec<(usize, usize)>,
    /// How many AVPs each entry waits for.
    missing: Vec<usize>,
    /// The groups whose wildcards ask for AVPs.
    waiting: Vec<usize>,
}

impl Wants {
    /// What all groups want.
    fn new<B: Book>(alloc: Global, book: &B, sends: Sends) -> Result<Wants, AllocError> {
        let mut wants = Wants {
            uses: Vec::new(alloc),
            missing: Vec::new(alloc),
            waiting: Vec::new(alloc),
        };
        for index in 0..book.entries() {
            let missing = wants.group(book, sends, index)?;
            wants.missing.push(missing)?;
        }
        wants.uses.sort_unstable();
        Ok(wants)
    }

    /// Records what the entry at a place wants, if it is a group.
    fn group<B: Book>(&mut self, book: &B, sends: Sends, index: usize) -> Result<usize, AllocError>
        requires { index < length (B.meaning book.now).entries }
    {
        let Some(def) = group_of(book, book.entry_at(index)) else {
            return Ok(0);
        };
        let mut missing: usize = 0;
        for rule in rules_of(book, def) {
            if self.rule(book, sends, index, rule)? {
                missing = missing.saturating_add(1);
            }
        }
        Ok(missing)
    }

    /// Records what a rule wants, and returns whether it is anything.
    fn rule<B: Book>(
        &mut self,
        book: &B,
        sends: Sends,
        group: usize,
        rule: &DRule,
    ) -> Result<bool, AllocError> {
        if rule.min == 0 {
            return Ok(false);
        }
        match rule.key {
            Some(key) => {
                if let Some(entry) = book.avp(key) {
                    self.uses.push((entry.index(), group))?;
                }
                Ok(true)
            }
            None => {
                if sends == Sends::Known {
                    self.waiting.push(group)?;
                }
                Ok(sends != Sends::Any)
            }
        }
    }

    /// One AVP less is missing in the group. If that was the last, the group is put on the list.
    fn serve(&mut self, group: usize, ready: &mut Vec<usize>) -> Result<(), AllocError> {
        if let Some(missing) = self.missing.get_mut(group) {
            if *missing == 1 {
                ready.push(group)?;
            }
            *missing = missing.saturating_sub(1);
        }
        Ok(())
    }

    /// Serves the groups whose rules ask for the entry.
    fn serve_rules(&mut self, entry: usize, ready: &mut Vec<usize>) -> Result<(), AllocError> {
        let start = self.uses.partition_point(|pair| pair.0 < entry);
        for at in start..self.uses.len() {
            match self.uses.get(at).copied() {
                Some((used, group)) if used == entry => self.serve(group, ready)?,
                _ => return Ok(()),
            }
        }
        Ok(())
    }

    /// Serves the groups whose wildcards let the AVP in.
    fn serve_wildcards<B: Book>(
        &mut self,
        alloc: Global,
        book: &B,
        ranked: Ranked,
        ready: &mut Vec<usize>,
    ) -> Result<(), AllocError> {
        let waiting = mem::replace(&mut self.waiting, Vec::new(alloc));
        for group in waiting.as_slice() {
            if lets_in(book, *group, ranked) {
                self.serve(*group, ready)?;
            } else {
                self.waiting.push(*group)?;
            }
        }
        Ok(())
    }

    /// The groups that wait for nothing more, once the AVP of the entry is settled.
    fn served<B: Book>(
        &mut self,
        alloc: Global,
        book: &B,
        entry: usize,
        ranked: Ranked,
    ) -> Result<Vec<usize>, AllocError> {
        let mut ready = Vec::new(alloc);
        self.serve_rules(entry, &mut ready)?;
        self.serve_wildcards(alloc, book, ranked, &mut ready)?;
        Ok(ready)
    }
}

/// Whether the group at a place doesn't list the AVP.
fn lets_in<B: Book>(book: &B, group: usize, ranked: Ranked) -> bool {
    if group >= book.entries() {
        return false;
    }
    match group_of(book, book.entry_at(group)) {
        Some(def) => !lists(book, def, ranked.key),
        None => false,
    }
}

/// A search under way.
#[derive(Drop)]
struct Settling {
    wants: Wants,
    /// The AVPs that are settled, the shortest first.
    order: Vec<Ranked>,
    queue: BinaryHeap<Next>,
}

impl Settling {
    fn new<B: Book>(alloc: Global, book: &B, sends: Sends) -> Result<Settling, AllocError>
        ensures { IfOk result (λ settling. settling.order.items ≡ []) }
    {
        let wants = Wants::new(alloc, book, sends)?;
        Ok(Settling {
            wants,
            order: Vec::new(alloc),
            queue: BinaryHeap::new(alloc),
        })
    }

    /// Settles the AVP of the entry at a place, and reaches the groups that wait for nothing else.
    fn settle<B: Book>(
        &mut self,
        alloc: Global,
        book: &B,
        least: &mut Least,
        index: usize,
    ) -> Result<(), AllocError>
        requires kept { AreKept (B.meaning book.now) least.old }
        requires ranks { AreNoShorter (length_in (B.meaning book.now) least.old) self.old.order.items }
        ensures sends { OnOk result (least.new.sends ≡ least.old.sends) }
        ensures kept { OnOk result (AreKept (B.meaning book.now) least.new) }
        ensures ranks { OnOk result (AreNoShorter (length_in (B.meaning book.now) least.new) self.new.order.items) }
    {
        if index >= book.entries() {
            return Ok(());
        }
        let key = book.entry_key(book.entry_at(index));
        let length = least.key(book, key);
        let ranked = Ranked { key, length };
        self.order.push(ranked)?;
        let ready = self.wants.served(alloc, book, index, ranked)?;
        reach(book, least, &self.order, &ready, &mut self.queue)
    }
}

/// Makes the lengths of groups less, the shortest first, so that no pass finds less.
pub(crate) fn search<B: Book>(alloc: Global, book: &B, least: &mut Least) -> Result<(), AllocError>
    requires { AreKept (B.meaning book.now) least.old }
    ensures sends { OnOk result (least.new.sends ≡ least.old.sends) }
    ensures kept { OnOk result (AreKept (B.meaning book.now) least.new) }
{
    let mut settling = Settling::new(alloc, book, least.sends)?;
    let first = wants_nothing(alloc, &settling.wants)?;
    reach(book, least, &settling.order, &first, &mut settling.queue)?;
    for _ in 0..book.entries() {
        let Some(Reverse((_, index))) = settling.queue.pop() else {
            break;
        };
        settling.settle(alloc, book, least, index)?;
    }
    Ok(())
}

/// The entries that want nothing: leaves, and groups whose least level is empty.
fn wants_nothing(alloc: Global, wants: &Wants) -> Result<Vec<usize>, AllocError> {
    let mut first = Vec::new(alloc);
    for index in 0..wants.missing.len() {
        if wants.missing[index] == 0 {
            first.push(index)?;
        }
    }
    Ok(first)
}

/// Puts entries into the queue, those of groups with the lengths of their least levels.
fn reach<B: Book>(
    book: &B,
    least: &mut Least,
    order: &[Ranked],
    ready: &[usize],
    queue: &mut BinaryHeap<Next>,
) -> Result<(), AllocError>
    requires kept { AreKept (B.meaning book.now) least.old }
    requires ranks { AreNoShorter (length_in (B.meaning book.now) least.old) order.now }
    ensures sends { least.new.sends ≡ least.old.sends }
    ensures kept { AreKept (B.meaning book.now) least.new }
    ensures ranks { AreNoShorter (length_in (B.meaning book.now) least.new) order.now }
{
    for index in ready {
        reach_one(book, least, order, *index, queue)?;
    }
    Ok(())
}

fn reach_one<B: Book>(
    book: &B,
    least: &mut Least,
    order: &[Ranked],
    index: usize,
    queue: &mut BinaryHeap<Next>,
) -> Result<(), AllocError>
    requires kept { AreKept (B.meaning book.now) least.old }
    requires ranks { AreNoShorter (length_in (B.meaning book.now) least.old) order.now }
    ensures sends { least.new.sends ≡ least.old.sends }
    ensures kept { AreKept (B.meaning book.now) least.new }
    ensures ranks { AreNoShorter (length_in (B.meaning book.now) least.new) order.now }
{
    if index < book.entries() {
        let _ = lower(least, book, order, index);
        let length = least.entry(book.entry_at(index));
        if length < TOO_LONG {
            queue.push(Reverse((length, index)))?;
        }
    }
    Ok(())
}
