//! What is counted of a run.

use dia_book::{Book, Entry};
use std::alloc::{AllocError, Global};
use std::boxed::BoxedSlice;
use std::collections::HashSet;

/// The values of the AVPs of an entry, or of those that the dictionary doesn't know.
#[derive(Drop)]
pub struct AvpCount {
    pub values: u64,
    /// Each of them once, where they are collected.
    distinct: HashSet<BoxedSlice<u8>>,
}

impl AvpCount {
    fn new(alloc: Global) -> AvpCount {
        AvpCount {
            values: 0,
            distinct: HashSet::new(alloc),
        }
    }

    /// How many different values there were, where they are collected.
    pub fn distinct(&self) -> usize {
        self.distinct.len()
    }

    fn add(&mut self, value: &[u8], collects: bool, alloc: Global) -> Result<(), AllocError> {
        self.values = self.values.saturating_add(1);
        if collects && !self.distinct.contains(value) {
            self.distinct.insert(BoxedSlice::from_slice(alloc, value)?)?;
        }
        Ok(())
    }
}

/// The values of a run, without those of groups.
#[derive(Drop)]
pub struct Counts {
    /// By entry.
    known: Vec<AvpCount>,
    /// Of the AVPs that the dictionary doesn't know.
    pub unknown: AvpCount,
    /// How many bytes became zero that are no part of an AVP or of the message.
    pub zeroed: u64,
    /// Values are collected.
    collects: bool,
}

impl Counts {
    pub(crate) fn new<B: Book>(
        alloc: Global,
        book: &B,
        collects: bool,
    ) -> Result<Counts, AllocError> {
        let mut known = Vec::new(alloc);
        for _ in 0..book.entries() {
            known.push(AvpCount::new(alloc))?;
        }
        Ok(Counts {
            known,
            unknown: AvpCount::new(alloc),
            zeroed: 0,
            collects,
        })
    }

    /// The counts of an AVP of the dictionary.
    pub fn of(&self, entry: Entry) -> Option<&AvpCount> {
        self.known.get(entry.index())
    }

    /// Counts the data of an AVP, by its entry if the dictionary knows it.
    pub(crate) fn add(
        &mut self,
        alloc: Global,
        entry: &Option<Entry>,
        data: &[u8],
    ) -> Result<(), AllocError> {
        let collects = self.collects;
        match entry {
            Some(entry) => match self.known.get_mut(entry.index()) {
                Some(count) => count.add(data, collects, alloc),
                None => Ok(()),
            },
            None => self.unknown.add(data, collects, alloc),
        }
    }

    pub(crate) fn zero(&mut self, count: usize) {
        self.zeroed = self.zeroed.saturating_add(count as u64);
    }
}
