//! Requests by numbers, found by their identifiers.

ghost use Rattle.std.specs.Prelude.{◌≡◌, ◌++◌, ◌∷◌, [], OnOk};
ghost use Rattle.dia_follow.specs.Numbered.{AreBelow, AreListed};

use super::numbers::Numbers;
use crate::request::Request;
use std::alloc::{AllocError, Global};
use std::collections::BTreeMap;
use std::marker::Model;

/// Requests by numbers, which rise, and what finds them by their identifiers.
#[derive(Drop)]
pub(crate) struct Table {
    requests: BTreeMap<u64, Request>,
    numbers: Numbers,
}

impl Model for Table {
    ghost use Rattle.std.specs.Prelude.{List, ℕ};
    ghost use Rattle.dia_follow.specs.declared.request.Request.{Request};

    ghost Value = { List (ℕ × Request) };

    ghost use Rattle.dia_follow.specs.Numbered.{AreListed};

    ghost view = { λ t. t.requests.entries };

    ghost invariant = { λ t. AreListed t.numbers t.requests.entries };
}

impl Table {
    ghost use Rattle.std.specs.Prelude.{◌≡◌, ◌<◌, ◌^◌, ◌++◌, ◌∷◌, [], length, drop, slice_get, IfOk, OnErr, OnOk, option_map};
    ghost use Rattle.std.specs.Map.{values_of};
    ghost use Rattle.std.specs.Option.{option_copied};
    ghost use Rattle.dia_follow.specs.Numbered.{AreBelow, Rises, answered_number, first_number, numbered, without_number};
    ghost use Rattle.dia_follow.specs.Waits.{has_hop, is_dwr, line_of};

    pub(super) fn new(alloc: Global) -> Table
        ensures { result ≡ [] }
    {
        Table {
            requests: BTreeMap::new(alloc),
            numbers: Numbers::new(alloc),
        }
    }

    pub(super) fn len(&self) -> usize
        ensures length { result ≡ length self.now }
        ensures small { result < 2 ^ 63 }
    {
        self.requests.len()
    }

    /// The request of a number.
    pub(super) fn get(&self, number: u64) -> Option<&Request>
        ensures { option_copied result ≡ numbered self.entry.now number }
    {
        self.requests.get(&number)
    }

    /// The line of the request of a number.
    pub(super) fn line(&self, number: u64) -> Option<u64>
        ensures { result ≡ option_map line_of (numbered self.now number) }
    {
        match self.requests.get(&number) {
            Some(request) => Some(request.line),
            None => None,
        }
    }

    /// The number of the first request with a Hop-by-Hop Identifier.
    pub(super) fn with_hop(&self, hop: u32) -> Option<u64>
        ensures number { result ≡ first_number (has_hop hop) self.now }
        ensures rise { Rises self.now }
    {
        self.numbers.with_hop(hop)
    }

    /// The number of the request that an answer with these identifiers answers: the first with both, else the first with the
    /// Hop-by-Hop Identifier.
    pub(super) fn answered(&self, hop: u32, e2e: u32) -> Option<u64>
        ensures number { result ≡ answered_number self.now hop e2e }
        ensures rise { Rises self.now }
    {
        match self.numbers.with_ids(hop, e2e) {
            Some(number) => Some(number),
            None => self.numbers.with_hop(hop),
        }
    }

    /// The number of the first DWR.
    pub(super) fn watchdog(&self) -> Option<u64>
        ensures number { result ≡ first_number is_dwr self.now }
        ensures rise { Rises self.now }
    {
        self.numbers.watchdog()
    }

    /// Adds a request with a number above the others. Where memory is refused, the table is empty.
    pub(super) fn insert(&mut self, number: u64, request: Request) -> Result<(), AllocError>
        requires { AreBelow self.old number }
        ensures added { OnOk result (self.new ≡ self.old ++ (number, request) ∷ []) }
        ensures refused { OnErr result (self.new ≡ []) }
    {
        match insert(&mut self.requests, &mut self.numbers, number, request) {
            Ok(()) => Ok(()),
            Err(refused) => {
                self.requests.clear();
                self.numbers.clear();
                Err(refused)
            }
        }
    }

    /// Takes out the request of a number.
    pub(super) fn remove(&mut self, number: u64)
        ensures { self.new ≡ without_number self.old number }
    {
        if let Some(request) = self.requests.remove(&number) {
            self.numbers.remove(number, &request);
        }
    }

    /// Takes out the request with the least number.
    pub(super) fn take_first(&mut self) -> Option<Request>
        ensures first { result ≡ option_map (λ e. e.1) (slice_get self.old 0) }
        ensures others { self.new ≡ drop 1 self.old }
    {
        match self.requests.pop_first() {
            Some((number, request)) => {
                self.numbers.remove(number, &request);
                Some(request)
            }
            None => None,
        }
    }

    /// Copies of the requests, by their numbers.
    pub(super) fn requests(&self, alloc: Global) -> Result<Vec<Request>, AllocError>
        ensures { IfOk result (λ all. all.items ≡ values_of self.now) }
    {
        let mut all = Vec::new(alloc);
        for request in self.requests.values() {
            let copy = request.copied(alloc)?;
            all.push(copy)?;
        }
        Ok(all)
    }
}

fn insert(
    requests: &mut BTreeMap<u64, Request>,
    numbers: &mut Numbers,
    number: u64,
    request: Request,
) -> Result<(), AllocError>
    requires listed { AreListed numbers.old requests.old.entries }
    requires above { AreBelow requests.old.entries number }
    ensures entries { OnOk result (requests.new.entries ≡ requests.old.entries ++ (number, request) ∷ []) }
    ensures listed { OnOk result (AreListed numbers.new requests.new.entries) }
{
    numbers.add(number, &request)?;
    requests.insert(number, request)?;
    Ok(())
}
