//! The requests of an end that have no answer yet.

mod numbers;
mod table;

ghost use Rattle.std.specs.Prelude.{◌≡◌, ◌<◌, ◌-◌, ◌^◌, ℕ, IfOk, OnErr, OnOk, length};
ghost use Rattle.std.specs.Map.{values_of};
ghost use Rattle.dia_follow.specs.Numbered.{AreBelow};

use crate::codes::MOST_WAITING;
use crate::request::Request;
use std::alloc::{AllocError, Global};
use std::marker::Model;
use table::Table;

/// The requests of an end without answers, in order.
///
/// Each has a number above those of the requests before it, by which it is found: adding, finding and removing one takes the
/// time of a search in a tree. After a call that was refused memory requests are lost.
#[derive(Drop)]
pub(crate) struct Waiting {
    table: Table,
    /// The number of the next request.
    next: u64,
}

impl Model for Waiting {
    ghost use Rattle.std.specs.Prelude.{List};
    ghost use Rattle.std.specs.Map.{values_of};
    ghost use Rattle.dia_follow.specs.Numbered.{AreBelow};
    ghost use Rattle.dia_follow.specs.declared.request.Request.{Request};

    ghost Value = { List Request };

    ghost view = { λ w. values_of w.table };

    ghost invariant = { λ w. AreBelow w.table w.next };
}

impl Waiting {
    ghost use Rattle.std.specs.Prelude.{◌≡◌, ◌++◌, ◌∷◌, [], IfOk, OnOk, drop, is_some};
    ghost use Rattle.std.specs.Option.{option_copied};
    ghost use Rattle.dia_follow.specs.Places.{at_place, without_place};
    ghost use Rattle.dia_follow.specs.Waits.{answered_place, dwr_line, is_full, since};

    pub(crate) fn new(alloc: Global) -> Waiting
        ensures { result ≡ [] }
    {
        Waiting {
            table: Table::new(alloc),
            next: 0,
        }
    }

    /// Whether one more is too many.
    pub(crate) fn is_full(&self) -> bool
        ensures { result ≡ is_full self.now }
    {
        self.table.len() >= MOST_WAITING
    }

    /// Adds a request at the end.
    pub(crate) fn add(&mut self, alloc: Global, request: Request) -> Result<(), AllocError>
        ensures { OnOk result (self.new ≡ self.old ++ request ∷ []) }
    {
        let number = free_number(alloc, &mut self.table, self.next)?;
        self.table.insert(number, request)?;
        self.next = number + 1;
        Ok(())
    }

    /// Forgets the oldest.
    pub(crate) fn forget(&mut self)
        ensures { self.new ≡ drop 1 self.old }
    {
        self.table.take_first();
    }

    /// The request that an answer with these identifiers answers: the first with both, else the first with the Hop-by-Hop
    /// Identifier.
    pub(crate) fn answered(&self, hop: u32, e2e: u32) -> Option<&Request>
        ensures request { option_copied result ≡ at_place self.entry.now (answered_place self.entry.now hop e2e) }
        ensures known { is_some result ≡ is_some (answered_place self.entry.now hop e2e) }
    {
        match self.table.answered(hop, e2e) {
            Some(number) => self.table.get(number),
            None => None,
        }
    }

    /// The request that an answer with these identifiers answers waits no more.
    pub(crate) fn remove_answered(&mut self, hop: u32, e2e: u32)
        ensures { self.new ≡ without_place self.old (answered_place self.old hop e2e) }
    {
        match self.table.answered(hop, e2e) {
            Some(number) => self.table.remove(number),
            None => {}
        }
    }

    /// The line of the first request with a Hop-by-Hop Identifier.
    pub(crate) fn since(&self, hop: u32) -> Option<u64>
        ensures { result ≡ since self.now hop }
    {
        match self.table.with_hop(hop) {
            Some(number) => self.table.line(number),
            None => None,
        }
    }

    /// The line of the first DWR.
    pub(crate) fn dwr_line(&self) -> Option<u64>
        ensures { result ≡ dwr_line self.now }
    {
        match self.table.watchdog() {
            Some(number) => self.table.line(number),
            None => None,
        }
    }

    /// The requests, in order.
    pub(crate) fn all(&self, alloc: Global) -> Result<Vec<Request>, AllocError>
        ensures { IfOk result (λ all. all.items ≡ self.now) }
    {
        self.table.requests(alloc)
    }
}

/// A number above those of the requests in a table. Where there is none, the requests are numbered anew.
fn free_number(alloc: Global, table: &mut Table, next: u64) -> Result<u64, AllocError>
    requires { AreBelow table.old next }
    ensures small { IfOk result (λ number. number < 2 ^ 64 - 1) }
    ensures above { IfOk result (AreBelow table.new) }
    ensures same { OnOk result (values_of table.new ≡ values_of table.old) }
    ensures refused { OnErr result (AreBelow table.new next) }
{
    if next < u64::MAX {
        return Ok(next);
    }
    let renumbered = renumber(alloc, table)?;
    let next = renumbered.len() as u64;
    *table = renumbered;
    Ok(next)
}

/// Takes the requests out of a table, and gives them numbers from 0.
fn renumber(alloc: Global, table: &mut Table) -> Result<Table, AllocError>
    ensures same { IfOk result (λ renumbered. values_of renumbered ≡ values_of table.old) }
    ensures above { IfOk result (λ renumbered. AreBelow renumbered (length renumbered)) }
    ensures left { OnErr result ((n : ℕ) → AreBelow table.old n → AreBelow table.new n) }
{
    let mut renumbered = Table::new(alloc);
    while let Some(request) = table.take_first() {
        let number = renumbered.len() as u64;
        renumbered.insert(number, request)?;
    }
    Ok(renumbered)
}
