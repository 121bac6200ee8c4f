//! The numbers of requests, by their identifiers.

use crate::codes::DEVICE_WATCHDOG;
use crate::request::Request;
use std::alloc::{AllocError, Global};
use std::collections::BTreeSet;

/// The numbers of requests, by their identifiers.
#[derive(Drop)]
pub(crate) struct Numbers {
    /// Hop-by-Hop Identifier and number.
    by_hop: BTreeSet<(u32, u64)>,
    /// Hop-by-Hop Identifier, End-to-End Identifier and number.
    by_ids: BTreeSet<(u32, u32, u64)>,
    /// The numbers of the DWRs.
    watchdogs: BTreeSet<u64>,
}

impl Numbers {
    ghost use Rattle.std.specs.Prelude.{◌≡◌, ℕ, ◌++◌, ◌∷◌, [], List, OnOk, Some};
    ghost use Rattle.dia_follow.specs.Numbered.{AreBelow, AreListed, first_number, numbered, without_number};
    ghost use Rattle.dia_follow.specs.Waits.{has_hop, has_ids, is_dwr};
    ghost use Rattle.dia_follow.specs.declared.request.Request.{Request as AnyRequest};

    pub(super) fn new(alloc: Global) -> Numbers
        ensures { AreListed result [] }
    {
        Numbers {
            by_hop: BTreeSet::new(alloc),
            by_ids: BTreeSet::new(alloc),
            watchdogs: BTreeSet::new(alloc),
        }
    }

    /// The number of the first request with a Hop-by-Hop Identifier.
    pub(super) fn with_hop(&self, hop: u32) -> Option<u64>
        ensures { (es : List (ℕ × AnyRequest)) → AreListed self.now es
            → result ≡ first_number (has_hop hop) es }
    {
        match self.by_hop.range((hop, 0)..=(hop, u64::MAX)).next() {
            Some(found) => Some(found.1),
            None => None,
        }
    }

    /// The number of the first request with both identifiers.
    pub(super) fn with_ids(&self, hop: u32, e2e: u32) -> Option<u64>
        ensures { (es : List (ℕ × AnyRequest)) → AreListed self.now es
            → result ≡ first_number (has_ids hop e2e) es }
    {
        let mut with_ids = self.by_ids.range((hop, e2e, 0)..=(hop, e2e, u64::MAX));
        match with_ids.next() {
            Some(found) => Some(found.2),
            None => None,
        }
    }

    /// The number of the first DWR.
    pub(super) fn watchdog(&self) -> Option<u64>
        ensures { (es : List (ℕ × AnyRequest)) → AreListed self.now es
            → result ≡ first_number is_dwr es }
    {
        match self.watchdogs.first() {
            Some(number) => Some(*number),
            None => None,
        }
    }

    /// Lists a request. Where memory is refused, a part of its identifiers may be listed.
    pub(super) fn add(&mut self, number: u64, request: &Request) -> Result<(), AllocError>
        ensures { OnOk result ((es : List (ℕ × AnyRequest)) → AreListed self.old es → AreBelow es number
            → AreListed self.new (es ++ (number, request.now) ∷ [])) }
    {
        self.by_hop.insert((request.hop, number))?;
        self.by_ids.insert((request.hop, request.e2e, number))?;
        if request.code == DEVICE_WATCHDOG {
            self.watchdogs.insert(number)?;
        }
        Ok(())
    }

    /// A request isn't listed any more.
    pub(super) fn remove(&mut self, number: u64, request: &Request)
        ensures { (es : List (ℕ × AnyRequest)) → AreListed self.old es → numbered es number ≡ Some request.now
            → AreListed self.new (without_number es number) }
    {
        self.by_hop.remove(&(request.hop, number));
        self.by_ids.remove(&(request.hop, request.e2e, number));
        if request.code == DEVICE_WATCHDOG {
            self.watchdogs.remove(&number);
        }
    }

    pub(super) fn clear(&mut self)
        ensures { AreListed self.new [] }
    {
        self.by_hop.clear();
        self.by_ids.clear();
        self.watchdogs.clear();
    }
}
