//! The applications that a message names.

ghost use Rattle.std.specs.Prelude.{◌≡◌, ◌++◌, ◌⊎◌, ◌↔◌, [], map, IsTrue, IfOk, OnOk};
ghost use Rattle.std.specs.Option.{option_map};
ghost use Rattle.dia_peer.specs.Core.{Pair, pair, pairs_of, is_relay, all_of, are_in_order};
ghost use Rattle.dia_peer.specs.Incoming.{Has, pairs_named, plain_pairs};

use crate::codes::{APP_LIMIT, RELAY};
use crate::config::Kind;
use std::alloc::{AllocError, Global};
use std::collections::BTreeSet;

/// The numbers of the applications of each kind.
#[derive(Drop)]
pub(crate) struct NamedApps {
    auth: BTreeSet<u32>,
    acct: BTreeSet<u32>,
}

impl NamedApps {
    pub(crate) fn new(alloc: Global) -> NamedApps
        ensures { (result.auth.keys ≡ []) × (result.acct.keys ≡ []) }
    {
        NamedApps {
            auth: BTreeSet::new(alloc),
            acct: BTreeSet::new(alloc),
        }
    }

    pub(crate) fn insert(&mut self, kind: Kind, id: u32) -> Result<(), AllocError>
        ensures { OnOk result ((p : Pair)
            → Has self.new p ↔ (Has self.old p ⊎ (pair kind id ≡ p))) }
    {
        match kind {
            Kind::Auth => {
                self.auth.insert(id)?;
                Ok(())
            }
            Kind::Acct => {
                self.acct.insert(id)?;
                Ok(())
            }
        }
    }

    /// Whether one of them is that of relays.
    pub(crate) fn has_relay(&self) -> bool
        ensures { result ≡ is_relay (pairs_named self.now) }
    {
        self.contains(Kind::Auth, RELAY) || self.contains(Kind::Acct, RELAY)
    }

    /// All of them, Auth first and then by number. None: more than an end may hold.
    pub(crate) fn all_of(&self, alloc: Global) -> Result<Option<Vec<(Kind, u32)>>, AllocError>
        ensures { IfOk result (λ found. option_map plain_pairs found ≡ all_of (pairs_named self.now)) }
    {
        if self.auth.len() > APP_LIMIT || self.acct.len() > APP_LIMIT - self.auth.len() {
            return Ok(None);
        }
        let mut pairs = Vec::new(alloc);
        push_all(&mut pairs, Kind::Auth, &self.auth)?;
        push_all(&mut pairs, Kind::Acct, &self.acct)?;
        Ok(Some(pairs))
    }

    /// The numbers of a tree rise.
    pub(crate) fn know_their_order(&self)
        ensures { IsTrue (are_in_order (pairs_named self.now)) }
    {
        let _ = self.auth.len();
        let _ = self.acct.len();
    }

    pub(crate) fn contains(&self, kind: Kind, id: u32) -> bool
        ensures { IsTrue result ↔ Has self.now (pair kind id) }
    {
        match kind {
            Kind::Auth => self.auth.contains(&id),
            Kind::Acct => self.acct.contains(&id),
        }
    }
}

/// Appends the applications of a kind.
fn push_all(pairs: &mut Vec<(Kind, u32)>, kind: Kind, ids: &BTreeSet<u32>) -> Result<(), AllocError>
    ensures { OnOk result (pairs_of pairs.new.items
        ≡ pairs_of pairs.old.items ++ map (λ id. pair kind id) ids.now.keys) }
{
    for id in ids {
        pairs.push((kind, *id))?;
    }
    Ok(())
}
