//! Sets of applications, and what two of them have in common.

ghost use Rattle.std.specs.Prelude.{◌≡◌, IfOk, filter};
ghost use Rattle.std.specs.List.{list_any};
ghost use Rattle.dia_follow.specs.Applications.{has};

use crate::codes::RELAY;
use std::alloc::{AllocError, Global};
use std::collections::BTreeSet;
use std::marker::Model;

/// The applications that an end advertises (RFC 6733 section 5.3): the numbers of each kind, each once.
#[derive(Drop)]
pub struct Applications {
    auth: BTreeSet<u32>,
    acct: BTreeSet<u32>,
}

impl Model for Applications {
    ghost use Rattle.dia_follow.specs.Applications.{Apps};

    ghost Value = { Apps };

    ghost view = { λ a. record { auth = a.auth.keys; acct = a.acct.keys } };
}

/// Numbers of applications in a list, in order.
#[derive(Drop)]
pub struct Listed {
    pub auth: Vec<u32>,
    pub acct: Vec<u32>,
}

/// What two ends have in common (RFC 6733 sections 2.4 and 5.3).
#[derive(Drop)]
pub enum Common {
    /// Both ends relay all applications.
    All,
    These(Listed),
}

impl Applications {
    ghost use Rattle.std.specs.Prelude.{◌≡◌, Some, OnOk, IfOk};
    ghost use Rattle.std.specs.List.{fold, list_any};
    ghost use Rattle.dia_follow.specs.Applications.{both, has_number, is_empty, is_relay, no_apps, serves};
    ghost use Rattle.dia_follow.specs.Applications.{shares_kind, shares_number, union, with_acct, with_auth};
    ghost use Rattle.dia_follow.specs.Commons.{common_apps, common_of, has_common};

    /// No application.
    pub fn new(alloc: Global) -> Applications
        ensures { result ≡ no_apps }
    {
        Applications {
            auth: BTreeSet::new(alloc),
            acct: BTreeSet::new(alloc),
        }
    }

    pub(crate) fn insert_auth(&mut self, number: u32) -> Result<(), AllocError>
        ensures { OnOk result (self.new ≡ with_auth self.old number) }
    {
        self.auth.insert(number)?;
        Ok(())
    }

    pub(crate) fn insert_acct(&mut self, number: u32) -> Result<(), AllocError>
        ensures { OnOk result (self.new ≡ with_acct self.old number) }
    {
        self.acct.insert(number)?;
        Ok(())
    }

    /// Adds the applications of another set.
    pub(crate) fn add_all(&mut self, more: &Applications) -> Result<(), AllocError>
        ensures { OnOk result (self.new ≡ union self.old more.now) }
    {
        self.add_auth(more)?;
        self.add_acct(more)
    }

    fn add_auth(&mut self, more: &Applications) -> Result<(), AllocError>
        ensures { OnOk result (self.new ≡ fold with_auth self.old more.now.auth) }
    {
        for number in &more.auth {
            self.insert_auth(*number)?;
        }
        Ok(())
    }

    fn add_acct(&mut self, more: &Applications) -> Result<(), AllocError>
        ensures { OnOk result (self.new ≡ fold with_acct self.old more.now.acct) }
    {
        for number in &more.acct {
            self.insert_acct(*number)?;
        }
        Ok(())
    }

    /// A copy.
    pub(crate) fn copied(&self) -> Result<Applications, AllocError>
        ensures { IfOk result (λ copy. copy ≡ self.now) }
    {
        let auth = self.auth.clone()?;
        let acct = self.acct.clone()?;
        Ok(Applications { auth, acct })
    }

    /// Whether a number is one of these, of either kind.
    pub fn has_number(&self, number: u32) -> bool
        ensures { result ≡ has_number self.now number }
    {
        self.auth.contains(&number) || self.acct.contains(&number)
    }

    /// Whether the number of relays is one of these (RFC 6733 section 2.4).
    pub fn is_relay(&self) -> bool
        ensures { result ≡ is_relay self.now }
    {
        self.has_number(RELAY)
    }

    /// Whether messages of an application are for an end that advertises these.
    pub fn serves(&self, number: u32) -> bool
        ensures { result ≡ serves self.now number }
    {
        self.has_number(number) || self.is_relay()
    }

    /// Whether a number of these is one of those, of whichever kind.
    pub fn shares_number(&self, theirs: &Applications) -> bool
        ensures { result ≡ shares_number self.now theirs.now }
    {
        let auth = theirs.has_one_of(&self.auth);
        let acct = theirs.has_one_of(&self.acct);
        auth || acct
    }

    /// Whether one of these numbers is one of these, of whichever kind.
    fn has_one_of(&self, numbers: &BTreeSet<u32>) -> bool
        ensures { result ≡ list_any (has_number self.now) numbers.now.keys }
    {
        let mut found = false;
        for number in numbers {
            found = found || self.has_number(*number);
        }
        found
    }

    /// What an end that advertises these has in common with an end that advertises those.
    pub fn common(&self, alloc: Global, theirs: &Applications) -> Result<Common, AllocError>
        ensures { IfOk result (λ common. common_of common ≡ common_apps self.now theirs.now) }
    {
        match (self.is_relay(), theirs.is_relay()) {
            (true, true) => Ok(Common::All),
            (true, false) => theirs.listed(alloc),
            (false, true) => self.listed(alloc),
            (false, false) => self.shared(alloc, theirs),
        }
    }

    /// Whether an end that advertises these has anything in common with an end that advertises those.
    pub fn has_common(&self, theirs: &Applications) -> bool
        ensures { result ≡ has_common self.now theirs.now }
    {
        match (self.is_relay(), theirs.is_relay()) {
            (true, true) => true,
            (true, false) => !theirs.is_empty(),
            (false, true) => !self.is_empty(),
            (false, false) => self.shares_kind(theirs),
        }
    }

    /// Whether an application of these is one of those.
    fn shares_kind(&self, theirs: &Applications) -> bool
        ensures { result ≡ shares_kind self.now theirs.now }
    {
        let auth = shares_one(&self.auth, &theirs.auth);
        let acct = shares_one(&self.acct, &theirs.acct);
        auth || acct
    }

    fn is_empty(&self) -> bool
        ensures { result ≡ is_empty self.now }
    {
        self.auth.is_empty() && self.acct.is_empty()
    }

    /// All of these.
    fn listed(&self, alloc: Global) -> Result<Common, AllocError>
        ensures { IfOk result (λ common. common_of common ≡ Some self.now) }
    {
        let auth = numbers(alloc, &self.auth)?;
        let acct = numbers(alloc, &self.acct)?;
        Ok(Common::These(Listed { auth, acct }))
    }

    /// The applications of each kind that are in both sets.
    fn shared(&self, alloc: Global, theirs: &Applications) -> Result<Common, AllocError>
        ensures { IfOk result (λ common. common_of common ≡ Some (both self.now theirs.now)) }
    {
        let auth = numbers_in(alloc, &self.auth, &theirs.auth)?;
        let acct = numbers_in(alloc, &self.acct, &theirs.acct)?;
        Ok(Common::These(Listed { auth, acct }))
    }
}

impl Common {
    ghost use Rattle.std.specs.Prelude.{◌≡◌};
    ghost use Rattle.dia_follow.specs.Commons.{common_of, is_nothing};

    /// Whether there is nothing in common.
    pub fn is_empty(&self) -> bool
        ensures { result ≡ is_nothing (common_of self.now) }
    {
        match self {
            Common::All => false,
            Common::These(listed) => listed.auth.is_empty() && listed.acct.is_empty(),
        }
    }
}

/// Whether a number is in both sets.
fn shares_one(ours: &BTreeSet<u32>, theirs: &BTreeSet<u32>) -> bool
    ensures { result ≡ list_any (has theirs.now.keys) ours.now.keys }
{
    let mut found = false;
    for number in ours {
        found = found || theirs.contains(number);
    }
    found
}

fn numbers(alloc: Global, set: &BTreeSet<u32>) -> Result<Vec<u32>, AllocError>
    ensures { IfOk result (λ numbers. numbers.items ≡ set.now.keys) }
{
    let mut numbers = Vec::new(alloc);
    for number in set {
        numbers.push(*number)?;
    }
    Ok(numbers)
}

/// The numbers of a set that are in another.
fn numbers_in(
    alloc: Global,
    set: &BTreeSet<u32>,
    others: &BTreeSet<u32>,
) -> Result<Vec<u32>, AllocError>
    ensures { IfOk result (λ numbers. numbers.items ≡ filter (has others.now.keys) set.now.keys) }
{
    let mut numbers = Vec::new(alloc);
    for number in set {
        if others.contains(number) {
            numbers.push(*number)?;
        }
    }
    Ok(numbers)
}
