//! The AVP that a line reports.
ghost use Rattle.std.specs.Prelude.{◌≡◌, IfOk, Some};
ghost use Rattle.std.specs.Option.{option_map};
ghost use Rattle.dia_breaking_data.specs.Shortest.{witness_bytes};
ghost use Rattle.dia_breaking_shortest.specs.Bytes.{avp_bytes};
ghost use Rattle.dia_breaking.specs.Messages.{flags_with, is_must, shortest_avp, shown, shown_avp, wants_m, with_m};
ghost use Rattle.dia_breaking.specs.Nested.{plain_shown};
ghost use Rattle.dia_breaking.specs.Upgrades.{sides_of, stock_of};

use crate::books::m_rule_of;
use crate::line::Cause;
use crate::upgrade::Upgrade;
use dia_book::{Book, Key, MRule};
use dia_breaking_data::Witness;
use dia_breaking_shortest::{push_avp, push_least};
use dia_wire::AVP_MANDATORY;
use std::alloc::{AllocError, Global};

/// An AVP, and its key.
#[derive(Drop)]
pub(crate) struct ShownAvp {
    pub key: Key,
    pub bytes: Vec<u8>,
}

impl<'a, A: Book, B: Book> Upgrade<'a, A, B> {
    /// The AVP that breaks by itself, or that is read as another format; none where the level shows the line by itself.
    pub(crate) fn shown_avp(
        &self,
        alloc: Global,
        cause: &Cause,
    ) -> Result<Option<ShownAvp>, AllocError>
        ensures { IfOk result (λ found. option_map plain_shown found
            ≡ shown_avp (sides_of self.now) (stock_of self.now) cause.now) }
    {
        match *cause {
            Cause::Command => Ok(None),
            Cause::Application => Ok(None),
            Cause::Proxiable { .. } => Ok(None),
            Cause::Level(_) => Ok(None),
            Cause::Unknown { key, m } => self.with_m(alloc, key, m),
            Cause::MBit { key, m } => self.with_m(alloc, key, m),
            Cause::Format { key, data: None } => self.shortest(alloc, key),
            Cause::Format {
                key,
                data: Some(found),
            } => self.with_data(alloc, key, &found),
            Cause::LevelAsLeaf { key } => self.shortest(alloc, key),
            Cause::Meaning { key } => self.with_m(alloc, key, self.wants_m(key)),
        }
    }

    /// A least one.
    fn shortest(&self, alloc: Global, key: Key) -> Result<Option<ShownAvp>, AllocError>
        ensures { IfOk result (λ found. option_map plain_shown found
            ≡ Some (shown key (shortest_avp (sides_of self.now) (stock_of self.now) key))) }
    {
        let mut bytes = Vec::new(alloc);
        push_least(&mut bytes, self.lengths.book, &self.lengths.least, key)?;
        Ok(Some(ShownAvp { key, bytes }))
    }

    /// A least one with this M flag.
    fn with_m(&self, alloc: Global, key: Key, m: bool) -> Result<Option<ShownAvp>, AllocError>
        ensures { IfOk result (λ found. option_map plain_shown found
            ≡ Some (shown key (with_m m (shortest_avp (sides_of self.now) (stock_of self.now) key)))) }
    {
        let mut bytes = Vec::new(alloc);
        push_least(&mut bytes, self.lengths.book, &self.lengths.least, key)?;
        set_m(&mut bytes, m);
        Ok(Some(ShownAvp { key, bytes }))
    }

    /// One with these data.
    fn with_data(
        &self,
        alloc: Global,
        key: Key,
        data: &Witness,
    ) -> Result<Option<ShownAvp>, AllocError>
        ensures { IfOk result (λ found. option_map plain_shown found
            ≡ Some (shown key (avp_bytes key (wants_m (sides_of self.now) key) (witness_bytes data.now)))) }
    {
        let mut bytes = Vec::new(alloc);
        push_avp(&mut bytes, key, self.wants_m(key), data.as_slice())?;
        Ok(Some(ShownAvp { key, bytes }))
    }

    /// The M flag that both rules want, where they can be met together.
    pub(crate) fn wants_m(&self, key: Key) -> bool
        ensures { result ≡ wants_m (sides_of self.now) key }
    {
        match m_rule_of(self.lengths.book, key) {
            Some(MRule::Must) => true,
            Some(MRule::MustNot) => false,
            Some(MRule::Any) => is_must(m_rule_of(self.b, key)),
            None => false,
        }
    }
}

fn is_must(rule: Option<MRule>) -> bool
    ensures { result ≡ is_must rule }
{
    match rule {
        Some(MRule::Must) => true,
        Some(MRule::MustNot) => false,
        Some(MRule::Any) => false,
        None => false,
    }
}

/// Sets or clears the M flag of an AVP.
fn set_m(avp: &mut Vec<u8>, m: bool)
    ensures { avp.new.items ≡ with_m m avp.old.items }
{
    if avp.len() > 4 {
        avp[4] = flags_with(avp[4], m);
    }
}

fn flags_with(flags: u8, m: bool) -> u8
    ensures { result ≡ flags_with m flags }
{
    if m {
        flags | AVP_MANDATORY
    } else {
        flags & !AVP_MANDATORY
    }
}
