//! A command, with the definitions that its messages reach.
ghost use Rattle.std.specs.Prelude.{◌<◌, length};
ghost use Rattle.dia_book.specs.Dictionary.{definitions};

use crate::MAX_MESSAGE;
use crate::change::{Change, Part};
use crate::data::Context;
use crate::heads::Head;
use crate::levels::{Run, runs_of};
use crate::lookup::{command_at, group_of};
use crate::stock::Stock;
use dia_book::{Book, DRule, DefId, Definition, Key, RuleKind};
use dia_breaking_shortest::shortest_head;
use dia_wire::HEADER_LENGTH;
use indexmap::IndexMap;
use std::alloc::{AllocError, Global};
use thiserror::Error;

/// How the level of a definition is reached: by an AVP for a rule of another one.
#[derive(Clone, Copy)]
pub(crate) struct Way {
    /// The other definition, by its place among those reached.
    pub from: usize,
    pub rule: usize,
    pub key: Key,
}

/// A definition that is reached.
#[derive(Drop)]
pub(crate) struct Reached<'a> {
    pub definition: &'a Definition,
    /// None for the command's own definition.
    pub way: Option<Way>,
    /// The AVPs of its plain level.
    pub runs: Vec<Run>,
    /// The key that counts for its wildcard.
    pub filler: Option<Key>,
    /// The first known key that it doesn't list, if there is any.
    pub stranger: Option<Key>,
    /// The bytes of the message around such a level.
    pub around: u64,
}

/// The rule of a command's messages that shows what an AVP is made of.
#[derive(Clone, Copy, PartialEq, Eq)]
pub(crate) struct Site {
    pub place: usize,
    pub rule: usize,
}

/// The definitions that the messages of a command reach, its own first.
#[derive(Drop)]
struct Found<'a> {
    reached: Vec<Reached<'a>>,
    /// For each entry the first rule that names it and lets AVPs in.
    sites: IndexMap<usize, Site>,
}

/// A command with the definitions that its messages reach.
#[derive(Drop)]
pub struct Plan<'s, 'a, B: Book> {
    pub(crate) stock: &'s Stock<'a, B>,
    pub(crate) command: DefId,
    pub(crate) head: Head,
    pub(crate) reached: Vec<Reached<'a>>,
    sites: IndexMap<usize, Site>,
    pub(crate) ghost own: { command < length (definitions (B.meaning stock.now.book.now)) },
}

/// Why a command has no vectors.
#[derive(Debug, Clone, Copy, PartialEq, Eq, Error)]
pub enum NoVectors {
    /// It has no valid message.
    #[error("no message is valid")]
    NoMessage,
    /// Its plain message has more than `MAX_MESSAGE` bytes.
    #[error("the plain message is too long")]
    TooLong,
}

impl<'a> Found<'a> {
    /// What the command reaches.
    fn new<B: Book>(alloc: Global, stock: &Stock<'a, B>, command: DefId) -> Result<Self, AllocError>
        requires { command < length (definitions (B.meaning stock.now.book.now)) }
    {
        let mut found = Found {
            reached: Vec::new(alloc),
            sites: IndexMap::new(alloc),
        };
        found.reach(alloc, stock, command, None, HEADER_LENGTH as u64)?;
        for place in 0..=stock.book.entries() {
            found.follow(alloc, stock, place)?;
        }
        Ok(found)
    }

    /// Adds a definition.
    fn reach<B: Book>(
        &mut self,
        alloc: Global,
        stock: &Stock<'a, B>,
        def: DefId,
        way: Option<Way>,
        around: u64,
    ) -> Result<(), AllocError>
        requires { def < length (definitions (B.meaning stock.now.book.now)) }
    {
        let definition = stock.book.def(def);
        let filler = stock.filler(def);
        let runs = runs_of(alloc, &definition.rules, filler)?;
        let stranger = stock.stranger(def);
        self.reached.push(Reached {
            definition,
            way,
            runs,
            filler,
            stranger,
            around,
        })?;
        Ok(())
    }

    /// Reaches the groups of the rules of the definition at a place, if there is one.
    fn follow<B: Book>(
        &mut self,
        alloc: Global,
        stock: &Stock<'a, B>,
        place: usize,
    ) -> Result<(), AllocError> {
        let Some(reached) = self.reached.get(place) else {
            return Ok(());
        };
        let definition = reached.definition;
        for rule in 0..definition.rules.len() {
            self.follow_rule(alloc, stock, place, rule, &definition.rules[rule])?;
        }
        Ok(())
    }

    /// Records the site of a rule's key, if it is the first for it, and reaches its group.
    fn follow_rule<B: Book>(
        &mut self,
        alloc: Global,
        stock: &Stock<'a, B>,
        place: usize,
        rule: usize,
        at: &DRule,
    ) -> Result<(), AllocError> {
        let Some(key) = at.key else {
            return Ok(());
        };
        if at.max == Some(0) || !stock.has_avp(key) {
            return Ok(());
        }
        let Some(entry) = stock.book.avp(key) else {
            return Ok(());
        };
        if self.sites.contains_key(&entry.index()) {
            return Ok(());
        }
        self.sites.insert(entry.index(), Site { place, rule })?;
        match group_of(stock.book, entry) {
            Some(def) => {
                let way = Way {
                    from: place,
                    rule,
                    key,
                };
                let around = self.around(stock, way);
                self.reach(alloc, stock, def, Some(way), around)
            }
            None => Ok(()),
        }
    }

    /// The bytes of the message around a level that is reached so.
    fn around<B: Book>(&self, stock: &Stock<'a, B>, way: Way) -> u64 {
        let mut sum = shortest_head(way.key);
        if let Some(from) = self.reached.get(way.from) {
            sum = sum.saturating_add(from.around);
            for run in &from.runs {
                let count = if run.rule == way.rule {
                    run.count.saturating_sub(1)
                } else {
                    run.count
                };
                sum = sum.saturating_add(count.saturating_mul(stock.length(run.key)));
            }
        }
        sum
    }
}

impl<'s, 'a, B: Book> Plan<'s, 'a, B> {
    /// The plan of the command at a place of the dictionary's commands, if there is one. The error comes only where memory was
    /// refused.
    pub fn at(
        alloc: Global,
        stock: &'s Stock<'a, B>,
        place: usize,
    ) -> Result<Option<Self>, AllocError> {
        if place < stock.book.commands() {
            let plan = Plan::new(alloc, stock, place)?;
            Ok(Some(plan))
        } else {
            Ok(None)
        }
    }

    fn new(alloc: Global, stock: &'s Stock<'a, B>, place: usize) -> Result<Self, AllocError>
        requires { place < length (B.meaning stock.now.book.now).commands }
    {
        let command = command_at(stock.book, place);
        let head = Head::of(stock.book, stock.book.def(command).head);
        let Found { reached, sites } = Found::new(alloc, stock, command)?;
        Ok(Plan {
            stock,
            command,
            head,
            reached,
            sites,
        })
    }

    /// Whether the command has vectors.
    pub fn vectors(&self) -> Result<(), NoVectors> {
        let Some(own) = self.reached.first() else {
            return Err(NoVectors::NoMessage);
        };
        for rule in &own.definition.rules {
            if rule.min > 0 && own.key_of(self.stock, rule).is_none() {
                return Err(NoVectors::NoMessage);
            }
        }
        if own
            .around
            .saturating_add(self.stock.level_length(&own.runs))
            > MAX_MESSAGE
        {
            return Err(NoVectors::TooLong);
        }
        Ok(())
    }

    /// How many definitions are reached.
    pub fn levels(&self) -> usize {
        self.reached.len()
    }

    /// The command's name.
    pub fn name(&self) -> &str {
        self.stock.book.def(self.command).name.as_str()
    }

    /// What is done to the whole message, in order.
    pub fn heads(&self, alloc: Global, part: Part) -> Result<Vec<Change>, AllocError> {
        let mut changes = Vec::new(alloc);
        let heads = match part {
            Part::Valid => {
                changes.push(Change::Shortest)?;
                self.head.valid_changes(alloc)?
            }
            Part::Faulty => self.head.faulty_changes(alloc, self.stock.book)?,
        };
        for change in &heads {
            changes.push(Change::Head(*change))?;
        }
        Ok(changes)
    }

    /// What is done to the level of the definition at a place, in order.
    pub fn level(
        &self,
        alloc: Global,
        part: Part,
        place: usize,
    ) -> Result<Vec<Change>, AllocError> {
        let mut changes = Vec::new(alloc);
        let Some(reached) = self.reached.get(place) else {
            return Ok(changes);
        };
        let levels = match part {
            Part::Valid => self.valid_changes(alloc, place, reached)?,
            Part::Faulty => self.faulty_changes(alloc, place, reached)?,
        };
        for change in &levels {
            changes.push(Change::Level {
                place,
                change: *change,
            })?;
        }
        Ok(changes)
    }

    /// What the data of AVPs depend on.
    pub(crate) fn context(&self) -> Context {
        Context {
            app: self.head.app,
            is_error: self.head.is_error,
        }
    }

    /// Whether the rule is the one at which the data and the M flag of its key are changed.
    pub(crate) fn is_site(&self, place: usize, rule: usize, key: Key) -> bool {
        match self.stock.book.avp(key) {
            Some(entry) => self.sites.get(&entry.index()) == Some(&Site { place, rule }),
            None => false,
        }
    }
}

impl Reached<'_> {
    /// The key of a rule of which there is an AVP, whatever its greatest count.
    pub(crate) fn key_of<B: Book>(&self, stock: &Stock<'_, B>, rule: &DRule) -> Option<Key> {
        let key = rule.key.or(self.filler)?;
        if stock.has_avp(key) { Some(key) } else { None }
    }

    /// The key of a rule that can stand.
    pub(crate) fn standing<B: Book>(&self, stock: &Stock<'_, B>, rule: &DRule) -> Option<Key> {
        if rule.max == Some(0) {
            None
        } else {
            self.key_of(stock, rule)
        }
    }

    /// Whether there is a wildcard.
    pub(crate) fn has_wildcard(&self) -> bool {
        self.definition.rules.iter().any(|rule| rule.key.is_none())
    }
}

/// How often a rule's AVP occurs where it occurs: its least count, or once.
pub(crate) fn some_of(rule: &DRule) -> u64 {
    u64::from(rule.min.max(1))
}

/// Whether the rule is fixed (RFC 6733 section 3.2).
pub(crate) fn is_fixed(rule: &DRule) -> bool {
    rule.kind == RuleKind::Fixed
}
