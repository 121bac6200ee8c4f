//! The message of a line.
ghost use Rattle.std.specs.Prelude.{◌≡◌, ◌<◌, ◌++◌, IfOk, IfSome, None, OnOk, length, reverse, slice_get};
ghost use Rattle.dia_book.specs.Dictionary.{definitions};
ghost use Rattle.dia_valid.specs.Rules.{rules_in};
ghost use Rattle.dia_breaking_levels.specs.Chosen.{IsLineLevel, least_parts, parts_with};
ghost use Rattle.dia_breaking.specs.Lengths.{others_in};
ghost use Rattle.dia_breaking.specs.Messages.{AreParts, IsAlone, IsInnermost, IsLineMessage, IsMessageFor, IsShowingLevel};
ghost use Rattle.dia_breaking.specs.Messages.{command_head, group_head, level_round, levels_on, parts_round, reads_in};
ghost use Rattle.dia_breaking.specs.Nested.{fronts, group_front, group_rest, rests, site_front, site_rest};
ghost use Rattle.dia_breaking.specs.Upgrades.{sides_of, stock_of};

use crate::heads::{Head, head_of};
use crate::line::{Breaks, Cause, Line, Place, Site};
use crate::message_headers::push_header;
use crate::parts::{front_parts, rest_parts};
use crate::shown::ShownAvp;
use crate::upgrade::Upgrade;
use crate::words::{is_command, site_at};
use dia_book::{Book, DefId, Key};
use dia_breaking_levels::{Line as LevelLine, Part, level_least, level_with, line_level};
use dia_breaking_shortest::{push_head, shortest_head};
use std::alloc::{AllocError, Global};

impl<'a, A: Book, B: Book> Upgrade<'a, A, B> {
    /// The message of a line of a command, or of one of its meanings: the levels around the line, from the command inwards, with
    /// least AVPs next to them. There is one such message, and one choice of what it is made of (`line_messages_are_one`). It
    /// isn't proved that none that breaks so is shorter, nor that a meaning's breaks nothing. Where A has no such command, there
    /// are no bytes. The only error is an allocation failure.
    pub fn message(
        &self,
        alloc: Global,
        breaks: &Breaks,
        line: &Line,
    ) -> Result<Vec<u8>, AllocError>
        ensures { IfOk result (λ bytes. IsLineMessage (sides_of self.now) (stock_of self.now)
            breaks.now.command breaks.now.sites.items line.now bytes.items) }
    {
        match command_head(self.lengths.book, breaks.command) {
            Some(head) => self.message_for(alloc, breaks, line, &head),
            None => Ok(Vec::new(alloc)),
        }
    }

    /// The message of a command with this head.
    fn message_for(
        &self,
        alloc: Global,
        breaks: &Breaks,
        line: &Line,
        head: &Head,
    ) -> Result<Vec<u8>, AllocError>
        requires { breaks.now.command < length (definitions (sides_of self.now).sender) }
        ensures { IfOk result (λ bytes. IsMessageFor (sides_of self.now) (stock_of self.now)
            breaks.now.command breaks.now.sites.items line.now head.now bytes.items) }
    {
        let path = breaks.path(alloc, line.site)?;
        let inner = self.innermost(alloc, breaks, line)?;
        let (sites, level) = (path.as_slice(), inner.as_slice());
        let mut out = Vec::new(alloc);
        push_header(&mut out, head, line, first_of(sites))?;
        self.push_levels(alloc, &mut out, breaks.command, line.length, sites, level)?;
        Ok(out)
    }

    /// Adds the levels of the path, each in a group of the one before; the last one has these bytes.
    fn push_levels(
        &self,
        alloc: Global,
        out: &mut Vec<u8>,
        command: DefId,
        size: u64,
        path: &[Site],
        inner: &[u8],
    ) -> Result<(), AllocError>
        requires { command < length (definitions (sides_of self.now).sender) }
        ensures { OnOk result (out.new.items ≡ out.old.items
            ++ levels_on (sides_of self.now) (stock_of self.now) command size path.now inner.now) }
    {
        let mut following = Vec::new(alloc);
        self.push_fronts(alloc, out, &mut following, command, size, path)?;
        out.extend_from_slice(inner)?;
        following.reverse();
        self.push_parts(out, following.as_slice())?;
        Ok(())
    }

    /// Adds what precedes each group of the path, and its head. What follows is returned, the last part first.
    fn push_fronts(
        &self,
        alloc: Global,
        out: &mut Vec<u8>,
        following: &mut Vec<Part>,
        command: DefId,
        size: u64,
        path: &[Site],
    ) -> Result<(), AllocError>
        requires { command < length (definitions (sides_of self.now).sender) }
        ensures fronts { OnOk result (out.new.items ≡ out.old.items
            ++ fronts (sides_of self.now) (stock_of self.now) command size None path.now) }
        ensures rests { OnOk result (reverse following.new.items
            ≡ rests (sides_of self.now) (stock_of self.now) command None path.now ++ reverse following.old.items) }
    {
        let mut outer = None;
        for site in path {
            self.push_front(alloc, out, following, command, size, outer, *site)?;
            outer = Some(*site);
        }
        Ok(())
    }

    /// Adds what precedes the group of a site in the outer level, and its head.
    fn push_front(
        &self,
        alloc: Global,
        out: &mut Vec<u8>,
        following: &mut Vec<Part>,
        command: DefId,
        size: u64,
        outer: Option<Site>,
        site: Site,
    ) -> Result<(), AllocError>
        requires { command < length (definitions (sides_of self.now).sender) }
        ensures front { OnOk result (out.new.items ≡ out.old.items
            ++ site_front (sides_of self.now) (stock_of self.now) command size outer site) }
        ensures rest { OnOk result (reverse following.new.items
            ≡ site_rest (sides_of self.now) (stock_of self.now) command outer site ++ reverse following.old.items) }
    {
        let Some(outer) = outer else {
            return Ok(());
        };
        match site.place {
            Place::Command { .. } => Ok(()),
            Place::Group { key, .. } => {
                self.push_group(alloc, out, following, command, size, outer.place, site, key)
            }
        }
    }

    fn push_group(
        &self,
        alloc: Global,
        out: &mut Vec<u8>,
        following: &mut Vec<Part>,
        command: DefId,
        size: u64,
        outer: Place,
        site: Site,
        key: Key,
    ) -> Result<(), AllocError>
        requires { command < length (definitions (sides_of self.now).sender) }
        ensures front { OnOk result (out.new.items ≡ out.old.items
            ++ group_front (sides_of self.now) (stock_of self.now) command size outer site key) }
        ensures rest { OnOk result (reverse following.new.items
            ≡ group_rest (sides_of self.now) (stock_of self.now) command outer key ++ reverse following.old.items) }
    {
        let parts = self.parts_round(alloc, command, outer, key)?;
        self.push_parts(out, front_parts(&parts, key))?;
        self.push_group_head(out, size, site, key)?;
        let mut rest = rest_parts(alloc, &parts, key)?;
        rest.reverse();
        following.extend_from_slice(rest.as_slice())?;
        Ok(())
    }

    /// Adds the head of the group whose data the level at a site is. M is as both rules want it, where they can be met together.
    fn push_group_head(
        &self,
        out: &mut Vec<u8>,
        size: u64,
        site: Site,
        key: Key,
    ) -> Result<(), AllocError>
        ensures { OnOk result (out.new.items ≡ out.old.items ++ group_head (sides_of self.now) size site key) }
    {
        let length = size
            .saturating_sub(site.way)
            .saturating_add(shortest_head(key));
        push_head(out, key, self.wants_m(key), length)
    }

    /// The shortest level at a place that has an AVP of the key.
    fn parts_round(
        &self,
        alloc: Global,
        command: DefId,
        place: Place,
        key: Key,
    ) -> Result<Vec<Part>, AllocError>
        requires { command < length (definitions (sides_of self.now).sender) }
        ensures { IfOk result (λ parts. parts.items
            ≡ parts_round (sides_of self.now) (stock_of self.now) command place key) }
    {
        match self.sent_definition(command, place) {
            Some(def) => self.parts_with(alloc, def, key),
            None => Ok(Vec::new(alloc)),
        }
    }

    /// The shortest level of a definition of A that has an AVP of the key.
    fn parts_with(&self, alloc: Global, def: DefId, key: Key) -> Result<Vec<Part>, AllocError>
        requires { def < length (definitions (sides_of self.now).sender) }
        ensures { IfOk result (λ parts. parts.items ≡ parts_with
            (others_in (stock_of self.now).costs (rules_in (sides_of self.now).sender def)) (rules_in (sides_of self.now).sender def) key) }
    {
        let level = self.lengths.of_level(def);
        level_with(alloc, self.lengths.book, def, &level, key)
    }

    /// The level of the line.
    fn innermost(&self, alloc: Global, breaks: &Breaks, line: &Line) -> Result<Vec<u8>, AllocError>
        requires { breaks.now.command < length (definitions (sides_of self.now).sender) }
        ensures { IfOk result (λ inner. IsInnermost (sides_of self.now) (stock_of self.now)
            breaks.now.command line.now.cause (slice_get breaks.now.sites.items line.now.site) inner.items) }
    {
        match site_at(&breaks.sites, line.site) {
            Some(site) => self.showing_level(alloc, breaks.command, &line.cause, site.place),
            None => Ok(Vec::new(alloc)),
        }
    }

    /// A level at a place that shows a line.
    fn showing_level(
        &self,
        alloc: Global,
        command: DefId,
        cause: &Cause,
        place: Place,
    ) -> Result<Vec<u8>, AllocError>
        requires { command < length (definitions (sides_of self.now).sender) }
        ensures { IfOk result (λ bytes. IsShowingLevel (sides_of self.now) (stock_of self.now)
            command cause.now place bytes.items) }
    {
        let found = self.shown_avp(alloc, cause)?;
        match found {
            Some(shown) => self.level_round(alloc, command, place, &shown),
            None => self.level_alone(alloc, command, cause, place),
        }
    }

    /// The shortest level at a place with the AVP of a line.
    fn level_round(
        &self,
        alloc: Global,
        command: DefId,
        place: Place,
        shown: &ShownAvp,
    ) -> Result<Vec<u8>, AllocError>
        requires { command < length (definitions (sides_of self.now).sender) }
        ensures { IfOk result (λ bytes. bytes.items ≡ level_round (sides_of self.now) (stock_of self.now)
            command place shown.now.key shown.now.bytes.items) }
    {
        let parts = self.parts_round(alloc, command, place, shown.key)?;
        let mut out = Vec::new(alloc);
        self.push_parts(&mut out, front_parts(&parts, shown.key))?;
        out.extend_from_slice(&shown.bytes)?;
        let rest = rest_parts(alloc, &parts, shown.key)?;
        self.push_parts(&mut out, &rest)?;
        Ok(out)
    }

    /// A level at a place that shows a line by itself.
    fn level_alone(
        &self,
        alloc: Global,
        command: DefId,
        cause: &Cause,
        place: Place,
    ) -> Result<Vec<u8>, AllocError>
        requires { command < length (definitions (sides_of self.now).sender) }
        ensures { IfOk result (λ bytes. IsAlone (sides_of self.now) (stock_of self.now)
            command place cause.now bytes.items) }
    {
        let Some(def) = self.sent_definition(command, place) else {
            return Ok(Vec::new(alloc));
        };
        let parts = self.parts_alone(alloc, command, cause, place, def)?;
        let mut out = Vec::new(alloc);
        self.push_parts(&mut out, parts.as_slice())?;
        Ok(out)
    }

    /// Its AVPs, by this definition of A.
    fn parts_alone(
        &self,
        alloc: Global,
        command: DefId,
        cause: &Cause,
        place: Place,
        def: DefId,
    ) -> Result<Vec<Part>, AllocError>
        requires command { command < length (definitions (sides_of self.now).sender) }
        requires definition { def < length (definitions (sides_of self.now).sender) }
        ensures { IfOk result (λ parts. AreParts (sides_of self.now) (stock_of self.now)
            command place def cause.now parts.items) }
    {
        let Cause::Level(line) = cause else {
            return self.least_parts(alloc, def);
        };
        match self.accepted_definition(command, place) {
            Some(other) => self.line_parts(alloc, def, other, line),
            None => self.least_parts(alloc, def),
        }
    }

    /// The least level of a definition of A.
    fn least_parts(&self, alloc: Global, def: DefId) -> Result<Vec<Part>, AllocError>
        requires { def < length (definitions (sides_of self.now).sender) }
        ensures { IfOk result (λ parts. parts.items ≡ least_parts
            (others_in (stock_of self.now).costs (rules_in (sides_of self.now).sender def)) (rules_in (sides_of self.now).sender def)) }
    {
        let level = self.lengths.of_level(def);
        level_least(alloc, self.lengths.book, def, &level)
    }

    /// A level of a definition of A that shows by itself what a line reports, where B reads it by another.
    fn line_parts(
        &self,
        alloc: Global,
        def: DefId,
        other: DefId,
        line: &LevelLine,
    ) -> Result<Vec<Part>, AllocError>
        requires first { def < length (definitions (sides_of self.now).sender) }
        requires second { other < length (definitions (sides_of self.now).receiver) }
        ensures { IfOk result (λ parts. IsLineLevel (reads_in (stock_of self.now).costs
            (rules_in (sides_of self.now).sender def) (rules_in (sides_of self.now).receiver other)) line.now parts.items) }
    {
        let level = self.lengths.of_level(def);
        let a = self.lengths.book;
        line_level(alloc, a, def, self.b, other, &level, line)
    }
}

/// The head of a command of the dictionary, if the number is that of one.
fn command_head<B: Book>(book: &B, number: DefId) -> Option<Head>
    ensures within { IfSome result (λ head. number < length (definitions (B.meaning book.now))) }
    ensures head { result ≡ command_head (B.meaning book.now) number }
{
    if is_command(book, number) {
        head_of(book, number)
    } else {
        None
    }
}

fn first_of(path: &[Site]) -> Option<Site>
    ensures { result ≡ slice_get path.now 0 }
{
    path.first().copied()
}
