//! The words of lines about how often AVPs occur in a level, and in which order.
ghost use Rattle.std.specs.Prelude.{◌≡◌, ◌<◌, ◌++◌, ◌&&◌, [], OnOk, IfSome, codes, length, nat_lt};
ghost use Rattle.std.specs.Prelude.{option_and_then};
ghost use Rattle.std.specs.Option.{option_map_or};
ghost use Rattle.dia_book.specs.Dictionary.{definitions, selected};
ghost use Rattle.dia_valid.specs.Rules.{rules_in};
ghost use Rattle.dia_breaking_levels.specs.LevelTests.{too_long};
ghost use Rattle.dia_breaking.specs.Messages.{read_number, sent_number};
ghost use Rattle.dia_breaking.specs.Upgrades.{other_length_of, sides_of};
ghost use Rattle.dia_breaking.specs.Words.{accepted_bounds, accepted_rules, bounds_text, head_at};
ghost use Rattle.dia_breaking.specs.Words.{level_detail, level_text, no_bounds, sent_bounds};
ghost use Rattle.dia_breaking.specs.Words.{Writes, sent_rules, subject_name, wild_bounds};

use crate::books::{command_of, group_of, rule_of, wildcard_of};
use crate::bounds::{Bounds, push_bounds};
use crate::heads::head_of;
use crate::line::{Place, Site};
use crate::upgrade::Upgrade;
use dia_book::{Book, DRule, DefId, Key};
use dia_breaking_levels::{Line as LevelLine, Reason, TOO_LONG};
use std::alloc::AllocError;

impl<'a, A: Book, B: Book> Upgrade<'a, A, B> {
    /// Adds the words of a line about the level at a site, in messages of a command.
    pub(crate) fn push_level(
        &self,
        out: &mut String,
        command: DefId,
        site: Option<Site>,
        line: &LevelLine,
    ) -> Result<(), AllocError>
        requires { command < length (definitions (sides_of self.now).sender) }
        ensures { OnOk result (Writes out.old out.new
            (level_text (sides_of self.now) (other_length_of self.now) command site line.now)) }
    {
        let reason = line.reason;
        let name = self.subject_name(line.key);
        write!(out, "{reason} {name}: ")?;
        match site {
            Some(site) => self.push_level_detail(out, command, line, site.place),
            None => Ok(()),
        }
    }

    fn push_level_detail(
        &self,
        out: &mut String,
        command: DefId,
        line: &LevelLine,
        place: Place,
    ) -> Result<(), AllocError>
        requires { command < length (definitions (sides_of self.now).sender) }
        ensures { OnOk result (Writes out.old out.new
            (level_detail (sides_of self.now) (other_length_of self.now) command line.now place)) }
    {
        let sent = self.sent_bounds(command, place, line.key);
        let accepted = self.accepted_bounds(command, place, line.key);
        match line.reason {
            Reason::Missing | Reason::TooMany => push_both(out, sent, accepted),
            Reason::NotAllowed | Reason::NotAllowedOther => push_sent(out, sent),
            Reason::MissingOthers | Reason::TooManyOthers => push_accepted(out, accepted),
            Reason::Order => self.push_after(out, line.following),
        }
    }

    fn push_after(&self, out: &mut String, following: Option<Key>) -> Result<(), AllocError>
        ensures { OnOk result (Writes out.old out.new
            (codes "behind " ++ subject_name (sides_of self.now) following ++ codes " sent")) }
    {
        let name = self.subject_name(following);
        write!(out, "behind {name} sent")
    }

    /// How often A's definition lets the AVP occur in the level. Without a key, how often it lets the AVPs occur that it doesn't
    /// list.
    pub(crate) fn sent_bounds(&self, command: DefId, place: Place, key: Option<Key>) -> Bounds
        requires { command < length (definitions (sides_of self.now).sender) }
        ensures { result ≡ sent_bounds (sides_of self.now).sends (other_length_of self.now) (sent_rules (sides_of self.now).sender command place) key }
    {
        match self.sent_definition(command, place) {
            Some(def) => self.sent_by(def, key),
            None => Bounds::none(),
        }
    }

    fn sent_by(&self, def: DefId, key: Option<Key>) -> Bounds
        requires { def < length (definitions (sides_of self.now).sender) }
        ensures { result ≡ sent_bounds (sides_of self.now).sends (other_length_of self.now) (rules_in (sides_of self.now).sender def) key }
    {
        let wildcard = wildcard_of(self.lengths.book, def);
        let Some(key) = key else {
            return Bounds::of_rule(wildcard);
        };
        match rule_of(self.lengths.book, def, key) {
            Some(rule) => Bounds::of(rule),
            None => self.sent_by_wildcard(self.lengths.is_open(def), wildcard, key),
        }
    }

    fn sent_by_wildcard(&self, is_open: bool, wildcard: Option<DRule>, key: Key) -> Bounds
        ensures { result ≡ option_map_or (wild_bounds (is_open && nat_lt (other_length_of self.now key) too_long)) wildcard no_bounds }
    {
        match wildcard {
            Some(wildcard) => {
                Bounds::of_wildcard(is_open && self.lengths.other(key) < TOO_LONG, wildcard)
            }
            None => Bounds::none(),
        }
    }

    /// How often B's definition lets the AVP occur in the level. Without a key, how often it lets the AVPs occur that it doesn't
    /// list.
    pub(crate) fn accepted_bounds(&self, command: DefId, place: Place, key: Option<Key>) -> Bounds
        requires { command < length (definitions (sides_of self.now).sender) }
        ensures { result ≡ accepted_bounds (accepted_rules (sides_of self.now) command place) key }
    {
        match self.accepted_definition(command, place) {
            Some(def) => self.accepted_by(def, key),
            None => Bounds::none(),
        }
    }

    fn accepted_by(&self, def: DefId, key: Option<Key>) -> Bounds
        requires { def < length (definitions (sides_of self.now).receiver) }
        ensures { result ≡ accepted_bounds (rules_in (sides_of self.now).receiver def) key }
    {
        match key {
            Some(key) => Bounds::of_rule(rule_of(self.b, def, key)),
            None => Bounds::of_rule(wildcard_of(self.b, def)),
        }
    }

    /// The definition of A by which the level at a place is read, in messages of a command.
    pub(crate) fn sent_definition(&self, command: DefId, place: Place) -> Option<DefId>
        requires { command < length (definitions (sides_of self.now).sender) }
        ensures within { IfSome result (λ def. def < length (definitions (sides_of self.now).sender)) }
        ensures rules { option_map_or (rules_in (sides_of self.now).sender) result []
            ≡ sent_rules (sides_of self.now).sender command place }
        ensures number { result ≡ sent_number (sides_of self.now) command place }
    {
        match place {
            Place::Command { .. } => Some(command),
            Place::Group { key, .. } => group_of(self.lengths.book, key),
        }
    }

    /// The definition by which B reads the level.
    pub(crate) fn accepted_definition(&self, command: DefId, place: Place) -> Option<DefId>
        requires { command < length (definitions (sides_of self.now).sender) }
        ensures within { IfSome result (λ def. def < length (definitions (sides_of self.now).receiver)) }
        ensures rules { option_map_or (rules_in (sides_of self.now).receiver) result []
            ≡ accepted_rules (sides_of self.now) command place }
        ensures number { result ≡ read_number (sides_of self.now) command place }
    {
        match place {
            Place::Command { read_as, .. } => self.selected_for(command, read_as),
            Place::Group { key, .. } => group_of(self.b, key),
        }
    }

    /// The definition that B selects for messages of a command of A, with this application.
    fn selected_for(&self, command: DefId, app: u32) -> Option<DefId>
        requires { command < length (definitions (sides_of self.now).sender) }
        ensures within { IfSome result (λ def. def < length (definitions (sides_of self.now).receiver)) }
        ensures selected { result ≡ option_and_then (λ head. selected (sides_of self.now).receiver head.code head.class app)
            (head_at (sides_of self.now).sender command) }
    {
        match head_of(self.lengths.book, command) {
            Some(head) => command_of(self.b, head.code, head.class, app),
            None => None,
        }
    }
}

fn push_both(out: &mut String, sent: Bounds, accepted: Bounds) -> Result<(), AllocError>
    ensures { OnOk result (Writes out.old out.new
        (bounds_text sent ++ codes " sent, " ++ bounds_text accepted ++ codes " accepted")) }
{
    push_bounds(out, sent)?;
    out.push_str(" sent, ")?;
    push_bounds(out, accepted)?;
    out.push_str(" accepted")
}

fn push_sent(out: &mut String, sent: Bounds) -> Result<(), AllocError>
    ensures { OnOk result (Writes out.old out.new (bounds_text sent ++ codes " sent")) }
{
    push_bounds(out, sent)?;
    out.push_str(" sent")
}

fn push_accepted(out: &mut String, accepted: Bounds) -> Result<(), AllocError>
    ensures { OnOk result (Writes out.old out.new (bounds_text accepted ++ codes " accepted")) }
{
    push_bounds(out, accepted)?;
    out.push_str(" accepted")
}
