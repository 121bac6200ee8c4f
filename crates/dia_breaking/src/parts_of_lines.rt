//! What a line says, in its parts.
ghost use Rattle.std.specs.Prelude.{◌≡◌, ◌<◌, ◌++◌, IfOk, OnOk, length, map, option_and_then, slice_get, string_bytes};
ghost use Rattle.std.specs.Option.{option_map};
ghost use Rattle.dia_book.specs.Dictionary.{definitions};
ghost use Rattle.dia_breaking.specs.LineParts.{accepted_by_reason, accepted_of, application_at};
ghost use Rattle.dia_breaking.specs.LineParts.{application_on, after_of, data_accepted, data_sent, data_text, format_accepted};
ghost use Rattle.dia_breaking.specs.LineParts.{counts_of, format_sent, group_names, groups_on, level_accepted, level_reason, level_sent, no_parts};
ghost use Rattle.dia_breaking.specs.LineParts.{numbers_lacking, parts_of, path_on, plain_amount};
ghost use Rattle.dia_breaking.specs.LineParts.{plain_parts, plain_path, plain_subject, read_of, reason_of};
ghost use Rattle.dia_breaking.specs.LineParts.{sent_by_reason, sent_of, subject_of, recorded_application, unknown_sent};
ghost use Rattle.dia_breaking.specs.Upgrades.{other_length_of, sides_of};

use crate::books::format_of;
use crate::bounds::Bounds;
use crate::format_words::{lacking_of, push_format_or};
use crate::line::{Breaks, Cause, Line, Place, Site, Standing};
use crate::line_parts::{Amount, LineParts, LineReason, Path, Subject};
use crate::sent_numbers::numbers_sent;
use crate::upgrade::Upgrade;
use crate::words::{command_name, is_command, site_at};
use dia_book::{Book, DefId, Key};
use dia_breaking_levels::{Line as LevelLine, Reason};
use dia_terms::Unknown;
use std::alloc::{AllocError, Global};

impl<'a, A: Book, B: Book> Upgrade<'a, A, B> {
    /// The parts of a line of a command, of which `push_words` adds the words. Where A has no such command, there is only the
    /// standing. The error comes only where memory was refused.
    pub fn parts<'u>(
        &'u self,
        alloc: Global,
        breaks: &Breaks,
        line: &Line,
    ) -> Result<LineParts<'u>, AllocError>
        ensures { IfOk result (λ parts. plain_parts parts ≡ parts_of (sides_of self.now) (other_length_of self.now)
            breaks.now.command breaks.now.sites.items line.now) }
    {
        if !is_command(self.lengths.book, breaks.command) {
            return Ok(no_parts(alloc, line.standing));
        }
        let path = breaks.path(alloc, line.site)?;
        let site = site_at(&breaks.sites, line.site);
        let cause = line.cause;
        Ok(LineParts {
            path: self.path_on(alloc, breaks.command, &path)?,
            standing: line.standing,
            reason: reason_of(cause),
            subject: self.subject_of(&path, cause),
            sent: self.sent_of(alloc, breaks.command, site, cause)?,
            following: self.after_of(cause),
            accepted: self.accepted_of(alloc, breaks.command, site, cause)?,
            read: self.read_of(alloc, cause)?,
        })
    }

    fn path_on<'u>(
        &'u self,
        alloc: Global,
        command: DefId,
        path: &[Site],
    ) -> Result<Path<'u>, AllocError>
        requires { command < length (definitions (sides_of self.now).sender) }
        ensures { IfOk result (λ found. plain_path found ≡ path_on (sides_of self.now) command path.now) }
    {
        Ok(Path {
            command: command_name(self.lengths.book, command),
            application: application_of(path),
            groups: self.groups_on(alloc, path)?,
        })
    }

    fn groups_on<'u>(&'u self, alloc: Global, path: &[Site]) -> Result<Vec<&'u str>, AllocError>
        ensures { IfOk result (λ names. map (λ name. name.now) names.items ≡ groups_on (sides_of self.now) path.now) }
    {
        let mut names = Vec::new(alloc);
        for site in path {
            self.push_group_name(&mut names, site.place)?;
        }
        Ok(names)
    }

    /// Adds the name of the group at a place, unless the command is there.
    fn push_group_name<'u>(
        &'u self,
        names: &mut Vec<&'u str>,
        place: Place,
    ) -> Result<(), AllocError>
        ensures { OnOk result (map (λ name. name.now) names.new.items
            ≡ map (λ name. name.now) names.old.items ++ group_names (sides_of self.now) place) }
    {
        match place {
            Place::Command { .. } => Ok(()),
            Place::Group { key, .. } => {
                names.push(self.subject_name(Some(key)))?;
                Ok(())
            }
        }
    }

    fn subject_of<'u>(&'u self, path: &[Site], cause: Cause) -> Subject<'u>
        ensures { plain_subject result ≡ subject_of (sides_of self.now) path.now cause }
    {
        match cause {
            Cause::Command => Subject::Header,
            Cause::Application => application_on(path),
            Cause::Proxiable { .. } => Subject::Header,
            Cause::Level(level) => Subject::Avp(self.subject_name(level.key)),
            Cause::Unknown { key, .. } => Subject::Avp(self.subject_name(Some(key))),
            Cause::MBit { key, .. } => Subject::Avp(self.subject_name(Some(key))),
            Cause::Format { key, .. } => Subject::Avp(self.subject_name(Some(key))),
            Cause::LevelAsLeaf { key } => Subject::Avp(self.subject_name(Some(key))),
            Cause::Meaning { key } => Subject::Avp(self.subject_name(Some(key))),
        }
    }

    fn sent_of(
        &self,
        alloc: Global,
        command: DefId,
        site: Option<Site>,
        cause: Cause,
    ) -> Result<Option<Amount>, AllocError>
        requires { command < length (definitions (sides_of self.now).sender) }
        ensures { IfOk result (λ sent. option_map plain_amount sent
            ≡ sent_of (sides_of self.now) (other_length_of self.now) command site cause) }
    {
        match cause {
            Cause::Command => Ok(None),
            Cause::Application => Ok(None),
            Cause::Proxiable { set } => Ok(Some(Amount::P(set))),
            Cause::Level(level) => Ok(self.level_sent(command, site, &level)),
            Cause::Unknown { m, .. } => Ok(unknown_sent(self.unknown, m)),
            Cause::MBit { m, .. } => Ok(Some(Amount::M(m))),
            Cause::Format { key, .. } => self.format_sent(alloc, key),
            Cause::LevelAsLeaf { key } => Ok(Some(self.data_sent(alloc, key)?)),
            Cause::Meaning { key } => Ok(Some(self.data_sent(alloc, key)?)),
        }
    }

    fn accepted_of(
        &self,
        alloc: Global,
        command: DefId,
        site: Option<Site>,
        cause: Cause,
    ) -> Result<Option<Amount>, AllocError>
        requires { command < length (definitions (sides_of self.now).sender) }
        ensures { IfOk result (λ accepted. option_map plain_amount accepted ≡ accepted_of (sides_of self.now) command site cause) }
    {
        match cause {
            Cause::Command => Ok(None),
            Cause::Application => Ok(None),
            Cause::Proxiable { .. } => Ok(None),
            Cause::Level(level) => Ok(self.level_accepted(command, site, &level)),
            Cause::Unknown { .. } => Ok(None),
            Cause::MBit { m, .. } => Ok(Some(Amount::M(!m))),
            Cause::Format { key, .. } => self.format_accepted(alloc, key),
            Cause::LevelAsLeaf { key } => {
                let text = self.data_accepted(alloc, key)?;
                Ok(Some(Amount::Data(text)))
            }
            Cause::Meaning { .. } => Ok(None),
        }
    }

    fn after_of<'u>(&'u self, cause: Cause) -> Option<&'u str>
        ensures { option_map (λ name. name.now) result ≡ after_of (sides_of self.now) cause }
    {
        match cause {
            Cause::Level(level) => match level.reason {
                Reason::Order => Some(self.subject_name(level.following)),
                _ => None,
            },
            _ => None,
        }
    }

    fn read_of(&self, alloc: Global, cause: Cause) -> Result<Option<String>, AllocError>
        ensures { IfOk result (λ read. option_map (λ text. string_bytes text) read ≡ read_of (sides_of self.now) cause) }
    {
        match cause {
            Cause::Meaning { key } => Ok(Some(self.data_accepted(alloc, key)?)),
            _ => Ok(None),
        }
    }

    fn level_sent(&self, command: DefId, site: Option<Site>, line: &LevelLine) -> Option<Amount>
        requires { command < length (definitions (sides_of self.now).sender) }
        ensures { option_map plain_amount result
            ≡ level_sent (sides_of self.now) (other_length_of self.now) command site line.now }
    {
        let site = site?;
        sent_by_reason(line.reason, self.sent_bounds(command, site.place, line.key))
    }

    fn level_accepted(&self, command: DefId, site: Option<Site>, line: &LevelLine) -> Option<Amount>
        requires { command < length (definitions (sides_of self.now).sender) }
        ensures { option_map plain_amount result ≡ level_accepted (sides_of self.now) command site line.now }
    {
        let site = site?;
        accepted_by_reason(
            line.reason,
            self.accepted_bounds(command, site.place, line.key),
        )
    }

    fn format_sent(&self, alloc: Global, key: Key) -> Result<Option<Amount>, AllocError>
        ensures { IfOk result (λ sent. option_map plain_amount sent ≡ format_sent (sides_of self.now) key) }
    {
        match self.numbers_lacking(alloc, key)? {
            Some(numbers) => numbers_sent(alloc, &numbers),
            None => Ok(Some(self.data_sent(alloc, key)?)),
        }
    }

    fn format_accepted(&self, alloc: Global, key: Key) -> Result<Option<Amount>, AllocError>
        ensures { IfOk result (λ accepted. option_map plain_amount accepted ≡ format_accepted (sides_of self.now) key) }
    {
        match self.numbers_lacking(alloc, key)? {
            Some(_) => Ok(None),
            None => {
                let text = self.data_accepted(alloc, key)?;
                Ok(Some(Amount::Data(text)))
            }
        }
    }

    /// The numbers of A's list that B's lacks, where both formats have a list.
    fn numbers_lacking(
        &self,
        alloc: Global,
        key: Key,
    ) -> Result<Option<Vec<(u32, u32)>>, AllocError>
        ensures { IfOk result (λ found. option_map (λ v. v.items) found ≡ numbers_lacking (sides_of self.now) key) }
    {
        lacking_of(
            alloc,
            format_of(self.lengths.book, key),
            format_of(self.b, key),
        )
    }

    fn data_sent(&self, alloc: Global, key: Key) -> Result<Amount, AllocError>
        ensures { IfOk result (λ sent. plain_amount sent ≡ data_sent (sides_of self.now) key) }
    {
        let mut text = String::new(alloc);
        push_format_or(&mut text, format_of(self.lengths.book, key), "any data")?;
        Ok(Amount::Data(text))
    }

    fn data_accepted(&self, alloc: Global, key: Key) -> Result<String, AllocError>
        ensures { IfOk result (λ text. string_bytes text ≡ data_accepted (sides_of self.now) key) }
    {
        let mut text = String::new(alloc);
        push_format_or(&mut text, format_of(self.b, key), "nothing")?;
        Ok(text)
    }
}

/// The parts of a line of a command that A doesn't have.
fn no_parts(alloc: Global, standing: Standing) -> LineParts<'static>
    ensures { plain_parts result ≡ no_parts standing }
{
    LineParts {
        path: Path {
            command: "",
            application: None,
            groups: Vec::new(alloc),
        },
        standing,
        reason: None,
        subject: Subject::Header,
        sent: None,
        following: None,
        accepted: None,
        read: None,
    }
}

/// The application that a path begins with, if it names one.
fn application_of(path: &[Site]) -> Option<u32>
    ensures { result ≡ option_and_then (λ site. recorded_application site.place) (slice_get path.now 0) }
{
    recorded_application(path.first()?.place)
}

fn recorded_application(place: Place) -> Option<u32>
    ensures { result ≡ recorded_application place }
{
    match place {
        Place::Command {
            read_as,
            is_recorded,
            ..
        } => { if is_recorded { Some(read_as) } else { None } }
        Place::Group { .. } => None,
    }
}

/// The application of the command's site, with which the path begins.
fn application_on(path: &[Site]) -> Subject<'static>
    ensures { plain_subject result ≡ application_on path.now }
{
    match path.first() {
        Some(site) => application_at(site.place),
        None => Subject::Header,
    }
}

fn application_at(place: Place) -> Subject<'static>
    ensures { plain_subject result ≡ application_at place }
{
    match place {
        Place::Command { app, .. } => Subject::Application(app),
        Place::Group { .. } => Subject::Header,
    }
}

fn reason_of(cause: Cause) -> Option<LineReason>
    ensures { result ≡ reason_of cause }
{
    match cause {
        Cause::Command => Some(LineReason::Command),
        Cause::Application => Some(LineReason::Application),
        Cause::Proxiable { .. } => Some(LineReason::Proxiable),
        Cause::Level(level) => Some(level_reason(level.reason)),
        Cause::Unknown { .. } => Some(LineReason::Unknown),
        Cause::MBit { .. } => Some(LineReason::MBit),
        Cause::Format { .. } => Some(LineReason::Format),
        Cause::LevelAsLeaf { .. } => None,
        Cause::Meaning { .. } => Some(LineReason::Meaning),
    }
}

fn level_reason(reason: Reason) -> LineReason
    ensures { result ≡ level_reason reason }
{
    match reason {
        Reason::Missing | Reason::MissingOthers => LineReason::Missing,
        Reason::TooMany | Reason::TooManyOthers => LineReason::TooMany,
        Reason::NotAllowed | Reason::NotAllowedOther => LineReason::NotAllowed,
        Reason::Order => LineReason::Order,
    }
}

fn counts_of(bounds: Bounds) -> Amount
    ensures { plain_amount result ≡ counts_of bounds }
{
    Amount::Counts {
        min: bounds.min,
        max: bounds.max,
    }
}

fn sent_by_reason(reason: Reason, bounds: Bounds) -> Option<Amount>
    ensures { option_map plain_amount result ≡ sent_by_reason reason bounds }
{
    match reason {
        Reason::Missing | Reason::TooMany => Some(counts_of(bounds)),
        Reason::NotAllowed | Reason::NotAllowedOther => Some(counts_of(bounds)),
        Reason::MissingOthers | Reason::TooManyOthers | Reason::Order => None,
    }
}

fn accepted_by_reason(reason: Reason, bounds: Bounds) -> Option<Amount>
    ensures { option_map plain_amount result ≡ accepted_by_reason reason bounds }
{
    match reason {
        Reason::Missing | Reason::TooMany => Some(counts_of(bounds)),
        Reason::MissingOthers | Reason::TooManyOthers => Some(counts_of(bounds)),
        Reason::NotAllowed | Reason::NotAllowedOther | Reason::Order => None,
    }
}

fn unknown_sent(unknown: Unknown, m: bool) -> Option<Amount>
    ensures { option_map plain_amount result ≡ unknown_sent unknown m }
{
    match unknown {
        Unknown::Kept => { if m { Some(Amount::M(true)) } else { None } }
        Unknown::Refused => None,
    }
}
