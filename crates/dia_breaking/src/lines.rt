//! The lines of a command.
ghost use Rattle.std.specs.Prelude.{◌≡◌, ◌⊎◌, ◌++◌, ◌∷◌, ◌<◌, ◌^◌, [], ℕ, IfOk, OnOk, length};
ghost use Rattle.std.specs.Prelude.{map, option_to_list, slice_get};
ghost use Rattle.std.specs.Option.{option_map_or};
ghost use Rattle.dia_breaking.specs.Confirmed.{EachConfirmedBreaks, HaveStandings, left_after};
ghost use Rattle.dia_breaking.specs.Free.{AreValidWhereFree};
ghost use Rattle.dia_breaking.specs.Headers.{HasHead};
ghost use Rattle.dia_breaking.specs.Listing.{AddsRecorded, AreMeanings, IsListing, IsWalkFrom};
ghost use Rattle.dia_breaking.specs.Listing.{command_levels, group_levels, level_lines};
ghost use Rattle.dia_breaking.specs.Listing.{AreInOrder, AreUnchecked, lines_in, new_line, own_lines, subject};
ghost use Rattle.dia_breaking.specs.Listing.{records, with_room};
ghost use Rattle.dia_breaking.specs.Corrected.{AreValidOnceCorrected, EachHasMessage};
ghost use Rattle.dia_breaking.specs.Orders.{IsInOrderOf, of_each};
ghost use Rattle.dia_breaking.specs.OwnBreaks.{ReportData};
ghost use Rattle.dia_breaking.specs.ShownLines.{EachIsShown};
ghost use Rattle.dia_breaking.specs.Sides.{answer_of};
ghost use Rattle.dia_breaking.specs.Sites.{group_sites};
ghost use Rattle.dia_breaking.specs.TheLines.{HasTheLines, IsOfHead, IsStartOf};
ghost use Rattle.dia_breaking.specs.Sender.{costs_of};
ghost use Rattle.dia_breaking.specs.TheMeanings.{AreMeaningsOf, AreMeant, HoldsOfLevels};
ghost use Rattle.dia_breaking.specs.RecordedMessages.{AreConfirmedWhere};
ghost use Rattle.dia_breaking.specs.Upgrades.{basis_for, lines_for, sides_of, stock_of};
ghost use Rattle.dia_breaking.specs.declared.line.Line.{Line as AnyLine};

use crate::header_lines::push_header_lines;
use crate::heads::Head;
use crate::line::{Breaks, Cause, Line, Site, Standing};
use crate::own_lines::Kind;
use crate::readings::Reading;
use crate::sites::{Numbers, command_sites, first_read, push_group_sites};
use crate::start::Start;
use crate::upgrade::Upgrade;
use crate::ways::ROOM;
use dia_book::{Book, DefId};
use dia_breaking_levels::Line as LevelLine;
use dia_breaking_ways::{Step, Walk, walk};
use std::alloc::{AllocError, Global};

impl<'a, A: Book, B: Book> Upgrade<'a, A, B> {
    /// The lines of a command with this head. Each message of it that A's side sends, and that is free of them, is valid under B.
    /// `left` is how many bytes may be checked, and then how many of them weren't.
    pub(crate) fn lines_of(
        &self,
        alloc: Global,
        command: DefId,
        head: &Head,
        left: &mut u64,
    ) -> Result<Breaks, AllocError>
        requires { HasHead (sides_of self.now).sender command head.now }
        ensures command { IfOk result (λ breaks. breaks.command ≡ command) }
        ensures head { IfOk result (λ breaks. IsOfHead breaks head.now) }
        ensures free { IfOk result (λ breaks. ∥ AreValidWhereFree (sides_of self.now) (answer_of breaks) ∥₁) }
        ensures corrected { IfOk result (λ breaks. ∥ AreValidOnceCorrected (sides_of self.now) (answer_of breaks) ∥₁) }
        ensures each { IfOk result (λ breaks. EachConfirmedBreaks (sides_of self.now) command breaks.lines.items) }
        ensures each_corrected { IfOk result
            (λ breaks. EachHasMessage (sides_of self.now) command breaks.sites.items breaks.lines.items) }
        ensures standings { IfOk result (λ breaks. HaveStandings left.old breaks.lines.items) }
        ensures exactly { IfOk result (λ breaks. AreConfirmedWhere (sides_of self.now) (stock_of self.now)
            command breaks.sites.items left.old breaks.lines.items) }
        ensures shown { IfOk result (λ breaks. ∥ EachIsShown (sides_of self.now) (stock_of self.now)
            command breaks.sites.items breaks.lines.items ∥₁) }
        ensures left { IfOk result (λ breaks. left.new ≡ left_after left.old breaks.lines.items) }
        ensures formats { IfOk result (λ breaks. ∥ ReportData (sides_of self.now) breaks.lines.items ∥₁) }
        ensures lines { IfOk result (λ breaks. HasTheLines (sides_of self.now) (answer_of breaks)) }
        ensures meanings { IfOk result
            (λ breaks. AreMeaningsOf (sides_of self.now) (answer_of breaks) breaks.meanings.items) }
        ensures all_meanings { IfOk result (λ breaks.
            ∥ HoldsOfLevels (sides_of self.now) (answer_of breaks) (AreMeant (sides_of self.now) breaks.meanings.items) ∥₁) }
        ensures unchecked { IfOk result (λ breaks. AreUnchecked breaks.meanings.items) }
    {
        let found = self.found(alloc, command, head)?;
        self.with_standings(alloc, found, left)
    }

    /// The lines that a walk over the sites finds.
    fn found(&self, alloc: Global, command: DefId, head: &Head) -> Result<Breaks, AllocError>
        requires { HasHead (sides_of self.now).sender command head.now }
        ensures command { IfOk result (λ breaks. breaks.command ≡ command) }
        ensures head { IfOk result (λ breaks. IsOfHead breaks head.now) }
        ensures few { IfOk result (λ breaks. length breaks.sites.items < 2 ^ 64) }
        ensures free { IfOk result (λ breaks. ∥ AreValidWhereFree (sides_of self.now) (answer_of breaks) ∥₁) }
        ensures corrected { IfOk result (λ breaks. ∥ AreValidOnceCorrected (sides_of self.now) (answer_of breaks) ∥₁) }
        ensures lines { IfOk result (λ breaks. HasTheLines (sides_of self.now) (answer_of breaks)) }
        ensures meanings { IfOk result
            (λ breaks. AreMeaningsOf (sides_of self.now) (answer_of breaks) breaks.meanings.items) }
        ensures all_meanings { IfOk result (λ breaks.
            ∥ HoldsOfLevels (sides_of self.now) (answer_of breaks) (AreMeant (sides_of self.now) breaks.meanings.items) ∥₁) }
        ensures unchecked { IfOk result (λ breaks. AreUnchecked breaks.meanings.items) }
        ensures formats { IfOk result (λ breaks. ∥ ReportData (sides_of self.now) breaks.lines.items ∥₁) }
    {
        let start = Start::of(alloc, self, command, head)?;
        self.found_from(alloc, command, &start)
    }

    /// The lines that a walk from this start finds.
    fn found_from(&self, alloc: Global, command: DefId, start: &Start) -> Result<Breaks, AllocError>
        requires head { HasHead (sides_of self.now).sender command start.now.head }
        requires start { IsStartOf (sides_of self.now).sender (sides_of self.now).receiver self.now.recording.value
            (costs_of self.now.lengths) command start.now }
        ensures command { IfOk result (λ breaks. breaks.command ≡ command) }
        ensures head { IfOk result (λ breaks. IsOfHead breaks start.now.head) }
        ensures few { IfOk result (λ breaks. length breaks.sites.items < 2 ^ 64) }
        ensures listing { IfOk result (λ breaks. IsListing (sides_of self.now).receiver
            (basis_for self.now start.now) breaks.sites.items (map records breaks.lines.items)) }
        ensures meanings { IfOk result (λ breaks. AreMeanings (sides_of self.now).receiver
            (basis_for self.now start.now) breaks.sites.items (map records breaks.meanings.items)) }
        ensures unchecked { IfOk result (λ breaks. AreUnchecked breaks.meanings.items) }
        ensures formats { IfOk result (λ breaks. ∥ ReportData (sides_of self.now) breaks.lines.items ∥₁) }
    {
        let sites = command_sites(alloc, self.b, &start.head, &start.readings)?;
        let first = first_read(&sites);
        let numbers = Numbers {
            first: first.unwrap_or(0),
            count: count_of(&start.readings),
        };
        let walk = self.walk_from(alloc, start, first.is_some())?;
        self.found_by(alloc, command, start, sites, numbers, &walk)
    }

    /// The sites and the lines that a walk finds. `sites` are those of the command's own level.
    fn found_by(
        &self,
        alloc: Global,
        command: DefId,
        start: &Start,
        mut sites: Vec<Site>,
        numbers: Numbers,
        walk: &Walk,
    ) -> Result<Breaks, AllocError>
        ensures command { IfOk result (λ breaks. breaks.command ≡ command) }
        ensures head { IfOk result (λ breaks. IsOfHead breaks start.now.head) }
        ensures sites { IfOk result (λ breaks. breaks.sites.items
            ≡ sites.items ++ group_sites self.now.own.items numbers.first numbers.count walk.now.steps.items) }
        ensures few { IfOk result (λ breaks. length breaks.sites.items < 2 ^ 64) }
        ensures lines { IfOk result
            (λ breaks. AreInOrder (lines_for self.now start.now numbers walk.now) (map records breaks.lines.items)) }
        ensures meanings { IfOk result (λ breaks. AreInOrder
            (own_lines Kind.Meaning numbers.first numbers.count self.now.own.items walk.now.reached.items)
            (map records breaks.meanings.items)) }
        ensures unchecked { IfOk result (λ breaks. AreUnchecked breaks.meanings.items) }
        ensures formats { IfOk result (λ breaks. ∥ ReportData (sides_of self.now) breaks.lines.items ∥₁) }
    {
        push_group_sites(&mut sites, &self.own, numbers, &walk.steps)?;
        count_sites(&sites);
        let lines = self.lines_by(alloc, start, numbers, walk)?;
        let meanings = self.meanings_by(alloc, numbers, walk)?;
        Ok(Breaks {
            command,
            code: start.head.code,
            class: start.head.class,
            sites,
            lines,
            meanings,
        })
    }

    /// The shortest ways from the level of the command, if B's side reads it.
    fn walk_from(&self, alloc: Global, start: &Start, is_read: bool) -> Result<Walk, AllocError>
        requires { (command : ℕ) × IsStartOf (sides_of self.now).sender (sides_of self.now).receiver
            self.now.recording.value (costs_of self.now.lengths) command start.now }
        ensures { IfOk result
            (λ walk. IsWalkFrom is_read (basis_for self.now start.now).graph walk.steps.items walk.reached.items) }
    {
        if !is_read {
            return Ok(Walk {
                steps: Vec::new(alloc),
                reached: Vec::new(alloc),
            });
        }
        match walk(alloc, &self.nodes, &start.exits, ROOM)? {
            Some(walk) => Ok(walk),
            None => unreachable!(),
        }
    }

    /// The lines that a walk finds, in the order of their sites.
    fn lines_by(
        &self,
        alloc: Global,
        start: &Start,
        numbers: Numbers,
        walk: &Walk,
    ) -> Result<Vec<Line>, AllocError>
        ensures order { IfOk result (λ recorded. AreInOrder (lines_for self.now start.now numbers walk.now) (map records recorded.items)) }
        ensures formats { IfOk result (λ lines. ∥ ReportData (sides_of self.now) lines.items ∥₁) }
    {
        let mut lines = Vec::new(alloc);
        push_header_lines(self.b, start, &mut lines)?;
        push_command_levels(start, &mut lines)?;
        self.push_group_levels(numbers.count, &walk.steps, &mut lines)?;
        self.push_own_lines(alloc, Kind::Unknown, numbers, &walk.reached, &mut lines)?;
        self.push_own_lines(alloc, Kind::MBit, numbers, &walk.reached, &mut lines)?;
        self.push_own_lines(alloc, Kind::Data, numbers, &walk.reached, &mut lines)?;
        sort_by_site(&mut lines)?;
        Ok(lines)
    }

    /// The AVPs that a walk reaches and that are read as another format, in the order of their sites.
    fn meanings_by(
        &self,
        alloc: Global,
        numbers: Numbers,
        walk: &Walk,
    ) -> Result<Vec<Line>, AllocError>
        ensures recorded { IfOk result (λ recorded. AreInOrder
            (own_lines Kind.Meaning numbers.first numbers.count self.now.own.items walk.now.reached.items)
            (map records recorded.items)) }
        ensures unchecked { IfOk result (λ recorded. AreUnchecked recorded.items) }
    {
        let mut meanings = Vec::new(alloc);
        self.push_own_lines(alloc, Kind::Meaning, numbers, &walk.reached, &mut meanings)?;
        sort_by_site(&mut meanings)?;
        Ok(meanings)
    }

    /// Adds how levels of groups break B's rules, by the steps that lead to them.
    fn push_group_levels(
        &self,
        count: usize,
        steps: &[Step],
        lines: &mut Vec<Line>,
    ) -> Result<(), AllocError>
        ensures { OnOk result (AddsRecorded lines.old.items lines.new.items
            (of_each (group_levels count (map lines_in self.now.outlooks.items)) steps.now)) }
    {
        for (index, step) in steps.iter().enumerate() {
            self.push_group_level(count.saturating_add(index), step, lines)?;
        }
        Ok(())
    }

    fn push_group_level(
        &self,
        site: usize,
        step: &Step,
        lines: &mut Vec<Line>,
    ) -> Result<(), AllocError>
        ensures { OnOk result (AddsRecorded lines.old.items lines.new.items (option_map_or
            (level_lines site step.now.way) (slice_get (map lines_in self.now.outlooks.items) step.now.place) [])) }
    {
        match self.outlooks.get(step.place) {
            Some(outlook) => match &outlook.inner {
                Some(inner) => push_level_lines(lines, site, step.way, &inner.lines),
                None => Ok(()),
            },
            None => Ok(()),
        }
    }
}

/// The number of the readings.
fn count_of(readings: &[Reading]) -> usize
    ensures { result ≡ length readings.now }
{
    readings.len()
}

/// The sites have numbers of 64 bits.
fn count_sites(sites: &[Site])
    ensures { length sites.now < 2 ^ 64 }
{
    let _count = sites.len();
}

/// Puts lines in the order of their sites. The lines of one site stay in their order.
fn sort_by_site(lines: &mut Vec<Line>) -> Result<(), AllocError>
    ensures { OnOk result (IsInOrderOf (λ (line : AnyLine). line.site) lines.old.items lines.new.items) }
{
    lines.sort_by_key(|line| line.site)?;
    Ok(())
}

/// Adds an unchecked line.
pub(crate) fn push_line(
    lines: &mut Vec<Line>,
    site: usize,
    cause: Cause,
    takes: u64,
) -> Result<(), AllocError>
    ensures items { OnOk result (lines.new.items ≡ lines.old.items ++ new_line site cause takes ∷ []) }
    ensures recorded { OnOk result (AddsRecorded lines.old.items lines.new.items (records (new_line site cause takes) ∷ [])) }
{
    lines.push(Line {
        site,
        cause,
        length: takes,
        standing: Standing::Unchecked,
    })?;
    Ok(())
}

/// Adds an unchecked line, if a message has room for it.
pub(crate) fn push_with_room(
    lines: &mut Vec<Line>,
    site: usize,
    cause: Cause,
    takes: u64,
) -> Result<(), AllocError>
    ensures recorded { OnOk result
        (AddsRecorded lines.old.items lines.new.items (option_to_list (with_room site takes (subject cause)))) }
    ensures items { OnOk result ((lines.new.items ≡ lines.old.items)
        ⊎ (lines.new.items ≡ lines.old.items ++ new_line site cause takes ∷ [])) }
{
    if takes <= ROOM {
        push_line(lines, site, cause, takes)
    } else {
        Ok(())
    }
}

/// Adds the lines of a level, around which a message takes at least `way`.
fn push_level_lines(
    lines: &mut Vec<Line>,
    site: usize,
    way: u64,
    found: &[LevelLine],
) -> Result<(), AllocError>
    ensures { OnOk result (AddsRecorded lines.old.items lines.new.items (level_lines site way found.now)) }
{
    for line in found {
        push_level_line(lines, site, way, line)?;
    }
    Ok(())
}

fn push_level_line(
    lines: &mut Vec<Line>,
    site: usize,
    way: u64,
    line: &LevelLine,
) -> Result<(), AllocError>
    ensures { OnOk result (AddsRecorded lines.old.items lines.new.items (level_lines site way (line.now ∷ []))) }
{
    let length = way.saturating_add(line.length);
    push_with_room(lines, site, Cause::Level(*line), length)
}

/// Adds how levels of the command break B's rules.
fn push_command_levels(start: &Start, lines: &mut Vec<Line>) -> Result<(), AllocError>
    ensures { OnOk result (AddsRecorded lines.old.items lines.new.items
        (of_each command_levels (map (λ found. found.items) start.now.levels.items))) }
{
    for (site, found) in start.levels.iter().enumerate() {
        push_level_lines(lines, site, 0, found)?;
    }
    Ok(())
}
