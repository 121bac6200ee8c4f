//! What is found of a command before its sites are walked.
ghost use Rattle.std.specs.Prelude.{◌≡◌, IfOk, map, nat_le};
ghost use Rattle.dia_breaking_sites.specs.Selection.{max_body};
ghost use Rattle.dia_breaking.specs.CommandLevels.{IsLevelOf};
ghost use Rattle.dia_breaking.specs.Headers.{HasHead};
ghost use Rattle.dia_breaking.specs.Sender.{costs_of};
ghost use Rattle.dia_breaking.specs.TheLines.{AreIfRoom, AreLevels, IsStartOf};
ghost use Rattle.dia_breaking.specs.Readings.{AreReadings};
ghost use Rattle.dia_breaking.specs.Upgrades.{sides_of};

use crate::books::command_of;
use crate::exits::Exits;
use crate::heads::Head;
use crate::nodes::walk_exits;
use crate::readings::{Reading, readings_of};
use crate::sites::command_site;
use crate::upgrade::Upgrade;
use crate::ways::ROOM;
use dia_book::{Book, DefId};
use dia_breaking_levels::Line as LevelLine;
use dia_breaking_ways::Exits as WalkExits;
use std::alloc::{AllocError, Global};

/// The level of a command, and its readings.
#[derive(Drop)]
pub(crate) struct Start {
    pub head: Head,
    /// The length of a least level.
    pub base: u64,
    /// Empty where no message has room for a level.
    pub readings: Vec<Reading>,
    /// How the levels break B's rules, for each reading. Where B's side reads no level, there are no lines.
    pub levels: Vec<Vec<LevelLine>>,
    /// Where the levels lead.
    pub exits: WalkExits,
}

impl Start {
    /// The start for a command with this head.
    pub fn of<A: Book, B: Book>(
        alloc: Global,
        upgrade: &Upgrade<'_, A, B>,
        command: DefId,
        head: &Head,
    ) -> Result<Self, AllocError>
        requires { HasHead (sides_of upgrade.now).sender command head.now }
        ensures head { IfOk result (λ start. start.head ≡ head.now) }
        ensures start { IfOk result (IsStartOf (sides_of upgrade.now).sender (sides_of upgrade.now).receiver
            upgrade.now.recording.value (costs_of upgrade.now.lengths) command) }
    {
        let exits = Exits::of(alloc, command, &upgrade.recording, &upgrade.lengths)?;
        let readings = readings_with_room(alloc, upgrade, command, head, exits.base)?;
        let levels = levels_of(alloc, upgrade, head, &readings)?;
        Ok(Start {
            head: *head,
            base: exits.base,
            readings,
            levels,
            exits: walk_exits(&exits)?,
        })
    }
}

/// The readings of the command, where a message has room for its least level.
fn readings_with_room<A: Book, B: Book>(
    alloc: Global,
    upgrade: &Upgrade<'_, A, B>,
    command: DefId,
    head: &Head,
    base: u64,
) -> Result<Vec<Reading>, AllocError>
    ensures { IfOk result (λ readings. AreIfRoom (nat_le base max_body) (AreReadings (sides_of upgrade.now).sender
        (sides_of upgrade.now).receiver upgrade.now.apps.value command head.now) readings.items) }
{
    if base <= ROOM {
        readings_of(alloc, upgrade, command, head)
    } else {
        Ok(Vec::new(alloc))
    }
}

/// How the levels of the command break B's rules, for each reading.
fn levels_of<A: Book, B: Book>(
    alloc: Global,
    upgrade: &Upgrade<'_, A, B>,
    head: &Head,
    readings: &[Reading],
) -> Result<Vec<Vec<LevelLine>>, AllocError>
    ensures { IfOk result (λ levels. AreLevels (IsLevelOf (sides_of upgrade.now) (costs_of upgrade.now.lengths) head.now)
        readings.now (map (λ lines. lines.items) levels.items)) }
{
    let mut levels = Vec::new(alloc);
    for reading in readings {
        levels.push(levels_for(alloc, upgrade, head, reading)?)?;
    }
    Ok(levels)
}

/// How the levels of the command break B's rules for a reading, if B's side reads a level there.
fn levels_for<A: Book, B: Book>(
    alloc: Global,
    upgrade: &Upgrade<'_, A, B>,
    head: &Head,
    reading: &Reading,
) -> Result<Vec<LevelLine>, AllocError>
    ensures { IfOk result
        (λ lines. IsLevelOf (sides_of upgrade.now) (costs_of upgrade.now.lengths) head.now reading.now lines.items) }
{
    if !command_site(upgrade.b, head, reading).is_read {
        return Ok(Vec::new(alloc));
    }
    let Some(a_def) = command_of(upgrade.lengths.book, head.code, head.class, reading.app) else {
        return Ok(Vec::new(alloc));
    };
    let Some(b_def) = command_of(upgrade.b, head.code, head.class, reading.read_as) else {
        return Ok(Vec::new(alloc));
    };
    upgrade.lines_between(alloc, a_def, b_def)
}
