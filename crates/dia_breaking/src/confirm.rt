//! Messages of lines, checked under both dictionaries.
ghost use Rattle.std.specs.Prelude.{◌≡◌, ◌↔◌, ◌+◌, ℕ, IfNone, IfOk, IfSome, IsTrue, List, length, map};
ghost use Rattle.dia_wire.specs.Lengths.{header_length};
ghost use Rattle.dia_terms.specs.declared.Levels.TheVariants.{Any};
ghost use Rattle.dia_valid.specs.Valid.{IsValid, IsValidOf};
ghost use Rattle.dia_breaking_sites.specs.Sent.{own_policy};
ghost use Rattle.dia_breaking_shortest.specs.Floors.{IsSpellable};
ghost use Rattle.dia_breaking.specs.Confirmed.{EachConfirmedBreaks, HaveStandings, IsConfirmed};
ghost use Rattle.dia_breaking.specs.Confirmed.{IsStandingOf, has_no_message, is_checked, left_after, left_following};
ghost use Rattle.dia_breaking.specs.Listing.{unchecked};
ghost use Rattle.dia_breaking.specs.Corrected.{BreaksAfter, EachHasMessage, HasMessage};
ghost use Rattle.dia_breaking.specs.Messages.{IsLineMessage};
ghost use Rattle.dia_breaking.specs.ShownLines.{HasSpellableKey, HaveSpellableKeys};
ghost use Rattle.dia_breaking.specs.TheLines.{HaveSameSites};
ghost use Rattle.dia_breaking.specs.RecordedMessages.{AreConfirmedWhere, BreaksAsRecorded, IsBroken, IsConfirmedWhere};
ghost use Rattle.dia_breaking.specs.Upgrades.{sides_of, stock_of};

use crate::line::{Breaks, Cause, Line, Standing};
use crate::upgrade::Upgrade;
use dia_book::{Book, DefId, Key};
use dia_check::{Levels, Refusal, check};
use dia_terms::{Sends, Unknown};
use dia_wire::HEADER_LENGTH;
use std::alloc::{AllocError, Global};

/// The most bytes of a message that is checked.
const MOST_CHECKED: u64 = 1 << 20;

/// The most bytes of all messages of all commands that are checked (our profile).
pub const MOST_CHECKED_TOGETHER: u64 = 1 << 26;

impl<'a, A: Book, B: Book> Upgrade<'a, A, B> {
    /// The message of a line (`IsLineMessage`), where it has the length that the line reports, and checks under both dictionaries
    /// show that it is valid under A, as one of the command, and not under B; for a line that isn't about the header also not
    /// with its header fixed for B's definition. None, where the line's message doesn't break so. For `Filled` and
    /// `Listed` the check requires that A knows its AVPs, not that A's rules list them. The only error is an allocation failure.
    pub fn confirmed_message(
        &self,
        alloc: Global,
        breaks: &Breaks,
        line: &Line,
    ) -> Result<Option<Vec<u8>>, AllocError>
        ensures confirmed { IfOk result
            (λ found. IfSome found (λ bytes. IsConfirmed (sides_of self.now) bytes.items breaks.now.command)) }
        ensures corrected { IfOk result (λ found. IfSome found (λ bytes. BreaksAfter (sides_of self.now)
            breaks.now.command breaks.now.sites.items line.now bytes.items)) }
        ensures recorded { IfOk result (λ found. IfSome found (λ bytes. BreaksAsRecorded (sides_of self.now) (stock_of self.now)
            breaks.now.command breaks.now.sites.items line.now bytes.items)) }
        ensures none { IfOk result (λ found. IfNone found (¬ IsBroken (sides_of self.now) (stock_of self.now)
            breaks.now.command breaks.now.sites.items line.now)) }
    {
        let bytes = self.message(alloc, breaks, line)?;
        if self.breaks_as_recorded(alloc, breaks, line, &bytes)? {
            Ok(Some(bytes))
        } else {
            Ok(None)
        }
    }

    /// Whether the message of a line breaks as the line reports.
    fn is_broken(&self, alloc: Global, breaks: &Breaks, line: &Line) -> Result<bool, AllocError>
        ensures { IfOk result (λ yes. IsTrue yes ↔ IsBroken (sides_of self.now) (stock_of self.now)
            breaks.now.command breaks.now.sites.items line.now) }
    {
        let message = self.message(alloc, breaks, line)?;
        self.breaks_as_recorded(alloc, breaks, line, &message)
    }

    fn breaks_as_recorded(
        &self,
        alloc: Global,
        breaks: &Breaks,
        line: &Line,
        bytes: &[u8],
    ) -> Result<bool, AllocError>
        requires { IsLineMessage (sides_of self.now) (stock_of self.now)
            breaks.now.command breaks.now.sites.items line.now bytes.now }
        ensures { IfOk result (λ yes. IsTrue yes ↔ BreaksAsRecorded (sides_of self.now) (stock_of self.now)
            breaks.now.command breaks.now.sites.items line.now bytes.now) }
    {
        if !has_length(bytes, line.length) {
            return Ok(false);
        }
        if self.is_confirmed(alloc, breaks.command, bytes)? {
            self.breaks_corrected(alloc, breaks, line, bytes)
        } else {
            Ok(false)
        }
    }

    fn is_confirmed(&self, alloc: Global, command: DefId, bytes: &[u8]) -> Result<bool, AllocError>
        ensures { IfOk result (λ yes. IsTrue yes ↔ IsConfirmed (sides_of self.now) bytes.now command) }
    {
        let sent = is_message_of(
            alloc,
            self.lengths.book,
            own_policy(self.lengths.sends),
            command,
            bytes,
        )?;
        let accepted = is_valid(alloc, self.b, self.unknown, bytes)?;
        Ok(sent && !accepted)
    }

    /// The lines with the status of each. Their sites and what they report don't change. `left` is how many bytes may be checked,
    /// and then how many of them weren't.
    pub(crate) fn with_standings(
        &self,
        alloc: Global,
        breaks: Breaks,
        left: &mut u64,
    ) -> Result<Breaks, AllocError>
        ensures same { IfOk result (HaveSameSites breaks) }
        ensures kept { IfOk result (λ recorded. map unchecked recorded.lines.items ≡ map unchecked breaks.lines.items) }
        ensures each { IfOk result (λ recorded. EachConfirmedBreaks (sides_of self.now) breaks.command recorded.lines.items) }
        ensures each_corrected { IfOk result
            (λ recorded. EachHasMessage (sides_of self.now) breaks.command breaks.sites.items recorded.lines.items) }
        ensures standings { IfOk result (λ recorded. HaveStandings left.old recorded.lines.items) }
        ensures exactly { IfOk result (λ recorded. AreConfirmedWhere (sides_of self.now) (stock_of self.now)
            breaks.command breaks.sites.items left.old recorded.lines.items) }
        ensures spellable { IfOk result (λ recorded. HaveSpellableKeys recorded.lines.items) }
        ensures left { IfOk result (λ recorded. left.new ≡ left_after left.old recorded.lines.items) }
    {
        let mut lines = Vec::new(alloc);
        for line in &breaks.lines {
            let standing = self.standing(alloc, &breaks, line, *left)?;
            spell_key(&line.cause);
            lines.push(Line { standing, ..*line })?;
            *left = left_following(line, *left);
        }
        Ok(Breaks { lines, ..breaks })
    }

    /// The status of a line, where so many bytes are left to check.
    fn standing(
        &self,
        alloc: Global,
        breaks: &Breaks,
        line: &Line,
        left: u64,
    ) -> Result<Standing, AllocError>
        ensures confirmed { IfOk result (λ standing. standing ≡ Standing.Confirmed
            → (bytes : List ℕ) × IsConfirmed (sides_of self.now) bytes breaks.now.command) }
        ensures corrected { IfOk result (λ standing. standing ≡ Standing.Confirmed
            → HasMessage (sides_of self.now) breaks.now.command breaks.now.sites.items line.now) }
        ensures standing { IfOk result (IsStandingOf left line.now) }
        ensures exactly { IfOk result (IsConfirmedWhere (sides_of self.now) (stock_of self.now)
            breaks.now.command breaks.now.sites.items left line.now) }
    {
        if has_no_message(&line.cause) {
            return Ok(Standing::Undecided);
        }
        if !is_checked(line, left) {
            return Ok(Standing::Unchecked);
        }
        if self.is_broken(alloc, breaks, line)? {
            Ok(Standing::Confirmed)
        } else {
            Ok(Standing::Undecided)
        }
    }
}

/// Whether a message has the length that its line reports.
fn has_length(bytes: &[u8], size: u64) -> bool
    ensures { IsTrue result ↔ (length bytes.now ≡ header_length + size) }
{
    bytes.len() >= HEADER_LENGTH && (bytes.len() - HEADER_LENGTH) as u64 == size
}

/// Whether no message is known that breaks as the line reports.
fn has_no_message(cause: &Cause) -> bool
    ensures { result ≡ has_no_message cause.now }
{
    matches!(cause, Cause::LevelAsLeaf { .. })
}

/// Whether the message of a line is checked, where so many bytes are left.
fn is_checked(line: &Line, left: u64) -> bool
    ensures { result ≡ is_checked left line.now }
{
    !has_no_message(&line.cause) && (line.length <= MOST_CHECKED && line.length <= left)
}

/// How many bytes are left for the lines after it.
fn left_following(line: &Line, left: u64) -> u64
    ensures { result ≡ left_following left line.now }
{
    if is_checked(line, left) {
        left.saturating_sub(line.length)
    } else {
        left
    }
}

/// What a sender does with AVPs that its dictionary doesn't know.
fn own_policy(sends: Sends) -> Unknown
    ensures { result ≡ own_policy sends }
{
    match sends {
        Sends::Any => Unknown::Kept,
        Sends::Known => Unknown::Refused,
        Sends::Filled => Unknown::Refused,
        Sends::Listed => Unknown::Refused,
    }
}

/// Whether the bytes are a valid message of the command.
fn is_message_of<B: Book>(
    alloc: Global,
    book: &B,
    unknown: Unknown,
    command: DefId,
    bytes: &[u8],
) -> Result<bool, AllocError>
    ensures { IfOk result (λ yes. IsTrue yes ↔ IsValidOf (B.meaning book.now) unknown Any bytes.now command) }
{
    match check(alloc, book, unknown, Levels::Any, bytes) {
        Ok(found) => {
            if found.def == command {
                Ok(true)
            } else {
                Ok(false)
            }
        }
        Err(Refusal::NoMemory) => Err(AllocError),
        Err(Refusal::Fault(_)) => Ok(false),
        Err(Refusal::Truncated) => Ok(false),
        Err(Refusal::Trailing) => Ok(false),
        Err(Refusal::Spent) => Ok(false),
    }
}

/// Whether the bytes are a valid message.
pub(crate) fn is_valid<B: Book>(
    alloc: Global,
    book: &B,
    unknown: Unknown,
    bytes: &[u8],
) -> Result<bool, AllocError>
    ensures { IfOk result (λ yes. IsTrue yes ↔ IsValid (B.meaning book.now) unknown Any bytes.now) }
{
    match check(alloc, book, unknown, Levels::Any, bytes) {
        Ok(_) => Ok(true),
        Err(Refusal::NoMemory) => Err(AllocError),
        Err(Refusal::Fault(_)) => Ok(false),
        Err(Refusal::Truncated) => Ok(false),
        Err(Refusal::Trailing) => Ok(false),
        Err(Refusal::Spent) => Ok(false),
    }
}

/// The key of the AVP that a line reports fits the fields of an AVP.
fn spell_key(cause: &Cause)
    ensures { HasSpellableKey cause.now }
{
    match *cause {
        Cause::Command => (),
        Cause::Application => (),
        Cause::Proxiable { .. } => (),
        Cause::Level(_) => (),
        Cause::Unknown { key, .. } => spelled(key),
        Cause::MBit { key, .. } => spelled(key),
        Cause::Format { key, .. } => spelled(key),
        Cause::LevelAsLeaf { key } => spelled(key),
        Cause::Meaning { .. } => (),
    }
}

fn spelled(key: Key)
    ensures { IsSpellable key }
{}
