//! What is known of the lines that were found.

ghost use Rattle.std.specs.Prelude.{◌≡◌};
ghost use Rattle.dia_upgrades.specs.UnderWay.{lines_after};

use dia_accepted::{Accepting, Causes, Entry};
use dia_breaking::LineParts;
use std::alloc::{AllocError, Global};

/// The first line of a cause.
#[derive(Drop)]
pub(crate) struct First<'u> {
    pub words: String,
    pub parts: LineParts<'u>,
    /// The digits of the message that follows it, if one does.
    pub digits: Option<String>,
}

/// What is known of the lines so far.
#[derive(Drop)]
pub(crate) struct Seen<'l> {
    pub accepting: Accepting<'l>,
    /// The causes of the lines that the list doesn't accept.
    pub causes: Causes,
    /// Where each cause has one line, the first line of each of these.
    pub firsts: Vec<First<'l>>,
    /// The causes of meanings that aren't asked for, and that the list doesn't accept.
    pub meanings: Causes,
    /// How many lines the list doesn't accept.
    pub lines: usize,
    /// How many it accepts.
    pub accepted: usize,
    /// Whether there is a line.
    pub is_some: bool,
}

impl<'l> Seen<'l> {
    ghost use Rattle.std.specs.Prelude.{◌≡◌, ◌<◌, ◌+◌, ◌++◌, ◌∷◌, Bool, List, ℕ, [], IfOk, None, OnOk, map, true, false};
    ghost use Rattle.std.specs.List.{list_any};
    ghost use Rattle.dia_accepted.specs.Accepted.{PlainEntry, accepts, plain_entry};
    ghost use Rattle.dia_upgrades.specs.declared.asked.Asked.{Asked as AnyAsked};
    ghost use Rattle.dia_upgrades.specs.UnderWay.{AreJudged, AreSeen, SeesApart};
    ghost use Rattle.dia_upgrades.specs.Recorded.{Says, row_of};
    ghost use Rattle.dia_upgrades.specs.Rows.{Row, is_command};

    /// No line is known.
    pub fn new(alloc: Global, list: &'l [Entry]) -> Result<Seen<'l>, AllocError>
        ensures { IfOk result (λ seen. (asked : AnyAsked) (forgets : Bool) (place : ℕ)
            → AreSeen asked forgets (map plain_entry list.now) place 0 seen [] []) }
    {
        Ok(Seen {
            accepting: Accepting::new(alloc, list)?,
            causes: Causes::new(alloc),
            firsts: Vec::new(alloc),
            meanings: Causes::new(alloc),
            lines: 0,
            accepted: 0,
            is_some: false,
        })
    }

    /// Begins with the lines of the command at a place. `forgets` says whether none of the places so far comes again.
    pub fn begin(&mut self, forgets: bool)
        ensures { (asked : AnyAsked) (list : List PlainEntry) (before place visits : ℕ) (recorded apart : List Row)
            → (forgets ≡ true → (list_any (is_command place) recorded ≡ false) × (list_any (is_command place) apart ≡ false))
            → AreSeen asked forgets list before visits self.old recorded apart
            → AreSeen asked forgets list place (visits + 1) self.new recorded apart }
    {
        self.causes.begin(forgets);
        self.meanings.begin(forgets);
    }

    /// A line comes. Answers whether the list accepts it; its cause isn't stored yet.
    pub fn judge(&mut self, alloc: Global, words: &str) -> Result<bool, AllocError>
        ensures accepted { IfOk result (λ known. (list : List PlainEntry) (recorded apart : List Row)
            → AreJudged list self.old recorded apart → known ≡ list_any (accepts words.now) list) }
        ensures judged { OnOk result ((list : List PlainEntry) (recorded apart : List Row) (t : Row) → t.words ≡ words.now
            → AreJudged list self.old recorded apart → AreJudged list self.new (recorded ++ t ∷ []) apart) }
        ensures causes { OnOk result (self.new.causes ≡ self.old.causes) }
        ensures meanings { OnOk result (self.new.meanings ≡ self.old.meanings) }
        ensures firsts { OnOk result (self.new.firsts ≡ self.old.firsts) }
    {
        let known = self.accepting.accepts(alloc, words)?;
        self.is_some = true;
        self.lines = lines_after(self.lines, known);
        self.accepted = lines_after(self.accepted, !known);
        Ok(known)
    }

    /// A line of a meaning that isn't asked for comes.
    pub fn see_apart(&mut self, alloc: Global, place: usize, words: &str) -> Result<(), AllocError>
        ensures { OnOk result ((asked : AnyAsked) (says : Says) → says.words ≡ words.now
            → SeesApart asked place self.old self.new (row_of place says None ∷ [])) }
    {
        let known = self.accepting.accepts(alloc, words)?;
        if known {
            return Ok(());
        }
        let none = String::new(alloc);
        self.meanings.add(alloc, place, words, none)?;
        Ok(())
    }
}

/// How many lines are counted, where one more comes that counts or not.
fn lines_after(lines: usize, is_other: bool) -> usize
    ensures { result ≡ lines_after is_other lines }
{
    if is_other {
        lines
    } else {
        lines.saturating_add(1)
    }
}
