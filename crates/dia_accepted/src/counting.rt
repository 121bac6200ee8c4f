//! The causes of lines that come one by one, and the lines of `--once`.
ghost use Rattle.std.specs.Prelude.{◌≡◌, ◌||◌, IfOk, List, OnOk, if◌then◌else◌, map, string_bytes, ℕ};
ghost use Rattle.std.specs.Str.{bytes_eq};
ghost use Rattle.dia_accepted.specs.Accepted.{plain_recorded};
ghost use Rattle.dia_accepted.specs.Causes.{noun, once_line, once_words};
ghost use Rattle.dia_accepted.specs.Seen.{next_count};
ghost use Rattle.dia_accepted.specs.Sets.{has, tally};
ghost use Rattle.dia_accepted.specs.Words.{cause_text};

use crate::accepting::push_unless;
use crate::recorded::Recorded;
use crate::words::path_and_cause;
use indexmap::{IndexMap, IndexSet};
use std::alloc::{AllocError, Global};

/// The causes of the lines that have come: of each the first line, and how many commands have it.
pub struct Causes {
    /// The first line of each cause, in their order.
    pub(crate) firsts: Vec<Recorded>,
    /// How many commands have each cause.
    pub(crate) counts: IndexMap<Vec<u8>, usize>,
    /// The causes of the commands that aren't forgotten.
    pub(crate) own: IndexSet<(usize, Vec<u8>)>,
}

// Written out: for a derived `Drop`, each crate that drops this type proves the drops of all its parts again.
impl Drop for Causes {
    fn drop(self) {
        let Causes {
            firsts: _,
            counts: _,
            own: _,
        } = self;
    }
}

impl Causes {
    ghost use Rattle.std.specs.Prelude.{◌≡◌, ◌<◌, ◌^◌, ◌+◌, ◌++◌, ◌∷◌, ◌⊎◌, List, ℕ, [], IfOk, OnOk, map, string_bytes, Bool};
    ghost use Rattle.std.specs.Prelude.{true, false};
    ghost use Rattle.std.specs.List.{list_any};
    ghost use Rattle.dia_accepted.specs.Accepted.{PlainRecorded, plain_recorded};
    ghost use Rattle.dia_accepted.specs.Causes.{commands_with, has_cause, once_of};
    ghost use Rattle.dia_accepted.specs.Seen.{AreCauses, is_command};
    ghost use Rattle.dia_accepted.specs.Words.{cause_text};

    /// No line has come.
    pub fn new(alloc: Global) -> Causes
        ensures { (forgets : Bool) (command : ℕ) → AreCauses forgets result [] command 0 }
    {
        Causes {
            firsts: Vec::new(alloc),
            counts: IndexMap::new(alloc),
            own: IndexSet::new(alloc),
        }
    }

    /// Begins with the lines of a command. `forgets` says whether none of the commands so far comes again.
    pub fn begin(&mut self, forgets: bool)
        ensures { (recorded : List PlainRecorded) (before command visits : ℕ) → (forgets ≡ true
            → list_any (is_command command) recorded ≡ false)
            → AreCauses forgets self.old recorded before visits → AreCauses forgets self.new recorded command (visits + 1) }
    {
        if forgets {
            self.own.clear();
        }
    }

    /// Whether a line has come with the cause of these words.
    pub fn has(&self, words: &str) -> bool
        ensures { (forgets : Bool) (recorded : List PlainRecorded) (command visits : ℕ)
            → AreCauses forgets self.now recorded command visits
            → result ≡ list_any (has_cause (cause_text words.now)) recorded }
    {
        self.counts.contains_key(cause_of(words).as_bytes())
    }

    /// A line of the command comes. Where its cause is known already, its message isn't recorded.
    pub fn add(
        &mut self,
        alloc: Global,
        command: usize,
        words: &str,
        message: String,
    ) -> Result<(), AllocError>
        ensures { OnOk result ((forgets : Bool) (recorded : List PlainRecorded) (t : PlainRecorded) (visits : ℕ) → visits < 2 ^ 63
            → t.command ≡ command → t.words ≡ words.now
            → (t.message ≡ string_bytes message) ⊎ (list_any (has_cause (cause_text words.now)) recorded ≡ true)
            → AreCauses forgets self.old recorded command visits
            → AreCauses forgets self.new (recorded ++ t ∷ []) command visits) }
    {
        let cause = cause_of(words).as_bytes();
        let known = self.counts.contains_key(cause);
        let words = String::from_str(alloc, words)?;
        let recorded = Recorded {
            command,
            words,
            message,
        };
        push_unless(&mut self.firsts, recorded, known)?;
        let key = (command, Vec::from_slice(alloc, cause)?);
        let is_new = self.own.insert(key)?;
        count_cause(alloc, &mut self.counts, cause, is_new)?;
        Ok(())
    }

    /// How many commands have a line with the cause of these words.
    pub fn count(&self, words: &str) -> usize
        ensures { (forgets : Bool) (recorded : List PlainRecorded) (command visits : ℕ) (t : PlainRecorded) → t.words ≡ words.now
            → AreCauses forgets self.now recorded command visits → result ≡ commands_with recorded t }
    {
        count_of(&self.counts, cause_of(words).as_bytes())
    }

    /// A line for each cause, in the order of the first places, with how many commands have it.
    pub fn lines(&self, alloc: Global) -> Result<Vec<Recorded>, AllocError>
        ensures { IfOk result (λ once. (forgets : Bool) (recorded : List PlainRecorded) (command visits : ℕ)
            → AreCauses forgets self.now recorded command visits → map plain_recorded once.items ≡ once_of recorded) }
    {
        once_lines(alloc, &self.counts, self.firsts.as_slice())
    }
}

/// Counts a cause that a line has, if that isn't counted of its command yet.
fn count_cause(
    alloc: Global,
    counts: &mut IndexMap<Vec<u8>, usize>,
    cause: &[u8],
    is_new: bool,
) -> Result<(), AllocError>
    ensures has { OnOk result ((x : List ℕ) → has counts.new.entries x ≡ (bytes_eq x cause.now || has counts.old.entries x)) }
    ensures counted { OnOk result ((x : List ℕ) → tally counts.new.entries x
        ≡ (if bytes_eq x cause.now then next_count is_new (tally counts.old.entries cause.now) else tally counts.old.entries x)) }
{
    let count = next_count(count_of(counts, cause), is_new);
    let key = Vec::from_slice(alloc, cause)?;
    counts.insert(key, count)?;
    Ok(())
}

/// How many commands have a cause, where one more has it or not.
fn next_count(count: usize, one_more: bool) -> usize
    ensures { result ≡ next_count one_more count }
{
    if one_more {
        count.saturating_add(1)
    } else {
        count
    }
}

/// What was counted of a cause.
fn count_of(counts: &IndexMap<Vec<u8>, usize>, cause: &[u8]) -> usize
    ensures { result ≡ tally counts.now.entries cause.now }
{
    match counts.get(cause) {
        Some(count) => *count,
        None => 0,
    }
}

/// The reason, subject and detail of a line.
fn cause_of(words: &str) -> &str
    ensures { result.now ≡ cause_text words.now }
{
    path_and_cause(words).1
}

/// The lines of the causes that these lines have.
fn once_lines(
    alloc: Global,
    counts: &IndexMap<Vec<u8>, usize>,
    lines: &[Recorded],
) -> Result<Vec<Recorded>, AllocError>
    ensures { IfOk result (λ once. map plain_recorded once.items
        ≡ map (λ t. once_line (tally counts.now.entries (cause_text t.words)) t) (map plain_recorded lines.now)) }
{
    let mut once = Vec::new(alloc);
    for line in lines {
        let made = once_line(alloc, counts, line)?;
        once.push(made)?;
    }
    Ok(once)
}

/// The line of a cause, by its first line and what was counted.
fn once_line(
    alloc: Global,
    counts: &IndexMap<Vec<u8>, usize>,
    line: &Recorded,
) -> Result<Recorded, AllocError>
    ensures { IfOk result (λ made. plain_recorded made
        ≡ once_line (tally counts.now.entries (cause_text (string_bytes line.now.words))) (plain_recorded line.now)) }
{
    let commands = count_of(counts, cause_of(line.words.as_str()).as_bytes());
    let words = once_words(alloc, commands, line.words.as_str())?;
    let message = String::from_str(alloc, line.message.as_str())?;
    Ok(Recorded {
        command: line.command,
        words,
        message,
    })
}

/// The line of a cause that so many commands have, by the words of its first line.
pub fn once_words(alloc: Global, commands: usize, words: &str) -> Result<String, AllocError>
    ensures { IfOk result (λ made. string_bytes made ≡ once_words commands words.now) }
{
    let (path, cause) = path_and_cause(words);
    let noun = noun(commands);
    format!(in alloc; "{cause}, in {commands} {noun}, first in {path}")
}

fn noun(commands: usize) -> &'static str
    ensures { result.now ≡ noun commands }
{
    if commands == 1 { "command" } else { "commands" }
}
