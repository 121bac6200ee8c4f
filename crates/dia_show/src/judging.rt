//! What `show` writes for each line, and how lines ended.

ghost use Rattle.std.specs.Prelude.{◌≡◌, IfOk};
ghost use Rattle.dia_run.specs.Outcome.{Ends};
ghost use Rattle.dia_show.specs.Lines.{IsLineShown, answer_of, is_yes};
ghost use Rattle.dia_show.specs.Manners.{plain_manner_of};

use crate::command::show_message;
use crate::manner::Manner;
use dia_dict::Book;
use dia_io::{Exit, Input};
use dia_report::Refused;
use dia_run::{Outcome, outcome_of, read_message};
use dia_streams::{Judge, Watch};
use std::alloc::{AllocError, Global};

/// `show` of each line, in a manner and with the names of a dictionary.
#[derive(Drop)]
pub(crate) struct ShowJudge<'a, 't, B: Book> {
    pub manner: &'a Manner<'t>,
    pub book: &'a B,
}

/// How lines ended.
#[derive(Drop)]
pub(crate) struct Endings {
    /// Each was shown to its end.
    pub each: bool,
}

impl<'a, 't, B: Book> Judge for ShowJudge<'a, 't, B> {
    ghost use Rattle.dia_show.specs.Lines.{IsLineShown, answer_of, numbered};
    ghost use Rattle.dia_show.specs.Manners.{plain_manner_of};

    type Verdict = Outcome;

    ghost says = { λ judge line verdict. IsLineShown (plain_manner_of judge.manner.now)
        (B.Book.meaning judge.book.now) line (answer_of verdict) };

    ghost recorded = { λ _ number verdict. numbered number (answer_of verdict) };

    fn judge(
        &self,
        alloc: Global,
        number: u64,
        line: &Input,
        _space: &mut Vec<u8>,
        text: &mut String,
    ) -> Result<Outcome, AllocError> {
        let shown = show_line(alloc, self.manner, self.book, line)?;
        writeln!(text, "line {number}")?;
        text.push_str(shown.text.as_str())?;
        Ok(shown)
    }
}

impl Watch<Outcome> for Endings {
    ghost use Rattle.std.specs.Prelude.{◌≡◌, map};
    ghost use Rattle.dia_show.specs.Lines.{answer_of, each_whole};

    ghost saw = { λ endings verdicts. endings.each ≡ each_whole (map answer_of verdicts) };

    fn see(&mut self, verdict: Outcome) {
        self.end(verdict.exit);
    }
}

impl Endings {
    ghost use Rattle.std.specs.Prelude.{◌≡◌, ◌&&◌};
    ghost use Rattle.dia_show.specs.Lines.{is_yes};

    /// One more line ended so.
    fn end(&mut self, exit: Exit)
        ensures { self.new.each ≡ (self.old.each && is_yes exit) }
    {
        let whole = is_yes(exit);
        self.each = self.each && whole;
    }
}

/// What `show` writes for a line, and how it ends.
fn show_line<B: Book>(
    alloc: Global,
    manner: &Manner<'_>,
    book: &B,
    line: &Input,
) -> Result<Outcome, AllocError>
    ensures { IfOk result (λ shown. IsLineShown (plain_manner_of manner.now) (B.meaning book.now)
        line.now (answer_of shown)) }
{
    outcome_of(alloc, listed_line(alloc, manner, book, line))
}

/// The lines of the message, or why it is refused.
fn listed_line<B: Book>(
    alloc: Global,
    manner: &Manner<'_>,
    book: &B,
    line: &Input,
) -> Result<Outcome, Refused>
    ensures { Ends (λ text exit. IsLineShown (plain_manner_of manner.now) (B.meaning book.now) line.now (text, exit)) result }
{
    let message = read_message(alloc, line)?;
    show_message(alloc, manner, book, message.as_slice())
}

/// Whether a message that ended so was shown to its end.
fn is_yes(exit: Exit) -> bool
    ensures { result ≡ is_yes exit }
{
    matches!(exit, Exit::Yes)
}
