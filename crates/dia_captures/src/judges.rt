//! The verdicts of `check` and `refute` on a line, and of `check` on the bytes of a message.

ghost use Rattle.std.specs.Prelude.{IfOk};
ghost use Rattle.dia_captures.specs.Verdicts.{IsLineChecked, IsLineRefuted, IsMessageChecked};

use crate::spelling::spell_line;
use crate::verdicts::{Checked, Flaw, Refuted};
use dia_check::{Levels, Unknown, check};
use dia_dict::Book;
use dia_io::Input;
use dia_streams::{Judge, MessageJudge};
use std::alloc::{AllocError, Global};

/// `check` of each line, or of each message of a stream.
#[derive(Drop)]
pub struct CheckJudge<'a, B: Book> {
    pub book: &'a B,
    pub unknown: Unknown,
    pub levels: Levels,
}

/// `refute` of each line.
#[derive(Drop)]
pub struct RefuteJudge<'a, A: Book, B: Book> {
    pub first: &'a A,
    pub second: &'a B,
    pub unknown: Unknown,
    pub levels: Levels,
}

impl<'a, B: Book> Judge for CheckJudge<'a, B> {
    ghost use Rattle.dia_captures.specs.Verdicts.{IsLineChecked, checked_line};

    type Verdict = Checked;

    ghost says = { λ judge line verdict.
        IsLineChecked judge.unknown judge.levels (B.Book.meaning judge.book.now) line verdict };

    ghost recorded = { λ judge _ verdict. checked_line (B.Book.meaning judge.book.now) verdict };

    fn judge(
        &self,
        alloc: Global,
        _number: u64,
        line: &Input,
        space: &mut Vec<u8>,
        text: &mut String,
    ) -> Result<Checked, AllocError> {
        let verdict = check_line(alloc, self.book, self.unknown, self.levels, line, space)?;
        verdict.push(text, self.book)?;
        Ok(verdict)
    }
}

impl<'a, A: Book, B: Book> Judge for RefuteJudge<'a, A, B> {
    ghost use Rattle.dia_captures.specs.Verdicts.{IsLineRefuted, refuted_line};

    type Verdict = Refuted;

    ghost says = { λ judge line verdict. IsLineRefuted judge.unknown judge.levels
        (A.Book.meaning judge.first.now) (B.Book.meaning judge.second.now) line verdict };

    ghost recorded = { λ _ _ verdict. refuted_line verdict };

    fn judge(
        &self,
        alloc: Global,
        _number: u64,
        line: &Input,
        space: &mut Vec<u8>,
        text: &mut String,
    ) -> Result<Refuted, AllocError> {
        let verdict = self.refute_line(alloc, line, space)?;
        text.push_str(verdict.line())?;
        Ok(verdict)
    }
}

impl<'a, A: Book, B: Book> RefuteJudge<'a, A, B> {
    ghost use Rattle.std.specs.Prelude.{IfOk};
    ghost use Rattle.dia_captures.specs.Verdicts.{IsLineRefuted};

    /// Both verdicts on the text of a message, which is decoded once.
    pub fn refute_line(
        &self,
        alloc: Global,
        line: &Input,
        space: &mut Vec<u8>,
    ) -> Result<Refuted, AllocError>
        ensures { IfOk result (IsLineRefuted self.now.unknown self.now.levels
            (A.meaning self.now.first.now) (B.meaning self.now.second.now) line.now) }
    {
        let spelled = spell_line(alloc, line, space)?;
        match spelled {
            Ok(count) => {
                let bytes = &space[..count];
                let first = check_bytes(alloc, self.first, self.unknown, self.levels, bytes)?;
                let second = check_bytes(alloc, self.second, self.unknown, self.levels, bytes)?;
                Ok(Refuted { first, second })
            }
            Err(flaw) => Ok(Refuted {
                first: Checked::Wrong(flaw),
                second: Checked::Wrong(flaw),
            }),
        }
    }
}

impl<'a, B: Book> MessageJudge for CheckJudge<'a, B> {
    ghost use Rattle.dia_captures.specs.Verdicts.{IsPieceChecked, placed_line};

    type Verdict = Checked;

    ghost says = { λ judge bytes verdict.
        IsPieceChecked judge.unknown judge.levels (B.Book.meaning judge.book.now) bytes verdict };

    ghost recorded = { λ judge verdict. placed_line (B.Book.meaning judge.book.now) verdict };

    fn judge(
        &self,
        alloc: Global,
        at: u64,
        message: &[u8],
        text: &mut String,
    ) -> Result<Checked, AllocError> {
        let verdict = check_bytes(alloc, self.book, self.unknown, self.levels, message)?;
        write!(text, "{at} ")?;
        verdict.push(text, self.book)?;
        Ok(verdict)
    }

    fn judge_no_digits(&self, at: u64, text: &mut String) -> Result<Checked, AllocError> {
        let verdict = Checked::Wrong(Flaw::NotHexadecimal);
        write!(text, "{at} ")?;
        verdict.push(text, self.book)?;
        Ok(verdict)
    }
}

/// The verdict on the text of a message. What the space holds means nothing.
pub fn check_line<B: Book>(
    alloc: Global,
    book: &B,
    unknown: Unknown,
    levels: Levels,
    line: &Input,
    space: &mut Vec<u8>,
) -> Result<Checked, AllocError>
    ensures { IfOk result (IsLineChecked unknown levels (B.meaning book.now) line.now) }
{
    let spelled = spell_line(alloc, line, space)?;
    match spelled {
        Ok(count) => check_bytes(alloc, book, unknown, levels, &space[..count]),
        Err(flaw) => Ok(Checked::Wrong(flaw)),
    }
}

/// The verdict on the bytes of a message.
pub fn check_bytes<B: Book>(
    alloc: Global,
    book: &B,
    unknown: Unknown,
    levels: Levels,
    bytes: &[u8],
) -> Result<Checked, AllocError>
    ensures { IfOk result (IsMessageChecked unknown levels (B.meaning book.now) bytes.now) }
{
    Checked::of_answer(check(alloc, book, unknown, levels, bytes))
}
