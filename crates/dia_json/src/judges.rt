//! Judges that write their verdicts as JSON.

use crate::verdicts::{push_numbered, push_numbered_refuted, push_placed};
use dia_captures::{CheckJudge, Checked, Flaw, RefuteJudge, Refuted, check_bytes, check_line};
use dia_dict::Book;
use dia_io::Input;
use dia_streams::{Judge, MessageJudge};
use std::alloc::{AllocError, Global};

/// `check` of each line, or of each message of a stream, written as JSON.
#[derive(Drop)]
pub struct JsonCheck<'a, B: Book> {
    pub check: CheckJudge<'a, B>,
}

/// `refute` of each line, written as JSON.
#[derive(Drop)]
pub struct JsonRefute<'a, A: Book, B: Book> {
    pub refute: RefuteJudge<'a, A, B>,
}

impl<'a, B: Book> Judge for JsonCheck<'a, B> {
    ghost use Rattle.dia_captures.specs.Verdicts.{IsLineChecked};
    ghost use Rattle.dia_json.specs.Values.{numbered_json};

    type Verdict = Checked;

    ghost says = { λ judge line verdict. IsLineChecked judge.check.unknown judge.check.levels
        (B.Book.meaning judge.check.book.now) line verdict };

    ghost recorded = { λ judge number verdict.
        numbered_json (B.Book.meaning judge.check.book.now) number verdict };

    fn judge(
        &self,
        alloc: Global,
        number: u64,
        line: &Input,
        space: &mut Vec<u8>,
        text: &mut String,
    ) -> Result<Checked, AllocError> {
        let verdict = check_line(
            alloc,
            self.check.book,
            self.check.unknown,
            self.check.levels,
            line,
            space,
        )?;
        push_numbered(alloc, text, self.check.book, number, &verdict)?;
        Ok(verdict)
    }
}

impl<'a, B: Book> MessageJudge for JsonCheck<'a, B> {
    ghost use Rattle.dia_captures.specs.Verdicts.{IsPieceChecked};
    ghost use Rattle.dia_json.specs.Values.{placed_json};

    type Verdict = Checked;

    ghost says = { λ judge bytes verdict. IsPieceChecked judge.check.unknown judge.check.levels
        (B.Book.meaning judge.check.book.now) bytes verdict };

    ghost recorded = { λ judge verdict. placed_json (B.Book.meaning judge.check.book.now) verdict };

    fn judge(
        &self,
        alloc: Global,
        at: u64,
        message: &[u8],
        text: &mut String,
    ) -> Result<Checked, AllocError> {
        let verdict = check_bytes(
            alloc,
            self.check.book,
            self.check.unknown,
            self.check.levels,
            message,
        )?;
        push_placed(alloc, text, self.check.book, at, &verdict)?;
        Ok(verdict)
    }

    fn judge_no_digits(&self, at: u64, text: &mut String) -> Result<Checked, AllocError> {
        write!(
            text,
            "{{\"place\":{at},\"error\":\"message\",\"kind\":\"not hexadecimal\"}}\n"
        )?;
        Ok(Checked::Wrong(Flaw::NotHexadecimal))
    }
}

impl<'a, A: Book, B: Book> Judge for JsonRefute<'a, A, B> {
    ghost use Rattle.dia_captures.specs.Verdicts.{IsLineRefuted};
    ghost use Rattle.dia_json.specs.Values.{numbered_refuted_json};

    type Verdict = Refuted;

    ghost says = { λ judge line verdict. IsLineRefuted judge.refute.unknown judge.refute.levels
        (A.Book.meaning judge.refute.first.now) (B.Book.meaning judge.refute.second.now) line verdict };

    ghost recorded = { λ judge number verdict. numbered_refuted_json
        (A.Book.meaning judge.refute.first.now) (B.Book.meaning judge.refute.second.now) number verdict };

    fn judge(
        &self,
        alloc: Global,
        number: u64,
        line: &Input,
        space: &mut Vec<u8>,
        text: &mut String,
    ) -> Result<Refuted, AllocError> {
        let verdict = self.refute.refute_line(alloc, line, space)?;
        push_numbered_refuted(
            alloc,
            text,
            self.refute.first,
            self.refute.second,
            number,
            &verdict,
        )?;
        Ok(verdict)
    }
}
