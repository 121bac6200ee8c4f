//! The lines that were answered, and the one that is under way.

use crate::judge::Judge;
use crate::pending::{clear, extend, is_empty};
use crate::splitting::split_line;
use crate::watch::Watch;
use dia_io::Input;
use std::alloc::{AllocError, Global};

/// The answers to the lines that were read.
#[derive(Drop)]
pub struct Answered {
    /// The line that isn't at its end yet.
    pub line: Input,
    /// How many lines were answered, up to the greatest number.
    pub count: u64,
    /// Memory for the judge.
    pub space: Vec<u8>,
    /// The answers that weren't put yet.
    pub text: String,
}

impl Answered {
    ghost use Rattle.std.specs.Prelude.{◌≡◌, ◌+◌, ◌++◌, ◌∷◌, List, [], OnOk, string_bytes};
    ghost use Rattle.dia_streams.specs.FeedToSink.{Sees};
    ghost use Rattle.dia_streams.specs.Lines.{IsLine, IsLineInput, line_feed, line_number};
    ghost use Rattle.dia_streams.specs.LinesUnderWay.{Ends, Reads};

    /// Nothing was read yet.
    pub fn new(alloc: Global) -> Answered
        ensures line { IsLineInput result.line [] }
        ensures count { result.count ≡ 0 }
        ensures text { string_bytes result.text ≡ [] }
    {
        Answered {
            line: Input::Bytes(Vec::new(alloc)),
            count: 0,
            space: Vec::new(alloc),
            text: String::new(alloc),
        }
    }

    /// Answers the lines that end in the next piece.
    pub fn read<J: Judge, W: Watch<J::Verdict>>(
        &mut self,
        alloc: Global,
        judge: &J,
        watch: &mut W,
        piece: &[u8],
    ) -> Result<(), AllocError>
        ensures { OnOk result ((more : List J.Verdict) × Reads (J.says judge.now)
            (J.recorded judge.now) W.saw self.old self.new watch.old watch.new piece.now more) }
    {
        let mut rest = piece;
        while let Some((line, following)) = split_line(rest) {
            self.read_line(alloc, judge, watch, line)?;
            rest = following;
        }
        extend(&mut self.line, rest)
    }

    /// Answers the line that is under way, if there is one.
    pub fn end<J: Judge, W: Watch<J::Verdict>>(
        &mut self,
        alloc: Global,
        judge: &J,
        watch: &mut W,
    ) -> Result<(), AllocError>
        ensures { OnOk result ((more : List J.Verdict) × Ends (J.says judge.now)
            (J.recorded judge.now) W.saw self.old self.new watch.old watch.new more) }
    {
        if is_empty(&self.line) {
            return Ok(());
        }
        self.answer(alloc, judge, watch)
    }

    /// Answers the line that is under way with these bytes at its end.
    fn read_line<J: Judge, W: Watch<J::Verdict>>(
        &mut self,
        alloc: Global,
        judge: &J,
        watch: &mut W,
        bytes: &[u8],
    ) -> Result<(), AllocError>
        requires { IsLine bytes.now }
        ensures { OnOk result ((more : List J.Verdict)
            × Reads (J.says judge.now) (J.recorded judge.now) W.saw
            self.old self.new watch.old watch.new (bytes.now ++ line_feed ∷ []) more) }
    {
        extend(&mut self.line, bytes)?;
        self.answer(alloc, judge, watch)
    }

    /// Answers the line that is under way, and begins the next one.
    fn answer<J: Judge, W: Watch<J::Verdict>>(
        &mut self,
        alloc: Global,
        judge: &J,
        watch: &mut W,
    ) -> Result<(), AllocError>
        ensures { OnOk result ((verdict : J.Verdict)
            × J.says judge.now self.old.line verdict
            × (string_bytes self.new.text ≡ string_bytes self.old.text ++ J.recorded judge.now self.new.count verdict)
            × (self.new.count ≡ line_number (self.old.count + 1))
            × Sees W.saw watch.old watch.new (verdict ∷ [])
            × IsLineInput self.new.line []) }
    {
        self.count = self.count.saturating_add(1);
        let verdict = judge.judge(
            alloc,
            self.count,
            &self.line,
            &mut self.space,
            &mut self.text,
        )?;
        watch.see(verdict);
        clear(alloc, &mut self.line);
        Ok(())
    }
}
