//! The lines that were masked, and the one that is under way.

ghost use Rattle.std.specs.Prelude.{◌≡◌, ◌≢◌, ◌++◌, ◌+◌, ◌∷◌, ℕ, List, [], IfOk, OnOk, codes, string_bytes};
ghost use Rattle.hex.specs.Hex.{encode_lower};
ghost use Rattle.dia_streams.specs.FeedToSink.{Sees};
ghost use Rattle.dia_streams.specs.Lines.{IsLine, IsLineInput, line_feed, line_number};
ghost use Rattle.dia_mask.specs.declared.words.Words.{Words};
ghost use Rattle.dia_mask.specs.Runs.{words_of};
ghost use Rattle.dia_mask.specs.Words.{AreAllNumbers, Grows};
ghost use Rattle.dia_mask_text.specs.Lines.{Counts, EndsMasked, IsLineMasked, IsMaskedBy, MaskedLine, ReadsMasked, line_text, why};

use crate::spelling::{Unread, spell_line};
use dia_dict::Book;
use dia_io::Input;
use dia_mask::{Choice, Run, mask_message};
use dia_streams::{clear, extend, is_empty, split_line};
use std::alloc::{AllocError, Global};

/// How lines are masked.
#[derive(Drop)]
pub(crate) struct Manner<'a, B: Book> {
    pub(crate) book: &'a B,
    pub(crate) choice: Choice,
}

/// What is known after the lines that were masked.
#[derive(Drop)]
pub(crate) struct State {
    pub(crate) run: Run,
    /// How many lines spell no bytes, and the number of the first.
    pub(crate) unread: u64,
    pub(crate) first_unread: u64,
    /// The bytes that replace those of a line.
    masked: Vec<u8>,
}

/// The answers to the lines that were read.
#[derive(Drop)]
pub(crate) struct Answered {
    /// The line that isn't at its end yet.
    line: Input,
    /// How many lines were answered, up to the greatest number.
    pub(crate) count: u64,
    /// Memory for the bytes of a line.
    space: Vec<u8>,
    /// Pending answers.
    pub(crate) text: String,
}

impl State {
    pub(crate) fn new<B: Book>(alloc: Global, book: &B, collects: bool) -> Result<State, AllocError>
        ensures numbers { IfOk result (λ state. AreAllNumbers (words_of state.run)) }
        ensures unread { IfOk result (λ state. state.unread ≡ 0) }
    {
        Ok(State {
            run: Run::new(alloc, book, collects)?,
            unread: 0,
            first_unread: 0,
            masked: Vec::new(alloc),
        })
    }

    /// Adds the answer to the line of this number.
    fn answer<B: Book>(
        &mut self,
        alloc: Global,
        manner: &Manner<'_, B>,
        number: u64,
        line: &Input,
        space: &mut Vec<u8>,
        text: &mut String,
    ) -> Result<(), AllocError>
        ensures grows { OnOk result (Grows (words_of self.old.run) (words_of self.new.run)) }
        ensures line { OnOk result ((words : Words) → Grows (words_of self.new.run) words
            → (said : MaskedLine) × IsLineMasked manner.now.choice words (B.meaning manner.now.book.now) line.now said
            × (string_bytes text.new ≡ string_bytes text.old ++ line_text said)
            × Sees Counts self.old.unread self.new.unread (said ∷ [])) }
    {
        let spelled = spell_line(alloc, line, space)?;
        match spelled {
            Ok(count) => self.mask(alloc, manner, &space[..count], text),
            Err(unread) => self.refuse(number, unread, text),
        }
    }

    fn mask<B: Book>(
        &mut self,
        alloc: Global,
        manner: &Manner<'_, B>,
        bytes: &[u8],
        text: &mut String,
    ) -> Result<(), AllocError>
        ensures grows { OnOk result (Grows (words_of self.old.run) (words_of self.new.run)) }
        ensures message { OnOk result ((new : List ℕ)
            × IsMaskedBy manner.now.choice (words_of self.new.run) (B.meaning manner.now.book.now) bytes.now new
            × (string_bytes text.new ≡ string_bytes text.old ++ (encode_lower new ++ codes "\n"))) }
        ensures unread { OnOk result (self.new.unread ≡ self.old.unread) }
    {
        self.masked.clear();
        mask_message(
            alloc,
            manner.book,
            &manner.choice,
            &mut self.run,
            bytes,
            &mut self.masked,
        )?;
        let digits = hex::encode(alloc, &self.masked)?;
        text.push_str(digits.as_str())?;
        text.push('\n')?;
        Ok(())
    }

    fn refuse(&mut self, number: u64, unread: Unread, text: &mut String) -> Result<(), AllocError>
        ensures run { self.new.run ≡ self.old.run }
        ensures line { OnOk result (string_bytes text.new ≡ string_bytes text.old ++ (why unread ++ codes "\n")) }
        ensures unread { OnOk result (self.new.unread ≢ 0) }
    {
        if self.unread == 0 {
            self.first_unread = number;
        }
        self.unread = self.unread.saturating_add(1);
        text.push_str(unread.line())
    }
}

impl Answered {
    pub(crate) fn new(alloc: Global) -> Answered
        ensures line { IsLineInput result.line [] }
        ensures count { result.count ≡ 0 }
        ensures text { string_bytes result.text ≡ [] }
    {
        Answered {
            line: Input::Bytes(Vec::new(alloc)),
            count: 0,
            space: Vec::new(alloc),
            text: String::new(alloc),
        }
    }

    /// Answers the lines that end in the next piece.
    pub(crate) fn read<B: Book>(
        &mut self,
        alloc: Global,
        manner: &Manner<'_, B>,
        state: &mut State,
        piece: &[u8],
    ) -> Result<(), AllocError>
        ensures grows { OnOk result (Grows (words_of state.old.run) (words_of state.new.run)) }
        ensures lines { OnOk result ((words : Words) → Grows (words_of state.new.run) words
            → (lines : List MaskedLine) × ReadsMasked manner.now.choice words (B.meaning manner.now.book.now)
            self.old self.new state.old.unread state.new.unread piece.now lines) }
    {
        let mut rest = piece;
        while let Some((line, following)) = split_line(rest) {
            self.read_line(alloc, manner, state, line)?;
            rest = following;
        }
        extend(&mut self.line, rest)?;
        Ok(())
    }

    /// Answers the line that is under way, if there is one.
    pub(crate) fn end<B: Book>(
        &mut self,
        alloc: Global,
        manner: &Manner<'_, B>,
        state: &mut State,
    ) -> Result<(), AllocError>
        ensures grows { OnOk result (Grows (words_of state.old.run) (words_of state.new.run)) }
        ensures lines { OnOk result ((words : Words) → Grows (words_of state.new.run) words
            → (lines : List MaskedLine) × EndsMasked manner.now.choice words (B.meaning manner.now.book.now)
            self.old self.new state.old.unread state.new.unread lines) }
    {
        if is_empty(&self.line) {
            return Ok(());
        }
        self.answer(alloc, manner, state)?;
        Ok(())
    }

    /// Answers the line that is under way with these bytes at its end.
    fn read_line<B: Book>(
        &mut self,
        alloc: Global,
        manner: &Manner<'_, B>,
        state: &mut State,
        bytes: &[u8],
    ) -> Result<(), AllocError>
        requires { IsLine bytes.now }
        ensures grows { OnOk result (Grows (words_of state.old.run) (words_of state.new.run)) }
        ensures lines { OnOk result ((words : Words) → Grows (words_of state.new.run) words
            → (lines : List MaskedLine) × ReadsMasked manner.now.choice words (B.meaning manner.now.book.now)
            self.old self.new state.old.unread state.new.unread (bytes.now ++ line_feed ∷ []) lines) }
    {
        extend(&mut self.line, bytes)?;
        self.answer(alloc, manner, state)?;
        Ok(())
    }

    /// Answers the line that is under way, and begins the next one.
    fn answer<B: Book>(
        &mut self,
        alloc: Global,
        manner: &Manner<'_, B>,
        state: &mut State,
    ) -> Result<(), AllocError>
        ensures grows { OnOk result (Grows (words_of state.old.run) (words_of state.new.run)) }
        ensures line { OnOk result ((words : Words) → Grows (words_of state.new.run) words
            → (said : MaskedLine) × IsLineMasked manner.now.choice words (B.meaning manner.now.book.now) self.old.line said
            × (string_bytes self.new.text ≡ string_bytes self.old.text ++ line_text said)
            × Sees Counts state.old.unread state.new.unread (said ∷ [])) }
        ensures begun { OnOk result (IsLineInput self.new.line []) }
        ensures count { OnOk result (self.new.count ≡ line_number (self.old.count + 1)) }
    {
        self.count = self.count.saturating_add(1);
        state.answer(
            alloc,
            manner,
            self.count,
            &self.line,
            &mut self.space,
            &mut self.text,
        )?;
        clear(alloc, &mut self.line);
        Ok(())
    }
}
