//! The lines that were answered, and the one that is under way.

ghost use Rattle.std.specs.Prelude.{◌≡◌, List, ℕ, Ok, Some, IfOk, OnOk, if◌then◌else◌, string_bytes};
ghost use Rattle.hex.specs.Hex.{decode_of};
ghost use Rattle.dia_terms.specs.Limits.{max_message_text};
ghost use Rattle.dia_io.specs.declared.Input.{Input as AnyInput};
ghost use Rattle.dia_io.specs.Inputs.{Holds};
ghost use Rattle.dia_follow.specs.Connections.{new_connection, the_middle};
ghost use Rattle.dia_follow_text.specs.Entries.{entry_of};
ghost use Rattle.dia_follow_text.specs.Outcome.{Captured, IsCaptured, IsLineOf, PlainLine, answered_line, captured};
ghost use Rattle.dia_follow_text.specs.UnderWay.{Reaches, progress_of};

use crate::counts::Counts;
use crate::entry::{BadLine, Entry, read_line};
use crate::judging::judge;
use crate::messages::push_answer;
use crate::options::Options;
use crate::unanswered::push_all_unanswered;
use dia_dict::Book;
use dia_follow::{Connection, Line, read};
use dia_io::Input;
use dia_streams::{clear, decode_digits, extend, is_empty, split_line};
use dia_terms::MAX_MESSAGE_TEXT;
use std::alloc::{AllocError, Global};

/// How lines are answered.
#[derive(Drop)]
pub(crate) struct Manner<'a, B: Book> {
    pub(crate) book: &'a B,
    pub(crate) options: Options,
}

/// What is known after the lines that were answered.
#[derive(Drop)]
pub(crate) struct State {
    pub(crate) connection: Connection,
    pub(crate) counts: Counts,
    /// A departure was reported.
    pub(crate) departs: bool,
}

/// The answers to the lines that were read.
#[derive(Drop)]
pub(crate) struct Answered {
    pub(crate) state: State,
    /// The line that isn't at its end yet.
    line: Input,
    /// How many lines were answered, up to the greatest number.
    pub(crate) number: u64,
    space: Vec<u8>,
    /// Pending answers.
    pub(crate) text: String,
}

impl Answered {
    ghost use Rattle.std.specs.Prelude.{◌≡◌, ◌++◌, ◌∷◌, [], IfOk, OnOk, if◌then◌else◌, string_bytes};
    ghost use Rattle.dia_follow.specs.Connections.{new_connection, the_middle};
    ghost use Rattle.dia_streams.specs.Lines.{IsLine, IsLineInput, line_feed};
    ghost use Rattle.dia_follow_text.specs.Outcome.{IsLineOf, PlainLine, begun, next_line};
    ghost use Rattle.dia_follow_text.specs.UnderWay.{Ends, ReachesNow, Reads, ReadsLast, progress_at};

    pub(crate) fn new(alloc: Global, options: &Options) -> Answered
        ensures line { IsLineInput result.line [] }
        ensures progress { progress_at result ≡ begun options.now.middle }
        ensures text { string_bytes result.text ≡ [] }
    {
        let state = State {
            connection: first_connection(alloc, options.middle),
            counts: Counts::new(alloc),
            departs: false,
        };
        Answered {
            state,
            line: Input::Bytes(Vec::new(alloc)),
            number: 0,
            space: Vec::new(alloc),
            text: String::new(alloc),
        }
    }

    /// Answers the lines that end in the next piece, up to one that is refused.
    pub(crate) fn read<B: Book>(
        &mut self,
        alloc: Global,
        manner: &Manner<'_, B>,
        piece: &[u8],
    ) -> Result<Option<BadLine>, AllocError>
        ensures { IfOk result (Reads (B.meaning manner.now.book.now) manner.now.options self.old self.new piece.now) }
    {
        let mut rest = piece;
        while let Some((line, following)) = split_line(rest) {
            let bad = self.read_line(alloc, manner, line)?;
            if bad.is_some() {
                return Ok(bad);
            }
            rest = following;
        }
        extend(&mut self.line, rest)?;
        Ok(None)
    }

    /// Answers the line that is under way, if there is one, and notes the requests without answer.
    pub(crate) fn end<B: Book>(
        &mut self,
        alloc: Global,
        manner: &Manner<'_, B>,
    ) -> Result<Option<BadLine>, AllocError>
        ensures { IfOk result (Ends (B.meaning manner.now.book.now) manner.now.options self.old self.new) }
    {
        let bad = self.end_line(alloc, manner)?;
        if bad.is_some() {
            return Ok(bad);
        }
        push_all_unanswered(alloc, &mut self.text, manner, &mut self.state)?;
        Ok(None)
    }

    /// Answers the line that is under way, if there is one.
    fn end_line<B: Book>(
        &mut self,
        alloc: Global,
        manner: &Manner<'_, B>,
    ) -> Result<Option<BadLine>, AllocError>
        ensures { IfOk result (ReadsLast (B.meaning manner.now.book.now) manner.now.options self.old self.new) }
    {
        if is_empty(&self.line) {
            return Ok(None);
        }
        self.answer(alloc, manner)
    }

    /// Answers the line that is under way with these bytes at its end.
    fn read_line<B: Book>(
        &mut self,
        alloc: Global,
        manner: &Manner<'_, B>,
        bytes: &[u8],
    ) -> Result<Option<BadLine>, AllocError>
        requires { IsLine bytes.now }
        ensures { IfOk result (Reads (B.meaning manner.now.book.now) manner.now.options self.old self.new
            (bytes.now ++ line_feed ∷ [])) }
    {
        extend(&mut self.line, bytes)?;
        self.answer(alloc, manner)
    }

    /// Answers the line that is under way, and begins the next one.
    fn answer<B: Book>(
        &mut self,
        alloc: Global,
        manner: &Manner<'_, B>,
    ) -> Result<Option<BadLine>, AllocError>
        ensures { IfOk result (λ bad. (line : PlainLine)
            × IsLineOf (B.meaning manner.now.book.now) manner.now.options.check self.old.line line
            × ReachesNow manner.now.options.json (next_line (B.meaning manner.now.book.now) manner.now.options.json
            (progress_at self.old) line) self.new bad
            × IsLineInput self.new.line []) }
    {
        self.number = self.number.saturating_add(1);
        let bad = answer_line(
            alloc,
            &mut self.text,
            manner,
            &mut self.state,
            self.number,
            &self.line,
            &mut self.space,
        )?;
        clear(alloc, &mut self.line);
        Ok(bad)
    }
}

fn first_connection(alloc: Global, middle: bool) -> Connection
    ensures { result ≡ (if middle then the_middle new_connection else new_connection) }
{
    if middle {
        Connection::middle(alloc)
    } else {
        Connection::new(alloc)
    }
}

/// Adds the answer to a line.
fn answer_line<B: Book>(
    alloc: Global,
    text: &mut String,
    manner: &Manner<'_, B>,
    state: &mut State,
    number: u64,
    line: &Input,
    space: &mut Vec<u8>,
) -> Result<Option<BadLine>, AllocError>
    ensures { IfOk result (λ bad. (is : PlainLine)
        × IsLineOf (B.meaning manner.now.book.now) manner.now.options.check line.now is
        × Reaches manner.now.options.json (answered_line (B.meaning manner.now.book.now) manner.now.options.json number
        (progress_of number state.old (string_bytes text.old)) is) number state.new (string_bytes text.new) bad) }
{
    let Some(words) = line.within(MAX_MESSAGE_TEXT) else {
        return Ok(Some(BadLine::TooLong));
    };
    answer_words(alloc, text, manner, state, number, words, space)
}

/// Adds the answer to a line that isn't too long.
fn answer_words<B: Book>(
    alloc: Global,
    text: &mut String,
    manner: &Manner<'_, B>,
    state: &mut State,
    number: u64,
    words: &[u8],
    space: &mut Vec<u8>,
) -> Result<Option<BadLine>, AllocError>
    ensures { IfOk result (λ bad. (is : PlainLine) × ((input : AnyInput) → Holds input max_message_text words.now
        → IsLineOf (B.meaning manner.now.book.now) manner.now.options.check input is)
        × Reaches manner.now.options.json (answered_line (B.meaning manner.now.book.now) manner.now.options.json number
        (progress_of number state.old (string_bytes text.old)) is) number state.new (string_bytes text.new) bad) }
{
    match read_line(words) {
        Ok(Some(entry)) => answer_entry(alloc, text, manner, state, number, &entry, space),
        Ok(None) => Ok(None),
        Err(bad) => Ok(Some(bad)),
    }
}

/// Adds the answer to the entry of a line.
fn answer_entry<B: Book>(
    alloc: Global,
    text: &mut String,
    manner: &Manner<'_, B>,
    state: &mut State,
    number: u64,
    entry: &Entry<'_>,
    space: &mut Vec<u8>,
) -> Result<Option<BadLine>, AllocError>
    ensures { IfOk result (λ bad. (is : PlainLine) × ((input : AnyInput) (words : List ℕ) → Holds input max_message_text words
        → entry_of words ≡ Ok (Some entry.now) → IsLineOf (B.meaning manner.now.book.now) manner.now.options.check input is)
        × Reaches manner.now.options.json (answered_line (B.meaning manner.now.book.now) manner.now.options.json number
        (progress_of number state.old (string_bytes text.old)) is) number state.new (string_bytes text.new) bad) }
{
    let spelled = decode_digits(alloc, entry.digits, space)?;
    match spelled {
        Some(count) => {
            answer_message(alloc, text, manner, state, number, entry, &space[..count])?;
            Ok(None)
        }
        None => Ok(Some(BadLine::NotHexadecimal)),
    }
}

/// Adds the answer to a message.
fn answer_message<B: Book>(
    alloc: Global,
    text: &mut String,
    manner: &Manner<'_, B>,
    state: &mut State,
    number: u64,
    entry: &Entry<'_>,
    bytes: &[u8],
) -> Result<(), AllocError>
    ensures { OnOk result ((m : Captured) × ((words : List ℕ) → entry_of words ≡ Ok (Some entry.now)
        → decode_of entry.now.digits ≡ Ok bytes.now
        → IsCaptured (B.meaning manner.now.book.now) manner.now.options.check words m)
        × (progress_of number state.new (string_bytes text.new)
        ≡ answered_line (B.meaning manner.now.book.now) manner.now.options.json number
        (progress_of number state.old (string_bytes text.old)) (captured m))) }
{
    let seen = read(alloc, bytes)?;
    let said = judge(alloc, manner, bytes, &seen)?;
    let line = Line {
        number,
        time: entry.time,
        bytes,
        seen,
        judged: said.judged,
    };
    let verdict = said.text.as_str();
    push_answer(alloc, text, manner, state, entry.end, &line, verdict)?;
    state.connection.advance(alloc, entry.end, &line)
}
