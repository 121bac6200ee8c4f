//! What breaks where messages of one dictionary are read by another.

ghost use Rattle.std.specs.Prelude.{◌≡◌, ◌≢◌, ℕ, List, map, min, position, string_bytes, suc};
ghost use Rattle.std.specs.Prelude.{IfErr, IfOk, IfSome, IsSome, None, Some};
ghost use Rattle.std.specs.Str.{bytes_eq};
ghost use Rattle.std.specs.Str.Lines.{lines};
ghost use Rattle.dia_accepted.specs.Accepted.{max_list};
ghost use Rattle.dia_compat.specs.Proposed.{IsFirstUnknown};
ghost use Rattle.dia_io.specs.Inputs.{IsWhole};
ghost use Rattle.dia_upgrades.specs.Asking.{names_of};
ghost use Rattle.dia_upgrades.specs.InWords.{in_words};
ghost use Rattle.dia_upgrades.specs.Outcome.{IsListed};
ghost use Rattle.dia_c_calls.specs.Held.{MayBeText, text_in};
ghost use Rattle.dia_c_calls.specs.Upgrades.{HasListed, IsLineOfUnknown, IsNotListed, IsRecordedOf, IsUnlisted};
ghost use Rattle.dia_c_calls.specs.Upgrades.{line_number, list_problem};
ghost use Rattle.dia_c_calls.specs.Openings.{problem};

use crate::opening::{Problem, Refused};
use crate::outcomes::{AnswerText, answer_bytes};
use crate::sink::TextSink;
use crate::wanted::Wanted;
use dia_book::Book;
use dia_io::{Exit, Input, RunFault};
use dia_upgrades::{
    Asked, BadList, BooksAnswer, Findings, InWords, MAX_LIST, Stale, breaking_of, named,
};
use std::alloc::{AllocError, Global};

/// The first dictionary has no commands.
const NO_COMMANDS: Problem = Problem {
    kind: 30,
    line: 0,
    token: 0,
};

/// What `diacmd breaking` writes of two dictionaries, of the commands with these names and with these accepted lines.
pub fn listed<A: Book, B: Book>(
    alloc: Global,
    a: &A,
    b: &B,
    wanted: Wanted,
    commands: &[u8],
    accepted: &[u8],
) -> Result<AnswerText, Refused>
    ensures done { IfOk result (λ found. IfSome (text_in (Some found.text.value))
        (λ text. HasListed (A.meaning a.now) (B.meaning b.now) wanted commands.now accepted.now text found.holds)) }
    ensures is_text { IfOk result (λ found. IsSome (text_in (Some found.text.value)) × ∥ MayBeText (Some found.text.value) ∥₁) }
    ensures problem { IfErr result
        (λ e. (p : Problem) → e ≡ Refused.Bad p → IsNotListed (A.meaning a.now) commands.now accepted.now p) }
{
    let Ok(words) = str::from_utf8(commands) else {
        return Err(Refused::Bad(no_command(0)));
    };
    let names = names_of(alloc, words)?;
    let list = input_of(alloc, accepted)?;
    let Wanted {
        sends,
        unknown,
        messages,
        once,
        meaning,
    } = wanted;
    let names = names.as_slice();
    let asked = Asked {
        sends,
        unknown,
        messages,
        once,
        meaning,
        stale: Stale::Ignored,
        names,
    };
    listed_for(alloc, asked, &list, a, b)
}

/// The names, of which each has a line of the text.
fn names_of(alloc: Global, text: &str) -> Result<Vec<String>, AllocError>
    ensures { IfOk result (λ names. map (λ name. string_bytes name) names.items ≡ lines text.now) }
{
    let mut names = Vec::new(alloc);
    for name in text.lines() {
        names.push(String::from_str(alloc, name)?)?;
    }
    Ok(names)
}

/// The input of these bytes. Of more than a list may have, none is copied.
fn input_of(alloc: Global, bytes: &[u8]) -> Result<Input, AllocError>
    ensures { IfOk result (λ input. IsWhole input max_list bytes.now) }
{
    if bytes.len() > MAX_LIST {
        return Ok(Input::TooLong);
    }
    Ok(Input::Bytes(Vec::from_slice(alloc, bytes)?))
}

/// The answer for what is asked, and for the list of accepted lines in this input.
fn listed_for<A: Book, B: Book>(
    alloc: Global,
    asked: Asked<'_>,
    list: &Input,
    a: &A,
    b: &B,
) -> Result<AnswerText, Refused>
    ensures done { IfOk result (λ found. IfSome (text_in (Some found.text.value))
        (λ text. IsRecordedOf asked.entry list.now (A.meaning a.now) (B.meaning b.now) text found.holds)) }
    ensures is_text { IfOk result (λ found. IsSome (text_in (Some found.text.value)) × ∥ MayBeText (Some found.text.value) ∥₁) }
    ensures problem { IfErr result
        (λ e. (p : Problem) → e ≡ Refused.Bad p → IsUnlisted (A.meaning a.now) list.now (names_of asked.entry) p) }
{
    let names = asked.names;
    let RecordedText { text, exit, found } = recorded_of(alloc, asked, list, a, b)?;
    match &found {
        Findings::Listed { .. } => Ok(answer_bytes(alloc, text, exit)?),
        Findings::NoList(bad) => Err(Refused::Bad(list_problem(*bad))),
        Findings::NoCommands => Err(Refused::Bad(NO_COMMANDS)),
        Findings::NoCommand => {
            let line = line_of_unknown(alloc, a, names)?;
            Err(Refused::Bad(no_command(line)))
        }
    }
}

/// What was written, how it ended, and what was found.
#[derive(Drop)]
struct RecordedText {
    text: Vec<u8>,
    exit: Exit,
    found: Findings,
}

fn recorded_of<A: Book, B: Book>(
    alloc: Global,
    asked: Asked<'_>,
    list: &Input,
    a: &A,
    b: &B,
) -> Result<RecordedText, AllocError>
    ensures { IfOk result (λ recorded. IsListed in_words asked.entry list.now (A.meaning a.now) (B.meaning b.now)
        recorded.text.items recorded.exit recorded.found) }
{
    let mut sink = TextSink::new(alloc);
    match breaking_of(alloc, asked, &InWords, list, a, b, &mut sink) {
        Ok(BooksAnswer { exit, found }) => {
            let text = sink.bytes;
            Ok(RecordedText { text, exit, found })
        }
        Err(RunFault::NoMemory) => Err(AllocError),
        Err(RunFault::Device) => match sink.refusal() {
            Some(AllocError) => Err(AllocError),
            None => unreachable!(),
        },
    }
}

/// Why a text is no list of accepted lines.
fn list_problem(bad: BadList) -> Problem
    ensures { result ≡ list_problem bad }
{
    match bad {
        BadList::TooLong => problem(3, 0),
        BadList::NotText { .. } => problem(0, 0),
        BadList::Syntax { line, .. } => problem(1, line),
        BadList::Limit { line } => problem(3, line),
    }
}

/// No command has the name on this line; on line 0 the names are no text.
fn no_command(line: u32) -> Problem
    ensures { result ≡ problem 31 line 0 }
{
    problem(31, line)
}

fn problem(kind: u32, line: u32) -> Problem
    ensures { result ≡ problem kind line 0 }
{
    Problem {
        kind,
        line,
        token: 0,
    }
}

/// The number, from 1, of the first of these names that no command has.
fn line_of_unknown<A: Book>(alloc: Global, a: &A, names: &[String]) -> Result<u32, AllocError>
    requires { (name : List ℕ) × IsFirstUnknown (A.meaning a.now) (map (λ n. string_bytes n) names.now) name }
    ensures { IfOk result (IsLineOfUnknown (A.meaning a.now) (map (λ n. string_bytes n) names.now)) }
{
    match named(alloc, a, names)? {
        Ok(_) => unreachable!(),
        Err(name) => match place_of(names, name) {
            Some(place) => Ok(line_number(place)),
            None => unreachable!(),
        },
    }
}

/// The first place of a name.
fn place_of(names: &[String], name: &str) -> Option<usize>
    ensures { result ≡ position (λ other. bytes_eq (string_bytes other) name.now) names.now }
{
    names.iter().position(|other| other.as_str() == name)
}

/// The number of a line by its place, as far as there are numbers.
fn line_number(place: usize) -> u32
    ensures { result ≡ line_number place }
{
    u32::try_from(place).map_or(u32::MAX, |number| number.saturating_add(1))
}
