//! Rows of calls. POLICY is `kept` or `refused`, LEVELS is `any` or a number, the NAME `-` the empty one:
//!
//! ```text
//! show | DICTIONARY | MESSAGE
//! render | DICTIONARY
//! check POLICY LEVELS | DICTIONARY | MESSAGE
//! fronts FROM..TO check POLICY LEVELS | DICTIONARY | MESSAGE
//! compare POLICY | FIRST | SECOND | TABLE
//! propose POLICY NAME.. | FIRST | SECOND
//! refute POLICY LEVELS | FIRST | SECOND | MESSAGE
//! take COUNT/TAKEN/more.. | DICTIONARY | MESSAGE
//! open | DICTIONARY | MESSAGE
//! ```
//!
//! `fronts` calls for the first bytes of the message, for each count of them from FROM on and below TO. The answer of these
//! calls is the status and the text of the program: `run` gives it over a writer in memory, and `.ci/cases` runs the rows
//! against the program. Those of `check`, `compare`, `propose` and `refute` whose inputs aren't refused (status 2) both kinds
//! of book answer, too. `take` feeds a stream pieces of so many bytes, of which it takes so many; `done` is in place of
//! `more` where it then is done. `open` is answered by COUNT/LEVELS..: how many levels are open after so many bytes.

use crate::books::{Books, Task, is_verdict};
use crate::check::feed;
use crate::check::pieces::check_level;
use crate::comparing::answer_pairs;
use crate::running::rows::{run_fronts, run_once};
use crate::words::{levels_of, number_of, policy_of, range_of};
use dia_check::{Levels, Stream, Unknown};
use dia_dict::{Book, base_text};
use dia_rows::{Names, Row, bytes_of, field, word};
use std::process::Abort;

mod comparisons;
mod cut;
mod dictionaries;
mod faults;
mod names;
mod pieces;
mod proposals;
mod refutations;
mod renders;
mod shows;
mod tallies;
mod verdicts;

const TEXTS: [&str; 11] = [
    shows::ROWS,
    renders::ROWS,
    dictionaries::ROWS,
    verdicts::ROWS,
    cut::ROWS,
    faults::ROWS,
    tallies::ROWS,
    pieces::ROWS,
    comparisons::ROWS,
    proposals::ROWS,
    refutations::ROWS,
];

/// What answers rows.
#[derive(Clone, Copy)]
enum By {
    /// Both kinds of book.
    Books,
    /// `run`.
    Run,
}

#[test]
fn both_kinds_of_book_answer(rt: HostRuntime) {
    for text in TEXTS.iter() {
        answers(&rt, text, By::Books);
    }
}

#[test]
fn run_answers(rt: HostRuntime) {
    for text in TEXTS.iter() {
        answers(&rt, text, By::Run);
    }
}

/// The names that rows use, and `base` for the base text.
pub fn known_names(rt: &(impl AllocGlobal + Abort)) -> Names {
    let mut names = Names::new(rt.alloc());
    let base = Vec::from_slice(rt.alloc(), base_text().as_bytes()).expect(rt, "memory");
    names.define("base", base).expect(rt, "memory");
    names.learn_all(names::NAMES).expect(rt, "names");
    names
}

/// Checks each row of a text.
fn answers(rt: &(impl AllocGlobal + Abort), text: &str, by: By) {
    let mut names = known_names(rt);
    for line in text.lines() {
        if let Some(row) = names.row(line).expect(rt, line) {
            answer(rt, &names, &row, by);
        }
    }
}

/// Checks a row.
fn answer(rt: &(impl AllocGlobal + Abort), names: &Names, row: &Row<'_>, by: By) {
    match by {
        By::Books if !row.wanted.starts_with('2') => answer_books(rt, names, row),
        By::Books => {}
        By::Run => run_row(rt, names, row),
    }
}

/// Checks what both kinds of book answer, if there is such a call.
fn answer_books(rt: &(impl AllocGlobal + Abort), names: &Names, row: &Row<'_>) {
    match word(row.call, 0) {
        "show" | "render" => {}
        "check" | "fronts" | "take" | "open" => answer_one(rt, names, row),
        _ => answer_pairs(rt, names, row),
    }
}

/// Checks what `run` answers, if there is such a command.
fn run_row(rt: &(impl AllocGlobal + Abort), names: &Names, row: &Row<'_>) {
    match word(row.call, 0) {
        "take" | "open" => {}
        "fronts" => run_fronts(rt, names, row),
        _ => run_once(rt, names, row),
    }
}

/// Checks a row of one dictionary and a message.
fn answer_one(rt: &(impl AllocGlobal + Abort), names: &Names, row: &Row<'_>) {
    let text = names.text(field(row.call, 1)).expect(rt, row.line);
    let digits = names.text(field(row.call, 2)).expect(rt, row.line);
    let wanted = names.text(row.wanted).expect(rt, row.line);
    let books = Books::new(rt, text.as_slice());
    let message = bytes_of(rt.alloc(), digits.as_slice()).expect(rt, row.line);
    let wanted = str::from_utf8(wanted.as_slice()).expect(rt, row.line);
    let call = field(row.call, 0);
    match word(call, 0) {
        "check" => checks(rt, &books, call, message.as_slice(), wanted),
        "fronts" => checks_fronts(rt, &books, call, message.as_slice(), wanted),
        "take" => {
            takes(rt, &*books.plain, call, message.as_slice(), wanted);
            takes(rt, &*books.indexed, call, message.as_slice(), wanted);
        }
        _ => {
            opens(rt, &*books.plain, message.as_slice(), wanted);
            opens(rt, &*books.indexed, message.as_slice(), wanted);
        }
    }
}

/// Checks the verdict on a message, as `check POLICY LEVELS` asks.
fn checks(
    rt: &(impl AllocGlobal + Abort),
    books: &Books,
    call: &str,
    message: &[u8],
    wanted: &str,
) {
    let task = Task {
        unknown: policy_of(rt, word(call, 1)),
        levels: levels_of(rt, word(call, 2)),
        message,
        wanted,
    };
    books.judge(rt, task);
}

/// Checks the verdict on the first bytes of a message, for each count of them.
fn checks_fronts(
    rt: &(impl AllocGlobal + Abort),
    books: &Books,
    call: &str,
    message: &[u8],
    wanted: &str,
) {
    let (_, asked) = call.split_once("check").expect(rt, call);
    for count in range_of(rt, word(call, 1)) {
        let (front, _) = message.split_at_checked(count).expect(rt, call);
        let task = Task {
            unknown: policy_of(rt, word(asked, 0)),
            levels: levels_of(rt, word(asked, 1)),
            message: front,
            wanted,
        };
        books.judge(rt, task);
    }
}

/// A stream takes the pieces of a message, and answers as is wanted.
fn takes<B: Book>(
    rt: &(impl AllocGlobal + Abort),
    book: &B,
    call: &str,
    message: &[u8],
    wanted: &str,
) {
    let mut stream = Stream::new(rt.alloc(), book, Unknown::Kept, Levels::Any);
    let mut rest = message;
    for piece in call.split_ascii_whitespace().skip(1) {
        let (count, taken) = piece.split_once('/').expect(rt, call);
        let (taken, end) = taken.split_once('/').expect(rt, call);
        let count = number_of(rt, count) as usize;
        let (front, following) = rest.split_at_checked(count).expect(rt, call);
        feed(
            rt,
            &mut stream,
            front,
            number_of(rt, taken) as usize,
            end == "done",
        );
        rest = following;
    }
    is_verdict(rt, book, stream.finish(), wanted);
}

/// So many levels are open after so many bytes of a message.
fn opens<B: Book>(rt: &(impl AllocGlobal + Abort), book: &B, message: &[u8], wanted: &str) {
    for pair in wanted.split_ascii_whitespace() {
        let (count, levels) = pair.split_once('/').expect(rt, pair);
        let count = number_of(rt, count) as usize;
        let (front, _) = message.split_at_checked(count).expect(rt, pair);
        check_level(rt, book, front, number_of(rt, levels) as usize);
    }
}
