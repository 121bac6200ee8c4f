//! A dictionary as both kinds of book, a `PlainBook` and an `IndexedBook`, and the verdicts that they give on messages. A short
//! message is also fed to streams, in two pieces for each place where it can be cut, and byte by byte.

use crate::check::pieces::check_pieces;
use crate::words::same;
use dia_ccf::parse;
use dia_check::{Levels, Refusal, Selected, Subject, Unknown, check};
use dia_dict::{Book, DefId, IndexedBook, PlainBook, resolve};
use std::alloc::{AllocError, Global};
use std::process::Abort;

/// A dictionary, as both kinds of book.
#[derive(Drop)]
pub struct Books {
    pub plain: Box<PlainBook>,
    pub indexed: Box<IndexedBook>,
}

impl Books {
    /// The books of a dictionary's text.
    pub fn new(rt: &(impl AllocGlobal + Abort), text: &[u8]) -> Books {
        let text = str::from_utf8(text).expect(rt, "a text");
        let source = parse(rt.alloc(), text).expect(rt, text);
        let plain = resolve(rt.alloc(), source).expect(rt, text);
        let indexed = IndexedBook::new(rt.alloc(), &plain).expect(rt, "memory");
        Books {
            plain: Box::new(rt.alloc(), plain).ok().expect(rt, "memory"),
            indexed: Box::new(rt.alloc(), indexed).ok().expect(rt, "memory"),
        }
    }

    /// Checks the verdict of both kinds of book.
    pub fn judge(&self, rt: &(impl AllocGlobal + Abort), task: Task<'_>) {
        judge(rt, &*self.plain, task);
        judge(rt, &*self.indexed, task);
    }
}

/// A message, under a policy and a limit, and the status and the line of its verdict.
#[derive(Clone, Copy)]
pub struct Task<'a> {
    pub unknown: Unknown,
    pub levels: Levels,
    pub message: &'a [u8],
    pub wanted: &'a str,
}

/// Checks the verdict of a book; on a short message also in pieces.
fn judge<B: Book>(rt: &(impl AllocGlobal + Abort), book: &B, task: Task<'_>) {
    if task.message.len() < 400 {
        check_pieces(rt, book, task);
    }
    let answer = check(rt.alloc(), book, task.unknown, task.levels, task.message);
    is_verdict(rt, book, answer, task.wanted);
}

/// Checks the status and the line of a verdict.
pub fn is_verdict<B: Book>(
    rt: &(impl AllocGlobal + Abort),
    book: &B,
    answer: Result<Selected, Refusal>,
    wanted: &str,
) {
    let found = verdict(rt.alloc(), book, answer).expect(rt, "memory");
    same(rt, found.as_bytes(), wanted.as_bytes(), wanted);
}

/// The status and the line of a verdict.
fn verdict<B: Book>(
    alloc: Global,
    book: &B,
    answer: Result<Selected, Refusal>,
) -> Result<String, AllocError> {
    match answer {
        Ok(found) => {
            let name = name_of(book, found.def);
            format!(in alloc; "0 valid {name}\n")
        }
        Err(Refusal::Fault(fault)) => {
            let (code, place, reason) = (fault.code, fault.place, fault.reason.word());
            let subject = subject_of(alloc, book, fault.subject)?;
            format!(in alloc; "1 fault {code} at {place} {reason} {subject}\n")
        }
        Err(Refusal::Truncated) => String::from_str(alloc, "1 truncated\n"),
        Err(Refusal::Trailing) => String::from_str(alloc, "1 trailing\n"),
        Err(other) => format!(in alloc; "{other}"),
    }
}

/// The name of a command.
fn name_of<B: Book>(book: &B, def: DefId) -> &str {
    for place in 0..book.commands() {
        let command = book.command_at(place);
        if command == def {
            return book.def(command).name.as_str();
        }
    }
    "no command"
}

/// What a fault is about: an AVP by its name, or by code and vendor where the dictionary doesn't know it.
fn subject_of<B: Book>(alloc: Global, book: &B, subject: Subject) -> Result<String, AllocError> {
    match subject {
        Subject::Nothing => String::from_str(alloc, "-"),
        Subject::Wildcard => String::from_str(alloc, "AVP"),
        Subject::Avp(key) => match book.avp(key) {
            Some(entry) => String::from_str(alloc, book.entry_name(entry)),
            None => format!(in alloc; "{key}"),
        },
    }
}
