//! A check of a thousand groups in one another.

use super::book_of;
use crate::check::deep::{NODES, nodes};
use dia_check::{Levels, Refusal, Unknown, check};
use dia_dict::Book;
use std::process::Abort;

/// Checks the message, twice where memory is refused at first.
fn checks_again<B: Book>(rt: &(impl AllocGlobal + Abort), book: &B, message: &[u8]) {
    let answer = match check(rt.alloc(), book, Unknown::Kept, Levels::Any, message) {
        Err(Refusal::NoMemory) => check(rt.alloc(), book, Unknown::Kept, Levels::Any, message),
        answer => answer,
    };
    let name = match answer {
        Ok(found) => book.def(found.def).name.as_str(),
        Err(_) => "",
    };
    assert!(rt; name == "T");
}

#[test]
fn a_refused_check_answers_again(rt: HostRuntime) {
    let Ok(message) = nodes(rt.alloc(), 1000) else {
        return;
    };
    if let Some(book) = book_of(rt.alloc(), NODES) {
        checks_again(&rt, &book, message.as_slice());
    }
}
