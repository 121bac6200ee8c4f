//! Calls that are refused memory, and the same calls again: `.ci/refused` runs each of these tests once for each of its
//! allocations, with that one refused. A call answers that there is no memory, or what it answers with ample memory; after a
//! refusal nothing has changed, and the same call gives its answer. What a stream answers once it is refused memory is tested
//! in `check::memory`.

use dia_ccf::parse;
use dia_dict::{PlainBook, resolve};
use std::alloc::Global;

mod checks;
mod commands;
mod connections;
mod tables;

/// The book of a text, unless memory is refused for it.
pub fn book_of(alloc: Global, text: &str) -> Option<PlainBook> {
    let source = parse(alloc, text).ok()?;
    resolve(alloc, source).ok()
}
