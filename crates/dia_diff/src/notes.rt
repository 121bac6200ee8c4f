//! What standard error says of an answer.

use dia_differences::Line;
use std::alloc::{AllocError, Global};

/// How many lines there are, and how many of them break messages of each side.
pub(crate) fn counts_of(alloc: Global, lines: &[Line]) -> Result<String, AllocError> {
    let count = lines.len();
    let there = lines.iter().filter(|line| line.there.breaks).count();
    let back = lines.iter().filter(|line| line.back.breaks).count();
    let word = if count == 1 { "line" } else { "lines" };
    format!(in alloc;
        "{count} {word}: {there} with what breaks A to B, {back} with what breaks B to A\n"
    )
}
