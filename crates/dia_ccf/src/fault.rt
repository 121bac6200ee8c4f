//! Why a text is no dictionary.

use std::fmt;
use thiserror::Error;

/// Why a text is no dictionary. Lines and tokens count from 1.
#[derive(Clone, Copy, Debug, Error)]
pub enum CcfFault {
    /// The token of this number fits nowhere in the grammar after those before it. The end of the text is
    /// the token after the last, on the line on which the text ends.
    #[error("line {line}: token {token} is not expected here")]
    Syntax { token: u32, line: u32 },
    /// A number is out of the range that is wanted there.
    #[error("line {line}: the number is out of range")]
    Number { line: u32 },
    /// A name that is free to choose is longer than [`MAX_NAME`](crate::MAX_NAME) bytes;
    /// or, on line 0, the text is longer than [`MAX_TEXT`](crate::MAX_TEXT).
    #[error(fmt = report_limit)]
    Limit { line: u32 },
    /// Memory was refused.
    #[error("out of memory")]
    NoMemory,
}

/// Writes which limit is passed.
fn report_limit<W: fmt::Write>(line: &u32, f: &mut fmt::Formatter<W>) -> fmt::Result {
    if *line == 0 {
        write!(f, "the text is too long")
    } else {
        write!(f, "line {line}: the name is too long")
    }
}
