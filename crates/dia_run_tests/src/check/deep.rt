//! Groups in one another, far deeper than a stack could hold.

ghost use Rattle.std.specs.Prelude.{◌≤◌};

use super::pieces::feed_pieces;
use super::{AVPS, WATCHDOG, feed};
use crate::books::{Books, Task, is_verdict};
use crate::running::{input, no_inputs, writes};
use dia_check::{Levels, Stream, Unknown};
use dia_dict::{Book, base_text};
use dia_rows::{RowFault, bytes_of};
use dia_run::{Command, Input};
use std::alloc::{AllocError, Global};
use std::process::Abort;

/// How many groups lie in one another.
const DEPTH: u32 = 100_000;

/// A message of a command with so many groups of a code in one another, AVPs before, in the innermost and after them.
fn groups(
    alloc: Global,
    heads: (u32, u32),
    depth: u32,
    around: (&str, &str, &str),
) -> Result<Vec<u8>, RowFault>
    requires { depth ≤ 1000000 }
{
    let (command, code) = heads;
    let (before, inside, following) = around;
    let inner = inside.len() / 2;
    let length = 8 * depth as usize + 20 + (before.len() + following.len()) / 2 + inner;
    let mut text = format!(in alloc;
        "01{length:06x}80{command:06x}000000000000000100000002{before}"
    )?;
    for outer in 0..depth {
        let length = 8 * (depth - outer) as usize + inner;
        write!(text, "{code:08x}00{length:06x}")?;
    }
    write!(text, "{inside}{following}")?;
    bytes_of(alloc, text.as_bytes())
}

/// A watchdog request with so many Failed-AVPs in one another, an unknown AVP in the innermost, and an Origin-Host and an
/// Origin-Realm before or after them.
pub(super) fn nested(
    alloc: Global,
    depth: u32,
    before: &str,
    following: &str,
) -> Result<Vec<u8>, RowFault>
    requires { depth ≤ 1000000 }
{
    groups(
        alloc,
        (280, 279),
        depth,
        (before, "0000270f00000008", following),
    )
}

/// Each limit, and the verdict with the place of the group that it refuses: the innermost of 100,000 is at 44 + 8 * 99999.
const LIMITS: [(Levels, &str); 6] = [
    (Levels::Any, WATCHDOG),
    (Levels::AtMost(100_000), WATCHDOG),
    (
        Levels::AtMost(99_999),
        "1 fault 5012 at 800036 depth Failed-AVP\n",
    ),
    (
        Levels::AtMost(50_000),
        "1 fault 5012 at 400044 depth Failed-AVP\n",
    ),
    (Levels::AtMost(1), "1 fault 5012 at 52 depth Failed-AVP\n"),
    (Levels::AtMost(0), "1 fault 5012 at 44 depth Failed-AVP\n"),
];

/// Both books go as deep as is asked, and no deeper: over a whole message, and in pieces of several sizes.
#[test]
fn goes_as_deep_as_a_message(rt: HostRuntime) {
    let message = nested(rt.alloc(), DEPTH, AVPS, "").expect(&rt, "a message");
    let books = Books::new(&rt, base_text().as_bytes());
    for (levels, wanted) in LIMITS.iter() {
        judges(&rt, &books, *levels, message.as_slice(), wanted);
    }
}

/// Checks the verdict of both books, and of their streams.
fn judges(
    rt: &(impl AllocGlobal + Abort),
    books: &Books,
    levels: Levels,
    message: &[u8],
    wanted: &str,
) {
    let task = Task {
        unknown: Unknown::Kept,
        levels,
        message,
        wanted,
    };
    books.judge(rt, task);
    feed_pieces(rt, &*books.plain, task, 7);
    feed_pieces(rt, &*books.plain, task, 4096);
    feed_pieces(rt, &*books.indexed, task, 4096);
    feed_pieces(rt, &*books.indexed, task, 800_052);
}

#[test]
fn goes_down_half_a_million_levels(rt: HostRuntime) {
    let message = nested(rt.alloc(), 500_000, AVPS, "").expect(&rt, "a message");
    let books = Books::new(&rt, base_text().as_bytes());
    judges(&rt, &books, Levels::Any, message.as_slice(), WATCHDOG);
    let message = nodes(rt.alloc(), 500_000).expect(&rt, "a message");
    let books = Books::new(&rt, NODES.as_bytes());
    judges(&rt, &books, Levels::Any, message.as_slice(), VALID);
}

/// Groups of one kind that hold each other, and a command of them.
pub const NODES: &str =
    "<Node> ::= < AVP Header: 9001 > * [ Node ] <T> ::= < Diameter Header: 301, REQ > * [ Node ]";

/// The verdict on a message of `NODES`.
const VALID: &str = "0 valid T\n";

/// A message of `NODES` with so many groups in one another, and nothing else.
pub fn nodes(alloc: Global, depth: u32) -> Result<Vec<u8>, RowFault>
    requires { depth ≤ 1000000 }
{
    groups(alloc, (301, 9001), depth, ("", "", ""))
}

/// Limits, and the verdicts on a message of `NODES` of 100,000 groups, the innermost at 20 + 8 * 99999.
const NODE_LIMITS: [(Levels, &str); 3] = [
    (Levels::Any, VALID),
    (Levels::AtMost(100_000), VALID),
    (
        Levels::AtMost(99_999),
        "1 fault 5012 at 800012 depth Node\n",
    ),
];

/// So do both books and `run` over a message of groups alone.
#[test]
fn goes_as_deep_as_nodes(rt: HostRuntime) {
    let message = nodes(rt.alloc(), DEPTH).expect(&rt, "a message");
    let books = Books::new(&rt, NODES.as_bytes());
    let mut inputs = no_inputs(rt.alloc());
    inputs.first = input(&rt, NODES);
    inputs.message = Input::Bytes(digits_of(rt.alloc(), message.as_slice()).expect(&rt, "memory"));
    for (levels, wanted) in NODE_LIMITS.iter() {
        judges(&rt, &books, *levels, message.as_slice(), wanted);
        let command = Command::Check {
            unknown: Unknown::Kept,
            levels: *levels,
        };
        writes(&rt, &command, &inputs, wanted.as_bytes(), wanted);
    }
}

/// The hexadecimal digits of bytes.
fn digits_of(alloc: Global, bytes: &[u8]) -> Result<Vec<u8>, AllocError> {
    let mut text = String::new(alloc);
    for byte in bytes {
        write!(text, "{byte:02x}")?;
    }
    Ok(text.into_bytes())
}

#[test]
fn counts_a_hundred_thousand_levels(rt: HostRuntime) {
    let books = Books::new(&rt, base_text().as_bytes());
    let message = nested(rt.alloc(), DEPTH, AVPS, "").expect(&rt, "a message");
    counts(
        &rt,
        &*books.plain,
        message.as_slice(),
        (44, 800_052),
        WATCHDOG,
    );
    let message = nested(rt.alloc(), DEPTH, "", AVPS).expect(&rt, "a message");
    counts(
        &rt,
        &*books.indexed,
        message.as_slice(),
        (20, 800_028),
        WATCHDOG,
    );
    let books = Books::new(&rt, NODES.as_bytes());
    let message = nodes(rt.alloc(), DEPTH).expect(&rt, "a message");
    counts(&rt, &*books.plain, message.as_slice(), (20, 800_020), VALID);
    counts(
        &rt,
        &*books.indexed,
        message.as_slice(),
        (20, 800_020),
        VALID,
    );
}

/// Feeds a message byte by byte, and looks at its levels after each. Its groups begin at the first place, and end at the other.
fn counts<B: Book>(
    rt: &(impl AllocGlobal + Abort),
    book: &B,
    message: &[u8],
    groups: (usize, usize),
    wanted: &str,
) {
    let mut stream = Stream::new(rt.alloc(), book, Unknown::Kept, Levels::Any);
    for place in 0..message.len() {
        let count = place + 1;
        feed(
            rt,
            &mut stream,
            &message[place..count],
            1,
            count == message.len(),
        );
        let levels = if count == message.len() {
            0
        } else {
            open_after(count, groups)
        };
        assert!(rt; stream.levels() == levels, "after {count} bytes");
    }
    is_verdict(rt, book, stream.finish(), wanted);
}

/// How many levels are open after so many bytes of a message that goes on after them.
fn open_after(count: usize, groups: (usize, usize)) -> usize {
    let (first, end) = groups;
    if count < 20 {
        0
    } else if count < first || count >= end {
        1
    } else {
        1 + (count - first) / 8
    }
}
