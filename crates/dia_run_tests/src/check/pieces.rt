//! Messages that come in pieces.

ghost use Rattle.std.specs.Prelude.{◌<◌, ◌≤◌, length};

use super::feed;
use crate::books::{Task, is_verdict};
use byteorder::{BigEndian, ByteOrder};
use dia_check::{Levels, Refusal, Room, Selected, Stream, Unknown, check, check_in};
use dia_dict::Book;
use std::process::Abort;

/// The bytes that a message has, as far as a stream takes them: none after it.
fn message_length(bytes: &[u8]) -> usize {
    match bytes {
        [1, ..] if bytes.len() >= 20 => {
            let length = BigEndian::read_u24(&bytes[1..]) as usize;
            if length < 20 || length % 4 != 0 {
                20
            } else {
                length
            }
        }
        _ => 20,
    }
}

/// A stream that is fed the bytes in two pieces, or one by one, answers what `check` does of the bytes that it takes; and so does
/// `check_in`, in memory that was used before.
pub fn check_pieces<B: Book>(rt: &(impl AllocGlobal + Abort), book: &B, task: Task<'_>) {
    let bytes = task.message;
    let all = message_length(bytes);
    let taken = &bytes[..bytes.len().min(all)];
    let answer = check(rt.alloc(), book, task.unknown, task.levels, taken);
    for cut in 0..bytes.len() + 1 {
        let found = in_two_pieces(rt, book, task, cut, all);
        is_same(rt, &found, &answer);
    }
    is_same(rt, &in_bytes(rt, book, task, all), &answer);
    let mut room = Room::new(rt.alloc());
    for bytes in [bytes, taken] {
        let found = check_in(&mut room, book, task.unknown, task.levels, bytes);
        is_same(
            rt,
            &found,
            &check(rt.alloc(), book, task.unknown, task.levels, bytes),
        );
    }
}

/// A stream answers what `check` does.
fn is_same(rt: &impl Abort, found: &Result<Selected, Refusal>, answer: &Result<Selected, Refusal>) {
    assert!(rt; found == answer, "in pieces");
}

/// What a stream answers that is fed the bytes in two pieces.
fn in_two_pieces<B: Book>(
    rt: &(impl AllocGlobal + Abort),
    book: &B,
    task: Task<'_>,
    cut: usize,
    all: usize,
) -> Result<Selected, Refusal>
    requires { cut ≤ length task.message.now }
{
    let mut stream = Stream::new(rt.alloc(), book, task.unknown, task.levels);
    let bytes = task.message;
    let taken = cut.min(all);
    feed(rt, &mut stream, &bytes[..cut], taken, cut >= all);
    let rest = bytes.len().min(all) - taken;
    feed(rt, &mut stream, &bytes[cut..], rest, bytes.len() >= all);
    stream.finish()
}

/// What a stream answers that is fed the bytes one by one.
fn in_bytes<B: Book>(
    rt: &(impl AllocGlobal + Abort),
    book: &B,
    task: Task<'_>,
    all: usize,
) -> Result<Selected, Refusal> {
    let mut stream = Stream::new(rt.alloc(), book, task.unknown, task.levels);
    for place in 0..task.message.len() {
        let count = place + 1;
        let taken = usize::from(place < all);
        feed(
            rt,
            &mut stream,
            &task.message[place..count],
            taken,
            count >= all,
        );
        has_at_most(rt, stream.levels(), task.levels, all.min(count));
    }
    stream.finish()
}

/// No more levels are open than may be after so many bytes.
fn has_at_most(rt: &impl Abort, found: usize, levels: Levels, count: usize) {
    let deepest = if count < 20 { 0 } else { 1 + (count - 20) / 8 };
    let most = match levels {
        Levels::Any => deepest,
        Levels::AtMost(depth) => deepest.min(depth as usize + 1),
    };
    assert!(rt; found <= most, "after {count} bytes");
}

/// A stream that is fed a whole message in pieces of a size takes each, and answers as is wanted.
pub fn feed_pieces<B: Book>(rt: &(impl AllocGlobal + Abort), book: &B, task: Task<'_>, size: usize)
    requires { 0 < size }
{
    let mut stream = Stream::new(rt.alloc(), book, task.unknown, task.levels);
    let mut count: usize = 0;
    for piece in task.message.chunks(size) {
        count = count.saturating_add(piece.len());
        feed(
            rt,
            &mut stream,
            piece,
            piece.len(),
            count == task.message.len(),
        );
        has_at_most(rt, stream.levels(), task.levels, count);
    }
    is_verdict(rt, book, stream.finish(), task.wanted);
}

/// So many levels are open after these first bytes of a message.
pub fn check_level<B: Book>(
    rt: &(impl AllocGlobal + Abort),
    book: &B,
    front: &[u8],
    levels: usize,
) {
    let mut stream = Stream::new(rt.alloc(), book, Unknown::Kept, Levels::Any);
    assert!(rt; stream.feed(front).is_ok());
    let count = front.len();
    assert!(rt; stream.levels() == levels, "after {count} bytes");
}
