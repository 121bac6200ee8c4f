//! A message that comes in pieces, where memory may run out somewhere. A stream that is refused memory answers `NoMemory`
//! once. From then on it is spent: it answers `Spent` to every piece and at the end, and no level is open. A stream that
//! is not refused memory answers that the message is valid, as with ample memory.

ghost use Rattle.std.specs.Prelude.{◌<◌};

use super::deep::{NODES, nodes};
use crate::refused::book_of;
use dia_check::{Levels, Refusal, Selected, Stream, StreamFault, Unknown};
use dia_dict::{Book, Class, IndexedBook};
use std::process::Abort;

/// A stream that is fed pieces of a size answers for the message, or is spent where memory is refused.
fn feeds_or_is_spent<B: Book>(rt: &(impl AllocGlobal + Abort), book: &B, bytes: &[u8], size: usize)
    requires { 0 < size }
{
    let mut stream = Stream::new(rt.alloc(), book, Unknown::Kept, Levels::Any);
    for piece in bytes.chunks(size) {
        if let Err(fault) = stream.feed(piece) {
            assert!(rt; fault == StreamFault::NoMemory);
            is_spent(rt, stream, piece);
            return;
        }
    }
    assert!(rt; stream.finish().ok() == the_command(book));
}

/// The answer for the message.
fn the_command<B: Book>(book: &B) -> Option<Selected> {
    let def = book.select(301, Class::Request, 0)?;
    Some(Selected { def })
}

/// A stream is spent: it has no levels, takes no piece and has no answer.
fn is_spent<B: Book>(rt: &impl Abort, stream: Stream<'_, B>, piece: &[u8]) {
    let mut stream = stream;
    assert!(rt; stream.levels() == 0);
    assert!(rt; stream.feed(piece) == Err(StreamFault::Spent));
    assert!(rt; stream.finish() == Err(Refusal::Spent));
}

/// Feeds a book's streams pieces of several sizes.
fn feeds_all<B: Book>(rt: &(impl AllocGlobal + Abort), book: &B, bytes: &[u8]) {
    for size in [1, 7, 64, 10_000] {
        feeds_or_is_spent(rt, book, bytes, size);
    }
}

#[test]
fn a_stream_answers_or_memory_is_refused(rt: HostRuntime) {
    let Ok(bytes) = nodes(rt.alloc(), 1000) else {
        return;
    };
    let Some(plain) = book_of(rt.alloc(), NODES) else {
        return;
    };
    feeds_all(&rt, &plain, bytes.as_slice());
    if let Ok(indexed) = IndexedBook::new(rt.alloc(), &plain) {
        feeds_all(&rt, &indexed, bytes.as_slice());
    }
}
