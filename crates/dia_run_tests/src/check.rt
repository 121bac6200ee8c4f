//! The calls of dia_check on long and deep messages, and in pieces.

use dia_check::{Progress, Stream};
use dia_dict::Book;
use std::process::Abort;

pub mod deep;
mod long;
mod memory;
pub mod pieces;

/// The AVPs of a watchdog request of the smallest kind.
const AVPS: &str = "000001084000000b612e6200000001284000000962000000";

/// The verdict on such a request.
const WATCHDOG: &str = "0 valid DWR\n";

/// A stream takes so many bytes of a piece, and is done then or not.
pub fn feed<B: Book>(
    rt: &impl Abort,
    stream: &mut Stream<'_, B>,
    piece: &[u8],
    taken: usize,
    done: bool,
) {
    let progress = stream.feed(piece);
    assert!(rt;
        progress == Ok(Progress { taken, done }),
        "{taken} bytes are taken"
    );
}
