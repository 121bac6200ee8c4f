//! A feed whose first bytes are recorded.

ghost use Rattle.std.specs.Prelude.{◌≡◌};

use dia_io::{Failed, Feed};
use dia_terms::is_white;
use std::alloc::Global;

/// How many bytes are recorded.
const MOST: usize = 1024;

/// Passes on what a feed gives, and records its first bytes.
#[derive(Drop)]
pub(crate) struct Front<F> {
    pub feed: F,
    pub kept: Vec<u8>,
}

impl<F: Feed> Front<F> {
    /// Of a feed of which nothing was read.
    pub(crate) fn new(alloc: Global, feed: F) -> Front<F>
        ensures { result.feed ≡ feed }
    {
        Front {
            feed,
            kept: Vec::new(alloc),
        }
    }
}

/// Whether the record shows how the text begins: it is all of the text, or more than blanks.
pub(crate) fn is_recording(kept: &[u8]) -> bool {
    kept.len() < MOST || kept.iter().any(|byte| !is_white(*byte))
}

/// Records bytes up to the limit. Where memory is refused, none of them.
fn keep(kept: &mut Vec<u8>, bytes: &[u8]) {
    let room = MOST.saturating_sub(kept.len());
    let front = bytes.get(..room).unwrap_or(bytes);
    let _ = kept.extend_from_slice(front);
}

impl<F: Feed> Feed for Front<F> {
    ghost remaining = { λ front. F.remaining front.feed };

    ghost has_failed = { λ front. F.has_failed front.feed };

    fn get(&mut self, buffer: &mut [u8]) -> Result<usize, Failed> {
        let count = self.feed.get(buffer)?;
        keep(&mut self.kept, &buffer[..count]);
        Ok(count)
    }

    fn failed(&self) -> bool {
        self.feed.failed()
    }
}
