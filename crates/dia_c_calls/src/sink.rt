//! A sink in memory.

ghost use Rattle.std.specs.Prelude.{◌≡◌, [], Some, false, is_some};

use dia_io::{Failed, Sink};
use std::alloc::{AllocError, Global};

/// What was written so far. It fails only where memory is refused.
#[derive(Drop)]
pub struct TextSink {
    pub bytes: Vec<u8>,
    refusal: Option<AllocError>,
}

impl TextSink {
    /// A sink to which nothing was written.
    pub fn new(alloc: Global) -> TextSink
        ensures written { ⟦<TextSink as Sink>⟧.written result ≡ Some [] }
        ensures sound { ⟦<TextSink as Sink>⟧.has_failed result ≡ false }
    {
        TextSink {
            bytes: Vec::new(alloc),
            refusal: None,
        }
    }

    /// The refusal of memory, if there was one.
    pub fn refusal(&self) -> Option<AllocError>
        ensures { is_some result ≡ ⟦<TextSink as Sink>⟧.has_failed self.now }
    {
        self.refusal
    }
}

impl Sink for TextSink {
    ghost use Rattle.std.specs.Prelude.{Some, is_some};

    ghost written = { λ s. Some s.bytes.items };

    ghost has_failed = { λ s. is_some s.refusal };

    fn put(&mut self, piece: &[u8]) -> Result<usize, Failed> {
        match self.bytes.extend_from_slice(piece) {
            Ok(()) => Ok(piece.len()),
            Err(AllocError) => {
                self.refusal = Some(AllocError);
                Err(Failed)
            }
        }
    }

    fn failed(&self) -> bool {
        self.refusal.is_some()
    }
}
