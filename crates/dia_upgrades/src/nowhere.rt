//! A sink that drops what it takes.

use dia_io::{Failed, Sink};

/// Takes all, and stores nothing.
#[derive(Drop)]
pub(crate) struct Nowhere;

impl Sink for Nowhere {
    ghost use Rattle.std.specs.Prelude.{None, false};

    ghost written = { λ _. None };

    ghost has_failed = { λ _. false };

    fn put(&mut self, piece: &[u8]) -> Result<usize, Failed> {
        Ok(piece.len())
    }

    fn failed(&self) -> bool {
        false
    }
}
