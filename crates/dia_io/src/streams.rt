//! Where bytes come from and where they go, with what a proof may know of them.

ghost use Rattle.std.specs.Prelude.{◌≡◌, ◌<◌, ◌≤◌, ◌↔◌, ◌⊎◌, List, ℕ, Option};
ghost use Rattle.std.specs.Prelude.{Bool, length, IfOk, IsErr, IsTrue};
ghost use Rattle.std.specs.Io.KnownBytes.{ReadConsumes, WriteAppends};

use thiserror::Error;

/// A device failed.
#[derive(Clone, Copy, Debug, PartialEq, Eq, Error)]
#[error("the device failed")]
pub struct Failed;

/// Where bytes come from.
pub trait Feed {
    // What it will still give, where that is known.
    ghost remaining: { Self → Option (List ℕ) };

    ghost has_failed: { Self → Bool };

    /// Fills the front of the buffer and answers how many bytes. For a buffer that isn't empty, 0 is the end.
    fn get(&mut self, buffer: &mut [u8]) -> Result<usize, Failed>
        ensures within { IfOk result (λ count. count ≤ length buffer.new) }
        ensures bytes { ReadConsumes (remaining self.old) (remaining self.new) result buffer.new }
        // Only an `Err` sets it, and nothing clears it.
        ensures failed { IsTrue (has_failed self.new)
            ↔ (IsTrue (has_failed self.old) ⊎ IsErr result) };

    /// Whether a call failed.
    fn failed(&self) -> bool
        ensures { result ≡ has_failed self.now };
}

/// Where bytes go.
pub trait Sink {
    // What it has taken, where that is known.
    ghost written: { Self → Option (List ℕ) };

    ghost has_failed: { Self → Bool };

    /// Takes the front of the piece and answers how many bytes, at least one of a piece that isn't empty.
    fn put(&mut self, piece: &[u8]) -> Result<usize, Failed>
        ensures within { IfOk result (λ count. count ≤ length piece.now) }
        ensures some { 0 < length piece.now → IfOk result (λ count. 0 < count) }
        ensures bytes { WriteAppends (written self.old) (written self.new) result piece.now }
        // Only an `Err` sets it, and nothing clears it.
        ensures failed { IsTrue (has_failed self.new)
            ↔ (IsTrue (has_failed self.old) ⊎ IsErr result) };

    /// Whether a call failed.
    fn failed(&self) -> bool
        ensures { result ≡ has_failed self.now };
}
