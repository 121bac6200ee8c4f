//! Text that is put in blocks.

use dia_io::{Failed, Sink, put_all};
use std::alloc::Global;

/// Up to so many bytes more text is held back, of at most so many bytes.
const BLOCK: usize = 65_536;

/// Text that wasn't put yet.
#[derive(Drop)]
pub(crate) struct Pending {
    pub bytes: Vec<u8>,
}

impl Pending {
    ghost use Rattle.std.specs.Prelude.{◌≡◌, ◌↔◌, ◌++◌, List, ℕ, Option, [], IsErr, IsTrue, OnOk, if◌then◌else◌};
    ghost use Rattle.std.specs.Io.KnownBytes.{Appends};
    ghost use Rattle.dia_io.specs.Writing.{AppendsFront};
    ghost use Rattle.dia_upgrades.specs.UnderWay.{IsPut};

    pub fn new(alloc: Global) -> Pending
        ensures { result.bytes.items ≡ [] }
    {
        let bytes = Vec::new(alloc);
        Pending { bytes }
    }

    /// Adds text. Where it is too much to be held back, or memory is refused for it, all is put.
    pub fn add<S: Sink>(&mut self, sink: &mut S, text: &[u8]) -> Result<(), Failed>
        requires { ¬ IsTrue (S.has_failed sink.old) }
        ensures added { OnOk result ((begun : Option (List ℕ)) (before : List ℕ)
            → IsPut begun (S.written sink.old) self.old before
            → IsPut begun (S.written sink.new) self.new (before ++ text.now)) }
        ensures front { IsErr result → (begun : Option (List ℕ)) (before : List ℕ)
            → IsPut begun (S.written sink.old) self.old before
            → AppendsFront begun (S.written sink.new) (before ++ text.now) }
        ensures failed { IsErr result ↔ IsTrue (S.has_failed sink.new) }
    {
        if self.holds(text) {
            return Ok(());
        }
        self.put(sink)?;
        put_all(sink, text)
    }

    /// Puts all.
    pub fn put<S: Sink>(&mut self, sink: &mut S) -> Result<(), Failed>
        requires { ¬ IsTrue (S.has_failed sink.old) }
        ensures put { OnOk result ((begun : Option (List ℕ)) (text : List ℕ)
            → IsPut begun (S.written sink.old) self.old text → Appends begun (S.written sink.new) text) }
        ensures nothing { OnOk result (self.new.bytes.items ≡ []) }
        ensures front { IsErr result → (begun : Option (List ℕ)) (text : List ℕ)
            → IsPut begun (S.written sink.old) self.old text → AppendsFront begun (S.written sink.new) text }
        ensures failed { IsErr result ↔ IsTrue (S.has_failed sink.new) }
    {
        put_all(sink, self.bytes.as_slice())?;
        self.bytes.clear();
        Ok(())
    }

    /// Adds text, unless it is too much or memory is refused. Answers whether it was added.
    fn holds(&mut self, text: &[u8]) -> bool
        ensures { self.new.bytes.items
            ≡ (if result then self.old.bytes.items ++ text.now else self.old.bytes.items) }
    {
        if self.bytes.len() > BLOCK || text.len() > BLOCK {
            return false;
        }
        self.bytes.extend_from_slice(text).is_ok()
    }
}
