//! A handle of one end of a connection.

ghost use Rattle.std.specs.Prelude.{◌≡◌, ◌↔◌, IfSome, IsSome, IsTrue, None, Option, Some};
ghost use Rattle.dia_c_calls.specs.declared.held.Held.{Held as AnyHeld};
ghost use Rattle.dia_c_calls.specs.Held.{MayBePeer};

use crate::handle::slot::Slot;
use crate::held::Held;
use std::alloc::Global;

/// One end of a connection, or nothing: then C has written zero bytes.
#[repr(C)]
#[derive(Drop)]
pub struct PeerHandle {
    pub slot: Slot,
    pub ghost only: { ∥ MayBePeer slot.seal.held ∥₁ },
}

impl PeerHandle {
    /// Whether it has one.
    pub fn is_open(&self) -> bool
        ensures { IsTrue result ↔ IsSome self.now.slot.seal.held }
    {
        self.slot.is_open()
    }

    /// The end is taken out of the handle.
    pub fn take(&mut self, alloc: Global) -> Option<Box<Held>>
        ensures some { IfSome result (λ held. self.old.slot.seal.held ≡ Some held.value) }
        ensures only { IfSome result (λ held. ∥ MayBePeer (Some held.value) ∥₁) }
        ensures none { result ≡ None → self.old.slot.seal.held ≡ None }
        ensures closed { self.new.slot.seal.held ≡ None }
    {
        self.slot.take(alloc)
    }

    /// Puts an end into a handle that has none.
    pub fn put(&mut self, held: Box<Held>)
        requires closed { self.old.slot.seal.held ≡ None }
        requires only { ∥ MayBePeer (Some held.value) ∥₁ }
        ensures { self.new.slot.seal.held ≡ Some held.value }
    {
        self.slot = Slot::of(held);
    }
}
