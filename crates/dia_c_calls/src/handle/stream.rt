//! A handle of a stream.

ghost use Rattle.std.specs.Prelude.{◌≡◌, ◌↔◌, IfSome, IsSome, IsTrue, None, Option, Some};
ghost use Rattle.dia_c_calls.specs.declared.held.Held.{Held as AnyHeld};
ghost use Rattle.dia_c_calls.specs.Held.{MayBeStream};

use crate::feeding::Feeding;
use crate::handle::slot::Slot;
use crate::held::Held;
use std::alloc::Global;

/// A message that comes in pieces, or nothing: then C has written zero bytes.
#[repr(C)]
#[derive(Drop)]
pub struct StreamHandle {
    pub slot: Slot,
    pub ghost only: { ∥ MayBeStream slot.seal.held ∥₁ },
}

impl StreamHandle {
    /// Whether it has one.
    pub fn is_open(&self) -> bool
        ensures { IsTrue result ↔ IsSome self.now.slot.seal.held }
    {
        self.slot.is_open()
    }

    /// The message is taken out of the handle.
    pub fn take(&mut self, alloc: Global) -> Option<Box<Held>>
        ensures some { IfSome result (λ held. self.old.slot.seal.held ≡ Some held.value) }
        ensures only { IfSome result (λ held. ∥ MayBeStream (Some held.value) ∥₁) }
        ensures none { result ≡ None → self.old.slot.seal.held ≡ None }
        ensures closed { self.new.slot.seal.held ≡ None }
    {
        self.slot.take(alloc)
    }

    /// Puts a message into a handle that has none.
    pub fn put(&mut self, held: Box<Held>)
        requires closed { self.old.slot.seal.held ≡ None }
        requires only { ∥ MayBeStream (Some held.value) ∥₁ }
        ensures { self.new.slot.seal.held ≡ Some held.value }
    {
        self.slot = Slot::of(held);
    }
}

/// The message that a handle of a stream holds is taken out of its box.
pub fn feeding_in(held: &mut Box<Held>) -> Feeding
    requires { ∥ MayBeStream (Some held.old.value) ∥₁ }
    ensures { held.old.value ≡ Held.Stream result }
{
    match Box::replace(held, Held::Nothing) {
        Held::Stream(feeding) => feeding,
        Held::Dict(..) => unreachable!(),
        Held::Text(_) => unreachable!(),
        Held::Faults(_) => unreachable!(),
        Held::Peer(_) => unreachable!(),
        Held::Nothing => unreachable!(),
    }
}
