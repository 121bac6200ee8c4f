//! A handle of the faults of a text.

ghost use Rattle.std.specs.Prelude.{◌≡◌, ◌↔◌, IfSome, IsSome, IsTrue, None, Option, Some};
ghost use Rattle.dia_c_calls.specs.declared.held.Held.{Held as AnyHeld};
ghost use Rattle.dia_c_calls.specs.Held.{MayBeFaults};

use crate::findings::TextFault;
use crate::handle::slot::Slot;
use crate::held::Held;
use std::alloc::Global;

/// The faults of a text, or nothing: then C has written zero bytes.
#[repr(C)]
#[derive(Drop)]
pub struct FaultsHandle {
    pub slot: Slot,
    pub ghost only: { ∥ MayBeFaults slot.seal.held ∥₁ },
}

impl FaultsHandle {
    /// Whether it has some.
    pub fn is_open(&self) -> bool
        ensures { IsTrue result ↔ IsSome self.now.slot.seal.held }
    {
        self.slot.is_open()
    }

    /// The faults are taken out of the handle.
    pub fn take(&mut self, alloc: Global) -> Option<Box<Held>>
        ensures some { IfSome result (λ held. self.old.slot.seal.held ≡ Some held.value) }
        ensures only { IfSome result (λ held. ∥ MayBeFaults (Some held.value) ∥₁) }
        ensures none { result ≡ None → self.old.slot.seal.held ≡ None }
        ensures closed { self.new.slot.seal.held ≡ None }
    {
        self.slot.take(alloc)
    }

    /// Puts faults into a handle that has none.
    pub fn put(&mut self, held: Box<Held>)
        requires closed { self.old.slot.seal.held ≡ None }
        requires only { ∥ MayBeFaults (Some held.value) ∥₁ }
        ensures { self.new.slot.seal.held ≡ Some held.value }
    {
        self.slot = Slot::of(held);
    }
}

/// The faults that a handle of faults holds.
pub fn faults_in(held: &Held) -> &Vec<TextFault>
    requires { ∥ MayBeFaults (Some held.now) ∥₁ }
    ensures { held.now ≡ Held.Faults result.now }
{
    match held {
        Held::Faults(faults) => faults,
        Held::Dict(..) => unreachable!(),
        Held::Text(_) => unreachable!(),
        Held::Peer(_) => unreachable!(),
        Held::Stream(_) => unreachable!(),
        Held::Nothing => unreachable!(),
    }
}
