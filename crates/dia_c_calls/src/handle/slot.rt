//! A pointer, and whether it points to something.

ghost use Rattle.std.specs.Prelude.{◌≡◌, ◌↔◌, IfSome, IsSome, IsTrue, None, Option, Some};
ghost use Rattle.dia_c_calls.specs.declared.held.Held.{Held as AnyHeld};

use crate::handle::seal::Seal;
use crate::held::Held;
use std::alloc::Global;
use std::mem::replace;

/// Something, or nothing: then C has written zero bytes.
#[repr(C)]
#[derive(Drop)]
pub struct Slot {
    pub seal: Seal,
    state: u32,
    pub ghost is_open: { (state ≡ 1) ↔ IsSome seal.held },
}

impl Slot {
    /// Whether there is something.
    pub fn is_open(&self) -> bool
        ensures { IsTrue result ↔ IsSome self.now.seal.held }
    {
        self.state == 1
    }

    /// A slot of nothing.
    pub fn empty(alloc: Global) -> Slot
        ensures { result.seal.held ≡ None }
    {
        Slot {
            seal: Seal::empty(alloc),
            state: 0,
        }
    }

    /// A slot of this.
    pub fn of(held: Box<Held>) -> Slot
        ensures { result.seal.held ≡ Some held.value }
    {
        Slot {
            seal: Seal::of_box(held),
            state: 1,
        }
    }

    /// What is there is taken out.
    pub fn take(&mut self, alloc: Global) -> Option<Box<Held>>
        ensures some { IfSome result (λ held. self.old.seal.held ≡ Some held.value) }
        ensures none { result ≡ None → self.old.seal.held ≡ None }
        ensures closed { self.new.seal.held ≡ None }
    {
        if self.state != 1 {
            return None;
        }
        let slot = replace(self, Slot::empty(alloc));
        Some(slot.seal.into_box())
    }
}
