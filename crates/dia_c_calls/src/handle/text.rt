//! A handle of a text.

ghost use Rattle.std.specs.Prelude.{◌≡◌, ◌↔◌, IfSome, IsSome, IsTrue, None, Option, Some};
ghost use Rattle.dia_c_calls.specs.declared.held.Held.{Held as AnyHeld};
ghost use Rattle.dia_c_calls.specs.Held.{MayBeText, text_in};

use crate::handle::slot::Slot;
use crate::held::Held;
use std::alloc::Global;

/// A text, or nothing: then C has written zero bytes.
#[repr(C)]
#[derive(Drop)]
pub struct TextHandle {
    pub slot: Slot,
    pub ghost only: { ∥ MayBeText slot.seal.held ∥₁ },
}

impl TextHandle {
    /// Whether it has one.
    pub fn is_open(&self) -> bool
        ensures { IsTrue result ↔ IsSome self.now.slot.seal.held }
    {
        self.slot.is_open()
    }

    /// The text is taken out of the handle.
    pub fn take(&mut self, alloc: Global) -> Option<Box<Held>>
        ensures some { IfSome result (λ held. self.old.slot.seal.held ≡ Some held.value) }
        ensures only { IfSome result (λ held. ∥ MayBeText (Some held.value) ∥₁) }
        ensures none { result ≡ None → self.old.slot.seal.held ≡ None }
        ensures closed { self.new.slot.seal.held ≡ None }
    {
        self.slot.take(alloc)
    }

    /// Puts a text into a handle that has none.
    pub fn put(&mut self, held: Box<Held>)
        requires closed { self.old.slot.seal.held ≡ None }
        requires only { ∥ MayBeText (Some held.value) ∥₁ }
        ensures { self.new.slot.seal.held ≡ Some held.value }
    {
        self.slot = Slot::of(held);
    }
}

/// The bytes of the text that a handle of a text holds.
pub fn bytes_in(held: &Held) -> &Vec<u8>
    requires { ∥ MayBeText (Some held.now) ∥₁ }
    ensures { held.now ≡ Held.Text result.now }
{
    match held {
        Held::Text(text) => text,
        Held::Dict(..) => unreachable!(),
        Held::Faults(_) => unreachable!(),
        Held::Peer(_) => unreachable!(),
        Held::Stream(_) => unreachable!(),
        Held::Nothing => unreachable!(),
    }
}
