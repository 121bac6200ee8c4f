//! A handle of a dictionary.

ghost use Rattle.std.specs.Prelude.{◌≡◌, ◌↔◌, IfOk, IfSome, IsSome, IsTrue, None, Option, Result, Some, length};
ghost use Rattle.dia_c_calls.specs.Batches.{AreEnds, AreVerdicts};
ghost use Rattle.dia_check.specs.Faults.{IsAnswer};
ghost use Rattle.dia_c_calls.specs.Verdicts.{IsVerdict};
ghost use Rattle.dia_c_calls.specs.declared.held.Held.{Held as AnyHeld};
ghost use Rattle.dia_c_calls.specs.Held.{MayBeDict, dict_in};

use crate::batch::checked_all;
use crate::handle::slot::Slot;
use crate::held::Held;
use crate::verdict::{Verdict, checked};
use dia_check::{Levels, Refusal, Selected, Unknown};
use dia_dict::IndexedBook;
use std::alloc::{AllocError, Global};
use std::sync::Arc;

/// A dictionary, or nothing: then C has written zero bytes.
#[repr(C)]
#[derive(Drop)]
pub struct DictHandle {
    pub slot: Slot,
    pub ghost only: { ∥ MayBeDict slot.seal.held ∥₁ },
}

impl DictHandle {
    /// Whether it has one.
    pub fn is_open(&self) -> bool
        ensures { IsTrue result ↔ IsSome self.now.slot.seal.held }
    {
        self.slot.is_open()
    }

    /// The dictionary is taken out of the handle.
    pub fn take(&mut self, alloc: Global) -> Option<Box<Held>>
        ensures some { IfSome result (λ held. self.old.slot.seal.held ≡ Some held.value) }
        ensures only { IfSome result (λ held. ∥ MayBeDict (Some held.value) ∥₁) }
        ensures none { result ≡ None → self.old.slot.seal.held ≡ None }
        ensures closed { self.new.slot.seal.held ≡ None }
    {
        self.slot.take(alloc)
    }

    /// Puts a dictionary into a handle that has none.
    pub fn put(&mut self, held: Box<Held>)
        requires closed { self.old.slot.seal.held ≡ None }
        requires only { ∥ MayBeDict (Some held.value) ∥₁ }
        ensures { self.new.slot.seal.held ≡ Some held.value }
    {
        self.slot = Slot::of(held);
    }
}

/// The owner that a handle of a dictionary holds.
pub fn owner_in(held: &Held) -> &Arc<IndexedBook>
    requires { ∥ MayBeDict (Some held.now) ∥₁ }
    ensures { held.now ≡ Held.Dict result.now tt }
{
    match held {
        Held::Dict(owner, _) => owner,
        Held::Text(_) => unreachable!(),
        Held::Faults(_) => unreachable!(),
        Held::Peer(_) => unreachable!(),
        Held::Stream(_) => unreachable!(),
        Held::Nothing => unreachable!(),
    }
}

/// What the dictionary in a handle says of a message.
pub fn check_in(
    held: &mut Held,
    unknown: Unknown,
    levels: Levels,
    message: &[u8],
) -> Result<Verdict, AllocError>
    requires { ∥ MayBeDict (Some held.old) ∥₁ }
    ensures kept { held.new ≡ held.old }
    ensures recorded { IfOk result (λ verdict. IfSome (dict_in (Some held.old)) (λ d. (answer : Result Selected Refusal)
        × IsAnswer d unknown levels message.now answer × IsVerdict answer verdict)) }
{
    match held {
        Held::Dict(owner, room) => checked(room, &**owner, unknown, levels, message),
        Held::Text(_) => unreachable!(),
        Held::Faults(_) => unreachable!(),
        Held::Peer(_) => unreachable!(),
        Held::Stream(_) => unreachable!(),
        Held::Nothing => unreachable!(),
    }
}

/// What the dictionary in a handle says of each of the messages with these ends.
pub fn check_all_in(
    alloc: Global,
    held: &mut Held,
    unknown: Unknown,
    levels: Levels,
    bytes: &[u8],
    ends: &[usize],
) -> Result<Vec<Verdict>, AllocError>
    requires dict { ∥ MayBeDict (Some held.old) ∥₁ }
    requires ends { AreEnds (length bytes.now) ends.now }
    ensures kept { held.new ≡ held.old }
    ensures recorded { IfOk result (λ verdicts. IfSome (dict_in (Some held.old))
        (λ d. AreVerdicts d unknown levels bytes.now ends.now verdicts.items)) }
{
    match held {
        Held::Dict(owner, room) => {
            checked_all(alloc, room, &**owner, unknown, levels, bytes, ends)
        }
        Held::Text(_) => unreachable!(),
        Held::Faults(_) => unreachable!(),
        Held::Peer(_) => unreachable!(),
        Held::Stream(_) => unreachable!(),
        Held::Nothing => unreachable!(),
    }
}
