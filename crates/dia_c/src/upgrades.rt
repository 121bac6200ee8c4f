//! What breaks where messages of one dictionary are read by another.

ghost use Rattle.std.specs.Prelude.{◌⊎◌, ◌≡◌, ◌≢◌, None, IfSome, IsSome};
ghost use Rattle.dia_c_calls.specs.Held.{dict_in, text_in};
ghost use Rattle.dia_c_calls.specs.Upgrades.{AreNumbers, HasListed, IsNotListed, wanted_of};

use dia_c_calls::{
    BAD_ARGUMENT, DONE, DictHandle, IS_CLOSED, IS_OPEN, NO_MEMORY, Problem, REFUSED, TextHandle,
};
use std::alloc::Global;

/// What `diacmd breaking` writes of two dictionaries.
#[unsafe(no_mangle)]
pub extern "C" fn dia_breaking(
    alloc: Global,
    a: &mut DictHandle,
    b: &mut DictHandle,
    sends: u32,
    unknown: u32,
    options: u32,
    commands: &[u8],
    accepted: &[u8],
    text: &mut TextHandle,
    safe: &mut u32,
    problem: &mut Problem,
) -> u32
    ensures ends { (result ≡ DONE) ⊎ (result ≡ REFUSED) ⊎ (result ≡ NO_MEMORY) ⊎ (result ≡ IS_OPEN) ⊎ (result ≡ IS_CLOSED)
        ⊎ (result ≡ BAD_ARGUMENT) }
    ensures kept_a { a.new.slot.seal.held ≡ a.old.slot.seal.held }
    ensures kept_b { b.new.slot.seal.held ≡ b.old.slot.seal.held }
    ensures done { result ≡ DONE → IfSome (dict_in a.old.slot.seal.held) (λ first. IfSome (dict_in b.old.slot.seal.held)
        (λ second. IfSome (text_in text.new.slot.seal.held)
        (λ recorded. HasListed first second (wanted_of sends unknown options) commands.now accepted.now recorded safe.new))) }
    ensures is_open { result ≡ DONE → IsSome (text_in text.new.slot.seal.held) }
    ensures kept { result ≢ DONE → text.new.slot.seal.held ≡ text.old.slot.seal.held }
    ensures refused { result ≡ REFUSED → IfSome (dict_in a.old.slot.seal.held)
        (λ first. IsNotListed first commands.now accepted.now problem.new) }
    ensures only { result ≢ REFUSED → problem.new ≡ problem.old }
    ensures only_done { result ≢ DONE → safe.new ≡ safe.old }
    ensures was_closed { result ≢ IS_OPEN → result ≢ BAD_ARGUMENT → text.old.slot.seal.held ≡ None }
    ensures was_open { result ≡ IS_OPEN → IsSome text.old.slot.seal.held }
    ensures closed { result ≡ IS_CLOSED → (a.old.slot.seal.held ≡ None) ⊎ (b.old.slot.seal.held ≡ None) }
    ensures first_is_open { (result ≡ DONE) ⊎ (result ≡ REFUSED) ⊎ (result ≡ NO_MEMORY) → IsSome (dict_in a.old.slot.seal.held) }
    ensures second_is_open { (result ≡ DONE) ⊎ (result ≡ REFUSED) ⊎ (result ≡ NO_MEMORY) → IsSome (dict_in b.old.slot.seal.held) }
    ensures bad { result ≡ BAD_ARGUMENT → ¬ AreNumbers sends unknown options }
    ensures good { result ≢ BAD_ARGUMENT → AreNumbers sends unknown options }
{
    dia_c_calls::breaking(
        alloc, a, b, sends, unknown, options, commands, accepted, text, safe, problem,
    )
}
