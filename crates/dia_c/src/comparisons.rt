//! Comparisons of two dictionaries.

ghost use Rattle.std.specs.Prelude.{◌⊎◌, ◌≡◌, ◌≢◌, None, IfSome, IsSome};
ghost use Rattle.dia_c_calls.specs.Comparisons.{HasCompared, IsNoTable, table_place};
ghost use Rattle.dia_c_calls.specs.Held.{dict_in, text_in};
ghost use Rattle.dia_c_calls.specs.Verdicts.{IsUnknownPolicy, policy_of};

use dia_c_calls::{
    BAD_ARGUMENT, DONE, DictHandle, IS_CLOSED, IS_OPEN, NO_MEMORY, Problem, REFUSED, TextHandle,
};
use std::alloc::Global;

/// What `diacmd compare` says of two dictionaries and the text of a table.
#[unsafe(no_mangle)]
pub extern "C" fn dia_compare(
    alloc: Global,
    a: &mut DictHandle,
    b: &mut DictHandle,
    unknown: u32,
    table: &[u8],
    line: &mut TextHandle,
    holds: &mut u32,
    problem: &mut Problem,
) -> u32
    ensures ends { (result ≡ DONE) ⊎ (result ≡ REFUSED) ⊎ (result ≡ NO_MEMORY) ⊎ (result ≡ IS_OPEN) ⊎ (result ≡ IS_CLOSED)
        ⊎ (result ≡ BAD_ARGUMENT) }
    ensures kept_a { a.new.slot.seal.held ≡ a.old.slot.seal.held }
    ensures kept_b { b.new.slot.seal.held ≡ b.old.slot.seal.held }
    ensures done { result ≡ DONE → IfSome (dict_in a.old.slot.seal.held) (λ first. IfSome (dict_in b.old.slot.seal.held)
        (λ second. IfSome (text_in line.new.slot.seal.held)
        (λ recorded. HasCompared first second (policy_of unknown) table.now recorded holds.new))) }
    ensures is_open { result ≡ DONE → IsSome (text_in line.new.slot.seal.held) }
    ensures kept { result ≢ DONE → line.new.slot.seal.held ≡ line.old.slot.seal.held }
    ensures refused { result ≡ REFUSED → IsNoTable table.now problem.new }
    ensures only { result ≢ REFUSED → problem.new ≡ problem.old }
    ensures only_done { result ≢ DONE → holds.new ≡ holds.old }
    ensures was_closed { result ≢ IS_OPEN → result ≢ BAD_ARGUMENT → line.old.slot.seal.held ≡ None }
    ensures was_open { result ≡ IS_OPEN → IsSome line.old.slot.seal.held }
    ensures closed { result ≡ IS_CLOSED → (a.old.slot.seal.held ≡ None) ⊎ (b.old.slot.seal.held ≡ None) }
    ensures first_is_open { (result ≡ DONE) ⊎ (result ≡ REFUSED) ⊎ (result ≡ NO_MEMORY) → IsSome (dict_in a.old.slot.seal.held) }
    ensures second_is_open { (result ≡ DONE) ⊎ (result ≡ REFUSED) ⊎ (result ≡ NO_MEMORY) → IsSome (dict_in b.old.slot.seal.held) }
    ensures bad { result ≡ BAD_ARGUMENT → ¬ IsUnknownPolicy unknown }
    ensures good { result ≢ BAD_ARGUMENT → IsUnknownPolicy unknown }
{
    dia_c_calls::compare(alloc, a, b, unknown, table, line, holds, problem)
}

/// The offset in the text of a table where it is refused, by the kind and the line of the problem that `dia_compare` delivered: that of
/// the first word that can't occur there, or of the name that is too long. Other kinds have no offset.
#[unsafe(no_mangle)]
pub extern "C" fn dia_table_place(table: &[u8], kind: u32, line: u32) -> usize
    ensures place { result ≡ table_place table.now kind line }
{
    dia_c_calls::table_place(table, kind, line)
}
