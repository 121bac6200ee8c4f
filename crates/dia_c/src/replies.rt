//! Answers to requests that have a fault.

ghost use Rattle.std.specs.Prelude.{◌⊎◌, ◌≡◌, ◌≢◌, IfSome, IsSome, None};
ghost use Rattle.dia_answer.specs.Names.{IsName};
ghost use Rattle.dia_c_calls.specs.Held.{dict_in, text_in};
ghost use Rattle.dia_c_calls.specs.Replies.{IsAnswered, IsUnanswered};
ghost use Rattle.dia_c_calls.specs.Verdicts.{Answers, IsUnknownPolicy, limit_of, policy_of};

use dia_c_calls::{
    BAD_ARGUMENT, DONE, DictHandle, IS_CLOSED, IS_OPEN, NO_MEMORY, NONE, TextHandle, Verdict,
};
use std::alloc::Global;

/// The answer to a request that reports its first fault.
#[unsafe(no_mangle)]
pub extern "C" fn dia_answer(
    alloc: Global,
    handle: &mut DictHandle,
    unknown: u32,
    levels: u32,
    host: &[u8],
    realm: &[u8],
    message: &[u8],
    bytes: &mut TextHandle,
    form: &mut u32,
    verdict: &mut Verdict,
) -> u32
    ensures ends { (result ≡ DONE) ⊎ (result ≡ NONE) ⊎ (result ≡ NO_MEMORY) ⊎ (result ≡ IS_OPEN) ⊎ (result ≡ IS_CLOSED)
        ⊎ (result ≡ BAD_ARGUMENT) }
    ensures kept_dict { handle.new.slot.seal.held ≡ handle.old.slot.seal.held }
    ensures done { result ≡ DONE → IfSome (dict_in handle.old.slot.seal.held) (λ d. IfSome (text_in bytes.new.slot.seal.held)
        (λ made. IsAnswered d (policy_of unknown) (limit_of levels) host.now realm.now message.now made form.new verdict.new)) }
    ensures is_open { result ≡ DONE → IsSome (text_in bytes.new.slot.seal.held) }
    ensures none { result ≡ NONE → IfSome (dict_in handle.old.slot.seal.held)
        (λ d. IsUnanswered d (policy_of unknown) (limit_of levels) host.now realm.now message.now) }
    ensures checked { (result ≡ DONE) ⊎ (result ≡ NONE) → IfSome (dict_in handle.old.slot.seal.held)
        (λ d. Answers d unknown levels message.now verdict.new) }
    ensures kept { result ≢ DONE → bytes.new.slot.seal.held ≡ bytes.old.slot.seal.held }
    ensures only_done { result ≢ DONE → form.new ≡ form.old }
    ensures only { result ≢ DONE → result ≢ NONE → verdict.new ≡ verdict.old }
    ensures was_closed { result ≢ IS_OPEN → result ≢ BAD_ARGUMENT → bytes.old.slot.seal.held ≡ None }
    ensures was_open { result ≡ IS_OPEN → IsSome bytes.old.slot.seal.held }
    ensures closed { result ≡ IS_CLOSED → handle.old.slot.seal.held ≡ None }
    ensures dict_is_open { (result ≡ DONE) ⊎ (result ≡ NONE) ⊎ (result ≡ NO_MEMORY)
        → IsSome (dict_in handle.old.slot.seal.held) }
    ensures bad { result ≡ BAD_ARGUMENT → ¬ (IsUnknownPolicy unknown × IsName host.now × IsName realm.now) }
    ensures good { result ≢ BAD_ARGUMENT → IsUnknownPolicy unknown × IsName host.now × IsName realm.now }
{
    dia_c_calls::answer(
        alloc, handle, unknown, levels, host, realm, message, bytes, form, verdict,
    )
}
