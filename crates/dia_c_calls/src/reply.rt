//! The answer to a request, or the verdict on a message that gets none.

ghost use Rattle.std.specs.Prelude.{◌≡◌, IfOk, IfSome, IsSome, None, Result, Some};
ghost use Rattle.dia_answer.specs.Names.{IsName};
ghost use Rattle.dia_check.specs.Faults.{IsAnswer};
ghost use Rattle.dia_c_calls.specs.declared.verdict.Verdict.{Verdict as AnyVerdict};
ghost use Rattle.dia_c_calls.specs.Held.{MayBeText, text_in};
ghost use Rattle.dia_c_calls.specs.Replies.{IsAnswered, IsUnanswered, form_number};
ghost use Rattle.dia_c_calls.specs.Verdicts.{IsVerdictOn, fault_verdict};

use crate::held::Held;
use crate::verdict::{Verdict, faulty, verdict_on};
use dia_answer::{Form, Made, Names, answer};
use dia_book::Book;
use dia_check::{Levels, Unknown};
use std::alloc::{AllocError, Global};

/// The answer to a request, in a box, with the number of its form and the verdict on the request.
#[derive(Drop)]
pub struct Answered {
    pub text: Box<Held>,
    pub form: u32,
    pub verdict: Verdict,
}

/// What a message gets.
#[derive(Drop)]
pub enum Reply {
    Made(Answered),
    /// No answer. The verdict is that of a check.
    None(Verdict),
}

/// These names, if both are DiameterIdentities of at most 255 bytes.
pub fn names_of<'a>(host: &'a [u8], realm: &'a [u8]) -> Option<Names<'a>>
    ensures some { IfSome result (λ _. IsName host.now × IsName realm.now) }
    ensures same { IfSome result (λ names. (names.host.now ≡ host.now) × (names.realm.now ≡ realm.now)) }
    ensures none { result ≡ None → ¬ (IsName host.now × IsName realm.now) }
{
    let Ok(host) = str::from_utf8(host) else {
        return None;
    };
    let Ok(realm) = str::from_utf8(realm) else {
        return None;
    };
    match Names::new(host, realm) {
        Ok(names) => Some(names),
        Err(_) => None,
    }
}

/// The answer to a request, or the verdict on a message that gets none.
pub fn reply_to<B: Book>(
    alloc: Global,
    book: &B,
    unknown: Unknown,
    levels: Levels,
    names: &Names<'_>,
    message: &[u8],
) -> Result<Reply, AllocError>
    ensures made { IfOk result (λ found. (a : Answered) → found ≡ Reply.Made a → IfSome (text_in (Some a.text.value))
        (λ bytes. IsAnswered (B.meaning book.now) unknown levels names.now.host.now names.now.realm.now message.now bytes a.form a.verdict)) }
    ensures is_text { IfOk result (λ found. (a : Answered) → found ≡ Reply.Made a
        → IsSome (text_in (Some a.text.value)) × ∥ MayBeText (Some a.text.value) ∥₁) }
    ensures checked { IfOk result (λ found. (a : Answered) → found ≡ Reply.Made a
        → IsVerdictOn (B.meaning book.now) unknown levels message.now a.verdict) }
    ensures none { IfOk result (λ found. (v : AnyVerdict) → found ≡ Reply.None v
        → IsUnanswered (B.meaning book.now) unknown levels names.now.host.now names.now.realm.now message.now
        × IsVerdictOn (B.meaning book.now) unknown levels message.now v) }
{
    match answer(alloc, book, unknown, levels, names, message)? {
        Ok(made) => Ok(Reply::Made(boxed(alloc, made)?)),
        Err(_) => Ok(Reply::None(verdict_on(alloc, book, unknown, levels, message)?)),
    }
}

/// An answer that was made, in a box.
fn boxed(alloc: Global, made: Made) -> Result<Answered, AllocError>
    ensures text { IfOk result (λ a. text_in (Some a.text.value) ≡ Some made.bytes.items) }
    ensures is_text { IfOk result (λ a. ∥ MayBeText (Some a.text.value) ∥₁) }
    ensures form { IfOk result (λ a. a.form ≡ form_number made.form) }
    ensures verdict { IfOk result (λ a. a.verdict ≡ fault_verdict made.fault) }
{
    let Made { bytes, form, fault } = made;
    Ok(Answered {
        text: Box::new(alloc, Held::Text(bytes))?,
        form: form_number(form),
        verdict: faulty(fault),
    })
}

fn form_number(form: Form) -> u32
    ensures { result ≡ form_number form }
{
    match form {
        Form::Own => 1,
        Form::Error => 2,
        Form::Base => 3,
    }
}
