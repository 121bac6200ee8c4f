//! What is answered with a text.

ghost use Rattle.std.specs.Prelude.{◌≡◌, IfOk, Some, string_bytes};
ghost use Rattle.dia_c_calls.specs.Comparisons.{holds_of};
ghost use Rattle.dia_c_calls.specs.Held.{MayBeText, text_in};

use crate::held::Held;
use dia_run::{Exit, Outcome};
use std::alloc::{AllocError, Global};

/// A text in a box, and 1 where the answer is yes.
#[derive(Drop)]
pub struct AnswerText {
    pub text: Box<Held>,
    pub holds: u32,
}

/// What a command writes, in a box, and how it ends.
pub fn answer_text(alloc: Global, outcome: Outcome) -> Result<AnswerText, AllocError>
    ensures text { IfOk result (λ answer. text_in (Some answer.text.value) ≡ Some (string_bytes outcome.text)) }
    ensures is_text { IfOk result (λ answer. ∥ MayBeText (Some answer.text.value) ∥₁) }
    ensures holds { IfOk result (λ answer. answer.holds ≡ holds_of outcome.exit) }
{
    answer_bytes(alloc, outcome.text.into_bytes(), outcome.exit)
}

/// A text, in a box, and how the command that wrote it ended.
pub fn answer_bytes(alloc: Global, text: Vec<u8>, exit: Exit) -> Result<AnswerText, AllocError>
    ensures text { IfOk result (λ answer. text_in (Some answer.text.value) ≡ Some text.items) }
    ensures is_text { IfOk result (λ answer. ∥ MayBeText (Some answer.text.value) ∥₁) }
    ensures holds { IfOk result (λ answer. answer.holds ≡ holds_of exit) }
{
    let text = Box::new(alloc, Held::Text(text))?;
    let holds = holds_of(exit);
    Ok(AnswerText { text, holds })
}

fn holds_of(exit: Exit) -> u32
    ensures { result ≡ holds_of exit }
{
    match exit {
        Exit::Yes => 1,
        Exit::No => 0,
        Exit::Bad => 0,
    }
}
