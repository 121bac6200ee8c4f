ghost use Rattle.std.specs.Prelude.{◌≡◌, ◌++◌, List, ℕ, Option, None, Some, IfOk, string_bytes};

use std::alloc::{AllocError, Global};

/// What judges messages.
pub trait MessageJudge {
    /// What is found of a message.
    type Verdict: Copy;

    // Whether the bytes of a message have this verdict; or, where there are none, what isn't hexadecimal.
    ghost says: { Self → Option (List ℕ) → Self.Verdict → Type 0 };

    // The line for a verdict on what begins at a place.
    ghost recorded: { Self → ℕ × Self.Verdict → List ℕ };

    /// The verdict on the bytes of a message that begins at a place. Its line is added to a text.
    fn judge(
        &self,
        alloc: Global,
        at: u64,
        message: &[u8],
        text: &mut String,
    ) -> Result<Self::Verdict, AllocError>
        ensures { IfOk result (λ verdict. says self.now (Some message.now) verdict
            × (string_bytes text.new ≡ string_bytes text.old ++ recorded self.now (at, verdict))) };

    /// The verdict on a text that isn't hexadecimal in the message that begins at a place. Its line is added to a text.
    fn judge_no_digits(&self, at: u64, text: &mut String) -> Result<Self::Verdict, AllocError>
        ensures { IfOk result (λ verdict. says self.now None verdict
            × (string_bytes text.new ≡ string_bytes text.old ++ recorded self.now (at, verdict))) };
}
