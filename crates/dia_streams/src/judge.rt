ghost use Rattle.std.specs.Prelude.{◌≡◌, ◌++◌, List, ℕ, IfOk, string_bytes};
ghost use Rattle.dia_io.specs.declared.Input.{Input as AnyInput};

use dia_io::Input;
use std::alloc::{AllocError, Global};

/// What judges lines.
pub trait Judge {
    /// What is found of a line. It may own memory.
    type Verdict: Drop;

    // Whether a line has this verdict.
    ghost says: { Self → AnyInput → Self.Verdict → Type 0 };

    // The text for a verdict on the line of this number.
    ghost recorded: { Self → ℕ → Self.Verdict → List ℕ };

    /// The verdict on the line of this number. Its text is added to another. What the space holds means nothing: it is memory
    /// that is used again for the next line.
    fn judge(
        &self,
        alloc: Global,
        number: u64,
        line: &Input,
        space: &mut Vec<u8>,
        text: &mut String,
    ) -> Result<Self::Verdict, AllocError>
        ensures { IfOk result (λ verdict. says self.now line.now verdict
            × (string_bytes text.new ≡ string_bytes text.old ++ recorded self.now number verdict)) };
}
