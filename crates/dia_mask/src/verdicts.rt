//! What a check says of masked messages.

ghost use Rattle.std.specs.Prelude.{ℕ, List};
ghost use Rattle.dia_book.specs.Dictionary.{Dictionary, IsDictionary};
ghost use Rattle.dia_mask.specs.declared.choice.Choice.{Choice as AnyChoice};
ghost use Rattle.dia_mask.specs.Replaced.{Numbering};
ghost use Rattle.dia_mask.specs.Masked.{IsMessageMasked};
ghost use Rattle.dia_mask.specs.Verdict.{IsJudgedAlike};

/// A check answers the same of a message and of what replaces it, whichever AVPs are masked: the command, or the fault with its
/// place, reason and subject.
pub fn same_verdict()
    ensures { (choice : AnyChoice) (numbers : Numbering) (d : Dictionary) (bytes new : List ℕ) → IsDictionary d
        → IsMessageMasked choice numbers d bytes new → IsJudgedAlike d bytes new }
{}
