//! What holds of answers.
ghost use Rattle.std.specs.Prelude.{◌≡◌, ℕ, Bool, List};
ghost use Rattle.dia_io.specs.declared.Exit.{Exit};
ghost use Rattle.dia_dict.specs.Dictionary.{Dictionary};
ghost use Rattle.dia_uses.specs.Outcome.{IsUsesText};

use dia_places::paths_are_one;

/// A dictionary and the words determine the text and how the command ends.
pub fn answers_are_one()
    ensures { (json : Bool) (d : Dictionary) (avps : List (List ℕ)) (exit other : Exit) (text written : List ℕ)
        → IsUsesText json d avps exit text → IsUsesText json d avps other written
        → (exit ≡ other) × (text ≡ written) }
{
    paths_are_one()
}
