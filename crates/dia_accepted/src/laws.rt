//! What the entries of a list accept.
ghost use Rattle.std.specs.Prelude.{◌≡◌, List, true, ℕ};
ghost use Rattle.dia_accepted.specs.Accepted.{accepts, entry};
ghost use Rattle.dia_accepted.specs.Lines.{IsAnswer, PlainLine, everywhere};

/// An entry with the parts of a line of an answer accepts this line.
pub fn own_entry_accepts()
    ensures { (n : ℕ) (words text : List ℕ) (line : PlainLine) → IsAnswer words line
        → accepts words (entry n text line) ≡ true }
{}

/// And so does one of its reason, subject and detail in all commands and groups: with `*`, or of `--once`.
pub fn entry_of_cause_accepts()
    ensures { (n : ℕ) (words text : List ℕ) (line : PlainLine) → IsAnswer words line
        → accepts words (entry n text (everywhere line)) ≡ true }
{}
