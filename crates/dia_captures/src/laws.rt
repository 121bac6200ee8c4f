//! What is written of the verdicts is what the commands write.

ghost use Rattle.std.specs.Prelude.{◌≡◌, List, ℕ};
ghost use Rattle.dia_dict.specs.Dictionary.{Dictionary};
ghost use Rattle.dia_terms.specs.declared.Unknown.{Unknown as AnyPolicy};
ghost use Rattle.dia_terms.specs.declared.Levels.{Levels as AnyLevels};
ghost use Rattle.dia_io.specs.declared.Input.{Input as AnyInput};
ghost use Rattle.dia_io.specs.declared.Inputs.{Inputs as AnyInputs};
ghost use Rattle.dia_io.specs.declared.Exit.{Exit as AnyExit};
ghost use Rattle.dia_streams.specs.Lines.{LineHasOneAnswer};
ghost use Rattle.dia_run.specs.Texts.{IsDictionaryText};
ghost use Rattle.dia_captures.specs.declared.verdicts.Checked.{Checked as AnyVerdict};
ghost use Rattle.dia_captures.specs.declared.verdicts.Refuted.{Refuted as AnyVerdicts};
ghost use Rattle.dia_captures.specs.Verdicts.{IsLineChecked, IsLineRefuted, checked_exit, checked_line};
ghost use Rattle.dia_captures.specs.Verdicts.{refuted_exit, refuted_line};
ghost use Rattle.dia_captures.specs.Lines.{OfLine, IsLinesOutcome, checks, refutations};
ghost use Rattle.dia_captures.specs.Streams.{IsStreamOutcome};

/// What is written of a verdict on a line is what `check` writes for the dictionary's text, and the line as the message.
pub fn check_of_line()
    ensures { (u : AnyPolicy) (most : AnyLevels) (inputs : AnyInputs) (d : Dictionary)
        → IsDictionaryText inputs.first d → (message : AnyInput) (verdict : AnyVerdict)
        → IsLineChecked u most d message verdict
        → OfLine (checks u most) inputs message (checked_line d verdict, checked_exit verdict) }
{}

/// What is written of both verdicts on a line is what `refute` writes for the dictionaries' texts, and the line as the message.
pub fn refute_of_line()
    ensures { (u : AnyPolicy) (most : AnyLevels) (inputs : AnyInputs) (a b : Dictionary)
        → IsDictionaryText inputs.first a → IsDictionaryText inputs.second b
        → (message : AnyInput) (verdict : AnyVerdicts) → IsLineRefuted u most a b message verdict
        → OfLine (refutations u most) inputs message (refuted_line verdict, refuted_exit verdict) }
{}

/// `check` writes one text for a line.
pub fn one_check()
    ensures { (u : AnyPolicy) (most : AnyLevels) (inputs : AnyInputs)
        → LineHasOneAnswer (OfLine (checks u most) inputs) }
{}

/// `refute` writes one text for a line.
pub fn one_refute()
    ensures { (u : AnyPolicy) (most : AnyLevels) (inputs : AnyInputs)
        → LineHasOneAnswer (OfLine (refutations u most) inputs) }
{}

/// `check` writes one text for a text of lines, and ends in one way.
pub fn one_check_of_lines()
    ensures { (u : AnyPolicy) (most : AnyLevels) (inputs : AnyInputs) (bytes text other : List ℕ)
        (exit ending : AnyExit) → IsLinesOutcome (checks u most) inputs bytes text exit
        → IsLinesOutcome (checks u most) inputs bytes other ending → (text ≡ other) × (exit ≡ ending) }
{}

/// So does `refute`.
pub fn one_refute_of_lines()
    ensures { (u : AnyPolicy) (most : AnyLevels) (inputs : AnyInputs) (bytes text other : List ℕ)
        (exit ending : AnyExit) → IsLinesOutcome (refutations u most) inputs bytes text exit
        → IsLinesOutcome (refutations u most) inputs bytes other ending → (text ≡ other) × (exit ≡ ending) }
{}

/// `check` writes one text for a stream, and ends in one way.
pub fn one_check_of_stream()
    ensures { (u : AnyPolicy) (most : AnyLevels) (inputs : AnyInputs) (stream text other : List ℕ)
        (exit ending : AnyExit) → IsStreamOutcome u most inputs stream text exit
        → IsStreamOutcome u most inputs stream other ending → (text ≡ other) × (exit ≡ ending) }
{}
