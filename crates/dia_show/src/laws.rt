//! What follows of the definitions.

ghost use Rattle.std.specs.Prelude.{◌≡◌, ℕ, Bool, List, [], false};
ghost use Rattle.dia_io.specs.declared.Exit.{Exit as AnyExit};
ghost use Rattle.dia_io.specs.declared.Inputs.{Inputs as AnyInputs};
ghost use Rattle.dia_io.specs.Inputs.{Holds};
ghost use Rattle.dia_streams.specs.Lines.{LineHasOneAnswer};
ghost use Rattle.dia_run.specs.Outcome.{IsShowOutcome};
ghost use Rattle.dia_show.specs.Lines.{IsLinesOutcome, OfLine};
ghost use Rattle.dia_show.specs.Outcome.{IsNamedOutcome};
ghost use Rattle.dia_show.specs.Words.{max_values};

/// Without names and without words what is written is what `show` writes.
pub fn plain_is_show()
    ensures { (inputs : AnyInputs) (text : List ℕ) (exit : AnyExit) → Holds inputs.table max_values []
        → IsNamedOutcome false inputs text exit → IsShowOutcome inputs text exit }
{}

/// `show` writes one text for its inputs, and ends in one way.
pub fn one_show()
    ensures { (names : Bool) (inputs : AnyInputs) (text other : List ℕ) (exit ending : AnyExit)
        → IsNamedOutcome names inputs text exit → IsNamedOutcome names inputs other ending
        → (text ≡ other) × (exit ≡ ending) }
{}

/// It writes one text for a line.
pub fn one_show_of_line()
    ensures { (names : Bool) (inputs : AnyInputs) → LineHasOneAnswer (OfLine names inputs) }
{}

/// It writes one text for a text of lines, and ends in one way.
pub fn one_show_of_lines()
    ensures { (names : Bool) (inputs : AnyInputs) (bytes text other : List ℕ) (exit ending : AnyExit)
        → IsLinesOutcome names inputs bytes text exit → IsLinesOutcome names inputs bytes other ending
        → (text ≡ other) × (exit ≡ ending) }
{}
