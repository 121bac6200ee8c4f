//! What holds of the answers to all connections.

ghost use Rattle.std.specs.Prelude.{◌≡◌, List, ℕ, false};
ghost use Rattle.dia_dict.specs.Dictionary.{Dictionary as AnyDictionary};
ghost use Rattle.dia_io.specs.declared.Input.{Input as AnyInput};
ghost use Rattle.dia_run.specs.Texts.{IsDictionaryText};
ghost use Rattle.dia_follow_text.specs.declared.options.Options.{Options as AnyOptions};
ghost use Rattle.dia_follow_text.specs.FollowOutcome.{HasOneAnswer};

/// The text of a connection has one answer and one exit, under a dictionary that is read. The answer as text is also one where the
/// dictionary is refused.
pub fn connection_has_one_answer()
    ensures read { (options : AnyOptions) (dictionary : AnyInput) (d : AnyDictionary) (bytes : List ℕ)
        → IsDictionaryText dictionary d → HasOneAnswer options dictionary bytes }
    ensures as_text { (options : AnyOptions) (dictionary : AnyInput) (bytes : List ℕ)
        → options.json ≡ false → HasOneAnswer options dictionary bytes }
{}
