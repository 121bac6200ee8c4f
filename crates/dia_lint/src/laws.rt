//! What findings mean for messages.

ghost use Rattle.std.specs.Prelude.{◌≡◌, ◌↔◌, List, IsSome, Some, slice_get, ℕ};
ghost use Rattle.std.specs.List.{remove};
ghost use Rattle.dia_terms.specs.declared.Levels.{Levels as AnyLevels};
ghost use Rattle.dia_terms.specs.declared.Unknown.{Unknown as AnyPolicy};
ghost use Rattle.dia_wire.specs.declared.Key.{Key as AnyKey};
ghost use Rattle.dia_book.specs.Dictionary.{AreRules, Dictionary, IsDictionary};
ghost use Rattle.dia_book.specs.declared.DRule.{DRule as AnyRule};
ghost use Rattle.dia_valid.specs.Rules.{rules_in, wildcard_of};
ghost use Rattle.dia_valid.specs.Valid.{IsValidOf, Placed};
ghost use Rattle.dia_lint.specs.LevelParts.{AreAlike};
ghost use Rattle.dia_lint.specs.OwnRules.{why_nothing};
ghost use Rattle.dia_lint.specs.SameVerdicts.{IsWithout};

/// Without a rule of which `says-nothing` is reported the AVPs of a level are where the rules say exactly if they are with it.
pub fn rules_that_say_nothing()
    ensures { (d : Dictionary) (def i : ℕ) (r : AnyRule) → IsDictionary d → slice_get (rules_in d def) i ≡ Some r
        → IsSome (why_nothing (wildcard_of (rules_in d def)) r)
        → (keys : List AnyKey) → Placed (remove (rules_in d def) i) keys ↔ Placed (rules_in d def) keys }
{}

/// Without such a rule each message stays valid or invalid.
pub fn messages_without_rules()
    ensures { (d e : Dictionary) (def i : ℕ) (r : AnyRule) → IsDictionary d → slice_get (rules_in d def) i ≡ Some r
        → IsSome (why_nothing (wildcard_of (rules_in d def)) r) → IsWithout d def i e
        → (u : AnyPolicy) (most : AnyLevels) (bytes : List ℕ) (c : ℕ) → IsValidOf d u most bytes c ↔ IsValidOf e u most bytes c }
{}

/// Rules have one normal form exactly if by both the same AVPs of a level are where the rules say.
pub fn rules_of_one_form()
    ensures { (rules others : List AnyRule) → AreRules rules → AreRules others
        → AreAlike rules others ↔ ((keys : List AnyKey) → Placed rules keys ↔ Placed others keys) }
{}
