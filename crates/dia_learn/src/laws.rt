//! What holds of the levels of valid messages, and of the dictionary text that is learnt from levels.
ghost use Rattle.std.specs.Prelude.{◌≡◌, Bool, List, ℕ};
ghost use Rattle.dia_ccf.specs.Plain.{PlainSource};
ghost use Rattle.dia_book.specs.Dictionary.{Dictionary};
ghost use Rattle.dia_terms.specs.declared.Unknown.{Unknown as AnyPolicy};
ghost use Rattle.dia_terms.specs.declared.Levels.{Levels as AnyLevels};
ghost use Rattle.dia_valid.specs.Valid.{IsValidOf};
ghost use Rattle.dia_learn.specs.Learnt.{HaveSame, IsLearnt};
ghost use Rattle.dia_learn.specs.Levels.{IsLevelOf, PlainLevel};
ghost use Rattle.dia_learn.specs.Placed.{IsRead};

/// Each level of a valid message has its AVPs where the rules of its definition say, with M flags as their entries say.
pub fn valid_levels()
    ensures { (d : Dictionary) (u : AnyPolicy) (most : AnyLevels) (bytes : List ℕ) (c : ℕ) (l : PlainLevel)
        → IsValidOf d u most bytes c → IsLevelOf d bytes l → IsRead d u l }
{}

/// What is learnt depends on which levels and which errors there are, not on their order, nor on how often one is there.
pub fn one_source()
    ensures { (s : PlainSource) (d : Dictionary) (ls more : List PlainLevel) (flags others : List Bool) (made again : PlainSource)
        → HaveSame ls more → HaveSame flags others → IsLearnt s d ls flags made → IsLearnt s d more others again → made ≡ again }
{}
