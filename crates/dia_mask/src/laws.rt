//! What holds of the data that replace others.

ghost use Rattle.std.specs.Prelude.{ℕ, List, Option};
ghost use Rattle.dia_data.specs.Plain.{PlainFormat};
ghost use Rattle.dia_mask.specs.declared.words.Words.{Words as AnyWords};
ghost use Rattle.dia_mask.specs.Followed.{AreFollowed};
ghost use Rattle.dia_mask.specs.Replaced.{IsNewData, IsSameSaid, Numbering};
ghost use Rattle.dia_mask.specs.Texts.{Agrees};
ghost use Rattle.dia_mask.specs.Words.{AreAllNumbers};

/// Two words of a text that have the same kinds of characters are replaced by the same word only if they are the same.
pub fn equal_words()
    ensures { (words : AnyWords) (numbers : Numbering) → AreAllNumbers words → Agrees words numbers
        → AreFollowed words numbers }
{}

/// A format says the same of new data as of those that they replace, and they have the same length.
pub fn said_again()
    ensures { (numbers : Numbering) (format : Option PlainFormat) (bytes new : List ℕ)
        → IsNewData numbers format bytes new → IsSameSaid format bytes new }
{}
