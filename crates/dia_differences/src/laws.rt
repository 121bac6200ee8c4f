//! Laws of differences.

ghost use Rattle.std.specs.Prelude.{◌≡◌, List};
ghost use Rattle.dia_book.specs.Dictionary.{Dictionary};
ghost use Rattle.dia_differences.specs.declared.lines.What.{What};
ghost use Rattle.dia_differences.specs.Lines.{AreDifferences};
ghost use Rattle.dia_differences.specs.Messages.{SameHaveSameMessages};

/// Two dictionaries have one list of differences.
pub fn one_list()
    ensures { (a b : Dictionary) (xs ys : List What) → AreDifferences a b xs → AreDifferences a b ys → xs ≡ ys }
{}

/// Two dictionaries that mean the same have the same valid messages.
pub fn same_messages()
    ensures { SameHaveSameMessages }
{}
