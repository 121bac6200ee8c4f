//! That sources name dictionaries.
ghost use Rattle.std.specs.Prelude.{◌≡◌, List, None};
ghost use Rattle.dia_ccf.specs.Grammar.{Derives};
ghost use Rattle.dia_ccf.specs.Plain.{PlainSource};
ghost use Rattle.dia_ccf.specs.Tokens.{Token};
ghost use Rattle.dia_book.specs.Dictionary.{IsDictionary};
ghost use Rattle.dia_dict.specs.Resolution.{first_wrong, resolved};

/// Where the grammar derives tokens for a source, and nothing is wrong with that source, the dictionary that it names has
/// what each `Book` promises of its own: distinct keys and names, known keys, and bounds that can be met.
pub fn named_is_sound()
    ensures { (ts : List Token) (s : PlainSource)
        → Derives ts s → first_wrong s ≡ None → IsDictionary (resolved s) }
{}
