//! What follows of the definitions.

ghost use Rattle.dia_compared_json.specs.Compared.{ComparisonHasOneText};

/// `compare` writes one text for two dictionaries and a table that are read, and has one exit: all that fails a test comes in
/// one order, and once.
pub fn one_comparison_text()
    ensures { ComparisonHasOneText }
{}
