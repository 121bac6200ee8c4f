//! Rules of the M flag.

/// Whether the M flag is to be set.
#[derive(Clone, Copy, PartialEq, Eq)]
pub enum MRule {
    Must,
    MustNot,
    Any,
}

impl MRule {
    ghost use Rattle.std.specs.Prelude.{◌≡◌};
    ghost use Rattle.dia_terms.specs.MRules.{rule_word};

    /// The word of the rule (our profile).
    pub fn word(self) -> &'static str
        ensures { result.now ≡ rule_word self }
    {
        match self {
            MRule::Must => "must",
            MRule::MustNot => "mustnot",
            MRule::Any => "any",
        }
    }
}
