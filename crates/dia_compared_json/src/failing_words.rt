//! What fails, in a word.

ghost use Rattle.std.specs.Prelude.{◌≡◌};
ghost use Rattle.dia_compared_json.specs.Parts.{why_word};

use dia_compat::Failing;

pub fn why_word(failing: Failing) -> &'static str
    ensures { result.now ≡ why_word failing }
{
    match failing {
        Failing::Fixed { .. } => "fixed",
        Failing::Counts { .. } => "counts",
        Failing::Unlisted { .. } => "unlisted",
        Failing::Uncovered { .. } => "uncovered",
        Failing::Required { .. } => "required",
        Failing::Crowded { .. } => "crowded",
        Failing::NoWildcard { .. } => "no-wildcard",
        Failing::CountsAsOther { .. } => "counts-as-other",
        Failing::WildcardMost { .. } => "wildcard-most",
        Failing::WildcardLeast { .. } => "wildcard-least",
        Failing::NotCounted { .. } => "not-counted",
        Failing::Stranger { .. } => "stranger",
        Failing::LetIn { .. } => "let-in",
        Failing::FirstName => "first-name",
        Failing::SecondName => "second-name",
        Failing::Keys => "keys",
        Failing::MRules => "m-rules",
        Failing::Formats => "formats",
        Failing::Heads => "heads",
        Failing::PFlags => "p-flags",
        Failing::Unserved => "unserved",
        Failing::NotBeside { .. } => "not-beside",
    }
}
