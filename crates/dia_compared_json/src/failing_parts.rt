//! The parts of the two dictionaries that a failing shows.

ghost use Rattle.std.specs.Prelude.{◌≡◌};
ghost use Rattle.dia_compared_json.specs.Parts.{accepted_part, sent_part};

use crate::parts::Part;
use crate::sides::Side;
use dia_book::Book;
use dia_compat::Failing;

/// What the first dictionary says of it.
pub fn sent_part<A: Book>(a: &Side<'_, A>, failing: Failing) -> Part
    ensures { result ≡ sent_part a.now failing }
{
    match failing {
        Failing::Fixed { first, .. } | Failing::WildcardLeast { first, .. } => Part::Rule(first),
        Failing::Counts { first, .. }
        | Failing::Unlisted { first }
        | Failing::Uncovered { first }
        | Failing::Crowded { first, .. }
        | Failing::NoWildcard { first }
        | Failing::CountsAsOther { first, .. }
        | Failing::WildcardMost { first, .. }
        | Failing::Stranger { first, .. }
        | Failing::LetIn { first, .. } => Part::Rule(Some(first)),
        Failing::NotCounted { .. } => Part::Rule(a.wildcard()),
        Failing::Required { .. } | Failing::FirstName | Failing::SecondName => Part::Nothing,
        Failing::Keys | Failing::MRules | Failing::Formats => Part::Own,
        Failing::Heads | Failing::PFlags | Failing::Unserved | Failing::NotBeside { .. } => {
            Part::Command
        }
    }
}

/// What the second dictionary says of it.
pub fn accepted_part<A: Book>(a: &Side<'_, A>, failing: Failing) -> Part
    ensures { result ≡ accepted_part a.now failing }
{
    match failing {
        Failing::Fixed { second, .. }
        | Failing::Counts { second, .. }
        | Failing::Required { second }
        | Failing::Crowded { second, .. }
        | Failing::WildcardMost { second, .. }
        | Failing::WildcardLeast { second, .. } => Part::Rule(Some(second)),
        Failing::CountsAsOther { wildcard, .. } | Failing::NotCounted { wildcard, .. } => {
            Part::Rule(Some(wildcard))
        }
        Failing::Uncovered { first } => Part::Declaration(a.key_at(first)),
        Failing::Stranger { key, .. } | Failing::LetIn { key, .. } => Part::Declaration(Some(key)),
        Failing::Unlisted { .. }
        | Failing::NoWildcard { .. }
        | Failing::FirstName
        | Failing::SecondName
        | Failing::Unserved => Part::Nothing,
        Failing::Keys | Failing::MRules | Failing::Formats => Part::Own,
        Failing::Heads | Failing::PFlags => Part::Command,
        Failing::NotBeside { second } => Part::Other(second),
    }
}
