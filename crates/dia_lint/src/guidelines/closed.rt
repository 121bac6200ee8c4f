//! Whether definitions can be extended (RFC 7423 section 5.2).

ghost use Rattle.std.specs.Prelude.{◌≡◌};
ghost use Rattle.dia_lint.specs.Guidelines.{closed_command, closed_group, counted, open_to_some, others};

use crate::definitions::{wildcard_of, wildcard_or_head};
use crate::detail::Detail;
use crate::finding::{Finding, Subject};
use crate::guidelines::{at_head, only_if};
use crate::rule::Rule;
use dia_book::{DRule, DefId};

/// A command lets in any number of AVPs that it doesn't list.
pub(super) fn closed_command(def: DefId, rules: &[DRule]) -> Option<Finding>
    ensures { result ≡ closed_command def rules.now }
{
    match wildcard_of(rules) {
        Some(wild) => counted(def, rules, &wild),
        None => Some(at_head(def, Rule::Closed, Detail::NoOthers)),
    }
}

/// A group whose wildcard requires no AVP lets in any number of them.
pub(super) fn open_to_some(def: DefId, rules: &[DRule]) -> Option<Finding>
    ensures { result ≡ open_to_some def rules.now }
{
    match wildcard_of(rules) {
        Some(wild) => {
            if wild.min == 0 {
                counted(def, rules, &wild)
            } else {
                None
            }
        }
        None => None,
    }
}

/// A group has a wildcard.
pub(super) fn closed_group(def: DefId, rules: &[DRule]) -> Option<Finding>
    ensures { result ≡ closed_group def rules.now }
{
    only_if(
        !wildcard_of(rules).is_some(),
        at_head(def, Rule::ClosedGroup, Detail::NoOthers),
    )
}

/// The finding of a wildcard with a greatest count.
fn counted(def: DefId, rules: &[DRule], wild: &DRule) -> Option<Finding>
    ensures { result ≡ counted def rules.now wild.now }
{
    match wild.max {
        Some(max) => Some(Finding {
            rule: Rule::Closed,
            place: wildcard_or_head(def, rules),
            subject: Subject::Definition(def),
            detail: others(wild.min, max),
        }),
        None => None,
    }
}

fn others(min: u32, max: u32) -> Detail
    ensures { result ≡ others min max }
{
    if max == 0 {
        Detail::NoOthers
    } else {
        Detail::Others { min, max }
    }
}
