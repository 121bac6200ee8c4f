//! Levels that are read as Addresses. A level never has as many bytes as an Address of IPv4 or IPv6: so it is one where it isn't
//! empty, and its first two bytes, which are those of an AVP's code, are neither family's number.
ghost use Rattle.std.specs.Prelude.{◌↔◌, All, IsTrue, MatchOption};
ghost use Rattle.dia_data.specs.Plain.{Address};
ghost use Rattle.dia_breaking_avps.specs.Answers.{IsLevelAsLeaf};
ghost use Rattle.dia_breaking_avps.specs.Levels.{HasNoFamily, IsFamily, OthersHaveNone};

use crate::breaking::DataBreak;
use crate::forms::asks_for_none;
use dia_book::{Book, DRule};
use dia_breaking_sites::is_open;
use dia_terms::Sends;

/// The least code whose first two bytes are 1, the family of IPv4.
const FIRST_FAMILY: u32 = 0x0001_0000;

/// The least code after those whose first two bytes are 2, the family of IPv6.
const PAST_FAMILIES: u32 = 0x0003_0000;

/// What breaks of levels of these rules that are read as Addresses.
pub(crate) fn level_as_address<A: Book>(a: &A, sends: Sends, rules: &[DRule]) -> DataBreak
    ensures { IsLevelAsLeaf (A.meaning a.now) sends rules.now Address result }
{
    if asks_for_none(rules) {
        DataBreak::LeastLevel
    } else if have_no_families(rules, others_have_none(a, sends, rules)) {
        DataBreak::Fits
    } else {
        DataBreak::Undecided
    }
}

/// Whether no rule lists the code of a family, and each wildcard is fine.
fn have_no_families(rules: &[DRule], is_wildcard_fine: bool) -> bool
    ensures { IsTrue result ↔ All (λ rule. MatchOption rule.key (IsTrue is_wildcard_fine) HasNoFamily) rules.now }
{
    rules
        .iter()
        .all(|rule| has_no_family(rule, is_wildcard_fine))
}

fn has_no_family(rule: &DRule, is_wildcard_fine: bool) -> bool
    ensures { IsTrue result ↔ MatchOption rule.now.key (IsTrue is_wildcard_fine) HasNoFamily }
{
    match rule.key {
        Some(key) => !is_family(key.code),
        None => is_wildcard_fine,
    }
}

/// Whether no AVP that the wildcard of these rules lets in has the code of a family.
fn others_have_none<A: Book>(a: &A, sends: Sends, rules: &[DRule]) -> bool
    ensures { IsTrue result ↔ OthersHaveNone (A.meaning a.now) sends rules.now }
{
    match sends {
        Sends::Any => false,
        Sends::Known => entries_have_none(a),
        Sends::Filled => filled_have_none(a, rules),
        Sends::Listed => true,
    }
}

fn filled_have_none<A: Book>(a: &A, rules: &[DRule]) -> bool
    ensures { IsTrue result ↔ OthersHaveNone (A.meaning a.now) Sends.Filled rules.now }
{
    if is_open(Sends::Filled, rules) {
        entries_have_none(a)
    } else {
        true
    }
}

fn entries_have_none<A: Book>(a: &A) -> bool
    ensures { IsTrue result ↔ All (λ e. ¬ IsFamily e.key.code) (A.meaning a.now).entries }
{
    for index in 0..a.entries() {
        if is_family(a.entry_key(a.entry_at(index)).code) {
            return false;
        }
    }
    true
}

/// Whether the first two bytes of the code are the number of a family.
fn is_family(code: u32) -> bool
    ensures { IsTrue result ↔ IsFamily code }
{
    FIRST_FAMILY <= code && code < PAST_FAMILIES
}
