//! The diagnostic of each failing: a line for each part of the dictionaries that shows it, and the hint.
//!
//! A line is `PART: TEXT`, and is reported where there is such a part:
//!
//! | Part | Is |
//! |---|---|
//! | `x`, `y` | the definition of the first, and of the second |
//! | `sent` | the rule of `x` that the failing is about |
//! | `unsent` | `x`, if the failing is about no rule of it |
//! | `taken` | the rule of `y` that the failing is about |
//! | `wildcard` | the rule of `y` for AVP |
//! | `own`, `other` | the AVP that the failing is about, in the first dictionary and in the second |
//! | `lack` | the second dictionary, if it doesn't know that AVP |
//! | `a`, `b` | the two AVPs of a pair of AVPs |
//! | `hint` | what to do |

use super::pair::Pair;
use dia_book::{Format, RuleKind};
use dia_breaking_data::witness;
use dia_check::Unknown;
use dia_compat::Failing;

/// The lines about a failing, with the hint where it is the same for all of its kind: here of the tests N1 to N5.
pub fn lines_of(failing: Failing) -> &'static str {
    match failing {
        Failing::Fixed { .. } => "sent: {name} sends {counts} of {counted}, by {rule}\n\
             taken: {name} wants at the front {counts} of {counted}, by {rule}\n\
             unsent: {name} has no rule for it",
        Failing::Counts { .. } => "sent: {name} sends {counts} of {counted}, by {rule}\n\
             taken: {name} accepts {counts} of {counted}, by {rule}\n\
             hint: in {b} write {wide}; or have the sender respect the counts of {b}, and say so in {a}",
        Failing::Unlisted { .. } => "sent: {name} sends {counts} of {counted}, by {rule}\n\
             y: {name} has no rule for it, nor for AVP\n\
             hint: in {b} add [ {sent} ] or * [ AVP ]",
        Failing::Uncovered { .. } => "sent: {name} sends {counts} of {counted}, by {rule}\n\
             other: {name} is the same AVP here, and no pair of the table has the two\n\
             lack: there is no AVP of code {code} here",
        Failing::Required { .. } => "taken: {name} wants {counts} of {counted}, by {rule}\n\
             x: {name} has no rule for it\n\
             hint: in {b} write [ {wanted} ]; or have the sender send it always, and say so in {a}",
        Failing::Crowded { .. } => "sent: {name} sends {counts} of {counted}, by {rule}\n\
             taken: {name} accepts {counts} of {counted}, by {rule}\n\
             hint: what AVP lets in may be of this kind: in {b} write * [ {wanted} ], or list it in {a}",
        _ => lines_of_wildcards(failing),
    }
}

/// Of the tests N6 to N9.
fn lines_of_wildcards(failing: Failing) -> &'static str {
    match failing {
        Failing::NoWildcard { .. } => "sent: {name} sends {counts} of {counted}, by {rule}\n\
             y: {name} has no rule for AVP\n\
             hint: add * [ AVP ] in {b}, or take the rule of AVP out in {a}",
        Failing::CountsAsOther { .. } => "sent: {name} sends {counts} of {counted}, by {rule}\n\
             taken: {name} accepts {counts} of {counted}, by {rule}\n\
             hint: what {b} doesn't list counts as AVP there: list it, or write * [ AVP ]",
        Failing::WildcardMost { .. } => "sent: {name} sends {counts} of {counted}, by {rule}\n\
             taken: {name} accepts {counts} of {counted}, by {rule}\n\
             hint: write * [ AVP ] in {b}, or lower the greatest count in {a}",
        Failing::WildcardLeast { .. } => "sent: {name} sends {counts} of {counted}, by {rule}\n\
             unsent: {name} has no rule for AVP\n\
             taken: {name} wants {counts} of {counted}, by {rule}\n\
             hint: in {b} make the rule of AVP optional, as [ AVP ] or * [ AVP ]",
        Failing::NotCounted { .. } => "sent: {name} sends {counts} of {counted}, by {rule}\n\
             unsent: {name} has no rule for AVP\n\
             wildcard: {name} wants {counts} of {counted}, by {rule}\n\
             taken: {name} lists {counts} of {counted}, by {rule}\n\
             hint: what the first lets in by AVP may be one of these, which don't count as AVP\n\
             hint: in {b} make the rule of AVP optional, as [ AVP ] or * [ AVP ]",
        Failing::Stranger { .. } => "sent: {name} sends {counts} of {counted}, by {rule}\n\
             other: {name} is {format} here, with the rule {m}; {a} doesn't know it, so it may come with any data, \
             without the M flag\n\
             hint: declare it in {a} as here, and propose again; or give --unknown refused to each command, \
             if both nodes refuse unknown AVPs",
        Failing::LetIn { .. } => "sent: {name} sends {counts} of {counted}, by {rule}\n\
             own: {name} may come by that rule\n\
             other: {name} is the same AVP here, and no pair of the table has the two\n\
             lack: there is no AVP of code {code} here",
        _ => lines_of_heads(failing),
    }
}

/// Of the test N10.
fn lines_of_heads(failing: Failing) -> &'static str {
    match failing {
        Failing::Heads => "x: {name} is for {messages}\n\
             y: {name} is for {messages}\n\
             hint: the two have to have one Command Code, and both REQ or both none",
        Failing::PFlags => "x: {name} is {flag}\n\
             y: {name} is {flag}\n\
             hint: make PXY of the two headers agree",
        Failing::Unserved => "x: {name} is for {messages}",
        Failing::NotBeside { .. } => "x: {name} is for {messages}\n\
             y: {name} is for {messages}\n\
             hint: {b} may read messages of {x} by {y}: add the line command {x} = {y} to {table}, \
             as `diacmd propose` does",
        Failing::Keys => "a: {name} has code {code} and {vendor}\n\
             b: {name} has code {code} and {vendor}\n\
             hint: the two have to have one code and one vendor",
        Failing::MRules => "a: {name} is {m} here{sends}\n\
             b: {name} is {m} here{takes}\n\
             hint: write any in {b}; or have the sender set the flag so, and write {m} in {a}",
        _ => "",
    }
}

/// What follows these lines: for kinds of failing whose lines or hints aren't all the same.
pub fn more_of(pair: &Pair<'_>) -> &'static str {
    match pair.failing {
        Failing::Fixed { first, second } => hint_of_fixed(pair, first, second),
        Failing::Uncovered { .. } | Failing::LetIn { .. } => hint_of_uncovered(pair),
        Failing::Unserved => match pair.app() {
            Some(_) =>
                "hint: {b} has no such definition for application {app}, nor one without an application: add one there",
            None => "hint: {b} has no such definition without an application: add one there, \
                 or give the one in the first dictionary its application",
        },
        Failing::Formats => lines_of_formats(pair),
        _ => "",
    }
}

/// Of a fixed rule of the second, which the first doesn't have at the same place.
fn hint_of_fixed(pair: &Pair<'_>, first: Option<usize>, second: usize) -> &'static str {
    match pair.first_rule() {
        Some(rule) if rule.kind == RuleKind::Fixed => {
            if first == Some(second) {
                "hint: in {b} write {wide}; or have the sender respect the counts of {b}, and say so in {a}"
            } else {
                "hint: it is fixed rule number {own} in {a}, and number {place} in {b}: use one order"
            }
        }
        _ =>
            "hint: in {b} write {loose}, or make it fixed rule number {place} in {a}, as the sender then sends it",
    }
}

fn hint_of_uncovered(pair: &Pair<'_>) -> &'static str {
    match (pair.known_in(&pair.pairing.b), pair.pairing.unknown) {
        (Some(_), _) =>
            "hint: add the line avp {first} = {second} to {table}, as `diacmd propose` does",
        (None, Unknown::Refused) => "hint: declare it in {b}, and add its pair to {table}",
        (None, Unknown::Kept) =>
            "hint: declare it in {b}, and add its pair to {table}; or, where it is always sent without the M flag, \
             declare it mustnot in {a}",
    }
}

fn lines_of_formats(pair: &Pair<'_>) -> &'static str {
    let (Some(first), Some(second)) = (pair.first_avp, pair.second_avp) else {
        return "";
    };
    match (first.format, second.format) {
        (Format::Enumerated(sent), Format::Enumerated(_)) => {
            if sent.list().is_some() && witness(first.format, second.format).is_some() {
                "a: {name} {values}\n\
                 b: {name} {values}\n\
                 hint: {value} isn't in the list of {b}: add it there, or take the list out"
            } else {
                "a: {name} {values}\n\
                 b: {name} {values}\n\
                 hint: without a list each number may be sent: take the list of {b} out, or give one list to both"
            }
        }
        _ => "a: {name} is {format} here\n\
             b: {name} is {format} here\n\
             hint: declare one format in both; {b} may have a wider one, as OctetString for any, \
             UTF8String for DiameterIdentity, or Integer32 for Enumerated",
    }
}
