//! The diagnostic of each fault of meaning and, on the next line, the hint. A word between two `$` is replaced by a value of the
//! fault.

use super::parts::Parts;
use super::recorded::RecordedFault;
use super::values::{push_value, word_named};
use dia_ccf::{Decl, FormatName, Head, Qual, Rule, RuleKind};
use dia_dict::{DictKind, Part, PartKind};
use dia_explain_places::Note;

pub fn text_of(parts: &Parts<'_>, fault: &RecordedFault<'_>) -> &'static str {
    let part = fault.finding.part;
    let Some(Part { kind, .. }) = part else {
        return "$parts$ declarations, groups and commands; a dictionary has at most $limit$\n\
                leave out what the comparison doesn't need";
    };
    match fault.finding.recorded.kind {
        DictKind::Limit => "$name$ has $rules$ rules; a definition has at most $limit$\n\
             leave out what the comparison doesn't need",
        DictKind::DuplicateName => match kind {
            PartKind::Declaration => "$name$ is declared twice, first\ndrop one, or rename it",
            PartKind::Group => "the group $name$ is defined twice, first\ndrop one, or rename it",
            PartKind::Command => "the command $name$ is defined twice, first\n\
                 drop one, or rename it: a request and its answer have a name each, as CCR and CCA",
        },
        DictKind::NoGroupFormat => "$name$ is declared as Grouped, and there is no group <$name$>\n\
             define it: <$name$> ::= < AVP Header: $header$ > and its rules, or * [ AVP ] if it may hold any AVP",
        DictKind::HeaderMismatch => text_of_group(parts.decl(fault.other)),
        DictKind::DuplicateKey => "$name$ has $key$, as $first$ has\n\
             correct the code or the vendor of one: an AVP of a vendor is declared with vendor N after its code",
        DictKind::DuplicateCommand => text_of_head(parts.head(part)),
        DictKind::UndefinedName =>
            "$name$ ($place$) has a rule for $slot$, which is neither declared nor a group$more$\n\
             declare it, as in %avp $slot$ CODE FORMAT RULE, or define it as a group; dictionaries/ has those of many RFCs and \
             of 3GPP",
        DictKind::RepeatedSlot => { text_of_repeated(parts.rule(fault.other), parts.rule(part)) }
        DictKind::MinOverMax => text_of_counts(parts.rule(part)),
        DictKind::RequiredMin =>
            "$name$ ($place$) requires $slot$ by { $slot$ }, with a least count of 0\n\
             write [ $slot$ ], or a least count of 1 or more",
        DictKind::OptionalMin =>
            "$name$ ($place$) has [ $slot$ ], which is optional, with a least count of $low$\n\
             write { $slot$ }, or leave out the least count",
    }
}

/// Of a group that isn't as it is declared.
fn text_of_group(declaration: Option<&Decl>) -> &'static str {
    match declaration {
        Some(decl) if decl.format == FormatName::Grouped =>
            "the group $name$ has $key$, and its declaration has $declared$\n\
             declare it as Grouped with the code and the vendor of the group, or drop the declaration: a group needs none",
        _ => "$name$ is a group here, and isn't declared as Grouped\n\
             declare it as Grouped with the code and the vendor of the group, or drop the declaration: a group needs none",
    }
}

/// Of a command that is for the messages of another.
fn text_of_head(head: Option<Head>) -> &'static str {
    match head {
        Some(Head::Command { request: false, .. }) => "$name$ is for $messages$, as is $first$\n\
             if one is the request, write REQ after its code; else give each its Application-ID, or drop one",
        Some(Head::Command { request: true, .. }) => "$name$ is for $messages$, as is $first$\n\
             if one is the answer, leave out REQ; else give each its Application-ID, or drop one",
        _ => "$name$ is for errors, as is $first$\n\
             one definition with code, ERR serves the errors of all commands: drop one",
    }
}

/// Of a rule for what an earlier rule is for.
fn text_of_repeated(first: Option<&Rule>, second: Option<&Rule>) -> &'static str {
    match (first, second) {
        (_, Some(Rule { name: None, .. })) => "$name$ ($place$) has two rules for $slot$, first\n\
             drop one: the count of the wildcard is that of all AVPs that no rule lists",
        (Some(first), Some(second)) if is_optional(first) && is_optional(second) =>
            "$name$ ($place$) has two rules for $slot$, first\n\
             make it one rule with a qualifier, as *2 [ $slot$ ]",
        _ => "$name$ ($place$) has two rules for $slot$, first\n\
             make it one rule with a qualifier, as 1*2 { $slot$ }",
    }
}

fn is_optional(rule: &Rule) -> bool {
    matches!(rule.kind, RuleKind::Optional)
}

/// Of a rule whose least count is above its greatest.
fn text_of_counts(rule: Option<&Rule>) -> &'static str {
    match rule {
        Some(
            Rule {
                kind: RuleKind::Required,
                qual: None | Some(Qual { min: None, .. }),
                ..
            },
        ) => "$name$ ($place$) asks for at least $low$ $slot$, and for at most $high$\n\
             { $slot$ } without a least count asks for 1",
        _ => "$name$ ($place$) asks for at least $low$ $slot$, and for at most $high$\n\
             the counts of a rule are LEAST*GREATEST",
    }
}

/// Adds a text with the values of a fault.
pub fn push_filled(note: &mut Note, parts: &Parts<'_>, fault: &RecordedFault<'_>, text: &str) {
    let mut is_word = false;
    for piece in text.split('$') {
        match word_named(piece) {
            Some(word) if is_word => push_value(note, parts, fault, word),
            _ => note.put(piece),
        }
        is_word = !is_word;
    }
}
