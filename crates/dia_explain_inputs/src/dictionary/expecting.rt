//! What may come at a place, as it is reported, and how hints name the place.

use dia_ccf::{InDeclaration, InDefinition, InHead, InRules, Wanted};
use dia_explain_places::{Note, expected};
use dia_terms::format_words;

/// Which number may come at a place where other tokens may, too.
pub fn number_at(wanted: Wanted) -> Option<&'static str> {
    Some(match wanted {
        Wanted::Rules(InRules::Rule { .. } | InRules::Angled { .. }) => "a least count below 2^32",
        Wanted::Rules(InRules::Greatest { .. }) => "a greatest count below 2^32",
        Wanted::Head(InHead::Flags { pxy, comma, .. }) if !(pxy && comma) =>
            "an Application-ID below 2^32",
        Wanted::Head(InHead::Vendor { comma: false }) => "a vendor's number below 2^32",
        Wanted::Declaration(InDeclaration::DotsOrValue { .. }) => "a value below 2^31",
        _ => return None,
    })
}

/// Adds what may come at a place.
pub fn push_expected(note: &mut Note, wanted: Wanted) {
    // The items, and what they have in common, if they are words of a sort.
    let (sort, items) = match wanted {
        Wanted::Declaration(InDeclaration::VendorOrFormat) => {
            ("vendor, or a data format: ", format_words())
        }
        Wanted::Declaration(InDeclaration::Format) => ("a data format: ", expected(wanted)),
        Wanted::Declaration(InDeclaration::MRule { .. }) => {
            ("the rule of the M flag: ", expected(wanted))
        }
        _ => ("", expected(wanted)),
    };
    let last = if sort.is_empty() { ", or " } else { " or " };
    note.put(sort);
    push_items(note, items, last);
}

/// Adds items, with `last` before the last of several.
pub fn push_items(note: &mut Note, items: &[&str], last: &str) {
    let mut left = items.len();
    let mut between = "";
    for item in items {
        note.put(between);
        note.put(item);
        left = left.saturating_sub(1);
        between = if left == 1 { last } else { ", " };
    }
}

/// A place, as hints name it.
pub fn place_of(wanted: Wanted) -> &'static str {
    match wanted {
        Wanted::Item => "Item",
        Wanted::Declaration(place) => place_of_declaration(place),
        Wanted::Definition(InDefinition::Name) => "",
        Wanted::Definition(InDefinition::Close) => "Close",
        Wanted::Definition(InDefinition::Assign) => "Assign",
        Wanted::Definition(InDefinition::Head) => "Beginning",
        Wanted::Head(place) => place_of_head(place),
        Wanted::Rules(place) => place_of_rules(place),
    }
}

fn place_of_declaration(place: InDeclaration) -> &'static str {
    match place {
        InDeclaration::Name => "Name",
        InDeclaration::Code => "Code",
        InDeclaration::VendorOrFormat => "VendorOrFormat",
        InDeclaration::Format => "Format",
        InDeclaration::Vendor => "Vendor",
        InDeclaration::MRule { .. } => "MRule",
        InDeclaration::ValuesOrItem => "Values",
        InDeclaration::FirstValue | InDeclaration::DotsOrValue { .. } | InDeclaration::NextValue =>
            "Value",
        InDeclaration::High { .. } => "High",
    }
}

fn place_of_head(place: InHead) -> &'static str {
    match place {
        InHead::CommandCode => "CommandCode",
        InHead::Flags { pxy: true, .. } => "HeadApp",
        InHead::Flags { .. } => "HeadFlags",
        InHead::ErrorWord { .. } => "HeadError",
        InHead::GroupCode => "GroupCode",
        InHead::Vendor { .. } => "HeadVendor",
        InHead::Close => "HeadClose",
        InHead::Word
        | InHead::Header { .. }
        | InHead::Colon { .. }
        | InHead::ErrorProxy { .. }
        | InHead::ErrorEither { .. }
        | InHead::EitherClose => "",
    }
}

fn place_of_rules(place: InRules) -> &'static str {
    match place {
        InRules::Rule { .. } | InRules::Angled { only_fixed: true } => "Rule",
        InRules::Angled { only_fixed: false } | InRules::AngledName { only_fixed: false } => "Late",
        InRules::Star { .. } => "Star",
        InRules::Greatest { .. } | InRules::Bracket { .. } => "Counted",
        InRules::FixedName | InRules::AngledName { only_fixed: true } => "Fixed",
        InRules::FixedClose | InRules::AngledClose { .. } | InRules::LooseClose { .. } => "Close",
        InRules::LooseName { .. } => "",
    }
}
