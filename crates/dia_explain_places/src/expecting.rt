//! What may come at a place of a dictionary's text, in words.

ghost use Rattle.std.specs.Prelude.{◌≡◌, map};
ghost use Rattle.dia_explain_places.specs.Expecting.{expected, expected_in_declaration, expected_in_definition};
ghost use Rattle.dia_explain_places.specs.Expecting.{expected_in_head, expected_in_rules, flags_at};

use dia_ccf::{InDeclaration, InDefinition, InHead, InRules, RuleKind, Wanted};
use dia_terms::{format_words, vendor_or_format_words};

/// What may come at a place: a word or a few for each.
pub fn expected(wanted: Wanted) -> &'static [&'static str]
    ensures { map (λ item. item.now) result.now ≡ expected wanted }
{
    match wanted {
        Wanted::Item => &["%avp", "the name of a definition", "the end of the text"],
        Wanted::Declaration(place) => expected_in_declaration(place),
        Wanted::Definition(place) => expected_in_definition(place),
        Wanted::Head(place) => expected_in_head(place),
        Wanted::Rules(place) => expected_in_rules(place),
    }
}

fn expected_in_declaration(place: InDeclaration) -> &'static [&'static str]
    ensures { map (λ item. item.now) result.now ≡ expected_in_declaration place }
{
    match place {
        InDeclaration::Name => &["the name of an AVP"],
        InDeclaration::Code => &["the AVP code, a number below 2^32"],
        InDeclaration::VendorOrFormat => vendor_or_format_words(),
        InDeclaration::Format => format_words(),
        InDeclaration::Vendor => &["the vendor's number, below 2^32"],
        InDeclaration::MRule { .. } => &["must", "mustnot", "any"],
        InDeclaration::ValuesOrItem => &[
            "( and a list of values",
            "%avp",
            "the name of a definition",
            "the end of the text",
        ],
        InDeclaration::FirstValue => &["a value below 2^31"],
        InDeclaration::DotsOrValue { .. } => &[".. and the end of a range", "the next value", ")"],
        InDeclaration::High { .. } => {
            &["the end of the range: no less than its start, and below 2^31"]
        }
        InDeclaration::NextValue => &["the next value, below 2^31", ")"],
    }
}

fn expected_in_definition(place: InDefinition) -> &'static [&'static str]
    ensures { map (λ item. item.now) result.now ≡ expected_in_definition place }
{
    match place {
        InDefinition::Name => &["the name of a definition"],
        InDefinition::Close => &["> after the name"],
        InDefinition::Assign => &["::= after the name of a definition"],
        InDefinition::Head => &["< Diameter Header: .. >", "< AVP Header: .. >"],
    }
}

fn expected_in_head(place: InHead) -> &'static [&'static str]
    ensures { map (λ item. item.now) result.now ≡ expected_in_head place }
{
    match place {
        InHead::Word => &["Diameter Header for a command", "AVP Header for a group"],
        InHead::Header { .. } => &["Header"],
        InHead::Colon { .. } => &[": after Header"],
        InHead::CommandCode => &["the Command Code, a number below 2^24", "code"],
        InHead::Flags {
            request,
            pxy,
            comma,
        } => flags_at(request, pxy, comma),
        InHead::ErrorWord { .. } => &["ERR after code"],
        InHead::ErrorProxy { comma: false } => &["PXY", "[, PXY]", ">"],
        InHead::ErrorProxy { comma: true } | InHead::ErrorEither { .. } => &["PXY"],
        InHead::EitherClose => &["]"],
        InHead::GroupCode => &["the AVP code, a number below 2^32"],
        InHead::Vendor { comma: false } => &["the vendor's number", ">"],
        InHead::Vendor { comma: true } => &["the vendor's number, below 2^32"],
        InHead::Close => &["> at the end of the header"],
    }
}

/// What may come after the Command Code and some flags.
fn flags_at(request: bool, pxy: bool, comma: bool) -> &'static [&'static str]
    ensures { map (λ item. item.now) result.now ≡ flags_at request pxy comma }
{
    match (request, pxy, comma) {
        (_, true, false) => &["the Application-ID", ">"],
        (_, true, true) => &["the Application-ID, a number below 2^32"],
        (true, false, false) => &["PXY", "the Application-ID", ">"],
        (true, false, true) => &["PXY", "the Application-ID, a number below 2^32"],
        (false, false, false) => &["REQ", "PXY", "the Application-ID", ">"],
        (false, false, true) => &["REQ", "PXY", "the Application-ID, a number below 2^32"],
    }
}

fn expected_in_rules(place: InRules) -> &'static [&'static str]
    ensures { map (λ item. item.now) result.now ≡ expected_in_rules place }
{
    match place {
        InRules::Rule { .. } | InRules::Angled { only_fixed: true } => &[
            "a rule, as { X }, [ X ] or *3 [ X ]",
            "the next definition",
            "%avp",
            "the end of the text",
        ],
        InRules::Angled { only_fixed: false } => {
            &["::=, since after { X } and [ X ] a name in angle brackets begins a definition"]
        }
        InRules::Star { .. } => &["* after the least count, as in 1*3 { X }"],
        InRules::Greatest { only_fixed: true } => &["a greatest count", "<", "{", "["],
        InRules::Greatest { only_fixed: false } => &["a greatest count", "{", "["],
        InRules::Bracket { only_fixed: true } => &["<", "{", "["],
        InRules::Bracket { only_fixed: false } => &["{", "["],
        InRules::FixedName | InRules::AngledName { only_fixed: true } => &["the name of an AVP"],
        InRules::AngledName { only_fixed: false } => &["the name of a definition"],
        InRules::FixedClose | InRules::AngledClose { .. } => &["> after the name"],
        InRules::LooseName { .. } => &["the name of an AVP", "AVP for any other"],
        InRules::LooseClose {
            kind: RuleKind::Optional,
        } => &["] after the name"],
        InRules::LooseClose { .. } => &["} after the name"],
    }
}
