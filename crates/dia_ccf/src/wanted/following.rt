//! What fits after a token that fits.

ghost use Rattle.std.specs.Prelude.{◌≡◌};
ghost use Rattle.dia_ccf.specs.LexerTokens.{shown};
ghost use Rattle.dia_ccf.specs.Wanting.{following, after_item, after_in_declaration, after_value};
ghost use Rattle.dia_ccf.specs.Wanting.{after_in_definition, after_in_head, after_in_rules};
ghost use Rattle.dia_ccf.specs.Wanting.{after_rule, after_bracket, after_loose, after_flag, after_first_word, next_wanted};

use super::{InDeclaration, InDefinition, InHead, InRules, Wanted};
use crate::lexer::{Sign, Token};
use dia_terms::RuleKind;

impl Wanted {
    /// What fits after the token, where it fits here.
    pub(crate) fn following(self, token: Token<'_>) -> Wanted
        ensures { result ≡ following self (shown token.entry) }
    {
        match self {
            Wanted::Item => after_item(token),
            Wanted::Declaration(place) => after_in_declaration(place, token),
            Wanted::Definition(place) => after_in_definition(place),
            Wanted::Head(place) => after_in_head(place, token),
            Wanted::Rules(place) => after_in_rules(place, token),
        }
    }
}

/// After the first token of an item.
fn after_item(token: Token<'_>) -> Wanted
    ensures { result ≡ after_item (shown token.entry) }
{
    if token.is_sign(Sign::Declares) {
        Wanted::Declaration(InDeclaration::Name)
    } else if token.is_sign(Sign::Less) {
        Wanted::Definition(InDefinition::Name)
    } else {
        Wanted::Definition(InDefinition::Assign)
    }
}

fn after_in_declaration(place: InDeclaration, token: Token<'_>) -> Wanted
    ensures { result ≡ after_in_declaration place (shown token.entry) }
{
    let next = match place {
        InDeclaration::Name => InDeclaration::Code,
        InDeclaration::Code => InDeclaration::VendorOrFormat,
        InDeclaration::VendorOrFormat if token.is_word("vendor") => InDeclaration::Vendor,
        InDeclaration::VendorOrFormat | InDeclaration::Format => InDeclaration::MRule {
            is_enumerated: token.is_word("Enumerated"),
        },
        InDeclaration::Vendor => InDeclaration::Format,
        InDeclaration::MRule {
            is_enumerated: true,
        } => InDeclaration::ValuesOrItem,
        InDeclaration::MRule {
            is_enumerated: false,
        } => return Wanted::Item,
        InDeclaration::ValuesOrItem if token.is_sign(Sign::OpenParenthesis) => {
            InDeclaration::FirstValue
        }
        InDeclaration::ValuesOrItem => return after_item(token),
        InDeclaration::DotsOrValue { low } if token.is_sign(Sign::Dots) => {
            InDeclaration::High { low }
        }
        InDeclaration::FirstValue | InDeclaration::DotsOrValue { .. } | InDeclaration::NextValue =>
            {
                return after_value(token);
            }
        InDeclaration::High { .. } => InDeclaration::NextValue,
    };
    Wanted::Declaration(next)
}

/// After a value or the `)` of a list.
fn after_value(token: Token<'_>) -> Wanted
    ensures { result ≡ after_value (shown token.entry) }
{
    if token.is_sign(Sign::CloseParenthesis) {
        Wanted::Item
    } else {
        Wanted::Declaration(InDeclaration::DotsOrValue { low: token.value() })
    }
}

fn after_in_definition(place: InDefinition) -> Wanted
    ensures { result ≡ after_in_definition place }
{
    match place {
        InDefinition::Name => Wanted::Definition(InDefinition::Close),
        InDefinition::Close => Wanted::Definition(InDefinition::Assign),
        InDefinition::Assign => Wanted::Definition(InDefinition::Head),
        InDefinition::Head => Wanted::Head(InHead::Word),
    }
}

fn after_in_head(place: InHead, token: Token<'_>) -> Wanted
    ensures { result ≡ after_in_head place (shown token.entry) }
{
    if token.is_sign(Sign::Greater) {
        Wanted::Rules(InRules::Rule { only_fixed: true })
    } else {
        Wanted::Head(next_in_head(place, token))
    }
}

/// After a token that doesn't end the head.
fn next_in_head(place: InHead, token: Token<'_>) -> InHead
    ensures { result ≡ next_wanted place (shown token.entry) }
{
    match place {
        InHead::Word => after_first_word(token),
        InHead::Header { is_group } => InHead::Colon { is_group },
        InHead::Colon { is_group: true } => InHead::GroupCode,
        InHead::Colon { is_group: false } => InHead::CommandCode,
        InHead::CommandCode if token.is_keyword("code") => InHead::ErrorWord { comma: false },
        InHead::CommandCode => InHead::Flags {
            request: false,
            pxy: false,
            comma: false,
        },
        InHead::GroupCode => InHead::Vendor { comma: false },
        InHead::Flags { request, pxy, .. } => after_flag(request, pxy, token),
        InHead::Vendor { .. } if token.is_sign(Sign::Comma) => InHead::Vendor { comma: true },
        InHead::ErrorWord { .. } if token.is_sign(Sign::Comma) => InHead::ErrorWord { comma: true },
        InHead::ErrorWord { .. } => InHead::ErrorProxy { comma: false },
        InHead::ErrorProxy { .. } if token.is_sign(Sign::Comma) => InHead::ErrorProxy {
            comma: true,
        },
        InHead::ErrorProxy { .. } if token.is_keyword("pxy") => InHead::Close,
        InHead::ErrorProxy { .. } => InHead::ErrorEither { comma: false },
        InHead::ErrorEither { .. } if token.is_sign(Sign::Comma) => {
            InHead::ErrorEither { comma: true }
        }
        InHead::ErrorEither { .. } => InHead::EitherClose,
        InHead::Vendor { .. } | InHead::EitherClose | InHead::Close => InHead::Close,
    }
}

/// After the first word of a head.
fn after_first_word(token: Token<'_>) -> InHead
    ensures { result ≡ after_first_word (shown token.entry) }
{
    if token.is_keyword("avp") {
        InHead::Header { is_group: true }
    } else if token.is_keyword("avp-header") {
        InHead::Colon { is_group: true }
    } else if token.is_keyword("diameter") {
        InHead::Header { is_group: false }
    } else {
        InHead::Colon { is_group: false }
    }
}

/// After a flag of a command, a comma or the Application-ID.
fn after_flag(request: bool, pxy: bool, token: Token<'_>) -> InHead
    ensures { result ≡ after_flag request pxy (shown token.entry) }
{
    if token.is_sign(Sign::Comma) {
        InHead::Flags {
            request,
            pxy,
            comma: true,
        }
    } else if token.is_keyword("req") {
        InHead::Flags {
            request: true,
            pxy,
            comma: false,
        }
    } else if token.is_keyword("pxy") {
        InHead::Flags {
            request,
            pxy: true,
            comma: false,
        }
    } else {
        InHead::Close
    }
}

fn after_in_rules(place: InRules, token: Token<'_>) -> Wanted
    ensures { result ≡ after_in_rules place (shown token.entry) }
{
    let next = match place {
        InRules::Angled { .. } if token.is_sign(Sign::Assign) => {
            return Wanted::Definition(InDefinition::Head);
        }
        InRules::Rule { only_fixed } | InRules::Angled { only_fixed } => {
            return after_rule(only_fixed, token);
        }
        InRules::Star { only_fixed } => InRules::Greatest { only_fixed },
        InRules::Greatest { only_fixed } if token.is_number() => InRules::Bracket { only_fixed },
        InRules::Greatest { .. } | InRules::Bracket { .. } => after_bracket(token),
        InRules::FixedName => InRules::FixedClose,
        InRules::FixedClose => InRules::Rule { only_fixed: true },
        InRules::AngledName { only_fixed } => InRules::AngledClose { only_fixed },
        InRules::AngledClose { only_fixed } => InRules::Angled { only_fixed },
        InRules::LooseName { kind } => InRules::LooseClose { kind },
        InRules::LooseClose { .. } => InRules::Rule { only_fixed: false },
    };
    Wanted::Rules(next)
}

/// After the first token of a rule, or of what follows a definition.
fn after_rule(only_fixed: bool, token: Token<'_>) -> Wanted
    ensures { result ≡ after_rule only_fixed (shown token.entry) }
{
    if token.is_sign(Sign::Less) {
        Wanted::Rules(InRules::AngledName { only_fixed })
    } else if token.is_number() {
        Wanted::Rules(InRules::Star { only_fixed })
    } else if token.is_sign(Sign::Star) {
        Wanted::Rules(InRules::Greatest { only_fixed })
    } else if token.is_sign(Sign::OpenBrace) || token.is_sign(Sign::OpenBracket) {
        Wanted::Rules(after_loose(token))
    } else {
        after_item(token)
    }
}

/// After the bracket that opens a rule.
fn after_bracket(token: Token<'_>) -> InRules
    ensures { result ≡ after_bracket (shown token.entry) }
{
    if token.is_sign(Sign::Less) {
        InRules::FixedName
    } else {
        after_loose(token)
    }
}

/// After the bracket that opens a rule that isn't fixed.
fn after_loose(token: Token<'_>) -> InRules
    ensures { result ≡ after_loose (shown token.entry) }
{
    let kind = if token.is_sign(Sign::OpenBrace) {
        RuleKind::Required
    } else {
        RuleKind::Optional
    };
    InRules::LooseName { kind }
}
