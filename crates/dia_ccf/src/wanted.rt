//! What fits at a place of a text.

mod following;

use dia_terms::RuleKind;

/// What fits at a place, by what has been read before it.
#[derive(Clone, Copy)]
pub enum Wanted {
    /// A declaration or a definition, or the end of the text.
    Item,
    Declaration(InDeclaration),
    Definition(InDefinition),
    /// A part of a head, or the `>` after it.
    Head(InHead),
    Rules(InRules),
}

/// What fits in a declaration, after its `%avp`.
#[derive(Clone, Copy)]
pub enum InDeclaration {
    Name,
    Code,
    /// `vendor`, or a format.
    VendorOrFormat,
    /// The number after `vendor`.
    Vendor,
    Format,
    MRule { is_enumerated: bool },
    /// The list of values of an Enumerated AVP, or what follows the declaration.
    ValuesOrItem,
    /// The first value of a list.
    FirstValue,
    /// `..`, the next value or `)`, after this value.
    DotsOrValue { low: u32 },
    /// The end of the range that begins with this value.
    High { low: u32 },
    /// The next value or `)`, after a range.
    NextValue,
}

/// What fits where a definition begins.
#[derive(Clone, Copy)]
pub enum InDefinition {
    /// The name after `<`.
    Name,
    /// The `>` after the name.
    Close,
    /// `::=`
    Assign,
    /// The `<` of the head.
    Head,
}

/// What fits in a head. `comma` is whether a comma was read, after which the head can't end.
#[derive(Clone, Copy)]
pub enum InHead {
    /// `Diameter` or `AVP`, alone or joined to `Header`.
    Word,
    /// `Header`, after `AVP` or `Diameter`.
    Header {
        is_group: bool,
    },
    Colon {
        is_group: bool,
    },
    /// The Command Code, or `code`.
    CommandCode,
    GroupCode,
    /// The flags that can still come, and the Application-ID.
    Flags {
        request: bool,
        pxy: bool,
        comma: bool,
    },
    /// The vendor of a group.
    Vendor {
        comma: bool,
    },
    /// `ERR`
    ErrorWord {
        comma: bool,
    },
    /// The proxiable flag after `ERR`, or its `[`.
    ErrorProxy {
        comma: bool,
    },
    /// The proxiable flag after its `[`.
    ErrorEither {
        comma: bool,
    },
    /// The `]` after the proxiable flag.
    EitherClose,
    /// Only the `>` of the head.
    Close,
}

/// What fits in the rules of a definition. `only_fixed` is whether all rules before the place are fixed, so that one more
/// may be.
#[derive(Clone, Copy)]
pub enum InRules {
    /// A rule, or what follows the definition.
    Rule { only_fixed: bool },
    /// The `*` after a least count.
    Star { only_fixed: bool },
    /// A greatest count, or the bracket of the rule.
    Greatest { only_fixed: bool },
    /// The bracket after the counts.
    Bracket { only_fixed: bool },
    /// The name of a fixed rule with counts.
    FixedName,
    FixedClose,
    /// A name in angle brackets: of a fixed rule, or of the next definition.
    AngledName { only_fixed: bool },
    AngledClose { only_fixed: bool },
    /// `::=` after such a name, or what follows a fixed rule.
    Angled { only_fixed: bool },
    /// The name in `{ }` or `[ ]`, or `AVP`.
    LooseName { kind: RuleKind },
    LooseClose { kind: RuleKind },
}
