use std::alloc::AllocError;
use std::fmt;
use thiserror::Error;

/// What is wrong with a source, in the order in which it is reported.
#[derive(Debug, Clone, Copy, PartialEq, Eq)]
pub enum DictKind {
    /// A definition has more than 1,024 rules, and is named; or, where none has, the source has more than 16,384
    /// declarations, groups and commands together, and no name is given (our profile).
    Limit,
    /// Two declarations, two groups or two commands have one name.
    DuplicateName,
    /// A declaration is Grouped, and no group has its name.
    NoGroupFormat,
    /// A group's declaration has another key, or is not Grouped.
    HeaderMismatch,
    /// Two names of AVPs have one key.
    DuplicateKey,
    /// Two commands have one code, class and application, or both are for errors.
    DuplicateCommand,
    /// A rule names an AVP that is neither declared nor a group.
    UndefinedName,
    /// A definition names an AVP or the wildcard twice (our profile).
    RepeatedSlot,
    /// A rule's least count is above its greatest (RFC 6733 section 3.2).
    MinOverMax,
    /// A required rule allows that the AVP is absent (RFC 6733 section 3.2).
    RequiredMin,
    /// An optional rule demands the AVP (RFC 6733 section 3.2).
    OptionalMin,
}

/// Prints the kind's word, such as `required-min` (our profile).
impl fmt::Display for DictKind {
    ghost use Rattle.std.specs.Prelude.{Some};
    ghost use Rattle.dia_dict.specs.Words.{kind_word};

    ghost output = { λ kind. Some (kind_word kind) };

    fn fmt<W: fmt::Write>(&self, f: &mut fmt::Formatter<W>) -> fmt::Result {
        f.write_str(match self {
            DictKind::Limit => "limit",
            DictKind::DuplicateName => "duplicate-name",
            DictKind::NoGroupFormat => "no-group-format",
            DictKind::HeaderMismatch => "header-mismatch",
            DictKind::DuplicateKey => "duplicate-key",
            DictKind::DuplicateCommand => "duplicate-command",
            DictKind::UndefinedName => "undefined-name",
            DictKind::RepeatedSlot => "repeated-slot",
            DictKind::MinOverMax => "min-over-max",
            DictKind::RequiredMin => "required-min",
            DictKind::OptionalMin => "optional-min",
        })
    }
}

/// Why a source is no dictionary. It prints as `required-min: DEFINITION AVP`, with the names that there are.
#[derive(Debug, Drop, Error)]
pub enum DictFault {
    /// The first fault, by kind and then in the order declarations, groups, commands, each in the order of the text.
    /// `name` names a definition or an AVP. `slot` names the AVP of a rule, with `AVP` for the wildcard. Either is empty
    /// where there is none.
    #[error(fmt = report_fault)]
    Stands {
        kind: DictKind,
        name: String,
        slot: String,
    },
    /// Memory was refused.
    #[error("out of memory")]
    NoMemory,
}

/// Writes what is wrong, and the names that there are.
fn report_fault<W: fmt::Write>(
    kind: &DictKind,
    name: &String,
    slot: &String,
    f: &mut fmt::Formatter<W>,
) -> fmt::Result {
    write!(f, "{kind}")?;
    if !name.is_empty() {
        write!(f, ": {name}")?;
    }
    if !slot.is_empty() {
        write!(f, " {slot}")?;
    }
    Ok(())
}

impl From<AllocError> for DictFault {
    ghost use Rattle.dia_dict.specs.declared.fault.DictFault.TheVariants.{NoMemory};
    ghost use Rattle.std.specs.Prelude.{◌≡◌};

    ghost from_gives = { λ _ e. e ≡ NoMemory };

    fn from(_error: AllocError) -> DictFault {
        DictFault::NoMemory
    }
}
