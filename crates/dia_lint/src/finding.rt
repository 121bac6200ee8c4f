//! A finding.

ghost use Rattle.std.specs.Prelude.{◌≡◌, ◌++◌, OnOk, option_to_list};

use crate::base_avps::BaseAvp;
use crate::detail::Detail;
use crate::rule::Rule;
use dia_book::{DefId, Entry, Key};
use std::alloc::AllocError;

/// What `lint` found of a dictionary. Entries and definitions are those of the book.
#[derive(Clone, Copy)]
pub struct Finding {
    pub rule: Rule,
    pub place: Place,
    pub subject: Subject,
    pub detail: Detail,
}

/// The part of a dictionary at which a finding is reported.
#[derive(Clone, Copy)]
pub enum Place {
    /// An AVP: its declaration, and the head of its group where it has no declaration.
    Avp(Entry),
    /// The head of a definition.
    Head(DefId),
    /// The rule at this place of a definition, from 0.
    Rule(DefId, usize),
}

/// What a finding is about.
#[derive(Clone, Copy)]
pub enum Subject {
    /// A command or a group.
    Definition(DefId),
    /// An AVP.
    Avp(Entry),
    /// The AVPs of one name in the levels of a definition.
    Within(DefId, Named),
}

/// The AVPs of one name.
#[derive(Clone, Copy)]
pub enum Named {
    /// AVPs of a key that the dictionary knows.
    Key(Key),
    /// AVPs that no rule lists.
    Others,
    /// AVPs of the base protocol.
    Base(BaseAvp),
}

/// Adds a finding, if there is one.
pub(crate) fn push(found: &mut Vec<Finding>, finding: Option<Finding>) -> Result<(), AllocError>
    ensures { OnOk result (found.new.items ≡ found.old.items ++ option_to_list finding) }
{
    if let Some(
        Finding {
            rule,
            place,
            subject,
            detail,
        },
    ) = finding
    {
        found.push(Finding {
            rule,
            place,
            subject,
            detail,
        })?;
    }
    Ok(())
}
