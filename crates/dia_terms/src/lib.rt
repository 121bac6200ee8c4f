//! What inputs and dictionaries have in common: names, M rules, P rules, the brackets of rules, the names of the data formats, white
//! space, what is accepted and what is sent, and the limits of the texts of inputs.
#![tactic(auto)]

mod formats;
mod limits;
mod m_rules;
mod policy;
mod sends;
mod texts;

pub use formats::{FormatName, format_words, vendor_or_format_words};
pub use limits::{MAX_MESSAGE_TEXT, MAX_TABLE};
pub use m_rules::MRule;
pub use policy::{Levels, Unknown};
pub use sends::Sends;
pub use texts::is_white;

/// The most bytes of a name (our profile).
pub const MAX_NAME: usize = 128;

/// Which P flag a message of a class may have.
#[derive(Clone, Copy, PartialEq, Eq)]
pub enum Pxy {
    Clear,
    Set,
    Either,
}

/// The brackets of a rule (RFC 6733 section 3.2).
#[derive(Clone, Copy, PartialEq, Eq)]
pub enum RuleKind {
    /// In angle brackets: the AVPs come first, in the order of the rules.
    Fixed,
    /// In braces.
    Required,
    /// In brackets.
    Optional,
}
