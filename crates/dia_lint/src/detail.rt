//! What a finding says.

use crate::base_avps::BaseAvp;
use dia_book::{DefId, Key};
use dia_terms::{FormatName, MRule, Pxy};

/// What a finding says of its subject.
#[derive(Clone, Copy)]
pub enum Detail {
    /// A group requires an AVP of its own key.
    NeedsItself,
    /// An AVP of this key is required, and none fits.
    Needs(Key),
    /// AVPs that no rule lists are required, and none of them fits.
    NeedsOthers,
    /// The least counts take more bytes than a message has.
    TooLong,
    /// No AVP of this key fits, whatever room there is.
    ThereIsNo(Key),
    /// No AVP that no rule lists fits.
    NoneLeft,
    /// A message has no room for the AVP beside what is required.
    NoRoom,
    /// No valid message has the AVP.
    NotHeld,
    /// The command has the levels of this one.
    As(DefId),
    /// The least number of a range that a range before it has.
    Number(u32),
    /// The wildcard lets the same AVPs in.
    WildcardSaysIt,
    /// Neither with the rule nor without it do the AVPs occur.
    NothingLetsItIn,
    /// The AVP occurs only where a wildcard lets it in.
    OnlyWildcards,
    /// The AVP, which a rule lists, occurs only in messages that also have an AVP by a wildcard.
    NotByRulesAlone,
    /// The Command Code and the Application-ID of a command.
    Selector { code: u32, app: Option<u32> },
    /// What the P flag is, and what it is in the messages of another command.
    Proxiable { own: Pxy, of: DefId, theirs: Pxy },
    /// There is no definition of errors.
    NoErrors,
    /// The subject isn't required.
    NotRequired,
    /// This AVP isn't required.
    BaseNotRequired(BaseAvp),
    /// The request isn't proxiable.
    NotProxiable,
    /// An answer has no such AVP.
    AnswerHasNone,
    /// The AVP can't occur any number of times.
    NotAnyNumber,
    /// Neither Result-Code nor Experimental-Result is listed.
    NoResult,
    /// Failed-AVP can't occur.
    NoFailedAvp,
    /// Session-Id isn't the first AVP.
    NotFirst,
    /// This command has Session-Id.
    HasSession(DefId),
    /// Session-Id isn't listed, and Auth-Session-State isn't required.
    NoSession,
    /// No AVPs occur but those that are listed.
    NoOthers,
    /// AVPs that aren't listed occur so often.
    Others { min: u32, max: u32 },
    /// The base protocol's AVP of this code has another name: that of the row.
    NameOf(usize),
    /// The code and vendor, where the base protocol's AVP of the name has the code of the row.
    CodeOf(Key, usize),
    /// The format, where the base protocol's AVP has the other one.
    Format { own: FormatName, base: FormatName },
    /// The M rule, where the base protocol's AVP has the other one.
    M { own: MRule, base: MRule },
    /// The Command Code is for experiments.
    ForExperiments(u32),
    /// The Application-ID is that of relays.
    OfRelays,
}
