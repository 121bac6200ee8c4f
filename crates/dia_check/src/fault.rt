use dia_book::DefId;
use dia_wire::Key;
use std::alloc::AllocError;
use std::fmt;
use thiserror::Error;

/// The command of a valid message.
#[derive(Clone, Copy, PartialEq, Eq)]
pub struct Selected {
    pub def: DefId,
}

/// What is wrong with a message, with its result code (RFC 6733 section 7.1), in the order in which faults at one place are
/// reported. Which code each gives, and the order, are our profile.
#[derive(Debug, Clone, Copy, PartialEq, Eq, Error)]
pub enum Reason {
    /// 5011: the version isn't 1.
    Version,
    /// 5015: Message Length is under 20 or no multiple of four.
    Length,
    /// 5013: E is set in a request, or T in what is no request.
    Bits,
    /// 3001: no command has this code and class.
    Command,
    /// 3007: a command has them, but none for this application, nor for all.
    Application,
    /// 3008: the P flag isn't as the command says.
    Proxiable,
    /// 5014: no AVP begins here, by its Length.
    AvpLength,
    /// 5001: the dictionary does not know the AVP, and the policy refuses it.
    Unknown,
    /// 3009: the M flag isn't as the AVP's rule says.
    MBit,
    /// 5005: a rule was met less often than its min, where its run ends or at the end of the level.
    Missing,
    /// 5008: after the fixed AVPs comes one of a fixed rule, or one that no rule lists where there is no wildcard.
    NotAllowed,
    /// 5009: a rule was met more often than its max.
    TooMany,
    /// 5014: the format cannot have data of this length.
    LeafLength,
    /// 5004: the format does not accept the data.
    LeafValue,
    /// 5012: a group in as many groups as may be nested.
    Depth,
}

impl Reason {
    ghost use Rattle.std.specs.Prelude.{◌≡◌};
    ghost use Rattle.dia_check.specs.Reasons.{code_of, reason_row, reason_word, row_of};

    /// Its place in the order, from 0.
    pub fn rank(self) -> u32
        ensures { result ≡ row_of self }
    {
        self.row().0
    }

    /// Its result code (RFC 6733 section 7.1).
    pub fn code(self) -> u32
        ensures { result ≡ code_of self }
    {
        self.row().1
    }

    /// Its word in the line of a verdict.
    pub fn word(self) -> &'static str
        ensures { result.now ≡ reason_word self }
    {
        self.row().2
    }

    fn row(self) -> (u32, u32, &'static str)
        ensures { (result.0, result.1, result.2.now) ≡ reason_row self }
    {
        match self {
            Reason::Version => (0, 5011, "version"),
            Reason::Length => (1, 5015, "length"),
            Reason::Bits => (2, 5013, "bits"),
            Reason::Command => (3, 3001, "command"),
            Reason::Application => (4, 3007, "application"),
            Reason::Proxiable => (5, 3008, "proxiable"),
            Reason::AvpLength => (6, 5014, "avp-length"),
            Reason::Unknown => (7, 5001, "unknown"),
            Reason::MBit => (8, 3009, "m-bit"),
            Reason::Missing => (9, 5005, "missing"),
            Reason::NotAllowed => (10, 5008, "not-allowed"),
            Reason::TooMany => (11, 5009, "too-many"),
            Reason::LeafLength => (12, 5014, "leaf-length"),
            Reason::LeafValue => (13, 5004, "leaf-value"),
            Reason::Depth => (14, 5012, "depth"),
        }
    }
}

/// Prints the reason's word, such as `too-many`.
impl fmt::Display for Reason {
    ghost use Rattle.std.specs.Prelude.{Some};
    ghost use Rattle.dia_check.specs.Reasons.{reason_word};

    ghost output = { λ reason. Some (reason_word reason) };

    fn fmt<W: fmt::Write>(&self, f: &mut fmt::Formatter<W>) -> fmt::Result {
        f.write_str(self.word())
    }
}

/// What a fault is about.
#[derive(Debug, Clone, Copy, PartialEq, Eq)]
pub enum Subject {
    Nothing,
    Avp(Key),
    /// A missing AVP that no rule lists.
    Wildcard,
}

/// A fault of a message, at a place in bytes from its first.
#[derive(Debug, Clone, Copy, PartialEq, Eq)]
pub struct Fault {
    pub place: u32,
    /// The result code (RFC 6733 section 7.1).
    pub code: u32,
    pub reason: Reason,
    pub subject: Subject,
}

/// Why a message is not valid, or why that is not known.
#[derive(Clone, Copy, Debug, PartialEq, Eq, Error)]
pub enum Refusal {
    #[error("the message has a fault")]
    Fault(Fault),
    /// Fewer bytes than the header or than Message Length.
    #[error("the message is truncated")]
    Truncated,
    /// More bytes than Message Length.
    #[error("bytes follow the message")]
    Trailing,
    #[error("out of memory")]
    NoMemory,
    /// The stream was refused memory before.
    #[error("the stream is spent")]
    Spent,
}

impl From<AllocError> for Refusal {
    ghost use Rattle.std.specs.Prelude.{◌≡◌};
    ghost use Rattle.dia_check.specs.declared.fault.Refusal.TheVariants.{NoMemory};

    ghost from_gives = { λ _ e. e ≡ NoMemory };

    fn from(_error: AllocError) -> Self {
        Refusal::NoMemory
    }
}
