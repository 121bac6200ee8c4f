//! A line of a list, in its parts.
ghost use Rattle.std.specs.Prelude.{◌≡◌, ◌++◌, OnOk, codes};
ghost use Rattle.dia_accepted.specs.Lines.{cause_words, plain_line, verdict_words};

use crate::words::scope;
use std::alloc::{AllocError, Global};

/// Why messages break, as docs/FAULTS.md lists it.
#[derive(Clone, Copy)]
pub(crate) enum Reason {
    Command,
    Application,
    Proxiable,
    Missing,
    TooMany,
    NotAllowed,
    Order,
    Unknown,
    MBit,
    Format,
    Meaning,
}

/// Whether messages break.
#[derive(Clone, Copy)]
pub(crate) enum Verdict {
    /// They do, for this reason.
    Breaks(Reason),
    /// It isn't known, where there is a reason for this one.
    Undecided(Option<Reason>),
}

/// Of which command and groups a line is.
#[derive(Clone, Copy)]
pub(crate) enum Scope<'a> {
    /// Of all: `*`.
    Everywhere,
    /// Of those of this path.
    At(&'a [u8]),
}

/// A line: `PATH: REASON SUBJECT: DETAIL`.
#[derive(Clone, Copy)]
pub(crate) struct AcceptedLine<'a> {
    pub scope: Scope<'a>,
    pub verdict: Verdict,
    /// The name or the code and vendor of an AVP, an Application-ID, or `-`.
    pub subject: &'a [u8],
    /// What is sent and accepted, in any words.
    pub detail: &'a [u8],
}

impl Reason {
    ghost use Rattle.std.specs.Prelude.{◌≡◌};
    ghost use Rattle.std.specs.Str.{bytes_eq};
    ghost use Rattle.dia_accepted.specs.LineReader.{is_named, reason_named};
    ghost use Rattle.dia_accepted.specs.Lines.{is_level_reason, reason_word};

    const ALL: [Reason; 11] = [
        Reason::Command,
        Reason::Application,
        Reason::Proxiable,
        Reason::Missing,
        Reason::TooMany,
        Reason::NotAllowed,
        Reason::Order,
        Reason::Unknown,
        Reason::MBit,
        Reason::Format,
        Reason::Meaning,
    ];

    /// The word of the reason.
    pub fn word(self) -> &'static str
        ensures { result.now ≡ reason_word self }
    {
        match self {
            Reason::Command => "command",
            Reason::Application => "application",
            Reason::Proxiable => "proxiable",
            Reason::Missing => "missing",
            Reason::TooMany => "too-many",
            Reason::NotAllowed => "not-allowed",
            Reason::Order => "order",
            Reason::Unknown => "unknown",
            Reason::MBit => "m-bit",
            Reason::Format => "format",
            Reason::Meaning => "meaning",
        }
    }

    /// The reason of a word.
    pub fn named(word: &[u8]) -> Option<Reason>
        ensures { result ≡ reason_named word.now }
    {
        Reason::ALL
            .iter()
            .copied()
            .find(|reason| reason.is_named(word))
    }

    fn is_named(self, word: &[u8]) -> bool
        ensures { result ≡ is_named word.now self }
    {
        word == self.word().as_bytes()
    }

    /// Whether it is one of a level: how often AVPs occur in it, or in which order.
    fn is_of_level(self) -> bool
        ensures { result ≡ is_level_reason self }
    {
        match self {
            Reason::Missing | Reason::TooMany | Reason::NotAllowed | Reason::Order => true,
            Reason::Command
            | Reason::Application
            | Reason::Proxiable
            | Reason::Unknown
            | Reason::MBit
            | Reason::Format
            | Reason::Meaning => false,
        }
    }
}

impl Verdict {
    ghost use Rattle.std.specs.Prelude.{◌≡◌, ◌++◌, OnOk};
    ghost use Rattle.dia_accepted.specs.Lines.{is_about_level, verdict_words};

    /// Whether it is about a level.
    fn is_about_level(self) -> bool
        ensures { result ≡ is_about_level self }
    {
        match self {
            Verdict::Breaks(reason) => reason.is_of_level(),
            Verdict::Undecided(Some(reason)) => reason.is_of_level(),
            Verdict::Undecided(None) => false,
        }
    }

    /// Adds its words.
    fn push(self, out: &mut Vec<u8>) -> Result<(), AllocError>
        ensures { OnOk result (out.new.items ≡ out.old.items ++ verdict_words self) }
    {
        match self {
            Verdict::Breaks(reason) => out.extend_from_slice(reason.word().as_bytes()),
            Verdict::Undecided(None) => out.extend_from_slice(b"undecided"),
            Verdict::Undecided(Some(reason)) => {
                out.extend_from_slice(b"undecided ")?;
                out.extend_from_slice(reason.word().as_bytes())
            }
        }
    }
}

impl Scope<'_> {
    ghost use Rattle.std.specs.Prelude.{◌≡◌};
    ghost use Rattle.dia_accepted.specs.Lines.{path_words, plain_scope};

    /// The path, or `*`.
    fn path(&self) -> &[u8]
        ensures { result.now ≡ path_words (plain_scope self.now) }
    {
        match self {
            Scope::Everywhere => b"*",
            Scope::At(path) => path,
        }
    }
}

impl AcceptedLine<'_> {
    ghost use Rattle.std.specs.Prelude.{◌≡◌, IfOk};
    ghost use Rattle.dia_accepted.specs.Lines.{counted_of, plain_line};

    /// What counts of the line: the command and the cause, and for a break of a level also the last name of the path.
    pub fn counted(&self, alloc: Global) -> Result<Vec<u8>, AllocError>
        ensures { IfOk result (λ made. made.items ≡ counted_of (plain_line self.now)) }
    {
        let mut made = scope(alloc, self.scope.path(), self.verdict.is_about_level())?;
        push_cause(&mut made, self)?;
        Ok(made)
    }
}

/// Adds a colon, and the reason, subject and detail of a line.
fn push_cause(out: &mut Vec<u8>, line: &AcceptedLine<'_>) -> Result<(), AllocError>
    ensures { OnOk result (out.new.items ≡ out.old.items ++ cause_words (plain_line line.now)) }
{
    out.extend_from_slice(b": ")?;
    line.verdict.push(out)?;
    out.extend_from_slice(b" ")?;
    out.extend_from_slice(line.subject)?;
    out.extend_from_slice(b": ")?;
    out.extend_from_slice(line.detail)
}
