//! The ways in which a level breaks the rules of a definition.
ghost use Rattle.std.specs.Prelude.{◌≡◌};
ghost use Rattle.dia_breaking_levels.specs.Words.{reason_word};

use dia_book::Key;
use std::fmt;

/// What the AVPs of a level do that the rules of a definition of B forbid.
#[derive(Clone, Copy, PartialEq, Eq)]
pub enum Reason {
    /// There are too few of a key that the definition lists.
    Missing,
    /// There are too many of such a key.
    TooMany,
    /// One comes that the definition doesn't list, by a rule of A's, and there is no wildcard.
    NotAllowed,
    /// One comes that neither lists, and the definition has no wildcard.
    NotAllowedOther,
    /// There are too few of the keys that the definition doesn't list.
    MissingOthers,
    /// There are too many of these.
    TooManyOthers,
    /// One of a key that the definition lists as fixed follows one that the definition wants after it.
    Order,
}

impl fmt::Display for Reason {
    ghost use Rattle.std.specs.Prelude.{Some};
    ghost use Rattle.dia_breaking_levels.specs.Words.{reason_word};

    ghost output = { λ reason. Some (reason_word reason) };

    fn fmt<W: fmt::Write>(&self, f: &mut fmt::Formatter<W>) -> fmt::Result {
        f.write_str(word(*self))
    }
}

fn word(reason: Reason) -> &'static str
    ensures { result.now ≡ reason_word reason }
{
    match reason {
        Reason::Missing | Reason::MissingOthers => "missing",
        Reason::TooMany | Reason::TooManyOthers => "too-many",
        Reason::NotAllowed | Reason::NotAllowedOther => "not-allowed",
        Reason::Order => "order",
    }
}

/// A way in which levels of a definition of A break the rules of one of B.
#[derive(Clone, Copy, PartialEq, Eq)]
pub struct Line {
    pub reason: Reason,
    /// The key of the reported AVP, and none where the wildcard counts.
    pub key: Option<Key>,
    /// The key that precedes it, where the reason is the order.
    pub following: Option<Key>,
    /// What such a level takes at least, in bytes.
    pub length: u64,
}

/// AVPs of one key in a row.
#[derive(Clone, Copy, PartialEq, Eq)]
pub struct Part {
    pub key: Key,
    pub count: u32,
}
