//! What is done in a vector.

use crate::data::Datum;
use dia_book::Key;

/// Which part of a command's vectors.
#[derive(Clone, Copy, PartialEq, Eq)]
pub enum Part {
    /// Valid messages.
    Valid,
    /// Messages with a fault.
    Faulty,
}

/// What is done in a vector.
#[derive(Clone, Copy)]
pub enum Change {
    /// The shortest message of the command.
    Shortest,
    /// To the header and the bytes of the plain message.
    Head(HeadChange),
    /// To the level of the definition at this place of those that the command reaches.
    Level { place: usize, change: LevelChange },
}

/// What is done to the header of a plain message, or to its bytes.
#[derive(Clone, Copy)]
pub enum HeadChange {
    Plain,
    P(bool),
    T,
    E,
    Reserved,
    Version,
    /// Message Length 16.
    ShortLength,
    /// A Message Length that is greater by one.
    LengthAndOne,
    Cut,
    Extended,
    Code(u32),
    App(u32),
}

/// What is done to a level. A rule is given by its place, and with the key that counts for it.
#[derive(Clone, Copy)]
pub enum LevelChange {
    /// So many AVPs for the rule.
    Count { rule: usize, key: Key, count: u64 },
    /// The first AVP for the rule has M, or hasn't.
    Flag { rule: usize, key: Key, m: bool },
    /// The first AVP for the rule has these data.
    Data { rule: usize, key: Key, datum: Datum },
    EachRule,
    Reversed,
    /// The AVPs of a fixed rule come after all others.
    Last { rule: usize, key: Key },
    /// An AVP follows the level.
    And { key: Key },
    /// An AVP that the dictionary doesn't know, with M, follows the level.
    AndMandatory { key: Key },
    /// The first AVP has a Length that is below its header's.
    FirstLength { key: Key },
    /// The last AVP has a Length that is greater by four.
    LastLength { key: Key },
    /// Four bytes with which no AVP begins follow the level.
    Zeros,
}
