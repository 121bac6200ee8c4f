//! How an AVP breaks by itself.

use dia_book::DefId;
use dia_breaking_data::Witness;

/// What the AVPs of a key that A's side sends break by themselves under B.
#[derive(Clone, Copy)]
pub struct AvpBreaks {
    /// None where B accepts each M flag that is sent.
    pub head: Option<HeadBreak>,
    pub data: DataBreak,
}

/// An M flag that is sent, and that B doesn't accept: clear, where both are so.
#[derive(Clone, Copy, PartialEq, Eq)]
pub enum HeadBreak {
    /// B doesn't know the AVP, and refuses it with this M flag.
    Unknown { m: bool },
    /// B's rule forbids this M flag.
    MBit { m: bool },
}

/// Which data of the AVP break.
#[derive(Clone, Copy)]
pub enum DataBreak {
    /// None: B accepts all that is sent.
    Fits,
    /// The AVP is Grouped for both, with these definitions: its level is a site of its own.
    Groups { a: DefId, b: DefId },
    /// Shortest data that is sent and that B doesn't accept.
    Data(Witness),
    /// The AVP is Grouped for A, and a leaf for B, of which a least level is no data: no level of ordinary lengths is, or it is
    /// empty and no Address.
    LeastLevel,
    /// The AVP is Grouped for A, and a number of 8 bytes for B: no level of another length is its data.
    EightBytes,
    /// The AVP is Grouped for A, and for B a leaf of which some levels may be data, and others not: UTF8String; or Address, where
    /// no level is empty and some AVP of it may have the code of a family.
    Undecided,
}
