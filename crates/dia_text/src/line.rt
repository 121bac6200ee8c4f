//! What a line says.

use crate::keys::AvpCode;

/// What the line of an AVP says before its value.
#[derive(Clone, Copy)]
pub struct Head {
    pub code: AvpCode,
    pub flags: u8,
    /// The AVP Length, where it is written.
    pub said_length: Option<u32>,
}

/// What a line after the header says.
#[derive(Drop)]
pub enum Line {
    Blank,
    Leaf(Head, Vec<u8>, Option<Vec<u8>>),
    Open(Head),
    Close(Option<Vec<u8>>),
}
