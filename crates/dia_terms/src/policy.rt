/// What happens to an AVP that the dictionary does not know.
#[derive(Clone, Copy, PartialEq, Eq)]
pub enum Unknown {
    /// It is accepted where its M flag is clear.
    Kept,
    Refused,
}

/// How deep groups may be nested.
#[derive(Clone, Copy, PartialEq, Eq)]
pub enum Levels {
    Any,
    AtMost(u32),
}
