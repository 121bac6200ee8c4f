//! The limits of the texts of inputs. That of a dictionary's text is dia_ccf's `MAX_TEXT`.

/// The most bytes that the text of a message may have, white space included (our profile).
pub const MAX_MESSAGE_TEXT: usize = 67_108_864;

/// The most bytes of a table's text (our profile).
pub const MAX_TABLE: usize = 33_554_432;
