//! The inputs with the words that name them.

/// A text, and the word of the command line that names it.
#[derive(Clone, Copy)]
pub struct NamedText<'a> {
    pub name: &'a str,
    pub text: &'a [u8],
}

/// The texts of the inputs. A missing or too long one is empty.
#[derive(Clone, Copy)]
pub struct InputTexts<'a> {
    pub first: NamedText<'a>,
    pub second: NamedText<'a>,
    pub table: NamedText<'a>,
    pub message: NamedText<'a>,
}
