//! The words of a line.

ghost use Rattle.std.specs.Prelude.{◌≡◌, ◌≤◌, length};
ghost use Rattle.std.specs.List.{prefix_len};
ghost use Rattle.dia_text.specs.Words.{after_word, first_word, is_blank, is_mark, is_word_byte, unblanked, word_length};

/// The first word, which is empty where there is none, and what follows it, as dia_text reads them: a brace or a comma is a word.
pub(crate) fn next_word(text: &[u8]) -> (&[u8], &[u8])
    ensures word { result.0.now ≡ first_word text.entry.now }
    ensures rest { result.1.now ≡ after_word text.entry.now }
{
    let text = without_blanks(text);
    let end = word_len(text);
    (&text[..end], &text[end..])
}

/// The text without the blanks at its front.
pub(crate) fn without_blanks(text: &[u8]) -> &[u8]
    ensures { result.now ≡ unblanked text.entry.now }
{
    let start = blanks_len(text);
    &text[start..]
}

/// How many blanks are at the front.
fn blanks_len(bytes: &[u8]) -> usize
    ensures len { result ≡ prefix_len is_blank bytes.now }
    ensures within { result ≤ length bytes.now }
{
    for index in 0..bytes.len() {
        if !is_blank(bytes[index]) {
            return index;
        }
    }
    bytes.len()
}

/// How long the word at the front is.
fn word_len(bytes: &[u8]) -> usize
    ensures len { result ≡ word_length bytes.now }
    ensures within { result ≤ length bytes.now }
{
    match bytes {
        [first, ..] if is_mark(*first) => 1,
        _ => letters_len(bytes),
    }
}

/// How many bytes of a word are at the front.
fn letters_len(bytes: &[u8]) -> usize
    ensures len { result ≡ prefix_len is_word_byte bytes.now }
    ensures within { result ≤ length bytes.now }
{
    for index in 0..bytes.len() {
        if !is_word_byte(bytes[index]) {
            return index;
        }
    }
    bytes.len()
}

pub(crate) fn is_blank(byte: u8) -> bool
    ensures { result ≡ is_blank byte }
{
    byte == b' ' || byte == b'\t' || byte == b'\r'
}

fn is_word_byte(byte: u8) -> bool
    ensures { result ≡ is_word_byte byte }
{
    !(is_blank(byte) || is_mark(byte) || byte == b'#' || byte == b';')
}

/// Whether a byte is a word.
pub(crate) fn is_mark(byte: u8) -> bool
    ensures { result ≡ is_mark byte }
{
    byte == b'{' || byte == b'}' || byte == b','
}
