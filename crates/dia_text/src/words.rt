//! The words of a line.
ghost use Rattle.std.specs.Prelude.{◌≡◌, ◌≤◌, length, option_copied};
ghost use Rattle.std.specs.List.{prefix_len};
ghost use Rattle.dia_text.specs.Words.{is_blank, is_mark, is_word_byte, word_length};
ghost use Rattle.dia_text.specs.Words.{unblanked, first_word, after_word, after_letter};

/// The first word, which is empty where there is none, and what follows it. Blanks separate words, a brace or a comma is one,
/// and `#` or `;` begins a comment, up to the end of the line.
pub(crate) fn next_word(text: &[u8]) -> (&[u8], &[u8])
    ensures word { result.0.now ≡ first_word text.entry.now }
    ensures rest { result.1.now ≡ after_word text.entry.now }
{
    let text = without_blanks(text);
    let end = word_len(text);
    (&text[..end], &text[end..])
}

/// The text without the blanks at its front.
pub(crate) fn without_blanks(text: &[u8]) -> &[u8]
    ensures { result.now ≡ unblanked text.entry.now }
{
    let start = blanks_len(text);
    &text[start..]
}

/// How many blanks are at the front.
fn blanks_len(bytes: &[u8]) -> usize
    ensures len { result ≡ prefix_len is_blank bytes.now }
    ensures within { result ≤ length bytes.now }
{
    for index in 0..bytes.len() {
        if !is_blank(bytes[index]) {
            return index;
        }
    }
    bytes.len()
}

/// How long the word at the front is.
fn word_len(bytes: &[u8]) -> usize
    ensures len { result ≡ word_length bytes.now }
    ensures within { result ≤ length bytes.now }
{
    match bytes {
        [first, ..] if is_mark(*first) => 1,
        _ => letters_len(bytes),
    }
}

/// How many bytes of a word are at the front.
fn letters_len(bytes: &[u8]) -> usize
    ensures len { result ≡ prefix_len is_word_byte bytes.now }
    ensures within { result ≤ length bytes.now }
{
    for index in 0..bytes.len() {
        if !is_word_byte(bytes[index]) {
            return index;
        }
    }
    bytes.len()
}

fn is_blank(b: u8) -> bool
    ensures { result ≡ is_blank b }
{
    b == b' ' || b == b'\t' || b == b'\r'
}

fn is_word_byte(b: u8) -> bool
    ensures { result ≡ is_word_byte b }
{
    !(is_blank(b) || is_mark(b) || b == b'#' || b == b';')
}

/// Whether a byte is a word.
fn is_mark(b: u8) -> bool
    ensures { result ≡ is_mark b }
{
    b == b'{' || b == b'}' || b == b','
}

/// What follows a byte at the front.
pub(crate) fn after_letter(letter: u8, word: &[u8]) -> Option<&[u8]>
    ensures { option_copied result ≡ after_letter letter word.entry.now }
{
    match word {
        [first, following @ ..] if *first == letter => Some(following),
        _ => None,
    }
}
