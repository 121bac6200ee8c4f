//! Texts that aren't for `make`.

/// The fewest digits of a message, those of its header.
const HEADER_DIGITS: usize = 40;

/// Whether a word is a message in hexadecimal digits.
pub fn is_digits_of_message(word: &[u8]) -> bool {
    word.len() >= HEADER_DIGITS
        && word.starts_with(b"01")
        && word.iter().all(|byte| byte.is_ascii_hexdigit())
}

/// Whether a line is one of a dictionary: a declaration, or the head of a definition.
pub fn is_of_dictionary(line: &[u8]) -> bool {
    let line = line.trim_ascii();
    line.starts_with(b"%avp ") || line.starts_with(b"<") && line.windows(3).any(is_assign)
}

fn is_assign(window: &[u8]) -> bool {
    window == b"::=".as_slice()
}
