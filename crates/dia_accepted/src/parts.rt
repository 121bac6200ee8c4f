//! The bytes of a line's parts, and the end of a line of `--once`.
ghost use Rattle.std.specs.Prelude.{◌≡◌, ◌≤◌, length, reverse, true};
ghost use Rattle.std.specs.Char.{is_ascii_digit};
ghost use Rattle.std.specs.List.{prefix_len};
ghost use Rattle.dia_accepted.specs.LineReader.{before_last, is_count, is_counting, is_noun, is_of_part, is_of_word};
ghost use Rattle.dia_accepted.specs.LineReader.{is_path, is_placing, last_part};
ghost use Rattle.dia_accepted.specs.Words.{after_code, begins_key, digits_in, is_name_byte, is_path_byte, key_len, subject_len};

use crate::words::{begins, following};

/// What follows the last comma.
pub(crate) fn last_part(words: &[u8]) -> &[u8]
    ensures { result.now ≡ last_part words.now }
{
    following(words, words.len() - last_part_len(words))
}

/// What precedes the last comma.
pub(crate) fn before_last(words: &[u8]) -> &[u8]
    ensures { result.now ≡ before_last words.now }
{
    let end = words.len() - last_part_len(words);
    let (front, _) = words.split_at(end.saturating_sub(1));
    front
}

pub(crate) fn is_placing(part: &[u8]) -> bool
    ensures { result ≡ is_placing part.now }
{
    begins(part, b" first in ") && is_path(following(part, 10))
}

pub(crate) fn is_counting(part: &[u8]) -> bool
    ensures { result ≡ is_counting part.now }
{
    begins(part, b" in ") && is_count(following(part, 4))
}

fn is_count(text: &[u8]) -> bool
    ensures { result ≡ is_count text.now }
{
    let digits = digits_len(text);
    digits > 0 && is_noun(following(text, digits))
}

fn is_noun(text: &[u8]) -> bool
    ensures { result ≡ is_noun text.now }
{
    text == b" command".as_slice() || text == b" commands".as_slice()
}

fn is_path(text: &[u8]) -> bool
    ensures { result ≡ is_path text.now }
{
    name_len(text) > 0 && names_len(text) == text.len()
}

/// How many bytes of a name begin a text.
pub(crate) fn name_len(text: &[u8]) -> usize
    ensures len { result ≡ prefix_len is_name_byte text.now }
    ensures within { result ≤ length text.now }
{
    text.iter().take_while(|b| is_name_byte(**b)).count()
}

/// How many bytes of a path begin a text.
pub(crate) fn names_len(text: &[u8]) -> usize
    ensures len { result ≡ prefix_len is_path_byte text.now }
    ensures within { result ≤ length text.now }
{
    text.iter().take_while(|b| is_path_byte(**b)).count()
}

/// How many bytes of a subject begin a text: of `CODE:VENDOR`, or of a name.
pub(crate) fn subject_len(text: &[u8]) -> usize
    ensures len { result ≡ subject_len text.now }
    ensures within { result ≤ length text.now }
{
    if begins_key(text) {
        key_len(text)
    } else {
        name_len(text)
    }
}

/// Whether a code, a colon and a vendor begin a text.
fn begins_key(text: &[u8]) -> bool
    ensures { result ≡ begins_key text.now }
{
    let rest = after_code(text);
    digits_len(text) > 0 && begins(rest, b":") && digits_len(following(rest, 1)) > 0
}

/// How many bytes they have.
fn key_len(text: &[u8]) -> usize
    requires { begins_key text.now ≡ true }
    ensures len { result ≡ key_len text.now }
    ensures within { result ≤ length text.now }
{
    digits_len(text) + 1 + digits_len(following(after_code(text), 1))
}

fn after_code(text: &[u8]) -> &[u8]
    ensures { result.now ≡ after_code text.now }
{
    following(text, digits_len(text))
}

pub(crate) fn word_len(text: &[u8]) -> usize
    ensures len { result ≡ prefix_len is_of_word text.now }
    ensures within { result ≤ length text.now }
{
    text.iter().take_while(|b| is_of_word(**b)).count()
}

fn last_part_len(words: &[u8]) -> usize
    ensures len { result ≡ prefix_len is_of_part (reverse words.now) }
    ensures within { result ≤ length words.now }
{
    words.iter().rev().take_while(|b| is_of_part(**b)).count()
}

fn digits_len(text: &[u8]) -> usize
    ensures { result ≡ digits_in text.now }
{
    text.iter().take_while(|b| is_digit(**b)).count()
}

fn is_name_byte(byte: u8) -> bool
    ensures { result ≡ is_name_byte byte }
{
    byte.is_ascii_alphanumeric() || byte == b'-'
}

fn is_path_byte(byte: u8) -> bool
    ensures { result ≡ is_path_byte byte }
{
    is_name_byte(byte) || byte == b'/' || byte == b'[' || byte == b']' || byte == b' '
}

fn is_of_word(byte: u8) -> bool
    ensures { result ≡ is_of_word byte }
{
    byte != b' '
}

fn is_of_part(byte: u8) -> bool
    ensures { result ≡ is_of_part byte }
{
    byte != b','
}

fn is_digit(byte: u8) -> bool
    ensures { result ≡ is_ascii_digit byte }
{
    byte.is_ascii_digit()
}
