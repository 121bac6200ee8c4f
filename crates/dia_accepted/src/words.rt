//! The words of a line, `PATH: REASON SUBJECT: DETAIL`.
ghost use Rattle.std.specs.Prelude.{◌≡◌, ◌≤◌, IfOk, drop, length, reverse};
ghost use Rattle.std.specs.List.{prefix_len};
ghost use Rattle.dia_accepted.specs.Words.{anywhere, begins, cause_of, cause_text, command_in, command_of, counted};
ghost use Rattle.dia_accepted.specs.Words.{has_level_reason, has_undecided_level, is_of_command, is_of_level};
ghost use Rattle.dia_accepted.specs.Words.{is_of_name, is_of_path, last_of, path_of, scope, scoped};

use std::alloc::{AllocError, Global};

/// What counts of a line: the command and the cause, and for a break of a level also the last name of the path.
pub(crate) fn counted(alloc: Global, words: &[u8]) -> Result<Vec<u8>, AllocError>
    ensures { IfOk result (λ made. made.items ≡ counted words.now) }
{
    let (path, cause) = words.split_at(path_len(words));
    scoped(alloc, path, cause)
}

/// The same of a line with `*` in place of its path.
pub(crate) fn anywhere(alloc: Global, words: &[u8]) -> Result<Vec<u8>, AllocError>
    ensures { IfOk result (λ made. made.items ≡ anywhere words.now) }
{
    scoped(alloc, b"*", cause_of(words))
}

/// The path of a line, and its reason, subject and detail.
pub(crate) fn path_and_cause(words: &str) -> (&str, &str)
    ensures path { result.0.now ≡ path_of words.now }
    ensures cause { result.1.now ≡ cause_text words.now }
{
    match words.split_once(':') {
        Some((path, rest)) => (path, rest.strip_prefix(' ').unwrap_or(rest)),
        None => (words, ""),
    }
}

fn scoped(alloc: Global, path: &[u8], cause: &[u8]) -> Result<Vec<u8>, AllocError>
    ensures { IfOk result (λ made. made.items ≡ scoped path.now cause.now) }
{
    let mut made = scope(alloc, path, is_of_level(cause))?;
    made.extend_from_slice(cause)?;
    Ok(made)
}

/// What counts of a path: the command; for a break of a level also the last name.
pub(crate) fn scope(alloc: Global, path: &[u8], is_of_level: bool) -> Result<Vec<u8>, AllocError>
    ensures { IfOk result (λ made. made.items ≡ scope is_of_level path.now) }
{
    let mut made = Vec::from_slice(alloc, command_of(path))?;
    if is_of_level {
        made.push(b'/')?;
        made.extend_from_slice(last_of(path))?;
    }
    Ok(made)
}

fn cause_of(words: &[u8]) -> &[u8]
    ensures { result.now ≡ cause_of words.now }
{
    following(words, path_len(words))
}

/// The command of what counts of an entry; `*` for all.
pub(crate) fn command_in(text: &[u8]) -> &[u8]
    ensures { result.now ≡ command_in text.now }
{
    command_of(path_of(text))
}

fn path_of(words: &[u8]) -> &[u8]
    ensures { result.now ≡ path_of words.now }
{
    let (path, _) = words.split_at(path_len(words));
    path
}

fn command_of(path: &[u8]) -> &[u8]
    ensures { result.now ≡ command_of path.now }
{
    let (command, _) = path.split_at(command_len(path));
    command
}

fn last_of(path: &[u8]) -> &[u8]
    ensures { result.now ≡ last_of path.now }
{
    following(path, path.len() - last_len(path))
}

fn is_of_level(cause: &[u8]) -> bool
    ensures { result ≡ is_of_level cause.now }
{
    has_level_reason(cause) || has_undecided_level(cause)
}

fn has_level_reason(cause: &[u8]) -> bool
    ensures { result ≡ has_level_reason cause.now }
{
    begins(cause, b": missing ")
        || begins(cause, b": too-many ")
        || begins(cause, b": not-allowed ")
        || begins(cause, b": order ")
}

fn has_undecided_level(cause: &[u8]) -> bool
    ensures { result ≡ has_undecided_level cause.now }
{
    begins(cause, b": undecided missing ")
        || begins(cause, b": undecided too-many ")
        || begins(cause, b": undecided not-allowed ")
        || begins(cause, b": undecided order ")
}

pub(crate) fn begins(words: &[u8], front: &[u8]) -> bool
    ensures { result ≡ begins words.now front.now }
{
    words.starts_with(front)
}

/// What follows so many bytes.
pub(crate) fn following(bytes: &[u8], count: usize) -> &[u8]
    ensures { result.now ≡ drop count bytes.now }
{
    if count <= bytes.len() {
        &bytes[count..]
    } else {
        b""
    }
}

fn path_len(words: &[u8]) -> usize
    ensures len { result ≡ prefix_len is_of_path words.now }
    ensures within { result ≤ length words.now }
{
    words.iter().take_while(|b| is_of_path(**b)).count()
}

fn command_len(path: &[u8]) -> usize
    ensures len { result ≡ prefix_len is_of_command path.now }
    ensures within { result ≤ length path.now }
{
    path.iter().take_while(|b| is_of_command(**b)).count()
}

/// How many bytes the last name of a path has.
fn last_len(path: &[u8]) -> usize
    ensures len { result ≡ prefix_len is_of_name (reverse path.now) }
    ensures within { result ≤ length path.now }
{
    path.iter().rev().take_while(|b| is_of_name(**b)).count()
}

fn is_of_path(byte: u8) -> bool
    ensures { result ≡ is_of_path byte }
{
    byte != b':'
}

fn is_of_command(byte: u8) -> bool
    ensures { result ≡ is_of_command byte }
{
    !(byte == b'/' || byte == b'[')
}

fn is_of_name(byte: u8) -> bool
    ensures { result ≡ is_of_name byte }
{
    byte != b'/'
}
