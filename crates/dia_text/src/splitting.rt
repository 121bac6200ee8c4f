//! Texts, cut at a byte.
ghost use Rattle.std.specs.Prelude.{◌≡◌, ◌≢◌, ◌==◌, ◌++◌, ◌∷◌, IfOk, IfSome, All, map};
ghost use Rattle.std.specs.List.{slice_split};

use memchr::memchr;
use std::alloc::{AllocError, Global};

/// The parts of a text between these bytes.
pub(crate) fn split(alloc: Global, byte: u8, text: &[u8]) -> Result<Vec<&[u8]>, AllocError>
    ensures { IfOk result
        (λ v. map (λ x. x.now) v.items ≡ slice_split (λ b. b == byte) text.entry.now) }
{
    let mut found = Vec::new(alloc);
    let mut rest = text;
    while let Some((part, following)) = split_once(byte, rest) {
        found.push(part)?;
        rest = following;
    }
    found.push(rest)?;
    Ok(found)
}

/// What is before the first such byte, and what follows it.
pub(crate) fn split_once(byte: u8, text: &[u8]) -> Option<(&[u8], &[u8])>
    ensures some { IfSome result
        (λ parts. text.entry.now ≡ parts.0.now ++ byte ∷ parts.1.now) }
    ensures part { IfSome result (λ parts. All (λ c. c ≢ byte) parts.0.now) }
    ensures none { result ≡ None → All (λ c. c ≢ byte) text.entry.now }
{
    let at = memchr(byte, text)?;
    Some((&text[..at], &text[at + 1..]))
}
