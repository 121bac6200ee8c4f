//! The parts of a level before an AVP of a key, and those after it, as bytes.
ghost use Rattle.std.specs.Prelude.{◌≡◌, ◌≤◌, ◌++◌, IfOk, OnOk, length, position};
ghost use Rattle.dia_book.specs.Keys.{same_key};
ghost use Rattle.dia_breaking_shortest.specs.Bytes.{parts_bytes, repeated};
ghost use Rattle.dia_breaking.specs.Messages.{front_parts, parts_before, rest_parts, shortest_avp};
ghost use Rattle.dia_breaking.specs.Upgrades.{sides_of, stock_of};

use crate::upgrade::Upgrade;
use dia_book::{Book, Key};
use dia_breaking_levels::Part;
use dia_breaking_shortest::push_least;
use std::alloc::{AllocError, Global};

impl<'a, A: Book, B: Book> Upgrade<'a, A, B> {
    /// Adds least AVPs.
    pub(crate) fn push_parts(&self, out: &mut Vec<u8>, parts: &[Part]) -> Result<(), AllocError>
        ensures { OnOk result (out.new.items ≡ out.old.items
            ++ parts_bytes (shortest_avp (sides_of self.now) (stock_of self.now)) parts.now) }
    {
        for part in parts {
            self.push_part(out, part)?;
        }
        Ok(())
    }

    fn push_part(&self, out: &mut Vec<u8>, part: &Part) -> Result<(), AllocError>
        ensures { OnOk result (out.new.items ≡ out.old.items
            ++ repeated part.now.count (shortest_avp (sides_of self.now) (stock_of self.now) part.now.key)) }
    {
        for done in 0..part.count {
            push_least(out, self.lengths.book, &self.lengths.least, part.key)?;
        }
        Ok(())
    }
}

/// How many parts precede the first of the key.
fn parts_before(parts: &[Part], key: Key) -> usize
    ensures within { result ≤ length parts.now }
    ensures place { result ≡ parts_before key parts.now }
{
    match first_of(parts, key) {
        Some(place) => place,
        None => parts.len(),
    }
}

fn first_of(parts: &[Part], key: Key) -> Option<usize>
    ensures { result ≡ position (λ part. same_key part.key key) parts.now }
{
    parts.iter().position(|part| part.key == key)
}

/// The parts before an AVP of the key.
pub(crate) fn front_parts(parts: &[Part], key: Key) -> &[Part]
    ensures { result.now ≡ front_parts key parts.now }
{
    &parts[..parts_before(parts, key)]
}

/// Those after it: others of the key come first.
pub(crate) fn rest_parts(alloc: Global, parts: &[Part], key: Key) -> Result<Vec<Part>, AllocError>
    ensures { IfOk result (λ rest. rest.items ≡ rest_parts key parts.now) }
{
    let mut rest = Vec::new(alloc);
    let place = parts_before(parts, key);
    if let Some(first) = parts.get(place) {
        rest.push(Part {
            key: first.key,
            count: first.count.saturating_sub(1),
        })?;
        rest.extend_from_slice(&parts[place + 1..])?;
    }
    Ok(rest)
}
