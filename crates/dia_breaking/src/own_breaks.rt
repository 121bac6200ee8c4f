//! How the AVPs of which there is something to report break by themselves.
ghost use Rattle.std.specs.Prelude.{◌≡◌, IfOk};
ghost use Rattle.dia_breaking.specs.OwnBreaks.{AreOwnBreaks, IsOwnBreaks};
ghost use Rattle.dia_breaking.specs.Sender.{costs_of, sender_in};
ghost use Rattle.dia_breaking.specs.Sides.{sides};

use crate::keys::Own;
use crate::lengths::Lengths;
use crate::meanings::is_read_as_other;
use dia_book::{Book, Key};
use dia_breaking_avps::{AvpBreaks, avp_breaks};
use dia_terms::Unknown;
use std::alloc::{AllocError, Global};

/// An AVP of which there is something to report.
#[derive(Clone, Copy)]
pub(crate) struct OwnBreaks {
    pub key: Key,
    /// The length of a shortest AVP of the key, where a rule lists it.
    pub least: u64,
    /// How it breaks by itself.
    pub breaks: AvpBreaks,
    /// Whether B's side accepts all of its data, and reads them as another format.
    pub is_other: bool,
}

/// How each of these AVPs breaks by itself, in the order of the AVPs.
pub(crate) fn own_breaks<A: Book, B: Book>(
    alloc: Global,
    b: &B,
    own: &[Own],
    lengths: &Lengths<'_, A>,
    unknown: Unknown,
) -> Result<Vec<OwnBreaks>, AllocError>
    ensures { IfOk result (λ found. AreOwnBreaks (sides (sender_in lengths.now) (B.meaning b.now) lengths.now.sends unknown)
        (costs_of lengths.now).listed own.now found.items) }
{
    let mut found = Vec::new(alloc);
    for one in own {
        found.push(breaks_of(b, one.key, lengths, unknown))?;
    }
    Ok(found)
}

fn breaks_of<A: Book, B: Book>(
    b: &B,
    key: Key,
    lengths: &Lengths<'_, A>,
    unknown: Unknown,
) -> OwnBreaks
    ensures key { result.key ≡ key }
    ensures breaks { IsOwnBreaks
        (sides (sender_in lengths.now) (B.meaning b.now) lengths.now.sends unknown) (costs_of lengths.now).listed result }
{
    let breaks = avp_breaks(lengths.book, b, key, lengths.sends, unknown);
    let is_other = is_read_as_other(lengths.book, b, key, lengths.sends, unknown, &breaks);
    OwnBreaks {
        key,
        least: lengths.listed(key),
        breaks,
        is_other,
    }
}
