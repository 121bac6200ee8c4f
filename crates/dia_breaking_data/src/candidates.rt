//! The first of some data that a format doesn't accept.
ghost use Rattle.std.specs.Prelude.{◌↔◌, IsTrue, map};
ghost use Rattle.std.specs.Option.{option_map};
ghost use Rattle.dia_data.specs.Leaf.{IsLeaf};
ghost use Rattle.dia_data.specs.Plain.{plain_format};
ghost use Rattle.dia_breaking_data.specs.Shortest.{witness_bytes};
ghost use Rattle.dia_breaking_data.specs.Kinds.{IsFirstRefused};

use crate::short_data::Witness;
use dia_data::{Format, Leaf, accepts};

/// Whether the format accepts the data as a leaf.
pub(crate) fn is_leaf(format: &Format, bytes: &[u8]) -> bool
    ensures { IsTrue result ↔ IsLeaf (plain_format format.now) bytes.now }
{
    match format {
        Format::Grouped => false,
        _ => accepts(format, bytes) == Leaf::Fine,
    }
}

/// The first of the data that the format doesn't accept.
pub(crate) fn first_refused(format: &Format, candidates: &[Witness]) -> Option<Witness>
    ensures { IsFirstRefused (plain_format format.now) (map witness_bytes candidates.now)
        (option_map witness_bytes result) }
{
    for candidate in candidates {
        if !is_leaf(format, candidate.as_slice()) {
            return Some(*candidate);
        }
    }
    None
}
