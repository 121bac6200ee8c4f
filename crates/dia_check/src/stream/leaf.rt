//! The data of an AVP, as far as it was seen.

ghost use Rattle.std.specs.Prelude.{◌≡◌, ◌≢◌, ◌+◌, ◌<◌, ◌++◌, [], ℕ, List, Some, MatchOption};
ghost use Rattle.dia_wire.specs.declared.Key.{Key as AnyKey};
ghost use Rattle.dia_data.specs.Plain.{Grouped};
ghost use Rattle.dia_book.specs.Dictionary.{Dictionary, DictEntry, entry_of};
ghost use Rattle.dia_valid.specs.Valid.{known};
ghost use Rattle.dia_check.specs.Reading.{HasSeen, IsBadLeaf, IsGoodLeaf};

use crate::fault::Reason;
use dia_book::{Book, Entry, Leaf};
use dia_data::LeafState;
use dia_wire::Key;

/// Before any data of an AVP; nothing is to be seen of an unknown one.
#[inline(always)]
pub(crate) fn start_leaf<'a, B: Book>(
    book: &'a B,
    key: Key,
    entry: &Option<Entry>,
) -> Option<LeafState<'a>>
    requires { entry.now ≡ entry_of (B.meaning book.now) key }
    ensures { ((e : DictEntry) → known (B.meaning book.now) key ≡ Some e → e.format ≢ Grouped)
        → HasSeen (B.meaning book.now) result key [] }
{
    match entry {
        Some(entry) => Some(LeafState::start(book.format(*entry))),
        None => None,
    }
}

pub(crate) fn feed_leaf(leaf: &mut Option<LeafState<'_>>, bytes: &[u8])
    ensures { (d : Dictionary) (key : AnyKey) (read : List ℕ) → HasSeen d leaf.old key read
        → HasSeen d leaf.new key (read ++ bytes.now) }
{
    if let Some(state) = leaf {
        state.feed(bytes);
    }
}

/// What is wrong with data that was seen wholly.
pub(crate) fn wrong_leaf(leaf: Option<LeafState<'_>>) -> Option<Reason>
    ensures { (d : Dictionary) (key : AnyKey) (read : List ℕ) → HasSeen d leaf.entry key read
        → MatchOption result (IsGoodLeaf d key read) (IsBadLeaf d key read) }
{
    match leaf?.finish() {
        Leaf::Fine => None,
        Leaf::BadLength => Some(Reason::LeafLength),
        Leaf::BadValue => Some(Reason::LeafValue),
    }
}
