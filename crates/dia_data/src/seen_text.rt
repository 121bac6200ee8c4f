//! A text that comes in pieces.
ghost use Rattle.std.specs.Prelude.{◌≡◌, ◌≤◌, ◌++◌, ◌↔◌, [], IsTrue, List, drop, length, take, ℕ};
ghost use Rattle.std.specs.Str.{IsUtf8, StartsWithNoChar};

use crate::front::Front;
use std::str;

/// What has been seen of a text.
#[derive(Clone, Copy)]
pub(crate) enum Text {
    /// Whole characters, and then these bytes, fewer than four, which no character begins.
    Open(Front<4>),
    /// No more bytes make it a text.
    Broken,
}

impl Text {
    ghost use Rattle.dia_data.specs.Front.{front_bytes};
    ghost use Rattle.dia_data.specs.State.{IsSeenOfText};

    pub(crate) fn start() -> Text
        ensures { IsSeenOfText result [] }
    {
        Text::Open(Front::new())
    }

    pub(crate) fn is_whole(self) -> bool
        ensures { (bytes : List ℕ) → IsSeenOfText self bytes → (IsTrue result ↔ IsUtf8 bytes) }
    {
        match self {
            Text::Open(pending) => pending.as_slice().is_empty(),
            Text::Broken => false,
        }
    }

    /// What has been seen once the piece follows.
    pub(crate) fn fed(self, piece: &[u8]) -> Text
        ensures { (bytes : List ℕ) → IsSeenOfText self bytes
            → IsSeenOfText result (bytes ++ piece.now) }
    {
        let Text::Open(pending) = self else {
            return Text::Broken;
        };
        let mut joined = pending;
        joined.take_from(piece);
        let whole = whole_len(joined.as_slice());
        let held = pending.as_slice().len();
        if held < whole {
            Text::of(&piece[whole - held..])
        } else {
            Text::unfinished(joined)
        }
    }

    fn of(bytes: &[u8]) -> Text
        ensures { IsSeenOfText result bytes.now }
    {
        let mut pending = Front::new();
        pending.take_from(&bytes[whole_len(bytes)..]);
        Text::unfinished(pending)
    }

    /// What has been seen of bytes that no character begins, by the first of them.
    fn unfinished(front: Front<4>) -> Text
        ensures { (bytes : List ℕ) → front_bytes front ≡ take 4 bytes → StartsWithNoChar bytes
            → IsSeenOfText result bytes }
    {
        if front.as_slice().len() < 4 {
            Text::Open(front)
        } else {
            Text::Broken
        }
    }
}

/// How many bytes at the front are whole characters. No character begins the bytes after them.
fn whole_len(bytes: &[u8]) -> usize
    ensures bound { result ≤ length bytes.now }
    ensures text { IsUtf8 (take result bytes.now) }
    ensures rest { StartsWithNoChar (drop result bytes.now) }
{
    match str::from_utf8(bytes) {
        Ok(_) => bytes.len(),
        Err(error) => error.valid_up_to(),
    }
}
