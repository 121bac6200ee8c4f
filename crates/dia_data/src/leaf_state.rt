//! Data that comes in pieces.
ghost use Rattle.std.specs.Prelude.{◌≡◌, [], ◌++◌, List, ℕ};

use crate::accept::{Leaf, accepts, by_value, is_graphic};
use crate::format::Format;
use crate::front::Front;
use crate::seen_text::Text;

/// How many bytes of the data are retained.
const FRONT_LENGTH: usize = 20;

/// What is recorded of all bytes, for the formats whose front alone does not decide.
#[derive(Clone, Copy)]
enum Seen {
    Nothing,
    /// Whether all of them are graphic.
    Graphic(bool),
    /// What they are as a text.
    Characters(Text),
}

/// What has been seen of the data of a format so far, in whatever pieces it came.
///
/// It retains the first [`FRONT_LENGTH`] bytes. Each length that a format fixes, and each scheme of a URI, is shorter, so
/// that one byte too many is still seen.
#[derive(Clone, Copy)]
pub struct LeafState<'a> {
    format: &'a Format,
    front: Front<FRONT_LENGTH>,
    seen: Seen,
}

/// What has been seen of data, apart from its format.
#[derive(Clone, Copy)]
pub struct SeenData {
    front: Front<FRONT_LENGTH>,
    seen: Seen,
}

impl<'a> LeafState<'a> {
    ghost use Rattle.dia_data.specs.Leaf.{IsLeafAnswer};
    ghost use Rattle.dia_data.specs.Plain.{PlainFormat, plain_format};
    ghost use Rattle.dia_data.specs.State.{HasSeenData, DenotesData};

    /// Before any data of the format.
    pub fn start(format: &'a Format) -> Self
        ensures { DenotesData result (plain_format format.now) [] }
    {
        let seen = match format {
            Format::Utf8String => Seen::Characters(Text::start()),
            Format::DiameterIdentity | Format::DiameterUri => Seen::Graphic(true),
            _ => Seen::Nothing,
        };
        LeafState {
            format,
            front: Front::new(),
            seen,
        }
    }

    /// Takes the next bytes of the data.
    pub fn feed(&mut self, piece: &[u8])
        ensures { (kind : PlainFormat) (bytes : List ℕ) → DenotesData self.old kind bytes
            → DenotesData self.new kind (bytes ++ piece.now) }
    {
        self.front.take_from(piece);
        match self.seen {
            Seen::Nothing => {}
            Seen::Graphic(graphic) => self.seen = Seen::Graphic(graphic && is_graphic(piece)),
            Seen::Characters(text) => self.seen = Seen::Characters(text.fed(piece)),
        }
    }

    /// What `accepts` says of the bytes that were fed.
    pub fn finish(self) -> Leaf
        ensures { (kind : PlainFormat) (bytes : List ℕ) → DenotesData self.entry kind bytes
            → IsLeafAnswer result kind bytes }
    {
        let by_front = accepts(self.format, self.front.as_slice());
        match self.seen {
            Seen::Nothing => by_front,
            Seen::Graphic(graphic) => { if graphic { by_front } else { Leaf::BadValue } }
            Seen::Characters(text) => by_value(text.is_whole()),
        }
    }

    /// What has been seen of the data, apart from their format.
    pub fn seen(self) -> SeenData
        ensures seen { (kind : PlainFormat) (bytes : List ℕ) → DenotesData self.entry kind bytes
            → HasSeenData result kind bytes }
    {
        SeenData {
            front: self.front,
            seen: self.seen,
        }
    }

    /// The state of data of a format of which this has been seen.
    pub fn of(format: &'a Format, seen: SeenData) -> Self
        ensures occurs { (kind : PlainFormat) (bytes : List ℕ) → HasSeenData seen kind bytes
            → plain_format format.now ≡ kind → DenotesData result kind bytes }
    {
        LeafState {
            format,
            front: seen.front,
            seen: seen.seen,
        }
    }
}
