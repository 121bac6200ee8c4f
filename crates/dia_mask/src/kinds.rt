//! The kinds of characters that words of a text are made of.

ghost use Rattle.std.specs.Prelude.{◌≡◌, ◌<◌, ◌≤◌, ◌+◌, ◌%◌, nat_lt, if◌then◌else◌};
ghost use Rattle.std.specs.Char.{InScalarRange};

/// A kind of characters. Each has an order, in which its characters are counted from 0.
#[derive(Clone, Copy, PartialEq, Eq, Hash)]
pub(crate) enum Kind {
    Digit,
    Small,
    Capital,
    /// Two bytes in UTF-8 (RFC 3629 section 3), from U+0080 on.
    Two,
    /// Three bytes, from U+0800 on, without surrogates.
    Three,
    /// Four bytes, from U+10000 on.
    Four,
}

/// How many characters of three bytes precede the surrogates.
const BEFORE_SURROGATES: u32 = 0xd000;

impl Kind {
    ghost use Rattle.dia_mask.specs.Kinds.{character_at, kind_of, size_of};

    /// The kind of a character, or none where it is no part of a word.
    pub(crate) fn of(character: char) -> Option<Kind>
        ensures { result ≡ kind_of character }
    {
        match character {
            '0'..='9' => Some(Kind::Digit),
            'a'..='z' => Some(Kind::Small),
            'A'..='Z' => Some(Kind::Capital),
            '\0'..='\x7f' => None,
            '\u{80}'..='\u{7ff}' => Some(Kind::Two),
            '\u{800}'..='\u{ffff}' => Some(Kind::Three),
            _ => Some(Kind::Four),
        }
    }

    /// How many characters are of this kind.
    pub(crate) fn count(self) -> u64
        ensures size { result ≡ size_of self }
        ensures some { 0 < result }
        ensures few { result ≤ 1048576 }
    {
        match self {
            Kind::Digit => 10,
            Kind::Small | Kind::Capital => 26,
            Kind::Two => 0x780,
            Kind::Three => 0xf000,
            Kind::Four => 0x10_0000,
        }
    }

    /// The character at a place, where the first one follows the last.
    pub(crate) fn character(self, place: u64) -> char
        ensures { result ≡ character_at self (place % size_of self) }
    {
        let place = (place % self.count()) as u32;
        let code = self.code(place);
        char::from_u32(code).unwrap_or('0')
    }

    /// The code of the character at a place.
    fn code(self, place: u32) -> u32
        requires { place < size_of self }
        ensures code { result ≡ character_at self place }
        ensures scalar { InScalarRange result }
    {
        match self {
            Kind::Digit => 0x30 + place,
            Kind::Small => 0x61 + place,
            Kind::Capital => 0x41 + place,
            Kind::Two => 0x80 + place,
            Kind::Three => of_three_bytes(place),
            Kind::Four => 0x1_0000 + place,
        }
    }
}

fn of_three_bytes(place: u32) -> u32
    requires { place < 61440 }
    ensures code { result ≡ (if nat_lt place 53248 then 2048 + place else 4096 + place) }
    ensures scalar { InScalarRange result }
{
    if place < BEFORE_SURROGATES {
        0x800 + place
    } else {
        0x1000 + place
    }
}
