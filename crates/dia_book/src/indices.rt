ghost use Rattle.std.specs.Prelude.{◌≡◌, ◌<◌, ◌^◌};

use std::marker::Model;

/// An entry of a dictionary, by its place.
#[derive(Clone, Copy, PartialEq, Eq)]
pub struct Entry {
    index: u32,
}

impl Model for Entry {
    ghost use Rattle.std.specs.Prelude.{ℕ};

    ghost Value = { ℕ };

    ghost view = { λ e. e.index };

    ghost inverse = { λ n. record { index = n } };
}

/// A definition of a dictionary, by its place among the groups, in the order of their entries, and then the commands.
#[derive(Clone, Copy, PartialEq, Eq)]
pub struct DefId {
    index: u32,
}

impl Model for DefId {
    ghost use Rattle.std.specs.Prelude.{ℕ};

    ghost Value = { ℕ };

    ghost view = { λ d. d.index };

    ghost inverse = { λ n. record { index = n } };
}

impl Entry {
    /// The entry at this place.
    pub fn new(index: usize) -> Self
        requires { index < 2 ^ 32 }
        ensures { result ≡ index }
    {
        Entry {
            index: index as u32,
        }
    }

    pub fn index(self) -> usize
        ensures { result ≡ self }
    {
        self.index as usize
    }
}

impl DefId {
    /// The definition at this place.
    pub fn new(index: usize) -> Self
        requires { index < 2 ^ 32 }
        ensures { result ≡ index }
    {
        DefId {
            index: index as u32,
        }
    }

    pub fn index(self) -> usize
        ensures { result ≡ self }
    {
        self.index as usize
    }
}
