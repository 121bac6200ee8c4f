//! The two dictionaries.
ghost use Rattle.std.specs.Prelude.{◌≡◌};
ghost use Rattle.dia_differences.specs.Sides.{other_side};

/// One of the two dictionaries.
#[derive(Clone, Copy, PartialEq, Eq, Hash)]
pub enum Side {
    First,
    Second,
}

impl Side {
    pub fn other(self) -> Side
        ensures { result ≡ other_side self }
    {
        match self {
            Side::First => Side::Second,
            Side::Second => Side::First,
        }
    }
}
