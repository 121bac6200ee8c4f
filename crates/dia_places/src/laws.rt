//! What holds of paths.
ghost use Rattle.std.specs.Prelude.{◌≡◌, List};
ghost use Rattle.dia_book.specs.Dictionary.{Dictionary};
ghost use Rattle.dia_places.specs.Paths.{ArePaths, Path};

/// A dictionary determines the list of paths.
pub fn paths_are_one()
    ensures { (d : Dictionary) (paths others : List Path) → ArePaths d paths → ArePaths d others → paths ≡ others }
{}
