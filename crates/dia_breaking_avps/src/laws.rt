//! What holds of AVPs that break nothing by themselves.
ghost use Rattle.dia_breaking_avps.specs.Laws.{KeysFitAlone, ShortLevelsAreAccepted, ShorterDataAreAccepted};

/// An AVP of a level that A's side sends fits B by itself, where each that is sent of its key does.
pub fn keys_fit_alone()
    ensures { KeysFitAlone }
{}

/// Data that A's side sends are accepted where they are shorter than the shortest that break.
pub fn shorter_data_are_accepted()
    ensures { ShorterDataAreAccepted }
{}

/// A level has 8 bytes, if it isn't empty and has fewer than 12: so B accepts it where it reads a leaf of 8 bytes.
pub fn short_levels_are_accepted()
    ensures { ShortLevelsAreAccepted }
{}
