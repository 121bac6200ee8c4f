//! That the base dictionary can be resolved.
ghost use Rattle.std.specs.Prelude.{◌≡◌, None};
ghost use Rattle.dia_dict.specs.Resolution.{first_wrong};
ghost use Rattle.dia_dict.specs.Base.{base_source};

/// Nothing is wrong with the source of the base dictionary.
pub fn base_is_sound()
    ensures { first_wrong base_source ≡ None }
{}
