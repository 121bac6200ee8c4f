//! A source that names no dictionary.

ghost use Rattle.std.specs.Prelude.{◌≡◌, Some, string_bytes};
ghost use Rattle.dia_ccf.specs.Plain.{plain_source};
ghost use Rattle.dia_dict.specs.Resolution.{first_wrong, wrong};

use dia_ccf::Source;
use dia_dict::DictKind;

/// What a text says that names no dictionary, and the first of its faults. A name is empty where there is none.
#[derive(Drop)]
pub struct WrongSource {
    pub source: Box<Source>,
    pub kind: DictKind,
    pub name: String,
    pub slot: String,
    pub ghost first: { first_wrong (plain_source source.value)
        ≡ Some (wrong kind (string_bytes name) (string_bytes slot)) },
}
