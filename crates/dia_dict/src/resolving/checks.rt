//! What a declaration, a group and a definition can have wrong alone.
ghost use Rattle.std.specs.Prelude.{◌≡◌};
ghost use Rattle.dia_ccf.specs.Plain.{plain_source, plain_def};
ghost use Rattle.dia_dict.specs.Resolution.{is_long, is_mismatched, is_grouped};

use super::names::{Names, key_of_declaration, key_of_group};
use dia_ccf::{Def, FormatName};

/// The most rules of a definition.
pub const MAX_RULES: usize = 1024;

/// The most declarations, groups and commands together.
pub const MAX_PARTS: usize = 16384;

pub(super) fn is_long(def: &Def) -> bool
    ensures { result ≡ is_long (plain_def def.now) }
{
    def.rules.len() > MAX_RULES
}

pub(super) fn is_grouped(format: FormatName) -> bool
    ensures { result ≡ is_grouped format }
{
    matches!(format, FormatName::Grouped)
}

pub(super) fn is_mismatch(names: &Names<'_>, group: &Def) -> bool
    ensures { result ≡ is_mismatched (plain_source names.now.source.now) (plain_def group.now) }
{
    match names.declaration(&group.name) {
        Some(decl) => {
            !is_grouped(decl.format) || key_of_group(group) != key_of_declaration(decl)
        }
        None => false,
    }
}
