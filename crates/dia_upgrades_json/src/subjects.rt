//! What a line is about, as JSON.

ghost use Rattle.std.specs.Prelude.{◌≡◌, ◌∷◌, [], IfOk, OnOk, codes, string_bytes};
ghost use Rattle.serde_json.specs.Written.{compact_text};
ghost use Rattle.dia_upgrades_json.specs.Fields.{Adds, object_of};
ghost use Rattle.dia_upgrades_json.specs.Keys.{key_in};
ghost use Rattle.dia_upgrades_json.specs.Members.{avp_fields, key_fields, known_fields, second_field};

use crate::fields::{object_text, push_field, push_text, push_u32};
use crate::keys::Names;
use dia_book::Key;
use std::alloc::{AllocError, Global};

/// Adds the AVP of a name.
pub(crate) fn push_avp(
    alloc: Global,
    out: &mut String,
    names: &Names<'_>,
    name: &str,
) -> Result<(), AllocError>
    ensures { OnOk result (Adds out.old out.new ((
      codes "avp",
      object_of
          (avp_fields name.now (key_in names.now.first name.now) (key_in names.now.second name.now)),
    ) ∷ [])) }
{
    let avp = avp_text(alloc, name, names.first.get(name), names.second.get(name))?;
    push_field(alloc, out, "avp", avp.as_str())
}

/// The object of an AVP.
fn avp_text(
    alloc: Global,
    name: &str,
    first: Option<Key>,
    second: Option<Key>,
) -> Result<String, AllocError>
    ensures { IfOk result (λ text. string_bytes text ≡ compact_text (object_of (avp_fields name.now first second))) }
{
    let mut fields = String::new(alloc);
    push_avp_fields(alloc, &mut fields, name, first, second)?;
    object_text(alloc, fields.as_str())
}

fn push_avp_fields(
    alloc: Global,
    out: &mut String,
    name: &str,
    first: Option<Key>,
    second: Option<Key>,
) -> Result<(), AllocError>
    ensures { OnOk result (Adds out.old out.new (avp_fields name.now first second)) }
{
    push_text(alloc, out, "name", name)?;
    push_known(alloc, out, first.or(second))?;
    push_second(alloc, out, first, second)
}

/// Adds a code and a vendor, if they are known.
fn push_known(alloc: Global, out: &mut String, key: Option<Key>) -> Result<(), AllocError>
    ensures { OnOk result (Adds out.old out.new (known_fields key)) }
{
    match key {
        Some(key) => push_key(alloc, out, key),
        None => Ok(()),
    }
}

/// Adds the other AVP that a name is in the second dictionary.
fn push_second(
    alloc: Global,
    out: &mut String,
    first: Option<Key>,
    second: Option<Key>,
) -> Result<(), AllocError>
    ensures { OnOk result (Adds out.old out.new (second_field first second)) }
{
    let (Some(key), Some(other)) = (first, second) else {
        return Ok(());
    };
    if key == other {
        return Ok(());
    }
    push_other(alloc, out, other)
}

fn push_other(alloc: Global, out: &mut String, key: Key) -> Result<(), AllocError>
    ensures { OnOk result (Adds out.old out.new ((codes "second", object_of (key_fields key)) ∷ [])) }
{
    let text = key_text(alloc, key)?;
    push_field(alloc, out, "second", text.as_str())
}

/// The object of a code and a vendor.
fn key_text(alloc: Global, key: Key) -> Result<String, AllocError>
    ensures { IfOk result (λ text. string_bytes text ≡ compact_text (object_of (key_fields key))) }
{
    let mut fields = String::new(alloc);
    push_key(alloc, &mut fields, key)?;
    object_text(alloc, fields.as_str())
}

fn push_key(alloc: Global, out: &mut String, key: Key) -> Result<(), AllocError>
    ensures { OnOk result (Adds out.old out.new (key_fields key)) }
{
    push_u32(alloc, out, "code", key.code)?;
    push_u32(alloc, out, "vendor", key.vendor)
}
