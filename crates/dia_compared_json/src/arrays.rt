//! Numbers that may be missing, and arrays.

ghost use Rattle.std.specs.Prelude.{◌≡◌, ◌++◌, ◌==◌, IfOk, List, None, OnOk, string_bytes};
ghost use Rattle.std.specs.List.{after_first, flat_map};
ghost use Rattle.serde_json.specs.Data.{Data, array};
ghost use Rattle.serde_json.specs.Written.{compact_text};
ghost use Rattle.dia_compared_json.specs.Objects.{element, items_of, number_or_null};

use std::alloc::{AllocError, Global};

pub fn null_text(alloc: Global) -> Result<String, AllocError>
    ensures { IfOk result (λ text. string_bytes text ≡ compact_text (number_or_null None)) }
{
    String::from_str(alloc, "null")
}

pub fn number_or_null(alloc: Global, number: Option<u32>) -> Result<String, AllocError>
    ensures { IfOk result (λ text. string_bytes text ≡ compact_text (number_or_null number)) }
{
    match number {
        Some(number) => format!(in alloc; "{number}"),
        None => null_text(alloc),
    }
}

/// Adds an element of an array, with the comma before it.
pub fn push_element(elements: &mut String, value: &str) -> Result<(), AllocError>
    ensures { OnOk result ((recorded : Data) → value.now ≡ compact_text recorded
        → string_bytes elements.new ≡ string_bytes elements.old ++ element recorded) }
{
    write!(elements, ",{value}")
}

/// The array of elements, each of which has the comma before it.
pub fn array_text(alloc: Global, elements: &str) -> Result<String, AllocError>
    ensures { IfOk result (λ text. (values : List Data) → elements.now ≡ flat_map element values
        → string_bytes text ≡ compact_text (array (items_of values))) }
{
    let listed = after_comma(elements);
    format!(in alloc; "[{listed}]")
}

fn after_comma(text: &str) -> &str
    ensures { result.now ≡ after_first (λ c. c == 44) text.now }
{
    match text.split_once(',') {
        Some((_, following)) => following,
        None => "",
    }
}
