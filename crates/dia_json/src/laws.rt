//! The text of an answer is the text of no other.

ghost use Rattle.std.specs.Prelude.{◌≡◌, ◌≤◌, Some};
ghost use Rattle.json.specs.Json.{document, max_depth};
ghost use Rattle.json.specs.Tree.{HasNumbers, depth};
ghost use Rattle.serde_json.specs.Data.{Data};
ghost use Rattle.serde_json.specs.Written.{compact_text, outline};

/// By the grammar of JSON, the text of a value is read as this value: so a text is that of one value.
pub fn text_is_value()
    ensures { (value : Data) → HasNumbers (outline value) → depth (outline value) ≤ max_depth
        → document (compact_text value) ≡ Some (outline value) }
{}
