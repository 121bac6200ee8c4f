//! What holds of the objects of lines.

ghost use Rattle.std.specs.Prelude.{◌≡◌, List};
ghost use Rattle.std.specs.List.{flat_map};
ghost use Rattle.dia_book.specs.Dictionary.{Dictionary};
ghost use Rattle.dia_upgrades.specs.declared.asked.Asked.{Asked};
ghost use Rattle.dia_upgrades.specs.Rows.{Cause, Row};
ghost use Rattle.dia_upgrades.specs.Recorded.{answer_written, written};
ghost use Rattle.dia_upgrades.specs.Writing.{cause_in, line_in};
ghost use Rattle.dia_upgrades_json.specs.Spots.{PlainTexts};
ghost use Rattle.dia_upgrades_json.specs.declared.keys.Names.{Names};
ghost use Rattle.dia_upgrades_json.specs.Objects.{AreNamesOf, cause_over, json_in, object_over, objects_over};

/// A line over two dictionaries and their texts has one object, and so has a cause, however AVPs and places are looked up.
pub fn objects_are_one()
    ensures line { (a b : Dictionary) (texts : PlainTexts) (names : Names) → AreNamesOf a b texts names
        → (row : Row) → line_in (json_in names) row ≡ object_over a b texts row }
    ensures cause { (a b : Dictionary) (texts : PlainTexts) (names : Names) → AreNamesOf a b texts names
        → (t : Cause) → cause_in (json_in names) t ≡ cause_over a b texts t }
{}

/// So what is written of the lines of an answer, or of the first of them, is one text.
pub fn texts_are_one()
    ensures all { (asked : Asked) (a b : Dictionary) (texts : PlainTexts) (names : Names) → AreNamesOf a b texts names
        → (rows : List Row) → answer_written (json_in names) asked rows ≡ objects_over a b texts asked.once rows }
    ensures first { (a b : Dictionary) (texts : PlainTexts) (names : Names) → AreNamesOf a b texts names
        → (rows : List Row) → written (json_in names) rows ≡ flat_map (object_over a b texts) rows }
{}
