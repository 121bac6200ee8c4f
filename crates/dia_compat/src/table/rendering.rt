//! The text of a table.
ghost use Rattle.std.specs.Prelude.{◌≡◌, ◌≤◌, ◌++◌, ◌∷◌, [], IfOk};
ghost use Rattle.std.specs.Prelude.{OnOk, length, map, string_bytes};
ghost use Rattle.dia_compat.specs.TableText.{plain_table};
ghost use Rattle.dia_compat.specs.TableText.{plain_pair, max_table, IsTable};
ghost use Rattle.dia_compat.specs.WrittenTable.{pair_lines, pair_text, table_text, IsWritable};

use crate::table::Table;
use std::alloc::{AllocError, Global};

/// The text of a table: a line `command A = B` for each pair of commands, and then a line `avp A = B` for each pair of AVPs.
///
/// Where the names are names of a table's text and the table is within the limits, as each table that `parse_table` reads
/// is, `parse_table` reads the same table in this text. `AllocError` comes only where memory was refused.
pub fn render_table(alloc: Global, table: &Table) -> Result<String, AllocError>
    ensures text { IfOk result (λ text. string_bytes text ≡ table_text (plain_table table.now)) }
    ensures read_back { IsWritable (plain_table table.now)
        → IfOk result (λ text. IsTable (string_bytes text) (plain_table table.now)) }
    ensures fits { IsWritable (plain_table table.now)
        → IfOk result (λ text. length (string_bytes text) ≤ max_table) }
{
    let mut text = String::new(alloc);
    push_lines(&mut text, "command", &table.commands)?;
    push_lines(&mut text, "avp", &table.avps)?;
    Ok(text)
}

/// Adds a line for each pair.
fn push_lines(text: &mut String, word: &str, pairs: &[(String, String)]) -> Result<(), AllocError>
    ensures { OnOk result (string_bytes text.new ≡ string_bytes text.old
        ++ pair_lines word.now (map plain_pair pairs.now)) }
{
    for pair in pairs {
        push_line(text, word, pair)?;
    }
    Ok(())
}

fn push_line(text: &mut String, word: &str, pair: &(String, String)) -> Result<(), AllocError>
    ensures { OnOk result (string_bytes text.new ≡ string_bytes text.old
        ++ (pair_text word.now (plain_pair pair.now) ++ 10 ∷ [])) }
{
    let left = pair.0.as_str();
    let right = pair.1.as_str();
    writeln!(text, "{word} {left} = {right}")
}
