//! A table of pairs as text.

ghost use Rattle.std.specs.Prelude.{◌≡◌, ◌≢◌, IfOk, IfErr};
ghost use Rattle.dia_io.specs.declared.Input.{Input as AnyInput};
ghost use Rattle.dia_compat.specs.TableText.{plain_table};
ghost use Rattle.dia_report.specs.Refusals.{table_line, RecordsOf, bad_table_text};
ghost use Rattle.dia_run.specs.Pairs.{IsTableText, IsNoTableText, table_fault_text};
ghost use Rattle.dia_run.specs.Report.{HasFinding};

use dia_compat::{MAX_TABLE, Table, TableFault, parse_table};
use dia_io::Input;
use dia_report::{BadInput, BadTable, Refused};
use std::alloc::Global;

/// The table that an input's text spells. A text that spells none is refused, as standard output reports: too long, no UTF-8,
/// a line that is no pair, or a line past the most pairs.
pub fn read_table(alloc: Global, input: &Input) -> Result<Table, Refused>
    ensures table { IfOk result (λ table. IsTableText input.now (plain_table table)) }
    ensures recorded { IfErr result (RecordsOf (IsNoTableText input.now)) }
    ensures kept { IfErr result (HasFinding input.now) }
{
    let Some(bytes) = input.within(MAX_TABLE) else {
        return Err(deliver(BadTable::TooLong));
    };
    let text = match str::from_utf8(bytes) {
        Ok(text) => text,
        Err(error) => {
            let at = error.valid_up_to();
            return Err(deliver(BadTable::NotText { at }));
        }
    };
    match parse_table(alloc, text) {
        Ok(table) => Ok(table),
        Err(fault) => Err(report_fault(fault)),
    }
}

fn deliver(why: BadTable) -> Refused
    ensures recorded { RecordsOf (λ recorded. recorded ≡ table_line (bad_table_text why)) result }
    ensures bad { result ≡ Refused.Bad (BadInput.Table why) }
{
    Refused::Bad(BadInput::Table(why))
}

/// The refusal of a text with this fault, or out of memory.
fn report_fault(fault: TableFault) -> Refused
    ensures recorded { RecordsOf (λ recorded. (fault ≢ TableFault.NoMemory)
        × (recorded ≡ table_line (table_fault_text fault))) result }
    ensures memory { result ≡ Refused.NoMemory → fault ≡ TableFault.NoMemory }
    ensures kept { (input : AnyInput) → HasFinding input result }
{
    match fault {
        TableFault::Syntax { line } => deliver(BadTable::Syntax { line }),
        TableFault::Limit { line } => deliver(BadTable::Limit { line }),
        TableFault::NoMemory => Refused::NoMemory,
    }
}
