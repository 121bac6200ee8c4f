//! `propose`: the least table of pairs for some commands of the first dictionary.

ghost use Rattle.std.specs.Prelude.{◌≡◌, map, IfOk, string_bytes};
ghost use Rattle.dia_compat.specs.WrittenTable.{table_text};
ghost use Rattle.dia_compat.specs.TableText.{plain_table};
ghost use Rattle.dia_run.specs.Kinds.{IsOfPropose, Reports};
ghost use Rattle.dia_run.specs.Outcome.{IsProposeOutcome, no_command_line};
ghost use Rattle.dia_run.specs.Report.{Answers, HasReport};
ghost use Rattle.dia_run.specs.Texts.{line};

use crate::inputs::dictionary::read_dictionary;
use dia_check::Unknown;
use dia_compat::{ProposeFault, Table, render_table};
use dia_dict::{Book, IndexedBook};
use dia_io::{Exit, Inputs};
use dia_report::{Answered, BothBooks, Refused, Report};
use std::alloc::{AllocError, Global};

/// The table for the named commands of the first dictionary.
pub fn propose(
    alloc: Global,
    unknown: Unknown,
    names: &[String],
    inputs: &Inputs,
) -> Result<Answered, Refused>
    ensures outcome { Answers (IsProposeOutcome unknown
        (map (λ name. string_bytes name) names.now) inputs.now) result }
    ensures report { IfOk result (HasReport ⟦<IndexedBook as Book>⟧.meaning inputs.now) }
    ensures kind { IfOk result (Reports IsOfPropose) }
{
    let first = read_dictionary(alloc, 1, &inputs.first)?;
    let second = read_dictionary(alloc, 2, &inputs.second)?;
    match dia_compat::propose(alloc, &first.book, &second.book, unknown, names) {
        Ok(table) => {
            let answered = listed(alloc, &table)?;
            Ok(answered)
        }
        Err(ProposeFault::UnknownCommand { name }) => {
            let books = BothBooks { first, second };
            let answered = no_command(alloc, name.as_str(), books)?;
            Ok(answered)
        }
        Err(ProposeFault::NoMemory) => Err(Refused::NoMemory),
    }
}

/// The answer of a name that is no command's.
fn no_command(alloc: Global, name: &str, books: BothBooks) -> Result<Answered, AllocError>
    ensures text { IfOk result
        (λ answered. string_bytes answered.text ≡ line (no_command_line name.now)) }
    ensures exit { IfOk result (λ answered. answered.exit ≡ Exit.Bad) }
    ensures report { IfOk result (λ answered. answered.report ≡ Report.NoCommand books) }
{
    let text = format!(in alloc; "propose: no command {name}\n")?;
    let exit = Exit::Bad;
    let report = Report::NoCommand(books);
    Ok(Answered { text, exit, report })
}

/// The text of a table.
fn listed(alloc: Global, table: &Table) -> Result<Answered, AllocError>
    ensures text { IfOk result
        (λ answered. string_bytes answered.text ≡ table_text (plain_table table.now)) }
    ensures exit { IfOk result (λ answered. answered.exit ≡ Exit.Yes) }
    ensures report { IfOk result (λ answered. answered.report ≡ Report.Done) }
{
    let text = render_table(alloc, table)?;
    let exit = Exit::Yes;
    let report = Report::Done;
    Ok(Answered { text, exit, report })
}
