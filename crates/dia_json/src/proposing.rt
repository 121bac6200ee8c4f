//! `propose` as JSON.

ghost use Rattle.std.specs.Prelude.{◌≡◌, ◌++◌, map, IfOk, OnOk, string_bytes};
ghost use Rattle.std.specs.List.{flat_map};
ghost use Rattle.dia_compat.specs.TableText.{plain_pair, plain_table};
ghost use Rattle.dia_refused_json.specs.Members.{json_line};
ghost use Rattle.dia_refused_json.specs.Recording.{HasReport};
ghost use Rattle.dia_json.specs.Reports.{IsProposeReport};
ghost use Rattle.dia_json.specs.Whole.{IsProposeJson, no_command_members, pair_json, table_json};

use dia_check::Unknown;
use dia_compat::{ProposeFault, Table};
use dia_dict::{Book, IndexedBook};
use dia_io::{Exit, Inputs};
use dia_refused_json::{quoted, refuse};
use dia_report::{Answered, BothBooks, Report};
use dia_run::read_dictionary;
use std::alloc::{AllocError, Global};

/// The table for the named commands of the first dictionary.
pub fn propose(
    alloc: Global,
    unknown: Unknown,
    names: &[String],
    inputs: &Inputs,
) -> Result<Answered, AllocError>
    ensures outcome { IfOk result (λ answered. IsProposeJson unknown (map (λ name. string_bytes name) names.now) inputs.now
        (string_bytes answered.text) answered.exit) }
    ensures report { IfOk result (HasReport (IsProposeReport ⟦<IndexedBook as Book>⟧.meaning inputs.now)) }
{
    let first = match read_dictionary(alloc, 1, &inputs.first) {
        Ok(read) => read,
        Err(refused) => return refuse(alloc, &inputs.first, refused),
    };
    let second = match read_dictionary(alloc, 2, &inputs.second) {
        Ok(read) => read,
        Err(refused) => return refuse(alloc, &inputs.second, refused),
    };
    match dia_compat::propose(alloc, &first.book, &second.book, unknown, names) {
        Ok(table) => listed(alloc, &table),
        Err(ProposeFault::UnknownCommand { name }) => {
            no_command(alloc, name.as_str(), BothBooks { first, second })
        }
        Err(ProposeFault::NoMemory) => Err(AllocError),
    }
}

/// The answer of a name that is no command's.
fn no_command(alloc: Global, name: &str, books: BothBooks) -> Result<Answered, AllocError>
    ensures text { IfOk result
        (λ answered. string_bytes answered.text ≡ json_line (no_command_members name.now)) }
    ensures exit { IfOk result (λ answered. answered.exit ≡ Exit.Bad) }
    ensures report { IfOk result (λ answered. answered.report ≡ Report.NoCommand books) }
{
    let name = quoted(alloc, name)?;
    let text = format!(in alloc;
        "{{\"error\":\"propose\",\"kind\":\"no command\",\"name\":{name}}}\n"
    )?;
    Ok(Answered {
        text,
        exit: Exit::Bad,
        report: Report::NoCommand(books),
    })
}

/// The objects of a table.
fn listed(alloc: Global, table: &Table) -> Result<Answered, AllocError>
    ensures text { IfOk result
        (λ answered. string_bytes answered.text ≡ table_json (plain_table table.now)) }
    ensures exit { IfOk result (λ answered. answered.exit ≡ Exit.Yes) }
    ensures report { IfOk result (λ answered. answered.report ≡ Report.Done) }
{
    let mut text = String::new(alloc);
    push_pairs(alloc, &mut text, "command", &table.commands)?;
    push_pairs(alloc, &mut text, "avp", &table.avps)?;
    Ok(Answered {
        text,
        exit: Exit::Yes,
        report: Report::Done,
    })
}

/// Adds an object for each pair.
fn push_pairs(
    alloc: Global,
    text: &mut String,
    kind: &str,
    pairs: &[(String, String)],
) -> Result<(), AllocError>
    ensures { OnOk result (string_bytes text.new ≡ string_bytes text.old
        ++ flat_map (pair_json kind.now) (map plain_pair pairs.now)) }
{
    for pair in pairs {
        push_pair(alloc, text, kind, pair)?;
    }
    Ok(())
}

/// Adds the object of a pair.
fn push_pair(
    alloc: Global,
    text: &mut String,
    kind: &str,
    pair: &(String, String),
) -> Result<(), AllocError>
    ensures { OnOk result (string_bytes text.new
        ≡ string_bytes text.old ++ pair_json kind.now (plain_pair pair.now)) }
{
    let kind = quoted(alloc, kind)?;
    let first = quoted(alloc, pair.0.as_str())?;
    let second = quoted(alloc, pair.1.as_str())?;
    write!(
        text,
        "{{\"kind\":{kind},\"first\":{first},\"second\":{second}}}\n"
    )
}
