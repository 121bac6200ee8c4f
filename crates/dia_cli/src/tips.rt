//! Tips about words that clap refuses, where its own tip leads astray: `--dict` belongs to some commands, and the dictionaries of
//! the others are words.

ghost use Rattle.std.specs.Prelude.{◌≡◌, IfSome};
ghost use Rattle.clap.specs.declared.error.kind.ErrorKind.TheVariants.{UnknownArgument};
ghost use Rattle.clap.specs.Words.{kind_of};
ghost use Rattle.dia_cli.specs.Ending.{IsAdvised};

use crate::ending::Ending;
use crate::rows::{CommandRow, Count, DICT_ID, InputRow, command_rows};
use clap::error::ErrorKind;
use std::alloc::{AllocError, Global};

/// An ending, in better words where the words of the process give a dictionary in the way of another command. It stays as it is
/// where memory for them is refused.
pub fn advised<'a>(alloc: Global, words: &[String], ending: Ending<'a>) -> Ending<'a>
    ensures { IsAdvised ending.entry result }
{
    match ending {
        Ending::Recorded(fault) => match better_fault(alloc, words, &fault) {
            Some(better) => Ending::Recorded(better),
            None => Ending::Recorded(fault),
        },
        other => other,
    }
}

/// A fault in other words, if there are better ones.
fn better_fault(alloc: Global, words: &[String], fault: &clap::Error) -> Option<clap::Error>
    ensures same { IfSome result (λ better. kind_of better ≡ kind_of fault.now) }
    ensures kind { IfSome result (λ better. kind_of better ≡ UnknownArgument) }
{
    match fault.kind() {
        ErrorKind::UnknownArgument => unexpected(alloc, command_rows().as_slice(), words),
        _ => None,
    }
}

/// The diagnostic of an argument that isn't expected.
fn unexpected(alloc: Global, rows: &[CommandRow<'_>], words: &[String]) -> Option<clap::Error>
    ensures { IfSome result (λ fault. kind_of fault ≡ UnknownArgument) }
{
    let [_, name, rest @ ..] = words else {
        return None;
    };
    let row = row_of(rows, name.as_str())?;
    if has_dict(row) {
        given(alloc, row, rest)
    } else if is_given_dict(rest) {
        worded(alloc, rows, row)
    } else {
        None
    }
}

/// The row of the command of this name.
fn row_of<'r, 'a>(rows: &'r [CommandRow<'a>], name: &str) -> Option<&'r CommandRow<'a>> {
    for row in rows {
        if row.name == name {
            return Some(row);
        }
    }
    None
}

/// The usage of a command.
fn usage_of(alloc: Global, row: &CommandRow<'_>) -> Result<String, AllocError> {
    let mut usage = format!(in alloc; "diacmd {} [OPTIONS]", row.name)?;
    for input in row.inputs {
        push_input(&mut usage, input)?;
    }
    Ok(usage)
}

/// An input in a usage.
fn push_input(usage: &mut String, input: &InputRow<'_>) -> Result<(), AllocError> {
    let (opened, closed) = match input.count {
        Count::One => (" <", ">"),
        Count::Some => (" <", ">..."),
        Count::Any => (" [", "]..."),
    };
    usage.push_str(opened)?;
    usage.push_str(input.id)?;
    usage.push_str(closed)
}

/// Whether the dictionary of a command is given by `--dict`. The others take their dictionaries as words.
fn has_dict(row: &CommandRow<'_>) -> bool {
    for option in row.options {
        if option.id == DICT_ID {
            return true;
        }
    }
    false
}

/// The names of the commands that have `--dict`, as `show, make and follow`.
fn with_dict(alloc: Global, rows: &[CommandRow<'_>]) -> Result<String, AllocError> {
    let mut names = String::new(alloc);
    let mut left = count_with_dict(rows);
    for row in rows {
        if has_dict(row) {
            left = left.saturating_sub(1);
            push_name(&mut names, row.name, left == 0)?;
        }
    }
    Ok(names)
}

/// How many commands have `--dict`.
fn count_with_dict(rows: &[CommandRow<'_>]) -> usize {
    let mut count = 0usize;
    for row in rows {
        if has_dict(row) {
            count = count.saturating_add(1);
        }
    }
    count
}

/// One more name, the last one or not.
fn push_name(names: &mut String, name: &str, last: bool) -> Result<(), AllocError> {
    if !names.is_empty() {
        names.push_str(if last { " and " } else { ", " })?;
    }
    names.push_str(name)
}

/// Whether one of the words is the option `--dict`.
fn is_given_dict(words: &[String]) -> bool {
    for word in words {
        if word.as_str() == "--dict" || word.as_str().starts_with("--dict=") {
            return true;
        }
    }
    false
}

/// Whether one of the words is an option.
fn is_given_option(words: &[String]) -> bool {
    for word in words {
        if word.as_str().starts_with("--") {
            return true;
        }
    }
    false
}

/// The diagnostic of `show D MESSAGE`, and of `make D TEXT`.
fn given(alloc: Global, row: &CommandRow<'_>, rest: &[String]) -> Option<clap::Error>
    ensures { IfSome result (λ fault. kind_of fault ≡ UnknownArgument) }
{
    if is_given_option(rest) {
        return None;
    }
    let [first, second, ..] = rest else {
        return None;
    };
    let command = row.name;
    let recorded = format!(in alloc;
        "unexpected argument '{second}' found\n\n  tip: the dictionary of {command} is given by --dict, as in \
         {command} --dict {first} {second}"
    );
    fault(alloc, row, recorded)
}

/// The diagnostic of `--dict` for a command whose dictionaries are words.
fn worded(alloc: Global, rows: &[CommandRow<'_>], row: &CommandRow<'_>) -> Option<clap::Error>
    ensures { IfSome result (λ fault. kind_of fault ≡ UnknownArgument) }
{
    fault(alloc, row, only_with_dict(alloc, rows, row.name))
}

/// That only some commands have `--dict`, and not this one.
fn only_with_dict(
    alloc: Global,
    rows: &[CommandRow<'_>],
    command: &str,
) -> Result<String, AllocError> {
    let names = with_dict(alloc, rows)?;
    format!(in alloc;
        "unexpected argument '--dict' found\n\n  tip: only {names} have --dict, and \
         {command} takes each dictionary as a word"
    )
}

/// The fault with this text, and the usage of the command.
fn fault(
    alloc: Global,
    row: &CommandRow<'_>,
    recorded: Result<String, AllocError>,
) -> Option<clap::Error>
    ensures { IfSome result (λ fault. kind_of fault ≡ UnknownArgument) }
{
    let Ok(recorded) = recorded else {
        return None;
    };
    let Ok(usage) = usage_of(alloc, row) else {
        return None;
    };
    fault_of(alloc, recorded.as_str(), usage.as_str())
}

fn fault_of(alloc: Global, recorded: &str, usage: &str) -> Option<clap::Error>
    ensures { IfSome result (λ fault. kind_of fault ≡ UnknownArgument) }
{
    let mut line = clap::Command::new(alloc, "diacmd").override_usage(usage);
    let fault = line.error(ErrorKind::UnknownArgument, recorded);
    // By a call, as in `with_command` of the command line.
    drop(line);
    fault.ok()
}
