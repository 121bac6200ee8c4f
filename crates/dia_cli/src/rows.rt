//! The commands of the program, a row each. The command line is made of them, and so are the usages in tips.

ghost use Rattle.std.specs.Prelude.{◌≡◌, map};
ghost use Rattle.dia_cli.specs.Lines.{command_of};
ghost use Rattle.dia_cli.specs.Rows.{command_rows};

use crate::rows::dictionaries::{
    breaking_row, compare_row, diff_row, examples_row, lint_row, propose_row, refute_row,
    render_row, uses_row,
};
use crate::rows::messages::{answer_row, check_row, follow_row, make_row, mask_row, show_row};

mod dictionaries;
mod messages;
mod options;

pub(crate) use options::DICT_ID;

/// A command: its options and its inputs, in the order of its help.
#[derive(Clone, Copy)]
pub(crate) struct CommandRow<'a> {
    pub name: &'a str,
    pub about: &'a str,
    pub options: &'a [OptionRow<'a>],
    pub inputs: &'a [InputRow<'a>],
}

/// An option `--id`.
#[derive(Clone, Copy)]
pub(crate) struct OptionRow<'a> {
    pub id: &'a str,
    pub value: Value<'a>,
    pub help: &'a str,
}

/// The value that an option takes.
#[derive(Clone, Copy)]
pub(crate) enum Value<'a> {
    Nothing,
    /// A policy for AVPs that the dictionary doesn't know: `kept` is the default.
    Policy,
    /// What the side of A sends, which is `any` without the option.
    Sender,
    /// A word of this name, and its default.
    Word { name: &'a str, default: &'a str },
    /// A number of 32 bits.
    Number,
}

/// An input, which is a word, or the words that are left.
#[derive(Clone, Copy)]
pub(crate) struct InputRow<'a> {
    pub id: &'a str,
    pub count: Count,
    pub help: &'a str,
}

/// How many words an input has.
#[derive(Clone, Copy)]
pub(crate) enum Count {
    One,
    /// One or more.
    Some,
    Any,
}

/// What the statuses of the process mean, of each command in the order of the rows.
pub(crate) const STATUSES: &str = "Status:
  0  done; for make, the messages made; for check, valid; for compare, yes; for refute, refutes; for breaking, nothing breaks; for answer, the answer; for follow, no departure; for mask, each line replaced; for uses, places; for diff, the same; for lint, nothing found; for examples, vectors of each command
  1  for check, not valid; for compare, no; for refute, does not refute; for breaking, something breaks; for answer, no answer; for follow, a departure; for mask, a line that is no message; for uses, no place; for diff, differences; for lint, findings; for examples, a command without vectors; for show, a bad AVP length, or with --lines a line that is no message
  2  bad input, or a bad command line
  3  a file or a device failed, or memory was refused";

/// The commands of the program. Each row has a function of its own, since a proof of all of them together takes longer.
pub(crate) fn command_rows<'a>() -> [CommandRow<'a>; 15]
    ensures { map command_of result ≡ command_rows }
{
    [
        show_row(),
        make_row(),
        check_row(),
        render_row(),
        compare_row(),
        refute_row(),
        propose_row(),
        breaking_row(),
        answer_row(),
        follow_row(),
        mask_row(),
        uses_row(),
        diff_row(),
        lint_row(),
        examples_row(),
    ]
}
