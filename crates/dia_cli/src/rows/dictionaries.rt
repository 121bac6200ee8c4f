//! The commands on dictionaries.

ghost use Rattle.std.specs.Prelude.{◌≡◌};
ghost use Rattle.dia_cli.specs.Lines.{command_of};
ghost use Rattle.dia_cli.specs.Rows.{breaking_row, compare_row, diff_row, examples_row, lint_row};
ghost use Rattle.dia_cli.specs.Rows.{propose_row, refute_row, render_row, uses_row};

use crate::origin::NO_TABLE;
use crate::rows::options::{A, B, D, JSON, LEVELS, QUIET, SENDS, UNKNOWN};
use crate::rows::{CommandRow, Count, InputRow, OptionRow, Value};

const RENDER: CommandRow<'static> = CommandRow {
    name: "render",
    about: "Prints the canonical text of a dictionary",
    options: &[QUIET],
    inputs: &[D],
};

const COMPARE: CommandRow<'static> = CommandRow {
    name: "compare",
    about: "Checks whether a table of pairs shows that what is valid for A is valid for B",
    options: &[QUIET, UNKNOWN, JSON],
    inputs: &[
        A,
        B,
        InputRow {
            id: "TABLE",
            count: Count::One,
            help: "A table of pairs of names: a file, @none, or - for standard input",
        },
    ],
};

const REFUTE: CommandRow<'static> = CommandRow {
    name: "refute",
    about: "Checks whether a message is valid for A and not for B",
    options: &[
        QUIET,
        UNKNOWN,
        LEVELS,
        OptionRow {
            id: "lines",
            value: Value::Nothing,
            help: "Checks each line, which is a message",
        },
        JSON,
    ],
    inputs: &[
        A,
        B,
        InputRow {
            id: "MESSAGE",
            count: Count::One,
            help: "A file of hexadecimal text, white space ignored; with --lines, of a message a line; - for standard input",
        },
    ],
};

const PROPOSE: CommandRow<'static> = CommandRow {
    name: "propose",
    about: "Prints the least table of pairs for commands of A",
    options: &[QUIET, UNKNOWN, JSON],
    inputs: &[
        A,
        B,
        InputRow {
            id: "COMMAND",
            count: Count::Some,
            help: "The name of a command of A",
        },
    ],
};

const BREAKING: CommandRow<'static> = CommandRow {
    name: "breaking",
    about: "Prints each way in which messages that are valid for A aren't valid for B",
    options: &[
        QUIET,
        UNKNOWN,
        SENDS,
        OptionRow {
            id: "messages",
            value: Value::Nothing,
            help: "Prints after each line a message that shows it, as hexadecimal text",
        },
        OptionRow {
            id: "once",
            value: Value::Nothing,
            help: "Prints one line a cause, with the number of commands that have it, and the first place",
        },
        OptionRow {
            id: "meaning",
            value: Value::Nothing,
            help: "Prints too which AVPs are read as another format",
        },
        OptionRow {
            id: "accepted",
            value: Value::Word {
                name: "FILE",
                default: NO_TABLE,
            },
            help: "Lines that are known, as this command prints them, which aren't printed: a file, @none, or - for standard input",
        },
        OptionRow {
            id: "stale-allowed",
            value: Value::Nothing,
            help: "Doesn't fail where a line of --accepted accepts nothing any more",
        },
        OptionRow {
            id: "explain",
            value: Value::Nothing,
            help: "Explains every cause on standard error, not only the first 20",
        },
        JSON,
    ],
    inputs: &[
        A,
        B,
        InputRow {
            id: "COMMAND",
            count: Count::Any,
            help: "The name of a command of A; without any, all of A",
        },
    ],
};

const USES: CommandRow<'static> = CommandRow {
    name: "uses",
    about: "Prints where the messages of a dictionary may have an AVP",
    options: &[QUIET, JSON],
    inputs: &[
        D,
        InputRow {
            id: "AVP",
            count: Count::Some,
            help: "The name of an AVP, or CODE or CODE:VENDOR",
        },
    ],
};

const DIFF: CommandRow<'static> = CommandRow {
    name: "diff",
    about: "Prints what differs in meaning between two dictionaries, and what of it breaks messages",
    options: &[QUIET, UNKNOWN, SENDS, JSON],
    inputs: &[A, B],
};

const LINT: CommandRow<'static> = CommandRow {
    name: "lint",
    about: "Prints what a dictionary says to no effect, and where it departs from RFC 6733",
    options: &[
        QUIET,
        UNKNOWN,
        OptionRow {
            id: "only",
            value: Value::Word {
                name: "RULES",
                default: "exact,guidelines",
            },
            help: "The rules that are applied, with commas: their names, and exact, guidelines, and more",
        },
        OptionRow {
            id: "except",
            value: Value::Word {
                name: "RULES",
                default: NO_TABLE,
            },
            help: "The rules of them that aren't applied",
        },
        OptionRow {
            id: "accepted",
            value: Value::Word {
                name: "FILE",
                default: NO_TABLE,
            },
            help: "Lines that are known, as this command prints them, which aren't printed: a file, @none, or - for standard input",
        },
        JSON,
    ],
    inputs: &[D],
};

const EXAMPLES: CommandRow<'static> = CommandRow {
    name: "examples",
    about: "Prints test vectors of a dictionary: valid messages and faulty ones, each with its verdict",
    options: &[
        QUIET,
        UNKNOWN,
        OptionRow {
            id: "text",
            value: Value::Nothing,
            help: "Prints each message as a text that make reads",
        },
        JSON,
    ],
    inputs: &[
        D,
        InputRow {
            id: "COMMAND",
            count: Count::Any,
            help: "The name of a command; without any, all of D",
        },
    ],
};

pub(crate) fn render_row<'a>() -> CommandRow<'a>
    ensures { command_of result ≡ render_row }
{
    RENDER
}

pub(crate) fn compare_row<'a>() -> CommandRow<'a>
    ensures { command_of result ≡ compare_row }
{
    COMPARE
}

pub(crate) fn refute_row<'a>() -> CommandRow<'a>
    ensures { command_of result ≡ refute_row }
{
    REFUTE
}

pub(crate) fn propose_row<'a>() -> CommandRow<'a>
    ensures { command_of result ≡ propose_row }
{
    PROPOSE
}

pub(crate) fn breaking_row<'a>() -> CommandRow<'a>
    ensures { command_of result ≡ breaking_row }
{
    BREAKING
}

pub(crate) fn uses_row<'a>() -> CommandRow<'a>
    ensures { command_of result ≡ uses_row }
{
    USES
}

pub(crate) fn diff_row<'a>() -> CommandRow<'a>
    ensures { command_of result ≡ diff_row }
{
    DIFF
}

pub(crate) fn lint_row<'a>() -> CommandRow<'a>
    ensures { command_of result ≡ lint_row }
{
    LINT
}

pub(crate) fn examples_row<'a>() -> CommandRow<'a>
    ensures { command_of result ≡ examples_row }
{
    EXAMPLES
}
