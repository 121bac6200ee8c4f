//! The commands on messages.

ghost use Rattle.std.specs.Prelude.{◌≡◌};
ghost use Rattle.dia_cli.specs.Lines.{command_of};
ghost use Rattle.dia_cli.specs.Rows.{answer_row, check_row, follow_row, make_row, mask_row, show_row};

use crate::origin::NO_TABLE;
use crate::rows::options::{D, DICT, JSON, LEVELS, QUIET, UNKNOWN, VALUES};
use crate::rows::{CommandRow, Count, InputRow, OptionRow, Value};

const SHOW: CommandRow<'static> = CommandRow {
    name: "show",
    about: "Prints a message: its header, and a line for each AVP",
    options: &[
        QUIET,
        DICT,
        OptionRow {
            id: "as-text",
            value: Value::Nothing,
            help: "Prints the message as a text that make reads",
        },
        OptionRow {
            id: "names",
            value: Value::Nothing,
            help: "Prints flags as letters, the name of the command, dates, and texts as texts, with levels indented",
        },
        VALUES,
        OptionRow {
            id: "lines",
            value: Value::Nothing,
            help: "Prints the message of each line, after the number of the line",
        },
        JSON,
    ],
    inputs: &[InputRow {
        id: "MESSAGE",
        count: Count::One,
        help: "A file of hexadecimal text, white space ignored; with --lines, of a message a line; - for standard input",
    }],
};

const MAKE: CommandRow<'static> = CommandRow {
    name: "make",
    about: "Prints the messages that a text writes, a line of hexadecimal text each",
    options: &[QUIET, DICT, VALUES],
    inputs: &[InputRow {
        id: "TEXT",
        count: Count::One,
        help: "A file of messages as show --as-text prints them; - for standard input",
    }],
};

const CHECK: CommandRow<'static> = CommandRow {
    name: "check",
    about: "Checks whether a message is valid for a dictionary, and prints its first fault",
    options: &[
        QUIET,
        UNKNOWN,
        LEVELS,
        OptionRow {
            id: "lines",
            value: Value::Nothing,
            help: "Checks each line, which is a message",
        },
        OptionRow {
            id: "stream",
            value: Value::Nothing,
            help: "Checks each message of a stream, and prints its offset too",
        },
        OptionRow {
            id: "all",
            value: Value::Nothing,
            help: "Prints every fault of the message, a line each, in the order of the check",
        },
        JSON,
    ],
    inputs: &[
        D,
        InputRow {
            id: "MESSAGE",
            count: Count::One,
            help: "A file of hexadecimal text, white space ignored; with --lines, of a message a line; with --stream, of messages back to back; - for standard input",
        },
    ],
};

const ANSWER: CommandRow<'static> = CommandRow {
    name: "answer",
    about: "Prints the answer that reports the first fault of a request",
    options: &[
        QUIET,
        UNKNOWN,
        LEVELS,
        OptionRow {
            id: "host",
            value: Value::Word {
                name: "HOST",
                default: "host.invalid",
            },
            help: "The Origin-Host of the answer",
        },
        OptionRow {
            id: "realm",
            value: Value::Word {
                name: "REALM",
                default: "invalid",
            },
            help: "The Origin-Realm of the answer",
        },
        OptionRow {
            id: "lines",
            value: Value::Nothing,
            help: "Answers each line, which is a request",
        },
    ],
    inputs: &[
        D,
        InputRow {
            id: "MESSAGE",
            count: Count::One,
            help: "A file of hexadecimal text, white space ignored; with --lines, of a request a line; - for standard input",
        },
    ],
};

const FOLLOW: CommandRow<'static> = CommandRow {
    name: "follow",
    about: "Prints where the ends of a captured connection depart from RFC 6733",
    options: &[
        QUIET,
        DICT,
        OptionRow {
            id: "middle",
            value: Value::Nothing,
            help: "The capture begins in the middle of the connection",
        },
        OptionRow {
            id: "check",
            value: Value::Nothing,
            help: "Checks each message by the dictionary, too",
        },
        UNKNOWN,
        LEVELS,
        JSON,
    ],
    inputs: &[InputRow {
        id: "CONNECTION",
        count: Count::One,
        help: "A file of messages, lines END [TIME] HEX, with > or < for END; - for standard input",
    }],
};

const MASK: CommandRow<'static> = CommandRow {
    name: "mask",
    about: "Prints the message of each line with the data replaced that may identify subscribers or nodes",
    options: &[
        QUIET,
        OptionRow {
            id: "keep",
            value: Value::Word {
                name: "AVPS",
                default: NO_TABLE,
            },
            help: "The names of AVPs whose data isn't replaced, with commas; AVP for those that aren't in the dictionary",
        },
        OptionRow {
            id: "mask",
            value: Value::Word {
                name: "AVPS",
                default: NO_TABLE,
            },
            help: "The names of AVPs whose data is replaced too",
        },
        OptionRow {
            id: "only",
            value: Value::Word {
                name: "AVPS",
                default: NO_TABLE,
            },
            help: "The names of the only AVPs whose data is replaced",
        },
        JSON,
    ],
    inputs: &[
        D,
        InputRow {
            id: "MESSAGES",
            count: Count::One,
            help: "A file of messages, a line of hexadecimal text each; - for standard input",
        },
    ],
};

pub(crate) fn show_row<'a>() -> CommandRow<'a>
    ensures { command_of result ≡ show_row }
{
    SHOW
}

pub(crate) fn make_row<'a>() -> CommandRow<'a>
    ensures { command_of result ≡ make_row }
{
    MAKE
}

pub(crate) fn check_row<'a>() -> CommandRow<'a>
    ensures { command_of result ≡ check_row }
{
    CHECK
}

pub(crate) fn answer_row<'a>() -> CommandRow<'a>
    ensures { command_of result ≡ answer_row }
{
    ANSWER
}

pub(crate) fn follow_row<'a>() -> CommandRow<'a>
    ensures { command_of result ≡ follow_row }
{
    FOLLOW
}

pub(crate) fn mask_row<'a>() -> CommandRow<'a>
    ensures { command_of result ≡ mask_row }
{
    MASK
}
