//! Options and inputs that several commands have.

use crate::origin::{BASE_DICTIONARY, NO_TABLE};
use crate::rows::{Count, InputRow, OptionRow, Value};

pub(super) const QUIET: OptionRow<'static> = OptionRow {
    id: "quiet",
    value: Value::Nothing,
    help: "Prints no notes on standard error",
};

pub(super) const UNKNOWN: OptionRow<'static> = OptionRow {
    id: "unknown",
    value: Value::Policy,
    help: "Whether an AVP that isn't in the dictionary, with its M flag clear, is accepted or refused",
};

pub(super) const LEVELS: OptionRow<'static> = OptionRow {
    id: "levels",
    value: Value::Number,
    help: "How many levels of Grouped AVPs may be nested; without it, any number",
};

pub(super) const SENDS: OptionRow<'static> = OptionRow {
    id: "sends",
    value: Value::Sender,
    help: "Which AVPs the side of A sends by a wildcard: any, those that A knows, these only where no other rule allows any, or none",
};

pub(super) const JSON: OptionRow<'static> = OptionRow {
    id: "json",
    value: Value::Nothing,
    help: "Prints each answer as a JSON object, a line each",
};

/// The option that gives the dictionary of a command.
pub(crate) const DICT_ID: &str = "dict";

pub(super) const DICT: OptionRow<'static> = OptionRow {
    id: DICT_ID,
    value: Value::Word {
        name: "D",
        default: BASE_DICTIONARY,
    },
    help: "The dictionary that names the AVPs: a file, @base, @none, or - for standard input",
};

pub(super) const VALUES: OptionRow<'static> = OptionRow {
    id: "values",
    value: Value::Word {
        name: "FILE",
        default: NO_TABLE,
    },
    help: "The words of numbers, as lines AVP-NAME NUMBER WORD: a file, @none, or - for standard input",
};

pub(super) const D: InputRow<'static> = InputRow {
    id: "D",
    count: Count::One,
    help: "A dictionary text: a file, @base, @none, or - for standard input",
};

pub(super) const A: InputRow<'static> = InputRow {
    id: "A",
    count: Count::One,
    help: "The first dictionary text: a file, @base, @none, or - for standard input",
};

pub(super) const B: InputRow<'static> = InputRow {
    id: "B",
    count: Count::One,
    help: "The second dictionary text: a file, @base, @none, or - for standard input",
};
