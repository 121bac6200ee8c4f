use dia_io::Command;
use dia_terms::{Levels, Sends, Unknown};

/// What the command line asks the program to do.
#[derive(Drop)]
pub enum Task {
    /// A command whose inputs are read whole.
    Whole(Command),
    /// Prints the messages that a text writes.
    Make,
    /// Prints the text that `Make` reads as the message.
    ShowText,
    /// Prints a message, an AVP a line, with names of flags, commands and dates.
    ShowNamed,
    /// Prints the message of each line after the line's number, with names or without.
    ShowLines { names: bool },
    /// Prints each way in which messages that A's side sends break under B.
    Breaking(Breaking),
    /// Reports of each line, a message, whether it is valid.
    CheckLines { unknown: Unknown, levels: Levels },
    /// Reports of each line, a message, whether it is valid under the first dictionary and not under the second.
    RefuteLines { unknown: Unknown, levels: Levels },
    /// Reports of each message of a stream of bytes whether it is valid.
    CheckStream { unknown: Unknown, levels: Levels },
    /// Reports every fault of a message.
    CheckAll { unknown: Unknown, levels: Levels },
    /// Prints the answer that reports the first fault of a request.
    Answer(Answering),
    /// Prints it for each line, a request.
    AnswerLines(Answering),
    /// Prints where the ends of a connection depart from RFC 6733.
    Follow(Following),
    /// Prints messages with the data replaced that may identify subscribers or nodes.
    Mask(Masking),
    /// Prints where messages may have AVPs, each a name or `CODE[:VENDOR]`.
    Uses { avps: Vec<String> },
    /// Prints what differs in meaning between two dictionaries.
    Diff { sends: Sends, unknown: Unknown },
    /// Prints what a dictionary says to no effect, and where it departs from RFC 6733.
    Lint(Linting),
    /// Prints test vectors of a dictionary.
    Examples(Sampling),
}

/// Which AVPs `mask` replaces: names with commas, or `@none`.
#[derive(Drop)]
pub struct Masking {
    /// AVPs that stay as they are.
    pub keep: String,
    /// AVPs that are replaced too.
    pub mask: String,
    /// The only AVPs that are replaced.
    pub only: String,
}

/// Which rules `lint` applies: names of rules and of sets with commas, or `@none`.
#[derive(Drop)]
pub struct Linting {
    pub unknown: Unknown,
    pub only: String,
    /// The rules of `only` that aren't applied.
    pub except: String,
}

/// Which test vectors `examples` prints.
#[derive(Drop)]
pub struct Sampling {
    pub unknown: Unknown,
    /// Whether each message is printed as a text that `make` reads.
    pub text: bool,
    /// The commands that are asked for: all where there is none.
    pub names: Vec<String>,
}

/// By what `answer` makes an answer.
#[derive(Drop)]
pub struct Answering {
    pub unknown: Unknown,
    pub levels: Levels,
    /// The Origin-Host of the answer.
    pub host: String,
    /// The Origin-Realm of the answer.
    pub realm: String,
}

/// How `follow` reads a connection.
#[derive(Clone, Copy)]
pub struct Following {
    /// Whether the capture begins in the middle of the connection.
    pub middle: bool,
    /// Whether each message is checked by the dictionary, too.
    pub check: bool,
    pub unknown: Unknown,
    pub levels: Levels,
}

/// What `breaking` prints.
#[derive(Drop)]
pub struct Breaking {
    pub sends: Sends,
    pub unknown: Unknown,
    /// Whether each line is followed by a message that shows it.
    pub messages: bool,
    /// Whether lines of one cause are one line.
    pub once: bool,
    /// Whether AVPs that are read as another format are printed too.
    pub meaning: bool,
    /// Whether the answer is the same where an entry of the list of accepted lines is stale.
    pub stale_allowed: bool,
    /// Whether standard error explains each cause, and not only the first ones.
    pub explain: bool,
    /// The commands of A that are asked for: all where there is none.
    pub names: Vec<String>,
}
