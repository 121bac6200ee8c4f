//! What was written, in words for standard error.

use dia_examples::NoVectors;
use std::alloc::{AllocError, Global};

/// The most commands without vectors that are named.
const NAMED: usize = 20;

/// What was written.
#[derive(Drop)]
pub(crate) struct Tally {
    pub commands: usize,
    pub vectors: u64,
    pub valid: u64,
    /// How many vectors are longer than any that is written.
    pub long: u64,
    /// The first of them.
    first_long: Option<String>,
    /// The commands without vectors, one a line.
    without: String,
    /// How many these are.
    pub empty: usize,
}

impl Tally {
    pub(crate) fn new(alloc: Global, commands: usize) -> Tally {
        Tally {
            commands,
            vectors: 0,
            valid: 0,
            long: 0,
            first_long: None,
            without: String::new(alloc),
            empty: 0,
        }
    }

    /// Counts a vector.
    pub(crate) fn count(&mut self, is_valid: bool) {
        self.vectors = self.vectors.saturating_add(1);
        if is_valid {
            self.valid = self.valid.saturating_add(1);
        }
    }

    /// Counts a vector that isn't written.
    pub(crate) fn leave_out(&mut self) {
        self.long = self.long.saturating_add(1);
    }

    /// Whether no vector is left out yet.
    pub(crate) fn has_all(&self) -> bool {
        self.long == 0
    }

    /// Records the first vector that isn't written.
    pub(crate) fn record_first(&mut self, words: String) {
        self.first_long = Some(words);
    }

    /// Records a command without vectors.
    pub(crate) fn record_empty(&mut self, name: &str, why: NoVectors) -> Result<(), AllocError> {
        self.empty = self.empty.saturating_add(1);
        if self.empty > NAMED {
            return Ok(());
        }
        let why = match why {
            NoVectors::NoMessage => "no valid message",
            NoVectors::TooLong => "no plain message of at most 4,096 bytes",
        };
        write!(self.without, "{name}: {why}\n")
    }

    /// The whole text.
    pub(crate) fn text(&self, alloc: Global) -> Result<String, AllocError> {
        let vectors = self.vectors;
        let valid = self.valid;
        let commands = self.commands;
        let vector = plural(vectors == 1, "vector", "vectors");
        let command = plural(commands == 1, "command", "commands");
        let mut text = format!(in alloc;
            "{vectors} {vector} of {commands} {command}, {valid} of them valid\n"
        )?;
        if let Some(first) = &self.first_long {
            let long = self.long;
            let vector = plural(long == 1, "vector", "vectors");
            write!(
                text,
                "{long} {vector} of more than 4,096 bytes left out, first {first}\n"
            )?;
        }
        text.push_str(&self.without)?;
        Ok(text)
    }
}

fn plural(is_one: bool, one: &'static str, more: &'static str) -> &'static str {
    if is_one { one } else { more }
}
