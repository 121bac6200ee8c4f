//! An answer in words.

ghost use Rattle.std.specs.Prelude.{◌≡◌, ◌++◌, OnOk, option_map};
ghost use Rattle.dia_run.specs.Texts.{line};
ghost use Rattle.dia_upgrades.specs.InWords.{nothing_for};
ghost use Rattle.dia_upgrades.specs.Rows.{digits_line};
ghost use Rattle.dia_upgrades.specs.Writing.{Adds};

use crate::list::BadList;
use crate::reporting::Counts;
use crate::writer::LineWriter;
use dia_accepted::Entry;
use dia_breaking::LineParts;
use dia_io::Input;
use std::alloc::{AllocError, Global};

/// Writes words, each line followed by its message on a line of its own, and not how much there is of all.
#[derive(Clone, Copy)]
pub struct InWords;

impl LineWriter for InWords {
    ghost use Rattle.dia_upgrades.specs.InWords.{in_words};

    ghost writes = { λ _. in_words };

    fn write_line(
        &self,
        _alloc: Global,
        text: &mut String,
        words: &str,
        _parts: &LineParts<'_>,
        digits: Option<&str>,
    ) -> Result<(), AllocError> {
        push_line(text, words, digits)
    }

    fn write_cause(
        &self,
        _alloc: Global,
        text: &mut String,
        _commands: usize,
        words: &str,
        _parts: &LineParts<'_>,
        digits: Option<&str>,
    ) -> Result<(), AllocError> {
        push_line(text, words, digits)
    }

    fn write_nothing(
        &self,
        _alloc: Global,
        text: &mut String,
        meaning: bool,
        is_some: bool,
    ) -> Result<(), AllocError> {
        text.push_str(nothing_left(is_some, meaning))
    }

    fn write_stale(
        &self,
        _alloc: Global,
        text: &mut String,
        entry: &Entry,
    ) -> Result<(), AllocError> {
        let words = entry.words.as_str();
        write!(text, "stale: {words}\n")
    }

    fn write_counts(
        &self,
        _alloc: Global,
        _text: &mut String,
        _counts: Counts,
    ) -> Result<(), AllocError> {
        Ok(())
    }

    fn write_bad_list(
        &self,
        _alloc: Global,
        text: &mut String,
        _list: &Input,
        bad: BadList,
    ) -> Result<(), AllocError> {
        write!(text, "accepted: {bad}\n")
    }

    fn write_no_commands(&self, _alloc: Global, text: &mut String) -> Result<(), AllocError> {
        text.push_str("breaking: no command\n")
    }

    fn write_no_command(
        &self,
        _alloc: Global,
        text: &mut String,
        name: &str,
    ) -> Result<(), AllocError> {
        write!(text, "breaking: no command {name}\n")
    }
}

/// Adds the words of a line, and its message, if it has one, on a line of its own.
fn push_line(text: &mut String, words: &str, digits: Option<&str>) -> Result<(), AllocError>
    ensures { OnOk result (Adds text.old text.new (line words.now ++ digits_line (option_map (λ d. d.now) digits.entry))) }
{
    match digits {
        Some(digits) => write!(text, "{words}\n  {digits}\n"),
        None => write!(text, "{words}\n"),
    }
}

fn nothing_left(is_some: bool, meaning: bool) -> &'static str
    ensures { result.now ≡ line (nothing_for meaning is_some) }
{
    match (is_some, meaning) {
        (false, false) => "nothing breaks\n",
        (false, true) => "nothing differs\n",
        (true, false) => "nothing else breaks\n",
        (true, true) => "nothing else differs\n",
    }
}
