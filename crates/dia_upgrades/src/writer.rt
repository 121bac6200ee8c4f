//! What writes the lines of an answer, and what follows them.

ghost use Rattle.std.specs.Prelude.{OnOk};
ghost use Rattle.std.specs.Option.{option_map};
ghost use Rattle.dia_accepted.specs.Accepted.{plain_entry};
ghost use Rattle.dia_breaking.specs.LineParts.{plain_parts};
ghost use Rattle.dia_upgrades.specs.Writing.{Adds, Writing};

use crate::list::BadList;
use crate::reporting::Counts;
use dia_accepted::Entry;
use dia_breaking::LineParts;
use dia_io::Input;
use std::alloc::{AllocError, Global};

/// What writes the lines of an answer, and what follows them.
///
/// Each call adds to a text what is written of one thing. After an error the text may hold a part of it.
pub trait LineWriter {
    // What is written of each.
    ghost writes: { Self → Writing };

    /// Adds a line, with its words, its parts, and the digits of its message, if it has one.
    fn write_line(
        &self,
        alloc: Global,
        text: &mut String,
        words: &str,
        parts: &LineParts<'_>,
        digits: Option<&str>,
    ) -> Result<(), AllocError>
        ensures { OnOk result (Adds text.old text.new ((writes self.now).of_line words.now
            (plain_parts parts.now) (option_map (λ d. d.now) digits.entry))) };

    /// Adds a cause that so many commands have, with the words of its line, and with the parts and the digits of its first line.
    fn write_cause(
        &self,
        alloc: Global,
        text: &mut String,
        commands: usize,
        words: &str,
        parts: &LineParts<'_>,
        digits: Option<&str>,
    ) -> Result<(), AllocError>
        ensures { OnOk result (Adds text.old text.new ((writes self.now).of_cause commands words.now
            (plain_parts parts.now) (option_map (λ d. d.now) digits.entry))) };

    /// Adds that no line is left, of some lines or of none, where meanings are asked for or not.
    fn write_nothing(
        &self,
        alloc: Global,
        text: &mut String,
        meaning: bool,
        is_some: bool,
    ) -> Result<(), AllocError>
        ensures { OnOk result (Adds text.old text.new ((writes self.now).of_nothing meaning is_some)) };

    /// Adds a stale entry of the list of accepted lines.
    fn write_stale(&self, alloc: Global, text: &mut String, entry: &Entry) -> Result<(), AllocError>
        ensures { OnOk result (Adds text.old text.new ((writes self.now).of_stale (plain_entry entry.now))) };

    /// Adds how much there is of all.
    fn write_counts(
        &self,
        alloc: Global,
        text: &mut String,
        counts: Counts,
    ) -> Result<(), AllocError>
        ensures { OnOk result (Adds text.old text.new ((writes self.now).of_counts counts)) };

    /// Adds why the list of accepted lines, this input, is refused.
    fn write_bad_list(
        &self,
        alloc: Global,
        text: &mut String,
        list: &Input,
        bad: BadList,
    ) -> Result<(), AllocError>
        ensures { OnOk result (Adds text.old text.new ((writes self.now).of_bad_list list.now bad)) };

    /// Adds that the first dictionary has no commands.
    fn write_no_commands(&self, alloc: Global, text: &mut String) -> Result<(), AllocError>
        ensures { OnOk result (Adds text.old text.new (writes self.now).of_no_commands) };

    /// Adds a name that is that of no command.
    fn write_no_command(
        &self,
        alloc: Global,
        text: &mut String,
        name: &str,
    ) -> Result<(), AllocError>
        ensures { OnOk result (Adds text.old text.new ((writes self.now).of_no_command name.now)) };
}
