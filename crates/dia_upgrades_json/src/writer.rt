//! An answer as objects, each on a line.

use crate::ending::{bad_list_line, counts_line, no_command_line, no_commands_line, stale_line};
use crate::keys::Names;
use crate::objects::{cause_object, line_object};
use dia_breaking::LineParts;
use dia_io::Input;
use dia_refused_json::text_of;
use dia_upgrades::{BadList, Counts, Entry, LineWriter};
use std::alloc::{AllocError, Global};

impl LineWriter for Names<'_> {
    ghost use Rattle.dia_upgrades_json.specs.Objects.{json_in};

    ghost writes = { λ names. json_in names };

    fn write_line(
        &self,
        alloc: Global,
        text: &mut String,
        words: &str,
        parts: &LineParts<'_>,
        digits: Option<&str>,
    ) -> Result<(), AllocError> {
        let object = line_object(alloc, self, parts, words, digits)?;
        write!(text, "{object}\n")
    }

    fn write_cause(
        &self,
        alloc: Global,
        text: &mut String,
        commands: usize,
        words: &str,
        parts: &LineParts<'_>,
        digits: Option<&str>,
    ) -> Result<(), AllocError> {
        let object = cause_object(alloc, self, commands as u64, parts, words, digits)?;
        write!(text, "{object}\n")
    }

    fn write_nothing(
        &self,
        _alloc: Global,
        _text: &mut String,
        _meaning: bool,
        _is_some: bool,
    ) -> Result<(), AllocError> {
        Ok(())
    }

    fn write_stale(
        &self,
        alloc: Global,
        text: &mut String,
        entry: &Entry,
    ) -> Result<(), AllocError> {
        let object = stale_line(alloc, entry)?;
        text.push_str(object.as_str())
    }

    fn write_counts(
        &self,
        alloc: Global,
        text: &mut String,
        counts: Counts,
    ) -> Result<(), AllocError> {
        let object = counts_line(alloc, counts)?;
        text.push_str(object.as_str())
    }

    fn write_bad_list(
        &self,
        alloc: Global,
        text: &mut String,
        list: &Input,
        bad: BadList,
    ) -> Result<(), AllocError> {
        let object = bad_list_line(alloc, text_of(list), bad)?;
        text.push_str(object.as_str())
    }

    fn write_no_commands(&self, alloc: Global, text: &mut String) -> Result<(), AllocError> {
        let object = no_commands_line(alloc)?;
        text.push_str(object.as_str())
    }

    fn write_no_command(
        &self,
        alloc: Global,
        text: &mut String,
        name: &str,
    ) -> Result<(), AllocError> {
        let object = no_command_line(alloc, name)?;
        text.push_str(object.as_str())
    }
}
