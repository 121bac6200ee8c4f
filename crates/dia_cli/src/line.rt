//! The command line, made of the rows of the commands.

ghost use Rattle.std.specs.Prelude.{◌≡◌, IfOk, false, map};
ghost use Rattle.clap.specs.Words.{app_of, rule_of, with_subcommand};
ghost use Rattle.dia_cli.specs.Lines.{IsLine, command_of, input_of, option_of, program_app};
ghost use Rattle.dia_cli.specs.Lines.{has_globals};
ghost use Rattle.dia_cli.specs.Rows.{input_rule, option_rule, row_shape, with_commands, with_inputs, with_options};

use crate::rows::{CommandRow, Count, InputRow, OptionRow, STATUSES, Value};
use clap::builder::ValueParser;
use clap::{Arg, ArgAction};
use std::alloc::{AllocError, Global};

/// The values of options, and the version.
#[derive(Clone, Copy)]
pub(crate) struct Words<'a> {
    pub version: &'a str,
    /// The values of `--unknown`: the names of policies for unknown AVPs.
    pub policies: &'a [&'a str],
    /// The values of `--sends`: the names of senders.
    pub senders: &'a [&'a str],
}

/// The command line of these commands, of which one is required.
pub(crate) fn command_line<'a>(
    alloc: Global,
    words: Words<'a>,
    rows: &[CommandRow<'a>],
) -> Result<clap::Command<'a>, AllocError>
    ensures { IfOk result (λ line. app_of line
        ≡ with_commands words.entry.policies words.entry.senders program_app (map command_of rows.now)) }
{
    let mut line = program(alloc, words.version);
    for row in rows {
        line = with_command(alloc, words, line, row)?;
    }
    Ok(line)
}

/// A line with this command too.
fn with_command<'a>(
    alloc: Global,
    words: Words<'a>,
    line: clap::Command<'a>,
    row: &CommandRow<'a>,
) -> Result<clap::Command<'a>, AllocError>
    ensures { IfOk result (λ all. app_of all ≡ with_subcommand (app_of line.entry)
        (row_shape words.entry.policies words.entry.senders (command_of row.now))) }
{
    match row.line(alloc, words) {
        Ok(command) => line.subcommand(command),
        Err(error) => {
            // By a call: where a line goes out of scope by itself, its parts are dropped one by one, each with a proof.
            drop(line);
            Err(error)
        }
    }
}

/// The command line without its commands.
fn program<'a>(alloc: Global, version: &'a str) -> clap::Command<'a>
    ensures { app_of result ≡ program_app }
{
    clap::Command::new(alloc, "diacmd")
        .about("A workbench for Diameter (RFC 6733) dictionaries and messages")
        .version(version)
        .after_help(STATUSES)
        .subcommand_required(true)
}

impl<'a> CommandRow<'a> {
    /// The line of the command.
    fn line(&self, alloc: Global, words: Words<'a>) -> Result<clap::Command<'a>, AllocError>
        ensures { IfOk result (IsLine (row_shape words.entry.policies words.entry.senders (command_of self.now))) }
    {
        let line = clap::Command::new(alloc, self.name).about(self.about);
        match with_options(alloc, words, line, self.options) {
            Ok(line) => with_inputs(alloc, line, self.inputs),
            Err(error) => Err(error),
        }
    }
}

/// A line with these options too.
fn with_options<'a>(
    alloc: Global,
    words: Words<'a>,
    line: clap::Command<'a>,
    rows: &'a [OptionRow<'a>],
) -> Result<clap::Command<'a>, AllocError>
    ensures app { IfOk result (λ all. app_of all
        ≡ with_options words.entry.policies words.entry.senders (app_of line.entry) (map option_of rows.now)) }
    ensures globals { IfOk result (λ all. has_globals all ≡ has_globals line.entry) }
{
    let mut line = line;
    for row in rows {
        line = line.arg(row.arg(alloc, words))?;
    }
    Ok(line)
}

/// A line with these inputs too.
fn with_inputs<'a>(
    alloc: Global,
    line: clap::Command<'a>,
    rows: &'a [InputRow<'a>],
) -> Result<clap::Command<'a>, AllocError>
    ensures app { IfOk result (λ all. app_of all ≡ with_inputs (app_of line.entry) (map input_of rows.now)) }
    ensures globals { IfOk result (λ all. has_globals all ≡ has_globals line.entry) }
{
    let mut line = line;
    for row in rows {
        line = line.arg(row.arg(alloc))?;
    }
    Ok(line)
}

impl<'a> OptionRow<'a> {
    fn arg(&self, alloc: Global, words: Words<'a>) -> Arg<'a>
        ensures rule { rule_of result ≡ option_rule words.entry.policies words.entry.senders (option_of self.now) }
        ensures local { result.global ≡ false }
    {
        let arg = Arg::new(alloc, self.id).long(self.id).help(self.help);
        match self.value {
            Value::Nothing => arg.action(ArgAction::SetTrue),
            Value::Policy => arg
                .value_name("POLICY")
                .default_value("kept")
                .value_parser(words.policies),
            Value::Sender => arg
                .value_name("SENDS")
                .default_value("any")
                .value_parser(words.senders),
            Value::Word { name, default } => arg.value_name(name).default_value(default),
            Value::Number => arg
                .value_name("N")
                .value_parser(ValueParser::unsigned(0, 4_294_967_295)),
        }
    }
}

impl<'a> InputRow<'a> {
    fn arg(&self, alloc: Global) -> Arg<'a>
        ensures rule { rule_of result ≡ input_rule (input_of self.now) }
        ensures local { result.global ≡ false }
    {
        let arg = Arg::new(alloc, self.id).help(self.help);
        match self.count {
            Count::One => arg.required(true),
            Count::Some => arg.required(true).num_args(1..),
            Count::Any => arg.num_args(1..),
        }
    }
}
