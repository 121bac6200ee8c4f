//! The words of the command line.

ghost use Rattle.std.specs.Prelude.{◌≡◌, IfOk, IfSome, IsSomeAnd, Some, codes};
ghost use Rattle.std.specs.Prelude.{◌∷◌, true, Bool, ℕ, IfErr, List, None, Option, false, map};
ghost use Rattle.clap.specs.Walk.{Row, Text};
ghost use Rattle.clap.specs.Words.{app_of, found_of, first_of, rows_of, subcommand_rows_of};
ghost use Rattle.dia_cli.specs.Asking.{IsRefused, IsUnasked, IsUnrun, IsWanting};
ghost use Rattle.dia_cli.specs.FoundTasks.{has_judged};
ghost use Rattle.dia_cli.specs.Words.{has_pair};
ghost use Rattle.dia_cli.specs.FoundTasks.{has_made};
ghost use Rattle.dia_cli.specs.Words.{is_judged, is_sender, sends_word};
ghost use Rattle.dia_cli.specs.Asking.{is_asked};
ghost use Rattle.dia_cli.specs.Words.{is_policy};
ghost use Rattle.dia_cli.specs.Forms.{Form, IsAccepted, form_name, is_plain_form, words_of};
ghost use Rattle.dia_cli.specs.Origins.{reads_twice};
ghost use Rattle.dia_cli.specs.InputWords.{AreFound, one_text, pair_texts};
ghost use Rattle.dia_cli.specs.Request.{read_once};
ghost use Rattle.dia_cli.specs.Asking.{IsAsked, IsAskedBy, IsProgram, IsRequestOf};
ghost use Rattle.dia_cli.specs.Words.{IsPolicy};
ghost use Rattle.dia_cli.specs.Words.{AreJudged};

use crate::apart::Apart;
use crate::arguments::answering::answer_of;
use crate::arguments::breaking::breaking_of;
use crate::arguments::comparing::{compare_of, propose_of, refute_of, render_of};
use crate::arguments::following::follow_of;
use crate::arguments::masking::mask_of;
use crate::arguments::questions::{diff_of, examples_of, lint_of, uses_of};
use crate::arguments::showing::show_of;
use crate::ending::Ending;
use crate::line::{Words, command_line};
use crate::origin::Origins;
use crate::request::Request;
use crate::rows::command_rows;
use crate::task::Task;
use crate::values::{
    dictionary_of, flag_of, is_given, limit_of, message_of, messages_of, policy_of, sends_of,
    table_of, word_of,
};
use clap::ArgMatches;
use clap::error::ErrorKind;
use dia_io::Command;
use dia_terms::{Levels, Sends, Unknown};
use std::alloc::{AllocError, Global};
use std::convert::AsStr;
use thiserror::Error;

mod answering;
mod breaking;
mod comparing;
mod following;
mod masking;
mod questions;
mod showing;

/// The values of `--unknown`, the policies for AVPs that the dictionary doesn't know.
static POLICIES: [&str; 2] = ["kept", "refused"];

/// The values of `--sends`, the senders.
static SENDERS: [&str; 4] = ["any", "known", "filled", "listed"];

/// Reads the words, the program's own name first. `--version` shows this version.
pub fn parse_words<'a, S: AsStr>(
    alloc: Global,
    version: &'a str,
    words: &'a [S],
) -> Result<Request<'a>, Ending<'a>>
    ensures words { IfOk result (λ request. IsAskedBy (map S.text words.entry.now) request) }
    ensures once { IfOk result (λ request. reads_twice request.origins ≡ false) }
    ensures refused { IfErr result (IsRefused (map S.text words.entry.now)) }
    ensures forms { (program : List ℕ) (quiet : Bool) (form : Form)
        → map S.text words.entry.now ≡ program ∷ form_name form ∷ words_of quiet form
        → is_plain_form form ≡ true → IsAccepted quiet form result }
{
    parsed(alloc, version, words)
}

/// What clap makes of the words, and what that asks for.
fn parsed<'a, S: AsStr>(
    alloc: Global,
    version: &'a str,
    words: &'a [S],
) -> Result<Request<'a>, Ending<'a>>
    ensures words { IfOk result (λ request. IsAskedBy (map S.text words.entry.now) request) }
    ensures once { IfOk result (λ request. reads_twice request.origins ≡ false) }
    ensures refused { IfErr result (IsRefused (map S.text words.entry.now)) }
{
    let values = Words {
        version,
        policies: POLICIES.as_slice(),
        senders: SENDERS.as_slice(),
    };
    let rows = command_rows();
    match command_line(alloc, values, rows.as_slice()) {
        Ok(mut line) => {
            let asked = asked_by(alloc, &mut line, words);
            // By a call, as in `with_command`.
            drop(line);
            asked
        }
        Err(error) => Err(Ending::from(error)),
    }
}

/// What the words ask for, by what clap makes of them with this line.
fn asked_by<'a, S: AsStr>(
    alloc: Global,
    line: &mut clap::Command<'a>,
    words: &'a [S],
) -> Result<Request<'a>, Ending<'a>>
    ensures words { IsProgram (app_of line.old)
        → IfOk result (λ request. IsAskedBy (map S.text words.entry.now) request) }
    ensures once { IfOk result (λ request. reads_twice request.origins ≡ false) }
    ensures refused { IsProgram (app_of line.old) → IfErr result (IsRefused (map S.text words.entry.now)) }
{
    let matches = line.try_get_matches_from_mut(words)?;
    requested(alloc, line, &matches)
}

/// What the arguments ask for that clap found.
fn requested<'a>(
    alloc: Global,
    line: &mut clap::Command<'a>,
    matches: &ArgMatches<'a>,
) -> Result<Request<'a>, Ending<'a>>
    ensures words { IfOk result
        (λ request. IsSomeAnd (subcommand_rows_of matches.now) (IsRequestOf request)) }
    ensures once { IfOk result (λ request. reads_twice request.origins ≡ false) }
    ensures unrun { IfErr result (IsUnrun (subcommand_rows_of matches.now)) }
{
    match request_of(alloc, matches) {
        Ok(request) => read_once(request),
        Err(Unasked::Apart(apart)) => Err(Ending::Apart(apart)),
        Err(Unasked::NoMemory) => Err(Ending::NoMemory),
        // Never reached: the command line requires a subcommand, and each subcommand requires its arguments.
        Err(Unasked::Nothing) => Err(refused(
            line,
            ErrorKind::MissingSubcommand,
            "the words ask for nothing",
        )),
    }
}

/// A task, and where its inputs come from.
#[derive(Drop)]
struct Asked<'a> {
    task: Task,
    origins: Origins<'a>,
}

/// Why arguments that clap found are no request.
#[derive(Clone, Copy, Debug, Error)]
enum Unasked {
    /// They are no subcommand with its arguments.
    #[error("no subcommand with its arguments")]
    Nothing,
    /// Two of them don't go together.
    #[error("two options don't go together")]
    Apart(Apart),
    #[error("out of memory")]
    NoMemory,
}

impl From<AllocError> for Unasked {
    ghost use Rattle.std.specs.Prelude.{◌≡◌};
    ghost use Rattle.dia_cli.specs.declared.arguments.Unasked.TheVariants.{NoMemory};

    ghost from_gives = { λ _ fault. fault ≡ NoMemory };

    fn from(_error: AllocError) -> Unasked {
        Unasked::NoMemory
    }
}

/// The ending where clap accepts the words, and they are refused.
fn refused<'a>(line: &mut clap::Command<'a>, kind: ErrorKind, why: &str) -> Ending<'a>
    ensures { (found : Option (Text × List Row)) → is_asked found ≡ false → IsUnrun found result }
{
    match line.error(kind, why) {
        Ok(error) => Ending::from(error),
        Err(error) => Ending::from(error),
    }
}

/// The request, unless it reads standard input twice.
fn read_once(request: Request<'_>) -> Result<Request<'_>, Ending<'_>>
    ensures { result ≡ read_once request.entry }
{
    if request.origins.reads_twice() {
        Err(Ending::ReadTwice)
    } else {
        Ok(request)
    }
}

/// The request of the arguments that clap found.
fn request_of<'a>(alloc: Global, matches: &ArgMatches<'a>) -> Result<Request<'a>, Unasked>
    ensures asked { IfOk result
        (λ request. IsSomeAnd (subcommand_rows_of matches.now) (IsRequestOf request)) }
    ensures unasked { IfErr result (IsUnasked (subcommand_rows_of matches.now)) }
{
    let Some((name, found)) = matches.subcommand() else {
        return Err(Unasked::Nothing);
    };
    let Some(quiet) = flag_of(found, "quiet") else {
        return Err(Unasked::Nothing);
    };
    let json = is_given(found, "json");
    let Asked { task, origins } = task_of(alloc, name, found)?;
    Ok(Request {
        task,
        origins,
        quiet,
        json,
    })
}

/// The task of the command of this name.
fn task_of<'a>(alloc: Global, name: &str, found: &ArgMatches<'a>) -> Result<Asked<'a>, Unasked>
    ensures made { IfOk result
        (λ made. IsAsked made.task made.origins (name.now, rows_of (found_of found.now))) }
    ensures wanting { IfErr result (IsWanting name.now (rows_of (found_of found.now))) }
{
    match name {
        "show" => show_of(found),
        "make" => make_of(found).ok_or(Unasked::Nothing),
        "check" => check_of(found),
        "render" => render_of(found).ok_or(Unasked::Nothing),
        "compare" => compare_of(found).ok_or(Unasked::Nothing),
        "refute" => refute_of(found).ok_or(Unasked::Nothing),
        "propose" => propose_of(alloc, found),
        "breaking" => breaking_of(alloc, found),
        "answer" => answer_of(alloc, found),
        "follow" => follow_of(found).ok_or(Unasked::Nothing),
        "mask" => mask_of(alloc, found),
        "uses" => uses_of(alloc, found),
        "diff" => diff_of(found).ok_or(Unasked::Nothing),
        "lint" => lint_of(alloc, found),
        "examples" => examples_of(alloc, found),
        _ => Err(Unasked::Nothing),
    }
}

/// `make` with the arguments that were found. Its text is the message's input.
fn make_of<'a>(found: &ArgMatches<'a>) -> Option<Asked<'a>>
    ensures made { IfSome result
        (λ made. IsAsked made.task made.origins (codes "make", rows_of (found_of found.now))) }
    ensures none { result ≡ None → has_made (rows_of (found_of found.now)) ≡ false }
{
    let origins = Origins::of_one(dictionary_of(found, "dict")?);
    let message = message_of(found, "TEXT")?;
    let table = table_of(found, "values")?;
    Some(Asked {
        task: Task::Make,
        origins: Origins {
            table,
            message,
            ..origins
        },
    })
}

/// `check` with the arguments that were found.
fn check_of<'a>(found: &ArgMatches<'a>) -> Result<Asked<'a>, Unasked>
    ensures made { IfOk result
        (λ made. IsAsked made.task made.origins (codes "check", rows_of (found_of found.now))) }
    ensures wanting { IfErr result (IsWanting (codes "check") (rows_of (found_of found.now))) }
{
    let Some(lines) = flag_of(found, "lines") else {
        return Err(Unasked::Nothing);
    };
    let Some(stream) = flag_of(found, "stream") else {
        return Err(Unasked::Nothing);
    };
    let Some(all) = flag_of(found, "all") else {
        return Err(Unasked::Nothing);
    };
    let Some(json) = flag_of(found, "json") else {
        return Err(Unasked::Nothing);
    };
    let Some((unknown, levels, origins)) = checked_of(found) else {
        return Err(Unasked::Nothing);
    };
    let Some(message) = message_of(found, "MESSAGE") else {
        return Err(Unasked::Nothing);
    };
    let Some(messages) = messages_of(found, "MESSAGE") else {
        return Err(Unasked::Nothing);
    };
    match (lines, stream, all) {
        (false, false, false) => Ok(Asked {
            task: Task::Whole(Command::Check { unknown, levels }),
            origins: Origins { message, ..origins },
        }),
        (true, false, false) => Ok(Asked {
            task: Task::CheckLines { unknown, levels },
            origins: Origins {
                messages,
                ..origins
            },
        }),
        (false, true, false) => Ok(Asked {
            task: Task::CheckStream { unknown, levels },
            origins: Origins {
                messages,
                ..origins
            },
        }),
        (false, false, true) if json => Err(Unasked::Apart(Apart::AllAndJson)),
        (false, false, true) => Ok(Asked {
            task: Task::CheckAll { unknown, levels },
            origins: Origins { message, ..origins },
        }),
        (true, true, _) => Err(Unasked::Apart(Apart::LinesAndStream)),
        (true, false, true) => Err(Unasked::Apart(Apart::AllAndLines)),
        (false, true, true) => Err(Unasked::Apart(Apart::AllAndStream)),
    }
}

/// The policies of `check`, and where its dictionary comes from.
fn checked_of<'a>(found: &ArgMatches<'a>) -> Option<(Unknown, Levels, Origins<'a>)>
    ensures judged { IfSome result (λ made. AreJudged made.0 made.1 (rows_of (found_of found.now))) }
    ensures found { IfSome result
        (λ made. AreFound (one_text (codes "D")) made.2 (rows_of (found_of found.now))) }
    ensures none { result ≡ None → has_judged (rows_of (found_of found.now)) ≡ false }
{
    let (unknown, levels) = judged_of(found)?;
    let origins = Origins::of_one(dictionary_of(found, "D")?);
    Some((unknown, levels, origins))
}

/// The policies of `check` and `refute`.
fn judged_of(found: &ArgMatches<'_>) -> Option<(Unknown, Levels)>
    ensures made { IfSome result (λ made. AreJudged made.0 made.1 (rows_of (found_of found.now))) }
    ensures none { result ≡ None → is_judged (rows_of (found_of found.now)) ≡ false }
{
    let unknown = unknown_of(found)?;
    let levels = limit_of(word_of(found, "levels"))?;
    Some((unknown, levels))
}

/// The policy for AVPs that the dictionary doesn't know.
fn unknown_of(found: &ArgMatches<'_>) -> Option<Unknown>
    ensures made { IfSome result (λ unknown. IsPolicy unknown (rows_of (found_of found.now))) }
    ensures none { result ≡ None → is_policy (first_of (codes "unknown") (rows_of (found_of found.now))) ≡ false }
{
    policy_of(word_of(found, "unknown")?)
}

/// Where the two dictionaries come from.
fn pair_of<'a>(found: &ArgMatches<'a>) -> Option<Origins<'a>>
    ensures made { IfSome result (λ origins.
        AreFound (pair_texts (codes "A") (codes "B")) origins (rows_of (found_of found.now))) }
    ensures none { result ≡ None → has_pair (rows_of (found_of found.now)) ≡ false }
{
    let first = dictionary_of(found, "A")?;
    Some(Origins::of_pair(first, dictionary_of(found, "B")?))
}

/// What the side of A sends.
fn sender_of(found: &ArgMatches<'_>) -> Option<Sends>
    ensures sends { IfSome result (λ sends.
        first_of (codes "sends") (rows_of (found_of found.now)) ≡ Some (sends_word sends)) }
    ensures none { result ≡ None → is_sender (first_of (codes "sends") (rows_of (found_of found.now))) ≡ false }
{
    sends_of(word_of(found, "sends")?)
}
