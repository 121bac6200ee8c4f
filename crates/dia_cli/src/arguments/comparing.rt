//! The arguments of `render`, `compare`, `refute` and `propose`.

ghost use Rattle.std.specs.Prelude.{◌≡◌, IfErr, IfOk, IfSome, None, codes, false};
ghost use Rattle.clap.specs.Words.{found_of, rows_of};
ghost use Rattle.dia_cli.specs.Asking.{IsAsked, IsWanting};
ghost use Rattle.dia_cli.specs.FoundTasks.{has_compared, has_refuted};
ghost use Rattle.dia_cli.specs.Words.{has_word};

use crate::arguments::{Asked, Unasked, judged_of, pair_of, unknown_of};
use crate::origin::Origins;
use crate::task::Task;
use crate::values::{
    copies_of, dictionary_of, flag_of, message_of, messages_of, table_of, words_of,
};
use clap::ArgMatches;
use dia_io::Command;
use std::alloc::Global;

/// `render` with the arguments that were found.
pub(super) fn render_of<'a>(found: &ArgMatches<'a>) -> Option<Asked<'a>>
    ensures made { IfSome result
        (λ made. IsAsked made.task made.origins (codes "render", rows_of (found_of found.now))) }
    ensures none { result ≡ None → has_word (codes "D") (rows_of (found_of found.now)) ≡ false }
{
    Some(Asked {
        task: Task::Whole(Command::Render),
        origins: Origins::of_one(dictionary_of(found, "D")?),
    })
}

/// `compare` with the arguments that were found.
pub(super) fn compare_of<'a>(found: &ArgMatches<'a>) -> Option<Asked<'a>>
    ensures made { IfSome result
        (λ made. IsAsked made.task made.origins (codes "compare", rows_of (found_of found.now))) }
    ensures none { result ≡ None → has_compared (rows_of (found_of found.now)) ≡ false }
{
    let unknown = unknown_of(found)?;
    let origins = pair_of(found)?;
    let table = table_of(found, "TABLE")?;
    Some(Asked {
        task: Task::Whole(Command::Compare { unknown }),
        origins: Origins { table, ..origins },
    })
}

/// `refute` with the arguments that were found.
pub(super) fn refute_of<'a>(found: &ArgMatches<'a>) -> Option<Asked<'a>>
    ensures made { IfSome result
        (λ made. IsAsked made.task made.origins (codes "refute", rows_of (found_of found.now))) }
    ensures none { result ≡ None → has_refuted (rows_of (found_of found.now)) ≡ false }
{
    let (unknown, levels) = judged_of(found)?;
    let origins = pair_of(found)?;
    if flag_of(found, "lines")? {
        let messages = messages_of(found, "MESSAGE")?;
        Some(Asked {
            task: Task::RefuteLines { unknown, levels },
            origins: Origins {
                messages,
                ..origins
            },
        })
    } else {
        let message = message_of(found, "MESSAGE")?;
        Some(Asked {
            task: Task::Whole(Command::Refute { unknown, levels }),
            origins: Origins { message, ..origins },
        })
    }
}

/// `propose` with the arguments that were found.
pub(super) fn propose_of<'a>(alloc: Global, found: &ArgMatches<'a>) -> Result<Asked<'a>, Unasked>
    ensures made { IfOk result
        (λ made. IsAsked made.task made.origins (codes "propose", rows_of (found_of found.now))) }
    ensures wanting { IfErr result (IsWanting (codes "propose") (rows_of (found_of found.now))) }
{
    let Some(unknown) = unknown_of(found) else {
        return Err(Unasked::Nothing);
    };
    let Some(origins) = pair_of(found) else {
        return Err(Unasked::Nothing);
    };
    let Some(words) = words_of(found, "COMMAND") else {
        return Err(Unasked::Nothing);
    };
    let names = copies_of(alloc, words)?;
    Ok(Asked {
        task: Task::Whole(Command::Propose { unknown, names }),
        origins,
    })
}
