//! The arguments of `breaking`.

ghost use Rattle.std.specs.Prelude.{◌≡◌, IfErr, IfOk, IfSome, None, Some, codes, false};
ghost use Rattle.clap.specs.Words.{first_of, found_of, rows_of};
ghost use Rattle.dia_cli.specs.Asking.{IsWanting};
ghost use Rattle.dia_cli.specs.Words.{is_sender};
ghost use Rattle.dia_cli.specs.Asking.{IsAsked};
ghost use Rattle.dia_cli.specs.Words.{sends_word};

use crate::arguments::{Asked, Unasked, pair_of, sender_of, unknown_of};
use crate::origin::Origins;
use crate::shown::{Shown, shown_of};
use crate::task::{Breaking, Task};
use crate::values::{names_of, table_of};
use clap::ArgMatches;
use std::alloc::Global;

/// `breaking` with the arguments that were found.
pub(super) fn breaking_of<'a>(alloc: Global, found: &ArgMatches<'a>) -> Result<Asked<'a>, Unasked>
    ensures made { IfOk result
        (λ made. IsAsked made.task made.origins (codes "breaking", rows_of (found_of found.now))) }
    ensures wanting { IfErr result (IsWanting (codes "breaking") (rows_of (found_of found.now))) }
{
    let Some(unknown) = unknown_of(found) else {
        return Err(Unasked::Nothing);
    };
    let Some(origins) = pair_of(found) else {
        return Err(Unasked::Nothing);
    };
    let Some(sends) = sender_of(found) else {
        return Err(Unasked::Nothing);
    };
    let Some(
        Shown {
            messages,
            once,
            meaning,
            stale_allowed,
            explain,
        },
    ) = shown_of(found)
    else {
        return Err(Unasked::Nothing);
    };
    let Some(table) = table_of(found, "accepted") else {
        return Err(Unasked::Nothing);
    };
    let names = names_of(alloc, found)?;
    Ok(Asked {
        task: Task::Breaking(Breaking {
            sends,
            unknown,
            messages,
            once,
            meaning,
            stale_allowed,
            explain,
            names,
        }),
        origins: Origins { table, ..origins },
    })
}
