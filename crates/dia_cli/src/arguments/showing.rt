//! The arguments of `show`.

ghost use Rattle.std.specs.Prelude.{IfErr, IfOk, codes};
ghost use Rattle.clap.specs.Words.{found_of, rows_of};
ghost use Rattle.dia_cli.specs.Asking.{IsWanting};
ghost use Rattle.dia_cli.specs.Asking.{IsAsked};

use crate::arguments::{Asked, Unasked};
use crate::origin::Origins;
use crate::shown::apart_in;
use crate::task::Task;
use crate::values::{dictionary_of, is_given, message_of, messages_of, table_of};
use clap::ArgMatches;
use dia_io::Command;

/// `show` with the arguments that were found.
pub(super) fn show_of<'a>(found: &ArgMatches<'a>) -> Result<Asked<'a>, Unasked>
    ensures made { IfOk result
        (λ made. IsAsked made.task made.origins (codes "show", rows_of (found_of found.now))) }
    ensures wanting { IfErr result (IsWanting (codes "show") (rows_of (found_of found.now))) }
{
    let Some(dictionary) = dictionary_of(found, "dict") else {
        return Err(Unasked::Nothing);
    };
    let origins = Origins::of_one(dictionary);
    let Some(message) = message_of(found, "MESSAGE") else {
        return Err(Unasked::Nothing);
    };
    let Some(messages) = messages_of(found, "MESSAGE") else {
        return Err(Unasked::Nothing);
    };
    let Some(table) = table_of(found, "values") else {
        return Err(Unasked::Nothing);
    };
    if let Some(apart) = apart_in(found) {
        return Err(Unasked::Apart(apart));
    }
    if is_given(found, "as-text") {
        return Ok(Asked {
            task: Task::ShowText,
            origins: Origins { message, ..origins },
        });
    }
    let names = is_given(found, "names");
    let origins = Origins { table, ..origins };
    if is_given(found, "lines") {
        return Ok(Asked {
            task: Task::ShowLines { names },
            origins: Origins {
                messages,
                ..origins
            },
        });
    }
    let origins = Origins { message, ..origins };
    if names {
        return Ok(Asked {
            task: Task::ShowNamed,
            origins,
        });
    }
    Ok(Asked {
        task: Task::Whole(Command::Show),
        origins,
    })
}
