//! The arguments of `uses`, `diff`, `lint` and `examples`.

ghost use Rattle.std.specs.Prelude.{◌≡◌, IfErr, IfOk, IfSome, None, codes, false};
ghost use Rattle.clap.specs.Words.{found_of, rows_of};
ghost use Rattle.dia_cli.specs.Asking.{IsAsked, IsWanting};
ghost use Rattle.dia_cli.specs.FoundTasks.{has_differed};

use crate::apart::Apart;
use crate::arguments::{Asked, Unasked, pair_of, sender_of, unknown_of};
use crate::origin::Origins;
use crate::task::{Linting, Sampling, Task};
use crate::values::{
    copies_of, dictionary_of, flag_of, is_given, names_of, table_of, word_of, words_of,
};
use clap::ArgMatches;
use std::alloc::Global;

/// `uses` with the arguments that were found.
pub(super) fn uses_of<'a>(alloc: Global, found: &ArgMatches<'a>) -> Result<Asked<'a>, Unasked>
    ensures made { IfOk result
        (λ made. IsAsked made.task made.origins (codes "uses", rows_of (found_of found.now))) }
    ensures wanting { IfErr result (IsWanting (codes "uses") (rows_of (found_of found.now))) }
{
    let Some(dictionary) = dictionary_of(found, "D") else {
        return Err(Unasked::Nothing);
    };
    let Some(words) = words_of(found, "AVP") else {
        return Err(Unasked::Nothing);
    };
    let avps = copies_of(alloc, words)?;
    Ok(Asked {
        task: Task::Uses { avps },
        origins: Origins::of_one(dictionary),
    })
}

/// `diff` with the arguments that were found.
pub(super) fn diff_of<'a>(found: &ArgMatches<'a>) -> Option<Asked<'a>>
    ensures made { IfSome result
        (λ made. IsAsked made.task made.origins (codes "diff", rows_of (found_of found.now))) }
    ensures none { result ≡ None → has_differed (rows_of (found_of found.now)) ≡ false }
{
    let unknown = unknown_of(found)?;
    let origins = pair_of(found)?;
    let sends = sender_of(found)?;
    Some(Asked {
        task: Task::Diff { sends, unknown },
        origins,
    })
}

/// `lint` with the arguments that were found.
pub(super) fn lint_of<'a>(alloc: Global, found: &ArgMatches<'a>) -> Result<Asked<'a>, Unasked>
    ensures made { IfOk result
        (λ made. IsAsked made.task made.origins (codes "lint", rows_of (found_of found.now))) }
    ensures wanting { IfErr result (IsWanting (codes "lint") (rows_of (found_of found.now))) }
{
    let Some(unknown) = unknown_of(found) else {
        return Err(Unasked::Nothing);
    };
    let Some(dictionary) = dictionary_of(found, "D") else {
        return Err(Unasked::Nothing);
    };
    let Some(table) = table_of(found, "accepted") else {
        return Err(Unasked::Nothing);
    };
    let Some(only) = word_of(found, "only") else {
        return Err(Unasked::Nothing);
    };
    let Some(except) = word_of(found, "except") else {
        return Err(Unasked::Nothing);
    };
    let only = String::from_str(alloc, only)?;
    let except = String::from_str(alloc, except)?;
    let origins = Origins::of_one(dictionary);
    Ok(Asked {
        task: Task::Lint(Linting {
            unknown,
            only,
            except,
        }),
        origins: Origins { table, ..origins },
    })
}

/// `examples` with the arguments that were found.
pub(super) fn examples_of<'a>(alloc: Global, found: &ArgMatches<'a>) -> Result<Asked<'a>, Unasked>
    ensures made { IfOk result
        (λ made. IsAsked made.task made.origins (codes "examples", rows_of (found_of found.now))) }
    ensures wanting { IfErr result (IsWanting (codes "examples") (rows_of (found_of found.now))) }
{
    let Some(unknown) = unknown_of(found) else {
        return Err(Unasked::Nothing);
    };
    let Some(dictionary) = dictionary_of(found, "D") else {
        return Err(Unasked::Nothing);
    };
    let Some(text) = flag_of(found, "text") else {
        return Err(Unasked::Nothing);
    };
    if text && is_given(found, "json") {
        return Err(Unasked::Apart(Apart::TextAndJson));
    }
    let names = names_of(alloc, found)?;
    Ok(Asked {
        task: Task::Examples(Sampling {
            unknown,
            text,
            names,
        }),
        origins: Origins::of_one(dictionary),
    })
}
