//! The arguments of `follow`.

ghost use Rattle.std.specs.Prelude.{◌≡◌, IfSome, None, codes, false};
ghost use Rattle.clap.specs.Words.{found_of, rows_of};
ghost use Rattle.dia_cli.specs.Asking.{IsAsked};
ghost use Rattle.dia_cli.specs.FoundTasks.{has_followed};

use crate::arguments::{Asked, judged_of};
use crate::origin::Origins;
use crate::task::{Following, Task};
use crate::values::{dictionary_of, flag_of, messages_of};
use clap::ArgMatches;

/// `follow` with the arguments that were found.
pub(super) fn follow_of<'a>(found: &ArgMatches<'a>) -> Option<Asked<'a>>
    ensures made { IfSome result
        (λ made. IsAsked made.task made.origins (codes "follow", rows_of (found_of found.now))) }
    ensures none { result ≡ None → has_followed (rows_of (found_of found.now)) ≡ false }
{
    let (unknown, levels) = judged_of(found)?;
    let middle = flag_of(found, "middle")?;
    let check = flag_of(found, "check")?;
    let origins = Origins::of_one(dictionary_of(found, "dict")?);
    let messages = messages_of(found, "CONNECTION")?;
    Some(Asked {
        task: Task::Follow(Following {
            middle,
            check,
            unknown,
            levels,
        }),
        origins: Origins {
            messages,
            ..origins
        },
    })
}
