//! The arguments of `answer`.

ghost use Rattle.std.specs.Prelude.{IfErr, IfOk, codes};
ghost use Rattle.clap.specs.Words.{found_of, rows_of};
ghost use Rattle.dia_cli.specs.Asking.{IsAsked, IsWanting};

use crate::arguments::{Asked, Unasked, checked_of};
use crate::origin::Origins;
use crate::task::{Answering, Task};
use crate::values::{flag_of, message_of, messages_of, word_of};
use clap::ArgMatches;
use std::alloc::Global;

/// `answer` with the arguments that were found.
pub(super) fn answer_of<'a>(alloc: Global, found: &ArgMatches<'a>) -> Result<Asked<'a>, Unasked>
    ensures made { IfOk result
        (λ made. IsAsked made.task made.origins (codes "answer", rows_of (found_of found.now))) }
    ensures wanting { IfErr result (IsWanting (codes "answer") (rows_of (found_of found.now))) }
{
    let Some(lines) = flag_of(found, "lines") else {
        return Err(Unasked::Nothing);
    };
    let Some((unknown, levels, origins)) = checked_of(found) else {
        return Err(Unasked::Nothing);
    };
    let Some(message) = message_of(found, "MESSAGE") else {
        return Err(Unasked::Nothing);
    };
    let Some(messages) = messages_of(found, "MESSAGE") else {
        return Err(Unasked::Nothing);
    };
    let Some(host) = word_of(found, "host") else {
        return Err(Unasked::Nothing);
    };
    let Some(realm) = word_of(found, "realm") else {
        return Err(Unasked::Nothing);
    };
    let host = String::from_str(alloc, host)?;
    let realm = String::from_str(alloc, realm)?;
    let asked = Answering {
        unknown,
        levels,
        host,
        realm,
    };
    if lines {
        Ok(Asked {
            task: Task::AnswerLines(asked),
            origins: Origins {
                messages,
                ..origins
            },
        })
    } else {
        Ok(Asked {
            task: Task::Answer(asked),
            origins: Origins { message, ..origins },
        })
    }
}
