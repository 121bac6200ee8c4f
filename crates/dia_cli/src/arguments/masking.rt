//! The arguments of `mask`.

ghost use Rattle.std.specs.Prelude.{IfErr, IfOk, codes};
ghost use Rattle.clap.specs.Words.{found_of, rows_of};
ghost use Rattle.dia_cli.specs.Asking.{IsAsked, IsWanting};

use crate::arguments::{Asked, Unasked};
use crate::origin::Origins;
use crate::shown::masked_apart_in;
use crate::task::{Masking, Task};
use crate::values::{dictionary_of, messages_of, word_of};
use clap::ArgMatches;
use std::alloc::Global;

/// `mask` with the arguments that were found.
pub(super) fn mask_of<'a>(alloc: Global, found: &ArgMatches<'a>) -> Result<Asked<'a>, Unasked>
    ensures made { IfOk result
        (λ made. IsAsked made.task made.origins (codes "mask", rows_of (found_of found.now))) }
    ensures wanting { IfErr result (IsWanting (codes "mask") (rows_of (found_of found.now))) }
{
    let Some(dictionary) = dictionary_of(found, "D") else {
        return Err(Unasked::Nothing);
    };
    let Some(messages) = messages_of(found, "MESSAGES") else {
        return Err(Unasked::Nothing);
    };
    let Some(keep) = word_of(found, "keep") else {
        return Err(Unasked::Nothing);
    };
    let Some(mask) = word_of(found, "mask") else {
        return Err(Unasked::Nothing);
    };
    let Some(only) = word_of(found, "only") else {
        return Err(Unasked::Nothing);
    };
    if let Some(apart) = masked_apart_in(found) {
        return Err(Unasked::Apart(apart));
    }
    let keep = String::from_str(alloc, keep)?;
    let mask = String::from_str(alloc, mask)?;
    let only = String::from_str(alloc, only)?;
    let origins = Origins::of_one(dictionary);
    Ok(Asked {
        task: Task::Mask(Masking { keep, mask, only }),
        origins: Origins {
            messages,
            ..origins
        },
    })
}
