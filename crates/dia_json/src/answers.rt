//! The answers for one message.

ghost use Rattle.std.specs.Prelude.{◌≡◌, IfOk, string_bytes};
ghost use Rattle.dia_refused_json.specs.Recording.{HasReport};
ghost use Rattle.dia_json.specs.Reports.{IsNothing};
ghost use Rattle.dia_json.specs.Runs.{IsCheckJson, IsRefuteJson, RecordsChecked, RecordsRefuted};

use crate::verdicts::{push_checked, push_refuted};
use dia_captures::{RefuteJudge, check_line};
use dia_check::{Levels, Unknown};
use dia_dict::Book;
use dia_io::{Input, Inputs};
use dia_refused_json::refuse;
use dia_report::{Answered, Report};
use dia_run::read_dictionary;
use std::alloc::{AllocError, Global};

/// `check` of the message.
pub fn check(
    alloc: Global,
    unknown: Unknown,
    levels: Levels,
    inputs: &Inputs,
) -> Result<Answered, AllocError>
    ensures outcome { IfOk result (λ answered. IsCheckJson unknown levels inputs.now
        (string_bytes answered.text) answered.exit) }
    ensures report { IfOk result (HasReport IsNothing) }
{
    let first = match read_dictionary(alloc, 1, &inputs.first) {
        Ok(read) => read,
        Err(refused) => return refuse(alloc, &inputs.first, refused),
    };
    checked(alloc, &first.book, unknown, levels, &inputs.message)
}

/// `refute` of the message.
pub fn refute(
    alloc: Global,
    unknown: Unknown,
    levels: Levels,
    inputs: &Inputs,
) -> Result<Answered, AllocError>
    ensures outcome { IfOk result (λ answered. IsRefuteJson unknown levels inputs.now
        (string_bytes answered.text) answered.exit) }
    ensures report { IfOk result (HasReport IsNothing) }
{
    let first = match read_dictionary(alloc, 1, &inputs.first) {
        Ok(read) => read,
        Err(refused) => return refuse(alloc, &inputs.first, refused),
    };
    let second = match read_dictionary(alloc, 2, &inputs.second) {
        Ok(read) => read,
        Err(refused) => return refuse(alloc, &inputs.second, refused),
    };
    let judge = RefuteJudge {
        first: &first.book,
        second: &second.book,
        unknown,
        levels,
    };
    refuted(alloc, &judge, &inputs.message)
}

/// The verdict on a message.
fn checked<B: Book>(
    alloc: Global,
    book: &B,
    unknown: Unknown,
    levels: Levels,
    message: &Input,
) -> Result<Answered, AllocError>
    ensures outcome { IfOk result (λ answered. RecordsChecked unknown levels (B.meaning book.now) message.now
        (string_bytes answered.text) answered.exit) }
    ensures report { IfOk result (λ answered. answered.report ≡ Report.Done) }
{
    let mut space = Vec::new(alloc);
    let verdict = check_line(alloc, book, unknown, levels, message, &mut space)?;
    let mut text = String::new(alloc);
    push_checked(alloc, &mut text, book, &verdict)?;
    Ok(Answered {
        text,
        exit: verdict.exit(),
        report: Report::Done,
    })
}

/// Both verdicts on a message.
fn refuted<A: Book, B: Book>(
    alloc: Global,
    judge: &RefuteJudge<'_, A, B>,
    message: &Input,
) -> Result<Answered, AllocError>
    ensures outcome { IfOk result (λ answered. RecordsRefuted judge.now.unknown judge.now.levels
        (A.meaning judge.now.first.now) (B.meaning judge.now.second.now) message.now
        (string_bytes answered.text) answered.exit) }
    ensures report { IfOk result (λ answered. answered.report ≡ Report.Done) }
{
    let mut space = Vec::new(alloc);
    let verdict = judge.refute_line(alloc, message, &mut space)?;
    let mut text = String::new(alloc);
    push_refuted(alloc, &mut text, judge.first, judge.second, &verdict)?;
    Ok(Answered {
        text,
        exit: verdict.exit(),
        report: Report::Done,
    })
}
