//! All faults of a message, a line each.

ghost use Rattle.std.specs.Prelude.{◌≡◌, ◌↔◌, ◌++◌, [], false, IfOk, IsTrue, OnOk, string_bytes};
ghost use Rattle.dia_run.specs.AllFaults.{IsAllRecorded, fault_lines, more_line};

use crate::commands::Outcome;
use crate::commands::check::{faulty, verdict};
use dia_check::{Fault, Levels, Unknown, check};
use dia_dict::Book;
use dia_faults::{AllFaults, all_faults};
use dia_io::Exit;
use std::alloc::{AllocError, Global};

/// What is written of all faults of a message, at most so many: the lines that `check` would write for each, in their order,
/// and `more` where there are more. Of a message without faults, and of bytes that are no whole one, it is the line of
/// `check`. The exit is that of `check`.
pub fn report_faults<B: Book>(
    alloc: Global,
    book: &B,
    unknown: Unknown,
    levels: Levels,
    most: usize,
    message: &[u8],
) -> Result<Outcome, AllocError>
    ensures { IfOk result (λ outcome. IsAllRecorded (B.meaning book.now) unknown levels most message.now
        (string_bytes outcome.text) outcome.exit) }
{
    match all_faults(alloc, book, unknown, levels, most, message) {
        Ok(listed) => {
            if is_none(&listed) {
                let answer = check(alloc, book, unknown, levels, message);
                verdict(alloc, book, &answer)
            } else {
                deliver(alloc, book, &listed)
            }
        }
        Err(refusal) => verdict(alloc, book, &Err(refusal)),
    }
}

/// Whether there are no faults.
fn is_none(listed: &AllFaults) -> bool
    ensures { IsTrue result ↔ ((listed.now.faults.items ≡ []) × (listed.now.more ≡ false)) }
{
    listed.faults.is_empty() && !listed.more
}

/// The lines of faults.
fn deliver<B: Book>(alloc: Global, book: &B, listed: &AllFaults) -> Result<Outcome, AllocError>
    ensures text { IfOk result (λ outcome. string_bytes outcome.text
        ≡ fault_lines (B.meaning book.now) listed.now.faults.items ++ more_line listed.now.more) }
    ensures exit { IfOk result (λ outcome. outcome.exit ≡ Exit.No) }
{
    let mut text = String::new(alloc);
    push_faults(alloc, &mut text, book, listed.faults.as_slice())?;
    push_more(&mut text, listed.more)?;
    let exit = Exit::No;
    Ok(Outcome { text, exit })
}

/// Adds the line of each fault.
fn push_faults<B: Book>(
    alloc: Global,
    text: &mut String,
    book: &B,
    faults: &[Fault],
) -> Result<(), AllocError>
    ensures { OnOk result (string_bytes text.new
        ≡ string_bytes text.old ++ fault_lines (B.meaning book.now) faults.now) }
{
    for fault in faults {
        let recorded = faulty(alloc, book, fault)?;
        text.push_str(recorded.text.as_str())?;
    }
    Ok(())
}

/// Adds the line that says that there are more.
fn push_more(text: &mut String, more: bool) -> Result<(), AllocError>
    ensures { OnOk result (string_bytes text.new ≡ string_bytes text.old ++ more_line more) }
{
    if more {
        text.push_str("more\n")
    } else {
        Ok(())
    }
}
