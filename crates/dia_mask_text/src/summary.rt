//! The summary, for standard error.

use crate::answering::{Manner, State};
use crate::choosing::UNKNOWN;
use dia_dict::Book;
use std::alloc::{AllocError, Global};

/// The values of the AVPs of one name.
#[derive(Clone, Copy)]
struct Row<'a> {
    name: &'a str,
    values: u64,
    distinct: usize,
    /// They were masked.
    masked: bool,
}

/// Adds what was counted, as text or as JSON. `lines` are all lines.
pub(crate) fn push_summary<B: Book>(
    alloc: Global,
    text: &mut String,
    manner: &Manner<'_, B>,
    state: &State,
    lines: u64,
    json: bool,
) -> Result<(), AllocError> {
    let rows = rows_of(alloc, manner, state)?;
    if json {
        push_objects(text, &rows)?;
        push_totals(text, state, lines)
    } else {
        push_masked(text, &rows, lines)?;
        push_left(text, &rows)?;
        push_zeroed(text, state)?;
        push_unread(text, state)
    }
}

/// The AVPs that occurred, by their names.
fn rows_of<'a, B: Book>(
    alloc: Global,
    manner: &Manner<'a, B>,
    state: &State,
) -> Result<Vec<Row<'a>>, AllocError> {
    let mut rows = Vec::new(alloc);
    for index in 0..manner.book.entries() {
        let entry = manner.book.entry_at(index);
        if let Some(count) = state.run.counts.of(entry) {
            rows.push(Row {
                name: manner.book.entry_name(entry),
                values: count.values,
                distinct: count.distinct(),
                masked: manner.choice.masks(entry),
            })?;
        }
    }
    let count = &state.run.counts.unknown;
    rows.push(Row {
        name: UNKNOWN,
        values: count.values,
        distinct: count.distinct(),
        masked: manner.choice.masks_unknown(),
    })?;
    rows.retain(|row| row.values > 0);
    rows.sort_by_key(|row| row.name)?;
    Ok(rows)
}

/// Adds how many values were replaced.
fn push_masked(text: &mut String, rows: &[Row<'_>], lines: u64) -> Result<(), AllocError> {
    let mut values = 0u64;
    let mut avps = 0u64;
    for row in rows {
        if row.masked {
            values = values.saturating_add(row.values);
            avps = avps.saturating_add(1);
        }
    }
    push_count(text, lines, "line", ": ")?;
    push_count(text, values, "value", " of ")?;
    push_count(text, avps, "AVP", " replaced\n")
}

/// Adds a number of things, and what follows.
fn push_count(text: &mut String, count: u64, one: &str, following: &str) -> Result<(), AllocError> {
    let end = if count == 1 { "" } else { "s" };
    write!(text, "{count} {one}{end}{following}")
}

/// Adds the AVPs that stayed as they are, if there are some.
fn push_left(text: &mut String, rows: &[Row<'_>]) -> Result<(), AllocError> {
    let mut before = "left as they are: ";
    for row in rows {
        if !row.masked {
            let name = row.name;
            let values = row.values;
            write!(text, "{before}{name} {values}")?;
            before = ", ";
        }
    }
    if before == ", " {
        text.push('\n')
    } else {
        Ok(())
    }
}

fn push_zeroed(text: &mut String, state: &State) -> Result<(), AllocError> {
    match state.run.counts.zeroed {
        0 => Ok(()),
        count => push_count(text, count, "byte", " zeroed after bad lengths\n"),
    }
}

fn push_unread(text: &mut String, state: &State) -> Result<(), AllocError> {
    if state.unread == 0 {
        return Ok(());
    }
    push_count(
        text,
        state.unread,
        "line",
        " without a message, first in line ",
    )?;
    let first = state.first_unread;
    write!(text, "{first}\n")
}

/// Adds an object for each AVP.
fn push_objects(text: &mut String, rows: &[Row<'_>]) -> Result<(), AllocError> {
    for row in rows {
        let name = row.name;
        let masked = row.masked;
        let values = row.values;
        let distinct = row.distinct;
        writeln!(
            text,
            "{{\"avp\":\"{name}\",\"masked\":{masked},\"values\":{values},\"distinct\":{distinct}}}"
        )?;
    }
    Ok(())
}

/// Adds the object of the whole run.
fn push_totals(text: &mut String, state: &State, lines: u64) -> Result<(), AllocError> {
    let unread = state.unread;
    let zeroed = state.run.counts.zeroed;
    writeln!(
        text,
        "{{\"lines\":{lines},\"unread\":{unread},\"zeroed\":{zeroed}}}"
    )
}
