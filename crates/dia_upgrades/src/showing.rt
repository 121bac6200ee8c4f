//! A line of a command: its words and its message.

ghost use Rattle.std.specs.Prelude.{◌≡◌, ◌∷◌, ℕ, IfOk, OnOk, Some, [], string_bytes};
ghost use Rattle.dia_breaking.specs.Orders.{IsInOrderOf};
ghost use Rattle.dia_breaking.specs.Upgrades.{other_length_of, sides_of};
ghost use Rattle.dia_upgrades.specs.Recorded.{AreShown, IsAfter, apart_of, has_message, message_line, place_of};
ghost use Rattle.dia_upgrades.specs.Recorded.{Says, row_of, says_of};
ghost use Rattle.dia_upgrades.specs.UnderWay.{IsMessageIn, IsRecordedIn, IsStored, Sees, digits_text, plain_digits, shown_text};
ghost use Rattle.dia_upgrades.specs.Rows.{Row};
ghost use Rattle.dia_upgrades.specs.Writing.{line_in};

use crate::asked::Asked;
use crate::seen::{First, Seen};
use crate::shown::digits_in;
use crate::writer::LineWriter;
use dia_accepted::Causes;
use dia_breaking::{Breaks, Line, Standing, Upgrade};
use dia_dict::Book;
use std::alloc::{AllocError, Global};

/// Sees a line of a command, and answers what is written of it now: where the list accepts it, and where each cause is one line,
/// nothing.
pub(crate) fn see_line<'u, A: Book, B: Book, W: LineWriter>(
    alloc: Global,
    seen: &mut Seen<'u>,
    upgrade: &'u Upgrade<'_, A, B>,
    breaks: &Breaks,
    line: &Line,
    place: usize,
    asked: Asked<'_>,
    writer: &W,
) -> Result<Option<String>, AllocError>
    ensures { IfOk result (λ shown. (t : Row)
        × IsRecordedIn upgrade.now breaks.now place asked.entry.messages line.now (t ∷ [])
        × Sees (W.writes writer.now) asked.entry place seen.old seen.new t (shown_text shown)) }
{
    let mut words = String::new(alloc);
    upgrade.push_words(alloc, &mut words, breaks, line)?;
    let recorded = words.as_str();
    let known = seen.judge(alloc, recorded)?;
    if known {
        return Ok(None);
    }
    let messages = asked.messages;
    let none = String::new(alloc);
    if asked.once {
        store_first(
            alloc,
            &seen.causes,
            &mut seen.firsts,
            upgrade,
            breaks,
            line,
            messages,
            recorded,
        )?;
        seen.causes.add(alloc, place, recorded, none)?;
        return Ok(None);
    }
    let digits = digits_of(alloc, upgrade, breaks, line, messages)?;
    seen.causes.add(alloc, place, recorded, none)?;
    let shown = line_text(alloc, writer, upgrade, breaks, line, recorded, &digits)?;
    Ok(Some(shown))
}

/// What is written of a line.
fn line_text<A: Book, B: Book, W: LineWriter>(
    alloc: Global,
    writer: &W,
    upgrade: &Upgrade<'_, A, B>,
    breaks: &Breaks,
    line: &Line,
    words: &str,
    digits: &Option<String>,
) -> Result<String, AllocError>
    ensures { IfOk result (λ shown. (place : ℕ) (says : Says) → says ≡ says_of
        (sides_of upgrade.now) (other_length_of upgrade.now) breaks.now.command breaks.now.sites.items line.now
        → says.words ≡ words.now
        → string_bytes shown ≡ line_in (W.writes writer.now) (row_of place says (plain_digits digits.now))) }
{
    let parts = upgrade.parts(alloc, breaks, line)?;
    let mut text = String::new(alloc);
    writer.write_line(alloc, &mut text, words, &parts, digits_in(digits))?;
    Ok(text)
}

/// Stores a line of a cause that isn't known yet, and its message, if messages are asked for.
fn store_first<'u, A: Book, B: Book>(
    alloc: Global,
    causes: &Causes,
    firsts: &mut Vec<First<'u>>,
    upgrade: &'u Upgrade<'_, A, B>,
    breaks: &Breaks,
    line: &Line,
    messages: bool,
    words: &str,
) -> Result<(), AllocError>
    ensures { OnOk result ((says : Says) → says ≡ says_of
        (sides_of upgrade.now) (other_length_of upgrade.now) breaks.now.command breaks.now.sites.items line.now
        → says.words ≡ words.now
        → IsStored causes.now says (IsMessageIn upgrade.now breaks.now line.now) (has_message messages line.now.standing)
        firsts.old.items firsts.new.items) }
{
    if causes.has(words) {
        return Ok(());
    }
    let digits = digits_of(alloc, upgrade, breaks, line, messages)?;
    let parts = upgrade.parts(alloc, breaks, line)?;
    let words = String::from_str(alloc, words)?;
    firsts.push(First {
        words,
        parts,
        digits,
    })?;
    Ok(())
}

/// The digits of the message of a line, where messages are asked for and it has one.
fn digits_of<A: Book, B: Book>(
    alloc: Global,
    upgrade: &Upgrade<'_, A, B>,
    breaks: &Breaks,
    line: &Line,
    messages: bool,
) -> Result<Option<String>, AllocError>
    ensures { IfOk result (λ digits. IsAfter (IsMessageIn upgrade.now breaks.now line.now)
        (has_message messages line.now.standing) (digits_text digits)) }
{
    if has_message(messages, line.standing) {
        let message = upgrade.message(alloc, breaks, line)?;
        let digits = encoded(alloc, &message)?;
        Ok(Some(digits))
    } else {
        Ok(None)
    }
}

/// The bytes of a message in hexadecimal.
fn encoded(alloc: Global, bytes: &[u8]) -> Result<String, AllocError>
    ensures { IfOk result (λ digits. digits_text (Some digits) ≡ message_line bytes.now) }
{
    hex::encode(alloc, bytes)
}

/// Whether a line is followed by its message.
fn has_message(messages: bool, standing: Standing) -> bool
    ensures { result ≡ has_message messages standing }
{
    match standing {
        Standing::Confirmed | Standing::Unchecked => messages,
        Standing::Undecided => false,
    }
}

/// The lines of a command that are shown: those of its meanings follow the others of their site.
pub(crate) fn shown_of(
    alloc: Global,
    breaks: &Breaks,
    meaning: bool,
) -> Result<Vec<Line>, AllocError>
    ensures { IfOk result (λ shown. AreShown meaning breaks.now.lines.items breaks.now.meanings.items shown.items) }
{
    let mut shown = Vec::from_slice(alloc, &breaks.lines)?;
    if meaning {
        shown.extend_from_slice(&breaks.meanings)?;
        sort_by_place(&mut shown)?;
    }
    Ok(shown)
}

fn sort_by_place(lines: &mut Vec<Line>) -> Result<(), AllocError>
    ensures { OnOk result (IsInOrderOf place_of lines.old.items lines.new.items) }
{
    lines.sort_by_key(|line| line.site)?;
    Ok(())
}

/// The meanings that aren't shown.
pub(crate) fn apart_of(meanings: &[Line], meaning: bool) -> &[Line]
    ensures { result.now ≡ apart_of meaning meanings.now }
{
    if meaning { &[] } else { meanings }
}
