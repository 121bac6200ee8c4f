//! The lines of a table's text.
ghost use Rattle.std.specs.Prelude.{◌≡◌, IfSome, None};
ghost use Rattle.dia_compat.specs.TableText.{IsLine, HasForm};
ghost use Rattle.dia_compat.specs.Lines.{shown};

use super::words::words_of;

/// What a line says. The names are parts of the line, of any length.
#[derive(Clone, Copy)]
pub(crate) enum Line<'a> {
    Blank,
    Command(&'a str, &'a str),
    Avp(&'a str, &'a str),
}

/// Reads a line without its end: `command A = B`, `avp A = B`, or no words.
pub(crate) fn read_line(line: &str) -> Option<Line<'_>>
    ensures some { IfSome result (λ said. IsLine (shown said) line.now) }
    ensures none { result ≡ None → ¬ HasForm line.now }
{
    let words = words_of(line.as_bytes());
    if words.kind.is_empty() {
        return Some(Line::Blank);
    }
    if words.wrong_part().is_some() {
        return None;
    }
    let first = words.first.as_text()?;
    let second = words.second.as_text()?;
    if words.kind.text == b"command".as_slice() {
        Some(Line::Command(first, second))
    } else {
        Some(Line::Avp(first, second))
    }
}
