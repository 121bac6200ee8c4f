//! Lines that `show` prints.

/// The columns before the name of an AVP: offset, depth, code, vendor, flags and length.
const COLUMNS: usize = 6;

/// Whether a line is one of `show`, also with blanks before it: `header flags ..`, or `OFFSET DEPTH CODE VENDOR FLAGS LENGTH NAME ..`,
/// where VENDOR may be a dash; or `line N` of `show --lines`.
pub fn is_shown(line: &[u8]) -> bool {
    let line = line.trim_ascii();
    line.starts_with(b"header flags ") || has_columns(line) || is_line_number(line)
}

fn is_line_number(line: &[u8]) -> bool {
    match line.strip_prefix(b"line ".as_slice()) {
        Some(number) => !number.is_empty() && is_number(number),
        None => false,
    }
}

fn has_columns(line: &[u8]) -> bool {
    let mut place = 0usize;
    for word in line.split(|byte| matches!(byte, b' ' | b'\t' | b'\r')) {
        if !word.is_empty() {
            if place == COLUMNS {
                return true;
            }
            if !fits(place, word) {
                return false;
            }
            place = place.saturating_add(1);
        }
    }
    false
}

fn fits(place: usize, word: &[u8]) -> bool {
    match place {
        3 => word == b"-".as_slice() || is_number(word),
        4 => true,
        _ => is_number(word),
    }
}

fn is_number(word: &[u8]) -> bool {
    word.iter().all(|byte| byte.is_ascii_digit())
}
