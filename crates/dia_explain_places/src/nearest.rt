//! The name that was meant.

use crate::place::back;

/// How much of two names may differ, between a common prefix and a common suffix.
const MOST: usize = 2;

/// The name that is nearest, if it is near enough: less than a third of the longer of the two differs.
pub fn nearest_name<'a>(word: &str, names: &[&'a str]) -> Option<&'a str> {
    let mut near = "";
    let mut least = MOST.saturating_add(1);
    for name in names {
        let differs = distance(word.as_bytes(), name.as_bytes());
        if differs < least {
            least = differs;
            near = *name;
        }
    }
    let longer = word.len().max(near.len());
    if least <= MOST && least.saturating_mul(3) < longer {
        Some(near)
    } else {
        None
    }
}

/// The command that is nearest: by its name, or by the capitals that the name is short for, as CCR is for
/// Credit-Control-Request.
pub fn nearest_command<'a>(word: &str, names: &[&'a str]) -> Option<&'a str> {
    match nearest_name(word, names) {
        None => long_name(word.as_bytes(), names),
        near => near,
    }
}

/// The first name that the capitals of a word are short for.
fn long_name<'a>(word: &[u8], names: &[&'a str]) -> Option<&'a str> {
    for name in names {
        if is_short_for(word, name.as_bytes()) {
            return Some(*name);
        }
    }
    None
}

/// Whether two names have the same capitals, two at least.
fn is_short_for(a: &[u8], b: &[u8]) -> bool {
    let mut rest = b;
    let mut count = 0usize;
    for byte in a {
        if byte.is_ascii_uppercase() {
            match after_capital(rest, *byte) {
                Some(following) => rest = following,
                None => return false,
            }
            count = count.saturating_add(1);
        }
    }
    count >= 2 && !has_capital(rest)
}

/// What follows the first capital of a name, if it is this one.
fn after_capital(name: &[u8], wanted: u8) -> Option<&[u8]> {
    for (at, byte) in name.iter().enumerate() {
        if byte.is_ascii_uppercase() {
            return if *byte == wanted {
                Some(back(name, at.saturating_add(1)))
            } else {
                None
            };
        }
    }
    None
}

fn has_capital(name: &[u8]) -> bool {
    for byte in name {
        if byte.is_ascii_uppercase() {
            return true;
        }
    }
    false
}

/// How many bytes of the longer name differ, between the prefix and the suffix that both have. The case of letters doesn't count,
/// unless all else is equal.
fn distance(a: &[u8], b: &[u8]) -> usize {
    let front = common_front(a, b);
    let a_rest = back(a, front);
    let b_rest = back(b, front);
    let following = common_back(a_rest, b_rest);
    let longer = a_rest.len().max(b_rest.len());
    longer.saturating_sub(following)
}

/// How many of the first bytes are equal but for the case of letters.
fn common_front(a: &[u8], b: &[u8]) -> usize {
    for count in 0..a.len() {
        if !is_alike(a.get(count), b.get(count)) {
            return count;
        }
    }
    a.len()
}

/// How many of the last bytes are equal but for the case of letters.
fn common_back(a: &[u8], b: &[u8]) -> usize {
    for count in 0..a.len() {
        if !is_alike(from_end(a, count), from_end(b, count)) {
            return count;
        }
    }
    a.len()
}

/// The byte before the last `count` ones.
fn from_end(bytes: &[u8], count: usize) -> Option<&u8> {
    bytes.get(bytes.len().checked_sub(count)?.checked_sub(1)?)
}

fn is_alike(own: Option<&u8>, other: Option<&u8>) -> bool {
    match (own, other) {
        (Some(own), Some(other)) => own.eq_ignore_ascii_case(other),
        _ => false,
    }
}
