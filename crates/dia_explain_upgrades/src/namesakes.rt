//! Names that are one AVP in a dictionary, and another AVP in the other; also AVPs of one code whose names are similar.

use dia_ccf::{Decl, Def, Head};
use dia_explain_inputs::NamedSource;
use dia_explain_places::{Note, nearest_name};
use dia_upgrades::Recorded;
use std::alloc::{AllocError, Global};

/// The most names that are reported but for those of causes that are explained.
const MOST: usize = 20;

/// The code of an AVP, and its vendor or 0.
#[derive(Clone, Copy, PartialEq, Eq, PartialOrd, Ord)]
struct Number {
    code: u32,
    vendor: u32,
}

impl Number {
    /// Of `CODE:VENDOR`.
    fn of(text: &str) -> Option<Number> {
        let (code, vendor) = text.split_once(':')?;
        Some(Number {
            code: code.parse::<u32>().ok()?,
            vendor: vendor.parse::<u32>().ok()?,
        })
    }
}

/// The AVPs of a dictionary in the order of their names and of their numbers, and the word that names its text.
#[derive(Drop)]
struct Numbered<'a> {
    dictionary: &'a str,
    numbers: Vec<(&'a str, Number)>,
    names: Vec<(Number, &'a str)>,
}

impl<'a> Numbered<'a> {
    fn of(alloc: Global, dictionary: &NamedSource<'a>) -> Result<Numbered<'a>, AllocError> {
        let mut numbers = Vec::new(alloc);
        add_declared(&mut numbers, &dictionary.source.avps)?;
        add_groups(&mut numbers, &dictionary.source.groups)?;
        numbers.sort_unstable();
        let names = by_number(alloc, &numbers)?;
        let dictionary = dictionary.name;
        Ok(Numbered {
            dictionary,
            numbers,
            names,
        })
    }

    fn number(&self, name: &str) -> Option<(&'a str, Number)> {
        let least = Number { code: 0, vendor: 0 };
        let place = match self.numbers.binary_search(&(name, least)) {
            Ok(place) | Err(place) => place,
        };
        let (found, number) = *self.numbers.get(place)?;
        if found == name {
            Some((found, number))
        } else {
            None
        }
    }

    fn name(&self, number: Number) -> Option<&'a str> {
        let place = match self.names.binary_search(&(number, "")) {
            Ok(place) | Err(place) => place,
        };
        let (found, name) = *self.names.get(place)?;
        if found == number { Some(name) } else { None }
    }

    /// The AVP of this code, of any vendor, whose name is similar.
    fn similar(&self, name: &str, code: u32) -> Option<(&'a str, Number)> {
        let least = Number { code, vendor: 0 };
        let start = match self.names.binary_search(&(least, "")) {
            Ok(place) | Err(place) => place,
        };
        for (number, found) in self.names.get(start..)? {
            if number.code != code {
                return None;
            }
            if nearest_name(name, &[*found]).is_some() {
                return Some((*found, *number));
            }
        }
        None
    }
}

fn add_declared<'a>(
    numbers: &mut Vec<(&'a str, Number)>,
    avps: &'a [Decl],
) -> Result<(), AllocError> {
    for avp in avps {
        let number = Number {
            code: avp.code,
            vendor: avp.vendor,
        };
        numbers.push((avp.name.as_str(), number))?;
    }
    Ok(())
}

fn add_groups<'a>(
    numbers: &mut Vec<(&'a str, Number)>,
    groups: &'a [Def],
) -> Result<(), AllocError> {
    for group in groups {
        if let Head::Group { code, vendor } = group.head {
            numbers.push((group.name.as_str(), Number { code, vendor }))?;
        }
    }
    Ok(())
}

fn by_number<'a>(
    alloc: Global,
    numbers: &[(&'a str, Number)],
) -> Result<Vec<(Number, &'a str)>, AllocError> {
    let mut names = Vec::new(alloc);
    for (name, number) in numbers {
        names.push((*number, *name))?;
    }
    names.sort_unstable();
    Ok(names)
}

/// The AVPs of both dictionaries by their names, and which names were reported.
#[derive(Drop)]
pub struct Namesakes<'a> {
    first: Numbered<'a>,
    second: Numbered<'a>,
    reported: Vec<&'a str>,
}

/// Two AVPs of one name, or of similar names and one code: one of the first dictionary, and one of the second.
#[derive(Clone, Copy)]
pub struct Twins<'a> {
    own_name: &'a str,
    own: Number,
    other_name: &'a str,
    other: Number,
    /// Whether the first dictionary doesn't have the other one.
    pub is_lacked: bool,
    /// Whether each dictionary has one of the two alone.
    pub is_moved: bool,
}

impl<'a> Namesakes<'a> {
    pub fn of(
        alloc: Global,
        first: &NamedSource<'a>,
        second: &NamedSource<'a>,
    ) -> Result<Namesakes<'a>, AllocError> {
        Ok(Namesakes {
            first: Numbered::of(alloc, first)?,
            second: Numbered::of(alloc, second)?,
            reported: Vec::new(alloc),
        })
    }

    /// The AVPs that have the name of the one that a line calls so, or the one that has it and a similar one, if they are two.
    /// `CODE:VENDOR` is one of the second dictionary.
    pub fn twins(&self, subject: &str) -> Option<Twins<'a>> {
        let name = match Number::of(subject) {
            Some(number) => self.second.name(number)?,
            None => subject,
        };
        let ((own_name, own), (other_name, other)) = self.pair(name)?;
        if own == other {
            return None;
        }
        let is_lacked = self.first.name(other).is_none();
        let is_moved = is_lacked && self.second.name(own).is_none();
        Some(Twins {
            own_name,
            own,
            other_name,
            other,
            is_lacked,
            is_moved,
        })
    }

    /// The AVPs of a name in the two dictionaries, or of a similar name in one of them.
    fn pair(&self, name: &str) -> Option<((&'a str, Number), (&'a str, Number))> {
        match (self.first.number(name), self.second.number(name)) {
            (Some(own), Some(other)) => Some((own, other)),
            (Some(own), None) => Some((own, self.second.similar(name, own.1.code)?)),
            (None, Some(other)) => Some((self.first.similar(name, other.1.code)?, other)),
            (None, None) => None,
        }
    }

    /// Adds two AVPs, unless they were reported.
    pub fn push(&mut self, note: &mut Note, twins: Twins<'a>) -> Result<(), AllocError> {
        if self.reported.contains(&twins.own_name) {
            return Ok(());
        }
        note.put(twins.own_name);
        push_number(note, " is ", twins.own, self.first.dictionary);
        note.put(" and ");
        if twins.other_name != twins.own_name {
            note.put_all(&[twins.other_name, " is "]);
        }
        push_number(note, "", twins.other, self.second.dictionary);
        note.put("\n");
        self.reported.push(twins.own_name)?;
        Ok(())
    }
}

/// Adds the names that these causes are about, and that are one AVP in the first dictionary and another in the second: the first of
/// them, each once.
pub fn push_namesakes(
    note: &mut Note,
    namesakes: &mut Namesakes<'_>,
    causes: &[Recorded],
) -> Result<(), AllocError> {
    let most = namesakes.reported.len().saturating_add(MOST);
    for cause in causes {
        if namesakes.reported.len() < most {
            if let Some(twins) = namesakes.twins(subject_of(cause.words.as_str())) {
                namesakes.push(note, twins)?;
            }
        }
    }
    Ok(())
}

/// Adds the number of an AVP, and the dictionary that has it.
fn push_number(note: &mut Note, front: &str, number: Number, dictionary: &str) {
    let Number { code, vendor } = number;
    note.put(front);
    note.put_number(u64::from(code));
    if vendor > 0 {
        note.put(" vendor ");
        note.put_number(u64::from(vendor));
    }
    note.put_all(&[" in ", dictionary]);
}

/// The last word in front of the detail.
fn subject_of(words: &str) -> &str {
    let front = match words.split_once(": ") {
        Some((front, _)) => front,
        None => words,
    };
    match front.rsplit_once(' ') {
        Some((_, subject)) => subject,
        None => front,
    }
}
