//! What is asked.

use dia_terms::Unknown;

/// What `lint` is asked.
#[derive(Clone, Copy)]
pub struct Asked<'a> {
    /// What happens to AVPs that the dictionary doesn't know.
    pub unknown: Unknown,
    /// The rules and sets of rules that are reported, with commas between them: all but those of `more`, if none are named.
    pub only: Option<&'a str>,
    /// The rules and sets of rules that aren't, with commas between them.
    pub except: Option<&'a str>,
    /// Whether lines are JSON objects.
    pub json: bool,
    /// The word for the dictionary.
    pub file: &'a str,
    /// The word for the list of accepted lines.
    pub list: &'a str,
}
