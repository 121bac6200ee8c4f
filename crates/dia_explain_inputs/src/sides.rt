//! The two dictionaries of a command, with the words that name them.

use crate::names::NamedSource;
use dia_explain_places::InputTexts;
use dia_report::BothBooks;

pub fn first_of<'a>(texts: &InputTexts<'a>, books: &'a BothBooks) -> NamedSource<'a> {
    NamedSource {
        name: texts.first.name,
        source: &books.first.source,
    }
}

pub fn second_of<'a>(texts: &InputTexts<'a>, books: &'a BothBooks) -> NamedSource<'a> {
    NamedSource {
        name: texts.second.name,
        source: &books.second.source,
    }
}
