//! What is done in a vector, in words.

use crate::change::{Change, HeadChange, LevelChange};
use crate::data::Datum;
use crate::plan::Plan;
use dia_book::{Book, DRule, Key};
use dia_breaking_shortest::shortest_head;
use dia_data::push_value;
use std::alloc::{AllocError, Global};

impl<B: Book> Plan<'_, '_, B> {
    /// The command and the groups that lead to the level at hand.
    pub fn path(&self, alloc: Global, change: Change) -> Result<String, AllocError> {
        let place = match change {
            Change::Level { place, .. } => place,
            Change::Shortest | Change::Head(_) => 0,
        };
        let mut text = String::from_str(alloc, self.name())?;
        for key in &self.way(alloc, place)? {
            text.push('/')?;
            self.push_name(&mut text, *key)?;
        }
        Ok(text)
    }

    /// The keys of the groups that lead to the definition at a place.
    fn way(&self, alloc: Global, place: usize) -> Result<Vec<Key>, AllocError> {
        let mut keys = Vec::new(alloc);
        for index in &self.chain(alloc, place)? {
            if let Some(reached) = self.reached.get(*index) {
                if let Some(way) = reached.way {
                    keys.push(way.key)?;
                }
            }
        }
        Ok(keys)
    }

    /// What is done, unique among the vectors of a command with the same path.
    pub fn what(&self, alloc: Global, change: Change) -> Result<String, AllocError> {
        match change {
            Change::Shortest => String::from_str(alloc, "shortest"),
            Change::Head(change) => head_words(alloc, change),
            Change::Level { place, change } => {
                let mut text = String::new(alloc);
                self.push_level(&mut text, place, change)?;
                Ok(text)
            }
        }
    }

    fn push_level(
        &self,
        text: &mut String,
        place: usize,
        change: LevelChange,
    ) -> Result<(), AllocError> {
        match change {
            LevelChange::Count { rule, key, count } => {
                write!(text, "{count} of ")?;
                self.push_label(text, place, rule, key)
            }
            LevelChange::Flag { key, m, .. } => {
                self.push_name(text, key)?;
                text.push_str(if m { " with M" } else { " without M" })
            }
            LevelChange::Data { key, datum, .. } => self.push_datum(text, key, datum),
            LevelChange::EachRule => text.push_str("each rule"),
            LevelChange::Reversed => text.push_str("each rule, reversed"),
            LevelChange::Last { rule, key } => {
                self.push_label(text, place, rule, key)?;
                text.push_str(" last")
            }
            LevelChange::And { key } => {
                text.push_str("and ")?;
                self.push_name(text, key)
            }
            LevelChange::AndMandatory { key } => {
                text.push_str("and ")?;
                self.push_name(text, key)?;
                text.push_str(" with M")
            }
            LevelChange::FirstLength { key } => {
                text.push_str("length of ")?;
                self.push_name(text, key)?;
                let length = shortest_head(key).saturating_sub(1);
                write!(text, " {length}")
            }
            LevelChange::LastLength { key } => {
                text.push_str("length of ")?;
                self.push_name(text, key)?;
                text.push_str(" and 4")
            }
            LevelChange::Zeros => text.push_str("and 4 bytes"),
        }
    }

    /// Adds the name of a rule's AVP, for the wildcard with the AVP that counts for it.
    fn push_label(
        &self,
        text: &mut String,
        place: usize,
        rule: usize,
        key: Key,
    ) -> Result<(), AllocError> {
        if self.is_wildcard(place, rule) {
            text.push_str("AVP, ")?;
        }
        self.push_name(text, key)
    }

    fn is_wildcard(&self, place: usize, rule: usize) -> bool {
        match self.reached.get(place) {
            Some(reached) => has_no_key(reached.definition.rules.get(rule)),
            None => false,
        }
    }

    /// Adds the name of an AVP, or `CODE:VENDOR` of one that the dictionary doesn't know.
    fn push_name(&self, text: &mut String, key: Key) -> Result<(), AllocError> {
        match self.stock.book.avp(key) {
            Some(entry) => text.push_str(self.stock.book.entry_name(entry)),
            None => write!(text, "{key}"),
        }
    }

    /// Adds the name of an AVP and its data, as `show` prints them.
    fn push_datum(&self, text: &mut String, key: Key, datum: Datum) -> Result<(), AllocError> {
        self.push_name(text, key)?;
        text.push(' ')?;
        match self.stock.book.avp(key) {
            Some(entry) => push_value(text, self.stock.book.format(entry), datum.as_slice()),
            None => Ok(()),
        }
    }
}

fn has_no_key(rule: Option<&DRule>) -> bool {
    match rule {
        Some(rule) => rule.key.is_none(),
        None => false,
    }
}

fn head_words(alloc: Global, change: HeadChange) -> Result<String, AllocError> {
    match change {
        HeadChange::Plain => String::from_str(alloc, "plain"),
        HeadChange::P(true) => String::from_str(alloc, "header P set"),
        HeadChange::P(false) => String::from_str(alloc, "header P clear"),
        HeadChange::T => String::from_str(alloc, "header T set"),
        HeadChange::E => String::from_str(alloc, "header E set"),
        HeadChange::Reserved => String::from_str(alloc, "header reserved bits set"),
        HeadChange::Version => String::from_str(alloc, "header version 2"),
        HeadChange::ShortLength => String::from_str(alloc, "header length 16"),
        HeadChange::LengthAndOne => String::from_str(alloc, "header length and 1"),
        HeadChange::Cut => String::from_str(alloc, "message without its last 4 bytes"),
        HeadChange::Extended => String::from_str(alloc, "message and 4 bytes"),
        HeadChange::Code(code) => format!(in alloc; "header code {code}"),
        HeadChange::App(app) => format!(in alloc; "header application {app}"),
    }
}
