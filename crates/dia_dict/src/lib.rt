//! Dictionaries of AVPs, groups and commands (RFC 6733 sections 3.2 and 4).
//!
//! A `Source` is what a dictionary text says. `resolve` makes a `PlainBook` of it, or reports what is wrong with it.
//! Everything that reads a dictionary goes through the trait `Book`. An `IndexedBook` answers the same faster.
//!
//! Here `slot_in_request` asks `select` for the command and then `slot` for the rule:
//!
//! ```text
//! let text = "%avp Origin-Host 264 DiameterIdentity must <DWR> ::= <Diameter-Header:280,REQ> {Origin-Host}";
//! let book = IndexedBook::from_plain(alloc, resolve(alloc, parse(alloc, text)?)?)?;
//! let key = Key { code: 264, vendor: 0 };
//! let host = book.avp(key).ok_or("Origin-Host")?;
//! assert_eq!(rt; book.entry_name(host), "Origin-Host");
//! assert_eq!(rt; *book.format(host), Format::DiameterIdentity);
//! assert_eq!(rt; slot_in_request(&book, 280, key), Some(Slot::Loose(0)));
//!
//! let fault = resolve(alloc, parse(alloc, "%avp X 9001 Grouped any")?).err().ok_or("a fault")?;
//! assert_eq!(rt; format!(in alloc; "{fault}")?.as_str(), "no-group-format: X");
//! ```
#![tactic(auto)]

mod base;
mod entry_list;
mod fault;
mod findings;
mod hashing;
mod indexed_book;
mod key_map;
mod plain_book;
mod resolving;
mod selectors;

pub use base::{base_book, base_is_sound, base_text};
pub use dia_book::{
    Book, Class, DRule, DefHead, DefId, Definition, Entry, Format, Key, Leaf, MRule, Pxy, RuleKind,
    Slot, accepts,
};
pub use fault::{DictFault, DictKind};
pub use findings::{Finding, Part, PartKind, Recorded};
pub use indexed_book::IndexedBook;
pub use plain_book::PlainBook;
pub use resolving::{
    MAX_PARTS, MAX_RULES, book_of, faults, greatest_count, key_of_declaration, key_of_group,
    least_count, named_is_sound, resolve,
};
