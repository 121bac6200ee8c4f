//! What a definition is of.

ghost use Rattle.std.specs.Prelude.{◌≡◌, ◌<◌, IfSome, [], length, slice_get};
ghost use Rattle.std.specs.Option.{option_map_or};
ghost use Rattle.dia_book.specs.Dictionary.{definitions, group_place};
ghost use Rattle.dia_differences.specs.Owners.{command_place, definition_of, name_of, rules_of};

use dia_book::{Book, DRule, DefId};

/// What a definition is of: an AVP or a command, by its place among those of the dictionary.
#[derive(Clone, Copy, PartialEq, Eq, Hash)]
pub enum Owner {
    Avp(usize),
    Command(usize),
}

impl Owner {
    /// The definition in a dictionary: none of an AVP that isn't Grouped.
    pub fn definition<B: Book>(self, book: &B) -> Option<DefId>
        ensures within { IfSome result (λ def. def < length (definitions (B.meaning book.now))) }
        ensures exact { result ≡ definition_of (B.meaning book.now) self }
    {
        match self {
            Owner::Avp(index) => group_at(book, index),
            Owner::Command(index) => command_at(book, index),
        }
    }

    /// The name of the AVP or the command, empty where the dictionary doesn't have it.
    pub fn name<B: Book>(self, book: &B) -> &str
        ensures { result.now ≡ name_of (B.meaning book.now) self }
    {
        match self {
            Owner::Avp(index) => avp_name(book, index),
            Owner::Command(index) => command_name(book, index),
        }
    }

    /// The rules of the definition: none where there is no definition.
    pub fn rules<B: Book>(self, book: &B) -> &[DRule]
        ensures { result.now ≡ rules_of (B.meaning book.now) self }
    {
        match self.definition(book) {
            Some(def) => &book.def(def).rules,
            None => &[],
        }
    }
}

/// The definition of the AVP at a place.
#[tactic(auto, using(crate::proofs::Groups::none_past))]
fn group_at<B: Book>(book: &B, index: usize) -> Option<DefId>
    ensures within { IfSome result (λ def. def < length (definitions (B.meaning book.now))) }
    ensures exact { result ≡ group_place (B.meaning book.now) index }
{
    if index >= book.entries() {
        return None;
    }
    let entry = book.entry_at(index);
    book.group(entry)
}

/// The definition of the command at a place.
fn command_at<B: Book>(book: &B, index: usize) -> Option<DefId>
    ensures within { IfSome result (λ def. def < length (definitions (B.meaning book.now))) }
    ensures exact { result ≡ command_place (B.meaning book.now) index }
{
    if index >= book.commands() {
        return None;
    }
    Some(book.command_at(index))
}

#[tactic(auto, using(crate::proofs::Names::no_avp))]
fn avp_name<B: Book>(book: &B, index: usize) -> &str
    ensures { result.now ≡ option_map_or (λ e. e.name) (slice_get (B.meaning book.now).entries index) [] }
{
    if index >= book.entries() {
        return "";
    }
    book.entry_name(book.entry_at(index))
}

#[tactic(auto, using(crate::proofs::Names::no_command))]
fn command_name<B: Book>(book: &B, index: usize) -> &str
    ensures { result.now ≡ option_map_or (λ c. c.name) (slice_get (B.meaning book.now).commands index) [] }
{
    if index >= book.commands() {
        return "";
    }
    book.def(book.command_at(index)).name.as_str()
}
