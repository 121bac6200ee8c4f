//! The names of AVPs, and `CODE:VENDOR` where a name is that of two.

ghost use Rattle.std.specs.Prelude.{◌≡◌, ◌<◌, ◌&&◌, IfOk, IfSome, is_some, length, map, not, slice_get, string_bytes};
ghost use Rattle.std.specs.Option.{option_map};
ghost use Rattle.dia_valid.specs.Valid.{known};
ghost use Rattle.dia_names.specs.Marked.{HasNames};
ghost use Rattle.dia_names.specs.Names.{has_name, key_text, mark};

use dia_book::{Book, Entry, Key};
use std::alloc::{AllocError, Global};
use std::collections::HashMap;

/// What the AVPs of a second dictionary are called where a first one doesn't know them.
#[derive(Drop)]
pub struct AvpNames {
    /// Of each AVP of the second dictionary, by its place, `CODE:VENDOR` if its name is that of another AVP in the first.
    marks: Vec<Option<String>>,
}

impl AvpNames {
    ghost use Rattle.std.specs.Prelude.{◌≡◌, ◌<◌, [], IfOk, length, option_and_then, slice_get, unwrap_or};
    ghost use Rattle.std.specs.Option.{option_map, option_map_or};
    ghost use Rattle.dia_names.specs.Marked.{marks_in};
    ghost use Rattle.dia_names.specs.Names.{avp_name, marks_of};

    /// The names for two dictionaries. The only error is an allocation failure.
    pub fn new<A: Book, B: Book>(alloc: Global, a: &A, b: &B) -> Result<Box<AvpNames>, AllocError>
        ensures { IfOk result (λ made. marks_in made.value ≡ marks_of (A.meaning a.now) (B.meaning b.now)) }
    {
        let marks = marks_of(alloc, a, b)?;
        Ok(Box::new(alloc, AvpNames { marks })?)
    }

    /// What an AVP is called: by its name in the first dictionary, else by that in the second, unless it is the name of another
    /// AVP in the first: then `CODE:VENDOR`. An AVP that neither knows is `AVP`.
    pub fn name<'n, A: Book, B: Book>(&'n self, a: &'n A, b: &'n B, key: Key) -> &'n str
        requires { marks_in self.now ≡ marks_of (A.meaning a.now) (B.meaning b.now) }
        ensures { result.now ≡ avp_name (A.meaning a.now) (B.meaning b.now) key }
    {
        match name_of(a, key) {
            Some(name) => name,
            None => match b.avp(key) {
                Some(entry) => self.second_name(b, entry),
                None => "AVP",
            },
        }
    }

    /// What an AVP of the second dictionary is called that the first doesn't know.
    fn second_name<'n, B: Book>(&'n self, b: &'n B, entry: Entry) -> &'n str
        requires { entry < length (B.meaning b.now).entries }
        ensures { result.now ≡ unwrap_or (option_and_then (λ m. m) (slice_get (marks_in self.now) entry))
            (option_map_or (λ e. e.name) (slice_get (B.meaning b.now).entries entry) []) }
    {
        match self.mark(entry.index()) {
            Some(text) => text,
            None => b.entry_name(entry),
        }
    }

    fn mark(&self, place: usize) -> Option<&str>
        ensures { option_map (λ t. t.now) result ≡ option_and_then (λ m. m) (slice_get (marks_in self.now) place) }
    {
        match self.marks.get(place) {
            Some(Some(text)) => Some(text.as_str()),
            Some(None) | None => None,
        }
    }
}

/// The name of the AVP of a key.
fn name_of<B: Book>(book: &B, key: Key) -> Option<&str>
    ensures { option_map (λ name. name.now) result ≡ option_map (λ e. e.name) (known (B.meaning book.now) key) }
{
    let entry = book.avp(key)?;
    Some(book.entry_name(entry))
}

fn marks_of<A: Book, B: Book>(
    alloc: Global,
    a: &A,
    b: &B,
) -> Result<Vec<Option<String>>, AllocError>
    ensures { IfOk result (λ marks. map (option_map string_bytes) marks.items
        ≡ map (mark (A.meaning a.now)) (B.meaning b.now).entries) }
{
    let names = names_of(alloc, a)?;
    let mut marks = Vec::with_capacity(alloc, b.entries())?;
    for index in 0..b.entries() {
        marks.push(mark_of(alloc, a, &names, b, b.entry_at(index))?)?;
    }
    Ok(marks)
}

/// `CODE:VENDOR` of an AVP of B, if its name is that of another AVP in A.
fn mark_of<A: Book, B: Book>(
    alloc: Global,
    a: &A,
    names: &HashMap<&str, usize>,
    b: &B,
    entry: Entry,
) -> Result<Option<String>, AllocError>
    requires within { entry < length (B.meaning b.now).entries }
    requires names { HasNames (A.meaning a.now) names.now }
    ensures { IfOk result (λ made. IfSome (slice_get (B.meaning b.now).entries entry)
        (λ e. option_map string_bytes made ≡ mark (A.meaning a.now) e)) }
{
    let key = b.entry_key(entry);
    if is_taken(a, names, b.entry_name(entry), key) {
        Ok(Some(key_text(alloc, key)?))
    } else {
        Ok(None)
    }
}

fn is_taken<A: Book>(a: &A, names: &HashMap<&str, usize>, name: &str, key: Key) -> bool
    requires { HasNames (A.meaning a.now) names.now }
    ensures { result ≡ has_name (A.meaning a.now) name.now && not (is_some (known (A.meaning a.now) key)) }
{
    names.contains_key(&name) && !knows(a, key)
}

fn knows<A: Book>(a: &A, key: Key) -> bool
    ensures { result ≡ is_some (known (A.meaning a.now) key) }
{
    a.avp(key).is_some()
}

/// `CODE:VENDOR`. The only error is an allocation failure.
pub fn key_text(alloc: Global, key: Key) -> Result<String, AllocError>
    ensures { IfOk result (λ text. string_bytes text ≡ key_text key) }
{
    let Key { code, vendor } = key;
    format!(in alloc; "{code}:{vendor}")
}

/// The place of each AVP, by its name.
fn names_of<A: Book>(alloc: Global, a: &A) -> Result<HashMap<&str, usize>, AllocError>
    ensures { IfOk result (HasNames (A.meaning a.now)) }
{
    let mut names = HashMap::new(alloc);
    for index in 0..a.entries() {
        names.insert(a.entry_name(a.entry_at(index)), index)?;
    }
    Ok(names)
}
