//! The lines of an AVP.
ghost use Rattle.std.specs.Prelude.{◌≡◌, ◌<◌, ◌++◌, [], codes, if◌then◌else◌, IfOk, OnOk, length, map, string_bytes};
ghost use Rattle.std.specs.Fmt.{decimal};
ghost use Rattle.std.specs.Option.{option_map};
ghost use Rattle.dia_book.specs.Dictionary.{definitions};
ghost use Rattle.dia_places.specs.Names.{names_of};
ghost use Rattle.dia_places.specs.Records.{path_of, paths_of};
ghost use Rattle.dia_uses.specs.Lines.{avp_of, avp_text, line_at, line_of, lines_of, name_of};
ghost use Rattle.dia_uses.specs.Kinds.{AreWithin, is_kind, lines_by};

use crate::objects::{avp_object, push_object};
use crate::words::push_words;
use dia_book::Book;
use dia_places::{By, Reached, by_of, path_to};
use dia_wire::Key;
use std::alloc::{AllocError, Global};

/// How many lines an AVP has.
#[derive(Clone, Copy, PartialEq, Eq)]
pub(crate) struct Counts {
    pub rules: usize,
    pub wildcards: usize,
}

/// Which lines.
#[derive(Clone, Copy, PartialEq, Eq)]
enum Kind {
    Rules,
    Wildcards,
}

/// The AVP whose lines are written.
#[derive(Drop)]
pub(crate) struct Asked<'a, B: Book> {
    pub json: bool,
    pub book: &'a B,
    pub key: Key,
    /// Its name or numbers, or its object.
    pub avp: &'a str,
}

/// Adds the lines of an AVP: those by rules, and then those by wildcards.
pub(crate) fn push_lines<B: Book>(
    alloc: Global,
    out: &mut String,
    json: bool,
    book: &B,
    reached: &[Reached],
    key: Key,
) -> Result<Counts, AllocError>
    requires { AreWithin (B.meaning book.now) reached.now }
    ensures { OnOk result (string_bytes out.new
        ≡ string_bytes out.old ++ lines_of json (B.meaning book.now) (paths_of reached.now) key) }
{
    let avp = avp_of(alloc, json, book, key)?;
    let asked = Asked {
        json,
        book,
        key,
        avp: avp.as_str(),
    };
    let rules = push_kind(alloc, out, &asked, reached, Kind::Rules)?;
    let wildcards = push_kind(alloc, out, &asked, reached, Kind::Wildcards)?;
    Ok(Counts { rules, wildcards })
}

/// Adds the lines of one kind, in the order of the definitions, and answers how many there are.
fn push_kind<B: Book>(
    alloc: Global,
    out: &mut String,
    asked: &Asked<'_, B>,
    reached: &[Reached],
    kind: Kind,
) -> Result<usize, AllocError>
    requires within { AreWithin (B.meaning asked.now.book.now) reached.now }
    requires avp { asked.now.avp.now ≡ avp_of asked.now.json (B.meaning asked.now.book.now) asked.now.key }
    ensures { OnOk result (string_bytes out.new ≡ string_bytes out.old
        ++ lines_by asked.now.json (B.meaning asked.now.book.now) kind asked.now.key (paths_of reached.now)) }
{
    let mut count = 0usize;
    for place in 0..reached.len() {
        if push_place(alloc, out, asked, reached, reached[place], kind)? {
            count = count.saturating_add(1);
        }
    }
    Ok(count)
}

/// Adds the line of a definition, if it has one of this kind. Says whether it has.
fn push_place<B: Book>(
    alloc: Global,
    out: &mut String,
    asked: &Asked<'_, B>,
    reached: &[Reached],
    last: Reached,
    kind: Kind,
) -> Result<bool, AllocError>
    requires within { AreWithin (B.meaning asked.now.book.now) reached.now }
    requires last { last.def < length (definitions (B.meaning asked.now.book.now)) }
    requires avp { asked.now.avp.now ≡ avp_of asked.now.json (B.meaning asked.now.book.now) asked.now.key }
    ensures { OnOk result (string_bytes out.new ≡ string_bytes out.old
        ++ line_at asked.now.json (B.meaning asked.now.book.now) (is_kind kind) asked.now.key
        (path_of reached.now last)) }
{
    match by_of(asked.book, last.def, asked.key) {
        Some(by) => push_by(alloc, out, asked, reached, last, kind, by),
        None => Ok(false),
    }
}

/// Adds the line if it is of this kind.
fn push_by<B: Book>(
    alloc: Global,
    out: &mut String,
    asked: &Asked<'_, B>,
    reached: &[Reached],
    last: Reached,
    kind: Kind,
    by: By,
) -> Result<bool, AllocError>
    requires within { AreWithin (B.meaning asked.now.book.now) reached.now }
    requires last { last.def < length (definitions (B.meaning asked.now.book.now)) }
    ensures { OnOk result (string_bytes out.new ≡ string_bytes out.old
        ++ (if is_kind kind by then line_of asked.now.json
        (names_of (B.meaning asked.now.book.now) (path_of reached.now last)) asked.now.avp.now by else [])) }
{
    if !is_of(by, kind) {
        return Ok(false);
    }
    let path = path_to(alloc, asked.book, reached, last)?;
    push_line(out, asked.json, &path, asked.avp, by)?;
    Ok(true)
}

fn is_of(by: By, kind: Kind) -> bool
    ensures { result ≡ is_kind kind by }
{
    match by {
        By::Rule(_) => kind == Kind::Rules,
        By::Wildcard(_) => kind == Kind::Wildcards,
    }
}

/// The name of an AVP, if the dictionary knows it.
pub(crate) fn name_of<B: Book>(book: &B, key: Key) -> Option<&str>
    ensures { option_map (λ name. name.now) result ≡ name_of (B.meaning book.now) key }
{
    let entry = book.avp(key)?;
    Some(book.entry_name(entry))
}

/// An AVP in words, or as an object.
fn avp_of<B: Book>(alloc: Global, json: bool, book: &B, key: Key) -> Result<String, AllocError>
    ensures { IfOk result (λ avp. string_bytes avp ≡ avp_of json (B.meaning book.now) key) }
{
    if json {
        avp_object(alloc, book, key)
    } else {
        avp_words(alloc, book, key)
    }
}

/// The name of an AVP, or `CODE:VENDOR` where the dictionary doesn't know it.
pub(crate) fn avp_words<B: Book>(alloc: Global, book: &B, key: Key) -> Result<String, AllocError>
    ensures { IfOk result (λ avp. string_bytes avp ≡ avp_text (B.meaning book.now) key) }
{
    match name_of(book, key) {
        Some(name) => String::from_str(alloc, name),
        None => numbers(alloc, key),
    }
}

fn numbers(alloc: Global, key: Key) -> Result<String, AllocError>
    ensures { IfOk result (λ text. string_bytes text ≡ decimal key.code ++ codes ":" ++ decimal key.vendor) }
{
    let Key { code, vendor } = key;
    let mut text = String::new(alloc);
    write!(text, "{code}:{vendor}")?;
    Ok(text)
}

fn push_line(
    out: &mut String,
    json: bool,
    path: &[&str],
    avp: &str,
    by: By,
) -> Result<(), AllocError>
    ensures { OnOk result (string_bytes out.new ≡ string_bytes out.old
        ++ line_of json (map (λ name. name.now) path.now) avp.now by) }
{
    if json {
        push_object(out, path, avp, by)
    } else {
        push_words(out, path, avp, by)
    }
}
