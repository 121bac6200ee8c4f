//! The records of the commands and the AVPs of a dictionary.

ghost use Rattle.std.specs.Prelude.{◌≡◌, ◌≤◌, None, IfSome, length, string_bytes};
ghost use Rattle.dia_book.specs.Dictionary.{IsCommandHead};
ghost use Rattle.dia_c_calls.specs.DictParts.{IsAvpAt, IsCommandAt, IsCommandRecord};
ghost use Rattle.dia_c_calls.specs.DictParts.{class_number, mandatory_number, proxy_number};

use crate::avp_records::format_number;
use crate::recorded_fault::cut_name;
use dia_book::{Book, Class, DefHead, DefId, Definition};
use dia_terms::{MAX_NAME, MRule, Pxy};

/// A command of a dictionary (RFC 6733 section 3.2).
#[repr(C)]
#[derive(Clone, Copy)]
pub struct DictCommand {
    pub name_count: usize,
    /// Its number in verdicts.
    pub command: u32,
    /// Command Code, or 0 of the class Error.
    pub code: u32,
    /// The number of its class.
    pub kind: u32,
    /// The number of what the P flag may be.
    pub proxy: u32,
    /// 1, or 0 where it names no application: then `app` is 0.
    pub has_app: u32,
    pub app: u32,
    /// Its name, with zeros after it.
    pub name: [u8; MAX_NAME],
}

/// An AVP of a dictionary.
#[repr(C)]
#[derive(Clone, Copy)]
pub struct DictAvp {
    pub name_count: usize,
    pub code: u32,
    /// Vendor-ID, or 0 without one.
    pub vendor: u32,
    /// The number of its format.
    pub format: u32,
    /// The number of what the M flag may be.
    pub mandatory: u32,
    /// Its name, with zeros after it.
    pub name: [u8; MAX_NAME],
}

/// The command at an index of the dictionary's order.
pub fn command_at<B: Book>(book: &B, index: usize) -> Option<DictCommand>
    ensures some { IfSome result (IsCommandAt (B.meaning book.now) index) }
    ensures none { result ≡ None → length (B.meaning book.now).commands ≤ index }
{
    if index >= book.commands() {
        return None;
    }
    let place = book.command_at(index);
    Some(command_record(place, book.def(place)))
}

fn command_record(place: DefId, def: &Definition) -> DictCommand
    requires { IsCommandHead def.now.head }
    ensures { IsCommandRecord place (string_bytes def.now.name) def.now.head result }
{
    let (name_count, name) = cut_name(def.name.as_str());
    let command = place.index() as u32;
    match def.head {
        DefHead::Command {
            code,
            class,
            app,
            p,
        } => DictCommand {
            name_count,
            command,
            code,
            kind: class_number(class),
            proxy: proxy_number(p),
            has_app: u32::from(app.is_some()),
            app: app.unwrap_or(0),
            name,
        },
        DefHead::Error { p } => DictCommand {
            name_count,
            command,
            code: 0,
            kind: class_number(Class::Error),
            proxy: proxy_number(p),
            has_app: 0,
            app: 0,
            name,
        },
        DefHead::Group(_) => unreachable!(),
    }
}

/// The AVP at an index of the dictionary's order.
pub fn avp_at<B: Book>(book: &B, index: usize) -> Option<DictAvp>
    ensures some { IfSome result (IsAvpAt (B.meaning book.now) index) }
    ensures none { result ≡ None → length (B.meaning book.now).entries ≤ index }
{
    if index >= book.entries() {
        return None;
    }
    let entry = book.entry_at(index);
    let key = book.entry_key(entry);
    let (name_count, name) = cut_name(book.entry_name(entry));
    Some(DictAvp {
        name_count,
        code: key.code,
        vendor: key.vendor,
        format: format_number(book.format(entry).name()),
        mandatory: mandatory_number(book.rule(entry)),
        name,
    })
}

fn class_number(class: Class) -> u32
    ensures { result ≡ class_number class }
{
    match class {
        Class::Request => 0,
        Class::Answer => 1,
        Class::Error => 2,
    }
}

fn proxy_number(p: Pxy) -> u32
    ensures { result ≡ proxy_number p }
{
    match p {
        Pxy::Clear => 0,
        Pxy::Set => 1,
        Pxy::Either => 2,
    }
}

fn mandatory_number(rule: MRule) -> u32
    ensures { result ≡ mandatory_number rule }
{
    match rule {
        MRule::Any => 0,
        MRule::Must => 1,
        MRule::MustNot => 2,
    }
}
