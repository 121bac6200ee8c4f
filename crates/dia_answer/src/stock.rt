//! The AVPs that an answer may hold.

ghost use Rattle.std.specs.Prelude.{◌≡◌, ◌<◌, ◌↔◌, ◌++◌, ◌∷◌, [], true, not, IfOk, IsTrue, List, OnOk, filter, find, if◌then◌else◌, length, map};
ghost use Rattle.std.specs.List.{list_all};
ghost use Rattle.std.specs.Option.{option_map};
ghost use Rattle.dia_wire.specs.Wire.{PlainAvp, key_of, plain_avp};
ghost use Rattle.dia_book.specs.Dictionary.{lists_key};
ghost use Rattle.dia_valid.specs.Valid.{has_wildcard, is_listed};
ghost use Rattle.dia_book.specs.Keys.{same_key};
ghost use Rattle.dia_answer.specs.Bodies.{
  AllOf,
  IsSession,
  IsStock,
  error_messages,
  failed_avps,
  in_order,
  may_fail,
  proxy_info,
};
ghost use Rattle.dia_answer.specs.Helds.{plain_held, plains};
ghost use Rattle.dia_answer.specs.Sources.{in_extent, parts_of};
ghost use Rattle.dia_answer.specs.Stocks.{
  TakesData,
  has_format,
  is_nest,
  is_text,
  may_be_unlisted,
  may_hold,
  own,
};

use crate::alone::{Alone, Judge};
use crate::codes::{
    ERROR_MESSAGE, FAILED_AVP, ORIGIN_HOST, ORIGIN_REALM, PROXY_INFO, RESULT_CODE, SESSION_ID,
    base_key,
};
use crate::contents::{Contents, Extent};
use crate::copies::{push_copies, push_fitting};
use crate::example::m_flag;
use crate::forms::Form;
use crate::held::Held;
use dia_book::{Book, DRule, Format, Leaf, accepts};
use dia_wire::{Avp, Key};
use std::alloc::{AllocError, Global};

/// The AVPs that an answer may hold: at first those that are few, then each Proxy-Info.
#[derive(Drop)]
pub(crate) struct Stock<'a> {
    pub(crate) few: Vec<Held<'a>>,
    pub(crate) proxies: Vec<Held<'a>>,
}

impl<'a> Stock<'a> {
    /// The AVPs that an answer of this form and these rules may hold. The rules are of a command of the book.
    pub(crate) fn new<B: Book>(
        book: &B,
        form: Form,
        rules: &[DRule],
        contents: &'a Contents<'_>,
        extent: Extent,
    ) -> Result<Self, AllocError>
        requires some { 0 < length (B.meaning book.now).commands }
        ensures stock { IfOk result (λ s. IsStock (B.meaning book.now) form rules.now
            (in_extent extent (parts_of contents.now)) (plains s.few.items ++ plains s.proxies.items)) }
        ensures proxies { IfOk result (λ s. AllOf proxy_info (plains s.proxies.items)) }
    {
        let alloc = contents.alloc;
        let request = contents.request.as_slice();
        let judge = Judge {
            alloc,
            book: Alone::new(alloc, book)?,
            unknown: contents.unknown,
            levels: contents.levels,
        };
        let mut few = Vec::new(alloc);
        push_session(&mut few, book, request)?;
        push_sender(&mut few, book, contents)?;
        push_message(&mut few, book, rules, contents.line(extent))?;
        push_failed(&mut few, book, form, rules, contents.failed(extent))?;
        push_copies(&mut few, &judge, form, rules, request)?;
        let mut proxies = Vec::new(alloc);
        let wanted = base_key(PROXY_INFO);
        push_fitting(&mut proxies, &judge, request, wanted, request.len())?;
        Ok(Stock { few, proxies })
    }

    /// Whether each AVP but Error-Message is listed by a rule.
    pub(crate) fn is_listed(&self, rules: &[DRule]) -> bool
        requires { AllOf proxy_info (plains self.now.proxies.items) }
        ensures { result ≡ list_all (may_be_unlisted rules.now) (plains self.now.few.items ++ plains self.now.proxies.items) }
    {
        all_listed(&self.few, rules)
            && (is_listed(rules, base_key(PROXY_INFO)) || self.proxies.as_slice().is_empty())
    }

    /// The AVPs in the order of the rules, and then those that no rule lists.
    pub(crate) fn in_order(
        &self,
        alloc: Global,
        rules: &[DRule],
    ) -> Result<Vec<Held<'a>>, AllocError>
        requires { AllOf proxy_info (plains self.now.proxies.items) }
        ensures { IfOk result (λ avps. plains avps.items
            ≡ in_order rules.now (plains self.now.few.items ++ plains self.now.proxies.items)) }
    {
        let mut avps = Vec::new(alloc);
        for rule in rules {
            self.push_of_rule(&mut avps, rule)?;
        }
        self.push_rest(&mut avps, rules)?;
        Ok(avps)
    }

    /// Adds the AVPs of a rule.
    fn push_of_rule(&self, out: &mut Vec<Held<'a>>, rule: &DRule) -> Result<(), AllocError>
        requires { AllOf proxy_info (plains self.now.proxies.items) }
        ensures { OnOk result (plains out.new.items ≡ plains out.old.items
            ++ filter (λ v. lists_key (key_of v) rule.now) (plains self.now.few.items ++ plains self.now.proxies.items)) }
    {
        push_listed(out, &self.few, rule)?;
        if lists(rule, base_key(PROXY_INFO)) {
            out.extend_from_slice(&self.proxies)?;
        }
        Ok(())
    }

    /// Adds the AVPs that no rule lists.
    fn push_rest(&self, out: &mut Vec<Held<'a>>, rules: &[DRule]) -> Result<(), AllocError>
        requires { AllOf proxy_info (plains self.now.proxies.items) }
        ensures { OnOk result (plains out.new.items ≡ plains out.old.items
            ++ filter (λ v. not (is_listed rules.now (key_of v))) (plains self.now.few.items ++ plains self.now.proxies.items)) }
    {
        push_unlisted(out, &self.few, rules)?;
        if is_unlisted(rules, base_key(PROXY_INFO)) {
            out.extend_from_slice(&self.proxies)?;
        }
        Ok(())
    }
}

fn lists(rule: &DRule, key: Key) -> bool
    ensures { result ≡ lists_key key rule.now }
{
    rule.key == Some(key)
}

pub(crate) fn is_listed(rules: &[DRule], key: Key) -> bool
    ensures { result ≡ is_listed rules.now key }
{
    rules.iter().any(|rule| lists(rule, key))
}

fn is_unlisted(rules: &[DRule], key: Key) -> bool
    ensures { result ≡ not (is_listed rules.now key) }
{
    !is_listed(rules, key)
}

/// Whether a rule lists the key, or there is a wildcard.
fn may_hold(rules: &[DRule], key: Key) -> bool
    ensures { result ≡ may_hold rules.now key }
{
    is_listed(rules, key) || has_wildcard(rules)
}

fn has_wildcard(rules: &[DRule]) -> bool
    ensures { result ≡ has_wildcard rules.now }
{
    rules.iter().any(|rule| rule.key.is_none())
}

fn all_listed(avps: &[Held<'_>], rules: &[DRule]) -> bool
    ensures { result ≡ list_all (λ v. may_be_unlisted rules.now (plain_avp v.avp)) avps.now }
{
    avps.iter().all(|avp| may_be_unlisted(avp, rules))
}

fn may_be_unlisted(avp: &Held<'_>, rules: &[DRule]) -> bool
    ensures { result ≡ may_be_unlisted rules.now (plain_avp avp.now.avp) }
{
    avp.key() == base_key(ERROR_MESSAGE) || is_listed(rules, avp.key())
}

fn push_listed<'a>(
    out: &mut Vec<Held<'a>>,
    avps: &[Held<'a>],
    rule: &DRule,
) -> Result<(), AllocError>
    ensures { OnOk result (plains out.new.items
        ≡ plains out.old.items ++ filter (λ v. lists_key (key_of v) rule.now) (plains avps.now)) }
{
    for avp in avps {
        push_if(out, avp, lists(rule, avp.key()))?;
    }
    Ok(())
}

fn push_unlisted<'a>(
    out: &mut Vec<Held<'a>>,
    avps: &[Held<'a>],
    rules: &[DRule],
) -> Result<(), AllocError>
    ensures { OnOk result (plains out.new.items
        ≡ plains out.old.items ++ filter (λ v. not (is_listed rules.now (key_of v))) (plains avps.now)) }
{
    for avp in avps {
        push_if(out, avp, is_unlisted(rules, avp.key()))?;
    }
    Ok(())
}

fn push_if<'a>(out: &mut Vec<Held<'a>>, avp: &Held<'a>, is: bool) -> Result<(), AllocError>
    ensures { OnOk result (plains out.new.items
        ≡ plains out.old.items ++ (if is then plain_held avp.now ∷ [] else [])) }
{
    if is {
        out.push(*avp)?;
    }
    Ok(())
}

/// An AVP of the base protocol with these data.
fn own<'a, B: Book>(book: &B, code: u32, bytes: &'a [u8]) -> Held<'a>
    ensures { plain_avp result.avp ≡ own (B.meaning book.now) code bytes.now }
{
    Held::new(Avp {
        code,
        flags: m_flag(book, base_key(code)),
        vendor: None,
        bytes,
    })
}

/// Adds an AVP of the base protocol with these data.
fn push_own<'a, B: Book>(
    out: &mut Vec<Held<'a>>,
    book: &B,
    code: u32,
    bytes: &'a [u8],
) -> Result<(), AllocError>
    ensures { OnOk result (plains out.new.items
        ≡ plains out.old.items ++ own (B.meaning book.now) code bytes.now ∷ []) }
{
    out.push(own(book, code, bytes))?;
    Ok(())
}

/// Adds Result-Code, Origin-Host and Origin-Realm (RFC 6733 sections 7.1, 6.3 and 6.4).
fn push_sender<'a, B: Book>(
    out: &mut Vec<Held<'a>>,
    book: &B,
    contents: &'a Contents<'_>,
) -> Result<(), AllocError>
    ensures { OnOk result (plains out.new.items ≡ plains out.old.items
        ++ (own (B.meaning book.now) 268 contents.now.code
        ∷ own (B.meaning book.now) 264 contents.now.names.host.now
        ∷ own (B.meaning book.now) 296 contents.now.names.realm.now ∷ [])) }
{
    push_own(out, book, RESULT_CODE, &contents.code)?;
    push_own(out, book, ORIGIN_HOST, contents.names.host.as_bytes())?;
    push_own(out, book, ORIGIN_REALM, contents.names.realm.as_bytes())
}

/// Adds the data of the request's first Session-Id, if the dictionary takes it (RFC 6733 section 6.2).
fn push_session<'a, B: Book>(
    out: &mut Vec<Held<'a>>,
    book: &B,
    request: &[Held<'a>],
) -> Result<(), AllocError>
    ensures { OnOk result ((these : List PlainAvp) × IsSession (B.meaning book.now) (plains request.now) these
        × (plains out.new.items ≡ plains out.old.items ++ these)) }
{
    let wanted = base_key(SESSION_ID);
    let Some(avp) = first_of(request, wanted) else {
        return Ok(());
    };
    let bytes = avp.avp.bytes;
    if takes(book, wanted, bytes) {
        push_own(out, book, SESSION_ID, bytes)
    } else {
        Ok(())
    }
}

/// The first AVP of a key.
fn first_of<'b, 'a>(avps: &'b [Held<'a>], wanted: Key) -> Option<&'b Held<'a>>
    ensures { option_map (λ h. plain_held h.now) result
        ≡ find (λ v. same_key (key_of v) wanted) (plains avps.now) }
{
    for avp in avps {
        if has_key(avp, wanted) {
            return Some(avp);
        }
    }
    None
}

fn has_key(avp: &Held<'_>, wanted: Key) -> bool
    ensures { result ≡ same_key (key_of (plain_held avp.now)) wanted }
{
    avp.key() == wanted
}

/// Whether these are data of a leaf of the key.
fn takes<B: Book>(book: &B, key: Key, bytes: &[u8]) -> bool
    ensures { IsTrue result ↔ TakesData (B.meaning book.now) key bytes.now }
{
    let Some(entry) = book.avp(key) else {
        return false;
    };
    match book.format(entry) {
        Format::Grouped => false,
        format => accepts(format, bytes) == Leaf::Fine,
    }
}

/// Whether the dictionary has the key with a format that passes a test.
fn has_text<B: Book>(book: &B, key: Key) -> bool
    ensures { result ≡ has_format is_text (B.meaning book.now) key }
{
    match book.avp(key) {
        Some(entry) => matches!(book.format(entry), Format::Utf8String | Format::OctetString),
        None => false,
    }
}

/// Whether the dictionary has the key as a group or as octets.
fn has_nest<B: Book>(book: &B, key: Key) -> bool
    ensures { result ≡ has_format is_nest (B.meaning book.now) key }
{
    match book.avp(key) {
        Some(entry) => matches!(book.format(entry), Format::Grouped | Format::OctetString),
        None => false,
    }
}

/// Adds Error-Message (RFC 6733 section 7.3), where the dictionary has it as a text and the definition may hold it.
fn push_message<'a, B: Book>(
    out: &mut Vec<Held<'a>>,
    book: &B,
    rules: &[DRule],
    line: Option<&'a str>,
) -> Result<(), AllocError>
    ensures { OnOk result (plains out.new.items ≡ plains out.old.items
        ++ error_messages (B.meaning book.now) rules.now (option_map (λ l. l.now) line.entry)) }
{
    let Some(line) = line else {
        return Ok(());
    };
    let wanted = base_key(ERROR_MESSAGE);
    if has_text(book, wanted) && may_hold(rules, wanted) {
        out.push(Held::new(Avp {
            code: ERROR_MESSAGE,
            flags: 0,
            vendor: None,
            bytes: line.as_bytes(),
        }))?;
    }
    Ok(())
}

/// Adds Failed-AVP (RFC 6733 section 7.5), where the dictionary has it as a group or as octets and, in an error message, the
/// definition may hold it.
fn push_failed<'a, B: Book>(
    out: &mut Vec<Held<'a>>,
    book: &B,
    form: Form,
    rules: &[DRule],
    failed: Option<&'a [u8]>,
) -> Result<(), AllocError>
    ensures { OnOk result (plains out.new.items ≡ plains out.old.items
        ++ failed_avps (B.meaning book.now) form rules.now (option_map (λ f. f.now) failed.entry)) }
{
    let Some(bytes) = failed else {
        return Ok(());
    };
    if has_nest(book, base_key(FAILED_AVP)) && may_fail(form, rules) {
        push_own(out, book, FAILED_AVP, bytes)
    } else {
        Ok(())
    }
}

/// Whether an answer of this form has Failed-AVP: the command's own answer has it, or isn't taken.
fn may_fail(form: Form, rules: &[DRule]) -> bool
    ensures { result ≡ may_fail form rules.now }
{
    match form {
        Form::Own => true,
        Form::Error | Form::Base => may_hold(rules, base_key(FAILED_AVP)),
    }
}
