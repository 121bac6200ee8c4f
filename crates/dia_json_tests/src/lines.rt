//! Lines and causes of `breaking` as JSON.

use dia_breaking::{Amount, LineParts, LineReason, Path, Standing, Subject};
use dia_ccf::{Source, parse};
use dia_dict::base_book;
use dia_upgrades_json::{Keys, Names, Spelt, Texts, cause_object, line_object};
use std::alloc::{AllocError, Global};
use std::process::Abort;
use std::test::Fail;

/// What both dictionaries' texts say of the lines here.
const TEXT: &str = "%avp X 9001 Time any\n<T> ::= < Diameter Header: 302, REQ >\n  { X }";

/// The AVPs of the base dictionary, as those of both dictionaries, of which this is the text.
fn base_names(alloc: Global, source: &Source) -> Result<Names<'_>, Fail> {
    let book = base_book(alloc)?;
    Ok(Names {
        first: Keys::new(alloc, &book)?,
        second: Keys::new(alloc, &book)?,
        texts: texts_of(alloc, source)?,
    })
}

fn texts_of(alloc: Global, source: &Source) -> Result<Box<Texts<'_>>, Fail> {
    let first = Spelt::new(alloc, TEXT.as_bytes(), source)?;
    let second = Spelt::new(alloc, TEXT.as_bytes(), source)?;
    Ok(Box::new(alloc, Texts { first, second })?)
}

/// A line about a level of `T` itself, of which nothing is sent or accepted.
fn of_command(alloc: Global, application: Option<u32>) -> LineParts<'static> {
    of_level(application, Vec::new(alloc))
}

/// A line about a level of `T` in these groups, of which nothing is sent or accepted.
fn of_level(application: Option<u32>, groups: Vec<&'static str>) -> LineParts<'static> {
    LineParts {
        path: Path {
            command: "T",
            application,
            groups,
        },
        standing: Standing::Confirmed,
        reason: Some(LineReason::Command),
        subject: Subject::Header,
        sent: None,
        following: None,
        accepted: None,
        read: None,
    }
}

fn data(alloc: Global, text: &str) -> Result<Option<Amount>, AllocError> {
    Ok(Some(Amount::Data(String::from_str(alloc, text)?)))
}

const MISSING: &str =
    r#"{"command":"T","path":["G","H"],"reason":"missing","avp":{"name":"Product-Name","code":269,"vendor":0},"sent":"0..1","sent_min":0,"sent_max":1,"accepted":"1..*","accepted_min":1,"accepted_max":null,"in_header":false,"message":"01000014","text":"T/G/H: missing Product-Name: 0..1 sent, 1..* accepted"}"#;

const MISSING_WORDS: &str = "T/G/H: missing Product-Name: 0..1 sent, 1..* accepted";

const UNDECIDED: &str =
    r#"{"undecided":true,"command":"T","path":[],"avp":{"name":"X"},"sent":"Grouped","accepted":"UTF8String","in_header":false,"a":{"line":1,"column":1},"b":{"line":1,"column":1},"text":"T: undecided X: Grouped sent, UTF8String accepted"}"#;

const REFUSED: &str =
    r#"{"command":"T","application":5,"path":[],"reason":"application","refused_application":5,"in_header":true,"a":{"line":2,"column":1},"b":{"line":2,"column":1},"text":"T[application 5]: application 5: not accepted"}"#;

const ORDER: &str =
    r#"{"command":"T","path":[],"reason":"order","avp":{"name":"X"},"behind":"Y","in_header":false,"a":{"line":3,"column":3},"b":{"line":3,"column":3},"text":"T: order X: behind Y sent"}"#;

const MEANING: &str =
    r#"{"command":"T","path":[],"reason":"meaning","avp":{"name":"X"},"sent":"Time","read":"Unsigned32","in_header":false,"a":{"line":1,"column":1},"b":{"line":1,"column":1},"text":"T: meaning X: Time sent, Unsigned32 read"}"#;

const ONCE: &str =
    r#"{"commands":2,"first":{"command":"T","application":5,"path":["G"]},"reason":"m-bit","avp":{"name":"Product-Name","code":269,"vendor":0},"sent":"M clear","accepted":"M set","in_header":false,"text":"m-bit Product-Name: M clear sent, M set accepted, in 2 commands, first in T[application 5]/G"}"#;

#[test]
fn counts_of_a_level_are_numbers(rt: HostRuntime) -> Result<(), Fail> {
    let alloc = rt.alloc();
    let source = parse(alloc, TEXT)?;
    let names = base_names(alloc, &source)?;
    let mut parts = of_level(None, vec![in alloc; "G", "H"]?);
    parts.reason = Some(LineReason::Missing);
    parts.subject = Subject::Avp("Product-Name");
    parts.sent = Some(Amount::Counts {
        min: 0,
        max: Some(1),
    });
    parts.accepted = Some(Amount::Counts { min: 1, max: None });
    let object = line_object(alloc, &names, &parts, MISSING_WORDS, Some("01000014"))?;
    assert!(rt; object.as_str() == MISSING);
    Ok(())
}

#[test]
fn an_undecided_line_has_no_reason(rt: HostRuntime) -> Result<(), Fail> {
    let alloc = rt.alloc();
    let source = parse(alloc, TEXT)?;
    let names = base_names(alloc, &source)?;
    let mut parts = of_command(alloc, None);
    parts.standing = Standing::Undecided;
    parts.reason = None;
    parts.subject = Subject::Avp("X");
    parts.sent = data(alloc, "Grouped")?;
    parts.accepted = data(alloc, "UTF8String")?;
    let words = "T: undecided X: Grouped sent, UTF8String accepted";
    let object = line_object(alloc, &names, &parts, words, None)?;
    assert!(rt; object.as_str() == UNDECIDED);
    Ok(())
}

#[test]
fn a_refused_application_is_a_number(rt: HostRuntime) -> Result<(), Fail> {
    let alloc = rt.alloc();
    let source = parse(alloc, TEXT)?;
    let names = base_names(alloc, &source)?;
    let mut parts = of_command(alloc, Some(5));
    parts.reason = Some(LineReason::Application);
    parts.subject = Subject::Application(5);
    let words = "T[application 5]: application 5: not accepted";
    let object = line_object(alloc, &names, &parts, words, None)?;
    assert!(rt; object.as_str() == REFUSED);
    Ok(())
}

#[test]
fn order_and_meaning_have_members_of_their_own(rt: HostRuntime) -> Result<(), Fail> {
    let alloc = rt.alloc();
    let source = parse(alloc, TEXT)?;
    let names = base_names(alloc, &source)?;
    let mut parts = of_command(alloc, None);
    parts.subject = Subject::Avp("X");
    parts.reason = Some(LineReason::Order);
    parts.following = Some("Y");
    let order = line_object(alloc, &names, &parts, "T: order X: behind Y sent", None)?;
    assert!(rt; order.as_str() == ORDER);
    parts.reason = Some(LineReason::Meaning);
    parts.following = None;
    parts.sent = data(alloc, "Time")?;
    parts.read = Some(String::from_str(alloc, "Unsigned32")?);
    let words = "T: meaning X: Time sent, Unsigned32 read";
    let meaning = line_object(alloc, &names, &parts, words, None)?;
    assert!(rt; meaning.as_str() == MEANING);
    Ok(())
}

#[test]
fn a_cause_has_the_first_place(rt: HostRuntime) -> Result<(), Fail> {
    let alloc = rt.alloc();
    let source = parse(alloc, TEXT)?;
    let names = base_names(alloc, &source)?;
    let mut parts = of_level(Some(5), vec![in alloc; "G"]?);
    parts.reason = Some(LineReason::MBit);
    parts.subject = Subject::Avp("Product-Name");
    parts.sent = Some(Amount::M(false));
    parts.accepted = Some(Amount::M(true));
    let words =
        "m-bit Product-Name: M clear sent, M set accepted, in 2 commands, first in T[application 5]/G";
    let cause = cause_object(alloc, &names, 2, &parts, words, None)?;
    assert!(rt; cause.as_str() == ONCE);
    Ok(())
}
