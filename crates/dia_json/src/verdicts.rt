//! Verdicts as JSON.

ghost use Rattle.std.specs.Prelude.{◌≡◌, ◌++◌, OnOk, false, true, string_bytes};
ghost use Rattle.serde_json.specs.Written.{members_text};
ghost use Rattle.dia_captures.specs.Verdicts.{IsNamed};
ghost use Rattle.dia_json.specs.Values.{about, both_members, checked_json, checked_members, fault_members};
ghost use Rattle.dia_json.specs.Values.{numbered_json, numbered_refuted_json, placed_json};
ghost use Rattle.dia_refused_json.specs.Members.{key_members, named_members};
ghost use Rattle.dia_json.specs.Values.{refuted_json, refuted_members, subject_members, valid_members};

use dia_captures::{Checked, Flaw, Refuted};
use dia_check::{Fault, Subject};
use dia_dict::Book;
use dia_refused_json::quoted;
use dia_wire::Key;
use std::alloc::{AllocError, Global};

/// Adds the line of a verdict of `check`.
pub fn push_checked<B: Book>(
    alloc: Global,
    text: &mut String,
    book: &B,
    verdict: &Checked,
) -> Result<(), AllocError>
    requires { IsNamed (B.meaning book.now) verdict.now }
    ensures { OnOk result (string_bytes text.new
        ≡ string_bytes text.old ++ checked_json (B.meaning book.now) verdict.now) }
{
    text.push_str("{")?;
    push_members(alloc, text, book, verdict)?;
    text.push_str("\n")
}

/// Adds the line of a verdict on the message in the line of this number.
pub fn push_numbered<B: Book>(
    alloc: Global,
    text: &mut String,
    book: &B,
    number: u64,
    verdict: &Checked,
) -> Result<(), AllocError>
    requires { IsNamed (B.meaning book.now) verdict.now }
    ensures { OnOk result (string_bytes text.new
        ≡ string_bytes text.old ++ numbered_json (B.meaning book.now) number verdict.now) }
{
    write!(text, "{{\"line\":{number},")?;
    push_members(alloc, text, book, verdict)?;
    text.push_str("\n")
}

/// Adds the line of a verdict on a message that begins at a place of a stream.
pub fn push_placed<B: Book>(
    alloc: Global,
    text: &mut String,
    book: &B,
    at: u64,
    verdict: &Checked,
) -> Result<(), AllocError>
    requires { IsNamed (B.meaning book.now) verdict.now }
    ensures { OnOk result (string_bytes text.new
        ≡ string_bytes text.old ++ placed_json (B.meaning book.now) (at, verdict.now)) }
{
    write!(text, "{{\"place\":{at},")?;
    push_members(alloc, text, book, verdict)?;
    text.push_str("\n")
}

/// Adds the line of both verdicts of `refute`.
pub fn push_refuted<A: Book, B: Book>(
    alloc: Global,
    text: &mut String,
    first: &A,
    second: &B,
    verdict: &Refuted,
) -> Result<(), AllocError>
    requires first { IsNamed (A.meaning first.now) verdict.now.first }
    requires second { IsNamed (B.meaning second.now) verdict.now.second }
    ensures { OnOk result (string_bytes text.new
        ≡ string_bytes text.old ++ refuted_json (A.meaning first.now) (B.meaning second.now) verdict.now) }
{
    text.push_str("{")?;
    push_refuted_members(alloc, text, first, second, verdict)?;
    text.push_str("\n")
}

/// Adds the line of both verdicts on the message in the line of this number.
pub fn push_numbered_refuted<A: Book, B: Book>(
    alloc: Global,
    text: &mut String,
    first: &A,
    second: &B,
    number: u64,
    verdict: &Refuted,
) -> Result<(), AllocError>
    requires first { IsNamed (A.meaning first.now) verdict.now.first }
    requires second { IsNamed (B.meaning second.now) verdict.now.second }
    ensures { OnOk result (string_bytes text.new ≡ string_bytes text.old
        ++ numbered_refuted_json (A.meaning first.now) (B.meaning second.now) number verdict.now) }
{
    write!(text, "{{\"line\":{number},")?;
    push_refuted_members(alloc, text, first, second, verdict)?;
    text.push_str("\n")
}

/// Adds the members of both verdicts of `refute`, and the brace at their end.
fn push_refuted_members<A: Book, B: Book>(
    alloc: Global,
    text: &mut String,
    first: &A,
    second: &B,
    verdict: &Refuted,
) -> Result<(), AllocError>
    requires first { IsNamed (A.meaning first.now) verdict.now.first }
    requires second { IsNamed (B.meaning second.now) verdict.now.second }
    ensures { OnOk result (string_bytes text.new ≡ string_bytes text.old
        ++ members_text false (refuted_members (A.meaning first.now) (B.meaning second.now) verdict.now)) }
{
    match &verdict.first {
        Checked::Wrong(Flaw::TooLong) => {
            text.push_str("\"error\":\"message\",\"kind\":\"too long\"}")
        }
        Checked::Wrong(Flaw::NotHexadecimal) => {
            text.push_str("\"error\":\"message\",\"kind\":\"not hexadecimal\"}")
        }
        _ => push_both(alloc, text, first, second, verdict),
    }
}

/// Adds the members of both verdicts on a text that spells a message, and the brace at their end.
fn push_both<A: Book, B: Book>(
    alloc: Global,
    text: &mut String,
    first: &A,
    second: &B,
    verdict: &Refuted,
) -> Result<(), AllocError>
    requires first { IsNamed (A.meaning first.now) verdict.now.first }
    requires second { IsNamed (B.meaning second.now) verdict.now.second }
    ensures { OnOk result (string_bytes text.new ≡ string_bytes text.old
        ++ members_text false (both_members (A.meaning first.now) (B.meaning second.now) verdict.now)) }
{
    let refutes = verdict.refutes();
    write!(text, "\"refutes\":{refutes},\"first\":{{")?;
    push_members(alloc, text, first, &verdict.first)?;
    text.push_str(",\"second\":{")?;
    push_members(alloc, text, second, &verdict.second)?;
    text.push_str("}")
}

/// Adds the members of a verdict, and the brace at their end.
fn push_members<B: Book>(
    alloc: Global,
    text: &mut String,
    book: &B,
    verdict: &Checked,
) -> Result<(), AllocError>
    requires { IsNamed (B.meaning book.now) verdict.now }
    ensures { OnOk result (string_bytes text.new
        ≡ string_bytes text.old ++ members_text false (checked_members (B.meaning book.now) verdict.now)) }
{
    match verdict {
        Checked::Valid(found) => push_valid(alloc, text, book.def(found.def).name.as_str()),
        Checked::Wrong(Flaw::Fault(fault)) => push_fault(alloc, text, book, fault),
        Checked::Wrong(Flaw::Truncated) => text.push_str("\"verdict\":\"truncated\"}"),
        Checked::Wrong(Flaw::Trailing) => text.push_str("\"verdict\":\"trailing\"}"),
        Checked::Wrong(Flaw::TooLong) => {
            text.push_str("\"error\":\"message\",\"kind\":\"too long\"}")
        }
        Checked::Wrong(Flaw::NotHexadecimal) => {
            text.push_str("\"error\":\"message\",\"kind\":\"not hexadecimal\"}")
        }
    }
}

/// Adds the members of a valid message of this command.
fn push_valid(alloc: Global, text: &mut String, name: &str) -> Result<(), AllocError>
    ensures { OnOk result (string_bytes text.new
        ≡ string_bytes text.old ++ members_text false (valid_members name.now)) }
{
    let name = quoted(alloc, name)?;
    write!(text, "\"verdict\":\"valid\",\"command\":{name}}}")
}

/// Adds the members of a fault.
fn push_fault<B: Book>(
    alloc: Global,
    text: &mut String,
    book: &B,
    fault: &Fault,
) -> Result<(), AllocError>
    ensures { OnOk result (string_bytes text.new
        ≡ string_bytes text.old ++ members_text false (fault_members (B.meaning book.now) fault.now)) }
{
    let code = fault.code;
    let at = fault.place;
    let reason = fault.reason.word();
    write!(
        text,
        "\"verdict\":\"fault\",\"code\":{code},\"at\":{at},\"reason\":\"{reason}\""
    )?;
    push_subject(alloc, text, book, fault.subject)
}

/// Adds the member for what a fault is about, if there is one, and the brace after it.
fn push_subject<B: Book>(
    alloc: Global,
    text: &mut String,
    book: &B,
    subject: Subject,
) -> Result<(), AllocError>
    ensures { OnOk result (string_bytes text.new
        ≡ string_bytes text.old ++ members_text true (subject_members (B.meaning book.now) subject)) }
{
    match subject {
        Subject::Nothing => text.push('}'),
        Subject::Wildcard => text.push_str(",\"avp\":{\"name\":\"AVP\"}}"),
        Subject::Avp(key) => match book.avp(key) {
            Some(entry) => push_known(alloc, text, book.entry_name(entry), key),
            None => push_unknown(text, key),
        },
    }
}

/// Adds an AVP of this name.
fn push_known(alloc: Global, text: &mut String, name: &str, key: Key) -> Result<(), AllocError>
    ensures { OnOk result (string_bytes text.new
        ≡ string_bytes text.old ++ members_text true (about (named_members name.now key))) }
{
    let name = quoted(alloc, name)?;
    let code = key.code;
    let vendor = key.vendor;
    write!(
        text,
        ",\"avp\":{{\"name\":{name},\"code\":{code},\"vendor\":{vendor}}}}}"
    )
}

/// Adds an AVP that the dictionary doesn't know.
fn push_unknown(text: &mut String, key: Key) -> Result<(), AllocError>
    ensures { OnOk result (string_bytes text.new
        ≡ string_bytes text.old ++ members_text true (about (key_members key))) }
{
    let code = key.code;
    let vendor = key.vendor;
    write!(text, ",\"avp\":{{\"code\":{code},\"vendor\":{vendor}}}}}")
}
