//! The words of a finding's detail.
ghost use Rattle.std.specs.Prelude.{◌≡◌, ◌++◌, OnOk, codes, string_bytes};
ghost use Rattle.std.specs.Fmt.{decimal};
ghost use Rattle.dia_lint_text.specs.Names.{base_text, code_of_text, code_text, detail_text, guideline_text, name_of_text};
ghost use Rattle.dia_lint_text.specs.Names.{number_text, other_text, p_word, plain_text, selector_text};

use crate::parts::Parts;
use dia_book::{Book, Key, Pxy};
use dia_lint::{BaseRow, Detail};
use std::alloc::AllocError;

/// Adds what a finding says of its subject.
pub(crate) fn push_detail<B: Book>(
    out: &mut String,
    parts: &Parts<'_, B>,
    detail: Detail,
) -> Result<(), AllocError>
    ensures { OnOk result (string_bytes out.new ≡ string_bytes out.old ++ detail_text (B.meaning parts.now.book.now) detail) }
{
    match detail {
        Detail::Needs(key) => push_needed(out, parts.key_name(key)),
        Detail::ThereIsNo(key) => push_missing(out, parts.key_name(key)),
        Detail::As(def) => push_as(out, parts.def_name(def)),
        Detail::HasSession(def) => push_session(out, parts.def_name(def)),
        Detail::Proxiable { own, of, theirs } => push_p(out, own, parts.def_name(of), theirs),
        _ => push_number(out, detail),
    }
}

fn push_needed(out: &mut String, name: &str) -> Result<(), AllocError>
    ensures { OnOk result (string_bytes out.new ≡ string_bytes out.old ++ (codes "it needs " ++ name.now
        ++ codes ", and there is none")) }
{
    write!(out, "it needs {name}, and there is none")
}

fn push_missing(out: &mut String, name: &str) -> Result<(), AllocError>
    ensures { OnOk result (string_bytes out.new ≡ string_bytes out.old ++ (codes "there is no " ++ name.now)) }
{
    write!(out, "there is no {name}")
}

fn push_as(out: &mut String, name: &str) -> Result<(), AllocError>
    ensures { OnOk result (string_bytes out.new ≡ string_bytes out.old ++ (codes "as " ++ name.now)) }
{
    write!(out, "as {name}")
}

fn push_session(out: &mut String, name: &str) -> Result<(), AllocError>
    ensures { OnOk result (string_bytes out.new ≡ string_bytes out.old ++ (name.now ++ codes " has Session-Id")) }
{
    write!(out, "{name} has Session-Id")
}

fn push_p(out: &mut String, own: Pxy, of: &str, theirs: Pxy) -> Result<(), AllocError>
    ensures { OnOk result (string_bytes out.new ≡ string_bytes out.old ++ (codes "P " ++ p_word own
        ++ codes ", that of " ++ of.now ++ codes " is " ++ p_word theirs)) }
{
    let own = p_word(own);
    let theirs = p_word(theirs);
    write!(out, "P {own}, that of {of} is {theirs}")
}

fn p_word(p: Pxy) -> &'static str
    ensures { result.now ≡ p_word p }
{
    match p {
        Pxy::Clear => "clear",
        Pxy::Set => "set",
        Pxy::Either => "either",
    }
}

/// Adds a detail that has numbers.
fn push_number(out: &mut String, detail: Detail) -> Result<(), AllocError>
    ensures { OnOk result (string_bytes out.new ≡ string_bytes out.old ++ number_text detail) }
{
    match detail {
        Detail::Number(number) => push_decimal(out, number),
        Detail::Selector { code, app } => push_selector(out, code, app),
        Detail::Others { min, max } => push_others(out, min, max),
        Detail::ForExperiments(code) => push_experiment(out, code),
        _ => push_base(out, detail),
    }
}

fn push_decimal(out: &mut String, number: u32) -> Result<(), AllocError>
    ensures { OnOk result (string_bytes out.new ≡ string_bytes out.old ++ decimal number) }
{
    write!(out, "{number}")
}

fn push_others(out: &mut String, min: u32, max: u32) -> Result<(), AllocError>
    ensures { OnOk result (string_bytes out.new ≡ string_bytes out.old
        ++ (codes "it takes " ++ decimal min ++ codes ".." ++ decimal max ++ codes " other AVPs")) }
{
    write!(out, "it takes {min}..{max} other AVPs")
}

fn push_experiment(out: &mut String, code: u32) -> Result<(), AllocError>
    ensures { OnOk result (string_bytes out.new ≡ string_bytes out.old ++ (codes "code " ++ decimal code
        ++ codes " is for experiments")) }
{
    write!(out, "code {code} is for experiments")
}

fn push_selector(out: &mut String, code: u32, app: Option<u32>) -> Result<(), AllocError>
    ensures { OnOk result (string_bytes out.new ≡ string_bytes out.old ++ selector_text code app) }
{
    match app {
        Some(app) => write!(out, "code {code}, application {app}"),
        None => write!(out, "code {code}"),
    }
}

/// Adds a detail that has names of the base protocol.
fn push_base(out: &mut String, detail: Detail) -> Result<(), AllocError>
    ensures { OnOk result (string_bytes out.new ≡ string_bytes out.old ++ base_text detail) }
{
    match detail {
        Detail::BaseNotRequired(avp) => push_not_required(out, avp.name()),
        Detail::NameOf(row) => push_name(out, row),
        Detail::CodeOf(key, row) => push_code(out, key, row),
        Detail::Format { own, base } => push_other(out, own.word(), base.word()),
        Detail::M { own, base } => push_other(out, own.word(), base.word()),
        _ => out.push_str(plain(detail)),
    }
}

fn push_not_required(out: &mut String, name: &str) -> Result<(), AllocError>
    ensures { OnOk result (string_bytes out.new ≡ string_bytes out.old ++ (name.now ++ codes " isn't required")) }
{
    write!(out, "{name} isn't required")
}

fn push_name(out: &mut String, row: usize) -> Result<(), AllocError>
    ensures { OnOk result (string_bytes out.new ≡ string_bytes out.old ++ name_of_text row) }
{
    match BaseRow::at(row) {
        Some(row) => {
            let code = row.code;
            let name = row.name;
            write!(out, "code {code} is {name}")
        }
        None => Ok(()),
    }
}

fn push_code(out: &mut String, key: Key, row: usize) -> Result<(), AllocError>
    ensures { OnOk result (string_bytes out.new ≡ string_bytes out.old ++ code_of_text key row) }
{
    match BaseRow::at(row) {
        Some(row) => {
            let base = row.code;
            push_own_code(out, key)?;
            write!(out, ", not {base}")
        }
        None => Ok(()),
    }
}

fn push_own_code(out: &mut String, key: Key) -> Result<(), AllocError>
    ensures { OnOk result (string_bytes out.new ≡ string_bytes out.old ++ code_text key) }
{
    let code = key.code;
    let vendor = key.vendor;
    if vendor == 0 {
        write!(out, "code {code}")
    } else {
        write!(out, "code {code}:{vendor}")
    }
}

fn push_other(out: &mut String, own: &str, base: &str) -> Result<(), AllocError>
    ensures { OnOk result (string_bytes out.new ≡ string_bytes out.old ++ other_text own.now base.now) }
{
    write!(out, "{own}, not {base}")
}

/// A detail that is the same for all subjects.
fn plain(detail: Detail) -> &'static str
    ensures { result.now ≡ plain_text detail }
{
    match detail {
        Detail::NeedsItself => "it needs itself",
        Detail::NeedsOthers => "no AVP is left for its wildcard",
        Detail::TooLong => "it needs more bytes than a message has",
        Detail::NoneLeft => "no AVP is left for it",
        Detail::NoRoom => "no message has room for it",
        Detail::NotHeld => "no valid message has it",
        Detail::WildcardSaysIt => "the wildcard says it",
        Detail::NothingLetsItIn => "nothing lets it in",
        Detail::OnlyWildcards => "only wildcards let it in",
        Detail::NotByRulesAlone => "no valid message has it without an AVP by a wildcard",
        Detail::OfRelays => "application 4294967295 is that of relays",
        _ => plain_guideline(detail),
    }
}

fn plain_guideline(detail: Detail) -> &'static str
    ensures { result.now ≡ guideline_text detail }
{
    match detail {
        Detail::NoErrors => "no code, ERR",
        Detail::NotRequired => "it isn't required",
        Detail::NotProxiable => "the request isn't proxiable",
        Detail::AnswerHasNone => "an answer has none",
        Detail::NotAnyNumber => "not any number of it",
        Detail::NoResult => "neither Result-Code nor Experimental-Result",
        Detail::NoFailedAvp => "it takes no Failed-AVP",
        Detail::NotFirst => "Session-Id isn't the first",
        Detail::NoSession => "neither Session-Id nor Auth-Session-State",
        Detail::NoOthers => "it takes no other AVPs",
        _ => "",
    }
}
