//! The words of a finding's subject.
ghost use Rattle.std.specs.Prelude.{◌≡◌, ◌++◌, OnOk, codes, string_bytes};
ghost use Rattle.dia_lint_text.specs.Names.{named_text, subject_text};

use crate::parts::Parts;
use dia_book::Book;
use dia_lint::{Named, Subject};
use std::alloc::AllocError;

/// Adds what a finding is about.
pub(crate) fn push_subject<B: Book>(
    out: &mut String,
    parts: &Parts<'_, B>,
    subject: Subject,
) -> Result<(), AllocError>
    ensures { OnOk result (string_bytes out.new ≡ string_bytes out.old ++ subject_text (B.meaning parts.now.book.now) subject) }
{
    match subject {
        Subject::Definition(def) => out.push_str(parts.def_name(def)),
        Subject::Avp(entry) => out.push_str(parts.avp_name(entry)),
        Subject::Within(def, named) => push_within(out, parts.def_name(def), name_of(parts, named)),
    }
}

fn push_within(out: &mut String, def: &str, avp: &str) -> Result<(), AllocError>
    ensures { OnOk result (string_bytes out.new ≡ string_bytes out.old ++ (def.now ++ codes "/" ++ avp.now)) }
{
    write!(out, "{def}/{avp}")
}

/// The name of the AVPs; `AVP` for those that no rule lists.
pub(crate) fn name_of<'a, B: Book>(parts: &Parts<'a, B>, named: Named) -> &'a str
    ensures { result.now ≡ named_text (B.meaning parts.now.book.now) named }
{
    match named {
        Named::Key(key) => parts.key_name(key),
        Named::Others => "AVP",
        Named::Base(avp) => avp.name(),
    }
}
