//! The texts by which the parts of a dictionary are looked up.

ghost use Rattle.std.specs.Prelude.{◌≡◌, IfOk, string_bytes};
ghost use Rattle.dia_breaking_places.specs.Texts.{app_text, class_word, code_text, command_text, decl_text, def_text};
ghost use Rattle.dia_breaking_places.specs.Texts.{head_code, head_text, number_text};

use dia_ccf::{Decl, Def, Head};
use std::alloc::{AllocError, Global};

/// By what a part is looked up.
#[derive(Clone, Copy)]
pub(crate) enum By {
    Name,
    /// The code and the vendor of an AVP or its group; the code, the class and the application of a command.
    Number,
    /// The code and the class of a command.
    Code,
}

/// `CODE:VENDOR`.
pub(crate) fn number_text(alloc: Global, code: u32, vendor: u32) -> Result<String, AllocError>
    ensures { IfOk result (λ text. string_bytes text ≡ number_text code vendor) }
{
    format!(in alloc; "{code}:{vendor}")
}

/// `CODE REQ`, or `CODE ANS`.
pub(crate) fn code_text(alloc: Global, code: u32, request: bool) -> Result<String, AllocError>
    ensures { IfOk result (λ text. string_bytes text ≡ code_text code request) }
{
    let class = class_word(request);
    format!(in alloc; "{code}{class}")
}

fn class_word(request: bool) -> &'static str
    ensures { result.now ≡ class_word request }
{
    if request { " REQ" } else { " ANS" }
}

/// The same, with the application, if there is one.
pub(crate) fn command_text(
    alloc: Global,
    code: u32,
    request: bool,
    app: Option<u32>,
) -> Result<String, AllocError>
    ensures { IfOk result (λ text. string_bytes text ≡ command_text code request app) }
{
    let mut text = code_text(alloc, code, request)?;
    let app = app_text(alloc, app)?;
    text.push_str(app.as_str())?;
    Ok(text)
}

fn app_text(alloc: Global, app: Option<u32>) -> Result<String, AllocError>
    ensures { IfOk result (λ text. string_bytes text ≡ app_text app) }
{
    match app {
        Some(app) => format!(in alloc; " {app}"),
        None => Ok(String::new(alloc)),
    }
}

/// The text of a definition.
pub(crate) fn def_text(alloc: Global, def: &Def, by: By) -> Result<String, AllocError>
    ensures { IfOk result (λ text. string_bytes text ≡ def_text by def.now) }
{
    match by {
        By::Name => String::from_str(alloc, def.name.as_str()),
        By::Number => head_text(alloc, def.head),
        By::Code => head_code(alloc, def.head),
    }
}

pub(crate) fn head_text(alloc: Global, head: Head) -> Result<String, AllocError>
    ensures { IfOk result (λ text. string_bytes text ≡ head_text head) }
{
    match head {
        Head::Group { code, vendor } => number_text(alloc, code, vendor),
        Head::Command {
            code,
            request,
            app,
            ..
        } => command_text(alloc, code, request, app),
        Head::Error { .. } => String::from_str(alloc, "ERR"),
    }
}

fn head_code(alloc: Global, head: Head) -> Result<String, AllocError>
    ensures { IfOk result (λ text. string_bytes text ≡ head_code head) }
{
    match head {
        Head::Group { code, vendor } => number_text(alloc, code, vendor),
        Head::Command { code, request, .. } => code_text(alloc, code, request),
        Head::Error { .. } => String::from_str(alloc, "ERR"),
    }
}

/// The text of a declaration.
pub(crate) fn decl_text(alloc: Global, decl: &Decl, by: By) -> Result<String, AllocError>
    ensures { IfOk result (λ text. string_bytes text ≡ decl_text by decl.now) }
{
    match by {
        By::Name => String::from_str(alloc, decl.name.as_str()),
        By::Number => number_text(alloc, decl.code, decl.vendor),
        By::Code => number_text(alloc, decl.code, decl.vendor),
    }
}
