//! Names of ends and of commands.

ghost use Rattle.std.specs.Prelude.{◌≡◌, ◌++◌, OnOk, string_bytes};
ghost use Rattle.dia_follow_text.specs.Names.{class_of, mark, name_of};

use dia_book::Class;
use dia_dict::Book;
use dia_follow::End;
use std::alloc::AllocError;

pub(crate) fn mark(end: End) -> &'static str
    ensures { result.now ≡ mark end }
{
    match end {
        End::Initiator => ">",
        End::Responder => "<",
    }
}

/// Adds the name of a command, or its code where the dictionary doesn't know it.
pub(crate) fn push_name<B: Book>(
    text: &mut String,
    book: &B,
    code: u32,
    request: bool,
    app: u32,
) -> Result<(), AllocError>
    ensures { OnOk result (string_bytes text.new
        ≡ string_bytes text.old ++ name_of (B.meaning book.now) code request app) }
{
    let class = class_of(request);
    match book.select(code, class, app) {
        Some(command) => text.push_str(book.def(command).name.as_str()),
        None => write!(text, "{code}"),
    }
}

fn class_of(request: bool) -> Class
    ensures { result ≡ class_of request }
{
    if request {
        Class::Request
    } else {
        Class::Answer
    }
}
