//! The fields of headers.
ghost use Rattle.std.specs.Prelude.{◌≡◌};
ghost use Rattle.dia_differences.specs.Headers.{is_request, messages, pxy_of, selector};

use dia_book::{Class, DefHead};
use dia_terms::Pxy;

/// Which messages a command is for: a code, a class and an application. All that are for errors have one selector (RFC 6733
/// section 7.2).
pub type Selector = (Option<u32>, Class, Option<u32>);

/// The same: the code, none for errors, whether they are requests, and the application.
pub(crate) type Messages = (Option<u32>, bool, Option<u32>);

/// The selector of a command.
pub fn selector_of(head: DefHead) -> Selector
    ensures { result ≡ selector head }
{
    match head {
        DefHead::Command {
            code,
            class,
            app,
            ..
        } => (Some(code), class, app),
        DefHead::Group(_) | DefHead::Error { .. } => (None, Class::Error, None),
    }
}

/// The messages that a command is for.
pub(crate) fn messages_of(head: DefHead) -> Messages
    ensures { result ≡ messages head }
{
    let (code, class, app) = selector_of(head);
    (code, is_request(class), app)
}

fn is_request(class: Class) -> bool
    ensures { result ≡ is_request class }
{
    match class {
        Class::Request => true,
        Class::Answer | Class::Error => false,
    }
}

/// What the P flag of a command's messages may be.
pub fn pxy_of(head: DefHead) -> Pxy
    ensures { result ≡ pxy_of head }
{
    match head {
        DefHead::Command { p, .. } | DefHead::Error { p } => p,
        DefHead::Group(_) => Pxy::Clear,
    }
}
