//! Definitions of groups and commands.
ghost use Rattle.std.specs.Prelude.{◌<◌, length, IfSome};
ghost use Rattle.dia_book.specs.Dictionary.{definitions};

use dia_book::{Book, DefId, Entry};

/// The definition of an entry, if it is a group.
pub(crate) fn group_of<B: Book>(book: &B, entry: Entry) -> Option<DefId>
    requires { entry < length (B.meaning book.now).entries }
    ensures { IfSome result (λ def. def < length (definitions (B.meaning book.now))) }
{
    book.group(entry)
}

/// The definition of the command at a place.
pub(crate) fn command_at<B: Book>(book: &B, index: usize) -> DefId
    requires { index < length (B.meaning book.now).commands }
    ensures { result < length (definitions (B.meaning book.now)) }
{
    book.command_at(index)
}
